//! Symbols that have a model each, from a list.

ghost use Rattle.std.specs.Prelude.{◌<◌, IfSome, length};
ghost use Rattle.std.specs.List.{AllZip};
ghost use Rattle.constriction.specs.Coding.{StandsForEqual};

use constriction::stream::model::{DecoderModel, EncoderModel};
use constriction_adaptive::{KnownModels, queue, stack};
use constriction_coders::ModelWord;
use constriction_coders::stack::AnsCoder;
use std::alloc::Global;

/// A message of symbols that have a model each comes back.
pub fn in_a_message<M, const PRECISION: usize>(
    alloc: Global,
    models: &[M],
    symbols: &[M::Symbol],
) -> Option<Vec<M::Symbol>>
where
    M: EncoderModel<PRECISION, Probability: ModelWord> + DecoderModel<PRECISION>,
    M::Symbol: Drop,
    requires { 0 < length models.now }
    ensures { IfSome result (λ answers.
        AllZip (StandsForEqual M.stands_for M.symbol_eq) symbols.now answers.items) }
{
    let (mut encoding, mut decoding) = (KnownModels { models }, KnownModels { models });
    queue::message_comes_back::<KnownModels<M>, PRECISION>(
        alloc,
        &mut encoding,
        &mut decoding,
        symbols,
    ).ok()
}

/// The same on a stack.
pub fn on_a_stack<M, const PRECISION: usize>(
    alloc: Global,
    models: &[M],
    symbols: &[M::Symbol],
    coder: &mut AnsCoder<Vec<u32>>,
) -> Option<Vec<M::Symbol>>
where
    M: EncoderModel<PRECISION, Probability: ModelWord> + DecoderModel<PRECISION>,
    M::Symbol: Drop,
    requires { 0 < length models.now }
    ensures { IfSome result (λ answers.
        AllZip (StandsForEqual M.stands_for M.symbol_eq) symbols.now answers.items) }
{
    let (mut encoding, mut decoding) = (KnownModels { models }, KnownModels { models });
    stack::there_and_back(alloc, &mut encoding, &mut decoding, symbols, coder).ok()
}
