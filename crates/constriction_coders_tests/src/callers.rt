//! What callers learn from the contracts alone.

ghost use Rattle.std.specs.Prelude.{◌≡◌, nat_eq, reverse, string_eq, IfOk, IfSome, IsTrue, List, OnOk, Option};
ghost use Rattle.constriction.specs.Entries.{SameEntries};
ghost use Rattle.constriction.specs.Rows.{entry_of};
ghost use Rattle.std.specs.Iterator.{IsFinite, YieldsLast};
ghost use Rattle.std.specs.List.{AllZip};
ghost use Rattle.constriction.specs.Coding.{InTurn, StandsForEqual};
ghost use Rattle.constriction_coders.specs.AnsCoder.{held_by};
ghost use Rattle.constriction_coders.specs.Steps.{IsDecoded, IsEncoded};

mod any_coder;
mod own_models;
pub mod prepared;
pub mod queue;
mod stack;
mod tables;
mod words;

use constriction::backends::{Cursor, StackSource, WordStack};
use constriction::stream::model::{
    DecoderModel, DefaultNonContiguousCategoricalDecoderModel,
    DefaultNonContiguousCategoricalEncoderModel, EncoderModel, EntropyModel, UniformModel,
};
use constriction::{CoderError, DefaultEncoderFrontendError};
use constriction_coders::laws::{compressed_comes_back, symbols_come_back, there_and_back};
use constriction_coders::stack::AnsCoder;
use constriction_coders::{Decode, ModelWord, decode_iid_symbols};
use std::alloc::{AllocError, Global};

/// A decoder of texts over 24 bits of `u32`.
type Texts = DefaultNonContiguousCategoricalDecoderModel<String>;

/// An encoder of such texts.
type TextEncoder = DefaultNonContiguousCategoricalEncoderModel<String>;

/// A message over a `Vec` by any model.
pub fn over_a_vec<M, const PRECISION: usize>(
    alloc: Global,
    coder: &mut AnsCoder<Vec<u32>>,
    model: &M,
    symbols: &[M::Symbol],
) -> Option<Vec<M::Symbol>>
where
    M: EncoderModel<PRECISION, Probability: ModelWord> + DecoderModel<PRECISION>,
    M::Symbol: Drop,
    ensures { IfSome result (λ answers.
        AllZip (StandsForEqual M.stands_for M.symbol_eq) (reverse symbols.now) answers.items) }
{
    there_and_back::<Vec<u32>, M, M, PRECISION>(alloc, coder, model, model, symbols).ok()
}

/// Symbols that were encoded from the last one on come back in order.
pub fn in_order<M, const PRECISION: usize>(
    alloc: Global,
    coder: &mut AnsCoder<Vec<u32>>,
    model: &M,
    symbols: &[M::Symbol],
) -> Option<Vec<M::Symbol>>
where
    M: EncoderModel<PRECISION, Probability: ModelWord> + DecoderModel<PRECISION>,
    M::Symbol: Drop,
    ensures { IfSome result (λ answers.
        AllZip (StandsForEqual M.stands_for M.symbol_eq) symbols.now answers.items) }
{
    symbols_come_back::<M, M, PRECISION>(model, model);
    match coder.encode_iid_slice_reverse::<M, PRECISION>(symbols, model) {
        Ok(()) => {}
        Err(_) => return None,
    }
    match coder.decode_iid_vec::<M>(alloc, symbols.len(), model) {
        Ok(answers) => Some(answers),
        Err(_) => None,
    }
}

/// A message of numbers over a cursor by a uniform model.
pub fn over_a_cursor(
    alloc: Global,
    coder: &mut AnsCoder<Cursor<u32, Vec<u32>>>,
    model: &UniformModel<u32, 24>,
    symbols: &[usize],
) -> Option<Vec<usize>>
    ensures { IfSome result (λ answers. AllZip (λ symbol answer. IsTrue (nat_eq answer symbol))
        (reverse symbols.now) answers.items) }
{
    there_and_back(alloc, coder, model, model, symbols).ok()
}

/// A message of texts by a decoder of them and an encoder of its entries.
pub fn of_texts(
    alloc: Global,
    coder: &mut AnsCoder<Vec<u32>>,
    texts: &Texts,
    encoder: &TextEncoder,
    symbols: &[String],
) -> Option<Vec<String>>
    requires { SameEntries string_eq (⟦<TextEncoder as EntropyModel<24>>⟧.rows encoder.now)
        (⟦<Texts as EntropyModel<24>>⟧.rows texts.now) }
    ensures { IfSome result (λ answers. AllZip (λ symbol answer. IsTrue (string_eq answer symbol))
        (reverse symbols.now) answers.items) }
{
    there_and_back(alloc, coder, texts, encoder, symbols).ok()
}

/// The words of a coder over a `Vec`, and the coder of them: nothing is lost.
pub fn opened_again(coder: AnsCoder<Vec<u32>>) -> Option<AnsCoder<Vec<u32>>>
    ensures { IfSome result (λ again. held_by again ≡ held_by coder) }
{
    compressed_comes_back(coder).ok()
}

/// The symbols that a walk gives one after another, as a run.
pub fn by_a_walk<Backend, D, const PRECISION: usize>(
    alloc: Global,
    coder: &mut AnsCoder<Backend>,
    count: usize,
    model: &D,
) -> Result<Vec<D::Symbol>, CoderError<AllocError, Backend::ReadError>>
where
    Backend: StackSource<u32>,
    D: DecoderModel<PRECISION, Probability: ModelWord>,
    D::Symbol: Drop,
    ensures { IfOk result (λ symbols. InTurn (IsDecoded D.stands_for (D.rows model.now) PRECISION)
        symbols.items (held_by coder.old) (held_by coder.new)) }
{
    let mut symbols = Vec::new(alloc);
    for answer in decode_iid_symbols::<_, D, PRECISION>(coder, count, model) {
        let symbol = answer?;
        match symbols.push(symbol) {
            Ok(()) => {}
            Err(error) => return Err(CoderError::Frontend(error.into())),
        }
    }
    Ok(symbols)
}

/// Encodes what an iterator has left, if its states show that, so that decoding gives it in order.
pub fn from_an_iterator<Backend, E, I, const PRECISION: usize>(
    coder: &mut AnsCoder<Backend>,
    symbols: I,
    model: &E,
) -> Result<(), CoderError<DefaultEncoderFrontendError, Backend::WriteError>>
where
    Backend: WordStack<u32>,
    E: EncoderModel<PRECISION, Probability: ModelWord>,
    E::Symbol: Drop,
    I: DoubleEndedIterator<Item = E::Symbol>,
    requires can_next_back { I.can_next_back symbols }
    requires ends { IsFinite (I.remaining symbols) }
    ensures { OnOk result ((rest : I → List E.Symbol) → ((s : I) (answer : Option E.Symbol) (t : I)
        → I.next_back_gives s answer t → YieldsLast rest s answer t)
        → InTurn (λ s. IsEncoded (entry_of E.symbol_eq (E.rows model.now) s) PRECISION)
        (rest symbols) (held_by coder.new) (held_by coder.old)) }
{
    coder.encode_iid_symbols_reverse::<E, I, PRECISION>(symbols, model)
}
