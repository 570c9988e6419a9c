//! A decoder whose model has other symbols.

ghost use Rattle.std.specs.Prelude.{List, refl};
ghost use Rattle.constriction.specs.Rows.{Row};

use crate::checks::holds;
use constriction::backends::Cursor;
use constriction::stream::model::{
    ContiguousCategoricalEntropyModel, DecoderModel, EncoderModel, EntropyModel,
};
use constriction_adaptive::{Bit, Predictor, queue};
use constriction_coders::ModelWord;
use std::alloc::AllocError;

/// Predicts each symbol by the same model.
#[derive(Drop)]
struct Always<'m, M> {
    model: &'m M,
}

impl<'m, M, const PRECISION: usize> Predictor<PRECISION> for Always<'m, M>
where
    M: EncoderModel<PRECISION, Probability: ModelWord> + DecoderModel<PRECISION>,
{
    type Symbol = M::Symbol;

    type Model = M;

    ghost State = { List (Row M.Symbol) };

    ghost state = { λ p. M.rows p.model.now };

    ghost rows = { λ s. s };

    ghost next = { λ s _. s };

    fn model(&self) -> &M {
        self.model
    }

    fn reserve(&mut self) -> Result<(), AllocError> {
        Ok(())
    }

    fn learn(&mut self, _symbol: &M::Symbol) {}

    ghost next_law = { λ _ _ _ _. refl };
}

/// What a decoder gives are the symbols of its own model, which here has the weights of the
/// encoder's and other symbols.
#[test]
fn a_decoder_gives_the_symbols_of_its_model(rt: HostRuntime) {
    let alloc = rt.alloc();
    let bit = Bit::new(1 << 14);
    let mut encoding = Always { model: &bit };
    let Ok(words) = queue::encode_message(alloc, &mut encoding, &[true, false, true, true]) else {
        panic!(&rt; "the bits were not encoded");
    };
    let Ok(numbers) = ContiguousCategoricalEntropyModel::<
        u32,
        Vec<u32>,
        16,
    >::from_nonzero_fixed_point_probabilities(alloc, [1 << 14, 3 << 14], false) else {
        panic!(&rt; "the weights are not accepted");
    };
    let mut decoding = Always { model: &numbers };
    let source = Cursor::new_at_write_beginning(words);
    match queue::decode_message(alloc, &mut decoding, 4, source) {
        Ok(answers) => holds(&rt, &answers, &[1, 0, 1, 1]),
        Err(_) => panic!(&rt; "the numbers were not decoded"),
    }
}
