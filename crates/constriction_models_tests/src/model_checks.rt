//! A model that several tests share, and a check of an answer.

use crate::checks::same;
use constriction::stream::model::{DecoderModel, NonContiguousCategoricalEncoderModel};
use constriction_test_support::any_symbols::{Decoder, plain};
use constriction_test_support::contiguous::{Small, WEIGHTS, weighted};
use std::alloc::Global;
use std::process::Abort;

/// An encoder model over any symbols.
pub type Encoder<Symbol, const PRECISION: usize> = NonContiguousCategoricalEncoderModel<
    Symbol,
    u8,
    PRECISION,
>;

/// The model of the weights 3, 18, 1 and 42.
pub fn small(rt: &impl Abort, alloc: Global) -> Small {
    weighted(alloc, &WEIGHTS, false).expect(rt, "accepted")
}

/// Asserts that the model of letters answers the quantile 21 with the row of `c`.
pub fn has_row(rt: &impl Abort, model: &Decoder<6>) {
    same(rt, plain(model.quantile_function(21)), Ok(('c', 21, 1)));
}
