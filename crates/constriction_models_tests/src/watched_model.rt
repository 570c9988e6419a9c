//! A model of sixteen symbols that are watched, which several tests share.

use constriction::stream::model::{ModelError, NonContiguousCategoricalDecoderModel};
use constriction_test_support::watched::{Tally, Watched, symbols};
use std::alloc::Global;
use std::process::Abort;

pub type Decoder = NonContiguousCategoricalDecoderModel<Watched, u16, Vec<(u16, Watched)>, 12>;

/// The weights of sixteen rows over 12 bits, without the last one, which is 1,380.
pub const WEIGHTS: [u16; 15] = [
    1, 1, 1, 1, 1, 11, 300, 300, 300, 300, 300, 300, 300, 300, 300,
];

/// The model of the numbers from 0 to 15, in order. The first five have one quantile each, the
/// sixth has the quantiles up to 15, and the seventh has those from 16 to 315.
pub fn sixteen(rt: &impl Abort, alloc: Global, tally: &Tally) -> Decoder {
    let symbols = symbols(alloc, tally, 15, 15).expect(rt, "memory");
    of_sorted(alloc, symbols).expect(rt, "accepted")
}

/// The model of these symbols, which are in order.
fn of_sorted(alloc: Global, symbols: Vec<Watched>) -> Result<Decoder, ModelError> {
    Decoder::from_sorted_symbols_and_nonzero_fixed_point_probabilities(
        alloc, symbols, WEIGHTS, true,
    )
}

/// Makes a lookup model of clones of the entries, and lets it go. Clones are equal, as it requires.
pub fn copies(alloc: Global, searching: &Decoder) {
    let _ = searching.to_lookup_decoder_model(alloc);
}
