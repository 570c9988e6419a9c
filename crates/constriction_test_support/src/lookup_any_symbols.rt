//! The lookup model of given letters and weights.

ghost use Rattle.constriction.specs.Precision.{IsPrecision};

use constriction::stream::model::{ModelError, NonContiguousLookupDecoderModel};
use std::alloc::Global;

/// A lookup model over these symbols.
pub type Lookup<Symbol, const PRECISION: usize> = NonContiguousLookupDecoderModel<
    Symbol,
    u8,
    Vec<(u8, Symbol)>,
    Vec<u8>,
    PRECISION,
>;

/// The lookup model of these letters and weights.
pub fn lookup<const PRECISION: usize>(
    alloc: Global,
    symbols: &[char],
    weights: &[u8],
    infer: bool,
) -> Result<Lookup<char, PRECISION>, ModelError>
    requires { IsPrecision 8 PRECISION }
{
    Lookup::from_symbols_and_nonzero_fixed_point_probabilities(
        alloc,
        symbols.iter().copied(),
        weights.iter().copied(),
        infer,
    )
}
