//! The contiguous model of given weights.

ghost use Rattle.constriction.specs.Precision.{IsPrecision};

use constriction::stream::model::{ContiguousCategoricalEntropyModel, ModelError};
use std::alloc::Global;

/// A contiguous model whose words are `u8`.
pub type Weighted<const PRECISION: usize> = ContiguousCategoricalEntropyModel<
    u8,
    Vec<u8>,
    PRECISION,
>;

pub type Small = Weighted<6>;

/// The weights of a small model.
pub const WEIGHTS: [u8; 4] = [3, 18, 1, 42];

/// The model of these weights.
pub fn weighted<const PRECISION: usize>(
    alloc: Global,
    weights: &[u8],
    infer: bool,
) -> Result<Weighted<PRECISION>, ModelError>
    requires { IsPrecision 8 PRECISION }
{
    Weighted::from_nonzero_fixed_point_probabilities(alloc, weights.iter().copied(), infer)
}
