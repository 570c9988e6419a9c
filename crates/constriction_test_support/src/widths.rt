//! Contiguous models of given weights, over words of each width.

ghost use Rattle.constriction.specs.Precision.{IsPrecision};

use constriction::stream::model::{ContiguousCategoricalEntropyModel, ModelError};
use constriction_words::WholeNumber;
use std::alloc::Global;

/// A contiguous model over any words at any precision.
pub type Model<Word, const PRECISION: usize> = ContiguousCategoricalEntropyModel<
    Word,
    Vec<Word>,
    PRECISION,
>;

/// The model of the weights in a slice.
pub fn model_of<Word: WholeNumber, const PRECISION: usize>(
    alloc: Global,
    weights: &[Word],
    infer_last: bool,
) -> Result<Model<Word, PRECISION>, ModelError>
    requires { IsPrecision Word.BITS PRECISION }
{
    Model::<Word, PRECISION>::from_nonzero_fixed_point_probabilities(
        alloc,
        weights.iter().copied(),
        infer_last,
    )
}
