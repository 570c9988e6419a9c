//! A reference to a model is a model.

use crate::traits::{DecoderModel, EncoderModel, EntropyModel, Weight};
use std::alloc::AllocError;

impl<M: EntropyModel<PRECISION>, const PRECISION: usize> EntropyModel<PRECISION> for &M {
    type Symbol = M::Symbol;

    type Probability = M::Probability;

    ghost rows = { λ m. M.rows m.now };

    ghost precision_law = { λ m. M.precision_law m.now };
}

impl<M: EncoderModel<PRECISION>, const PRECISION: usize> EncoderModel<PRECISION> for &M {
    ghost symbol_eq = { M.symbol_eq };

    fn left_cumulative_and_probability(
        &self,
        symbol: &M::Symbol,
    ) -> Option<(M::Probability, Weight<M::Probability>)> {
        (**self).left_cumulative_and_probability(symbol)
    }

    ghost equality_law = { M.equality_law };

    ghost within_law = { λ m. M.within_law m.now };
}

impl<M: DecoderModel<PRECISION>, const PRECISION: usize> DecoderModel<PRECISION> for &M {
    ghost stands_for = { M.stands_for };

    ghost may_refuse = { M.may_refuse };

    fn quantile_function(
        &self,
        quantile: M::Probability,
    ) -> Result<(M::Symbol, M::Probability, Weight<M::Probability>), AllocError> {
        (**self).quantile_function(quantile)
    }

    ghost tile_law = { λ m. M.tile_law m.now };
}
