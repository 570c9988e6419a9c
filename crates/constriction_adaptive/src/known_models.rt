//! Models that are known beforehand, one for each symbol.

ghost use Rattle.std.specs.Prelude.{◌<◌, List, length, map, refl};
ghost use Rattle.constriction_model.specs.Rows.{Row};
ghost use Rattle.constriction_adaptive.specs.KnownModels.{first_rows, after_first};

use crate::predictor::{Predictor, Snapshot};
use constriction_coders::ModelWord;
use constriction_model::{DecoderModel, EncoderModel};
use std::alloc::{AllocError, Global};

/// Predicts each symbol by the model at its place in a list, and those after the list by its last
/// model.
///
/// It learns of a symbol only that it came, and takes no memory.
#[derive(Drop)]
pub struct KnownModels<'m, M> {
    /// The models of the symbols to come, at least one.
    pub models: &'m [M],
    ghost some: { 0 < length models.now },
}

impl<'m, M, const PRECISION: usize> Predictor<PRECISION> for KnownModels<'m, M>
where
    M: EncoderModel<PRECISION, Probability: ModelWord> + DecoderModel<PRECISION>,
{
    type Symbol = M::Symbol;

    type Model = M;

    ghost State = { List (List (Row M.Symbol)) };

    ghost state = { λ p. map M.rows p.models.now };

    ghost rows = { first_rows };

    ghost next = { λ s _. after_first s };

    #[inline]
    fn model(&self) -> &M {
        &self.models[0]
    }

    #[inline]
    fn reserve(&mut self) -> Result<(), AllocError> {
        Ok(())
    }

    #[inline]
    fn learn(&mut self, _symbol: &M::Symbol) {
        if self.models.len() > 1 {
            self.models = &self.models[1..];
        }
    }

    ghost next_law = { λ _ _ _ _. refl };
}

impl<'m, M, const PRECISION: usize> Snapshot<PRECISION> for KnownModels<'m, M>
where
    M: EncoderModel<PRECISION, Probability: ModelWord> + DecoderModel<PRECISION>,
{
    /// It takes no memory.
    fn snapshot(&self, _alloc: Global) -> Result<Self, AllocError> {
        Ok(KnownModels {
            models: self.models,
        })
    }
}
