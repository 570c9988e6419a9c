//! A bit whose weight is learned.

ghost use Rattle.std.specs.Prelude.{◌≡◌, ℕ, IfOk, length, map};
ghost use Rattle.constriction_adaptive.specs.Bit.{bit_rows, zero_weight};
ghost use Rattle.constriction_adaptive.specs.Contexts.{even_weights};
ghost use Rattle.constriction_adaptive.specs.Mixing.{slot_after};
ghost use Rattle.constriction_adaptive.specs.lemmas.Bit.{next-same};

use crate::bit::Bit;
use crate::mixing::slot_moved_by;
use crate::predictor::{Predictor, Snapshot};
use constriction_model::EntropyModel;
use std::alloc::{AllocError, Global};

/// Predicts a bit by the bits that came: its weight moves towards each of them by an eighth of the
/// way, and by half of it while both bits are as likely.
///
/// It takes two bytes, so that a [`ByContext`](crate::ByContext) can have one for each of many
/// contexts. Learning takes no memory.
#[derive(Drop)]
pub struct AdaptiveBit {
    current: Bit,
}

impl AdaptiveBit {
    /// Nothing was learned, and both bits are as likely.
    pub fn new() -> Self
        ensures { ⟦<AdaptiveBit as Predictor<16>>⟧.state result ≡ 32768 }
    {
        AdaptiveBit {
            current: Bit::new(32768),
        }
    }

    /// So many predictors, each as [`new`](Self::new) makes one, for a
    /// [`ByContext`](crate::ByContext).
    #[tactic(auto, unfolding(crate::specs::Contexts::even_weights))]
    pub fn new_many(alloc: Global, count: usize) -> Result<Vec<Self>, AllocError>
        ensures ok { IfOk result (λ made.
            map ⟦<AdaptiveBit as Predictor<16>>⟧.state made.items ≡ even_weights count) }
        ensures many { IfOk result (λ made. length made.items ≡ count) }
    {
        let mut made = Vec::with_capacity(alloc, count)?;
        for _ in 0..count {
            made.push_reserved(Self::new());
        }
        Ok(made)
    }
}

impl Predictor<16> for AdaptiveBit {
    type Symbol = bool;

    type Model = Bit;

    ghost State = { ℕ };

    ghost state = { λ p. zero_weight (⟦<Bit as EntropyModel<16>>⟧.rows p.current) };

    ghost rows = { bit_rows };

    ghost next = { λ weight bit. slot_after bit weight };

    #[inline]
    fn model(&self) -> &Bit {
        &self.current
    }

    #[inline]
    fn reserve(&mut self) -> Result<(), AllocError> {
        Ok(())
    }

    #[inline]
    fn learn(&mut self, symbol: &bool) {
        self.current = Bit::new(slot_moved_by(self.current.weight(), *symbol));
    }

    ghost next_law = { next-same (λ weight bit. slot_after bit weight) };
}

impl Snapshot<16> for AdaptiveBit {
    /// It takes no memory.
    fn snapshot(&self, _alloc: Global) -> Result<Self, AllocError> {
        Ok(AdaptiveBit {
            current: self.current,
        })
    }
}
