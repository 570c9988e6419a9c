//! Numbers of so many bits, all as likely.

ghost use Rattle.std.specs.Prelude.{◌≡◌, ◌+◌, ◌-◌, ◌^◌, ◌≤◌, ℕ, IfOk, length, map, nat_eq, refl};
ghost use Rattle.std.specs.Cmp.{nat_eq_equiv};
ghost use Rattle.std.specs.List.{range_with_len};
ghost use Rattle.constriction_model.specs.Precision.{IsPrecision};
ghost use Rattle.constriction_model.specs.Rows.{uniform_rows};
ghost use Rattle.constriction_adaptive.specs.lemmas.Categorical.{number-same};
ghost use Rattle.constriction_adaptive.specs.lemmas.UniformBits.{bits-tile, bits-within, word-precision};

use crate::last_symbols::NumberModel;
use crate::predictor::{Predictor, Snapshot};
use constriction_model::{DecoderModel, EncoderModel, EntropyModel, Weight};
use constriction_words::WholeNumber;
use std::alloc::{AllocError, Global};

/// Predicts the numbers `0..2^bits`, all of the weight `2^(PRECISION - bits)`.
///
/// It learns nothing, and takes no memory. In a [`Pair`](crate::Pair) with such a predictor for
/// each class, the class says how many bits the number after it has.
///
/// It is its own model. `PRECISION` is at most 31, because a number of no bits has all quantiles,
/// `2^PRECISION`, which has to be a word.
#[derive(Debug, Drop)]
pub struct UniformBits<const PRECISION: usize> {
    bits: usize,
    ghost precise: { IsPrecision 31 PRECISION },
    ghost within: { bits ≤ PRECISION },
}

impl<const PRECISION: usize> UniformBits<PRECISION> {
    /// Predicts numbers of so many bits; of none there is one number, 0.
    pub fn new(bits: usize) -> Self
        requires precision { IsPrecision 31 PRECISION }
        requires within { bits ≤ PRECISION }
        ensures { ⟦<UniformBits<PRECISION> as Predictor<PRECISION>>⟧.state result ≡ bits }
    {
        UniformBits { bits }
    }

    /// So many predictors, of 0, 1, .. bits.
    pub fn new_many(alloc: Global, count: usize) -> Result<Vec<Self>, AllocError>
        requires precision { IsPrecision 31 PRECISION }
        requires within { count ≤ PRECISION + 1 }
        ensures ok { IfOk result (λ made.
            map ⟦<UniformBits<PRECISION> as Predictor<PRECISION>>⟧.state made.items
            ≡ range_with_len 0 count) }
        ensures many { IfOk result (λ made. length made.items ≡ count) }
    {
        let mut made = Vec::with_capacity(alloc, count)?;
        for bits in 0..count {
            made.push_reserved(Self::new(bits));
        }
        Ok(made)
    }

    /// The weight of each number.
    #[inline]
    fn weight(&self) -> u32
        ensures { result ≡ 2 ^ (PRECISION - self.now.bits) }
    {
        1 << (PRECISION - self.bits)
    }
}

impl<const PRECISION: usize> EntropyModel<PRECISION> for UniformBits<PRECISION> {
    type Symbol = usize;

    type Probability = u32;

    ghost rows = { λ m. uniform_rows PRECISION (2 ^ m.bits) };

    ghost precision_law = { λ m. word-precision PRECISION m.precise };
}

impl<const PRECISION: usize> EncoderModel<PRECISION> for UniformBits<PRECISION> {
    ghost symbol_eq = { nat_eq };

    #[inline]
    fn left_cumulative_and_probability(&self, symbol: &usize) -> Option<(u32, Weight<u32>)> {
        if *symbol >= 1 << self.bits {
            return None;
        }
        let weight = self.weight();
        Some((*symbol as u32 * weight, weight.to_weight()))
    }

    ghost equality_law = { nat_eq_equiv };

    ghost within_law = { λ m. bits-within PRECISION m.bits m.precise m.within };
}

impl<const PRECISION: usize> DecoderModel<PRECISION> for UniformBits<PRECISION> {
    #[inline]
    fn quantile_function(&self, quantile: u32) -> Result<(usize, u32, Weight<u32>), AllocError> {
        let weight = self.weight();
        let symbol = quantile >> (PRECISION - self.bits);
        Ok((symbol as usize, symbol * weight, weight.to_weight()))
    }

    ghost tile_law = { λ m. bits-tile PRECISION m.bits m.precise m.within };
}

impl<const PRECISION: usize> Predictor<PRECISION> for UniformBits<PRECISION> {
    type Symbol = usize;

    type Model = UniformBits<PRECISION>;

    ghost State = { ℕ };

    ghost state = { λ p. p.bits };

    ghost rows = { λ bits. uniform_rows PRECISION (2 ^ bits) };

    ghost next = { λ bits _. bits };

    #[inline]
    fn model(&self) -> &UniformBits<PRECISION> {
        self
    }

    #[inline]
    fn reserve(&mut self) -> Result<(), AllocError> {
        Ok(())
    }

    #[inline]
    fn learn(&mut self, _symbol: &usize) {}

    ghost next_law = { λ _ _ _ _. refl };
}

impl<const PRECISION: usize> NumberModel<PRECISION> for UniformBits<PRECISION> {
    ghost same_law = { number-same };
}

impl<const PRECISION: usize> Snapshot<PRECISION> for UniformBits<PRECISION> {
    /// It takes no memory.
    fn snapshot(&self, _alloc: Global) -> Result<Self, AllocError> {
        Ok(UniformBits { bits: self.bits })
    }
}
