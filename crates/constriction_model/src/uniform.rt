//! Uniform models: all symbols have the same weight, and the last one also has the remainder.

ghost use Rattle.std.specs.Prelude.{◌≡◌, ◌+◌, ◌-◌, ◌*◌, ◌/◌, ◌^◌, ◌<◌, ◌≤◌, length, nat_eq, ⊤};
ghost use Rattle.std.specs.Cmp.{nat_eq_equiv};
ghost use Rattle.constriction_model.specs.Precision.{IsPrecision};
ghost use Rattle.constriction_model.specs.Rows.{uniform_rows};
ghost use Rattle.constriction_model.specs.lemmas.UniformRows.{IsWeight, bin_of, uniform-within, uniform-tiles};

use crate::traits::{DecoderModel, EncoderModel, EntropyModel, Weight};
use crate::uniform::weights::{last_probability, probability_per_bin, symbol_of};
use constriction_numbers::WholeNumber;
use std::alloc::AllocError;

pub mod symbol_table;
mod weights;

/// A model of the symbols `0..range`. Each has the weight `2^PRECISION / range`, rounded down, and
/// the last one also has the remainder.
///
/// It holds three words and finds a row by one division.
#[derive(Debug, Drop)]
pub struct UniformModel<Probability: WholeNumber, const PRECISION: usize> {
    last_symbol: Probability,
    probability_per_bin: Probability,
    last_probability: Probability,
    ghost precise: { IsPrecision Probability.BITS PRECISION },
    ghost some: { 0 < Probability.whole last_symbol },
    ghost within: { Probability.whole last_symbol < 2 ^ PRECISION },
    ghost index: { Probability.whole last_symbol + 1 < 2 ^ 64 },
    ghost word: { Probability.whole last_symbol < 2 ^ Probability.BITS },
    ghost bin: { Probability.whole probability_per_bin
        ≡ 2 ^ PRECISION / (Probability.whole last_symbol + 1) },
    ghost rest: { Probability.whole last_probability ≡ 2 ^ PRECISION - Probability.whole
        last_symbol * (2 ^ PRECISION / (Probability.whole last_symbol + 1)) },
}

/// The model over 24 bits of `u32`, which suits most uses.
pub type DefaultUniformModel = UniformModel<u32, 24>;

/// The model over 12 bits of `u16`, for use beside other small models.
pub type SmallUniformModel = UniformModel<u16, 12>;

impl<Probability: WholeNumber, const PRECISION: usize> Copy
    for UniformModel<Probability, PRECISION> {}

impl<Probability: WholeNumber, const PRECISION: usize> Clone
    for UniformModel<Probability, PRECISION> {
    ghost is_clone = { λ x y.
        ⟦<Self as EntropyModel<PRECISION>>⟧.rows y ≡ ⟦<Self as EntropyModel<PRECISION>>⟧.rows x };

    ghost is_infallible = { λ _. ⊤ };

    #[inline]
    fn clone(&self) -> Result<Self, AllocError> {
        Ok(UniformModel {
            last_symbol: self.last_symbol,
            probability_per_bin: self.probability_per_bin,
            last_probability: self.last_probability,
        })
    }
}

impl<Probability: WholeNumber, const PRECISION: usize> UniformModel<Probability, PRECISION> {
    /// The model of the symbols `0..range`. It takes no memory and always succeeds. One division.
    #[inline]
    pub fn new(range: usize) -> Self
        requires precision { IsPrecision Probability.BITS PRECISION }
        requires narrow { PRECISION ≤ 64 }
        requires some { 2 ≤ range }
        requires within { range ≤ 2 ^ PRECISION }
        ensures { ⟦<Self as EntropyModel<PRECISION>>⟧.rows result ≡ uniform_rows PRECISION range }
    {
        let last_symbol = Probability::from_number(range - 1);
        let bin = probability_per_bin::<Probability, PRECISION>(last_symbol);
        let last = last_probability::<Probability, PRECISION>(last_symbol, bin);
        Self {
            last_symbol,
            probability_per_bin: bin,
            last_probability: last,
        }
    }

    /// How many symbols the model has: the range.
    #[inline]
    pub fn support_size(&self) -> usize
        ensures { result ≡ length (⟦<Self as EntropyModel<PRECISION>>⟧.rows self.now) }
    {
        self.last_symbol.to_number() + 1
    }

    /// The left cumulative and the weight of a symbol.
    #[inline]
    fn row_words_of(&self, symbol: Probability) -> (Probability, Weight<Probability>)
        requires { Probability.whole symbol ≤ Probability.whole self.now.last_symbol }
        ensures left { Probability.whole result.0
            ≡ Probability.whole symbol * bin_of PRECISION (Probability.whole self.now.last_symbol) }
        ensures weight { IsWeight PRECISION (Probability.whole self.now.last_symbol)
            (Probability.whole symbol) (Probability.whole (Probability.base result.1)) }
    {
        let left = symbol.times(self.probability_per_bin);
        let weight = if symbol.is_below(self.last_symbol) {
            self.probability_per_bin
        } else {
            self.last_probability
        };
        (left, weight.to_weight())
    }
}

impl<Probability: WholeNumber, const PRECISION: usize> EntropyModel<PRECISION>
    for UniformModel<Probability, PRECISION> {
    type Symbol = usize;

    type Probability = Probability;

    ghost rows = { λ m. uniform_rows PRECISION (Probability.whole m.last_symbol + 1) };

    ghost precision_law = { λ m. m.precise };
}

impl<Probability: WholeNumber, const PRECISION: usize> EncoderModel<PRECISION>
    for UniformModel<Probability, PRECISION> {
    ghost symbol_eq = { nat_eq };

    /// The entry of a symbol below the range, and `None` for every other number. The number may
    /// exceed every word, since it is compared before it becomes one. No division.
    #[inline]
    fn left_cumulative_and_probability(
        &self,
        symbol: &usize,
    ) -> Option<(Probability, Weight<Probability>)> {
        if *symbol <= self.last_symbol.to_number() {
            Some(self.row_words_of(Probability::from_number(*symbol)))
        } else {
            None
        }
    }

    ghost equality_law = { nat_eq_equiv };

    ghost within_law = { λ m. uniform-within PRECISION _ m.within _ m.precise.fits m.some };
}

impl<Probability: WholeNumber, const PRECISION: usize> DecoderModel<PRECISION>
    for UniformModel<Probability, PRECISION> {
    /// The row of a quantile, by one division. It takes no memory and always succeeds.
    #[inline]
    fn quantile_function(
        &self,
        quantile: Probability,
    ) -> Result<(usize, Probability, Weight<Probability>), AllocError> {
        let symbol = symbol_of(quantile, self.probability_per_bin, self.last_symbol);
        let (left, weight) = self.row_words_of(symbol);
        Ok((symbol.to_number(), left, weight))
    }

    ghost tile_law = { λ m. uniform-tiles PRECISION _ m.within _ m.precise.fits m.some };
}
