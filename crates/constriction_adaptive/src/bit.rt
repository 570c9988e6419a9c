//! A model of one bit.

ghost use Rattle.std.specs.Prelude.{◌≡◌, ◌<◌};
ghost use Rattle.std.specs.Bool.{beq};
ghost use Rattle.std.specs.Cmp.{bool_eq_equiv};
ghost use Rattle.std.proofs.Common.{lit<, lit≤};
ghost use Rattle.constriction_adaptive.specs.Bit.{at_least_one, bit_rows, zero_weight};
ghost use Rattle.constriction_adaptive.specs.lemmas.Bit.{bit-tile, bit-within};

use constriction_model::{DecoderModel, EncoderModel, EntropyModel, Weight};
use constriction_words::BitArray;
use std::alloc::AllocError;

/// A model of one bit, at 16 bits of precision. It takes no memory.
#[derive(Clone, Copy, Debug)]
pub struct Bit {
    zero: u16,
    ghost some: { 0 < zero },
    ghost below: { zero < 65536 },
}

impl Bit {
    /// The model of a bit that is `false` with this weight out of 65,536. A weight of 0 is taken
    /// for 1, so that each bit has an entry.
    #[inline]
    pub fn new(weight: u16) -> Self
        ensures { ⟦<Bit as EntropyModel<16>>⟧.rows result ≡ bit_rows (at_least_one weight) }
    {
        if weight == 0 {
            return Bit { zero: 1 };
        }
        Bit { zero: weight }
    }

    /// How much of 65,536 stands for `false`: 1 to 65,535.
    #[inline]
    pub fn weight(&self) -> u16
        ensures value { result ≡ zero_weight (⟦<Bit as EntropyModel<16>>⟧.rows self.now) }
        ensures some { 0 < result }
    {
        self.zero
    }
}

impl EntropyModel<16> for Bit {
    type Symbol = bool;

    type Probability = u32;

    ghost rows = { λ m. bit_rows m.zero };

    ghost precision_law = { λ _. record { positive = lit< tt; fits = lit≤ tt } };
}

impl EncoderModel<16> for Bit {
    ghost symbol_eq = { beq };

    #[inline]
    fn left_cumulative_and_probability(&self, symbol: &bool) -> Option<(u32, Weight<u32>)> {
        let zero = self.zero as u32;
        if *symbol {
            return Some((zero, (65536 - zero).into_nonzero_unchecked()));
        }
        Some((0, zero.into_nonzero_unchecked()))
    }

    ghost equality_law = { bool_eq_equiv };

    ghost within_law = { λ m. bit-within m.zero m.some m.below };
}

impl DecoderModel<16> for Bit {
    #[inline]
    fn quantile_function(&self, quantile: u32) -> Result<(bool, u32, Weight<u32>), AllocError> {
        let zero = self.zero as u32;
        if quantile < zero {
            return Ok((false, 0, zero.into_nonzero_unchecked()));
        }
        Ok((true, zero, (65536 - zero).into_nonzero_unchecked()))
    }

    ghost tile_law = { λ m. bit-tile m.zero m.some m.below };
}
