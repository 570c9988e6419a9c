//! Samples as whole numbers.

ghost use Rattle.std.proofs.Common.{ap, refl};
ghost use Rattle.constriction_words.specs.lemmas.Word.{same-above-0};

use crate::own_word::Sample;
use crate::own_word::nonzero::NonZeroSample;
use constriction_words::{NonZeroBitArray, WholeNumber};

impl WholeNumber for Sample {
    const BITS: usize = 16;

    ghost BITS = { 16 };

    type NonZero = NonZeroSample;

    ghost whole = { λ a. a.0 };

    ghost base = { λ x. x.sample };

    fn greatest_word() -> Sample {
        Sample(u16::greatest_word())
    }

    fn shifted_right(self, places: usize) -> Sample {
        Sample(self.0.shifted_right(places))
    }

    fn wrapping_pow2(exponent: usize) -> Sample {
        Sample(u16::wrapping_pow2(exponent))
    }

    fn is_at_most(self, other: Sample) -> bool {
        self.0.is_at_most(other.0)
    }

    fn is_below(self, other: Sample) -> bool {
        self.0.is_below(other.0)
    }

    fn is_zero_word(self) -> bool {
        self.0.is_zero_word()
    }

    fn is_greatest(self) -> bool {
        self.0.is_greatest()
    }

    fn plus(self, other: Sample) -> Sample {
        Sample(self.0.plus(other.0))
    }

    fn minus(self, other: Sample) -> Sample {
        Sample(self.0.minus(other.0))
    }

    fn wrapping_minus(self, other: Sample) -> Sample {
        Sample(self.0.wrapping_minus(other.0))
    }

    fn times(self, other: Sample) -> Sample {
        Sample(self.0.times(other.0))
    }

    fn divided_by(self, other: Sample) -> Sample {
        Sample(self.0.divided_by(other.0))
    }

    fn from_number(number: usize) -> Sample {
        Sample(u16::from_number(number))
    }

    fn to_number(self) -> usize {
        self.0.to_number()
    }

    fn least() -> Sample {
        Sample(u16::least())
    }

    fn to_weight(self) -> NonZeroSample {
        NonZeroSample::new_unchecked(self)
    }

    fn from_weight(weight: NonZeroSample) -> Sample {
        weight.get()
    }

    ghost same_law = { λ a b e. ap (λ n. record { 0 = n }) e };

    ghost number_law = { λ n _. (record { 0 = n }, refl) };

    ghost weight_law = { λ x. x.positive };

    ghost same_weight_law = { λ a b e.
        same-above-0 (λ n h. record { sample = record { 0 = n }; positive = h }) a.positive
        b.positive (ap (λ s. s.0) e) };
}
