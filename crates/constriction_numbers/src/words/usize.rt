//! `usize` as a whole number.

ghost use Rattle.std.specs.Prelude.{refl};
ghost use Rattle.std.specs.Int.NonZero.{non_zero_usize_get};
ghost use Rattle.constriction_numbers.specs.lemmas.Word.{same-above-0};

use crate::index_word::IndexWord;
use crate::whole_number::WholeNumber;
use std::num::NonZeroUsize;

impl WholeNumber for usize {
    const BITS: usize = 64;

    ghost BITS = { 64 };

    type NonZero = NonZeroUsize;

    ghost whole = { λ x. x };

    ghost base = { non_zero_usize_get };

    #[inline]
    fn greatest_word() -> usize {
        usize::MAX
    }

    #[inline]
    fn shifted_right(self, places: usize) -> usize {
        self >> places as u32
    }

    #[inline]
    fn wrapping_pow2(exponent: usize) -> usize {
        usize::wrapping_add(usize::greatest_of_bits(exponent), 1)
    }

    #[inline]
    fn is_at_most(self, other: usize) -> bool {
        self <= other
    }

    #[inline]
    fn is_below(self, other: usize) -> bool {
        self < other
    }

    #[inline]
    fn is_zero_word(self) -> bool {
        self == 0
    }

    #[inline]
    fn is_greatest(self) -> bool {
        self == usize::MAX
    }

    #[inline]
    fn plus(self, other: usize) -> usize {
        self + other
    }

    #[inline]
    fn minus(self, other: usize) -> usize {
        self - other
    }

    #[inline]
    fn wrapping_minus(self, other: usize) -> usize {
        usize::wrapping_sub(self, other)
    }

    #[inline]
    fn times(self, other: usize) -> usize {
        self * other
    }

    #[inline]
    fn divided_by(self, other: usize) -> usize {
        self / other
    }

    #[inline]
    fn from_number(number: usize) -> usize {
        number
    }

    #[inline]
    fn to_number(self) -> usize {
        self
    }

    #[inline]
    fn least() -> usize {
        0
    }

    #[inline]
    fn to_weight(self) -> NonZeroUsize {
        NonZeroUsize::new(self).unwrap()
    }

    #[inline]
    fn from_weight(weight: NonZeroUsize) -> usize {
        NonZeroUsize::get(weight)
    }

    ghost same_law = { λ a b e. e };

    ghost number_law = { λ n _. (n, refl) };

    ghost weight_law = { λ x. x.ok };

    ghost same_weight_law = { λ a b e.
        same-above-0 (λ n h. record { value = n; ok = h }) a.ok b.ok e };
}

impl IndexWord for usize {}
