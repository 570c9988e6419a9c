//! `u32` as a whole number.

ghost use Rattle.std.specs.Prelude.{refl};
ghost use Rattle.std.specs.Int.NonZero.{non_zero_u32_get};
ghost use Rattle.constriction_numbers.specs.lemmas.Word.{same-above-0};

use crate::index_word::IndexWord;
use crate::whole_number::WholeNumber;
use std::num::NonZeroU32;

impl WholeNumber for u32 {
    const BITS: usize = 32;

    ghost BITS = { 32 };

    type NonZero = NonZeroU32;

    ghost whole = { λ x. x };

    ghost base = { non_zero_u32_get };

    #[inline]
    fn greatest_word() -> u32 {
        u32::MAX
    }

    #[inline]
    fn shifted_right(self, places: usize) -> u32 {
        self >> places as u32
    }

    #[inline]
    fn wrapping_pow2(exponent: usize) -> u32 {
        u32::wrapping_add(u32::greatest_of_bits(exponent), 1)
    }

    #[inline]
    fn is_at_most(self, other: u32) -> bool {
        self <= other
    }

    #[inline]
    fn is_below(self, other: u32) -> bool {
        self < other
    }

    #[inline]
    fn is_zero_word(self) -> bool {
        self == 0
    }

    #[inline]
    fn is_greatest(self) -> bool {
        self == u32::MAX
    }

    #[inline]
    fn plus(self, other: u32) -> u32 {
        self + other
    }

    #[inline]
    fn minus(self, other: u32) -> u32 {
        self - other
    }

    #[inline]
    fn wrapping_minus(self, other: u32) -> u32 {
        u32::wrapping_sub(self, other)
    }

    #[inline]
    fn times(self, other: u32) -> u32 {
        self * other
    }

    #[inline]
    fn divided_by(self, other: u32) -> u32 {
        self / other
    }

    #[inline]
    fn from_number(number: usize) -> u32 {
        number as u32
    }

    #[inline]
    fn to_number(self) -> usize {
        self as usize
    }

    #[inline]
    fn least() -> u32 {
        0
    }

    #[inline]
    fn to_weight(self) -> NonZeroU32 {
        NonZeroU32::new(self).unwrap()
    }

    #[inline]
    fn from_weight(weight: NonZeroU32) -> u32 {
        NonZeroU32::get(weight)
    }

    ghost same_law = { λ a b e. e };

    ghost number_law = { λ n _. (n, refl) };

    ghost weight_law = { λ x. x.ok };

    ghost same_weight_law = { λ a b e.
        same-above-0 (λ n h. record { value = n; ok = h }) a.ok b.ok e };
}

impl IndexWord for u32 {}
