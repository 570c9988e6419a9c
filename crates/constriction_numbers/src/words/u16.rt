//! `u16` as a whole number.

ghost use Rattle.std.specs.Prelude.{refl};
ghost use Rattle.std.specs.Int.NonZero.{non_zero_u16_get};
ghost use Rattle.constriction_numbers.specs.lemmas.Word.{same-above-0};

use crate::index_word::IndexWord;
use crate::whole_number::WholeNumber;
use std::num::NonZeroU16;

impl WholeNumber for u16 {
    const BITS: usize = 16;

    ghost BITS = { 16 };

    type NonZero = NonZeroU16;

    ghost whole = { λ x. x };

    ghost base = { non_zero_u16_get };

    #[inline]
    fn greatest_word() -> u16 {
        u16::MAX
    }

    #[inline]
    fn shifted_right(self, places: usize) -> u16 {
        self >> places as u32
    }

    #[inline]
    fn wrapping_pow2(exponent: usize) -> u16 {
        u16::wrapping_add(u16::greatest_of_bits(exponent), 1)
    }

    #[inline]
    fn is_at_most(self, other: u16) -> bool {
        self <= other
    }

    #[inline]
    fn is_below(self, other: u16) -> bool {
        self < other
    }

    #[inline]
    fn is_zero_word(self) -> bool {
        self == 0
    }

    #[inline]
    fn is_greatest(self) -> bool {
        self == u16::MAX
    }

    #[inline]
    fn plus(self, other: u16) -> u16 {
        self + other
    }

    #[inline]
    fn minus(self, other: u16) -> u16 {
        self - other
    }

    #[inline]
    fn wrapping_minus(self, other: u16) -> u16 {
        u16::wrapping_sub(self, other)
    }

    #[inline]
    fn times(self, other: u16) -> u16 {
        self * other
    }

    #[inline]
    fn divided_by(self, other: u16) -> u16 {
        self / other
    }

    #[inline]
    fn from_number(number: usize) -> u16 {
        number as u16
    }

    #[inline]
    fn to_number(self) -> usize {
        usize::from(self)
    }

    #[inline]
    fn least() -> u16 {
        0
    }

    #[inline]
    fn to_weight(self) -> NonZeroU16 {
        NonZeroU16::new(self).unwrap()
    }

    #[inline]
    fn from_weight(weight: NonZeroU16) -> u16 {
        NonZeroU16::get(weight)
    }

    ghost same_law = { λ a b e. e };

    ghost number_law = { λ n _. (n, refl) };

    ghost weight_law = { λ x. x.ok };

    ghost same_weight_law = { λ a b e.
        same-above-0 (λ n h. record { value = n; ok = h }) a.ok b.ok e };
}

impl IndexWord for u16 {}
