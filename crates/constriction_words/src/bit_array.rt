//! The traits of words, and the laws that a word type meets.

ghost use Rattle.std.specs.Prelude.{◌≡◌, ◌≢◌, ◌↔◌, ◌+◌, ◌*◌, ◌/◌, ◌%◌, ◌^◌, ◌-◌, ◌<◌, ◌≤◌, ℕ, ℤ, pos, IsNone, IsTrue, IfSome};
ghost use Rattle.std.specs.Int.{FitsUnsignedBits};
ghost use Rattle.num_traits.specs.Laws.{bit_len};
ghost use Rattle.std.specs.Ordering.{partial_lt, partial_le};

use constriction_numbers::WholeNumber;
use num_traits::{FixedWidth, PrimInt};
use std::default::Default;
use std::fmt::{Debug, Display};
use std::hash::Hash;

/// A word other than 0. Answers hold weights in this type.
pub trait NonZeroBitArray: Copy + Display + Debug + Eq + Hash {
    /// The words, with 0.
    type Base: FixedWidth + Copy + Ord + Display + Debug + Hash;

    // The word that is held.
    ghost base: { Self → Self.Base };

    /// The word, or `None` if it is 0.
    fn new(n: Self::Base) -> Option<Self>
        ensures none { IsNone result ↔ (Self.Base.value n ≡ pos 0) }
        ensures some { IfSome result (λ x. base x ≡ n) };

    /// The word, which is not 0.
    fn new_unchecked(n: Self::Base) -> Self
        requires { Self.Base.value n ≢ pos 0 }
        ensures { base result ≡ n };

    /// The word that is held.
    fn get(self) -> Self::Base
        ensures value { result ≡ base self }
        ensures range { Self.Base.fits (Self.Base.value result) };

    ghost nonzero_law: { (x : Self) → Self.Base.value (base x) ≢ pos 0 };

    // Values that hold the same word are equal.
    ghost same_law: { (a b : Self) → base a ≡ base b → a ≡ b };

    // `==` compares the words that are held.
    ghost eq_law: { (a b : Self) → IsTrue (Self.eq a b) ↔ (base a ≡ base b) };
}

/// A word: an unsigned integer of a fixed number of bits, with the operators of Rust.
///
/// `+`, `-` and `*` are exact, and require that the result is a word. Left shifts and the wrapping
/// calls are modulo `2^BITS`.
///
/// `u8`, `u16`, `u32`, `u64`, `usize` (64 bits) and `u128` are words. A caller's own type may be
/// one too.
pub trait BitArray: WholeNumber<NonZero: NonZeroBitArray<Base = Self>>
    + PrimInt
    + Default
    + Copy
    + Display
    + Debug
    + Eq
    + Hash {
    /// The word as a weight, or `None` if it is 0.
    fn into_nonzero(self) -> Option<Self::NonZero>
        ensures none { IsNone result ↔ (Self.whole self ≡ 0) }
        ensures some { IfSome result (λ x. Self.NonZero.base x ≡ self) }
        ensures range { Self.whole self < 2 ^ Self.BITS };

    /// The word, which is not 0, as a weight.
    fn into_nonzero_unchecked(self) -> Self::NonZero
        requires { Self.whole self ≢ 0 }
        ensures { Self.NonZero.base result ≡ self };

    /// The sum, modulo `2^BITS`.
    fn wrapping_add(&self, v: &Self) -> Self
        ensures { Self.whole result ≡ (Self.whole self.now + Self.whole v.now) % 2 ^ Self.BITS };

    /// The difference, modulo `2^BITS`.
    fn wrapping_sub(&self, v: &Self) -> Self
        ensures range { Self.whole result < 2 ^ Self.BITS }
        ensures difference { (Self.whole result + Self.whole v.now) % 2 ^ Self.BITS
            ≡ Self.whole self.now };

    /// The product, modulo `2^BITS`.
    fn wrapping_mul(&self, v: &Self) -> Self
        ensures { Self.whole result ≡ (Self.whole self.now * Self.whole v.now) % 2 ^ Self.BITS };

    // The number of a word is its value.
    ghost value_law: { (x : Self) → Self.value x ≡ pos (Self.whole x) };

    // A number fits a word if and only if it is a whole number below `2^BITS`.
    ghost fits_law: { (z : ℤ) → Self.fits z ↔ FitsUnsignedBits Self.BITS z };

    ghost width_law: { (Self.BITS ≡ bit_len Self.width) × (Self.BITS ≤ 128) };

    // A weight holds the same word for both traits.
    ghost base_law: { (x : Self.NonZero) → Self.NonZero.base x ≡ Self.base x };

    // `==`, `<` and `<=` compare the numbers.
    ghost eq_law: { (a b : Self) → IsTrue (Self.eq a b) ↔ (Self.whole a ≡ Self.whole b) };

    ghost lt_law: { (a b : Self)
        → IsTrue (partial_lt Self.partial_cmp a b) ↔ (Self.whole a < Self.whole b) };

    ghost le_law: { (a b : Self)
        → IsTrue (partial_le Self.partial_cmp a b) ↔ (Self.whole a ≤ Self.whole b) };

    // The numbers of `zero`, `one`, the greatest word and the default word.
    ghost zero_law: { Self.whole Self.zero ≡ 0 };

    ghost one_law: { Self.whole Self.one ≡ 1 };

    ghost highest_law: { Self.whole Self.highest ≡ 2 ^ Self.BITS - 1 };

    ghost default_law: { (x : Self) → Self.is_default x → Self.whole x ≡ 0 };

    // For each operation, when it may be used and which number it gives. These are two laws, since
    // the proof search picks a law by its conclusion.
    ghost can_add_law: { (a b : Self) → Self.whole a + Self.whole b < 2 ^ Self.BITS
        → Self.can_add a b };

    ghost add_law: { (a b r : Self) → Self.add_gives a b r
        → Self.whole r ≡ Self.whole a + Self.whole b };

    ghost can_sub_law: { (a b : Self) → Self.whole b ≤ Self.whole a → Self.can_sub a b };

    ghost sub_law: { (a b r : Self) → Self.sub_gives a b r
        → Self.whole r ≡ Self.whole a - Self.whole b };

    ghost can_mul_law: { (a b : Self) → Self.whole a * Self.whole b < 2 ^ Self.BITS
        → Self.can_mul a b };

    ghost mul_law: { (a b r : Self) → Self.mul_gives a b r
        → Self.whole r ≡ Self.whole a * Self.whole b };

    ghost can_div_law: { (a b : Self) → 0 < Self.whole b → Self.can_div a b };

    ghost div_law: { (a b r : Self) → Self.div_gives a b r
        → Self.whole r ≡ Self.whole a / Self.whole b };

    ghost can_rem_law: { (a b : Self) → 0 < Self.whole b → Self.can_rem a b };

    ghost rem_law: { (a b r : Self) → Self.rem_gives a b r
        → Self.whole r ≡ Self.whole a % Self.whole b };

    ghost can_shl_law: { (a : Self) (n : ℕ) → n < Self.BITS → Self.can_shl a n };

    ghost shl_law: { (a : Self) (n : ℕ) (r : Self) → Self.shl_gives a n r
        → Self.whole r ≡ (Self.whole a * 2 ^ n) % 2 ^ Self.BITS };

    ghost can_shr_law: { (a : Self) (n : ℕ) → n < Self.BITS → Self.can_shr a n };

    ghost shr_law: { (a : Self) (n : ℕ) (r : Self) → Self.shr_gives a n r
        → Self.whole r ≡ Self.whole a / 2 ^ n };
}
