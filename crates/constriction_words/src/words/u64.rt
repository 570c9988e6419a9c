//! `u64` as a word.

ghost use Rattle.std.specs.Int.NonZero.{non_zero_u64_get};
ghost use Rattle.std.proofs.Common.{refl, lit≤};
ghost use Rattle.std.proofs.lemmas.Bool.Decides.{Decides-eqb};
ghost use Rattle.constriction_numbers.specs.lemmas.Word.{pos-nonzero, same-above-0, lt-whole, le-whole};

use crate::bit_array::{BitArray, NonZeroBitArray};
use std::num::NonZeroU64;

impl NonZeroBitArray for NonZeroU64 {
    type Base = u64;

    ghost base = { non_zero_u64_get };

    fn new(n: u64) -> Option<NonZeroU64> {
        NonZeroU64::new(n)
    }

    fn new_unchecked(n: u64) -> NonZeroU64 {
        NonZeroU64::new(n).unwrap()
    }

    fn get(self) -> u64 {
        NonZeroU64::get(self)
    }

    ghost nonzero_law = { λ x e. pos-nonzero (non_zero_u64_get x) x.ok e };

    ghost same_law = { λ a b e. same-above-0 (λ n h. record { value = n; ok = h }) a.ok b.ok e };

    ghost eq_law = { λ a b. Decides-eqb (non_zero_u64_get a) (non_zero_u64_get b) };
}

impl BitArray for u64 {
    fn into_nonzero(self) -> Option<NonZeroU64> {
        NonZeroU64::new(self)
    }

    fn into_nonzero_unchecked(self) -> NonZeroU64 {
        NonZeroU64::new(self).unwrap()
    }

    fn wrapping_add(&self, v: &u64) -> u64 {
        u64::wrapping_add(*self, *v)
    }

    fn wrapping_sub(&self, v: &u64) -> u64 {
        u64::wrapping_sub(*self, *v)
    }

    fn wrapping_mul(&self, v: &u64) -> u64 {
        u64::wrapping_mul(*self, *v)
    }

    ghost value_law = { λ x. refl };

    ghost fits_law = { λ z. ((λ h. h), (λ h. h)) };

    ghost width_law = { (refl, lit≤ tt) };

    ghost base_law = { λ x. refl };

    ghost eq_law = { Decides-eqb };

    ghost lt_law = { lt-whole };

    ghost le_law = { le-whole };

    ghost zero_law = { refl };

    ghost one_law = { refl };

    ghost highest_law = { refl };

    ghost default_law = { λ x e. e };

    ghost can_add_law = { λ a b h. h };

    ghost add_law = { λ a b r e. e };

    ghost can_sub_law = { λ a b h. h };

    ghost sub_law = { λ a b r e. e };

    ghost can_mul_law = { λ a b h. h };

    ghost mul_law = { λ a b r e. e };

    ghost can_div_law = { λ a b h. h };

    ghost div_law = { λ a b r e. e };

    ghost can_rem_law = { λ a b h. h };

    ghost rem_law = { λ a b r e. e };

    ghost can_shl_law = { λ a n h. h };

    ghost shl_law = { λ a n r e. e };

    ghost can_shr_law = { λ a n h. h };

    ghost shr_law = { λ a n r e. e };
}
