//! Samples as numbers: their value, 0 and 1, the bounds, and numerals.

ghost use Rattle.std.specs.Prelude.{◌≢◌, ◌-◌, ◌^◌, pos, unsigned_abs, Some, ⊤};
ghost use Rattle.std.specs.Int.{w16, FitsUnsignedBits};
ghost use Rattle.std.specs.Float.Ieee.{of_int};
ghost use Rattle.std.specs.Result.{result_map_both};
ghost use Rattle.std.specs.Str.Parse.{ExplainsUnsignedError, ParsesUnsigned};
ghost use Rattle.std.proofs.Common.{ap, refl, lit<, lit≤, lt_of_lt_of_le};
ghost use Rattle.num_traits.specs.Laws.{wrap_unsigned};
ghost use Rattle.num_traits.specs.Ints.{pos-of-ne, unsigned-between, unsigned-bits, unsigned-bounds, unsigned-can_sub, unsigned-eq, unsigned-order, unsigned-positive_divisor, unsigned-size, unsigned-sub_fits, unsigned-sub_is, unsigned-wrap, unsigned-wrap_fits};

use crate::own_word::Sample;
use num_traits::{Bounded, FixedWidth, Integral, Num, NumCast, Number, One, ToPrimitive, Zero};
use std::num::ParseIntError;

impl Number for Sample {
    ghost exact = { ⊤ };

    ghost value = { λ a. pos a.0 };

    ghost fits = { FitsUnsignedBits 16 };

    ghost nonzero = { λ z. z ≢ pos 0 };

    ghost wrap = { wrap_unsigned 16 };

    ghost eq_law = { λ a b _. unsigned-eq a.0 b.0 };

    ghost order_law = { λ a b _. unsigned-order a.0 b.0 };

    ghost between_law = { λ x y z _. unsigned-between 16 x y z };

    ghost nonzero_law = { λ x _. λ _. ((λ h. h), (λ h. h)) };
}

impl Integral for Sample {
    ghost exact_law = { tt };

    ghost wrap_law = { unsigned-wrap 16 };

    ghost wrap_fits_law = { unsigned-wrap_fits 16 };
}

impl FixedWidth for Sample {
    ghost width = { w16 };

    ghost bits_of = { λ a. a.0 };

    ghost of_bits = { λ n. record { 0 = n } };

    ghost size_law = { unsigned-size 16 };

    ghost small_fits_law = { λ n h. lt_of_lt_of_le h (lit≤ tt) };

    ghost value_round_trip_law = { λ a f. refl };

    ghost bits_round_trip_law = { λ n h. refl };

    ghost bits_of_law = { λ a. unsigned-bits 16 a.0 };

    ghost bits_of_natural_law = { λ a n e. ap unsigned_abs e };

    ghost of_bits_law = { unsigned-bits 16 };
}

impl Zero for Sample {
    ghost zero = { record { 0 = 0 } };

    fn zero() -> Sample {
        Sample(0)
    }

    fn is_zero(&self) -> bool {
        self.0 == 0
    }

    ghost zero_law = { λ _. refl };

    ghost zero_fits_law = { λ _. lit< tt };

    ghost can_add_law = { λ a b h. h tt };

    ghost add_law = { λ a b r h _ _. ap pos h };
}

impl One for Sample {
    ghost one = { record { 0 = 1 } };

    fn one() -> Sample {
        Sample(1)
    }

    ghost one_law = { λ _. refl };

    ghost one_fits_law = { λ _. lit< tt };

    ghost can_mul_law = { λ a b h. h tt };

    ghost mul_law = { λ a b r h _ _. ap pos h };
}

impl Num for Sample {
    type FromStrRadixErr = ParseIntError;

    ghost from_str_radix_gives = { λ text radix r.
        ParsesUnsigned 16 radix text (result_map_both (λ a. a.0) (λ e. e) r)
        × ExplainsUnsignedError radix text r };

    fn from_str_radix(text: &str, radix: u32) -> Result<Sample, ParseIntError> {
        u16::from_str_radix(text, radix).map(Sample)
    }

    ghost can_sub_law = { λ a b h. unsigned-can_sub 16 a.0 b.0 (h tt) };

    ghost sub_law = { λ a b r h _. unsigned-sub_is 16 a.0 b.0 r.0 h };

    ghost sub_fits_law = { λ x y _. unsigned-sub_fits 16 x y };

    ghost can_div_law = { λ a b h. pos-of-ne b.0 (h tt).0 };

    ghost div_law = { λ a b r h _. ap pos h };

    ghost positive_divisor_law = { λ x y _. unsigned-positive_divisor 16 x y };

    ghost can_rem_law = { λ a b h. pos-of-ne b.0 (h tt).0 };

    ghost rem_law = { λ a b r h _. ap pos h };
}

impl Bounded for Sample {
    ghost low = { pos 0 };

    ghost high = { pos (2 ^ 16 - 1) };

    ghost lowest = { record { 0 = 0 } };

    ghost highest = { record { 0 = 2 ^ 16 - 1 } };

    fn min_value() -> Sample {
        Sample(u16::MIN)
    }

    fn max_value() -> Sample {
        Sample(u16::MAX)
    }

    ghost bounds_law = { λ x _. unsigned-bounds 16 x };

    ghost low_fits_law = { λ _. lit< tt };

    ghost high_fits_law = { λ _. lit< tt };
}

impl ToPrimitive for Sample {
    ghost integer_of = { λ a. Some (pos a.0) };

    ghost float_of = { λ f a. Some (of_int f (pos a.0)) };

    fn to_i128(&self) -> Option<i128> {
        self.0.to_i128()
    }

    fn to_u128(&self) -> Option<u128> {
        self.0.to_u128()
    }

    fn to_f32(&self) -> Option<f32> {
        self.0.to_f32()
    }

    fn to_f64(&self) -> Option<f64> {
        self.0.to_f64()
    }

    ghost integer_law = { λ a _. refl };
}

impl NumCast for Sample {
    fn from<T: ToPrimitive>(n: T) -> Option<Sample> {
        n.to_u16().map(Sample)
    }
}
