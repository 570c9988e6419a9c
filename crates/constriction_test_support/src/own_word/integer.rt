//! Samples as primitive integers: their bits, byte orders and powers.

ghost use Rattle.std.specs.Prelude.{pos};
ghost use Rattle.std.proofs.Common.{ap, refl};

use crate::own_word::Sample;
use num_traits::PrimInt;

impl PrimInt for Sample {
    fn count_ones(self) -> u32 {
        self.0.count_ones()
    }

    fn count_zeros(self) -> u32 {
        self.0.count_zeros()
    }

    fn leading_ones(self) -> u32 {
        self.0.leading_ones()
    }

    fn leading_zeros(self) -> u32 {
        self.0.leading_zeros()
    }

    fn trailing_ones(self) -> u32 {
        self.0.trailing_ones()
    }

    fn trailing_zeros(self) -> u32 {
        self.0.trailing_zeros()
    }

    fn rotate_left(self, n: u32) -> Sample {
        Sample(self.0.rotate_left(n))
    }

    fn rotate_right(self, n: u32) -> Sample {
        Sample(self.0.rotate_right(n))
    }

    fn signed_shr(self, n: u32) -> Sample {
        Sample(self.0.signed_shr(n))
    }

    fn unsigned_shl(self, n: u32) -> Sample {
        Sample(self.0.unsigned_shl(n))
    }

    fn unsigned_shr(self, n: u32) -> Sample {
        Sample(self.0.unsigned_shr(n))
    }

    fn swap_bytes(self) -> Sample {
        Sample(self.0.swap_bytes())
    }

    fn reverse_bits(self) -> Sample {
        Sample(self.0.reverse_bits())
    }

    fn from_be(sample: Sample) -> Sample {
        Sample(u16::from_be(sample.0))
    }

    fn from_le(sample: Sample) -> Sample {
        sample
    }

    fn to_be(self) -> Sample {
        Sample(self.0.to_be())
    }

    fn to_le(self) -> Sample {
        self
    }

    fn pow(self, exponent: u32) -> Sample {
        Sample(PrimInt::pow(self.0, exponent))
    }

    fn checked_pow(self, exponent: u32) -> Option<Sample> {
        PrimInt::checked_pow(self.0, exponent).map(Sample)
    }

    ghost can_not_law = { λ a. tt };

    ghost not_law = { λ a r h. ap (λ n. record { 0 = n }) h };

    ghost can_bitand_law = { λ a b. tt };

    ghost bitand_law = { λ a b r h. ap (λ n. record { 0 = n }) h };

    ghost can_bitor_law = { λ a b. tt };

    ghost bitor_law = { λ a b r h. ap (λ n. record { 0 = n }) h };

    ghost can_bitxor_law = { λ a b. tt };

    ghost bitxor_law = { λ a b r h. ap (λ n. record { 0 = n }) h };

    ghost can_shl_law = { λ a n h. h };

    ghost shl_law = { λ a n r h. ap (λ m. record { 0 = m }) h };

    ghost can_shr_law = { λ a n h. h };

    ghost shr_law = { λ a n r h. ap pos h };

    ghost has_float_law = { λ f a. refl };

    ghost nearest_float_law = { λ f a h. refl };
}
