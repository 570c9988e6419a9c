//! The operators of samples. Each applies the operator of the number inside.

ghost use Rattle.std.specs.Prelude.{◌≡◌, ◌+◌, ◌-◌, ◌*◌, ◌/◌, ◌%◌, ◌^◌, ◌<◌, ◌≤◌, bit_and, bit_or, bit_xor};
ghost use Rattle.std.specs.Int.{w16, bit_not};

use crate::own_word::Sample;
use std::ops::{Add, BitAnd, BitOr, BitXor, Div, Mul, Not, Rem, Shl, Shr, Sub};

impl Add<Sample> for Sample {
    type Output = Sample;

    ghost can_add = { λ a b. a.0 + b.0 < 2 ^ 16 };

    ghost add_gives = { λ a b r. r.0 ≡ a.0 + b.0 };

    fn add(self, other: Sample) -> Sample {
        Sample(self.0 + other.0)
    }
}

impl Sub<Sample> for Sample {
    type Output = Sample;

    ghost can_sub = { λ a b. b.0 ≤ a.0 };

    ghost sub_gives = { λ a b r. r.0 ≡ a.0 - b.0 };

    fn sub(self, other: Sample) -> Sample {
        Sample(self.0 - other.0)
    }
}

impl Mul<Sample> for Sample {
    type Output = Sample;

    ghost can_mul = { λ a b. a.0 * b.0 < 2 ^ 16 };

    ghost mul_gives = { λ a b r. r.0 ≡ a.0 * b.0 };

    fn mul(self, other: Sample) -> Sample {
        Sample(self.0 * other.0)
    }
}

impl Div<Sample> for Sample {
    type Output = Sample;

    ghost can_div = { λ a b. 0 < b.0 };

    ghost div_gives = { λ a b r. r.0 ≡ a.0 / b.0 };

    fn div(self, other: Sample) -> Sample {
        Sample(self.0 / other.0)
    }
}

impl Rem<Sample> for Sample {
    type Output = Sample;

    ghost can_rem = { λ a b. 0 < b.0 };

    ghost rem_gives = { λ a b r. r.0 ≡ a.0 % b.0 };

    fn rem(self, other: Sample) -> Sample {
        Sample(self.0 % other.0)
    }
}

impl Not for Sample {
    type Output = Sample;

    ghost not_gives = { λ a r. r.0 ≡ bit_not w16 a.0 };

    fn not(self) -> Sample {
        Sample(!self.0)
    }
}

impl BitAnd<Sample> for Sample {
    type Output = Sample;

    ghost bitand_gives = { λ a b r. r.0 ≡ bit_and a.0 b.0 };

    fn bitand(self, other: Sample) -> Sample {
        Sample(self.0 & other.0)
    }
}

impl BitOr<Sample> for Sample {
    type Output = Sample;

    ghost bitor_gives = { λ a b r. r.0 ≡ bit_or a.0 b.0 };

    fn bitor(self, other: Sample) -> Sample {
        Sample(self.0 | other.0)
    }
}

impl BitXor<Sample> for Sample {
    type Output = Sample;

    ghost bitxor_gives = { λ a b r. r.0 ≡ bit_xor a.0 b.0 };

    fn bitxor(self, other: Sample) -> Sample {
        Sample(self.0 ^ other.0)
    }
}

impl Shl<u32> for Sample {
    type Output = Sample;

    ghost can_shl = { λ a n. n < 16 };

    ghost shl_gives = { λ a n r. r.0 ≡ (a.0 * 2 ^ n) % 2 ^ 16 };

    fn shl(self, n: u32) -> Sample {
        Sample(self.0 << n)
    }
}

impl Shr<u32> for Sample {
    type Output = Sample;

    ghost can_shr = { λ a n. n < 16 };

    ghost shr_gives = { λ a n r. r.0 ≡ a.0 / 2 ^ n };

    fn shr(self, n: u32) -> Sample {
        Sample(self.0 >> n)
    }
}
