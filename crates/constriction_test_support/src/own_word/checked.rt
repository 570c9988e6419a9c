//! Operations on samples that answer `None`, or stop at a bound, if the exact result is no sample.

ghost use Rattle.std.specs.Prelude.{◌≢◌, ◌/◌, ◌+ℤ◌, ◌-ℤ◌, ◌*ℤ◌, ◌-◌, pos};
ghost use Rattle.std.specs.Int.{FitsUnsignedBits};
ghost use Rattle.num_traits.specs.Laws.{Checks, Divides};

use crate::own_word::Sample;
use num_traits::{CheckedAdd, CheckedDiv, CheckedMul, CheckedSub, Saturating};

impl CheckedAdd for Sample {
    ghost checked_add_gives = { λ a b r. Checks (λ s. pos s.0) (FitsUnsignedBits 16)
        (pos a.0 +ℤ pos b.0) r };

    fn checked_add(&self, other: &Sample) -> Option<Sample> {
        self.0.checked_add(other.0).map(Sample)
    }

    ghost checked_add_law = { λ a b r h. h };
}

impl CheckedSub for Sample {
    ghost checked_sub_gives = { λ a b r. Checks (λ s. pos s.0) (FitsUnsignedBits 16)
        (pos a.0 -ℤ pos b.0) r };

    fn checked_sub(&self, other: &Sample) -> Option<Sample> {
        self.0.checked_sub(other.0).map(Sample)
    }

    ghost checked_sub_law = { λ a b r h. h };
}

impl CheckedMul for Sample {
    ghost checked_mul_gives = { λ a b r. Checks (λ s. pos s.0) (FitsUnsignedBits 16)
        (pos a.0 *ℤ pos b.0) r };

    fn checked_mul(&self, other: &Sample) -> Option<Sample> {
        self.0.checked_mul(other.0).map(Sample)
    }

    ghost checked_mul_law = { λ a b r h. h };
}

impl CheckedDiv for Sample {
    ghost checked_div_gives = { λ a b r. Divides (λ s. pos s.0) (FitsUnsignedBits 16)
        (pos b.0 ≢ pos 0) (pos (a.0 / b.0)) (pos (a.0 / b.0)) r };

    fn checked_div(&self, other: &Sample) -> Option<Sample> {
        self.0.checked_div(other.0).map(Sample)
    }

    ghost checked_div_law = { λ a b r h. h };
}

impl Saturating for Sample {
    fn saturating_add(self, other: Sample) -> Sample {
        Sample(Saturating::saturating_add(self.0, other.0))
    }

    fn saturating_sub(self, other: Sample) -> Sample {
        Sample(Saturating::saturating_sub(self.0, other.0))
    }
}
