//! Samples as words.

ghost use Rattle.std.proofs.Common.{refl, lit≤};
ghost use Rattle.std.proofs.lemmas.Bool.Decides.{Decides-eqb};
ghost use Rattle.constriction_words.specs.lemmas.Word.{lt-whole, le-whole};

use crate::own_word::Sample;
use crate::own_word::nonzero::NonZeroSample;
use constriction_words::{BitArray, IndexWord, NonZeroBitArray};

impl BitArray for Sample {
    fn into_nonzero(self) -> Option<NonZeroSample> {
        NonZeroSample::new(self)
    }

    fn into_nonzero_unchecked(self) -> NonZeroSample {
        NonZeroSample::new_unchecked(self)
    }

    fn wrapping_add(&self, other: &Sample) -> Sample {
        Sample(u16::wrapping_add(self.0, other.0))
    }

    fn wrapping_sub(&self, other: &Sample) -> Sample {
        Sample(u16::wrapping_sub(self.0, other.0))
    }

    fn wrapping_mul(&self, other: &Sample) -> Sample {
        Sample(u16::wrapping_mul(self.0, other.0))
    }

    ghost value_law = { λ a. refl };

    ghost fits_law = { λ z. ((λ h. h), (λ h. h)) };

    ghost width_law = { (refl, lit≤ tt) };

    ghost base_law = { λ x. refl };

    ghost eq_law = { λ a b. Decides-eqb a.0 b.0 };

    ghost lt_law = { λ a b. lt-whole a.0 b.0 };

    ghost le_law = { λ a b. le-whole a.0 b.0 };

    ghost zero_law = { refl };

    ghost one_law = { refl };

    ghost highest_law = { refl };

    ghost default_law = { λ a e. e };

    ghost can_add_law = { λ a b h. h };

    ghost add_law = { λ a b r e. e };

    ghost can_sub_law = { λ a b h. h };

    ghost sub_law = { λ a b r e. e };

    ghost can_mul_law = { λ a b h. h };

    ghost mul_law = { λ a b r e. e };

    ghost can_div_law = { λ a b h. h };

    ghost div_law = { λ a b r e. e };

    ghost can_rem_law = { λ a b h. h };

    ghost rem_law = { λ a b r e. e };

    ghost can_shl_law = { λ a n h. h };

    ghost shl_law = { λ a n r e. e };

    ghost can_shr_law = { λ a n h. h };

    ghost shr_law = { λ a n r e. e };
}

impl IndexWord for Sample {}
