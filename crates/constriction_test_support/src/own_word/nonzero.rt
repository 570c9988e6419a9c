//! Samples that are not 0.

ghost use Rattle.std.specs.Prelude.{◌<◌};
ghost use Rattle.std.proofs.Common.{ap};
ghost use Rattle.std.proofs.lemmas.Bool.Decides.{Decides-eqb};
ghost use Rattle.constriction_words.specs.lemmas.Word.{pos-nonzero, same-above-0};

use crate::own_word::Sample;
use constriction_words::NonZeroBitArray;
use std::fmt;
use std::fmt::{Display, Formatter, Write};

/// A sample that is not 0.
#[derive(Clone, Copy, Debug, PartialEq, Eq, Hash)]
pub struct NonZeroSample {
    sample: Sample,
    ghost positive: { 0 < sample.0 },
}

impl Display for NonZeroSample {
    fn fmt<W: Write>(&self, f: &mut Formatter<W>) -> fmt::Result {
        Display::fmt(&self.sample, f)
    }
}

impl NonZeroBitArray for NonZeroSample {
    type Base = Sample;

    ghost base = { λ x. x.sample };

    fn new(n: Sample) -> Option<NonZeroSample> {
        if n.0 == 0 {
            None
        } else {
            Some(NonZeroSample { sample: n })
        }
    }

    fn new_unchecked(n: Sample) -> NonZeroSample {
        NonZeroSample { sample: n }
    }

    fn get(self) -> Sample {
        self.sample
    }

    ghost nonzero_law = { λ x e. pos-nonzero x.sample.0 x.positive e };

    ghost same_law = { λ a b e.
        same-above-0 (λ n h. record { sample = record { 0 = n }; positive = h }) a.positive
        b.positive (ap (λ s. s.0) e) };

    ghost eq_law = { λ a b. let equal = Decides-eqb a.sample.0 b.sample.0 in
        ((λ h. ap (λ n. record { 0 = n }) (equal.0 h)), (λ e. equal.1 (ap (λ s. s.0) e))) };
}
