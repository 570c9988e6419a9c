//! Which words are quantiles.

ghost use Rattle.std.specs.Prelude.{◌↔◌, ◌^◌, ◌<◌, IsTrue};
ghost use Rattle.constriction_model.specs.Precision.{IsPrecision};

use constriction_numbers::WholeNumber;

/// Whether a word is a quantile: below `2^PRECISION`.
///
/// [`quantile_function`](crate::DecoderModel::quantile_function) requires this, and so a caller
/// asks it of a word from outside. If `PRECISION` is the full width, each word is a quantile, and a
/// caller's proof has this without a test from the clause `range` of `BitArray::into_nonzero`.
#[inline]
pub fn is_quantile<P: WholeNumber, const PRECISION: usize>(word: P) -> bool
    requires precision { IsPrecision P.BITS PRECISION }
    ensures { IsTrue result ↔ (P.whole word < 2 ^ PRECISION) }
{
    word.is_at_most(P::greatest_of_bits(PRECISION))
}
