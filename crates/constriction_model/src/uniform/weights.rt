//! The weights of a uniform model, and the symbol of a quantile, as numbers.

ghost use Rattle.std.specs.Prelude.{◌≡◌, ◌/◌, ◌^◌, ◌<◌, ◌≤◌};
ghost use Rattle.constriction_model.specs.Precision.{IsPrecision};
ghost use Rattle.constriction_model.specs.lemmas.UniformRows.{bin_of, rest_of};

use constriction_numbers::WholeNumber;

/// The weight of each symbol but the last one: `2^PRECISION` divided by the number of symbols,
/// rounded down.
///
/// At the full width `2^PRECISION` is no word. So each symbol gets one quantile first, and the rest
/// is divided.
#[inline]
pub(crate) fn probability_per_bin<Word: WholeNumber, const PRECISION: usize>(
    last_symbol: Word,
) -> Word
    requires precision { IsPrecision Word.BITS PRECISION }
    requires some { 0 < Word.whole last_symbol }
    requires within { Word.whole last_symbol < 2 ^ PRECISION }
    ensures value { Word.whole result ≡ bin_of PRECISION (Word.whole last_symbol) }
    ensures positive { 0 < Word.whole result }
{
    let one = Word::greatest_of_bits(1);
    let greatest = Word::greatest_of_bits(PRECISION);
    if !last_symbol.is_below(greatest) {
        return one;
    }
    let range = last_symbol.plus(one);
    greatest.minus(last_symbol).divided_by(range).plus(one)
}

/// The weight of the last symbol: what the others leave of `2^PRECISION`.
#[inline]
pub(crate) fn last_probability<Word: WholeNumber, const PRECISION: usize>(
    last_symbol: Word,
    bin: Word,
) -> Word
    requires precision { IsPrecision Word.BITS PRECISION }
    requires some { 0 < Word.whole last_symbol }
    requires within { Word.whole last_symbol < 2 ^ PRECISION }
    requires bin { Word.whole bin ≡ bin_of PRECISION (Word.whole last_symbol) }
    ensures value { Word.whole result ≡ rest_of PRECISION (Word.whole last_symbol) }
    ensures positive { 0 < Word.whole result }
{
    Word::wrapping_pow2(PRECISION).wrapping_minus(last_symbol.times(bin))
}

/// The symbol of a quantile: the quotient by the weight, or the last symbol if that is less.
#[inline]
pub(crate) fn symbol_of<Word: WholeNumber>(quantile: Word, bin: Word, last_symbol: Word) -> Word
    requires { 0 < Word.whole bin }
    ensures within { Word.whole result ≤ Word.whole last_symbol }
    ensures before { Word.whole result < Word.whole last_symbol
        → Word.whole result ≡ Word.whole quantile / Word.whole bin }
    ensures last { Word.whole result ≡ Word.whole last_symbol
        → Word.whole last_symbol ≤ Word.whole quantile / Word.whole bin }
{
    let symbol = quantile.divided_by(bin);
    if symbol.is_below(last_symbol) {
        symbol
    } else {
        last_symbol
    }
}
