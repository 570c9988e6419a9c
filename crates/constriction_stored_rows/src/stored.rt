//! The rows of a cdf of left cumulatives.

ghost use Rattle.std.specs.Prelude.{◌≡◌, ◌+◌, ◌^◌, ◌<◌, ◌≤◌, length, map, nat_eq, slice_index, slice_index_or, IfSome};
ghost use Rattle.std.specs.Option.{option_map};
ghost use Rattle.constriction_model.specs.Model.{entry_in, row_of, AnswersQuantile, LiesWithin};
ghost use Rattle.constriction_model.specs.Rows.{contiguous_rows, entry_of};
ghost use Rattle.constriction_stored_rows.specs.Stored.{IsCdf, lefts_in, weights_of};

use crate::cdf_probe::{CdfProbe, Cumulative};
use constriction_model::{Weight, row_in_probe};
use constriction_numbers::WholeNumber;

/// The left cumulative of the row at `index`, and its weight, which is the difference to the next
/// word of the cdf.
#[inline]
pub fn cdf_row_at<Word: WholeNumber, const PRECISION: usize>(
    cdf: &[Word],
    index: usize,
) -> (Word, Weight<Word>)
    requires fits { PRECISION ≤ Word.BITS }
    requires cdf { IsCdf Word.BITS PRECISION (map Word.whole cdf.now) }
    requires in_bounds { index + 1 < length cdf.now }
    ensures left { Word.whole result.0 ≡ slice_index (lefts_in (map Word.whole cdf.now)) index }
    ensures weight { Word.whole (Word.base result.1)
        ≡ slice_index (weights_of PRECISION (lefts_in (map Word.whole cdf.now))) index }
{
    let left = cdf[index];
    (left, cdf[index + 1].wrapping_minus(left).to_weight())
}

/// The row at `index` of a contiguous model: its symbol is the index.
#[inline]
pub fn contiguous_row_at<Word: WholeNumber, const PRECISION: usize>(
    cdf: &[Word],
    index: usize,
) -> (usize, Word, Weight<Word>)
    requires fits { PRECISION ≤ Word.BITS }
    requires cdf { IsCdf Word.BITS PRECISION (map Word.whole cdf.now) }
    requires in_bounds { index + 1 < length cdf.now }
    ensures row { slice_index_or
        (contiguous_rows (weights_of PRECISION (lefts_in (map Word.whole cdf.now)))) index
        (row_of Word.whole Word.base result) ≡ row_of Word.whole Word.base result }
    ensures within { LiesWithin PRECISION (row_of Word.whole Word.base result) }
    ensures symbol { result.0 ≡ index }
{
    let (left, weight) = cdf_row_at::<Word, PRECISION>(cdf, index);
    (index, left, weight)
}

/// The entry of a symbol of a contiguous model, or `None` for a number that is no symbol.
#[inline]
pub fn contiguous_entry_of<Word: WholeNumber, const PRECISION: usize>(
    cdf: &[Word],
    symbol: usize,
) -> Option<(Word, Weight<Word>)>
    requires fits { PRECISION ≤ Word.BITS }
    requires cdf { IsCdf Word.BITS PRECISION (map Word.whole cdf.now) }
    ensures entry { option_map (entry_in Word.whole Word.base) result ≡ entry_of nat_eq
        (contiguous_rows (weights_of PRECISION (lefts_in (map Word.whole cdf.now)))) symbol }
    ensures within { IfSome result (λ x.
        LiesWithin PRECISION (row_of Word.whole Word.base (symbol, x.0, x.1))) }
{
    if symbol < cdf.len() - 1 {
        Some(cdf_row_at::<Word, PRECISION>(cdf, symbol))
    } else {
        None
    }
}

/// The row of a quantile in a contiguous model, by a search.
#[inline(always)]
pub fn contiguous_row_of_quantile<Word: WholeNumber, const PRECISION: usize>(
    cdf: &[Word],
    quantile: Word,
) -> (usize, Word, Weight<Word>)
    requires fits { PRECISION ≤ Word.BITS }
    requires cdf { IsCdf Word.BITS PRECISION (map Word.whole cdf.now) }
    requires in_range { Word.whole quantile < 2 ^ PRECISION }
    ensures row { AnswersQuantile (λ s t. t ≡ s) Word.whole Word.base
        (contiguous_rows (weights_of PRECISION (lefts_in (map Word.whole cdf.now))))
        (Word.whole quantile) result }
    ensures within { LiesWithin PRECISION (row_of Word.whole Word.base result) }
    ensures known { result.0 < length
        (contiguous_rows (weights_of PRECISION (lefts_in (map Word.whole cdf.now)))) }
{
    let rows = CdfProbe::<Word, Cumulative>::new(&cdf[..cdf.len() - 1]);
    let index = row_in_probe::<_, 2>(rows, quantile);
    contiguous_row_at::<Word, PRECISION>(cdf, index)
}
