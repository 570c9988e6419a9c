//! The ends of rows that are stored as one entry of a left cumulative and a symbol for each row.
//!
//! A row ends where the next entry begins. The last row ends at the total, which no entry has.

ghost use Rattle.std.specs.Prelude.{◌≡◌, ◌++◌, ◌<◌, ◌≤◌, length, map, slice_index, IfOk, IfSome, IfNone};
ghost use Rattle.constriction_model.specs.Precision.{IsPrecision};
ghost use Rattle.constriction_stored_rows.specs.private.Cloned.{IsClonedRow};
ghost use Rattle.constriction_stored_rows.specs.SlotTable.{MayFollow};
ghost use Rattle.constriction_stored_rows.specs.Stored.{IsStored, AreEndWords, end_at, rows_paired, weights_of, with_total};

use crate::cdf_probe::CdfEntry;
use crate::filling::push_item;
use constriction_model::Weight;
use constriction_numbers::WholeNumber;
use std::alloc::AllocError;

/// Two words beside the entries, by which the end of a row is computed without a choice. With one
/// or two rows they are the ends of the first and the last row. With more rows the second word is
/// 0, and the first is the last left cumulative minus the total, modulo `2^BITS`.
#[inline]
pub fn end_words_of<Word: WholeNumber, Symbol, const PRECISION: usize>(
    entries: &[(Word, Symbol)],
) -> [Word; 2]
    requires { IsPrecision Word.BITS PRECISION }
    ensures { AreEndWords Word.BITS PRECISION (map (λ x. Word.whole x.0) entries.now)
        (map Word.whole result) }
{
    let total = Word::wrapping_pow2(PRECISION);
    let rows = entries.len();
    if rows < 2 {
        return [total, total];
    }
    if rows == 2 {
        return [entries[1].0, total];
    }
    [entries[rows - 1].0.wrapping_minus(total), Word::least()]
}

/// Where the row at `index` ends. With one or two rows this is an end word. With more rows it is
/// the left cumulative of the next row minus the second end word, or the last row's own left
/// cumulative minus the first end word.
#[inline(always)]
fn end_by_words<Word: WholeNumber, Symbol, const PRECISION: usize>(
    entries: &[(Word, Symbol)],
    end_words: &[Word],
    index: usize,
) -> Word
    requires end_words { AreEndWords Word.BITS PRECISION (map (λ x. Word.whole x.0) entries.now)
        (map Word.whole end_words.now) }
    requires in_bounds { index < length entries.now }
    ensures { Word.whole result
        ≡ end_at Word.BITS PRECISION (map (λ x. Word.whole x.0) entries.now) index }
{
    if entries.len() <= 2 {
        return end_words[index];
    }
    let next = usize::from(index < entries.len() - 1);
    entries[index + next].0.wrapping_minus(end_words[next])
}

/// Where the row at `index` ends: where the next row begins, or the total.
#[inline(always)]
fn end_in_entries<Word: WholeNumber, Symbol, const PRECISION: usize>(
    entries: &[(Word, Symbol)],
    index: usize,
) -> Word
    requires precision { IsPrecision Word.BITS PRECISION }
    requires in_bounds { index < length entries.now }
    ensures { Word.whole result
        ≡ end_at Word.BITS PRECISION (map (λ x. Word.whole x.0) entries.now) index }
{
    if index + 1 < entries.len() {
        return entries[index + 1].0;
    }
    Word::wrapping_pow2(PRECISION)
}

/// The same out of line: its callers call it for a last row alone, or never, and a loop is shorter
/// without it.
#[inline(never)]
fn end_out_of_line<Word: WholeNumber, Symbol, const PRECISION: usize>(
    entries: &[(Word, Symbol)],
    index: usize,
) -> Word
    requires precision { IsPrecision Word.BITS PRECISION }
    requires in_bounds { index < length entries.now }
    ensures { Word.whole result
        ≡ end_at Word.BITS PRECISION (map (λ x. Word.whole x.0) entries.now) index }
{
    end_in_entries::<Word, Symbol, PRECISION>(entries, index)
}

/// Where the row at `from` ends, in a walk up to `to`, or `None` at the end of the walk. While more
/// than one row is left there is a next entry, so a loop makes one test for a row, and needs the
/// total at its end alone.
#[inline(always)]
pub fn end_in_walk<Word: WholeNumber, Symbol, const PRECISION: usize>(
    entries: &[(Word, Symbol)],
    from: usize,
    to: usize,
) -> Option<Word>
    requires precision { IsPrecision Word.BITS PRECISION }
    requires order { from ≤ to }
    requires in_bounds { to ≤ length entries.now }
    ensures none { IfNone result (from ≡ to) }
    ensures some { IfSome result (λ end. (from < to) × (Word.whole end
        ≡ end_at Word.BITS PRECISION (map (λ x. Word.whole x.0) entries.now) from)) }
{
    let rows = to - from;
    if rows > 1 {
        return Some(entries[from + 1].0);
    }
    if rows == 0 {
        return None;
    }
    Some(end_out_of_line::<Word, Symbol, PRECISION>(entries, from))
}

/// Where the row at `index` ends. `cdf` has the left cumulatives and the total, or nothing.
#[inline(always)]
fn end_in_cdf<Word: WholeNumber, Symbol, const PRECISION: usize>(
    entries: &[(Word, Symbol)],
    cdf: &[Word],
    index: usize,
) -> Word
    requires precision { IsPrecision Word.BITS PRECISION }
    requires cdf { MayFollow Word.BITS PRECISION (map (λ x. Word.whole x.0) entries.now)
        (map Word.whole cdf.now) }
    requires in_bounds { index < length entries.now }
    ensures { Word.whole result
        ≡ end_at Word.BITS PRECISION (map (λ x. Word.whole x.0) entries.now) index }
{
    if cdf.is_empty() {
        return end_out_of_line::<Word, Symbol, PRECISION>(entries, index);
    }
    cdf[index + 1]
}

/// The left cumulative of the row at `index`, and its weight, which is the difference to `end`.
#[inline]
pub fn paired_row_ending_at<Word: WholeNumber, Symbol, const PRECISION: usize>(
    entries: &[(Word, Symbol)],
    end: Word,
    index: usize,
) -> (Word, Weight<Word>)
    requires fits { PRECISION ≤ Word.BITS }
    requires stored { IsStored Word.BITS PRECISION (map (λ x. Word.whole x.0) entries.now) }
    requires end { Word.whole end
        ≡ end_at Word.BITS PRECISION (map (λ x. Word.whole x.0) entries.now) index }
    requires in_bounds { index < length entries.now }
    ensures left { Word.whole result.0 ≡ slice_index (map (λ x. Word.whole x.0) entries.now) index }
    ensures weight { Word.whole (Word.base result.1)
        ≡ slice_index (weights_of PRECISION (map (λ x. Word.whole x.0) entries.now)) index }
{
    let left = entries[index].0;
    (left, end.wrapping_minus(left).to_weight())
}

/// The left cumulative and the weight of the row at `index`. A jump tests whether the row is the
/// last one, which a walk backwards mispredicts once.
#[inline]
pub fn paired_row_at<Word: WholeNumber, Symbol, const PRECISION: usize>(
    entries: &[(Word, Symbol)],
    index: usize,
) -> (Word, Weight<Word>)
    requires precision { IsPrecision Word.BITS PRECISION }
    requires stored { IsStored Word.BITS PRECISION (map (λ x. Word.whole x.0) entries.now) }
    requires in_bounds { index < length entries.now }
    ensures left { Word.whole result.0 ≡ slice_index (map (λ x. Word.whole x.0) entries.now) index }
    ensures weight { Word.whole (Word.base result.1)
        ≡ slice_index (weights_of PRECISION (map (λ x. Word.whole x.0) entries.now)) index }
{
    let end = end_in_entries::<Word, Symbol, PRECISION>(entries, index);
    paired_row_ending_at::<Word, Symbol, PRECISION>(entries, end, index)
}

/// The row at `index`, which ends at `end`, with a clone of its symbol.
#[inline]
fn cloned_row_ending_at<Word: WholeNumber, Symbol: Clone, const PRECISION: usize>(
    entries: &[(Word, Symbol)],
    end: Word,
    index: usize,
) -> Result<(Symbol, Word, Weight<Word>), AllocError>
    requires fits { PRECISION ≤ Word.BITS }
    requires stored { IsStored Word.BITS PRECISION (map (λ x. Word.whole x.0) entries.now) }
    requires end { Word.whole end
        ≡ end_at Word.BITS PRECISION (map (λ x. Word.whole x.0) entries.now) index }
    requires in_bounds { index < length entries.now }
    ensures { IsClonedRow Symbol.is_clone Symbol.is_infallible Word.whole Word.base PRECISION
        (rows_paired Word.whole PRECISION entries.now) index result }
{
    let (left, weight) = paired_row_ending_at::<Word, Symbol, PRECISION>(entries, end, index);
    let symbol = entries[index].1.clone()?;
    Ok((symbol, left, weight))
}

/// The row at `index`, with a clone of its symbol. `end_words` are the words of [`end_words_of`].
#[inline]
pub fn cloned_row_by_words<Word: WholeNumber, Symbol: Clone, const PRECISION: usize>(
    entries: &[(Word, Symbol)],
    end_words: &[Word],
    index: usize,
) -> Result<(Symbol, Word, Weight<Word>), AllocError>
    requires fits { PRECISION ≤ Word.BITS }
    requires stored { IsStored Word.BITS PRECISION (map (λ x. Word.whole x.0) entries.now) }
    requires end_words { AreEndWords Word.BITS PRECISION (map (λ x. Word.whole x.0) entries.now)
        (map Word.whole end_words.now) }
    requires in_bounds { index < length entries.now }
    ensures { IsClonedRow Symbol.is_clone Symbol.is_infallible Word.whole Word.base PRECISION
        (rows_paired Word.whole PRECISION entries.now) index result }
{
    let end = end_by_words::<Word, Symbol, PRECISION>(entries, end_words, index);
    cloned_row_ending_at::<Word, Symbol, PRECISION>(entries, end, index)
}

/// The row at `index`, with a clone of its symbol. `cdf` has nothing, or the left cumulatives and
/// the total, and then no row is tested for being the last one.
#[inline]
pub fn cloned_row_in_cdf<Word: WholeNumber, Symbol: Clone, const PRECISION: usize>(
    entries: &[(Word, Symbol)],
    cdf: &[Word],
    index: usize,
) -> Result<(Symbol, Word, Weight<Word>), AllocError>
    requires precision { IsPrecision Word.BITS PRECISION }
    requires stored { IsStored Word.BITS PRECISION (map (λ x. Word.whole x.0) entries.now) }
    requires cdf { MayFollow Word.BITS PRECISION (map (λ x. Word.whole x.0) entries.now)
        (map Word.whole cdf.now) }
    requires in_bounds { index < length entries.now }
    ensures { IsClonedRow Symbol.is_clone Symbol.is_infallible Word.whole Word.base PRECISION
        (rows_paired Word.whole PRECISION entries.now) index result }
{
    let end = end_in_cdf::<Word, Symbol, PRECISION>(entries, cdf, index);
    cloned_row_ending_at::<Word, Symbol, PRECISION>(entries, end, index)
}

/// The words, and after them the left cumulatives and the total. This fails only if memory is
/// refused.
pub fn with_cdf<Entry, Kind: CdfEntry<Entry>, const PRECISION: usize>(
    words: Vec<Kind::Word>,
    entries: &[Entry],
) -> Result<Vec<Kind::Word>, AllocError>
    requires { IsPrecision Kind.Word.BITS PRECISION }
    ensures { IfOk result (λ v. map Kind.Word.whole v.items ≡ map Kind.Word.whole words.items
        ++ with_total Kind.Word.BITS PRECISION (map Kind.cumulative entries.now)) }
{
    let mut all = words;
    for entry in entries {
        push_item(&mut all, Kind::cumulative_of(entry))?;
    }
    push_item(&mut all, Kind::Word::wrapping_pow2(PRECISION))?;
    Ok(all)
}
