//! The lookup table of the rows that meet each slot.

ghost use Rattle.std.specs.Prelude.{◌≡◌, ◌+◌, ◌++◌, ◌-◌, ◌*◌, ◌/◌, ◌^◌, ◌<◌, ◌≤◌, ℕ, length, map, take, drop, replicate, slice_index, IfOk, vec_capacity, vec_len};
ghost use Rattle.std.specs.List.Sorted.{IsStrictlyIncreasing};
ghost use Rattle.constriction_model.specs.Probe.{IsLastAtMost, IsSearchable};
ghost use Rattle.constriction_stored_rows.specs.Slots.{slot_count, slot_width};
ghost use Rattle.constriction_stored_rows.specs.SlotTable.{words_a_slot, BeginsWithSlots, HasSlots, IsFirstWord, IsSlot, IsSlotPart};

use crate::cdf_probe::{CdfEntry, CdfProbe};
use crate::ends::with_cdf;
use constriction_model::{Probe, row_in_probe};
use constriction_numbers::WholeNumber;
use std::alloc::{AllocError, Global};

/// How many slots there are.
#[inline]
fn number_of_slots<const PRECISION: usize, const SLOT_BITS: usize>() -> usize
    requires { PRECISION ≤ 63 }
    ensures { result ≡ slot_count PRECISION SLOT_BITS }
{
    1usize << PRECISION.min(SLOT_BITS)
}

/// How many quantiles a slot holds.
#[inline]
fn width_of_slots<const PRECISION: usize, const SLOT_BITS: usize>() -> usize
    requires { PRECISION ≤ 63 }
    ensures { result ≡ slot_width PRECISION SLOT_BITS }
{
    1usize << PRECISION.saturating_sub(SLOT_BITS)
}

/// How many words the slots have in the lookup table: two a slot, or one a slot if it holds one
/// quantile.
#[inline]
pub fn words_of_table<const PRECISION: usize, const SLOT_BITS: usize>() -> usize
    requires { PRECISION ≤ 63 }
    ensures { result
        ≡ words_a_slot (slot_width PRECISION SLOT_BITS) * slot_count PRECISION SLOT_BITS }
{
    let words_a_slot = width_of_slots::<PRECISION, SLOT_BITS>().min(2);
    words_a_slot * number_of_slots::<PRECISION, SLOT_BITS>()
}

/// The first word of the lookup table whose quantile is not below `left`.
#[inline]
fn first_word<Word: WholeNumber, const PRECISION: usize, const SLOT_BITS: usize>(
    left: Word,
) -> usize
    requires narrow { PRECISION ≤ 63 }
    requires below { Word.whole left < 2 ^ PRECISION }
    ensures { IsFirstWord (slot_width PRECISION SLOT_BITS) (Word.whole left) result }
{
    let width = width_of_slots::<PRECISION, SLOT_BITS>();
    let left = left.to_number();
    if width == 1 {
        return left;
    }
    left / width + (left + (width - 1)) / width
}

/// The lookup table, filled up with `row` to `words` words, for which it has room. No word is
/// tested for room, and the table stays in registers, which it would leave around a call that may
/// request memory.
#[inline(always)]
fn fill<Word: Copy>(mut table: Vec<Word>, words: usize, row: Word) -> Vec<Word>
    requires room { words ≤ vec_capacity table }
    requires more { vec_len table ≤ words }
    ensures items { result.items ≡ table.items ++ replicate (words - vec_len table) row }
    ensures capacity { vec_capacity result ≡ vec_capacity table }
{
    'words: for _ in table.len()..words {
        table.push_reserved(row);
    }
    table
}

/// The lookup table of the rows that meet each slot: the first and the last row of each slot, or
/// one row if a slot holds one quantile.
///
/// One pass over the rows, each of which fills the words up to the first word of the next one, and
/// one allocation, with room for `more` words after them.
fn slots_of<Entry, Kind: CdfEntry<Entry>, const PRECISION: usize, const SLOT_BITS: usize>(
    alloc: Global,
    entries: &[Entry],
    more: usize,
) -> Result<Vec<Kind::Word>, AllocError>
    requires narrow { PRECISION ≤ 63 }
    requires fits { PRECISION ≤ Kind.Word.BITS }
    requires searchable { IsSearchable (map Kind.cumulative entries.now) 0 }
    requires below { (i : ℕ) → i < length (map Kind.cumulative entries.now)
        → slice_index (map Kind.cumulative entries.now) i < 2 ^ PRECISION }
    ensures { IfOk result (λ table.
        HasSlots (slot_width PRECISION SLOT_BITS) (slot_count PRECISION SLOT_BITS)
        (map Kind.cumulative entries.now) (map Kind.Word.whole table.items)) }
{
    let words = words_of_table::<PRECISION, SLOT_BITS>();
    let mut table = Vec::with_capacity(alloc, words.saturating_add(more))?;
    let mut row = Kind::Word::least();
    'rows: for next in 1..entries.len() {
        let end = first_word::<Kind::Word, PRECISION, SLOT_BITS>(Kind::cumulative_of(
            &entries[next],
        ));
        table = fill(table, end, row);
        row = Kind::Word::from_number(next);
    }
    Ok(fill(table, words, row))
}

/// The lookup table of the rows that meet each slot. If `has_cdf`, the left cumulatives and the
/// total follow, so that a look-up finds these words side by side. They never follow in a model of
/// one quantile.
pub fn table_of_slots<Entry, Kind: CdfEntry<Entry>, const PRECISION: usize, const SLOT_BITS: usize>(
    alloc: Global,
    entries: &[Entry],
    has_cdf: bool,
) -> Result<Vec<Kind::Word>, AllocError>
    requires narrow { PRECISION ≤ 63 }
    requires fits { PRECISION ≤ Kind.Word.BITS }
    requires searchable { IsSearchable (map Kind.cumulative entries.now) 0 }
    requires below { (i : ℕ) → i < length (map Kind.cumulative entries.now)
        → slice_index (map Kind.cumulative entries.now) i < 2 ^ PRECISION }
    ensures { IfOk result (λ table. BeginsWithSlots Kind.Word.BITS PRECISION
        (slot_width PRECISION SLOT_BITS) (slot_count PRECISION SLOT_BITS)
        (map Kind.cumulative entries.now) (map Kind.Word.whole table.items)) }
{
    if PRECISION == 0 || !has_cdf {
        return slots_of::<Entry, Kind, PRECISION, SLOT_BITS>(alloc, entries, 0);
    }
    let more = entries.len().saturating_add(1);
    let slots = slots_of::<Entry, Kind, PRECISION, SLOT_BITS>(alloc, entries, more)?;
    with_cdf::<Entry, Kind, PRECISION>(slots, entries)
}

/// The slot of a quantile.
#[inline]
fn slot_of_quantile<Word: WholeNumber, const PRECISION: usize, const SLOT_BITS: usize>(
    quantile: Word,
) -> usize
    requires narrow { PRECISION ≤ 63 }
    requires below { Word.whole quantile < 2 ^ PRECISION }
    ensures is { result ≡ Word.whole quantile / slot_width PRECISION SLOT_BITS }
    ensures below { result < slot_count PRECISION SLOT_BITS }
{
    quantile.to_number() / width_of_slots::<PRECISION, SLOT_BITS>()
}

/// The first and the last row that meet a quantile's slot.
#[inline]
fn rows_of_slot<Entry, Kind: CdfEntry<Entry>, const PRECISION: usize, const SLOT_BITS: usize>(
    entries: &[Entry],
    table: &[Kind::Word],
    quantile: Kind::Word,
) -> (usize, usize)
    requires narrow { PRECISION ≤ 63 }
    requires slots { HasSlots (slot_width PRECISION SLOT_BITS) (slot_count PRECISION SLOT_BITS)
        (map Kind.cumulative entries.now) (map Kind.Word.whole table.now) }
    requires below { Kind.Word.whole quantile < 2 ^ PRECISION }
    ensures slot { IsSlot (map Kind.cumulative entries.now) (slot_width PRECISION SLOT_BITS)
        (Kind.Word.whole quantile / slot_width PRECISION SLOT_BITS) result.0 result.1 }
    ensures order { result.0 ≤ result.1 }
{
    let slot = slot_of_quantile::<Kind::Word, PRECISION, SLOT_BITS>(quantile);
    if width_of_slots::<PRECISION, SLOT_BITS>() == 1 {
        let row = table[slot].to_number();
        return (row, row);
    }
    (table[2 * slot].to_number(), table[2 * slot + 1].to_number())
}

/// A probe of the entries from `first` to `last`.
#[inline]
fn probe_of<'c, Entry, Kind: CdfEntry<Entry>>(
    entries: &'c [Entry],
    first: usize,
    last: usize,
) -> CdfProbe<'c, Entry, Kind>
    requires order { first ≤ last }
    requires within { last < length entries.now }
    ensures cumulatives { ⟦<CdfProbe<'c, Entry, Kind> as Probe>⟧.cumulatives result
        ≡ take (last + 1 - first) (drop first (map Kind.cumulative entries.now)) }
    ensures fresh { ⟦<CdfProbe<'c, Entry, Kind> as Probe>⟧.questions result ≡ 0 }
{
    CdfProbe::new(&entries[first..last + 1])
}

/// A probe of the rows that meet a quantile's slot, and the index of the first of them.
#[inline]
pub fn slot_probe<'c, Entry, Kind: CdfEntry<Entry>, const PRECISION: usize, const SLOT_BITS: usize>(
    entries: &'c [Entry],
    table: &[Kind::Word],
    quantile: Kind::Word,
) -> (usize, CdfProbe<'c, Entry, Kind>)
    requires narrow { PRECISION ≤ 63 }
    requires slots { HasSlots (slot_width PRECISION SLOT_BITS) (slot_count PRECISION SLOT_BITS)
        (map Kind.cumulative entries.now) (map Kind.Word.whole table.now) }
    requires below { Kind.Word.whole quantile < 2 ^ PRECISION }
    ensures part { IsSlotPart (map Kind.cumulative entries.now) (slot_width PRECISION SLOT_BITS)
        (Kind.Word.whole quantile / slot_width PRECISION SLOT_BITS) result.0
        (⟦<CdfProbe<'c, Entry, Kind> as Probe>⟧.cumulatives result.1) }
    ensures fresh { ⟦<CdfProbe<'c, Entry, Kind> as Probe>⟧.questions result.1 ≡ 0 }
{
    let (first, last) = rows_of_slot::<Entry, Kind, PRECISION, SLOT_BITS>(entries, table, quantile);
    (first, probe_of(entries, first, last))
}

/// 1 if the row begins after the quantile, else 0. The sum of two of these has no jump, which the
/// processor would have to predict.
#[inline(always)]
fn above<Entry, Kind: CdfEntry<Entry>>(entries: &[Entry], row: usize, quantile: Kind::Word) -> usize
    requires { row < length entries.now }
    ensures at_most { slice_index (map Kind.cumulative entries.now) row ≤ Kind.Word.whole quantile
        → result ≡ 0 }
    ensures above { Kind.Word.whole quantile < slice_index (map Kind.cumulative entries.now) row
        → result ≡ 1 }
{
    if quantile.is_below(Kind::cumulative_of(&entries[row])) {
        1
    } else {
        0
    }
}

/// The last row that begins at a quantile or below it, if at most three rows meet its slot. Its
/// index is the last of these, less 1 if the last row begins after the quantile, and less 1 if the
/// middle row does. If fewer rows meet the slot, the first row takes the place of a missing one,
/// and it never begins after the quantile.
#[inline(always)]
fn row_of_up_to_three<Entry, Kind: CdfEntry<Entry>, const PRECISION: usize, const SLOT_BITS: usize>(
    entries: &[Entry],
    first: usize,
    last: usize,
    quantile: Kind::Word,
) -> usize
    requires increases { IsStrictlyIncreasing (map Kind.cumulative entries.now) }
    requires slot { IsSlot (map Kind.cumulative entries.now) (slot_width PRECISION SLOT_BITS)
        (Kind.Word.whole quantile / slot_width PRECISION SLOT_BITS) first last }
    requires order { first ≤ last }
    requires few { last ≤ first + 2 }
    ensures { IsLastAtMost (map Kind.cumulative entries.now) (Kind.Word.whole quantile) result }
{
    let middle = first + (last - first) / 2;
    last - (above::<Entry, Kind>(entries, last, quantile)
        + above::<Entry, Kind>(entries, middle, quantile))
}

/// The last row that begins at a quantile or below it, among the rows that meet its slot. If the
/// slot holds one quantile, it is the slot's row. Else, in a model of many rows, two comparisons
/// without a jump find it among up to three rows, and a search among more.
///
/// In a model of few rows, most slots are met by one row alone, which is found without a
/// comparison. The test for this is a jump, which is predicted right for at least 15 of 16
/// quantiles if these are spread evenly. All other look-ups of such a model search out of line, so
/// a loop has one body for models of few rows and one for others, and chooses between them once. A
/// model of one or two rows always counts as one of few rows, since two comparisons are more than
/// its search makes.
#[inline(always)]
pub fn row_in_slot<Entry, Kind: CdfEntry<Entry>, const PRECISION: usize, const SLOT_BITS: usize>(
    entries: &[Entry],
    table: &[Kind::Word],
    quantile: Kind::Word,
) -> usize
    requires narrow { PRECISION ≤ 63 }
    requires increases { IsStrictlyIncreasing (map Kind.cumulative entries.now) }
    requires slots { HasSlots (slot_width PRECISION SLOT_BITS) (slot_count PRECISION SLOT_BITS)
        (map Kind.cumulative entries.now) (map Kind.Word.whole table.now) }
    requires below { Kind.Word.whole quantile < 2 ^ PRECISION }
    ensures { IsLastAtMost (map Kind.cumulative entries.now) (Kind.Word.whole quantile) result }
{
    let (first, last) = rows_of_slot::<Entry, Kind, PRECISION, SLOT_BITS>(entries, table, quantile);
    if width_of_slots::<PRECISION, SLOT_BITS>() == 1 {
        return first;
    }
    if entries.len() <= (number_of_slots::<PRECISION, SLOT_BITS>() / 16).max(2) {
        if first == last {
            return first;
        }
        return row_among::<Entry, Kind, PRECISION, SLOT_BITS>(entries, first, last, quantile);
    }
    if last - first <= 2 {
        return row_of_up_to_three::<Entry, Kind, PRECISION, SLOT_BITS>(
            entries, first, last, quantile,
        );
    }
    row_among::<Entry, Kind, PRECISION, SLOT_BITS>(entries, first, last, quantile)
}

/// The same by a search between the first and the last row of the slot. It is out of line, so that
/// a look-up without a search is as short as it can be.
#[inline(never)]
fn row_among<Entry, Kind: CdfEntry<Entry>, const PRECISION: usize, const SLOT_BITS: usize>(
    entries: &[Entry],
    first: usize,
    last: usize,
    quantile: Kind::Word,
) -> usize
    requires increases { IsStrictlyIncreasing (map Kind.cumulative entries.now) }
    requires slot { IsSlot (map Kind.cumulative entries.now) (slot_width PRECISION SLOT_BITS)
        (Kind.Word.whole quantile / slot_width PRECISION SLOT_BITS) first last }
    requires order { first ≤ last }
    ensures { IsLastAtMost (map Kind.cumulative entries.now) (Kind.Word.whole quantile) result }
{
    let rows = probe_of::<Entry, Kind>(entries, first, last);
    first + row_in_probe::<_, 32>(rows, quantile)
}
