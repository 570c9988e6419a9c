//! A table that is being made, one row after another.

ghost use Rattle.std.specs.Prelude.{◌≡◌, ◌<◌, ℕ, [], cond, nat_eq, IfOk, None, OnOk, Some, slice_index_or};
ghost use Rattle.constriction_tables.specs.Table.{same_number};
ghost use Rattle.constriction_tables.specs.lemmas.Tables.{same_number-equivalence};
ghost use Rattle.constriction_tables.specs.private.Partial.{HoldsTable};

use crate::entry::TableEntry;
use constriction_coders::stack::PreparedEntry;
use constriction_model::ModelError;
use constriction_stored_rows::TakesRows;
use std::alloc::{AllocError, Global};

/// What a list has at an index, or nothing past its end.
#[inline]
pub(crate) fn entry_at(list: &[Option<PreparedEntry>], index: usize) -> Option<PreparedEntry>
    ensures { result ≡ slice_index_or list.now index None }
{
    match list.get(index) {
        Some(entry) => *entry,
        None => None,
    }
}

/// Writes an entry at an index of a list, which grows if it ends before that.
#[inline]
fn list_entry(
    list: &mut Vec<Option<PreparedEntry>>,
    index: usize,
    entry: PreparedEntry,
) -> Result<(), AllocError>
    requires { index < 65536 }
    ensures { OnOk result ((k : ℕ) → slice_index_or list.new.items k None
        ≡ cond (nat_eq index k) (Some entry) (slice_index_or list.old.items k None)) }
{
    if list.len() <= index {
        list.resize(index + 1, None)?;
    }
    list[index] = Some(entry);
    Ok(())
}

/// The words of a table and the entries of symbols, for the rows so far.
#[derive(Drop)]
pub(crate) struct PartialTable<Entry: TableEntry> {
    pub(crate) entries: Vec<Entry>,
    pub(crate) by_symbol: Vec<Option<PreparedEntry>>,
}

impl<Entry: TableEntry> PartialTable<Entry> {
    /// No rows, with room for so many words and symbols.
    pub(crate) fn with_capacity(
        alloc: Global,
        words: usize,
        symbols: usize,
    ) -> Result<Self, AllocError>
        ensures { IfOk result (λ t. HoldsTable Entry.number Entry.row_in Entry.ROW_BITS
            t.entries.items t.by_symbol.items []) }
    {
        let entries = Vec::with_capacity(alloc, words)?;
        let by_symbol = Vec::with_capacity(alloc, symbols)?;
        Ok(Self { entries, by_symbol })
    }
}

impl<Entry: TableEntry> TakesRows<Entry::Symbol, u32> for PartialTable<Entry> {
    ghost symbol_eq = { same_number Entry.number };

    ghost holds = { λ t rows. HoldsTable Entry.number Entry.row_in Entry.ROW_BITS t.entries.items
        t.by_symbol.items rows };

    #[inline]
    fn take_row(
        &mut self,
        symbol: Entry::Symbol,
        left: u32,
        weight: u32,
    ) -> Result<(), ModelError> {
        let index = Entry::to_index(symbol);
        if entry_at(&self.by_symbol, index).is_some() {
            return Err(ModelError::InvalidTable);
        }
        list_entry(&mut self.by_symbol, index, PreparedEntry::new(left, weight))?;
        let end = left as usize + weight as usize;
        self.entries.resize(end, Entry::pack(symbol, left, weight))?;
        Ok(())
    }

    ghost symmetry_law = { λ s t.
        (same_number-equivalence Entry.number Entry.same_law).symm s t };
}
