//! The walk through the rows of a model.

ghost use Rattle.std.specs.Prelude.{◌≡◌, drop, length, map};
ghost use Rattle.std.specs.Iterator.{at_most};
ghost use Rattle.constriction_model.specs.Tables.{YieldsRow};
ghost use Rattle.constriction_tables.specs.Table.{StandsFrom, rows_after};
ghost use Rattle.constriction_tables.specs.lemmas.Tables.{table-tiles};

use crate::entry::TableEntry;
use crate::model::DirectTableModel;
use constriction_categorical::IterableEntropyModel;
use constriction_model::Weight;
use constriction_numbers::WholeNumber;
use std::alloc::AllocError;

/// The remaining rows of a model, in the order of their quantiles.
///
/// Every item is `Ok`, since the walk takes no memory. A step reads one word, and goes on where its
/// row ends.
#[derive(Drop)]
pub struct DirectSymbolTable<'m, Entry: TableEntry> {
    entries: &'m [Entry],
    from: usize,
    ghost stands: { StandsFrom Entry.number from (drop from (map Entry.row_in entries.now)) },
}

impl<'m, Entry: TableEntry> Iterator for DirectSymbolTable<'m, Entry> {
    type Item = Result<(Entry::Symbol, u32, Weight<u32>), AllocError>;

    ghost next_gives = { YieldsRow (λ s t. t ≡ s) (λ _. ⊥) ⟦<u32 as WholeNumber>⟧.whole
        ⟦<u32 as WholeNumber>⟧.base
        (λ t. rows_after t.from (map Entry.row_in t.entries.now)) };

    ghost remaining = { λ t.
        at_most (length (rows_after t.from (map Entry.row_in t.entries.now))) };

    #[inline]
    fn next(&mut self) -> Option<Result<(Entry::Symbol, u32, Weight<u32>), AllocError>> {
        if self.from >= self.entries.len() {
            return None;
        }
        let entry = self.entries[self.from];
        let weight = entry.weight();
        self.from += weight as usize;
        Some(Ok((entry.symbol(), entry.left_cumulative(), weight.to_weight())))
    }
}

impl<'m, Entry: TableEntry + 'm, const PRECISION: usize> IterableEntropyModel<PRECISION>
    for &'m DirectTableModel<Entry, PRECISION> {
    type SymbolTable = DirectSymbolTable<'m, Entry>;

    ghost rows_left = { λ t. rows_after t.from (map Entry.row_in t.entries.now) };

    /// All rows in order, each once: symbol, left cumulative and weight. The walk takes no memory,
    /// and every item is a row.
    #[inline]
    fn symbol_table(self) -> DirectSymbolTable<'m, Entry> {
        DirectSymbolTable {
            entries: &self.entries,
            from: 0,
        }
    }

    ghost steps_law = { λ t r u step. step };

    ghost tile_law = { λ m. table-tiles Entry.number Entry.same_law 32 _ _ m.now.table };
}
