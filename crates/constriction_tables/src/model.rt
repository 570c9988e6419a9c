//! The model, and what it answers.

ghost use Rattle.std.specs.Prelude.{◌≡◌, ◌^◌, ◌≤◌, length, map};
ghost use Rattle.std.specs.List.{IsDistinct};
ghost use Rattle.std.proofs.Props.{props};
ghost use Rattle.constriction_model.specs.Precision.{IsPrecision};
ghost use Rattle.constriction_model.specs.Rows.{symbols_of};
ghost use Rattle.constriction_model.specs.lemmas.Coding.{rows-within};
ghost use Rattle.constriction_tables.specs.Table.{HasEntries, IsTable, rows_in_table, same_number};
ghost use Rattle.constriction_tables.specs.lemmas.Tables.{same_number-equivalence, table-tiles};

use crate::entry::TableEntry;
use crate::partial::entry_at;
use constriction_categorical::IterableEntropyModel;
use constriction_coders::stack::{PreparedEntry, PreparedModel};
use constriction_model::{DecoderModel, EncoderModel, EntropyModel, Weight};
use constriction_numbers::WholeNumber;
use constriction_stored_rows::copy_of;
use std::alloc::AllocError;

/// A model of symbols that are small numbers, with one entry for each quantile.
///
/// An entry is one word, which holds the row of its quantile, so a look-up
/// ([`DecoderModel::quantile_function`]) is one load and shifts. A list of prepared entries
/// ([`PreparedModel::prepared_entry`]) by the numbers of symbols serves encoders, which then divide
/// by no weight.
#[derive(Drop)]
pub struct DirectTableModel<Entry: TableEntry, const PRECISION: usize> {
    pub(crate) entries: Vec<Entry>,
    pub(crate) by_symbol: Vec<Option<PreparedEntry>>,
    ghost precise: { IsPrecision 32 PRECISION },
    ghost narrow: { PRECISION ≤ Entry.ROW_BITS },
    ghost full: { length entries.items ≡ 2 ^ PRECISION },
    ghost table: { IsTable Entry.number 32 PRECISION (map Entry.row_in entries.items) },
    ghost coded: { HasEntries Entry.number by_symbol.items
        (rows_in_table (map Entry.row_in entries.items)) } by { Prim.hlevel props },
    ghost distinct: { IsDistinct (same_number Entry.number)
        (symbols_of (rows_in_table (map Entry.row_in entries.items))) } by { Prim.hlevel props },
}

/// Over 12 bits of `u32`, for the 256 symbols of `u8`: 16 KiB.
pub type SmallDirectTableModel = DirectTableModel<u32, 12>;

/// Over 16 bits of `u64`, for the 65,536 symbols of `u16`: 512 KiB.
pub type WideDirectTableModel = DirectTableModel<u64, 16>;

impl<Entry: TableEntry, const PRECISION: usize> EntropyModel<PRECISION>
    for DirectTableModel<Entry, PRECISION> {
    type Symbol = Entry::Symbol;

    type Probability = u32;

    ghost use Rattle.constriction_tables.specs.ModelRows.{table_model_rows};

    ghost rows = { table_model_rows };

    ghost precision_law = { λ m. m.precise };
}

impl<Entry: TableEntry, const PRECISION: usize> DirectTableModel<Entry, PRECISION> {
    ghost use Rattle.constriction_tables.specs.ModelRows.{table_model_rows};

    /// How many symbols the model has. It walks through their rows.
    pub fn support_size(&self) -> usize
        ensures { result ≡ length (table_model_rows self.now) }
    {
        let mut walk = self.symbol_table();
        let mut count = 0;
        'rows: while let Some(_) = walk.next() {
            count += 1;
        }
        count
    }
}

impl<Entry: TableEntry, const PRECISION: usize> Clone for DirectTableModel<Entry, PRECISION> {
    ghost use Rattle.constriction_tables.specs.ModelRows.{table_model_rows};

    ghost is_clone = { λ x y. table_model_rows y ≡ table_model_rows x };

    /// A copy of the model. Its words and its entries come from the allocators of this model's.
    ///
    /// Two allocations, and one copy of each.
    fn clone(&self) -> Result<Self, AllocError> {
        let entries = copy_of(*self.entries.allocator(), &self.entries)?;
        let by_symbol = copy_of(*self.by_symbol.allocator(), &self.by_symbol)?;
        Ok(Self { entries, by_symbol })
    }
}

impl<Entry: TableEntry, const PRECISION: usize> EncoderModel<PRECISION>
    for DirectTableModel<Entry, PRECISION> {
    ghost symbol_eq = { same_number Entry.number };

    #[inline]
    fn left_cumulative_and_probability(
        &self,
        symbol: &Entry::Symbol,
    ) -> Option<(u32, Weight<u32>)> {
        let Some(entry) = self.prepared_entry(symbol) else {
            return None;
        };
        Some((entry.left(), entry.weight().to_weight()))
    }

    ghost equality_law = { same_number-equivalence Entry.number Entry.same_law };

    ghost within_law = { λ m.
        rows-within 32 _ _ (table-tiles Entry.number Entry.same_law 32 _ _ m.table) };
}

impl<Entry: TableEntry, const PRECISION: usize> PreparedModel<PRECISION>
    for DirectTableModel<Entry, PRECISION> {
    /// The entry of a symbol, which was prepared when the model was made: one load.
    #[inline]
    fn prepared_entry(&self, symbol: &Entry::Symbol) -> Option<PreparedEntry> {
        entry_at(&self.by_symbol, Entry::to_index(*symbol))
    }
}

impl<Entry: TableEntry, const PRECISION: usize> DecoderModel<PRECISION>
    for DirectTableModel<Entry, PRECISION> {
    /// The row of a quantile: one load, and shifts. It takes no memory and always succeeds.
    #[inline(always)]
    fn quantile_function(
        &self,
        quantile: u32,
    ) -> Result<(Entry::Symbol, u32, Weight<u32>), AllocError> {
        let entry = self.entries[quantile as usize];
        Ok((
            entry.symbol(),
            entry.left_cumulative(),
            entry.weight().to_weight(),
        ))
    }

    ghost tile_law = { λ m. table-tiles Entry.number Entry.same_law 32 _ _ m.table };
}
