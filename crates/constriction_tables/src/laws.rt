//! A law of tables, as the contract of a function.

ghost use Rattle.std.specs.List.{IsDistinct};
ghost use Rattle.constriction_model.specs.Rows.{symbols_of};
ghost use Rattle.constriction_tables.specs.Table.{same_number};

use crate::entry::TableEntry;
use crate::model::DirectTableModel;
use constriction_model::EntropyModel;

/// No two symbols of a table are equal, however it was made. So
/// `to_generic_decoder_model_of_distinct` makes a decoder model of it without comparing symbols.
pub fn direct_table_symbols_differ<Entry: TableEntry, const PRECISION: usize>()
    ensures { (m : _) → IsDistinct (same_number Entry.number) (symbols_of
        (⟦<DirectTableModel<Entry, PRECISION> as EntropyModel<PRECISION>>⟧.rows m)) }
{}
