//! Making a model of rows.

ghost use Rattle.std.specs.Prelude.{◌≡◌, List};
ghost use Rattle.constriction_model.specs.Precision.{IsPrecision};
ghost use Rattle.constriction_model.specs.Rows.{Row, RowsTile};
ghost use Rattle.constriction_tables.specs.ModelRows.{table_model_rows};
ghost use Rattle.constriction_tables.specs.private.Partial.{HoldsTable};

use crate::entry::TableEntry;
use crate::model::DirectTableModel;
use crate::partial::PartialTable;

/// The model of a table of rows that tile.
pub(crate) fn model_of_table<Entry: TableEntry, const PRECISION: usize>(
    table: PartialTable<Entry>,
) -> DirectTableModel<Entry, PRECISION>
    requires precision { IsPrecision Entry.ROW_BITS PRECISION }
    requires made { (rows : List (Row Entry.Symbol)) × HoldsTable Entry.number Entry.row_in
        Entry.ROW_BITS table.entries.items table.by_symbol.items rows
        × RowsTile 32 PRECISION rows }
    ensures { (rows : List (Row Entry.Symbol)) → HoldsTable Entry.number Entry.row_in Entry.ROW_BITS
        table.entries.items table.by_symbol.items rows → RowsTile 32 PRECISION rows
        → table_model_rows result ≡ rows }
{
    DirectTableModel {
        entries: table.entries,
        by_symbol: table.by_symbol,
    }
}
