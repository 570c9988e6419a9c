//! Models made of any model that can be walked through.

ghost use Rattle.std.specs.Prelude.{◌≡◌, List, IfOk};
ghost use Rattle.constriction_categorical.specs.Made.{IsMadeIfApart};
ghost use Rattle.constriction_model.specs.Model.{ClonesRepeat, StandForRows};
ghost use Rattle.constriction_model.specs.Precision.{IsPrecision};
ghost use Rattle.constriction_model.specs.Rows.{Row};
ghost use Rattle.constriction_tables.specs.ModelRows.{table_model_rows};
ghost use Rattle.constriction_tables.specs.Table.{same_number};
ghost use Rattle.constriction_tables.specs.private.Partial.{HoldsTable};

use crate::by_number::quantile_count;
use crate::entry::TableEntry;
use crate::making::model_of_table;
use crate::model::DirectTableModel;
use crate::partial::PartialTable;
use constriction_categorical::IterableEntropyModel;
use constriction_model::{EntropyModel, ModelError};
use constriction_numbers::WholeNumber;
use constriction_stored_rows::TakesRows;
use std::alloc::Global;

/// The table of the rows of a model. `InvalidTable` comes only if two symbols that a walk may give
/// are equal.
fn table_of_model<Entry: TableEntry, M, const PRECISION: usize>(
    alloc: Global,
    model: M,
) -> Result<PartialTable<Entry>, ModelError>
where
    M: IterableEntropyModel<PRECISION> + EntropyModel<PRECISION, Symbol = Entry::Symbol>,
    requires { IsPrecision Entry.ROW_BITS PRECISION }
    ensures ok { IfOk result (λ t. (made : List (Row Entry.Symbol))
        × StandForRows M.stands_for made (M.rows model) × HoldsTable Entry.number Entry.row_in
        Entry.ROW_BITS t.entries.items t.by_symbol.items made) }
    ensures invalid { result ≡ Err ModelError.InvalidTable
        → ClonesRepeat (same_number Entry.number) M.stands_for (M.rows model) }
{
    let mut walk = model.symbol_table();
    let all = quantile_count::<Entry, PRECISION>();
    let mut table = PartialTable::with_capacity(alloc, all as usize, 0)?;
    'rows: while let Some(row) = walk.next() {
        let (symbol, left, weight) = row?;
        let left = left.to_number() as u32;
        let weight = <M::Probability as WholeNumber>::from_weight(weight).to_number() as u32;
        table.take_row(symbol, left, weight)?;
    }
    Ok(table)
}

impl<Entry: TableEntry, const PRECISION: usize> DirectTableModel<Entry, PRECISION> {
    /// The model with the rows of any model of such symbols that can be walked through.
    ///
    /// `InvalidTable` comes only if two symbols that a walk may give are equal, `OutOfMemory` if
    /// memory for the words, for the entries of symbols or for a clone is refused.
    ///
    /// One walk. No symbols are compared.
    pub fn from_iterable_entropy_model<M>(alloc: Global, model: M) -> Result<Self, ModelError>
    where
        M: IterableEntropyModel<PRECISION> + EntropyModel<PRECISION, Symbol = Entry::Symbol>,
        requires { IsPrecision Entry.ROW_BITS PRECISION }
        ensures { IsMadeIfApart (same_number Entry.number) M.stands_for table_model_rows
            (M.rows model) result }
    {
        let table = table_of_model::<Entry, M, PRECISION>(alloc, model)?;
        Ok(model_of_table(table))
    }
}
