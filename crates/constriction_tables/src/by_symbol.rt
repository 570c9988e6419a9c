//! Models of symbols and weights.

ghost use Rattle.std.specs.Prelude.{◌≡◌};
ghost use Rattle.std.specs.Iterator.{IsFiniteIterable};
ghost use Rattle.constriction_model.specs.Acceptance.{AreAccepted, IsDecidedByBoth, IsMadeOfBoth, WasReadOf, completed};
ghost use Rattle.constriction_model.specs.Precision.{IsPrecision};
ghost use Rattle.constriction_model.specs.Rows.{rows_of};
ghost use Rattle.constriction_tables.specs.ModelRows.{table_model_rows};
ghost use Rattle.constriction_tables.specs.Table.{same_number};
ghost use Rattle.constriction_tables.specs.private.Partial.{HoldsTable};

use crate::by_number::quantile_count;
use crate::entry::TableEntry;
use crate::making::model_of_table;
use crate::model::DirectTableModel;
use crate::partial::PartialTable;
use constriction_model::ModelError;
use constriction_stored_rows::{rows_announced, rows_read};
use std::alloc::Global;

/// The table of these symbols and weights. The last weight may be inferred.
#[inline]
fn table_read<
    Entry: TableEntry,
    S: IntoIterator<Item = Entry::Symbol>,
    P: IntoIterator<Item = u32>,
    const PRECISION: usize,
>(
    alloc: Global,
    symbols: S,
    probabilities: P,
    infer_last_probability: bool,
) -> Result<PartialTable<Entry>, ModelError>
    requires precision { IsPrecision Entry.ROW_BITS PRECISION }
    requires symbols_end { IsFiniteIterable S.into_iter_gives S.IntoIter.can_next
        S.IntoIter.remaining symbols }
    requires probabilities_end { IsFiniteIterable P.into_iter_gives P.IntoIter.can_next
        P.IntoIter.remaining probabilities }
    ensures { IsMadeOfBoth (AreAccepted (same_number Entry.number) 32 PRECISION)
        (completed PRECISION infer_last_probability)
        (WasReadOf S.into_iter_gives S.IntoIter.next_gives symbols)
        (WasReadOf P.into_iter_gives P.IntoIter.next_gives probabilities) (λ w. w)
        (λ t ss ws. HoldsTable Entry.number Entry.row_in Entry.ROW_BITS t.entries.items
        t.by_symbol.items (rows_of ss ws)) result }
{
    let symbols = symbols.into_iter();
    let probabilities = probabilities.into_iter();
    let announced = rows_announced::<PRECISION>(symbols.size_hint().0);
    let all = quantile_count::<Entry, PRECISION>();
    let room = PartialTable::with_capacity(alloc, all as usize, announced)?;
    rows_read::<u32, Entry::Symbol, PartialTable<Entry>, _, _, PRECISION>(
        room,
        symbols,
        probabilities,
        infer_last_probability,
    )
}

impl<Entry: TableEntry, const PRECISION: usize> DirectTableModel<Entry, PRECISION> {
    /// The model of these symbols and weights, of which the last may be inferred.
    ///
    /// They are accepted as by `from_symbols_and_nonzero_fixed_point_probabilities` of
    /// `NonContiguousCategoricalDecoderModel`: if and only if the weights, with the inferred one,
    /// are positive and add up to `2^PRECISION`, there is exactly one symbol for each, and no two
    /// symbols are equal. If they are not, `InvalidTable` comes after both iterators were read to
    /// their ends, or as soon as no lists with this beginning are accepted. `OutOfMemory` comes if
    /// memory for the words or for the entries of symbols is refused.
    ///
    /// One pass over both. A symbol is compared with no other: the list of entries shows if it was
    /// there.
    pub fn from_symbols_and_nonzero_fixed_point_probabilities<
        S: IntoIterator<Item = Entry::Symbol>,
        P: IntoIterator<Item = u32>,
    >(
        alloc: Global,
        symbols: S,
        probabilities: P,
        infer_last_probability: bool,
    ) -> Result<Self, ModelError>
        requires precision { IsPrecision Entry.ROW_BITS PRECISION }
        requires symbols_end { IsFiniteIterable S.into_iter_gives S.IntoIter.can_next
            S.IntoIter.remaining symbols }
        requires probabilities_end { IsFiniteIterable P.into_iter_gives P.IntoIter.can_next
            P.IntoIter.remaining probabilities }
        ensures { IsDecidedByBoth (AreAccepted (same_number Entry.number) 32 PRECISION)
            (completed PRECISION infer_last_probability) S.into_iter_gives S.IntoIter.next_gives
            symbols P.into_iter_gives P.IntoIter.next_gives probabilities (λ w. w)
            (λ m ss ws. table_model_rows m ≡ rows_of ss ws) result }
    {
        let table = table_read::<Entry, S, P, PRECISION>(
            alloc,
            symbols,
            probabilities,
            infer_last_probability,
        )?;
        Ok(model_of_table(table))
    }
}
