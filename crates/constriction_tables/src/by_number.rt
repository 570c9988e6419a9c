//! Models of weights that stand in the order of the symbols' numbers.

ghost use Rattle.std.specs.Prelude.{◌≡◌, ◌+◌, ◌-◌, ◌^◌, ◌<◌, ◌≤◌, ◌↔◌, All, [], ◌∷◌, ◌++◌, length, sum, IfOk, IsTrue};
ghost use Rattle.constriction_model.specs.Acceptance.{IsAccepted, completed};
ghost use Rattle.constriction_model.specs.Precision.{IsPrecision};
ghost use Rattle.constriction_model.specs.Rows.{rows_of};
ghost use Rattle.constriction_tables.specs.ModelRows.{table_model_rows};
ghost use Rattle.constriction_tables.specs.Table.{first_symbols, weighted_rows};
ghost use Rattle.constriction_tables.specs.private.Partial.{HoldsTable};

use crate::entry::TableEntry;
use crate::making::model_of_table;
use crate::model::DirectTableModel;
use crate::partial::PartialTable;
use constriction_model::ModelError;
use constriction_stored_rows::TakesRows;
use std::alloc::Global;

/// How many quantiles there are.
#[inline]
pub(crate) fn quantile_count<Entry: TableEntry, const PRECISION: usize>() -> u32
    requires { IsPrecision Entry.ROW_BITS PRECISION }
    ensures value { result ≡ 2 ^ PRECISION }
    ensures small { result ≤ 65536 }
{
    1u32 << PRECISION as u32
}

/// The table of the weights other than 0, and their sum. `InvalidTable` comes if it exceeds
/// `2^PRECISION`.
fn table_of_weights<Entry: TableEntry, const PRECISION: usize>(
    mut table: PartialTable<Entry>,
    weights: &[u32],
) -> Result<(PartialTable<Entry>, u32), ModelError>
    requires precision { IsPrecision Entry.ROW_BITS PRECISION }
    requires few { length weights.now ≤ 2 ^ Entry.SYMBOL_BITS }
    requires none { HoldsTable Entry.number Entry.row_in Entry.ROW_BITS table.entries.items
        table.by_symbol.items [] }
    ensures held { IfOk result (λ x. HoldsTable Entry.number Entry.row_in Entry.ROW_BITS
        x.0.entries.items x.0.by_symbol.items (weighted_rows Entry.symbol_of weights.now)) }
    ensures total { IfOk result (λ x. x.1 ≡ sum weights.now) }
    ensures within { IfOk result (λ x. x.1 ≤ 2 ^ PRECISION) }
    ensures invalid { result ≡ Err ModelError.InvalidTable → 2 ^ PRECISION < sum weights.now }
{
    let total = quantile_count::<Entry, PRECISION>();
    let mut left = 0;
    for (number, weight) in weights.iter().enumerate() {
        if *weight > total - left {
            return Err(ModelError::InvalidTable);
        }
        if *weight > 0 {
            table.take_row(Entry::from_index(number), left, *weight)?;
            left += *weight;
        }
    }
    Ok((table, left))
}

/// Whether no weight is 0.
fn are_positive(weights: &[u32]) -> bool
    ensures { IsTrue result ↔ All (λ w. 0 < w) weights.now }
{
    weights.iter().all(|weight| *weight > 0)
}

/// The table with one more row, which takes the quantiles left. `InvalidTable` comes if none is.
fn with_last<Entry: TableEntry, const PRECISION: usize>(
    mut table: PartialTable<Entry>,
    weights: &[u32],
    total: u32,
) -> Result<PartialTable<Entry>, ModelError>
    requires precision { IsPrecision Entry.ROW_BITS PRECISION }
    requires few { length weights.now + 1 ≤ 2 ^ Entry.SYMBOL_BITS }
    requires held { HoldsTable Entry.number Entry.row_in Entry.ROW_BITS table.entries.items
        table.by_symbol.items (weighted_rows Entry.symbol_of weights.now) }
    requires total { total ≡ sum weights.now }
    requires within { total ≤ 2 ^ PRECISION }
    ensures held { IfOk result (λ t. HoldsTable Entry.number Entry.row_in Entry.ROW_BITS
        t.entries.items t.by_symbol.items (weighted_rows Entry.symbol_of
        (weights.now ++ (2 ^ PRECISION - sum weights.now) ∷ []))) }
    ensures some { IfOk result (λ _. sum weights.now < 2 ^ PRECISION) }
    ensures invalid { result ≡ Err ModelError.InvalidTable → 2 ^ PRECISION ≤ sum weights.now }
{
    let all = quantile_count::<Entry, PRECISION>();
    if total == all {
        return Err(ModelError::InvalidTable);
    }
    table.take_row(Entry::from_index(weights.len()), total, all - total)?;
    Ok(table)
}

impl<Entry: TableEntry, const PRECISION: usize> DirectTableModel<Entry, PRECISION> {
    /// The model of these weights, one for each symbol in the order of their numbers, from 0 on. A
    /// symbol of weight 0 has no row: it cannot be encoded, and is never decoded. So a histogram
    /// that was scaled to `2^PRECISION` serves as it is.
    ///
    /// The weights are accepted if and only if they add up to `2^PRECISION`. `OutOfMemory` comes if
    /// memory for the words or for the entries of symbols is refused.
    ///
    /// One pass over the weights, and two allocations.
    pub fn from_fixed_point_probabilities(
        alloc: Global,
        probabilities: &[u32],
    ) -> Result<Self, ModelError>
        requires precision { IsPrecision Entry.ROW_BITS PRECISION }
        requires few { length probabilities.now ≤ 2 ^ Entry.SYMBOL_BITS }
        ensures accepted { IfOk result (λ _. sum probabilities.now ≡ 2 ^ PRECISION) }
        ensures rows { IfOk result (λ m.
            table_model_rows m ≡ weighted_rows Entry.symbol_of probabilities.now) }
        ensures invalid { result ≡ Err ModelError.InvalidTable
            → ¬ (sum probabilities.now ≡ 2 ^ PRECISION) }
    {
        let all = quantile_count::<Entry, PRECISION>();
        let room = PartialTable::with_capacity(alloc, all as usize, probabilities.len())?;
        let (table, total) = table_of_weights::<Entry, PRECISION>(room, probabilities)?;
        if total < all {
            return Err(ModelError::InvalidTable);
        }
        Ok(model_of_table(table))
    }

    /// The model of these weights, one for each symbol in the order of their numbers, from 0 on. If
    /// the last weight is inferred, it is what the given weights leave of `2^PRECISION`, and there
    /// is one more symbol than given weights.
    ///
    /// The weights are accepted if and only if all, with the inferred one, are positive and add up
    /// to `2^PRECISION`. `OutOfMemory` comes if memory for the words or for the entries of symbols
    /// is refused.
    ///
    /// Two passes over the weights, and two allocations.
    pub fn from_nonzero_fixed_point_probabilities(
        alloc: Global,
        probabilities: &[u32],
        infer_last_probability: bool,
    ) -> Result<Self, ModelError>
        requires precision { IsPrecision Entry.ROW_BITS PRECISION }
        requires few { length (completed PRECISION infer_last_probability probabilities.now)
            ≤ 2 ^ Entry.SYMBOL_BITS }
        ensures accepted { IfOk result (λ _. IsAccepted 32 PRECISION
            (completed PRECISION infer_last_probability probabilities.now)) }
        ensures rows { IfOk result (λ m. table_model_rows m ≡ rows_of
            (first_symbols Entry.symbol_of
            (length (completed PRECISION infer_last_probability probabilities.now)))
            (completed PRECISION infer_last_probability probabilities.now)) }
        ensures invalid { result ≡ Err ModelError.InvalidTable → ¬ (IsAccepted 32 PRECISION
            (completed PRECISION infer_last_probability probabilities.now)) }
    {
        if !are_positive(probabilities) {
            return Err(ModelError::InvalidTable);
        }
        let all = quantile_count::<Entry, PRECISION>();
        let room = PartialTable::with_capacity(alloc, all as usize, probabilities.len())?;
        let (table, total) = table_of_weights::<Entry, PRECISION>(room, probabilities)?;
        if infer_last_probability {
            let table = with_last::<Entry, PRECISION>(table, probabilities, total)?;
            return Ok(model_of_table(table));
        }
        if total < all {
            return Err(ModelError::InvalidTable);
        }
        Ok(model_of_table(table))
    }
}
