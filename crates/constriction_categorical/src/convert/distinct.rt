//! Models made of other models without comparing symbols, which are known to differ.

ghost use Rattle.std.specs.Prelude.{◌≡◌, ◌≤◌, map, IfOk, IfErr};
ghost use Rattle.std.specs.List.{IsDistinct};
ghost use Rattle.constriction_model.specs.Model.{StandApart, ClonesAreEqual};
ghost use Rattle.constriction_model.specs.Rows.{symbols_of};
ghost use Rattle.constriction_stored_rows.specs.Stored.{IsStored, rows_paired};
ghost use Rattle.constriction_categorical.specs.Made.{IsMadeIfMemorySuffices};
ghost use Rattle.constriction_categorical.specs.ModelRows.{decoder_model_rows, lookup_model_rows};

use crate::convert::{DecoderMadeOf, LookupMadeOf};
use crate::iterable::IterableEntropyModel;
use crate::non_contiguous::decoder_over;
use crate::walking::entries_collected;
use constriction_model::ModelError;
use constriction_numbers::IndexWord;
use std::alloc::Global;

/// The entries of a decoder with a model's rows. No two of the model's symbols are equal.
#[inline]
fn uncompared_entries_of_model<M, const PRECISION: usize>(
    alloc: Global,
    model: M,
) -> Result<Vec<(M::Probability, M::Symbol)>, ModelError>
where
    M: IterableEntropyModel<PRECISION>,
    M::Symbol: Eq + Drop,
    requires clones { ClonesAreEqual M.Symbol.eq M.stands_for }
    requires differ { IsDistinct M.Symbol.eq (symbols_of (M.rows model)) }
    ensures stored { IfOk result (λ v.
        IsStored M.Probability.BITS PRECISION (map (λ x. M.Probability.whole x.0) v.items)) }
    ensures distinct { IfOk result (λ v. IsDistinct M.Symbol.eq (map (λ x. x.1) v.items)) }
    ensures rows { IfOk result (λ v. StandApart M.Symbol.eq M.stands_for
        (rows_paired M.Probability.whole PRECISION v.items) (M.rows model)) }
    ensures refused { IfErr result (λ e. e ≡ ModelError.OutOfMemory) }
{
    let entries = entries_collected::<_, _, _, _, PRECISION>(alloc, model.symbol_table())?;
    Ok(entries)
}

/// The decoder model with the rows of a model with no two equal symbols. The functions of `laws`
/// say so of each contiguous or uniform model, and of each decoder over any symbols.
///
/// Its symbols are those that the walk gives. `OutOfMemory` comes if memory for the entries or for
/// a clone is refused.
///
/// One walk, and one allocation if the walk announces the number of rows. No symbols are compared.
pub fn to_generic_decoder_model_of_distinct<M, const PRECISION: usize>(
    alloc: Global,
    model: M,
) -> Result<DecoderMadeOf<M, PRECISION>, ModelError>
where
    M: IterableEntropyModel<PRECISION>,
    M::Symbol: Eq + Drop,
    requires clones { ClonesAreEqual M.Symbol.eq M.stands_for }
    requires distinct { IsDistinct M.Symbol.eq (symbols_of (M.rows model)) }
    ensures { IsMadeIfMemorySuffices
        (λ d. StandApart M.Symbol.eq M.stands_for (decoder_model_rows d) (M.rows model)) result }
{
    let entries = uncompared_entries_of_model(alloc, model)?;
    Ok(decoder_over(entries))
}

/// The lookup model of the decoder that [`to_generic_decoder_model_of_distinct`] makes.
/// `OutOfMemory` comes also if memory for the lookup table is refused.
///
/// Two passes over the rows follow the walk.
pub fn to_generic_lookup_decoder_model_of_distinct<M, const PRECISION: usize>(
    alloc: Global,
    model: M,
) -> Result<LookupMadeOf<M, PRECISION, 8>, ModelError>
where
    M: IterableEntropyModel<PRECISION>,
    M::Symbol: Eq + Drop,
    M::Probability: IndexWord,
    requires narrow { PRECISION ≤ 63 }
    requires clones { ClonesAreEqual M.Symbol.eq M.stands_for }
    requires distinct { IsDistinct M.Symbol.eq (symbols_of (M.rows model)) }
    ensures { IsMadeIfMemorySuffices
        (λ d. StandApart M.Symbol.eq M.stands_for (lookup_model_rows d) (M.rows model)) result }
{
    let searching = to_generic_decoder_model_of_distinct::<M, PRECISION>(alloc, model)?;
    searching.into_lookup_decoder_model(alloc)
}
