//! Decoders and lookup models over any symbols, made of any model that can be walked through.

ghost use Rattle.std.specs.Prelude.{◌≡◌, ◌≤◌, map, IfOk};
ghost use Rattle.std.specs.List.{IsDistinct};
ghost use Rattle.constriction_model.specs.Model.{StandApart, ClonesRepeat};
ghost use Rattle.constriction_stored_rows.specs.Stored.{IsStored, rows_paired};
ghost use Rattle.constriction_categorical.specs.Made.{IsMadeIfApart};
ghost use Rattle.constriction_categorical.specs.ModelRows.{decoder_model_rows, lookup_model_rows};

use crate::iterable::IterableEntropyModel;
use crate::lookup::{LookupDecoderModel, lookup_over};
use crate::lookup_non_contiguous::OwnLookupDecoderModel;
use crate::non_contiguous::{NonContiguousCategoricalDecoderModel, decoder_over};
use crate::walking::entries_walked;
use constriction_model::{EntropyModel, ModelError};
use constriction_numbers::{IndexWord, WholeNumber};
use std::alloc::Global;

pub mod distinct;

/// The decoder over any symbols that is made of the model `M`. It owns its entries.
pub type DecoderMadeOf<M, const PRECISION: usize> = NonContiguousCategoricalDecoderModel<
    <M as EntropyModel<PRECISION>>::Symbol,
    <M as EntropyModel<PRECISION>>::Probability,
    Vec<
        (
            <M as EntropyModel<PRECISION>>::Probability,
            <M as EntropyModel<PRECISION>>::Symbol,
        ),
    >,
    PRECISION,
>;

/// The lookup model over any symbols that is made of the model `M`. It owns its entries and its
/// lookup table.
pub type LookupMadeOf<M, const PRECISION: usize, const SLOT_BITS: usize> = LookupDecoderModel<
    DecoderMadeOf<M, PRECISION>,
    Vec<<M as EntropyModel<PRECISION>>::Probability>,
    PRECISION,
    SLOT_BITS,
>;

/// The entries of a decoder with a model's rows, if no two symbols are equal. Each symbol is
/// compared with all before it.
#[inline]
fn entries_of_model<M, const PRECISION: usize>(
    alloc: Global,
    model: M,
) -> Result<Vec<(M::Probability, M::Symbol)>, ModelError>
where
    M: IterableEntropyModel<PRECISION>,
    M::Symbol: Eq + Drop,
    ensures stored { IfOk result (λ v.
        IsStored M.Probability.BITS PRECISION (map (λ x. M.Probability.whole x.0) v.items)) }
    ensures distinct { IfOk result (λ v. IsDistinct M.Symbol.eq (map (λ x. x.1) v.items)) }
    ensures rows { IfOk result (λ v. StandApart M.Symbol.eq M.stands_for
        (rows_paired M.Probability.whole PRECISION v.items) (M.rows model)) }
    ensures invalid { result ≡ Err ModelError.InvalidTable
        → ClonesRepeat M.Symbol.eq M.stands_for (M.rows model) }
{
    let entries = entries_walked::<_, _, _, _, PRECISION>(alloc, model.symbol_table())?;
    Ok(entries)
}

/// The decoder model with the rows of any model that can be walked through.
///
/// Its symbols are those that the walk gives: clones if the model owns its symbols. `InvalidTable`
/// comes only if two symbols that a walk may give are equal, `OutOfMemory` if memory for the
/// entries or for a clone is refused.
///
/// One walk. Each symbol is compared with all before it: `n * (n - 1) / 2` comparisons for `n`
/// rows. If the symbols are known to differ, as those of each model of this library are,
/// [`to_generic_decoder_model_of_distinct`](crate::to_generic_decoder_model_of_distinct) compares
/// none.
pub fn to_generic_decoder_model<M, const PRECISION: usize>(
    alloc: Global,
    model: M,
) -> Result<DecoderMadeOf<M, PRECISION>, ModelError>
where
    M: IterableEntropyModel<PRECISION>,
    M::Symbol: Eq + Drop,
    ensures { IsMadeIfApart M.Symbol.eq M.stands_for decoder_model_rows (M.rows model) result }
{
    let entries = entries_of_model(alloc, model)?;
    Ok(decoder_over(entries))
}

/// The lookup model of the decoder that [`to_generic_decoder_model`] makes. `OutOfMemory` comes
/// also if memory for the lookup table is refused.
///
/// Two passes over the rows follow the walk.
pub fn to_generic_lookup_decoder_model<M, const PRECISION: usize>(
    alloc: Global,
    model: M,
) -> Result<LookupMadeOf<M, PRECISION, 8>, ModelError>
where
    M: IterableEntropyModel<PRECISION>,
    M::Symbol: Eq + Drop,
    M::Probability: IndexWord,
    requires { PRECISION ≤ 63 }
    ensures { IsMadeIfApart M.Symbol.eq M.stands_for lookup_model_rows (M.rows model) result }
{
    to_generic_slotted_lookup_decoder_model::<M, PRECISION, 8>(alloc, model)
}

/// The same with `2^min(PRECISION, SLOT_BITS)` slots.
pub fn to_generic_slotted_lookup_decoder_model<M, const PRECISION: usize, const SLOT_BITS: usize>(
    alloc: Global,
    model: M,
) -> Result<LookupMadeOf<M, PRECISION, SLOT_BITS>, ModelError>
where
    M: IterableEntropyModel<PRECISION>,
    M::Symbol: Eq + Drop,
    M::Probability: IndexWord,
    requires { PRECISION ≤ 63 }
    ensures { IsMadeIfApart M.Symbol.eq M.stands_for lookup_model_rows (M.rows model) result }
{
    let searching = to_generic_decoder_model::<M, PRECISION>(alloc, model)?;
    lookup_over(alloc, searching)
}

impl<
    Symbol: Eq + Drop,
    Probability: WholeNumber,
    const PRECISION: usize,
> NonContiguousCategoricalDecoderModel<Symbol, Probability, Vec<(Probability, Symbol)>, PRECISION> {
    /// As [`to_generic_decoder_model`](crate::to_generic_decoder_model).
    pub fn from_iterable_entropy_model<M>(alloc: Global, model: M) -> Result<Self, ModelError>
    where
        M: IterableEntropyModel<PRECISION>
            + EntropyModel<PRECISION, Symbol = Symbol, Probability = Probability>,
        ensures { IsMadeIfApart Symbol.eq M.stands_for decoder_model_rows (M.rows model) result }
    {
        to_generic_decoder_model::<M, PRECISION>(alloc, model)
    }
}

impl<
    Symbol: Eq + Drop,
    Probability: IndexWord,
    const PRECISION: usize,
    const SLOT_BITS: usize,
> OwnLookupDecoderModel<Symbol, Probability, PRECISION, SLOT_BITS> {
    /// As
    /// [`to_generic_slotted_lookup_decoder_model`](crate::to_generic_slotted_lookup_decoder_model).
    pub fn from_iterable_entropy_model<M>(alloc: Global, model: M) -> Result<Self, ModelError>
    where
        M: IterableEntropyModel<PRECISION>
            + EntropyModel<PRECISION, Symbol = Symbol, Probability = Probability>,
        requires { PRECISION ≤ 63 }
        ensures { IsMadeIfApart Symbol.eq M.stands_for lookup_model_rows (M.rows model) result }
    {
        to_generic_slotted_lookup_decoder_model::<M, PRECISION, SLOT_BITS>(alloc, model)
    }
}
