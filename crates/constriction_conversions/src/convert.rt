//! Encoders that hash, made of any model that can be walked through.

ghost use Rattle.constriction_model.specs.Entries.{HoldsEntriesOf};
ghost use Rattle.constriction_categorical.specs.Made.{IsMadeIfMemorySuffices};
ghost use Rattle.constriction_conversions.specs.EncoderRows.{encoder_model_rows};

use crate::hashed::NonContiguousCategoricalEncoderModel;
use crate::walking::table_walked;
use constriction_categorical::IterableEntropyModel;
use constriction_model::{EntropyModel, ModelError};
use constriction_numbers::WholeNumber;
use std::alloc::Global;
use std::hash::Hash;

/// The hashed encoder that is made of the model `M`.
pub type EncoderMadeOf<M, const PRECISION: usize> = NonContiguousCategoricalEncoderModel<
    <M as EntropyModel<PRECISION>>::Symbol,
    <M as EntropyModel<PRECISION>>::Probability,
    PRECISION,
>;

/// The encoder model with the entries of any model that can be walked through: for each symbol that
/// the walk gives, the entry of its last row. `OutOfMemory` comes if memory for the hash table or
/// for a clone of a symbol is refused.
///
/// One walk, and one hash a row.
pub fn to_generic_encoder_model<M, const PRECISION: usize>(
    alloc: Global,
    model: M,
) -> Result<EncoderMadeOf<M, PRECISION>, ModelError>
where
    M: IterableEntropyModel<PRECISION>,
    M::Symbol: Hash + Eq + Drop,
    ensures { IsMadeIfMemorySuffices (λ e.
        HoldsEntriesOf M.Symbol.eq M.stands_for (encoder_model_rows e) (M.rows model)) result }
{
    let table = table_walked::<_, _, _, _, PRECISION>(alloc, model.symbol_table())?;
    Ok(NonContiguousCategoricalEncoderModel { table })
}

impl<
    Symbol: Hash + Eq + Drop,
    Probability: WholeNumber,
    const PRECISION: usize,
> NonContiguousCategoricalEncoderModel<Symbol, Probability, PRECISION> {
    /// As [`to_generic_encoder_model`](crate::to_generic_encoder_model).
    pub fn from_iterable_entropy_model<M>(alloc: Global, model: M) -> Result<Self, ModelError>
    where
        M: IterableEntropyModel<PRECISION>
            + EntropyModel<PRECISION, Symbol = Symbol, Probability = Probability>,
        ensures { IsMadeIfMemorySuffices (λ e.
            HoldsEntriesOf Symbol.eq M.stands_for (encoder_model_rows e) (M.rows model)) result }
    {
        to_generic_encoder_model::<M, PRECISION>(alloc, model)
    }
}
