//! Models of the symbols 0, 1, .., which look up where to search for the row of a quantile.

ghost use Rattle.std.specs.Prelude.{◌≡◌, ◌≤◌, map};
ghost use Rattle.std.specs.Iterator.{IsFiniteIterable};
ghost use Rattle.constriction_model.specs.Acceptance.{completed, IsAccepted, IsDecidedByWeights};
ghost use Rattle.constriction_model.specs.Precision.{IsLookupPrecision};
ghost use Rattle.constriction_model.specs.Rows.{contiguous_rows};
ghost use Rattle.constriction_stored_rows.specs.lemmas.StoredRows.{stored-tiles};
ghost use Rattle.constriction_stored_rows.specs.Stored.{rows_stored};
ghost use Rattle.constriction_categorical.specs.Made.{IsMadeIfMemorySuffices};
ghost use Rattle.constriction_categorical.specs.ModelRows.{contiguous_model_rows, lookup_model_rows};

use crate::contiguous::ContiguousCategoricalEntropyModel;
use crate::iterable::IterableEntropyModel;
use crate::lookup::{LookupDecoderModel, lookup_over};
use crate::symbol_table::ContiguousSymbolTable;
use constriction_buffers::SafeBuf;
use constriction_model::ModelError;
use constriction_numbers::IndexWord;
use constriction_stored_rows::copy_of;
use std::alloc::{AllocError, Global};

/// A contiguous model with a lookup table of `2^min(PRECISION, SLOT_BITS)` slots, for decoders.
/// Beside it the model stores a cdf, one word a symbol and one more.
pub type SlottedContiguousLookupDecoderModel<
    Probability,
    Cdf,
    LookupTable,
    const PRECISION: usize,
    const SLOT_BITS: usize,
> = LookupDecoderModel<
    ContiguousCategoricalEntropyModel<Probability, Cdf, PRECISION>,
    LookupTable,
    PRECISION,
    SLOT_BITS,
>;

/// The same with `2^min(PRECISION, 8)` slots. The lookup table has at most 512 words.
pub type ContiguousLookupDecoderModel<Probability, Cdf, LookupTable, const PRECISION: usize> =
    SlottedContiguousLookupDecoderModel<Probability, Cdf, LookupTable, PRECISION, 8>;

/// Over 12 bits of `u16`, for few symbols.
pub type SmallContiguousLookupDecoderModel<Cdf = Vec<u16>, LookupTable = Vec<u16>> =
    ContiguousLookupDecoderModel<u16, Cdf, LookupTable, 12>;

/// Over 12 bits of `u16`, with a slot for each quantile: a lookup table of 4,096 words, where a
/// look-up searches nothing.
pub type SmallContiguousDirectLookupDecoderModel<Cdf = Vec<u16>, LookupTable = Vec<u16>> =
    SlottedContiguousLookupDecoderModel<u16, Cdf, LookupTable, 12, 12>;

/// Over 24 bits of `u32`, for most uses, with 4,096 slots: a lookup table of 8,192 words, 32 KiB.
///
/// A look-up takes a quarter to two fifths of the time that a search of all rows takes. With 4,096
/// rows the lookup table pays after some 2,000 look-ups: to decode fewer symbols with one model,
/// take the searching model. If memory counts, take [`ContiguousLookupDecoderModel`], with 512
/// words.
pub type DefaultContiguousLookupDecoderModel<Cdf = Vec<u32>, LookupTable = Vec<u32>> =
    SlottedContiguousLookupDecoderModel<u32, Cdf, LookupTable, 24, 12>;

impl<
    Probability: IndexWord,
    const PRECISION: usize,
    const SLOT_BITS: usize,
> SlottedContiguousLookupDecoderModel<
    Probability,
    Vec<Probability>,
    Vec<Probability>,
    PRECISION,
    SLOT_BITS,
> {
    /// As [`ContiguousCategoricalEntropyModel::from_nonzero_fixed_point_probabilities`], and with a
    /// lookup table. `InvalidTable` comes before it is made, `OutOfMemory` also if memory for it is
    /// refused.
    ///
    /// One pass over the rows and one allocation for the lookup table are added.
    #[tactic(auto, using(crate::proofs::Remade::error_of_weights))]
    pub fn from_nonzero_fixed_point_probabilities<I: IntoIterator<Item = Probability>>(
        alloc: Global,
        probabilities: I,
        infer_last_probability: bool,
    ) -> Result<Self, ModelError>
        requires precision { IsLookupPrecision Probability.BITS PRECISION }
        requires ends { IsFiniteIterable I.into_iter_gives I.IntoIter.can_next I.IntoIter.remaining
            probabilities }
        ensures { IsDecidedByWeights (IsAccepted Probability.BITS PRECISION)
            (completed PRECISION infer_last_probability) I.into_iter_gives I.IntoIter.next_gives
            probabilities Probability.whole (λ m ws. lookup_model_rows m ≡ contiguous_rows ws)
            result }
    {
        let model = ContiguousCategoricalEntropyModel::<
            Probability,
            Vec<Probability>,
            PRECISION,
        >::from_nonzero_fixed_point_probabilities(alloc, probabilities, infer_last_probability)?;
        lookup_over(alloc, model)
    }
}

impl<Probability: IndexWord, const PRECISION: usize, const SLOT_BITS: usize> Clone
    for SlottedContiguousLookupDecoderModel<
        Probability,
        Vec<Probability>,
        Vec<Probability>,
        PRECISION,
        SLOT_BITS,
    > {
    ghost is_clone = { λ x y. lookup_model_rows y ≡ lookup_model_rows x };

    /// A copy of the model. Its rows and its lookup table come from the allocators of this model's.
    ///
    /// Two allocations, and one copy of each.
    fn clone(&self) -> Result<Self, AllocError> {
        let lookup_table = copy_of(*self.lookup_table.allocator(), self.lookup_table.as_slice())?;
        let model = self.model.clone()?;
        Ok(Self {
            model,
            lookup_table,
        })
    }
}

impl<
    Probability: IndexWord,
    Cdf: SafeBuf<Probability>,
    const PRECISION: usize,
> ContiguousCategoricalEntropyModel<Probability, Cdf, PRECISION> {
    /// The lookup model of the same rows. Two allocations, one copy of the rows and one pass over
    /// them.
    pub fn to_lookup_decoder_model(
        &self,
        alloc: Global,
    ) -> Result<
        ContiguousLookupDecoderModel<Probability, Vec<Probability>, Vec<Probability>, PRECISION>,
        ModelError,
    >
        requires { PRECISION ≤ 63 }
        ensures { IsMadeIfMemorySuffices (λ m. lookup_model_rows m ≡ contiguous_model_rows self.now)
            result }
    {
        self.to_slotted_lookup_decoder_model::<8>(alloc)
    }

    /// The same with `2^min(PRECISION, SLOT_BITS)` slots.
    #[tactic(auto, using(crate::proofs::Remade::rows_same))]
    pub fn to_slotted_lookup_decoder_model<const SLOT_BITS: usize>(
        &self,
        alloc: Global,
    ) -> Result<
        SlottedContiguousLookupDecoderModel<
            Probability,
            Vec<Probability>,
            Vec<Probability>,
            PRECISION,
            SLOT_BITS,
        >,
        ModelError,
    >
        requires { PRECISION ≤ 63 }
        ensures { IsMadeIfMemorySuffices (λ m. lookup_model_rows m ≡ contiguous_model_rows self.now)
            result }
    {
        match self.clone_in(alloc) {
            Ok(copy) => lookup_over(alloc, copy),
            Err(_) => Err(ModelError::OutOfMemory),
        }
    }
}

impl<
    Probability: IndexWord,
    Cdf: SafeBuf<Probability>,
    LookupTable: SafeBuf<Probability>,
    const PRECISION: usize,
    const SLOT_BITS: usize,
> SlottedContiguousLookupDecoderModel<Probability, Cdf, LookupTable, PRECISION, SLOT_BITS> {
    /// A view of the model, which borrows its cdf and its lookup table.
    #[inline]
    pub fn as_view<'m>(
        &'m self,
    ) -> SlottedContiguousLookupDecoderModel<
        Probability,
        &'m [Probability],
        &'m [Probability],
        PRECISION,
        SLOT_BITS,
    >
        ensures { lookup_model_rows result ≡ lookup_model_rows self.now }
    {
        LookupDecoderModel {
            model: self.model.as_view(),
            lookup_table: self.lookup_table.words(),
        }
    }

    /// The searching model of the same rows, which borrows them. It encodes too.
    #[inline]
    pub fn as_contiguous_categorical<'m>(
        &'m self,
    ) -> ContiguousCategoricalEntropyModel<Probability, &'m [Probability], PRECISION>
        ensures { contiguous_model_rows result ≡ lookup_model_rows self.now }
    {
        self.model.as_view()
    }
}

impl<
    'm,
    Probability: IndexWord + 'm,
    Cdf: SafeBuf<Probability> + 'm,
    LookupTable: SafeBuf<Probability> + 'm,
    const PRECISION: usize,
    const SLOT_BITS: usize,
> IterableEntropyModel<PRECISION>
    for &'m SlottedContiguousLookupDecoderModel<
        Probability,
        Cdf,
        LookupTable,
        PRECISION,
        SLOT_BITS,
    > {
    type SymbolTable = ContiguousSymbolTable<'m, Probability, PRECISION>;

    ghost rows_left = { λ t. rows_stored PRECISION (map Probability.whole t.cdf.now) t.from t.to };

    /// All rows in order, each once: symbol, left cumulative and weight. The walk takes no memory,
    /// and every item is a row.
    #[inline]
    fn symbol_table(self) -> ContiguousSymbolTable<'m, Probability, PRECISION> {
        (&self.model).symbol_table()
    }

    ghost steps_law = { λ t r u step. step };

    ghost tile_law = { λ m. stored-tiles _ _ _ m.now.model.stored.stored };
}
