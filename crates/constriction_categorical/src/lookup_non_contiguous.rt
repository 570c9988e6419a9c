//! Models of any symbols, which look up where to search for the row of a quantile.

ghost use Rattle.std.specs.Prelude.{◌≡◌, ◌≤◌, IfOk};
ghost use Rattle.std.specs.Iterator.{IsFiniteIterable};
ghost use Rattle.constriction_model.specs.Acceptance.{completed, AreAccepted, IsDecidedByBoth, GivesDistinct};
ghost use Rattle.constriction_model.specs.Model.{StandForRows, ClonesAreEqual};
ghost use Rattle.constriction_model.specs.Precision.{IsLookupPrecision};
ghost use Rattle.constriction_model.specs.Rows.{rows_of};
ghost use Rattle.constriction_stored_rows.specs.lemmas.SymbolRows.{paired-tiles};
ghost use Rattle.constriction_stored_rows.specs.Stored.{rows_paired};
ghost use Rattle.constriction_model.specs.Tables.{rows_between};
ghost use Rattle.constriction_categorical.specs.Made.{IsMadeIfMemorySuffices};
ghost use Rattle.constriction_categorical.specs.ModelRows.{decoder_model_rows, lookup_model_rows};

use crate::convert::LookupMadeOf;
use crate::iterable::IterableEntropyModel;
use crate::lookup::{LookupDecoderModel, lookup_over};
use crate::non_contiguous::NonContiguousCategoricalDecoderModel;
use crate::non_contiguous_table::NonContiguousSymbolTable;
use constriction_buffers::SafeBuf;
use constriction_model::ModelError;
use constriction_numbers::IndexWord;
use constriction_stored_rows::copy_of;
use std::alloc::{AllocError, Global};

/// A model of any distinct symbols with a lookup table of `2^min(PRECISION, SLOT_BITS)` slots, for
/// decoders. After its slots the lookup table has one word a symbol and one more. Beside it the
/// model stores an entry a symbol.
pub type SlottedNonContiguousLookupDecoderModel<
    Symbol,
    Probability,
    Cdf,
    LookupTable,
    const PRECISION: usize,
    const SLOT_BITS: usize,
> = LookupDecoderModel<
    NonContiguousCategoricalDecoderModel<Symbol, Probability, Cdf, PRECISION>,
    LookupTable,
    PRECISION,
    SLOT_BITS,
>;

/// The same with `2^min(PRECISION, 8)` slots, which take at most 512 words.
pub type NonContiguousLookupDecoderModel<
    Symbol,
    Probability,
    Cdf,
    LookupTable,
    const PRECISION: usize,
> = SlottedNonContiguousLookupDecoderModel<Symbol, Probability, Cdf, LookupTable, PRECISION, 8>;

/// Over 12 bits of `u16`, for few symbols.
pub type SmallNonContiguousLookupDecoderModel<
    Symbol,
    Cdf = Vec<(u16, Symbol)>,
    LookupTable = Vec<u16>,
> = NonContiguousLookupDecoderModel<Symbol, u16, Cdf, LookupTable, 12>;

/// Over 12 bits of `u16`, with a slot for each quantile: 4,096 words, and a look-up searches
/// nothing.
pub type SmallNonContiguousDirectLookupDecoderModel<
    Symbol,
    Cdf = Vec<(u16, Symbol)>,
    LookupTable = Vec<u16>,
> = SlottedNonContiguousLookupDecoderModel<Symbol, u16, Cdf, LookupTable, 12, 12>;

/// Over 24 bits of `u32`, for most uses, with 4,096 slots, which take 8,192 words, 32 KiB. It pays
/// from a few thousand symbols to decode on.
pub type DefaultNonContiguousLookupDecoderModel<
    Symbol,
    Cdf = Vec<(u32, Symbol)>,
    LookupTable = Vec<u32>,
> = SlottedNonContiguousLookupDecoderModel<Symbol, u32, Cdf, LookupTable, 24, 12>;

// The model that owns its rows and its lookup table. Its short name keeps the names of proof
// modules below 239 characters: modules with longer names are not kept, and each crate above checks
// them anew.
pub(crate) type OwnLookupDecoderModel<
    Symbol,
    Probability,
    const PRECISION: usize,
    const SLOT_BITS: usize,
> = SlottedNonContiguousLookupDecoderModel<
    Symbol,
    Probability,
    Vec<(Probability, Symbol)>,
    Vec<Probability>,
    PRECISION,
    SLOT_BITS,
>;

impl<
    Symbol: Eq + Drop,
    Probability: IndexWord,
    const PRECISION: usize,
    const SLOT_BITS: usize,
> OwnLookupDecoderModel<Symbol, Probability, PRECISION, SLOT_BITS> {
    /// As the constructor of this name of [`NonContiguousCategoricalDecoderModel`], and with a
    /// lookup table. `InvalidTable` comes before it is made, `OutOfMemory` also if memory for it is
    /// refused.
    ///
    /// Two passes over the rows and one allocation for the lookup table are added.
    #[tactic(auto, using(crate::proofs::Remade::error_of_both))]
    pub fn from_symbols_and_nonzero_fixed_point_probabilities<
        S: IntoIterator<Item = Symbol>,
        P: IntoIterator<Item = Probability>,
    >(
        alloc: Global,
        symbols: S,
        probabilities: P,
        infer_last_probability: bool,
    ) -> Result<Self, ModelError>
        requires precision { IsLookupPrecision Probability.BITS PRECISION }
        requires symbols_end { IsFiniteIterable S.into_iter_gives S.IntoIter.can_next
            S.IntoIter.remaining symbols }
        requires probabilities_end { IsFiniteIterable P.into_iter_gives P.IntoIter.can_next
            P.IntoIter.remaining probabilities }
        ensures { IsDecidedByBoth (AreAccepted Symbol.eq Probability.BITS PRECISION)
            (completed PRECISION infer_last_probability) S.into_iter_gives S.IntoIter.next_gives
            symbols P.into_iter_gives P.IntoIter.next_gives probabilities Probability.whole
            (λ m ss ws. lookup_model_rows m ≡ rows_of ss ws) result }
    {
        let model = NonContiguousCategoricalDecoderModel::<
            Symbol,
            Probability,
            Vec<(Probability, Symbol)>,
            PRECISION,
        >::from_symbols_and_nonzero_fixed_point_probabilities(
            alloc,
            symbols,
            probabilities,
            infer_last_probability,
        )?;
        lookup_over(alloc, model)
    }

    /// The same for a caller who knows that no two of the symbols are equal. None are compared.
    #[tactic(auto, using(crate::proofs::Remade::error_of_both))]
    pub fn from_distinct_symbols_and_nonzero_fixed_point_probabilities<
        S: IntoIterator<Item = Symbol>,
        P: IntoIterator<Item = Probability>,
    >(
        alloc: Global,
        symbols: S,
        probabilities: P,
        infer_last_probability: bool,
    ) -> Result<Self, ModelError>
        requires precision { IsLookupPrecision Probability.BITS PRECISION }
        requires symbols_end { IsFiniteIterable S.into_iter_gives S.IntoIter.can_next
            S.IntoIter.remaining symbols }
        requires probabilities_end { IsFiniteIterable P.into_iter_gives P.IntoIter.can_next
            P.IntoIter.remaining probabilities }
        requires distinct { GivesDistinct S.into_iter_gives S.IntoIter.next_gives Symbol.eq
            symbols }
        ensures { IsDecidedByBoth (AreAccepted Symbol.eq Probability.BITS PRECISION)
            (completed PRECISION infer_last_probability) S.into_iter_gives S.IntoIter.next_gives
            symbols P.into_iter_gives P.IntoIter.next_gives probabilities Probability.whole
            (λ m ss ws. lookup_model_rows m ≡ rows_of ss ws) result }
    {
        let model = NonContiguousCategoricalDecoderModel::<
            Symbol,
            Probability,
            Vec<(Probability, Symbol)>,
            PRECISION,
        >::from_distinct_symbols_and_nonzero_fixed_point_probabilities(
            alloc,
            symbols,
            probabilities,
            infer_last_probability,
        )?;
        lookup_over(alloc, model)
    }
}

impl<
    Symbol: Eq + Clone + Drop,
    Probability: IndexWord,
    const PRECISION: usize,
    const SLOT_BITS: usize,
> OwnLookupDecoderModel<Symbol, Probability, PRECISION, SLOT_BITS> {
    /// A copy of the model, with clones of the symbols. Its rows and its lookup table come from the
    /// allocators of this model's. A clone has to be equal to its symbol, so that no two clones are
    /// equal.
    ///
    /// Two allocations, and a clone of each symbol. The call fails if memory for one of these is
    /// refused.
    pub fn clone(&self) -> Result<Self, AllocError>
        requires { ClonesAreEqual Symbol.eq Symbol.is_clone }
        ensures { IfOk result (λ m.
            StandForRows Symbol.is_clone (lookup_model_rows m) (lookup_model_rows self.now)) }
    {
        let lookup_table = copy_of(*self.lookup_table.allocator(), self.lookup_table.as_slice())?;
        let model = self.model.clone()?;
        Ok(Self {
            model,
            lookup_table,
        })
    }
}

impl<
    Symbol: Eq + Clone + Drop,
    Probability: IndexWord,
    Cdf: SafeBuf<(Probability, Symbol)>,
    const PRECISION: usize,
> NonContiguousCategoricalDecoderModel<Symbol, Probability, Cdf, PRECISION> {
    /// The lookup model of the same rows, with clones of the symbols. Two allocations, a clone of
    /// each symbol, and two passes over the rows.
    pub fn to_lookup_decoder_model(
        &self,
        alloc: Global,
    ) -> Result<LookupMadeOf<Self, PRECISION, 8>, ModelError>
        requires narrow { PRECISION ≤ 63 }
        requires clones { ClonesAreEqual Symbol.eq Symbol.is_clone }
        ensures { IsMadeIfMemorySuffices (λ m. StandForRows Symbol.is_clone (lookup_model_rows m)
            (decoder_model_rows self.now)) result }
    {
        self.to_slotted_lookup_decoder_model::<8>(alloc)
    }

    /// The same with `2^min(PRECISION, SLOT_BITS)` slots.
    #[tactic(auto, using(crate::proofs::Remade::rows_stand))]
    pub fn to_slotted_lookup_decoder_model<const SLOT_BITS: usize>(
        &self,
        alloc: Global,
    ) -> Result<LookupMadeOf<Self, PRECISION, SLOT_BITS>, ModelError>
        requires narrow { PRECISION ≤ 63 }
        requires clones { ClonesAreEqual Symbol.eq Symbol.is_clone }
        ensures { IsMadeIfMemorySuffices (λ m. StandForRows Symbol.is_clone (lookup_model_rows m)
            (decoder_model_rows self.now)) result }
    {
        match self.clone_in(alloc) {
            Ok(copy) => lookup_over(alloc, copy),
            Err(_) => Err(ModelError::OutOfMemory),
        }
    }
}

impl<
    Symbol: Eq + Drop,
    Probability: IndexWord,
    const PRECISION: usize,
> NonContiguousCategoricalDecoderModel<Symbol, Probability, Vec<(Probability, Symbol)>, PRECISION> {
    /// The lookup model of the same rows, with the entries of this model. One allocation and two
    /// passes over the rows. If memory for the lookup table is refused, this model is dropped.
    pub fn into_lookup_decoder_model(
        self,
        alloc: Global,
    ) -> Result<LookupMadeOf<Self, PRECISION, 8>, ModelError>
        requires { PRECISION ≤ 63 }
        ensures { IsMadeIfMemorySuffices (λ m. lookup_model_rows m ≡ decoder_model_rows self)
            result }
    {
        lookup_over(alloc, self)
    }
}

impl<
    Symbol: Eq,
    Probability: IndexWord,
    Cdf: SafeBuf<(Probability, Symbol)>,
    LookupTable: SafeBuf<Probability>,
    const PRECISION: usize,
    const SLOT_BITS: usize,
> SlottedNonContiguousLookupDecoderModel<
    Symbol,
    Probability,
    Cdf,
    LookupTable,
    PRECISION,
    SLOT_BITS,
> {
    /// A view of the model, which borrows its entries and its lookup table.
    #[inline]
    pub fn as_view<'m>(
        &'m self,
    ) -> SlottedNonContiguousLookupDecoderModel<
        Symbol,
        Probability,
        &'m [(Probability, Symbol)],
        &'m [Probability],
        PRECISION,
        SLOT_BITS,
    >
        ensures { lookup_model_rows result ≡ lookup_model_rows self.now }
    {
        LookupDecoderModel {
            model: self.model.as_view(),
            lookup_table: self.lookup_table.words(),
        }
    }

    /// The searching model of the same rows, which borrows the entries.
    #[inline]
    pub fn as_non_contiguous_categorical<'m>(
        &'m self,
    ) -> NonContiguousCategoricalDecoderModel<
        Symbol,
        Probability,
        &'m [(Probability, Symbol)],
        PRECISION,
    >
        ensures { decoder_model_rows result ≡ lookup_model_rows self.now }
    {
        self.model.as_view()
    }
}

impl<
    'm,
    Symbol: Eq + Clone + 'm,
    Probability: IndexWord + 'm,
    Cdf: SafeBuf<(Probability, Symbol)> + 'm,
    LookupTable: SafeBuf<Probability> + 'm,
    const PRECISION: usize,
    const SLOT_BITS: usize,
> IterableEntropyModel<PRECISION>
    for &'m SlottedNonContiguousLookupDecoderModel<
        Symbol,
        Probability,
        Cdf,
        LookupTable,
        PRECISION,
        SLOT_BITS,
    > {
    type SymbolTable = NonContiguousSymbolTable<'m, Symbol, Probability, PRECISION>;

    ghost stands_for = { Symbol.is_clone };

    ghost may_refuse = { λ s. ¬ (Symbol.is_infallible s) };

    ghost rows_left = { λ t.
        rows_between t.from t.to (rows_paired Probability.whole PRECISION t.entries.now) };

    /// All rows in order, each once: a clone of the symbol, the left cumulative and the weight. If
    /// memory for a clone is refused, the row's item is the refusal.
    #[inline]
    fn symbol_table(self) -> NonContiguousSymbolTable<'m, Symbol, Probability, PRECISION> {
        (&self.model).symbol_table()
    }

    ghost steps_law = { λ t r u step. step };

    ghost tile_law = { λ m. paired-tiles Probability.whole _ _ _ m.now.model.stored };
}
