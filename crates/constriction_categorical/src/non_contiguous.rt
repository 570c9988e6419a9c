//! Models of any symbols, which find the row of a quantile by a search.

ghost use Rattle.std.specs.Prelude.{◌≡◌, ◌^◌, ◌<◌, length, map, IfOk, ⊤};
ghost use Rattle.std.specs.Iterator.{IsFiniteIterable};
ghost use Rattle.std.specs.List.{IsDistinct};
ghost use Rattle.std.proofs.Props.{props};
ghost use Rattle.constriction_model.specs.Acceptance.{AreAccepted, WasReadOf};
ghost use Rattle.constriction_model.specs.Model.{StandForRows, ClonesAreEqual};
ghost use Rattle.constriction_model.specs.Precision.{IsPrecision};
ghost use Rattle.constriction_model.specs.Probe.{IsProbeFor};
ghost use Rattle.constriction_stored_rows.specs.Stored.{IsStored, AreEndWords, rows_paired};
ghost use Rattle.constriction_stored_rows.specs.lemmas.SymbolRows.{paired-tiles};
ghost use Rattle.constriction_model.specs.Tables.{rows_between};
ghost use Rattle.constriction_categorical.specs.private.Entries.{MakesEntries};

use crate::iterable::IterableEntropyModel;
use crate::non_contiguous_table::NonContiguousSymbolTable;
use constriction_buffers::SafeBuf;
use constriction_model::{DecoderModel, EntropyModel, ModelError, Probe, Weight, row_in_probe};
use constriction_numbers::WholeNumber;
use constriction_stored_rows::{
    CdfProbe, CumulativeAndSymbol, cloned_row_by_words, end_words_of, entries_announced,
    entries_cloned, rows_read,
};
use std::alloc::{AllocError, Global};
use std::marker::PhantomData;

/// A model of any distinct symbols, for decoders: it finds the row of a quantile.
///
/// It stores one entry a symbol, the left cumulative and the symbol, in a buffer of the caller's
/// choice. Two words beside the buffer serve to compute where a row ends.
#[derive(Debug, Drop)]
pub struct NonContiguousCategoricalDecoderModel<
    Symbol: Eq,
    Probability: WholeNumber,
    Cdf: SafeBuf<(Probability, Symbol)>,
    const PRECISION: usize,
> {
    pub(crate) cdf: Cdf,
    pub(crate) end_words: [Probability; 2],
    pub(crate) marker: PhantomData<(Probability, Symbol)>,
    ghost precise: { IsPrecision Probability.BITS PRECISION },
    ghost stored: { IsStored Probability.BITS PRECISION
        (map (λ x. Probability.whole x.0) (Cdf.words_of cdf)) },
    ghost aided: { AreEndWords Probability.BITS PRECISION
        (map (λ x. Probability.whole x.0) (Cdf.words_of cdf)) (map Probability.whole end_words) },
    ghost distinct: { IsDistinct Symbol.eq
        (map (λ x. x.1) (Cdf.words_of cdf)) } by { Prim.hlevel props },
}

/// Over 24 bits of `u32`, for most uses.
pub type DefaultNonContiguousCategoricalDecoderModel<Symbol, Cdf = Vec<(u32, Symbol)>> =
    NonContiguousCategoricalDecoderModel<Symbol, u32, Cdf, 24>;

/// Over 12 bits of `u16`, for few symbols.
pub type SmallNonContiguousCategoricalDecoderModel<Symbol, Cdf = Vec<(u16, Symbol)>> =
    NonContiguousCategoricalDecoderModel<Symbol, u16, Cdf, 12>;

impl<
    Symbol: Eq,
    Probability: WholeNumber,
    Cdf: SafeBuf<(Probability, Symbol)>,
    const PRECISION: usize,
> EntropyModel<PRECISION>
    for NonContiguousCategoricalDecoderModel<Symbol, Probability, Cdf, PRECISION> {
    type Symbol = Symbol;

    type Probability = Probability;

    ghost use Rattle.constriction_categorical.specs.ModelRows.{decoder_model_rows};

    ghost rows = { decoder_model_rows };

    ghost precision_law = { λ m. m.precise };
}

/// The entries of these symbols and weights, if no symbol is equal to one before it.
#[inline]
fn entries_compared<
    Probability: WholeNumber,
    Symbol: Eq + Drop,
    S: IntoIterator<Item = Symbol>,
    P: IntoIterator<Item = Probability>,
    const PRECISION: usize,
>(
    alloc: Global,
    symbols: S,
    probabilities: P,
    infer_last_probability: bool,
) -> Result<Vec<(Probability, Symbol)>, ModelError>
    requires precision { IsPrecision Probability.BITS PRECISION }
    requires symbols_end { IsFiniteIterable S.into_iter_gives S.IntoIter.can_next
        S.IntoIter.remaining symbols }
    requires probabilities_end { IsFiniteIterable P.into_iter_gives P.IntoIter.can_next
        P.IntoIter.remaining probabilities }
    ensures { MakesEntries Symbol.eq (AreAccepted Symbol.eq Probability.BITS PRECISION)
        Probability.whole Probability.BITS PRECISION infer_last_probability
        (WasReadOf S.into_iter_gives S.IntoIter.next_gives symbols)
        (WasReadOf P.into_iter_gives P.IntoIter.next_gives probabilities) result }
{
    let symbols = symbols.into_iter();
    let probabilities = probabilities.into_iter();
    let room = Vec::with_capacity(alloc, entries_announced::<PRECISION>(symbols.size_hint().0))?;
    rows_read::<Probability, Symbol, Vec<(Probability, Symbol)>, _, _, PRECISION>(
        room,
        symbols,
        probabilities,
        infer_last_probability,
    )
}

/// The model over these entries: a model's left cumulatives, each with a symbol, and all symbols
/// distinct. It takes no memory. Crates above call it when they have collected entries.
pub fn decoder_over<Symbol: Eq, Probability: WholeNumber, const PRECISION: usize>(
    entries: Vec<(Probability, Symbol)>,
) -> NonContiguousCategoricalDecoderModel<
    Symbol,
    Probability,
    Vec<(Probability, Symbol)>,
    PRECISION,
>
    requires precision { IsPrecision Probability.BITS PRECISION }
    requires stored { IsStored Probability.BITS PRECISION
        (map (λ x. Probability.whole x.0) entries.items) }
    requires distinct { IsDistinct Symbol.eq (map (λ x. x.1) entries.items) }
    ensures { ⟦<NonContiguousCategoricalDecoderModel<Symbol, Probability, Vec<(Probability, Symbol)>, PRECISION> as EntropyModel<PRECISION>>⟧.rows result
        ≡ rows_paired Probability.whole PRECISION entries.items }
{
    let end_words = end_words_of::<Probability, Symbol, PRECISION>(&entries);
    NonContiguousCategoricalDecoderModel {
        cdf: entries,
        end_words,
        marker: PhantomData,
    }
}

impl<
    Symbol: Eq,
    Probability: WholeNumber,
    const PRECISION: usize,
> NonContiguousCategoricalDecoderModel<Symbol, Probability, Vec<(Probability, Symbol)>, PRECISION> {
    ghost use Rattle.constriction_categorical.specs.ModelRows.{MakesDecoder, decoder_model_rows};

    /// The model of these symbols and weights, of which the last may be inferred, as in a
    /// contiguous model.
    ///
    /// They are accepted if and only if a contiguous model accepts the weights, there is exactly
    /// one symbol for each, and no two symbols are equal. If they are not, `InvalidTable` comes
    /// after both iterators were read to their ends, or as soon as no lists with this beginning are
    /// accepted. `OutOfMemory` comes if memory for the entries is refused.
    ///
    /// One pass over both, one entry a symbol, and one allocation if the symbols' iterator
    /// announces their number. No symbol is cloned. Each is compared with all before it: `n * (n -
    /// 1) / 2` comparisons for `n` symbols. If that is too much, take
    /// [`Self::from_hashable_symbols_and_nonzero_fixed_point_probabilities`],
    /// [`Self::from_sorted_symbols_and_nonzero_fixed_point_probabilities`], or, if symbols are
    /// known to differ, [`Self::from_distinct_symbols_and_nonzero_fixed_point_probabilities`].
    pub fn from_symbols_and_nonzero_fixed_point_probabilities<
        S: IntoIterator<Item = Symbol>,
        P: IntoIterator<Item = Probability>,
    >(
        alloc: Global,
        symbols: S,
        probabilities: P,
        infer_last_probability: bool,
    ) -> Result<Self, ModelError>
    where
        Symbol: Drop,
        requires precision { IsPrecision Probability.BITS PRECISION }
        requires symbols_end { IsFiniteIterable S.into_iter_gives S.IntoIter.can_next
            S.IntoIter.remaining symbols }
        requires probabilities_end { IsFiniteIterable P.into_iter_gives P.IntoIter.can_next
            P.IntoIter.remaining probabilities }
        ensures { MakesDecoder (AreAccepted Symbol.eq Probability.BITS PRECISION)
            infer_last_probability S.into_iter_gives S.IntoIter.next_gives symbols P.into_iter_gives
            P.IntoIter.next_gives probabilities result }
    {
        let entries = entries_compared::<Probability, Symbol, S, P, PRECISION>(
            alloc,
            symbols,
            probabilities,
            infer_last_probability,
        )?;
        Ok(decoder_over(entries))
    }

    /// A copy of the model, with clones of the symbols. Its entries come from the allocator of this
    /// model's.
    ///
    /// One allocation, and a clone of each symbol. The call fails if memory for one of these is
    /// refused.
    pub fn clone(&self) -> Result<Self, AllocError>
    where
        Symbol: Clone,
        requires { ClonesAreEqual Symbol.eq Symbol.is_clone }
        ensures { IfOk result (λ m.
            StandForRows Symbol.is_clone (decoder_model_rows m) (decoder_model_rows self.now)) }
    {
        self.clone_in(*self.cdf.allocator())
    }
}

impl<
    Symbol: Eq,
    Probability: WholeNumber,
    Cdf: SafeBuf<(Probability, Symbol)>,
    const PRECISION: usize,
> NonContiguousCategoricalDecoderModel<Symbol, Probability, Cdf, PRECISION> {
    ghost use Rattle.constriction_categorical.specs.ModelRows.{decoder_model_rows};

    /// How many symbols the model has.
    #[inline]
    pub fn support_size(&self) -> usize
        ensures { result ≡ length (decoder_model_rows self.now) }
    {
        self.cdf.words().len()
    }

    /// The entries: the left cumulative and the symbol of each row.
    #[inline]
    pub(crate) fn cdf_entries<'m>(&'m self) -> &'m [(Probability, Symbol)]
        ensures { result.now ≡ Cdf.words_of self.now.cdf }
    {
        self.cdf.words()
    }

    /// A view of the model, which borrows its entries.
    #[inline]
    pub fn as_view<'m>(
        &'m self,
    ) -> NonContiguousCategoricalDecoderModel<
        Symbol,
        Probability,
        &'m [(Probability, Symbol)],
        PRECISION,
    >
        ensures { decoder_model_rows result ≡ decoder_model_rows self.now }
    {
        NonContiguousCategoricalDecoderModel {
            cdf: self.cdf.words(),
            end_words: self.end_words,
            marker: PhantomData,
        }
    }

    /// As [`quantile_probe`](crate::ContiguousCategoricalEntropyModel::quantile_probe) of a
    /// contiguous model.
    #[inline]
    pub fn quantile_probe<'m>(
        &'m self,
        quantile: Probability,
    ) -> (
        usize,
        CdfProbe<'m, (Probability, Symbol), CumulativeAndSymbol>,
    )
        requires { Probability.whole quantile < 2 ^ PRECISION }
        ensures { IsProbeFor ⟦<CdfProbe<'m, (Probability, Symbol), CumulativeAndSymbol> as Probe>⟧
            (decoder_model_rows self.now) (λ _. ⊤) (Probability.whole quantile) result.0 result.1 }
    {
        (0, CdfProbe::new(self.cdf_entries()))
    }
}

impl<
    Symbol: Eq + Clone,
    Probability: WholeNumber,
    Cdf: SafeBuf<(Probability, Symbol)>,
    const PRECISION: usize,
> NonContiguousCategoricalDecoderModel<Symbol, Probability, Cdf, PRECISION> {
    ghost use Rattle.constriction_categorical.specs.ModelRows.{decoder_model_rows};

    /// Clones of the entries. A clone of a symbol has to be equal to it.
    #[inline]
    fn cloned_entries(&self, alloc: Global) -> Result<Vec<(Probability, Symbol)>, AllocError>
        requires { ClonesAreEqual Symbol.eq Symbol.is_clone }
        ensures stored { IfOk result (λ v.
            IsStored Probability.BITS PRECISION (map (λ x. Probability.whole x.0) v.items)) }
        ensures distinct { IfOk result (λ v. IsDistinct Symbol.eq (map (λ x. x.1) v.items)) }
        ensures rows { IfOk result (λ v. StandForRows Symbol.is_clone
            (rows_paired Probability.whole PRECISION v.items) (decoder_model_rows self.now)) }
    {
        entries_cloned(alloc, self.cdf_entries())
    }

    /// The same model over clones of the entries. A clone of a symbol has to be equal to it.
    #[tactic(auto, using(crate::proofs::Remade::rows_stand))]
    pub(crate) fn clone_in(
        &self,
        alloc: Global,
    ) -> Result<
        NonContiguousCategoricalDecoderModel<
            Symbol,
            Probability,
            Vec<(Probability, Symbol)>,
            PRECISION,
        >,
        AllocError,
    >
        requires { ClonesAreEqual Symbol.eq Symbol.is_clone }
        ensures { IfOk result (λ m.
            StandForRows Symbol.is_clone (decoder_model_rows m) (decoder_model_rows self.now)) }
    {
        let entries = self.cloned_entries(alloc)?;
        Ok(decoder_over(entries))
    }
}

impl<
    Symbol: Eq + Clone,
    Probability: WholeNumber,
    Cdf: SafeBuf<(Probability, Symbol)>,
    const PRECISION: usize,
> DecoderModel<PRECISION>
    for NonContiguousCategoricalDecoderModel<Symbol, Probability, Cdf, PRECISION> {
    ghost stands_for = { Symbol.is_clone };

    ghost may_refuse = { λ s. ¬ (Symbol.is_infallible s) };

    /// The row of a quantile, by a search, with a clone of its symbol.
    #[inline(always)]
    fn quantile_function(
        &self,
        quantile: Probability,
    ) -> Result<(Symbol, Probability, Weight<Probability>), AllocError> {
        let entries = self.cdf_entries();
        let (_, rows) = self.quantile_probe(quantile);
        let index = row_in_probe::<_, 2>(rows, quantile);
        cloned_row_by_words::<Probability, Symbol, PRECISION>(entries, &self.end_words, index)
    }

    ghost tile_law = { λ m. paired-tiles Probability.whole _ _ _ m.stored };
}

impl<
    'm,
    Symbol: Eq + Clone + 'm,
    Probability: WholeNumber + 'm,
    Cdf: SafeBuf<(Probability, Symbol)> + 'm,
    const PRECISION: usize,
> IterableEntropyModel<PRECISION>
    for &'m NonContiguousCategoricalDecoderModel<Symbol, Probability, Cdf, PRECISION> {
    type SymbolTable = NonContiguousSymbolTable<'m, Symbol, Probability, PRECISION>;

    ghost stands_for = { Symbol.is_clone };

    ghost may_refuse = { λ s. ¬ (Symbol.is_infallible s) };

    ghost rows_left = { λ t.
        rows_between t.from t.to (rows_paired Probability.whole PRECISION t.entries.now) };

    /// All rows in order, each once: a clone of the symbol, the left cumulative and the weight. If
    /// memory for a clone is refused, the row's item is the refusal.
    #[inline]
    fn symbol_table(self) -> NonContiguousSymbolTable<'m, Symbol, Probability, PRECISION> {
        let entries = self.cdf.words();
        NonContiguousSymbolTable {
            entries,
            from: 0,
            to: entries.len(),
        }
    }

    ghost steps_law = { λ t r u step. step };

    ghost tile_law = { λ m. paired-tiles Probability.whole _ _ _ m.now.stored };
}
