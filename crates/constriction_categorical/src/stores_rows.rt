//! Models that store their rows, and so can have a lookup table.

ghost use Rattle.std.specs.Prelude.{◌≡◌, ◌<◌, length, map, slice_get, Some, IfOk};
ghost use Rattle.constriction_model.specs.Model.{row_of, LiesWithin};
ghost use Rattle.constriction_model.specs.Rows.{Row, RowsTile};
ghost use Rattle.constriction_model.specs.Tables.{StandsFor};
ghost use Rattle.constriction_stored_rows.specs.lemmas.StoredRows.{stored-tiles};
ghost use Rattle.constriction_stored_rows.specs.SlotTable.{MayFollow};
ghost use Rattle.constriction_stored_rows.specs.lemmas.SymbolRows.{paired-tiles};

use crate::contiguous::ContiguousCategoricalEntropyModel;
use crate::non_contiguous::NonContiguousCategoricalDecoderModel;
use constriction_buffers::SafeBuf;
use constriction_model::{DecoderModel, EntropyModel, Weight};
use constriction_numbers::WholeNumber;
use constriction_stored_rows::{
    CdfEntry, Cumulative, CumulativeAndSymbol, cloned_row_by_words, cloned_row_in_cdf,
    contiguous_row_at,
};
use std::alloc::AllocError;

/// A model that stores one entry a row, in order, and lends the entries. A caller's own model may
/// be one.
pub trait StoresRows<const PRECISION: usize>: EntropyModel<PRECISION> {
    /// The type of a stored entry.
    type Entry;

    /// How the left cumulative of an entry is read.
    type Kind: CdfEntry<Self::Entry, Word = Self::Probability>;

    /// The entries, one a row.
    fn entries(&self) -> &[Self::Entry]
        ensures { map Self.Kind.cumulative result.now ≡ map (λ r. r.left) (Self.rows self.now) };

    /// Whether a lookup table beside the model has the left cumulatives and the total after its
    /// slots, which [`AnswersRows::row_with_ends`] then reads. A model that has the end of each row
    /// itself wants none.
    #[inline]
    fn wants_ends(&self) -> bool {
        false
    }

    // The rows tile the quantiles.
    ghost stored_law: { (m : Self) → RowsTile Self.Probability.BITS PRECISION (Self.rows m) };
}

/// A model that stores its rows, and answers the row at an index.
pub trait AnswersRows<const PRECISION: usize>: StoresRows<PRECISION> + DecoderModel<PRECISION> {
    /// The row at an index, as [`DecoderModel::quantile_function`] answers one.
    fn row_at(
        &self,
        index: usize,
    ) -> Result<(Self::Symbol, Self::Probability, Weight<Self::Probability>), AllocError>
        requires { index < length (Self.rows self.now) }
        ensures row { (r : Row Self.Symbol) × (slice_get (Self.rows self.now) index ≡ Some r)
            × StandsFor Self.stands_for Self.may_refuse Self.Probability.whole Self.Probability.base
            result r }
        ensures within { IfOk result (λ x. LiesWithin PRECISION
            (row_of Self.Probability.whole Self.Probability.base x)) };

    /// The same with the words after the slots of a lookup table at hand: none, or the left
    /// cumulatives and the total.
    #[inline]
    fn row_with_ends(
        &self,
        cdf: &[Self::Probability],
        index: usize,
    ) -> Result<(Self::Symbol, Self::Probability, Weight<Self::Probability>), AllocError>
        requires in_bounds { index < length (Self.rows self.now) }
        requires cdf { MayFollow Self.Probability.BITS PRECISION
            (map (λ r. r.left) (Self.rows self.now)) (map Self.Probability.whole cdf.now) }
        ensures row { (r : Row Self.Symbol) × (slice_get (Self.rows self.now) index ≡ Some r)
            × StandsFor Self.stands_for Self.may_refuse Self.Probability.whole Self.Probability.base
            result r }
        ensures within { IfOk result (λ x. LiesWithin PRECISION
            (row_of Self.Probability.whole Self.Probability.base x)) }
    {
        self.row_at(index)
    }
}

impl<Probability: WholeNumber, Cdf: SafeBuf<Probability>, const PRECISION: usize> StoresRows<
    PRECISION,
> for ContiguousCategoricalEntropyModel<Probability, Cdf, PRECISION> {
    type Entry = Probability;

    type Kind = Cumulative;

    #[inline]
    fn entries(&self) -> &[Probability] {
        self.cdf_entries()
    }

    ghost stored_law = { λ m. stored-tiles _ _ _ m.stored.stored };
}

impl<Probability: WholeNumber, Cdf: SafeBuf<Probability>, const PRECISION: usize> AnswersRows<
    PRECISION,
> for ContiguousCategoricalEntropyModel<Probability, Cdf, PRECISION> {
    #[inline]
    fn row_at(
        &self,
        index: usize,
    ) -> Result<(usize, Probability, Weight<Probability>), AllocError> {
        Ok(contiguous_row_at::<Probability, PRECISION>(self.cdf.words(), index))
    }
}

impl<
    Symbol: Eq,
    Probability: WholeNumber,
    Cdf: SafeBuf<(Probability, Symbol)>,
    const PRECISION: usize,
> StoresRows<PRECISION>
    for NonContiguousCategoricalDecoderModel<Symbol, Probability, Cdf, PRECISION> {
    type Entry = (Probability, Symbol);

    type Kind = CumulativeAndSymbol;

    #[inline]
    fn entries(&self) -> &[(Probability, Symbol)] {
        self.cdf_entries()
    }

    #[inline]
    fn wants_ends(&self) -> bool {
        true
    }

    ghost stored_law = { λ m. paired-tiles Probability.whole _ _ _ m.stored };
}

impl<
    Symbol: Eq + Clone,
    Probability: WholeNumber,
    Cdf: SafeBuf<(Probability, Symbol)>,
    const PRECISION: usize,
> AnswersRows<PRECISION>
    for NonContiguousCategoricalDecoderModel<Symbol, Probability, Cdf, PRECISION> {
    #[inline]
    fn row_at(
        &self,
        index: usize,
    ) -> Result<(Symbol, Probability, Weight<Probability>), AllocError> {
        cloned_row_by_words::<Probability, Symbol, PRECISION>(
            self.cdf_entries(),
            &self.end_words,
            index,
        )
    }

    #[inline]
    fn row_with_ends(
        &self,
        cdf: &[Probability],
        index: usize,
    ) -> Result<(Symbol, Probability, Weight<Probability>), AllocError> {
        cloned_row_in_cdf::<Probability, Symbol, PRECISION>(self.cdf_entries(), cdf, index)
    }
}

/// The searching models of the symbols 0, 1, .. Only the bound of `into_contiguous_categorical`
/// uses this trait, and callers do not name it.
pub trait OfNumbers<const PRECISION: usize>: EntropyModel<PRECISION> {}

impl<Probability: WholeNumber, Cdf: SafeBuf<Probability>, const PRECISION: usize> OfNumbers<
    PRECISION,
> for ContiguousCategoricalEntropyModel<Probability, Cdf, PRECISION> {}

/// The searching models of any symbols. Only the bound of `into_non_contiguous_categorical` uses
/// this trait.
pub trait OfAnySymbols<const PRECISION: usize>: EntropyModel<PRECISION> {}

impl<
    Symbol: Eq,
    Probability: WholeNumber,
    Cdf: SafeBuf<(Probability, Symbol)>,
    const PRECISION: usize,
> OfAnySymbols<PRECISION>
    for NonContiguousCategoricalDecoderModel<Symbol, Probability, Cdf, PRECISION> {}
