//! A decoder over any symbols in one of two forms.

use constriction_categorical::{
    IterableEntropyModel, NonContiguousCategoricalDecoderModel, NonContiguousLookupDecoderModel,
    NonContiguousSymbolTable,
};
use constriction_model::{DecoderModel, EntropyModel, Weight};
use constriction_words::IndexWord;
use std::alloc::AllocError;

/// The form that searches all rows.
pub(crate) type Searching<Symbol, Probability, const PRECISION: usize> =
    NonContiguousCategoricalDecoderModel<
        Symbol,
        Probability,
        Vec<(Probability, Symbol)>,
        PRECISION,
    >;

/// The form that looks up which rows to search.
pub(crate) type Tabled<Symbol, Probability, const PRECISION: usize> =
    NonContiguousLookupDecoderModel<
        Symbol,
        Probability,
        Vec<(Probability, Symbol)>,
        Vec<Probability>,
        PRECISION,
    >;

/// A model in one of two forms.
#[derive(Debug, Drop)]
pub enum SearchOrLookup<Searching, Tabled> {
    /// It searches all rows.
    Search(Searching),
    /// It searches the rows of one slot.
    Lookup(Tabled),
}

/// A decoder's model over any symbols, in one of two forms.
pub type DecoderForm<Symbol, Probability, const PRECISION: usize> = SearchOrLookup<
    Searching<Symbol, Probability, PRECISION>,
    Tabled<Symbol, Probability, PRECISION>,
>;

impl<Symbol: Eq, Probability: IndexWord, const PRECISION: usize> EntropyModel<PRECISION>
    for DecoderForm<Symbol, Probability, PRECISION> {
    ghost use Rattle.constriction_categorical.specs.lemmas.ModelRows.{decoder-precise, lookup-precise};
    ghost use Rattle.constriction_client.specs.FormRows.{form_rows};
    ghost use Rattle.constriction_client.specs.declared.decoder_form.SearchOrLookup.TheVariants as form;

    type Symbol = Symbol;

    type Probability = Probability;

    ghost rows = { form_rows };

    ghost precision_law = { elim [
      | form.Search s ↦ decoder-precise s
      | form.Lookup s ↦ lookup-precise decoder-precise s
    ] };
}

impl<Symbol: Eq + Clone, Probability: IndexWord, const PRECISION: usize> DecoderModel<PRECISION>
    for DecoderForm<Symbol, Probability, PRECISION> {
    ghost use Rattle.constriction_model.specs.Rows.{RowsTile};
    ghost use Rattle.constriction_categorical.specs.lemmas.ModelRows.{decoder-tiles, lookup-tiles};
    ghost use Rattle.constriction_client.specs.FormRows.{form_rows};
    ghost use Rattle.constriction_client.specs.declared.decoder_form.SearchOrLookup.TheVariants as form;

    ghost stands_for = { Symbol.is_clone };

    ghost may_refuse = { λ s. ¬ (Symbol.is_infallible s) };

    fn quantile_function(
        &self,
        quantile: Probability,
    ) -> Result<(Symbol, Probability, Weight<Probability>), AllocError> {
        match self {
            DecoderForm::Search(model) => model.quantile_function(quantile),
            DecoderForm::Lookup(model) => model.quantile_function(quantile),
        }
    }

    ghost tile_law = { λ m. elim m as (λ f. RowsTile Probability.BITS PRECISION (form_rows f)) [
      | form.Search s ↦ decoder-tiles s
      | form.Lookup s ↦ lookup-tiles decoder-tiles s
    ] };
}

impl<
    'm,
    Symbol: Eq + Clone + 'm,
    Probability: IndexWord + 'm,
    const PRECISION: usize,
> IterableEntropyModel<PRECISION> for &'m DecoderForm<Symbol, Probability, PRECISION> {
    ghost use Rattle.constriction_model.specs.Rows.{RowsTile};
    ghost use Rattle.constriction_categorical.specs.lemmas.ModelRows.{decoder-tiles, lookup-tiles};
    ghost use Rattle.constriction_client.specs.FormRows.{form_rows};
    ghost use Rattle.constriction_client.specs.declared.decoder_form.SearchOrLookup.TheVariants as form;

    type SymbolTable = NonContiguousSymbolTable<'m, Symbol, Probability, PRECISION>;

    ghost stands_for = { Symbol.is_clone };

    ghost may_refuse = { λ s. ¬ (Symbol.is_infallible s) };

    ghost rows_left = { ⟦<&'m Searching<Symbol, Probability, PRECISION> as IterableEntropyModel<PRECISION>>⟧.rows_left };

    fn symbol_table(self) -> NonContiguousSymbolTable<'m, Symbol, Probability, PRECISION> {
        match self {
            DecoderForm::Search(model) => model.symbol_table(),
            DecoderForm::Lookup(model) => model.symbol_table(),
        }
    }

    ghost steps_law = { λ t r u step. step };

    ghost tile_law = { λ m. elim m.now as (λ f. RowsTile Probability.BITS PRECISION (form_rows f)) [
      | form.Search s ↦ decoder-tiles s
      | form.Lookup s ↦ lookup-tiles decoder-tiles s
    ] };
}
