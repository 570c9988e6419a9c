//! A model of the caller's own with a lookup table, which records what it is asked.

ghost use Rattle.std.specs.Prelude.{◌≡◌, IfOk};
ghost use Rattle.constriction.specs.ModelRows.{lookup_model_rows};

use crate::watched_model::Decoder;
use constriction::stream::model::{
    AnswersRows, CdfEntry, CumulativeAndSymbol, DecoderModel, EntropyModel, LookupDecoderModel,
    StoresRows, Weight,
};
use constriction_test_support::watched::{Watched, count};
use std::alloc::{AllocError, Global};
use std::cell::Cell;

/// Entries that count how often they are read.
#[derive(Drop)]
pub struct Counted;

impl CdfEntry<(u16, Watched)> for Counted {
    type Word = u16;

    ghost cumulative = { λ x. x.0 };

    fn cumulative_of(entry: &(u16, Watched)) -> u16 {
        count(&entry.1.tally.read);
        entry.0
    }
}

/// What a model was asked: how often for the row of a quantile, and how many words after the slots
/// of its lookup table it was handed with a question for a row.
#[derive(Drop)]
pub struct Asked {
    pub searches: Cell<usize>,
    pub beside: Cell<usize>,
}

/// A model that records what it is asked. Its entries count how often they are read.
#[derive(Drop)]
pub struct Noting<'c, Model> {
    pub model: Model,
    pub asked: &'c Asked,
}

impl<'c, Model: EntropyModel<12>> EntropyModel<12> for Noting<'c, Model> {
    type Symbol = Model::Symbol;

    type Probability = Model::Probability;

    ghost rows = { λ m. Model.rows m.model };

    ghost precision_law = { λ m. Model.precision_law m.model };
}

impl<'c, Model: DecoderModel<12>> DecoderModel<12> for Noting<'c, Model> {
    ghost stands_for = { Model.stands_for };

    ghost may_refuse = { Model.may_refuse };

    fn quantile_function(
        &self,
        quantile: Model::Probability,
    ) -> Result<
        (
            Model::Symbol,
            Model::Probability,
            Weight<Model::Probability>,
        ),
        AllocError,
    > {
        count(&self.asked.searches);
        self.model.quantile_function(quantile)
    }

    ghost tile_law = { λ m. Model.tile_law m.model };
}

impl<'c, Model> StoresRows<12> for Noting<'c, Model>
where
    Model: StoresRows<12, Entry = (u16, Watched), Kind = CumulativeAndSymbol>
        + EntropyModel<12, Probability = u16>,
{
    type Entry = (u16, Watched);

    type Kind = Counted;

    fn entries(&self) -> &[(u16, Watched)] {
        self.model.entries()
    }

    fn wants_ends(&self) -> bool {
        true
    }

    ghost stored_law = { λ m. Model.stored_law m.model };
}

impl<'c, Model> AnswersRows<12> for Noting<'c, Model>
where
    Model: AnswersRows<12>
        + StoresRows<12, Entry = (u16, Watched), Kind = CumulativeAndSymbol>
        + EntropyModel<12, Probability = u16>,
{
    fn row_at(&self, index: usize) -> Result<(Model::Symbol, u16, Weight<u16>), AllocError> {
        self.model.row_at(index)
    }

    fn row_with_ends(
        &self,
        cdf: &[u16],
        index: usize,
    ) -> Result<(Model::Symbol, u16, Weight<u16>), AllocError> {
        self.asked.beside.set(cdf.len());
        self.model.row_with_ends(cdf, index)
    }
}

/// The caller's model with a lookup table.
pub type Tabled<'c, const SLOT_BITS: usize> = LookupDecoderModel<
    Noting<'c, Decoder>,
    Vec<u16>,
    12,
    SLOT_BITS,
>;

/// The model gets a lookup table, and keeps its rows.
pub fn tabled<'c, const SLOT_BITS: usize>(
    alloc: Global,
    noting: Noting<'c, Decoder>,
) -> Result<Tabled<'c, SLOT_BITS>, AllocError>
    ensures { IfOk result (λ m. lookup_model_rows m
        ≡ ⟦<Decoder as EntropyModel<12>>⟧.rows noting.entry.model) }
{
    LookupDecoderModel::with_table(alloc, noting)
}
