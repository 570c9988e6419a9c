//! Models that look up where to search for the row of a quantile.

ghost use Rattle.std.specs.Prelude.{◌≡◌, ◌/◌, ◌^◌, ◌<◌, ◌≤◌, length, map, min, IsTrue, IfOk, IfErr};
ghost use Rattle.constriction_model.specs.Probe.{IsProbeFor, IsRowIndexOf};
ghost use Rattle.constriction_stored_rows.specs.Slots.{meets_slot, slot_width};
ghost use Rattle.constriction_stored_rows.specs.SlotTable.{BeginsWithSlots, HasSlots, MayFollow};

use crate::stores_rows::{AnswersRows, OfAnySymbols, OfNumbers, StoresRows};
use constriction_buffers::SafeBuf;
use constriction_model::{DecoderModel, EntropyModel, ModelError, Probe, Weight};
use constriction_stored_rows::{CdfProbe, row_in_slot, slot_probe, table_of_slots, words_of_table};
use std::alloc::{AllocError, Global};

/// A searching model and a lookup table, for decoders: the lookup table says where to search for
/// the row of a quantile.
///
/// The quantiles are divided into `2^min(PRECISION, SLOT_BITS)` slots of equal width. The lookup
/// table has two words a slot, the first and the last row that meet it, so a look-up searches only
/// the rows from one to the other. Up to three rows take at most two comparisons, and in a model of
/// few rows one row takes none.
///
/// If `SLOT_BITS` is at least `PRECISION`, a slot holds one quantile. It then has one word, the
/// quantile's row, and a look-up searches nothing.
///
/// In a model over any symbols the left cumulatives and the total follow the slots, so that a
/// look-up finds the words of a row side by side.
///
/// A caller's own model that [`StoresRows`] gets a lookup table by
/// [`with_table`](Self::with_table).
#[derive(Debug, Drop)]
pub struct LookupDecoderModel<Model, LookupTable, const PRECISION: usize, const SLOT_BITS: usize>
where
    Model: EntropyModel<PRECISION>,
    LookupTable: SafeBuf<Model::Probability>,
{
    pub(crate) model: Model,
    pub(crate) lookup_table: LookupTable,
    ghost narrow: { PRECISION ≤ 63 },
    ghost slots: { BeginsWithSlots Model.Probability.BITS PRECISION (slot_width PRECISION SLOT_BITS)
        (2 ^ min PRECISION SLOT_BITS) (map (λ r. r.left) (Model.rows model))
        (map Model.Probability.whole (LookupTable.words_of lookup_table)) },
}

impl<Model, LookupTable, const PRECISION: usize, const SLOT_BITS: usize> EntropyModel<PRECISION>
    for LookupDecoderModel<Model, LookupTable, PRECISION, SLOT_BITS>
where
    Model: EntropyModel<PRECISION>,
    LookupTable: SafeBuf<Model::Probability>,
{
    type Symbol = Model::Symbol;

    type Probability = Model::Probability;

    ghost use Rattle.constriction_categorical.specs.ModelRows.{lookup_model_rows};

    ghost rows = { lookup_model_rows };

    ghost precision_law = { λ m. Model.precision_law m.model };
}

impl<
    Model: StoresRows<PRECISION>,
    const PRECISION: usize,
    const SLOT_BITS: usize,
> LookupDecoderModel<Model, Vec<Model::Probability>, PRECISION, SLOT_BITS> {
    ghost use Rattle.constriction_categorical.specs.ModelRows.{lookup_model_rows};

    /// The model of the same rows, with a lookup table. It fails only if memory for the lookup
    /// table is refused.
    ///
    /// One pass over the rows and one allocation. Left cumulatives and the total in the lookup
    /// table take a second pass, and in the same allocation one word a row and one more.
    pub fn with_table(alloc: Global, model: Model) -> Result<Self, AllocError>
    where
        Model: Drop,
        requires narrow { PRECISION ≤ 63 }
        ensures { IfOk result (λ m. lookup_model_rows m ≡ Model.rows model) }
    {
        let lookup_table = table_of_slots::<Model::Entry, Model::Kind, PRECISION, SLOT_BITS>(
            alloc,
            model.entries(),
            model.wants_ends(),
        )?;
        Ok(Self {
            model,
            lookup_table,
        })
    }
}

/// The model that [`LookupDecoderModel::with_table`] makes, with `OutOfMemory` as the error, as
/// constructors have it. If memory for the lookup table is refused, the searching model is dropped.
/// Crates above call it when they have made one.
#[inline]
pub fn lookup_over<Model, const PRECISION: usize, const SLOT_BITS: usize>(
    alloc: Global,
    model: Model,
) -> Result<LookupDecoderModel<Model, Vec<Model::Probability>, PRECISION, SLOT_BITS>, ModelError>
where
    Model: StoresRows<PRECISION> + Drop,
    requires narrow { PRECISION ≤ 63 }
    ensures ok { IfOk result (λ m.
        ⟦<LookupDecoderModel<Model, Vec<Model::Probability>, PRECISION, SLOT_BITS> as EntropyModel<PRECISION>>⟧.rows m
        ≡ Model.rows model) }
    ensures refused { IfErr result (λ e. e ≡ ModelError.OutOfMemory) }
{
    Ok(LookupDecoderModel::with_table(alloc, model)?)
}

impl<Model, LookupTable, const PRECISION: usize, const SLOT_BITS: usize> LookupDecoderModel<
    Model,
    LookupTable,
    PRECISION,
    SLOT_BITS,
>
where
    Model: StoresRows<PRECISION>,
    LookupTable: SafeBuf<Model::Probability>,
{
    ghost use Rattle.constriction_categorical.specs.ModelRows.{lookup_model_rows};

    /// How many symbols the model has.
    #[inline]
    pub fn support_size(&self) -> usize
        ensures { result ≡ length (lookup_model_rows self.now) }
    {
        self.model.entries().len()
    }

    /// The words of the slots.
    #[inline(always)]
    fn slots<'m>(&'m self) -> &'m [Model::Probability]
        ensures { HasSlots (slot_width PRECISION SLOT_BITS) (2 ^ min PRECISION SLOT_BITS)
            (map (λ r. r.left) (Model.rows self.now.model))
            (map Model.Probability.whole result.now) }
    {
        &self.lookup_table.words()[..words_of_table::<PRECISION, SLOT_BITS>()]
    }

    /// The words after the slots.
    #[inline(always)]
    fn after_slots<'m>(&'m self) -> &'m [Model::Probability]
        ensures { MayFollow Model.Probability.BITS PRECISION
            (map (λ r. r.left) (Model.rows self.now.model))
            (map Model.Probability.whole result.now) }
    {
        &self.lookup_table.words()[words_of_table::<PRECISION, SLOT_BITS>()..]
    }

    /// As [`quantile_probe`](crate::ContiguousCategoricalEntropyModel::quantile_probe) of a
    /// contiguous model, but of the rows that meet the quantile's slot. If they are `m`, the search
    /// asks as many questions as `m - 1` has binary digits.
    #[inline]
    pub fn quantile_probe<'m>(
        &'m self,
        quantile: Model::Probability,
    ) -> (usize, CdfProbe<'m, Model::Entry, Model::Kind>)
        requires { Model.Probability.whole quantile < 2 ^ PRECISION }
        ensures { let width = slot_width PRECISION SLOT_BITS
            in let q = Model.Probability.whole quantile in IsProbeFor
            ⟦<CdfProbe<'m, Model::Entry, Model::Kind> as Probe>⟧ (lookup_model_rows self.now)
            (λ r. IsTrue (meets_slot width (q / width) r)) q result.0 result.1 }
    {
        slot_probe::<Model::Entry, Model::Kind, PRECISION, SLOT_BITS>(
            self.model.entries(),
            self.slots(),
            quantile,
        )
    }

    /// The index of a quantile's row.
    #[inline(always)]
    fn row_index(&self, quantile: Model::Probability) -> usize
        requires { Model.Probability.whole quantile < 2 ^ PRECISION }
        ensures { IsRowIndexOf (Model.rows self.now.model) (Model.Probability.whole quantile)
            result }
    {
        row_in_slot::<Model::Entry, Model::Kind, PRECISION, SLOT_BITS>(
            self.model.entries(),
            self.slots(),
            quantile,
        )
    }
}

impl<Model, LookupTable, const PRECISION: usize, const SLOT_BITS: usize> DecoderModel<PRECISION>
    for LookupDecoderModel<Model, LookupTable, PRECISION, SLOT_BITS>
where
    Model: AnswersRows<PRECISION>,
    LookupTable: SafeBuf<Model::Probability>,
{
    ghost stands_for = { Model.stands_for };

    ghost may_refuse = { Model.may_refuse };

    /// The row of a quantile, by the lookup table. If more than one row meets the quantile's slot,
    /// the quantile is compared with their left cumulatives. A model that owns its symbols answers
    /// a clone.
    #[inline(always)]
    fn quantile_function(
        &self,
        quantile: Model::Probability,
    ) -> Result<
        (
            Model::Symbol,
            Model::Probability,
            Weight<Model::Probability>,
        ),
        AllocError,
    > {
        let index = self.row_index(quantile);
        self.model.row_with_ends(self.after_slots(), index)
    }

    ghost tile_law = { λ m. Model.tile_law m.model };
}

impl<Model, LookupTable, const PRECISION: usize, const SLOT_BITS: usize> LookupDecoderModel<
    Model,
    LookupTable,
    PRECISION,
    SLOT_BITS,
>
where
    Model: EntropyModel<PRECISION>,
    LookupTable: SafeBuf<Model::Probability>,
{
    ghost use Rattle.constriction_categorical.specs.ModelRows.{lookup_model_rows};

    /// The searching model, which was given to [`with_table`](Self::with_table). The lookup table
    /// is dropped.
    #[inline]
    pub fn into_searching_model(self) -> Model
    where
        LookupTable: Drop,
        ensures { Model.rows result ≡ lookup_model_rows self }
    {
        let Self {
            model,
            lookup_table: _,
        } = self;
        model
    }
    /// [`into_searching_model`](Self::into_searching_model), by the Rust crate's name.
    #[inline]
    pub fn into_contiguous_categorical(self) -> Model
    where
        Model: OfNumbers<PRECISION>,
        LookupTable: Drop,
        ensures { Model.rows result ≡ lookup_model_rows self }
    {
        self.into_searching_model()
    }

    /// The same.
    #[inline]
    pub fn into_non_contiguous_categorical(self) -> Model
    where
        Model: OfAnySymbols<PRECISION>,
        LookupTable: Drop,
        ensures { Model.rows result ≡ lookup_model_rows self }
    {
        self.into_searching_model()
    }
}
