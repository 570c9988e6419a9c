//! Models of the symbols 0, 1, .., which find the row of a quantile by a search.

ghost use Rattle.std.specs.Prelude.{◌≡◌, ◌^◌, ◌<◌, ℕ, List, length, map, nat_eq, IfErr, IfOk, IsOkAnd, OnErr, OnOk, ⊤};
ghost use Rattle.std.specs.Iterator.{IsFiniteIterable};
ghost use Rattle.constriction_model.specs.Acceptance.{completed, IsAccepted, IsDecidedByWeights};
ghost use Rattle.std.specs.Cmp.{nat_eq_equiv};
ghost use Rattle.constriction_model.specs.Model.{row_of, AnswersQuantile, LiesWithin, RowMayBeRefused};
ghost use Rattle.constriction_model.specs.Precision.{IsPrecision};
ghost use Rattle.constriction_model.specs.Probe.{IsProbeFor};
ghost use Rattle.constriction_model.specs.Rows.{contiguous_rows};
ghost use Rattle.constriction_stored_rows.specs.Stored.{IsCdf, lefts_in};
ghost use Rattle.constriction_stored_rows.specs.lemmas.StoredRows.{stored-within, stored-tiles};
ghost use Rattle.constriction_stored_rows.specs.Stored.{rows_stored};
ghost use Rattle.constriction_categorical.specs.Cdf.{IsCdfOfWeights};

use crate::iterable::IterableEntropyModel;
use crate::symbol_table::ContiguousSymbolTable;
use constriction_buffers::SafeBuf;
use constriction_model::{DecoderModel, EncoderModel, EntropyModel, ModelError, Probe, Weight};
use constriction_numbers::WholeNumber;
use constriction_stored_rows::{
    CdfProbe, Cumulative, cdf_of, contiguous_entry_of, contiguous_row_of_quantile, copy_of, is_cdf,
    refill_cdf,
};
use std::alloc::{AllocError, Global};
use std::marker::PhantomData;

/// A model of the symbols 0, 1, .., given by their weights.
///
/// It stores one word a symbol, the left cumulative, and one more word, the total, in a buffer of
/// the caller's choice.
#[derive(Debug, Drop)]
pub struct ContiguousCategoricalEntropyModel<
    Probability: WholeNumber,
    Cdf: SafeBuf<Probability>,
    const PRECISION: usize,
> {
    pub(crate) cdf: Cdf,
    probability: PhantomData<Probability>,
    ghost precise: { IsPrecision Probability.BITS PRECISION },
    ghost stored: { IsCdf Probability.BITS PRECISION (map Probability.whole (Cdf.words_of cdf)) },
}

/// Over 24 bits of `u32`, for most uses.
pub type DefaultContiguousCategoricalEntropyModel<Cdf = Vec<u32>> =
    ContiguousCategoricalEntropyModel<u32, Cdf, 24>;

/// Over 12 bits of `u16`, for few symbols.
pub type SmallContiguousCategoricalEntropyModel<Cdf = Vec<u16>> = ContiguousCategoricalEntropyModel<
    u16,
    Cdf,
    12,
>;

impl<Probability: WholeNumber, const PRECISION: usize> ContiguousCategoricalEntropyModel<
    Probability,
    Vec<Probability>,
    PRECISION,
> {
    ghost use Rattle.constriction_categorical.specs.ModelRows.{contiguous_model_rows};

    /// The model of these weights. If the last weight is inferred, it is what the given weights
    /// leave of `2^PRECISION`, and there is one more symbol than given weights.
    ///
    /// The weights are accepted if and only if all, with the inferred one, are positive, add up to
    /// `2^PRECISION` and are words. So the single weight `2^PRECISION`, given or inferred, is
    /// accepted only below the full width of the word. If the weights are not accepted,
    /// `InvalidTable` comes after the iterator was read to its end, or as soon as no list with this
    /// beginning is accepted. `OutOfMemory` comes if memory for the cdf is refused.
    ///
    /// One pass over the weights, one word of memory a symbol, and one allocation if the iterator
    /// announces their number.
    pub fn from_nonzero_fixed_point_probabilities<I: IntoIterator<Item = Probability>>(
        alloc: Global,
        probabilities: I,
        infer_last_probability: bool,
    ) -> Result<Self, ModelError>
        requires precision { IsPrecision Probability.BITS PRECISION }
        requires ends { IsFiniteIterable I.into_iter_gives I.IntoIter.can_next I.IntoIter.remaining
            probabilities }
        ensures { IsDecidedByWeights (IsAccepted Probability.BITS PRECISION)
            (completed PRECISION infer_last_probability) I.into_iter_gives I.IntoIter.next_gives
            probabilities Probability.whole (λ m ws. contiguous_model_rows m ≡ contiguous_rows ws)
            result }
    {
        let cdf = cdf_of::<Probability, I, PRECISION>(
            alloc,
            probabilities,
            infer_last_probability,
        )?;
        Ok(Self {
            cdf,
            probability: PhantomData,
        })
    }

    /// Gives the model other weights, and as many symbols as these are for. If the last weight is
    /// inferred, it is what the given weights leave of `2^PRECISION`.
    ///
    /// The weights are accepted if and only if
    /// [`from_nonzero_fixed_point_probabilities`](Self::from_nonzero_fixed_point_probabilities)
    /// accepts them. If they are not (`InvalidTable`), or if memory is refused, the model keeps its
    /// rows. Memory is requested only if the model never had as many symbols.
    ///
    /// Two passes over the weights: one judges them, and one writes the cdf in its place.
    pub fn set_weights(
        &mut self,
        weights: &[Probability],
        infer_last_probability: bool,
    ) -> Result<(), ModelError>
        ensures accepted { OnOk result (IsAccepted Probability.BITS PRECISION
            (completed PRECISION infer_last_probability (map Probability.whole weights.now))) }
        ensures rows { OnOk result (contiguous_model_rows self.new ≡ contiguous_rows
            (completed PRECISION infer_last_probability (map Probability.whole weights.now))) }
        ensures invalid { result ≡ Err ModelError.InvalidTable
            → ¬ (IsAccepted Probability.BITS PRECISION
            (completed PRECISION infer_last_probability (map Probability.whole weights.now))) }
        // Memory is refused only if there are more symbols than before.
        ensures memory { result ≡ Err ModelError.OutOfMemory
            → length (contiguous_model_rows self.old) < length
            (completed PRECISION infer_last_probability (map Probability.whole weights.now)) }
        ensures err { OnErr result
            (contiguous_model_rows self.new ≡ contiguous_model_rows self.old) }
    {
        refill_cdf::<Probability, PRECISION>(&mut self.cdf, weights, infer_last_probability)
    }
}

impl<Probability: WholeNumber, const PRECISION: usize> Clone
    for ContiguousCategoricalEntropyModel<Probability, Vec<Probability>, PRECISION> {
    ghost use Rattle.constriction_categorical.specs.ModelRows.{contiguous_model_rows};

    ghost is_clone = { λ x y. contiguous_model_rows y ≡ contiguous_model_rows x };

    /// A copy of the model. Its cdf comes from the allocator of this model's.
    ///
    /// One allocation and one copy of the cdf.
    fn clone(&self) -> Result<Self, AllocError> {
        self.clone_in(*self.cdf.allocator())
    }
}

impl<
    Probability: WholeNumber,
    Cdf: SafeBuf<Probability>,
    const PRECISION: usize,
> ContiguousCategoricalEntropyModel<Probability, Cdf, PRECISION> {
    ghost use Rattle.constriction_categorical.specs.ModelRows.{contiguous_model_rows};

    /// The model over a buffer that is its cdf already: the left cumulatives of its symbols in
    /// order, and after them the total, `2^PRECISION`, or 0 if that is no word.
    ///
    /// One pass over the words, and no copy. If they are the cdf of no accepted weights, the buffer
    /// comes back, so its memory serves for another try.
    pub fn from_cdf(cdf: Cdf) -> Result<Self, Cdf>
        requires precision { IsPrecision Probability.BITS PRECISION }
        ensures accepted { IfOk result (λ _. (weights : List ℕ) × IsCdfOfWeights Probability.BITS
            PRECISION weights (map Probability.whole (Cdf.words_of cdf))) }
        ensures rows { (weights : List ℕ) → IsCdfOfWeights Probability.BITS PRECISION weights
            (map Probability.whole (Cdf.words_of cdf))
            → IsOkAnd result (λ m. contiguous_model_rows m ≡ contiguous_rows weights) }
        ensures refused { IfErr result (λ buffer. buffer ≡ cdf) }
    {
        if !is_cdf::<Probability, PRECISION>(cdf.words()) {
            return Err(cdf);
        }
        Ok(Self {
            cdf,
            probability: PhantomData,
        })
    }

    /// How many symbols the model has.
    #[inline]
    pub fn support_size(&self) -> usize
        ensures { result ≡ length (contiguous_model_rows self.now) }
    {
        self.cdf.words().len() - 1
    }

    /// The left cumulatives, one word a row.
    #[inline]
    pub(crate) fn cdf_entries<'m>(&'m self) -> &'m [Probability]
        ensures { map Probability.whole result.now
            ≡ lefts_in (map Probability.whole (Cdf.words_of self.now.cdf)) }
    {
        let cdf = self.cdf.words();
        &cdf[..cdf.len() - 1]
    }

    /// The same model over a copy of the cdf.
    pub(crate) fn clone_in(
        &self,
        alloc: Global,
    ) -> Result<
        ContiguousCategoricalEntropyModel<Probability, Vec<Probability>, PRECISION>,
        AllocError,
    >
        ensures { IfOk result (λ m. contiguous_model_rows m ≡ contiguous_model_rows self.now) }
    {
        let cdf = copy_of(alloc, self.cdf.words())?;
        Ok(ContiguousCategoricalEntropyModel {
            cdf,
            probability: PhantomData,
        })
    }

    /// A view of the model, which borrows its cdf.
    #[inline]
    pub fn as_view<'m>(
        &'m self,
    ) -> ContiguousCategoricalEntropyModel<Probability, &'m [Probability], PRECISION>
        ensures { contiguous_model_rows result ≡ contiguous_model_rows self.now }
    {
        ContiguousCategoricalEntropyModel {
            cdf: self.cdf.words(),
            probability: PhantomData,
        }
    }

    /// A probe of the rows in question for a quantile, here all rows, and the index of the first
    /// one. This index plus what [`row_of_quantile`](constriction_model::row_of_quantile) answers
    /// on the probe is the index of the quantile's row.
    #[inline]
    pub fn quantile_probe<'m>(
        &'m self,
        quantile: Probability,
    ) -> (usize, CdfProbe<'m, Probability, Cumulative>)
        requires { Probability.whole quantile < 2 ^ PRECISION }
        ensures { IsProbeFor ⟦<CdfProbe<'m, Probability, Cumulative> as Probe>⟧
            (contiguous_model_rows self.now) (λ _. ⊤) (Probability.whole quantile) result.0
            result.1 }
    {
        (0, CdfProbe::new(self.cdf_entries()))
    }
}

impl<Probability: WholeNumber, Cdf: SafeBuf<Probability>, const PRECISION: usize> EntropyModel<
    PRECISION,
> for ContiguousCategoricalEntropyModel<Probability, Cdf, PRECISION> {
    type Symbol = usize;

    type Probability = Probability;

    ghost use Rattle.constriction_categorical.specs.ModelRows.{contiguous_model_rows};

    ghost rows = { contiguous_model_rows };

    ghost precision_law = { λ m. m.precise };
}

impl<Probability: WholeNumber, Cdf: SafeBuf<Probability>, const PRECISION: usize> EncoderModel<
    PRECISION,
> for ContiguousCategoricalEntropyModel<Probability, Cdf, PRECISION> {
    ghost symbol_eq = { nat_eq };

    #[inline]
    fn left_cumulative_and_probability(
        &self,
        symbol: &usize,
    ) -> Option<(Probability, Weight<Probability>)> {
        contiguous_entry_of::<Probability, PRECISION>(self.cdf.words(), *symbol)
    }

    ghost equality_law = { nat_eq_equiv };

    ghost within_law = { λ m. stored-within _ _ _ m.stored.stored };
}

impl<Probability: WholeNumber, Cdf: SafeBuf<Probability>, const PRECISION: usize> DecoderModel<
    PRECISION,
> for ContiguousCategoricalEntropyModel<Probability, Cdf, PRECISION> {
    ghost use Rattle.constriction_categorical.specs.ModelRows.{contiguous_model_rows};

    /// The row of a quantile, by a search. It takes no memory and always succeeds.
    #[inline(always)]
    fn quantile_function(
        &self,
        quantile: Probability,
    ) -> Result<(usize, Probability, Weight<Probability>), AllocError>
        requires in_range { Probability.whole quantile < 2 ^ PRECISION }
        ensures row { IfOk result (AnswersQuantile (λ s t. t ≡ s) Probability.whole Probability.base
            (contiguous_model_rows self.now) (Probability.whole quantile)) }
        ensures within { IfOk result (λ x.
            LiesWithin PRECISION (row_of Probability.whole Probability.base x)) }
        ensures refused { IfErr result (λ _. RowMayBeRefused (λ _. ⊥)
            (contiguous_model_rows self.now) (Probability.whole quantile)) }
        ensures known { IfOk result (λ x. x.0 < length (contiguous_model_rows self.now)) }
    {
        Ok(contiguous_row_of_quantile::<Probability, PRECISION>(self.cdf.words(), quantile))
    }

    ghost tile_law = { λ m. stored-tiles _ _ _ m.stored.stored };
}

impl<
    'm,
    Probability: WholeNumber + 'm,
    Cdf: SafeBuf<Probability> + 'm,
    const PRECISION: usize,
> IterableEntropyModel<PRECISION>
    for &'m ContiguousCategoricalEntropyModel<Probability, Cdf, PRECISION> {
    type SymbolTable = ContiguousSymbolTable<'m, Probability, PRECISION>;

    ghost rows_left = { λ t. rows_stored PRECISION (map Probability.whole t.cdf.now) t.from t.to };

    /// All rows in order, each once: symbol, left cumulative and weight. The walk takes no memory,
    /// and every item is a row.
    #[inline]
    fn symbol_table(self) -> ContiguousSymbolTable<'m, Probability, PRECISION> {
        let cdf = self.cdf.words();
        ContiguousSymbolTable {
            cdf,
            from: 0,
            to: cdf.len() - 1,
        }
    }

    ghost steps_law = { λ t r u step. step };

    ghost tile_law = { λ m. stored-tiles _ _ _ m.now.stored.stored };
}
