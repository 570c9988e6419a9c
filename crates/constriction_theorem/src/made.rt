//! Models that are made of lists and of other models, each by one call, with contracts over lists
//! and rows.

ghost use Rattle.std.specs.Prelude.{◌≡◌, map, IfOk, IfErr};
ghost use Rattle.constriction_model.specs.Acceptance.{completed, IsAccepted, AreAccepted};
ghost use Rattle.constriction_conversions.specs.EncoderRows.{encoder_model_rows};
ghost use Rattle.constriction_model.specs.Entries.{SameEntries};
ghost use Rattle.constriction_model.specs.Model.{ClonesAreEqual};
ghost use Rattle.constriction_categorical.specs.ModelRows.{contiguous_model_rows, decoder_model_rows};
ghost use Rattle.constriction_model.specs.Precision.{IsPrecision};
ghost use Rattle.constriction_model.specs.Rows.{contiguous_rows, rows_of};

use constriction_categorical::{
    ContiguousCategoricalEntropyModel, IterableEntropyModel, NonContiguousCategoricalDecoderModel,
    to_generic_decoder_model_of_distinct,
};
use constriction_conversions::{NonContiguousCategoricalEncoderModel, to_generic_encoder_model};
use constriction_model::ModelError;
use constriction_model::laws::contiguous_symbols_differ;
use constriction_words::WholeNumber;
use std::alloc::Global;
use std::hash::Hash;

/// The searching decoder over any symbols.
pub(crate) type Searching<Symbol, Probability, const PRECISION: usize> =
    NonContiguousCategoricalDecoderModel<
        Symbol,
        Probability,
        Vec<(Probability, Symbol)>,
        PRECISION,
    >;

/// The searching model of the symbols 0, 1, ...
pub(crate) type Contiguous<Probability, const PRECISION: usize> = ContiguousCategoricalEntropyModel<
    Probability,
    Vec<Probability>,
    PRECISION,
>;

/// The searching decoder of two lists.
pub(crate) fn searching_from<Symbol: Eq + Drop, Probability: WholeNumber, const PRECISION: usize>(
    alloc: Global,
    symbols: Vec<Symbol>,
    weights: Vec<Probability>,
    infer_last_probability: bool,
) -> Result<Searching<Symbol, Probability, PRECISION>, ModelError>
    requires { IsPrecision Probability.BITS PRECISION }
    ensures accepted { IfOk result (λ _.
        AreAccepted Symbol.eq Probability.BITS PRECISION symbols.items
        (completed PRECISION infer_last_probability (map Probability.whole weights.items))) }
    ensures rows { IfOk result (λ m. decoder_model_rows m ≡ rows_of symbols.items
        (completed PRECISION infer_last_probability (map Probability.whole weights.items))) }
    ensures invalid { result ≡ Err ModelError.InvalidTable
        → ¬ (AreAccepted Symbol.eq Probability.BITS PRECISION symbols.items
        (completed PRECISION infer_last_probability (map Probability.whole weights.items))) }
{
    Searching::from_symbols_and_nonzero_fixed_point_probabilities(
        alloc,
        symbols,
        weights,
        infer_last_probability,
    )
}

/// The model of a list of weights.
pub(crate) fn contiguous_from<Probability: WholeNumber, const PRECISION: usize>(
    alloc: Global,
    weights: Vec<Probability>,
    infer_last_probability: bool,
) -> Result<Contiguous<Probability, PRECISION>, ModelError>
    requires { IsPrecision Probability.BITS PRECISION }
    ensures accepted { IfOk result (λ _. IsAccepted Probability.BITS PRECISION
        (completed PRECISION infer_last_probability (map Probability.whole weights.items))) }
    ensures rows { IfOk result (λ m. contiguous_model_rows m ≡ contiguous_rows
        (completed PRECISION infer_last_probability (map Probability.whole weights.items))) }
    ensures invalid { result ≡ Err ModelError.InvalidTable
        → ¬ (IsAccepted Probability.BITS PRECISION
        (completed PRECISION infer_last_probability (map Probability.whole weights.items))) }
{
    Contiguous::from_nonzero_fixed_point_probabilities(alloc, weights, infer_last_probability)
}

/// The searching decoder of the rows of a model of the symbols 0, 1, ...
pub(crate) fn decoder_of<Probability: WholeNumber, const PRECISION: usize>(
    alloc: Global,
    model: &Contiguous<Probability, PRECISION>,
) -> Result<Searching<usize, Probability, PRECISION>, ModelError>
    ensures rows { IfOk result (λ decoder.
        decoder_model_rows decoder ≡ contiguous_model_rows model.now) }
    ensures refused { IfErr result (λ e. e ≡ ModelError.OutOfMemory) }
{
    contiguous_symbols_differ();
    let decoder = to_generic_decoder_model_of_distinct::<_, PRECISION>(alloc, model)?;
    Ok(decoder)
}

/// The hashed encoder of the rows of a model that can be walked through.
pub(crate) fn encoder_of<M, const PRECISION: usize>(
    alloc: Global,
    model: M,
) -> Result<NonContiguousCategoricalEncoderModel<M::Symbol, M::Probability, PRECISION>, ModelError>
where
    M: IterableEntropyModel<PRECISION>,
    M::Symbol: Hash + Eq + Drop,
    requires { ClonesAreEqual M.Symbol.eq M.stands_for }
    ensures entries { IfOk result (λ e.
        SameEntries M.Symbol.eq (encoder_model_rows e) (M.rows model)) }
    ensures refused { IfErr result (λ e. e ≡ ModelError.OutOfMemory) }
{
    to_generic_encoder_model::<M, PRECISION>(alloc, model)
}
