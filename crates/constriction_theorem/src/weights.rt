//! Weights, and what the models of the symbols 0, 1, .. reply.

ghost use Rattle.std.specs.Prelude.{◌≡◌, ◌↔◌, ◌≤◌, ℕ, fold, map, nat_eq, false, IfOk, IfErr, IfSome, IsSome};
ghost use Rattle.constriction_model.specs.Acceptance.{completed, IsAccepted};
ghost use Rattle.constriction_conversions.specs.EncoderRows.{encoder_model_rows};
ghost use Rattle.constriction_model.specs.Entries.{SameEntries};
ghost use Rattle.constriction_model.specs.Model.{ClonesAreEqual, ClonesAreSame};
ghost use Rattle.constriction_categorical.specs.ModelRows.{contiguous_model_rows, decoder_model_rows};
ghost use Rattle.constriction_model.specs.Rows.{contiguous_rows, uniform_rows};
ghost use Rattle.constriction_model.specs.Precision.{IsLookupPrecision};
ghost use Rattle.constriction_client.specs.Chains.{is_lookup, is_lookup_after};
ghost use Rattle.constriction_client.specs.FormRows.{form_rows};
ghost use Rattle.constriction_client.specs.Replies.{in_numbers, replies_by_scan};
ghost use Rattle.constriction_theorem.specs.private.Ranges.{IsRangeOf};
ghost use Rattle.constriction_theorem.specs.Answers.{AllReplyAsScan, IsDecidedBy, ReplyAsScan, questions_asked};

use crate::counted::questions_of;
use crate::dividing::{DividingWord, range_of};
use crate::made::{Contiguous, Searching, contiguous_from, decoder_of, encoder_of};
use constriction_client::{ChainStep, DecoderForm, Query, Reply, answer_queries, convert_chain};
use constriction_conversions::NonContiguousCategoricalEncoderModel;
use constriction_model::{DecoderModel, EncoderModel, ModelError};
use constriction_words::{IndexWord, WholeNumber};
use std::alloc::{AllocError, Global};

/// What a decoder replied beside each of two encoders.
#[derive(Drop)]
pub struct RepliesByEncoder<Word: WholeNumber> {
    /// Beside the model of the symbols 0, 1, .. that searches, or, of a model that divides, beside
    /// itself.
    pub contiguous: Vec<Reply<usize, Word>>,
    /// Beside the hashed encoder.
    pub hashed: Vec<Reply<usize, Word>>,
}

/// What the models of one list of weights replied to the same queries.
#[derive(Drop)]
pub struct AnswersOfWeights<Word: WholeNumber, Form> {
    /// The model that divides, if one has these weights.
    pub dividing: Option<RepliesByEncoder<Word>>,
    /// The model that searches all rows.
    pub searching: RepliesByEncoder<Word>,
    /// The model with a lookup table of as many slots as the caller asked for.
    pub tabled: RepliesByEncoder<Word>,
    /// The decoder over any symbols after the steps.
    pub form: Form,
    /// The replies of that form.
    pub converted: RepliesByEncoder<Word>,
    /// How many questions a search asks for each query: none if that is no quantile.
    pub questions: Vec<usize>,
}

/// The replies of a decoder beside each of two encoders of its rows.
pub(crate) fn asked_beside_both<D, E, F, const PRECISION: usize>(
    alloc: Global,
    decoder: &D,
    contiguous: &E,
    hashed: &F,
    queries: &[Query<usize, D::Probability>],
) -> Result<RepliesByEncoder<D::Probability>, AllocError>
where
    D: DecoderModel<PRECISION, Symbol = usize>,
    E: EncoderModel<PRECISION, Symbol = usize, Probability = D::Probability>,
    F: EncoderModel<PRECISION, Symbol = usize, Probability = D::Probability>,
    requires same { ClonesAreSame D.stands_for }
    requires contiguous { SameEntries E.symbol_eq (E.rows contiguous.now) (D.rows decoder.now) }
    requires hashed { SameEntries F.symbol_eq (F.rows hashed.now) (D.rows decoder.now) }
    ensures contiguous { IfOk result (λ replies.
        map (in_numbers D.Probability.whole D.Probability.base) replies.contiguous.items
        ≡ replies_by_scan PRECISION D.Probability.whole E.symbol_eq queries.now
        (D.rows decoder.now)) }
    ensures hashed { IfOk result (λ replies. map (in_numbers D.Probability.whole D.Probability.base)
        replies.hashed.items ≡ replies_by_scan PRECISION D.Probability.whole F.symbol_eq queries.now
        (D.rows decoder.now)) }
{
    let beside_contiguous = answer_queries(alloc, decoder, contiguous, queries)?;
    let beside_hashed = answer_queries(alloc, decoder, hashed, queries)?;
    Ok(RepliesByEncoder {
        contiguous: beside_contiguous,
        hashed: beside_hashed,
    })
}

/// The form that the steps leave of a decoder that searches.
fn form_after<Probability: IndexWord, const PRECISION: usize>(
    alloc: Global,
    decoder: Searching<usize, Probability, PRECISION>,
    steps: &[ChainStep],
) -> Result<DecoderForm<usize, Probability, PRECISION>, ModelError>
    requires narrow { PRECISION ≤ 63 }
    requires clones { ClonesAreEqual nat_eq ⟦<usize as Clone>⟧.is_clone }
    requires same { ClonesAreSame ⟦<usize as Clone>⟧.is_clone }
    ensures kind { IfOk result (λ form. is_lookup form ≡ fold is_lookup_after false steps.now) }
    ensures rows { IfOk result (λ form. form_rows form ≡ decoder_model_rows decoder) }
    ensures refused { IfErr result (λ e. e ≡ ModelError.OutOfMemory) }
{
    convert_chain(alloc, DecoderForm::Search(decoder), steps)
}

/// The form that the steps leave of a model's rows, and the hashed encoder that is made of it.
#[tactic(auto, using(crate::proofs::Making::same_are_equal))]
fn converted_from<Probability: IndexWord, const PRECISION: usize>(
    alloc: Global,
    model: &Contiguous<Probability, PRECISION>,
    steps: &[ChainStep],
) -> Result<
    (
        DecoderForm<usize, Probability, PRECISION>,
        NonContiguousCategoricalEncoderModel<usize, Probability, PRECISION>,
    ),
    ModelError,
>
    requires narrow { PRECISION ≤ 63 }
    ensures kind { IfOk result (λ both. is_lookup both.0 ≡ fold is_lookup_after false steps.now) }
    ensures rows { IfOk result (λ both. form_rows both.0 ≡ contiguous_model_rows model.now) }
    ensures entries { IfOk result (λ both.
        SameEntries nat_eq (encoder_model_rows both.1) (contiguous_model_rows model.now)) }
    ensures refused { IfErr result (λ e. e ≡ ModelError.OutOfMemory) }
{
    let decoder = decoder_of(alloc, model)?;
    let form = form_after(alloc, decoder, steps)?;
    let hashed = encoder_of(alloc, &form)?;
    Ok((form, hashed))
}

/// The replies of the model with a lookup table of `2^min(PRECISION, SLOT_BITS)` slots.
fn asked_by_slots<Probability: IndexWord, const PRECISION: usize, const SLOT_BITS: usize>(
    alloc: Global,
    model: &Contiguous<Probability, PRECISION>,
    hashed: &NonContiguousCategoricalEncoderModel<usize, Probability, PRECISION>,
    queries: &[Query<usize, Probability>],
) -> Result<RepliesByEncoder<Probability>, ModelError>
    requires narrow { PRECISION ≤ 63 }
    requires hashed { SameEntries nat_eq (encoder_model_rows hashed.now)
        (contiguous_model_rows model.now) }
    ensures ok { IfOk result
        (ReplyAsScan (in_numbers Probability.whole Probability.base) (replies_by_scan PRECISION
        Probability.whole nat_eq queries.now (contiguous_model_rows model.now))) }
    ensures refused { IfErr result (λ e. e ≡ ModelError.OutOfMemory) }
{
    let tabled = model.to_slotted_lookup_decoder_model::<SLOT_BITS>(alloc)?;
    let replies = asked_beside_both(alloc, &tabled, model, hashed, queries)?;
    Ok(replies)
}

/// The replies of the model that searches, of the model with a lookup table, and of a form of the
/// same rows.
fn asked_by_each<Probability: IndexWord, const PRECISION: usize, const SLOT_BITS: usize>(
    alloc: Global,
    model: &Contiguous<Probability, PRECISION>,
    form: &DecoderForm<usize, Probability, PRECISION>,
    hashed: &NonContiguousCategoricalEncoderModel<usize, Probability, PRECISION>,
    queries: &[Query<usize, Probability>],
) -> Result<
    (
        RepliesByEncoder<Probability>,
        RepliesByEncoder<Probability>,
        RepliesByEncoder<Probability>,
    ),
    ModelError,
>
    requires narrow { PRECISION ≤ 63 }
    requires form { form_rows form.now ≡ contiguous_model_rows model.now }
    requires hashed { SameEntries nat_eq (encoder_model_rows hashed.now)
        (contiguous_model_rows model.now) }
    ensures ok { IfOk result (λ three.
        let AsScan = ReplyAsScan (in_numbers Probability.whole Probability.base)
        (replies_by_scan PRECISION Probability.whole nat_eq queries.now
        (contiguous_model_rows model.now)) in
        AsScan three.0 × AsScan three.1 × AsScan three.2) }
    ensures refused { IfErr result (λ e. e ≡ ModelError.OutOfMemory) }
{
    let by_search = asked_beside_both(alloc, model, model, hashed, queries)?;
    let by_table = asked_by_slots::<_, PRECISION, SLOT_BITS>(alloc, model, hashed, queries)?;
    let by_form = asked_beside_both(alloc, form, model, hashed, queries)?;
    Ok((by_search, by_table, by_form))
}

/// The replies of the model that divides, if there is one.
fn asked_by_dividing<Probability: DividingWord<PRECISION>, const PRECISION: usize>(
    alloc: Global,
    model: &Contiguous<Probability, PRECISION>,
    range: Option<usize>,
    hashed: &NonContiguousCategoricalEncoderModel<usize, Probability, PRECISION>,
    queries: &[Query<usize, Probability>],
) -> Result<Option<RepliesByEncoder<Probability>>, AllocError>
    requires precision { IsLookupPrecision Probability.BITS PRECISION }
    requires range { IsRangeOf PRECISION (contiguous_model_rows model.now) range }
    requires hashed { SameEntries nat_eq (encoder_model_rows hashed.now)
        (contiguous_model_rows model.now) }
    ensures divides { IfOk result (λ replies. IsSome replies
        ↔ ((n : ℕ) × (2 ≤ n) × (contiguous_model_rows model.now ≡ uniform_rows PRECISION n))) }
    ensures dividing { IfOk result (λ replies. IfSome replies
        (ReplyAsScan (in_numbers Probability.whole Probability.base) (replies_by_scan PRECISION
        Probability.whole nat_eq queries.now (contiguous_model_rows model.now)))) }
{
    match range {
        Some(range) => {
            let replies = Probability::asked_by_division(alloc, range, hashed, queries)?;
            Ok(Some(replies))
        }
        None => Ok(None),
    }
}

/// The replies of all models of a model's rows. `range` is the number of symbols of the one that
/// divides.
fn answers_of<Probability: DividingWord<PRECISION>, const PRECISION: usize, const SLOT_BITS: usize>(
    alloc: Global,
    model: &Contiguous<Probability, PRECISION>,
    range: Option<usize>,
    steps: &[ChainStep],
    queries: &[Query<usize, Probability>],
) -> Result<AnswersOfWeights<Probability, DecoderForm<usize, Probability, PRECISION>>, ModelError>
    requires precision { IsLookupPrecision Probability.BITS PRECISION }
    requires range { IsRangeOf PRECISION (contiguous_model_rows model.now) range }
    ensures ok { IfOk result (AllReplyAsScan (in_numbers Probability.whole Probability.base)
        (replies_by_scan PRECISION Probability.whole nat_eq queries.now)
        (questions_asked PRECISION Probability.whole queries.now) steps.now form_rows PRECISION
        (contiguous_model_rows model.now)) }
    ensures refused { IfErr result (λ e. e ≡ ModelError.OutOfMemory) }
{
    let (form, hashed) = converted_from(alloc, model, steps)?;
    let dividing = asked_by_dividing(alloc, model, range, &hashed, queries)?;
    let (searching, tabled, converted) = asked_by_each::<_, PRECISION, SLOT_BITS>(
        alloc, model, &form, &hashed, queries,
    )?;
    let questions = questions_of(alloc, model, queries)?;
    Ok(AnswersOfWeights {
        dividing,
        searching,
        tabled,
        form,
        converted,
        questions,
    })
}

/// Makes the models of a list of weights: one that divides, if they are the weights of one, one
/// that searches, one with a lookup table of `2^min(PRECISION, SLOT_BITS)` slots, and a decoder
/// over any symbols, which it converts by any steps. It answers the same queries by each, beside a
/// model of the symbols 0, 1, .. and beside the hashed encoder that is made of the converted
/// decoder, and counts the questions of the searches.
///
/// The lookup table takes two words a slot, or one if a slot is one quantile. At any `PRECISION`,
/// [`answer_from_weights_by_search`](crate::answer_from_weights_by_search) makes no lookup tables.
pub fn answer_from_weights<
    Probability: DividingWord<PRECISION>,
    const PRECISION: usize,
    const SLOT_BITS: usize,
>(
    alloc: Global,
    weights: Vec<Probability>,
    infer_last_probability: bool,
    steps: &[ChainStep],
    queries: &[Query<usize, Probability>],
) -> Result<AnswersOfWeights<Probability, DecoderForm<usize, Probability, PRECISION>>, ModelError>
    requires precision { IsLookupPrecision Probability.BITS PRECISION }
    ensures { let all = completed PRECISION infer_last_probability
        (map Probability.whole weights.items) in
        IsDecidedBy result (IsAccepted Probability.BITS PRECISION all)
        (AllReplyAsScan (in_numbers Probability.whole Probability.base)
        (replies_by_scan PRECISION Probability.whole nat_eq queries.now)
        (questions_asked PRECISION Probability.whole queries.now) steps.now form_rows PRECISION
        (contiguous_rows all)) }
{
    let range = range_of::<Probability, PRECISION>(&weights, infer_last_probability);
    let model = contiguous_from::<Probability, PRECISION>(alloc, weights, infer_last_probability)?;
    answers_of::<_, PRECISION, SLOT_BITS>(alloc, &model, range, steps, queries)
}
