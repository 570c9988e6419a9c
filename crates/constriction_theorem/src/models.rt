//! Any model that can be walked through, and what it and the form that is made of it reply.

ghost use Rattle.std.specs.Prelude.{◌≡◌, ◌≤◌, map, false, IfOk, IfErr};
ghost use Rattle.std.specs.List.{IsDistinct};
ghost use Rattle.constriction_model.specs.Model.{ClonesAreEqual};
ghost use Rattle.constriction_model.specs.Rows.{symbols_of};
ghost use Rattle.constriction_client.specs.Chains.{is_lookup};
ghost use Rattle.constriction_client.specs.FormRows.{form_rows};
ghost use Rattle.constriction_client.specs.Replies.{in_numbers, replies_by_scan, AreRepliesOf};
ghost use Rattle.constriction_theorem.specs.Answers.{AnswersAfter};

use crate::forms::{FormAndReplies, answer_by_form};
use crate::made::encoder_of;
use constriction_categorical::{IterableEntropyModel, to_generic_decoder_model_of_distinct};
use constriction_client::{ChainStep, DecoderForm, Query, Reply, answer_queries};
use constriction_model::{DecoderModel, ModelError};
use constriction_words::{IndexWord, WholeNumber};
use std::alloc::Global;
use std::hash::Hash;

/// Makes the searching decoder and the hashed encoder of the rows of any model that can be walked
/// through, converts the decoder by any steps, and answers queries by the form that they leave and
/// by the encoder.
pub fn answer_by_symbol_table<M, const PRECISION: usize>(
    alloc: Global,
    model: M,
    steps: &[ChainStep],
    queries: &[Query<M::Symbol, M::Probability>],
) -> Result<FormAndReplies<M::Symbol, M::Probability, PRECISION>, ModelError>
where
    M: IterableEntropyModel<PRECISION>,
    M::Symbol: Hash + Eq + Clone + Drop,
    M::Probability: IndexWord,
    requires narrow { PRECISION ≤ 63 }
    requires walked { ClonesAreEqual M.Symbol.eq M.stands_for }
    requires clones { ClonesAreEqual M.Symbol.eq M.Symbol.is_clone }
    // The decoder made of the model has no two equal symbols. Making it compares none.
    requires distinct { IsDistinct M.Symbol.eq (symbols_of (M.rows model)) }
    ensures answers { IfOk result (λ both. AnswersAfter M.stands_for M.Symbol.is_clone
        (replies_by_scan PRECISION M.Probability.whole M.Symbol.eq queries.now) steps.now false
        (M.rows model) (is_lookup both.0) (form_rows both.0)
        (map (in_numbers M.Probability.whole M.Probability.base) both.1.items)) }
    ensures refused { IfErr result (λ e. e ≡ ModelError.OutOfMemory) }
{
    let decoder = to_generic_decoder_model_of_distinct::<M, PRECISION>(alloc, model)?;
    let encoder = encoder_of(alloc, &decoder)?;
    answer_by_form(
        alloc,
        DecoderForm::Search(decoder),
        steps,
        &encoder,
        queries,
    )
}

/// What a model replied, the form that steps made of it, and what the form replied.
#[derive(Drop)]
pub struct AnswersOfModel<Symbol, Word: WholeNumber, Form> {
    /// The model's own replies.
    pub by_model: Vec<Reply<Symbol, Word>>,
    /// The decoder over any symbols after the steps.
    pub form: Form,
    /// The form's replies.
    pub converted: Vec<Reply<Symbol, Word>>,
}

/// Answers queries by any decoder that can be walked through, and by the hashed encoder that is
/// made of it. The decoder may search, divide or look up. The call makes no lookup table, so it
/// takes any word and any `PRECISION`.
pub fn answer_beside_encoder<M, const PRECISION: usize>(
    alloc: Global,
    model: M,
    queries: &[Query<M::Symbol, M::Probability>],
) -> Result<Vec<Reply<M::Symbol, M::Probability>>, ModelError>
where
    M: DecoderModel<PRECISION> + IterableEntropyModel<PRECISION> + Copy,
    M::Symbol: Hash + Eq + Drop,
    requires { ClonesAreEqual M.Symbol.eq M.IterableEntropyModel.stands_for }
    ensures ok { IfOk result (λ replies. AreRepliesOf M.DecoderModel.stands_for
        (replies_by_scan PRECISION M.Probability.whole M.Symbol.eq queries.now (M.rows model))
        (map (in_numbers M.Probability.whole M.Probability.base) replies.items)) }
    ensures refused { IfErr result (λ e. e ≡ ModelError.OutOfMemory) }
{
    let encoder = encoder_of::<M, PRECISION>(alloc, model)?;
    let replies = answer_queries(alloc, &model, &encoder, queries)?;
    Ok(replies)
}

/// Answers queries by a model as [`answer_beside_encoder`] does, and as [`answer_by_symbol_table`]
/// does. The model may be the caller's own: the proof needs only the laws of its traits.
pub fn answer_by_model<M, const PRECISION: usize>(
    alloc: Global,
    model: M,
    steps: &[ChainStep],
    queries: &[Query<M::Symbol, M::Probability>],
) -> Result<
    AnswersOfModel<M::Symbol, M::Probability, DecoderForm<M::Symbol, M::Probability, PRECISION>>,
    ModelError,
>
where
    M: DecoderModel<PRECISION> + IterableEntropyModel<PRECISION> + Copy,
    M::Symbol: Hash + Eq + Clone + Drop,
    M::Probability: IndexWord,
    requires narrow { PRECISION ≤ 63 }
    requires walked { ClonesAreEqual M.Symbol.eq M.IterableEntropyModel.stands_for }
    requires clones { ClonesAreEqual M.Symbol.eq M.Symbol.is_clone }
    // The decoder made of the model has no two equal symbols. Making it compares none.
    requires distinct { IsDistinct M.Symbol.eq (symbols_of (M.rows model)) }
    ensures by_model { IfOk result (λ answers. AreRepliesOf M.DecoderModel.stands_for
        (replies_by_scan PRECISION M.Probability.whole M.Symbol.eq queries.now (M.rows model))
        (map (in_numbers M.Probability.whole M.Probability.base) answers.by_model.items)) }
    ensures converted { IfOk result (λ answers. AnswersAfter M.IterableEntropyModel.stands_for
        M.Symbol.is_clone (replies_by_scan PRECISION M.Probability.whole M.Symbol.eq queries.now)
        steps.now false (M.rows model) (is_lookup answers.form) (form_rows answers.form)
        (map (in_numbers M.Probability.whole M.Probability.base) answers.converted.items)) }
    ensures refused { IfErr result (λ e. e ≡ ModelError.OutOfMemory) }
{
    let by_model = answer_beside_encoder::<M, PRECISION>(alloc, model, queries)?;
    let (form, converted) = answer_by_symbol_table::<M, PRECISION>(alloc, model, steps, queries)?;
    Ok(AnswersOfModel {
        by_model,
        form,
        converted,
    })
}
