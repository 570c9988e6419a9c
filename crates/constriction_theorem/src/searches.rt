//! Weights, and what models without a lookup table reply, over any word.

ghost use Rattle.std.specs.Prelude.{◌≡◌, map, nat_eq, IfOk, IfErr};
ghost use Rattle.constriction_model.specs.Acceptance.{completed, IsAccepted};
ghost use Rattle.constriction_categorical.specs.ModelRows.{contiguous_model_rows, decoder_model_rows};
ghost use Rattle.constriction_model.specs.Rows.{contiguous_rows};
ghost use Rattle.constriction_model.specs.Precision.{IsPrecision};
ghost use Rattle.constriction_client.specs.Replies.{in_numbers, replies_by_scan};
ghost use Rattle.constriction_theorem.specs.Answers.{BothReplyAsScan, IsDecidedBy};

use crate::made::{Contiguous, Searching, contiguous_from, decoder_of, encoder_of};
use crate::weights::{RepliesByEncoder, asked_beside_both};
use constriction_categorical::NonContiguousCategoricalDecoderModel;
use constriction_client::Query;
use constriction_model::ModelError;
use constriction_words::WholeNumber;
use std::alloc::Global;

/// What two models of one list of weights, without lookup tables, replied to the same queries.
#[derive(Drop)]
pub struct AnswersBySearch<Word: WholeNumber, Decoder> {
    /// The model of the symbols 0, 1, .. that searches all rows.
    pub contiguous: RepliesByEncoder<Word>,
    /// The decoder over any symbols that is made of its rows.
    pub decoder: Decoder,
    /// The decoder's replies.
    pub non_contiguous: RepliesByEncoder<Word>,
}

/// The replies of a model and of the decoder over any symbols that is made of its rows.
fn asked_by_search<Probability: WholeNumber, const PRECISION: usize>(
    alloc: Global,
    model: &Contiguous<Probability, PRECISION>,
    queries: &[Query<usize, Probability>],
) -> Result<AnswersBySearch<Probability, Searching<usize, Probability, PRECISION>>, ModelError>
    ensures ok { IfOk result (BothReplyAsScan (in_numbers Probability.whole Probability.base)
        (replies_by_scan PRECISION Probability.whole nat_eq queries.now) decoder_model_rows
        (contiguous_model_rows model.now)) }
    ensures refused { IfErr result (λ e. e ≡ ModelError.OutOfMemory) }
{
    let decoder = decoder_of(alloc, model)?;
    let hashed = encoder_of(alloc, model)?;
    let contiguous = asked_beside_both(alloc, model, model, &hashed, queries)?;
    let non_contiguous = asked_beside_both(alloc, &decoder, model, &hashed, queries)?;
    Ok(AnswersBySearch {
        contiguous,
        decoder,
        non_contiguous,
    })
}

/// As [`answer_from_weights`](crate::answer_from_weights), by models without lookup tables and over
/// any word: the model of the symbols 0, 1, .. and the decoder over any symbols of its rows.
pub fn answer_from_weights_by_search<Probability: WholeNumber, const PRECISION: usize>(
    alloc: Global,
    weights: Vec<Probability>,
    infer_last_probability: bool,
    queries: &[Query<usize, Probability>],
) -> Result<
    AnswersBySearch<
        Probability,
        NonContiguousCategoricalDecoderModel<
            usize,
            Probability,
            Vec<(Probability, usize)>,
            PRECISION,
        >,
    >,
    ModelError,
>
    requires precision { IsPrecision Probability.BITS PRECISION }
    ensures { let all = completed PRECISION infer_last_probability
        (map Probability.whole weights.items) in
        IsDecidedBy result (IsAccepted Probability.BITS PRECISION all)
        (BothReplyAsScan (in_numbers Probability.whole Probability.base)
        (replies_by_scan PRECISION Probability.whole nat_eq queries.now)
        decoder_model_rows (contiguous_rows all)) }
{
    let model = contiguous_from::<Probability, PRECISION>(alloc, weights, infer_last_probability)?;
    asked_by_search(alloc, &model, queries)
}
