//! Symbols and weights, and what the models of them reply.

ghost use Rattle.std.specs.Prelude.{◌≡◌, map, false};
ghost use Rattle.constriction_model.specs.Acceptance.{completed, AreAccepted};
ghost use Rattle.constriction_model.specs.Model.{ClonesAreEqual};
ghost use Rattle.constriction_model.specs.Rows.{rows_of};
ghost use Rattle.constriction_model.specs.Precision.{IsLookupPrecision};
ghost use Rattle.constriction_client.specs.Chains.{is_lookup};
ghost use Rattle.constriction_client.specs.FormRows.{form_rows};
ghost use Rattle.constriction_client.specs.Replies.{in_numbers, replies_by_scan};
ghost use Rattle.constriction_theorem.specs.Answers.{AnswersAfter, IsDecidedBy};

use crate::forms::{FormAndReplies, answer_by_form};
use crate::made::{encoder_of, searching_from};
use constriction_client::{ChainStep, DecoderForm, Query};
use constriction_model::ModelError;
use constriction_words::IndexWord;
use std::alloc::Global;
use std::hash::Hash;

/// Makes the searching decoder of symbols and weights and the hashed encoder of the same rows,
/// converts the decoder by any steps, and answers queries by the form that they leave and by the
/// encoder.
pub fn answer_from_symbols_and_weights<
    Symbol: Hash + Eq + Clone + Drop,
    Probability: IndexWord,
    const PRECISION: usize,
>(
    alloc: Global,
    symbols: Vec<Symbol>,
    weights: Vec<Probability>,
    infer_last_probability: bool,
    steps: &[ChainStep],
    queries: &[Query<Symbol, Probability>],
) -> Result<FormAndReplies<Symbol, Probability, PRECISION>, ModelError>
    requires precision { IsLookupPrecision Probability.BITS PRECISION }
    requires clones { ClonesAreEqual Symbol.eq Symbol.is_clone }
    ensures { let all = completed PRECISION infer_last_probability
        (map Probability.whole weights.items) in
        IsDecidedBy result (AreAccepted Symbol.eq Probability.BITS PRECISION symbols.items all)
        (λ x. AnswersAfter (λ s t. t ≡ s) Symbol.is_clone
        (replies_by_scan PRECISION Probability.whole Symbol.eq queries.now) steps.now false
        (rows_of symbols.items all) (is_lookup x.0) (form_rows x.0)
        (map (in_numbers Probability.whole Probability.base) x.1.items)) }
{
    let searching = searching_from::<Symbol, Probability, PRECISION>(
        alloc,
        symbols,
        weights,
        infer_last_probability,
    )?;
    let encoder = encoder_of(alloc, &searching)?;
    answer_by_form(
        alloc,
        DecoderForm::Search(searching),
        steps,
        &encoder,
        queries,
    )
}
