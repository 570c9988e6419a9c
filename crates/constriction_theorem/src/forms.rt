//! Forms of a decoder, and what they reply after any conversions.

ghost use Rattle.std.specs.Prelude.{◌≡◌, ◌≤◌, map, IfOk, IfErr};
ghost use Rattle.constriction_model.specs.Entries.{SameEntries};
ghost use Rattle.constriction_model.specs.Model.{ClonesAreEqual};
ghost use Rattle.constriction_client.specs.Chains.{is_lookup};
ghost use Rattle.constriction_client.specs.FormRows.{form_rows};
ghost use Rattle.constriction_client.specs.Replies.{in_numbers, replies_by_scan};
ghost use Rattle.constriction_theorem.specs.Answers.{AnswersAfter};

use constriction_client::{ChainStep, DecoderForm, Query, Reply, answer_queries, convert_chain};
use constriction_model::{EncoderModel, ModelError};
use constriction_words::IndexWord;
use std::alloc::Global;

/// A decoder in the form that steps left, and what it replied.
pub type FormAndReplies<Symbol, Probability, const PRECISION: usize> = (
    DecoderForm<Symbol, Probability, PRECISION>,
    Vec<Reply<Symbol, Probability>>,
);

/// Converts a decoder by any steps, and answers queries by the form that they leave and by an
/// encoder of the same entries. If memory is refused, the form is dropped.
pub fn answer_by_form<Symbol: Eq + Clone + Drop, Probability: IndexWord, E, const PRECISION: usize>(
    alloc: Global,
    form: DecoderForm<Symbol, Probability, PRECISION>,
    steps: &[ChainStep],
    encoder: &E,
    queries: &[Query<Symbol, Probability>],
) -> Result<FormAndReplies<Symbol, Probability, PRECISION>, ModelError>
where
    E: EncoderModel<PRECISION, Symbol = Symbol, Probability = Probability>,
    requires narrow { PRECISION ≤ 63 }
    requires clones { ClonesAreEqual Symbol.eq Symbol.is_clone }
    requires equal { ClonesAreEqual E.symbol_eq Symbol.is_clone }
    requires alike { SameEntries E.symbol_eq (E.rows encoder.now) (form_rows form) }
    ensures answers { IfOk result (λ x. AnswersAfter (λ s t. t ≡ s) Symbol.is_clone
        (replies_by_scan PRECISION Probability.whole E.symbol_eq queries.now) steps.now
        (is_lookup form) (form_rows form) (is_lookup x.0) (form_rows x.0)
        (map (in_numbers Probability.whole Probability.base) x.1.items)) }
    ensures refused { IfErr result (λ e. e ≡ ModelError.OutOfMemory) }
{
    let converted = convert_chain(alloc, form, steps)?;
    let replies = answer_queries(alloc, &converted, encoder, queries)?;
    Ok((converted, replies))
}
