//! What contracts alone tell a caller of the theorem about the symbols 0, 1 and 2 with the weights
//! 21, 21 and 22, which are those of a dividing model, and about letters with these weights.

ghost use Rattle.std.specs.Prelude.{◌≡◌, [], ◌∷◌, Some, IfOk, IfSome, IsSome, map};
ghost use Rattle.constriction.specs.Probe.{digits};
ghost use Rattle.constriction.specs.Rows.{uniform_rows};
ghost use Rattle.constriction_client.specs.Replies.{in_numbers};
ghost use Rattle.constriction_client.specs.declared.queries.Query.TheVariants as query;
ghost use Rattle.constriction_client.specs.declared.queries.Reply.TheVariants as answer;

use crate::checks::same;
use constriction::laws::contiguous_symbols_differ;
use constriction::stream::model::{
    EntropyModel, ModelError, NonContiguousCategoricalDecoderModel,
    NonContiguousLookupDecoderModel, UniformModel, to_generic_lookup_decoder_model,
};
use constriction_client::{ChainStep, DecoderForm, Query, Reply};
use constriction_theorem::{
    AnswersBySearch, AnswersOfModel, AnswersOfWeights, FormAndReplies, answer_beside_encoder,
    answer_by_model, answer_by_symbol_table, answer_from_symbols_and_weights, answer_from_weights,
    answer_from_weights_by_search,
};
use constriction_words::WholeNumber;
use std::alloc::{AllocError, Global};

type Decoder = NonContiguousCategoricalDecoderModel<usize, u8, Vec<(u8, usize)>, 6>;

type Tabled = NonContiguousLookupDecoderModel<usize, u8, Vec<(u8, usize)>, Vec<u8>, 6>;

/// The weights.
fn weights(alloc: Global) -> Result<Vec<u8>, AllocError>
    ensures { IfOk result (λ weights. weights.items ≡ 21 ∷ 21 ∷ 22 ∷ []) }
{
    let weights = Vec::from_array(alloc, [21u8, 21, 22])?;
    Ok(weights)
}

/// The queries.
fn queries() -> [Query<usize, u8>; 3]
    ensures { result ≡ query.OfQuantile 42 ∷ query.OfQuantile 64 ∷ query.OfSymbol 1 ∷ [] }
{
    [
        Query::OfQuantile(42),
        Query::OfQuantile(64),
        Query::OfSymbol(1),
    ]
}

/// All models of the weights.
fn by_weights(alloc: Global) -> Result<AnswersOfWeights<u8, DecoderForm<usize, u8, 6>>, ModelError>
    ensures divides { IfOk result (λ made. IsSome made.dividing) }
    ensures dividing { IfOk result (λ made. IfSome made.dividing (λ replies. map (in_numbers
        ⟦<u8 as WholeNumber>⟧.whole ⟦<u8 as WholeNumber>⟧.base) replies.hashed.items
        ≡ answer.Row 2 42 22 ∷ answer.OutOfRange ∷ answer.Entry (Some (21, 21)) ∷ [])) }
    ensures converted { IfOk result (λ made. map (in_numbers ⟦<u8 as WholeNumber>⟧.whole
        ⟦<u8 as WholeNumber>⟧.base) made.converted.hashed.items
        ≡ answer.Row 2 42 22 ∷ answer.OutOfRange ∷ answer.Entry (Some (21, 21)) ∷ []) }
    ensures questions { IfOk result (λ made. made.questions.items ≡ digits 2 ∷ 0 ∷ 0 ∷ []) }
{
    let given = weights(alloc)?;
    let steps = [ChainStep::ToLookup];
    let made = answer_from_weights::<u8, 6, 2>(alloc, given, false, &steps, &queries())?;
    Ok(made)
}

/// The models of the weights that search.
fn by_search(alloc: Global) -> Result<AnswersBySearch<u8, Decoder>, ModelError>
    ensures { IfOk result (λ made. map (in_numbers ⟦<u8 as WholeNumber>⟧.whole
        ⟦<u8 as WholeNumber>⟧.base) made.non_contiguous.hashed.items
        ≡ answer.Row 2 42 22 ∷ answer.OutOfRange ∷ answer.Entry (Some (21, 21)) ∷ []) }
{
    answer_from_weights_by_search::<u8, 6>(alloc, weights(alloc)?, false, &queries())
}

/// The models of letters and the weights.
fn by_letters(alloc: Global) -> Result<FormAndReplies<char, u8, 6>, ModelError>
    ensures { IfOk result (λ both.
        map (in_numbers ⟦<u8 as WholeNumber>⟧.whole ⟦<u8 as WholeNumber>⟧.base) both.1.items
        ≡ answer.Row 99 42 22 ∷ answer.Entry (Some (21, 21)) ∷ []) }
{
    let letters = Vec::from_array(alloc, ['a', 'x', 'c'])?;
    let queries = [Query::OfQuantile(42), Query::OfSymbol('x')];
    let steps = [ChainStep::ToLookup];
    answer_from_symbols_and_weights(alloc, letters, weights(alloc)?, false, &steps, &queries)
}

/// The dividing model, and the form that is made of it.
fn by_model(
    alloc: Global,
) -> Result<AnswersOfModel<usize, u8, DecoderForm<usize, u8, 6>>, ModelError>
    ensures by_model { IfOk result (λ made.
        map (in_numbers ⟦<u8 as WholeNumber>⟧.whole ⟦<u8 as WholeNumber>⟧.base) made.by_model.items
        ≡ answer.Row 2 42 22 ∷ answer.OutOfRange ∷ answer.Entry (Some (21, 21)) ∷ []) }
    ensures converted { IfOk result (λ made.
        map (in_numbers ⟦<u8 as WholeNumber>⟧.whole ⟦<u8 as WholeNumber>⟧.base) made.converted.items
        ≡ answer.Row 2 42 22 ∷ answer.OutOfRange ∷ answer.Entry (Some (21, 21)) ∷ []) }
{
    contiguous_symbols_differ();
    answer_by_model(
        alloc,
        UniformModel::<u8, 6>::new(3),
        &[ChainStep::ToLookup],
        &queries(),
    )
}

/// The form that is made of its symbol table.
fn by_symbol_table(alloc: Global) -> Result<FormAndReplies<usize, u8, 6>, ModelError>
    ensures { IfOk result (λ both.
        map (in_numbers ⟦<u8 as WholeNumber>⟧.whole ⟦<u8 as WholeNumber>⟧.base) both.1.items
        ≡ answer.Row 2 42 22 ∷ answer.OutOfRange ∷ answer.Entry (Some (21, 21)) ∷ []) }
{
    contiguous_symbols_differ();
    answer_by_symbol_table(
        alloc,
        UniformModel::<u8, 6>::new(3),
        &[ChainStep::ToLookup],
        &queries(),
    )
}

/// The dividing model beside the hashed encoder.
fn beside_encoder(alloc: Global) -> Result<Vec<Reply<usize, u8>>, ModelError>
    ensures { IfOk result (λ replies.
        map (in_numbers ⟦<u8 as WholeNumber>⟧.whole ⟦<u8 as WholeNumber>⟧.base) replies.items
        ≡ answer.Row 2 42 22 ∷ answer.OutOfRange ∷ answer.Entry (Some (21, 21)) ∷ []) }
{
    answer_beside_encoder(alloc, UniformModel::<u8, 6>::new(3), &queries())
}

/// The lookup model that is made of it.
fn tabled(alloc: Global) -> Result<Tabled, ModelError>
    ensures { IfOk result (λ m. ⟦<Tabled as EntropyModel<6>>⟧.rows m ≡ uniform_rows 6 3) }
{
    let tabled = to_generic_lookup_decoder_model(alloc, UniformModel::<u8, 6>::new(3))?;
    Ok(tabled)
}

#[test]
fn contracts_leave_one_list_of_replies(rt: HostRuntime) {
    same(&rt, by_weights(rt.alloc()).is_ok(), true);
    same(&rt, by_search(rt.alloc()).is_ok(), true);
    same(&rt, by_letters(rt.alloc()).is_ok(), true);
    same(&rt, by_model(rt.alloc()).is_ok(), true);
    same(&rt, by_symbol_table(rt.alloc()).is_ok(), true);
    same(&rt, beside_encoder(rt.alloc()).is_ok(), true);
    same(&rt, tabled(rt.alloc()).is_ok(), true);
}
