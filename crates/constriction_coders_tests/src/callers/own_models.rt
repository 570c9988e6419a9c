//! Callers who code each symbol by a model of its own, proved from the contracts alone: one
//! encodes, and another decodes.

ghost use Rattle.std.specs.Prelude.{◌≡◌, IfOk, IfSome, List, Option, length};
ghost use Rattle.std.specs.Iterator.{IsFinite, YieldsFirst, YieldsLast};
ghost use Rattle.std.specs.List.{AllZip, zip};
ghost use Rattle.constriction.specs.Coding.{InTurn, StandsForEqual};
ghost use Rattle.constriction.specs.Entries.{SameEntries};
ghost use Rattle.constriction_coders.specs.AnsCoder.{held_by};
ghost use Rattle.constriction_coders.specs.Intervals.{Held, IsRead};
ghost use Rattle.constriction_coders.specs.Places.{entry_by};
ghost use Rattle.constriction_coders.specs.RangeDecoder.{held_by as read_by};
ghost use Rattle.constriction_coders.specs.Spans.{IsMessageOf};
ghost use Rattle.constriction_coders.specs.StackMessages.{IsStackOf};
ghost use Rattle.constriction_coders.specs.Steps.{Content, IsDecoded};

use constriction::backends::{Cursor, ReadWords, WordStack};
use constriction::stream::model::{DecoderModel, EncoderModel};
use constriction::{CoderError, Queue};
use constriction_coders::laws::{pairs_come_back, range_pairs_come_back};
use constriction_coders::queue::{DecoderFrontendError, RangeDecoder, RangeEncoder};
use constriction_coders::stack::AnsCoder;
use constriction_coders::{Encode, ModelWord, decode_symbols};
use std::alloc::{AllocError, Global};

/// The words of symbols that are encoded each by its own model, from the back of an iterator on, if
/// the states of that show what is left.
pub fn words_of_pairs<E, I, const PRECISION: usize>(alloc: Global, pairs: I) -> Option<Vec<u32>>
where
    E: EncoderModel<PRECISION, Probability: ModelWord> + Drop,
    E::Symbol: Drop,
    I: DoubleEndedIterator<Item = (E::Symbol, E)>,
    requires can_next_back { I.can_next_back pairs }
    requires ends { IsFinite (I.remaining pairs) }
    ensures { IfSome result (λ words. (rest : I → List (E.Symbol × E))
        → ((s : I) (answer : Option (E.Symbol × E)) (t : I) → I.next_back_gives s answer t
        → YieldsLast rest s answer t)
        → IsStackOf (entry_by E.symbol_eq E.rows) PRECISION (rest pairs) words.items) }
{
    let mut coder = AnsCoder::new(alloc);
    match coder.encode_symbols_reverse::<E, I, PRECISION>(pairs) {
        Ok(()) => {}
        Err(_) => return None,
    }
    match coder.into_compressed() {
        Ok(words) => Some(words),
        Err(_) => None,
    }
}

/// The symbols that a walk gives by the models of a slice, one after another, as a run from what
/// the coder holds.
fn by_models<Backend, D, const PRECISION: usize>(
    alloc: Global,
    coder: &mut AnsCoder<Backend>,
    models: &[D],
) -> Result<Vec<D::Symbol>, CoderError<AllocError, Backend::ReadError>>
where
    Backend: WordStack<u32>,
    D: DecoderModel<PRECISION, Probability: ModelWord>,
    D::Symbol: Drop,
    ensures count { IfOk result (λ answers. length answers.items ≡ length models.now) }
    ensures run { IfOk result (λ answers. (left : Content)
        × InTurn (λ other. IsDecoded D.stands_for (D.rows other.1) PRECISION other.0)
        (zip answers.items models.now) (held_by coder.old) left) }
{
    let mut answers = Vec::new(alloc);
    for answer in decode_symbols::<_, &D, &[D], PRECISION>(coder, models) {
        let symbol = answer?;
        match answers.push(symbol) {
            Ok(()) => {}
            Err(error) => return Err(CoderError::Frontend(error.into())),
        }
    }
    Ok(answers)
}

/// Symbols that are encoded each by its own model come back by other models, which have the same
/// entries place by place.
pub fn from_a_stack<D, E, const PRECISION: usize>(
    alloc: Global,
    pairs: Vec<(D::Symbol, E)>,
    models: &[D],
) -> Option<Vec<D::Symbol>>
where
    D: DecoderModel<PRECISION, Probability: ModelWord>,
    D::Symbol: Drop,
    E: EncoderModel<PRECISION, Symbol = D::Symbol, Probability: ModelWord> + Drop,
    requires { AllZip (λ pair model. SameEntries E.symbol_eq (E.rows pair.1) (D.rows model))
        pairs.items models.now }
    ensures { IfSome result (λ answers.
        AllZip (λ pair answer. StandsForEqual D.stands_for E.symbol_eq pair.0 answer) pairs.items
        answers.items) }
{
    pairs_come_back::<D, E, PRECISION>();
    let Some(words) = words_of_pairs::<E, _, PRECISION>(alloc, pairs.into_iter()) else {
        return None;
    };
    let Ok(mut coder) = AnsCoder::from_compressed(words) else {
        return None;
    };
    match by_models::<Vec<u32>, D, PRECISION>(alloc, &mut coder, models) {
        Ok(answers) => Some(answers),
        Err(_) => None,
    }
}

/// The message of symbols that are encoded each by its own model, if the states of an iterator show
/// what is left.
pub fn message_of_pairs<E, I, const PRECISION: usize>(alloc: Global, pairs: I) -> Option<Vec<u32>>
where
    E: EncoderModel<PRECISION, Probability: ModelWord> + Drop,
    E::Symbol: Drop,
    I: Iterator<Item = (E::Symbol, E)>,
    requires can_next { I.can_next pairs }
    requires ends { IsFinite (I.remaining pairs) }
    ensures { IfSome result (λ words. (rest : I → List (E.Symbol × E))
        → ((s : I) (answer : Option (E.Symbol × E)) (t : I) → I.next_gives s answer t
        → YieldsFirst rest s answer t)
        → IsMessageOf (entry_by E.symbol_eq E.rows) PRECISION (rest pairs) words.items) }
{
    let mut coder = RangeEncoder::new(alloc);
    match coder.encode_symbols::<E, I>(pairs) {
        Ok(()) => {}
        Err(_) => return None,
    }
    match coder.into_compressed() {
        Ok(words) => Some(words),
        Err(_) => None,
    }
}

/// The same walk over the symbols of a message.
fn read_by_models<Source, D, const PRECISION: usize>(
    alloc: Global,
    decoder: &mut RangeDecoder<Source>,
    models: &[D],
) -> Result<Vec<D::Symbol>, CoderError<DecoderFrontendError, Source::ReadError>>
where
    Source: ReadWords<u32, Queue>,
    D: DecoderModel<PRECISION, Probability: ModelWord>,
    D::Symbol: Drop,
    requires { Source.can_read decoder.old.words }
    ensures count { IfOk result (λ answers. length answers.items ≡ length models.now) }
    ensures run { IfOk result (λ answers. (left : Held Source)
        × InTurn (λ other. IsRead D.stands_for (D.rows other.1) Source.read_gives PRECISION other.0)
        (zip answers.items models.now) (read_by decoder.old) left) }
{
    let mut answers = Vec::new(alloc);
    for answer in decode_symbols::<_, &D, &[D], PRECISION>(decoder, models) {
        let symbol = answer?;
        match answers.push(symbol) {
            Ok(()) => {}
            Err(_) => return Err(CoderError::Frontend(DecoderFrontendError::OutOfMemory)),
        }
    }
    Ok(answers)
}

/// Symbols of a message that are encoded each by its own model come back by other models, which
/// have the same entries place by place.
pub fn from_a_queue<D, E, const PRECISION: usize>(
    alloc: Global,
    pairs: Vec<(D::Symbol, E)>,
    models: &[D],
) -> Option<Vec<D::Symbol>>
where
    D: DecoderModel<PRECISION, Probability: ModelWord>,
    D::Symbol: Drop,
    E: EncoderModel<PRECISION, Symbol = D::Symbol, Probability: ModelWord> + Drop,
    requires { AllZip (λ pair model. SameEntries E.symbol_eq (E.rows pair.1) (D.rows model))
        pairs.items models.now }
    ensures { IfSome result (λ answers.
        AllZip (λ pair answer. StandsForEqual D.stands_for E.symbol_eq pair.0 answer) pairs.items
        answers.items) }
{
    range_pairs_come_back::<D, E, Cursor<u32, Vec<u32>>, PRECISION>();
    let Some(words) = message_of_pairs::<E, _, PRECISION>(alloc, pairs.into_iter()) else {
        return None;
    };
    let Ok(mut decoder) = RangeDecoder::from_compressed(Cursor::new_at_write_beginning(words))
    else {
        return None;
    };
    match read_by_models::<Cursor<u32, Vec<u32>>, D, PRECISION>(alloc, &mut decoder, models) {
        Ok(answers) => Some(answers),
        Err(_) => None,
    }
}
