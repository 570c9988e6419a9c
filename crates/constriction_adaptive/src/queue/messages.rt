//! Whole messages, and what comes back from them.

ghost use Rattle.std.specs.Prelude.{◌≡◌, ◌≢◌, ◌++◌, ◌^◌, ◌<◌, ℕ, List, length, fold, All, Err, IfOk, OnOk};
ghost use Rattle.std.specs.List.{AllZip};
ghost use Rattle.constriction_model.specs.Coding.{StandsForEqual};
ghost use Rattle.constriction_coders.specs.Places.{placed, entry_at, IsMessageFrom};
ghost use Rattle.constriction_coders.specs.RangeLaws.{MessageOnce, RangeMessageComesBack};
ghost use Rattle.constriction_adaptive.specs.Predicted.{predicted_entry, FirstAreLearned, IsReadIn, StopsPredicting};

use crate::decoding::decode_adaptively;
use crate::error::EncoderFrontendError;
use crate::predictor::Predictor;
use crate::queue::encoding::encode_adaptively;
use constriction_backends::{Cursor, ReadWords};
use constriction_coders::laws::MessageError;
use constriction_coders::queue::{DecoderFrontendError, RangeDecoder, RangeEncoder};
use constriction_words::{CoderError, Queue};
use std::alloc::{AllocError, Global};
use std::convert::Infallible;

/// From a state on, symbols have one message, whoever encoded them.
pub fn one_message_from<P, const PRECISION: usize>()
where
    P: Predictor<PRECISION>,
    ensures { MessageOnce (entry_at (predicted_entry P.rows P.Model.symbol_eq)) PRECISION }
{}

/// What is encoded from a state on comes back to a decoder whose predictor begins in that state,
/// from any span of a message on, and from any source that tells the words, whatever words come
/// after them.
pub fn symbols_come_back<P, Source, const PRECISION: usize>(predictor: &P)
where
    P: Predictor<PRECISION>,
    Source: ReadWords<u32, Queue>,
    ensures { (first : P.State)
        → RangeMessageComesBack (placed P.next first)
        (entry_at (predicted_entry P.rows P.Model.symbol_eq)) PRECISION
        (IsReadIn P.rows P.Model.stands_for P.Model.symbol_eq PRECISION Source.read_gives)
        Source.tells_upcoming (StandsForEqual P.Model.stands_for P.Model.symbol_eq) }
{
    let _model = predictor.model();
}

/// The words of these symbols, from the state of the predictor on.
///
/// It fails with `ImpossibleSymbol` only at a symbol without an entry, after the symbols before it
/// were learned; and otherwise only if memory is refused.
pub fn encode_message<P, const PRECISION: usize>(
    alloc: Global,
    predictor: &mut P,
    symbols: &[P::Symbol],
) -> Result<Vec<u32>, CoderError<EncoderFrontendError, AllocError>>
where
    P: Predictor<PRECISION>,
    ensures ok { IfOk result (λ words.
        IsMessageFrom (predicted_entry P.rows P.Model.symbol_eq) P.next PRECISION
        (P.state predictor.old) symbols.now words.items) }
    ensures learned { OnOk result
        (P.state predictor.new ≡ fold P.next (P.state predictor.old) symbols.now) }
    ensures err { (error : _) → result ≡ Err (CoderError.Frontend error)
        → StopsPredicting P.next (predicted_entry P.rows P.Model.symbol_eq) symbols.now error
        (P.state predictor.old) (P.state predictor.new) }
    ensures refused { (error : _) → result ≡ Err (CoderError.Backend error)
        → FirstAreLearned P.next symbols.now (P.state predictor.old) (P.state predictor.new) }
{
    let mut encoder = RangeEncoder::new(alloc);
    match encode_adaptively(predictor, symbols, &mut encoder) {
        Ok(()) => {}
        Err(error) => return Err(error),
    }
    match encoder.into_compressed() {
        Ok(words) => Ok(words),
        Err(error) => Err(CoderError::Backend(error)),
    }
}

/// Decodes a message of `count` symbols from a source, which may have other words after it.
///
/// If the source tells the words of as many symbols from the state of the predictor on, these come
/// back, and the words are not invalid. Memory for all symbols is asked for first.
pub fn decode_message<P, Source, const PRECISION: usize>(
    alloc: Global,
    predictor: &mut P,
    count: usize,
    source: Source,
) -> Result<Vec<P::Symbol>, CoderError<DecoderFrontendError, Source::ReadError>>
where
    P: Predictor<PRECISION>,
    P::Symbol: Drop,
    Source: ReadWords<u32, Queue> + Drop,
    requires { Source.can_read source }
    ensures back { IfOk result (λ answers. (symbols : List P.Symbol) (words more : List ℕ)
        → length symbols ≡ count → IsMessageFrom (predicted_entry P.rows P.Model.symbol_eq) P.next
        PRECISION (P.state predictor.old) symbols words → All (λ w. w < 2 ^ 32) more
        → Source.tells_upcoming source (words ++ more)
        → AllZip (StandsForEqual P.Model.stands_for P.Model.symbol_eq) symbols answers.items
        × (P.state predictor.new ≡ fold P.next (P.state predictor.old) symbols)) }
    ensures count { IfOk result (λ answers. length answers.items ≡ count) }
    ensures valid { result ≡ Err (CoderError.Frontend DecoderFrontendError.InvalidData)
        → (symbols : List P.Symbol) (words more : List ℕ) → length symbols ≡ count → IsMessageFrom
        (predicted_entry P.rows P.Model.symbol_eq) P.next PRECISION (P.state predictor.old) symbols
        words → All (λ w. w < 2 ^ 32) more → ¬ (Source.tells_upcoming source (words ++ more)) }
{
    symbols_come_back::<P, Source, PRECISION>(predictor);
    let mut decoder = match RangeDecoder::from_compressed(source) {
        Ok(decoder) => decoder,
        Err(error) => return Err(CoderError::Backend(error)),
    };
    match decode_adaptively(alloc, predictor, count, &mut decoder) {
        Ok(answers) => Ok(answers),
        Err(error) => Err(error),
    }
}

/// Decodes a message of `count` symbols from words that are only lent, which may have others after
/// it.
///
/// If the words begin with those of as many symbols from the state of the predictor on, these come
/// back, and the words are not invalid. Memory for all symbols is asked for first.
pub fn decode_message_of<P, const PRECISION: usize>(
    alloc: Global,
    predictor: &mut P,
    count: usize,
    words: &[u32],
) -> Result<Vec<P::Symbol>, DecoderFrontendError>
where
    P: Predictor<PRECISION>,
    P::Symbol: Drop,
    ensures back { IfOk result (λ answers. (first : P.State) (symbols : List P.Symbol)
        (message more : List ℕ) → P.state predictor.old ≡ first → length symbols ≡ count
        → IsMessageFrom (predicted_entry P.rows P.Model.symbol_eq) P.next PRECISION first symbols
        message → All (λ w. w < 2 ^ 32) more → words.now ≡ message ++ more
        → AllZip (StandsForEqual P.Model.stands_for P.Model.symbol_eq) symbols answers.items
        × (P.state predictor.new ≡ fold P.next first symbols)) }
    // As of numbers, which stand for themselves alone.
    ensures same { IfOk result (λ answers.
        ((s t : P.Symbol) → StandsForEqual P.Model.stands_for P.Model.symbol_eq s t → t ≡ s)
        → (first : P.State) (symbols : List P.Symbol) (message more : List ℕ)
        → P.state predictor.old ≡ first → length symbols ≡ count
        → IsMessageFrom (predicted_entry P.rows P.Model.symbol_eq) P.next PRECISION first symbols
        message → All (λ w. w < 2 ^ 32) more → words.now ≡ message ++ more
        → answers.items ≡ symbols) }
    ensures count { IfOk result (λ answers. length answers.items ≡ count) }
    ensures valid { result ≡ Err DecoderFrontendError.InvalidData
        → (first : P.State) (symbols : List P.Symbol) (message more : List ℕ)
        → P.state predictor.old ≡ first → length symbols ≡ count
        → IsMessageFrom (predicted_entry P.rows P.Model.symbol_eq) P.next PRECISION first symbols
        message → All (λ w. w < 2 ^ 32) more → ¬ (words.now ≡ message ++ more) }
{
    let source = Cursor::new_at_write_beginning(words);
    match decode_message(alloc, predictor, count, source) {
        Ok(answers) => Ok(answers),
        Err(CoderError::Frontend(error)) => Err(error),
        Err(CoderError::Backend(never)) => match never {},
    }
}

/// Encodes the symbols and decodes as many. If both predictors begin in one state, the symbols come
/// back, whatever is predicted, and both end in one state.
pub fn message_comes_back<P, const PRECISION: usize>(
    alloc: Global,
    encoding: &mut P,
    decoding: &mut P,
    symbols: &[P::Symbol],
) -> Result<
    Vec<P::Symbol>,
    MessageError<
        CoderError<EncoderFrontendError, AllocError>,
        CoderError<DecoderFrontendError, Infallible>,
    >,
>
where
    P: Predictor<PRECISION>,
    P::Symbol: Drop,
    requires { P.state decoding.old ≡ P.state encoding.old }
    ensures back { IfOk result (λ answers.
        AllZip (StandsForEqual P.Model.stands_for P.Model.symbol_eq) symbols.now answers.items) }
    ensures learned { OnOk result
        (P.state encoding.new ≡ fold P.next (P.state encoding.old) symbols.now) }
    ensures one_state { OnOk result (P.state decoding.new ≡ P.state encoding.new) }
    ensures valid { result
        ≢ Err (MessageError.Decoding (CoderError.Frontend DecoderFrontendError.InvalidData)) }
    ensures err { (error : _) → result ≡ Err (MessageError.Encoding (CoderError.Frontend error))
        → StopsPredicting P.next (predicted_entry P.rows P.Model.symbol_eq) symbols.now error
        (P.state encoding.old) (P.state encoding.new) }
    ensures refused { (error : _) → result ≡ Err (MessageError.Encoding (CoderError.Backend error))
        → FirstAreLearned P.next symbols.now (P.state encoding.old) (P.state encoding.new) }
{
    let words = match encode_message(alloc, encoding, symbols) {
        Ok(words) => words,
        Err(error) => return Err(MessageError::Encoding(error)),
    };
    let source = Cursor::new_at_write_beginning(words);
    match decode_message(alloc, decoding, symbols.len(), source) {
        Ok(answers) => Ok(answers),
        Err(error) => Err(MessageError::Decoding(error)),
    }
}
