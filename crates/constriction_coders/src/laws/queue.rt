//! What comes back from a range coder, each law the contract of a function.

ghost use Rattle.std.specs.Prelude.{◌≡◌, ◌≢◌, ◌++◌, ◌^◌, ◌<◌, ℕ, Bool, List, length, All, Option, Some, None, Err, IsTrue, Contains, IfOk};
ghost use Rattle.std.specs.List.{AllZip};
ghost use Rattle.constriction_coders.specs.Published.{published_entries, published_words};
ghost use Rattle.constriction_coders.specs.Intervals.{IsRead};
ghost use Rattle.constriction_coders.specs.Places.{placed, entry_at, IsDecodedAt};
ghost use Rattle.constriction_coders.specs.RangeLaws.{MessageOnce, RangeMessageComesBack, RangePairsComeBack, RangeSymbolsComeBack, SealedWordsTell};
ghost use Rattle.constriction_coders.specs.RangePositions.{RangePlaceComesBack};
ghost use Rattle.constriction_coders.specs.Spans.{IsMessageOf};
ghost use Rattle.constriction_model.specs.Coding.{StandsForEqual};
ghost use Rattle.constriction_model.specs.Model.{ClonesAreEqual};
ghost use Rattle.constriction_model.specs.Entries.{SameEntries};
ghost use Rattle.constriction_model.specs.Rows.{Row, entry_of};

use crate::decode::Decode;
use crate::encode::Encode;
use crate::laws::MessageError;
use crate::model_word::ModelWord;
use crate::queue::{DecoderFrontendError, RangeDecoder, RangeEncoder};
use constriction_backends::{Cursor, ReadWords};
use constriction_model::{DecoderModel, EncoderModel};
use constriction_words::{CoderError, DefaultEncoderFrontendError, Queue};
use std::alloc::{AllocError, Global};
use std::convert::Infallible;

/// What is encoded by one model and decoded by the other comes back: a symbol, whatever models the
/// symbols before and after it have, and symbols from any span of a message on.
pub fn range_symbols_come_back<D, E, Source, const PRECISION: usize>(decoder: &D, encoder: &E)
where
    D: DecoderModel<PRECISION, Probability: ModelWord>,
    E: EncoderModel<PRECISION, Symbol = D::Symbol, Probability: ModelWord>,
    Source: ReadWords<u32, Queue>,
    requires { SameEntries E.symbol_eq (E.rows encoder.now) (D.rows decoder.now) }
    ensures { RangeSymbolsComeBack D.stands_for E.symbol_eq
        (entry_of E.symbol_eq (E.rows encoder.now)) (D.rows decoder.now) Source.read_gives
        Source.tells_upcoming PRECISION }
{}

/// Symbols that are encoded and decoded in states come back, if `next` leads encoder and decoder
/// from state to state: each symbol by a model of its own, which may depend on those before it.
pub fn range_places_come_back<State, D, Source, const PRECISION: usize>()
where
    D: DecoderModel<PRECISION, Probability: ModelWord>,
    Source: ReadWords<u32, Queue>,
    requires { 0 < PRECISION }
    ensures { (eq : D.Symbol → D.Symbol → Bool) (entry : State → D.Symbol → Option (ℕ × ℕ))
        (rows : State → List (Row D.Symbol)) (next : State → D.Symbol → State) (first : State)
        → ((state : State) (s t : D.Symbol) → StandsForEqual D.stands_for eq s t
        → next state t ≡ next state s)
        → RangeMessageComesBack (placed next first) (entry_at entry) PRECISION (IsDecodedAt eq entry
        rows PRECISION (λ own. IsRead D.stands_for own Source.read_gives PRECISION))
        Source.tells_upcoming (StandsForEqual D.stands_for eq) }
{}

/// Symbols that are encoded by models, a model each, come back by models with the same entries,
/// from any span of a message on.
pub fn range_pairs_come_back<D, E, Source, const PRECISION: usize>()
where
    D: DecoderModel<PRECISION, Probability: ModelWord>,
    E: EncoderModel<PRECISION, Symbol = D::Symbol, Probability: ModelWord>,
    Source: ReadWords<u32, Queue>,
    ensures { RangePairsComeBack E.symbol_eq E.rows D.stands_for D.rows Source.read_gives
        Source.tells_upcoming PRECISION }
{}

/// A decoder goes to a place that was noted while the message was encoded, although a carry may
/// have changed words since.
pub fn range_place_comes_back<Symbol, Source, const PRECISION: usize>()
where
    Source: ReadWords<u32, Queue>,
    requires { 0 < PRECISION }
    ensures { (entry : Symbol → Option (ℕ × ℕ))
        → RangePlaceComesBack entry PRECISION Source.tells_upcoming }
{}

/// The words of an encoder are words of its message, whatever words come after them.
pub fn sealed_words_tell()
    ensures { SealedWordsTell }
{}

/// Symbols have one message, whoever encoded them.
pub fn one_message<Symbol, const PRECISION: usize>()
    ensures { (entry : Symbol → Option (ℕ × ℕ)) → MessageOnce entry PRECISION }
{}

/// The words that the Rust crate publishes are those of their symbols, by the definitions alone.
pub fn published_message()
    ensures { IsMessageOf (λ e. Some e) 24 published_entries published_words }
{}

/// The words of these symbols. It fails only if a symbol has no entry, or if memory is refused.
pub fn message_of<E, const PRECISION: usize>(
    alloc: Global,
    encoder: &E,
    symbols: &[E::Symbol],
) -> Result<Vec<u32>, CoderError<DefaultEncoderFrontendError, AllocError>>
where
    E: EncoderModel<PRECISION, Probability: ModelWord>,
    ensures ok { IfOk result (λ words.
        IsMessageOf (entry_of E.symbol_eq (E.rows encoder.now)) PRECISION symbols.now words.items) }
    ensures impossible { result ≡ Err
        (CoderError.Frontend DefaultEncoderFrontendError.ImpossibleSymbol) → (symbol : E.Symbol)
        × Contains symbols.now symbol × (entry_of E.symbol_eq (E.rows encoder.now) symbol ≡ None) }
{
    let mut coder = RangeEncoder::new(alloc);
    match coder.encode_iid_slice(symbols, encoder) {
        Ok(()) => {}
        Err(error) => return Err(error),
    }
    match coder.into_compressed() {
        Ok(words) => Ok(words),
        Err(error) => Err(CoderError::Backend(error)),
    }
}

/// Decodes a message of `count` symbols from a source, which may have other words after it.
pub fn message_from<D, E, Source, const PRECISION: usize>(
    alloc: Global,
    source: Source,
    count: usize,
    decoder: &D,
    encoder: &E,
) -> Result<Vec<D::Symbol>, CoderError<DecoderFrontendError, Source::ReadError>>
where
    D: DecoderModel<PRECISION, Probability: ModelWord>,
    D::Symbol: Drop,
    E: EncoderModel<PRECISION, Symbol = D::Symbol, Probability: ModelWord>,
    Source: ReadWords<u32, Queue> + Drop,
    requires alike { SameEntries E.symbol_eq (E.rows encoder.now) (D.rows decoder.now) }
    requires can_read { Source.can_read source }
    ensures back { IfOk result (λ answers. (symbols : List D.Symbol) (words more : List ℕ)
        → length symbols ≡ count → IsMessageOf (entry_of E.symbol_eq (E.rows encoder.now)) PRECISION
        symbols words → All (λ w. w < 2 ^ 32) more → Source.tells_upcoming source (words ++ more)
        → AllZip (StandsForEqual D.stands_for E.symbol_eq) symbols answers.items) }
    ensures count { IfOk result (λ answers. length answers.items ≡ count) }
    ensures valid { result ≡ Err (CoderError.Frontend DecoderFrontendError.InvalidData)
        → (symbols : List D.Symbol) (words more : List ℕ) → length symbols ≡ count
        → IsMessageOf (entry_of E.symbol_eq (E.rows encoder.now)) PRECISION symbols words
        → All (λ w. w < 2 ^ 32) more → ¬ (Source.tells_upcoming source (words ++ more)) }
{
    range_symbols_come_back::<D, E, Source, PRECISION>(decoder, encoder);
    let mut opened = match RangeDecoder::from_compressed(source) {
        Ok(opened) => opened,
        Err(error) => return Err(CoderError::Backend(error)),
    };
    match opened.decode_iid_vec(alloc, count, decoder) {
        Ok(answers) => Ok(answers),
        Err(error) => Err(error),
    }
}

/// Encodes the symbols and decodes as many. It fails only if a symbol has no entry, or if memory is
/// refused.
pub fn message_comes_back<D, E, const PRECISION: usize>(
    alloc: Global,
    decoder: &D,
    encoder: &E,
    symbols: &[D::Symbol],
) -> Result<
    Vec<D::Symbol>,
    MessageError<
        CoderError<DefaultEncoderFrontendError, AllocError>,
        CoderError<DecoderFrontendError, Infallible>,
    >,
>
where
    D: DecoderModel<PRECISION, Probability: ModelWord>,
    D::Symbol: Drop,
    E: EncoderModel<PRECISION, Symbol = D::Symbol, Probability: ModelWord>,
    requires { SameEntries E.symbol_eq (E.rows encoder.now) (D.rows decoder.now) }
    ensures back { IfOk result (λ answers.
        AllZip (StandsForEqual D.stands_for E.symbol_eq) symbols.now answers.items) }
    ensures equal { IfOk result (λ answers. ClonesAreEqual E.symbol_eq D.stands_for
        → AllZip (λ symbol answer. IsTrue (E.symbol_eq answer symbol)) symbols.now answers.items) }
    ensures impossible { result ≡ Err
        (MessageError.Encoding (CoderError.Frontend DefaultEncoderFrontendError.ImpossibleSymbol))
        → (symbol : D.Symbol) × Contains symbols.now symbol
        × (entry_of E.symbol_eq (E.rows encoder.now) symbol ≡ None) }
    ensures valid { result
        ≢ Err (MessageError.Decoding (CoderError.Frontend DecoderFrontendError.InvalidData)) }
{
    let words = match message_of(alloc, encoder, symbols) {
        Ok(words) => words,
        Err(error) => return Err(MessageError::Encoding(error)),
    };
    let source = Cursor::new_at_write_beginning(words);
    match message_from(alloc, source, symbols.len(), decoder, encoder) {
        Ok(answers) => Ok(answers),
        Err(error) => Err(MessageError::Decoding(error)),
    }
}
