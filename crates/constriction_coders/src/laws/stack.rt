//! What comes back from a stack coder, each law the contract of a function.

ghost use Rattle.std.specs.Prelude.{◌≡◌, ◌≢◌, ◌*◌, ◌%◌, ◌≤◌, ℕ, Bool, List, [], Option, Ok, Err, IsTrue, length, reverse, IfOk, OnOk};
ghost use Rattle.std.specs.Allocator.{alloc_error};
ghost use Rattle.std.specs.Fn.{FnReturnsAt};
ghost use Rattle.std.specs.List.{AllZip};
ghost use Rattle.constriction_coders.specs.AnsCoder.{held_by, ReadsNoState, WritesState};
ghost use Rattle.constriction_coders.specs.BitsBack.{FitTogether, BitsComeBack};
ghost use Rattle.constriction_coders.specs.Compressed.{IsCompressed, IsBinary, HasValidBits};
ghost use Rattle.constriction_coders.specs.Decoding.{DecodingStops};
ghost use Rattle.constriction_coders.specs.Encoding.{EncodingStops};
ghost use Rattle.constriction_coders.specs.Laws.{SymbolsComeBack, PairsComeBack, StackComesBack, EncodedOnce, EncodesThen, IsInvertible, DecodedGoesBack};
ghost use Rattle.constriction_coders.specs.Places.{placed, entry_at, IsDecodedAt};
ghost use Rattle.constriction_coders.specs.Positions.{PlaceComesBack};
ghost use Rattle.constriction_coders.specs.Steps.{Content, content, MayBeHeld, IsEncoded, IsDecoded};
ghost use Rattle.constriction_model.specs.Coding.{InTurn, StandsForEqual};
ghost use Rattle.constriction_model.specs.Model.{ClonesAreEqual};
ghost use Rattle.constriction_model.specs.Entries.{SameEntries};
ghost use Rattle.constriction_model.specs.Rows.{Row, entry_of};

use crate::code::Code;
use crate::decode::Decode;
use crate::encode::Encode;
use crate::laws::MessageError;
use crate::model_word::ModelWord;
use crate::stack::AnsCoder;
use constriction_backends::{ReadWriteError, StackSource, WordStack};
use constriction_model::{DecoderModel, EncoderModel};
use constriction_words::{CoderError, DefaultEncoderFrontendError};
use std::alloc::{AllocError, Global};

/// What is encoded by one model and decoded by the other comes back, whoever encoded it.
pub fn symbols_come_back<D, E, const PRECISION: usize>(decoder: &D, encoder: &E)
where
    D: DecoderModel<PRECISION, Probability: ModelWord>,
    E: EncoderModel<PRECISION, Symbol = D::Symbol, Probability: ModelWord>,
    requires { SameEntries E.symbol_eq (E.rows encoder.now) (D.rows decoder.now) }
    ensures { SymbolsComeBack (entry_of E.symbol_eq (E.rows encoder.now)) PRECISION D.stands_for
        (D.rows decoder.now) E.symbol_eq }
{}

/// Symbols that are encoded and decoded in states come back, the first one on top, if `next` leads
/// from state to state.
pub fn places_come_back<State, D, const PRECISION: usize>()
where
    D: DecoderModel<PRECISION, Probability: ModelWord>,
    ensures { (eq : D.Symbol → D.Symbol → Bool) (entry : State → D.Symbol → Option (ℕ × ℕ))
        (rows : State → List (Row D.Symbol)) (next : State → D.Symbol → State) (first : State)
        → ((state : State) (s t : D.Symbol) → StandsForEqual D.stands_for eq s t → next state t
        ≡ next state s) → StackComesBack (placed next first) (entry_at entry) PRECISION
        (IsDecodedAt eq entry rows PRECISION (λ own. IsDecoded D.stands_for own PRECISION))
        (StandsForEqual D.stands_for eq) }
{}

/// Symbols that are encoded by models, a model each, come back by models with the same entries.
pub fn pairs_come_back<D, E, const PRECISION: usize>()
where
    D: DecoderModel<PRECISION, Probability: ModelWord>,
    E: EncoderModel<PRECISION, Symbol = D::Symbol, Probability: ModelWord>,
    ensures { PairsComeBack E.symbol_eq E.rows D.stands_for D.rows PRECISION }
{}

/// What a coder holds after symbols follows from what it held before, so their words are the same
/// whoever encoded them. A coder that is sought to a place from before them decodes from there.
pub fn encoded_once<Symbol, const PRECISION: usize>()
    requires { PRECISION ≤ 32 }
    ensures once { (entry : Symbol → Option (ℕ × ℕ)) → EncodedOnce entry PRECISION }
    ensures place { (entry : Symbol → Option (ℕ × ℕ)) → PlaceComesBack entry PRECISION }
{}

/// Symbols that were encoded in turn lie on the stack with the last one on top.
pub fn encoded_in_turn<Symbol, const PRECISION: usize>()
    ensures { (entry : Symbol → Option (ℕ × ℕ)) (symbols : List Symbol) (old full : Content)
        → InTurn (λ s under over. IsEncoded (entry s) PRECISION over under) symbols old full
        → InTurn (λ s. IsEncoded (entry s) PRECISION) (reverse symbols) full old }
{}

/// What a coder holds, it may hold. Other laws require this of each content.
pub fn may_be_held<Backend: StackSource<u32>>(coder: &AnsCoder<Backend>)
    ensures { MayBeHeld (held_by coder.now) }
{
    // A read of the state says that it has 64 bits.
    let _state = coder.state;
}

/// Words are those of at most one coder.
pub fn compressed_once()
    ensures { (a b : Content) (all : List ℕ) → IsCompressed a all → IsCompressed b all → a ≡ b }
{}

/// A coder holds the bits of at most one list of words. So [`into_binary`](AnsCoder::into_binary)
/// gives the words of which [`from_binary`](AnsCoder::from_binary) made the coder, also if symbols
/// were decoded and encoded again in between. It holds those of some words if it holds something
/// and its bits fill words.
pub fn binary_comes_back()
    ensures once { (held : Content) (words others : List ℕ) → IsBinary held words
        → IsBinary held others → words ≡ others }
    ensures filled { (held : Content) (words : List ℕ) (bits : ℕ) → HasValidBits held bits
        → IsBinary held words → bits ≡ 32 * length words }
    ensures words { (held : Content) (bits : ℕ) → MayBeHeld held → HasValidBits held bits
        → bits % 32 ≡ 0 → held ≢ content 0 [] → (words : List ℕ) × IsBinary held words }
{}

/// A symbol that was decoded goes back, if the symbols of the rows differ and clones equal their
/// symbols.
pub fn decoded_goes_back<D, E, const PRECISION: usize>(decoder: &D, encoder: &E)
where
    D: DecoderModel<PRECISION, Probability: ModelWord>,
    E: EncoderModel<PRECISION, Symbol = D::Symbol, Probability: ModelWord>,
    requires alike { SameEntries E.symbol_eq (E.rows encoder.now) (D.rows decoder.now) }
    requires invertible { IsInvertible E.symbol_eq D.stands_for (D.rows decoder.now) }
    ensures { DecodedGoesBack (entry_of E.symbol_eq (E.rows encoder.now)) PRECISION D.stands_for
        (D.rows decoder.now) }
{
    encoded_once::<E::Symbol, PRECISION>();
}

/// Encodes the symbols and decodes as many again, in reverse.
pub fn there_and_back<Backend, D, E, const PRECISION: usize>(
    alloc: Global,
    coder: &mut AnsCoder<Backend>,
    decoder: &D,
    encoder: &E,
    symbols: &[D::Symbol],
) -> Result<
    Vec<D::Symbol>,
    MessageError<
        CoderError<DefaultEncoderFrontendError, Backend::WriteError>,
        CoderError<AllocError, Backend::ReadError>,
    >,
>
where
    Backend: WordStack<u32>,
    D: DecoderModel<PRECISION, Probability: ModelWord>,
    D::Symbol: Drop,
    E: EncoderModel<PRECISION, Symbol = D::Symbol, Probability: ModelWord>,
    requires { SameEntries E.symbol_eq (E.rows encoder.now) (D.rows decoder.now) }
    ensures back { IfOk result (λ answers.
        AllZip (StandsForEqual D.stands_for E.symbol_eq) (reverse symbols.now) answers.items) }
    ensures equal { IfOk result (λ answers. ClonesAreEqual E.symbol_eq D.stands_for → AllZip
        (λ symbol answer. IsTrue (E.symbol_eq answer symbol)) (reverse symbols.now) answers.items) }
    ensures coded { IfOk result (λ answers. EncodesThen (entry_of E.symbol_eq (E.rows encoder.now))
        PRECISION (reverse symbols.now) (held_by coder.old) (λ full.
        InTurn (IsDecoded D.stands_for (D.rows decoder.now) PRECISION) answers.items full
        (held_by coder.new))) }
    ensures same { OnOk result (held_by coder.new ≡ held_by coder.old) }
    ensures encoding { (error : _) → result ≡ Err (MessageError.Encoding error) → EncodingStops
        ⟦<AnsCoder<Backend> as Code>⟧.held ⟦<AnsCoder<Backend> as Encode<PRECISION>>⟧.is_encoded
        ⟦<AnsCoder<Backend> as Encode<PRECISION>>⟧.encodes
        (entry_of E.symbol_eq (E.rows encoder.now)) symbols.now error (held_by coder.old)
        coder.new }
    ensures decoding { (error : _) → result ≡ Err (MessageError.Decoding error)
        → EncodesThen (entry_of E.symbol_eq (E.rows encoder.now)) PRECISION (reverse symbols.now)
        (held_by coder.old) (λ full. DecodingStops ⟦<AnsCoder<Backend> as Code>⟧.held
        (IsDecoded D.stands_for (D.rows decoder.now) PRECISION)
        (⟦<AnsCoder<Backend> as Decode<PRECISION>>⟧.decodes D.Symbol D.may_refuse
        (D.rows decoder.now)) (λ error. error ≡ alloc_error) (length symbols.now) error full
        coder.new) }
{
    symbols_come_back::<D, E, PRECISION>(decoder, encoder);
    encoded_in_turn::<E::Symbol, PRECISION>();
    match coder.encode_iid_slice(symbols, encoder) {
        Ok(()) => {}
        Err(error) => return Err(MessageError::Encoding(error)),
    }
    match coder.decode_iid_vec(alloc, symbols.len(), decoder) {
        Ok(answers) => Ok(answers),
        Err(error) => Err(MessageError::Decoding(error)),
    }
}

/// Decodes a symbol and encodes it again. If a write fails, the symbol stays decoded.
pub fn back_and_there<Backend, D, E, const PRECISION: usize>(
    coder: &mut AnsCoder<Backend>,
    decoder: &D,
    encoder: &E,
) -> Result<
    D::Symbol,
    MessageError<
        CoderError<DefaultEncoderFrontendError, Backend::WriteError>,
        CoderError<AllocError, Backend::ReadError>,
    >,
>
where
    Backend: WordStack<u32>,
    D: DecoderModel<PRECISION, Probability: ModelWord>,
    D::Symbol: Drop,
    E: EncoderModel<PRECISION, Symbol = D::Symbol, Probability: ModelWord>,
    requires alike { SameEntries E.symbol_eq (E.rows encoder.now) (D.rows decoder.now) }
    requires invertible { IsInvertible E.symbol_eq D.stands_for (D.rows decoder.now) }
    ensures symbol { IfOk result (λ symbol. (rest : Content)
        × IsDecoded D.stands_for (D.rows decoder.now) PRECISION symbol (held_by coder.old) rest) }
    ensures same { OnOk result (held_by coder.new ≡ held_by coder.old) }
    ensures decoding { (error : _) → result ≡ Err (MessageError.Decoding error)
        → held_by coder.new ≡ held_by coder.old }
    ensures encoding { (error : _) → result ≡ Err (MessageError.Encoding error)
        → (symbol : D.Symbol) × IsDecoded D.stands_for (D.rows decoder.now) PRECISION symbol
        (held_by coder.old) (held_by coder.new) }
    ensures possible { (fault : _)
        → result ≢ Err (MessageError.Encoding (CoderError.Frontend fault)) }
{
    decoded_goes_back::<D, E, PRECISION>(decoder, encoder);
    may_be_held(coder);
    let symbol = match coder.decode_symbol(decoder) {
        Ok(symbol) => symbol,
        Err(error) => return Err(MessageError::Decoding(error)),
    };
    match coder.encode_symbol(&symbol, encoder) {
        Ok(()) => {
            may_be_held(coder);
            Ok(symbol)
        }
        Err(error) => Err(MessageError::Encoding(error)),
    }
}

/// Symbols that [`encode`](crate::stack::bits_back::encode) encoded and
/// [`decode`](crate::stack::bits_back::decode) decoded come back, if the models fit together.
/// `decode` then fails only if memory is refused.
pub fn bits_come_back<
    Symbol,
    Latent,
    PosteriorModel: EncoderModel<POSTERIOR_PRECISION, Probability: ModelWord>
        + DecoderModel<POSTERIOR_PRECISION, Symbol = Latent>,
    LikelihoodModel: EncoderModel<LIKELIHOOD_PRECISION, Probability: ModelWord>
        + DecoderModel<LIKELIHOOD_PRECISION, Symbol = Symbol>,
    Prior: EncoderModel<PRIOR_PRECISION, Probability: ModelWord>
        + DecoderModel<PRIOR_PRECISION, Symbol = Latent>,
    Posterior: Fn(&Symbol) -> PosteriorModel,
    Likelihood: Fn(&Latent) -> LikelihoodModel,
    const POSTERIOR_PRECISION: usize,
    const LIKELIHOOD_PRECISION: usize,
    const PRIOR_PRECISION: usize,
>(posterior: &Posterior, likelihood: &Likelihood, prior: &Prior)
    requires { FitTogether (FnReturnsAt Posterior.Fn posterior.now) PosteriorModel.rows
        PosteriorModel.symbol_eq PosteriorModel.stands_for
        (FnReturnsAt Likelihood.Fn likelihood.now) LikelihoodModel.rows LikelihoodModel.symbol_eq
        LikelihoodModel.stands_for Prior.symbol_eq Prior.stands_for }
    ensures { BitsComeBack (FnReturnsAt Posterior.Fn posterior.now) PosteriorModel.rows
        PosteriorModel.symbol_eq PosteriorModel.stands_for
        (FnReturnsAt Likelihood.Fn likelihood.now) LikelihoodModel.rows LikelihoodModel.symbol_eq
        LikelihoodModel.stands_for Prior.symbol_eq Prior.stands_for (Prior.rows prior.now)
        POSTERIOR_PRECISION LIKELIHOOD_PRECISION PRIOR_PRECISION }
{}

/// Turns a coder into words, and these into a coder again.
pub fn compressed_comes_back<Backend: WordStack<u32> + Drop>(
    coder: AnsCoder<Backend>,
) -> Result<
    AnsCoder<Backend>,
    ReadWriteError<CoderError<Backend, Backend::ReadError>, Backend::WriteError>,
>
    ensures same { IfOk result (λ again. held_by again ≡ held_by coder) }
    ensures between { IfOk result (λ _. (between : Backend)
        × IsCompressed (held_by coder) (Backend.words_of between)) }
    ensures accepted { (left : _) → result ≢ Err (ReadWriteError.Read (CoderError.Frontend left)) }
    ensures unwritten { (error : _) → result ≡ Err (ReadWriteError.Write error)
        → WritesState Backend.write_gives coder (Err error) }
    ensures unread { (error : _) → result ≡ Err (ReadWriteError.Read error)
        → (between : Backend) × WritesState Backend.write_gives coder (Ok between)
        × ReadsNoState Backend.read_gives between error }
{
    match coder.into_compressed() {
        Ok(words) => match AnsCoder::from_compressed(words) {
            Ok(again) => Ok(again),
            Err(error) => Err(ReadWriteError::Read(error)),
        },
        Err(error) => Err(ReadWriteError::Write(error)),
    }
}
