//! Callers of a stack coder, proved from the contracts alone: words of another program, and
//! bits-back coding.

ghost use Rattle.std.specs.Prelude.{◌+◌, ◌%◌, ◌≡◌, Err, IfOk, IfSome, List, length};
ghost use Rattle.std.specs.List.{AllZip};
ghost use Rattle.constriction.specs.Coding.{StandsForEqual};
ghost use Rattle.constriction.specs.Rows.{entry_of, uniform_rows};
ghost use Rattle.constriction_coders.specs.AnsCoder.{held_by};
ghost use Rattle.constriction_coders.specs.StackMessages.{IsStackOf};

use constriction::backends::Cursor;
use constriction::laws::contiguous_symbols_differ;
use constriction::stream::model::{DecoderModel, EncoderModel, EntropyModel, UniformModel};
use constriction::{CoderError, Pos, Seek};
use constriction_coders::laws::{
    back_and_there, binary_comes_back, bits_come_back, encoded_once, may_be_held, symbols_come_back,
};
use constriction_coders::stack::AnsCoder;
use constriction_coders::stack::bits_back::{decode, encode};
use constriction_coders::{Decode, ModelWord};
use std::alloc::Global;

/// Why no symbols were decoded.
#[derive(Debug, PartialEq, Eq, Drop)]
pub enum WordsError {
    /// The words are not those of `count` symbols.
    OtherWords,
    /// Memory for the symbols was refused.
    OutOfMemory,
}

/// The words of symbols, the first one on top.
pub fn words_of_symbols<E, const PRECISION: usize>(
    alloc: Global,
    encoder: &E,
    symbols: &[E::Symbol],
) -> Option<Vec<u32>>
where
    E: EncoderModel<PRECISION, Probability: ModelWord>,
    ensures { IfSome result (λ words.
        IsStackOf (entry_of E.symbol_eq (E.rows encoder.now)) PRECISION symbols.now words.items) }
{
    let mut coder = AnsCoder::new(alloc);
    match coder.encode_iid_slice_reverse(symbols, encoder) {
        Ok(()) => {}
        Err(_) => return None,
    }
    match coder.into_compressed() {
        Ok(words) => Some(words),
        Err(_) => None,
    }
}

/// Decodes `count` symbols from words that are only lent. If these are the words of `count`
/// symbols, the symbols come back, and the words are not refused.
pub fn symbols_of_words<M, const PRECISION: usize>(
    alloc: Global,
    model: &M,
    words: &[u32],
    count: usize,
) -> Result<Vec<M::Symbol>, WordsError>
where
    M: EncoderModel<PRECISION, Probability: ModelWord> + DecoderModel<PRECISION>,
    M::Symbol: Drop,
    ensures back { IfOk result (λ answers. (symbols : List M.Symbol) → length symbols ≡ count
        → IsStackOf (entry_of M.symbol_eq (M.rows model.now)) PRECISION symbols words.now
        → AllZip (StandsForEqual M.stands_for M.symbol_eq) symbols answers.items) }
    ensures accepted { result ≡ Err WordsError.OtherWords → (symbols : List M.Symbol)
        → length symbols ≡ count
        → ¬ (IsStackOf (entry_of M.symbol_eq (M.rows model.now)) PRECISION symbols words.now) }
{
    encoded_once::<M::Symbol, PRECISION>();
    symbols_come_back::<M, M, PRECISION>(model, model);
    let mut coder = match AnsCoder::from_compressed(Cursor::new_at_write_end(words)) {
        Ok(coder) => coder,
        Err(CoderError::Frontend(_)) => return Err(WordsError::OtherWords),
        Err(CoderError::Backend(error)) => match error {},
    };
    let Ok(answers) = coder.decode_iid_vec(alloc, count, model) else {
        return Err(WordsError::OutOfMemory);
    };
    if !coder.is_empty() {
        return Err(WordsError::OtherWords);
    }
    Ok(answers)
}

/// Symbols that were encoded before others, decoded from words that are only lent, at the place
/// that was noted after them.
pub fn from_a_place<M, const PRECISION: usize>(
    alloc: Global,
    model: &M,
    first: &[M::Symbol],
    later: &[M::Symbol],
) -> Option<Vec<M::Symbol>>
where
    M: EncoderModel<PRECISION, Probability: ModelWord> + DecoderModel<PRECISION>,
    M::Symbol: Drop,
    ensures { IfSome result (λ answers.
        AllZip (StandsForEqual M.stands_for M.symbol_eq) first.now answers.items) }
{
    encoded_once::<M::Symbol, PRECISION>();
    symbols_come_back::<M, M, PRECISION>(model, model);
    let mut coder = AnsCoder::new(alloc);
    match coder.encode_iid_slice_reverse(first, model) {
        Ok(()) => {}
        Err(_) => return None,
    }
    may_be_held(&coder);
    let place = coder.pos();
    match coder.encode_iid_slice_reverse(later, model) {
        Ok(()) => {}
        Err(_) => return None,
    }
    let words = match coder.into_compressed() {
        Ok(words) => words,
        Err(_) => return None,
    };
    let Ok(mut decoder) = AnsCoder::from_compressed(Cursor::new_at_write_end(words.as_slice()))
    else {
        return None;
    };
    match decoder.seek(place) {
        Ok(()) => {}
        Err(()) => unreachable!(),
    }
    match decoder.decode_iid_vec(alloc, first.len(), model) {
        Ok(answers) => Some(answers),
        Err(_) => None,
    }
}

/// Numbers below a range.
type Numbers = UniformModel<u32, 24>;

/// Latent numbers by the posterior, over words of 8 bits.
type Latents = UniformModel<u8, 6>;

/// Numbers by the likelihood, over words of 16 bits.
type Likely = UniformModel<u16, 12>;

/// The model of latent numbers that a number chooses. It is the same for all: three numbers of the
/// same weight.
fn posterior(_symbol: &usize) -> Latents
    ensures { ⟦<Latents as EntropyModel<6>>⟧.rows result ≡ uniform_rows 6 3 }
{
    Latents::new(3)
}

/// The model of numbers that a latent number chooses.
fn likelihood(latent: &usize) -> Likely
    ensures { ⟦<Likely as EntropyModel<12>>⟧.rows result ≡ uniform_rows 12 (2 + latent.now % 4) }
{
    Likely::new(2 + *latent % 4)
}

/// A number that is encoded by way of a latent one comes back, and so does what the coder held. The
/// three models have three words and three precisions.
pub fn by_a_latent_number(coder: &mut AnsCoder<Vec<u32>>, symbol: usize) -> Option<usize>
    ensures symbol { IfSome result (λ answer. answer ≡ symbol) }
    ensures coder { IfSome result (λ _. held_by coder.new ≡ held_by coder.old) }
{
    contiguous_symbols_differ();
    let prior = Numbers::new(4);
    bits_come_back(&posterior, &likelihood, &prior);
    // The law requires of both contents that a coder may hold them.
    may_be_held(coder);
    match encode(coder, &symbol, posterior, likelihood, &prior) {
        Ok(()) => {}
        Err(_) => return None,
    }
    match decode(coder, posterior, likelihood, &prior) {
        Ok(answer) => {
            may_be_held(coder);
            Some(answer)
        }
        Err(CoderError::Frontend(_)) => unreachable!(),
        Err(CoderError::Backend(_)) => None,
    }
}

/// A number is decoded from any words and encoded again, and the words come back.
pub fn through_a_number(words: Vec<u32>) -> Option<Vec<u32>>
    ensures { IfSome result (λ again. again.items ≡ words.items) }
{
    contiguous_symbols_differ();
    binary_comes_back();
    let model = Numbers::new(3);
    let mut coder = match AnsCoder::from_binary(words) {
        Ok(coder) => coder,
        Err(error) => match error {},
    };
    match back_and_there(&mut coder, &model, &model) {
        Ok(_) => {}
        Err(_) => return None,
    }
    match coder.into_binary() {
        Ok(again) => Some(again),
        Err(Some(_)) => None,
        Err(None) => unreachable!(),
    }
}
