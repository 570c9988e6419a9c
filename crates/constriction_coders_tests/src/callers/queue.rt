//! What callers of a range coder learn from the contracts alone.

ghost use Rattle.std.specs.Prelude.{◌≡◌, IfSome};
ghost use Rattle.std.specs.List.{AllZip};
ghost use Rattle.constriction.specs.Coding.{StandsForEqual};
ghost use Rattle.constriction_backends.specs.Cursor.{buf_of};
ghost use Rattle.constriction_coders.specs.RangeDecoder.{held_by};

use constriction::backends::{Cursor, ReadWords};
use constriction::stream::model::{DecoderModel, EncoderModel};
use constriction::{Pos, Queue};
use constriction_coders::laws::{
    message_comes_back, message_from, message_of, range_place_comes_back, range_places_come_back,
    range_symbols_come_back, sealed_words_tell,
};
use constriction_coders::queue::{EncodedWords, RangeDecoder, RangeEncoder};
use constriction_coders::{Decode, Encode, ModelWord};
use std::alloc::Global;

/// A message by any model that encodes and decodes.
pub fn by_any_model<M, const PRECISION: usize>(
    alloc: Global,
    model: &M,
    symbols: &[M::Symbol],
) -> Option<Vec<M::Symbol>>
where
    M: EncoderModel<PRECISION, Probability: ModelWord> + DecoderModel<PRECISION>,
    M::Symbol: Drop,
    ensures { IfSome result (λ answers.
        AllZip (StandsForEqual M.stands_for M.symbol_eq) symbols.now answers.items) }
{
    message_comes_back::<M, M, PRECISION>(alloc, model, model, symbols).ok()
}

/// A message with other words after it.
pub fn before_other_words<M, const PRECISION: usize>(
    alloc: Global,
    model: &M,
    symbols: &[M::Symbol],
    others: &[u32],
) -> Option<Vec<M::Symbol>>
where
    M: EncoderModel<PRECISION, Probability: ModelWord> + DecoderModel<PRECISION>,
    M::Symbol: Drop,
    ensures { IfSome result (λ answers.
        AllZip (StandsForEqual M.stands_for M.symbol_eq) symbols.now answers.items) }
{
    let Ok(mut words) = message_of::<M, PRECISION>(alloc, model, symbols) else {
        return None;
    };
    match words.extend_from_slice(others) {
        Ok(()) => {}
        Err(_) => return None,
    }
    let source = Cursor::new_at_write_beginning(words);
    match message_from::<M, M, _, PRECISION>(alloc, source, symbols.len(), model, model) {
        Ok(answers) => Some(answers),
        Err(_) => None,
    }
}

/// Symbols that are decoded while the encoder stays.
pub fn while_encoding<M, const PRECISION: usize>(
    alloc: Global,
    model: &M,
    symbols: &[M::Symbol],
) -> Option<Vec<M::Symbol>>
where
    M: EncoderModel<PRECISION, Probability: ModelWord> + DecoderModel<PRECISION>,
    M::Symbol: Drop,
    ensures { IfSome result (λ answers.
        AllZip (StandsForEqual M.stands_for M.symbol_eq) symbols.now answers.items) }
{
    range_symbols_come_back::<M, M, EncodedWords, PRECISION>(model, model);
    let mut coder = RangeEncoder::new(alloc);
    match coder.encode_iid_slice::<M>(symbols, model) {
        Ok(()) => {}
        Err(_) => return None,
    }
    let mut decoder = coder.decoder();
    match decoder.decode_iid_vec::<M>(alloc, symbols.len(), model) {
        Ok(answers) => Some(answers),
        Err(_) => None,
    }
}

/// The second part of a message, decoded from the place that was noted before it.
pub fn from_a_place<M, const PRECISION: usize>(
    alloc: Global,
    model: &M,
    first: &[M::Symbol],
    second: &[M::Symbol],
) -> Option<Vec<M::Symbol>>
where
    M: EncoderModel<PRECISION, Probability: ModelWord> + DecoderModel<PRECISION>,
    M::Symbol: Drop,
    ensures { IfSome result (λ answers.
        AllZip (StandsForEqual M.stands_for M.symbol_eq) second.now answers.items) }
{
    range_place_comes_back::<M::Symbol, Cursor<u32, Vec<u32>>, PRECISION>();
    range_symbols_come_back::<M, M, Cursor<u32, Vec<u32>>, PRECISION>(model, model);
    sealed_words_tell();
    let mut coder = RangeEncoder::new(alloc);
    match coder.encode_iid_slice::<M>(first, model) {
        Ok(()) => {}
        Err(_) => return None,
    }
    let place = coder.pos();
    match coder.encode_iid_slice::<M>(second, model) {
        Ok(()) => {}
        Err(_) => return None,
    }
    let Ok(words) = coder.into_compressed() else {
        return None;
    };
    let Ok(mut decoder) = RangeDecoder::from_compressed(Cursor::new_at_write_beginning(words))
    else {
        return None;
    };
    match decoder.seek(place) {
        Ok(()) => {}
        Err(()) => unreachable!(),
    }
    match decoder.decode_iid_vec::<M>(alloc, second.len(), model) {
        Ok(answers) => Some(answers),
        Err(_) => None,
    }
}

/// A symbol from a cursor that is lent to a decoder. The cursor keeps its words.
pub fn from_a_lent_cursor<D, const PRECISION: usize>(
    model: &D,
    cursor: &mut Cursor<u32, Vec<u32>>,
) -> Option<D::Symbol>
where
    D: DecoderModel<PRECISION, Probability: ModelWord>,
    D::Symbol: Drop,
    ensures { buf_of cursor.new ≡ buf_of cursor.old }
{
    let mut decoder = match RangeDecoder::from_compressed(&mut *cursor) {
        Ok(decoder) => decoder,
        Err(never) => match never {},
    };
    match decoder.decode_symbol(model) {
        Ok(symbol) => Some(symbol),
        Err(_) => None,
    }
}

/// A decoder that is taken apart and made of its parts again.
pub fn put_together<Source: ReadWords<u32, Queue> + Drop>(
    decoder: RangeDecoder<Source>,
) -> RangeDecoder<Source>
    ensures { held_by result ≡ held_by decoder }
{
    let (source, range, offset) = decoder.into_raw_parts();
    match RangeDecoder::from_raw_parts(source, range, offset) {
        Ok(decoder) => decoder,
        Err(_) => unreachable!(),
    }
}

/// A message of two symbols, each by a model of its own.
pub fn by_two_models<M, N, const FIRST: usize, const SECOND: usize>(
    alloc: Global,
    first: &M,
    second: &N,
    symbol: &M::Symbol,
    other: &N::Symbol,
) -> Option<(M::Symbol, N::Symbol)>
where
    M: EncoderModel<FIRST, Probability: ModelWord> + DecoderModel<FIRST>,
    N: EncoderModel<SECOND, Probability: ModelWord> + DecoderModel<SECOND>,
    M::Symbol: Drop,
    N::Symbol: Drop,
    ensures { IfSome result (λ answers. StandsForEqual M.stands_for M.symbol_eq symbol.now answers.0
        × StandsForEqual N.stands_for N.symbol_eq other.now answers.1) }
{
    range_symbols_come_back::<M, M, Cursor<u32, Vec<u32>>, FIRST>(first, first);
    range_symbols_come_back::<N, N, Cursor<u32, Vec<u32>>, SECOND>(second, second);
    let mut coder = RangeEncoder::new(alloc);
    match coder.encode_symbol::<M>(symbol, first) {
        Ok(()) => {}
        Err(_) => return None,
    }
    match coder.encode_symbol::<N>(other, second) {
        Ok(()) => {}
        Err(_) => return None,
    }
    let Ok(words) = coder.into_compressed() else {
        return None;
    };
    let Ok(mut opened) = RangeDecoder::from_compressed(Cursor::new_at_write_beginning(words)) else {
        return None;
    };
    let Ok(answer) = opened.decode_symbol::<M>(first) else {
        return None;
    };
    match opened.decode_symbol::<N>(second) {
        Ok(last) => Some((answer, last)),
        Err(_) => None,
    }
}

/// A message of two symbols, each by a model of its own, from the law of places: the state says
/// whether the first symbol is to come.
pub fn in_two_states<M, const PRECISION: usize>(
    alloc: Global,
    first: &M,
    second: &M,
    symbol: &M::Symbol,
    other: &M::Symbol,
) -> Option<(M::Symbol, M::Symbol)>
where
    M: EncoderModel<PRECISION, Probability: ModelWord> + DecoderModel<PRECISION>,
    M::Symbol: Drop,
    ensures { IfSome result (λ answers. StandsForEqual M.stands_for M.symbol_eq symbol.now answers.0
        × StandsForEqual M.stands_for M.symbol_eq other.now answers.1) }
{
    range_places_come_back::<bool, M, Cursor<u32, Vec<u32>>, PRECISION>();
    let mut coder = RangeEncoder::new(alloc);
    match coder.encode_symbol::<M>(symbol, first) {
        Ok(()) => {}
        Err(_) => return None,
    }
    match coder.encode_symbol::<M>(other, second) {
        Ok(()) => {}
        Err(_) => return None,
    }
    let Ok(words) = coder.into_compressed() else {
        return None;
    };
    let Ok(mut opened) = RangeDecoder::from_compressed(Cursor::new_at_write_beginning(words)) else {
        return None;
    };
    let Ok(answer) = opened.decode_symbol::<M>(first) else {
        return None;
    };
    match opened.decode_symbol::<M>(second) {
        Ok(last) => Some((answer, last)),
        Err(_) => None,
    }
}
