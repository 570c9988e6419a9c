//! Bytes by a predictor of their bits, in a range coder: [`numbers`](crate::numbers) of 8 bits.

ghost use Rattle.std.specs.Prelude.{◌≡◌, ◌≢◌, ◌++◌, ◌^◌, ◌<◌, ℕ, Bool, List, Err, All, IfOk, OnErr, OnOk, IfErr, length, fold};
ghost use Rattle.std.specs.Allocator.{alloc_error};
ghost use Rattle.std.specs.Bool.{beq};
ghost use Rattle.constriction_coders.specs.Places.{entry_at, IsMessageFrom};
ghost use Rattle.constriction_coders.specs.RangeDecoder.{held_by};
ghost use Rattle.constriction_coders.specs.Spans.{IsNarrowed};
ghost use Rattle.constriction_adaptive.specs.Numbers.{all_bits, bits_of, AreReadFrom};
ghost use Rattle.constriction_adaptive.specs.Predicted.{predicted_entry, AllTile, AreCoded, AdaptiveDecodingStops, AdaptiveEncodingStops, FirstAreLearned, IsEncodingFault, IsReadIn};

use crate::bit::Bit;
use crate::error::EncoderFrontendError;
use crate::numbers::{
    decode_number, decode_numbers, decode_numbers_of, encode_number, encode_numbers,
    numbers_come_back,
};
use crate::predictor::Predictor;
use constriction_backends::ReadWords;
use constriction_coders::queue::{DecoderFrontendError, RangeDecoder, RangeEncoder};
use constriction_coders::{Code, Decode};
use constriction_model::DecoderModel;
use constriction_words::{CoderError, Queue};
use std::alloc::{AllocError, Global};

/// Encodes the bits of a byte, the highest first.
///
/// It fails as [`encode_next`](crate::queue::encode_next) does, but no bit is impossible. The bits
/// before the one that was not encoded stay encoded and learned.
#[inline]
pub fn encode_byte<P>(
    predictor: &mut P,
    byte: u8,
    encoder: &mut RangeEncoder,
) -> Result<(), CoderError<EncoderFrontendError, AllocError>>
where
    P: Predictor<16, Symbol = bool, Model = Bit>,
    ensures ok { OnOk result
        (AreCoded P.next (λ s. IsNarrowed (entry_at (predicted_entry P.rows beq) s) 16)
        (bits_of 8 byte) (P.state predictor.old) encoder.old (P.state predictor.new) encoder.new) }
    ensures tile { OnOk result (AllTile P.rows P.next 16 (P.state predictor.old) (bits_of 8 byte)) }
    ensures err { IfErr result (λ error.
        AdaptiveEncodingStops P.next (λ s. IsNarrowed (entry_at (predicted_entry P.rows beq) s) 16)
        (IsEncodingFault (entry_at (predicted_entry P.rows beq)) 16 error) (bits_of 8 byte)
        (P.state predictor.old) encoder.old (P.state predictor.new) encoder.new) }
    ensures possible { result ≢ Err (CoderError.Frontend EncoderFrontendError.ImpossibleSymbol) }
{
    encode_number::<P, u8, 8>(predictor, byte, encoder)
}

/// Decodes the bits of a byte.
///
/// It fails as [`decode_next`](crate::decode_next) does. The bits before the one that was not
/// decoded stay decoded and learned.
#[inline]
pub fn decode_byte<P, Source>(
    predictor: &mut P,
    decoder: &mut RangeDecoder<Source>,
) -> Result<u8, CoderError<DecoderFrontendError, Source::ReadError>>
where
    P: Predictor<16, Symbol = bool, Model = Bit>,
    Source: ReadWords<u32, Queue>,
    requires { Source.can_read decoder.old.words }
    ensures goes_on { Source.can_read decoder.new.words }
    ensures ok { IfOk result (λ byte.
        AreCoded P.next (IsReadIn P.rows (λ s t. t ≡ s) beq 16 Source.read_gives) (bits_of 8 byte)
        (P.state predictor.old) (held_by decoder.old) (P.state predictor.new)
        (held_by decoder.new)) }
    ensures err { IfErr result (λ error.
        AdaptiveDecodingStops P.next (IsReadIn P.rows (λ s t. t ≡ s) beq 16 Source.read_gives)
        ⟦<RangeDecoder<Source> as Code>⟧.held
        (⟦<DecoderFrontendError as From<AllocError>>⟧.from_gives alloc_error)
        (λ state. ⟦<RangeDecoder<Source> as Decode<16>>⟧.decodes Bool
        ⟦<Bit as DecoderModel<16>>⟧.may_refuse (P.rows state)) 8 error (P.state predictor.old)
        (held_by decoder.old) (P.state predictor.new) decoder.new) }
{
    decode_number::<P, u8, Source, 8>(predictor, decoder)
}

/// The words of these bytes, from the state of the predictor on, and from which they are read
/// again.
///
/// It fails only if memory is refused.
pub fn encode_bytes<P>(
    alloc: Global,
    predictor: &mut P,
    bytes: &[u8],
) -> Result<Vec<u32>, AllocError>
where
    P: Predictor<16, Symbol = bool, Model = Bit>,
    ensures ok { IfOk result (λ words. IsMessageFrom (predicted_entry P.rows beq) P.next 16
        (P.state predictor.old) (all_bits 8 bytes.now) words.items) }
    ensures read { IfOk result (λ words.
        AreReadFrom 8 P.rows P.next (P.state predictor.old) bytes.now words.items) }
    ensures learned { OnOk result
        (P.state predictor.new ≡ fold P.next (P.state predictor.old) (all_bits 8 bytes.now)) }
    ensures err { OnErr result (FirstAreLearned P.next (all_bits 8 bytes.now)
        (P.state predictor.old) (P.state predictor.new)) }
{
    match encode_numbers::<P, u8, 8>(alloc, predictor, bytes) {
        Ok(words) => Ok(words),
        Err(CoderError::Frontend(EncoderFrontendError::ImpossibleSymbol)) => unreachable!(),
        Err(CoderError::Frontend(EncoderFrontendError::OutOfMemory)) => Err(AllocError),
        Err(CoderError::Backend(error)) => Err(error),
    }
}

/// Decodes `count` bytes from a source, which may have other words after theirs.
///
/// Any words have bytes, except that some are refused as `InvalidData`. Memory is asked for as
/// bytes come, so `count` may come from outside. If it is refused, the error is `OutOfMemory`.
pub fn decode_bytes<P, Source>(
    alloc: Global,
    predictor: &mut P,
    count: usize,
    source: Source,
) -> Result<Vec<u8>, CoderError<DecoderFrontendError, Source::ReadError>>
where
    P: Predictor<16, Symbol = bool, Model = Bit>,
    Source: ReadWords<u32, Queue> + Drop,
    requires { Source.can_read source }
    ensures ok { IfOk result (λ bytes. (words : List ℕ) → Source.tells_upcoming source words
        → AreReadFrom 8 P.rows P.next (P.state predictor.old) bytes.items words) }
    ensures count { IfOk result (λ bytes. length bytes.items ≡ count) }
    ensures learned { IfOk result (λ bytes.
        P.state predictor.new ≡ fold P.next (P.state predictor.old) (all_bits 8 bytes.items)) }
    ensures valid { result ≡ Err (CoderError.Frontend DecoderFrontendError.InvalidData)
        → (bytes words : List ℕ) → length bytes ≡ count → AreReadFrom 8 P.rows P.next
        (P.state predictor.old) bytes words → ¬ (Source.tells_upcoming source words) }
    ensures failed { (error : _) → result ≡ Err (CoderError.Backend error)
        → (reached left : Source) × Source.read_gives reached (Err error) left }
{
    decode_numbers::<P, u8, Source, 8>(alloc, predictor, count, source)
}

/// Decodes `count` bytes from words that are only lent, which may have others after theirs.
///
/// Any words have bytes, except that some are refused as `InvalidData`. If the words begin with a
/// message of as many bytes from the state of the predictor on, these come back. Memory is asked
/// for as bytes come, so `count` may come from outside.
pub fn decode_bytes_of<P>(
    alloc: Global,
    predictor: &mut P,
    count: usize,
    words: &[u32],
) -> Result<Vec<u8>, DecoderFrontendError>
where
    P: Predictor<16, Symbol = bool, Model = Bit>,
    ensures ok { IfOk result (λ bytes. (first : P.State) → P.state predictor.old ≡ first
        → AreReadFrom 8 P.rows P.next first bytes.items words.now
        × (P.state predictor.new ≡ fold P.next first (all_bits 8 bytes.items))) }
    ensures count { IfOk result (λ bytes. length bytes.items ≡ count) }
    ensures back { IfOk result (λ again. (first : P.State) (bytes message more : List ℕ)
        → P.state predictor.old ≡ first → All (λ b. b < 256) bytes → length bytes ≡ count
        → IsMessageFrom (predicted_entry P.rows beq) P.next 16 first (all_bits 8 bytes) message
        → All (λ w. w < 2 ^ 32) more → words.now ≡ message ++ more → again.items ≡ bytes) }
    ensures valid { result ≡ Err DecoderFrontendError.InvalidData
        → (first : P.State) (bytes : List ℕ) → P.state predictor.old ≡ first
        → length bytes ≡ count → ¬ (AreReadFrom 8 P.rows P.next first bytes words.now) }
{
    decode_numbers_of::<P, u8, 8>(alloc, predictor, count, words)
}

/// Encodes the bytes and decodes as many. If both predictors begin in one state, the bytes come
/// back, whatever is predicted, and both end in one state.
///
/// It fails only if memory is refused.
pub fn bytes_come_back<P>(
    alloc: Global,
    encoding: &mut P,
    decoding: &mut P,
    bytes: &[u8],
) -> Result<Vec<u8>, AllocError>
where
    P: Predictor<16, Symbol = bool, Model = Bit>,
    requires { P.state decoding.old ≡ P.state encoding.old }
    ensures back { IfOk result (λ again. again.items ≡ bytes.now) }
    ensures learned { OnOk result
        (P.state encoding.new ≡ fold P.next (P.state encoding.old) (all_bits 8 bytes.now)) }
    ensures one_state { OnOk result (P.state decoding.new ≡ P.state encoding.new) }
    ensures err { OnErr result (FirstAreLearned P.next (all_bits 8 bytes.now)
        (P.state encoding.old) (P.state encoding.new)) }
{
    match numbers_come_back::<P, u8, 8>(alloc, encoding, decoding, bytes) {
        Ok(again) => Ok(again),
        Err(EncoderFrontendError::ImpossibleSymbol) => unreachable!(),
        Err(EncoderFrontendError::OutOfMemory) => Err(AllocError),
    }
}
