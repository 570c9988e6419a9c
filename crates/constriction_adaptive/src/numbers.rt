//! Numbers of a width by a predictor of their bits, in a range coder: samples, or bytes
//! ([`bytes`](crate::bytes)).

ghost use Rattle.std.specs.Prelude.{◌≡◌, ◌≢◌, ◌++◌, ◌^◌, ◌<◌, ◌≤◌, ℕ, Bool, List, None, Err, All, IfOk, OnErr, OnOk, IfErr, length, fold, map};
ghost use Rattle.std.specs.Allocator.{alloc_error};
ghost use Rattle.std.specs.Bool.{beq};
ghost use Rattle.constriction_coders.specs.Places.{entry_at, IsMessageFrom};
ghost use Rattle.constriction_coders.specs.RangeDecoder.{held_by};
ghost use Rattle.constriction_coders.specs.Spans.{IsNarrowed};
ghost use Rattle.constriction_adaptive.specs.Numbers.{all_bits, bits_of, AreReadFrom, NumberEncodingStops};
ghost use Rattle.constriction_adaptive.specs.Predicted.{predicted_entry, AllTile, AreCoded, AdaptiveDecodingStops, AdaptiveEncodingStops, FirstAreLearned, IsEncodingFault, IsNotDecoded, IsReadIn};

use crate::bit::Bit;
use crate::error::EncoderFrontendError;
use crate::predictor::Predictor;
use crate::queue::encode_next;
use constriction_backends::{Cursor, ReadWords};
use constriction_coders::queue::{DecoderFrontendError, RangeDecoder, RangeEncoder};
use constriction_coders::{Code, Decode, ModelWord};
use constriction_model::DecoderModel;
use constriction_words::{CoderError, Queue};
use std::alloc::{AllocError, Global};

/// Both bits have an entry.
#[inline]
fn bits_have_entries<P>(predictor: &P)
where
    P: Predictor<16, Symbol = bool, Model = Bit>,
    ensures { (bit : Bool) → predicted_entry P.rows beq (P.state predictor.now) bit ≢ None }
{
    let _model = predictor.model();
}

/// Encodes the `BITS` bits of a number, the highest first.
///
/// A number of more bits is refused as `ImpossibleSymbol`. It also fails as
/// [`encode_next`](crate::queue::encode_next) does, but no bit is impossible. The bits before the
/// one that was not encoded stay encoded and learned.
#[inline]
pub fn encode_number<P, Number, const BITS: usize>(
    predictor: &mut P,
    number: Number,
    encoder: &mut RangeEncoder,
) -> Result<(), CoderError<EncoderFrontendError, AllocError>>
where
    P: Predictor<16, Symbol = bool, Model = Bit>,
    Number: ModelWord,
    requires { BITS ≤ Number.BITS }
    ensures ok { OnOk result
        (AreCoded P.next (λ s. IsNarrowed (entry_at (predicted_entry P.rows beq) s) 16)
        (bits_of BITS (Number.whole number)) (P.state predictor.old) encoder.old
        (P.state predictor.new) encoder.new) }
    ensures tile { OnOk result (AllTile P.rows P.next 16 (P.state predictor.old)
        (bits_of BITS (Number.whole number))) }
    ensures fits { OnOk result (Number.whole number < 2 ^ BITS) }

    // Exactly the numbers of more bits are refused, and nothing is encoded of them.
    ensures large { result ≡ Err (CoderError.Frontend EncoderFrontendError.ImpossibleSymbol)
        → 2 ^ BITS ≤ Number.whole number }
    ensures same { result ≡ Err (CoderError.Frontend EncoderFrontendError.ImpossibleSymbol)
        → encoder.new ≡ encoder.old }
    ensures unlearned { result ≡ Err (CoderError.Frontend EncoderFrontendError.ImpossibleSymbol)
        → P.state predictor.new ≡ P.state predictor.old }
    ensures err { IfErr result (λ error.
        error ≢ CoderError.Frontend EncoderFrontendError.ImpossibleSymbol → AdaptiveEncodingStops
        P.next (λ s. IsNarrowed (entry_at (predicted_entry P.rows beq) s) 16)
        (IsEncodingFault (entry_at (predicted_entry P.rows beq)) 16 error)
        (bits_of BITS (Number.whole number)) (P.state predictor.old) encoder.old
        (P.state predictor.new) encoder.new) }
{
    let bits = number.to_coder_word() as u64;
    if bits >> BITS != 0 {
        return Err(CoderError::Frontend(EncoderFrontendError::ImpossibleSymbol));
    }
    for done in 0..BITS {
        let bit = (bits >> (BITS - 1 - done)) % 2 == 1;
        match encode_next(predictor, &bit, encoder) {
            Ok(()) => {}
            Err(error) => {
                bits_have_entries(predictor);
                return Err(error);
            }
        }
    }
    Ok(())
}

/// Decodes a bit by the weight that the predictor has for it, and learns it, as
/// [`decode_next`](crate::decode_next) does, but without a division.
#[inline]
fn decode_next_bit<P, Source>(
    predictor: &mut P,
    decoder: &mut RangeDecoder<Source>,
) -> Result<bool, CoderError<DecoderFrontendError, Source::ReadError>>
where
    P: Predictor<16, Symbol = bool, Model = Bit>,
    Source: ReadWords<u32, Queue>,
    requires { Source.can_read decoder.old.words }
    ensures goes_on { Source.can_read decoder.new.words }
    ensures ok { IfOk result (λ bit. IsReadIn P.rows (λ s t. t ≡ s) beq 16 Source.read_gives
        (P.state predictor.old, bit) (held_by decoder.old) (held_by decoder.new)) }
    ensures learned { IfOk result (λ bit.
        P.state predictor.new ≡ P.next (P.state predictor.old) bit) }
    ensures err { IfErr result (λ error. IsNotDecoded
        (⟦<DecoderFrontendError as From<AllocError>>⟧.from_gives alloc_error)
        (⟦<RangeDecoder<Source> as Decode<16>>⟧.decodes Bool
        ⟦<Bit as DecoderModel<16>>⟧.may_refuse (P.rows (P.state predictor.old))) error decoder.old
        decoder.new) }
    ensures unlearned { OnErr result (P.state predictor.new ≡ P.state predictor.old) }
{
    match predictor.reserve() {
        Ok(()) => {}
        Err(error) => return Err(CoderError::Frontend(error.into())),
    }
    let weight = predictor.model().weight();
    match decoder.decode_bit::<16>(weight as u32) {
        Ok(bit) => {
            predictor.learn(&bit);
            Ok(bit)
        }
        Err(error) => Err(error),
    }
}

/// Decodes the bits of a number.
///
/// It fails as [`decode_next`](crate::decode_next) does. The bits before the one that was not
/// decoded stay decoded and learned.
#[inline]
pub fn decode_number<P, Number, Source, const BITS: usize>(
    predictor: &mut P,
    decoder: &mut RangeDecoder<Source>,
) -> Result<Number, CoderError<DecoderFrontendError, Source::ReadError>>
where
    P: Predictor<16, Symbol = bool, Model = Bit>,
    Number: ModelWord,
    Source: ReadWords<u32, Queue>,
    requires can_read { Source.can_read decoder.old.words }
    requires width { BITS ≤ Number.BITS }
    ensures goes_on { Source.can_read decoder.new.words }
    ensures ok { IfOk result (λ number.
        AreCoded P.next (IsReadIn P.rows (λ s t. t ≡ s) beq 16 Source.read_gives)
        (bits_of BITS (Number.whole number)) (P.state predictor.old) (held_by decoder.old)
        (P.state predictor.new) (held_by decoder.new)) }
    ensures fits { IfOk result (λ number. Number.whole number < 2 ^ BITS) }
    ensures err { IfErr result (λ error.
        AdaptiveDecodingStops P.next (IsReadIn P.rows (λ s t. t ≡ s) beq 16 Source.read_gives)
        ⟦<RangeDecoder<Source> as Code>⟧.held
        (⟦<DecoderFrontendError as From<AllocError>>⟧.from_gives alloc_error)
        (λ state. ⟦<RangeDecoder<Source> as Decode<16>>⟧.decodes Bool
        ⟦<Bit as DecoderModel<16>>⟧.may_refuse (P.rows state)) BITS error (P.state predictor.old)
        (held_by decoder.old) (P.state predictor.new) decoder.new) }
{
    let mut number = 0u32;
    for done in 0..BITS {
        let bit = match decode_next_bit(predictor, decoder) {
            Ok(bit) => bit,
            Err(error) => return Err(error),
        };
        number = 2 * number + u32::from(bit);
    }
    Ok(Number::from_coder_word(number))
}

/// The words of these numbers, of `BITS` bits each, from the state of the predictor on, and from
/// which they are read again.
///
/// It fails with `ImpossibleSymbol` only at a number of more bits, after those before it were
/// learned; and otherwise only if memory is refused.
pub fn encode_numbers<P, Number, const BITS: usize>(
    alloc: Global,
    predictor: &mut P,
    numbers: &[Number],
) -> Result<Vec<u32>, CoderError<EncoderFrontendError, AllocError>>
where
    P: Predictor<16, Symbol = bool, Model = Bit>,
    Number: ModelWord,
    requires { BITS ≤ Number.BITS }
    ensures ok { IfOk result (λ words. IsMessageFrom (predicted_entry P.rows beq) P.next 16
        (P.state predictor.old) (all_bits BITS (map Number.whole numbers.now)) words.items) }
    ensures read { IfOk result (λ words. AreReadFrom BITS P.rows P.next (P.state predictor.old)
        (map Number.whole numbers.now) words.items) }
    ensures learned { OnOk result (P.state predictor.new
        ≡ fold P.next (P.state predictor.old) (all_bits BITS (map Number.whole numbers.now))) }
    ensures large { result ≡ Err (CoderError.Frontend EncoderFrontendError.ImpossibleSymbol)
        → ¬ (All (λ n. n < 2 ^ BITS) (map Number.whole numbers.now)) }
    ensures err { IfErr result (λ error. NumberEncodingStops BITS P.next
        (map Number.whole numbers.now) error (P.state predictor.old) (P.state predictor.new)) }
{
    let mut encoder = RangeEncoder::new(alloc);
    for number in numbers {
        match encode_number::<P, Number, BITS>(predictor, *number, &mut encoder) {
            Ok(()) => {}
            Err(error) => return Err(error),
        }
    }
    match encoder.into_compressed() {
        Ok(words) => Ok(words),
        Err(error) => Err(CoderError::Backend(error)),
    }
}

/// Decodes `count` numbers of `BITS` bits each from a source, which may have other words after
/// theirs.
///
/// Any words have numbers, except that some are refused as `InvalidData`. Memory is asked for as
/// numbers come, so `count` may come from outside. If it is refused, the error is `OutOfMemory`.
pub fn decode_numbers<P, Number, Source, const BITS: usize>(
    alloc: Global,
    predictor: &mut P,
    count: usize,
    source: Source,
) -> Result<Vec<Number>, CoderError<DecoderFrontendError, Source::ReadError>>
where
    P: Predictor<16, Symbol = bool, Model = Bit>,
    Number: ModelWord,
    Source: ReadWords<u32, Queue> + Drop,
    requires can_read { Source.can_read source }
    requires width { BITS ≤ Number.BITS }
    ensures ok { IfOk result (λ numbers. (words : List ℕ) → Source.tells_upcoming source words
        → AreReadFrom BITS P.rows P.next (P.state predictor.old) (map Number.whole numbers.items)
        words) }
    ensures count { IfOk result (λ numbers. length numbers.items ≡ count) }
    ensures learned { IfOk result (λ numbers. P.state predictor.new
        ≡ fold P.next (P.state predictor.old) (all_bits BITS (map Number.whole numbers.items))) }
    ensures valid { result ≡ Err (CoderError.Frontend DecoderFrontendError.InvalidData)
        → (numbers words : List ℕ) → length numbers ≡ count → AreReadFrom BITS P.rows P.next
        (P.state predictor.old) numbers words → ¬ (Source.tells_upcoming source words) }
    ensures failed { (error : _) → result ≡ Err (CoderError.Backend error)
        → (reached left : Source) × Source.read_gives reached (Err error) left }
{
    let mut decoder = match RangeDecoder::from_compressed(source) {
        Ok(decoder) => decoder,
        Err(error) => return Err(CoderError::Backend(error)),
    };
    let mut numbers = Vec::new(alloc);
    for done in 0..count {
        let number = match decode_number::<P, Number, Source, BITS>(predictor, &mut decoder) {
            Ok(number) => number,
            Err(error) => return Err(error),
        };
        match numbers.push(number) {
            Ok(()) => {}
            Err(_) => return Err(CoderError::Frontend(DecoderFrontendError::OutOfMemory)),
        }
    }
    Ok(numbers)
}

/// Words, a width and how many numbers there are say which numbers are read.
pub fn numbers_are_read_once<P>()
where
    P: Predictor<16, Symbol = bool, Model = Bit>,
    ensures { (width : ℕ) (first : P.State) (a b words : List ℕ)
        → AreReadFrom width P.rows P.next first a words
        → AreReadFrom width P.rows P.next first b words → length a ≡ length b → a ≡ b }
{}

/// From the words of numbers as many are read as were encoded, and these are the same, whatever
/// words come after them.
pub fn message_is_read<P>()
where
    P: Predictor<16, Symbol = bool, Model = Bit>,
    ensures back { (width : ℕ) (first : P.State) (numbers answers words more : List ℕ)
        → All (λ n. n < 2 ^ width) numbers
        → IsMessageFrom (predicted_entry P.rows beq) P.next 16 first (all_bits width numbers) words
        → All (λ w. w < 2 ^ 32) more
        → AreReadFrom width P.rows P.next first answers (words ++ more)
        → length answers ≡ length numbers → answers ≡ numbers }
    ensures whatever_follows { (width : ℕ) (first : P.State) (numbers words more : List ℕ)
        → AreReadFrom width P.rows P.next first numbers words
        → IsMessageFrom (predicted_entry P.rows beq) P.next 16 first (all_bits width numbers) words
        → All (λ w. w < 2 ^ 32) more
        → AreReadFrom width P.rows P.next first numbers (words ++ more) }
{}

/// Decodes `count` numbers of `BITS` bits each from words that are only lent, which may have others
/// after theirs.
///
/// Any words have numbers, except that some are refused as `InvalidData`. If the words begin with a
/// message of as many numbers from the state of the predictor on, these come back. Memory is asked
/// for as numbers come, so `count` may come from outside.
pub fn decode_numbers_of<P, Number, const BITS: usize>(
    alloc: Global,
    predictor: &mut P,
    count: usize,
    words: &[u32],
) -> Result<Vec<Number>, DecoderFrontendError>
where
    P: Predictor<16, Symbol = bool, Model = Bit>,
    Number: ModelWord,
    requires { BITS ≤ Number.BITS }
    ensures ok { IfOk result (λ numbers. (first : P.State) → P.state predictor.old ≡ first
        → AreReadFrom BITS P.rows P.next first (map Number.whole numbers.items) words.now
        × (P.state predictor.new
        ≡ fold P.next first (all_bits BITS (map Number.whole numbers.items)))) }
    ensures count { IfOk result (λ numbers. length numbers.items ≡ count) }
    ensures back { IfOk result (λ again. (first : P.State) (numbers message more : List ℕ)
        → P.state predictor.old ≡ first → All (λ n. n < 2 ^ BITS) numbers
        → length numbers ≡ count
        → IsMessageFrom (predicted_entry P.rows beq) P.next 16 first (all_bits BITS numbers) message
        → All (λ w. w < 2 ^ 32) more → words.now ≡ message ++ more
        → map Number.whole again.items ≡ numbers) }
    ensures valid { result ≡ Err DecoderFrontendError.InvalidData
        → (first : P.State) (numbers : List ℕ) → P.state predictor.old ≡ first
        → length numbers ≡ count
        → ¬ (AreReadFrom BITS P.rows P.next first numbers words.now) }
{
    message_is_read::<P>();
    let source = Cursor::new_at_write_beginning(words);
    match decode_numbers::<P, Number, _, BITS>(alloc, predictor, count, source) {
        Ok(numbers) => Ok(numbers),
        Err(CoderError::Frontend(error)) => Err(error),
        Err(CoderError::Backend(never)) => match never {},
    }
}

/// Encodes the numbers, of `BITS` bits each, and decodes as many. If both predictors begin in one
/// state, the numbers come back, whatever is predicted, and both end in one state.
///
/// A number of more bits is refused as `ImpossibleSymbol`. Otherwise it fails only if memory is
/// refused.
pub fn numbers_come_back<P, Number, const BITS: usize>(
    alloc: Global,
    encoding: &mut P,
    decoding: &mut P,
    numbers: &[Number],
) -> Result<Vec<Number>, EncoderFrontendError>
where
    P: Predictor<16, Symbol = bool, Model = Bit>,
    Number: ModelWord,
    requires one_state { P.state decoding.old ≡ P.state encoding.old }
    requires width { BITS ≤ Number.BITS }
    ensures back { IfOk result (λ again. again.items ≡ numbers.now) }
    ensures learned { OnOk result (P.state encoding.new
        ≡ fold P.next (P.state encoding.old) (all_bits BITS (map Number.whole numbers.now))) }
    ensures one_state { OnOk result (P.state decoding.new ≡ P.state encoding.new) }
    ensures large { result ≡ Err EncoderFrontendError.ImpossibleSymbol
        → ¬ (All (λ n. n < 2 ^ BITS) (map Number.whole numbers.now)) }
    ensures err { OnErr result
        (FirstAreLearned P.next (all_bits BITS (map Number.whole numbers.now))
        (P.state encoding.old) (P.state encoding.new)) }
{
    numbers_are_read_once::<P>();
    let words = match encode_numbers::<P, Number, BITS>(alloc, encoding, numbers) {
        Ok(words) => words,
        Err(CoderError::Frontend(error)) => return Err(error),
        Err(CoderError::Backend(_)) => return Err(EncoderFrontendError::OutOfMemory),
    };
    let source = Cursor::new_at_write_beginning(words);
    match decode_numbers::<P, Number, _, BITS>(alloc, decoding, numbers.len(), source) {
        Ok(again) => Ok(again),
        Err(CoderError::Frontend(DecoderFrontendError::OutOfMemory)) => {
            Err(EncoderFrontendError::OutOfMemory)
        }
        Err(CoderError::Frontend(DecoderFrontendError::InvalidData)) => unreachable!(),
        Err(CoderError::Backend(never)) => match never {},
    }
}
