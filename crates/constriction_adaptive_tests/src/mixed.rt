//! What callers who code bytes by a mixer, or by the byte before, learn from contracts alone. A
//! body that answers otherwise does not meet these contracts.

ghost use Rattle.std.specs.Prelude.{◌≡◌, ◌≢◌, ◌^◌, [], ◌∷◌, ℕ, List, Err, IfOk, OnOk, fold, length};
ghost use Rattle.std.specs.Bool.{beq};
ghost use Rattle.constriction_coders.specs.Places.{IsMessageFrom};
ghost use Rattle.constriction_adaptive.specs.Numbers.{all_bits, AreReadFrom};
ghost use Rattle.constriction_adaptive.specs.Contexts.{contexts_after};
ghost use Rattle.constriction_adaptive.specs.Mixer.{mixer_after, mixer_begun, mixer_rows};
ghost use Rattle.constriction_adaptive.specs.Predicted.{predicted_entry};

use crate::checks::{holds, same};
use constriction::backends::Cursor;
use constriction_adaptive::bytes::{bytes_come_back, decode_bytes, decode_bytes_of, encode_bytes};
use constriction_adaptive::numbers::numbers_are_read_once;
use constriction_adaptive::{Mixer, OrderOne, Predictor};
use constriction_coders::queue::DecoderFrontendError;
use std::alloc::{AllocError, Global};

/// The words of bytes, from which these bytes are read.
fn encoded_by_a_mixer(alloc: Global, bytes: &[u8]) -> Result<Vec<u32>, AllocError>
    ensures message { IfOk result (λ words. IsMessageFrom (predicted_entry mixer_rows beq)
        mixer_after 16 (mixer_begun (1 ∷ 3 ∷ 0 ∷ []) 262144 4194304 6) (all_bits 8 bytes.now)
        words.items) }
    ensures read { IfOk result (λ words. AreReadFrom 8 mixer_rows mixer_after
        (mixer_begun (1 ∷ 3 ∷ 0 ∷ []) 262144 4194304 6) bytes.now words.items) }
{
    let mut mixer = Mixer::<3>::new(alloc, [1, 3, 0], 262_144, 4_194_304, 6)?;
    encode_bytes(alloc, &mut mixer, bytes)
}

/// The bytes that are read from words which were only lent.
fn decoded_by_a_mixer(
    alloc: Global,
    count: usize,
    words: &[u32],
) -> Result<Vec<u8>, DecoderFrontendError>
    ensures read { IfOk result (λ bytes. AreReadFrom 8 mixer_rows mixer_after
        (mixer_begun (1 ∷ 3 ∷ 0 ∷ []) 262144 4194304 6) bytes.items words.now) }
    ensures count { IfOk result (λ bytes. length bytes.items ≡ count) }
    ensures valid { result ≡ Err DecoderFrontendError.InvalidData → (bytes : List ℕ)
        → length bytes ≡ count → ¬ (AreReadFrom 8 mixer_rows mixer_after
        (mixer_begun (1 ∷ 3 ∷ 0 ∷ []) 262144 4194304 6) bytes words.now) }
{
    let Ok(mut mixer) = Mixer::<3>::new(alloc, [1, 3, 0], 262_144, 4_194_304, 6) else {
        return Err(DecoderFrontendError::OutOfMemory);
    };
    decode_bytes_of(alloc, &mut mixer, count, words)
}

/// Encodes bytes and decodes as many. It fails only if memory is refused.
fn by_a_mixer(alloc: Global, bytes: &[u8]) -> Result<Vec<u8>, DecoderFrontendError>
    ensures back { IfOk result (λ answers. answers.items ≡ bytes.now) }
    ensures valid { result ≢ Err DecoderFrontendError.InvalidData }
{
    numbers_are_read_once::<Mixer<3>>();
    let Ok(words) = encoded_by_a_mixer(alloc, bytes) else {
        return Err(DecoderFrontendError::OutOfMemory);
    };
    decoded_by_a_mixer(alloc, bytes.len(), &words)
}

/// Encodes bytes and decodes as many, by the byte before, in one call. Both predictors learn all
/// bits of the bytes, and nothing else.
fn by_the_byte_before(
    alloc: Global,
    encoding: &mut OrderOne,
    decoding: &mut OrderOne,
    bytes: &[u8],
) -> Result<Vec<u8>, AllocError>
    requires { ⟦<OrderOne as Predictor<16>>⟧.state decoding.old
        ≡ ⟦<OrderOne as Predictor<16>>⟧.state encoding.old }
    ensures back { IfOk result (λ again. again.items ≡ bytes.now) }
    ensures learned { OnOk result
        (⟦<OrderOne as Predictor<16>>⟧.state encoding.new ≡ fold (contexts_after 65536 (256 ^ 1))
        (⟦<OrderOne as Predictor<16>>⟧.state encoding.old) (all_bits 8 bytes.now)) }
    ensures one_state { OnOk result (⟦<OrderOne as Predictor<16>>⟧.state decoding.new
        ≡ ⟦<OrderOne as Predictor<16>>⟧.state encoding.new) }
{
    bytes_come_back(alloc, encoding, decoding, bytes)
}

#[test]
fn bytes_come_back_by_a_mixer_of_three_contexts(rt: HostRuntime) {
    let alloc = rt.alloc();
    let text = b"abcabcabcabd";
    match by_a_mixer(alloc, text) {
        Ok(answers) => holds(&rt, &answers, text),
        Err(_) => panic!(rt; "nothing came back"),
    }
}

#[test]
fn bytes_come_back_in_one_call(rt: HostRuntime) {
    let alloc = rt.alloc();
    let text = b"abcabcabcabcabcabcabcabcabcabcabcabcabd";
    let (Ok(mut encoding), Ok(mut decoding), Ok(mut other)) = (
        OrderOne::new(alloc),
        OrderOne::new(alloc),
        OrderOne::new(alloc),
    ) else {
        panic!(rt; "memory was refused");
    };
    match by_the_byte_before(alloc, &mut encoding, &mut decoding, text) {
        Ok(again) => holds(&rt, &again, text),
        Err(_) => panic!(rt; "nothing came back"),
    }
    let (Ok(words), Ok(at_first)) = (
        encode_bytes(alloc, &mut encoding, text),
        encode_bytes(alloc, &mut other, text),
    ) else {
        panic!(rt; "memory was refused");
    };
    same(&rt, words.len() < at_first.len(), true);
    let words = Cursor::new_at_write_beginning(words);
    match decode_bytes(alloc, &mut decoding, text.len(), words) {
        Ok(again) => holds(&rt, &again, text),
        Err(_) => panic!(rt; "the text was not decoded by what both had learned"),
    }
}
