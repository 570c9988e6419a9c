//! Coders that become decoders of what they encoded.

ghost use Rattle.std.specs.Prelude.{◌≡◌, ◌≢◌, ℕ, List, IfOk, OnErr};
ghost use Rattle.constriction_coders.specs.RangeDecoder.{held_by};
ghost use Rattle.constriction_coders.specs.RangeLaws.{IsAt};
ghost use Rattle.constriction_coders.specs.Spans.{whole, LeadTo};

use crate::decode::Decode;
use crate::encode::Encode;
use crate::laws::sealed_words_tell;
use crate::queue::{RangeDecoder, RangeEncoder};
use crate::stack::AnsCoder;
use constriction_backends::{Cursor, ReadWords, WordStack};
use constriction_words::Queue;
use std::alloc::AllocError;

/// A coder that becomes a decoder of what it encoded.
pub trait IntoDecoder<const PRECISION: usize>: Encode<PRECISION> {
    /// The decoder.
    type Decoder: Decode<PRECISION>;

    // The decoder begins with what this coder holds.
    ghost opens: { Self → Self.Decoder → Type 0 };

    // Memory for the decoder may be refused.
    ghost lacks_memory: { Self → Type 0 };

    /// The decoder of what was encoded. If memory for it is refused, the coder is dropped.
    fn into_decoder(self) -> Result<Self::Decoder, AllocError>
        ensures ready { IfOk result (λ decoder. Self.Decoder.can_decode decoder) }
        ensures ok { IfOk result (λ decoder. opens self decoder) }
        ensures memory { OnErr result (lacks_memory self) };
}

impl<Backend: WordStack<u32>, const PRECISION: usize> IntoDecoder<PRECISION> for AnsCoder<Backend> {
    type Decoder = AnsCoder<Backend>;

    ghost opens = { λ coder decoder. decoder ≡ coder };

    ghost lacks_memory = { λ _. ⊥ };

    fn into_decoder(self) -> Result<AnsCoder<Backend>, AllocError> {
        Ok(self)
    }
}

impl<const PRECISION: usize> IntoDecoder<PRECISION> for RangeEncoder {
    type Decoder = RangeDecoder<Cursor<u32, Vec<u32>>>;

    ghost opens = { λ encoder decoder. (words : List ℕ) × LeadTo encoder words
        × IsAt ⟦<Cursor<u32, Vec<u32>> as ReadWords<u32, Queue>>⟧.tells_upcoming whole words
        (held_by decoder) };

    ghost lacks_memory = { λ encoder. encoder ≢ whole };

    fn into_decoder(self) -> Result<RangeDecoder<Cursor<u32, Vec<u32>>>, AllocError> {
        sealed_words_tell();
        let words = self.into_compressed()?;
        match RangeDecoder::from_compressed(Cursor::new_at_write_beginning(words)) {
            Ok(decoder) => Ok(decoder),
            Err(never) => match never {},
        }
    }
}
