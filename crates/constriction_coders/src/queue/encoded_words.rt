//! What is encoded so far, as a source of words.

ghost use Rattle.std.specs.Prelude.{◌≡◌, ◌++◌, ◌∷◌, ◌/◌, ◌%◌, ◌^◌, ◌<◌, [], All};
ghost use Rattle.constriction_backends.specs.Cursor.{state_of};
ghost use Rattle.constriction_coders.specs.EncodedWords.{TakesFirst};
ghost use Rattle.constriction_coders.specs.lemmas.EncodedWords.{TakesFirst-upcoming};

use constriction_backends::{Cursor, ReadWords};
use constriction_words::Queue;
use std::convert::Infallible;

/// The words of an encoder that are written, and then the two of the least number of its span. It
/// is read while the encoder stays.
#[derive(Drop)]
pub struct EncodedWords<'e> {
    written: Cursor<u32, &'e [u32]>,
    lower: Cursor<u32, [u32; 2]>,
}

impl<'e> EncodedWords<'e> {
    /// These words, and then the two of `lower`.
    pub(crate) fn new(words: &'e [u32], lower: u64) -> Self
        ensures words { (state_of result.written).after ++ (state_of result.lower).after
            ≡ words.now ++ lower / 2 ^ 32 ∷ lower % 2 ^ 32 ∷ [] }
        ensures fit { All (λ w. w < 2 ^ 32) words.now }
    {
        let lower = [(lower >> 32) as u32, (lower % (1 << 32)) as u32];
        EncodedWords {
            written: Cursor::new_at_write_beginning(words),
            lower: Cursor::new_at_write_beginning(lower),
        }
    }
}

impl<'e> ReadWords<u32, Queue> for EncodedWords<'e> {
    type ReadError = Infallible;

    ghost read_gives = { λ s r t.
        TakesFirst ((state_of s.written).after ++ (state_of s.lower).after) r
        ((state_of t.written).after ++ (state_of t.lower).after) };

    ghost tells_upcoming = { λ s words.
        words ≡ (state_of s.written).after ++ (state_of s.lower).after };

    fn read(&mut self) -> Result<Option<u32>, Infallible> {
        match ReadWords::<u32, Queue>::read(&mut self.written) {
            Ok(Some(word)) => Ok(Some(word)),
            Ok(None) => ReadWords::<u32, Queue>::read(&mut self.lower),
            Err(never) => match never {},
        }
    }

    fn maybe_exhausted(&self) -> bool {
        ReadWords::<u32, Queue>::maybe_exhausted(&self.lower)
    }

    ghost reads_upcoming = { TakesFirst-upcoming (λ s.
        (state_of s.written).after ++ (state_of s.lower).after) };
}
