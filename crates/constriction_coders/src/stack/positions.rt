//! The place of a coder: the position of the words under its state, and the state.

ghost use Rattle.std.specs.Prelude.{◌≡◌, ◌↔◌, ◌^◌, ◌<◌, ◌≤◌, IsTrue};
ghost use Rattle.constriction_backends.specs.Cursor.{buf_of};
ghost use Rattle.constriction_coders.specs.Positions.{SeeksPlace};
ghost use Rattle.constriction_coders.specs.AnsCoder.{held_by};

use crate::stack::ans_coder::AnsCoder;
use constriction_backends::{Cursor, SafeBuf, StackSource};
use constriction_words::{Pos, PosSeek, Seek};

/// Whether a coder may be at this place: there are words under the state only if it is at least
/// `2^32`.
#[inline]
fn is_place(words: usize, state: u64) -> bool
    ensures { IsTrue result ↔ ((0 < words) → 2 ^ 32 ≤ state) }
{
    words == 0 || state >= 1 << 32
}

impl<Backend: StackSource<u32> + PosSeek> PosSeek for AnsCoder<Backend> {
    type Position = (Backend::Position, u64);

    ghost position = { λ s. (Backend.position s.words, s.state) };
}

impl<Backend: StackSource<u32> + Pos> Pos for AnsCoder<Backend> {
    #[inline]
    fn pos(&self) -> (Backend::Position, u64) {
        (self.words.pos(), self.state)
    }
}

/// Goes back to a place that was noted, and drops what was encoded since. A place with more words
/// than there are is refused, and so is one with words under a state below `2^32`.
impl Seek for AnsCoder<Vec<u32>> {
    ghost seek_gives = { λ old place r new.
        SeeksPlace old.words.items (held_by old) place r (held_by new) };

    #[inline]
    fn seek(&mut self, pos: (usize, u64)) -> Result<(), ()> {
        let (words, state) = pos;
        if words > self.words.len() || !is_place(words, state) {
            return Err(());
        }
        self.words.truncate(words);
        self.state = state;
        Ok(())
    }
}

/// Goes to a place that was noted, back or forth, as long as the words from then are still there. A
/// place past the buffer's words is refused, and so is one with words under a state below `2^32`.
impl<Buf: SafeBuf<u32>> Seek for AnsCoder<Cursor<u32, Buf>> {
    ghost seek_gives = { λ old place r new. SeeksPlace (Buf.words_of (buf_of old.words))
        (held_by old) place r (held_by new) × (buf_of new.words ≡ buf_of old.words) };

    #[inline]
    fn seek(&mut self, pos: (usize, u64)) -> Result<(), ()> {
        let (words, state) = pos;
        if words > self.words.buf().words().len() || !is_place(words, state) {
            return Err(());
        }
        match self.words.seek(words) {
            Ok(()) => {
                self.state = state;
                Ok(())
            }
            Err(()) => unreachable!(),
        }
    }
}
