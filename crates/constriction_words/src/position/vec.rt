//! Positions of `Vec`: the position is the length, and a seek back drops the words after it.
//!
//! These impls are not beside the reads and writes of the stack, since an impl belongs to the crate
//! of its trait or its type.

ghost use Rattle.std.specs.Prelude.{length, vec_capacity};
ghost use Rattle.constriction_words.specs.Rewinding.{RewindsIn};

use crate::position::{Pos, PosSeek, Seek};

impl<Word> PosSeek for Vec<Word> {
    type Position = usize;

    ghost position = { λ s. length s.items };
}

impl<Word> Pos for Vec<Word> {
    #[inline]
    fn pos(&self) -> usize {
        self.len()
    }
}

/// A seek back drops the words from the position on for good, and a position past the end is
/// refused.
impl<Word: Drop> Seek for Vec<Word> {
    ghost seek_gives = { RewindsIn (λ s. s.items) vec_capacity 0 };

    #[inline]
    fn seek(&mut self, pos: usize) -> Result<(), ()> {
        if pos > self.len() {
            return Err(());
        }
        self.truncate(pos);
        Ok(())
    }
}
