//! Positions of `SmallVec`: the position is the length, and a seek back drops the words after it.
//!
//! These impls are not beside the reads and writes of the stack, since an impl belongs to the crate
//! of its trait or its type.

ghost use Rattle.std.specs.Prelude.{length};
ghost use Rattle.constriction_words.specs.Rewinding.{RewindsIn};

use crate::position::{Pos, PosSeek, Seek};
use smallvec::SmallVec;
use std::alloc::Allocator;
use std::default::MadeWith;

impl<Word, const N: usize, A: Allocator> PosSeek for SmallVec<Word, N, A> {
    type Position = usize;

    ghost position = { λ s. length s.items };
}

impl<Word, const N: usize, A: Allocator> Pos for SmallVec<Word, N, A> {
    #[inline]
    fn pos(&self) -> usize {
        self.len()
    }
}

/// A seek back drops the words from the position on for good, and a position past the end is
/// refused.
impl<Word: MadeWith<A> + Drop, const N: usize, A: Allocator + Copy> Seek for SmallVec<Word, N, A> {
    ghost seek_gives = { RewindsIn (λ s. s.items) (λ s. s.capacity) N };

    #[inline]
    fn seek(&mut self, pos: usize) -> Result<(), ()> {
        let _at_least = self.capacity();
        if pos > self.len() {
            return Err(());
        }
        self.truncate(pos);
        Ok(())
    }
}
