//! `SmallVec` as a stack: a write pushes, and a read pops.
//!
//! The first `N` words are stored inline, so only further words need memory.

ghost use Rattle.std.specs.Prelude.{◌≡◌, ◌↔◌, [], ⊤, false, reverse, length, IsTrue};
ghost use Rattle.constriction_sources.specs.Stack.{PopsFrom, PushesTo};
ghost use Rattle.constriction_sources.specs.lemmas.Stack.{Pops-upcoming, Pops-counted, Pushes-append, tells_all, any_error};

use crate::read::{BoundedReadWords, ReadWords};
use crate::write::WriteWords;
use constriction_words::Stack;
use smallvec::SmallVec;
use std::alloc::{AllocError, Allocator};
use std::convert::Infallible;
use std::default::MadeWith;

impl<Word: MadeWith<A> + Drop, const N: usize, A: Allocator + Copy> ReadWords<Word, Stack>
    for SmallVec<Word, N, A> {
    type ReadError = Infallible;

    ghost read_gives = { PopsFrom (λ s. s.items) (λ s. s.capacity) N };

    ghost tells_upcoming = { λ s words. words ≡ reverse s.items };

    #[inline]
    fn read(&mut self) -> Result<Option<Word>, Infallible> {
        let _at_least = self.capacity();
        Ok(self.pop())
    }

    #[inline]
    fn maybe_exhausted(&self) -> bool
        ensures { IsTrue result ↔ (self.now.items ≡ []) }
    {
        self.is_empty()
    }

    ghost reads_upcoming = { λ s r t gives. Pops-upcoming (λ (u : _). u.items) s r t gives.pops };
}

impl<Word: MadeWith<A> + Drop, const N: usize, A: Allocator + Copy> BoundedReadWords<Word, Stack>
    for SmallVec<Word, N, A> {
    ghost items_left = { λ s. length s.items };

    #[inline]
    fn remaining(&self) -> usize {
        self.len()
    }

    ghost counts_reads = { λ s r t exact gives.
        Pops-counted (λ (u : _). u.items) s r t exact gives.pops };

    ghost counts_upcoming = { tells_all (λ s. s.items) };
}

impl<Word: MadeWith<A> + Drop, const N: usize, A: Allocator + Copy> WriteWords<Word>
    for SmallVec<Word, N, A> {
    type WriteError = AllocError;

    ghost write_gives = { PushesTo (λ s. s.items) (λ s. s.capacity) N };

    ghost tells_written = { λ s words. words ≡ s.items };

    ghost has_room = { λ _. ⊤ };

    ghost lacks_memory = { λ _. ⊤ };

    #[inline]
    fn write(&mut self, word: Word) -> Result<(), AllocError> {
        let _at_least = self.capacity();
        self.push(word)?;
        Ok(())
    }

    #[inline]
    fn maybe_full(&self) -> bool
        ensures { result ≡ false }
    {
        false
    }

    ghost writes_append = { λ s w r t gives.
        Pushes-append (λ (u : _). u.items) s w r t gives.pushes };

    ghost room_suffices = { λ s w r t gives room. any_error r };
}
