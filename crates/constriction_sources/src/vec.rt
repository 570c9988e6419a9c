//! `Vec` as a stack: a write pushes, and a read pops.

ghost use Rattle.std.specs.Prelude.{◌≡◌, ◌↔◌, [], ⊤, false, reverse, length, IsTrue, vec_capacity};
ghost use Rattle.constriction_sources.specs.Stack.{PopsFrom, PushesTo};
ghost use Rattle.constriction_sources.specs.lemmas.Stack.{Pops-upcoming, Pops-counted, Pushes-append, tells_all, any_error};

use crate::read::{BoundedReadWords, ReadWords};
use crate::write::WriteWords;
use constriction_words::Stack;
use std::alloc::AllocError;
use std::convert::Infallible;

impl<Word> ReadWords<Word, Stack> for Vec<Word> {
    type ReadError = Infallible;

    ghost read_gives = { PopsFrom (λ s. s.items) vec_capacity 0 };

    ghost tells_upcoming = { λ s words. words ≡ reverse s.items };

    #[inline]
    fn read(&mut self) -> Result<Option<Word>, Infallible> {
        Ok(self.pop())
    }

    #[inline]
    fn maybe_exhausted(&self) -> bool
        ensures { IsTrue result ↔ (self.now.items ≡ []) }
    {
        self.is_empty()
    }

    ghost reads_upcoming = { λ s r t gives. Pops-upcoming (λ (u : _). u.items) s r t gives.pops };
}

impl<Word> BoundedReadWords<Word, Stack> for Vec<Word> {
    ghost items_left = { λ s. length s.items };

    #[inline]
    fn remaining(&self) -> usize {
        self.len()
    }

    ghost counts_reads = { λ s r t exact gives.
        Pops-counted (λ (u : _). u.items) s r t exact gives.pops };

    ghost counts_upcoming = { tells_all (λ s. s.items) };
}

impl<Word: Drop> WriteWords<Word> for Vec<Word> {
    type WriteError = AllocError;

    ghost write_gives = { PushesTo (λ s. s.items) vec_capacity 0 };

    ghost tells_written = { λ s words. words ≡ s.items };

    ghost has_room = { λ _. ⊤ };

    ghost lacks_memory = { λ _. ⊤ };

    #[inline]
    fn write(&mut self, word: Word) -> Result<(), AllocError> {
        if self.len() >= self.capacity() {
            self.reserve(1)?;
        }
        self.push_reserved(word);
        Ok(())
    }

    #[inline]
    fn maybe_full(&self) -> bool
        ensures { result ≡ false }
    {
        false
    }

    ghost writes_append = { λ s w r t gives.
        Pushes-append (λ (u : _). u.items) s w r t gives.pushes };

    ghost room_suffices = { λ s w r t gives room. any_error r };
}
