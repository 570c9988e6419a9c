//! A cursor as a source, which is read backwards as a stack and forwards as a queue, and counts its
//! words in that direction.

ghost use Rattle.std.specs.Prelude.{◌≡◌, ◌↔◌, [], length, refl, reverse, IsTrue};
ghost use Rattle.std.proofs.Common.{ap, sym, ◌∙◌};
ghost use Rattle.std.proofs.lemmas.List.{length-reverse};
ghost use Rattle.constriction_backends.specs.Cursor.{buf_of, state_of};
ghost use Rattle.constriction_backends.specs.CursorState.{StackReads, QueueReads};
ghost use Rattle.constriction_backends.specs.lemmas.Cursor.{StackReads-upcoming, StackReads-counts, QueueReads-upcoming, QueueReads-counts};

use crate::cursor::Cursor;
use constriction_buffers::SafeBuf;
use constriction_sources::{BoundedReadWords, ReadWords, StackSource};
use constriction_words::{Queue, Stack};
use std::convert::Infallible;

impl<Word: Copy, Buf: SafeBuf<Word>> ReadWords<Word, Stack> for Cursor<Word, Buf> {
    type ReadError = Infallible;

    ghost read_gives = { λ s r t. StackReads (state_of s) r (state_of t) × (buf_of t ≡ buf_of s) };

    ghost tells_upcoming = { λ s words. words ≡ reverse (state_of s).before };

    #[inline]
    fn read(&mut self) -> Result<Option<Word>, Infallible> {
        if self.pos == 0 {
            Ok(None)
        } else {
            self.pos -= 1;
            Ok(Some(self.buf.words()[self.pos]))
        }
    }

    #[inline]
    fn maybe_exhausted(&self) -> bool
        ensures { IsTrue result ↔ ((state_of self.now).before ≡ []) }
    {
        self.pos == 0
    }

    ghost reads_upcoming = { λ s r t h. StackReads-upcoming state_of s r t h.0 };
}

impl<Word: Copy, Buf: SafeBuf<Word>> StackSource<Word> for Cursor<Word, Buf> {
    ghost words_of = { λ s. (state_of s).before };

    ghost words_come = { λ s. refl };

    ghost no_others_come = { λ s words known. known };

    ghost always_readable = { λ s. tt };
}

impl<Word: Copy, Buf: SafeBuf<Word>> ReadWords<Word, Queue> for Cursor<Word, Buf> {
    type ReadError = Infallible;

    ghost read_gives = { λ s r t. QueueReads (state_of s) r (state_of t) × (buf_of t ≡ buf_of s) };

    ghost tells_upcoming = { λ s words. words ≡ (state_of s).after };

    #[inline]
    fn read(&mut self) -> Result<Option<Word>, Infallible> {
        let maybe_word = self.buf.words().get(self.pos).copied();
        if maybe_word.is_some() {
            self.pos += 1;
        }
        Ok(maybe_word)
    }

    #[inline]
    #[tactic(auto, using(crate::proofs::Ends::queue_empty))]
    fn maybe_exhausted(&self) -> bool
        ensures { IsTrue result ↔ ((state_of self.now).after ≡ []) }
    {
        self.pos == self.buf.words().len()
    }

    ghost reads_upcoming = { λ s r t h. QueueReads-upcoming state_of s r t h.0 };
}

impl<Word: Copy, Buf: SafeBuf<Word>> BoundedReadWords<Word, Stack> for Cursor<Word, Buf> {
    ghost items_left = { λ s. length (state_of s).before };

    #[inline]
    fn remaining(&self) -> usize {
        self.pos
    }

    ghost counts_reads = { λ s r t _ h. (StackReads-counts state_of s r t h.0, tt) };

    ghost counts_upcoming = { λ s _ words e.
        sym (ap length e ∙ length-reverse (state_of s).before) };
}

impl<Word: Copy, Buf: SafeBuf<Word>> BoundedReadWords<Word, Queue> for Cursor<Word, Buf> {
    ghost items_left = { λ s. length (state_of s).after };

    #[inline]
    fn remaining(&self) -> usize {
        self.buf.words().len() - self.pos
    }

    ghost counts_reads = { λ s r t _ h. (QueueReads-counts state_of s r t h.0, tt) };

    ghost counts_upcoming = { λ s _ words e. sym (ap length e) };
}
