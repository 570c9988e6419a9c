//! A cursor as a sink, which overwrites the word at the position, and as a stack, which reads back
//! what was written.

ghost use Rattle.std.specs.Prelude.{◌≡◌, ◌<◌, refl, true, length};
ghost use Rattle.std.proofs.Common.{sym};
ghost use Rattle.constriction_backends.specs.Cursor.{state_of, WritesTo};
ghost use Rattle.constriction_backends.specs.lemmas.Cursor.{Overwrites-append, Overwrites-counts};
ghost use Rattle.constriction_sources.specs.lemmas.Sink.{free_is_taken};

use crate::cursor::Cursor;
use crate::error::BoundedWriteError;
use constriction_buffers::{SafeBuf, SafeBufMut};
use constriction_sources::{BoundedWriteWords, WordStack, WriteWords};

impl<Word: Drop, Buf: SafeBufMut<Word>> WriteWords<Word> for Cursor<Word, Buf> {
    type WriteError = BoundedWriteError;

    ghost write_gives = { λ s w r t. WritesTo s Buf.with_words w r t };

    ghost tells_written = { λ s words. (state_of s).before ≡ words };

    ghost has_room = { λ s. 0 < length (state_of s).after };

    #[inline]
    fn write(&mut self, word: Word) -> Result<(), BoundedWriteError> {
        let pos = self.pos;
        if pos >= self.buf.words().len() {
            return Err(BoundedWriteError::OutOfSpace);
        }
        self.pos = pos + 1;
        let words = self.buf.words_mut();
        words[pos] = word;
        Ok(())
    }

    #[inline]
    fn maybe_full(&self) -> bool
        ensures { result ≡ true }
    {
        true
    }

    ghost writes_append = { λ s w r t h. Overwrites-append state_of s w r t h.0 };

    ghost room_suffices = { λ s w r t h. free_is_taken (length (state_of s).after) r
        (length (state_of t).after) (Overwrites-counts state_of s w r t h.0) };
}

impl<Word: Drop, Buf: SafeBufMut<Word>> BoundedWriteWords<Word> for Cursor<Word, Buf> {
    ghost free_places = { λ s. length (state_of s).after };

    #[inline]
    fn space_left(&self) -> usize {
        self.buf.words().len() - self.pos
    }

    ghost counts_writes = { λ s w r t h. Overwrites-counts state_of s w r t h.0 };

    ghost room_counts = { λ _ h. h };
}

impl<Word: Copy, Buf: SafeBufMut<Word>> WordStack<Word> for Cursor<Word, Buf> {
    ghost tells_words = { λ s. refl };

    ghost tells_no_others = { λ s words known. sym known };

    ghost always_writable = { λ s. tt };
}
