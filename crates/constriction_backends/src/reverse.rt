//! A backend that is read in the other order. Over a cursor it reads, writes and counts words as a
//! cursor in the `reversal` of the state does. Its reads are the backend's own, so for them the law
//! `reversal_reads` says this.

ghost use Rattle.std.specs.Prelude.{◌≡◌, ◌<◌, ◌↔◌, refl, true, length, IsOk};
ghost use Rattle.std.proofs.Common.{sym, ◌∙◌};
ghost use Rattle.std.proofs.lemmas.List.{reverse-reverse};
ghost use Rattle.constriction_backends.specs.Cursor.{pos_of, state_of, PutsAt, TurnsRound};
ghost use Rattle.constriction_backends.specs.CursorState.{reversal, Overwrites};
ghost use Rattle.constriction_backends.specs.lemmas.Cursor.{Overwrites-append, Overwrites-counts};
ghost use Rattle.constriction_sources.specs.lemmas.Sink.{free_is_taken};

use crate::cursor::Cursor;
use crate::error::BoundedWriteError;
use constriction_buffers::{SafeBuf, SafeBufMut};
use constriction_sources::{
    BoundedReadWords, BoundedWriteWords, ReadWords, StackSource, WordStack, WriteWords,
};
use constriction_words::{Pos, PosSeek, Queue, Seek, Stack};

/// A backend with the other order of reading: a stack is read as a queue, and a queue as a stack.
///
/// Over a [`Cursor`] it is a sink too: a write overwrites the word before the cursor's position,
/// and moves the position back over it.
///
/// Positions are the backend's own, unconverted.
#[derive(Debug, Drop)]
pub struct Reverse<Backend>(pub Backend);

impl<Word, Backend: ReadWords<Word, Stack>> ReadWords<Word, Queue> for Reverse<Backend> {
    type ReadError = Backend::ReadError;

    ghost read_gives = { λ s r t. Backend.read_gives s.0 r t.0 };

    ghost tells_upcoming = { λ s words. Backend.tells_upcoming s.0 words };

    ghost can_read = { λ s. Backend.can_read s.0 };

    #[inline]
    fn read(&mut self) -> Result<Option<Word>, Backend::ReadError> {
        ReadWords::<Word, Stack>::read(&mut self.0)
    }

    #[inline]
    fn maybe_exhausted(&self) -> bool {
        ReadWords::<Word, Stack>::maybe_exhausted(&self.0)
    }

    ghost reads_upcoming = { λ s r t. Backend.reads_upcoming s.0 r t.0 };
}

impl<Word, Backend: ReadWords<Word, Queue>> ReadWords<Word, Stack> for Reverse<Backend> {
    type ReadError = Backend::ReadError;

    ghost read_gives = { λ s r t. Backend.read_gives s.0 r t.0 };

    ghost tells_upcoming = { λ s words. Backend.tells_upcoming s.0 words };

    ghost can_read = { λ s. Backend.can_read s.0 };

    #[inline]
    fn read(&mut self) -> Result<Option<Word>, Backend::ReadError> {
        ReadWords::<Word, Queue>::read(&mut self.0)
    }

    #[inline]
    fn maybe_exhausted(&self) -> bool {
        ReadWords::<Word, Queue>::maybe_exhausted(&self.0)
    }

    ghost reads_upcoming = { λ s r t. Backend.reads_upcoming s.0 r t.0 };
}

impl<Word, Backend: BoundedReadWords<Word, Stack>> BoundedReadWords<Word, Queue>
    for Reverse<Backend> {
    ghost items_left = { λ s. Backend.items_left s.0 };

    ghost is_exact = { λ s. Backend.is_exact s.0 };

    #[inline]
    fn remaining(&self) -> usize {
        BoundedReadWords::<Word, Stack>::remaining(&self.0)
    }

    #[inline]
    fn is_exhausted(&self) -> bool {
        BoundedReadWords::<Word, Stack>::is_exhausted(&self.0)
    }

    ghost counts_reads = { λ s r t. Backend.counts_reads s.0 r t.0 };

    ghost counts_upcoming = { λ s. Backend.counts_upcoming s.0 };
}

impl<Word, Backend: BoundedReadWords<Word, Queue>> BoundedReadWords<Word, Stack>
    for Reverse<Backend> {
    ghost items_left = { λ s. Backend.items_left s.0 };

    ghost is_exact = { λ s. Backend.is_exact s.0 };

    #[inline]
    fn remaining(&self) -> usize {
        BoundedReadWords::<Word, Queue>::remaining(&self.0)
    }

    #[inline]
    fn is_exhausted(&self) -> bool {
        BoundedReadWords::<Word, Queue>::is_exhausted(&self.0)
    }

    ghost counts_reads = { λ s r t. Backend.counts_reads s.0 r t.0 };

    ghost counts_upcoming = { λ s. Backend.counts_upcoming s.0 };
}

impl<Backend: PosSeek> PosSeek for Reverse<Backend> {
    type Position = Backend::Position;

    ghost position = { λ s. Backend.position s.0 };
}

impl<Backend: Pos> Pos for Reverse<Backend> {
    #[inline]
    fn pos(&self) -> Backend::Position {
        self.0.pos()
    }
}

impl<Backend: Seek> Seek for Reverse<Backend> {
    ghost seek_gives = { λ s pos r t. Backend.seek_gives s.0 pos r t.0 };

    #[inline]
    fn seek(&mut self, pos: Backend::Position) -> Result<(), ()> {
        self.0.seek(pos)
    }
}

impl<Word, Buf: SafeBufMut<Word>> Cursor<Word, Buf> {
    /// Reverses the words in place, in one pass, and moves the position to the same cut. Inside the
    /// `Reverse`, the cursor reads the same words in the same orders, and overwrites the same
    /// words.
    pub fn into_reversed(self) -> Reverse<Self>
        ensures { TurnsRound Buf.with_words self result.0 }
    {
        Reverse(turned(self))
    }
}

impl<Word, Buf: SafeBufMut<Word>> Reverse<Cursor<Word, Buf>> {
    /// Undoes [`Cursor::into_reversed`], in one pass over the words. A cursor that is reversed
    /// twice is as it was.
    pub fn into_reversed(self) -> Cursor<Word, Buf>
        ensures { TurnsRound Buf.with_words self.0 result }
    {
        turned(self.0)
    }
}

/// Reverses the words in place, and moves the position to the same cut.
fn turned<Word, Buf: SafeBufMut<Word>>(mut cursor: Cursor<Word, Buf>) -> Cursor<Word, Buf>
    ensures { TurnsRound Buf.with_words cursor result }
{
    let words = cursor.buf.words_mut();
    words.reverse();
    let len = words.len();
    cursor.pos = len - cursor.pos;
    cursor
}

impl<Word: Drop, Buf: SafeBufMut<Word>> WriteWords<Word> for Reverse<Cursor<Word, Buf>> {
    type WriteError = BoundedWriteError;

    // A write is a write on the reversed state. It puts the word at the new position, and is
    // refused if and only if the position is 0.
    ghost write_gives = { λ s w r t.
        Overwrites (reversal (state_of s.0)) w r (reversal (state_of t.0))
        × PutsAt s.0 Buf.with_words (pos_of t.0) w r t.0 × (IsOk r ↔ (0 < pos_of s.0)) };

    ghost tells_written = { λ s words. (reversal (state_of s.0)).before ≡ words };

    ghost has_room = { λ s. 0 < length (reversal (state_of s.0)).after };

    #[inline]
    fn write(&mut self, word: Word) -> Result<(), BoundedWriteError> {
        let cursor = &mut self.0;
        if cursor.pos == 0 {
            return Err(BoundedWriteError::OutOfSpace);
        }
        let pos = cursor.pos - 1;
        let words = cursor.buf.words_mut();
        words[pos] = word;
        cursor.pos = pos;
        Ok(())
    }

    #[inline]
    fn maybe_full(&self) -> bool
        ensures { result ≡ true }
    {
        true
    }

    ghost writes_append = { λ s w r t h.
        Overwrites-append (λ (x : _). reversal (state_of x.0)) s w r t h.0 };

    ghost room_suffices = { λ s w r t h. free_is_taken (length (reversal (state_of s.0)).after) r
        (length (reversal (state_of t.0)).after)
        (Overwrites-counts (λ (x : _). reversal (state_of x.0)) s w r t h.0) };
}

impl<Word: Drop, Buf: SafeBufMut<Word>> BoundedWriteWords<Word> for Reverse<Cursor<Word, Buf>> {
    ghost free_places = { λ s. length (reversal (state_of s.0)).after };

    #[inline]
    fn space_left(&self) -> usize {
        self.0.pos
    }

    ghost counts_writes = { λ s w r t h.
        Overwrites-counts (λ (x : _). reversal (state_of x.0)) s w r t h.0 };

    ghost room_counts = { λ _ h. h };
}

impl<Word: Copy, Buf: SafeBuf<Word>> StackSource<Word> for Reverse<Cursor<Word, Buf>> {
    ghost words_of = { λ s. (reversal (state_of s.0)).before };

    ghost words_come = { λ s. reverse-reverse (state_of s.0).after };

    ghost no_others_come = { λ s words known. known ∙ sym (reverse-reverse (state_of s.0).after) };

    ghost always_readable = { λ s. tt };
}

impl<Word: Copy, Buf: SafeBufMut<Word>> WordStack<Word> for Reverse<Cursor<Word, Buf>> {
    ghost tells_words = { λ s. refl };

    ghost tells_no_others = { λ s words known. sym known };

    ghost always_writable = { λ s. tt };
}
