//! The parts of a cursor: its words, buffer and position, views of them, and seeks.

ghost use Rattle.std.specs.Prelude.{◌≡◌, ◌++◌};
ghost use Rattle.std.specs.Borrow.{Lends, follows, sem, Array};
ghost use Rattle.constriction_backends.specs.Cursor.{buf_of, pos_of, buf_and_pos, state_of, over, SeeksTo};

use crate::cursor::Cursor;
use crate::part::part_mut;
use constriction_buffers::{SafeBuf, SafeBufMut};
use constriction_words::{Pos, PosSeek, Seek};
use std::marker::PhantomData;

impl<Word, Buf: SafeBuf<Word>> Cursor<Word, Buf> {
    /// A cursor at the same position that borrows the words. Its moves leave this cursor in place.
    #[inline]
    pub fn as_view(&self) -> Cursor<Word, &[Word]>
        ensures buf { (buf_of result).now ≡ Buf.words_of (buf_of self.now) }
        ensures pos { pos_of result ≡ pos_of self.now }
    {
        Cursor {
            buf: self.buf.words(),
            pos: self.pos,
            phantom: PhantomData,
        }
    }

    /// The buffer.
    #[inline]
    pub fn buf(&self) -> &Buf
        ensures { result.now ≡ buf_of self.now }
    {
        &self.buf
    }

    /// The words before the position.
    #[inline]
    pub fn written(&self) -> &[Word]
        ensures { result.now ≡ (state_of self.now).before }
    {
        &self.buf.words()[..self.pos]
    }

    /// The words from the position on.
    #[inline]
    pub fn unwritten(&self) -> &[Word]
        ensures { result.now ≡ (state_of self.now).after }
    {
        &self.buf.words()[self.pos..]
    }

    /// The buffer and the position.
    #[inline]
    pub fn into_buf_and_pos(self) -> (Buf, usize)
        ensures { result ≡ buf_and_pos self }
    {
        let Cursor {
            buf,
            pos,
            phantom: _,
        } = self;
        (buf, pos)
    }
}

impl<Word, Buf: SafeBufMut<Word>> Cursor<Word, Buf> {
    ghost use Rattle.constriction_backends.specs.contracts.cursor.Cursor.{the_row};

    /// Lends all words for writing. The buffer keeps what the slice holds at the end of the loan,
    /// and the position stays.
    #[inline]
    pub fn buf_mut(&mut self) -> &mut [Word]
        ensures* writes_back { sem 𝓛
            (Lends (the_row Word.row Buf.row Buf.SafeBuf) (Array Word.row 0) self.entry result
            (λ ws. over self.old (Buf.with_words (buf_of self.old) ws))) }
        ensures value { result.now ≡ Buf.words_of (buf_of self.old) }
    {
        self.buf.words_mut()
    }

    /// Lends the words before the position for writing. The other words and the position stay.
    #[inline]
    pub fn written_mut(&mut self) -> &mut [Word]
        ensures* writes_back { sem 𝓛 (Lends (the_row Word.row Buf.row Buf.SafeBuf)
            (Array Word.row 0) self.entry result (λ ws.
            over self.old (Buf.with_words (buf_of self.old) (ws ++ (state_of self.old).after)))) }
        ensures value { result.now ≡ (state_of self.old).before }
    {
        let pos = self.pos;
        part_mut(&mut self.buf, 0, pos)
    }

    /// Lends the words from the position on for writing. The other words and the position stay.
    #[inline]
    pub fn unwritten_mut(&mut self) -> &mut [Word]
        ensures* writes_back { sem 𝓛 (Lends (the_row Word.row Buf.row Buf.SafeBuf)
            (Array Word.row 0) self.entry result (λ ws.
            over self.old (Buf.with_words (buf_of self.old) ((state_of self.old).before ++ ws)))) }
        ensures value { result.now ≡ (state_of self.old).after }
    {
        let pos = self.pos;
        let len = self.buf.words().len();
        part_mut(&mut self.buf, pos, len)
    }

    /// A cursor at the same position that borrows the words for writing. At the end of the loan the
    /// buffer has what was written. Moves of the borrowing cursor leave this one in place.
    ///
    /// A caller's proof then knows the position and the number of words, but not the words. A proof
    /// that needs them makes the cursor over a local that holds the loan of
    /// [`buf_mut`](Self::buf_mut), and names that local once more at the end.
    #[inline]
    pub fn as_mut_view(&mut self) -> Cursor<Word, &mut [Word]>
        ensures* writes_back { sem 𝓛 (follows (the_row Word.row Buf.row Buf.SafeBuf)
            (Array Word.row 0) self.entry.ghost_name (buf_of result).ghost_name (λ ws.
            over self.old (Buf.with_words (buf_of self.old) ws))) }
        ensures value { (buf_of result).now ≡ Buf.words_of (buf_of self.old) }
        ensures pos { pos_of result ≡ pos_of self.old }
    {
        let pos = self.pos;
        Cursor {
            buf: self.buf_mut(),
            pos,
            phantom: PhantomData,
        }
    }
}

impl<Word, Buf: SafeBuf<Word>> PosSeek for Cursor<Word, Buf> {
    type Position = usize;

    ghost position = { pos_of };
}

impl<Word, Buf: SafeBuf<Word>> Pos for Cursor<Word, Buf> {
    #[inline]
    fn pos(&self) -> usize {
        self.pos
    }
}

impl<Word, Buf: SafeBuf<Word>> Seek for Cursor<Word, Buf> {
    ghost seek_gives = { SeeksTo };

    #[inline]
    fn seek(&mut self, pos: usize) -> Result<(), ()> {
        if pos > self.buf.words().len() {
            Err(())
        } else {
            self.pos = pos;
            Ok(())
        }
    }
}
