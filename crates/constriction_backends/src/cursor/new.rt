//! Constructors of cursors.

ghost use Rattle.std.specs.Prelude.{◌≡◌, ◌≤◌, ◌↔◌, length, IfOk, IsOk};
ghost use Rattle.constriction_backends.specs.Cursor.{buf_of, pos_of, buf_and_pos, state_of};

use crate::cursor::Cursor;
use constriction_buffers::{SafeBuf, SafeBufMut};
use std::alloc::{AllocError, Global};
use std::marker::PhantomData;

impl<Word, Buf: SafeBuf<Word>> Cursor<Word, Buf> {
    /// A cursor before the first word: nothing was written, and a queue reads from the beginning.
    #[inline]
    pub fn new_at_write_beginning(buf: Buf) -> Self
        ensures parts { buf_and_pos result ≡ (buf, 0) }
        ensures ahead { (state_of result).after ≡ Buf.words_of buf }
    {
        Cursor {
            buf,
            pos: 0,
            phantom: PhantomData,
        }
    }

    /// A cursor after the last word: everything was written, and a stack reads from the end.
    #[inline]
    pub fn new_at_write_end(buf: Buf) -> Self
        ensures parts { buf_and_pos result ≡ (buf, length (Buf.words_of buf)) }
        ensures behind { (state_of result).before ≡ Buf.words_of buf }
    {
        let pos = buf.words().len();
        Cursor {
            buf,
            pos,
            phantom: PhantomData,
        }
    }

    /// A cursor after the first `pos` words. If there are fewer words, this fails and drops the
    /// buffer.
    #[inline]
    pub fn new_at_pos(buf: Buf, pos: usize) -> Result<Self, ()>
    where
        Buf: Drop,
        ensures in_range { IsOk result ↔ (pos ≤ length (Buf.words_of buf)) }
        ensures ok { IfOk result (λ cursor. buf_and_pos cursor ≡ (buf, pos)) }
    {
        if pos > buf.words().len() {
            Err(())
        } else {
            Ok(Cursor {
                buf,
                pos,
                phantom: PhantomData,
            })
        }
    }
}

impl<Word, Buf: SafeBufMut<Word>> Cursor<Word, Buf> {
    /// As [`new_at_write_end`](Cursor::new_at_write_end), over a buffer that can be written.
    #[inline]
    pub fn new_at_write_end_mut(buf: Buf) -> Self
        ensures parts { buf_and_pos result ≡ (buf, length (Buf.words_of buf)) }
        ensures behind { (state_of result).before ≡ Buf.words_of buf }
    {
        Cursor::new_at_write_end(buf)
    }

    /// As [`new_at_pos`](Cursor::new_at_pos), over a buffer that can be written.
    #[inline]
    pub fn new_at_pos_mut(buf: Buf, pos: usize) -> Result<Self, ()>
    where
        Buf: Drop,
        ensures in_range { IsOk result ↔ (pos ≤ length (Buf.words_of buf)) }
        ensures ok { IfOk result (λ cursor. buf_and_pos cursor ≡ (buf, pos)) }
    {
        Cursor::new_at_pos(buf, pos)
    }
}

impl<Word: Copy, Buf: SafeBuf<Word>> Cursor<Word, Buf> {
    /// A cursor at the same position over a copy of the words, made in one pass. This fails only if
    /// memory is refused.
    pub fn cloned(&self, alloc: Global) -> Result<Cursor<Word, Vec<Word>>, AllocError>
        ensures { IfOk result (λ cursor. ((buf_of cursor).items ≡ Buf.words_of (buf_of self.now))
            × (pos_of cursor ≡ pos_of self.now)) }
    {
        let mut buf = Vec::new(alloc);
        buf.extend_from_slice(self.buf.words())?;
        Ok(Cursor {
            buf,
            pos: self.pos,
            phantom: PhantomData,
        })
    }
}
