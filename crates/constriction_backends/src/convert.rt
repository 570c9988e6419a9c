//! Values that turn into sources, or lend them.

ghost use Rattle.std.specs.Prelude.{◌≡◌, length};
ghost use Rattle.constriction_backends.specs.Cursor.{buf_of, pos_of, buf_and_pos};

use crate::cursor::Cursor;
use constriction_buffers::SafeBuf;
use constriction_sources::ReadWords;
use constriction_words::{Queue, Seek, Semantics, Stack};

/// A value that turns into a source of words, which are read in the order of `S`.
///
/// Each [`SafeBuf`] turns into a [`Cursor`] over it, at the write end for a stack and at the write
/// beginning for a queue.
pub trait IntoReadWords<Word, S: Semantics> {
    /// The source.
    type IntoReadWords: ReadWords<Word, S>;

    // The value may turn into this source.
    ghost into_read_words_gives: { Self → Self.IntoReadWords → Type 0 };

    /// The source of the value's words. No word is copied.
    fn into_read_words(self) -> Self::IntoReadWords
        ensures { into_read_words_gives self result };
}

/// As [`IntoReadWords`], for a source that can be moved to a position.
pub trait IntoSeekReadWords<Word, S: Semantics> {
    /// The source.
    type IntoSeekReadWords: Seek + ReadWords<Word, S>;

    // The value may turn into this source.
    ghost into_seek_read_words_gives: { Self → Self.IntoSeekReadWords → Type 0 };

    /// The source of the value's words. No word is copied.
    fn into_seek_read_words(self) -> Self::IntoSeekReadWords
        ensures { into_seek_read_words_gives self result };
}

/// A value that lends a source of words, which are read in the order of `S`.
///
/// Each [`SafeBuf`] lends a [`Cursor`] over its words, at the write end for a stack and at the
/// write beginning for a queue. Reads move the source alone.
pub trait AsReadWords<'a, Word, S: Semantics>: 'a {
    /// The source.
    type AsReadWords: ReadWords<Word, S>;

    // The value may lend this source.
    ghost as_read_words_gives: { Self → Self.AsReadWords → Type 0 };

    /// A source of the value's words, which stay as they are. No word is copied.
    fn as_read_words(&'a self) -> Self::AsReadWords
        ensures { as_read_words_gives self.now result };
}

/// As [`AsReadWords`], for a source that can be moved to a position.
pub trait AsSeekReadWords<'a, Word, S: Semantics>: 'a {
    /// The source.
    type AsSeekReadWords: Seek + ReadWords<Word, S>;

    // The value may lend this source.
    ghost as_seek_read_words_gives: { Self → Self.AsSeekReadWords → Type 0 };

    /// A source of the value's words, which stay as they are. No word is copied.
    fn as_seek_read_words(&'a self) -> Self::AsSeekReadWords
        ensures { as_seek_read_words_gives self.now result };
}

impl<Word: Copy, Buf: SafeBuf<Word>> IntoReadWords<Word, Stack> for Buf {
    type IntoReadWords = Cursor<Word, Buf>;

    ghost into_read_words_gives = { λ s r. buf_and_pos r ≡ (s, length (Buf.words_of s)) };

    #[inline]
    fn into_read_words(self) -> Cursor<Word, Buf> {
        IntoSeekReadWords::<Word, Stack>::into_seek_read_words(self)
    }
}

impl<Word: Copy, Buf: SafeBuf<Word>> IntoReadWords<Word, Queue> for Buf {
    type IntoReadWords = Cursor<Word, Buf>;

    ghost into_read_words_gives = { λ s r. buf_and_pos r ≡ (s, 0) };

    #[inline]
    fn into_read_words(self) -> Cursor<Word, Buf> {
        IntoSeekReadWords::<Word, Queue>::into_seek_read_words(self)
    }
}

impl<Word: Copy, Buf: SafeBuf<Word>> IntoSeekReadWords<Word, Stack> for Buf {
    type IntoSeekReadWords = Cursor<Word, Buf>;

    ghost into_seek_read_words_gives = { λ s r. buf_and_pos r ≡ (s, length (Buf.words_of s)) };

    #[inline]
    fn into_seek_read_words(self) -> Cursor<Word, Buf> {
        Cursor::new_at_write_end(self)
    }
}

impl<Word: Copy, Buf: SafeBuf<Word>> IntoSeekReadWords<Word, Queue> for Buf {
    type IntoSeekReadWords = Cursor<Word, Buf>;

    ghost into_seek_read_words_gives = { λ s r. buf_and_pos r ≡ (s, 0) };

    #[inline]
    fn into_seek_read_words(self) -> Cursor<Word, Buf> {
        Cursor::new_at_write_beginning(self)
    }
}

impl<'a, Word: Copy + 'a, Buf: SafeBuf<Word> + 'a> AsReadWords<'a, Word, Stack> for Buf {
    type AsReadWords = Cursor<Word, &'a [Word]>;

    ghost as_read_words_gives = { λ s r. ((buf_of r).now ≡ Buf.words_of s)
        × (pos_of r ≡ length (Buf.words_of s)) };

    #[inline]
    fn as_read_words(&'a self) -> Cursor<Word, &'a [Word]> {
        AsSeekReadWords::<Word, Stack>::as_seek_read_words(self)
    }
}

impl<'a, Word: Copy + 'a, Buf: SafeBuf<Word> + 'a> AsReadWords<'a, Word, Queue> for Buf {
    type AsReadWords = Cursor<Word, &'a [Word]>;

    ghost as_read_words_gives = { λ s r. ((buf_of r).now ≡ Buf.words_of s) × (pos_of r ≡ 0) };

    #[inline]
    fn as_read_words(&'a self) -> Cursor<Word, &'a [Word]> {
        AsSeekReadWords::<Word, Queue>::as_seek_read_words(self)
    }
}

impl<'a, Word: Copy + 'a, Buf: SafeBuf<Word> + 'a> AsSeekReadWords<'a, Word, Stack> for Buf {
    type AsSeekReadWords = Cursor<Word, &'a [Word]>;

    ghost as_seek_read_words_gives = { λ s r. ((buf_of r).now ≡ Buf.words_of s)
        × (pos_of r ≡ length (Buf.words_of s)) };

    #[inline]
    fn as_seek_read_words(&'a self) -> Cursor<Word, &'a [Word]> {
        Cursor::new_at_write_end(self.words())
    }
}

impl<'a, Word: Copy + 'a, Buf: SafeBuf<Word> + 'a> AsSeekReadWords<'a, Word, Queue> for Buf {
    type AsSeekReadWords = Cursor<Word, &'a [Word]>;

    ghost as_seek_read_words_gives = { λ s r. ((buf_of r).now ≡ Buf.words_of s) × (pos_of r ≡ 0) };

    #[inline]
    fn as_seek_read_words(&'a self) -> Cursor<Word, &'a [Word]> {
        Cursor::new_at_write_beginning(self.words())
    }
}
