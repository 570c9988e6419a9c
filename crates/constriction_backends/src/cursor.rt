//! A buffer with a position, which cuts its words in two.

ghost use Rattle.std.specs.Prelude.{◌≤◌, length};

mod new;
mod parts;
mod read;
mod write;

use constriction_buffers::SafeBuf;
use std::marker::PhantomData;

/// A buffer with a position in it: the words before the position are written, and the words from it
/// on are free.
///
/// As a sink it overwrites the word at the position, and never grows. As a source it is read
/// backwards, as a [`Stack`](constriction_words::Stack), from the word before the position, or
/// forwards, as a [`Queue`](constriction_words::Queue), from the word at it. A read leaves the
/// words as they are and moves the position.
///
/// The position is at most the number of words.
#[derive(Debug, Drop)]
pub struct Cursor<Word, Buf: SafeBuf<Word>> {
    pub(crate) buf: Buf,
    pub(crate) pos: usize,
    phantom: PhantomData<Word>,
    pub ghost in_range: { pos ≤ length (Buf.words_of buf) },
}
