//! What a caller in another crate knows of the words that a cursor lends, and of its own words
//! after a cursor wrote them.

ghost use Rattle.std.specs.Prelude.{◌≡◌, ◌<◌, length, slice_set};
ghost use Rattle.constriction_backends.specs.Cursor.{buf_of, pos_of};

use constriction_backends::{Cursor, ReadWords, SafeBuf, SafeBufMut, WriteWords};
use constriction_words::{Pos, Queue, Seek};

/// Sets the first word through a borrow of all words.
pub fn set_first<Word: Copy, Buf: SafeBufMut<Word>>(cursor: &mut Cursor<Word, Buf>, word: Word)
    requires { 0 < length (Buf.words_of (buf_of cursor.old)) }
    ensures buf { buf_of cursor.new
        ≡ Buf.with_words (buf_of cursor.old) (slice_set (Buf.words_of (buf_of cursor.old)) 0 word) }
    ensures pos { pos_of cursor.new ≡ pos_of cursor.old }
{
    let words = cursor.buf_mut();
    words[0] = word;
}

/// Sets the first word through a borrow of the words before the position.
#[tactic(auto, using(constriction_buffers::specs::lemmas::Buffer::set_front))]
pub fn set_written<Word: Copy, Buf: SafeBufMut<Word>>(cursor: &mut Cursor<Word, Buf>, word: Word)
    requires { 0 < pos_of cursor.old }
    ensures buf { buf_of cursor.new
        ≡ Buf.with_words (buf_of cursor.old) (slice_set (Buf.words_of (buf_of cursor.old)) 0 word) }
    ensures pos { pos_of cursor.new ≡ pos_of cursor.old }
{
    let words = cursor.written_mut();
    words[0] = word;
}

/// Sets the word at the position through a borrow of the words from there on.
#[tactic(auto, using(constriction_buffers::specs::lemmas::Buffer::set_back))]
pub fn set_unwritten<Word: Copy, Buf: SafeBufMut<Word>>(cursor: &mut Cursor<Word, Buf>, word: Word)
    requires { pos_of cursor.old < length (Buf.words_of (buf_of cursor.old)) }
    ensures buf { buf_of cursor.new ≡ Buf.with_words (buf_of cursor.old)
        (slice_set (Buf.words_of (buf_of cursor.old)) (pos_of cursor.old) word) }
    ensures pos { pos_of cursor.new ≡ pos_of cursor.old }
{
    let words = cursor.unwritten_mut();
    words[0] = word;
}

/// Sets a word of the caller's own slice through a cursor over it.
pub fn set_slice(words: &mut [u8], pos: usize, word: u8)
    requires { pos < length words.old }
    ensures { words.new ≡ slice_set words.old pos word }
{
    let mut cursor = Cursor::<u8, &mut [u8]>::new_at_write_end_mut(words);
    let _ = cursor.seek(pos);
    let _ = cursor.write(word);
}

/// Sets the word at the position of a cursor through another cursor, over the words that it lends.
pub fn set_through_another<Buf: SafeBufMut<u8>>(cursor: &mut Cursor<u8, Buf>, word: u8)
    requires { pos_of cursor.old < length (Buf.words_of (buf_of cursor.old)) }
    ensures buf { buf_of cursor.new ≡ Buf.with_words (buf_of cursor.old)
        (slice_set (Buf.words_of (buf_of cursor.old)) (pos_of cursor.old) word) }
    ensures pos { pos_of cursor.new ≡ pos_of cursor.old }
{
    let pos = cursor.pos();
    set_slice(cursor.buf_mut(), pos, word);
}

/// The same in one function. It uses `words` once more at the end, so the other cursor reborrows
/// the slice and does not move it.
pub fn set_over_a_loan<Buf: SafeBufMut<u8>>(cursor: &mut Cursor<u8, Buf>, word: u8)
    requires { pos_of cursor.old < length (Buf.words_of (buf_of cursor.old)) }
    ensures buf { buf_of cursor.new ≡ Buf.with_words (buf_of cursor.old)
        (slice_set (Buf.words_of (buf_of cursor.old)) (pos_of cursor.old) word) }
    ensures pos { pos_of cursor.new ≡ pos_of cursor.old }
{
    let pos = cursor.pos();
    let words = cursor.buf_mut();
    let mut over = Cursor::<u8, &mut [u8]>::new_at_write_end_mut(words);
    let _ = over.seek(pos);
    let _ = over.write(word);
    let _ = words;
}

/// Reads through such a cursor leave the words that were lent as they were.
pub fn read_over_a_loan<Buf: SafeBufMut<u8>>(cursor: &mut Cursor<u8, Buf>) -> Option<u8>
    ensures buf { buf_of cursor.new ≡ buf_of cursor.old }
    ensures pos { pos_of cursor.new ≡ pos_of cursor.old }
{
    let words = cursor.buf_mut();
    let mut over = Cursor::<u8, &mut [u8]>::new_at_write_beginning(words);
    let read = ReadWords::<u8, Queue>::read(&mut over);
    let _ = words;
    match read {
        Ok(word) => word,
        Err(error) => match error {},
    }
}

/// A view that writes leaves the cursor its position and the number of its words.
pub fn move_a_view<Buf: SafeBufMut<u8>>(cursor: &mut Cursor<u8, Buf>)
    ensures pos { pos_of cursor.new ≡ pos_of cursor.old }
    ensures len { length (Buf.words_of (buf_of cursor.new))
        ≡ length (Buf.words_of (buf_of cursor.old)) }
{
    let mut view = cursor.as_mut_view();
    let _ = view.write(8);
}

/// Reads through a cursor leave the caller's own slice as it was.
pub fn read_a_slice(words: &mut [u8]) -> Option<u8>
    ensures { words.new ≡ words.old }
{
    let mut cursor = Cursor::<u8, &mut [u8]>::new_at_write_beginning(words);
    match ReadWords::<u8, Queue>::read(&mut cursor) {
        Ok(word) => word,
        Err(error) => match error {},
    }
}

/// A coder over any buffer. The next one is over a `Vec`, and repeats the bound of its cursor.
#[derive(Drop)]
pub struct Coder<Buf: SafeBuf<u8>> {
    pub words: Cursor<u8, Buf>,
}

#[derive(Drop)]
pub struct VecCoder<Word>
where
    Vec<Word>: SafeBuf<Word>,
{
    pub words: Cursor<Word, Vec<Word>>,
}
