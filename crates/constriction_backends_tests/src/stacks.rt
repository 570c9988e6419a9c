//! `Vec` and `SmallVec` as stacks.

ghost use Rattle.std.specs.Prelude.{◌≡◌, ◌<◌, [], Some, None, Ok, IfSome, IsOk, length, vec_capacity};

use crate::checks::{holds, same, vec_of};
use constriction_backends::{Cursor, ReadWords, Reverse, StackSource, WordStack, WriteWords, laws};
use constriction_words::{Queue, ReadWriteError, Stack};
use smallvec::SmallVec;
use std::alloc::{AllocError, Global};
use std::convert::Infallible;
use std::iter::Copied;
use std::process::Abort;
use std::slice::Iter;

/// A stack that holds up to two words inline.
pub type Two = SmallVec<u8, 2>;

/// What a stack answers to the words of an iterator.
pub fn extended<W>(words: &mut W, more: &[u8]) -> Result<(), AllocError>
where
    W: WriteWords<u8, WriteError = AllocError>,
    requires { W.can_write words.old }
{
    words.extend_from_iter(more.iter().copied())
}

/// The word that comes back from a `Vec`, or an error if memory is refused.
fn pushed_and_popped(words: &mut Vec<u8>, word: u8) -> Result<Option<u8>, AllocError> {
    match laws::push_then_pop(words, word) {
        Ok(word) => Ok(word),
        Err(ReadWriteError::Write(error)) => Err(error),
        Err(ReadWriteError::Read(error)) => match error {},
    }
}

/// Reads any source of a stack. The contract says that an empty one gives `None` and stays empty.
fn read_once<Backend: StackSource<u8>>(
    backend: &mut Backend,
) -> Result<Option<u8>, Backend::ReadError>
    ensures { Backend.words_of backend.old ≡ []
        → (result ≡ Ok None) × (Backend.words_of backend.new ≡ []) }
{
    backend.pop()
}

#[test]
fn what_was_pushed_is_popped(rt: HostRuntime) {
    laws::pushed_is_popped::<u8, AllocError, Infallible>();
    laws::written_is_read::<u8, Vec<u8>>();
    laws::writes_push::<u8, Vec<u8>>();
    laws::reads_pop::<u8, Vec<u8>>();
    laws::seek_back::<u8>();
    laws::extending_tells::<u8, Vec<u8>, Copied<Iter<'_, u8>>>();
    let mut words = Vec::new(rt.alloc());
    if let Ok(word) = pushed_and_popped(&mut words, 7) {
        same(&rt, word, Some(7));
    }
    assert!(rt; words.is_empty());
    same(&rt, read_once(&mut words), Ok(None));
}

/// Replaces the last word of a stack. This needs no memory, so it cannot fail.
fn replace_last(words: &mut Vec<u8>, word: u8) -> Result<(), AllocError>
    requires { 0 < length words.old.items }
    ensures ok { IsOk result }
    ensures capacity { vec_capacity words.new ≡ vec_capacity words.old }
{
    let _ = ReadWords::<u8, Stack>::read(words);
    words.write(word)
}

/// The same for a reversed stack, which is a queue.
fn replace_first(words: &mut Reverse<Vec<u8>>, word: u8) -> Result<(), AllocError>
    requires { 0 < length words.old.0.items }
    ensures { IsOk result }
{
    let _ = ReadWords::<u8, Queue>::read(words);
    words.0.write(word)
}

#[test]
fn a_popped_word_leaves_its_place(rt: HostRuntime) {
    let mut words = vec_of(&rt, rt.alloc(), &[1, 2, 3]);
    assert!(rt; !words.is_empty());
    same(&rt, replace_last(&mut words, 4), Ok(()));
    holds(&rt, &words, &[1, 2, 4]);
    let mut reversed = Reverse(words);
    assert!(rt; !reversed.0.is_empty());
    same(&rt, replace_first(&mut reversed, 5), Ok(()));
    holds(&rt, &reversed.0, &[1, 2, 5]);
}

/// Writes two words to any stack and reads them, as a stack coder does. They come back, the second
/// one first, and then the stack has its old words.
fn two_written_and_read<Backend: WordStack<u8>>(
    backend: &mut Backend,
    first: u8,
    second: u8,
) -> Option<(Option<u8>, Option<u8>)>
where
    Backend::WriteError: Drop,
    Backend::ReadError: Drop,
    ensures { IfSome result (λ read. (read ≡ (Some second, Some first))
        × (Backend.words_of backend.new ≡ Backend.words_of backend.old)) }
{
    laws::written_is_read::<u8, Backend>();
    let Ok(()) = backend.write(first) else {
        return None;
    };
    let Ok(()) = backend.write(second) else {
        return None;
    };
    let Ok(last) = backend.read() else {
        return None;
    };
    let Ok(next) = backend.read() else {
        return None;
    };
    Some((last, next))
}

fn gives_back<Backend: WordStack<u8> + Drop>(rt: &impl Abort, backend: Backend)
where
    Backend::WriteError: Drop,
    Backend::ReadError: Drop,
{
    let mut backend = backend;
    let read = two_written_and_read(&mut backend, 1, 2);
    same(rt, read, Some((Some(2), Some(1))));
}

const NINE: [u8; 9] = [1, 2, 3, 4, 5, 6, 7, 8, 9];

#[test]
fn any_stack_gives_back_what_was_written(rt: HostRuntime) {
    let alloc = rt.alloc();
    let mut words = Vec::new(alloc);
    same(&rt, extended(&mut words, &NINE), Ok(()));
    gives_back(&rt, words);
    let mut words: Two = SmallVec::new(alloc);
    same(&rt, extended(&mut words, &NINE), Ok(()));
    gives_back(&rt, words);
    let cursor = Cursor::<u8, _>::new_at_write_beginning(vec_of(&rt, alloc, &[0; 3]));
    gives_back(&rt, cursor);
    let cursor = Cursor::<u8, _>::new_at_write_end(vec_of(&rt, alloc, &[0; 3]));
    gives_back(&rt, Reverse(cursor));
}
