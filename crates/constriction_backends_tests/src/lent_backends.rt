//! Sources and sinks that a caller lends and keeps.

ghost use Rattle.std.specs.Prelude.{◌≡◌, ◌++◌, ◌∷◌, [], OnOk, Result, slice_get};
ghost use Rattle.constriction_backends.specs.Cursor.{buf_of, state_of};

use crate::checks::{holds, same, vec_of};
use constriction_backends::{Cursor, ReadWords, WriteWords};
use constriction_words::{Queue, UnwrapInfallible};
use std::alloc::AllocError;

/// A word of any source.
fn word_of<Source: ReadWords<u8, Queue>>(
    source: &mut Source,
) -> Result<Option<u8>, Source::ReadError>
    requires { Source.can_read source.old }
    ensures { Source.read_gives source.old result source.new }
{
    source.read()
}

/// A word that is read through a loan of a cursor, and the next one, which the cursor itself reads.
fn word_and_next(cursor: &mut Cursor<u8, Vec<u8>>) -> (Option<u8>, Option<u8>)
    ensures word { result.0 ≡ slice_get (state_of cursor.old).after 0 }
    ensures next { result.1 ≡ slice_get (state_of cursor.old).after 1 }
    ensures buf { buf_of cursor.new ≡ buf_of cursor.old }
{
    let mut lent = &mut *cursor;
    let word = word_of(&mut lent).unwrap_infallible();
    let next = ReadWords::<u8, Queue>::read(cursor).unwrap_infallible();
    (word, next)
}

/// Writes a word to any sink.
fn put<Sink: WriteWords<u8>>(sink: &mut Sink, word: u8) -> Result<(), Sink::WriteError>
    requires { Sink.can_write sink.old }
    ensures { Sink.write_gives sink.old word result sink.new }
{
    sink.write(word)
}

/// A word that is written through a loan of a `Vec`.
fn put_in_a_loan(words: &mut Vec<u8>, word: u8) -> Result<(), AllocError>
    ensures { OnOk result (words.new.items ≡ words.old.items ++ word ∷ []) }
{
    let mut lent = &mut *words;
    put(&mut lent, word)
}

#[test]
fn a_caller_goes_on_with_what_it_lent(rt: HostRuntime) {
    let words = vec_of(&rt, rt.alloc(), &[1, 2, 3]);
    let mut cursor = Cursor::<u8, _>::new_at_write_beginning(words);
    same(&rt, word_and_next(&mut cursor), (Some(1), Some(2)));
    let (mut words, pos) = cursor.into_buf_and_pos();
    same(&rt, pos, 2);
    same(&rt, put_in_a_loan(&mut words, 4), Ok(()));
    holds(&rt, &words, &[1, 2, 3, 4]);
}
