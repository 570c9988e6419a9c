//! Backends that are read in the other order, and cursors that are turned round.

ghost use Rattle.std.specs.Prelude.{◌≡◌};

use crate::checks::{is_at, same, vec_of};
use constriction_backends::{
    BoundedWriteError, BoundedWriteWords, Cursor, ReadWords, Reverse, SafeBufMut, laws,
};
use constriction_words::{Queue, Seek, Semantics, Stack};
use std::convert::Infallible;

/// What `maybe_exhausted` answers of a source of one word, before that word is read and after it.
fn may_be_exhausted<S: Semantics, Source>(source: &mut Source) -> [bool; 2]
where
    Source: ReadWords<u8, S, ReadError = Infallible>,
    requires { Source.can_read source.old }
{
    let before = source.maybe_exhausted();
    let _ = source.read();
    [before, source.maybe_exhausted()]
}

/// A stack and a cursor are reversed to queues, and another cursor to a stack.
#[test]
fn a_reversal_may_be_exhausted_where_its_backend_may(rt: HostRuntime) {
    let words = [1u8];
    let mut stack = Reverse(vec_of(&rt, rt.alloc(), &words));
    let mut at_end = Reverse(Cursor::<u8, _>::new_at_write_end(words.as_slice()));
    let mut at_beginning = Reverse(Cursor::<u8, _>::new_at_write_beginning(words.as_slice()));
    same(
        &rt,
        [
            may_be_exhausted::<Queue, _>(&mut stack),
            may_be_exhausted::<Queue, _>(&mut at_end),
            may_be_exhausted::<Stack, _>(&mut at_beginning),
        ],
        [[false, true]; 3],
    );
}

/// Reverses a cursor twice. By the law the caller knows that the result is the same cursor.
fn turned_and_back<Buf: SafeBufMut<u8>>(cursor: Cursor<u8, Buf>) -> Cursor<u8, Buf>
    ensures { result ≡ cursor }
{
    laws::turned_twice::<u8, Buf>();
    cursor.into_reversed().into_reversed()
}

#[test]
fn a_cursor_turned_twice_stands_where_it_stood(rt: HostRuntime) {
    laws::reversal_twice::<u8>();
    laws::reversal_reads::<u8, u8>();
    laws::seek_back_in_a_cursor::<u8, Vec<u8>>();
    laws::extending_overwrites::<u8, Vec<u8>, BoundedWriteError>();
    laws::turned_twice::<u8, Vec<u8>>();
    laws::seek_stays::<u8, Vec<u8>>();
    let words = vec_of(&rt, rt.alloc(), &[1, 2, 3]);
    let mut cursor = Cursor::<u8, _>::new_at_write_end(words);
    same(&rt, cursor.seek(2), Ok(()));
    let cursor = turned_and_back(cursor);
    is_at(&rt, &cursor, 2, [1, 2, 3]);
    let turned = cursor.into_reversed();
    is_at(&rt, &turned.0, 1, [3, 2, 1]);
    same(&rt, turned.space_left(), 1);
}
