//! Cursors that take the words of an iterator.

ghost use Rattle.std.specs.Prelude.{◌≡◌, ◌++◌, OnOk};
ghost use Rattle.constriction_backends.specs.Cursor.{state_of};

use crate::checks::{is_at, same, vec_of};
use constriction_backends::{BoundedWriteError, Cursor, SafeBufMut, laws};
use constriction_test_support::marked::Marked;

/// What a cursor answers to the words of an iterator. If it took them, they stand in order after
/// the words that were written before.
pub fn extended<Buf: SafeBufMut<u8>>(
    cursor: &mut Cursor<u8, Buf>,
    added: &[u8],
) -> Result<(), BoundedWriteError>
    ensures { OnOk result
        ((state_of cursor.new).before ≡ (state_of cursor.old).before ++ added.now) }
{
    laws::extending_counts(cursor, added.iter().copied())
}

#[test]
fn the_words_of_an_iterator_stand_after_those_before(rt: HostRuntime) {
    let buf = Marked::new(vec_of(&rt, rt.alloc(), &[10, 20, 30]));
    let mut cursor = Cursor::<u8, _>::new_at_write_beginning(buf);
    same(&rt, extended(&mut cursor, &[1, 2]), Ok(()));
    is_at(&rt, &cursor, 2, [1, 2, 30]);
}
