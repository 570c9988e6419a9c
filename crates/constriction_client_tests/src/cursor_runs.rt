//! Runs of calls on cursors and on their reversals.

ghost use Rattle.std.specs.Prelude.{◌≡◌, IfOk};
ghost use Rattle.constriction_backends.specs.Cursor.{state_of};
ghost use Rattle.constriction_backends.specs.CursorState.{reversal};

use crate::checks::{holds, same, vec_of};
use constriction_backends::{Cursor, Reverse, SafeBuf, SafeBufMut};
use constriction_client::laws::{run_cursor_and_reversal, runs_are_alike};
use constriction_client::{CursorCall, CursorReply, run_cursor, run_reversed};
use constriction_test_support::marked::Marked;
use constriction_words::Pos;
use std::alloc::{AllocError, Global};
use std::process::Abort;

pub type BothReplies = Result<(Vec<CursorReply<u8>>, Vec<CursorReply<u8>>), AllocError>;

/// Calls of a cursor over 10, 20, 30 at 1, and the replies to them.
const CALLS: [CursorCall<u8>; 9] = [
    CursorCall::StackRead,
    CursorCall::QueueRead,
    CursorCall::Write(99),
    CursorCall::SpaceLeft,
    CursorCall::Position,
    CursorCall::Seek(4),
    CursorCall::Seek(3),
    CursorCall::QueueRead,
    CursorCall::Write(5),
];

const REPLIES: [CursorReply<u8>; 9] = [
    CursorReply::Word(Some(10)),
    CursorReply::Word(Some(10)),
    CursorReply::Written,
    CursorReply::Count(1),
    CursorReply::Count(2),
    CursorReply::NotMoved,
    CursorReply::Moved,
    CursorReply::Word(None),
    CursorReply::OutOfSpace,
];

/// A cursor over these words at 1.
pub fn at_1<Buf: SafeBufMut<u8> + Drop>(rt: &impl Abort, buf: Buf) -> Cursor<u8, Buf> {
    Cursor::<u8, Buf>::new_at_pos_mut(buf, 1).expect(rt, "1 is a position")
}

/// Runs the calls on a cursor, and then on another one. By the law the replies are the same if one
/// cursor is the reversal of the other.
pub fn one_after_the_other<Buf: SafeBufMut<u8>, Turned: SafeBufMut<u8>>(
    alloc: Global,
    cursor: &mut Cursor<u8, Buf>,
    reversed: &mut Reverse<Cursor<u8, Turned>>,
    calls: &[CursorCall<u8>],
) -> BothReplies
    ensures { IfOk result (λ both. state_of reversed.old.0 ≡ reversal (state_of cursor.old)
        → (both.1.items ≡ both.0.items)
        × (state_of reversed.new.0 ≡ reversal (state_of cursor.new))) }
{
    runs_are_alike::<u8>();
    let replies = run_cursor(alloc, cursor, calls)?;
    let others = run_reversed(alloc, reversed, calls)?;
    Ok((replies, others))
}

/// Asserts that both replied this.
pub fn both_are(rt: &impl Abort, found: BothReplies, expected: &[CursorReply<u8>]) {
    let (replies, others) = found.expect(rt, "memory");
    holds(rt, &replies, expected);
    holds(rt, &others, expected);
}

/// A buffer of a caller's own, with 10, 20, 30.
pub fn marked(rt: &impl Abort, alloc: Global) -> Marked {
    Marked::new(vec_of(rt, alloc, &[10, 20, 30]))
}

/// Asserts that a cursor over 10, 20, 30 at 1, and the reversal of one over a copy of them, give
/// the expected replies to the calls, and leave the expected words and positions.
fn are_run<Buf: SafeBufMut<u8> + Drop>(rt: &impl Abort, alloc: Global, buf: Buf, copy: Buf) {
    let mut cursor = at_1(rt, buf);
    let mut reversed = at_1(rt, copy).into_reversed();
    let found = one_after_the_other(alloc, &mut cursor, &mut reversed, &CALLS);
    both_are(rt, found, &REPLIES);
    same(rt, cursor.buf().words(), [10, 99, 30].as_slice());
    same(rt, reversed.0.buf().words(), [30, 99, 10].as_slice());
    same(rt, [cursor.pos(), reversed.0.pos()], [3, 0]);
}

#[test]
fn a_cursor_over_a_buffer_of_the_caller_and_its_reversal_reply_the_same(rt: HostRuntime) {
    let alloc = rt.alloc();
    are_run(&rt, alloc, marked(&rt, alloc), marked(&rt, alloc));
}

/// The replies of a cursor and of the reversal of a copy of it. They are the same, whatever the
/// calls are.
pub fn replies_of_both<Buf: SafeBufMut<u8>>(
    alloc: Global,
    cursor: &mut Cursor<u8, Buf>,
    calls: &[CursorCall<u8>],
) -> BothReplies
    ensures { IfOk result (λ both. both.1.items ≡ both.0.items) }
{
    let mut reversed = cursor.cloned(alloc)?.into_reversed();
    run_cursor_and_reversal(alloc, cursor, &mut reversed, calls)
}

#[test]
fn a_cursor_and_its_reversal_are_run_together(rt: HostRuntime) {
    let mut words = [10u8, 20, 30];
    let slice: &mut [u8] = &mut words;
    let mut cursor = at_1(&rt, slice);
    let found = replies_of_both(rt.alloc(), &mut cursor, &CALLS);
    both_are(&rt, found, &REPLIES);
    same(&rt, words, [10, 99, 30]);
}
