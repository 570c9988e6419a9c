//! Runs of calls: on a cursor, and on one that was turned round.

ghost use Rattle.std.specs.Prelude.{◌≡◌, ◌≤◌, [], length, IfOk, OnErr, vec_capacity};
ghost use Rattle.constriction_backends.specs.Cursor.{buf_of, state_of};
ghost use Rattle.constriction_backends.specs.CursorState.{reversal};
ghost use Rattle.constriction_client.specs.CursorCalls.{RepliesTo, Runs};

use crate::cursor_calls::{CursorCall, CursorReply};
use constriction_backends::{
    BoundedReadWords, BoundedWriteError, BoundedWriteWords, Cursor, ReadWords, Reverse, SafeBuf,
    SafeBufMut, WriteWords,
};
use constriction_words::{Pos, Queue, Seek, Stack, UnwrapInfallible};
use std::alloc::{AllocError, Global};

/// Makes a call of a cursor.
fn step<Word: Copy + Drop, Buf: SafeBufMut<Word>>(
    cursor: &mut Cursor<Word, Buf>,
    call: &CursorCall<Word>,
) -> CursorReply<Word>
    ensures replied { RepliesTo (state_of cursor.old) call.now result (state_of cursor.new) }
    ensures kept { buf_of cursor.new
        ≡ Buf.with_words (buf_of cursor.old) (Buf.words_of (buf_of cursor.new)) }
{
    match call {
        CursorCall::StackRead => {
            CursorReply::Word(ReadWords::<Word, Stack>::read(cursor).unwrap_infallible())
        }
        CursorCall::QueueRead => {
            CursorReply::Word(ReadWords::<Word, Queue>::read(cursor).unwrap_infallible())
        }
        CursorCall::Write(word) => match cursor.write(*word) {
            Ok(()) => CursorReply::Written,
            Err(BoundedWriteError::OutOfSpace) => CursorReply::OutOfSpace,
        },
        CursorCall::StackRemaining => {
            CursorReply::Count(BoundedReadWords::<Word, Stack>::remaining(cursor))
        }
        CursorCall::QueueRemaining => {
            CursorReply::Count(BoundedReadWords::<Word, Queue>::remaining(cursor))
        }
        CursorCall::SpaceLeft => CursorReply::Count(cursor.space_left()),
        CursorCall::StackExhausted => {
            CursorReply::Flag(BoundedReadWords::<Word, Stack>::is_exhausted(cursor))
        }
        CursorCall::QueueExhausted => {
            CursorReply::Flag(BoundedReadWords::<Word, Queue>::is_exhausted(cursor))
        }
        CursorCall::Full => CursorReply::Flag(cursor.is_full()),
        CursorCall::Position => CursorReply::Count(cursor.pos()),
        CursorCall::Seek(position) => match cursor.seek(*position) {
            Ok(()) => CursorReply::Moved,
            Err(()) => CursorReply::NotMoved,
        },
    }
}

/// Seeks in a cursor that was turned round, to a position that is counted on the unreversed side.
fn seek_reversed<Word, Buf: SafeBufMut<Word>>(
    reversed: &mut Reverse<Cursor<Word, Buf>>,
    position: usize,
) -> CursorReply<Word>
    ensures replied { RepliesTo (reversal (state_of reversed.old.0)) (CursorCall.Seek position)
        result (reversal (state_of reversed.new.0)) }
    ensures kept { buf_of reversed.new.0
        ≡ Buf.with_words (buf_of reversed.old.0) (Buf.words_of (buf_of reversed.new.0)) }
{
    let len = reversed.0.buf().words().len();
    if position > len {
        return CursorReply::NotMoved;
    }
    match reversed.seek(len - position) {
        Ok(()) => CursorReply::Moved,
        Err(()) => unreachable!(),
    }
}

/// Makes a call of a cursor that was turned round, with positions that are counted on the
/// unreversed side.
fn step_reversed<Word: Copy + Drop, Buf: SafeBufMut<Word>>(
    reversed: &mut Reverse<Cursor<Word, Buf>>,
    call: &CursorCall<Word>,
) -> CursorReply<Word>
    ensures replied { RepliesTo (reversal (state_of reversed.old.0)) call.now result
        (reversal (state_of reversed.new.0)) }
    ensures kept { buf_of reversed.new.0
        ≡ Buf.with_words (buf_of reversed.old.0) (Buf.words_of (buf_of reversed.new.0)) }
{
    match call {
        CursorCall::StackRead => {
            CursorReply::Word(ReadWords::<Word, Stack>::read(reversed).unwrap_infallible())
        }
        CursorCall::QueueRead => {
            CursorReply::Word(ReadWords::<Word, Queue>::read(reversed).unwrap_infallible())
        }
        CursorCall::Write(word) => match reversed.write(*word) {
            Ok(()) => CursorReply::Written,
            Err(BoundedWriteError::OutOfSpace) => CursorReply::OutOfSpace,
        },
        CursorCall::StackRemaining | CursorCall::Position => {
            CursorReply::Count(BoundedReadWords::<Word, Stack>::remaining(reversed))
        }
        CursorCall::QueueRemaining => {
            CursorReply::Count(BoundedReadWords::<Word, Queue>::remaining(reversed))
        }
        CursorCall::SpaceLeft => CursorReply::Count(reversed.space_left()),
        CursorCall::StackExhausted => {
            CursorReply::Flag(BoundedReadWords::<Word, Stack>::is_exhausted(reversed))
        }
        CursorCall::QueueExhausted => {
            CursorReply::Flag(BoundedReadWords::<Word, Queue>::is_exhausted(reversed))
        }
        CursorCall::Full => CursorReply::Flag(reversed.is_full()),
        CursorCall::Seek(position) => seek_reversed(reversed, *position),
    }
}

/// Runs calls on a cursor, and puts the replies into a `Vec` that has room for them.
pub(crate) fn run_reserved<Word: Copy + Drop, Buf: SafeBufMut<Word>>(
    cursor: &mut Cursor<Word, Buf>,
    calls: &[CursorCall<Word>],
    mut replies: Vec<CursorReply<Word>>,
) -> Vec<CursorReply<Word>>
    requires empty { replies.items ≡ [] }
    requires room { length calls.now ≤ vec_capacity replies }
    ensures ran { Runs (state_of cursor.old) calls.now result.items (state_of cursor.new) }
    ensures kept { buf_of cursor.new
        ≡ Buf.with_words (buf_of cursor.old) (Buf.words_of (buf_of cursor.new)) }
{
    for call in calls {
        let reply = step(cursor, call);
        replies.push_reserved(reply);
    }
    replies
}

/// As `run_reserved`, on a cursor that was turned round.
pub(crate) fn run_reversed_reserved<Word: Copy + Drop, Buf: SafeBufMut<Word>>(
    reversed: &mut Reverse<Cursor<Word, Buf>>,
    calls: &[CursorCall<Word>],
    mut replies: Vec<CursorReply<Word>>,
) -> Vec<CursorReply<Word>>
    requires empty { replies.items ≡ [] }
    requires room { length calls.now ≤ vec_capacity replies }
    ensures ran { Runs (reversal (state_of reversed.old.0)) calls.now result.items
        (reversal (state_of reversed.new.0)) }
    ensures kept { buf_of reversed.new.0
        ≡ Buf.with_words (buf_of reversed.old.0) (Buf.words_of (buf_of reversed.new.0)) }
{
    for call in calls {
        let reply = step_reversed(reversed, call);
        replies.push_reserved(reply);
    }
    replies
}

/// Runs calls on a cursor, in order, and answers a reply for each. A call that is refused, or that
/// finds no word, leaves the cursor as it is, and the run goes on.
///
/// Memory for the replies is asked for once, before the first call. If it is refused, no call was
/// made.
pub fn run_cursor<Word: Copy + Drop, Buf: SafeBufMut<Word>>(
    alloc: Global,
    cursor: &mut Cursor<Word, Buf>,
    calls: &[CursorCall<Word>],
) -> Result<Vec<CursorReply<Word>>, AllocError>
    ensures ok { IfOk result (λ replies.
        Runs (state_of cursor.old) calls.now replies.items (state_of cursor.new)) }
    ensures kept { buf_of cursor.new
        ≡ Buf.with_words (buf_of cursor.old) (Buf.words_of (buf_of cursor.new)) }
    ensures err { OnErr result (cursor.new ≡ cursor.old) }
{
    let replies = Vec::with_capacity(alloc, calls.len())?;
    Ok(run_reserved(cursor, calls, replies))
}

/// As [`run_cursor`], on a cursor that was turned round, as by `into_reversed`. It replies as the
/// unreversed cursor would. Positions are counted on the unreversed side: each is the number of
/// words less the inner position.
pub fn run_reversed<Word: Copy + Drop, Buf: SafeBufMut<Word>>(
    alloc: Global,
    reversed: &mut Reverse<Cursor<Word, Buf>>,
    calls: &[CursorCall<Word>],
) -> Result<Vec<CursorReply<Word>>, AllocError>
    ensures ok { IfOk result (λ replies. Runs (reversal (state_of reversed.old.0)) calls.now
        replies.items (reversal (state_of reversed.new.0))) }
    ensures kept { buf_of reversed.new.0
        ≡ Buf.with_words (buf_of reversed.old.0) (Buf.words_of (buf_of reversed.new.0)) }
    ensures err { OnErr result (reversed.new ≡ reversed.old) }
{
    let replies = Vec::with_capacity(alloc, calls.len())?;
    Ok(run_reversed_reserved(reversed, calls, replies))
}
