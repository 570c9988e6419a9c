//! Runs of calls on a cursor and on its reversal are alike.

ghost use Rattle.std.specs.Prelude.{◌≡◌, List, IfOk, OnErr};
ghost use Rattle.constriction_backends.specs.Cursor.{buf_of, state_of};
ghost use Rattle.constriction_backends.specs.CursorState.{State, reversal};
ghost use Rattle.constriction_client.specs.CursorCalls.{Runs};

use crate::cursor_calls::{CursorCall, CursorReply};
use crate::cursor_runs::{run_reserved, run_reversed_reserved};
use constriction_backends::{Cursor, Reverse, SafeBufMut};
use std::alloc::{AllocError, Global};

/// Runs the same calls on a cursor and on one that was turned round, and answers the replies of
/// both. They are the same if one is the reversal of the other, as after `into_reversed` of a
/// cursor in the same state.
///
/// Memory for the replies of both is asked for before the first call. If it is refused, no call was
/// made on either.
pub fn run_cursor_and_reversal<Word: Copy + Drop, Buf: SafeBufMut<Word>, Turned: SafeBufMut<Word>>(
    alloc: Global,
    cursor: &mut Cursor<Word, Buf>,
    reversed: &mut Reverse<Cursor<Word, Turned>>,
    calls: &[CursorCall<Word>],
) -> Result<(Vec<CursorReply<Word>>, Vec<CursorReply<Word>>), AllocError>
    ensures alike { IfOk result (λ both. state_of reversed.old.0 ≡ reversal (state_of cursor.old)
        → (both.1.items ≡ both.0.items) × (state_of reversed.new.0 ≡ reversal (state_of cursor.new))
        × (state_of cursor.new ≡ reversal (state_of reversed.new.0))) }
    ensures runs { IfOk result (λ both.
        Runs (state_of cursor.old) calls.now both.0.items (state_of cursor.new)) }
    ensures runs_back { IfOk result (λ both. Runs (reversal (state_of reversed.old.0)) calls.now
        both.1.items (reversal (state_of reversed.new.0))) }
    ensures kept { buf_of cursor.new
        ≡ Buf.with_words (buf_of cursor.old) (Buf.words_of (buf_of cursor.new)) }
    ensures reversed_kept { buf_of reversed.new.0
        ≡ Turned.with_words (buf_of reversed.old.0) (Turned.words_of (buf_of reversed.new.0)) }
    ensures err { OnErr result ((cursor.new ≡ cursor.old) × (reversed.new ≡ reversed.old)) }
{
    let replies = Vec::with_capacity(alloc, calls.len())?;
    let others = Vec::with_capacity(alloc, calls.len())?;
    let replies = run_reserved(cursor, calls, replies);
    let others = run_reversed_reserved(reversed, calls, others);
    Ok((replies, others))
}

/// [`run_cursor`](crate::run_cursor) and [`run_reversed`](crate::run_reversed) are alike.
pub fn runs_are_alike<Word>()
    ensures { (calls : List (CursorCall Word)) (s t turned left : State Word)
        (replies others : List (CursorReply Word)) → turned ≡ reversal s → Runs s calls replies t
        → Runs (reversal turned) calls others (reversal left)
        → (others ≡ replies) × (left ≡ reversal t) }
{}
