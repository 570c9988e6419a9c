//! Laws that follow from the steps of a cursor, and the laws of sources and sinks by name. Each is
//! the contract of a function.

ghost use Rattle.std.specs.Prelude.{◌≡◌, ◌↔◌, List, length, reverse, Option, Result, IsOk};
ghost use Rattle.constriction_backends.specs.Cursor.{buf_of, pos_of, OverwritesAll, SeeksTo, TurnsRound, WritesTo};
ghost use Rattle.constriction_backends.specs.CursorState.{State, reversal, StackReads, QueueReads};
ghost use Rattle.constriction_sources.specs.Sink.{Writes};

use crate::cursor::Cursor;
use constriction_buffers::{SafeBuf, SafeBufMut};
pub use constriction_sources::laws::{
    extending_counts, extending_tells, item_end_is_for_good, push_then_pop, pushed_is_popped,
    reads_pop, remaining_counts, seek_back, word_end_is_for_good, writes_push, written_is_read,
};

/// The reversal of the reversal of a cursor's state is that state.
pub fn reversal_twice<Word>()
    ensures { (s : State Word) → reversal (reversal s) ≡ s }
{}

/// A [`Reverse`](crate::Reverse) of a cursor reads, and tells upcoming words, as the reversal of
/// its state: to read a reversed state as a stack is to read the state as a queue, and the other
/// way round.
pub fn reversal_reads<Word, ReadError>()
    ensures stack { (s : State Word) (r : Result (Option Word) ReadError) (t : State Word)
        → StackReads s r t ↔ QueueReads (reversal s) r (reversal t) }
    ensures queue { (s : State Word) (r : Result (Option Word) ReadError) (t : State Word)
        → QueueReads s r t ↔ StackReads (reversal s) r (reversal t) }
    ensures tells { (s : State Word)
        → (s.after ≡ reverse (reversal s).before) × (reverse s.before ≡ (reversal s).after) }
{}

/// A cursor that is reversed twice, as by both `into_reversed`, has its old buffer and position.
pub fn turned_twice<Word, Buf: SafeBufMut<Word>>()
    ensures { (c t d : Cursor Word Buf Buf.SafeBuf) → TurnsRound Buf.with_words c t
        → TurnsRound Buf.with_words t d → d ≡ c }
{}

/// A seek to the position where a cursor stands succeeds, and leaves the cursor as it was.
pub fn seek_stays<Word, Buf: SafeBuf<Word>>()
    ensures { (c : Cursor Word Buf Buf.SafeBuf) (r : Result (Unit {0}) (Unit {0}))
        (t : Cursor Word Buf Buf.SafeBuf) → SeeksTo c (pos_of c) r t → IsOk r × (t ≡ c) }
{}

/// A seek to an earlier position of a cursor succeeds and keeps the buffer, if there are as many
/// words as there were then. No call of a cursor changes their number.
pub fn seek_back_in_a_cursor<Word, Buf: SafeBuf<Word>>()
    ensures { (taken later : Cursor Word Buf Buf.SafeBuf) (r : Result (Unit {0}) (Unit {0}))
        (t : Cursor Word Buf Buf.SafeBuf) → length (Buf.words_of (buf_of later))
        ≡ length (Buf.words_of (buf_of taken)) → SeeksTo later (pos_of taken) r t
        → IsOk r × (pos_of t ≡ pos_of taken) × (buf_of t ≡ buf_of later) }
{}

/// Writes in a row to a cursor, as by `extend_from_iter`, put their words after the words before
/// the position, and overwrite as many. The buffer is the old one with other words.
pub fn extending_overwrites<Word, Buf: SafeBufMut<Word>, WriteError>()
    ensures { (c : Cursor Word Buf Buf.SafeBuf) (words : List Word)
        (t : Cursor Word Buf Buf.SafeBuf)
        → Writes {E = WriteError} (λ s w r t. WritesTo s Buf.with_words w r t) c words t
        → OverwritesAll Buf.with_words c words t }
{}
