//! A `&mut` of a source, a sink or a stack, which is one too.

ghost use Rattle.std.specs.Prelude.{◌≡◌};

use crate::read::{BoundedReadWords, ReadWords};
use crate::stack::{StackSource, WordStack};
use crate::write::{BoundedWriteWords, WriteWords};
use constriction_words::{Semantics, Stack};

impl<Word, S: Semantics, Source: ReadWords<Word, S>> ReadWords<Word, S> for &mut Source {
    type ReadError = Source::ReadError;

    // A read moves the source behind the reference, and the reference stays the same.
    ghost read_gives = { λ s r t. Source.read_gives s.now r t.now
        × (t.ghost_name ≡ s.ghost_name) };

    ghost tells_upcoming = { λ s words. Source.tells_upcoming s.now words };

    ghost can_read = { λ s. Source.can_read s.now };

    #[inline]
    fn read(&mut self) -> Result<Option<Word>, Source::ReadError> {
        (**self).read()
    }

    #[inline]
    fn maybe_exhausted(&self) -> bool {
        (**self).maybe_exhausted()
    }

    ghost reads_upcoming = { λ s r t gives. Source.reads_upcoming s.now r t.now gives.0 };
}

impl<Word, S: Semantics, Source: BoundedReadWords<Word, S>> BoundedReadWords<Word, S>
    for &mut Source {
    ghost items_left = { λ s. Source.items_left s.now };

    ghost is_exact = { λ s. Source.is_exact s.now };

    #[inline]
    fn remaining(&self) -> usize {
        (**self).remaining()
    }

    #[inline]
    fn is_exhausted(&self) -> bool {
        (**self).is_exhausted()
    }

    ghost counts_reads = { λ s r t exact gives.
        Source.counts_reads s.now r t.now exact gives.0 };

    ghost counts_upcoming = { λ s. Source.counts_upcoming s.now };
}

impl<Word, Source: StackSource<Word>> StackSource<Word> for &mut Source {
    ghost words_of = { λ s. Source.words_of s.now };

    ghost words_come = { λ s. Source.words_come s.now };

    ghost no_others_come = { λ s. Source.no_others_come s.now };

    ghost always_readable = { λ s. Source.always_readable s.now };
}

impl<Word, Sink: WriteWords<Word>> WriteWords<Word> for &mut Sink {
    type WriteError = Sink::WriteError;

    // A write is to the sink behind the reference, and the reference stays the same.
    ghost write_gives = { λ s w r t. Sink.write_gives s.now w r t.now
        × (t.ghost_name ≡ s.ghost_name) };

    ghost tells_written = { λ s words. Sink.tells_written s.now words };

    ghost has_room = { λ s. Sink.has_room s.now };

    ghost lacks_memory = { Sink.lacks_memory };

    ghost can_write = { λ s. Sink.can_write s.now };

    #[inline]
    fn write(&mut self, word: Word) -> Result<(), Sink::WriteError> {
        (**self).write(word)
    }

    #[inline]
    fn maybe_full(&self) -> bool {
        (**self).maybe_full()
    }

    ghost writes_append = { λ s w r t gives. Sink.writes_append s.now w r t.now gives.0 };

    ghost room_suffices = { λ s w r t gives. Sink.room_suffices s.now w r t.now gives.0 };
}

impl<Word, Sink: BoundedWriteWords<Word>> BoundedWriteWords<Word> for &mut Sink {
    ghost free_places = { λ s. Sink.free_places s.now };

    #[inline]
    fn space_left(&self) -> usize {
        (**self).space_left()
    }

    #[inline]
    fn is_full(&self) -> bool {
        (**self).is_full()
    }

    ghost counts_writes = { λ s w r t gives. Sink.counts_writes s.now w r t.now gives.0 };

    ghost room_counts = { λ s. Sink.room_counts s.now };
}

impl<Word, Backend: WordStack<Word>> WordStack<Word> for &mut Backend {
    ghost tells_words = { λ s. Backend.tells_words s.now };

    ghost tells_no_others = { λ s. Backend.tells_no_others s.now };

    ghost always_writable = { λ s. Backend.always_writable s.now };
}
