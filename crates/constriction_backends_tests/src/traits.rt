//! The default answers of traits, at sources and sinks of a caller's own.

ghost use Rattle.std.specs.Prelude.{◌≡◌, ◌<◌, ◌≤◌, Err, IfErr, MatchResult};
ghost use Rattle.constriction_backends.specs.Source.{CountsRead};
ghost use Rattle.constriction_backends.specs.Sink.{CountsWrite};
ghost use Rattle.constriction_backends.specs.lemmas.Sink.{free_is_taken};

use crate::checks::{holds, same};
use constriction_backends::{
    BoundedReadWords, BoundedWriteError, BoundedWriteWords, ReadWords, WriteWords, laws,
};
use constriction_words::{Queue, Stack};
use std::convert::Infallible;

/// A source that keeps the default answers.
#[derive(Drop)]
struct Endless;

impl ReadWords<u8, Stack> for Endless {
    type ReadError = u8;

    ghost read_gives = { λ _ r _. r ≡ Err 7 };

    fn read(&mut self) -> Result<Option<u8>, u8> {
        Err(7)
    }

    ghost reads_upcoming = { λ s r t h words known. absurd known };
}

/// A sink that keeps the default answers, and refuses words above 9.
#[derive(Drop)]
struct Small {
    last: u8,
}

impl WriteWords<u8> for Small {
    type WriteError = u8;

    ghost write_gives = { λ s word r t. MatchResult r (λ _. (word ≤ 9) × (t.last ≡ word))
        (λ e. (9 < word) × (e ≡ word) × (t.last ≡ s.last)) };

    fn write(&mut self, word: u8) -> Result<(), u8> {
        if word > 9 {
            return Err(word);
        }
        self.last = word;
        Ok(())
    }

    ghost writes_append = { λ s word r t h words known. absurd known };

    ghost room_suffices = { λ s word r t h room. absurd room };
}

#[test]
fn default_answers_say_nothing(rt: HostRuntime) {
    let mut source = Endless;
    same(
        &rt,
        (source.maybe_exhausted(), source.read()),
        (true, Err(7)),
    );
    let mut sink = Small { last: 0 };
    same(&rt, sink.maybe_full(), true);
    let refused = sink.extend_from_iter([4u8, 5, 10, 6].iter().copied());
    same(&rt, refused, Err(10));
    same(&rt, sink.last, 5);
}

/// A source of words that count down to 1. It knows how many are left.
#[derive(Drop)]
struct Countdown {
    left: u8,
}

impl ReadWords<u8, Queue> for Countdown {
    type ReadError = Infallible;

    ghost read_gives = { λ s r t. CountsRead s.left r t.left };

    fn read(&mut self) -> Result<Option<u8>, Infallible> {
        let word = self.left;
        if word == 0 {
            return Ok(None);
        }
        self.left = word - 1;
        Ok(Some(word))
    }

    ghost reads_upcoming = { λ s r t h words known. absurd known };
}

impl BoundedReadWords<u8, Queue> for Countdown {
    ghost items_left = { λ s. s.left };

    fn remaining(&self) -> usize {
        self.left as usize
    }

    ghost counts_reads = { λ s r t exact h. (h, exact) };

    ghost counts_upcoming = { λ s exact words known. absurd known };
}

/// A sink that stores only the number of its free places.
#[derive(Drop)]
struct Places {
    free: u8,
}

impl WriteWords<u8> for Places {
    type WriteError = BoundedWriteError;

    ghost write_gives = { λ s _ r t. CountsWrite s.free r t.free };

    ghost has_room = { λ s. 0 < s.free };

    fn write(&mut self, _word: u8) -> Result<(), BoundedWriteError> {
        if self.free == 0 {
            return Err(BoundedWriteError::OutOfSpace);
        }
        self.free -= 1;
        Ok(())
    }

    ghost writes_append = { λ s word r t h words known. absurd known };

    ghost room_suffices = { λ s word r t h. free_is_taken s.free r t.free h };
}

impl BoundedWriteWords<u8> for Places {
    ghost free_places = { λ s. s.free };

    fn space_left(&self) -> usize {
        self.free as usize
    }

    ghost counts_writes = { λ s word r t h. h };

    ghost room_counts = { λ s h. h };
}

/// Writes a word, unless the sink may be full.
fn write_where_there_is_room<Sink: WriteWords<u8>>(
    sink: &mut Sink,
    word: u8,
) -> Result<(), Sink::WriteError>
    requires { Sink.can_write sink.old }
    ensures { IfErr result Sink.lacks_memory }
{
    if sink.maybe_full() {
        return Ok(());
    }
    sink.write(word)
}

#[test]
fn a_write_where_there_is_room_succeeds(rt: HostRuntime) {
    let mut words = Vec::new(rt.alloc());
    same(&rt, write_where_there_is_room(&mut words, 5), Ok(()));
    holds(&rt, &words, &[5]);
    let mut places = Places { free: 0 };
    same(&rt, write_where_there_is_room(&mut places, 5), Ok(()));
}

#[test]
fn a_source_is_exhausted_where_nothing_remains(rt: HostRuntime) {
    laws::remaining_counts::<u8, Queue, Countdown>();
    let mut source = Countdown { left: 2 };
    for (remaining, word) in [(2, Some(2)), (1, Some(1)), (0, None), (0, None)] {
        same(
            &rt,
            (
                source.remaining(),
                source.is_exhausted(),
                source.maybe_exhausted(),
                source.read(),
            ),
            (remaining, remaining == 0, true, Ok(word)),
        );
    }
}

/// The words of an iterator, how many places are free then, and whether the iterator and one more
/// word are refused.
const EXTENDED: [(&[u8], usize, bool); 2] = [(&[1, 2, 3], 2, false), (&[4, 5], 0, true)];

#[test]
fn a_sink_is_full_where_no_place_is_free_and_refuses_more_words(rt: HostRuntime) {
    let mut sink = Places { free: 5 };
    for (words, free, are_refused) in EXTENDED {
        let extended = laws::extending_counts(&mut sink, words.iter().copied());
        let found = (
            extended.is_err(),
            sink.space_left(),
            sink.is_full(),
            sink.maybe_full(),
            sink.write(9).is_err(),
        );
        same(
            &rt,
            found,
            (are_refused, free, free == 0, true, are_refused),
        );
    }
}
