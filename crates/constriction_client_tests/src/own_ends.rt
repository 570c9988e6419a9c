//! Items written and read by a sink and a source of the caller's own that fail.

ghost use Rattle.std.specs.Prelude.{◌≡◌};
ghost use Rattle.constriction_backends.specs.Stack.{Pushes};
ghost use Rattle.constriction_backends.specs.lemmas.Stack.{Pushes-append};

use crate::checks::{holds, same, small};
use constriction_backends::{ReadWords, WriteWords};
use constriction_client::{ReadFault, read_symbols, write_quantiles};
use constriction_test_support::contiguous::Weighted;
use constriction_words::{CoderError, Queue};

/// A sink of at most two words. It hands back each word that it refuses.
#[derive(Drop)]
struct TwoWords {
    words: Vec<u8>,
}

impl WriteWords<u8> for TwoWords {
    type WriteError = u8;

    ghost write_gives = { λ s word r t. Pushes s.words.items word r t.words.items };

    ghost tells_written = { λ s words. words ≡ s.words.items };

    fn write(&mut self, word: u8) -> Result<(), u8> {
        if self.words.len() >= 2 {
            return Err(word);
        }
        match self.words.push(word) {
            Ok(()) => Ok(()),
            Err(_) => Err(word),
        }
    }

    ghost writes_append = { Pushes-append (λ s. s.words.items) };

    ghost room_suffices = { λ s word r t h room. absurd room };
}

#[test]
fn a_refusal_of_the_sink_is_handed_on(rt: HostRuntime) {
    let model = small(&rt, rt.alloc());
    let mut sink = TwoWords {
        words: Vec::new(rt.alloc()),
    };
    let items = [(0, 2), (3, 41), (1, 0), (4, 0)];
    let written = write_quantiles(&model, &items, &mut sink);
    same(&rt, written, Err(CoderError::Backend(3)));
    holds(&rt, &sink.words, &[2, 63]);
}

/// A source that answers 63, an error, 2, and then `None`.
#[derive(Drop)]
struct Interrupted {
    reads: u8,
}

impl ReadWords<u8, Queue> for Interrupted {
    type ReadError = &'static str;

    ghost read_gives = { λ _ _ _. Unit {0} };

    fn read(&mut self) -> Result<Option<u8>, &'static str> {
        let turn = self.reads;
        self.reads = turn.saturating_add(1);
        match turn {
            0 => Ok(Some(63)),
            1 => Err("interrupted"),
            2 => Ok(Some(2)),
            _ => Ok(None),
        }
    }

    ghost reads_upcoming = { λ s r t gives words known. absurd known };
}

fn read_interrupted(
    model: &Weighted<6>,
    source: &mut Interrupted,
    out: &mut Vec<(usize, u8)>,
) -> Result<usize, CoderError<ReadFault, &'static str>> {
    read_symbols::<Queue, _, _, 6>(model, source, 3, out)
}

#[test]
fn an_error_of_the_source_is_handed_on(rt: HostRuntime) {
    let model = small(&rt, rt.alloc());
    let mut source = Interrupted { reads: 0 };
    let mut out = Vec::new(rt.alloc());
    let answer = read_interrupted(&model, &mut source, &mut out);
    let interrupted = Err(CoderError::Backend("interrupted"));
    same(&rt, (answer, source.reads), (interrupted, 2));
    holds(&rt, &out, &[(3, 41)]);
    let answer = read_interrupted(&model, &mut source, &mut out);
    same(&rt, (answer, source.reads), (Ok(1), 4));
    holds(&rt, &out, &[(3, 41), (0, 2)]);
}
