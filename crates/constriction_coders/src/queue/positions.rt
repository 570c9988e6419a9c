//! Where a range coder stands: how many words are written, and the lower end and the size of its
//! span.

ghost use Rattle.std.specs.Prelude.{◌≡◌, ◌≤◌, length};
ghost use Rattle.constriction_backends.specs.Cursor.{buf_of};
ghost use Rattle.constriction_coders.specs.RangeDecoder.{held_by};
ghost use Rattle.constriction_coders.specs.RangePositions.{coder_state, distance_at, place_of, SeeksSpan};
ghost use Rattle.constriction_coders.specs.Spans.{IsReached};

use crate::queue::range_decoder::RangeDecoder;
use crate::queue::range_encoder::RangeEncoder;
use constriction_backends::{Cursor, ReadWords, SafeBuf};
use constriction_words::{Pos, PosSeek, Queue, Seek};

/// The state of a range coder at a place: the lower two words of the least number of its span, and
/// how many numbers the span has.
#[derive(Clone, Copy, Debug, PartialEq, Eq)]
pub struct RangeCoderState {
    lower: u64,
    range: u64,
}

impl RangeCoderState {
    /// The state that was noted as these two numbers.
    #[inline]
    pub fn new(lower: u64, range: u64) -> Self
        ensures { result ≡ coder_state lower range }
    {
        Self { lower, range }
    }

    /// The lower end, modulo `2^64`.
    #[inline]
    pub fn lower(&self) -> u64
        ensures { result ≡ self.now.lower }
    {
        self.lower
    }

    /// The size of the span. That of an encoder is at least `2^32`.
    #[inline]
    pub fn range(&self) -> u64
        ensures { result ≡ self.now.range }
    {
        self.range
    }
}

impl PosSeek for RangeEncoder {
    type Position = (usize, RangeCoderState);

    ghost position = { place_of };
}

impl Pos for RangeEncoder {
    #[inline]
    fn pos(&self) -> (usize, RangeCoderState)
        ensures place { result ≡ place_of self.now }
        ensures reached { IsReached self.now }
    {
        let state = RangeCoderState::new(self.lower, self.range);
        (self.words.len(), state)
    }
}

/// How far the point at a place lies above the lower end, modulo `2^64`. A word of it that is
/// missing is 0.
fn distance_at_place(words: &[u32], place: usize, state: RangeCoderState) -> u64
    requires { place ≤ length words.now }
    ensures { result ≡ distance_at (place, state) words.now }
{
    let high = words.get(place).copied().unwrap_or(0) as u64;
    let low = words.get(place + 1).copied().unwrap_or(0) as u64;
    ((high << 32) + low).wrapping_sub(state.lower)
}

impl<Buf: SafeBuf<u32>> RangeDecoder<Cursor<u32, Buf>> {
    /// Goes to a place that was noted while the message was encoded, back or forth.
    ///
    /// A place past the words is refused, and so is one whose span has fewer than `2^32` numbers,
    /// or has its upper end below the point. A refusal leaves the decoder as it was.
    pub fn seek(&mut self, pos: (usize, RangeCoderState)) -> Result<(), ()>
        ensures sought { SeeksSpan ⟦<Cursor<u32, Buf> as ReadWords<u32, Queue>>⟧.tells_upcoming
            (Buf.words_of (buf_of self.old.words)) (held_by self.old) pos result
            (held_by self.new) }
        ensures buf { buf_of self.new.words ≡ buf_of self.old.words }
    {
        let (place, state) = pos;
        let words = self.words.buf().words();
        let len = words.len();
        if place > len || state.range < 1 << 32 {
            return Err(());
        }
        let offset = distance_at_place(words, place, state);
        if offset > state.range {
            return Err(());
        }
        match self.words.seek(len.min(place + 2)) {
            Ok(()) => {
                self.range = state.range;
                self.offset = offset;
                Ok(())
            }
            Err(()) => unreachable!(),
        }
    }
}
