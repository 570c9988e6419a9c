//! The parts of a range decoder: the words that are still to be read, and its interval.

ghost use Rattle.std.specs.Prelude.{◌≡◌, ◌↔◌, IsOk, IfOk, IfErr};
ghost use Rattle.constriction_coders.specs.Intervals.{held_of, interval, DecoderMayHold};
ghost use Rattle.constriction_coders.specs.RangeDecoder.{held_by};

use crate::queue::range_decoder::RangeDecoder;
use constriction_backends::ReadWords;
use constriction_words::Queue;

impl<Source: ReadWords<u32, Queue> + Drop> RangeDecoder<Source> {
    /// The decoder of these parts, as [`into_raw_parts`](Self::into_raw_parts) gives them. No word
    /// is read.
    ///
    /// Parts that no decoder has come back: an interval of fewer than `2^32` numbers, or a point
    /// above its upper end.
    pub fn from_raw_parts(
        source: Source,
        range: u64,
        offset: u64,
    ) -> Result<Self, (Source, u64, u64)>
        ensures accepted { IsOk result ↔ DecoderMayHold (interval range offset) }
        ensures ok { IfOk result (λ decoder. held_by decoder ≡ held_of range offset source) }
        ensures refused { IfErr result (λ parts. parts ≡ (source, range, offset)) }
    {
        if range < 1 << 32 || offset > range {
            return Err((source, range, offset));
        }
        Ok(Self {
            range,
            offset,
            words: source,
        })
    }

    /// The source, from which the words up to those of the interval were read; how many numbers the
    /// interval has; and how far from its lower end the point lies.
    pub fn into_raw_parts(self) -> (Source, u64, u64)
        ensures held { held_of result.1 result.2 result.0 ≡ held_by self }
        ensures accepted { DecoderMayHold (interval result.1 result.2) }
    {
        (self.words, self.range, self.offset)
    }
}
