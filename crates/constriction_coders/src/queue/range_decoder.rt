//! A range decoder: what was encoded first is decoded first.

ghost use Rattle.std.specs.Prelude.{◌≡◌, ◌≢◌, ◌^◌, ◌<◌, ◌≤◌, [], ℕ, List, Ok, Err, IfOk, IsTrue, OnErr, OnOk};
ghost use Rattle.std.specs.Bool.{OnFalse};
ghost use Rattle.constriction_coders.specs.Intervals.{word_or_zero, interval, IsStart, IsWidenedByRead, MayBeAtEnd};
ghost use Rattle.constriction_coders.specs.RangeLaws.{IsAt};
ghost use Rattle.constriction_coders.specs.Spans.{whole};

use constriction_backends::ReadWords;
use constriction_words::Queue;
use std::alloc::AllocError;
use thiserror::Error;

/// Why nothing was decoded.
#[derive(Debug, PartialEq, Eq, Drop, Error)]
pub enum DecoderFrontendError {
    /// The point belongs to no quantile, so these are not the words of a range encoder for such
    /// models.
    #[error("The compressed data is invalid.")]
    InvalidData,
    #[error("Memory for the symbol was refused.")]
    OutOfMemory,
}

impl From<AllocError> for DecoderFrontendError {
    ghost use Rattle.constriction_coders.specs.declared.queue.range_decoder.DecoderFrontendError.TheVariants.{OutOfMemory};

    ghost from_gives = { λ _ error. error ≡ OutOfMemory };

    fn from(_: AllocError) -> DecoderFrontendError {
        DecoderFrontendError::OutOfMemory
    }
}

/// A range decoder over words of 32 bits, in the format of the Rust crate's `DefaultRangeDecoder`.
///
/// Decoding does not depend on where the interval lies, so nothing ever wraps. The interval has at
/// least `2^32` numbers. The point lies in it or, at the start, possibly just above it.
#[derive(Drop)]
pub struct RangeDecoder<Source: ReadWords<u32, Queue>> {
    pub(crate) range: u64,
    pub(crate) offset: u64,
    pub(crate) words: Source,
    ghost wide: { 2 ^ 32 ≤ range },
    ghost inside: { offset ≤ range },
}

/// The next word, or 0 if there is none.
#[inline]
pub(crate) fn next_or_zero<Source: ReadWords<u32, Queue>>(
    source: &mut Source,
) -> Result<u32, Source::ReadError>
    requires { Source.can_read source.old }
    ensures goes_on { Source.can_read source.new }
    ensures ok { IfOk result (λ word. (answer : _)
        × Source.read_gives source.old (Ok answer) source.new × (word ≡ word_or_zero answer)) }
    ensures small { IfOk result (λ word. word < 2 ^ 32) }
    ensures failed { (error : _) → result ≡ Err error
        → Source.read_gives source.old (Err error) source.new }
{
    match source.read()? {
        Some(word) => Ok(word),
        None => Ok(0),
    }
}

impl<Source: ReadWords<u32, Queue> + Drop> RangeDecoder<Source> {
    ghost use Rattle.constriction_coders.specs.RangeDecoder.{held_by};

    /// The decoder of these words. Two are read; one that is missing is 0. An error is that of a
    /// read.
    pub fn from_compressed(words: Source) -> Result<Self, Source::ReadError>
        requires { Source.can_read words }
        ensures goes_on { IfOk result (λ decoder. Source.can_read decoder.words) }
        ensures ok { IfOk result (λ decoder.
            IsStart Source.read_gives words (held_by decoder).held decoder.words) }
        ensures begins { IfOk result (λ decoder. (known : List ℕ) → Source.tells_upcoming words
            known → IsAt Source.tells_upcoming whole known (held_by decoder)) }
        ensures failed { (error : _) → result ≡ Err error
            → (reached left : Source) × Source.read_gives reached (Err error) left }
    {
        let mut words = words;
        let high = match next_or_zero(&mut words) {
            Ok(word) => word as u64,
            Err(error) => return Err(error),
        };
        match next_or_zero(&mut words) {
            Ok(low) => Ok(Self {
                range: u64::MAX,
                offset: (high << 32) + low as u64,
                words,
            }),
            Err(error) => Err(error),
        }
    }
}

impl<Source: ReadWords<u32, Queue>> RangeDecoder<Source> {
    ghost use Rattle.constriction_coders.specs.RangeDecoder.{held_by};

    /// Holds a part of the interval, and reads a word if it is small.
    #[inline]
    pub(crate) fn hold(&mut self, range: u64, offset: u64) -> Result<(), Source::ReadError>
        requires can_read { Source.can_read self.old.words }
        requires inside { offset < range }
        ensures goes_on { Source.can_read self.new.words }
        ensures ok { OnOk result (IsWidenedByRead Source.read_gives (interval range offset)
            self.old.words (held_by self.new).held self.new.words) }
        ensures inside { OnOk result (self.new.offset < self.new.range) }
        ensures failed { (error : _) → result ≡ Err error
            → Source.read_gives self.old.words (Err error) self.new.words }
        ensures same { OnErr result ((held_by self.new).held ≡ (held_by self.old).held) }
    {
        if range >= 1 << 32 {
            self.range = range;
            self.offset = offset;
            return Ok(());
        }
        match next_or_zero(&mut self.words) {
            Ok(word) => {
                self.range = range << 32;
                self.offset = (offset << 32) + word as u64;
                Ok(())
            }
            Err(error) => Err(error),
        }
    }

    /// Whether all symbols may have been decoded. If nothing comes after the words of the message,
    /// `false` says that some are left.
    pub fn maybe_exhausted(&self) -> bool
        ensures near { IsTrue result → MayBeAtEnd (held_by self.now).held }
        ensures left { OnFalse result (MayBeAtEnd (held_by self.now).held → (words : List ℕ)
            → Source.tells_upcoming self.now.words words → words ≢ []) }
    {
        (self.range == u64::MAX || self.offset < (1 << 33) - 1) && self.words.maybe_exhausted()
    }
}
