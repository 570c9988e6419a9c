//! A range encoder: what is encoded first is decoded first.

ghost use Rattle.std.specs.Prelude.{◌≡◌, ◌≢◌, ◌↔◌, ℕ, List, length, Err, IfOk, IfErr, OnErr, IsTrue};
ghost use Rattle.constriction_coders.specs.RangeDecoder.{held_by};
ghost use Rattle.constriction_coders.specs.RangeLaws.{IsAt};
ghost use Rattle.constriction_coders.specs.Spans.{whole, IsNarrowed, IsNarrowingFault, IsSealed, LeadTo};

use crate::code::Code;
use crate::encode::Encode;
use crate::entry::entry_of_symbol;
use crate::model_word::ModelWord;
use crate::queue::carrying::{ends_in_zero, raised, sealed, widened};
use crate::queue::encoded_words::EncodedWords;
use crate::queue::interval::unit_of;
use crate::queue::range_decoder::RangeDecoder;
use constriction_backends::ReadWords;
use constriction_model::EncoderModel;
use constriction_words::{CoderError, DefaultEncoderFrontendError, Queue};
use std::alloc::{AllocError, Global};
use std::marker::Model;

/// A range encoder over words of 32 bits, in the format of the Rust crate's `DefaultRangeEncoder`.
///
/// Clauses see the span of numbers that it holds, each of which stands for the message. A carry
/// goes into the words that are written already, so no word is held back. A symbol costs two
/// multiplications, and at most one word is written. If the lower end of its part carries, words of
/// all ones are cleared, up to one that is not.
#[derive(Drop)]
pub struct RangeEncoder {
    pub(crate) words: Vec<u32>,
    pub(crate) lower: u64,
    pub(crate) range: u64,
}

impl Model for RangeEncoder {
    ghost use Rattle.constriction_coders.specs.Spans.{Span, span_of, IsReached};

    ghost Value = { Span };

    ghost view = { λ c. span_of c.words.items c.lower c.range };

    ghost invariant = { λ c. IsReached (span_of c.words.items c.lower c.range) };
}

impl RangeEncoder {
    /// An encoder that holds no symbol yet. No memory is asked for.
    pub fn new(alloc: Global) -> Self
        ensures { result ≡ whole }
    {
        Self {
            words: Vec::new(alloc),
            lower: 0,
            range: u64::MAX,
        }
    }

    /// Whether no symbol is encoded.
    pub fn is_empty(&self) -> bool
        ensures { IsTrue result ↔ (self.now ≡ whole) }
    {
        self.range == u64::MAX
    }

    /// How many words [`into_compressed`](Self::into_compressed) gives.
    pub fn num_words(&self) -> usize
        ensures { (words : List ℕ) → IsSealed self.now words → result ≡ length words }
    {
        if self.range == u64::MAX {
            return 0;
        }
        let words = self.words.as_slice();
        if ends_in_zero(self.lower, self.range) {
            words.len() + 2
        } else {
            words.len() + 1
        }
    }

    /// Forgets all symbols. The memory of the words is kept.
    pub fn clear(&mut self)
        ensures { self.new ≡ whole }
    {
        self.words.clear();
        self.lower = 0;
        self.range = u64::MAX;
    }

    /// A copy of the words that [`into_compressed`](Self::into_compressed) gives. Memory for them
    /// is asked for once, if there are any.
    pub fn get_compressed(&self, alloc: Global) -> Result<Vec<u32>, AllocError>
        ensures ok { IfOk result (λ words. IsSealed self.now words.items) }
        ensures memory { OnErr result (self.now ≢ whole) }
    {
        if self.range == u64::MAX {
            return Ok(Vec::new(alloc));
        }
        let words = self.words.as_slice();
        let mut all = Vec::with_capacity(alloc, words.len() + 2)?;
        all.extend_from_slice(words)?;
        sealed(all, self.lower, self.range)
    }

    /// A decoder of what is encoded so far, while the encoder stays as it is. No memory is asked
    /// for, and no word is copied.
    pub fn decoder<'e>(&'e self) -> RangeDecoder<EncodedWords<'e>>
        ensures { (words : List ℕ) × LeadTo self.now words
            × IsAt ⟦<EncodedWords<'e> as ReadWords<u32, Queue>>⟧.tells_upcoming whole words
            (held_by result) }
    {
        let words = EncodedWords::new(self.words.as_slice(), self.lower);
        match RangeDecoder::from_compressed(words) {
            Ok(decoder) => decoder,
            Err(never) => match never {},
        }
    }

    /// The words of the message, at most two more than were written. They are decoded alike
    /// whatever words come after them.
    ///
    /// If memory for these words is refused, the encoder is dropped.
    pub fn into_compressed(self) -> Result<Vec<u32>, AllocError>
        ensures ok { IfOk result (λ words. IsSealed self words.items) }
        ensures memory { OnErr result (self ≢ whole) }
    {
        let lower = self.lower;
        let range = self.range;
        if range == u64::MAX {
            return Ok(self.words);
        }
        sealed(self.words, lower, range)
    }
}

impl Code for RangeEncoder {
    type Content = RangeEncoder;

    ghost held = { λ encoder. encoder };
}

impl<const PRECISION: usize> Encode<PRECISION> for RangeEncoder {
    type FrontendError = DefaultEncoderFrontendError;

    type BackendError = AllocError;

    ghost is_encoded = { λ entry old new. IsNarrowed entry PRECISION old new };

    ghost encodes = { λ entry old r new.
        IfErr r (λ error. IsNarrowingFault entry PRECISION error old) };

    /// Encodes a symbol.
    ///
    /// It fails with `ImpossibleSymbol` only if the model has no entry for the symbol, and with
    /// `AllocError` only if a word is to be written. An error leaves the encoder as it was.
    fn encode_symbol<E>(
        &mut self,
        symbol: &E::Symbol,
        model: &E,
    ) -> Result<(), CoderError<DefaultEncoderFrontendError, AllocError>>
    where
        E: EncoderModel<PRECISION, Probability: ModelWord>,
    {
        let Some((left, weight)) = entry_of_symbol::<E, PRECISION>(model, symbol) else {
            return Err(CoderError::Frontend(DefaultEncoderFrontendError::ImpossibleSymbol));
        };
        let unit = unit_of::<PRECISION>(self.range);
        let by = unit * left as u64;
        let range = unit * weight as u64;
        if range >= 1 << 32 {
            self.lower = raised(&mut self.words, self.lower, by);
            self.range = range;
            return Ok(());
        }
        match self.words.reserve(1) {
            Ok(()) => {}
            Err(error) => return Err(CoderError::Backend(error)),
        }
        let lower = raised(&mut self.words, self.lower, by);
        self.lower = widened(&mut self.words, lower);
        self.range = range << 32;
        Ok(())
    }
}
