//! A range decoder decodes symbols.

ghost use Rattle.constriction_coders.specs.Intervals.{DecodesFromQueue, IsRead};
ghost use Rattle.constriction_coders.specs.RangeDecoder.{held_by};

use crate::code::Code;
use crate::decode::Decode;
use crate::entry::symbol_and_entry;
use crate::model_word::ModelWord;
use crate::queue::interval::{part_of, quantile_at, unit_of};
use crate::queue::range_decoder::{DecoderFrontendError, RangeDecoder};
use constriction_backends::ReadWords;
use constriction_model::DecoderModel;
use constriction_words::{CoderError, Queue};
use std::marker::Model;

/// What a range decoder holds, and the words that it reads.
#[derive(Drop)]
pub struct DecoderContent<Source> {
    range: u64,
    offset: u64,
    source: Source,
    // A caller of a function over any coder has no proof without it.
    _order: Queue,
}

impl<Source> Model for DecoderContent<Source> {
    ghost use Rattle.std.specs.Prelude.{⊤};
    ghost use Rattle.constriction_coders.specs.Intervals.{Held, held_of};

    ghost Value = { Held Source };

    ghost view = { λ c. held_of c.range c.offset c.source };

    ghost invariant = { λ _. ⊤ };
}

impl<Source: ReadWords<u32, Queue>> Code for RangeDecoder<Source> {
    type Content = DecoderContent<Source>;

    ghost held = { held_by };
}

impl<Source: ReadWords<u32, Queue>, const PRECISION: usize> Decode<PRECISION>
    for RangeDecoder<Source> {
    type FrontendError = DecoderFrontendError;

    type BackendError = Source::ReadError;

    ghost can_decode = { λ decoder. Source.can_read decoder.words };

    ghost is_decoded = { λ Symbol Stands rows.
        IsRead Stands rows Source.read_gives PRECISION };

    ghost decodes = { λ Symbol MayRefuse rows old r new.
        DecodesFromQueue MayRefuse rows Source.read_gives PRECISION (held_by old) r (held_by new) };

    /// Decodes the next symbol. If all were decoded, it still decodes a symbol, or the data is
    /// invalid.
    ///
    /// It fails with `InvalidData` only if the point lies above all quantiles, with `OutOfMemory`
    /// only if the model may refuse the row in which it lies, and with the backend's error only if
    /// a read answered that. An error leaves what is held, and only a read that failed may change
    /// the source.
    fn decode_symbol<D>(
        &mut self,
        model: &D,
    ) -> Result<D::Symbol, CoderError<DecoderFrontendError, Source::ReadError>>
    where
        D: DecoderModel<PRECISION, Probability: ModelWord>,
        D::Symbol: Drop,
    {
        let unit = unit_of::<PRECISION>(self.range);
        let Some(quantile) = quantile_at::<PRECISION>(unit, self.offset) else {
            return Err(CoderError::Frontend(DecoderFrontendError::InvalidData));
        };
        let Ok((symbol, entry)) = symbol_and_entry::<D, PRECISION>(model, quantile) else {
            return Err(CoderError::Frontend(DecoderFrontendError::OutOfMemory));
        };
        let (range, offset) = part_of::<PRECISION>(
            self.range,
            self.offset,
            unit,
            entry.0,
            entry.1,
            quantile,
        );
        match self.hold(range, offset) {
            Ok(()) => Ok(symbol),
            Err(error) => Err(CoderError::Backend(error)),
        }
    }
}
