//! The next symbol, and several, one after the other.

ghost use Rattle.std.specs.Prelude.{◌≡◌, OnOk, OnErr, IfErr};
ghost use Rattle.constriction_model.specs.Rows.{RowsTile};
ghost use Rattle.constriction_coders.specs.Places.{entry_at};
ghost use Rattle.constriction_coders.specs.Spans.{IsNarrowed};
ghost use Rattle.constriction_adaptive.specs.Predicted.{predicted_entry, AdaptiveEncodingStops, AllTile, AreCoded, IsEncodingFault};

use crate::error::EncoderFrontendError;
use crate::predictor::Predictor;
use constriction_coders::Encode;
use constriction_coders::queue::RangeEncoder;
use constriction_words::CoderError;
use std::alloc::AllocError;

/// Encodes a symbol by the model that the predictor has for it, and learns it.
///
/// It fails with `ImpossibleSymbol` only if the model has no entry for the symbol, with
/// `OutOfMemory` only if memory to learn it is refused, and with `AllocError` only if a word is to
/// be written. An error leaves the encoder and what was learned.
pub fn encode_next<P, const PRECISION: usize>(
    predictor: &mut P,
    symbol: &P::Symbol,
    encoder: &mut RangeEncoder,
) -> Result<(), CoderError<EncoderFrontendError, AllocError>>
where
    P: Predictor<PRECISION>,
    ensures ok { OnOk result (IsNarrowed (entry_at (predicted_entry P.rows P.Model.symbol_eq)
        (P.state predictor.old, symbol.now)) PRECISION encoder.old encoder.new) }
    ensures learned { OnOk result
        (P.state predictor.new ≡ P.next (P.state predictor.old) symbol.now) }
    ensures tile { OnOk result (RowsTile 32 PRECISION (P.rows (P.state predictor.old))) }
    ensures fault { IfErr result (λ error.
        IsEncodingFault (entry_at (predicted_entry P.rows P.Model.symbol_eq)) PRECISION error
        (P.state predictor.old, symbol.now) encoder.old) }
    ensures same { OnErr result (encoder.new ≡ encoder.old) }
    ensures unlearned { OnErr result (P.state predictor.new ≡ P.state predictor.old) }
{
    match predictor.reserve() {
        Ok(()) => {}
        Err(_) => return Err(CoderError::Frontend(EncoderFrontendError::OutOfMemory)),
    }
    match encoder.encode_symbol(symbol, predictor.model()) {
        Ok(()) => {
            predictor.learn(symbol);
            Ok(())
        }
        Err(CoderError::Frontend(_)) => {
            Err(CoderError::Frontend(EncoderFrontendError::ImpossibleSymbol))
        }
        Err(CoderError::Backend(error)) => Err(CoderError::Backend(error)),
    }
}

/// Encodes the symbols, the first one first, each by the model that the predictor has for it.
///
/// It fails as [`encode_next`] does. The symbols before the one that was not encoded stay encoded
/// and learned.
pub fn encode_adaptively<P, const PRECISION: usize>(
    predictor: &mut P,
    symbols: &[P::Symbol],
    encoder: &mut RangeEncoder,
) -> Result<(), CoderError<EncoderFrontendError, AllocError>>
where
    P: Predictor<PRECISION>,
    ensures ok { OnOk result (AreCoded P.next
        (λ s. IsNarrowed (entry_at (predicted_entry P.rows P.Model.symbol_eq) s) PRECISION)
        symbols.now (P.state predictor.old) encoder.old (P.state predictor.new) encoder.new) }
    ensures tile { OnOk result
        (AllTile P.rows P.next PRECISION (P.state predictor.old) symbols.now) }
    ensures err { IfErr result (λ error. AdaptiveEncodingStops P.next
        (λ s. IsNarrowed (entry_at (predicted_entry P.rows P.Model.symbol_eq) s) PRECISION)
        (IsEncodingFault (entry_at (predicted_entry P.rows P.Model.symbol_eq)) PRECISION error)
        symbols.now (P.state predictor.old) encoder.old (P.state predictor.new) encoder.new) }
{
    for symbol in symbols {
        match encode_next(predictor, symbol, encoder) {
            Ok(()) => {}
            Err(error) => return Err(error),
        }
    }
    Ok(())
}
