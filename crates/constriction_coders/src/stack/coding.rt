//! A stack coder encodes and decodes symbols.

ghost use Rattle.constriction_coders.specs.AnsCoder.{held_by, DecodesFromStack};
ghost use Rattle.constriction_coders.specs.Steps.{backend_result, IsDecoded, IsEncoded, WritesAtMostOne};

use crate::code::Code;
use crate::decode::Decode;
use crate::encode::Encode;
use crate::entry::{entry_of_symbol, symbol_and_entry};
use crate::model_word::ModelWord;
use crate::stack::ans_coder::AnsCoder;
use crate::stack::state::quantile_of;
use constriction_backends::{StackSource, WordStack};
use constriction_model::{DecoderModel, EncoderModel};
use constriction_words::{CoderError, DefaultEncoderFrontendError, Stack};
use std::alloc::AllocError;
use std::marker::Model;

/// What a stack coder holds: the state, and the words under it.
#[derive(Drop)]
pub struct StackContent {
    // A caller of a function over any coder has no proof without it.
    _order: Stack,
}

impl Model for StackContent {
    ghost use Rattle.std.specs.Prelude.{[], ⊤};
    ghost use Rattle.constriction_coders.specs.Steps.{Content, content};

    ghost Value = { Content };

    ghost view = { λ _. content 0 [] };

    ghost invariant = { λ _. ⊤ };
}

impl<Backend: StackSource<u32>> Code for AnsCoder<Backend> {
    type Content = StackContent;

    ghost held = { held_by };
}

impl<Backend: WordStack<u32>, const PRECISION: usize> Encode<PRECISION> for AnsCoder<Backend> {
    type FrontendError = DefaultEncoderFrontendError;

    type BackendError = Backend::WriteError;

    ghost is_encoded = { λ entry old new. IsEncoded entry PRECISION new old };

    ghost encodes = { λ _ old r new.
        WritesAtMostOne Backend.write_gives old.words (backend_result r) new.words };

    /// Encodes a symbol.
    ///
    /// It fails with `ImpossibleSymbol` only if the model has no entry for the symbol, and with the
    /// backend's error only if a write answered that. An error leaves the state and the words.
    fn encode_symbol<E>(
        &mut self,
        symbol: &E::Symbol,
        model: &E,
    ) -> Result<(), CoderError<DefaultEncoderFrontendError, Backend::WriteError>>
    where
        E: EncoderModel<PRECISION, Probability: ModelWord>,
    {
        let Some((left, weight)) = entry_of_symbol::<E, PRECISION>(model, symbol) else {
            return Err(CoderError::Frontend(DefaultEncoderFrontendError::ImpossibleSymbol));
        };
        match self.put_entry::<PRECISION>(left, weight) {
            Ok(()) => Ok(()),
            Err(error) => Err(CoderError::Backend(error)),
        }
    }
}

impl<Backend: StackSource<u32>, const PRECISION: usize> Decode<PRECISION> for AnsCoder<Backend> {
    type FrontendError = AllocError;

    type BackendError = Backend::ReadError;

    ghost is_decoded = { λ Symbol Stands rows symbol old new.
        IsDecoded Stands rows PRECISION symbol old new };

    ghost decodes = { λ Symbol MayRefuse rows. DecodesFromStack MayRefuse rows PRECISION };

    /// Decodes the symbol that was encoded last. If nothing was encoded, it still decodes a symbol.
    ///
    /// Memory is refused only if the model may refuse the row of the state's quantile. The
    /// backend's error comes only if the state needs a word and a read answered that error. An
    /// error leaves the state and the words.
    fn decode_symbol<D>(
        &mut self,
        model: &D,
    ) -> Result<D::Symbol, CoderError<AllocError, Backend::ReadError>>
    where
        D: DecoderModel<PRECISION, Probability: ModelWord>,
        D::Symbol: Drop,
    {
        let quantile = quantile_of::<PRECISION>(self.state);
        let (symbol, (left, weight)) = match symbol_and_entry::<D, PRECISION>(model, quantile) {
            Ok(answer) => answer,
            Err(error) => return Err(CoderError::Frontend(error)),
        };
        match self.take_entry::<PRECISION>(left, weight) {
            Ok(()) => Ok(symbol),
            Err(error) => Err(CoderError::Backend(error)),
        }
    }
}
