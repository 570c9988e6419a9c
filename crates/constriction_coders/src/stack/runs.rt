//! Messages that are encoded from their last symbol on.

ghost use Rattle.std.specs.Prelude.{reverse, IfErr, OnOk};
ghost use Rattle.std.specs.Iterator.{IsFiniteIterable};
ghost use Rattle.constriction_backends.specs.Sink.{TakesItems};
ghost use Rattle.constriction_coders.specs.AnsCoder.{held_by};
ghost use Rattle.constriction_coders.specs.Encoding.{EncodingStops, StopsAt};
ghost use Rattle.constriction_coders.specs.Places.{entry_by};
ghost use Rattle.constriction_coders.specs.Steps.{IsEncoded};
ghost use Rattle.constriction_model.specs.Coding.{InTurn};
ghost use Rattle.constriction_model.specs.Rows.{entry_of};

use crate::code::Code;
use crate::encode::Encode;
use crate::model_word::ModelWord;
use crate::stack::ans_coder::AnsCoder;
use constriction_backends::WordStack;
use constriction_model::EncoderModel;
use constriction_words::{CoderError, DefaultEncoderFrontendError};

impl<Backend: WordStack<u32>> AnsCoder<Backend> {
    /// Encodes the symbols, the last one first, so that decoding gives them in order.
    pub fn encode_iid_slice_reverse<E, const PRECISION: usize>(
        &mut self,
        symbols: &[E::Symbol],
        model: &E,
    ) -> Result<(), CoderError<DefaultEncoderFrontendError, Backend::WriteError>>
    where
        E: EncoderModel<PRECISION, Probability: ModelWord>,
        ensures ok { OnOk result (InTurn
            (λ s. IsEncoded (entry_of E.symbol_eq (E.rows model.now) s) PRECISION) symbols.now
            (held_by self.new) (held_by self.old)) }
        ensures err { IfErr result (λ error. EncodingStops ⟦<Self as Code>⟧.held
            ⟦<Self as Encode<PRECISION>>⟧.is_encoded ⟦<Self as Encode<PRECISION>>⟧.encodes
            (entry_of E.symbol_eq (E.rows model.now)) (reverse symbols.now) error (held_by self.old)
            self.new) }
    {
        let count = symbols.len();
        for done in 0..count {
            match self.encode_symbol(&symbols[count - 1 - done], model) {
                Ok(()) => {}
                Err(error) => return Err(error),
            }
        }
        Ok(())
    }

    /// Encodes symbols, each by a model of its own, from the back of an iterator on, so that
    /// decoding gives them from its front on.
    pub fn encode_symbols_reverse<E, I, const PRECISION: usize>(
        &mut self,
        symbols_and_models: I,
    ) -> Result<(), CoderError<DefaultEncoderFrontendError, Backend::WriteError>>
    where
        E: EncoderModel<PRECISION, Probability: ModelWord> + Drop,
        E::Symbol: Drop,
        I: IntoIterator<Item = (E::Symbol, E)>,
        I::IntoIter: DoubleEndedIterator,
        requires { IsFiniteIterable I.into_iter_gives I.IntoIter.can_next_back I.IntoIter.remaining
            symbols_and_models }
        ensures { (given : I.IntoIter) × I.into_iter_gives symbols_and_models given
            × TakesItems I.IntoIter.next_back_gives given result (λ done. InTurn
            (λ pair. ⟦<Self as Encode<PRECISION>>⟧.is_encoded (entry_by E.symbol_eq E.rows pair))
            done (held_by self.old) (held_by self.new)) (λ done pair error.
            StopsAt ⟦<Self as Code>⟧.held ⟦<Self as Encode<PRECISION>>⟧.is_encoded
            ⟦<Self as Encode<PRECISION>>⟧.encodes (entry_by E.symbol_eq E.rows) done pair error
            (held_by self.old) self.new) }
    {
        self.encode_symbols::<E, _>(symbols_and_models.into_iter().rev())
    }

    /// Encodes symbols by one model, from the back of an iterator on, so that decoding gives them
    /// from its front on.
    pub fn encode_iid_symbols_reverse<E, I, const PRECISION: usize>(
        &mut self,
        symbols: I,
        model: &E,
    ) -> Result<(), CoderError<DefaultEncoderFrontendError, Backend::WriteError>>
    where
        E: EncoderModel<PRECISION, Probability: ModelWord>,
        E::Symbol: Drop,
        I: IntoIterator<Item = E::Symbol>,
        I::IntoIter: DoubleEndedIterator,
        requires { IsFiniteIterable I.into_iter_gives I.IntoIter.can_next_back I.IntoIter.remaining
            symbols }
        ensures { (given : I.IntoIter) × I.into_iter_gives symbols given
            × TakesItems I.IntoIter.next_back_gives given result
            (λ done. InTurn (λ symbol. ⟦<Self as Encode<PRECISION>>⟧.is_encoded (entry_of
            E.symbol_eq (E.rows model.now) symbol)) done (held_by self.old) (held_by self.new))
            (λ done symbol error.
            StopsAt ⟦<Self as Code>⟧.held ⟦<Self as Encode<PRECISION>>⟧.is_encoded
            ⟦<Self as Encode<PRECISION>>⟧.encodes (entry_of E.symbol_eq (E.rows model.now)) done
            symbol error (held_by self.old) self.new) }
    {
        self.encode_iid_symbols(symbols.into_iter().rev(), model)
    }
}
