//! What encodes symbols.

ghost use Rattle.std.specs.Prelude.{◌≡◌, ℕ, Option, None, Result, Err, OnOk, OnErr, IfErr};
ghost use Rattle.std.specs.Iterator.{IsFiniteIterable};
ghost use Rattle.constriction_backends.specs.Sink.{TakesItems};
ghost use Rattle.constriction_coders.specs.Encoding.{EncodingStops, StopsAt};
ghost use Rattle.constriction_coders.specs.Places.{entry_by};
ghost use Rattle.constriction_model.specs.Coding.{InTurn};
ghost use Rattle.constriction_model.specs.Rows.{entry_of};
ghost use Rattle.constriction_words.specs.declared.CoderError.{CoderError};

use crate::code::Code;
use crate::model_word::ModelWord;
use crate::with_model::WithModel;
use constriction_model::EncoderModel;
use constriction_words::CoderError;
use std::fmt::Debug;

/// A coder that encodes. What is encoded after what it held before, its content says.
pub trait Encode<const PRECISION: usize>: Code {
    /// Why a symbol is not encoded, apart from a write.
    type FrontendError: Debug;

    /// The error of a write.
    type BackendError: Debug;

    // A symbol of this entry leads from the first content to the second.
    ghost is_encoded: { Option (ℕ × ℕ) → Self.Content → Self.Content → Type 0 };

    // What else a coder says of encoding a symbol of this entry.
    ghost encodes: { Option (ℕ × ℕ) → Self
        → Result (Unit {0}) (CoderError Self.FrontendError Self.BackendError) → Self → Type 0 };

    /// Encodes a symbol. An error of the frontend is that the model has no entry for the symbol.
    fn encode_symbol<E>(
        &mut self,
        symbol: &E::Symbol,
        model: &E,
    ) -> Result<(), CoderError<Self::FrontendError, Self::BackendError>>
    where
        E: EncoderModel<PRECISION, Probability: ModelWord>,
        ensures ok { OnOk result (is_encoded (entry_of E.symbol_eq (E.rows model.now) symbol.now)
            (Self.held self.old) (Self.held self.new)) }
        ensures impossible { (fault : _) → result ≡ Err (CoderError.Frontend fault)
            → entry_of E.symbol_eq (E.rows model.now) symbol.now ≡ None }
        ensures step { encodes (entry_of E.symbol_eq (E.rows model.now) symbol.now) self.old result
            self.new }
        ensures same { OnErr result (Self.held self.new ≡ Self.held self.old) };

    /// Encodes symbols, each by a model of its own, from the front of an iterator on, until it ends
    /// or a symbol is not encoded.
    fn encode_symbols<E, I>(
        &mut self,
        symbols_and_models: I,
    ) -> Result<(), CoderError<Self::FrontendError, Self::BackendError>>
    where
        Self: Sized,
        E: EncoderModel<PRECISION, Probability: ModelWord> + Drop,
        E::Symbol: Drop,
        I: IntoIterator<Item = (E::Symbol, E)>,
        requires { IsFiniteIterable I.into_iter_gives I.IntoIter.can_next I.IntoIter.remaining
            symbols_and_models }
        ensures { (given : I.IntoIter) × I.into_iter_gives symbols_and_models given
            × TakesItems I.IntoIter.next_gives given result
            (λ done. InTurn (λ pair. is_encoded (entry_by E.symbol_eq E.rows pair)) done
            (Self.held self.old) (Self.held self.new)) (λ done pair error.
            StopsAt Self.held is_encoded encodes (entry_by E.symbol_eq E.rows) done pair error
            (Self.held self.old) self.new) }
    {
        let mut given = symbols_and_models.into_iter();
        'turns: while let Some(pair) = given.next() {
            match self.encode_symbol(&pair.0, &pair.1) {
                Ok(()) => {}
                Err(error) => return Err(error),
            }
        }
        Ok(())
    }

    /// Encodes symbols by one model, from the front of an iterator on, until it ends or a symbol is
    /// not encoded.
    fn encode_iid_symbols<E, I>(
        &mut self,
        symbols: I,
        model: &E,
    ) -> Result<(), CoderError<Self::FrontendError, Self::BackendError>>
    where
        Self: Sized,
        E: EncoderModel<PRECISION, Probability: ModelWord>,
        E::Symbol: Drop,
        I: IntoIterator<Item = E::Symbol>,
        requires { IsFiniteIterable I.into_iter_gives I.IntoIter.can_next I.IntoIter.remaining
            symbols }
        ensures { (given : I.IntoIter) × I.into_iter_gives symbols given
            × TakesItems I.IntoIter.next_gives given result
            (λ done. InTurn (λ symbol. is_encoded (entry_of E.symbol_eq (E.rows model.now) symbol))
            done (Self.held self.old) (Self.held self.new)) (λ done symbol error.
            StopsAt Self.held is_encoded encodes (entry_of E.symbol_eq (E.rows model.now)) done
            symbol error (Self.held self.old) self.new) }
    {
        let symbols = symbols.into_iter();
        self.encode_symbols::<&E, _>(WithModel { symbols, model })
    }

    /// Encodes the symbols, the first one first. An error leaves those before the symbol that was
    /// not encoded.
    fn encode_iid_slice<E>(
        &mut self,
        symbols: &[E::Symbol],
        model: &E,
    ) -> Result<(), CoderError<Self::FrontendError, Self::BackendError>>
    where
        Self: Sized,
        E: EncoderModel<PRECISION, Probability: ModelWord>,
        ensures ok { OnOk result
            (InTurn (λ symbol. is_encoded (entry_of E.symbol_eq (E.rows model.now) symbol))
            symbols.now (Self.held self.old) (Self.held self.new)) }
        ensures err { IfErr result (λ error.
            EncodingStops Self.held is_encoded encodes (entry_of E.symbol_eq (E.rows model.now))
            symbols.now error (Self.held self.old) self.new) }
    {
        for symbol in symbols {
            match self.encode_symbol(symbol, model) {
                Ok(()) => {}
                Err(error) => return Err(error),
            }
        }
        Ok(())
    }
}
