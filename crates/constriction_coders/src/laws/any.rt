//! What comes back from any coder.

ghost use Rattle.std.specs.Prelude.{◌≡◌, ⊤, List, length, reverse};
ghost use Rattle.std.specs.List.{AllZip};
ghost use Rattle.constriction_coders.specs.Spans.{whole};
ghost use Rattle.constriction_model.specs.Coding.{InTurn, StandsForEqual};
ghost use Rattle.constriction_model.specs.Entries.{SameEntries};
ghost use Rattle.constriction_model.specs.Rows.{entry_of};

use crate::into_decoder::IntoDecoder;
use crate::laws::{encoded_in_turn, range_symbols_come_back, symbols_come_back};
use crate::model_word::ModelWord;
use crate::queue::RangeEncoder;
use crate::stack::AnsCoder;
use constriction_backends::{Cursor, WordStack};
use constriction_model::{DecoderModel, EncoderModel};

/// A coder whose symbols come back.
pub trait ComesBack<const PRECISION: usize>: IntoDecoder<PRECISION> {
    // The symbols that are encoded from here on come back.
    ghost is_begun: { Self → Type 0 };

    // The order in which symbols come back.
    ghost back: { (Symbol : Type 0) → List Symbol → List Symbol };

    /// What is encoded by one model and decoded by the other comes back.
    fn come_back<D, E>(decoder: &D, encoder: &E)
    where
        D: DecoderModel<PRECISION, Probability: ModelWord>,
        E: EncoderModel<PRECISION, Symbol = D::Symbol, Probability: ModelWord>,
        requires { SameEntries E.symbol_eq (E.rows encoder.now) (D.rows decoder.now) }
        ensures { (symbols answers : List D.Symbol) (first full : Self) (opened last : Self.Decoder)
            → is_begun first
            → InTurn (λ s. Self.is_encoded (entry_of E.symbol_eq (E.rows encoder.now) s)) symbols
            (Self.held first) (Self.held full) → Self.opens full opened
            → InTurn (Self.Decoder.is_decoded D.Symbol D.stands_for (D.rows decoder.now)) answers
            (Self.Decoder.held opened) (Self.Decoder.held last)
            → length answers ≡ length symbols
            → AllZip (StandsForEqual D.stands_for E.symbol_eq) (back D.Symbol symbols) answers };
}

impl<Backend: WordStack<u32>, const PRECISION: usize> ComesBack<PRECISION> for AnsCoder<Backend> {
    ghost is_begun = { λ _. ⊤ };

    ghost back = { λ Symbol symbols. reverse symbols };

    fn come_back<D, E>(decoder: &D, encoder: &E)
    where
        D: DecoderModel<PRECISION, Probability: ModelWord>,
        E: EncoderModel<PRECISION, Symbol = D::Symbol, Probability: ModelWord>,
    {
        symbols_come_back::<D, E, PRECISION>(decoder, encoder);
        encoded_in_turn::<E::Symbol, PRECISION>();
    }
}

impl<const PRECISION: usize> ComesBack<PRECISION> for RangeEncoder {
    ghost is_begun = { λ encoder. encoder ≡ whole };

    ghost back = { λ Symbol symbols. symbols };

    fn come_back<D, E>(decoder: &D, encoder: &E)
    where
        D: DecoderModel<PRECISION, Probability: ModelWord>,
        E: EncoderModel<PRECISION, Symbol = D::Symbol, Probability: ModelWord>,
    {
        range_symbols_come_back::<D, E, Cursor<u32, Vec<u32>>, PRECISION>(decoder, encoder);
    }
}
