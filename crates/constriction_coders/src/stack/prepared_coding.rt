//! A stack coder encodes by prepared entries.

ghost use Rattle.std.specs.Prelude.{◌≡◌, ◌+◌, ◌^◌, ◌≤◌, reverse, Err, IfErr, None, OnErr, OnOk};
ghost use Rattle.constriction_coders.specs.Encoding.{EncodingStops};
ghost use Rattle.constriction_coders.specs.Steps.{IsEncoded, IsOnTop, WritesAtMostOne, backend_result};
ghost use Rattle.constriction_model.specs.Coding.{InTurn};
ghost use Rattle.constriction_model.specs.Precision.{IsPrecision};
ghost use Rattle.constriction_model.specs.Rows.{entry_of};

use crate::code::Code;
use crate::encode::Encode;
use crate::stack::ans_coder::{AnsCoder, with_room};
use crate::stack::prepared_entry::PreparedEntry;
use crate::stack::prepared_model::PreparedModel;
use constriction_backends::WordStack;
use constriction_words::{CoderError, DefaultEncoderFrontendError};

impl<Backend: WordStack<u32>> AnsCoder<Backend> {
    ghost use Rattle.constriction_coders.specs.AnsCoder.{held_by};

    /// Puts on top a symbol of this entry, as [`put_entry`](Self::put_entry) does, without a
    /// division.
    ///
    /// The error is that of a write. It leaves the state and the words.
    #[inline]
    pub fn put_prepared_entry<const PRECISION: usize>(
        &mut self,
        entry: &PreparedEntry,
    ) -> Result<(), Backend::WriteError>
        requires precision { IsPrecision 32 PRECISION }
        requires within { entry.now.left + entry.now.weight ≤ 2 ^ PRECISION }
        ensures ok { OnOk result (IsOnTop PRECISION entry.now.left entry.now.weight
            (held_by self.new) (held_by self.old)) }
        ensures wrote { WritesAtMostOne Backend.write_gives self.old.words result self.new.words }
        ensures same { OnErr result (held_by self.new ≡ held_by self.old) }
    {
        match with_room(&mut self.words, self.state, PRECISION, entry.weight) {
            Ok(kept) => {
                self.state = entry.put_on::<PRECISION>(kept);
                Ok(())
            }
            Err(error) => Err(error),
        }
    }

    /// Encodes a symbol, as [`encode_symbol`](Encode::encode_symbol) does, without a division.
    ///
    /// It fails with `ImpossibleSymbol` only if the model has no entry for the symbol, and with the
    /// backend's error only if a write answered that. An error leaves the state and the words.
    #[inline]
    pub fn encode_prepared_symbol<M, const PRECISION: usize>(
        &mut self,
        symbol: &M::Symbol,
        model: &M,
    ) -> Result<(), CoderError<DefaultEncoderFrontendError, Backend::WriteError>>
    where
        M: PreparedModel<PRECISION>,
        ensures ok { OnOk result (IsEncoded (entry_of M.symbol_eq (M.rows model.now) symbol.now)
            PRECISION (held_by self.new) (held_by self.old)) }
        ensures impossible { (fault : _) → result ≡ Err (CoderError.Frontend fault)
            → entry_of M.symbol_eq (M.rows model.now) symbol.now ≡ None }
        ensures wrote { WritesAtMostOne Backend.write_gives self.old.words (backend_result result)
            self.new.words }
        ensures same { OnErr result (held_by self.new ≡ held_by self.old) }
    {
        let Some(entry) = model.prepared_entry(symbol) else {
            return Err(CoderError::Frontend(DefaultEncoderFrontendError::ImpossibleSymbol));
        };
        match self.put_prepared_entry::<PRECISION>(&entry) {
            Ok(()) => Ok(()),
            Err(error) => Err(CoderError::Backend(error)),
        }
    }

    /// Encodes the symbols, the last one first, as
    /// [`encode_iid_slice_reverse`](Self::encode_iid_slice_reverse) does, without a division.
    pub fn encode_prepared_slice_reverse<M, const PRECISION: usize>(
        &mut self,
        symbols: &[M::Symbol],
        model: &M,
    ) -> Result<(), CoderError<DefaultEncoderFrontendError, Backend::WriteError>>
    where
        M: PreparedModel<PRECISION>,
        ensures ok { OnOk result (InTurn
            (λ s. IsEncoded (entry_of M.symbol_eq (M.rows model.now) s) PRECISION) symbols.now
            (held_by self.new) (held_by self.old)) }
        ensures err { IfErr result (λ error. EncodingStops ⟦<Self as Code>⟧.held
            ⟦<Self as Encode<PRECISION>>⟧.is_encoded ⟦<Self as Encode<PRECISION>>⟧.encodes
            (entry_of M.symbol_eq (M.rows model.now)) (reverse symbols.now) error (held_by self.old)
            self.new) }
    {
        let count = symbols.len();
        for done in 0..count {
            match self.encode_prepared_symbol(&symbols[count - 1 - done], model) {
                Ok(()) => {}
                Err(error) => return Err(error),
            }
        }
        Ok(())
    }
}
