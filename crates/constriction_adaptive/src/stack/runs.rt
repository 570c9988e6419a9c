//! Several symbols, and what comes back from a stack.

ghost use Rattle.std.specs.Prelude.{◌≡◌, ◌≤◌, ◌++◌, ◌∷◌, Err, List, OnErr, OnOk, IfOk, IfErr, fold, map};
ghost use Rattle.std.specs.Iterator.{IsFinite, IsFiniteIterable};
ghost use Rattle.std.specs.List.{AllZip};
ghost use Rattle.constriction_model.specs.Coding.{InTurn, StandsForEqual};
ghost use Rattle.constriction_model.specs.Precision.{IsPrecision};
ghost use Rattle.constriction_coders.specs.AnsCoder.{held_by};
ghost use Rattle.constriction_coders.specs.Laws.{StackComesBack};
ghost use Rattle.constriction_coders.specs.Places.{placed, entry_at};
ghost use Rattle.constriction_coders.specs.Steps.{IsEncoded};
ghost use Rattle.constriction_adaptive.specs.Entries.{IsEntryAt};
ghost use Rattle.constriction_adaptive.specs.Predicted.{predicted_entry, AreStacked, IsTakenIn, StackingStops, StacksItems};

use crate::decoding::decode_adaptively;
use crate::error::EncoderFrontendError;
use crate::predictor::Predictor;
use crate::stack::entries::{entries_of, entries_of_items};
use crate::stack::stored_entry::{Entry, StoredEntry};
use constriction_backends::WordStack;
use constriction_coders::laws::MessageError;
use constriction_coders::stack::AnsCoder;
use constriction_words::CoderError;
use std::alloc::{AllocError, Global};

/// What is encoded from a state on comes back to a decoder whose predictor begins in that state.
pub fn symbols_come_back<P, const PRECISION: usize>()
where
    P: Predictor<PRECISION>,
    ensures { (first : P.State)
        → StackComesBack (placed P.next first) (entry_at (predicted_entry P.rows P.Model.symbol_eq))
        PRECISION (IsTakenIn P.rows P.Model.stands_for P.Model.symbol_eq PRECISION)
        (StandsForEqual P.Model.stands_for P.Model.symbol_eq) }
{}

/// Predicts the symbols from the first to the last, and encodes them from the last to the first, so
/// that decoding gives them in order.
///
/// Four bytes a symbol are asked for until they are encoded, eight if `PRECISION` is above 16. If a
/// symbol has no entry, or memory is refused, nothing is encoded, and the symbols before that one
/// were learned. If a write fails, the symbols after one are encoded, and all were learned.
pub fn encode_adaptively<P, Backend, const PRECISION: usize>(
    alloc: Global,
    predictor: &mut P,
    symbols: &[P::Symbol],
    coder: &mut AnsCoder<Backend>,
) -> Result<(), CoderError<EncoderFrontendError, Backend::WriteError>>
where
    P: Predictor<PRECISION>,
    Backend: WordStack<u32>,
    ensures ok { OnOk result
        (AreStacked P.next (entry_at (predicted_entry P.rows P.Model.symbol_eq)) PRECISION
        symbols.now (P.state predictor.old) (held_by coder.old) (P.state predictor.new)
        (held_by coder.new)) }
    ensures err { IfErr result (λ error.
        StackingStops P.next (predicted_entry P.rows P.Model.symbol_eq) PRECISION symbols.now error
        (P.state predictor.old) (held_by coder.old) (P.state predictor.new) (held_by coder.new)) }
{
    // It says that the precision fits.
    let _model = predictor.model();
    if PRECISION <= 16 {
        encode_slice::<P, u32, Backend, PRECISION>(alloc, predictor, symbols, coder)
    } else {
        encode_slice::<P, Entry, Backend, PRECISION>(alloc, predictor, symbols, coder)
    }
}

/// The same of the symbols that an iterator gives. They are dropped as they are learned.
///
/// Four bytes a symbol are asked for until they are encoded, eight if `PRECISION` is above 16. If a
/// symbol has no entry, or memory is refused, that symbol was the last one given, and nothing is
/// encoded. If a write fails, all were given and learned, and the symbols after one are encoded.
pub fn encode_adaptively_from_iter<P, Backend, I, const PRECISION: usize>(
    alloc: Global,
    predictor: &mut P,
    symbols: I,
    coder: &mut AnsCoder<Backend>,
) -> Result<(), CoderError<EncoderFrontendError, Backend::WriteError>>
where
    P: Predictor<PRECISION>,
    P::Symbol: Drop,
    Backend: WordStack<u32>,
    I: IntoIterator<Item = P::Symbol>,
    requires { IsFiniteIterable I.into_iter_gives I.IntoIter.can_next I.IntoIter.remaining symbols }
    ensures { (given : I.IntoIter) × I.into_iter_gives symbols given
        × StacksItems P.next I.IntoIter.next_gives (predicted_entry P.rows P.Model.symbol_eq)
        PRECISION given result (P.state predictor.old) (held_by coder.old) (P.state predictor.new)
        (held_by coder.new) }
{
    // It says that the precision fits.
    let _model = predictor.model();
    let symbols = symbols.into_iter();
    if PRECISION <= 16 {
        encode_items::<P, u32, Backend, _, PRECISION>(alloc, predictor, symbols, coder)
    } else {
        encode_items::<P, Entry, Backend, _, PRECISION>(alloc, predictor, symbols, coder)
    }
}

/// Encodes the symbols and decodes as many. If both predictors begin in one state, the symbols come
/// back, whatever is predicted, both end in one state, and the coder holds what it held.
pub fn there_and_back<P, Backend, const PRECISION: usize>(
    alloc: Global,
    encoding: &mut P,
    decoding: &mut P,
    symbols: &[P::Symbol],
    coder: &mut AnsCoder<Backend>,
) -> Result<
    Vec<P::Symbol>,
    MessageError<
        CoderError<EncoderFrontendError, Backend::WriteError>,
        CoderError<AllocError, Backend::ReadError>,
    >,
>
where
    P: Predictor<PRECISION>,
    P::Symbol: Drop,
    Backend: WordStack<u32>,
    requires { P.state decoding.old ≡ P.state encoding.old }
    ensures back { IfOk result (λ answers.
        AllZip (StandsForEqual P.Model.stands_for P.Model.symbol_eq) symbols.now answers.items) }
    ensures learned { OnOk result
        (P.state encoding.new ≡ fold P.next (P.state encoding.old) symbols.now) }
    ensures one_state { OnOk result (P.state decoding.new ≡ P.state encoding.new) }
    ensures same { OnOk result (held_by coder.new ≡ held_by coder.old) }
    ensures err { (error : _) → result ≡ Err (MessageError.Encoding error)
        → StackingStops P.next (predicted_entry P.rows P.Model.symbol_eq) PRECISION symbols.now
        error (P.state encoding.old) (held_by coder.old) (P.state encoding.new)
        (held_by coder.new) }
{
    symbols_come_back::<P, PRECISION>();
    match encode_adaptively(alloc, encoding, symbols, coder) {
        Ok(()) => {}
        Err(error) => return Err(MessageError::Encoding(error)),
    }
    match decode_adaptively(alloc, decoding, symbols.len(), coder) {
        Ok(answers) => Ok(answers),
        Err(error) => Err(MessageError::Decoding(error)),
    }
}

/// Encodes entries, the last one first. They are those of symbols that are learned from a state on.
fn put_entries<P, K, Backend, const PRECISION: usize>(
    entries: &[K],
    coder: &mut AnsCoder<Backend>,
) -> Result<(), Backend::WriteError>
where
    P: Predictor<PRECISION>,
    K: StoredEntry,
    Backend: WordStack<u32>,
    requires precision { IsPrecision 32 PRECISION }
    requires entries { (first : P.State) × (symbols : List P.Symbol) × AllZip
        (IsEntryAt PRECISION (entry_at (predicted_entry P.rows P.Model.symbol_eq)))
        (placed P.next first symbols) (map K.kept entries.now) }
    ensures ok { (first : P.State) → (symbols : List P.Symbol) → AllZip
        (IsEntryAt PRECISION (entry_at (predicted_entry P.rows P.Model.symbol_eq)))
        (placed P.next first symbols) (map K.kept entries.now) → OnOk result (InTurn
        (λ s. IsEncoded (entry_at (predicted_entry P.rows P.Model.symbol_eq) s) PRECISION)
        (placed P.next first symbols) (held_by coder.new) (held_by coder.old)) }
    ensures err { (first : P.State) → (symbols : List P.Symbol) → AllZip
        (IsEntryAt PRECISION (entry_at (predicted_entry P.rows P.Model.symbol_eq)))
        (placed P.next first symbols) (map K.kept entries.now) → OnErr result
        ((done : List P.Symbol) × (symbol : P.Symbol) × (after : List P.Symbol)
        × (symbols ≡ done ++ symbol ∷ after) × InTurn
        (λ s. IsEncoded (entry_at (predicted_entry P.rows P.Model.symbol_eq) s) PRECISION)
        (placed P.next (P.next (fold P.next first done) symbol) after) (held_by coder.new)
        (held_by coder.old)) }
{
    let count = entries.len();
    for done in 0..count {
        let (left, weight) = entries[count - 1 - done].read();
        match coder.put_entry::<PRECISION>(left, weight) {
            Ok(()) => {}
            Err(error) => return Err(error),
        }
    }
    Ok(())
}

/// Encodes symbols by entries that are kept in `K`.
fn encode_slice<P, K, Backend, const PRECISION: usize>(
    alloc: Global,
    predictor: &mut P,
    symbols: &[P::Symbol],
    coder: &mut AnsCoder<Backend>,
) -> Result<(), CoderError<EncoderFrontendError, Backend::WriteError>>
where
    P: Predictor<PRECISION>,
    K: StoredEntry,
    Backend: WordStack<u32>,
    requires precision { IsPrecision 32 PRECISION }
    requires most { PRECISION ≤ K.most }
    ensures ok { OnOk result
        (AreStacked P.next (entry_at (predicted_entry P.rows P.Model.symbol_eq)) PRECISION
        symbols.now (P.state predictor.old) (held_by coder.old) (P.state predictor.new)
        (held_by coder.new)) }
    ensures err { IfErr result (λ error.
        StackingStops P.next (predicted_entry P.rows P.Model.symbol_eq) PRECISION symbols.now error
        (P.state predictor.old) (held_by coder.old) (P.state predictor.new) (held_by coder.new)) }
{
    let entries = match entries_of::<P, K, PRECISION>(alloc, predictor, symbols) {
        Ok(entries) => entries,
        Err(error) => return Err(CoderError::Frontend(error)),
    };
    match put_entries::<P, K, Backend, PRECISION>(&entries, coder) {
        Ok(()) => Ok(()),
        Err(error) => Err(CoderError::Backend(error)),
    }
}

/// Encodes what an iterator gives by entries that are kept in `K`.
fn encode_items<P, K, Backend, I, const PRECISION: usize>(
    alloc: Global,
    predictor: &mut P,
    symbols: I,
    coder: &mut AnsCoder<Backend>,
) -> Result<(), CoderError<EncoderFrontendError, Backend::WriteError>>
where
    P: Predictor<PRECISION>,
    P::Symbol: Drop,
    K: StoredEntry,
    Backend: WordStack<u32>,
    I: Iterator<Item = P::Symbol>,
    requires precision { IsPrecision 32 PRECISION }
    requires most { PRECISION ≤ K.most }
    requires next { I.can_next symbols }
    requires ends { IsFinite (I.remaining symbols) }
    ensures { StacksItems P.next I.next_gives (predicted_entry P.rows P.Model.symbol_eq) PRECISION
        symbols result (P.state predictor.old) (held_by coder.old) (P.state predictor.new)
        (held_by coder.new) }
{
    let entries = match entries_of_items::<P, K, I, PRECISION>(alloc, predictor, symbols) {
        Ok(entries) => entries,
        Err(error) => return Err(CoderError::Frontend(error)),
    };
    match put_entries::<P, K, Backend, PRECISION>(&entries, coder) {
        Ok(()) => Ok(()),
        Err(error) => Err(CoderError::Backend(error)),
    }
}
