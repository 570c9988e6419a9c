//! The entries of symbols that are predicted, which are encoded later.

ghost use Rattle.std.specs.Prelude.{◌≡◌, ℕ, ◌≤◌, List, [], ◌∷◌, ◌++◌, IfOk, IfErr, IfSome, MatchResult, OnOk, OnErr, Some, None, fold, map};
ghost use Rattle.std.specs.Iterator.{Drains, IsFinite, YieldsThen};
ghost use Rattle.std.specs.List.{AllZip};
ghost use Rattle.constriction_model.specs.Rows.{entry_of};
ghost use Rattle.constriction_coders.specs.Places.{placed, entry_at};
ghost use Rattle.constriction_adaptive.specs.Entries.{IsEntryAt};
ghost use Rattle.constriction_adaptive.specs.Predicted.{predicted_entry, StopsPredicting};

use crate::error::EncoderFrontendError;
use crate::predictor::Predictor;
use crate::stack::stored_entry::{Entry, StoredEntry};
use constriction_coders::ModelWord;
use constriction_model::EncoderModel;
use constriction_words::WholeNumber;
use std::alloc::Global;

/// The entry of a symbol.
fn entry_by_model<E, const PRECISION: usize>(model: &E, symbol: &E::Symbol) -> Option<Entry>
where
    E: EncoderModel<PRECISION, Probability: ModelWord>,
    ensures known { IfSome result (λ entry.
        IsEntryAt PRECISION (entry_of E.symbol_eq (E.rows model.now)) symbol.now entry) }
    ensures none { result ≡ None → entry_of E.symbol_eq (E.rows model.now) symbol.now ≡ None }
{
    match model.left_cumulative_and_probability(symbol) {
        Some((left, weight)) => Some((
            left.to_coder_word(),
            E::Probability::from_weight(weight).to_coder_word(),
        )),
        None => None,
    }
}

/// Predicts a symbol, and learns it. The answer is its entry.
fn predict_and_learn<P, const PRECISION: usize>(
    predictor: &mut P,
    symbol: &P::Symbol,
) -> Result<Entry, EncoderFrontendError>
where
    P: Predictor<PRECISION>,
    ensures ok { IfOk result (λ entry. IsEntryAt PRECISION
        (entry_at (predicted_entry P.rows P.Model.symbol_eq)) (P.state predictor.old, symbol.now)
        entry) }
    ensures learned { IfOk result (λ _.
        P.state predictor.new ≡ P.next (P.state predictor.old) symbol.now) }
    ensures impossible { result ≡ Err EncoderFrontendError.ImpossibleSymbol
        → predicted_entry P.rows P.Model.symbol_eq (P.state predictor.old) symbol.now ≡ None }
    ensures unlearned { OnErr result (P.state predictor.new ≡ P.state predictor.old) }
{
    match predictor.reserve() {
        Ok(()) => {}
        Err(_) => return Err(EncoderFrontendError::OutOfMemory),
    }
    let Some(entry) = entry_by_model(predictor.model(), symbol) else {
        return Err(EncoderFrontendError::ImpossibleSymbol);
    };
    predictor.learn(symbol);
    Ok(entry)
}

/// Predicts a symbol, learns it, and keeps its entry after others.
fn predict_and_keep<P, K, const PRECISION: usize>(
    predictor: &mut P,
    symbol: &P::Symbol,
    entries: &mut Vec<K>,
) -> Result<(), EncoderFrontendError>
where
    P: Predictor<PRECISION>,
    K: StoredEntry,
    requires { PRECISION ≤ K.most }
    ensures ok { OnOk result ((entry : ℕ × ℕ) × IsEntryAt PRECISION
        (entry_at (predicted_entry P.rows P.Model.symbol_eq)) (P.state predictor.old, symbol.now)
        entry × (map K.kept entries.new.items ≡ map K.kept entries.old.items ++ entry ∷ [])) }
    ensures learned { OnOk result
        (P.state predictor.new ≡ P.next (P.state predictor.old) symbol.now) }
    ensures impossible { result ≡ Err EncoderFrontendError.ImpossibleSymbol
        → predicted_entry P.rows P.Model.symbol_eq (P.state predictor.old) symbol.now ≡ None }
    ensures unlearned { OnErr result (P.state predictor.new ≡ P.state predictor.old) }
{
    match entries.try_reserve(1) {
        Ok(()) => {}
        Err(_) => return Err(EncoderFrontendError::OutOfMemory),
    }
    match predict_and_learn(predictor, symbol) {
        Ok(entry) => {
            entries.push_reserved(K::store(entry));
            Ok(())
        }
        Err(error) => Err(error),
    }
}

/// The entries of symbols, each of which is predicted and then learned.
pub(crate) fn entries_of<P, K, const PRECISION: usize>(
    alloc: Global,
    predictor: &mut P,
    symbols: &[P::Symbol],
) -> Result<Vec<K>, EncoderFrontendError>
where
    P: Predictor<PRECISION>,
    K: StoredEntry,
    requires { PRECISION ≤ K.most }
    ensures ok { IfOk result (λ entries.
        AllZip (IsEntryAt PRECISION (entry_at (predicted_entry P.rows P.Model.symbol_eq)))
        (placed P.next (P.state predictor.old) symbols.now) (map K.kept entries.items)) }
    ensures learned { IfOk result (λ _.
        P.state predictor.new ≡ fold P.next (P.state predictor.old) symbols.now) }
    ensures err { IfErr result (λ error.
        StopsPredicting P.next (predicted_entry P.rows P.Model.symbol_eq) symbols.now error
        (P.state predictor.old) (P.state predictor.new)) }
{
    let Ok(mut entries) = Vec::with_capacity(alloc, symbols.len()) else {
        return Err(EncoderFrontendError::OutOfMemory);
    };
    for symbol in symbols {
        match predict_and_keep(predictor, symbol, &mut entries) {
            Ok(()) => {}
            Err(error) => return Err(error),
        }
    }
    Ok(entries)
}

/// The entries of the symbols that an iterator gives, each of which is predicted and then learned.
pub(crate) fn entries_of_items<P, K, I, const PRECISION: usize>(
    alloc: Global,
    predictor: &mut P,
    mut symbols: I,
) -> Result<Vec<K>, EncoderFrontendError>
where
    P: Predictor<PRECISION>,
    P::Symbol: Drop,
    K: StoredEntry,
    I: Iterator<Item = P::Symbol>,
    requires most { PRECISION ≤ K.most }
    requires next { I.can_next symbols }
    requires ends { IsFinite (I.remaining symbols) }
    ensures { MatchResult result
        (λ entries. (done : List P.Symbol) × Drains I.next_gives symbols done
        × (P.state predictor.new ≡ fold P.next (P.state predictor.old) done)
        × AllZip (IsEntryAt PRECISION (entry_at (predicted_entry P.rows P.Model.symbol_eq)))
        (placed P.next (P.state predictor.old) done) (map K.kept entries.items))
        (λ error. (done : List P.Symbol) × (symbol : P.Symbol) × (rest : I)
        × YieldsThen I.next_gives symbols done (Some symbol) rest
        × (P.state predictor.new ≡ fold P.next (P.state predictor.old) done)
        × (error ≡ EncoderFrontendError.ImpossibleSymbol
        → predicted_entry P.rows P.Model.symbol_eq (P.state predictor.new) symbol ≡ None)) }
{
    let mut entries = Vec::new(alloc);
    'turns: while let Some(symbol) = symbols.next() {
        match predict_and_keep(predictor, &symbol, &mut entries) {
            Ok(()) => {}
            Err(error) => return Err(error),
        }
    }
    Ok(entries)
}
