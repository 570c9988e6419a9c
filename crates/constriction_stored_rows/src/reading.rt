//! Reading rows from symbols and weights, for models that store symbols.

ghost use Rattle.std.specs.Prelude.{◌≡◌, ◌<◌, List, Bool, [], ◌∷◌, ◌++◌, IfOk, IsOk, true, false, map, ⊤};
ghost use Rattle.std.specs.Iterator.{IsFinite};
ghost use Rattle.std.specs.List.{list_any};
ghost use Rattle.constriction_model.specs.Acceptance.{completed, AreAccepted};
ghost use Rattle.constriction_model.specs.Precision.{IsPrecision};
ghost use Rattle.constriction_stored_rows.specs.private.Given.{GaveBothGood, GaveBothBad};
ghost use Rattle.constriction_stored_rows.specs.private.Reading.{TookRows, EndsBefore};
ghost use Rattle.constriction_model.specs.Rows.{Row, rows_of, symbols_of};

use crate::filling::{TakesWeights, weights_taken};
use constriction_model::ModelError;
use constriction_numbers::WholeNumber;

/// A store of rows, which takes one row after another, and no two with equal symbols.
pub trait TakesRows<Symbol, Word: WholeNumber> {
    // Whether two symbols are equal. For a store that compares none, no two are.
    ghost symbol_eq: { Symbol → Symbol → Bool };

    // These rows are stored, and no others.
    ghost holds: { Self → List (Row Symbol) → Type 0 };

    /// Stores one more row, unless a stored row has an equal symbol. `InvalidTable` comes only if
    /// one has.
    fn take_row(&mut self, symbol: Symbol, left: Word, weight: Word) -> Result<(), ModelError>
        requires positive { 0 < Word.whole weight }
        ensures held { IsOk result → (rows : List (Row Symbol)) → holds self.old rows
            → holds self.new (rows ++ record
            { symbol = symbol; left = Word.whole left; weight = Word.whole weight } ∷ []) }
        ensures apart { IsOk result → (rows : List (Row Symbol)) → holds self.old rows
            → list_any (symbol_eq symbol) (symbols_of rows) ≡ false }
        ensures repeated { result ≡ Err ModelError.InvalidTable → (rows : List (Row Symbol))
            → holds self.old rows → list_any (symbol_eq symbol) (symbols_of rows) ≡ true };

    ghost symmetry_law: { (s t : Symbol) → symbol_eq s t ≡ symbol_eq t s };
}

/// A store of rows, and the symbols of the rows to come.
#[derive(Drop)]
struct WithSymbols<Stored, Symbols> {
    stored: Stored,
    symbols: Symbols,
}

impl<
    Word: WholeNumber,
    Symbol: Drop,
    Stored: TakesRows<Symbol, Word> + Drop,
    Symbols: Iterator<Item = Symbol>,
> TakesWeights<Word> for WithSymbols<Stored, Symbols> {
    ghost took = { λ first weights now. TookRows Symbols.next_gives Symbols.can_next
        Symbols.remaining Stored.symbol_eq (Stored.holds now.stored) first.symbols weights
        now.symbols };

    ghost ends_before = { λ first. EndsBefore Symbols.next_gives Stored.symbol_eq first.symbols };

    ghost may_refuse = { ⊤ };

    #[inline(always)]
    fn take_weight(&mut self, left: Word, weight: Word) -> Result<(), ModelError> {
        let Some(symbol) = self.symbols.next() else {
            return Err(ModelError::InvalidTable);
        };
        self.stored.take_row(symbol, left, weight)
    }
}

/// Stores the rows of these symbols and weights in an empty store. The last weight may be inferred.
///
/// A weight is judged before its symbol is read, and the symbol before the next weight is read.
pub fn rows_read<
    Word: WholeNumber,
    Symbol: Drop,
    Stored: TakesRows<Symbol, Word> + Drop,
    Symbols: Iterator<Item = Symbol>,
    Weights: Iterator<Item = Word>,
    const PRECISION: usize,
>(
    stored: Stored,
    symbols: Symbols,
    mut weights: Weights,
    infer_last: bool,
) -> Result<Stored, ModelError>
    requires precision { IsPrecision Word.BITS PRECISION }
    requires none { Stored.holds stored [] }
    requires symbols_go { Symbols.can_next symbols }
    requires symbols_end { IsFinite (Symbols.remaining symbols) }
    requires weights_go { Weights.can_next weights }
    requires weights_end { IsFinite (Weights.remaining weights) }
    ensures ok { IfOk result (λ t.
        GaveBothGood Symbols.next_gives symbols Weights.next_gives weights (λ ss ws. AreAccepted
        Stored.symbol_eq Word.BITS PRECISION ss (completed PRECISION infer_last (map Word.whole ws))
        × Stored.holds t (rows_of ss (completed PRECISION infer_last (map Word.whole ws))))) }
    ensures invalid { result ≡ Err ModelError.InvalidTable → GaveBothBad Symbols.next_gives symbols
        Weights.next_gives weights (λ ss ws. AreAccepted Stored.symbol_eq Word.BITS PRECISION ss
        (completed PRECISION infer_last (map Word.whole ws))) }
{
    let mut taken = weights_taken::<Word, Weights, WithSymbols<Stored, Symbols>, PRECISION>(
        WithSymbols { stored, symbols },
        &mut weights,
        infer_last,
    )?;
    if let Some(_) = taken.symbols.next() {
        return Err(ModelError::InvalidTable);
    }
    Ok(taken.stored)
}
