//! Reading entries from symbols and weights without comparing symbols.

ghost use Rattle.std.specs.Prelude.{false, refl};
ghost use Rattle.std.specs.Iterator.{IsFiniteIterable};
ghost use Rattle.constriction_model.specs.Acceptance.{completed, AreAccepted, WasReadOf, IsMadeOfBoth};
ghost use Rattle.constriction_model.specs.Precision.{IsPrecision};
ghost use Rattle.constriction_stored_rows.specs.private.Filling.{HoldsRows};
ghost use Rattle.constriction_model.specs.Rows.{rows_of};

use crate::filling::{entries_announced, push_item};
use crate::reading::{TakesRows, rows_read};
use constriction_model::ModelError;
use constriction_numbers::WholeNumber;
use std::alloc::Global;

/// Left cumulatives and symbols, which are not compared.
#[derive(Drop)]
struct Uncompared<Word, Symbol> {
    entries: Vec<(Word, Symbol)>,
}

impl<Word: WholeNumber, Symbol: Drop> TakesRows<Symbol, Word> for Uncompared<Word, Symbol> {
    ghost symbol_eq = { λ _ _. false };

    ghost holds = { λ v rows. HoldsRows Word.whole v.entries.items rows };

    #[inline]
    fn take_row(&mut self, symbol: Symbol, left: Word, _weight: Word) -> Result<(), ModelError> {
        push_item(&mut self.entries, (left, symbol))?;
        Ok(())
    }

    ghost symmetry_law = { λ s t. refl };
}

/// The entries of these symbols and weights. The last weight may be inferred. Symbols and weights
/// are accepted as by a constructor, and equal symbols are accepted too.
pub fn entries_read<
    Word: WholeNumber,
    Symbol: Drop,
    Symbols: IntoIterator<Item = Symbol>,
    Weights: IntoIterator<Item = Word>,
    const PRECISION: usize,
>(
    alloc: Global,
    symbols: Symbols,
    weights: Weights,
    infer_last: bool,
) -> Result<Vec<(Word, Symbol)>, ModelError>
    requires precision { IsPrecision Word.BITS PRECISION }
    requires symbols_end { IsFiniteIterable Symbols.into_iter_gives Symbols.IntoIter.can_next
        Symbols.IntoIter.remaining symbols }
    requires weights_end { IsFiniteIterable Weights.into_iter_gives Weights.IntoIter.can_next
        Weights.IntoIter.remaining weights }
    ensures { IsMadeOfBoth (AreAccepted (λ _ _. false) Word.BITS PRECISION)
        (completed PRECISION infer_last)
        (WasReadOf Symbols.into_iter_gives Symbols.IntoIter.next_gives symbols)
        (WasReadOf Weights.into_iter_gives Weights.IntoIter.next_gives weights) Word.whole
        (λ v ss ws. HoldsRows Word.whole v.items (rows_of ss ws)) result }
{
    let symbols = symbols.into_iter();
    let weights = weights.into_iter();
    let entries = Vec::with_capacity(alloc, entries_announced::<PRECISION>(symbols.size_hint().0))?;
    let read = rows_read::<Word, Symbol, Uncompared<Word, Symbol>, _, _, PRECISION>(
        Uncompared { entries },
        symbols,
        weights,
        infer_last,
    )?;
    Ok(read.entries)
}
