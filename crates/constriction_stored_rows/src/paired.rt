//! Entries, which are pairs of a left cumulative and a symbol.

ghost use Rattle.std.specs.Prelude.{◌≡◌, map, IfOk};
ghost use Rattle.std.specs.List.{list_any};
ghost use Rattle.constriction_stored_rows.specs.private.Filling.{HoldsRows, AreEntriesCloned};

use crate::reading::TakesRows;
use constriction_model::ModelError;
use constriction_numbers::WholeNumber;
use std::alloc::{AllocError, Global};

/// Whether one of the entries has an equal symbol.
#[inline]
pub fn has_symbol<Word, Symbol: Eq>(entries: &[(Word, Symbol)], symbol: &Symbol) -> bool
    ensures { result ≡ list_any (Symbol.eq symbol.now) (map (λ x. x.1) entries.now) }
{
    for entry in entries {
        if *symbol == entry.1 {
            return true;
        }
    }
    false
}

/// A copy of the entries, each with a clone of its symbol.
pub fn entries_cloned<Word: Copy, Symbol: Clone>(
    alloc: Global,
    entries: &[(Word, Symbol)],
) -> Result<Vec<(Word, Symbol)>, AllocError>
    ensures { IfOk result (λ v. AreEntriesCloned Symbol.is_clone entries.now v.items) }
{
    let mut cloned = Vec::with_capacity(alloc, entries.len())?;
    'entries: for entry in entries {
        cloned.push((entry.0, entry.1.clone()?))?;
    }
    Ok(cloned)
}

impl<Word: WholeNumber, Symbol: Eq + Drop> TakesRows<Symbol, Word> for Vec<(Word, Symbol)> {
    ghost symbol_eq = { Symbol.eq };

    ghost holds = { λ v rows. HoldsRows Word.whole v.items rows };

    #[inline]
    fn take_row(&mut self, symbol: Symbol, left: Word, _weight: Word) -> Result<(), ModelError> {
        if has_symbol(self, &symbol) {
            return Err(ModelError::InvalidTable);
        }
        self.push((left, symbol))?;
        Ok(())
    }

    ghost symmetry_law = { Symbol.Eq.laws.symm };
}
