//! Hash tables of entries.

ghost use Rattle.std.specs.Prelude.{◌≡◌, cond, is_some, IsOk, true, false, ⊤};
ghost use Rattle.std.specs.HashMap.{get, IsUnique};
ghost use Rattle.constriction_stored_rows.specs.private.Filling.{HoldsEntries};

use constriction_model::{ModelError, Weight};
use constriction_numbers::WholeNumber;
use constriction_stored_rows::TakesRows;
use std::alloc::AllocError;
use std::collections::HashMap;
use std::fmt::Debug;
use std::hash::Hash;

/// What a hash table has for a symbol: its left cumulative and its weight.
#[derive(Debug)]
pub(crate) struct Entry<Word: Copy, Positive: Copy> {
    pub left: Word,
    pub weight: Positive,
}

impl<Word: Copy, Positive: Copy> Clone for Entry<Word, Positive> {
    ghost is_clone = { λ x y. y ≡ x };

    ghost is_infallible = { λ _. ⊤ };

    fn clone(&self) -> Result<Entry<Word, Positive>, AllocError> {
        Ok(*self)
    }
}

impl<Word: Copy, Positive: Copy> Copy for Entry<Word, Positive> {}

/// Puts a value at a symbol. `InvalidTable` comes only if an equal symbol has a value. That value
/// is then lost, and the hash table is of no further use.
#[inline]
fn insert_apart<Symbol: Hash + Eq + Drop, Value: Drop>(
    table: &mut HashMap<Symbol, Value>,
    symbol: Symbol,
    value: Value,
) -> Result<(), ModelError>
    ensures unique { IsUnique Symbol.eq table.new }
    ensures updates { IsOk result → (s : Symbol) → get Symbol.eq table.new s
        ≡ cond (Symbol.eq symbol s) (Some value) (get Symbol.eq table.old s) }
    ensures apart { IsOk result → is_some (get Symbol.eq table.old symbol) ≡ false }
    ensures repeated { result ≡ Err ModelError.InvalidTable
        → is_some (get Symbol.eq table.old symbol) ≡ true }
{
    let old = table.insert(symbol, value)?;
    if old.is_some() {
        return Err(ModelError::InvalidTable);
    }
    Ok(())
}

/// Rows with distinct symbols, as entries of a hash table.
#[derive(Drop)]
pub(crate) struct HashedRows<Symbol: Hash + Eq, Probability: WholeNumber> {
    pub(crate) table: HashMap<Symbol, Entry<Probability, Weight<Probability>>>,
}

impl<Symbol: Hash + Eq + Drop, Probability: WholeNumber> TakesRows<Symbol, Probability>
    for HashedRows<Symbol, Probability> {
    ghost symbol_eq = { Symbol.eq };

    ghost holds = { λ t rows. IsUnique Symbol.eq t.table × HoldsEntries Symbol.eq
        (λ e. (Probability.whole e.left, Probability.whole (Probability.base e.weight)))
        (get Symbol.eq t.table) rows };

    #[inline]
    fn take_row(
        &mut self,
        symbol: Symbol,
        left: Probability,
        weight: Probability,
    ) -> Result<(), ModelError> {
        let weight = weight.to_weight();
        insert_apart(&mut self.table, symbol, Entry { left, weight })
    }

    ghost symmetry_law = { Symbol.Eq.laws.symm };
}
