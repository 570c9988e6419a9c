//! Hashing the rows that a walk gives, for encoders made of other models.

ghost use Rattle.std.specs.Prelude.{ℕ, IfOk, map};
ghost use Rattle.std.specs.HashMap.{get, IsUnique};
ghost use Rattle.std.specs.Iterator.{IsFinite};
ghost use Rattle.constriction_stored_rows.specs.private.Filling.{HoldsEntries};
ghost use Rattle.constriction_model.specs.Model.{row_of};
ghost use Rattle.constriction_categorical.specs.private.Walked.{WalkedGood};

use crate::hash_table::Entry;
use constriction_stored_rows::rows_announced;
use std::alloc::{AllocError, Global};
use std::collections::HashMap;
use std::hash::Hash;

/// A hash table of the rows that a walk gives: for each symbol, the entry of its last row.
#[inline]
pub(crate) fn table_walked<Symbol, Word, Positive, Walk, const PRECISION: usize>(
    alloc: Global,
    mut walk: Walk,
) -> Result<HashMap<Symbol, Entry<Word, Positive>>, AllocError>
where
    Symbol: Hash + Eq + Drop,
    Word: Copy,
    Positive: Copy,
    Walk: Iterator<Item = Result<(Symbol, Word, Positive), AllocError>>,
    requires goes { Walk.can_next walk }
    requires ends { IsFinite (Walk.remaining walk) }
    ensures unique { IfOk result (λ t. IsUnique Symbol.eq t) }
    ensures found { IfOk result (λ t. WalkedGood Walk.next_gives walk (λ xs.
        (whole : Word → ℕ) (base : Positive → Word)
        → HoldsEntries Symbol.eq (λ e. (whole e.left, whole (base e.weight))) (get Symbol.eq t)
        (map (row_of whole base) xs))) }
{
    let mut table = HashMap::with_capacity(alloc, rows_announced::<PRECISION>(walk.size_hint().0))?;
    'rows: while let Some(row) = walk.next() {
        let (symbol, left, weight) = row?;
        table.insert(symbol, Entry { left, weight })?;
    }
    Ok(table)
}
