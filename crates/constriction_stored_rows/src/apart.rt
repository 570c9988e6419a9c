//! Whether the symbols of entries differ, without comparing each with all before it.

ghost use Rattle.std.specs.Prelude.{◌≡◌, ◌↔◌, IfOk, IsTrue, map};
ghost use Rattle.std.specs.List.{IsDistinct};
ghost use Rattle.std.specs.List.Sorted.{IsStrictlySortedBy};

use std::alloc::{AllocError, Global};
use std::collections::HashSet;
use std::hash::Hash;

/// The symbol of an entry.
#[inline]
fn symbol_in<'e, Word, Symbol>(entry: &'e (Word, Symbol)) -> &'e Symbol
    ensures { result.now ≡ entry.now.1 }
{
    &entry.1
}

/// Whether no two symbols of the entries are equal. It hashes each symbol once, into a set of
/// references.
pub fn are_apart<Word, Symbol: Hash + Eq>(
    alloc: Global,
    entries: &[(Word, Symbol)],
) -> Result<bool, AllocError>
    ensures { IfOk result (λ b. IsTrue b ↔ IsDistinct Symbol.eq (map (λ x. x.1) entries.now)) }
{
    let mut seen: HashSet<&Symbol> = HashSet::with_capacity(alloc, entries.len())?;
    'entries: for entry in entries {
        if !seen.insert(symbol_in(entry))? {
            return Ok(false);
        }
    }
    Ok(true)
}

/// Whether each symbol of the entries is less than the next one.
pub fn are_in_order<Word, Symbol: Ord>(entries: &[(Word, Symbol)]) -> bool
    ensures { IsTrue result ↔ IsStrictlySortedBy Symbol.cmp (map (λ x. x.1) entries.now) }
{
    let mut next = 1;
    'entries: while next < entries.len() {
        if !entries[next - 1].1.cmp(&entries[next].1).is_lt() {
            return false;
        }
        next += 1;
    }
    true
}
