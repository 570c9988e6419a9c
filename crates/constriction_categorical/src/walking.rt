//! Storing the rows that a walk gives, for models made of other models.

ghost use Rattle.std.specs.Prelude.{◌≡◌, IfOk, [], map, vec_capacity};
ghost use Rattle.std.specs.Iterator.{IsFinite, UpTo};
ghost use Rattle.std.specs.List.{IsDistinct};
ghost use Rattle.constriction_categorical.specs.private.Walked.{WalkedGood, WalkedBad};

use constriction_model::ModelError;
use constriction_stored_rows::{entries_announced, has_symbol, push_item};
use std::alloc::{AllocError, Global};

/// The entries of the rows that a walk gives, if no two symbols are equal.
///
/// A row is judged before the next step of the walk.
#[inline]
pub(crate) fn entries_walked<Symbol, Word, Positive, Walk, const PRECISION: usize>(
    alloc: Global,
    mut walk: Walk,
) -> Result<Vec<(Word, Symbol)>, ModelError>
where
    Symbol: Eq + Drop,
    Word: Copy,
    Positive: Copy,
    Walk: Iterator<Item = Result<(Symbol, Word, Positive), AllocError>>,
    requires goes { Walk.can_next walk }
    requires ends { IsFinite (Walk.remaining walk) }
    ensures ok { IfOk result (λ v. WalkedGood Walk.next_gives walk (λ xs.
        (v.items ≡ map (λ x. (x.1, x.0)) xs) × IsDistinct Symbol.eq (map (λ x. x.0) xs))) }
    ensures invalid { result ≡ Err ModelError.InvalidTable
        → WalkedBad Walk.next_gives walk (λ xs. IsDistinct Symbol.eq (map (λ x. x.0) xs)) }
{
    let mut entries = Vec::with_capacity(
        alloc,
        entries_announced::<PRECISION>(walk.size_hint().0),
    )?;
    'rows: while let Some(row) = walk.next() {
        let (symbol, left, _weight) = row?;
        if has_symbol(&entries, &symbol) {
            return Err(ModelError::InvalidTable);
        }
        entries.push((left, symbol))?;
    }
    Ok(entries)
}

/// The entries of the rows that a walk gives. Symbols are not compared.
///
/// The upper bound that a walk announces is a promise, by the contract of `size_hint`. If there is
/// room for that many rows, the loop does not test for room.
#[inline]
pub(crate) fn entries_collected<Symbol, Word, Positive, Walk, const PRECISION: usize>(
    alloc: Global,
    walk: Walk,
) -> Result<Vec<(Word, Symbol)>, AllocError>
where
    Symbol: Drop,
    Word: Copy,
    Positive: Copy,
    Walk: Iterator<Item = Result<(Symbol, Word, Positive), AllocError>>,
    requires goes { Walk.can_next walk }
    requires ends { IsFinite (Walk.remaining walk) }
    ensures { IfOk result (λ v. WalkedGood Walk.next_gives walk (λ xs.
        v.items ≡ map (λ x. (x.1, x.0)) xs)) }
{
    let (least, most) = walk.size_hint();
    let entries = Vec::with_capacity(alloc, entries_announced::<PRECISION>(least))?;
    match most {
        Some(most) if most <= entries.capacity() => entries_reserved(entries, walk),
        _ => entries_grown(entries, walk),
    }
}

/// The same, with room for all rows of the walk.
#[inline(always)]
fn entries_reserved<Symbol, Word, Positive, Walk>(
    mut entries: Vec<(Word, Symbol)>,
    mut walk: Walk,
) -> Result<Vec<(Word, Symbol)>, AllocError>
where
    Symbol: Drop,
    Word: Copy,
    Positive: Copy,
    Walk: Iterator<Item = Result<(Symbol, Word, Positive), AllocError>>,
    requires empty { entries.items ≡ [] }
    requires goes { Walk.can_next walk }
    requires room { UpTo (Walk.remaining walk) (vec_capacity entries) }
    ensures { IfOk result (λ v. WalkedGood Walk.next_gives walk (λ xs.
        v.items ≡ map (λ x. (x.1, x.0)) xs)) }
{
    'rows: while let Some(row) = walk.next() {
        let (symbol, left, _weight) = row?;
        entries.push_reserved((left, symbol));
    }
    Ok(entries)
}

/// The same, if there may be more rows than room.
#[inline(always)]
fn entries_grown<Symbol, Word, Positive, Walk>(
    mut entries: Vec<(Word, Symbol)>,
    mut walk: Walk,
) -> Result<Vec<(Word, Symbol)>, AllocError>
where
    Symbol: Drop,
    Word: Copy,
    Positive: Copy,
    Walk: Iterator<Item = Result<(Symbol, Word, Positive), AllocError>>,
    requires empty { entries.items ≡ [] }
    requires goes { Walk.can_next walk }
    requires ends { IsFinite (Walk.remaining walk) }
    ensures { IfOk result (λ v. WalkedGood Walk.next_gives walk (λ xs.
        v.items ≡ map (λ x. (x.1, x.0)) xs)) }
{
    'rows: while let Some(row) = walk.next() {
        let (symbol, left, _weight) = row?;
        push_item(&mut entries, (left, symbol))?;
    }
    Ok(entries)
}
