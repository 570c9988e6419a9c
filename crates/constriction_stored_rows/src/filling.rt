//! Filling the quantiles below `2^PRECISION` with rows, one after another.

ghost use Rattle.std.specs.Prelude.{◌≡◌, ◌+◌, ◌^◌, ◌<◌, ◌≤◌, ◌⊎◌, ⊤, ℕ, List, [], ◌∷◌, ◌++◌, length, map, sum, IfOk, IsOk, IsErr, OnOk, OnErr, IsTrue, true, false, min};
ghost use Rattle.std.specs.Vec.{vec_len, vec_capacity};
ghost use Rattle.std.specs.Iterator.{IsFinite, IsFiniteIterable};
ghost use Rattle.constriction_model.specs.Acceptance.{completed, IsAccepted};
ghost use Rattle.constriction_model.specs.Precision.{IsPrecision};
ghost use Rattle.constriction_stored_rows.specs.Ends.{FillsAll, IsNoLast, IsNoneInferred, IsCdfOf, IsNoCdf};
ghost use Rattle.constriction_stored_rows.specs.Stored.{lefts_from, total_of};
ghost use Rattle.constriction_stored_rows.specs.private.Filling.{AreNotTaken};
ghost use Rattle.constriction_stored_rows.specs.private.Given.{GaveGood};

use constriction_model::ModelError;
use constriction_numbers::WholeNumber;
use std::alloc::{AllocError, Global};
use std::mem;

/// Makes room for one more item.
#[cold]
#[inline(never)]
fn make_room<T: Drop>(items: &mut Vec<T>) -> Result<(), AllocError>
    ensures same { items.new.items ≡ items.old.items }
    ensures room { IfOk result (λ _. vec_len items.new < vec_capacity items.new) }
{
    items.reserve(1)
}

/// Adds an item to a list. If memory for it is refused, the list stays.
///
/// `make_room` borrows a full list under another name, so a loop that fills the list keeps its
/// pointer, length and capacity in registers.
#[inline(always)]
pub fn push_item<T: Drop>(items: &mut Vec<T>, item: T) -> Result<(), AllocError>
    ensures pushed { IsOk result → items.new.items ≡ items.old.items ++ item ∷ [] }
    ensures same { IsErr result → items.new.items ≡ items.old.items }
{
    if items.len() == items.capacity() {
        let alloc = *items.allocator();
        let mut full = mem::replace(items, Vec::new(alloc));
        let grown = make_room(&mut full);
        *items = full;
        grown?;
    }
    items.push_reserved(item);
    Ok(())
}

/// Whether a row of this weight leaves some quantiles. `room` is the number of quantiles after the
/// first one of the row, and `one` is the word 1.
///
/// One comparison separates these weights from all others: 0, the weight that fills the quantiles,
/// and weights that exceed them.
#[inline(always)]
fn leaves_some<Word: WholeNumber>(weight: Word, one: Word, room: Word) -> bool
    requires one { Word.whole one ≡ 1 }
    requires range { Word.whole room < 2 ^ Word.BITS }
    ensures some { IsTrue result → (0 < Word.whole weight) × (Word.whole weight ≤ Word.whole room) }
    ensures none { result ≡ false
        → (Word.whole weight ≡ 0) ⊎ (Word.whole room < Word.whole weight) }
{
    let last = weight.wrapping_minus(one);
    last.is_below(room)
}

/// Whether the row of a given weight that leaves no quantiles is the last one: it is if the weight
/// fills the quantiles, and no further one is inferred.
#[inline]
fn fills_all<Word: WholeNumber>(weight: Word, one: Word, room: Word, infer_last: bool) -> bool
    requires one { Word.whole one ≡ 1 }
    requires none_left { (Word.whole weight ≡ 0) ⊎ (Word.whole room < Word.whole weight) }
    ensures filled { IsTrue result
        → FillsAll Word.BITS (Word.whole weight) (Word.whole room) infer_last }
    ensures bad { result ≡ false → IsNoLast (Word.whole weight) (Word.whole room) infer_last }
{
    if infer_last {
        return false;
    }
    if weight.is_zero_word() {
        return false;
    }
    let last = weight.wrapping_minus(one);
    last.is_at_most(room)
}

/// Whether the row that takes all quantiles left is the last one: it is if its weight is inferred,
/// and is a word.
#[inline]
pub(crate) fn is_inferred_last<Word: WholeNumber>(room: Word, infer_last: bool) -> bool
    requires { Word.whole room < 2 ^ Word.BITS }
    ensures inferred { IsTrue result → (infer_last ≡ true) × (Word.whole room + 1 < 2 ^ Word.BITS) }
    ensures bad { result ≡ false → IsNoneInferred Word.BITS (Word.whole room) infer_last }
{
    if infer_last {
        return !room.is_greatest();
    }
    false
}

/// How many of the announced rows to request memory for at once: all, but no more than an accepted
/// list can have.
#[inline]
#[tactic(auto, using(crate::proofs::AnnouncedLemmas::few_announced, crate::proofs::AnnouncedLemmas::all_announced))]
pub fn rows_announced<const PRECISION: usize>(announced: usize) -> usize
    ensures all { announced ≤ 2 ^ min PRECISION 62 → result ≡ announced }
    ensures accepted { result ≤ 2 ^ PRECISION }
    ensures announced { result ≤ announced }
{
    announced.min(1usize << PRECISION.min(62))
}

/// How many entries to request memory for at once: one for each announced row, up to the most that
/// an accepted list can have, and one for the total.
#[inline]
pub fn entries_announced<const PRECISION: usize>(announced: usize) -> usize
    ensures all { announced ≤ 2 ^ min PRECISION 62 → result ≡ announced + 1 }
    ensures accepted { result ≤ 2 ^ PRECISION + 1 }
    ensures announced { result ≤ announced + 1 }
{
    rows_announced::<PRECISION>(announced).saturating_add(1)
}

/// A copy of these words, in one allocation.
#[inline]
pub fn copy_of<Word: Copy>(alloc: Global, words: &[Word]) -> Result<Vec<Word>, AllocError>
    ensures { IfOk result (λ v. v.items ≡ words.now) }
{
    let mut copy = Vec::with_capacity(alloc, words.len())?;
    copy.extend_from_slice(words)?;
    Ok(copy)
}

/// What takes the rows of weights, one after another.
pub(crate) trait TakesWeights<Word: WholeNumber>: Drop {
    // Between the first state and the second one, the rows of these weights were taken.
    ghost took: { Self → List ℕ → Self → Type 0 };

    // So many rows, or more, are not taken after this state.
    ghost ends_before: { Self → ℕ → Type 0 };

    // Whether memory may be refused.
    ghost may_refuse: { Type 0 };

    /// Takes one more row. `InvalidTable` comes only if there is none to take.
    fn take_weight(&mut self, left: Word, weight: Word) -> Result<(), ModelError>
        requires positive { 0 < Word.whole weight }
        requires begun { (first : Self) × (weights : List ℕ) × took first weights self.old
            × (Word.whole left ≡ sum weights) }
        ensures took { IsOk result → (first : Self) (weights : List ℕ) → took first weights self.old
            → Word.whole left ≡ sum weights
            → took first (weights ++ Word.whole weight ∷ []) self.new }
        ensures ended { result ≡ Err ModelError.InvalidTable → (first : Self) (weights : List ℕ)
            → took first weights self.old → ends_before first (length weights + 1) }
        ensures memory { result ≡ Err ModelError.OutOfMemory → may_refuse };
}

impl<Word: WholeNumber> TakesWeights<Word> for Vec<Word> {
    ghost took = { λ _ weights v. map Word.whole v.items ≡ lefts_from 0 weights };

    ghost ends_before = { λ _ _. ⊥ };

    ghost may_refuse = { ⊤ };

    #[inline(always)]
    fn take_weight(&mut self, left: Word, _weight: Word) -> Result<(), ModelError> {
        push_item(self, left)?;
        Ok(())
    }
}

/// Rows that are not stored, since their weights are judged alone.
#[derive(Drop)]
struct Unstored;

impl<Word: WholeNumber> TakesWeights<Word> for Unstored {
    ghost took = { λ _ _ _. ⊤ };

    ghost ends_before = { λ _ _. ⊥ };

    ghost may_refuse = { ⊥ };

    #[inline(always)]
    fn take_weight(&mut self, _left: Word, _weight: Word) -> Result<(), ModelError> {
        Ok(())
    }
}

/// Judges the weights of an iterator, and has the row of each taken.
///
/// A weight is judged before its row is taken, and the row is taken before the next weight is read.
#[inline(always)]
pub(crate) fn weights_taken<
    Word: WholeNumber,
    Weights: Iterator<Item = Word>,
    Taken: TakesWeights<Word>,
    const PRECISION: usize,
>(mut taken: Taken, rest: &mut Weights, infer_last: bool) -> Result<Taken, ModelError>
    requires precision { IsPrecision Word.BITS PRECISION }
    requires none { Taken.took taken [] taken }
    requires goes { Weights.can_next rest.old }
    requires ends { IsFinite (Weights.remaining rest.old) }
    ensures ok { IfOk result (λ t. GaveGood Weights.next_gives rest.old
        (λ ws. IsAccepted Word.BITS PRECISION (completed PRECISION infer_last (map Word.whole ws))
        × Taken.took taken (completed PRECISION infer_last (map Word.whole ws)) t)) }
    ensures invalid { result ≡ Err ModelError.InvalidTable → AreNotTaken Weights.next_gives rest.old
        Word.whole Word.BITS PRECISION infer_last (Taken.took taken) (Taken.ends_before taken) }
    ensures memory { result ≡ Err ModelError.OutOfMemory → Taken.may_refuse }
{
    let one = Word::greatest_of_bits(1);
    let mut left = Word::least();
    let mut room = Word::greatest_of_bits(PRECISION);
    'rows: while let Some(weight) = rest.next() {
        if !leaves_some(weight, one, room) {
            if !fills_all(weight, one, room, infer_last) {
                return Err(ModelError::InvalidTable);
            }
            taken.take_weight(left, weight)?;
            if let Some(_) = rest.next() {
                return Err(ModelError::InvalidTable);
            }
            return Ok(taken);
        }
        let first = left;
        left = left.plus(weight);
        room = room.minus(weight);
        taken.take_weight(first, weight)?;
    }
    if !is_inferred_last(room, infer_last) {
        return Err(ModelError::InvalidTable);
    }
    taken.take_weight(left, room.plus(one))?;
    Ok(taken)
}

/// Fills an empty cdf from the weights of an iterator.
#[inline(always)]
fn fill_cdf<Word: WholeNumber, Weights: Iterator<Item = Word>, const PRECISION: usize>(
    cdf: Vec<Word>,
    rest: &mut Weights,
    infer_last: bool,
) -> Result<Vec<Word>, ModelError>
    requires precision { IsPrecision Word.BITS PRECISION }
    requires empty { cdf.items ≡ [] }
    // The cdf has no more room than accepted weights need.
    requires room { vec_capacity cdf ≤ 2 ^ PRECISION + 1 }
    requires goes { Weights.can_next rest.old }
    requires ends { IsFinite (Weights.remaining rest.old) }
    ensures ok { IfOk result (λ v.
        IsCdfOf Weights.next_gives rest.old Word.whole Word.BITS PRECISION infer_last v.items) }
    ensures invalid { result ≡ Err ModelError.InvalidTable
        → IsNoCdf Weights.next_gives rest.old Word.whole Word.BITS PRECISION infer_last }
{
    let mut cdf = weights_taken::<Word, Weights, Vec<Word>, PRECISION>(cdf, rest, infer_last)?;
    push_item(&mut cdf, Word::wrapping_pow2(PRECISION))?;
    Ok(cdf)
}

/// The cdf of these weights. The last weight may be inferred.
pub fn cdf_of<Word: WholeNumber, Weights: IntoIterator<Item = Word>, const PRECISION: usize>(
    alloc: Global,
    weights: Weights,
    infer_last: bool,
) -> Result<Vec<Word>, ModelError>
    requires precision { IsPrecision Word.BITS PRECISION }
    requires ends { IsFiniteIterable Weights.into_iter_gives Weights.IntoIter.can_next
        Weights.IntoIter.remaining weights }
    ensures ok { IfOk result (λ v. (it : Weights.IntoIter) × Weights.into_iter_gives weights it
        × IsCdfOf Weights.IntoIter.next_gives it Word.whole Word.BITS PRECISION infer_last
        v.items) }
    ensures invalid { result ≡ Err ModelError.InvalidTable
        → (it : Weights.IntoIter) × Weights.into_iter_gives weights it
        × IsNoCdf Weights.IntoIter.next_gives it Word.whole Word.BITS PRECISION infer_last }
{
    let mut rest = weights.into_iter();
    let rows = rest.size_hint().0.saturating_add(usize::from(infer_last));
    let cdf = Vec::with_capacity(alloc, entries_announced::<PRECISION>(rows))?;
    fill_cdf::<Word, Weights::IntoIter, PRECISION>(cdf, &mut rest, infer_last)
}

/// The weights of all rows but the last one.
fn before_last<'w, Word: WholeNumber, const PRECISION: usize>(
    weights: &'w [Word],
    infer_last: bool,
) -> &'w [Word]
    requires { IsAccepted Word.BITS PRECISION
        (completed PRECISION infer_last (map Word.whole weights.now)) }
    ensures before { (last : ℕ) × (completed PRECISION infer_last (map Word.whole weights.now)
        ≡ map Word.whole result.now ++ last ∷ []) }
    ensures some_left { sum (map Word.whole result.now) < 2 ^ PRECISION }
{
    if infer_last {
        return weights;
    }
    let Some((_, before)) = weights.split_last() else {
        return weights;
    };
    before
}

/// The cdf of the rows of these weights and of a last row, which takes the other quantiles. It is
/// written over a cdf with room for it.
fn rewritten<Word: WholeNumber, const PRECISION: usize>(
    mut cdf: Vec<Word>,
    weights: &[Word],
) -> Vec<Word>
    requires precision { IsPrecision Word.BITS PRECISION }
    requires some_left { sum (map Word.whole weights.now) < 2 ^ PRECISION }
    requires room { length weights.now + 2 ≤ vec_capacity cdf }
    ensures { map Word.whole result.items
        ≡ (lefts_from 0 (map Word.whole weights.now) ++ sum (map Word.whole weights.now) ∷ [])
        ++ total_of Word.BITS PRECISION ∷ [] }
{
    let mut left = Word::least();
    cdf.clear();
    cdf.push_reserved(left);
    for weight in weights {
        left = left.plus(*weight);
        cdf.push_reserved(left);
    }
    cdf.push_reserved(Word::wrapping_pow2(PRECISION));
    cdf
}

/// Gives a cdf the rows of other weights. The last weight may be inferred.
///
/// One pass over the weights judges them, and one writes. Memory is requested only if the cdf needs
/// more than it has.
pub fn refill_cdf<Word: WholeNumber, const PRECISION: usize>(
    cdf: &mut Vec<Word>,
    weights: &[Word],
    infer_last: bool,
) -> Result<(), ModelError>
    requires { IsPrecision Word.BITS PRECISION }
    ensures accepted { OnOk result (IsAccepted Word.BITS PRECISION
        (completed PRECISION infer_last (map Word.whole weights.now))) }
    ensures ok { OnOk result (map Word.whole cdf.new.items ≡ lefts_from 0 (completed PRECISION
        infer_last (map Word.whole weights.now)) ++ total_of Word.BITS PRECISION ∷ []) }
    ensures invalid { result ≡ Err ModelError.InvalidTable → ¬ (IsAccepted Word.BITS PRECISION
        (completed PRECISION infer_last (map Word.whole weights.now))) }
    // Memory is refused only if the new cdf is longer.
    ensures memory { result ≡ Err ModelError.OutOfMemory → vec_len cdf.old
        < length (completed PRECISION infer_last (map Word.whole weights.now)) + 1 }
    ensures err { OnErr result (cdf.new.items ≡ cdf.old.items) }
{
    let mut judged = weights.iter().copied();
    weights_taken::<Word, _, Unstored, PRECISION>(Unstored, &mut judged, infer_last)?;
    let before = before_last::<Word, PRECISION>(weights, infer_last);
    let Some(words) = before.len().checked_add(2) else {
        return Err(ModelError::OutOfMemory);
    };
    if cdf.reserve(words.saturating_sub(cdf.len())).is_err() {
        return Err(ModelError::OutOfMemory);
    }
    let alloc = *cdf.allocator();
    let old = mem::replace(cdf, Vec::new(alloc));
    *cdf = rewritten::<Word, PRECISION>(old, before);
    Ok(())
}
