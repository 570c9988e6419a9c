//! The walk through the rows of a model that stores its symbols.

ghost use Rattle.std.specs.Prelude.{◌≤◌, length, map};
ghost use Rattle.std.specs.Iterator.{at_most, size};
ghost use Rattle.std.specs.Iterator.SizeHint.{IsExactHint};
ghost use Rattle.constriction_model.specs.Precision.{IsPrecision};
ghost use Rattle.constriction_stored_rows.specs.Stored.{IsStored, rows_paired};
ghost use Rattle.constriction_model.specs.Tables.{YieldsRow, YieldsLastRow, rows_between};

use constriction_model::Weight;
use constriction_numbers::WholeNumber;
use constriction_stored_rows::{end_in_walk, paired_row_at, paired_row_ending_at};
use std::alloc::AllocError;
use std::iter::FusedIterator;

/// The remaining rows of a decoder over any symbols, from either end, each once and with a clone of
/// its symbol.
///
/// If memory for a clone is refused, the row's item is the refusal, and the walk goes on with the
/// next row.
#[derive(Debug, Drop)]
pub struct NonContiguousSymbolTable<'m, Symbol, Probability: WholeNumber, const PRECISION: usize> {
    pub(crate) entries: &'m [(Probability, Symbol)],
    pub(crate) from: usize,
    pub(crate) to: usize,
    ghost precise: { IsPrecision Probability.BITS PRECISION },
    ghost stored: { IsStored Probability.BITS PRECISION
        (map (λ x. Probability.whole x.0) entries.now) },
    ghost in_order: { from ≤ to },
    ghost in_bounds: { to ≤ length entries.now },
}

impl<'m, Symbol: Clone, Probability: WholeNumber, const PRECISION: usize> Iterator
    for NonContiguousSymbolTable<'m, Symbol, Probability, PRECISION> {
    type Item = Result<(Symbol, Probability, Weight<Probability>), AllocError>;

    ghost next_gives = { YieldsRow Symbol.is_clone (λ s. ¬ (Symbol.is_infallible s))
        Probability.whole Probability.base (λ t.
        rows_between t.from t.to (rows_paired Probability.whole PRECISION t.entries.now)) };

    ghost remaining = { λ t. at_most (length
        (rows_between t.from t.to (rows_paired Probability.whole PRECISION t.entries.now))) };

    #[inline]
    fn next(&mut self) -> Option<Result<(Symbol, Probability, Weight<Probability>), AllocError>> {
        let index = self.from;
        let Some(end) = end_in_walk::<Probability, Symbol, PRECISION>(self.entries, index, self.to)
        else {
            return None;
        };
        let (left, weight) = paired_row_ending_at::<Probability, Symbol, PRECISION>(
            self.entries,
            end,
            index,
        );
        self.from = index + 1;
        match self.entries[index].1.clone() {
            Ok(symbol) => Some(Ok((symbol, left, weight))),
            Err(error) => Some(Err(error)), // the next call goes on
        }
    }

    #[inline]
    fn size_hint(&self) -> (usize, Option<usize>)
        ensures { IsExactHint result (size (⟦<Self as Iterator>⟧.remaining self.now)) }
    {
        let size = self.len();
        (size, Some(size))
    }
}

impl<'m, Symbol: Clone, Probability: WholeNumber, const PRECISION: usize> DoubleEndedIterator
    for NonContiguousSymbolTable<'m, Symbol, Probability, PRECISION> {
    ghost next_back_gives = { YieldsLastRow Symbol.is_clone (λ s. ¬ (Symbol.is_infallible s))
        Probability.whole Probability.base (λ t.
        rows_between t.from t.to (rows_paired Probability.whole PRECISION t.entries.now)) };

    #[inline]
    fn next_back(
        &mut self,
    ) -> Option<Result<(Symbol, Probability, Weight<Probability>), AllocError>> {
        if self.from == self.to {
            return None;
        }
        let index = self.to - 1;
        let (left, weight) = paired_row_at::<Probability, Symbol, PRECISION>(self.entries, index);
        self.to = index;
        match self.entries[index].1.clone() {
            Ok(symbol) => Some(Ok((symbol, left, weight))),
            Err(error) => Some(Err(error)),
        }
    }
}

impl<'m, Symbol: Clone, Probability: WholeNumber, const PRECISION: usize> ExactSizeIterator
    for NonContiguousSymbolTable<'m, Symbol, Probability, PRECISION> {
    /// How many rows are left.
    #[inline]
    fn len(&self) -> usize {
        self.to - self.from
    }
}

impl<'m, Symbol: Clone, Probability: WholeNumber, const PRECISION: usize> FusedIterator
    for NonContiguousSymbolTable<'m, Symbol, Probability, PRECISION> {}
