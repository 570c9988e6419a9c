//! The walk through the rows of a contiguous model.

ghost use Rattle.std.specs.Prelude.{◌≡◌, ◌<◌, ◌≤◌, length, map};
ghost use Rattle.std.specs.Iterator.{at_most, size};
ghost use Rattle.std.specs.Iterator.SizeHint.{IsExactHint};
ghost use Rattle.constriction_stored_rows.specs.Stored.{IsCdf};
ghost use Rattle.constriction_model.specs.Tables.{YieldsRow, YieldsLastRow};
ghost use Rattle.constriction_stored_rows.specs.Stored.{rows_stored};

use constriction_model::Weight;
use constriction_numbers::WholeNumber;
use constriction_stored_rows::cdf_row_at;
use std::alloc::AllocError;
use std::iter::FusedIterator;

/// The remaining rows of a contiguous model, from either end, each once.
///
/// Every item is `Ok`, since the walk takes no memory. A step reads two neighbours of the model's
/// cdf.
#[derive(Debug, Drop)]
pub struct ContiguousSymbolTable<'m, Probability: WholeNumber, const PRECISION: usize> {
    pub(crate) cdf: &'m [Probability],
    pub(crate) from: usize,
    pub(crate) to: usize,
    ghost narrow: { PRECISION ≤ Probability.BITS },
    ghost stored: { IsCdf Probability.BITS PRECISION (map Probability.whole cdf.now) },
    ghost in_order: { from ≤ to },
    ghost in_bounds: { to < length cdf.now },
}

impl<'m, Probability: WholeNumber, const PRECISION: usize> Iterator
    for ContiguousSymbolTable<'m, Probability, PRECISION> {
    type Item = Result<(usize, Probability, Weight<Probability>), AllocError>;

    ghost next_gives = { YieldsRow (λ s t. t ≡ s) (λ _. ⊥) Probability.whole Probability.base
        (λ t. rows_stored PRECISION (map Probability.whole t.cdf.now) t.from t.to) };

    ghost remaining = { λ t.
        at_most (length (rows_stored PRECISION (map Probability.whole t.cdf.now) t.from t.to)) };

    #[inline]
    fn next(&mut self) -> Option<Result<(usize, Probability, Weight<Probability>), AllocError>> {
        let index = self.from;
        if index == self.to {
            return None;
        }
        let (left, weight) = cdf_row_at::<Probability, PRECISION>(self.cdf, index);
        self.from = index + 1;
        Some(Ok((index, left, weight)))
    }

    #[inline]
    fn size_hint(&self) -> (usize, Option<usize>)
        ensures { IsExactHint result (size (⟦<Self as Iterator>⟧.remaining self.now)) }
    {
        let size = self.len();
        (size, Some(size))
    }
}

impl<'m, Probability: WholeNumber, const PRECISION: usize> DoubleEndedIterator
    for ContiguousSymbolTable<'m, Probability, PRECISION> {
    ghost next_back_gives = { YieldsLastRow (λ s t. t ≡ s) (λ _. ⊥) Probability.whole
        Probability.base (λ t.
        rows_stored PRECISION (map Probability.whole t.cdf.now) t.from t.to) };

    #[inline]
    fn next_back(
        &mut self,
    ) -> Option<Result<(usize, Probability, Weight<Probability>), AllocError>> {
        if self.from == self.to {
            return None;
        }
        let index = self.to - 1;
        let (left, weight) = cdf_row_at::<Probability, PRECISION>(self.cdf, index);
        self.to = index;
        Some(Ok((index, left, weight)))
    }
}

impl<'m, Probability: WholeNumber, const PRECISION: usize> ExactSizeIterator
    for ContiguousSymbolTable<'m, Probability, PRECISION> {
    /// How many rows are left.
    #[inline]
    fn len(&self) -> usize {
        self.to - self.from
    }
}

impl<'m, Probability: WholeNumber, const PRECISION: usize> FusedIterator
    for ContiguousSymbolTable<'m, Probability, PRECISION> {}
