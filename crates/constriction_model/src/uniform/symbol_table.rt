//! A walk through the rows of a uniform model.

ghost use Rattle.std.specs.Prelude.{◌≡◌, ◌+◌, ◌*◌, ◌≤◌, length};
ghost use Rattle.std.specs.Iterator.{at_most, size};
ghost use Rattle.std.specs.Iterator.SizeHint.{IsExactHint};
ghost use Rattle.constriction_model.specs.Rows.{uniform_rows};
ghost use Rattle.constriction_model.specs.lemmas.UniformRows.{IsWeight, bin_of};
ghost use Rattle.constriction_model.specs.Tables.{YieldsRow, YieldsLastRow, rows_between};

use crate::traits::Weight;
use crate::uniform::UniformModel;
use constriction_numbers::WholeNumber;
use std::alloc::AllocError;
use std::fmt::Debug;
use std::iter::FusedIterator;

/// The remaining rows of a [`UniformModel`], from either end.
///
/// Each row is given once, from one end or the other. Both ends answer `None` if and only if no row
/// is left. Every item is `Ok`, since the walk takes no memory. A step costs one product.
///
/// The weights are stored as words other than 0, so no step tests them.
#[derive(Drop)]
#[derive_where(Debug; Probability: Debug, Weight<Probability>: Debug)]
pub struct UniformSymbolTable<Probability: WholeNumber, const PRECISION: usize> {
    model: UniformModel<Probability, PRECISION>,
    from: usize,
    to: usize,
    probability_per_bin: Weight<Probability>,
    last_probability: Weight<Probability>,
    ghost in_order: { from ≤ to },
    ghost in_bounds: { to ≤ Probability.whole model.last_symbol + 1 },
    ghost bin: { Probability.base probability_per_bin ≡ model.probability_per_bin },
    ghost rest: { Probability.base last_probability ≡ model.last_probability },
}

impl<Probability: WholeNumber, const PRECISION: usize> UniformSymbolTable<Probability, PRECISION> {
    /// All rows of the model.
    #[inline]
    pub fn new(model: UniformModel<Probability, PRECISION>) -> Self
        ensures model { result.model ≡ model }
        ensures from { result.from ≡ 0 }
        ensures to { result.to ≡ Probability.whole model.last_symbol + 1 }
    {
        let to = model.last_symbol.to_number() + 1;
        UniformSymbolTable {
            model,
            from: 0,
            to,
            probability_per_bin: model.probability_per_bin.to_weight(),
            last_probability: model.last_probability.to_weight(),
        }
    }

    /// The left cumulative and the weight of a symbol.
    #[inline]
    fn row_words_of(&self, symbol: Probability) -> (Probability, Weight<Probability>)
        requires { Probability.whole symbol ≤ Probability.whole self.now.model.last_symbol }
        ensures left { Probability.whole result.0 ≡ Probability.whole symbol * bin_of PRECISION
            (Probability.whole self.now.model.last_symbol) }
        ensures weight { IsWeight PRECISION (Probability.whole self.now.model.last_symbol)
            (Probability.whole symbol) (Probability.whole (Probability.base result.1)) }
    {
        let left = symbol.times(self.model.probability_per_bin);
        let weight = if symbol.is_below(self.model.last_symbol) {
            self.probability_per_bin
        } else {
            self.last_probability
        };
        (left, weight)
    }
}

impl<Probability: WholeNumber, const PRECISION: usize> Iterator
    for UniformSymbolTable<Probability, PRECISION> {
    type Item = Result<(usize, Probability, Weight<Probability>), AllocError>;

    ghost next_gives = { YieldsRow (λ s t. t ≡ s) (λ _. ⊥) Probability.whole Probability.base (λ t.
        rows_between t.from t.to
        (uniform_rows PRECISION (Probability.whole t.model.last_symbol + 1))) };

    ghost remaining = { λ t. at_most (length (rows_between t.from t.to
        (uniform_rows PRECISION (Probability.whole t.model.last_symbol + 1)))) };

    #[inline]
    fn next(&mut self) -> Option<Result<(usize, Probability, Weight<Probability>), AllocError>> {
        if self.from == self.to {
            return None;
        }
        let symbol = self.from;
        let (left, weight) = self.row_words_of(Probability::from_number(symbol));
        self.from = symbol + 1;
        Some(Ok((symbol, left, weight)))
    }

    /// How many rows are left, exactly.
    #[inline]
    fn size_hint(&self) -> (usize, Option<usize>)
        ensures { IsExactHint result (size (⟦<Self as Iterator>⟧.remaining self.now)) }
    {
        let size = self.len();
        (size, Some(size))
    }
}

impl<Probability: WholeNumber, const PRECISION: usize> DoubleEndedIterator
    for UniformSymbolTable<Probability, PRECISION> {
    ghost next_back_gives = { YieldsLastRow (λ s t. t ≡ s) (λ _. ⊥) Probability.whole
        Probability.base (λ t. rows_between t.from t.to
        (uniform_rows PRECISION (Probability.whole t.model.last_symbol + 1))) };

    #[inline]
    fn next_back(
        &mut self,
    ) -> Option<Result<(usize, Probability, Weight<Probability>), AllocError>> {
        if self.from == self.to {
            return None;
        }
        let symbol = self.to - 1;
        let (left, weight) = self.row_words_of(Probability::from_number(symbol));
        self.to = symbol;
        Some(Ok((symbol, left, weight)))
    }
}

impl<Probability: WholeNumber, const PRECISION: usize> ExactSizeIterator
    for UniformSymbolTable<Probability, PRECISION> {
    /// How many rows are left.
    #[inline]
    fn len(&self) -> usize {
        self.to - self.from
    }
}

impl<Probability: WholeNumber, const PRECISION: usize> FusedIterator
    for UniformSymbolTable<Probability, PRECISION> {}
