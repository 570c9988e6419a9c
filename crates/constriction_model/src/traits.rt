//! The traits of models: their rows, and what they answer in each direction.

ghost use Rattle.std.specs.Prelude.{◌≡◌, ◌^◌, ◌<◌, Bool, List, All, IfOk, IfErr, IfSome};
ghost use Rattle.std.specs.Cmp.{IsEquivalence};
ghost use Rattle.std.specs.Option.{option_map};
ghost use Rattle.constriction_model.specs.Rows.{Row, RowsTile, entry_of};
ghost use Rattle.constriction_model.specs.Model.{row_of, entry_in, LiesWithin, AnswersQuantile, RowMayBeRefused};
ghost use Rattle.constriction_model.specs.Precision.{IsPrecision};

use constriction_numbers::WholeNumber;
use std::alloc::AllocError;

/// The weights in the answers of a model over the words `P`: words other than 0.
pub type Weight<P> = <P as WholeNumber>::NonZero;

/// An entropy model in fixed-point arithmetic: a list of rows, each of which gives a symbol an
/// interval of the quantiles `0..2^PRECISION`.
///
/// `PRECISION` is at least 1, and at most the width of the words that quantiles are.
pub trait EntropyModel<const PRECISION: usize> {
    /// The type that is coded.
    type Symbol;

    /// The words of quantiles, left cumulatives and weights. Every `BitArray` will do.
    type Probability: WholeNumber;

    // The rows of a model. A type that has several of the traits below answers from the same rows
    // in each.
    ghost rows: { Self → List (Row Self.Symbol) };

    // The precision is at least 1, and at most the width of the words.
    ghost precision_law: { (m : Self) → IsPrecision Self.Probability.BITS PRECISION };
}

/// A model for an encoder: it knows the entry of each symbol.
pub trait EncoderModel<const PRECISION: usize>: EntropyModel<PRECISION> {
    // Whether two symbols are equal, by their type's own equality.
    ghost symbol_eq: { Self.Symbol → Self.Symbol → Bool };

    /// The entry of a symbol: its left cumulative and its weight. `None` means that the model has
    /// no such symbol, so it cannot be encoded.
    fn left_cumulative_and_probability(
        &self,
        symbol: &Self::Symbol,
    ) -> Option<(Self::Probability, Weight<Self::Probability>)>
        ensures entry { option_map (entry_in Self.Probability.whole Self.Probability.base) result
            ≡ entry_of symbol_eq (Self.rows self.now) symbol.now }
        ensures within { IfSome result (λ x. LiesWithin PRECISION
            (row_of Self.Probability.whole Self.Probability.base (symbol.now, x.0, x.1))) };

    // It is reflexive, symmetric and transitive, so that equal symbols are equal to the same
    // others.
    ghost equality_law: { IsEquivalence symbol_eq };

    // Each row has quantiles, and all of them lie below 2 ^ PRECISION.
    ghost within_law: { (m : Self) → All (LiesWithin PRECISION) (Self.rows m) };
}

/// A model for a decoder: it knows the row of each quantile.
pub trait DecoderModel<const PRECISION: usize>: EntropyModel<PRECISION> {
    // An answer may have the second symbol for a row with the first one. In a model that answers
    // clones, this is what the symbols' type says of a clone. By default it is equality.
    ghost stands_for: { Self.Symbol → Self.Symbol → Type 0 } = { λ s t. t ≡ s };

    // Memory for a row with this symbol may be refused. By default it never is.
    ghost may_refuse: { Self.Symbol → Type 0 } = { λ _. ⊥ };

    /// The row of a quantile: the symbol whose interval holds it, the left cumulative and the
    /// weight. A model that owns its symbols answers a clone, as the symbols' type defines it: for
    /// a `String`, one with the same text. The call fails only if memory for this clone is refused.
    ///
    /// A coder that fails with a `CoderError` passes the refusal on by
    /// `map_err(CoderError::Frontend)` or a `match`. A bare `?` makes it an error of the backend if
    /// the backend's error is `AllocError` too.
    fn quantile_function(
        &self,
        quantile: Self::Probability,
    ) -> Result<(Self::Symbol, Self::Probability, Weight<Self::Probability>), AllocError>
        requires in_range { Self.Probability.whole quantile < 2 ^ PRECISION }
        ensures row { IfOk result (AnswersQuantile stands_for Self.Probability.whole
            Self.Probability.base (Self.rows self.now) (Self.Probability.whole quantile)) }
        ensures within { IfOk result (λ x. LiesWithin PRECISION
            (row_of Self.Probability.whole Self.Probability.base x)) }
        ensures refused { IfErr result (λ _. RowMayBeRefused may_refuse (Self.rows self.now)
            (Self.Probability.whole quantile)) };

    // The rows tile the quantiles, so each quantile has exactly one row.
    ghost tile_law: { (m : Self) → RowsTile Self.Probability.BITS PRECISION (Self.rows m) };
}
