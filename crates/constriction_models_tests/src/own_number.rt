//! A model over a word type of the caller's own that implements `WholeNumber` and not `BitArray`.

ghost use Rattle.std.specs.Prelude.{◌<◌};
ghost use Rattle.std.proofs.Common.{ap, refl};
ghost use Rattle.constriction_words.specs.lemmas.Word.{same-above-0};

use crate::checks::same;
use constriction::stream::model::{
    ContiguousCategoricalEntropyModel, DecoderModel, EncoderModel, UniformModel,
};
use constriction_words::WholeNumber;
use std::alloc::AllocError;
use std::process::Abort;

/// A share, in parts of 256.
#[derive(Clone, Copy)]
pub struct Share(u8);

/// A share that is not 0.
#[derive(Clone, Copy)]
pub struct SomeShare {
    share: Share,
    ghost positive: { 0 < share.0 },
}

impl WholeNumber for Share {
    const BITS: usize = 8;

    ghost BITS = { 8 };

    type NonZero = SomeShare;

    ghost whole = { λ a. a.0 };

    ghost base = { λ x. x.share };

    fn greatest_word() -> Share {
        Share(u8::MAX)
    }

    fn shifted_right(self, places: usize) -> Share {
        Share(self.0.shifted_right(places))
    }

    fn wrapping_pow2(exponent: usize) -> Share {
        Share(u8::wrapping_pow2(exponent))
    }

    fn is_at_most(self, other: Share) -> bool {
        self.0 <= other.0
    }

    fn is_below(self, other: Share) -> bool {
        self.0 < other.0
    }

    fn is_zero_word(self) -> bool {
        self.0 == 0
    }

    fn is_greatest(self) -> bool {
        self.0 == u8::MAX
    }

    fn plus(self, other: Share) -> Share {
        Share(self.0 + other.0)
    }

    fn minus(self, other: Share) -> Share {
        Share(self.0 - other.0)
    }

    fn wrapping_minus(self, other: Share) -> Share {
        Share(self.0.wrapping_minus(other.0))
    }

    fn times(self, other: Share) -> Share {
        Share(self.0 * other.0)
    }

    fn divided_by(self, other: Share) -> Share {
        Share(self.0 / other.0)
    }

    fn from_number(number: usize) -> Share {
        Share(u8::from_number(number))
    }

    fn to_number(self) -> usize {
        usize::from(self.0)
    }

    fn least() -> Share {
        Share(0)
    }

    fn to_weight(self) -> SomeShare {
        SomeShare { share: self }
    }

    fn from_weight(weight: SomeShare) -> Share {
        weight.share
    }

    ghost same_law = { λ a b e. ap (λ n. record { 0 = n }) e };

    ghost number_law = { λ n _. (record { 0 = n }, refl) };

    ghost weight_law = { λ x. x.positive };

    ghost same_weight_law = { λ a b e.
        same-above-0 (λ n h. record { share = record { 0 = n }; positive = h }) a.positive
        b.positive (ap (λ s. s.0) e) };
}

/// A model over shares.
type Shares = ContiguousCategoricalEntropyModel<Share, Vec<Share>, 6>;

/// A row of numbers: symbol, left cumulative and weight.
type Row = (usize, u8, u8);

/// The row that was answered.
fn row(answer: Result<(usize, Share, SomeShare), AllocError>) -> Option<Row> {
    match answer {
        Ok((symbol, left, weight)) => Some((symbol, left.0, weight.share.0)),
        Err(_) => None,
    }
}

/// The entry of a symbol, as a row of numbers.
fn entry(model: &Shares, symbol: usize) -> Option<Row> {
    match model.left_cumulative_and_probability(&symbol) {
        Some((left, weight)) => Some((symbol, left.0, weight.share.0)),
        None => None,
    }
}

/// Asserts that the row that was found is the expected one.
fn is_row(rt: &impl Abort, found: Option<Row>, expected: Option<Row>) {
    same(rt, found, expected);
}

#[test]
fn a_model_over_shares_answers_in_both_directions(rt: HostRuntime) {
    let weights = [Share(3), Share(18), Share(1), Share(42)];
    let made = Shares::from_nonzero_fixed_point_probabilities(rt.alloc(), weights, false);
    let model = made.expect(&rt, "accepted");
    is_row(
        &rt,
        row(model.quantile_function(Share(63))),
        Some((3, 22, 42)),
    );
    is_row(&rt, entry(&model, 1), Some((1, 3, 18)));
    is_row(&rt, entry(&model, 4), None);
}

#[test]
fn a_uniform_model_is_over_shares(rt: HostRuntime) {
    let uniform = UniformModel::<Share, 8>::new(3);
    let last = row(uniform.quantile_function(Share(255)));
    is_row(&rt, last, Some((2, 170, 86)));
}
