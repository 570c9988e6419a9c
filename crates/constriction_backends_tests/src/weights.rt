//! Nonzero words: what generic code learns of two of them from the bound alone.

ghost use Rattle.std.specs.Prelude.{◌≡◌, ◌↔◌, IsTrue};

use crate::checks::same;
use constriction_words::{BitArray, NonZeroBitArray};

/// Whether two weights are the same number.
pub fn are_same_weight<P: BitArray>(a: P::NonZero, b: P::NonZero) -> bool
    ensures { IsTrue result ↔ (P.whole (P.NonZero.base a) ≡ P.whole (P.NonZero.base b)) }
{
    a == b
}

/// Whether two nonzero words are the same value.
pub fn are_one<W: NonZeroBitArray>(a: W, b: W) -> bool
    ensures { IsTrue result ↔ (a ≡ b) }
{
    a == b
}

/// Whether two rows are the same value: symbol, left cumulative and weight.
pub fn are_same_row<P: BitArray>(a: (usize, P, P::NonZero), b: (usize, P, P::NonZero)) -> bool
    ensures { IsTrue result ↔ (a ≡ b) }
{
    a == b
}

/// Whether the greatest word is the same weight as itself, as 1, and as the word below it.
pub fn greatest_is_same_as<P: BitArray>() -> Option<[bool; 3]> {
    let greatest = P::max_value();
    let below = greatest.wrapping_sub(&P::one());
    let (Some(weight), Some(again), Some(one), Some(below)) = (
        greatest.into_nonzero(),
        P::NonZero::new(greatest),
        P::one().into_nonzero(),
        below.into_nonzero(),
    ) else {
        return None;
    };
    Some([
        are_same_weight::<P>(weight, again),
        are_same_weight::<P>(weight, one),
        are_one(weight, below),
    ])
}

#[test]
fn weights_are_compared_by_their_numbers(rt: HostRuntime) {
    same(&rt, greatest_is_same_as::<u8>(), Some([true, false, false]));
}

/// Whether two rows are the same value. Their weights are given as words.
fn rows_agree<P: BitArray>(a: (usize, P, P), b: (usize, P, P)) -> Option<bool> {
    let (Some(first), Some(second)) = (a.2.into_nonzero(), b.2.into_nonzero()) else {
        return None;
    };
    Some(are_same_row::<P>((a.0, a.1, first), (b.0, b.1, second)))
}

#[test]
fn rows_are_compared_by_their_numbers(rt: HostRuntime) {
    for (row, agrees) in [
        ((1, 3, 18), true),
        ((2, 3, 18), false),
        ((1, 4, 18), false),
        ((1, 3, 19), false),
    ] {
        same(&rt, rows_agree((1, 3u8, 18u8), row), Some(agrees));
    }
}
