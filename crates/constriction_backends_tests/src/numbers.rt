//! What generic code learns of operations on words from the bound alone, and words as indices.

ghost use Rattle.std.specs.Prelude.{◌≡◌, ◌+◌, ◌-◌, ◌*◌, ◌/◌, ◌%◌, ◌<◌, ◌≤◌, ◌^◌};

use crate::checks::same;
use constriction_test_support::own_word::Sample;
use constriction_words::{BitArray, IndexWord};

/// The sum of two words.
fn plus<P: BitArray>(a: P, b: P) -> P
    requires { P.whole a + P.whole b < 2 ^ P.BITS }
    ensures { P.whole result ≡ P.whole a + P.whole b }
{
    a + b
}

/// Half of the distance from one word to a greater one.
pub fn half_way<P: BitArray>(from: P, to: P) -> P
    requires order { P.whole from ≤ P.whole to }
    requires width { 1 < P.BITS }
    ensures { P.whole result ≡ (P.whole to - P.whole from) / 2 }
{
    (to - from) >> 1
}

/// What a caller learns of a word type of its own from this contract.
pub fn half_of_sample(a: Sample) -> Sample
    ensures { result.0 ≡ a.0 / 2 }
{
    half_way(Sample(0), a)
}

/// How many words there are from `b` to `a`, both included.
fn difference_plus<P: BitArray>(a: P, b: P) -> P
    requires order { P.whole b ≤ P.whole a }
    requires room { P.whole a + 1 < 2 ^ P.BITS }
    ensures { P.whole result + P.whole b ≡ P.whole a + 1 }
{
    a - b + P::one()
}

/// A quotient, rounded down.
fn over<P: BitArray>(a: P, b: P) -> P
    requires { 0 < P.whole b }
    ensures { P.whole result ≡ P.whole a / P.whole b }
{
    a / b
}

/// The remainder of a product.
pub fn remainder_of_product<P: BitArray>(a: P, b: P, divisor: P) -> P
    requires fits { P.whole a * P.whole b < 2 ^ P.BITS }
    requires positive { 0 < P.whole divisor }
    ensures { P.whole result ≡ (P.whole a * P.whole b) % P.whole divisor }
{
    a * b % divisor
}

/// A word shifted up, without the bits that leave it.
pub fn moved_up<P: BitArray>(a: P, n: u32) -> P
    requires { n < P.BITS }
    ensures { P.whole result ≡ (P.whole a * 2 ^ n) % 2 ^ P.BITS }
{
    a << n
}

/// The lesser of two words.
pub fn lower<P: BitArray>(a: P, b: P) -> P
    ensures a { P.whole result ≤ P.whole a }
    ensures b { P.whole result ≤ P.whole b }
{
    if a < b { a } else { b }
}

#[test]
fn operations_give_the_exact_number(rt: HostRuntime) {
    same(
        &rt,
        [
            plus(200u8, 55),
            half_way(55, 200),
            half_way(0, 255),
            difference_plus(200, 200),
            over(255, 2),
            remainder_of_product(15, 17, 16),
            remainder_of_product(15, 17, 255),
            moved_up(0x81, 1),
            lower(3, 4),
            lower(4, 3),
        ],
        [255, 72, 127, 1, 127, 15, 0, 2, 3, 3],
    );
}

#[test]
fn words_of_index_types_are_indices(rt: HostRuntime) {
    same(
        &rt,
        [
            255u8.to_index(),
            65535u16.to_index(),
            u32::MAX.to_index(),
            u64::MAX.to_index(),
            usize::MAX.to_index(),
            (u128::MAX >> 64).to_index(),
        ],
        [
            255,
            65535,
            4_294_967_295,
            usize::MAX,
            usize::MAX,
            usize::MAX,
        ],
    );
    same(
        &rt,
        (
            u8::from_index(255),
            u16::from_index(258),
            u32::from_index(65_537),
            u64::from_index(usize::MAX),
            usize::from_index(usize::MAX),
            u128::from_index(usize::MAX),
        ),
        (255, 258, 65_537, u64::MAX, usize::MAX, u128::MAX >> 64),
    );
}
