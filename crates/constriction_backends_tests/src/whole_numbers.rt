//! Words as whole numbers: what generic code learns from the bound alone, and the ends of each
//! width.

ghost use Rattle.std.specs.Prelude.{◌≡◌, ◌+◌, ◌-◌, ◌<◌, ◌%◌, ◌^◌};

use crate::checks::same;
use constriction_words::WholeNumber;

/// How far two numbers are apart.
fn distance<N: WholeNumber>(a: N, b: N) -> N
    ensures { N.whole result ≡ (N.whole a - N.whole b) + (N.whole b - N.whole a) }
{
    if a.is_below(b) {
        b.minus(a)
    } else {
        a.minus(b)
    }
}

/// How far it is up from one number to another, if 0 follows the greatest number.
fn way_up<N: WholeNumber>(from: N, to: N) -> N
    ensures { (N.whole result + N.whole from) % 2 ^ N.BITS ≡ N.whole to }
{
    to.wrapping_minus(from)
}

/// How far 3 and 250 are apart, and how far it is up from each to the other.
fn ways() -> [u8; 4] {
    [
        distance(3, 250),
        distance(250, 3),
        way_up(3, 250),
        way_up(250, 3),
    ]
}

/// What each call answers at the ends of a width: the comparisons, and the other calls as numbers.
fn ends<N: WholeNumber>() -> ([bool; 6], [usize; 6])
    requires { 1 < N.BITS }
{
    let greatest = N::greatest_word();
    let one = N::greatest_of_bits(1);
    let least = N::least();
    let weight = one.to_weight();
    let comparisons = [
        least.plus(greatest).is_greatest(),
        greatest.minus(greatest).is_zero_word(),
        N::wrapping_pow2(N::BITS).is_zero_word(),
        least.wrapping_minus(one).is_greatest(),
        greatest.is_below(one),
        one.is_at_most(greatest),
    ];
    let numbers = [
        N::from_weight(weight).to_number(),
        one.times(one).to_number(),
        one.divided_by(one).to_number(),
        one.shifted_right(1).to_number(),
        N::from_number(0).to_number(),
        least.plus(one).to_number(),
    ];
    (comparisons, numbers)
}

#[test]
fn each_width_has_its_ends(rt: HostRuntime) {
    let expected = ([true, true, true, true, false, true], [1, 1, 1, 0, 0, 1]);
    same(&rt, ends::<u8>(), expected);
    same(&rt, ends::<u16>(), expected);
    same(&rt, ends::<u32>(), expected);
    same(&rt, ends::<u64>(), expected);
    same(&rt, ends::<usize>(), expected);
    same(&rt, ends::<u128>(), expected);
}

#[test]
fn distances_are_whole_numbers(rt: HostRuntime) {
    same(&rt, ways(), [247, 247, 247, 9]);
}
