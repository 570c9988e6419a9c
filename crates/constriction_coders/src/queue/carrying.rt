//! The least number of a span: arithmetic on the words that are written and the two words below
//! them.

ghost use Rattle.std.specs.Prelude.{◌≡◌, ◌↔◌, ◌+◌, ◌-◌, ◌*◌, ◌/◌, ◌^◌, ◌<◌, ◌≤◌, ◌++◌, ◌∷◌, [], true, false, All, IfOk, IsTrue, length, vec_capacity};
ghost use Rattle.constriction_coders.specs.Numbers.{number_of};
ghost use Rattle.constriction_coders.specs.Spans.{span_of, IsPointOf};

use std::alloc::AllocError;

/// Adds 1 to the number of the words.
fn carry(words: &mut [u32])
    requires { number_of words.old + 1 < 2 ^ (32 * length words.old) }
    ensures { number_of words.new ≡ number_of words.old + 1 }
{
    for place in (0..words.len()).rev() {
        if words[place] < u32::MAX {
            words[place] += 1;
            return;
        }
        words[place] = 0;
    }
}

/// Adds to the number that has these words above `lower`, and answers the new `lower`.
#[inline]
pub(crate) fn raised(words: &mut Vec<u32>, lower: u64, by: u64) -> u64
    requires { number_of words.old.items * 2 ^ 64 + lower + by
        < 2 ^ (32 * (length words.old.items + 2)) }
    ensures value { number_of words.new.items * 2 ^ 64 + result
        ≡ number_of words.old.items * 2 ^ 64 + lower + by }
    ensures length { length words.new.items ≡ length words.old.items }
    ensures capacity { vec_capacity words.new ≡ vec_capacity words.old }
{
    let sum = lower.wrapping_add(by);
    if sum < lower {
        carry(words);
    }
    sum
}

/// Writes the high word of `lower`, for which there is room, and answers the new `lower`: the
/// number has one word more.
#[inline]
pub(crate) fn widened(words: &mut Vec<u32>, lower: u64) -> u64
    requires { length words.old.items < vec_capacity words.old }
    ensures value { number_of words.new.items * 2 ^ 64 + result
        ≡ (number_of words.old.items * 2 ^ 64 + lower) * 2 ^ 32 }
    ensures length { length words.new.items ≡ length words.old.items + 1 }
{
    words.push_reserved((lower >> 32) as u32);
    lower << 32
}

/// Whether some number that begins with the words of a span's point lies above the span.
#[inline]
pub(crate) fn ends_in_zero(lower: u64, range: u64) -> bool
    requires { 2 ^ 32 ≤ range }
    ensures { IsTrue result ↔ (lower + range < ((lower + (2 ^ 32 - 1)) / 2 ^ 32 + 1) * 2 ^ 32) }
{
    lower.wrapping_add(u32::MAX as u64) >> 32 == lower.wrapping_add(range) >> 32
}

/// The words with that of a point after them, and a word of 0 after that if `zero`. There is room
/// for both.
fn with_point(words: Vec<u32>, point: u32, zero: bool) -> Vec<u32>
    requires { length words.items + 2 ≤ vec_capacity words }
    ensures short { zero ≡ false → result.items ≡ words.items ++ point ∷ [] }
    ensures long { zero ≡ true → result.items ≡ (words.items ++ point ∷ []) ++ 0 ∷ [] }
    ensures fit { All (λ w. w < 2 ^ 32) result.items }
{
    let mut all = words;
    all.push_reserved(point);
    if zero {
        all.push_reserved(0);
    }
    all
}

/// The words with those of the point of their span after them.
pub(crate) fn sealed(words: Vec<u32>, lower: u64, range: u64) -> Result<Vec<u32>, AllocError>
    requires wide { 2 ^ 32 ≤ range }
    requires within { number_of words.items * 2 ^ 64 + lower + range
        < 2 ^ (32 * (length words.items + 2)) }
    ensures { IfOk result (λ all. IsPointOf (span_of words.items lower range) all.items) }
{
    let mut words = words;
    words.reserve(2)?;
    let point = raised(&mut words, lower, u32::MAX as u64);
    let zero = ends_in_zero(lower, range);
    Ok(with_point(words, (point >> 32) as u32, zero))
}
