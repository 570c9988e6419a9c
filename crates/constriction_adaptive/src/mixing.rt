//! Logistic mixing in whole numbers: what several predictors of bits say, as one prediction.
//!
//! The **weight** of a bit is how much of 65,536 stands for 0, as a [`Bit`](crate::Bit) has it. A
//! **strength** is the logarithm of the odds of 0: 128 for a factor of 2, above 2,048, which speaks
//! for neither bit. How much an input **counts** is a weight as well, of 65,536 for once.

ghost use Rattle.std.specs.Prelude.{◌≡◌, ◌+◌, ◌-◌, ◌*◌, ◌<◌, ◌≤◌, length};
ghost use Rattle.constriction_adaptive.specs.Mixing.{
  error_of,
  logarithm,
  mixed,
  slot_after,
  squash,
  strength,
  tail,
  weight_after,
  weights_after,
};

/// 128 times the logarithm of base 2.
#[inline]
fn logarithm_of(x: u32) -> u32
    requires some { 0 < x }
    requires below { x < 8192 }
    ensures value { result ≡ logarithm x }
    ensures below { result < 2048 }
{
    let highest = 31 - x.leading_zeros();
    128 * highest + ((128 * x) >> highest) - 128
}

/// The weight of a bit that the other one beats.
#[inline]
fn tail_of(lead: u32) -> u32
    requires { lead ≤ 2048 }
    ensures value { result ≡ tail lead }
    ensures some { lead < 2048 → 0 < result }
{
    let odds = (128 + lead % 128) << (lead / 128);
    8388608 / (odds + 128)
}

/// The strength of 16 weights of 0, of which `part` is the number.
#[inline]
pub(crate) fn strength_of_part(part: u16) -> u16
    requires { part < 4096 }
    ensures value { result ≡ 2048 + logarithm (2 * part + 1) - logarithm (8191 - 2 * part) }
    ensures below { result < 4096 }
{
    let odd = 2 * part as u32 + 1;
    (2048 + logarithm_of(odd) - logarithm_of(8192 - odd)) as u16
}

/// How strongly a weight of 0 speaks for 0: 385 to 3,711, where 2,048 speaks for neither bit.
///
/// Sixteen weights in a row have one strength.
#[inline]
pub fn strength(weight: u16) -> u16
    ensures value { result ≡ strength weight }
    ensures below { result < 4096 }
{
    strength_of_part(weight / 16)
}

/// The weight of 0 for which a strength speaks: 0 to 65,535.
#[inline]
#[tactic(auto, using(crate::proofs::NumberLemmas::tail_most))]
pub fn squash(strength: u16) -> u16
    requires { strength < 4096 }
    ensures { result ≡ squash strength }
{
    let strength = strength as u32;
    if strength < 2048 {
        return tail_of(2048 - strength) as u16;
    }
    (65536 - tail_of(strength - 2048)) as u16
}

/// How strongly inputs speak for 0 together: 0 to 4,095.
///
/// Each counts by its weight. Inputs that count once in all, as one with the weight 65,536 or four
/// with 16,384, speak as strongly as they do on average.
#[inline]
pub fn mix(weights: &[u32], strengths: &[u16]) -> u16
    requires few { length weights.now ≤ 32768 }
    requires lengths { length strengths.now ≡ length weights.now }
    ensures value { result ≡ mixed weights.now strengths.now }
    ensures below { result < 4096 }
{
    let mut said = 0;
    let mut neither = 0;
    for (i, weight) in weights.iter().enumerate() {
        said += *weight as u64 * strengths[i] as u64;
        neither += *weight as u64 * 2048;
    }
    ((134217728 + said).saturating_sub(neither) / 65536).min(4095) as u16
}

/// How far the weight of 0 was from the bit that came.
#[inline]
fn error_from(weight: u16, bit: bool) -> u32
    ensures value { result ≡ error_of bit weight }
    ensures most { result ≤ 65536 }
{
    if bit {
        weight as u32
    } else {
        65536 - weight as u32
    }
}

/// How much an input counts after a bit.
#[inline]
fn weight_moved_by(weight: u32, strength: u16, error: u32, bit: bool) -> u32
    requires { error ≤ 65536 }
    ensures { result ≡ weight_after bit error strength weight }
{
    let spoken = strength as u32 * error / 131072;
    let neither = error / 64;
    let (for_it, against_it) = if bit {
        (neither, spoken)
    } else {
        (spoken, neither)
    };
    weight
        .saturating_add(for_it)
        .saturating_sub(against_it)
        .min(262144)
}

/// Lets each input count more that spoke for the bit that came, and each other one less.
///
/// `zero` is the weight of 0 that was predicted: the further it was from the bit, the more changes.
/// No input counts more than 262,144, which is four times, or less than 0.
#[inline]
pub fn adjust(weights: &mut [u32], strengths: &[u16], zero: u16, bit: bool)
    requires { length strengths.now ≡ length weights.old }
    ensures { weights.new ≡ weights_after bit (error_of bit zero) strengths.now weights.old }
{
    let error = error_from(zero, bit);
    for i in 0..weights.len() {
        weights[i] = weight_moved_by(weights[i], strengths[i], error, bit);
    }
}

/// A weight of 0 after a bit: an eighth of the way towards it, at first half of it.
#[inline]
pub(crate) fn slot_moved_by(slot: u16, bit: bool) -> u16
    ensures { result ≡ slot_after bit slot }
{
    let shift = if slot == 32768 { 1 } else { 3 };
    if bit {
        slot - (slot >> shift)
    } else {
        slot + ((65535 - slot) >> shift)
    }
}
