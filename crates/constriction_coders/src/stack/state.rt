//! The state of the coder: a number of 64 bits. A symbol is put on top of it, and taken from it.

ghost use Rattle.std.specs.Prelude.{◌≡◌, ◌↔◌, ◌+◌, ◌-◌, ◌*◌, ◌%◌, ◌^◌, ◌<◌, ◌≤◌, IsTrue};
ghost use Rattle.constriction_coders.specs.States.{put, taken};
ghost use Rattle.constriction_model.specs.Precision.{IsPrecision};

/// The quantile of the state, which says which symbol is on top.
#[inline]
#[tactic(auto, using(crate::proofs::States::one_shifted, crate::proofs::States::mod_fits))]
pub(crate) fn quantile_of<const PRECISION: usize>(state: u64) -> u32
    requires { PRECISION ≤ 32 }
    ensures { result ≡ state % 2 ^ PRECISION }
{
    (state % (1u64 << PRECISION)) as u32
}

/// Whether the state is too great to take a symbol of this weight before a word leaves it.
#[inline]
#[tactic(auto, using(crate::proofs::States::full_is, crate::proofs::States::not_full_is))]
pub(crate) fn is_full_for(state: u64, precision: usize, weight: u32) -> bool
    requires precision { IsPrecision 32 precision }
    ensures { IsTrue result ↔ (weight * 2 ^ (64 - precision) ≤ state) }
{
    (state >> (64 - precision)) >= weight as u64
}

/// The state with a symbol of this entry on top.
#[inline]
pub(crate) fn with_entry<const PRECISION: usize>(state: u64, left: u32, weight: u32) -> u64
    requires fits { PRECISION ≤ 32 }
    requires some { 0 < weight }
    requires within { left + weight ≤ 2 ^ PRECISION }
    requires room { state < weight * 2 ^ (64 - PRECISION) }
    ensures { result ≡ put PRECISION left weight state }
{
    let weight = weight as u64;
    ((state / weight) << PRECISION) + (left as u64 + state % weight)
}

/// The state without the symbol of this entry, which is on top.
#[inline]
pub(crate) fn without_entry<const PRECISION: usize>(state: u64, left: u32, weight: u32) -> u64
    requires fits { PRECISION ≤ 32 }
    requires within { left + weight ≤ 2 ^ PRECISION }
    requires from { left ≤ state % 2 ^ PRECISION }
    ensures value { result ≡ taken PRECISION left weight state }
    ensures at_most { result ≤ state }
{
    let above = weight as u64 * (state >> PRECISION);
    above + (state % (1u64 << PRECISION) - left as u64)
}
