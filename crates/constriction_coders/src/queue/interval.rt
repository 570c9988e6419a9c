//! The interval of a range decoder, and the point in it: arithmetic alone.

ghost use Rattle.std.specs.Prelude.{◌≡◌, ◌+◌, ◌-◌, ◌*◌, ◌/◌, ◌^◌, ◌<◌, ◌≤◌, None, IfSome};

/// How many numbers of an interval belong to each quantile.
#[inline]
pub(crate) fn unit_of<const PRECISION: usize>(range: u64) -> u64
    requires fits { PRECISION ≤ 32 }
    requires wide { 2 ^ 32 ≤ range }
    ensures value { result ≡ range / 2 ^ PRECISION }
    ensures some { 0 < result }
    ensures within { result * 2 ^ PRECISION ≤ range }
{
    range >> PRECISION
}

/// The quantile to which the point belongs, if it belongs to one.
#[inline]
pub(crate) fn quantile_at<const PRECISION: usize>(unit: u64, offset: u64) -> Option<u32>
    requires fits { PRECISION ≤ 32 }
    requires some { 0 < unit }
    ensures below { IfSome result (λ quantile. quantile < 2 ^ PRECISION) }
    ensures from { IfSome result (λ quantile. unit * quantile ≤ offset) }
    ensures to { IfSome result (λ quantile. offset < unit * (quantile + 1)) }
    ensures none { result ≡ None → unit * 2 ^ PRECISION ≤ offset }
{
    let quantile = offset / unit;
    if quantile >= 1u64 << PRECISION {
        return None;
    }
    Some(quantile as u32)
}

/// How many numbers the part of a row has, and how far the point lies above the lower end of it.
#[inline]
#[tactic(auto, using(crate::proofs::Intervals::part_from, crate::proofs::Intervals::part_inside, crate::proofs::Intervals::part_within))]
pub(crate) fn part_of<const PRECISION: usize>(
    range: u64,
    offset: u64,
    unit: u64,
    left: u32,
    weight: u32,
    quantile: u32,
) -> (u64, u64)
    requires within { unit * 2 ^ PRECISION ≤ range }
    requires from { unit * quantile ≤ offset }
    requires to { offset < unit * (quantile + 1) }
    requires first { left ≤ quantile }
    requires last { quantile < left + weight }
    requires fits { left + weight ≤ 2 ^ PRECISION }
    ensures range { result.0 ≡ unit * weight }
    ensures offset { result.1 ≡ offset - unit * left }
    ensures inside { result.1 < result.0 }
    ensures low { unit * left ≤ offset }
    ensures high { offset < unit * (left + weight) }
{
    (unit * weight as u64, offset - unit * left as u64)
}
