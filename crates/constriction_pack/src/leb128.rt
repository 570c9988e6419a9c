//! Weights as bytes: each less one in LEB128.

ghost use Rattle.std.specs.Prelude.{◌≡◌, ◌≢◌, ◌<◌, ◌≤◌, ◌-◌, ◌++◌, ℕ, List, All, IfErr, IfOk};
ghost use Rattle.std.specs.Prelude.{IfSome, IsSome, drop, length};
ghost use Rattle.constriction_pack.specs.Contents.{bytes_of_weights, leb128};

use crate::fault::PackError;
use std::alloc::Global;

/// The weight that bytes begin with, and how many bytes it has.
fn first_weight(bytes: &[u8]) -> Option<(u32, usize)>
    ensures positive { IfSome result (λ found. 0 < found.0) }
    ensures within { IfSome result (λ found. found.1 ≤ length bytes.now) }
    ensures some { IfSome result (λ found. bytes.now
        ≡ leb128 (found.0 - 1) ++ drop found.1 bytes.now) }
    ensures none { (number : ℕ) (rest : List ℕ) → bytes.now ≡ leb128 number ++ rest
        → IsSome result }
{
    let low = *bytes.first()? as u32;
    if low < 128 {
        return Some((low + 1, 1));
    }
    let middle = *bytes.get(1)? as u32;
    if middle < 128 {
        return if middle == 0 {
            None
        } else {
            Some((low - 128 + 128 * middle + 1, 2))
        };
    }
    let high = *bytes.get(2)? as u32;
    if high == 0 {
        None
    } else {
        Some((low - 128 + 128 * (middle - 128) + 16_384 * high + 1, 3))
    }
}

/// As many weights as that, which bytes begin with, and how many bytes they have.
pub(crate) fn weights_in(
    alloc: Global,
    count: usize,
    bytes: &[u8],
) -> Result<(Vec<u32>, usize), PackError>
    ensures count { IfOk result (λ found. length found.0.items ≡ count) }
    ensures positive { IfOk result (λ found. All (λ w. 0 < w) found.0.items) }
    ensures within { IfOk result (λ found. found.1 ≤ length bytes.now) }
    ensures ok { IfOk result (λ found. bytes.now
        ≡ bytes_of_weights found.0.items ++ drop found.1 bytes.now) }
    ensures accepted { (weights rest : List ℕ) → length weights ≡ count
        → bytes.now ≡ bytes_of_weights weights ++ rest
        → IfErr result (λ error. error ≡ PackError.OutOfMemory) }
    ensures errors { IfErr result (λ error. error ≢ PackError.OutOfMemory
        → error ≡ PackError.Damaged) }
{
    let mut weights = Vec::new(alloc);
    let mut at = 0;
    for done in 0..count {
        let Some((weight, bytes_of_it)) = first_weight(&bytes[at..]) else {
            return Err(PackError::Damaged);
        };
        weights.push(weight)?;
        at += bytes_of_it;
    }
    Ok((weights, at))
}
