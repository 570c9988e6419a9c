//! Callers that store a table of weights as bytes, proved from the contracts alone.

ghost use Rattle.std.specs.Prelude.{◌≡◌, [], ◌∷◌, IfSome, sum};

use constriction_stored_weights::{read_table, table_comes_back, write_table};
use std::alloc::Global;

/// Weights over 16 quantiles.
const WEIGHTS: [u32; 4] = [0, 0, 3, 13];

/// The table that comes back.
pub fn back(alloc: Global) -> Option<Vec<u32>>
    ensures { IfSome result (λ read. read.items ≡ 0 ∷ 0 ∷ 3 ∷ 13 ∷ []) }
{
    table_comes_back::<4>(alloc, &WEIGHTS).ok()
}

/// The weights of a table of bytes that other bytes follow.
pub fn before_others(alloc: Global, weights: &[u32; 256], others: &[u8]) -> Option<Vec<u32>>
    ensures { IfSome result (λ read. read.items ≡ weights.now) }
{
    let mut bytes = Vec::new(alloc);
    let Ok(()) = write_table::<12>(weights, &mut bytes) else {
        return None;
    };
    let Ok(()) = bytes.extend_from_slice(others) else {
        return None;
    };
    let Ok((read, _taken)) = read_table::<12>(alloc, &bytes, 256) else {
        return None;
    };
    Some(read)
}

/// The second of two tables of bytes whose texts follow each other.
pub fn second_of_two(alloc: Global, first: &[u32; 256], second: &[u32; 256]) -> Option<Vec<u32>>
    ensures { IfSome result (λ read. read.items ≡ second.now) }
{
    let mut bytes = Vec::new(alloc);
    let Ok(()) = write_table::<12>(first, &mut bytes) else {
        return None;
    };
    let Ok(()) = write_table::<12>(second, &mut bytes) else {
        return None;
    };
    let Ok((_, taken)) = read_table::<12>(alloc, &bytes, 256) else {
        return None;
    };
    let Ok((read, _)) = read_table::<12>(alloc, &bytes[taken..], 256) else {
        return None;
    };
    Some(read)
}

/// The weights of a table with which bytes begin.
pub fn whole(alloc: Global, bytes: &[u8]) -> Option<Vec<u32>>
    ensures { IfSome result (λ read. sum read.items ≡ 4096) }
{
    let Ok((read, _taken)) = read_table::<12>(alloc, bytes, 256) else {
        return None;
    };
    Some(read)
}

#[cfg(test)]
mod tests {
    use super::{WEIGHTS, back, before_others, second_of_two, whole};
    use crate::checks::{holds, same};

    /// The same weight for each byte.
    const EVEN: [u32; 256] = [16; 256];

    #[test]
    fn a_table_comes_back(rt: HostRuntime) {
        let read = back(rt.alloc()).expect(&rt, "memory");
        holds(&rt, &read, &WEIGHTS);
        let read = before_others(rt.alloc(), &EVEN, &[1, 2]).expect(&rt, "memory");
        holds(&rt, &read, &EVEN);
        let read = second_of_two(rt.alloc(), &EVEN, &EVEN).expect(&rt, "memory");
        holds(&rt, &read, &EVEN);
    }

    #[test]
    fn weights_above_their_total_are_refused(rt: HostRuntime) {
        // 4,095 and then 2
        let read = whole(rt.alloc(), &[0xCF, 0xFE, 0x40]);
        same(&rt, read.is_none(), true);
    }
}
