//! Weights from counts, written over a list and made anew.

ghost use Rattle.std.specs.Prelude.{◌≡◌, IfOk};

use crate::checks::{holds, same};
use constriction_coders::counts::{CountsError, counts_have_one_list, weigh, weights_of};
use std::alloc::Global;

/// The weights of counts, written over a list and made anew. Both are the same.
fn weighed_twice(
    alloc: Global,
    counts: &[u64],
    weights: &mut Vec<u32>,
) -> Result<Vec<u32>, CountsError>
    ensures { IfOk result (λ own. own.items ≡ weights.new.items) }
{
    counts_have_one_list::<8>();
    weigh::<8>(counts, weights)?;
    weights_of::<8>(alloc, counts)
}

#[test]
fn weights_take_the_place_of_others(rt: HostRuntime) {
    let mut weights = Vec::from_array(rt.alloc(), [9u32; 4]).expect(&rt, "memory");
    let own = weighed_twice(rt.alloc(), &[3, 0, 1], &mut weights).expect(&rt, "weights");
    holds(&rt, &own, &[191, 0, 65]);
    same(
        &rt,
        weigh::<8>(&[0, 0], &mut weights),
        Err(CountsError::NothingOccurs),
    );
    holds(&rt, &weights, &[191, 0, 65]);
}
