//! What callers of a table learn from contracts alone.

ghost use Rattle.std.specs.Prelude.{◌≡◌, IfOk, false};

use crate::checks::same;
use constriction::stream::model::{EncoderModel, ModelError};
use constriction_tables::DirectTableModel;
use std::alloc::Global;

/// Whether byte 1 has an entry, by weights of which its own is 0.
fn has_an_entry_without_weight(alloc: Global) -> Result<bool, ModelError>
    ensures { IfOk result (λ has. has ≡ false) }
{
    let model = DirectTableModel::<u32, 3>::from_fixed_point_probabilities(alloc, &[5, 0, 3])?;
    Ok(model.left_cumulative_and_probability(&1).is_some())
}

#[test]
fn a_byte_of_weight_0_has_no_entry(rt: HostRuntime) {
    same(&rt, has_an_entry_without_weight(rt.alloc()), Ok(false));
}
