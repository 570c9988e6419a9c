//! Strengths and the weights that they speak for, looked up.

ghost use Rattle.std.specs.Prelude.{◌≡◌, ◌+◌, ◌-◌, ◌*◌, ◌<◌, ℕ, length, slice_index};
ghost use Rattle.constriction_adaptive.specs.Mixing.{logarithm, squash, strength};

use crate::mixing::{squash, strength_of_part};
use std::alloc::{AllocError, Global};

/// The strength of each 16 slots, and the weight of 0 for each strength.
#[derive(Drop)]
pub(crate) struct Tables {
    strengths: Vec<u16>,
    squashes: Vec<u16>,
    ghost many_strengths: { length strengths.items ≡ 4096 },
    ghost many_squashes: { length squashes.items ≡ 4096 },
    ghost are_strengths: { (k : ℕ) → k < 4096
        → slice_index strengths.items k ≡ 2048 + logarithm (2 * k + 1) - logarithm (8191 - 2 * k) },
    ghost are_squashes: { (k : ℕ) → k < 4096 → slice_index squashes.items k ≡ squash k },
}

/// Writes the strength of each 16 slots.
fn fill_strengths(table: &mut [u16])
    requires { length table.old ≡ 4096 }
    ensures { (k : ℕ) → k < 4096
        → slice_index table.new k ≡ 2048 + logarithm (2 * k + 1) - logarithm (8191 - 2 * k) }
{
    for i in 0..4096 {
        table[i] = strength_of_part(i as u16);
    }
}

/// Writes the weight of 0 for each strength.
fn fill_squashes(table: &mut [u16])
    requires { length table.old ≡ 4096 }
    ensures { (k : ℕ) → k < 4096 → slice_index table.new k ≡ squash k }
{
    for i in 0..4096 {
        table[i] = squash(i as u16);
    }
}

impl Tables {
    /// Computes both tables.
    pub(crate) fn new(alloc: Global) -> Result<Self, AllocError> {
        let mut strengths = vec![in alloc; 0u16; 4096]?;
        fill_strengths(&mut strengths);
        let mut squashes = vec![in alloc; 0u16; 4096]?;
        fill_squashes(&mut squashes);
        Ok(Tables {
            strengths,
            squashes,
        })
    }

    /// The same tables.
    pub(crate) fn copied(&self, alloc: Global) -> Result<Self, AllocError> {
        Ok(Tables {
            strengths: Vec::from_slice(alloc, &self.strengths)?,
            squashes: Vec::from_slice(alloc, &self.squashes)?,
        })
    }

    /// How strongly a slot speaks for 0.
    #[inline]
    pub(crate) fn strength(&self, slot: u16) -> u16
        ensures { result ≡ strength slot }
    {
        self.strengths[slot as usize / 16]
    }

    /// The weight of 0 for which this strength speaks.
    #[inline]
    pub(crate) fn squash(&self, strength: u16) -> u16
        requires { strength < 4096 }
        ensures { result ≡ squash strength }
    {
        self.squashes[strength as usize]
    }
}
