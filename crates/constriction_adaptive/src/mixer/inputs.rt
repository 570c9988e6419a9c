//! What the contexts say, and what they learn.

ghost use Rattle.std.specs.Prelude.{◌≡◌, ◌+◌, ◌*◌, ◌<◌, ◌≤◌, ℕ, length, map, slice_index};
ghost use Rattle.constriction_adaptive.specs.Mixing.{
  place,
  last_bytes,
  slots_moved,
  scattered,
  strength,
};

use crate::mixer::tables::Tables;
use crate::mixing::slot_moved_by;

/// One of `count` places for a number.
#[inline]
pub(crate) fn spread_over(count: u32, key: u64) -> u32
    requires { 0 < count }
    ensures value { result ≡ scattered count key }
    ensures below { result < count }
{
    let hash = key.wrapping_mul(11400714819323198485) >> 32;
    ((hash * count as u64) >> 32) as u32
}

/// What so many of the last bytes are, at the top of 64 bits.
#[inline]
pub(crate) fn recent_bytes(bytes: u32, history: u64) -> u64
    requires some { 0 < bytes }
    requires few { bytes ≤ 8 }
    ensures { result ≡ last_bytes bytes history }
{
    history << (64 - 8 * bytes)
}

/// The first slot of a context.
#[inline]
fn place_of(groups: u32, history: u64, half: u32, followed: u32, bytes: u32) -> usize
    requires some { 0 < groups }
    requires half { half < 32 }
    requires followed { followed < 4096 }
    requires few { bytes ≤ 8 }
    ensures value { result ≡ place groups history half followed bytes }
    ensures below { result + 16 ≤ 16 * groups }
{
    let seen = if 0 < bytes {
        recent_bytes(bytes, history)
    } else {
        followed as u64 * 256
    };
    spread_over(groups, seen.wrapping_add((half * 8 + bytes) as u64)) as usize * 16
}

/// Finds the places of all contexts.
#[inline]
pub(crate) fn find(
    contexts: &[u32],
    groups: u32,
    history: u64,
    half: u32,
    followed: u32,
    places: &mut [usize],
)
    requires some { 0 < groups }
    requires half { half < 32 }
    requires followed { followed < 4096 }
    requires few { (k : ℕ) → k < length contexts.now → slice_index contexts.now k ≤ 8 }
    requires lengths { length places.old ≡ length contexts.now }
    ensures value { places.new ≡ map (place groups history half followed) contexts.now }
    ensures below { (k : ℕ) → k < length places.new → slice_index places.new k + 16 ≤ 16 * groups }
{
    for (i, bytes) in contexts.iter().enumerate() {
        places[i] = place_of(groups, history, half, followed, *bytes);
    }
}

/// Asks the slot of each context.
#[inline]
pub(crate) fn ask(
    tables: &Tables,
    slots: &[u16],
    places: &[usize],
    path: usize,
    strengths: &mut [u16],
)
    requires path { path < 16 }
    requires within { (k : ℕ) → k < length places.now
        → slice_index places.now k + 16 ≤ length slots.now }
    requires lengths { length strengths.old ≡ length places.now }
    ensures { strengths.new ≡ map (λ p. strength (slice_index slots.now (p + path))) places.now }
{
    for (i, place) in places.iter().enumerate() {
        strengths[i] = tables.strength(slots[*place + path]);
    }
}

/// Moves the slot of each context towards a bit.
#[inline]
pub(crate) fn learn(slots: &mut [u16], places: &[usize], path: usize, bit: bool)
    requires path { path < 16 }
    requires within { (k : ℕ) → k < length places.now
        → slice_index places.now k + 16 ≤ length slots.old }
    ensures { slots.new ≡ slots_moved bit path places.now slots.old }
{
    for place in places {
        let i = *place + path;
        slots[i] = slot_moved_by(slots[i], bit);
    }
}
