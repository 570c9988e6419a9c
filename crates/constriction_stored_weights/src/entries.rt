//! Weights and the runs of zeros before them.

ghost use Rattle.std.specs.Prelude.{◌≡◌, ◌≢◌, [], ℕ, List, ◌++◌, ◌+◌, ◌*◌, ◌-◌, ◌^◌, ◌<◌, ◌≤◌, Err, IfOk, OnOk, length, replicate, sum};
ghost use Rattle.std.specs.Vec.{vec_capacity};
ghost use Rattle.constriction_stored_weights.specs.Tables.{entry_bits, weight_bits, IsTableText};
ghost use Rattle.constriction_stored_weights.specs.private.Entries.{BeginsWithEntry, BeginsWithWeights, EndsInEntry, EndsInTableBits};
ghost use Rattle.constriction_stored_weights.specs.private.Places.{Extends, upcoming};

use crate::errors::TableReadingError;
use crate::places::{ReadPlace, WritePlace};
use crate::reading::read_number;
use crate::writing::{fill_byte, push_number, push_run};
use std::alloc::AllocError;

/// Reads a weight above 0 and how many zeros are before it.
fn read_entry(bytes: &[u8], place: &mut ReadPlace) -> Result<(u32, u32), TableReadingError>
    requires { place.old.next ≤ length bytes.now }
    ensures within { place.new.next ≤ length bytes.now }
    ensures ok { IfOk result (λ entry.
        (upcoming bytes.now place.old ≡ entry_bits entry.0 entry.1 ++ upcoming bytes.now place.new)
        × (entry.0 < 2 ^ 15) × (0 < entry.1) × (entry.1 < 2 ^ 15)) }
    ensures cut { result ≡ Err TableReadingError.TooFewBytes
        → ¬ (BeginsWithEntry (upcoming bytes.now place.old)) }
    ensures ends { result ≡ Err TableReadingError.TooFewBytes
        → EndsInEntry (upcoming bytes.now place.old) }
    ensures not_a_table { result ≡ Err TableReadingError.NotATable
        → (more : List ℕ) → ¬ (BeginsWithEntry (upcoming bytes.now place.old ++ more)) }
    ensures memory { result ≢ Err TableReadingError.OutOfMemory }
{
    let Some(first) = read_number(bytes, place) else {
        return Err(TableReadingError::TooFewBytes);
    };
    if first > 0 {
        return Ok((0, first));
    }
    let Some(zeros) = read_number(bytes, place) else {
        return Err(TableReadingError::TooFewBytes);
    };
    if zeros == 0 {
        return Err(TableReadingError::NotATable);
    }
    let Some(weight) = read_number(bytes, place) else {
        return Err(TableReadingError::TooFewBytes);
    };
    if weight == 0 {
        return Err(TableReadingError::NotATable);
    }
    Ok((zeros, weight))
}

/// Adds zeros to a list with room for them.
fn push_zeros(weights: &mut Vec<u32>, count: usize)
    requires { length weights.old.items + count ≤ vec_capacity weights.old }
    ensures items { weights.new.items ≡ weights.old.items ++ replicate count 0 }
    ensures capacity { vec_capacity weights.new ≡ vec_capacity weights.old }
{
    for done in 0..count {
        weights.push_reserved(0);
    }
}

/// Reads the weights of a table, into an empty list with room for them.
pub(crate) fn read_entries<const PRECISION: usize>(
    bytes: &[u8],
    place: &mut ReadPlace,
    count: usize,
    weights: &mut Vec<u32>,
) -> Result<(), TableReadingError>
    requires precision { PRECISION ≤ 14 }
    requires few { count ≤ 2 ^ 15 }
    requires within { place.old.next ≤ length bytes.now }
    requires empty { weights.old.items ≡ [] }
    requires room { count ≤ vec_capacity weights.old }
    ensures within { place.new.next ≤ length bytes.now }
    ensures total { OnOk result (sum weights.new.items ≡ 2 ^ PRECISION) }
    ensures counted { OnOk result (length weights.new.items ≡ count) }
    ensures ok { OnOk result (upcoming bytes.now place.old
        ≡ weight_bits 0 weights.new.items ++ upcoming bytes.now place.new) }
    ensures only { OnOk result ((more : List ℕ)
        → (read : BeginsWithWeights PRECISION count (upcoming bytes.now place.old ++ more))
        → read.weights ≡ weights.new.items) }
    ensures cut { result ≡ Err TableReadingError.TooFewBytes
        → ¬ (BeginsWithWeights PRECISION count (upcoming bytes.now place.old)) }
    ensures ends { result ≡ Err TableReadingError.TooFewBytes
        → EndsInTableBits PRECISION count (upcoming bytes.now place.old) }
    ensures not_a_table { result ≡ Err TableReadingError.NotATable → (more : List ℕ)
        → ¬ (BeginsWithWeights PRECISION count (upcoming bytes.now place.old ++ more)) }
    ensures memory { result ≢ Err TableReadingError.OutOfMemory }
{
    let mut left = 1u32 << PRECISION;
    while left > 0 {
        if weights.len() == count {
            return Err(TableReadingError::NotATable);
        }
        let (zeros, weight) = read_entry(bytes, place)?;
        if zeros as usize >= count - weights.len() || weight > left {
            return Err(TableReadingError::NotATable);
        }
        push_zeros(weights, zeros as usize);
        weights.push_reserved(weight);
        left -= weight;
    }
    push_zeros(weights, count - weights.len());
    Ok(())
}

/// Adds the text of weights.
pub(crate) fn push_weights(bytes: &mut Vec<u8>, weights: &[u32]) -> Result<(), AllocError>
    requires few { length weights.now ≤ 2 ^ 15 }
    requires small { sum weights.now < 2 ^ 15 }
    ensures extends { Extends bytes.old.items bytes.new.items }
    ensures ok { OnOk result ((text : List ℕ)
        × (bytes.new.items ≡ bytes.old.items ++ text) × IsTableText weights.now text) }
{
    let mut place = WritePlace { byte: 0, filled: 0 };
    let mut zeros = 0;
    for weight in weights {
        if *weight == 0 {
            zeros += 1;
        } else {
            push_run(bytes, &mut place, zeros)?;
            push_number(bytes, &mut place, *weight)?;
            zeros = 0;
        }
    }
    fill_byte(bytes, place)
}
