//! Tables of weights as bytes.

ghost use Rattle.std.specs.Prelude.{◌≡◌, ◌≢◌, ◌↔◌, ℕ, List, ◌++◌, ◌^◌, ◌<◌, ◌≤◌, Err, IfOk, IsTrue, OnErr, OnOk, length, take};
ghost use Rattle.std.specs.List.{All};
ghost use Rattle.constriction_stored_weights.specs.Tables.{BeginsWithTable, EndsInTable, AreTableWeights, IsTableText};

use crate::entries::{push_weights, read_entries};
use crate::errors::{TableReadingError, TableWritingError};
use crate::places::ReadPlace;
use constriction::backends::ReadWriteError;
use std::alloc::Global;

/// Whether weights are a table's.
fn are_a_table<const PRECISION: usize>(weights: &[u32]) -> bool
    requires { PRECISION ≤ 14 }
    ensures { IsTrue result ↔ AreTableWeights PRECISION weights.now }
{
    if weights.len() > 1 << 15 {
        return false;
    }
    let mut total = 0u64;
    for weight in weights {
        total += *weight as u64;
    }
    total == 1 << PRECISION
}

/// Adds the text of a table, of at most `2^15` weights that add up to `2^PRECISION`.
///
/// The text does not say how many weights there are. Bytes grow as a `Vec` does. If there is an
/// error, they stay. There are two passes over the weights.
pub fn write_table<const PRECISION: usize>(
    weights: &[u32],
    bytes: &mut Vec<u8>,
) -> Result<(), TableWritingError>
    requires { PRECISION ≤ 14 }
    ensures ok { OnOk result ((text : List ℕ)
        × (bytes.new.items ≡ bytes.old.items ++ text) × IsTableText weights.now text) }
    ensures table { OnOk result (AreTableWeights PRECISION weights.now) }
    ensures not_a_table { (result ≡ Err TableWritingError.NotATable)
        ↔ (¬ (AreTableWeights PRECISION weights.now)) }
    ensures err { OnErr result (bytes.new.items ≡ bytes.old.items) }
{
    if !are_a_table::<PRECISION>(weights) {
        return Err(TableWritingError::NotATable);
    }
    let kept = bytes.len();
    if push_weights(bytes, weights).is_err() {
        bytes.truncate(kept);
        return Err(TableWritingError::OutOfMemory);
    }
    Ok(())
}

/// Reads the table of `count` weights that bytes begin with. With it comes how many bytes its text
/// has.
///
/// Memory is asked for once, for `count` weights, whatever the bytes say. No byte after the text is
/// read.
pub fn read_table<const PRECISION: usize>(
    alloc: Global,
    bytes: &[u8],
    count: usize,
) -> Result<(Vec<u32>, usize), TableReadingError>
    requires precision { PRECISION ≤ 14 }
    requires few { count ≤ 2 ^ 15 }
    ensures ok { IfOk result (λ read. AreTableWeights PRECISION read.0.items
        × (length read.0.items ≡ count) × (read.1 ≤ length bytes.now)
        × IsTableText read.0.items (take read.1 bytes.now)) }
    // Bytes begin with one table at most.
    ensures only { IfOk result (λ read. (table : BeginsWithTable PRECISION count bytes.now)
        → (table.weights ≡ read.0.items) × (table.text ≡ take read.1 bytes.now)) }
    ensures cut { result ≡ Err TableReadingError.TooFewBytes
        → ¬ (BeginsWithTable PRECISION count bytes.now) }
    ensures ends { result ≡ Err TableReadingError.TooFewBytes
        → EndsInTable PRECISION count bytes.now }
    // Whatever bytes follow.
    ensures not_a_table { result ≡ Err TableReadingError.NotATable
        → (more : List ℕ) → ¬ (BeginsWithTable PRECISION count (bytes.now ++ more)) }
{
    let Ok(mut weights) = Vec::with_capacity(alloc, count) else {
        return Err(TableReadingError::OutOfMemory);
    };
    let mut place = ReadPlace {
        next: 0,
        byte: 0,
        left: 0,
    };
    read_entries::<PRECISION>(bytes, &mut place, count, &mut weights)?;
    if place.byte as u32 % (1 << place.left) > 0 {
        return Err(TableReadingError::NotATable);
    }
    Ok((weights, place.next))
}

/// Writes a table and reads it.
pub fn table_comes_back<const PRECISION: usize>(
    alloc: Global,
    weights: &[u32],
) -> Result<Vec<u32>, ReadWriteError<TableReadingError, TableWritingError>>
    requires { PRECISION ≤ 14 }
    ensures same { IfOk result (λ read. read.items ≡ weights.now) }
    ensures not_a_table { (result ≡ Err (ReadWriteError.Write TableWritingError.NotATable))
        ↔ (¬ (AreTableWeights PRECISION weights.now)) }
    ensures whole { result ≢ Err (ReadWriteError.Read TableReadingError.TooFewBytes) }
    ensures read { result ≢ Err (ReadWriteError.Read TableReadingError.NotATable) }
{
    let mut bytes = Vec::new(alloc);
    match write_table::<PRECISION>(weights, &mut bytes) {
        Ok(()) => {}
        Err(error) => return Err(ReadWriteError::Write(error)),
    }
    match read_table::<PRECISION>(alloc, &bytes, weights.len()) {
        Ok((read, taken)) => Ok(read),
        Err(error) => Err(ReadWriteError::Read(error)),
    }
}

/// A table has one text, and bytes begin with the text of one table.
pub fn tables_have_one_text<const PRECISION: usize>()
    ensures text { (weights text other : List ℕ) → IsTableText weights text
        → IsTableText weights other → All (λ byte. byte < 256) text
        → All (λ byte. byte < 256) other → text ≡ other }
    ensures table { (count : ℕ) (bytes : List ℕ)
        → (table other : BeginsWithTable PRECISION count bytes) → PRECISION ≤ 14
        → (table.weights ≡ other.weights) × (table.text ≡ other.text) }
{}
