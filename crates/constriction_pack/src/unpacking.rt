//! Unpacking from a reader to a writer, block by block.

ghost use Rattle.std.specs.Prelude.{◌≡◌, ◌≢◌, ◌<◌, ◌≤◌, ◌+◌, ◌^◌, ◌++◌, ℕ, List, None};
ghost use Rattle.std.specs.Prelude.{Some, IfErr, IfOk, MatchResult, OnOk, [], length};
ghost use Rattle.std.specs.Io.KnownBytes.{Appends, Consumes, IsAtEnd};
ghost use Rattle.constriction_pack.specs.Faults.{IsRefusal};
ghost use Rattle.constriction_pack.specs.Frames.{IsFrame};
ghost use Rattle.constriction_pack.specs.Packed.{AreFrames, IsPacked};

use crate::block::unpack_block;
use crate::fault::PackError;
use crate::format::Format;
use crate::frame::{content_of, read_frame};
use crate::reading::{read_end, read_signature};
use constriction_io::write_whole;
use std::alloc::Global;
use std::io::{Read, Write};

/// Reads the next frame in a format, after frames with this hash. It answers the bytes of its block
/// and the hash after it, or `None` after the last one.
fn read_block<R: Read>(
    alloc: Global,
    reader: &mut R,
    buffer: &mut Vec<u8>,
    format: Format,
    before: u64,
) -> Result<(Vec<u8>, Option<u64>), PackError>
    ensures ok { IfOk result (λ answer. (frame : List ℕ)
        × IsFrame format before answer.0.items frame answer.1
        × Consumes (R.remaining reader.old) (R.remaining reader.new) frame) }
    ensures accepted { (bytes frames : List ℕ) → AreFrames format (Some before) bytes frames
        → R.remaining reader.old ≡ Some frames → IfErr result (λ error. ¬ (IsRefusal error)) }
    ensures errors { IfErr result (λ error. error ≢ PackError.TooLong) }
{
    let (kind, is_last, after) = read_frame(reader, before, buffer)?;
    let content = content_of(buffer);
    if !format.admits(kind, content) {
        return Err(PackError::Damaged);
    }
    let block = unpack_block(alloc, kind, content)?;
    if is_last {
        return Ok((block, None));
    }
    Ok((block, Some(after)))
}

/// The same. It also reads that nothing follows the last frame, and that the block has no more
/// bytes than `most`.
fn read_next<R: Read>(
    alloc: Global,
    reader: &mut R,
    buffer: &mut Vec<u8>,
    format: Format,
    before: u64,
    most: u64,
) -> Result<(Vec<u8>, Option<u64>), PackError>
    ensures ok { IfOk result (λ answer. (frame : List ℕ)
        × IsFrame format before answer.0.items frame answer.1
        × Consumes (R.remaining reader.old) (R.remaining reader.new) frame) }
    ensures end { IfOk result (λ answer. answer.1 ≡ None → IsAtEnd (R.remaining reader.new)) }
    ensures most { IfOk result (λ answer. length answer.0.items ≤ most) }
    ensures long { IfErr result (λ error. error ≡ PackError.TooLong → most < 2 ^ 23) }
    ensures accepted { (bytes frames : List ℕ) → AreFrames format (Some before) bytes frames
        → R.remaining reader.old ≡ Some frames
        → IfErr result (λ error. IsRefusal error → (error ≡ PackError.TooLong)
        × (most < length bytes)) }
{
    let (block, after) = read_block(alloc, reader, buffer, format, before)?;
    if block.len() as u64 > most {
        return Err(PackError::TooLong);
    }
    match after {
        Some(after) => Ok((block, Some(after))),
        None => {
            read_end(reader, buffer)?;
            Ok((block, None))
        }
    }
}

/// Unpacks a packed file of at most `limit` bytes, to the reader's end.
///
/// The writer is not flushed. Only what is no packed file is refused, as `NotPacked`, `Cut` or
/// `Damaged`, and one that holds more than the limit, as `TooLong`. A block is written once its
/// checksum is right, all of it is decoded, and nothing follows if it is the last one: if the end
/// of a packed file was lost, what stands after a refusal is a beginning of the bytes. Memory is
/// asked for one block at a time, and for what was read, however much there is said to be.
#[tactic(auto, using(crate::proofs::FileLemmas::read_begun))]
pub fn unpack<R: Read, W: Write>(
    alloc: Global,
    limit: u64,
    reader: &mut R,
    writer: &mut W,
) -> Result<(), PackError>
    ensures ok { OnOk result ((bytes packed : List ℕ)
        × Consumes (R.remaining reader.old) (R.remaining reader.new) packed
        × IsAtEnd (R.remaining reader.new)
        × Appends (W.contents writer.old) (W.contents writer.new) bytes × IsPacked bytes packed) }
    ensures limit { (written : List ℕ)
        × Appends (W.contents writer.old) (W.contents writer.new) written × (length written ≤ limit)
        × IfErr result (λ error. error ≡ PackError.TooLong → limit < length written + 2 ^ 23) }
    ensures accepted { (bytes packed : List ℕ) → R.remaining reader.old ≡ Some packed
        → IsPacked bytes packed → IfErr result (λ error. IsRefusal error
        → (error ≡ PackError.TooLong) × (limit < length bytes)) }
    ensures cut { (bytes packed lost : List ℕ) → R.remaining reader.old ≡ Some packed
        → IsPacked bytes (packed ++ lost)
        → MatchResult result (λ _. lost ≡ []) (λ error. IsRefusal error → (written rest : List ℕ)
        × Appends (W.contents writer.old) (W.contents writer.new) written
        × (written ++ rest ≡ bytes)) }
{
    let mut buffer = Vec::new(alloc);
    let format = read_signature(reader, &mut buffer)?;
    let mut before = format.first_hash();
    let mut left = limit;
    for _ in 0..u64::MAX {
        let (block, after) = read_next(alloc, reader, &mut buffer, format, before, left)?;
        write_whole(writer, &block)?;
        left -= block.len() as u64;
        match after {
            Some(after) => before = after,
            None => return Ok(()),
        }
    }
    Err(PackError::Read)
}
