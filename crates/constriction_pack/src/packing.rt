//! Packing from a reader to a writer, block by block.

ghost use Rattle.std.specs.Prelude.{
  ◌≡◌,
  ◌↔◌,
  ◌≤◌,
  ◌^◌,
  ◌+◌,
  ◌*◌,
  ◌/◌,
  [],
  ◌++◌,
  ℕ,
  List,
  None,
  Some,
  IfErr,
  IfOk,
  IsSome,
  IsTrue,
  OnErr,
  OnOk,
  length,
};
ghost use Rattle.std.specs.Io.KnownBytes.{Appends, Consumes, IsAtEnd};
ghost use Rattle.constriction_pack.specs.Faults.{IsRefusal};
ghost use Rattle.constriction_pack.specs.Frames.{IsFrame};
ghost use Rattle.constriction_pack.specs.Packed.{AreFrames, IsPacked};

use crate::block::{MOST_BYTES, pack_block};
use crate::fault::PackError;
use crate::format::Format;
use crate::frame::write_frame;
use crate::kind::Kind;
use crate::level::Level;
use constriction_io::{read_up_to, write_whole};
use std::alloc::Global;
use std::io::{Read, Write};

/// How many bytes each block has but the last one, which may have fewer.
fn block_bytes() -> usize
    ensures least { 2 ^ 20 ≤ result }
    ensures most { result ≤ 2 ^ 23 }
{
    MOST_BYTES
}

/// Writes the frame of a block, after frames with this hash, and answers the hash after it, or
/// `None` after the last one.
fn write_block<W: Write>(
    alloc: Global,
    level: Level,
    writer: &mut W,
    before: u64,
    is_last: bool,
    block: &[u8],
) -> Result<Option<u64>, PackError>
    requires { length block.now ≤ 2 ^ 23 }
    ensures ok { IfOk result (λ after. (frame : List ℕ)
        × IsFrame Format.Cpk3 before block.now frame after
        × Appends (W.contents writer.old) (W.contents writer.new) frame
        × (length frame ≤ length block.now + 13)) }
    ensures last { IfOk result (λ after. IsTrue is_last ↔ (after ≡ None)) }
    ensures part { OnErr result ((written : List ℕ)
        × Appends (W.contents writer.old) (W.contents writer.new) written
        × ((bytes : List ℕ) → ¬ (AreFrames Format.Cpk3 (Some before) bytes written))) }
    ensures errors { IfErr result (λ error. ¬ (IsRefusal error)) }
{
    match pack_block(alloc, level, block)? {
        Some((kind, content)) => {
            let after = write_frame(writer, before, kind, is_last, &content)?;
            Ok(after)
        }
        None => {
            let after = write_frame(writer, before, Kind::Stored, is_last, block)?;
            Ok(after)
        }
    }
}

/// Packs the next block, after frames with this hash, and answers the hash after it, or `None` if
/// it wrote the last frame. The buffer has what was read and is not packed yet, which is a byte at
/// most.
fn pack_next<R: Read, W: Write>(
    alloc: Global,
    level: Level,
    reader: &mut R,
    writer: &mut W,
    buffer: &mut Vec<u8>,
    before: u64,
) -> Result<Option<u64>, PackError>
    requires { length buffer.old.items ≤ 1 }
    ensures ok { IfOk result (λ after. (read block frame : List ℕ)
        × Consumes (R.remaining reader.old) (R.remaining reader.new) read
        × (buffer.old.items ++ read ≡ block ++ buffer.new.items)
        × IsFrame Format.Cpk3 before block frame after
        × Appends (W.contents writer.old) (W.contents writer.new) frame
        × (length frame ≤ length block + 13) × (IsSome after → 2 ^ 20 ≤ length block)) }
    ensures kept { IfOk result (λ after. length buffer.new.items ≤ 1) }
    ensures end { IfOk result (λ after. after ≡ None → (buffer.new.items ≡ [])
        × IsAtEnd (R.remaining reader.new)) }
    ensures part { OnErr result ((written : List ℕ)
        × Appends (W.contents writer.old) (W.contents writer.new) written
        × ((bytes : List ℕ) → ¬ (AreFrames Format.Cpk3 (Some before) bytes written))) }
    ensures errors { IfErr result (λ error. ¬ (IsRefusal error)) }
{
    let most = block_bytes();
    read_up_to(reader, most + 1, buffer)?;
    let count = buffer.len();
    let is_last = count <= most;
    let block = &buffer[..count.min(most)];
    let after = write_block(alloc, level, writer, before, is_last, block)?;
    if is_last {
        buffer.clear();
    } else {
        buffer[0] = buffer[most];
        buffer.truncate(1);
    }
    Ok(after)
}

/// Packs what a reader has, to its end, block by block.
///
/// The writer is not flushed: give one that holds nothing back. Memory is asked for one block at a
/// time, whatever there is to read. No fault is a refusal: the input was not read (which also
/// stands for more than `2^64 - 1` blocks), the output was not written, or memory was refused. What
/// was written before stands, and is no packed file.
#[tactic(auto, using(crate::proofs::FileLemmas::under_way_begun, crate::proofs::FileLemmas::under_way_more))]
pub fn pack<R: Read, W: Write>(
    alloc: Global,
    level: Level,
    reader: &mut R,
    writer: &mut W,
) -> Result<(), PackError>
    ensures ok { OnOk result ((bytes packed : List ℕ)
        × Consumes (R.remaining reader.old) (R.remaining reader.new) bytes
        × IsAtEnd (R.remaining reader.new)
        × Appends (W.contents writer.old) (W.contents writer.new) packed
        × (file : IsPacked bytes packed) × (file.format ≡ Format.Cpk3)
        × (length packed ≤ length bytes + 24 + 16 * (length bytes / 2 ^ 20))) }
    ensures part { OnErr result ((written : List ℕ)
        × Appends (W.contents writer.old) (W.contents writer.new) written
        × ((bytes : List ℕ) → ¬ (IsPacked bytes written))) }
    ensures errors { IfErr result (λ error. ¬ (IsRefusal error)) }
{
    write_whole(writer, Format::Cpk3.signature())?;
    let mut buffer = Vec::new(alloc);
    let mut before = Format::Cpk3.first_hash();
    for _ in 0..u64::MAX {
        match pack_next(alloc, level, reader, writer, &mut buffer, before)? {
            Some(after) => before = after,
            None => return Ok(()),
        }
    }
    Err(PackError::Read)
}
