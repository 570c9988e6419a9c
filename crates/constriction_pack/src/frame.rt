//! Contents behind a header and before a checksum.

ghost use Rattle.std.specs.Prelude.{
  ◌≡◌,
  ◌≢◌,
  ◌<◌,
  ◌≤◌,
  ◌^◌,
  ◌+◌,
  ◌++◌,
  ℕ,
  List,
  Bool,
  None,
  Some,
  IfErr,
  IfOk,
  IsOk,
  OnErr,
  length,
  if◌then◌else◌,
};
ghost use Rattle.std.specs.Io.KnownBytes.{Appends, Consumes};
ghost use Rattle.constriction_pack.specs.Faults.{IsRefusal};
ghost use Rattle.constriction_pack.specs.Frames.{frame_of, hash_after, hash_after_frame, header_of};
ghost use Rattle.constriction_pack.specs.Frames.{tag_of};

use crate::block::MOST_BYTES;
use crate::fault::PackError;
use crate::kind::Kind;
use constriction_io::{read_up_to, write_whole};
use std::io::{Read, Write};

/// The hash of no bytes.
pub(crate) const OFFSET_BASIS: u64 = 0xcbf2_9ce4_8422_2325;

/// The bytes of a header, and of a checksum.
const HEADER: usize = 5;

const CHECKSUM: usize = 8;

/// The 64-bit FNV-1a hash of these bytes after others.
pub(crate) fn hash_of(before: u64, bytes: &[u8]) -> u64
    ensures { result ≡ hash_after before bytes.now }
{
    let mut hash = before;
    for byte in bytes {
        hash = (hash ^ *byte as u64).wrapping_mul(0x100_0000_01b3);
    }
    hash
}

/// The tag of a kind.
fn tag(kind: Kind, is_last: bool) -> u8
    ensures { result ≡ tag_of kind is_last }
{
    if is_last {
        kind.number() + 128
    } else {
        kind.number()
    }
}

/// The header of a content of so many bytes.
fn header(kind: Kind, is_last: bool, count: usize) -> [u8; 5]
    requires { count ≤ 2 ^ 23 }
    ensures { result ≡ header_of (tag_of kind is_last) count }
{
    let tag = tag(kind, is_last);
    let low = (count % 256) as u8;
    let middle = (count / 256 % 256) as u8;
    let high = (count / 65_536) as u8;
    [tag, low, middle, high, tag ^ low ^ middle ^ high]
}

/// What a header says: the kind, whether it is the last one, and how many bytes the content has.
fn parts_of(header: &[u8]) -> Result<(Kind, bool, usize), PackError>
    requires { length header.now ≡ 5 }
    ensures short { IfOk result (λ parts. parts.2 ≤ 2 ^ 23) }
    ensures ok { IfOk result (λ parts. header.now ≡ header_of (tag_of parts.0 parts.1) parts.2) }
    ensures accepted { (kind : Kind) (is_last : Bool) (count : ℕ) → count ≤ 2 ^ 23
        → header.now ≡ header_of (tag_of kind is_last) count → IsOk result }
    ensures errors { IfErr result (λ error. error ≢ PackError.TooLong) }
{
    let (tag, low, middle, high) = (header[0], header[1], header[2], header[3]);
    let count = low as usize + 256 * middle as usize + 65_536 * high as usize;
    if header[4] != tag ^ low ^ middle ^ high || count > MOST_BYTES {
        return Err(PackError::Damaged);
    }
    match Kind::of_number(tag % 128) {
        Some(kind) => Ok((kind, tag >= 128, count)),
        None => Err(PackError::Damaged),
    }
}

/// Writes the frame of this content, after frames with this hash, and answers the hash after it, or
/// `None` after the last one.
pub(crate) fn write_frame<W: Write>(
    writer: &mut W,
    before: u64,
    kind: Kind,
    is_last: bool,
    content: &[u8],
) -> Result<Option<u64>, PackError>
    requires { length content.now ≤ 2 ^ 23 }
    ensures ok { IfOk result (λ _. Appends (W.contents writer.old) (W.contents writer.new)
        (frame_of before (tag_of kind is_last) content.now)) }
    ensures leads { IfOk result (λ after. after
        ≡ (if is_last then None
        else Some (hash_after_frame before (tag_of kind is_last) content.now))) }
    ensures part { OnErr result ((written lost : List ℕ)
        × Appends (W.contents writer.old) (W.contents writer.new) written
        × (written ++ lost ≡ frame_of before (tag_of kind is_last) content.now)
        × (0 < length lost)) }
    ensures errors { IfErr result (λ error. ¬ (IsRefusal error)) }
{
    let header = header(kind, is_last, content.len());
    let after = hash_of(hash_of(before, &header), content);
    write_whole(writer, &header)?;
    write_whole(writer, content)?;
    write_whole(writer, &after.to_le_bytes())?;
    if is_last {
        return Ok(None);
    }
    Ok(Some(after))
}

/// Reads a frame, after frames with this hash. It answers the kind, whether the frame is the last
/// one, and the hash after it. Of the content no more is read than a block has at most.
pub(crate) fn read_frame<R: Read>(
    reader: &mut R,
    before: u64,
    frame: &mut Vec<u8>,
) -> Result<(Kind, bool, u64), PackError>
    ensures ok { IfOk result (λ head. (content : List ℕ) × (length content ≤ 2 ^ 23)
        × (frame.new.items ≡ frame_of before (tag_of head.0 head.1) content)
        × (head.2 ≡ hash_after_frame before (tag_of head.0 head.1) content)
        × Consumes (R.remaining reader.old) (R.remaining reader.new) frame.new.items) }
    ensures accepted { (kind : Kind) (is_last : Bool) (content rest : List ℕ)
        → length content ≤ 2 ^ 23
        → R.remaining reader.old ≡ Some (frame_of before (tag_of kind is_last) content ++ rest)
        → IfErr result (λ error. ¬ (IsRefusal error)) }
    ensures errors { IfErr result (λ error. error ≢ PackError.TooLong) }
{
    frame.clear();
    read_up_to(reader, HEADER, frame)?;
    if frame.len() < HEADER {
        return Err(PackError::Cut);
    }
    let (kind, is_last, count) = parts_of(frame)?;
    let length = HEADER + count + CHECKSUM;
    read_up_to(reader, length, frame)?;
    if frame.len() < length {
        return Err(PackError::Cut);
    }
    let (hashed, checksum) = frame.split_at(length - CHECKSUM);
    let after = hash_of(before, hashed);
    if checksum != after.to_le_bytes().as_slice() {
        return Err(PackError::Damaged);
    }
    Ok((kind, is_last, after))
}

/// The content of a frame.
pub(crate) fn content_of(frame: &[u8]) -> &[u8]
    requires { 13 ≤ length frame.now }
    ensures { (before tag : ℕ) (content : List ℕ) → frame.now ≡ frame_of before tag content
        → result.now ≡ content }
{
    &frame[HEADER..frame.len() - CHECKSUM]
}
