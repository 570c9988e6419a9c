//! Bytes and their packed files, and what unpacking them answers, for several tests.

use crate::checks::{holds, same};
use constriction_pack::{PackError, unpack};
use std::alloc::Global;
use std::process::Abort;

/// Bytes that are stored, and bytes that are weighted: 64, of which four are 1 and the others 0.
pub const NINE: &[u8] = b"\x02\x00\x01\x00\x00\x02\x00\x01\x00";

pub const RARE: &[u8] = b"\0\0\0\x01\0\0\0\0\0\0\0\0\0\0\0\0\0\x01\0\0\0\0\0\0\0\0\0\0\0\0\0\x01\
    \0\0\0\0\0\0\0\0\0\0\0\0\0\0\0\0\0\0\x01\0\0\0\0\0\0\0\0\0\0\0\0\0";

/// The content `Weighted` of `RARE`.
pub const WEIGHTED: &[u8] = b"\x40\x00\x00\x00\x01\x99\xd9\x03\xe5\x26\x88\x01\xec\xee";

/// Two verses.
pub const VERSES: &[u8] =
    b"Row, row, row your boat, gently down the stream; merrily, merrily, merrily, merrily, life is but a dream.\n\
Row, row, row your boat, gently down the stream; if you see a crocodile, do not forget to scream.\n";

/// The content `FewContexts` of the verses.
pub const BY_FEW: &[u8] =
    b"\xcc\x00\x00\x00\x1f\xa5\x81\x52\xc7\x72\x65\x0c\x2f\x06\x6a\xa2\x7a\x59\x10\x9f\x6e\x0b\xab\xd9\xb0\xc7\x85\x2b\
    \x23\x88\x33\x99\xf8\x1a\x70\xeb\x50\xd4\xd4\x92\x35\xdc\xd2\xce\xbc\xbf\x1a\xc7\x03\x15\x53\xee\x84\xf0\x88\x48\
    \x13\xd9\xca\x5b\x0c\x7d\xd8\x3d\xe8\xe1\xe6\xe2\xc2\x6d\x47\xc1\xfc\x39\xae\x15\xc5\x46\x1c\x65\xbc\xb7\x49\x7b\
    \xce\xe8\x23\x0a\x3a\xde\xa0\x1f\x73\x0e\x9e\xcd\x6c\x13\x6e\xff\x13\x8c\xc0\xdd\xbb\x87\xdb\x11\xe6\x71\x82\xb3\
    \x83\xa2\x48\x8e\x2e\x32\x07\x2d\x96\x65\x57\xdd\x17\xf3\x71\xfa\x88\x05\x17\xb5\x4b\x78\xac\x40\x31\xa8\x6c\x9a\
    \xbe\x29\xd1\xc6\x08\x04\xaa\x3b\x53\xd8\xab\xfd";

/// The content `ManyContexts` of the verses.
pub const BY_MANY: &[u8] =
    b"\xcc\x00\x00\x00\xe5\x68\x29\x53\x84\xf9\xc7\x22\x00\x6d\xf6\x73\x81\x39\x0b\x05\xc1\x8d\x5b\x09\x16\x94\x7e\x03\
    \x50\x33\x90\xde\x88\x50\x2a\x9c\xa8\x67\x16\x66\x3d\x57\x5d\x92\xb9\x13\x51\x43\x07\xb2\x1f\x25\x2f\x32\x7c\xd4\
    \x9e\x3d\x67\x46\xb6\xd2\x13\x9c\x2d\x14\x07\xd8\xa5\xd7\x60\x92\x85\x57\x79\x83\x4f\x0e\x83\xe1\x4b\x88\xf4\xdc\
    \x67\x8b\xe4\x38\xa0\x51\x54\xd4\x44\xc6\x49\x15\x8d\xe5\x14\xb8\x92\xa0\xa6\xa8\xe8\x01\x85\x1c\x71\x19\x35\x86";

/// A content `Matched` of the verses.
pub const MATCHED: &[u8] =
    b"\x6a\0\0\0\x06\0\0\0\0Row, r your boat, gently down the stream; merrily,life is but a d.\n\
if see a crocodile, do not forget to sc\0\x06\x2c\x0f\x02\x02\x25\0\x07\x1c\x04\x31\x04\x06\0\x08\x0c\x3c\x6d\x29\x65\
    \0\0\0\0\0\0\0\0\0\0\0\0\0\0";

/// The packed file of three blocks of three kinds: `NINE`, 20 times 7, and `RARE`.
pub const THREE: &[u8] =
    b"cpk3\r\n\x1a\n\x00\x09\x00\x00\x09\x02\x00\x01\x00\x00\x02\x00\x01\x00\x23\xd3\x26\xcc\xb2\x7c\x64\x0d\
    \x01\x05\x00\x00\x04\x14\x00\x00\x00\x07\x54\xa1\x7e\xef\x0c\xa6\x95\x05\
    \x82\x0e\x00\x00\x8c\x40\x00\x00\x00\x01\x99\xd9\x03\xe5\x26\x88\x01\xec\xee\x28\x45\xc9\x7f\xf2\x4b\x68\x9a";

/// The bytes of `THREE`.
pub fn three_blocks(rt: &impl Abort, alloc: Global) -> Vec<u8> {
    let mut bytes = Vec::from_slice(alloc, NINE).expect(rt, "memory");
    bytes.extend_from_slice(&[7; 20]).expect(rt, "memory");
    bytes.extend_from_slice(RARE).expect(rt, "memory");
    bytes
}

/// What `unpack` answers, and what it writes.
pub fn unpacked(alloc: Global, limit: u64, mut bytes: &[u8]) -> (Result<(), PackError>, Vec<u8>) {
    let mut unpacked = Vec::new(alloc);
    let result = unpack(alloc, limit, &mut bytes, &mut unpacked);
    (result, unpacked)
}

/// Asserts that a file is refused with this error, and what was written before: a beginning of the
/// bytes that were packed.
pub fn is_refused(rt: &impl Abort, alloc: Global, file: &[u8], error: PackError, written: &[u8]) {
    let (result, again) = unpacked(alloc, u64::MAX, file);
    same(rt, result, Err(error));
    holds(rt, &again, written);
}

/// So many of the first bytes.
pub fn front(bytes: &[u8], count: usize) -> &[u8] {
    if count < bytes.len() {
        &bytes[..count]
    } else {
        bytes
    }
}
