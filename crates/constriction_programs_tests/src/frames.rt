//! Packed files that are put together by hand: contents of any kind behind headers and before right
//! checksums.

use crate::packed_files::{BY_FEW, BY_MANY, MATCHED, NINE, RARE, VERSES, WEIGHTED};
use constriction_pack::Kind;
use std::alloc::Global;
use std::process::Abort;

/// What packed files begin with, and what those of the older format do.
pub const SIGNATURE: &[u8] = b"cpk3\r\n\x1a\n";

pub const OLD_SIGNATURE: &[u8] = b"cpk2\r\n\x1a\n";

/// Contents behind the numbers of their kinds and the kinds, and the bytes of their blocks.
pub const SAMPLES: [(u8, Kind, &[u8], &[u8]); 4] = [
    (0, Kind::Stored, NINE, NINE),
    (
        1,
        Kind::Repeated,
        b"\x06\0\0\0\x07",
        b"\x07\x07\x07\x07\x07\x07",
    ),
    (2, Kind::Weighted, WEIGHTED, RARE),
    (5, Kind::Matched, MATCHED, VERSES),
];

/// The same of the kinds whose predictors take long to make.
pub const BY_CONTEXTS: [(u8, Kind, &[u8], &[u8]); 2] = [
    (3, Kind::FewContexts, BY_FEW, VERSES),
    (4, Kind::ManyContexts, BY_MANY, VERSES),
];

/// The 64-bit FNV-1a hash of bytes after others.
fn hash_after(before: u64, bytes: &[u8]) -> u64 {
    let mut hash = before;
    for byte in bytes {
        hash = (hash ^ u64::from(*byte)).wrapping_mul(0x100_0000_01b3);
    }
    hash
}

/// The hash before the first frame: of no bytes in the older format, or else of the signature.
fn first_hash(signature: &[u8]) -> u64 {
    if signature == OLD_SIGNATURE {
        0xcbf2_9ce4_8422_2325
    } else {
        hash_after(0xcbf2_9ce4_8422_2325, signature)
    }
}

/// The file of a signature and of frames with these contents, each behind the number of its kind.
pub fn file_of(
    rt: &impl Abort,
    alloc: Global,
    signature: &[u8],
    contents: &[(u8, &[u8])],
) -> Vec<u8> {
    let mut file = Vec::from_slice(alloc, signature).expect(rt, "memory");
    let mut hash = first_hash(signature);
    for place in 0..contents.len() {
        let (number, content) = contents[place];
        let is_last = place + 1 == contents.len();
        let tag = if is_last { number | 128 } else { number };
        let [low, middle, high, ..] = (content.len() as u64).to_le_bytes();
        let header = [tag, low, middle, high, tag ^ low ^ middle ^ high];
        hash = hash_after(hash_after(hash, &header), content);
        for part in [header.as_slice(), content, hash.to_le_bytes().as_slice()] {
            file.extend_from_slice(part).expect(rt, "memory");
        }
    }
    file
}
