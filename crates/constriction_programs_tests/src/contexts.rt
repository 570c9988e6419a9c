//! Blocks whose bits are predicted: their contents are those that a program of its own computed
//! from the description of the format.

use crate::checks::{holds, same};
use crate::frames::{BY_CONTEXTS, SIGNATURE, file_of};
use crate::packed_files::{BY_FEW, BY_MANY, VERSES, is_refused, unpacked};
use constriction_pack::{Kind, Level, PackError, pack_block, unpack_block};
use std::alloc::Global;
use std::process::Abort;

/// Contents that no block has: no number of bytes, no bytes, 2^23 + 1 and 2^32 - 1 of them, and a
/// word that was cut.
const WRONG: [&[u8]; 5] = [
    b"\xcc\0\0",
    b"\0\0\0\0",
    b"\x01\0\x80\0",
    b"\xff\xff\xff\xff",
    b"\x01\0\0\0\x01\x02\x03",
];

/// Asserts that the content of the verses is unpacked, and that the wrong ones are refused.
fn are_unpacked(rt: &impl Abort, alloc: Global, kind: Kind, content: &[u8]) {
    let bytes = unpack_block(alloc, kind, content).expect(rt, "the block");
    holds(rt, &bytes, VERSES);
    for wrong in &WRONG {
        let fault = unpack_block(alloc, kind, wrong).err();
        same(rt, fault, Some(PackError::Damaged));
    }
}

#[test]
fn verses_are_packed_by_contexts_as_described(rt: HostRuntime) {
    are_unpacked(&rt, rt.alloc(), Kind::FewContexts, BY_FEW);
    are_unpacked(&rt, rt.alloc(), Kind::ManyContexts, BY_MANY);
    let made = pack_block(rt.alloc(), Level::Best, VERSES).expect(&rt, "memory");
    let (kind, found) = made.expect(&rt, "a shorter content");
    same(&rt, kind, Kind::ManyContexts);
    holds(&rt, &found, BY_MANY);
}

/// Asserts that a file with this content is unpacked, and refused if a byte follows.
fn ends_where_it_ends(rt: &impl Abort, alloc: Global, number: u8, content: &[u8], bytes: &[u8]) {
    let mut file = file_of(rt, alloc, SIGNATURE, &[(number, content)]);
    let (result, written) = unpacked(alloc, u64::MAX, &file);
    same(rt, result, Ok(()));
    holds(rt, &written, bytes);
    file.push(0).expect(rt, "memory");
    is_refused(rt, alloc, &file, PackError::Damaged, b"");
}

#[test]
fn nothing_follows_blocks_by_contexts(rt: HostRuntime) {
    for sample in &BY_CONTEXTS {
        ends_where_it_ends(&rt, rt.alloc(), sample.0, sample.2, sample.3);
    }
}

/// Asserts that contents that were changed by chance are refused as damaged, or that two calls
/// unpack the same bytes. They say that they have at most 255 bytes, and lose a byte after each
/// turn, in which each of their words changes.
fn are_refused_or_unpacked(
    rt: &impl Abort,
    alloc: Global,
    number: u8,
    kind: Kind,
    content: &[u8],
    turns: usize,
) {
    let mut changed = Vec::from_slice(alloc, content).expect(rt, "memory");
    let mut state = 1u32;
    for _ in 0..turns {
        for place in 4..changed.len() {
            state = state.wrapping_mul(1_664_525).wrapping_add(1_013_904_223);
            let [first, second, ..] = state.to_be_bytes();
            changed[place] ^= first;
            changed[0] = second;
            let file = file_of(rt, alloc, SIGNATURE, &[(number, &changed)]);
            let (result, written) = unpacked(alloc, u64::MAX, &file);
            match unpack_block(alloc, kind, &changed) {
                Ok(bytes) => {
                    same(rt, result, Ok(()));
                    holds(rt, &written, &bytes);
                }
                Err(error) => {
                    same(rt, error, PackError::Damaged);
                    same(rt, result, Err(error));
                }
            }
        }
        let _ = changed.pop();
    }
}

#[test]
fn random_contents_by_contexts_are_refused_or_unpacked(rt: HostRuntime) {
    for sample in &BY_CONTEXTS {
        let turns = if sample.1 == Kind::FewContexts { 6 } else { 1 };
        are_refused_or_unpacked(&rt, rt.alloc(), sample.0, sample.1, sample.2, turns);
    }
}
