//! Packed files that take long to pack or to unpack, blocks of which a caller knows that they are
//! short enough, and laws of files.

use crate::checks::{holds, same};
use crate::packed_files::{RARE, THREE, VERSES, WEIGHTED, front, is_refused, three_blocks};
use crate::runs::{SlowReader, SlowWriter};
use constriction_pack::laws::{
    block_comes_back, block_once, changed_byte_is_refused, file_comes_back, matches_are_bounded,
    nothing_follows, packed_once,
};
use constriction_pack::{Kind, Level, PackError, pack, unpack, unpack_block};
use std::alloc::Global;
use std::process::Abort;

/// One byte more than a block holds makes two blocks.
#[test]
fn two_blocks_come_back(rt: HostRuntime) {
    let mut bytes = Vec::new(rt.alloc());
    for place in 0..8_388_609usize {
        bytes.push((place % 251) as u8).expect(&rt, "memory");
    }
    let again = file_comes_back(rt.alloc(), Level::Fast, &bytes).expect(&rt, "memory");
    holds(&rt, &again, &bytes);
}

/// Contents that no block has: of the kind `Repeated` no bytes, too many, and a byte more; of the
/// kind `Weighted` nothing, no bytes, 2^23 + 1, 2^32 - 1 and 50 of them, a weight that is cut, one
/// with a byte too many, weights that do not add up, and a word that is cut; by contexts nothing,
/// no bytes, 2^23 + 1 of them, a word that is cut, and words that no bytes have.
const WRONG_CONTENTS: [(Kind, &[u8]); 20] = [
    (Kind::Repeated, b"\0\0\0\0\x07"),
    (Kind::Repeated, b"\x01\0\x80\0\x07"),
    (Kind::Repeated, b"\x14\0\0\0\x07\x07"),
    (Kind::Weighted, b""),
    (Kind::Weighted, b"\0\0\0\0\0\xff\xff\x03"),
    (Kind::Weighted, b"\x01\0\x80\0\0\xff\xff\x03"),
    (Kind::Weighted, b"\xff\xff\xff\xff\0\xff\xff\x03"),
    (
        Kind::Weighted,
        b"\x32\0\0\0\x01\x99\xd9\x03\xe5\x26\x88\x01\xec\xee",
    ),
    (Kind::Weighted, b"\x40\0\0\0\x01\x99\xd9\x03\xe5"),
    (
        Kind::Weighted,
        b"\x40\0\0\0\x01\x99\xd9\x83\x00\xe5\x26\x88\x01\xec\xee",
    ),
    (
        Kind::Weighted,
        b"\x40\0\0\0\x01\x98\xd9\x03\xe5\x26\x88\x01\xec\xee",
    ),
    (
        Kind::Weighted,
        b"\x40\0\0\0\x01\x99\xd9\x03\xe5\x26\x88\x01\xec",
    ),
    (Kind::FewContexts, b"\x01\0\0"),
    (Kind::FewContexts, b"\0\0\0\0\0\0\0\x61"),
    (Kind::FewContexts, b"\x01\0\x80\0\0\0\0\x61"),
    (Kind::FewContexts, b"\x01\0\0\0\0\0\x61"),
    (
        Kind::FewContexts,
        b"\x01\0\0\0\xff\xff\xff\xff\xff\xff\xff\xff",
    ),
    (Kind::ManyContexts, b"\0\0\0\0\0\0\0\x61"),
    (Kind::ManyContexts, b"\x01\0\0\0\0\0\x61"),
    (
        Kind::ManyContexts,
        b"\x01\0\0\0\xff\xff\xff\xff\xff\xff\xff\xff",
    ),
];

/// Contents by contexts of one byte: of one word, and of none.
const ONE_BYTE: [(Kind, &[u8], u8); 4] = [
    (Kind::FewContexts, b"\x01\0\0\0\0\0\xc0\x61", b'a'),
    (Kind::FewContexts, b"\x01\0\0\0", 0),
    (Kind::ManyContexts, b"\x01\0\0\0\0\0\xc0\x61", b'a'),
    (Kind::ManyContexts, b"\x01\0\0\0", 0),
];

#[test]
fn wrong_contents_are_refused(rt: HostRuntime) {
    let bytes = unpack_block(rt.alloc(), Kind::Weighted, WEIGHTED).expect(&rt, "the block");
    holds(&rt, &bytes, RARE);
    for each in &WRONG_CONTENTS {
        let error = unpack_block(rt.alloc(), each.0, each.1).err();
        same(&rt, error, Some(PackError::Damaged));
    }
    for each in &ONE_BYTE {
        let bytes = unpack_block(rt.alloc(), each.0, each.1).expect(&rt, "a byte");
        holds(&rt, &bytes, &[each.2]);
    }
    let again = block_comes_back(rt.alloc(), Level::Best, RARE).expect(&rt, "memory");
    holds(&rt, &again, RARE);
}

/// What `unpack` answers if the reader fails after so many bytes, and what it writes to a slow
/// writer.
fn unpacked_slowly(alloc: Global, rest: &[u8], turns: usize) -> (Result<(), PackError>, Vec<u8>) {
    let mut reader = SlowReader {
        rest,
        turns,
        is_interrupted: false,
    };
    let mut writer = SlowWriter {
        taken: Vec::new(alloc),
        turns: 1000,
        is_interrupted: false,
    };
    let result = unpack(alloc, u64::MAX, &mut reader, &mut writer);
    (result, writer.taken)
}

/// The same of `pack`, to a `Vec`.
fn packed_slowly(alloc: Global, rest: &[u8], turns: usize) -> (Result<(), PackError>, Vec<u8>) {
    let mut reader = SlowReader {
        rest,
        turns,
        is_interrupted: false,
    };
    let mut written = Vec::new(alloc);
    let result = pack(alloc, Level::Fast, &mut reader, &mut written);
    (result, written)
}

/// Readers give one byte a turn, and fail at the one after the last: the end is not read twice. One
/// that fails is not asked again, and what was written before stays. An interrupted call is made
/// again.
#[test]
fn readers_fail(rt: HostRuntime) {
    let alloc = rt.alloc();
    let bytes = three_blocks(&rt, alloc);
    for each in &[(40, Err(PackError::Read), 9), (THREE.len() + 1, Ok(()), 93)] {
        let (turns, expected, count) = *each;
        let (result, written) = unpacked_slowly(alloc, THREE, turns);
        same(&rt, result, expected);
        holds(&rt, &written, front(&bytes, count));
    }
    let zeros = vec![in alloc; 0u8; 8_388_640].expect(&rt, "memory");
    let (result, written) = packed_slowly(alloc, &zeros, 8_388_625);
    same(&rt, result, Err(PackError::Read));
    is_refused(
        &rt,
        alloc,
        &written,
        PackError::Cut,
        front(&zeros, 8_388_608),
    );
}

/// How long the packed file of bytes is.
fn packed_length(rt: &impl Abort, alloc: Global, level: Level, mut bytes: &[u8]) -> usize {
    let mut packed = Vec::new(alloc);
    same(rt, pack(alloc, level, &mut bytes, &mut packed), Ok(()));
    packed.len()
}

/// How many zeros there are, and how long their packed file is: a block of 8,388,608 is not
/// followed by an empty one.
const ZEROS: [(usize, usize); 4] = [(5, 26), (7, 26), (8_388_608, 26), (8_388_609, 40)];

#[test]
fn zeros_take_few_bytes(rt: HostRuntime) {
    for each in &ZEROS {
        let (count, length) = *each;
        let bytes = vec![in rt.alloc(); 0u8; count].expect(&rt, "memory");
        same(
            &rt,
            packed_length(&rt, rt.alloc(), Level::Fast, &bytes),
            length,
        );
        let again = file_comes_back(rt.alloc(), Level::Fast, &bytes).expect(&rt, "memory");
        holds(&rt, &again, &bytes);
    }
}

/// How long the file of 2^24 zeros and the verses is at each level.
const LENGTHS: [(Level, usize); 3] = [
    (Level::Fast, 172),
    (Level::Default, 182),
    (Level::Best, 169),
];

#[test]
fn files_of_several_blocks_have_these_lengths(rt: HostRuntime) {
    let mut bytes = vec![in rt.alloc(); 0u8; 16_777_216].expect(&rt, "memory");
    bytes.extend_from_slice(VERSES).expect(&rt, "memory");
    for each in &LENGTHS {
        let length = packed_length(&rt, rt.alloc(), each.0, &bytes);
        same(&rt, length, each.1);
    }
}

const WORDS: [&[u8]; 16] = [
    b"the ",
    b"bytes ",
    b"of ",
    b"a ",
    b"block ",
    b"come ",
    b"back, ",
    b"and ",
    b"no ",
    b"other ",
    b"word ",
    b"is ",
    b"written ",
    b"before ",
    b"it.\n",
    b"Then ",
];

/// So many words that come by chance.
fn words(rt: &impl Abort, alloc: Global, count: usize) -> Vec<u8> {
    let mut text = Vec::new(alloc);
    let mut state = 1u32;
    for _ in 0..count {
        state = state.wrapping_mul(1_664_525).wrapping_add(1_013_904_223);
        let word = WORDS[(state / 65_536 % 16) as usize];
        text.extend_from_slice(word).expect(rt, "memory");
    }
    text
}

#[test]
fn a_text_is_the_shorter_the_more_a_level_tries(rt: HostRuntime) {
    let text = words(&rt, rt.alloc(), 20_000);
    let fast = packed_length(&rt, rt.alloc(), Level::Fast, &text);
    let default = packed_length(&rt, rt.alloc(), Level::Default, &text);
    let best = packed_length(&rt, rt.alloc(), Level::Best, &text);
    same(&rt, best < default && default < fast, true);
}

/// They do nothing; their contracts are what a caller needs them for.
#[test]
fn laws_of_files_may_be_called() {
    block_once();
    packed_once();
    nothing_follows();
    changed_byte_is_refused();
    matches_are_bounded();
}
