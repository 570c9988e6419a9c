//! Compares what is found with what is expected.
//!
//! Tests call these functions, because `assert_eq!` takes long to prove and a call takes no time.

use constriction_backends::{Cursor, SafeBuf};
use constriction_words::Pos;
use std::alloc::Global;
use std::fmt::Debug;
use std::process::Abort;

/// Asserts that the two are equal, and shows both if they are not.
pub fn same<T: PartialEq + Debug + Drop>(rt: &impl Abort, found: T, expected: T) {
    assert_eq!(rt; found, expected);
}

/// Asserts that a `Vec` holds these words.
pub fn holds(rt: &impl Abort, found: &Vec<u8>, expected: &[u8]) {
    same(rt, found.as_slice(), expected);
}

/// Asserts that `Debug` shows the value as this text.
pub fn shows<T: Debug>(rt: &impl Abort, alloc: Global, value: &T, text: &str) {
    let shown = format!(in alloc; "{value:?}").expect(rt, "memory was refused");
    same(rt, shown.as_str(), text);
}

/// These words in a `Vec`. The test fails if memory is refused.
pub fn vec_of(rt: &impl Abort, alloc: Global, words: &[u8]) -> Vec<u8> {
    words.to_vec(alloc).expect(rt, "memory")
}

/// Asserts that a cursor stands at this position and holds these words.
pub fn is_at<Buf: SafeBuf<u8>, const N: usize>(
    rt: &impl Abort,
    cursor: &Cursor<u8, Buf>,
    pos: usize,
    words: [u8; N],
) {
    same(rt, cursor.buf().words(), words.as_slice());
    same(rt, cursor.pos(), pos);
}
