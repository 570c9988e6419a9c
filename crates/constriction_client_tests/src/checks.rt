//! Compares what is found with what is expected.
//!
//! Tests call these functions, because `assert_eq!` takes long to prove and a call takes no time.

use constriction_test_support::contiguous::{WEIGHTS, Weighted, weighted};
use std::alloc::Global;
use std::fmt::Debug;
use std::process::Abort;

/// Asserts that the two are equal, and shows both if they are not.
pub fn same<T: PartialEq + Debug + Drop>(rt: &impl Abort, found: T, expected: T) {
    assert_eq!(rt; found, expected);
}

/// Asserts that a `Vec` holds these items.
pub fn holds<T: PartialEq + Debug>(rt: &impl Abort, found: &Vec<T>, expected: &[T]) {
    same(rt, found.as_slice(), expected);
}

/// These words in a `Vec`. The test fails if memory is refused.
pub fn vec_of(rt: &impl Abort, alloc: Global, words: &[u8]) -> Vec<u8> {
    words.to_vec(alloc).expect(rt, "memory")
}

/// The model of the weights 3, 18, 1 and 42. The test fails if memory is refused.
pub fn small(rt: &impl Abort, alloc: Global) -> Weighted<6> {
    weighted::<6>(alloc, &WEIGHTS, false).expect(rt, "accepted")
}
