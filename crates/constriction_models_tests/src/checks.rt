//! Compares what is found with what is expected.
//!
//! Tests call these functions, because `assert_eq!` takes long to prove and a call takes no time.

use std::alloc::Global;
use std::fmt::Debug;
use std::process::Abort;

/// Asserts that the two are equal, and shows both if they are not.
pub fn same<T: PartialEq + Debug + Drop>(rt: &impl Abort, found: T, expected: T) {
    assert_eq!(rt; found, expected);
}

/// The same for one of several cases. It shows the name of the case too.
pub fn same_at<Name, T>(rt: &impl Abort, name: Name, found: T, expected: T)
where
    Name: Copy + PartialEq + Debug,
    T: PartialEq + Debug + Drop,
{
    same(rt, (name, found), (name, expected));
}

/// Asserts that the text by which `Debug` shows the value contains `part`.
pub fn shows<T: Debug>(rt: &impl Abort, alloc: Global, value: &T, part: &str) {
    let text = format!(in alloc; "{value:?}").expect(rt, "memory");
    same_at(rt, part, text.contains(part), true);
}
