//! What these tests assert. The check of a test takes as long as it has ways to end: here each assertion is checked once.

use std::fmt::Debug;
use std::process::Abort;

/// Asserts that this is what is wanted.
pub fn same<A: Abort, T: PartialEq + Debug + Drop>(rt: &A, got: T, want: T) {
    assert_eq!(rt; got, want);
}
