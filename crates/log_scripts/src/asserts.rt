//! What these tests assert. The check of a test takes as long as it has ways to end: here each assertion is checked once.

use std::fmt::Debug;
use std::process::Abort;

/// Asserts that this is what is wanted.
pub fn same<A: Abort, T: PartialEq + Debug + Drop>(rt: &A, got: T, want: T) {
    assert_eq!(rt; got, want);
}

/// Asserts that this is what is wanted in a row of a table.
pub fn same_in<A: Abort, T: PartialEq + Debug + Drop, N: Debug + Drop>(
    rt: &A,
    got: T,
    want: T,
    row: N,
) {
    assert_eq!(rt; got, want, "{row:?}");
}

/// Asserts that this is so in a row of a table.
pub fn holds_in<A: Abort, N: Debug + Drop>(rt: &A, so: bool, row: N) {
    assert!(rt; so, "{row:?}");
}
