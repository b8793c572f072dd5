//! What these tests assert. The check of a test takes as long as it has ways to end: here each assertion is checked once.

use std::fmt::Debug;
use std::process::Abort;

/// Asserts that this is so.
pub fn holds<A: Abort>(rt: &A, so: bool) {
    assert!(rt; so);
}

/// Asserts that this is what is wanted in a row of a table.
pub fn same_in<A: Abort, T: PartialEq + Debug + Drop, N: Debug + Drop>(
    rt: &A,
    got: T,
    want: T,
    row: N,
) {
    assert_eq!(rt; got, want, "{row:?}");
}
