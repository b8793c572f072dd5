//! What these tests assert. The check of a test takes as long as it has ways to end: here each assertion is checked once.

use std::fmt::Debug;
use std::process::Abort;

/// Asserts that this is so in a row of a table.
pub fn holds_in<A: Abort, N: Debug + Drop>(rt: &A, so: bool, row: N) {
    assert!(rt; so, "{row:?}");
}
