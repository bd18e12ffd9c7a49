//! The assertion that the tests share.
use std::fmt::Debug;
use std::process::Abort;

/// Asserts that the answer in a row of a test is the expected one. The row is printed if it fails.
pub fn check_answer<T: PartialEq + Debug>(rt: &impl Abort, row: &str, answer: &T, want: &T) {
    assert!(rt; answer == want, "{answer:?} and not {want:?} of {row:?}");
}
