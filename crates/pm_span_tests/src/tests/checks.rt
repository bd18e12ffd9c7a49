//! Assertions that the tests share.
//!
//! They return nothing, and stop the test if memory runs out, because each `?` in a test makes its proof longer. For
//! the same reason tests let go of texts and maps by `release`.
use std::fmt::Debug;
use std::process::Abort;

/// Asserts that the answer for the positions from `lo` to `hi` is the expected one.
pub fn check_answer<T: PartialEq + Debug>(
    rt: &impl Abort,
    (lo, hi): (u32, u32),
    answer: &T,
    want: &T,
) {
    assert!(rt; answer == want, "{answer:?} and not {want:?} of {lo}..{hi}");
}

/// Asserts that more than `least` spans are looked up.
pub fn check_count(rt: &impl Abort, asked: u32, least: u32) {
    assert!(rt; asked > least, "{asked} spans are asked");
}
