//! What the crates of tests share: a drop that is proved once, and random numbers.
#![tactic(auto)]

mod random;

pub use random::Random;

/// Drops the value.
///
/// Tests let go of tokens, streams and maps by this call, because a drop of an enum that is written out makes the proof
/// of a test longer.
pub fn release<T: Drop>(value: T) {
    let _value = value;
}
