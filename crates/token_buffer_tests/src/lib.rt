//! Tests of token buffers, and of the openers that `explain` returns.
//!
//! They are in a crate of their own, because a crate that has tests is proved a second time with them.
#![tactic(auto)]

#[cfg(test)]
mod tests;
