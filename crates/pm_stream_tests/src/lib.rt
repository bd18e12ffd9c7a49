//! Tests of parsed and built streams, of their laws, of spans and of the source map, for what the recorded answers of
//! `conformance` don't cover.
//!
//! They are in a crate of their own, because a crate that has tests is proved a second time with them.
#![tactic(auto)]

#[cfg(test)]
mod tests;
