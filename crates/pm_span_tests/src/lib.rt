//! Tests of `pm_span`: look-ups return what a plain walk over the texts gives, and what they returned before.
//!
//! The walk (`plain`) uses no index and nothing of the tested code. The record (`recorded`) shows if results
//! change. What a map keeps for later look-ups is not tested.
#![tactic(auto)]

#[cfg(test)]
mod tests;
