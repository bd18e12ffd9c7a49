//! Tests of quotes: printed texts of each kind of tree, the examples of the README, templates, and random trees.
#![tactic(auto)]

#[cfg(test)]
mod tests;
