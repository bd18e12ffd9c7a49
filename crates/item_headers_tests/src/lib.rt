//! Tests of the trees that a derive writes: items, and the headers of the `impl`s for them.
#![tactic(auto)]

#[cfg(test)]
mod rows;
