//! Tests of `declarations`: for each text, the number of trees in each part, or where the error is.
#![tactic(auto)]

#[cfg(test)]
mod tests;
