//! Tests of layouts. Texts have the gaps that choosers give, random streams come back from texts with random gaps, and
//! doc attributes of a text become comments.
#![tactic(auto)]

#[cfg(test)]
mod tests;
