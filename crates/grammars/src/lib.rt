//! Grammars as data, and laws that hold for all of them.
//!
//! A grammar is a value of the data type `Grammar` (`specs/Grammar.antt`). It is a grammar over signs, which are its
//! terminal symbols. `Derives` says what it derives: signs, with marks between them that show the parts. A machine
//! whose state is a stack of grammars reads signs with one sign of lookahead. If a grammar passes two tests that
//! compute, any signs have exactly one reading or one error ([`laws`]).
#![tactic(auto)]

pub mod laws;
