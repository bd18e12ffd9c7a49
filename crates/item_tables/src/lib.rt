//! The tables of types, bounds and expressions: which class of signs may come next, and the state that it leads to.
#![tactic(auto)]

pub mod class;
mod expression;
pub mod types;
pub mod walk_state;
