//! Writes streams with white space of your choice between the tokens, so that the text reads back to the same tokens.
//!
//! [`text_with`] writes a stream with the gaps that a [`Chooser`] gives, whatever it gives.
#![tactic(auto)]

mod errors;
mod gaps;
pub mod laws;
mod writing;

pub use errors::LayoutError;
pub use gaps::{Chooser, Gap, GapContext};
pub use writing::{text_with, write_with};
