//! A builder of streams from trees and from templates with holes.
//!
//! The stream of `Quote::finish` reads back from its printed text as the same tokens.
#![tactic(auto)]

mod builder;
mod errors;
mod faults;
mod fill;
mod holes;
mod interpolation;
pub mod join;
pub mod laws;
mod lists;
mod making;
mod open_list;
mod owned;
mod putting;
mod quote;
mod respace;
mod template;
mod turns;
mod values;

pub use errors::{QuoteError, TemplateError};
pub use holes::Hole;
pub use quote::Quote;
pub use values::{Number, Value, Values};
