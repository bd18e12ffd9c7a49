//! The errors for which a case is not run.

use proc_macro2::{IdentError, ParseError};
use quoting::QuoteError;
use std::alloc::AllocError;
use std::io;
use thiserror::Error;

/// Why a case was not run.
#[derive(Debug, Drop, Error)]
pub enum Fail {
    /// The arguments name no case.
    #[error("no such case")]
    NoCase,
    /// The output could not be written.
    #[error(transparent)]
    Io(#[from] io::Error),
    /// The text of the case could not be parsed.
    #[error(transparent)]
    Text(#[from] ParseError),
    /// The name of the case is not an identifier.
    #[error(transparent)]
    Name(#[from] IdentError),
    /// The pieces that were pushed to a quote are wrong.
    #[error(transparent)]
    Quote(#[from] QuoteError),
    /// Memory ran out, although no allocation was made to fail.
    #[error(transparent)]
    Memory(#[from(alloc)] AllocError),
}
