//! Why a job ends early.

use declarations::Fault;
use proc_macro2::rustc_literal_escaper::EscapeError;
use proc_macro2::{ConversionErrorKind, IdentError, ParseError};
use quoting::{QuoteError, TemplateError};
use std::alloc::AllocError;
use std::io;
use thiserror::Error;
use token_buffer::BufferError;

/// Why a job ends early.
#[derive(Debug, Drop, Error)]
pub enum Fail {
    /// The words name no job.
    #[error("workloads JOB SEED SIZE < ITEMS")]
    Usage,
    /// The items aren't UTF-8.
    #[error("the items aren't UTF-8")]
    NotUtf8,
    /// There are no items.
    #[error("no items")]
    NoItems,
    /// A text has no pieces, or no reason for its fault.
    #[error("a text was refused")]
    Refused,
    /// The input was not read, or the digest not written.
    #[error(transparent)]
    Io(#[from] io::Error),
    /// A text was not parsed.
    #[error(transparent)]
    Text(#[from] ParseError),
    /// The tokens of a text were not listed.
    #[error(transparent)]
    Buffer(#[from] BufferError),
    /// A name is none.
    #[error(transparent)]
    Name(#[from] IdentError),
    /// A quote has a fault.
    #[error(transparent)]
    Quote(#[from] QuoteError),
    /// A template has a fault.
    #[error(transparent)]
    Template(#[from] TemplateError),
    /// Memory ran out.
    #[error(transparent)]
    Memory(#[from(alloc)] AllocError),
}
