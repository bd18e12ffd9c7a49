//! The errors of writing getters.

use declarations::Fault;
use messages::Failure;
use proc_macro2::{IdentError, LineColumn, SourceMap};
use quoting::{QuoteError, TemplateError};
use std::alloc::AllocError;
use std::io;

/// Why getters could not be written.
#[derive(Debug, Drop)]
pub enum WriteError {
    /// The text could not be read or doesn't parse, or the output could not be written.
    Failed(Failure),
    /// At some position of the text an item, a field or a parameter is missing or wrong.
    Declared(FoundFault),
    /// A word of the code is not an identifier.
    Identifier(IdentError),
    /// The template could not be filled.
    Template(TemplateError),
    /// The code would not come back from its printed text, whatever the spacing of its marks.
    Quote(QuoteError),
}

/// An error in a declaration of the text.
#[derive(Clone, Copy, Debug)]
pub struct FoundFault {
    /// What is wrong.
    pub fault: Fault,
    /// Where it is, once `at_position` has looked it up. `None` if something is missing at an end.
    pub start: Option<LineColumn>,
}

impl WriteError {
    /// Returns the error with the line and column of a wrong declaration, which come from the map.
    pub fn at_position(self, map: &SourceMap) -> WriteError {
        match self {
            WriteError::Declared(found) => match found.fault.span {
                Some(span) if map.holds(span) => WriteError::Declared(FoundFault {
                    fault: found.fault,
                    start: Some(span.start(map)),
                }),
                _ => WriteError::Declared(found),
            },
            error => error,
        }
    }
}

impl From<Failure> for WriteError {
    fn from(failure: Failure) -> WriteError {
        WriteError::Failed(failure)
    }
}

impl From<io::Error> for WriteError {
    fn from(error: io::Error) -> WriteError {
        WriteError::Failed(Failure::from(error))
    }
}

impl From<AllocError> for WriteError {
    fn from(error: AllocError) -> WriteError {
        WriteError::Failed(Failure::from(error))
    }
}

impl From<Fault> for WriteError {
    fn from(fault: Fault) -> WriteError {
        WriteError::Declared(FoundFault { fault, start: None })
    }
}

impl From<IdentError> for WriteError {
    fn from(error: IdentError) -> WriteError {
        match error {
            IdentError::Memory(error) => WriteError::from(error),
            error => WriteError::Identifier(error),
        }
    }
}

impl From<TemplateError> for WriteError {
    fn from(error: TemplateError) -> WriteError {
        match error {
            TemplateError::Memory(error) => WriteError::from(error),
            error => WriteError::Template(error),
        }
    }
}

impl From<QuoteError> for WriteError {
    fn from(error: QuoteError) -> WriteError {
        match error {
            QuoteError::Memory(error) => WriteError::from(error),
            error => WriteError::Quote(error),
        }
    }
}
