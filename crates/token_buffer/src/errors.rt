//! The errors of a buffer that can't be made.
ghost use Rattle.std.specs.Prelude.{◌≡◌};
ghost use Rattle.pm_token.specs.declared.errors.ParseError.TheVariants.{Memory};
ghost use Rattle.token_buffer.specs.declared.errors.BufferError.TheVariants.{Parse};

use pm_span::Span;
use pm_token::ParseError;
use std::alloc::{AllocError, AllocFailed};
use std::error::Error;
use std::fmt;

/// The reason why a buffer was not made.
#[derive(Debug, Drop, PartialEq)]
pub enum BufferError {
    /// The text could not be read.
    Parse(ParseError),
    /// The text has more than 4294967295 bytes, or more than 4294967295 tokens.
    TooLong,
}

impl BufferError {
    ghost use Rattle.token_buffer.specs.Message.{fault_span};

    /// Returns the span of a syntax error, as [`ParseError::span`] does, or `None` for the other errors.
    pub fn span(&self) -> Option<Span>
        ensures { result ≡ fault_span self.now }
    {
        match self {
            BufferError::Parse(error) => error.span(),
            BufferError::TooLong => None,
        }
    }
}

impl fmt::Display for BufferError {
    ghost use Rattle.std.specs.Prelude.{Some};
    ghost use Rattle.token_buffer.specs.Message.{message};

    ghost output = { λ error. Some (message error) };

    fn fmt<W: fmt::Write>(&self, f: &mut fmt::Formatter<W>) -> fmt::Result {
        match self {
            BufferError::Parse(error) => error.fmt(f),
            BufferError::TooLong => f.write_str("text too long"),
        }
    }
}

impl Error for BufferError {}

impl From<ParseError> for BufferError {
    ghost from_gives = { λ error result. result ≡ Parse error };

    fn from(error: ParseError) -> BufferError {
        BufferError::Parse(error)
    }
}

impl From<AllocError> for BufferError {
    ghost from_gives = { λ error result. result ≡ Parse (Memory error) };

    fn from(error: AllocError) -> BufferError {
        BufferError::Parse(ParseError::Memory(error))
    }
}

impl<T: Drop> From<AllocFailed<T>> for BufferError {
    ghost use Rattle.std.specs.Prelude.{alloc_error};

    ghost from_gives = { λ _ result. result ≡ Parse (Memory alloc_error) };

    fn from(error: AllocFailed<T>) -> BufferError {
        BufferError::Parse(ParseError::Memory(AllocError::from(error)))
    }
}
