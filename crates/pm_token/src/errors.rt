//! The errors of texts that can't be parsed.
ghost use Rattle.std.specs.Prelude.{◌≡◌};
ghost use Rattle.pm_token.specs.declared.errors.ParseError.TheVariants.{Memory};

use pm_span::Span;
use std::alloc::{AllocError, AllocFailed};
use std::error::Error;
use std::fmt;
use std::marker::Model;

/// A text that could not be read, with the span of its syntax error.
#[derive(Debug, Drop)]
pub struct LexError {
    span: Span,
}

impl Model for LexError {
    ghost use Rattle.pm_span.specs.Extent.{Extent};

    ghost Value = { Extent };

    ghost view = { λ error. error.span };
}

impl LexError {
    pub(crate) fn at(span: Span) -> LexError
        ensures { result ≡ span }
    {
        LexError { span }
    }

    /// Returns the span of the syntax error, in characters (`fault`).
    ///
    /// For a token stream the span is empty. It is before the character that can't be read, or before the closer
    /// that does not close the innermost open group. If a group is open at the end, the span is before the last
    /// opener without a closer. For a literal the span is 0..0, which is in no text that was read.
    pub fn span(&self) -> Span
        ensures { result ≡ self.now }
    {
        self.span
    }
}

impl PartialEq for LexError {
    ghost use Rattle.pm_span.specs.Extent.{extent_eq};
    ghost use Rattle.std.proofs.Common.{rules};
    ghost use Rattle.std.specs.Cmp.Rules.{comparing};

    ghost eq = { extent_eq };

    ghost laws = { Prim.search (comparing, rules) };

    /// Returns whether both errors have the same span.
    fn eq(&self, other: &LexError) -> bool {
        let LexError { span } = self;
        span.eq(&other.span)
    }
}

impl fmt::Display for LexError {
    ghost use Rattle.std.specs.Prelude.{Some, codes};

    ghost output = { λ _. Some (codes "cannot parse string into token stream") };

    fn fmt<W: fmt::Write>(&self, f: &mut fmt::Formatter<W>) -> fmt::Result {
        f.write_str("cannot parse string into token stream")
    }
}

impl Error for LexError {}

/// The reason why a text was not parsed.
#[derive(Debug, Drop, PartialEq)]
pub enum ParseError {
    /// The text has a syntax error, and is a file of the map now. The error of a stream has its span in that
    /// file; the error of a literal has the span 0..0.
    Lex(LexError),
    /// The text would end past the map's limit (`fits`). The map does not change.
    MapFull,
    /// Memory ran out. The map does not change.
    Memory(AllocError),
}

impl ParseError {
    ghost use Rattle.pm_token.specs.Message.{fault_span};

    /// Returns the span of a syntax error, as [`LexError::span`] does, or `None` for the other errors.
    pub fn span(&self) -> Option<Span>
        ensures { result ≡ fault_span self.now }
    {
        match self {
            ParseError::Lex(error) => Some(error.span()),
            ParseError::MapFull | ParseError::Memory(_) => None,
        }
    }
}

impl fmt::Display for ParseError {
    ghost use Rattle.std.specs.Prelude.{Some};
    ghost use Rattle.pm_token.specs.Message.{message};

    ghost output = { λ error. Some (message error) };

    fn fmt<W: fmt::Write>(&self, f: &mut fmt::Formatter<W>) -> fmt::Result {
        match self {
            ParseError::Lex(error) => error.fmt(f),
            ParseError::MapFull => f.write_str("map full"),
            ParseError::Memory(_) => f.write_str("no memory"),
        }
    }
}

impl Error for ParseError {}

impl From<AllocError> for ParseError {
    ghost from_gives = { λ error result. result ≡ Memory error };

    fn from(error: AllocError) -> ParseError {
        ParseError::Memory(error)
    }
}

impl<T: Drop> From<AllocFailed<T>> for ParseError {
    ghost use Rattle.std.specs.Prelude.{alloc_error};

    ghost from_gives = { λ _ result. result ≡ Memory alloc_error };

    fn from(error: AllocFailed<T>) -> ParseError {
        ParseError::Memory(AllocError::from(error))
    }
}
