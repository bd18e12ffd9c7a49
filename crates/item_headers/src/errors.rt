//! The error of the calls.
ghost use Rattle.std.specs.Prelude.{◌≡◌};

use declarations::Fault;
use proc_macro2::{IdentError, Span};
use quoting::QuoteError;
use std::alloc::AllocError;
use std::error::Error;
use std::fmt;

/// The error of a call: the item's parameters or predicates are wrong, or memory ran out.
#[derive(Debug, Drop, PartialEq)]
pub enum HeaderError {
    /// The generic parameters or the where clause are not those of the grammar. The field `at` counts trees from the
    /// parameter or predicate that does not fit. If the brackets or the `where` do not fit, it counts from the first
    /// tree of the generic parameters or of the where clause.
    Fault(Fault),
    /// A keyword or a mark could not be written, because memory ran out.
    Keyword(IdentError),
    /// Memory ran out. No call returns any other error of a quote.
    Quote(QuoteError),
}

impl HeaderError {
    ghost use Rattle.item_headers.specs.Message.{header_span};

    /// Returns the span of the tree that does not fit.
    ///
    /// Returns `None` if trees are missing at the end, and for any error but `Fault`.
    pub fn span(&self) -> Option<Span>
        ensures { result ≡ header_span self.now }
    {
        match self {
            HeaderError::Fault(fault) => fault.span(),
            HeaderError::Keyword(_) | HeaderError::Quote(_) => None,
        }
    }
}

impl fmt::Display for HeaderError {
    ghost use Rattle.std.specs.Prelude.{Some};
    ghost use Rattle.item_headers.specs.Message.{header_message};

    ghost output = { λ error. Some (header_message error) };

    fn fmt<W: fmt::Write>(&self, f: &mut fmt::Formatter<W>) -> fmt::Result {
        match self {
            HeaderError::Fault(fault) => fault.fmt(f),
            HeaderError::Keyword(error) => error.fmt(f),
            HeaderError::Quote(error) => error.fmt(f),
        }
    }
}

impl Error for HeaderError {}

impl From<Fault> for HeaderError {
    ghost use Rattle.item_headers.specs.declared.errors.HeaderError.TheVariants.{Fault as OfFault};

    ghost from_gives = { λ fault result. result ≡ OfFault fault };

    fn from(fault: Fault) -> HeaderError {
        HeaderError::Fault(fault)
    }
}

impl From<IdentError> for HeaderError {
    ghost use Rattle.item_headers.specs.declared.errors.HeaderError.TheVariants.{Keyword};

    ghost from_gives = { λ error result. result ≡ Keyword error };

    fn from(error: IdentError) -> HeaderError {
        HeaderError::Keyword(error)
    }
}

impl From<QuoteError> for HeaderError {
    ghost use Rattle.item_headers.specs.declared.errors.HeaderError.TheVariants.{Quote};

    ghost from_gives = { λ error result. result ≡ Quote error };

    fn from(error: QuoteError) -> HeaderError {
        HeaderError::Quote(error)
    }
}

impl From<AllocError> for HeaderError {
    ghost use Rattle.item_headers.specs.declared.errors.HeaderError.TheVariants.{Quote};
    ghost use Rattle.quoting.specs.declared.errors.QuoteError.TheVariants.{Memory};

    ghost from_gives = { λ error result. result ≡ Quote (Memory error) };

    fn from(error: AllocError) -> HeaderError {
        HeaderError::Quote(QuoteError::Memory(error))
    }
}
