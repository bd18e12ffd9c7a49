//! The errors of a literal that has no value.
ghost use Rattle.std.specs.Prelude.{◌≡◌, alloc_error};
ghost use Rattle.pm_token.specs.declared.literals.conversion.ConversionErrorKind.TheVariants.{FailedToUnescape, Memory};

use literal_escaper::EscapeError;
use std::alloc::{AllocError, AllocFailed};
use std::error::Error;
use std::fmt;

/// The reason why a literal's value was not returned.
#[derive(Debug, Drop, PartialEq, Eq)]
pub enum ConversionErrorKind {
    /// The content has a syntax error; this is the last one, and warnings don't count. `"a` CR LF `b"` gives
    /// `BareCarriageReturn`.
    FailedToUnescape(EscapeError),
    /// The literal is of another kind than the call reads, or it has a suffix: `1`, or `"a"s`.
    InvalidLiteralKind,
    /// Memory ran out.
    Memory(AllocError),
}

impl fmt::Display for ConversionErrorKind {
    ghost use Rattle.std.specs.Prelude.{Some};
    ghost use Rattle.pm_token.specs.Message.{conversion_message};

    ghost output = { λ error. Some (conversion_message error) };

    fn fmt<W: fmt::Write>(&self, f: &mut fmt::Formatter<W>) -> fmt::Result {
        match self {
            ConversionErrorKind::FailedToUnescape(_) => f.write_str("cannot unescape the literal"),
            ConversionErrorKind::InvalidLiteralKind => {
                f.write_str("the literal is of another kind or has a suffix")
            }
            ConversionErrorKind::Memory(_) => f.write_str("no memory"),
        }
    }
}

impl Error for ConversionErrorKind {}

impl From<EscapeError> for ConversionErrorKind {
    ghost from_gives = { λ fault result. result ≡ FailedToUnescape fault };

    fn from(fault: EscapeError) -> ConversionErrorKind {
        ConversionErrorKind::FailedToUnescape(fault)
    }
}

impl From<AllocError> for ConversionErrorKind {
    ghost from_gives = { λ error result. result ≡ Memory error };

    fn from(error: AllocError) -> ConversionErrorKind {
        ConversionErrorKind::Memory(error)
    }
}

impl<T: Drop> From<AllocFailed<T>> for ConversionErrorKind {
    ghost from_gives = { λ _ result. result ≡ Memory alloc_error };

    fn from(error: AllocFailed<T>) -> ConversionErrorKind {
        ConversionErrorKind::Memory(AllocError::from(error))
    }
}
