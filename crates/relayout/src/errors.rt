//! The error of the calls of this crate.
ghost use Rattle.std.specs.Prelude.{◌≡◌};

use std::alloc::AllocError;
use std::error::Error;
use std::fmt;

/// Why `relayout`, `with_doc_comments` or `with_any_doc_comments` returned no text.
#[derive(Debug, Drop, PartialEq, Eq)]
pub enum RelayoutError {
    /// No pieces cover the text: somewhere in it no piece begins.
    NoPiece,
    /// Memory ran out.
    Memory(AllocError),
}

impl fmt::Display for RelayoutError {
    ghost use Rattle.std.specs.Prelude.{Some};
    ghost use Rattle.relayout.specs.Message.{message};

    ghost output = { λ error. Some (message error) };

    fn fmt<W: fmt::Write>(&self, f: &mut fmt::Formatter<W>) -> fmt::Result {
        match self {
            RelayoutError::NoPiece => f.write_str("cannot split the text into tokens"),
            RelayoutError::Memory(_) => f.write_str("no memory"),
        }
    }
}

impl Error for RelayoutError {}

impl From<AllocError> for RelayoutError {
    ghost use Rattle.relayout.specs.declared.errors.RelayoutError.TheVariants.{Memory};

    ghost from_gives = { λ error result. result ≡ Memory error };

    fn from(error: AllocError) -> RelayoutError {
        RelayoutError::Memory(error)
    }
}
