//! The error of `text_with` and `write_with`.
ghost use Rattle.std.specs.Prelude.{◌≡◌};
ghost use Rattle.layout.specs.Message.{kind_of};

use std::alloc::AllocError;
use std::error::Error;
use std::{fmt, io};

/// Why a stream is not written.
#[derive(Debug, Drop)]
pub enum LayoutError {
    /// The stream isn't `well-spaced`, so no text reads back to it. Nothing is written.
    NotWellSpaced,
    /// Memory ran out.
    Memory(AllocError),
    /// The writer failed. A prefix of the text may have been written.
    Write(io::Error),
}

/// The kind of an error, which is what `==` compares.
#[derive(Clone, Copy, PartialEq, Eq)]
enum Kind {
    NotWellSpaced,
    Memory,
    Write(io::ErrorKind),
}

impl LayoutError {
    /// Returns the kind of the error, which includes the kind of a writer's error.
    fn kind(&self) -> Kind
        ensures { result ≡ kind_of self.now }
    {
        match self {
            LayoutError::NotWellSpaced => Kind::NotWellSpaced,
            LayoutError::Memory(_) => Kind::Memory,
            LayoutError::Write(error) => Kind::Write(error.kind()),
        }
    }
}

impl PartialEq for LayoutError {
    ghost use Rattle.std.specs.Cmp.{on_per};
    ghost use Rattle.std.specs.Ordering.{on};
    ghost use Rattle.layout.specs.contracts.errors.KindPartialEq.TheImpl.Laws.{laws-law};

    ghost eq = { on kind_of ⟦<Kind as PartialEq>⟧.eq };

    ghost laws = { on_per kind_of laws-law };

    /// Whether both errors are of the same kind, and their writers' errors too.
    fn eq(&self, other: &LayoutError) -> bool {
        self.kind() == other.kind()
    }
}

impl fmt::Display for LayoutError {
    ghost use Rattle.std.specs.Prelude.{Some};
    ghost use Rattle.layout.specs.Message.{message};

    ghost output = { λ error. Some (message error) };

    fn fmt<W: fmt::Write>(&self, f: &mut fmt::Formatter<W>) -> fmt::Result {
        match self {
            LayoutError::NotWellSpaced => f.write_str("no text parses back to this stream"),
            LayoutError::Memory(_) => f.write_str("no memory"),
            LayoutError::Write(_) => f.write_str("cannot write the text"),
        }
    }
}

impl Error for LayoutError {}

impl From<AllocError> for LayoutError {
    ghost use Rattle.layout.specs.declared.errors.LayoutError.TheVariants.{Memory};

    ghost from_gives = { λ error made. made ≡ Memory error };

    fn from(error: AllocError) -> LayoutError {
        LayoutError::Memory(error)
    }
}
