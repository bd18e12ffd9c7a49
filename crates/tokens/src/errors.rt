//! The error of a run.
ghost use Rattle.std.specs.Prelude.{◌≡◌};
ghost use Rattle.tokens.specs.declared.errors.RunError.TheVariants.{Memory};

use proc_macro2::LineColumn;
use std::alloc::AllocError;

/// Why a run failed.
#[derive(Clone, Copy, Debug)]
pub enum RunError {
    /// A read or a write failed, or a write took no bytes.
    Io,
    /// The input isn't UTF-8.
    NotUtf8,
    /// The input has more characters than a source map has positions.
    MapFull,
    /// The input has a syntax error at this line and column. Lines count from 1, and columns count characters from 0.
    Lex(LineColumn),
    /// Memory ran out.
    Memory(AllocError),
}

impl From<AllocError> for RunError {
    ghost from_gives = { λ error run_error. run_error ≡ Memory error };

    fn from(error: AllocError) -> RunError {
        RunError::Memory(error)
    }
}
