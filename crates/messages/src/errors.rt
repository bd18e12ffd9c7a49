//! Why a program fails.
ghost use Rattle.std.specs.Prelude.{◌≡◌, ◌↔◌};
ghost use Rattle.proc_macro2.specs.Files.{Holds};
ghost use Rattle.proc_macro2.specs.Lookup.{StartsAt};
ghost use Rattle.proc_macro2.specs.Outcome.{IfLex};
ghost use Rattle.proc_macro2.specs.declared.LineColumn.{LineColumn};
ghost use Rattle.messages.specs.Failure.{is_memory, reading_failed, writing_failed};

use proc_macro2::{LineColumn, ParseError, SourceMap};
use std::alloc::AllocError;
use std::io;

/// Why a program fails.
#[derive(Debug, Drop)]
pub enum Failure {
    /// The words after the program's name are wrong. The text says how the program is called.
    Usage(&'static str),
    /// The text has a syntax error at this line and column.
    Fault(LineColumn),
    /// The input is not UTF-8. It is valid up to this byte offset.
    NotUtf8(usize),
    /// The text has more characters than a source map has positions.
    MapFull,
    /// Memory ran out.
    Memory,
    /// The input could not be opened or read.
    Read(io::Error),
    /// The output could not be written.
    Write(io::Error),
}

impl Failure {
    /// Returns the failure for a text that was not parsed into the map: `Fault` with the line and column of the syntax
    /// error, `MapFull`, or `Memory`.
    pub fn parse_failure(error: ParseError, map: &SourceMap) -> Failure
        requires { IfLex error (Holds map.now) }
        ensures fault { IfLex error (λ fault. (start : LineColumn)
            × (result ≡ Failure.Fault start) × StartsAt map.now fault start) }
        ensures map_full { error ≡ ParseError.MapFull → result ≡ Failure.MapFull }
        ensures memory { (refused : AllocError) → error ≡ ParseError.Memory refused → result ≡ Failure.Memory }
    {
        match error {
            ParseError::Lex(fault) => Failure::Fault(fault.span().start(map)),
            ParseError::MapFull => Failure::MapFull,
            ParseError::Memory(_) => Failure::Memory,
        }
    }

    /// Returns the failure for an error of a read: `Memory` if memory ran out, and otherwise `Read`.
    pub fn reading(error: io::Error) -> Failure
        ensures { result ≡ reading_failed error }
    {
        if is_memory(error.kind()) {
            Failure::Memory
        } else {
            Failure::Read(error)
        }
    }
}

/// Makes the failure for an error of a write: `Memory` if memory ran out, and otherwise `Write`.
impl From<io::Error> for Failure {
    ghost from_gives = { λ error failure. failure ≡ writing_failed error };

    fn from(error: io::Error) -> Failure {
        if is_memory(error.kind()) {
            Failure::Memory
        } else {
            Failure::Write(error)
        }
    }
}

impl From<AllocError> for Failure {
    ghost use Rattle.messages.specs.declared.errors.Failure.TheVariants.{Memory};

    ghost from_gives = { λ _ failure. failure ≡ Memory };

    fn from(_: AllocError) -> Failure {
        Failure::Memory
    }
}

/// Whether the error is that memory ran out.
fn is_memory(kind: io::ErrorKind) -> bool
    ensures { result ≡ is_memory kind }
{
    matches!(kind, io::ErrorKind::OutOfMemory)
}
