//! The messages of the program, one line each. Writing a message allocates no memory, and a message that cannot be
//! written is dropped.
ghost use Rattle.std.specs.Prelude.{◌≡◌, ◌||◌, decimal, is_err, OnOk};
ghost use Rattle.std.specs.Io.KnownBytes.{Appends};
ghost use Rattle.tokens.specs.Command.{fault_line, message, usage};
ghost use Rattle.tokens.specs.Known.{AppendsFront, Says};

use crate::errors::RunError;
use crate::sinks::ByteSink;
use crate::writing::write_all;
use itoa::Buffer;
use proc_macro2::LineColumn;

/// Writes the usage line.
pub fn say_usage<E: ByteSink>(errors: &mut E)
    ensures { Says (E.held errors.old) (E.held errors.new) (E.has_failed errors.new) usage }
{
    let _ = write_all(errors, b"usage: tokens print|spans\n");
}

/// Writes why a run failed, and nothing if it did not. For a syntax error at the start of line 2 it writes `fault 2:0`.
pub fn say<E: ByteSink>(errors: &mut E, answer: &Result<(), RunError>)
    ensures { Says (E.held errors.old) (E.held errors.new) (E.has_failed errors.new)
        (message answer.now) }
{
    let _ = match answer {
        Ok(()) => Ok(()),
        Err(RunError::Io) => write_all(errors, b"input or output failed\n"),
        Err(RunError::NotUtf8) => write_all(errors, b"not utf-8\n"),
        Err(RunError::MapFull) => write_all(errors, b"map full\n"),
        Err(RunError::Lex(start)) => say_fault(errors, *start),
        Err(RunError::Memory(_)) => write_all(errors, b"no memory\n"),
    };
}

/// Writes the line and column of a syntax error.
fn say_fault<E: ByteSink>(errors: &mut E, start: LineColumn) -> Result<(), RunError>
    ensures ok { OnOk result (Appends (E.held errors.old) (E.held errors.new) (fault_line start)) }
    ensures front { AppendsFront (E.held errors.old) (E.held errors.new) (fault_line start) }
    ensures flag { E.has_failed errors.new ≡ (E.has_failed errors.old || is_err result) }
{
    write_all(errors, b"fault ")?;
    say_number(errors, start.line)?;
    write_all(errors, b":")?;
    say_number(errors, start.column)?;
    write_all(errors, b"\n")
}

/// Writes a number in decimal digits.
fn say_number<E: ByteSink>(errors: &mut E, number: usize) -> Result<(), RunError>
    ensures ok { OnOk result (Appends (E.held errors.old) (E.held errors.new) (decimal number)) }
    ensures front { AppendsFront (E.held errors.old) (E.held errors.new) (decimal number) }
    ensures flag { E.has_failed errors.new ≡ (E.has_failed errors.old || is_err result) }
{
    let mut buffer = Buffer::new();
    write_all(errors, buffer.format(number).as_bytes())
}
