//! The error message of a program, and its exit status.
ghost use Rattle.std.specs.Prelude.{◌≡◌, ◌++◌, ℕ, List, OnOk, IfSome, codes};
ghost use Rattle.std.specs.Io.KnownBytes.{Appends};
ghost use Rattle.std.specs.Process.{exit_status};
ghost use Rattle.messages.specs.Failure.{exit_of, is_closed, status_of};
ghost use Rattle.messages.specs.Message.{at_line_column, message, of_file};

use crate::errors::Failure;
use proc_macro2::LineColumn;
use std::alloc::Global;
use std::fmt::Display;
use std::io;
use std::io::Write;
use std::process::ExitCode;

/// Writes to `errors` why a program failed, if it did, and returns its exit status. The program reads the file at this
/// path. If the message can't be written, the exit status stays the same.
pub fn conclude<E: Write>(
    alloc: Global,
    path: &str,
    outcome: Result<(), Failure>,
    errors: &mut E,
) -> ExitCode
    ensures { exit_status result ≡ status_of outcome }
{
    if let Err(failure) = &outcome {
        let _ = say(alloc, path, failure, errors);
    }
    ExitCode::from(status(&outcome))
}

/// Returns the exit status that a program's run gives. If the run failed, its reason is written to `errors` as by
/// `conclude`, with the path `-`.
pub fn exit_code<E: Write>(alloc: Global, outcome: Result<u8, Failure>, errors: &mut E) -> ExitCode
    ensures { exit_status result ≡ exit_of outcome }
{
    match outcome {
        Ok(status) => ExitCode::from(status),
        Err(failure) => conclude(alloc, "-", Err(failure), errors),
    }
}

/// Returns the exit status of a program: 0 after success, 1 after a syntax error, and 2 after any other failure.
pub fn status(outcome: &Result<(), Failure>) -> u8
    ensures { result ≡ status_of outcome.now }
{
    match outcome {
        Ok(()) => 0,
        Err(Failure::Fault(_)) => 1,
        Err(_) => 2,
    }
}

/// Writes to `errors`, in one line, why a program failed. The program reads the file at this path.
///
/// The line and column of a syntax error count from 1, and the column counts characters. For a failed read or write
/// the line has the system's reason. Nothing is written if nobody reads the output any more. For `(]` in the file
/// `a.rs` the line is `a.rs:1:2: error: no token stands here, or a delimiter has no match`.
pub fn say<E: Write>(alloc: Global, path: &str, failure: &Failure, errors: &mut E) -> io::Result<()>
    ensures { OnOk result ((reason : List ℕ) × Appends (E.contents errors.old) (E.contents errors.new)
        (message path.now reason failure.now)) }
{
    match failure {
        Failure::Usage(usage) => writeln!(errors, "usage: {usage}"),
        Failure::Fault(start) => say_at(path, *start, FAULT, errors),
        Failure::NotUtf8(byte) => writeln!(errors, "{path}: error: not UTF-8 at byte {byte}"),
        Failure::MapFull => writeln!(errors, "{path}: error: the text is too long"),
        Failure::Memory => writeln!(errors, "{path}: error: out of memory"),
        Failure::Read(error) => {
            let reason = error.to_string(alloc)?;
            writeln!(errors, "{path}: error: cannot read: {reason}")
        }
        Failure::Write(error) => {
            if is_closed(error.kind()) {
                return Ok(());
            }
            let reason = error.to_string(alloc)?;
            writeln!(errors, "standard output: error: cannot write: {reason}")
        }
    }
}

/// The message for a text's fault.
const FAULT: &str = "no token stands here, or a delimiter has no match";

/// Writes to `errors` what is wrong at this line and column of the file at this path: `FILE:L:C: error: what`. The line
/// and column in the message count from 1, and the column counts characters.
pub fn say_at<D: Display + Drop, E: Write>(
    path: &str,
    start: LineColumn,
    what: D,
    errors: &mut E,
) -> io::Result<()>
    ensures { OnOk result (IfSome (D.output what) (λ text. Appends (E.contents errors.old) (E.contents errors.new)
        (at_line_column path.now start (text ++ codes "\n")))) }
{
    let line = start.line;
    // The sum may not fit the type of the column.
    let column = start.column as u128 + 1;
    writeln!(errors, "{path}:{line}:{column}: error: {what}")
}

/// Writes to `errors` what is wrong with the file at this path: `FILE: error: what`.
pub fn say_of<D: Display + Drop, E: Write>(path: &str, what: D, errors: &mut E) -> io::Result<()>
    ensures { OnOk result (IfSome (D.output what) (λ text. Appends (E.contents errors.old) (E.contents errors.new)
        (of_file path.now (text ++ codes "\n")))) }
{
    writeln!(errors, "{path}: error: {what}")
}

/// Whether nobody reads the pipe any more.
fn is_closed(kind: io::ErrorKind) -> bool
    ensures { result ≡ is_closed kind }
{
    matches!(kind, io::ErrorKind::BrokenPipe)
}
