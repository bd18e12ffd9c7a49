//! What the program writes to standard error, and its exit status.
ghost use Rattle.std.specs.Prelude.{◌≡◌, ℕ, List, OnOk};
ghost use Rattle.std.specs.Io.KnownBytes.{Appends};
ghost use Rattle.pretty.specs.Report.{messages_of, status_of};

use crate::comments::{say_denied, say_left_out};
use messages::{Failure, say};
use std::alloc::Global;
use std::io;
use std::io::Write;

/// Writes to `errors` what is said of an outcome of `print_text` for the file at this path: nothing if the text has no
/// plain comments, a line with their number if they were left out or denied, and why the program failed otherwise.
pub fn report<E: Write>(
    alloc: Global,
    path: &str,
    deny: bool,
    outcome: &Result<usize, Failure>,
    errors: &mut E,
) -> io::Result<()>
    ensures { OnOk result ((reason : List ℕ) × Appends (E.contents errors.old) (E.contents errors.new)
        (messages_of deny path.now reason outcome.now)) }
{
    match outcome {
        Ok(0) => Ok(()),
        Ok(count) if deny => say_denied(path, *count, errors),
        Ok(count) => say_left_out(*count, errors),
        Err(failure) => say(alloc, path, failure, errors),
    }
}

/// Returns the exit status after an outcome of `print_text`: 0 after success, 1 after a syntax error or if plain
/// comments were denied, and 2 after any other failure.
pub fn status(deny: bool, outcome: &Result<usize, Failure>) -> u8
    ensures { result ≡ status_of deny outcome.now }
{
    match outcome {
        Ok(count) if deny && *count > 0 => 1,
        Ok(_) => 0,
        Err(Failure::Fault(_)) => 1,
        Err(_) => 2,
    }
}
