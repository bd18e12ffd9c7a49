//! Writes getters for the structs of a file. For each struct with named fields it writes one line with an `impl`, in
//! which each field has a method of its name that returns a reference to it. Fields with the attribute
//! `#[getter(skip)]` have none.
//!
//! The code is a template that is filled and then printed. `write_getters FILE` reads the file, and `write_getters`
//! reads standard input. The status is 0 if the text was read and everything was written, and 1 if the text has a
//! syntax error. It is 2 if the command line is wrong, if a read or a write failed, if the input isn't UTF-8 or is too
//! long, if memory ran out, or if the code can't be written. Then a line on standard error says why, unless the output
//! has no reader any more.
#![tactic(auto)]

mod answer;
mod copies;
mod errors;
mod fields;
mod getters;
mod parameters;
mod templates;

use answer::print_getters;
use errors::{FoundFault, WriteError};
use messages::{Failure, conclude, path, read_text, say_at, say_of, words};
use std::env;
use std::io::{self, BufWriter, Write};
use std::process::ExitCode;

const USAGE: &str = "write_getters [FILE]";

fn main(rt: HostRuntime) -> ExitCode {
    match path_argument(&rt) {
        Ok(path) => run(&rt, path.as_str()),
        Err(failure) => conclude(rt.alloc(), "-", Err(failure), &mut rt.stderr()),
    }
}

/// Returns the path of the file that the command line names.
fn path_argument(rt: &HostRuntime) -> Result<String, Failure> {
    let words = words(rt.alloc(), env::args(rt), USAGE)?;
    path(rt.alloc(), words.as_slice(), USAGE)
}

/// Writes the getters for the text at the path, or writes to standard error why it cannot.
fn run(rt: &HostRuntime, path: &str) -> ExitCode {
    let (print_result, status) = match write_text(rt, path) {
        Ok(()) => return ExitCode::SUCCESS,
        Err(WriteError::Failed(failure)) => {
            return conclude(rt.alloc(), path, Err(failure), &mut rt.stderr());
        }
        Err(WriteError::Declared(found)) => (say_fault(path, found, &mut rt.stderr()), 1),
        Err(WriteError::Identifier(error)) => (say_of(path, &error, &mut rt.stderr()), 2),
        Err(WriteError::Template(error)) => (say_of(path, &error, &mut rt.stderr()), 2),
        Err(WriteError::Quote(error)) => (say_of(path, &error, &mut rt.stderr()), 2),
    };
    // The status stays the same if the message cannot be written.
    let _ = print_result;
    ExitCode::from(status)
}

/// Writes the getters for the text at the path.
fn write_text(rt: &HostRuntime, path: &str) -> Result<(), WriteError> {
    let text = read_text(rt, path)?;
    let mut writer = BufWriter::new(rt.alloc(), rt.stdout())?;
    print_getters(rt.alloc(), text.as_str(), &mut writer)?;
    Ok(writer.flush()?)
}

/// Writes what is wrong with a declaration and, if it is known, where.
fn say_fault<E: Write>(path: &str, found: FoundFault, errors: &mut E) -> io::Result<()> {
    match found.start {
        Some(start) => say_at(path, start, found.fault, errors),
        None => say_of(path, &found.fault, errors),
    }
}
