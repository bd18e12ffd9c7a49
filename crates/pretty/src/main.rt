//! Prints the tokens of a source text so that people read them well.
//!
//! `pretty [--deny-comments] [FILE]` reads the file, or standard input if the file is `-` or not named. The output has
//! the tokens of the text, and reads back to them. Doc attributes become doc comments where a comment can hold them. A
//! first line `#!..` stays as it is, unless it begins an attribute.
//!
//! Plain comments are left out, and a line on standard error says how many. With `--deny-comments` nothing is written
//! for a text that has some.
//!
//! The status is 0 if the text was read and everything was written. It is 1 if the text has a syntax error or, with
//! `--deny-comments`, plain comments. It is 2 if the command line is wrong, if a read or a write failed, if the input
//! isn't UTF-8 or is too long, or if memory ran out. Then a line on standard error says why, unless the output has no
//! reader any more.
#![tactic(auto)]

mod answer;
mod comments;
mod options;
mod report;
mod script;

use answer::print_text;
use messages::{Failure, conclude, read_text, words};
use options::{Options, USAGE, options_of};
use report::{report, status};
use std::env;
use std::io::{BufWriter, Write};
use std::process::ExitCode;

fn main(rt: HostRuntime) -> ExitCode {
    match command_options(&rt) {
        Ok(options) => pretty_file(&rt, &options),
        Err(failure) => conclude(rt.alloc(), "-", Err(failure), &mut rt.stderr()),
    }
}

/// Returns the options of the command line.
fn command_options(rt: &HostRuntime) -> Result<Options, Failure> {
    let words = words(rt.alloc(), env::args(rt), USAGE)?;
    options_of(rt.alloc(), words.as_slice())
}

/// Prints the tokens of the file, reports the outcome, and returns the exit status.
fn pretty_file(rt: &HostRuntime, options: &Options) -> ExitCode {
    let outcome = print_file(rt, options);
    let path = options.path.as_str();
    let _ = report(rt.alloc(), path, options.deny, &outcome, &mut rt.stderr());
    ExitCode::from(status(options.deny, &outcome))
}

/// Prints the tokens of the file, and returns how many plain comments it has.
fn print_file(rt: &HostRuntime, options: &Options) -> Result<usize, Failure> {
    let text = read_text(rt, options.path.as_str())?;
    let mut writer = BufWriter::new(rt.alloc(), rt.stdout())?;
    let count = print_text(rt.alloc(), text.as_str(), options.deny, &mut writer)?;
    writer.flush()?;
    Ok(count)
}
