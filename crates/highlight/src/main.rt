//! Writes source text with its pieces marked, as a page for a browser or with the colours of a terminal.
//!
//! `highlight html FILE` writes a page, and `highlight term FILE` writes colours. Both read standard input if no file
//! is named. The status is 0 if everything was written, even if the text has syntax errors, which are marked. It is 2
//! if the command line is wrong, if a read or a write failed, if the input isn't UTF-8 or is too long, or if memory ran
//! out. Then a line on standard error says why, unless the output has no reader any more.
#![tactic(auto)]

mod answer;
mod format;
mod marking;
mod nesting;
mod page;
mod style;
mod unread;
mod writing;

use answer::write_marked;
use format::{Format, USAGE, request_of};
use messages::{Failure, conclude, read_text, words};
use std::env;
use std::io::{BufWriter, Write};
use std::process::ExitCode;

fn main(rt: HostRuntime) -> ExitCode {
    match words(rt.alloc(), env::args(&rt), USAGE) {
        Ok(words) => respond(&rt, words.as_slice()),
        Err(failure) => conclude(rt.alloc(), "-", Err(failure), &mut rt.stderr()),
    }
}

/// Does what the command line demands, and returns the exit status.
fn respond(rt: &HostRuntime, words: &[String]) -> ExitCode {
    let (path, outcome) = match request_of(words) {
        Some((format, path)) => (path, run(rt, format, path)),
        None => ("-", Err(Failure::Usage(USAGE))),
    };
    conclude(rt.alloc(), path, outcome, &mut rt.stderr())
}

/// Writes the text at the path with its pieces marked.
fn run(rt: &HostRuntime, format: Format, path: &str) -> Result<(), Failure> {
    let text = read_text(rt, path)?;
    let mut writer = BufWriter::new(rt.alloc(), rt.stdout())?;
    write_marked(rt.alloc(), format, text.as_str(), &mut writer)?;
    Ok(writer.flush()?)
}
