//! Prints the doc comments of a source text. Each has its line and column and the literal of its text, and after it the
//! keyword and the name of the item that it documents.
//!
//! `list_docs FILE` reads the file, and `list_docs` reads standard input. Lines count from 1, and columns count
//! characters from 0. The status is 0 if the text was read and everything was written, and 1 if the text has a syntax
//! error. It is 2 if the command line is wrong, if a read or a write failed, if the input isn't UTF-8 or is too long,
//! or if memory ran out. Then a line on standard error says why, unless the output has no reader any more.
#![tactic(auto)]

mod answer;
mod doc;
mod item;

use answer::print_text;
use messages::{Failure, conclude, path, read_text, words};
use std::env;
use std::io::{BufWriter, Write};
use std::process::ExitCode;

const USAGE: &str = "list_docs [FILE]";

fn main(rt: HostRuntime) -> ExitCode {
    match path_argument(&rt) {
        Ok(path) => {
            let outcome = run(&rt, path.as_str());
            conclude(rt.alloc(), path.as_str(), outcome, &mut rt.stderr())
        }
        Err(failure) => conclude(rt.alloc(), "-", Err(failure), &mut rt.stderr()),
    }
}

/// Returns the path of the file that the command line names.
fn path_argument(rt: &HostRuntime) -> Result<String, Failure> {
    let words = words(rt.alloc(), env::args(rt), USAGE)?;
    path(rt.alloc(), words.as_slice(), USAGE)
}

/// Prints the doc comments of the text at the path.
fn run(rt: &HostRuntime, path: &str) -> Result<(), Failure> {
    let text = read_text(rt, path)?;
    let mut writer = BufWriter::new(rt.alloc(), rt.stdout())?;
    print_text(rt.alloc(), text.as_str(), &mut writer)?;
    Ok(writer.flush()?)
}
