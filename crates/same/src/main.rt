//! Says whether two files have the same tokens and, with `--comments`, the same comments too.
//!
//! `same [--comments] A B` compares two files, where `-` is standard input. If they are the same it writes nothing.
//! Otherwise it writes where the first token or comment that differs is in both files: `A:L:C: differs from B:L:C`.
//! Lines and columns count from 1, and columns are characters. White space isn't compared. Without `--comments` a doc
//! comment counts as the attribute that it is read as.
//!
//! The status is 0 if the files are the same and 1 if they differ. It is 2 if the command line is wrong, if a text has
//! a syntax error, isn't UTF-8 or is too long, if a read or a write failed, or if memory ran out. Then a line on
//! standard error says why.
#![tactic(auto)]

mod answer;
mod comparing;
mod place;
mod source_word;
mod words;

use answer::{Source, check_text, compare};
use messages::{Failure, exit_code, read_text, say, words};
use std::env;
use std::process::ExitCode;

const USAGE: &str = "same [--comments] A B";

fn main(rt: HostRuntime) -> ExitCode {
    exit_code(rt.alloc(), run(&rt), &mut rt.stderr())
}

/// Compares the files that the command line names, and returns the exit status.
fn run(rt: &HostRuntime) -> Result<u8, Failure> {
    let words = words(rt.alloc(), env::args(rt), USAGE)?;
    match words.as_slice() {
        [first, second] if first.as_str() != "--comments" => {
            compare_files(rt, false, first.as_str(), second.as_str())
        }
        [option, first, second] if option.as_str() == "--comments" => {
            compare_files(rt, true, first.as_str(), second.as_str())
        }
        _ => Err(Failure::Usage(USAGE)),
    }
}

/// Compares the files at these paths, and returns the exit status.
fn compare_files(
    rt: &HostRuntime,
    comments: bool,
    first: &str,
    second: &str,
) -> Result<u8, Failure> {
    let Some(one) = text_at(rt, first) else {
        return Ok(2);
    };
    let Some(other) = text_at(rt, second) else {
        return Ok(2);
    };
    let one = Source {
        path: first,
        text: one.as_str(),
    };
    let other = Source {
        path: second,
        text: other.as_str(),
    };
    if compare(rt.alloc(), comments, one, other, &mut rt.stdout())? {
        Ok(0)
    } else {
        Ok(1)
    }
}

/// Returns the text of the file at this path. If it cannot be read or has a syntax error, it writes why to standard
/// error.
fn text_at(rt: &HostRuntime, path: &str) -> Option<String> {
    match checked_text(rt, path) {
        Ok(text) => Some(text),
        Err(failure) => {
            let _ = say(rt.alloc(), path, &failure, &mut rt.stderr());
            None
        }
    }
}

/// Returns the text of the file at this path, if it has no syntax error.
fn checked_text(rt: &HostRuntime, path: &str) -> Result<String, Failure> {
    let text = read_text(rt, path)?;
    check_text(rt.alloc(), text.as_str())?;
    Ok(text)
}
