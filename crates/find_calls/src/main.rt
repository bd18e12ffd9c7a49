//! Finds the calls of a function or a macro by its name, in source texts.
//!
//! `find_calls NAME [FILE..]` writes a line `FILE:L:C` for each call, in reading order: where an identifier of this
//! name stands right before a group in parentheses, before `!` and a group, or before a turbofish (`::<`, and all up to
//! its `>`) and a group in parentheses, and not right after `fn`. So names in comments and literals are none. A tuple
//! struct, a variant and their patterns look like calls, and are found too. The name is written without `r#`, and found
//! with it too.
//!
//! Standard input is the file `-`, and is searched where no file is named. Lines and columns count from 1, columns in
//! characters. A text in which the name doesn't stand has no calls, and its tokens aren't looked at. The status is 0
//! where a call was found, 1 where none was, and 2 where the words ask for nothing, a text has a fault, a read or a
//! write failed, a text isn't UTF-8 or is too long, or memory ran out. A line on standard error says why; the other
//! files are still searched, unless it was a write that failed.
#![tactic(auto)]

mod answer;
mod calls;

use answer::{print_calls, status};
use messages::{Failure, exit_code, read_text, say, words};
use std::env;
use std::io::{BufWriter, Write};
use std::process::ExitCode;

const USAGE: &str = "find_calls NAME [FILE..]";

fn main(rt: HostRuntime) -> ExitCode {
    exit_code(rt.alloc(), run(&rt), &mut rt.stderr())
}

/// Searches what the words after the program's name ask for, and answers the status.
fn run(rt: &HostRuntime) -> Result<u8, Failure> {
    let mut words = words(rt.alloc(), env::args(rt), USAGE)?;
    if words.len() == 1 && words.push(String::from_str(rt.alloc(), "-")?).is_err() {
        return Err(Failure::Memory);
    }
    let Some((name, paths)) = words.as_slice().split_first() else {
        return Err(Failure::Usage(USAGE));
    };
    let mut writer = BufWriter::new(rt.alloc(), rt.stdout())?;
    let (mut found, mut failed) = (false, false);
    for path in paths {
        match search(rt, name.as_str(), path.as_str(), &mut writer) {
            Ok(any) => found = found || any,
            Err(Failure::Write(error)) => return Err(Failure::Write(error)),
            Err(failure) => {
                failed = true;
                let _ = say(rt.alloc(), path.as_str(), &failure, &mut rt.stderr());
            }
        }
    }
    writer.flush()?;
    Ok(status(found, failed))
}

/// Writes the calls in the text at the path, and answers whether there are any.
fn search<W: Write>(rt: &HostRuntime, name: &str, path: &str, to: &mut W) -> Result<bool, Failure> {
    print_calls(rt.alloc(), path, name, read_text(rt, path)?.as_str(), to)
}
