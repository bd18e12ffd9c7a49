//! Indents a Rust file by its delimiters, inside macros too.
//!
//! `indent [--check] [--width N | --tabs] [FILE]` reads the file, or standard input if the file is `-` or not named,
//! and writes the text with its lines indented. Each group that is open at the start of a line indents it by N columns,
//! 4 by default, or by a tab. Closers at the start of a line count as closed. White space at the ends of lines is
//! removed. A line that begins inside a literal or a comment keeps its indentation, and everything else stays as it is.
//! With `--check` only the file's name is written, and only if the text would change.
//!
//! The status is 0, or 1 if `--check` finds that the text would change. It is 2 if the command line is wrong, if the
//! text has a syntax error, isn't UTF-8 or is too long, if a read or a write failed, or if memory ran out. Then a line
//! on standard error says why.
#![tactic(auto)]

mod answer;
mod choosing;
mod options;
#[cfg(test)]
mod tests;

use answer::{is_indented, print_text};
use messages::{Failure, exit_code, read_text, say, words};
use options::{Options, USAGE, options_of};
use std::env;
use std::io::Write;
use std::process::ExitCode;

fn main(rt: HostRuntime) -> ExitCode {
    exit_code(rt.alloc(), run(&rt), &mut rt.stderr())
}

/// Does what the command line demands, and returns the exit status.
fn run(rt: &HostRuntime) -> Result<u8, Failure> {
    let words = words(rt.alloc(), env::args(rt), USAGE)?;
    let options = options_of(rt.alloc(), words.as_slice())?;
    match indent_file(rt, &options) {
        Ok(status) => Ok(status),
        Err(failure) => {
            let _ = say(
                rt.alloc(),
                options.path.as_str(),
                &failure,
                &mut rt.stderr(),
            );
            Ok(2)
        }
    }
}

/// Indents the file, or checks it, and returns the exit status.
fn indent_file(rt: &HostRuntime, options: &Options) -> Result<u8, Failure> {
    let text = read_text(rt, options.path.as_str())?;
    let mut writer = rt.stdout();
    if !options.check {
        print_text(rt.alloc(), text.as_str(), options.step, &mut writer)?;
        return Ok(0);
    }
    if is_indented(rt.alloc(), text.as_str(), options.step)? {
        return Ok(0);
    }
    writeln!(writer, "{}", options.path)?;
    Ok(1)
}
