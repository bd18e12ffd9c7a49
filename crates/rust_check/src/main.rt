//! Says why Rust files don't parse. Each syntax error is written with its reason, where it is, and its line of the
//! source.
//!
//! `rust_check FILE..` reads the files, and standard input for `-` or if no file is named. The status is 0 if all texts
//! parse and 1 if one has an error. It is 2 if the command line is wrong, if a read or a write failed, if a text isn't
//! UTF-8 or is too long, or if memory ran out. Then a line on standard error says why, unless the output has no reader
//! any more.
#![tactic(auto)]

mod answer;
mod colours;
mod ends;
mod files;
mod finding;
mod hidden;
mod name_forms;
mod names;
mod options;
mod report;
mod shown;
mod tally;
mod text_position;
mod turns;
mod writing;

use files::check_files;
use messages::{Failure, exit_code, words};
use options::{Form, Options, Request, USAGE, request_of};
use std::env;
use std::io::{BufWriter, Write};
use std::process::ExitCode;

fn main(rt: HostRuntime) -> ExitCode {
    exit_code(rt.alloc(), run(&rt), &mut rt.stderr())
}

/// Does what the command line demands, and returns the exit status.
fn run(rt: &HostRuntime) -> Result<u8, Failure> {
    let words = words(rt.alloc(), env::args(rt), USAGE)?;
    match request_of(rt.alloc(), words.as_slice())? {
        Request::Check(options) => check(rt, &options),
        Request::Help => print(rt, HELP),
        Request::Version => print(rt, VERSION),
    }
}

/// Checks the files, and returns the exit status.
fn check(rt: &HostRuntime, options: &Options) -> Result<u8, Failure> {
    let mut writer = BufWriter::new(rt.alloc(), rt.stdout())?;
    let paths = options.paths.as_slice();
    let tally = check_files(rt, options, &mut writer, &mut rt.stderr())?;
    if options.form == Form::Long && paths.len() > 1 {
        tally.write_summary(paths.len(), &mut writer)?;
    }
    writer.flush()?;
    Ok(tally.status())
}

/// Writes a text to standard output, and returns the exit status 0.
fn print(rt: &HostRuntime, text: &str) -> Result<u8, Failure> {
    let mut writer = rt.stdout();
    write!(writer, "{text}")?;
    Ok(0)
}

const VERSION: &str = "rust_check 1.0.0\n";

const HELP: &str = "Tells why Rust files don't parse.

usage: rust_check [--short|--json] [--hidden] [--color=always|never] [FILE..]

  FILE            a file, or - for standard input, which is read where there is no file
  --short         each fault in one line: FILE:L:C: error: what
  --json          each fault as an object of JSON on a line
  --hidden        tells hidden text too: controls of direction, characters that nobody sees, odd line ends
  --color=always  sets a terminal's colours; --color=never, as is usual, doesn't
  --version       writes the version

The status is 0 where all texts parse, 1 where one has a fault, and 2 where a file is not read.
";
