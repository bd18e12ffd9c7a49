//! Compares the library with recorded answers of the Rust crate, from the lines of a file or of standard input, and
//! reports each difference. The exit status is 1 if there is a difference. It is 2, with a line on standard error, if
//! the arguments are wrong, a read or a write fails, the input isn't UTF-8, or memory runs out.
#![tactic(auto)]

ghost use Rattle.std.specs.Prelude.{IfOk};
ghost use Rattle.std.specs.Process.{exit_status};
ghost use Rattle.conformance.specs.Run.{IsRun};

mod answer;
mod columns;
mod contents;
mod leaves;
mod lines;
mod lists;
mod literals;
mod spans;
mod streams;
mod values;

use lines::compare_lines;
use messages::{Failure, conclude, path, read_text, words};
use std::alloc::Global;
use std::io::{BufRead, BufWriter, Write};
use std::process::ExitCode;
use std::{env, io};

const USAGE: &str = "conformance [FILE]";

fn main(rt: HostRuntime) -> ExitCode {
    match path_argument(&rt) {
        Ok(path) => match run_on(&rt, path.as_str()) {
            Ok(code) => code,
            Err(failure) => conclude(rt.alloc(), path.as_str(), Err(failure), &mut rt.stderr()),
        },
        Err(failure) => conclude(rt.alloc(), "-", Err(failure), &mut rt.stderr()),
    }
}

/// Returns the path of the file that the command line names.
fn path_argument(rt: &HostRuntime) -> Result<String, Failure> {
    let words = words(rt.alloc(), env::args(rt), USAGE)?;
    path(rt.alloc(), words.as_slice(), USAGE)
}

/// Compares the library with the answers in the file at the path.
fn run_on(rt: &HostRuntime, path: &str) -> Result<ExitCode, Failure> {
    let text = read_text(rt, path)?;
    let mut writer = BufWriter::new(rt.alloc(), rt.stdout())?;
    Ok(run(rt.alloc(), text.as_bytes(), &mut writer)?)
}

/// Compares the library with the answers on the reader's lines. Writes what differs, and then both numbers.
fn run<R: BufRead + Drop, W: Write>(
    alloc: Global,
    reader: R,
    writer: &mut W,
) -> io::Result<ExitCode>
    ensures { IfOk result (λ code. IsRun (R.remaining reader) (exit_status code)
        (W.contents writer.old) (W.contents writer.new)) }
{
    let tally = compare_lines(alloc, reader, writer)?;
    writeln!(
        writer,
        "{} answers, {} differences",
        tally.answers, tally.differences
    )?;
    writer.flush()?;
    Ok(if tally.differences == 0 {
        ExitCode::SUCCESS
    } else {
        ExitCode::FAILURE
    })
}
