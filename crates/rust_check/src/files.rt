//! Checks files one after the other.
ghost use Rattle.std.specs.Prelude.{◌≡◌, ℕ, List, IfOk, map, string_bytes};
ghost use Rattle.rust_check.specs.Answer.{TellsAll};
ghost use Rattle.rust_check.specs.Files.{AllReport, Outcome, all_counted, nothing};
ghost use Rattle.rust_check.specs.Options.{form_of};

use crate::answer::check_all;
use crate::options::Options;
use crate::tally::Tally;
use messages::{Failure, read_text, say};
use std::alloc::Global;
use std::io::Write;

/// Checks the files that the options name, one after the other, and writes what is found in them. If a file can't be
/// read, isn't UTF-8 or is too long, a message goes to `errors`, and the other files are still checked.
///
/// Returns an error if a write to `writer` fails.
pub fn check_files<W: Write, E: Write>(
    rt: &HostRuntime,
    options: &Options,
    writer: &mut W,
    errors: &mut E,
) -> Result<Tally, Failure>
    ensures { IfOk result (λ tally. (outcomes : List Outcome)
        × AllReport (form_of options.now) options.now.hidden (map string_bytes options.now.paths.items) outcomes
        (W.contents writer.old) (W.contents writer.new)
        × (tally ≡ all_counted nothing outcomes)) }
{
    let mut tally = Tally::new();
    for path in options.paths.as_slice() {
        let outcome = unless_writing_failed(check_file(rt, options, path.as_str(), writer))?;
        say_unread(rt.alloc(), path.as_str(), &outcome, errors);
        tally = tally.with(&outcome);
    }
    Ok(tally)
}

/// Checks the file at this path, and returns whether its text has an error.
fn check_file<W: Write>(
    rt: &HostRuntime,
    options: &Options,
    path: &str,
    writer: &mut W,
) -> Result<bool, Failure>
    ensures { IfOk result (λ faulty. (text : List ℕ)
        × TellsAll (form_of options.now) options.now.hidden path.now text (W.contents writer.old)
        (W.contents writer.new) faulty) }
{
    let text = read_text(rt, path)?;
    check_all(
        rt.alloc(),
        options.shown_form(),
        options.hidden,
        path,
        text.as_str(),
        writer,
    )
}

/// Returns the outcome, unless it is that a write failed: this becomes the error.
fn unless_writing_failed(outcome: Result<bool, Failure>) -> Result<Result<bool, Failure>, Failure>
    ensures { IfOk result (λ same. same ≡ outcome) }
{
    match outcome {
        Err(Failure::Write(error)) => Err(Failure::Write(error)),
        outcome => Ok(outcome),
    }
}

/// Writes why the file at this path was not read. Nothing else changes if this message cannot be written.
fn say_unread<E: Write>(
    alloc: Global,
    path: &str,
    outcome: &Result<bool, Failure>,
    errors: &mut E,
) {
    if let Err(failure) = outcome {
        let _ = say(alloc, path, failure, errors);
    }
}
