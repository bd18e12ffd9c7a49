//! The command line: which run it demands, which message the run leaves, and the exit status.
ghost use Rattle.std.specs.Prelude.{◌≡◌, map, Result, Err, OnErr, IfOk, IfNone, IfSome, alloc_error, string_bytes};
ghost use Rattle.tokens.specs.Command.{mode_named, mode_of, usage, message, status};
ghost use Rattle.tokens.specs.Known.{Says};
ghost use Rattle.tokens.specs.Run.{Runs, seen_by};
ghost use Rattle.tokens.specs.declared.errors.RunError.{RunError};

use crate::engine::run;
use crate::errors::RunError;
use crate::messages::{say, say_usage};
use crate::mode::OutputMode;
use crate::sinks::ByteSink;
use crate::sources::ByteSource;
use std::alloc::{AllocError, Global};

#[cfg(test)]
mod tests;

/// Does the run that the words demand, writes to `errors` why it failed, and returns the exit status.
///
/// The known words are `print` and `spans`, and there must be exactly one. The status is 0 if everything was written
/// and 1 if the input has a syntax error. It is 2 if the words are wrong, if a read or a write failed, if the input
/// isn't UTF-8 or is too long, or if memory ran out. After each failure a line on `errors` says what happened. The
/// status stays the same if that line cannot be written.
///
/// If there was no memory for the words, nothing is read, and nothing but that line is written.
pub fn command<R: ByteSource, W: ByteSink, E: ByteSink>(
    alloc: Global,
    words: Result<Vec<String>, AllocError>,
    reader: &mut R,
    writer: &mut W,
    errors: &mut E,
) -> u8
    ensures usage { IfOk words (λ list. IfNone (mode_of (map string_bytes list.items))
        ((result ≡ 2) × (reader.new ≡ reader.old) × (writer.new ≡ writer.old)
        × Says (E.held errors.old) (E.held errors.new) (E.has_failed errors.new) usage)) }
    ensures runs { IfOk words (λ list. IfSome (mode_of (map string_bytes list.items)) (λ mode.
        let seen = seen_by R.left R.has_failed W.held W.has_failed in
        (answer : Result Unit RunError)
        × Runs mode (seen reader.old writer.old) answer (seen reader.new writer.new)
        × (result ≡ status answer)
        × Says (E.held errors.old) (E.held errors.new) (E.has_failed errors.new)
        (message answer))) }
    ensures memory { OnErr words ((result ≡ 2)
        × (reader.new ≡ reader.old) × (writer.new ≡ writer.old)
        × Says (E.held errors.old) (E.held errors.new) (E.has_failed errors.new)
        (message (Err (RunError.Memory alloc_error)))) }
{
    let words = match words {
        Ok(words) => words,
        Err(error) => return conclude(Err(RunError::Memory(error)), errors),
    };
    let Some(mode) = mode_of(words.as_slice()) else {
        say_usage(errors);
        return 2;
    };
    conclude(run(alloc, mode, reader, writer), errors)
}

/// Writes to `errors` why a run failed, if it did, and returns the exit status after it.
fn conclude<E: ByteSink>(answer: Result<(), RunError>, errors: &mut E) -> u8
    ensures status { result ≡ status answer }
    ensures says { Says (E.held errors.old) (E.held errors.new) (E.has_failed errors.new)
        (message answer) }
{
    say(errors, &answer);
    status(&answer)
}

/// Returns the mode that the words demand, if they are one known word.
fn mode_of(words: &[String]) -> Option<OutputMode>
    ensures { result ≡ mode_of (map string_bytes words.now) }
{
    match words {
        [word] => mode_named(word.as_str()),
        _ => None,
    }
}

/// Returns the mode of that name, if there is one.
fn mode_named(word: &str) -> Option<OutputMode>
    ensures { result ≡ mode_named word.now }
{
    match word {
        "print" => Some(OutputMode::Print),
        "spans" => Some(OutputMode::Spans),
        _ => None,
    }
}

/// Returns the exit status after a run.
fn status(answer: &Result<(), RunError>) -> u8
    ensures { result ≡ status answer.now }
{
    match answer {
        Ok(()) => 0,
        Err(RunError::Lex(_)) => 1,
        Err(RunError::Io | RunError::NotUtf8 | RunError::MapFull | RunError::Memory(_)) => 2,
    }
}
