//! A run, which goes from the bytes of a source to the bytes of a sink.
ghost use Rattle.std.specs.Prelude.{◌≡◌, ◌≢◌, ◌↔◌, IfOk, IsFalse, alloc_error, length};
ghost use Rattle.std.specs.Str.{IsUtf8, chars};
ghost use Rattle.proc_macro2.specs.declared.LineColumn.{LineColumn};
ghost use Rattle.proc_macro2.specs.Files.{Fits, Holds, new_map, next_lo};
ghost use Rattle.proc_macro2.specs.Forest.{Forest};
ghost use Rattle.proc_macro2.specs.Lookup.{StartsAt};
ghost use Rattle.proc_macro2.specs.Outcome.{IfLex};
ghost use Rattle.proc_macro2.specs.Parsing.{ParsesTo, ReportsFault};
ghost use Rattle.tokens.specs.Answer.{is_io};
ghost use Rattle.tokens.specs.Output.{IsOutput, IsOutputOf, IsReadable, IsTooLong, HasFaultAt, output_bytes};
ghost use Rattle.tokens.specs.Run.{Runs, seen_by};

use crate::errors::RunError;
use crate::mode::OutputMode;
use crate::output::{RunOutput, write_output};
use crate::reading::read_to_end;
use crate::sinks::ByteSink;
use crate::sources::ByteSource;
use proc_macro2::{ParseError, SourceMap, TokenStream, place_trees, reprint};
use std::alloc::Global;

/// Reads source text to its end, and writes its tokens in the form that `mode` says.
///
/// The whole output is computed, and all memory allocated, before the first byte is written. Returns `Io` if a read
/// failed, after which nothing is written, or if a write failed or took no bytes, after which a prefix of the output is
/// written. Every other error comes before anything is written. `NotUtf8`, `MapFull` and `Lex`, which has the line and
/// column of the syntax error, are about the whole input. `Memory` means that memory ran out.
///
/// Example: for `a+b`, `Print` writes `a + b` and a line feed, and `Spans` writes the lines `1:0-1:1 ident`,
/// `1:1-1:2 punct` and `1:2-1:3 ident`. For `(]` the error is `Lex` at line 1, column 1.
pub fn run<R: ByteSource, W: ByteSink>(
    alloc: Global,
    mode: OutputMode,
    reader: &mut R,
    writer: &mut W,
) -> Result<(), RunError>
    ensures { let seen = seen_by R.left R.has_failed W.held W.has_failed in
        Runs mode (seen reader.old writer.old) result (seen reader.new writer.new) }
{
    let input = read_to_end(alloc, reader)?;
    let output = output_of(alloc, mode, input)?;
    write_output(writer, &output)
}

/// Returns what is to be written for the input.
fn output_of(alloc: Global, mode: OutputMode, input: Vec<u8>) -> Result<RunOutput, RunError>
    ensures ok { IfOk result (λ output. IsOutput mode input.items (output_bytes output)) }
    ensures io { IsFalse (is_io result) }
    ensures not_utf8 { (result ≡ Err RunError.NotUtf8) ↔ (¬ IsUtf8 input.items) }
    ensures map_full { (result ≡ Err RunError.MapFull) ↔ IsTooLong input.items }
    ensures lex { (start : LineColumn) → result ≡ Err (RunError.Lex start)
        → HasFaultAt input.items start }

    // A contract cannot say that an allocation failed, only for which inputs one may be tried.
    ensures memory { result ≡ Err (RunError.Memory alloc_error) → IsReadable input.items }
{
    let Ok(text) = String::from_utf8(input) else {
        return Err(RunError::NotUtf8);
    };
    match output_of_text(alloc, mode, text.as_str()) {
        Ok(output) => Ok(output),
        // Only an error needs its line and column, so only now is the text parsed into a map.
        Err(ParseError::Lex(_)) => Err(refusal_of(alloc, text.as_str())),
        Err(ParseError::MapFull) => Err(RunError::MapFull),
        Err(ParseError::Memory(error)) => Err(RunError::Memory(error)),
    }
}

/// Returns what is to be written for the text: its printed tokens and a line feed, or the trees, each of which makes a
/// line.
fn output_of_text(alloc: Global, mode: OutputMode, text: &str) -> Result<RunOutput, ParseError>
    ensures ok { IfOk result (IsOutputOf mode (chars text.now)) }
    ensures fault { ReportsFault IfLex (next_lo new_map) (chars text.now) result }
    ensures map_full { (result ≡ Err ParseError.MapFull)
        ↔ (Fits new_map (length (chars text.now)) → ⊥) }
{
    match mode {
        OutputMode::Print => {
            let mut printed = reprint(alloc, text)?;
            printed.push_str("\n")?;
            Ok(RunOutput::Text(printed))
        }
        OutputMode::Spans => Ok(RunOutput::Trees(place_trees(alloc, text)?)),
    }
}

/// Returns the error of a run whose text doesn't parse. To get the line and column of the syntax error, it parses the
/// text again into a map, for which the text may be too long or memory may run out.
fn refusal_of(alloc: Global, text: &str) -> RunError
    requires { (stream : Forest) → ParsesTo (next_lo new_map) (chars text.now) stream → ⊥ }
    ensures lex { (start : LineColumn) → result ≡ RunError.Lex start → HasFaultAt text.now start }
    ensures map_full { (result ≡ RunError.MapFull) ↔ (Fits new_map (length (chars text.now)) → ⊥) }
    ensures others { (result ≢ RunError.Io) × (result ≢ RunError.NotUtf8) }
{
    let mut map = SourceMap::new(alloc);
    match TokenStream::from_str(text, &mut map) {
        Ok(_) => unreachable!(),
        Err(error) => refusal(error, &map),
    }
}

/// Returns the error of a run whose text could not be parsed into the map.
fn refusal(error: ParseError, map: &SourceMap) -> RunError
    requires { IfLex error (Holds map.now) }
    ensures lex { IfLex error (λ fault. (start : LineColumn)
        × (result ≡ RunError.Lex start) × StartsAt map.now fault start) }
    ensures map_full { (result ≡ RunError.MapFull) ↔ (error ≡ ParseError.MapFull) }
    ensures memory { (result ≡ RunError.Memory alloc_error)
        ↔ (error ≡ ParseError.Memory alloc_error) }
{
    match error {
        ParseError::Lex(error) => RunError::Lex(error.span().start(map)),
        ParseError::MapFull => RunError::MapFull,
        ParseError::Memory(error) => RunError::Memory(error),
    }
}
