//! Writes the tokens of a text so that people read them well.
ghost use Rattle.std.specs.Prelude.{◌≡◌, IfErr, IfOk, List, OnOk, ℕ, string_bytes};
ghost use Rattle.std.specs.Str.{chars};
ghost use Rattle.messages.specs.Parsed.{MayFail};
ghost use Rattle.messages.specs.declared.errors.Failure.TheVariants.{Memory};
ghost use Rattle.proc_macro2.specs.WellSpaced.{IsWellSpaced};
ghost use Rattle.pretty.specs.Answer.{IsPretty, Writes, WritesPretty};
ghost use Rattle.pretty.specs.Script.{code_of};

use crate::comments::count_comments;
use crate::script::{split_script, with_line};
use messages::Failure;
use pretty_printer::to_pretty_string;
use proc_macro2::{SourceMap, TokenStream};
use quoting::QuoteError;
use relayout::{RelayoutError, with_any_doc_comments};
use std::alloc::Global;
use std::io::Write;

/// Writes the tokens of the text, in a layout that reads back to them, up to the spelling of doc literals. Doc comments
/// replace the doc attributes whose texts they can hold. The line `#!..` at the start of a script comes first.
///
/// Returns how many plain comments the text has, which are left out. If it has some and `deny` is true, nothing is
/// written.
///
/// Returns `Fault`, which has line and column, `MapFull` or `Memory` before anything is written. Returns `Write` if a
/// write fails: a prefix of the text may have been written then.
pub fn print_text<W: Write>(
    alloc: Global,
    text: &str,
    deny: bool,
    writer: &mut W,
) -> Result<usize, Failure>
    ensures ok { IfOk result (λ count.
        Writes deny (chars text.now) count (W.contents writer.old) (W.contents writer.new)) }
    ensures err { IfErr result (MayFail (code_of (chars text.now)) (W.contents writer.old) (W.contents writer.new)) }
{
    let (line, code) = split_script(text);
    let mut map = SourceMap::new(alloc);
    match TokenStream::from_str(code, &mut map) {
        Ok(stream) => {
            let count = count_comments(code);
            if deny && 0 < count {
                return Ok(count);
            }
            match print_stream(alloc, line, &stream, writer) {
                Ok(()) => Ok(count),
                Err(failure) => Err(failure),
            }
        }
        Err(error) => Err(Failure::parse_failure(error, &map)),
    }
}

/// Writes a well-spaced stream after the first line of a script, if there is one.
fn print_stream<W: Write>(
    alloc: Global,
    line: &str,
    stream: &TokenStream,
    writer: &mut W,
) -> Result<(), Failure>
    requires { IsWellSpaced stream.now }
    ensures ok { OnOk result
        (WritesPretty (chars line.now) stream.now (W.contents writer.old) (W.contents writer.new)) }
    ensures err { IfErr result (λ failure. (text : List ℕ)
        → MayFail text (W.contents writer.old) (W.contents writer.new) failure) }
{
    let pretty = pretty_text(alloc, stream)?;
    let whole = with_line(alloc, line, pretty)?;
    writer.write_all(whole.as_str().as_bytes())?;
    Ok(())
}

/// Returns the pretty text of a well-spaced stream. The only error is that memory runs out.
fn pretty_text(alloc: Global, stream: &TokenStream) -> Result<String, Failure>
    requires { IsWellSpaced stream.now }
    ensures ok { IfOk result (λ text. IsPretty stream.now (chars (string_bytes text))) }
    ensures err { IfErr result (λ failure. failure ≡ Memory) }
{
    let pretty = match to_pretty_string(alloc, stream) {
        Ok(pretty) => pretty,
        Err(QuoteError::Memory(_)) => return Err(Failure::Memory),
        Err(QuoteError::NoneGroup | QuoteError::LoneQuote) => unreachable!(),
    };
    match with_any_doc_comments(alloc, pretty.as_str()) {
        Ok(text) => Ok(text),
        Err(RelayoutError::Memory(_)) => Err(Failure::Memory),
        Err(RelayoutError::NoPiece) => unreachable!(),
    }
}
