//! What the program writes for a text, and its status.
ghost use Rattle.std.specs.Prelude.{◌≡◌, IfErr, IfOk, List, OnOk, ℕ};
ghost use Rattle.std.specs.Io.KnownBytes.{Appends};
ghost use Rattle.std.specs.List.{AllByRecursion as Each};
ghost use Rattle.pm_span.specs.Files.{Holds};
ghost use Rattle.find_calls.specs.Answer.{MayFail, StartsIn, Writes, lines, status_of};

use crate::calls::calls;
use memchr::memmem;
use messages::Failure;
use pm_span::Span;
use pm_span::parts::{add_file, fits};
use proc_macro2::SourceMap;
use std::alloc::Global;
use std::io;
use std::io::Write;
use token_buffer::{BufferError, TokenBuffer};

/// Writes a line `PATH:L:C` for each call of this name in the text, in reading order, and answers whether there are
/// any. A text in which the name's bytes don't stand has none.
///
/// Fails with `Fault`, which has line and column, and `MapFull` before anything is written, and with `Memory` and
/// `Write`; then a beginning of the lines stands. Of ` f(1)` at the path `a.rs` and the name `f` the line is
/// `a.rs:1:2`.
pub fn print_calls<W: Write>(
    alloc: Global,
    path: &str,
    name: &str,
    text: &str,
    writer: &mut W,
) -> Result<bool, Failure>
    ensures ok { IfOk result (Writes path.now name.now text.now (W.contents writer.old) (W.contents writer.new)) }
    ensures err { IfErr result (MayFail text.now (W.contents writer.old) (W.contents writer.new)) }
{
    if memmem::find(text.as_bytes(), name.as_bytes()).is_none() {
        return Ok(false);
    }
    let mut map = SourceMap::new(alloc);
    if fits(&map, text).is_none() {
        return Err(Failure::MapFull);
    }
    add_file(&mut map, text)?;
    let buffer = match TokenBuffer::new(alloc, text) {
        Ok(buffer) => buffer,
        Err(BufferError::TooLong) => return Err(Failure::MapFull),
        Err(BufferError::Parse(error)) => return Err(Failure::parse_failure(error, &map)),
    };
    let spans = calls(alloc, name, buffer.begin())?;
    print_lines(path, spans.as_slice(), &map, writer)?;
    Ok(!spans.is_empty())
}

/// Writes the lines of calls whose names have these spans, which the map holds.
fn print_lines<W: Write>(path: &str, spans: &[Span], map: &SourceMap, to: &mut W) -> io::Result<()>
    requires { Each (Holds map.now) spans.now }
    ensures { OnOk result ((text : List ℕ) → Each (StartsIn map.now text) spans.now
        → Appends (W.contents to.old) (W.contents to.new) (lines path.now text spans.now)) }
{
    for span in spans {
        let start = span.start(map);
        // As wide as the sum needs.
        let column = start.column as u128 + 1;
        writeln!(to, "{path}:{}:{column}", start.line)?;
    }
    Ok(())
}

/// The status of the program: 2 where a file failed, else 0 where a call was found, and 1 where none was.
pub fn status(found: bool, failed: bool) -> u8
    ensures { result ≡ status_of found failed }
{
    if failed { 2 } else { u8::from(!found) }
}
