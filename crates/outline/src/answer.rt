//! The lines that the program writes for a text.
ghost use Rattle.std.specs.Prelude.{◌≡◌, ℕ, IfErr, IfOk, List, None, is_some, map as mapped, option_map};
ghost use Rattle.std.specs.Prelude.{string_bytes};
ghost use Rattle.std.specs.Str.{chars};
ghost use Rattle.pm_span.specs.Files.{new_map, with_file};
ghost use Rattle.pm_token.specs.Spelling.{spelling};
ghost use Rattle.messages.specs.Parsed.{MayFail};
ghost use Rattle.outline.specs.Answer.{IsUnlisted, Lists, lines_of, place_in, shown_line, through};
ghost use Rattle.outline.specs.Line.{line_of, line_of_value as seen_line};
ghost use Rattle.outline.specs.Outline.{first_of, last_of, entry_of_value};

use crate::entries::{Entry, Stop, entries, first_of, last_of};
use crate::levels::lines_in;
use crate::lines::{Shown, line_of};
use crate::names::one_line;
use crate::options::Form;
use declarations::Fault;
use messages::Failure;
use pm_span::Span;
use pm_span::parts::{add_file, fits};
use pm_token::Ident;
use proc_macro2::{LineColumn, SourceMap, TokenStream};
use std::alloc::{AllocError, Global};
use token_buffer::{BufferError, TokenBuffer};

/// An error: where a file has something that is no item.
#[derive(Clone, Copy)]
pub struct Unlisted {
    /// The line and the column of the error.
    pub start: LineColumn,
    /// The error in the trees.
    pub fault: Fault,
}

/// Returns the lines of the declarations in the text, in reading order. `path` is the path of the file.
///
/// If the text parses but its trees are no items, it returns `Unlisted`. Fails with `Fault` if the text does not parse,
/// with `MapFull` if it is too long, and with `Memory`.
pub fn lines_of(
    alloc: Global,
    form: Form,
    path: &str,
    text: &str,
) -> Result<Result<Vec<String>, Unlisted>, Failure>
    ensures ok { IfOk result (λ found. IfOk found (λ lines.
        Lists form path.now (chars text.now) (mapped string_bytes lines.items))) }
    ensures none { IfOk result (λ found. IfErr found (λ unlisted. IsUnlisted (chars text.now))) }
    ensures err { IfErr result (MayFail (chars text.now) None None) }
{
    let map = map_of(alloc, text)?;
    let buffer = match TokenBuffer::new(alloc, text) {
        Ok(buffer) => buffer,
        Err(BufferError::Parse(error)) => return Err(Failure::parse_failure(error, &map)),
        Err(BufferError::TooLong) => return lines_by_trees(alloc, form, path, text),
    };
    match lines_in(alloc, form, path, &map, buffer.begin())? {
        Ok(lines) => Ok(Ok(lines)),
        Err(stop) => Ok(Err(stop.at_position(&map))),
    }
}

/// A source map that has only this text.
fn map_of(alloc: Global, text: &str) -> Result<SourceMap, Failure>
    ensures ok { IfOk result (λ map. map ≡ with_file new_map (chars text.now)) }
    ensures err { IfErr result (MayFail (chars text.now) None None) }
{
    let mut map = SourceMap::new(alloc);
    if fits(&map, text).is_none() {
        return Err(Failure::MapFull);
    }
    add_file(&mut map, text)?;
    Ok(map)
}

/// Does the same as `lines_of`, but builds all trees of the text, which has too many bytes or tokens for a buffer.
fn lines_by_trees(
    alloc: Global,
    form: Form,
    path: &str,
    text: &str,
) -> Result<Result<Vec<String>, Unlisted>, Failure>
    ensures ok { IfOk result (λ found. IfOk found (λ lines.
        Lists form path.now (chars text.now) (mapped string_bytes lines.items))) }
    ensures none { IfOk result (λ found. IfErr found (λ unlisted. IsUnlisted (chars text.now))) }
    ensures err { IfErr result (MayFail (chars text.now) None None) }
{
    let mut map = SourceMap::new(alloc);
    let stream = match TokenStream::from_str(text, &mut map) {
        Ok(stream) => stream,
        Err(error) => return Err(Failure::parse_failure(error, &map)),
    };
    match entries(alloc, stream.trees())? {
        Ok(entries) => Ok(Ok(all_lines(alloc, form, path, &map, entries.as_slice())?)),
        Err(stop) => Ok(Err(stop.at_position(&map))),
    }
}

/// The lines of these entries. The map has only their text.
fn all_lines(
    alloc: Global,
    form: Form,
    path: &str,
    map: &SourceMap,
    entries: &[Entry<'_>],
) -> Result<Vec<String>, AllocError>
    ensures { (text : List ℕ) → map.now ≡ with_file new_map text → IfOk result (λ lines.
        mapped string_bytes lines.items ≡ lines_of form path.now text (mapped entry_of_value entries.now)) }
{
    let mut lines = Vec::new(alloc);
    for entry in entries {
        if let Some(line) = entry_line(alloc, form, path, map, entry)? {
            lines.push(line)?;
        }
    }
    Ok(lines)
}

/// Returns the line of an entry. The map has only the entry's text.
pub fn entry_line(
    alloc: Global,
    form: Form,
    path: &str,
    map: &SourceMap,
    entry: &Entry<'_>,
) -> Result<Option<String>, AllocError>
    ensures { (text : List ℕ) → map.now ≡ with_file new_map text → IfOk result (λ line.
        option_map string_bytes line ≡ line_of form path.now (shown_line text (entry_of_value entry.now))) }
{
    let start = start_of(first_of(entry.header), map);
    match entry.name {
        Some(name) => {
            let name = spelling_of(alloc, name)?;
            line_of(alloc, form, path, entry.shown_line(name.as_str(), start))
        }
        None => {
            let header = one_line(alloc, header_of(entry, map))?;
            line_of(alloc, form, path, entry.shown_line(header.as_str(), start))
        }
    }
}

impl<'a> Entry<'a> {
    /// The entry as it is shown, with this name or header and this start.
    fn shown_line<'b>(&self, name: &'b str, start: LineColumn) -> Shown<'b>
        ensures { seen_line result ≡ record {
          depth = self.now.depth;
          kind = self.now.kind;
          named = is_some self.now.name;
          name = name.now;
          start = start;
        } }
    {
        Shown {
            depth: self.depth,
            kind: self.kind,
            named: self.name.is_some(),
            name,
            start,
        }
    }
}

/// The name as it is written, with `r#` if it is raw.
fn spelling_of(alloc: Global, name: &Ident) -> Result<String, AllocError>
    ensures { IfOk result (λ out. string_bytes out ≡ spelling name.now) }
{
    let mut out = String::new(alloc);
    write!(out, "{name}")?;
    Ok(out)
}

/// The text of the entry's header, without the last tree if there are several.
fn header_of<'a>(entry: &Entry<'_>, map: &'a SourceMap) -> &'a str
    ensures { (text : List ℕ) → map.now ≡ with_file new_map text → chars result.now
        ≡ through text (first_of entry.now.header.now) (last_of entry.now.header.now) }
{
    through(first_of(entry.header), last_of(entry.header), map)
}

/// The text from the start of one span to the end of the other.
fn through(from: Span, to: Span, map: &SourceMap) -> &str
    ensures { (text : List ℕ) → map.now ≡ with_file new_map text → chars result.now ≡ through text from to }
{
    if !map.holds(from) {
        return "";
    }
    match from.join(to, map) {
        Some(span) => match span.source_str(map) {
            Some(text) => text,
            None => "",
        },
        None => "",
    }
}

/// The line and the column where the span begins, or those of the text's start if the span is not in the map.
fn start_of(span: Span, map: &SourceMap) -> LineColumn
    ensures { (text : List ℕ) → map.now ≡ with_file new_map text → result ≡ place_in text span }
{
    if map.holds(span) {
        span.start(map)
    } else {
        LineColumn { line: 1, column: 0 }
    }
}

impl Stop {
    /// The error with its line and column.
    fn at_position(self, map: &SourceMap) -> Unlisted {
        let fault = self.fault;
        let start = self.place(map);
        Unlisted { start, fault }
    }

    /// The line and the column of the error: at its tree, or after the last tree.
    fn place(self, map: &SourceMap) -> LineColumn {
        if let Some(span) = self.fault.span {
            return start_of(span, map);
        }
        match self.last {
            Some(span) => end_of(span, map),
            None => LineColumn { line: 1, column: 0 },
        }
    }
}

/// The line and the column where the span ends, or those of the text's start if the span is not in the map.
fn end_of(span: Span, map: &SourceMap) -> LineColumn {
    if map.holds(span) {
        span.end(map)
    } else {
        LineColumn { line: 1, column: 0 }
    }
}
