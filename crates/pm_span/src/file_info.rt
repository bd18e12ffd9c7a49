//! One file of a source map.
ghost use Rattle.std.specs.Prelude.{◌≡◌, ◌+◌, ◌^◌, ◌<◌, ◌≤◌, ℕ, length, IfOk};
ghost use Rattle.std.specs.Str.{chars, IsUtf8};
ghost use Rattle.pm_span.specs.FileInfo.{HasItsSize, MappedText, text_of};
ghost use Rattle.pm_span.specs.CharOffset.{line_column, byte_offset, between};

use crate::byte_index::ByteIndex;
use crate::line_index::LineIndex;
use crate::location::LineColumn;
use crate::text_lines::{Lines, find_lines};
use std::alloc::{AllocError, Global};
use std::fmt;
use std::marker::Model;
use std::ops::Range;

/// A file of a source map: its text, the positions that it takes, and where its lines begin.
#[derive(Drop)]
pub(crate) struct FileInfo {
    text: FileText,
    /// The position before its first character.
    lo: u32,
    /// The position after its last character.
    hi: u32,
    lines: LineIndex,
}

/// The text of a file. In an ASCII text, each offset is the same in characters and in bytes.
#[derive(Drop)]
enum FileText {
    Ascii(String),
    Wide(Box<ByteIndex>),
}

impl Model for FileInfo {
    ghost use Rattle.std.specs.Str.{chars};
    ghost use Rattle.std.specs.String.{string_bytes};
    ghost use Rattle.pm_span.specs.FileInfo.{MappedText, IsKept, text_of};

    ghost Value = { MappedText };

    ghost view = { λ file. record { text = text_of file.text; lo = file.lo } };

    ghost invariant = { λ file. IsKept file.text file.lo file.hi file.lines };
}

impl FileText {
    /// Copies a text that has `count` characters. Out of memory is the only error.
    fn new(alloc: Global, text: &str, count: u32) -> Result<FileText, AllocError>
        requires { count ≡ length (chars text.now) }
        ensures text { IfOk result (λ kept. text_of kept ≡ chars text.now) }
        ensures size { IfOk result (λ kept. HasItsSize kept) }
    {
        let copy = String::from_str(alloc, text)?;
        if count as usize == text.len() {
            return Ok(FileText::Ascii(copy));
        }
        let index = ByteIndex::new(alloc, copy, count)?;
        Ok(FileText::Wide(Box::new(alloc, index)?))
    }
}

/// Shows the fields that distinguish files, but not those that only make look-ups fast.
impl fmt::Debug for FileInfo {
    fn fmt<W: fmt::Write>(&self, f: &mut fmt::Formatter<W>) -> fmt::Result {
        let mut debug = f.debug_struct("FileInfo");
        debug.field("text", &self.text());
        debug.field("lo", &self.lo);
        debug.field("hi", &self.hi);
        debug.field("line_starts", self.lines.starts());
        debug.finish()
    }
}

impl FileInfo {
    /// Makes the file of this text, with its first character at the position `lo`. Out of memory is the only error.
    pub(crate) fn new(alloc: Global, text: &str, lo: u32) -> Result<FileInfo, AllocError>
        requires { lo + length (chars text.now) < 2 ^ 32 }
        ensures ok { IfOk result (λ file. file ≡ record { text = chars text.now; lo = lo }) }
    {
        let Lines { starts, count } = find_lines(alloc, text)?;
        Ok(FileInfo {
            text: FileText::new(alloc, text, count)?,
            lo,
            hi: lo + count,
            lines: LineIndex::new(alloc, starts, count)?,
        })
    }

    /// Returns the position before the first character.
    pub(crate) fn lo(&self) -> u32
        ensures { result ≡ self.now.lo }
    {
        self.lo
    }

    /// Returns the position after the last character.
    pub(crate) fn hi(&self) -> u32
        ensures { result ≡ self.now.lo + length self.now.text }
    {
        self.hi
    }

    /// Returns the text.
    fn text(&self) -> &str
        ensures value { chars result.now ≡ self.now.text }
        ensures utf8 { IsUtf8 result.now }
    {
        match &self.text {
            FileText::Ascii(text) => text.as_str(),
            FileText::Wide(index) => index.as_str(),
        }
    }

    /// Returns the line and column at an offset of the text, in characters.
    pub(crate) fn line_column(&self, char_offset: u32) -> LineColumn
        requires { char_offset ≤ length self.now.text }
        ensures { result ≡ line_column self.now.text char_offset }
    {
        self.lines.line_column(char_offset)
    }

    /// Returns the byte offsets of two offsets of the text, in characters.
    #[inline(always)]
    pub(crate) fn byte_range(&self, start: u32, end: u32) -> Range<usize>
        requires ordered { start ≤ end }
        requires within { end ≤ length self.now.text }
        ensures start { result.start ≡ byte_offset self.now.text start }
        ensures end { result.end ≡ byte_offset self.now.text end }
    {
        match &self.text {
            FileText::Ascii(_) => start as usize..end as usize,
            FileText::Wide(index) => index.byte_range(start, end),
        }
    }

    /// Returns the text between two of its offsets, in characters.
    pub(crate) fn text_between(&self, start: u32, end: u32) -> &str
        requires ordered { start ≤ end }
        requires within { end ≤ length self.now.text }
        ensures { chars result.now ≡ between self.now.text start end }
    {
        let bytes = self.byte_range(start, end);
        &self.text()[bytes.start..bytes.end]
    }
}
