//! What look-ups should return, found by a walk over all characters of a text each time.
use pm_span::LineColumn;
use std::alloc::{AllocError, Global};
use std::ops::Range;

/// A text, with the positions before its first character and after its last one.
#[derive(Drop)]
pub struct PlainFile {
    text: String,
    lo: u32,
    hi: u32,
}

/// An offset of a text: the numbers of characters and bytes before it, its line and its column.
#[derive(Clone, Copy)]
struct TextOffset {
    chars: u32,
    bytes: usize,
    line: usize,
    column: usize,
}

impl TextOffset {
    /// Returns the offset after one more character.
    fn after(self, c: char) -> TextOffset {
        let is_feed = c == '\n';
        TextOffset {
            chars: self.chars.saturating_add(1),
            bytes: self.bytes.saturating_add(c.len_utf8()),
            line: self.line.saturating_add(if is_feed { 1 } else { 0 }),
            column: if is_feed {
                0
            } else {
                self.column.saturating_add(1)
            },
        }
    }
}

impl PlainFile {
    /// Makes the file of this text, which begins at `lo`.
    pub fn new(alloc: Global, text: &str, lo: u32) -> Result<PlainFile, AllocError> {
        let mut hi = lo;
        for _ in text.chars() {
            hi = hi.saturating_add(1);
        }
        Ok(PlainFile {
            text: String::from_str(alloc, text)?,
            lo,
            hi,
        })
    }

    /// Returns the position after the last character.
    pub fn hi(&self) -> u32 {
        self.hi
    }

    /// Returns whether the file has all positions from `lo` to `hi`.
    pub fn has(&self, lo: u32, hi: u32) -> bool {
        self.lo <= lo && hi <= self.hi
    }

    /// Returns the offset at one of the file's positions.
    fn place(&self, position: u32) -> TextOffset {
        let offset = position.saturating_sub(self.lo);
        let mut place = TextOffset {
            chars: 0,
            bytes: 0,
            line: 1,
            column: 0,
        };
        for c in self.text.as_str().chars() {
            if place.chars >= offset {
                return place;
            }
            place = place.after(c);
        }
        place
    }

    /// Returns the line and column at one of the file's positions.
    pub fn line_column(&self, position: u32) -> LineColumn {
        let TextOffset { line, column, .. } = self.place(position);
        LineColumn { line, column }
    }

    /// Returns the byte offsets of the positions `lo` and `hi`.
    pub fn byte_range(&self, lo: u32, hi: u32) -> Range<usize> {
        let start = self.place(lo).bytes;
        let end = self.place(hi).bytes;
        start..end
    }

    /// Returns the text between the positions `lo` and `hi`.
    pub fn text_between(&self, lo: u32, hi: u32) -> Option<&str> {
        self.text.as_str().get(self.byte_range(lo, hi))
    }
}
