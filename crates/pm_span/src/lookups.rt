//! Look-ups of a span in the map that holds it.
ghost use Rattle.std.specs.Prelude.{◌≡◌, ◌≢◌, None, IfSome, IfOk, MatchOption, SomeIff, Ok};
ghost use Rattle.std.specs.Str.{chars};
ghost use Rattle.std.specs.String.{string_bytes};
ghost use Rattle.pm_span.specs.Extent.{nowhere};
ghost use Rattle.pm_span.specs.Files.{Holds};
ghost use Rattle.pm_span.specs.Lookup.{StartsAt, EndsAt, HasBytes, HasText, HasName, IsTextOf, AreInOneFile};
ghost use Rattle.pm_span.specs.Lookup.{covering_span};

use crate::location::LineColumn;
use crate::source_map::SourceMap;
use crate::spans::Span;
use std::alloc::AllocError;
use std::ops::Range;

impl Span {
    /// Returns the line and column where the span begins (`line`, `column`). The map must hold the span.
    ///
    /// Lines are counted from 1, and only a line feed (LF) ends a line. Columns are counted in characters, from 0.
    /// In the text `aaa` LF `bbb` at 1..8, the span 6..8 starts at line 2, column 1.
    pub fn start(self, map: &SourceMap) -> LineColumn
        requires { Holds map.now self }
        ensures { StartsAt map.now self result }
    {
        let (lo, _) = self.bounds();
        map.line_column(lo)
    }

    /// Returns the line and column where the span ends, after its last character (`line`, `column`). The map must
    /// hold the span.
    ///
    /// In the text `aaa` LF `bbb` at 1..8, the span 2..4 ends at line 1, column 3.
    pub fn end(self, map: &SourceMap) -> LineColumn
        requires { Holds map.now self }
        ensures { EndsAt map.now self result }
    {
        let (_, hi) = self.bounds();
        map.line_column(hi)
    }

    /// Returns the name of the file that has the span (`file-name`). The map must hold the span.
    ///
    /// The name is `<unspecified>` for the span 0..0, and `<parsed string 2>` for a span in the second text. Out of
    /// memory is the only error.
    pub fn file(self, map: &SourceMap) -> Result<String, AllocError>
        requires { Holds map.now self }
        ensures ok { IfOk result (λ name. HasName map.now self (chars (string_bytes name))) }
    {
        let (lo, _) = self.bounds();
        let (number, _) = map.file_of(lo);
        if number == 0 {
            String::from_str(map.allocator(), "<unspecified>")
        } else {
            format!(in map.allocator(); "<parsed string {number}>")
        }
    }

    /// Returns the range of bytes that the span takes in the text of its file (`byte-offset`). The map must hold
    /// the span.
    ///
    /// Bytes are counted from the start of the file; the span 0..0 has the bytes 0..0. In the text `é a` at 1..4,
    /// the span 3..4 takes the bytes 3..4. The map does not change, and no memory is allocated.
    pub fn byte_range(self, map: &mut SourceMap) -> Range<usize>
        requires { Holds map.old self }
        ensures value { HasBytes map.old self result }
        ensures kept { map.new ≡ map.old }
    {
        map.byte_range(self)
    }

    /// Returns a copy of the span's text (`source-text`), or `None` for the span 0..0. The map must hold the span.
    ///
    /// [`source_str`](Span::source_str) borrows the text instead. Out of memory is the only error. The map never
    /// changes.
    pub fn source_text(self, map: &mut SourceMap) -> Result<Option<String>, AllocError>
        requires { Holds map.old self }
        ensures found { IfOk result (λ source. MatchOption source (self ≡ nowhere) (λ _. self ≢ nowhere)) }
        ensures value { IfOk result (λ source.
            IfSome source (λ text. HasText map.old self (chars (string_bytes text)))) }
        ensures text { IfOk result (λ source.
            IfSome source (λ text. IsTextOf map.old self (chars (string_bytes text)))) }
        ensures nowhere { self ≡ nowhere → result ≡ Ok None }
        ensures kept { map.new ≡ map.old }
    {
        let alloc = map.allocator();
        match self.source_str(map) {
            None => Ok(None),
            Some(text) => Ok(Some(String::from_str(alloc, text)?)),
        }
    }

    /// Borrows the span's text from the map (`source-text`), or returns `None` for the span 0..0. The map must hold
    /// the span.
    ///
    /// Nothing is copied. In the text `aaa` LF `bbb` at 1..8, the span 6..8 has the text `bb`.
    pub fn source_str(self, map: &SourceMap) -> Option<&str>
        requires { Holds map.now self }
        ensures found { MatchOption result (self ≡ nowhere) (λ _. self ≢ nowhere) }
        ensures value { IfSome result (λ text. HasText map.now self (chars text.now)) }
        ensures text { IfSome result (λ text. IsTextOf map.now self (chars text.now)) }
    {
        let (lo, hi) = self.bounds();
        let (_, file) = map.file_of(lo);
        let file = file?;
        Some(file.text_between(lo - file.lo(), hi - file.lo()))
    }

    /// Returns the smallest span that contains both spans (`join`), or `None` if they are not in one file. The map
    /// must hold this span.
    ///
    /// In a map with `aaa` LF `bbb` at 1..8 and `ccc` at 9..12, the spans 5..8 and 1..4 join to 1..8. Neither joins
    /// with 9..12.
    pub fn join(self, other: Span, map: &SourceMap) -> Option<Span>
        requires { Holds map.now self }
        ensures found { SomeIff result (AreInOneFile map.now self other) (covering_span self other) }
        ensures held { IfSome result (λ span. Holds map.now span) }
    {
        let (lo, hi) = self.bounds();
        let (other_lo, other_hi) = other.bounds();
        let joined = Span::new(lo.min(other_lo), hi.max(other_hi));
        if map.holds(joined) {
            Some(joined)
        } else {
            None
        }
    }
}
