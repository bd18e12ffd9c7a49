//! Looks up positions and spans in the map.
ghost use Rattle.std.specs.Prelude.{◌≡◌, ◌≤◌, [], IfNone, IfSome, OnSome};
ghost use Rattle.proc_macro2.specs.Files.{Holds};
ghost use Rattle.pm_c.specs.Calls.{
  ByteRangeAnswer,
  FileNameAnswer,
  IsHeld,
  JoinAnswer,
  LineColumnAnswer,
  SourceTextAnswer,
  span,
};

use crate::codes::{DONE, NO_MEMORY, NOT_HELD, NOT_JOINED};
use crate::records::{PmAnswer, PmLineColumn, PmRange};
use crate::session::Session;
use pm_span::parts::{bounds, span_of};
use proc_macro2::Span;

impl Session {
    /// Returns the span between two positions, if one file of the map contains it.
    fn span_between(&self, lo: u32, hi: u32) -> Option<Span>
        ensures found { IfSome result (λ found. (found ≡ span lo hi) × Holds self.now.map found) }
        ensures held { IfNone result (IsHeld self.now.map lo hi → ⊥) }
        ensures order { OnSome result (lo ≤ hi) }
    {
        if lo > hi {
            return None;
        }
        let span = span_of(lo, hi);
        if self.map.holds(span) {
            Some(span)
        } else {
            None
        }
    }

    /// Returns the line and column of a position.
    pub(crate) fn line_column(&self, position: u32) -> PmLineColumn
        ensures { LineColumnAnswer self.now.map position result }
    {
        match self.span_between(position, position) {
            Some(span) => {
                let start = span.start(&self.map);
                PmLineColumn {
                    code: DONE,
                    line: start.line,
                    column: start.column,
                }
            }
            None => PmLineColumn::with_error(NOT_HELD),
        }
    }

    /// Returns the byte offsets in its file where a span begins and ends.
    pub(crate) fn byte_range(&mut self, lo: u32, hi: u32) -> PmRange
        ensures answer { ByteRangeAnswer self.old.map lo hi result }
        ensures kept { self.new ≡ self.old }
    {
        match self.span_between(lo, hi) {
            Some(span) => {
                let bytes = span.byte_range(&mut self.map);
                PmRange::success(bytes.start, bytes.end)
            }
            None => PmRange::with_error(NOT_HELD),
        }
    }

    /// Writes the source text of a span into the session's text.
    pub(crate) fn source_text(&mut self, lo: u32, hi: u32) -> PmAnswer
        ensures { SourceTextAnswer self.old lo hi self.new result }
    {
        let Some(span) = self.span_between(lo, hi) else {
            return PmAnswer::with_error(NOT_HELD);
        };
        match span.source_text(&mut self.map) {
            Ok(Some(text)) => {
                self.text = text;
                PmAnswer::success(0, self.text.len())
            }
            Ok(None) => PmAnswer::with_error(NOT_HELD),
            Err(_) => PmAnswer::with_error(NO_MEMORY),
        }
    }

    /// Writes the name of the file that contains a span into the session's text.
    pub(crate) fn file_name(&mut self, lo: u32, hi: u32) -> PmAnswer
        ensures { FileNameAnswer self.old lo hi self.new result }
    {
        let Some(span) = self.span_between(lo, hi) else {
            return PmAnswer::with_error(NOT_HELD);
        };
        match span.file(&self.map) {
            Ok(name) => {
                self.text = name;
                PmAnswer::success(0, self.text.len())
            }
            Err(_) => PmAnswer::with_error(NO_MEMORY),
        }
    }

    /// Returns the span that joins two spans, if one file contains both.
    pub(crate) fn join(&self, lo: u32, hi: u32, other_lo: u32, other_hi: u32) -> PmRange
        ensures { JoinAnswer self.now.map lo hi other_lo other_hi result }
    {
        let Some(span) = self.span_between(lo, hi) else {
            return PmRange::with_error(NOT_HELD);
        };
        if other_lo > other_hi {
            return PmRange::with_error(NOT_JOINED);
        }
        match span.join(span_of(other_lo, other_hi), &self.map) {
            Some(joined) => {
                let (lo, hi) = bounds(joined);
                PmRange::success(lo as usize, hi as usize)
            }
            None => PmRange::with_error(NOT_JOINED),
        }
    }

    /// Removes all files but the empty one from the map.
    pub(crate) fn forget(&mut self)
        ensures { self.new ≡ record self.old { map = record { texts = []; limit = self.old.map.limit } } }
    {
        self.map.invalidate();
    }
}
