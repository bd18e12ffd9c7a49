//! The spans of a group's delimiters.
ghost use Rattle.std.specs.Prelude.{◌≡◌};
ghost use Rattle.pm_stream.specs.DelimSpan.{closing_span, opening_span};

use crate::stream::Group;
use pm_span::Span;
use pm_span::parts::{bounds, span_of};
use std::fmt;
use std::marker::Model;

/// The span of a group, from which the spans of its delimiters are computed.
///
/// The spans of the delimiters are the first and the last character of the group's span, whatever its delimiter is. A
/// group that was read from `(x)` at 1..4 opens at 1..2 and closes at 3..4.
#[derive(Clone, Copy)]
pub struct DelimSpan {
    span: Span,
}

impl Model for DelimSpan {
    ghost use Rattle.pm_span.specs.Extent.{Extent};

    ghost Value = { Extent };

    ghost view = { λ delim_span. delim_span.span };

    ghost inverse = { λ extent. record { span = extent } };
}

impl DelimSpan {
    /// Returns the span of the whole group, including its delimiters.
    pub fn join(&self) -> Span
        ensures { result ≡ self.now }
    {
        self.span
    }

    /// Returns the span of the opening delimiter (`open-span`): the first character of the group's span.
    ///
    /// The result is empty if the group's span is empty. For 1..4 it is 1..2, and for 0..0 it is 0..0.
    pub fn open(&self) -> Span
        ensures { result ≡ opening_span self.now }
    {
        let (lo, hi) = bounds(self.span);
        span_of(lo, hi.min(lo.saturating_add(1)))
    }

    /// Returns the span of the closing delimiter (`close-span`): the last character of the group's span.
    ///
    /// The result is empty if the group's span is empty. For 1..4 it is 3..4, and for 0..0 it is 0..0.
    pub fn close(&self) -> Span
        ensures { result ≡ closing_span self.now }
    {
        let (lo, hi) = bounds(self.span);
        span_of(lo.max(hi.saturating_sub(1)), hi)
    }
}

/// Shows the span of the whole group, as `bytes(1..4)`.
impl fmt::Debug for DelimSpan {
    ghost use Rattle.std.specs.Prelude.{◌++◌, Some, codes, decimal};

    ghost debug_output = { λ span.
        Some (codes "bytes(" ++ decimal span.lo ++ codes ".." ++ decimal span.hi ++ codes ")") };

    fn fmt<W: fmt::Write>(&self, f: &mut fmt::Formatter<W>) -> fmt::Result {
        self.join().fmt(f)
    }
}

impl Group {
    /// Returns the span of the opening delimiter (`open-span`): the first character of the group's span.
    ///
    /// The result is empty if the group's span is empty. For 1..4 it is 1..2, and for 0..0 it is 0..0.
    pub fn span_open(&self) -> Span
        ensures { result ≡ opening_span self.now.span }
    {
        self.delim_span().open()
    }

    /// Returns the span of the closing delimiter (`close-span`): the last character of the group's span.
    ///
    /// The result is empty if the group's span is empty. For 1..4 it is 3..4, and for 0..0 it is 0..0.
    pub fn span_close(&self) -> Span
        ensures { result ≡ closing_span self.now.span }
    {
        self.delim_span().close()
    }

    /// Returns the span of the group, together with those of its delimiters.
    pub fn delim_span(&self) -> DelimSpan
        ensures { result ≡ self.now.span }
    {
        DelimSpan { span: self.span() }
    }
}
