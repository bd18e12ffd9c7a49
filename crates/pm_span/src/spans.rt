//! Spans: where tokens are.
ghost use Rattle.std.specs.Prelude.{◌≡◌, ◌≤◌, ◌↔◌, IsTrue, None};
ghost use Rattle.pm_span.specs.Extent.{extent_eq, nowhere};
ghost use Rattle.pm_span.specs.Files.{Files, Holds};

use std::fmt;
use std::marker::Model;

/// Where a token is: the positions from `lo` to `hi` in a source map, in characters.
#[derive(Clone, Copy)]
pub struct Span {
    lo: u32,
    hi: u32,
}

impl Model for Span {
    ghost use Rattle.std.specs.Prelude.{◌≤◌};
    ghost use Rattle.pm_span.specs.Extent.{Extent};

    ghost Value = { Extent };

    ghost view = { λ span. record { lo = span.lo; hi = span.hi } };

    ghost invariant = { λ span. span.lo ≤ span.hi };

    ghost inverse = { λ extent. record { lo = extent.lo; hi = extent.hi } };
}

impl Span {
    /// Returns the span 0..0 for tokens that were not read from a text. It is in the empty file 0, which every map
    /// holds.
    pub fn call_site() -> Span
        ensures value { result ≡ nowhere }
        ensures held { (map : Files) → Holds map result }
    {
        Span { lo: 0, hi: 0 }
    }

    /// Returns the span 0..0, as [`call_site`](Span::call_site) does. In a compiler it is for names with mixed
    /// hygiene.
    pub fn mixed_site() -> Span
        ensures value { result ≡ nowhere }
        ensures held { (map : Files) → Holds map result }
    {
        Span::call_site()
    }

    /// Returns the span 0..0, as [`call_site`](Span::call_site) does. In a compiler it is for names that resolve
    /// where the macro is defined.
    pub fn def_site() -> Span
        ensures value { result ≡ nowhere }
        ensures held { (map : Files) → Holds map result }
    {
        Span::mixed_site()
    }

    /// Returns this span, unchanged.
    ///
    /// In a compiler it would resolve names as the other span does. No names are resolved here: 1..2 resolved at
    /// 3..4 is 1..2.
    pub fn resolved_at(self, _other: Span) -> Span
        ensures { result ≡ self }
    {
        // A span has positions alone.
        self
    }

    /// Returns the other span, unchanged.
    ///
    /// In a compiler it would resolve names as this span does. No names are resolved here: 1..2 located at 3..4 is
    /// 3..4.
    pub fn located_at(self, other: Span) -> Span
        ensures { result ≡ other }
    {
        // Nothing of this span is kept.
        other
    }

    /// Returns `None`, because no text comes from a file on disk here. In a compiler it is the path of that file.
    pub fn local_file(self) -> Option<String>
        ensures { result ≡ None }
    {
        None
    }

    pub(crate) fn new(lo: u32, hi: u32) -> Span
        requires { lo ≤ hi }
        ensures { result ≡ record { lo = lo; hi = hi } }
    {
        Span { lo, hi }
    }

    /// Returns the positions where the span begins and ends.
    pub(crate) fn bounds(self) -> (u32, u32)
        ensures value { result ≡ (self.lo, self.hi) }
        ensures ordered { self.lo ≤ self.hi }
    {
        (self.lo, self.hi)
    }

    /// Returns whether both spans have the same positions. There is no `==` for spans, as in proc-macro2.
    pub fn eq(&self, other: &Span) -> bool
        ensures value { result ≡ extent_eq self.now other.now }
        ensures same { IsTrue result ↔ (self.now ≡ other.now) }
    {
        self.lo == other.lo && self.hi == other.hi
    }
}

/// Shows the positions, in characters, as `bytes(1..2)`.
impl fmt::Debug for Span {
    ghost use Rattle.std.specs.Prelude.{◌++◌, Some, codes, decimal};

    ghost debug_output = { λ span.
        Some (codes "bytes(" ++ decimal span.lo ++ codes ".." ++ decimal span.hi ++ codes ")") };

    fn fmt<W: fmt::Write>(&self, f: &mut fmt::Formatter<W>) -> fmt::Result {
        let lo = self.lo;
        let hi = self.hi;
        write!(f, "bytes({lo}..{hi})")
    }
}
