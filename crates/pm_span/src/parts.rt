//! Calls for the crates that use `pm_span`. Users of the library do not need them.
ghost use Rattle.std.specs.Prelude.{◌≡◌, ◌+◌, ◌^◌, ◌<◌, ◌≤◌, length, IfSome, OnOk, OnErr, SomeIff};
ghost use Rattle.std.specs.Str.{chars};
ghost use Rattle.pm_span.specs.Files.{Fits, new_map, next_lo, with_file};

use crate::source_map::SourceMap;
use crate::spans::Span;
pub use crate::text::char_count;
use crate::text::has_fewer_chars;
use std::alloc::{AllocError, Global};

/// Makes the span of the positions from `lo` to `hi`, in characters.
pub fn span_of(lo: u32, hi: u32) -> Span
    requires { lo ≤ hi }
    ensures { result ≡ record { lo = lo; hi = hi } }
{
    Span::new(lo, hi)
}

/// Returns the positions where the span begins and ends, in characters.
pub fn bounds(span: Span) -> (u32, u32)
    ensures value { result ≡ (span.lo, span.hi) }
    ensures ordered { span.lo ≤ span.hi }
{
    span.bounds()
}

/// Returns the position at which the file of this text would begin (`next-position`), or `None` if it doesn't fit
/// (`fits`).
///
/// Positions count characters. The text doesn't fit if its file would end past the map's limit: in a new map with
/// the limit 5, `abcd` would begin at 1, and `abcde` doesn't fit.
pub fn fits(map: &SourceMap, text: &str) -> Option<u32>
    ensures found { SomeIff result (Fits map.now (length (chars text.now))) (next_lo map.now) }
    ensures within { IfSome result (λ lo. lo + length (chars text.now) < 2 ^ 32) }
{
    map.fits(text)
}

/// Returns the position 1, at which the file of this text would begin in a new map, or `None` if it doesn't fit
/// (`fits`).
///
/// No map is made.
pub fn fits_new(text: &str) -> Option<u32>
    ensures found { SomeIff result (Fits new_map (length (chars text.now))) (next_lo new_map) }
    ensures within { IfSome result (λ lo. lo + length (chars text.now) < 2 ^ 32) }
{
    if has_fewer_chars(text, u32::MAX as usize) {
        Some(1)
    } else {
        None
    }
}

/// Adds the text as the map's next file. The text must fit (`fits`).
///
/// Out of memory is the only error, and then the map does not change.
pub fn add_file(map: &mut SourceMap, text: &str) -> Result<(), AllocError>
    requires { Fits map.old (length (chars text.now)) }
    ensures ok { OnOk result (map.new ≡ with_file map.old (chars text.now)) }
    ensures kept { OnErr result (map.new ≡ map.old) }
{
    map.add_file(text)
}

/// Returns the allocator of the map. The streams that are read with the map use it too.
pub fn allocator(map: &SourceMap) -> Global {
    map.allocator()
}
