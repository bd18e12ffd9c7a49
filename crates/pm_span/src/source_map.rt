//! The map of the texts that were read.
ghost use Rattle.std.specs.Prelude.{◌≡◌, ◌≤◌, ◌↔◌, ◌+◌, ◌^◌, ◌<◌, [], length, IfSome, IsTrue, OnOk, OnErr, SomeIff};
ghost use Rattle.std.specs.Prelude.{MatchOption};
ghost use Rattle.std.specs.Option.{unwrap_or, option_copied};
ghost use Rattle.std.specs.List.Sorted.{IsNonDecreasingBy};
ghost use Rattle.std.specs.Str.{chars};
ghost use Rattle.pm_span.specs.Files.{Files, next_lo, Fits, Holds, new_map, with_file};
ghost use Rattle.pm_span.specs.Lookup.{StartsAt, HasBytes};
ghost use Rattle.pm_span.specs.Consecutive.{file_0, AreBegun, IsFileOf};

use crate::file_info::FileInfo;
use crate::location::LineColumn;
use crate::spans::Span;
use crate::text::has_fewer_chars;
use std::alloc::{AllocError, Global};
use std::fmt;
use std::marker::Model;
use std::ops::Range;

/// The texts that were read, each as a file with positions of its own.
///
/// Positions count characters. File 0 is the empty text at 0..0 (`file-0`). Each later file begins one past the end
/// of the file before it (`next-position`), so no position is in two files. After the texts `ab` and `c`, the files
/// are at 0..0, 1..3 and 4..5.
#[derive(Drop)]
pub struct SourceMap {
    alloc: Global,
    /// The files from 1 on.
    files: Vec<FileInfo>,
    /// The positions that each file takes.
    places: Vec<FileRange>,
    /// The largest position that may be used.
    limit: u32,
}

/// The positions that a file takes.
#[derive(Clone, Copy)]
struct FileRange {
    /// The position before its first character.
    lo: u32,
    /// The position after its last character.
    hi: u32,
}

impl Model for SourceMap {
    ghost use Rattle.std.specs.Prelude.{map};
    ghost use Rattle.pm_span.specs.Files.{Files};
    ghost use Rattle.pm_span.specs.Consecutive.{AreWithin};

    ghost Value = { Files };

    ghost view = { λ source_map. record {
      texts = map (λ file. file.text) source_map.files.items;
      limit = source_map.limit;
    } };

    ghost invariant = { λ source_map. AreWithin source_map.limit source_map.files.items source_map.places.items };
}

/// Returns how many of the files at these ascending positions begin at or before `position`.
fn count_begun(places: &[FileRange], position: u32) -> usize
    requires { IsNonDecreasingBy (λ place. place.lo) places.now }
    ensures { AreBegun places.now position result }
{
    let Some((last, earlier)) = places.split_last() else {
        return 0;
    };
    // Look-ups are most frequent in the file that was just read.
    if last.lo <= position {
        return places.len();
    }
    earlier.partition_point(|place| place.lo <= position)
}

/// Shows the fields that distinguish maps, but not those that only make look-ups fast.
impl fmt::Debug for SourceMap {
    fn fmt<W: fmt::Write>(&self, f: &mut fmt::Formatter<W>) -> fmt::Result {
        let mut debug = f.debug_struct("SourceMap");
        debug.field("alloc", &self.alloc);
        debug.field("files", &self.files);
        debug.field("limit", &self.limit);
        debug.finish()
    }
}

impl SourceMap {
    /// Makes a map that has only file 0, with positions up to 4294967295. This allocates nothing.
    pub fn new(alloc: Global) -> SourceMap
        ensures { result ≡ new_map }
    {
        SourceMap::with_limit(alloc, u32::MAX)
    }

    /// Makes a map that has only file 0, with positions up to `limit`. This allocates nothing.
    ///
    /// A text doesn't fit (`fits`) if its file would end past the limit. With the limit 5, `abcd` is at 1..5, and
    /// after it not even the empty text fits.
    pub fn with_limit(alloc: Global, limit: u32) -> SourceMap
        ensures { result ≡ record { texts = []; limit = limit } }
    {
        SourceMap {
            alloc,
            files: Vec::new(alloc),
            places: Vec::new(alloc),
            limit,
        }
    }

    /// Removes all files but file 0, and keeps the limit.
    ///
    /// The next text begins at position 1 again. So the map may hold a span of a removed text, but only by chance.
    pub fn invalidate(&mut self)
        ensures { self.new ≡ record self.old { texts = [] } }
    {
        self.files.clear();
        self.places.clear();
    }

    /// Returns whether some file of the map has all the positions of the span (`holds`).
    ///
    /// A file also has the position at its end. With the one text `ab`, the map holds 0..0, 1..3 and 3..3, but
    /// neither 0..1 nor 3..4.
    pub fn holds(&self, span: Span) -> bool
        ensures { IsTrue result ↔ Holds self.now span }
    {
        let (lo, hi) = span.bounds();
        let number = count_begun(&self.places, lo);
        if number == 0 {
            hi == 0
        } else {
            hi <= self.places[number - 1].hi
        }
    }

    /// Returns the last file that begins at or before the position, with its number. File 0 is `None`.
    pub(crate) fn file_of(&self, position: u32) -> (usize, Option<&FileInfo>)
        ensures found { IsFileOf self.now position result.0 (unwrap_or (option_copied result.1) file_0) }
        ensures number { MatchOption result.1 (result.0 ≡ 0) (λ _. 0 < result.0) }
    {
        let number = count_begun(&self.places, position);
        if number == 0 {
            (number, None)
        } else {
            (number, Some(&self.files[number - 1]))
        }
    }

    /// Returns the position at the end of the last file.
    fn last_hi(&self) -> u32
        ensures value { result + 1 ≡ next_lo self.now }
        ensures within { result ≤ self.now.limit }
    {
        match self.files.last() {
            None => 0,
            Some(file) => file.hi(),
        }
    }

    /// Returns the line and column at a position of the map.
    pub(crate) fn line_column(&self, position: u32) -> LineColumn
        requires { Holds self.now (record { lo = position; hi = position }) }
        ensures { StartsAt self.now (record { lo = position; hi = position }) result }
    {
        let (_, file) = self.file_of(position);
        match file {
            None => LineColumn { line: 1, column: 0 },
            Some(file) => file.line_column(position - file.lo()),
        }
    }

    /// Returns the range of bytes that a span of the map takes in its file.
    pub(crate) fn byte_range(&self, span: Span) -> Range<usize>
        requires { Holds self.now span }
        ensures { HasBytes self.now span result }
    {
        let (lo, hi) = span.bounds();
        let (_, file) = self.file_of(lo);
        match file {
            None => 0..0,
            Some(file) => file.byte_range(lo - file.lo(), hi - file.lo()),
        }
    }

    /// Returns the position at which the file of this text would begin, or `None` if it doesn't fit.
    pub(crate) fn fits(&self, text: &str) -> Option<u32>
        ensures found { SomeIff result (Fits self.now (length (chars text.now))) (next_lo self.now) }
        ensures within { IfSome result (λ lo. lo + length (chars text.now) < 2 ^ 32) }
    {
        let last = self.last_hi();
        if last < self.limit && has_fewer_chars(text, (self.limit - last) as usize) {
            Some(last + 1)
        } else {
            None
        }
    }

    /// Returns the map's allocator.
    pub(crate) fn allocator(&self) -> Global {
        self.alloc
    }

    /// Adds the text as the next file. If memory runs out, the map does not change.
    pub(crate) fn add_file(&mut self, text: &str) -> Result<(), AllocError>
        requires { Fits self.old (length (chars text.now)) }
        ensures ok { OnOk result (self.new ≡ with_file self.old (chars text.now)) }
        ensures kept { OnErr result (self.new ≡ self.old) }
    {
        let lo = self.last_hi() + 1;
        let file = FileInfo::new(self.alloc, text, lo)?;
        self.places.push(FileRange { lo, hi: file.hi() })?;
        match self.files.push(file) {
            Ok(()) => Ok(()),
            Err(_) => {
                let _ = self.places.pop();
                Err(AllocError)
            }
        }
    }
}
