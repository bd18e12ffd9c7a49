//! Finds where each tree of a text begins and ends, without building trees.
ghost use Rattle.std.specs.Prelude.{◌≡◌, ◌+◌, ◌<◌, ◌≤◌, ◌^◌, ◌↔◌, ◌++◌, [], ◌∷◌, length, true};
ghost use Rattle.std.specs.Prelude.{OnOk, IfOk, IfErr};
ghost use Rattle.std.specs.Str.{chars};
ghost use Rattle.pm_span.specs.Files.{Fits, new_map, next_lo};
ghost use Rattle.pm_span.specs.Line.{is_one_line};
ghost use Rattle.pm_token.specs.Outcome.{IfLex};
ghost use Rattle.pm_stream.specs.Fault.{IsFault};
ghost use Rattle.pm_stream.specs.Parsing.{ReportsFault};
ghost use Rattle.pm_stream.specs.Places.{ArePlaced, moved_past};
ghost use Rattle.pm_stream.specs.PlacerState.{Places, doc_places};
ghost use Rattle.pm_stream.specs.Taken.{IsLexed, IsTakenTo};

use crate::reading::{Lexed, TokenSink, read};
use pm_span::parts::fits_new;
use pm_token::{Delimiter, ParseError};
use std::alloc::{AllocError, Global};

/// A line and a column of a text, as in [`LineColumn`](pm_span::LineColumn), in half the memory.
///
/// If a text fits a new map, its lines and columns fit 32 bits.
#[derive(Clone, Copy, Debug, PartialEq, Eq)]
pub struct Place {
    /// The line, counted from 1.
    pub line: u32,
    /// The column in characters, counted from 0.
    pub column: u32,
}

/// Which of the four kinds of trees a tree is.
#[derive(Clone, Copy, Debug, PartialEq, Eq)]
pub enum TreeKind {
    /// A group of trees.
    Group,
    /// An identifier.
    Ident,
    /// A punctuation mark.
    Punct,
    /// A literal.
    Literal,
}

/// Where a tree begins and ends, and its kind.
#[derive(Clone, Copy, Debug, PartialEq, Eq)]
pub struct PlacedTree {
    /// Where it begins.
    pub start: Place,
    /// Where it ends.
    pub end: Place,
    /// Its kind.
    pub kind: TreeKind,
}

/// Returns where each tree of a text begins and ends, in reading order: each group before the trees inside it.
///
/// The result has the spans of `TokenStream::walk` over the stream that the text parses to, as lines and columns of a
/// new map. No tree and no map is built. Each tree takes 20 bytes, and the call first allocates room for one tree for
/// each four bytes of text. It also keeps a list of the open groups.
///
/// The errors are those of [`parse_unmapped`](crate::TokenStream::parse_unmapped). `Lex` has the position of
/// the fault (`fault`), in characters counted from 1. `MapFull` is returned exactly if the text does not fit a new map
/// (`fits`), and `Memory` if memory runs out.
///
/// `a (b)` gives an identifier from 1:0 to 1:1, a group from 1:2 to 1:5, and an identifier from 1:3 to 1:4. For `(]`
/// the fault is 2..2.
pub fn place_trees(alloc: Global, text: &str) -> Result<Vec<PlacedTree>, ParseError>
    ensures ok { IfOk result (λ trees. ArePlaced (next_lo new_map) (chars text.now) trees.items) }
    ensures fault { ReportsFault IfLex (next_lo new_map) (chars text.now) result }
    ensures map_full { (result ≡ Err ParseError.MapFull)
        ↔ (Fits new_map (length (chars text.now)) → ⊥) }
{
    let Some(lo) = fits_new(text) else {
        return Err(ParseError::MapFull);
    };
    place_trees_at(alloc, lo, text)
}

/// Returns where each tree begins and ends in a text that begins at the position `base`.
fn place_trees_at(alloc: Global, base: u32, text: &str) -> Result<Vec<PlacedTree>, ParseError>
    requires begins { 1 ≤ base }
    requires room { base + length (chars text.now) < 2 ^ 32 }
    ensures ok { IfOk result (λ trees. ArePlaced base (chars text.now) trees.items) }
    ensures lex { IfErr result (IsFault base (chars text.now)) }
{
    let mut placer = Placer {
        here: Place { line: 1, column: 0 },
        // In code, a tree has about five bytes, including the white characters after it.
        trees: Vec::with_capacity(alloc, text.len() / 4)?,
    };
    read(alloc, base, text, &mut placer)?;
    Ok(placer.trees)
}

/// Returns the line and column after a text that begins at `start`.
fn past(start: Place, text: &str) -> Place
    requires lines { start.line + length (chars text.now) < 2 ^ 32 }
    requires columns { start.column + length (chars text.now) < 2 ^ 32 }
    ensures { result ≡ moved_past start (chars text.now) }
{
    let mut place = start;
    for c in text.chars() {
        place = past_char(place, c);
    }
    place
}

/// Returns the line and column after a character at `place`.
#[inline(always)]
fn past_char(place: Place, c: char) -> Place
    requires lines { place.line + 1 < 2 ^ 32 }
    requires columns { place.column + 1 < 2 ^ 32 }
    ensures { result ≡ moved_past place (c ∷ []) }
{
    if c == '\n' {
        Place {
            line: place.line + 1,
            column: 0,
        }
    } else {
        Place {
            line: place.line,
            column: place.column + 1,
        }
    }
}

/// A sink that records where each tree begins and ends.
#[derive(Drop)]
struct Placer {
    /// The line and column up to which the text was read.
    here: Place,
    /// The trees in reading order. As long as a group is open, its end equals its start.
    trees: Vec<PlacedTree>,
}

/// A group whose closer was not read yet.
#[derive(Drop)]
struct OpenGroup {
    /// Its delimiter.
    delimiter: Delimiter,
    /// The position where its opener begins.
    lo: u32,
    /// The line and column of that position.
    start: Place,
    /// The index of the group in the list of trees.
    index: usize,
}

impl TokenSink for Placer {
    type Opened = OpenGroup;

    ghost opens = { λ group. (group.delimiter, group.lo) };

    ghost took = { λ placer taken. Places placer taken };

    #[inline(always)]
    fn opener(group: &OpenGroup) -> (Delimiter, u32) {
        (group.delimiter, group.lo)
    }

    #[inline(always)]
    fn mark(&mut self, lexed: Lexed<'_>, _joint: bool, _mark: char) -> Result<(), AllocError> {
        self.push(self.along(lexed), TreeKind::Punct)
    }

    #[inline(always)]
    fn name(&mut self, lexed: Lexed<'_>, _raw: bool, _name: &str) -> Result<(), AllocError> {
        self.push(self.along(lexed), TreeKind::Ident)
    }

    #[inline(always)]
    fn literal(&mut self, lexed: Lexed<'_>) -> Result<(), AllocError> {
        self.push(self.past(lexed), TreeKind::Literal)
    }

    #[inline(always)]
    fn doc(&mut self, lexed: Lexed<'_>, inner: bool, _doc_body: &str) -> Result<(), AllocError> {
        self.push_doc(inner, self.past(lexed))
    }

    #[inline(always)]
    fn gap(&mut self, lexed: Lexed<'_>) {
        self.here = self.past(lexed);
    }

    #[inline(always)]
    fn white(&mut self, text: &str, size: usize) {
        self.here = past(self.here, &text[..size]);
    }

    #[inline(always)]
    fn open(&mut self, lexed: Lexed<'_>, delimiter: Delimiter) -> Result<OpenGroup, AllocError> {
        let start = self.here;
        let end = self.along(lexed);
        let index = self.trees.len();
        self.add(start, TreeKind::Group)?;
        self.here = end;
        Ok(OpenGroup {
            delimiter,
            lo: lexed.at,
            start,
            index,
        })
    }

    #[inline(always)]
    fn close(
        &mut self,
        lexed: Lexed<'_>,
        _delimiter: Delimiter,
        group: OpenGroup,
    ) -> Result<(), AllocError> {
        let end = self.along(lexed);
        self.trees[group.index] = PlacedTree {
            start: group.start,
            end,
            kind: TreeKind::Group,
        };
        self.here = end;
        Ok(())
    }
}

impl Placer {
    /// Returns the line and column after the piece, which must be on one line.
    #[inline(always)]
    fn along(&self, lexed: Lexed<'_>) -> Place
        requires { IsTakenTo Places self.now lexed }
        ensures { (is : IsLexed lexed.entry) → is_one_line is.found.front ≡ true
            → result ≡ moved_past self.now.here is.found.front }
    {
        Place {
            line: self.here.line,
            column: self.here.column + lexed.piece.chars as u32,
        }
    }

    /// Returns the line and column after the piece.
    #[inline(always)]
    fn past(&self, lexed: Lexed<'_>) -> Place
        requires { IsTakenTo Places self.now lexed }
        ensures { (is : IsLexed lexed.entry) → result ≡ moved_past self.now.here is.found.front }
    {
        past(self.here, lexed.own_text())
    }

    /// Adds a tree of this kind, which begins at `here` and ends at `end`. Moves `here` to `end`.
    #[inline(always)]
    fn push(&mut self, end: Place, kind: TreeKind) -> Result<(), AllocError>
        ensures { OnOk result ((self.new.here ≡ end) × (self.new.trees.items
            ≡ self.old.trees.items ++ (record { start = self.old.here; end = self.new.here; kind = kind } ∷ []))) }
    {
        self.add(end, kind)?;
        self.here = end;
        Ok(())
    }

    /// Adds the trees of a doc comment: the mark `#`, the mark `!` if it is inner, and the group of its text.
    #[inline(never)]
    fn push_doc(&mut self, inner: bool, end: Place) -> Result<(), AllocError>
        ensures { OnOk result ((self.new.here ≡ end)
            × (self.new.trees.items ≡ self.old.trees.items ++ doc_places inner self.old.here self.new.here)) }
    {
        self.add(end, TreeKind::Punct)?;
        if inner {
            self.add(end, TreeKind::Punct)?;
        }
        self.add(end, TreeKind::Group)?;
        self.add(end, TreeKind::Ident)?;
        self.add(end, TreeKind::Punct)?;
        self.push(end, TreeKind::Literal)
    }

    /// Adds a tree of this kind, which begins at `here` and ends at `end`. Leaves `here` as it is: more trees begin
    /// there.
    #[inline(always)]
    fn add(&mut self, end: Place, kind: TreeKind) -> Result<(), AllocError>
        ensures trees { OnOk result (self.new.trees.items
            ≡ self.old.trees.items ++ (record { start = self.old.here; end = end; kind = kind } ∷ [])) }
        ensures here { self.new.here ≡ self.old.here }
    {
        let start = self.here;
        self.trees.push(PlacedTree { start, end, kind })?;
        Ok(())
    }
}
