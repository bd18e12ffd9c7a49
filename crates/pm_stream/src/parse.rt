//! The parser: from the pieces of a text to its token trees.
ghost use Rattle.std.specs.Prelude.{◌≡◌, ◌+◌, ◌<◌, ◌≤◌, ◌^◌, ◌↔◌, ◌++◌, [], ◌∷◌, drop, length, take};
ghost use Rattle.std.specs.Prelude.{OnOk, IfOk, IfErr, IsTrue, if◌then◌else◌};
ghost use Rattle.std.specs.Str.{chars};
ghost use Rattle.lexical.specs.Mark.{is_mark};
ghost use Rattle.lexical.specs.Token as tokens;
ghost use Rattle.pm_span.specs.Files.{Fits, Holds, new_map, next_lo, with_file};
ghost use Rattle.pm_token.specs.Built.{IsBuiltToken};
ghost use Rattle.pm_token.specs.Leaf.{is_joint};
ghost use Rattle.pm_token.specs.Outcome.{IfLex, was_read};
ghost use Rattle.pm_stream.specs.Events.{One, doc_onto};
ghost use Rattle.pm_stream.specs.Fault.{IsFault};
ghost use Rattle.pm_stream.specs.Forest.{flat_onto, IsBuilt};
ghost use Rattle.pm_stream.specs.HeldSpans.{HoldsAll};
ghost use Rattle.pm_stream.specs.ParserState.{Adds, Parses};
ghost use Rattle.pm_stream.specs.Parsing.{ParsesTo, ReportsFault};
ghost use Rattle.pm_stream.specs.Trees.{alone, forest, GoesInside};
ghost use Rattle.pm_stream.specs.declared.stream.TokenTree.TheVariants as trees;

use crate::doc::doc_group;
use crate::reading::{Lexed, TokenSink, read};
use crate::stream::{Group, TokenStream, TokenTree};
use pm_span::parts::{add_file, allocator, fits, fits_new, span_of};
use pm_span::{SourceMap, Span};
use pm_token::parts::{ident, literal, punct};
use pm_token::{Delimiter, ParseError, Spacing};
use std::alloc::{AllocError, Global};

/// How many trees a finished list may keep unused room for.
const FEW_TREES: usize = 8;

impl TokenStream {
    /// Parses a text, which becomes the next file of the map, and returns its token trees (`parses-to`). The stream is
    /// `built`.
    ///
    /// Spans count characters, from the position where the file begins. The map holds the span of each tree.
    ///
    /// For a fault (`fault`) the call returns `Lex` with an empty span. The fault is where no piece of the grammar
    /// begins, or before a closer that doesn't close the innermost open group. If the text has neither, the fault is
    /// before the last opener that no closer matches. Even then the text becomes a file of the map, so that the map can
    /// give the fault's line. `MapFull` is returned exactly if the text would end past the map's limit (`fits`), and
    /// `Memory` if memory runs out. Both leave the map as it was.
    ///
    /// In a new map `a += b` gives four trees, the first of which is the identifier `a` at 1..2. The fault of `(]` is
    /// 2..2, and that of `a ( b` is 3..3.
    pub fn from_str(text: &str, map: &mut SourceMap) -> Result<TokenStream, ParseError>
        ensures ok { IfOk result (λ stream. ParsesTo (next_lo map.old) (chars text.now) stream) }
        ensures built { IfOk result IsBuilt }
        ensures spans { IfOk result (HoldsAll map.new) }
        ensures within { IsTrue (was_read result) → Fits map.old (length (chars text.now)) }

        // The fault has one position, and the map holds it.
        ensures fault { ReportsFault IfLex (next_lo map.old) (chars text.now) result }
        ensures held { IfErr result (λ error. IfLex error (Holds map.new)) }
        ensures map_full { (result ≡ Err ParseError.MapFull)
            ↔ (Fits map.old (length (chars text.now)) → ⊥) }

        ensures kept { map.new
            ≡ (if was_read result then with_file map.old (chars text.now) else map.old) }
    {
        let Some(lo) = fits(map, text) else {
            return Err(ParseError::MapFull);
        };
        let parsed = parse(allocator(map), lo, text);
        if let Err(ParseError::Memory(_)) = &parsed {
            return parsed;
        }
        add_file(map, text)?;
        parsed
    }

    /// Parses a text that becomes no file of a map, and returns its token trees (`parses-to`). The stream is `built`.
    ///
    /// Results, errors and spans are those of [`from_str`](TokenStream::from_str) with a new map. But no map is
    /// guaranteed to hold the spans. The call does not copy the text and does not search for lines, so it is faster for
    /// programs that only print trees. To get the line of a fault, call `from_str`, which finds the fault at the same
    /// position.
    ///
    /// `a += b` gives four trees, the first of which is the identifier `a` at 1..2. The fault of `(]` is 2..2.
    pub fn parse_unmapped(alloc: Global, text: &str) -> Result<TokenStream, ParseError>
        ensures ok { IfOk result (λ stream. ParsesTo (next_lo new_map) (chars text.now) stream) }
        ensures built { IfOk result IsBuilt }
        ensures fault { ReportsFault IfLex (next_lo new_map) (chars text.now) result }
        ensures map_full { (result ≡ Err ParseError.MapFull)
            ↔ (Fits new_map (length (chars text.now)) → ⊥) }
    {
        let Some(lo) = fits_new(text) else {
            return Err(ParseError::MapFull);
        };
        parse(alloc, lo, text)
    }
}

/// Parses a text that begins at the position `base`.
pub(crate) fn parse(alloc: Global, base: u32, text: &str) -> Result<TokenStream, ParseError>
    requires { base + length (chars text.now) < 2 ^ 32 }
    ensures ok { IfOk result (λ stream. ParsesTo base (chars text.now) stream) }
    ensures built { IfOk result IsBuilt }
    ensures lex { IfErr result (IsFault base (chars text.now)) }
{
    let mut parser = Parser {
        alloc,
        trees: Vec::new(alloc),
    };
    read(alloc, base, text, &mut parser)?;
    Ok(parser.finish()?)
}

/// A sink that builds trees.
#[derive(Drop)]
struct Parser {
    alloc: Global,
    /// The trees read so far: those outside all groups and those of each open group. The innermost group's trees are
    /// last.
    trees: Vec<TokenTree>,
}

/// A group whose closer was not read yet.
#[derive(Drop)]
struct Frame {
    /// How many trees of the list come before the group's own.
    before: usize,
    /// Its delimiter.
    delimiter: Delimiter,
    /// The position of its opener.
    lo: u32,
}

impl TokenSink for Parser {
    type Opened = Frame;

    ghost opens = { λ frame. (frame.delimiter, frame.lo) };

    ghost took = { λ parser taken. Parses parser taken };

    #[inline(always)]
    fn opener(frame: &Frame) -> (Delimiter, u32) {
        (frame.delimiter, frame.lo)
    }

    #[inline(always)]
    fn mark(&mut self, lexed: Lexed<'_>, joint: bool, mark: char) -> Result<(), AllocError> {
        self.push_mark(mark, joint, lexed.span())
    }

    #[inline(always)]
    fn name(&mut self, lexed: Lexed<'_>, raw: bool, name: &str) -> Result<(), AllocError> {
        let name = ident(self.alloc, name, raw, lexed.span())?;
        self.push(TokenTree::Ident(name))
    }

    #[inline(always)]
    fn literal(&mut self, lexed: Lexed<'_>) -> Result<(), AllocError> {
        self.push_literal(lexed.own_text(), lexed.span())
    }

    #[inline(always)]
    fn doc(&mut self, lexed: Lexed<'_>, inner: bool, doc_body: &str) -> Result<(), AllocError> {
        self.push_doc(inner, doc_body, lexed.span())
    }

    #[inline(always)]
    fn gap(&mut self, _lexed: Lexed<'_>) {}

    #[inline(always)]
    fn white(&mut self, _text: &str, _size: usize) {}

    #[inline(always)]
    fn open(&mut self, lexed: Lexed<'_>, delimiter: Delimiter) -> Result<Frame, AllocError> {
        Ok(Frame {
            before: self.trees.len(),
            delimiter,
            lo: lexed.at,
        })
    }

    #[inline(always)]
    fn close(
        &mut self,
        lexed: Lexed<'_>,
        delimiter: Delimiter,
        frame: Frame,
    ) -> Result<(), AllocError> {
        self.push_group(frame.before, delimiter, span_of(frame.lo, lexed.at + 1))
    }
}

impl Parser {
    /// Adds a tree that may be put into a stream.
    // Inlined so that the tree is built in the list itself.
    #[inline(always)]
    fn push(&mut self, tree: TokenTree) -> Result<(), AllocError>
        requires { GoesInside tree }
        ensures { OnOk result (Adds self.old self.new (flat_onto (alone tree) [])) }
    {
        // This call computes nothing. Its contract says that the tree is `built`.
        let _ = tree.span();
        self.trees.push(tree)?;
        Ok(())
    }

    /// Adds a mark.
    fn push_mark(&mut self, mark: char, joint: bool, span: Span) -> Result<(), AllocError>
        requires { IsTrue (is_mark mark) }
        ensures { OnOk result (Adds self.old self.new (One (tokens.Mark mark joint) span.lo span.hi ∷ [])) }
    {
        self.push(TokenTree::Punct(punct(mark, spacing(joint), span)))
    }

    /// Adds a literal with this text, by the rule `literal-token`.
    // Not inlined, like doc comments and closers: the loop is then faster for the other pieces, which are more
    // frequent.
    #[inline(never)]
    fn push_literal(&mut self, text: &str, span: Span) -> Result<(), AllocError>
        requires { IsBuiltToken (tokens.Literal (chars text.now)) }
        ensures { OnOk result (Adds self.old self.new (One (tokens.Literal (chars text.now)) span.lo span.hi ∷ [])) }
    {
        let literal = literal(self.alloc, text, span)?;
        self.push(TokenTree::Literal(literal))
    }

    /// Adds the trees of a doc comment: the mark `#`, the mark `!` if it is inner, and the group of its text.
    #[inline(never)]
    fn push_doc(&mut self, inner: bool, text: &str, span: Span) -> Result<(), AllocError>
        ensures { OnOk result (Adds self.old self.new (doc_onto span.lo span.hi inner (chars text.now) [])) }
    {
        self.push_mark('#', false, span)?;
        if inner {
            self.push_mark('!', false, span)?;
        }
        let group = doc_group(self.alloc, text, span)?;
        self.push(TokenTree::Group(group))
    }

    /// Replaces the trees from index `first` on with one group that holds them.
    #[inline(never)]
    fn push_group(
        &mut self,
        first: usize,
        delimiter: Delimiter,
        span: Span,
    ) -> Result<(), AllocError>
        requires within { first ≤ length self.old.trees.items }
        requires built { IsBuilt (forest (drop first self.old.trees.items)) }
        ensures { OnOk result (self.new.trees.items ≡ take first self.old.trees.items ++ (trees.Group (record
            { delimiter = delimiter; stream = forest (drop first self.old.trees.items); span = span }) ∷ [])) }
    {
        let inside = self.trees.split_off(first)?;
        let stream = TokenStream::from_vec(self.alloc, inside)?;
        let group = Group::from_parts(delimiter, stream, span);
        self.trees.push(TokenTree::Group(group))?;
        Ok(())
    }

    /// Returns the stream of the trees. No group may be open.
    fn finish(self) -> Result<TokenStream, AllocError>
        requires { IsBuilt (forest self.trees.items) }
        ensures ok { IfOk result (λ stream. stream ≡ forest self.trees.items) }
    {
        let Parser { alloc, mut trees } = self;
        // The list also held the trees of groups, so much of its room may be unused. If the smaller allocation fails,
        // the list stays as it is.
        if trees.capacity().saturating_sub(trees.len()) > FEW_TREES {
            trees.shrink_to_fit();
        }
        TokenStream::from_vec(alloc, trees)
    }
}

/// Returns the spacing of a mark.
fn spacing(joint: bool) -> Spacing
    ensures { is_joint result ≡ joint }
{
    if joint {
        Spacing::Joint
    } else {
        Spacing::Alone
    }
}
