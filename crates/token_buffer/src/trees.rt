//! Makes trees of what a cursor has left.
ghost use Rattle.std.specs.Prelude.{◌≡◌, IfOk, MatchOption};
ghost use Rattle.std.specs.Str.{bytes_eq, chars, encode_utf8_all};
ghost use Rattle.pm_stream.specs.Forest.{IsBuilt, nil};
ghost use Rattle.pm_stream.specs.Trees.{alone, forest};
ghost use Rattle.pm_token.specs.Built.{IsBuiltToken};
ghost use Rattle.lexical.specs.Token as tokens;
ghost use Rattle.token_buffer.specs.Made.{first_onto};
ghost use Rattle.token_buffer.specs.Outer.{kept_inside, may_restrict, outer};
ghost use Rattle.token_buffer.specs.Reads.{left, literal_text};

use crate::cursor::{Cursor, LiteralText, TokenText};
use pm_span::Span;
use pm_stream::parts::{group, stream};
use pm_stream::{TokenStream, TokenTree};
use pm_token::parts::{ident, literal, punct, string_literal};
use pm_token::{Delimiter, Literal};
use std::alloc::{AllocError, Global};

/// A group whose trees are being made.
#[derive(Drop)]
struct OpenTrees<'a> {
    /// The trees before the group, in the group around it.
    before: Vec<TokenTree>,
    /// The delimiter of the group.
    delimiter: Delimiter,
    /// The span of the group.
    span: Span,
    /// The trees after the group.
    after: Cursor<'a>,
}

/// The tree that a cursor begins with.
#[derive(Clone, Copy)]
struct FirstTree<'a> {
    /// The text of the tree.
    text: TokenText<'a>,
    /// The span of the tree.
    span: Span,
    /// The trees after it.
    after: Cursor<'a>,
}

impl<'a> Cursor<'a> {
    /// Returns the remaining trees as a stream, with their spans. Out of memory is the only error.
    ///
    /// Spans are those of [`span`](Cursor::span): positions in a new map that has the text as its first file. Time
    /// and memory are proportional to what is left, and deeply nested groups need little stack.
    ///
    /// In `a (b) c`, a cursor after the `a` gives the stream of `(b) c`.
    pub fn to_stream(self, alloc: Global) -> Result<TokenStream, AllocError>
        ensures { IfOk result (λ stream. stream ≡ left self.entry) }
    {
        let mut groups = Vec::new(alloc);
        let mut trees = Vec::new(alloc);
        let mut here = self;
        loop {
            let Some(first) = here.first() else {
                let inside = stream(alloc, trees)?;
                let Some(
                    OpenTrees {
                        before,
                        delimiter,
                        span,
                        after,
                    },
                ) = groups.pop()
                else {
                    return Ok(inside);
                };
                trees = before;
                trees.push(TokenTree::Group(group(delimiter, inside, span)))?;
                here = after;
                continue;
            };
            match first.text {
                TokenText::Group(delimiter, inside) => {
                    groups.push(OpenTrees {
                        before: trees,
                        delimiter,
                        span: first.span,
                        after: first.after,
                    })?;
                    trees = Vec::new(alloc);
                    here = inside;
                }
                TokenText::Ident(name) => {
                    let name = ident(alloc, name.text, name.raw, first.span)?;
                    trees.push(TokenTree::Ident(name))?;
                    here = first.after;
                }
                TokenText::Punct(mark, spacing) => {
                    trees.push(TokenTree::Punct(punct(mark, spacing, first.span)))?;
                    here = first.after;
                }
                TokenText::Literal(text) => {
                    let literal = literal_at(alloc, text, first.span)?;
                    trees.push(TokenTree::Literal(literal))?;
                    here = first.after;
                }
            }
        }
    }

    /// Returns the remaining trees without most of those inside groups, for readers that need only the outer ones.
    /// Out of memory is the only error.
    ///
    /// A group in braces or brackets has no trees. A group in parentheses keeps its trees only if they are one
    /// identifier or begin with `in`, as all restrictions of `pub` do. A group without delimiters keeps its trees.
    /// Spans are those of [`to_stream`](Cursor::to_stream). Time and memory are proportional to the returned trees,
    /// whatever is left out.
    ///
    /// `pub(crate) fn f(a: u8) {}` gives `pub`, the group of `crate`, `fn`, `f` and two empty groups.
    pub fn outer_trees(self, alloc: Global) -> Result<Vec<TokenTree>, AllocError>
        ensures { IfOk result (λ trees. forest trees.items ≡ outer (left self.entry)) }
    {
        let mut trees = Vec::new(alloc);
        let mut here = self;
        while let Some(first) = here.first() {
            trees.push(outer_tree(alloc, first.text, first.span)?)?;
            here = first.after;
        }
        Ok(trees)
    }

    /// Returns the first tree, its span and the trees after it, or `None` at the end.
    fn first(self) -> Option<FirstTree<'a>>
        ensures { MatchOption result (left self.entry ≡ nil)
            (λ first. left self.entry ≡ first_onto first.text first.span (left first.after)) }
    {
        let (text, after) = self.next()?;
        let span = self.span()?;
        Some(FirstTree { text, span, after })
    }
}

/// Makes the tree of this text with this span. If it is a group, it keeps few of its trees.
fn outer_tree(alloc: Global, text: TokenText<'_>, span: Span) -> Result<TokenTree, AllocError>
    requires { IsBuilt (first_onto text span nil) }
    ensures { IfOk result (λ tree. alone tree ≡ outer (first_onto text.entry span nil)) }
{
    match text {
        TokenText::Ident(name) => Ok(TokenTree::Ident(ident(alloc, name.text, name.raw, span)?)),
        TokenText::Punct(mark, spacing) => Ok(TokenTree::Punct(punct(mark, spacing, span))),
        TokenText::Literal(text) => Ok(TokenTree::Literal(literal_at(alloc, text, span)?)),
        TokenText::Group(delimiter, inside) => {
            let stream = outer_stream(alloc, delimiter, inside)?;
            Ok(TokenTree::Group(group(delimiter, stream, span)))
        }
    }
}

/// Returns the stream of the trees that a group keeps.
fn outer_stream(
    alloc: Global,
    delimiter: Delimiter,
    inside: Cursor<'_>,
) -> Result<TokenStream, AllocError>
    ensures { IfOk result (λ stream. stream ≡ kept_inside delimiter (left inside.entry)) }
{
    match delimiter {
        Delimiter::Parenthesis if !may_restrict(inside) => Ok(TokenStream::new(alloc)),
        Delimiter::Bracket | Delimiter::Brace => Ok(TokenStream::new(alloc)),
        Delimiter::Parenthesis | Delimiter::None => inside.to_stream(alloc),
    }
}

/// Returns whether the trees are one identifier, or begin with `in`.
fn may_restrict(inside: Cursor<'_>) -> bool
    ensures { result ≡ may_restrict (left inside.entry) }
{
    match inside.ident() {
        Some((name, rest)) => rest.eof() || is_text(name.text, "in"),
        None => false,
    }
}

/// Returns whether both texts are the same.
fn is_text(text: &str, other: &str) -> bool
    ensures { result ≡ bytes_eq (encode_utf8_all (chars text.now)) other.now }
{
    text == other
}

/// Makes the literal of this text. Out of memory is the only error.
fn literal_at(alloc: Global, text: LiteralText<'_>, span: Span) -> Result<Literal, AllocError>
    requires { IsBuiltToken (tokens.Literal (literal_text text)) }
    ensures ok { IfOk result (λ literal. literal ≡ record { text = literal_text text.entry; span = span }) }
{
    match text {
        LiteralText::Source(text) => literal(alloc, text, span),
        LiteralText::Doc(text) => string_literal(alloc, text, span),
    }
}
