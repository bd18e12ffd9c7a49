//! Calls for the crates that are built on this one, not for users.
ghost use Rattle.std.specs.Prelude.{◌≡◌, IfOk, OnErr, OnOk};
ghost use Rattle.pm_stream.specs.Building.{split};
ghost use Rattle.pm_stream.specs.Forest.{IsBuilt, chain, nil};
ghost use Rattle.pm_stream.specs.Trees.{forest};
ghost use Rattle.pm_stream.specs.declared.stream.TokenTree.TheVariants.{Group as GroupTree, Ident as IdentTree};
ghost use Rattle.pm_stream.specs.declared.stream.TokenTree.TheVariants.{Punct as PunctTree, Literal as LiteralTree};

use crate::stream::{Group, TokenStream, TokenTree};
use pm_span::Span;
use pm_token::{Delimiter, Ident, Literal, Punct};
use std::alloc::{AllocError, Global};

/// Returns the group with this delimiter, stream and span.
pub fn group(delimiter: Delimiter, stream: TokenStream, span: Span) -> Group
    ensures { result ≡ record { delimiter = delimiter; stream = stream; span = span } }
{
    Group::from_parts(delimiter, stream, span)
}

/// Returns the stream of these trees. Fails if memory runs out.
pub fn stream(alloc: Global, trees: Vec<TokenTree>) -> Result<TokenStream, AllocError>
    requires { IsBuilt (forest trees.items) }
    ensures ok { IfOk result (λ stream. stream ≡ forest trees.items) }
{
    TokenStream::from_vec(alloc, trees)
}

/// Returns the trees of the stream, in order. A list that no other stream shares is moved. A shared list is copied,
/// which fails if memory runs out.
pub fn into_trees(stream: TokenStream) -> Result<Vec<TokenTree>, AllocError>
    ensures value { IfOk result (λ list. forest list.items ≡ stream) }
    ensures built { IsBuilt stream }
{
    stream.into_list()
}

/// Takes the trees out of the group and returns them. The group is empty afterwards.
#[inline(always)]
pub fn take_stream(group: &mut Group) -> TokenStream
    ensures value { result ≡ group.old.stream }
    ensures left { group.new ≡ record group.old { stream = nil } }
{
    group.take_stream()
}

/// Replaces the group's trees with these trees.
#[inline(always)]
pub fn set_stream(group: &mut Group, stream: TokenStream)
    ensures { group.new ≡ record group.old { stream = stream } }
{
    group.set_stream(stream);
}

/// Appends a group to a stream. If memory runs out, the stream does not change.
#[inline(always)]
pub fn put_group(stream: &mut TokenStream, group: Group) -> Result<(), AllocError>
    ensures ok { OnOk result (stream.new ≡ chain stream.old (split (GroupTree group))) }
    ensures err { OnErr result (stream.new ≡ stream.old) }
{
    stream.put_group(group)
}

/// Appends an identifier to a stream. If memory runs out, the stream does not change.
#[inline(always)]
pub fn put_ident(stream: &mut TokenStream, ident: Ident) -> Result<(), AllocError>
    ensures ok { OnOk result (stream.new ≡ chain stream.old (split (IdentTree ident))) }
    ensures err { OnErr result (stream.new ≡ stream.old) }
{
    stream.put_ident(ident)
}

/// Appends a mark to a stream. If memory runs out, the stream does not change.
#[inline(always)]
pub fn put_punct(stream: &mut TokenStream, punct: Punct) -> Result<(), AllocError>
    ensures ok { OnOk result (stream.new ≡ chain stream.old (split (PunctTree punct))) }
    ensures err { OnErr result (stream.new ≡ stream.old) }
{
    stream.put_punct(punct)
}

/// Appends a literal to a stream; a negative one gives its `-` and the rest. If memory runs out, the stream does not
/// change.
#[inline(always)]
pub fn put_literal(stream: &mut TokenStream, literal: Literal) -> Result<(), AllocError>
    ensures ok { OnOk result (stream.new ≡ chain stream.old (split (LiteralTree literal))) }
    ensures err { OnErr result (stream.new ≡ stream.old) }
{
    stream.put_literal(literal)
}
