//! A builder of streams that shares a stream while it is the only one that was added.
ghost use Rattle.std.specs.Prelude.{◌≡◌, ◌≤◌, ◌<◌, ◌+◌, ◌++◌, ◌∷◌, [], IfOk, OnErr, OnOk, drop, length, take};
ghost use Rattle.std.specs.Prelude.{vec_capacity, vec_len};
ghost use Rattle.proc_macro2.specs.Forest.{IsBuilt, chain, nil};
ghost use Rattle.proc_macro2.specs.Trees.{alone, forest, GoesInside};

use pm_stream::parts;
use proc_macro2::{TokenStream, TokenTree};
use std::alloc::{AllocError, Global};
use std::marker::Model;

/// The largest capacity, in trees, that a list gets in advance. Most templates have fewer trees.
const MOST_ROOM: usize = 64;

/// The smallest capacity of a list, in trees. The first push would grow the list to it anyway.
const LEAST_ROOM: usize = 4;

/// Up to this capacity, in trees, a list is not shrunk.
const FEW_TREES: usize = 8;

/// A stream under construction. Contracts see it as the trees that were added, in order.
#[derive(Drop)]
pub(crate) struct StreamBuilder {
    alloc: Global,
    trees: Trees,
}

/// The trees of a stream under construction.
#[derive(Drop)]
pub(crate) enum Trees {
    // The trees of one stream, or none. Nothing was added after it, so it is shared.
    Shared(TokenStream),
    // A list that becomes a stream without a copy.
    Listed(Vec<TokenTree>),
}

impl Model for StreamBuilder {
    ghost use Rattle.proc_macro2.specs.Codec.{coded_forest};
    ghost use Rattle.proc_macro2.specs.Forest.{Forest};
    ghost use Rattle.quoting.specs.Put.{IsFit, put_trees};

    ghost Value = { Forest };

    ghost coded = { coded_forest };

    ghost view = { λ builder. put_trees builder.trees };

    ghost invariant = { λ builder. IsFit builder.trees };
}

impl StreamBuilder {
    /// Returns a builder without trees. It allocates nothing.
    pub(crate) fn new(alloc: Global) -> StreamBuilder
        ensures { result ≡ nil }
    {
        StreamBuilder {
            alloc,
            trees: Trees::Shared(TokenStream::new(alloc)),
        }
    }

    /// Returns a builder of the first `count` trees of the list, and the other trees. If `count` is 0, the builder can
    /// still share the first stream that is added.
    pub(crate) fn of_first(
        alloc: Global,
        list: Vec<TokenTree>,
        count: usize,
    ) -> Result<(StreamBuilder, Vec<TokenTree>), AllocError>
        requires within { count ≤ length list.items }
        requires built { IsBuilt (forest list.items) }
        ensures first { IfOk result (λ parts. parts.0 ≡ forest (take count list.items)) }
        ensures rest { IfOk result (λ parts. parts.1.items ≡ drop count list.items) }
    {
        if count == 0 {
            return Ok((StreamBuilder::new(alloc), list));
        }
        let mut first = list;
        let rest = first.split_off(count)?;
        let builder = StreamBuilder {
            alloc,
            trees: Trees::Listed(first),
        };
        Ok((builder, rest))
    }

    /// Adds the tree at the end. About `more` trees are expected after it.
    #[inline(always)]
    pub(crate) fn put(&mut self, tree: TokenTree, more: usize) -> Result<(), AllocError>
        requires { GoesInside tree }
        ensures { OnOk result (self.new ≡ chain self.old (alone tree)) }
    {
        match &mut self.trees {
            Trees::Listed(list) => push(list, tree)?,
            Trees::Shared(stream) => {
                let mut list = copy_list(self.alloc, stream, more.saturating_add(1))?;
                push(&mut list, tree)?;
                self.trees = Trees::Listed(list);
            }
        }
        Ok(())
    }

    /// Adds a copy of the tree at the end. About `more` trees are expected after it.
    #[inline(always)]
    pub(crate) fn put_copy(&mut self, tree: &TokenTree, more: usize) -> Result<(), AllocError>
        requires { GoesInside tree.now }
        ensures { OnOk result (self.new ≡ chain self.old (alone tree.now)) }
    {
        match &mut self.trees {
            Trees::Listed(list) => copy_onto(list, tree)?,
            Trees::Shared(stream) => {
                let mut list = copy_list(self.alloc, stream, more.saturating_add(1))?;
                copy_onto(&mut list, tree)?;
                self.trees = Trees::Listed(list);
            }
        }
        Ok(())
    }

    /// Adds copies of the trees at the end. About `more` trees are expected after them.
    #[inline(never)]
    pub(crate) fn copy(&mut self, trees: &[TokenTree], more: usize) -> Result<(), AllocError>
        requires { IsBuilt (forest trees.now) }
        ensures { OnOk result (self.new ≡ chain self.old (forest trees.now)) }
    {
        match &mut self.trees {
            Trees::Listed(list) => {
                // The expected trees are counted too, so that the list grows only once.
                list.reserve(trees.len().saturating_add(more.min(MOST_ROOM)))?;
                push_copies(list, trees)?;
            }
            Trees::Shared(stream) => {
                let mut list = copy_list(self.alloc, stream, more.saturating_add(trees.len()))?;
                push_copies(&mut list, trees)?;
                self.trees = Trees::Listed(list);
            }
        }
        Ok(())
    }

    /// Adds the trees of the stream at the end. About `more` trees are expected after them.
    pub(crate) fn append(&mut self, stream: &TokenStream, more: usize) -> Result<(), AllocError>
        ensures { OnOk result (self.new ≡ chain self.old stream.now) }
    {
        if let Trees::Shared(first) = &self.trees {
            if first.is_empty() {
                self.trees = Trees::Shared(stream.clone()?);
                return Ok(());
            }
        }
        self.copy(stream.trees(), more)
    }

    /// Returns the stream of all trees that were added.
    pub(crate) fn finish(self) -> Result<TokenStream, AllocError>
        ensures { IfOk result (λ stream. stream ≡ self) }
    {
        let StreamBuilder { alloc, trees } = self;
        match trees {
            Trees::Shared(stream) => Ok(stream),
            Trees::Listed(mut list) => {
                // Fewer trees may have been added than expected. A list that grew by pushes is more than half full.
                if list.capacity() > FEW_TREES && list.len() <= list.capacity() / 2 {
                    list.shrink_to_fit();
                }
                parts::stream(alloc, list)
            }
        }
    }
}

/// Returns a list of copies of the stream's trees, with room for `more` trees but at most `MOST_ROOM` in all.
#[inline(never)]
fn copy_list(alloc: Global, stream: &TokenStream, more: usize) -> Result<Vec<TokenTree>, AllocError>
    ensures ok { IfOk result (λ list. forest list.items ≡ stream.now) }
    ensures built { IfOk result (λ list. IsBuilt (forest list.items)) }
{
    let trees = stream.trees();
    let room = trees.len().saturating_add(more).min(MOST_ROOM);
    let mut list = Vec::with_capacity(alloc, room.max(LEAST_ROOM))?;
    push_copies(&mut list, trees)?;
    Ok(list)
}

/// Adds the tree at the end of the list.
#[inline(always)]
fn push(list: &mut Vec<TokenTree>, tree: TokenTree) -> Result<(), AllocError>
    requires list { IsBuilt (forest list.old.items) }
    requires tree { GoesInside tree }
    ensures ok { OnOk result (forest list.new.items ≡ chain (forest list.old.items) (alone tree)) }
    ensures built { IsBuilt (forest list.new.items) }
{
    // It computes nothing: proofs learn what is true of every tree.
    tree.span();
    list.reserve(1)?;
    list.push_reserved(tree);
    Ok(())
}

/// Adds a copy of the tree at the end of the list, and proves that the list can become a stream.
#[inline(always)]
fn copy_onto(list: &mut Vec<TokenTree>, tree: &TokenTree) -> Result<(), AllocError>
    requires list { IsBuilt (forest list.old.items) }
    requires tree { GoesInside tree.now }
    ensures ok { OnOk result (forest list.new.items ≡ chain (forest list.old.items) (alone tree.now)) }
    ensures built { IsBuilt (forest list.new.items) }
{
    // It computes nothing: proofs learn what is true of every tree.
    tree.span();
    push_copy(list, tree)?;
    Ok(())
}

/// Adds copies of the trees at the end of the list. A copy of a group shares its contents.
#[inline(always)]
fn push_copies(list: &mut Vec<TokenTree>, trees: &[TokenTree]) -> Result<(), AllocError>
    requires list { IsBuilt (forest list.old.items) }
    requires trees { IsBuilt (forest trees.now) }
    ensures ok { OnOk result (forest list.new.items ≡ chain (forest list.old.items) (forest trees.now)) }
    ensures built { IsBuilt (forest list.new.items) }
{
    list.reserve(trees.len())?;
    for tree in trees {
        put_copy(list, tree)?;
    }
    Ok(())
}

/// Adds a copy of the tree at the end of the list. Room is reserved first, so that the copy is made in its slot.
#[inline(always)]
fn push_copy(list: &mut Vec<TokenTree>, tree: &TokenTree) -> Result<(), AllocError>
    ensures ok { OnOk result (list.new.items ≡ list.old.items ++ tree.now ∷ []) }
    ensures err { OnErr result (list.new.items ≡ list.old.items) }
{
    list.reserve(1)?;
    put_copy(list, tree)
}

/// Adds a copy of the tree at the end of the list, which must have room for it.
#[inline(always)]
fn put_copy(list: &mut Vec<TokenTree>, tree: &TokenTree) -> Result<(), AllocError>
    requires { vec_len list.old < vec_capacity list.old }
    ensures ok { OnOk result (list.new.items ≡ list.old.items ++ tree.now ∷ []) }
    ensures err { OnErr result (list.new.items ≡ list.old.items) }
    ensures len { OnOk result (vec_len list.new ≡ vec_len list.old + 1) }
    ensures capacity { vec_capacity list.new ≡ vec_capacity list.old }
{
    match tree {
        TokenTree::Group(group) => list.push_reserved(TokenTree::Group(group.clone()?)),
        TokenTree::Ident(ident) => list.push_reserved(TokenTree::Ident(ident.clone()?)),
        TokenTree::Punct(mark) => list.push_reserved(TokenTree::Punct(mark.clone()?)),
        TokenTree::Literal(literal) => list.push_reserved(TokenTree::Literal(literal.clone()?)),
    }
    Ok(())
}
