//! Calls that change the list of a stream, which other streams may share.
ghost use Rattle.std.specs.Prelude.{◌≡◌, [], IfOk, IsSome, OnErr, OnOk};
ghost use Rattle.pm_stream.specs.Building.{split};
ghost use Rattle.pm_stream.specs.Forest.{chain};
ghost use Rattle.pm_stream.specs.Trees.{alone, before, forest, shared_trees};
ghost use Rattle.pm_stream.specs.declared.stream.TokenTree.TheVariants.{Group as GroupTree, Ident as IdentTree};
ghost use Rattle.pm_stream.specs.declared.stream.TokenTree.TheVariants.{Punct as PunctTree, Literal as LiteralTree};

use super::owned::unwrap_list;
use super::{Group, TokenStream, TokenTree};
use pm_token::parts::split_minus;
use pm_token::{Ident, Literal, Punct};
use std::alloc::{AllocError, Global};
use std::rc::Rc;

/// How many trees the first list of a stream has room for.
const FIRST_ROOM: usize = 4;

// Each kind of tree has functions of its own, down to the position in the list. A function for all kinds would first
// build the tree on the stack.
impl TokenStream {
    /// Appends the tree by the rule `split`. If memory runs out, the stream does not change.
    #[inline(always)]
    pub(crate) fn put(&mut self, tree: TokenTree) -> Result<(), AllocError>
        ensures ok { OnOk result (self.new ≡ chain self.old (split tree)) }
        ensures err { OnErr result (self.new ≡ self.old) }
    {
        match tree {
            TokenTree::Group(group) => self.put_group(group),
            TokenTree::Ident(ident) => self.put_ident(ident),
            TokenTree::Punct(punct) => self.put_punct(punct),
            TokenTree::Literal(literal) => self.put_literal(literal),
        }
    }

    /// Appends the group. If memory runs out, the stream does not change.
    #[inline(always)]
    pub(crate) fn put_group(&mut self, group: Group) -> Result<(), AllocError>
        ensures ok { OnOk result (self.new ≡ chain self.old (split (GroupTree group))) }
        ensures err { OnErr result (self.new ≡ self.old) }
    {
        // This call computes nothing: its contract tells proofs what is true of every group.
        group.span();
        push(self.alloc, &mut self.trees, TokenTree::Group(group))
    }

    /// Appends the identifier. If memory runs out, the stream does not change.
    #[inline(always)]
    pub(crate) fn put_ident(&mut self, ident: Ident) -> Result<(), AllocError>
        ensures ok { OnOk result (self.new ≡ chain self.old (split (IdentTree ident))) }
        ensures err { OnErr result (self.new ≡ self.old) }
    {
        // This call computes nothing: its contract tells proofs what is true of every identifier.
        ident.span();
        push(self.alloc, &mut self.trees, TokenTree::Ident(ident))
    }

    /// Appends the mark. If memory runs out, the stream does not change.
    #[inline(always)]
    pub(crate) fn put_punct(&mut self, punct: Punct) -> Result<(), AllocError>
        ensures ok { OnOk result (self.new ≡ chain self.old (split (PunctTree punct))) }
        ensures err { OnErr result (self.new ≡ self.old) }
    {
        // This call computes nothing: its contract tells proofs what is true of every mark.
        punct.span();
        push(self.alloc, &mut self.trees, TokenTree::Punct(punct))
    }

    /// Appends the literal; a negative one gives its `-` and the rest. If memory runs out, the stream does not change.
    #[inline(always)]
    pub(crate) fn put_literal(&mut self, literal: Literal) -> Result<(), AllocError>
        ensures ok { OnOk result (self.new ≡ chain self.old (split (LiteralTree literal))) }
        ensures err { OnErr result (self.new ≡ self.old) }
    {
        // This call computes nothing: its contract tells proofs what is true of every literal.
        literal.span();
        let (minus, literal) = split_minus(literal);
        match minus {
            None => push(self.alloc, &mut self.trees, TokenTree::Literal(literal)),
            Some(minus) => push_negative(self.alloc, &mut self.trees, minus, literal),
        }
    }

    /// Appends all trees of the other stream, or none if memory runs out.
    pub(crate) fn append(&mut self, more: TokenStream) -> Result<(), AllocError>
        ensures ok { OnOk result (self.new ≡ chain self.old more) }
        ensures err { OnErr result (self.new ≡ self.old) }
    {
        let TokenStream { alloc: _, trees } = more;
        match trees {
            Some(more) => append_shared(&mut self.trees, more),
            None => Ok(()),
        }
    }
}

/// Appends the tree to a list. A shared list is copied first.
#[inline(always)]
fn push(
    alloc: Global,
    trees: &mut Option<Rc<Vec<TokenTree>>>,
    tree: TokenTree,
) -> Result<(), AllocError>
    ensures ok { OnOk result (shared_trees trees.new ≡ chain (shared_trees trees.old) (alone tree)) }
    ensures err { OnErr result (shared_trees trees.new ≡ shared_trees trees.old) }
{
    make_list(alloc, trees)?;
    match trees {
        Some(shared) => push_onto(Rc::make_mut(shared)?, tree),
        None => unreachable!(),
    }
}

/// Appends both trees of a negative literal to a list, or neither if memory runs out.
#[inline(never)]
fn push_negative(
    alloc: Global,
    trees: &mut Option<Rc<Vec<TokenTree>>>,
    minus: Punct,
    literal: Literal,
) -> Result<(), AllocError>
    ensures ok { OnOk result (shared_trees trees.new ≡ chain (shared_trees trees.old)
        (before (PunctTree minus) (alone (LiteralTree literal)))) }
    ensures err { OnErr result (shared_trees trees.new ≡ shared_trees trees.old) }
{
    make_list(alloc, trees)?;
    match trees {
        Some(shared) => push_two(Rc::make_mut(shared)?, minus, literal),
        None => unreachable!(),
    }
}

/// Creates an empty list if there is no list.
#[inline(always)]
fn make_list(alloc: Global, trees: &mut Option<Rc<Vec<TokenTree>>>) -> Result<(), AllocError>
    ensures held { shared_trees trees.new ≡ shared_trees trees.old }
    ensures some { OnOk result (IsSome trees.new) }
{
    if trees.is_none() {
        *trees = Some(first_list(alloc)?);
    }
    Ok(())
}

/// Returns an empty list.
#[inline(never)]
fn first_list(alloc: Global) -> Result<Rc<Vec<TokenTree>>, AllocError>
    ensures { IfOk result (λ list. list.value.items ≡ []) }
{
    Ok(Rc::new(alloc, Vec::with_capacity(alloc, FIRST_ROOM)?)?)
}

/// Appends the tree to a list of one owner.
#[inline(always)]
fn push_onto(trees: &mut Vec<TokenTree>, tree: TokenTree) -> Result<(), AllocError>
    ensures ok { OnOk result (forest trees.new.items ≡ chain (forest trees.old.items) (alone tree)) }
    ensures err { OnErr result (forest trees.new.items ≡ forest trees.old.items) }
{
    trees.push(tree)?;
    Ok(())
}

/// Appends both trees, or neither: room for both is reserved before the first is appended.
fn push_two(trees: &mut Vec<TokenTree>, minus: Punct, literal: Literal) -> Result<(), AllocError>
    ensures ok { OnOk result (forest trees.new.items
        ≡ chain (forest trees.old.items) (before (PunctTree minus) (alone (LiteralTree literal)))) }
    ensures err { OnErr result (forest trees.new.items ≡ forest trees.old.items) }
{
    trees.reserve(2)?;
    trees.push(TokenTree::Punct(minus))?;
    trees.push(TokenTree::Literal(literal))?;
    Ok(())
}

/// Appends the trees of `more` to the list. They are moved if no stream shares them, and copied otherwise.
fn append_shared(
    trees: &mut Option<Rc<Vec<TokenTree>>>,
    more: Rc<Vec<TokenTree>>,
) -> Result<(), AllocError>
    ensures ok { OnOk result (shared_trees trees.new ≡ chain (shared_trees trees.old) (forest more.value.items)) }
    ensures err { OnErr result (shared_trees trees.new ≡ shared_trees trees.old) }
{
    if let Some(shared) = trees {
        let own = unwrap_list(more)?;
        return push_all(Rc::make_mut(shared)?, own);
    }
    *trees = Some(more);
    Ok(())
}

/// Appends all trees of `more`, or none if memory runs out.
#[tactic(auto, using(crate::proofs::BuildingLemmas::forest_append))]
fn push_all(trees: &mut Vec<TokenTree>, mut more: Vec<TokenTree>) -> Result<(), AllocError>
    ensures ok { OnOk result
        (forest trees.new.items ≡ chain (forest trees.old.items) (forest more.items)) }
    ensures err { OnErr result (forest trees.new.items ≡ forest trees.old.items) }
{
    trees.append(&mut more)?;
    Ok(())
}
