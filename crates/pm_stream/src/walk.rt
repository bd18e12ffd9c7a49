//! A walk over all trees of a stream, one at a time.
ghost use Rattle.std.specs.Prelude.{◌≡◌, List, [], ◌∷◌, IfOk, IfSome, MatchOption, OnErr};
ghost use Rattle.pm_stream.specs.InOrder.{in_order, in_order_onto, BeginsWithGroup};
ghost use Rattle.pm_stream.specs.Trees.{inside};
ghost use Rattle.pm_stream.specs.declared.stream.TokenTree.{TokenTree as TreeValue};

use crate::steps::Steps;
use crate::stream::{Group, TokenStream, TokenTree};
use std::alloc::AllocError;
use std::marker::Model;

/// A walk over the trees of a stream, each group before the trees inside it.
#[derive(Drop)]
pub struct Walk<'a> {
    steps: Steps<'a>,
}

impl<'a> Model for Walk<'a> {
    ghost use Rattle.std.specs.Prelude.{List};
    ghost use Rattle.pm_stream.specs.declared.stream.TokenTree.{TokenTree};

    ghost Value = { List TokenTree };

    ghost use Rattle.pm_stream.specs.contracts.stream.TokenTree as tree;
    ghost use Rattle.std.specs.Coded.{codes};

    ghost coded = { Prim.hlevel (codes, tree.the_row.coded) };

    ghost use Rattle.pm_stream.specs.Steps.{trees_given};

    ghost view = { λ walk. trees_given walk.steps };
}

impl TokenStream {
    /// Returns a walk over all trees of the stream, each group before the trees inside it (`reading-order`). It
    /// allocates nothing.
    ///
    /// `a (b) c` has four trees, in the order `a`, `(b)`, `b`, `c`.
    pub fn walk(&self) -> Walk<'_>
        ensures { result ≡ in_order self.now }
    {
        Walk {
            steps: self.steps(),
        }
    }
}

impl<'a> Walk<'a> {
    /// Returns the next tree, or `None` after the last.
    ///
    /// It allocates only at a group, to remember the trees after it. So it fails only if the next tree is a group.
    /// After an error the walk is as before.
    pub fn next(&mut self) -> Result<Option<&'a TokenTree>, AllocError>
        ensures ok { IfOk result (λ next. MatchOption next ((self.old ≡ []) × (self.new ≡ []))
            (λ tree. self.old ≡ tree.now ∷ self.new)) }
        ensures inside { IfOk result (λ next. IfSome next (λ tree.
            (rest : List TreeValue) × (self.new ≡ in_order_onto (inside tree.now) rest))) }
        ensures memory { OnErr result (BeginsWithGroup self.old) }
        ensures err { OnErr result (self.new ≡ self.old) }
    {
        loop {
            let tree = self.steps.front();
            let step = self.steps.next()?;
            if tree.is_some() || step.is_none() {
                return Ok(tree);
            }
        }
    }
    /// Skips the trees inside this group, which must be the tree that [`next`](Walk::next) returned last. It allocates
    /// nothing.
    ///
    /// In `a (b) c`, after `next` returned `(b)` and this call skipped its trees, the next tree is `c`.
    pub fn pass_over(&mut self, group: &Group)
        ensures { (rest : List TreeValue) → self.old ≡ in_order_onto group.now.stream rest → self.new ≡ rest }
    {
        self.steps.pass_trees(group.stream_ref().trees().len());
    }
}
