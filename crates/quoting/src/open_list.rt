//! Lists of trees that are open while a stream is changed.
//!
//! Groups may nest as deep as memory allows. So the lists of open groups are kept in a list and not on the stack. A
//! list in which nothing changes is not copied. It stays shared with the stream that it comes from.
ghost use Rattle.std.specs.Prelude.{◌≡◌, ◌<◌, [], ◌∷◌, IfOk, MatchOption, OnOk, length};
ghost use Rattle.proc_macro2.specs.Forest.{chain, nil};
ghost use Rattle.proc_macro2.specs.Trees.{alone, forest, GoesInside};
ghost use Rattle.quoting.specs.Part.{Adds, IsOpen, Keeps, KeepsUpTo, first_alone, first_group};

use crate::builder::StreamBuilder;
use crate::respace::with_contents;
use proc_macro2::{TokenStream, TokenTree};
use std::alloc::{AllocError, Global};
use std::marker::Model;

/// One list of trees, of which the first `done` trees are as they will be.
#[derive(Drop)]
pub(crate) struct OpenList<'a> {
    // The list without changes.
    stream: &'a TokenStream,
    trees: &'a [TokenTree],
    // The number of trees that are done.
    done: usize,
    // The done trees up to the last one that was changed, and their number.
    changed: Option<(StreamBuilder, usize)>,
}

impl<'a> Model for OpenList<'a> {
    ghost use Rattle.quoting.specs.Part.{Part, coded_part, done_of};
    ghost use Rattle.std.specs.Prelude.{◌≡◌, ◌≤◌, IfSome, drop, length};
    ghost use Rattle.proc_macro2.specs.Forest.{IsBuilt};
    ghost use Rattle.proc_macro2.specs.Trees.{forest};

    ghost Value = { Part };

    ghost coded = { coded_part };

    ghost view = { λ open_list. record {
      whole = open_list.stream.now;
      done = done_of open_list.changed open_list.done open_list.trees.now;
      count = open_list.done;
      left = drop open_list.done open_list.trees.now;
    } };

    ghost invariant = { λ open_list. (open_list.done ≤ length open_list.trees.now)
        × IfSome open_list.changed (λ changed. changed.1 ≤ open_list.done)
        × IsBuilt (forest open_list.trees.now)
        × (forest open_list.trees.now ≡ open_list.stream.now) };
}

impl<'a> OpenList<'a> {
    /// Returns the list of the stream, of which no tree is done.
    pub(crate) fn new(stream: &'a TokenStream) -> OpenList<'a>
        ensures whole { result.whole ≡ stream.now }
        ensures done { result.done ≡ nil }
        ensures count { result.count ≡ 0 }
        ensures left { forest result.left ≡ stream.now }
    {
        OpenList {
            stream,
            trees: stream.trees(),
            done: 0,
            changed: None,
        }
    }

    /// Returns the number of trees that are done.
    pub(crate) fn count(&self) -> usize
        ensures { result ≡ self.now.count }
    {
        self.done
    }

    /// Returns the first tree that is left, and the trees after it.
    pub(crate) fn next(&self) -> Option<(&'a TokenTree, &'a [TokenTree])>
        ensures { MatchOption result (self.now.left ≡ []) (λ next. self.now.left ≡ next.0.now ∷ next.1.now) }
    {
        self.trees[self.done..].split_first()
    }

    /// Replaces the first tree that is left by the same group with the done list `inner`. It must be the group that
    /// `inner` comes from, and all of `inner` must be done.
    pub(crate) fn close(&mut self, alloc: Global, inner: OpenList<'_>) -> Result<(), AllocError>
        requires open { IsOpen self.old.left inner.whole }
        requires all_done { inner.left ≡ [] }
        ensures { OnOk result (Adds self.old (first_group self.old.left inner.entry.done) self.new) }
    {
        let Some((tree, _)) = self.next() else {
            return Ok(());
        };
        let TokenTree::Group(group) = tree else {
            return Ok(());
        };
        if inner.changed.is_none() {
            self.keep();
            return Ok(());
        }
        let contents = inner.finish()?;
        self.replace(alloc, TokenTree::Group(with_contents(group, contents)))
    }

    /// Keeps the first tree that is left without a change.
    pub(crate) fn keep(&mut self)
        requires { 0 < length self.old.left }
        ensures { Adds self.old (first_alone self.old.left) self.new }
    {
        self.done += 1;
    }

    /// Keeps the trees that are left before this index of the list without a change.
    pub(crate) fn keep_before(&mut self, index: usize)
        ensures { KeepsUpTo index self.old self.new }
    {
        self.done = self.done.max(index.min(self.trees.len()));
    }

    /// Keeps all trees that are left without a change.
    pub(crate) fn keep_rest(&mut self)
        ensures kept { Keeps self.old self.new }
        ensures all { self.new.left ≡ [] }
    {
        self.done = self.trees.len();
    }

    /// Replaces the first tree that is left. The trees before it that are not copied yet are copied.
    pub(crate) fn replace(&mut self, alloc: Global, tree: TokenTree) -> Result<(), AllocError>
        requires left { 0 < length self.old.left }
        requires inside { GoesInside tree }
        ensures { OnOk result (Adds self.old (alone tree) self.new) }
    {
        let (mut changed, count) = match self.changed.take() {
            Some(changed) => changed,
            None => (StreamBuilder::new(alloc), 0),
        };
        changed.copy(&self.trees[..self.done][count..], self.trees.len())?;
        changed.put(tree, 0)?;
        self.done += 1;
        self.changed = Some((changed, self.done));
        Ok(())
    }

    /// Returns the done list. All of its trees must be done.
    pub(crate) fn finish(self) -> Result<TokenStream, AllocError>
        requires { self.left ≡ [] }
        ensures { IfOk result (λ stream. stream ≡ self.entry.done) }
    {
        let OpenList {
            stream,
            trees,
            done,
            changed,
        } = self;
        match changed {
            Some((mut changed, count)) => {
                changed.copy(&trees[..done][count..], 0)?;
                changed.finish()
            }
            None => stream.clone(),
        }
    }
}
