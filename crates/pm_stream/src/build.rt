//! Calls that build and change streams.
ghost use Rattle.std.specs.Prelude.{◌≡◌, IfErr, IfOk, OnErr};
ghost use Rattle.std.specs.Iterator.{ExtendsWithItems, IsFiniteIterable};
ghost use Rattle.pm_stream.specs.Building.{GivesAll, GivesAnItem, PutsIn, RefusesAnItem, trees_of_all, split};
ghost use Rattle.pm_stream.specs.Forest.{Forest};

mod collects;

use crate::stream::{Group, TokenStream, TokenTree};
use pm_token::{Ident, Literal, Punct};
use std::alloc::{AllocError, Global};

impl TokenStream {
    ghost use Rattle.pm_stream.specs.declared.stream.TokenTree.TheVariants.{Group as GroupTree, Ident as IdentTree};
    ghost use Rattle.pm_stream.specs.declared.stream.TokenTree.TheVariants.{Punct as PunctTree, Literal as LiteralTree};

    /// Returns the stream of this tree, by the rule `split`. Fails if memory runs out.
    ///
    /// A negative literal gives two trees: `-3i32` gives the mark `-` Alone and the literal `3i32`, both with the span
    /// of `-3i32`. Any other tree gives itself.
    pub fn from_tree(alloc: Global, tree: TokenTree) -> Result<TokenStream, AllocError>
        ensures ok { IfOk result (λ stream. stream ≡ split tree) }
    {
        let mut stream = TokenStream::new(alloc);
        stream.put(tree)?;
        Ok(stream)
    }

    /// Returns the stream of these trees, in order, each by the rule `split`. Fails if memory runs out. Without trees
    /// it never fails.
    pub fn from_trees<I: IntoIterator<Item = TokenTree>>(
        alloc: Global,
        trees: I,
    ) -> Result<TokenStream, AllocError>
        requires { IsFiniteIterable I.into_iter_gives I.IntoIter.can_next I.IntoIter.remaining trees }
        ensures ok { IfOk result (λ stream. GivesAll I.into_iter_gives I.IntoIter.next_gives trees
            (λ trees. stream ≡ trees_of_all split trees)) }
        ensures memory { IfErr result (λ _. GivesAnItem I.into_iter_gives I.IntoIter.next_gives trees) }
    {
        let mut stream = TokenStream::new(alloc);
        stream.extend_trees(trees)?;
        Ok(stream)
    }

    /// Returns the stream of the trees of these streams, one stream after another. Fails if memory runs out. Without
    /// streams it never fails.
    ///
    /// Trees that no other stream shares are moved, not copied.
    pub fn from_streams<I: IntoIterator<Item = TokenStream>>(
        alloc: Global,
        streams: I,
    ) -> Result<TokenStream, AllocError>
        requires { IsFiniteIterable I.into_iter_gives I.IntoIter.can_next I.IntoIter.remaining streams }
        ensures ok { IfOk result (λ stream. GivesAll I.into_iter_gives I.IntoIter.next_gives streams
            (λ streams. stream ≡ trees_of_all (λ stream. stream) streams)) }
        ensures memory { IfErr result (λ _. GivesAnItem I.into_iter_gives I.IntoIter.next_gives streams) }
    {
        let mut stream = TokenStream::new(alloc);
        stream.extend_streams(streams)?;
        Ok(stream)
    }

    /// Appends these trees to the stream, in order, each by the rule `split`.
    ///
    /// If memory runs out, the stream keeps the trees that were appended before. Of a negative literal, both trees are
    /// appended or neither. Without trees the call never fails. Other streams that share the old trees do not change.
    #[tactic(auto, using(crate::proofs::BuildingLemmas::joined_nil, crate::proofs::BuildingLemmas::puts_more))]
    pub fn extend_trees<I: IntoIterator<Item = TokenTree>>(
        &mut self,
        trees: I,
    ) -> Result<(), AllocError>
        requires { IsFiniteIterable I.into_iter_gives I.IntoIter.can_next I.IntoIter.remaining trees }
        ensures ran { ExtendsWithItems I.into_iter_gives I.IntoIter.next_gives (PutsIn split)
            trees self.old self.new result }
        ensures memory { OnErr result (GivesAnItem I.into_iter_gives I.IntoIter.next_gives trees) }
        ensures refused { OnErr result (RefusesAnItem I.into_iter_gives I.IntoIter.next_gives (PutsIn split)
            trees self.old self.new) }
    {
        for tree in trees {
            self.put(tree)?;
        }
        Ok(())
    }

    /// Appends the trees of these streams, one stream after another.
    ///
    /// If memory runs out, the streams that were appended before remain, and no tree of the next stream is appended.
    /// Trees that no other stream shares are moved, not copied.
    #[tactic(auto, using(crate::proofs::BuildingLemmas::joined_nil, crate::proofs::BuildingLemmas::puts_more))]
    pub fn extend_streams<I: IntoIterator<Item = TokenStream>>(
        &mut self,
        streams: I,
    ) -> Result<(), AllocError>
        requires { IsFiniteIterable I.into_iter_gives I.IntoIter.can_next I.IntoIter.remaining streams }
        ensures ran { ExtendsWithItems I.into_iter_gives I.IntoIter.next_gives (PutsIn (λ stream. stream))
            streams self.old self.new result }
        ensures memory { OnErr result (GivesAnItem I.into_iter_gives I.IntoIter.next_gives streams) }
        ensures refused { OnErr result (RefusesAnItem I.into_iter_gives I.IntoIter.next_gives
            (PutsIn (λ stream. stream)) streams self.old self.new) }
    {
        for stream in streams {
            self.append(stream)?;
        }
        Ok(())
    }

    /// Appends these groups to the stream, as [`extend_trees`](TokenStream::extend_trees) does.
    #[tactic(auto, using(crate::proofs::BuildingLemmas::joined_nil, crate::proofs::BuildingLemmas::puts_more))]
    pub fn extend_groups<I: IntoIterator<Item = Group>>(
        &mut self,
        groups: I,
    ) -> Result<(), AllocError>
        requires { IsFiniteIterable I.into_iter_gives I.IntoIter.can_next I.IntoIter.remaining groups }
        ensures ran { ExtendsWithItems I.into_iter_gives I.IntoIter.next_gives
            (PutsIn (λ group. split (GroupTree group)))
            groups self.old self.new result }
        ensures memory { OnErr result (GivesAnItem I.into_iter_gives I.IntoIter.next_gives groups) }
        ensures refused { OnErr result (RefusesAnItem I.into_iter_gives I.IntoIter.next_gives
            (PutsIn (λ group. split (GroupTree group))) groups self.old self.new) }
    {
        for group in groups {
            self.put_group(group)?;
        }
        Ok(())
    }

    /// Appends these identifiers to the stream, as [`extend_trees`](TokenStream::extend_trees) does.
    #[tactic(auto, using(crate::proofs::BuildingLemmas::joined_nil, crate::proofs::BuildingLemmas::puts_more))]
    pub fn extend_idents<I: IntoIterator<Item = Ident>>(
        &mut self,
        idents: I,
    ) -> Result<(), AllocError>
        requires { IsFiniteIterable I.into_iter_gives I.IntoIter.can_next I.IntoIter.remaining idents }
        ensures ran { ExtendsWithItems I.into_iter_gives I.IntoIter.next_gives
            (PutsIn (λ ident. split (IdentTree ident)))
            idents self.old self.new result }
        ensures memory { OnErr result (GivesAnItem I.into_iter_gives I.IntoIter.next_gives idents) }
        ensures refused { OnErr result (RefusesAnItem I.into_iter_gives I.IntoIter.next_gives
            (PutsIn (λ ident. split (IdentTree ident))) idents self.old self.new) }
    {
        for ident in idents {
            self.put_ident(ident)?;
        }
        Ok(())
    }

    /// Appends these marks to the stream, as [`extend_trees`](TokenStream::extend_trees) does.
    #[tactic(auto, using(crate::proofs::BuildingLemmas::joined_nil, crate::proofs::BuildingLemmas::puts_more))]
    pub fn extend_puncts<I: IntoIterator<Item = Punct>>(
        &mut self,
        puncts: I,
    ) -> Result<(), AllocError>
        requires { IsFiniteIterable I.into_iter_gives I.IntoIter.can_next I.IntoIter.remaining puncts }
        ensures ran { ExtendsWithItems I.into_iter_gives I.IntoIter.next_gives
            (PutsIn (λ punct. split (PunctTree punct)))
            puncts self.old self.new result }
        ensures memory { OnErr result (GivesAnItem I.into_iter_gives I.IntoIter.next_gives puncts) }
        ensures refused { OnErr result (RefusesAnItem I.into_iter_gives I.IntoIter.next_gives
            (PutsIn (λ punct. split (PunctTree punct))) puncts self.old self.new) }
    {
        for punct in puncts {
            self.put_punct(punct)?;
        }
        Ok(())
    }

    /// Appends these literals to the stream, as [`extend_trees`](TokenStream::extend_trees) does. A negative literal
    /// gives its `-` and the rest.
    #[tactic(auto, using(crate::proofs::BuildingLemmas::joined_nil, crate::proofs::BuildingLemmas::puts_more))]
    pub fn extend_literals<I: IntoIterator<Item = Literal>>(
        &mut self,
        literals: I,
    ) -> Result<(), AllocError>
        requires { IsFiniteIterable I.into_iter_gives I.IntoIter.can_next I.IntoIter.remaining literals }
        ensures ran { ExtendsWithItems I.into_iter_gives I.IntoIter.next_gives
            (PutsIn (λ literal. split (LiteralTree literal)))
            literals self.old self.new result }
        ensures memory { OnErr result (GivesAnItem I.into_iter_gives I.IntoIter.next_gives literals) }
        ensures refused { OnErr result (RefusesAnItem I.into_iter_gives I.IntoIter.next_gives
            (PutsIn (λ literal. split (LiteralTree literal))) literals self.old self.new) }
    {
        for literal in literals {
            self.put_literal(literal)?;
        }
        Ok(())
    }
}
