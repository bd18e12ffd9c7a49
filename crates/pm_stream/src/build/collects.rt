//! The traits `FromIterator` and `Extend` for streams.
ghost use Rattle.pm_stream.specs.Building.{PutsIn, split};
ghost use Rattle.pm_stream.specs.Forest.{nil};

use crate::stream::{Group, TokenStream, TokenTree};
use pm_token::{Ident, Literal, Punct};
use std::alloc::{AllocError, Global};

/// Collects trees into a stream, as [`TokenStream::from_trees`] does.
impl FromIterator<TokenTree> for TokenStream {
    type Alloc = Global;

    ghost from_iter_gives = { PutsIn split nil };

    fn from_iter<I: IntoIterator<Item = TokenTree>>(
        alloc: Global,
        trees: I,
    ) -> Result<TokenStream, AllocError> {
        TokenStream::from_trees(alloc, trees)
    }
}

/// Collects the trees of streams into one stream, as [`TokenStream::from_streams`] does.
impl FromIterator<TokenStream> for TokenStream {
    type Alloc = Global;

    ghost from_iter_gives = { PutsIn (λ stream. stream) nil };

    fn from_iter<I: IntoIterator<Item = TokenStream>>(
        alloc: Global,
        streams: I,
    ) -> Result<TokenStream, AllocError> {
        TokenStream::from_streams(alloc, streams)
    }
}

/// Appends trees, as [`TokenStream::extend_trees`] does.
impl Extend<TokenTree> for TokenStream {
    ghost extend_gives = { PutsIn split };

    fn extend<I: IntoIterator<Item = TokenTree>>(&mut self, trees: I) -> Result<(), AllocError> {
        self.extend_trees(trees)
    }
}

/// Appends the trees of streams, as [`TokenStream::extend_streams`] does.
impl Extend<TokenStream> for TokenStream {
    ghost extend_gives = { PutsIn (λ stream. stream) };

    fn extend<I: IntoIterator<Item = TokenStream>>(
        &mut self,
        streams: I,
    ) -> Result<(), AllocError> {
        self.extend_streams(streams)
    }
}

/// Appends groups, as [`TokenStream::extend_groups`] does.
impl Extend<Group> for TokenStream {
    ghost use Rattle.pm_stream.specs.declared.stream.TokenTree.TheVariants.{Group as GroupTree};

    ghost extend_gives = { PutsIn (λ group. split (GroupTree group)) };

    fn extend<I: IntoIterator<Item = Group>>(&mut self, groups: I) -> Result<(), AllocError> {
        self.extend_groups(groups)
    }
}

/// Appends identifiers, as [`TokenStream::extend_idents`] does.
impl Extend<Ident> for TokenStream {
    ghost use Rattle.pm_stream.specs.declared.stream.TokenTree.TheVariants.{Ident as IdentTree};

    ghost extend_gives = { PutsIn (λ ident. split (IdentTree ident)) };

    fn extend<I: IntoIterator<Item = Ident>>(&mut self, idents: I) -> Result<(), AllocError> {
        self.extend_idents(idents)
    }
}

/// Appends marks, as [`TokenStream::extend_puncts`] does.
impl Extend<Punct> for TokenStream {
    ghost use Rattle.pm_stream.specs.declared.stream.TokenTree.TheVariants.{Punct as PunctTree};

    ghost extend_gives = { PutsIn (λ punct. split (PunctTree punct)) };

    fn extend<I: IntoIterator<Item = Punct>>(&mut self, puncts: I) -> Result<(), AllocError> {
        self.extend_puncts(puncts)
    }
}

/// Appends literals, as [`TokenStream::extend_literals`] does.
impl Extend<Literal> for TokenStream {
    ghost use Rattle.pm_stream.specs.declared.stream.TokenTree.TheVariants.{Literal as LiteralTree};

    ghost extend_gives = { PutsIn (λ literal. split (LiteralTree literal)) };

    fn extend<I: IntoIterator<Item = Literal>>(&mut self, literals: I) -> Result<(), AllocError> {
        self.extend_literals(literals)
    }
}
