//! Conversions of tokens and groups to trees.

use super::{Group, TokenTree};
use pm_token::{Ident, Literal, Punct};

/// Makes a tree of a group.
impl From<Group> for TokenTree {
    ghost use Rattle.std.specs.Prelude.{◌≡◌};
    ghost use Rattle.pm_stream.specs.declared.stream.TokenTree.TheVariants as trees;

    ghost from_gives = { λ group tree. tree ≡ trees.Group group };

    fn from(group: Group) -> TokenTree {
        TokenTree::Group(group)
    }
}

/// Makes a tree of an identifier.
impl From<Ident> for TokenTree {
    ghost use Rattle.std.specs.Prelude.{◌≡◌};
    ghost use Rattle.pm_stream.specs.declared.stream.TokenTree.TheVariants as trees;

    ghost from_gives = { λ ident tree. tree ≡ trees.Ident ident };

    fn from(ident: Ident) -> TokenTree {
        TokenTree::Ident(ident)
    }
}

/// Makes a tree of a mark.
impl From<Punct> for TokenTree {
    ghost use Rattle.std.specs.Prelude.{◌≡◌};
    ghost use Rattle.pm_stream.specs.declared.stream.TokenTree.TheVariants as trees;

    ghost from_gives = { λ punct tree. tree ≡ trees.Punct punct };

    fn from(punct: Punct) -> TokenTree {
        TokenTree::Punct(punct)
    }
}

/// Makes a tree of a literal.
impl From<Literal> for TokenTree {
    ghost use Rattle.std.specs.Prelude.{◌≡◌};
    ghost use Rattle.pm_stream.specs.declared.stream.TokenTree.TheVariants as trees;

    ghost from_gives = { λ literal tree. tree ≡ trees.Literal literal };

    fn from(literal: Literal) -> TokenTree {
        TokenTree::Literal(literal)
    }
}
