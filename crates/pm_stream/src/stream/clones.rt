//! Copies of streams and trees.
ghost use Rattle.std.specs.Prelude.{◌≡◌};
ghost use Rattle.pm_stream.specs.Forest.{nil};

use super::{Group, TokenStream, TokenTree};
use std::alloc::AllocError;

/// Returns a stream of the same trees. They are shared until one of the two streams is changed, so this allocates
/// nothing, however many trees there are. It fails only if the trees have more owners than can be counted, and never
/// for an empty stream.
impl Clone for TokenStream {
    ghost is_clone = { λ stream copy. copy ≡ stream };

    ghost is_infallible = { λ stream. stream ≡ nil };

    fn clone(&self) -> Result<TokenStream, AllocError> {
        if self.is_empty() {
            return Ok(TokenStream::new(self.alloc));
        }
        let trees = match &self.trees {
            Some(trees) => Some(trees.clone()?),
            None => None,
        };
        Ok(TokenStream {
            alloc: self.alloc,
            trees,
        })
    }
}

/// Returns the same tree, with the same spans. Fails if memory for its text runs out.
impl Clone for TokenTree {
    ghost is_clone = { λ tree copy. copy ≡ tree };

    #[inline(always)]
    fn clone(&self) -> Result<TokenTree, AllocError> {
        match self {
            TokenTree::Group(group) => Ok(TokenTree::Group(group.clone()?)),
            TokenTree::Ident(ident) => Ok(TokenTree::Ident(ident.clone()?)),
            TokenTree::Punct(punct) => Ok(TokenTree::Punct(punct.clone()?)),
            TokenTree::Literal(literal) => Ok(TokenTree::Literal(literal.clone()?)),
        }
    }
}

/// Returns the same group. The trees inside are shared, as those of a cloned stream are.
impl Clone for Group {
    ghost is_clone = { λ group copy. copy ≡ group };

    ghost is_infallible = { λ group. group.stream ≡ nil };

    fn clone(&self) -> Result<Group, AllocError> {
        Ok(Group {
            delimiter: self.delimiter,
            stream: self.stream.clone()?,
            span: self.span,
        })
    }
}
