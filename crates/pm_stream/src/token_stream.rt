//! The iterator that takes a stream apart: it returns the trees one at a time.
ghost use Rattle.std.specs.Prelude.{◌≡◌, All, IfOk, Some, length};
ghost use Rattle.pm_span.specs.Files.{Files};
ghost use Rattle.pm_stream.specs.Forest.{IsBuilt};
ghost use Rattle.pm_stream.specs.HeldSpans.{HoldsAll, HoldsEach};
ghost use Rattle.pm_stream.specs.Trees.{forest, GoesInside};

pub use crate::stream::TokenStream;
use crate::stream::TokenTree;
use std::alloc::AllocError;
use std::collections::VecDeque;
use std::fmt;
use std::marker::Model;

/// An iterator over the trees of a stream, in order. A group is one item, with its trees inside it.
///
/// [`TokenStream::into_iter`] creates it.
#[derive(Drop)]
pub struct IntoIter {
    left: VecDeque<TokenTree>,
}

impl Model for IntoIter {
    ghost use Rattle.std.specs.Prelude.{List};
    ghost use Rattle.pm_stream.specs.declared.stream.TokenTree.{TokenTree};

    ghost Value = { List TokenTree };

    ghost use Rattle.pm_stream.specs.contracts.stream.TokenTree as tree;
    ghost use Rattle.std.specs.Coded.{codes};

    ghost coded = { Prim.hlevel (codes, tree.the_row.coded) };

    ghost view = { λ it. it.left.items };

    ghost use Rattle.std.specs.Prelude.{◌≡◌, length};
    ghost use Rattle.std.specs.VecDeque.{deque_len};
    ghost use Rattle.pm_stream.specs.Forest.{IsBuilt};
    ghost use Rattle.pm_stream.specs.Trees.{forest};

    ghost invariant = { λ it. (deque_len it.left ≡ length it.left.items) × IsBuilt (forest it.left.items) };
}

impl TokenStream {
    /// Returns an iterator over the stream's trees, in order. A group is one item, with its trees inside it:
    /// `a (b c) d` gives `a`, `(b c)` and `d`.
    ///
    /// If another stream shares the trees, they are copied. The call fails if memory for the copy runs out, and the
    /// other stream does not change. Without sharing, the call allocates nothing.
    pub fn into_iter(self) -> Result<IntoIter, AllocError>
        ensures value { IfOk result (λ it. forest it ≡ self) }
        ensures built { IsBuilt self }
        ensures inside { IfOk result (All GoesInside) }
        ensures held { (map : Files) → HoldsAll map self → IfOk result (HoldsEach map) }
    {
        Ok(IntoIter {
            left: VecDeque::from_vec(self.into_list()?),
        })
    }
}

impl Iterator for IntoIter {
    ghost use Rattle.std.specs.Iterator.{item_count};
    ghost use Rattle.pm_stream.specs.Given.{GivesTree};

    type Item = TokenTree;

    ghost next_gives = { GivesTree };

    ghost remaining = { item_count (λ left. left) };

    /// Returns the next tree, or `None` after the last. The tree may be put into a stream again, and the trees that are
    /// left are `built`.
    fn next(&mut self) -> Option<TokenTree> {
        self.left.pop_front()
    }

    /// Returns the exact number of trees that are left, as the lower and as the upper bound. A group counts as one.
    fn size_hint(&self) -> (usize, Option<usize>)
        ensures exact { result ≡ (length self.now, Some (length self.now)) }
    {
        let left = self.left.len();
        (left, Some(left))
    }
}

/// Returns an iterator over copies of the trees that are left. Fails if memory runs out.
impl Clone for IntoIter {
    ghost use Rattle.std.specs.Prelude.{◌≡◌};

    ghost is_clone = { λ it copy. copy ≡ it };

    fn clone(&self) -> Result<IntoIter, AllocError> {
        Ok(IntoIter {
            left: self.left.clone()?,
        })
    }
}

/// Shows the list of the trees that are left, in the form in which a stream is shown.
impl fmt::Debug for IntoIter {
    fn fmt<W: fmt::Write>(&self, f: &mut fmt::Formatter<W>) -> fmt::Result {
        f.write_str("TokenStream ")?;
        self.left.fmt(f)
    }
}
