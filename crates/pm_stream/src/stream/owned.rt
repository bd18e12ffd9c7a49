//! The trees of a stream as a list with one owner.
ghost use Rattle.std.specs.Prelude.{◌≡◌, IfOk};
ghost use Rattle.pm_stream.specs.Forest.{IsBuilt};
ghost use Rattle.pm_stream.specs.Trees.{forest, shared_trees};

use super::{TokenStream, TokenTree};
use std::alloc::{AllocError, Global};
use std::rc::Rc;

impl TokenStream {
    /// Returns the stream's trees, in order. A list that no other stream shares is moved. A shared list is copied,
    /// which fails if memory runs out.
    pub(crate) fn into_list(self) -> Result<Vec<TokenTree>, AllocError>
        ensures value { IfOk result (λ list. forest list.items ≡ self) }
        ensures built { IsBuilt self }
    {
        let TokenStream { alloc, trees } = self;
        take_list(alloc, trees)
    }
}

/// Returns the trees that a stream holds: the list itself if this was its last owner, and otherwise a copy.
fn take_list(alloc: Global, trees: Option<Rc<Vec<TokenTree>>>) -> Result<Vec<TokenTree>, AllocError>
    ensures { IfOk result (λ list. forest list.items ≡ shared_trees trees) }
{
    match trees {
        None => Ok(Vec::new(alloc)),
        Some(shared) => unwrap_list(shared),
    }
}

/// Returns the list itself if this was its last owner, and otherwise a copy.
#[tactic(auto, using(crate::proofs::BuildingLemmas::clones_same))]
pub(super) fn unwrap_list(shared: Rc<Vec<TokenTree>>) -> Result<Vec<TokenTree>, AllocError>
    ensures { IfOk result (λ list. list.items ≡ shared.value.items) }
{
    Rc::unwrap_or_clone(shared)
}
