//! Streams that are made of copies of trees.
ghost use Rattle.std.specs.Prelude.{◌≡◌, ◌++◌, [], ◌∷◌, IfOk, OnOk};
ghost use Rattle.proc_macro2.specs.Building.{split};
ghost use Rattle.proc_macro2.specs.Forest.{chain};
ghost use Rattle.write_getters.specs.Copies.{copy_trees};

use proc_macro2::{TokenStream, TokenTree};
use std::alloc::{AllocError, Global};

/// Returns a stream of copies of the trees. The only error is that memory runs out.
pub fn copy_trees(alloc: Global, trees: &[TokenTree]) -> Result<TokenStream, AllocError>
    ensures { IfOk result (λ stream. stream ≡ copy_trees trees.now) }
{
    let mut stream = TokenStream::new(alloc);
    put_copies(&mut stream, trees)?;
    Ok(stream)
}

/// Appends copies of the trees to the stream. The only error is that memory runs out.
pub fn put_copies(stream: &mut TokenStream, trees: &[TokenTree]) -> Result<(), AllocError>
    ensures { OnOk result (stream.new ≡ chain stream.old (copy_trees trees.now)) }
{
    for tree in trees {
        put(stream, tree.clone()?)?;
    }
    Ok(())
}

/// Appends the tree to the stream. The only error is that memory runs out.
pub fn put(stream: &mut TokenStream, tree: TokenTree) -> Result<(), AllocError>
    ensures { OnOk result (stream.new ≡ chain stream.old (split tree)) }
{
    stream.extend_trees([tree])
}

/// Appends the stream to the list. The only error is that memory runs out.
pub fn add(list: &mut Vec<TokenStream>, stream: TokenStream) -> Result<(), AllocError>
    ensures { OnOk result (list.new.items ≡ list.old.items ++ stream ∷ []) }
{
    list.push(stream)?;
    Ok(())
}
