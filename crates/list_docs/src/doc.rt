//! Finds the text of a doc comment.
ghost use Rattle.std.specs.Prelude.{◌≡◌, [], ◌∷◌, IfSome, option_copied};
ghost use Rattle.proc_macro2.specs.Leaf.{Name, Mark};
ghost use Rattle.proc_macro2.specs.Trees.{forest, inside};
ghost use Rattle.proc_macro2.specs.declared.TokenTree.TheVariants.{Ident, Punct, Literal as LiteralTree};
ghost use Rattle.list_docs.specs.Doc.{doc_of};

use proc_macro2::{Literal, TokenTree};

/// Returns the literal of a doc comment if the tree is the group of one, and `None` otherwise.
///
/// Example: for the group in `#[doc = "x"]` it is `"x"`.
pub fn doc_text(tree: &TokenTree) -> Option<&Literal>
    ensures value { option_copied result ≡ doc_of tree.now }
    ensures trees { IfSome result (λ text. (name : Name) × (mark : Mark)
        × (inside tree.now ≡ forest (Ident name ∷ Punct mark ∷ LiteralTree text.now ∷ []))) }
{
    match tree {
        TokenTree::Group(group) => group.doc(),
        _ => None,
    }
}
