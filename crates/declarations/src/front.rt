//! The attributes and the visibility before a field, a variant or an item.
ghost use Rattle.std.specs.Prelude.{◌≡◌, MatchResult};
ghost use Rattle.declarations.specs.Field.{ReadsFront};
ghost use Rattle.declarations.specs.Parts.{is_group_of, is_pub_tree};
ghost use Rattle.declarations.specs.Reader.{Finds, Sticks};
ghost use Rattle.declarations.specs.rules.Parts.{attributes, restriction, visibility};

use crate::parameter::past_attributes;
use crate::reader::{is, part};
use crate::signs::group_class;
use item_tables::class::SignClass;
use pm_stream::TokenTree;

/// Attributes and a visibility.
#[derive(Clone, Copy)]
pub(crate) struct Front<'a> {
    /// The outer attributes, perhaps none.
    pub attributes: &'a [TokenTree],
    /// The visibility, or no trees.
    pub visibility: &'a [TokenTree],
}

/// Reads attributes and a visibility. Returns them and the trees after them, or the trees from the error on.
#[tactic(auto, using(crate::proofs::FieldLemmas::fronts))]
pub(crate) fn front_of(trees: &[TokenTree]) -> Result<(Front<'_>, &[TokenTree]), &[TokenTree]>
    ensures { MatchResult result
        (λ found. ReadsFront trees.now found.0.attributes.now found.0.visibility.now found.1.now)
        (λ left. Sticks attributes trees.now left.now) }
{
    match past_attributes(trees) {
        Ok(from_visibility) => {
            let rest = past_visibility(from_visibility);
            let front = Front {
                attributes: part(trees, from_visibility),
                visibility: part(from_visibility, rest),
            };
            Ok((front, rest))
        }
        Err(left) => Err(left),
    }
}

/// Skips a visibility, if one is next. The class of an identifier is not computed.
#[tactic(auto, using(crate::proofs::FrontLemmas::visibilities))]
pub(crate) fn past_visibility(trees: &[TokenTree]) -> &[TokenTree]
    ensures { Finds visibility trees.now result.now }
{
    match trees.split_first() {
        Some((tree, rest)) => {
            if is_pub(tree) {
                return past_restriction(rest);
            }
            if is_group_of(SignClass::Visibility, tree) {
                return rest;
            }
            trees
        }
        None => trees,
    }
}

/// Skips a restriction, if one is next.
#[tactic(auto, using(crate::proofs::FrontLemmas::restrictions))]
fn past_restriction(trees: &[TokenTree]) -> &[TokenTree]
    ensures { Finds restriction trees.now result.now }
{
    match trees.split_first() {
        Some((tree, rest)) => {
            if is_group_of(SignClass::Restriction, tree) {
                rest
            } else {
                trees
            }
        }
        None => trees,
    }
}

/// Whether the tree is `pub`.
fn is_pub(tree: &TokenTree) -> bool
    ensures { result ≡ is_pub_tree tree.now }
{
    match tree {
        TokenTree::Ident(word) => word.eq_str("pub"),
        TokenTree::Group(_) | TokenTree::Punct(_) | TokenTree::Literal(_) => false,
    }
}

/// Whether the tree is a group of this class.
fn is_group_of(class: SignClass, tree: &TokenTree) -> bool
    ensures { result ≡ is_group_of class tree.now }
{
    match tree {
        TokenTree::Group(group) => is(class, group_class(group)),
        TokenTree::Ident(_) | TokenTree::Punct(_) | TokenTree::Literal(_) => false,
    }
}
