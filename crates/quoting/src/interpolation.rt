//! Finds the holes and repetitions of a template.
ghost use Rattle.std.specs.Prelude.{◌≡◌, ◌∷◌, IfSome, drop};
ghost use Rattle.std.specs.Char.{is_ascii_digit};
ghost use Rattle.std.specs.List.{list_all};
ghost use Rattle.std.specs.Str.{chars};
ghost use Rattle.proc_macro2.specs.Trees.{forest};
ghost use Rattle.proc_macro2.specs.declared.TokenTree.TheVariants.{Group as GroupTree};
ghost use Rattle.quoting.specs.Given.{begun_as, named_by, repeats, rest_of, interpolation_of, tree_is_mark, tree_name};
ghost use Rattle.quoting.specs.Interpolation.{after_hash, tree_count};

use crate::holes::HoleName;
use proc_macro2::{Delimiter, Group, Punct, TokenTree};

/// A hole or a repetition in a template, and the trees after it.
#[derive(Clone, Copy)]
pub(crate) enum FoundInterpolation<'a> {
    // `#` and the name of a hole.
    Names(HoleName<'a>, &'a [TokenTree]),
    // `#( .. )*`, or with a mark before `*`.
    Repeats(Repetition<'a>, &'a [TokenTree]),
}

/// The group that is repeated, and the mark between two turns.
#[derive(Clone, Copy)]
pub(crate) struct Repetition<'a> {
    pub(crate) body: &'a Group,
    pub(crate) separator: Option<&'a Punct>,
}

/// Returns the hole or the repetition that begins with the tree. Returns `None` if the tree is an ordinary one.
#[inline(always)]
pub(crate) fn interpolation_at<'a>(
    tree: &TokenTree,
    after: &'a [TokenTree],
) -> Option<FoundInterpolation<'a>>
    ensures found { begun_as result ≡ interpolation_of tree.now (forest after.now) }
    ensures rest { IfSome result (λ found. rest_of found ≡ drop (tree_count (begun_as result)) after.now) }
{
    if !is_mark(tree, '#') {
        return None;
    }
    interpolation_after(after)
}

/// Returns the hole or the repetition that a `#` before these trees begins.
#[inline(never)]
fn interpolation_after(after: &[TokenTree]) -> Option<FoundInterpolation<'_>>
    ensures found { begun_as result ≡ after_hash (forest after.now) }
    ensures rest { IfSome result (λ found. rest_of found ≡ drop (tree_count (begun_as result)) after.now) }
{
    let (first, rest) = after.split_first()?;
    if let TokenTree::Group(body) = first {
        return repetition_of(body, rest);
    }
    Some(FoundInterpolation::Names(name_of(first)?, rest))
}

/// Returns the repetition of the group, if the trees after it are a `*`, or a mark and a `*`.
fn repetition_of<'a>(body: &'a Group, after: &'a [TokenTree]) -> Option<FoundInterpolation<'a>>
    ensures found { begun_as result ≡ repeats body.now (forest after.now) }
    ensures rest { IfSome result (λ found.
        rest_of found ≡ drop (tree_count (begun_as result)) (GroupTree body.now ∷ after.now)) }
{
    if body.delimiter() != Delimiter::Parenthesis {
        return None;
    }
    let (first, rest) = after.split_first()?;
    if is_mark(first, '*') {
        let separator = None;
        return Some(FoundInterpolation::Repeats(Repetition { body, separator }, rest));
    }
    let (second, rest) = rest.split_first()?;
    let TokenTree::Punct(mark) = first else {
        return None;
    };
    if !is_mark(second, '*') {
        return None;
    }
    let separator = Some(mark);
    Some(FoundInterpolation::Repeats(Repetition { body, separator }, rest))
}

/// Returns the tree as a hole's name: an identifier, or a literal of digits alone.
fn name_of(tree: &TokenTree) -> Option<HoleName<'_>>
    ensures { named_by result ≡ tree_name tree.now }
{
    match tree {
        TokenTree::Ident(ident) => Some(HoleName::IdentName(ident)),
        TokenTree::Literal(literal) if all_digits(literal.text()) => Some(HoleName::Digits(
            literal,
        )),
        _ => None,
    }
}

/// Returns whether the text has only ASCII digits.
fn all_digits(text: &str) -> bool
    ensures { result ≡ list_all is_ascii_digit (chars text.now) }
{
    text.chars().all(|c| c.is_ascii_digit())
}

/// Returns whether the tree is this mark, with any spacing.
#[inline(always)]
fn is_mark(tree: &TokenTree, mark: char) -> bool
    ensures { result ≡ tree_is_mark mark tree.now }
{
    match tree {
        TokenTree::Punct(punct) => punct.as_char() == mark,
        _ => false,
    }
}
