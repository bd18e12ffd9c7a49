//! Files, and the bodies of modules, traits, `impl`s and `extern` blocks: inner attributes, and then items.
ghost use Rattle.std.specs.Prelude.{◌≡◌, [], IfErr, IfOk, List, MatchOption, None, Option, Some, length};
ghost use Rattle.pm_stream.specs.declared.stream.TokenTree.{TokenTree as Tree};
ghost use Rattle.pm_token.specs.Leaf.{Name};
ghost use Rattle.declarations.specs.Expected.{Expects};
ghost use Rattle.declarations.specs.Fault.{extent_at};
ghost use Rattle.declarations.specs.File.{FileFaultAt, IsFile, body_of, braces, last_braces};
ghost use Rattle.declarations.specs.Forms.{IsAnyItem};
ghost use Rattle.declarations.specs.Kind.{HasKind};
ghost use Rattle.declarations.specs.Reading.{FaultAt};
ghost use Rattle.declarations.specs.Whole.{IsWhole, ReadsAll};

use crate::any_item::{AnyItem, ItemKind, name_of, split_any_item};
use crate::explore::fault_by;
use crate::fault::Fault;
use crate::item_kinds::past_any_item;
use crate::item_syntax::ANY_ITEM;
use crate::part_splitting::split_inner_attributes;
use pm_stream::{Group, TokenTree};
use pm_token::Delimiter;

/// The content of a file, or of the braces of a module, a trait, an `impl` or an `extern` block.
#[derive(Clone, Copy)]
pub struct File<'a> {
    /// The inner attributes, perhaps none.
    pub inner: &'a [TokenTree],
    /// The items after the inner attributes.
    pub items: Items<'a>,
}

/// The remaining items of a file, in order. The iterator is `Copy`.
///
/// It gives each item as [`split_any_item`] reads it from the remaining trees. At an error it gives a `Fault`, whose
/// `at` counts from the start of the remaining trees, and then ends. It allocates nothing. The items that
/// [`parse_file`] returns have no error. For `fn f() {} struct S;` the iterator gives the function `f` and the struct
/// `S`.
#[derive(Clone, Copy, Debug)]
pub struct Items<'a> {
    /// The trees that are not yet read.
    pub left: &'a [TokenTree],
}

/// Reads all of the trees as a file: inner attributes, and then items.
///
/// If the trees are no file, the call returns a `Fault`. The error is in the inner attributes, or in the first item
/// that [`split_any_item`] cannot read. Its `at` counts from the start of the file. The call does not read the trees
/// inside the items' groups, and allocates nothing. For `#![a] fn f() {} struct S;` the inner attributes are `#![a]`,
/// and there are two items.
pub fn parse_file(trees: &[TokenTree]) -> Result<File<'_>, Fault>
    ensures ok { IfOk result (λ file. IsFile trees.now file.inner.now file.items.left.now) }
    ensures fault { IfErr result (λ fault. FileFaultAt trees.now fault.at fault.expected) }
    ensures span { IfErr result (λ fault. fault.span ≡ extent_at trees.now fault.at) }
    ensures none { IfErr result (λ fault. (inner : List Tree) → (items : List Tree) → IsFile trees.now inner items
        → ⊥) }
{
    let (inner, items) = split_inner_attributes(trees)?;
    let mut left = items;
    while !left.is_empty() {
        match split_any_item(left) {
            Ok((_, rest)) => left = rest,
            Err(fault) => {
                let at = trees.len() - left.len() + fault.at;
                return Err(fault.after(at));
            }
        }
    }
    Ok(File {
        inner,
        items: Items { left: items },
    })
}

/// Reads all of the trees as one item.
///
/// It returns `Ok` exactly if [`split_any_item`] reads all of the trees. Otherwise it returns a `Fault` at the first
/// tree that does not fit or is too many, or at the end if trees are missing. It allocates nothing. `fn f() {}` gives
/// the function `f`, and `fn f() {} fn g() {}` has an error at the second `fn`.
#[tactic(auto, using(crate::proofs::AnyItemLemmas::wholes))]
pub fn parse_item(trees: &[TokenTree]) -> Result<AnyItem<'_>, Fault>
    ensures ok { IfOk result (λ item. ReadsAll IsAnyItem trees.now × (item.trees.now ≡ trees.now)) }
    // The item has the keyword of its kind, and reads from its name on by the rule of its kind.
    ensures kind_and_name { IfOk result (λ item. (name : Option Name) × HasKind trees.now [] item.kind name
        × MatchOption item.name (name ≡ None) (λ ident. name ≡ Some ident.now)) }
    ensures fault { IfErr result (λ fault. FaultAt (IsWhole IsAnyItem) trees.now fault.at) }
    ensures span { IfErr result (λ fault. fault.span ≡ extent_at trees.now fault.at) }
    ensures expected { IfErr result (λ fault. Expects IsAnyItem trees.now fault.at fault.expected) }
{
    match past_any_item(trees) {
        Ok(found) => {
            if found.rest.is_empty() {
                let name = name_of(found.kind, found.named);
                Ok(AnyItem {
                    kind: found.kind,
                    name,
                    trees,
                })
            } else {
                Err(fault_by(&ANY_ITEM, trees, found.rest))
            }
        }
        Err(left) => Err(fault_by(&ANY_ITEM, trees, left)),
    }
}

impl<'a> Iterator for Items<'a> {
    ghost use Rattle.std.specs.Iterator.{at_most};
    ghost use Rattle.declarations.specs.File.{GivesItem};

    type Item = Result<AnyItem<'a>, Fault>;

    ghost next_gives = { GivesItem };

    // At most as many items come as trees are left.
    ghost remaining = { λ items. at_most (length items.left.now) };

    fn next(&mut self) -> Option<Result<AnyItem<'a>, Fault>> {
        if self.left.is_empty() {
            return None;
        }
        match split_any_item(self.left) {
            Ok((item, rest)) => {
                self.left = rest;
                Some(Ok(item))
            }
            Err(fault) => {
                self.left = &[];
                Some(Err(fault))
            }
        }
    }
}

impl<'a> AnyItem<'a> {
    /// Returns the braces that hold the items of a module, a trait, an `impl` or an `extern` block.
    ///
    /// They are the last tree of the item. The result is `None` for a module that ends in `;`, and for an item of any
    /// other kind. [`parse_file`] reads the trees in the braces.
    pub fn body(&self) -> Option<&'a Group>
        ensures { MatchOption result (body_of self.now.kind self.now.trees.now ≡ None)
            (λ group. body_of self.now.kind self.now.trees.now ≡ Some group.now) }
    {
        match self.kind {
            ItemKind::Module | ItemKind::Trait | ItemKind::Impl | ItemKind::ExternBlock =>
                last_braces(self.trees),
            _ => None,
        }
    }
}

/// The last tree, if it is a group in braces.
fn last_braces(trees: &[TokenTree]) -> Option<&Group>
    ensures { MatchOption result (last_braces trees.now ≡ None) (λ group. last_braces trees.now ≡ Some group.now) }
{
    match trees.split_last() {
        Some((tree, _)) => braces(tree),
        None => None,
    }
}

/// The tree as a group, if it is a group in braces.
fn braces(tree: &TokenTree) -> Option<&Group>
    ensures { MatchOption result (braces tree.now ≡ None) (λ group. braces tree.now ≡ Some group.now) }
{
    match tree {
        TokenTree::Group(group) => match group.delimiter() {
            Delimiter::Brace => Some(group),
            Delimiter::Parenthesis | Delimiter::Bracket | Delimiter::None => None,
        },
        TokenTree::Ident(_) | TokenTree::Punct(_) | TokenTree::Literal(_) => None,
    }
}
