//! The item at the start of trees, with its kind and name.
ghost use Rattle.std.specs.Prelude.{◌≡◌, ◌<◌, IfErr, IfOk, MatchOption, None, Option, Some, length};
ghost use Rattle.pm_token.specs.Leaf.{Name};
ghost use Rattle.declarations.specs.Expected.{Expects};
ghost use Rattle.declarations.specs.Fault.{extent_at};
ghost use Rattle.declarations.specs.Forms.{IsAnyItem};
ghost use Rattle.declarations.specs.Kind.{HasKind, name_at};
ghost use Rattle.declarations.specs.Reading.{FaultAt, IsOnly, Reads, first_name};

use crate::explore::fault_by;
use crate::fault::Fault;
use crate::item_kinds::past_any_item;
use crate::item_syntax::ANY_ITEM;
use crate::reader::part;
use pm_stream::TokenTree;
use pm_token::Ident;

/// The kind of an item.
#[derive(Clone, Copy, Debug, PartialEq, Eq)]
pub enum ItemKind {
    /// `const`
    Constant,
    /// `enum`
    Enum,
    /// `extern { .. }`
    ExternBlock,
    /// `extern crate`
    ExternCrate,
    /// `fn`
    Function,
    /// A group without delimiters, in which a `macro_rules!` macro passes an item (`$item`).
    Group,
    /// `impl`
    Impl,
    /// `macro`
    Macro,
    /// A macro call. Its name is the one after the `!`, as in `macro_rules! name`.
    MacroCall,
    /// `mod`
    Module,
    /// `static`
    Static,
    /// `struct`
    Struct,
    /// `trait`
    Trait,
    /// `trait Name = ..;`
    TraitAlias,
    /// `type`
    TypeAlias,
    /// `union`
    Union,
    /// `use`
    Use,
}

/// An item of any kind: its kind, its name and its trees.
#[derive(Clone, Copy, Debug)]
pub struct AnyItem<'a> {
    /// The kind of the item.
    pub kind: ItemKind,
    /// The name of the item, or `None` if it has none. A constant without a name has the name `_`. For
    /// `extern crate a as b;` the name is `a`. An `impl`, a `use`, an `extern` block, a group without delimiters and
    /// most macro calls have no name.
    pub name: Option<&'a Ident>,
    /// All trees of the item, with its attributes and its visibility.
    pub trees: &'a [TokenTree],
}

/// Returns the item at the start of the trees, and the trees after it.
///
/// The item can be any that may be in a file, a module, a trait, an `impl` or an `extern` block. The trees inside its
/// groups are not read. If the trees begin with no item, the call returns a `Fault`. It allocates nothing.
///
/// For `pub fn f() {} struct S;` it returns the function `pub fn f() {}` with the name `f`, and the rest `struct S;`.
#[tactic(auto, using(crate::proofs::AnyItemLemmas::promises))]
pub fn split_any_item<'a>(trees: &'a [TokenTree]) -> Result<(AnyItem<'a>, &'a [TokenTree]), Fault>
    ensures ok { IfOk result (λ found. Reads IsAnyItem trees.now found.0.trees.now found.1.now) }
    ensures only { IfOk result (λ found. IsOnly IsAnyItem trees.now found.0.trees.now found.1.now) }
    ensures fewer { IfOk result (λ found. length found.1.now < length trees.now) }
    // The item has the keyword of its kind, and reads from its name on by the rule of its kind.
    ensures kind_and_name { IfOk result (λ found. (name : Option Name) × HasKind trees.now found.1.now found.0.kind name
        × MatchOption found.0.name (name ≡ None) (λ ident. name ≡ Some ident.now)) }
    ensures fault { IfErr result (λ fault. FaultAt IsAnyItem trees.now fault.at) }
    ensures span { IfErr result (λ fault. fault.span ≡ extent_at trees.now fault.at) }
    ensures expected { IfErr result (λ fault. Expects IsAnyItem trees.now fault.at fault.expected) }
{
    match past_any_item(trees) {
        Ok(found) => {
            let name = name_of(found.kind, found.named);
            let item = part(trees, found.rest);
            Ok((
                AnyItem {
                    kind: found.kind,
                    name,
                    trees: item,
                },
                found.rest,
            ))
        }
        Err(left) => Err(fault_by(&ANY_ITEM, trees, left)),
    }
}

/// The name of an item of this kind, where these are the trees from its name on.
pub(crate) fn name_of<'a>(kind: ItemKind, trees: &'a [TokenTree]) -> Option<&'a Ident>
    ensures { MatchOption result (name_at kind trees.now ≡ None) (λ ident. name_at kind trees.now ≡ Some ident.now) }
{
    match kind {
        ItemKind::ExternBlock | ItemKind::Group | ItemKind::Impl | ItemKind::Use => None,
        _ => first_name(trees),
    }
}

/// The identifier that is the first tree, if it is one.
fn first_name<'a>(trees: &'a [TokenTree]) -> Option<&'a Ident>
    ensures { MatchOption result (first_name trees.now ≡ None) (λ ident. first_name trees.now ≡ Some ident.now) }
{
    match trees.first()? {
        TokenTree::Ident(ident) => Some(ident),
        TokenTree::Group(_) | TokenTree::Punct(_) | TokenTree::Literal(_) => None,
    }
}
