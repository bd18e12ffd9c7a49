//! Which fields of a struct have a getter.
ghost use Rattle.std.specs.Prelude.{◌≡◌};
ghost use Rattle.declarations.specs.Attribute.{is_word, parts_of};
ghost use Rattle.proc_macro2.specs.DocGroup.{trees_of};
ghost use Rattle.proc_macro2.specs.Spelling.{spelled};
ghost use Rattle.write_getters.specs.Fields.{has_several_bounds, is_plus, is_skip, is_skipped};

use declarations::{Attribute, AttributeArgs, Attributes, Field};
use proc_macro2::{Group, TokenTree};

/// Whether the field has the attribute `#[getter(skip)]`, which leaves it out.
pub fn is_skipped(field: &Field<'_>) -> bool
    ensures { result ≡ is_skipped field.now }
{
    Attributes::new(field.attributes).any(|attribute| is_skip(&attribute))
}

fn is_skip(attribute: &Attribute<'_>) -> bool
    ensures { result ≡ is_skip (parts_of attribute.now) }
{
    match attribute.args() {
        AttributeArgs::Group(group) => attribute.is("getter") && is_group_of(group, "skip"),
        _ => false,
    }
}

/// Whether the group has only this identifier inside.
fn is_group_of(group: &Group, word: &str) -> bool
    ensures { result ≡ is_word (trees_of group.now.stream) (spelled word.now) }
{
    is_word(group.stream_ref().trees(), word)
}

/// Whether the trees are only this identifier.
fn is_word(trees: &[TokenTree], word: &str) -> bool
    ensures { result ≡ is_word trees.now (spelled word.now) }
{
    match trees {
        [TokenTree::Ident(name)] => name.eq_str(word),
        _ => false,
    }
}

/// Whether the type of the field is a trait object with several bounds, such as `dyn A + B`. It needs parentheses after
/// `&`.
pub fn has_several_bounds(field: &Field<'_>) -> bool
    ensures { result ≡ has_several_bounds field.now.field_type.now }
{
    match field.field_type.split_first() {
        Some((TokenTree::Ident(word), bounds)) if word.eq_str("dyn") => bounds.iter().any(is_plus),
        _ => false,
    }
}

fn is_plus(tree: &TokenTree) -> bool
    ensures { result ≡ is_plus tree.now }
{
    match tree {
        TokenTree::Punct(mark) => mark.as_char() == '+',
        TokenTree::Group(_) | TokenTree::Ident(_) | TokenTree::Literal(_) => false,
    }
}
