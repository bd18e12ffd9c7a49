//! Which identifiers are keywords of the grammar.
ghost use Rattle.std.specs.Prelude.{◌≡◌};
ghost use Rattle.declarations.specs.Item.{is_keyword};

use crate::signs::name_class;
use item_tables::class::SignClass;
use pm_token::Ident;

/// Returns whether the identifier is a keyword of the grammar, and so cannot be a name.
///
/// The keywords are `_` and the strict and reserved keywords of Rust 2021, except `try`. `self`, `Self`, `super` and
/// `crate` are among them, and so are `true` and `false`. For example, `struct` is a keyword, and `union`, `r#struct`
/// and `auto` are none.
pub fn is_keyword(ident: &Ident) -> bool
    ensures { result ≡ is_keyword ident.now }
{
    match name_class(ident) {
        SignClass::Word(_) => false,
        _ => true,
    }
}
