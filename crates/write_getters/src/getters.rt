//! Makes the getters of a struct.
ghost use Rattle.std.specs.Prelude.{◌≡◌, [], IfOk, List, map, true};
ghost use Rattle.declarations.specs.List.{IsFieldOf, Lists};
ghost use Rattle.declarations.specs.declared.field.Field.{Field as FieldValue};
ghost use Rattle.write_getters.specs.Answer.{IsFaithful};
ghost use Rattle.write_getters.specs.Fields.{getter_fields, name_of, type_of};
ghost use Rattle.write_getters.specs.Getters.{IsCodeOf};

use crate::copies::{add, copy_trees};
use crate::errors::WriteError;
use crate::fields::{has_several_bounds, is_skipped};
use crate::parameters::parameters;
use crate::templates::Templates;
use declarations::{Field, FieldList, TypeItem};
use proc_macro2::{Delimiter, Group, TokenStream, TokenTree, laws};
use quoting::{Hole, Quote};
use std::alloc::{AllocError, Global};

/// The streams with which the template is filled for each field, in order.
#[derive(Drop)]
struct FieldStreams {
    /// The names of the fields.
    names: Vec<TokenStream>,
    /// The types of the fields, as they follow `&`.
    kinds: Vec<TokenStream>,
}

/// Returns the `impl` of a struct with a getter for each of the fields that isn't left out. This is the filled
/// template, and it comes back from its printed text.
///
/// Returns `Declared` if a field or a generic parameter has an error, or the error that memory ran out.
///
/// Example: `struct P { x: u32 }` gives `impl P { pub fn x (& self) -> & u32 { & self . x } }`.
pub fn getters(
    alloc: Global,
    templates: &Templates,
    item: &TypeItem<'_>,
    fields: FieldList<'_>,
) -> Result<TokenStream, WriteError>
    requires { fields.named ≡ true }
    ensures back { IfOk result IsFaithful }
    ensures code { IfOk result (IsCodeOf templates.now item.now fields.entry.left.now) }
{
    let chosen = getter_fields(alloc, fields)?;
    let parameters = parameters(alloc, item.generics)?;
    let name = TokenStream::from_tree(alloc, TokenTree::Ident(item.name.clone()?))?;
    let bounds = copy_trees(alloc, item.where_clause)?;
    let holes = [
        Hole::each("parameter", parameters.declared.as_slice()),
        Hole::one("name", &name),
        Hole::each("argument", parameters.arguments.as_slice()),
        Hole::one("bounds", &bounds),
        Hole::each("field", chosen.names.as_slice()),
        Hole::each("kind", chosen.kinds.as_slice()),
    ];
    let mut quote = Quote::new(alloc);
    quote.fill(templates.of(item.generics), &holes)?;
    let code = quote.finish()?;
    // These give the proof the trees of the stream, and the law about streams that are well spaced.
    let _trees = code.trees();
    laws::printed_comes_back();
    Ok(code)
}

/// Returns the names and types of the fields that have a getter.
fn getter_fields(alloc: Global, fields: FieldList<'_>) -> Result<FieldStreams, WriteError>
    requires { fields.named ≡ true }
    ensures { IfOk result (λ getters. (all : List FieldValue) × Lists (IsFieldOf true) fields.entry.left.now all []
        × (getters.names.items ≡ map name_of (getter_fields all))
        × (getters.kinds.items ≡ map type_of (getter_fields all))) }
{
    let mut names = Vec::new(alloc);
    let mut kinds = Vec::new(alloc);
    for field in fields {
        let field = field?;
        if let Some(name) = field.name {
            if !is_skipped(&field) {
                let name = TokenStream::from_tree(alloc, TokenTree::Ident(name.clone()?))?;
                add(&mut names, name)?;
                add(&mut kinds, kind(alloc, &field)?)?;
            }
        }
    }
    Ok(FieldStreams { names, kinds })
}

/// Returns the type of a field, as it follows `&`.
fn kind(alloc: Global, field: &Field<'_>) -> Result<TokenStream, AllocError>
    ensures { IfOk result (λ stream. stream ≡ type_of field.now) }
{
    let kind = copy_trees(alloc, field.field_type)?;
    if !has_several_bounds(field) {
        return Ok(kind);
    }
    let group = Group::new(Delimiter::Parenthesis, kind);
    TokenStream::from_tree(alloc, TokenTree::Group(group))
}
