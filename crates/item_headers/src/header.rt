//! The header of an `impl`.
ghost use Rattle.std.specs.Prelude.{◌≡◌, [], IfErr, IfOk, List};
ghost use Rattle.declarations.specs.Param.{ParamTrees, PredicateTrees};
ghost use Rattle.item_headers.specs.Fault.{HasNoParams, HasNotBoth, IfFault};
ghost use Rattle.item_headers.specs.Header.{HasParams, HasPredicates, front, header, where_with};

use crate::clauses::push_where;
use crate::errors::HeaderError;
use crate::lists::{Lead, push_word};
use crate::params::{Form, push_generics};
use declarations::TypeItem;
use proc_macro2::{TokenStream, TokenTree};
use quoting::Quote;
use std::alloc::Global;

/// Returns the header of an `impl` of a trait for the item's type: all that comes before the braces.
///
/// For `struct S<'a, T: A = B> where T: C { .. }` and the trait `D<T>` it is
/// `impl<'a, T: A> D<T> for S<'a, T> where T: C`. The error is `Fault` if the generic parameters or the where clause
/// are not those of an item. The trees of the trait are not checked.
pub fn impl_header(
    alloc: Global,
    item: &TypeItem<'_>,
    trait_path: &TokenStream,
) -> Result<TokenStream, HeaderError>
    ensures ok { IfOk result (λ stream. (params : List ParamTrees) × (predicates : List PredicateTrees)
        × HasParams item.now.generics.now params × HasPredicates item.now.where_clause.now predicates
        × (stream ≡ header params item.now.name.now trait_path.now (where_with predicates []))) }
    ensures fault { IfErr result (λ error. IfFault error (HasNotBoth item.now.generics.now item.now.where_clause.now)) }
{
    let mut quote = front(alloc, item, trait_path)?;
    push_where(&mut quote, alloc, item.where_clause)?;
    Ok(quote.into_stream())
}

/// Returns the header of an `impl` as [`impl_header`] does, but with another where clause instead of the item's.
///
/// Take the clause from a call such as `where_clause_with`. An empty stream is no where clause. For
/// `struct S<'a, T: A = B> where T: C { .. }`, `D<T>` and `where T: C, T: D<T>` the header is
/// `impl<'a, T: A> D<T> for S<'a, T> where T: C, T: D<T>`. The error is `Fault` if the generic parameters are not those
/// of an item. The trees of the trait and of the clause are not checked.
pub fn impl_header_where(
    alloc: Global,
    item: &TypeItem<'_>,
    trait_path: &TokenStream,
    where_clause: &TokenStream,
) -> Result<TokenStream, HeaderError>
    ensures ok { IfOk result (λ stream. (params : List ParamTrees) × HasParams item.now.generics.now params
        × (stream ≡ header params item.now.name.now trait_path.now where_clause.now)) }
    ensures fault { IfErr result (λ error. IfFault error (HasNoParams item.now.generics.now)) }
{
    let mut quote = front(alloc, item, trait_path)?;
    let clause = where_clause.clone()?;
    quote.push_stream(clause)?;
    Ok(quote.into_stream())
}

/// Returns a quote with the header up to the where clause.
fn front(alloc: Global, item: &TypeItem<'_>, trait_path: &TokenStream) -> Result<Quote, HeaderError>
    ensures ok { IfOk result (λ quote. (params : List ParamTrees) × HasParams item.now.generics.now params
        × (quote ≡ front params item.now.name.now trait_path.now)) }
    ensures fault { IfErr result (λ error. IfFault error (HasNoParams item.now.generics.now)) }
{
    let mut quote = Quote::new(alloc);
    push_word(&mut quote, alloc, "impl")?;
    push_generics(
        &mut quote,
        alloc,
        item.generics,
        Lead::Angle,
        Form::Declared,
    )?;
    let path = trait_path.clone()?;
    quote.push_stream(path)?;
    push_word(&mut quote, alloc, "for")?;
    let name = item.name.clone()?;
    quote.push(TokenTree::Ident(name))?;
    push_generics(&mut quote, alloc, item.generics, Lead::Angle, Form::Named)?;
    Ok(quote)
}
