//! The generic parameters and arguments of an item.
ghost use Rattle.std.specs.Prelude.{◌≡◌, IfErr, IfOk, List, OnOk};
ghost use Rattle.declarations.specs.Param.{ParamTrees, param_trees};
ghost use Rattle.item_headers.specs.Fault.{HasNoParams, IfFault};
ghost use Rattle.item_headers.specs.Header.{HasParams, generics, impl_generics, keyword, param_in, turbofish};
ghost use Rattle.item_headers.specs.Header.{type_generics};
ghost use Rattle.item_headers.specs.declared.lists.Lead.TheVariants as leads;
ghost use Rattle.item_headers.specs.declared.params.Form.TheVariants as forms;
ghost use Rattle.proc_macro2.specs.Forest.{chain};

use crate::errors::HeaderError;
use crate::lists::{Lead, push_lead, push_led, push_mark, push_trees, push_word};
use declarations::{Param, ParamKind, TypeItem, parse_param, within_generics};
use proc_macro2::{IdentError, TokenStream, TokenTree};
use quoting::Quote;
use std::alloc::Global;

/// Which part of a parameter is written.
#[derive(Clone, Copy)]
pub(crate) enum Form {
    /// The parameter without its default.
    Declared,
    /// Only the name of the parameter.
    Named,
}

/// Returns the generic parameters of an `impl` for the item: the item's own, with attributes but without defaults.
///
/// For `struct S<'a, T: A = B, const N: usize = 3>` they are `<'a, T: A, const N: usize>`. The stream is empty if the
/// item has none. The error is `Fault` if the trees are not the generic parameters of an item.
pub fn impl_generics(alloc: Global, item: &TypeItem<'_>) -> Result<TokenStream, HeaderError>
    ensures ok { IfOk result (λ stream. (params : List ParamTrees) × HasParams item.now.generics.now params
        × (stream ≡ impl_generics params)) }
    ensures fault { IfErr result (λ error. IfFault error (HasNoParams item.now.generics.now)) }
{
    let mut quote = Quote::new(alloc);
    push_generics(
        &mut quote,
        alloc,
        item.generics,
        Lead::Angle,
        Form::Declared,
    )?;
    Ok(quote.into_stream())
}

/// Returns the generic arguments of the item's type: the names of its parameters in order.
///
/// For `struct S<'a, T: A = B, const N: usize = 3>` they are `<'a, T, N>`. The stream is empty if the item has no
/// parameters. The errors are those of [`impl_generics`].
pub fn type_generics(alloc: Global, item: &TypeItem<'_>) -> Result<TokenStream, HeaderError>
    ensures ok { IfOk result (λ stream. (params : List ParamTrees) × HasParams item.now.generics.now params
        × (stream ≡ type_generics params)) }
    ensures fault { IfErr result (λ error. IfFault error (HasNoParams item.now.generics.now)) }
{
    let mut quote = Quote::new(alloc);
    push_generics(&mut quote, alloc, item.generics, Lead::Angle, Form::Named)?;
    Ok(quote.into_stream())
}

/// Returns the generic arguments of the item's type as an expression needs them, such as `::<'a, T, N>`.
///
/// The stream is empty if the item has no parameters. The errors are those of [`impl_generics`].
pub fn turbofish(alloc: Global, item: &TypeItem<'_>) -> Result<TokenStream, HeaderError>
    ensures ok { IfOk result (λ stream. (params : List ParamTrees) × HasParams item.now.generics.now params
        × (stream ≡ turbofish params)) }
    ensures fault { IfErr result (λ error. IfFault error (HasNoParams item.now.generics.now)) }
{
    let mut quote = Quote::new(alloc);
    push_generics(
        &mut quote,
        alloc,
        item.generics,
        Lead::Turbofish,
        Form::Named,
    )?;
    Ok(quote.into_stream())
}

/// Writes the parameters in angle brackets at the end of the quote, or nothing if there are none.
pub(crate) fn push_generics(
    quote: &mut Quote,
    alloc: Global,
    trees: &[TokenTree],
    lead: Lead,
    form: Form,
) -> Result<(), HeaderError>
    ensures ok { OnOk result ((params : List ParamTrees) × HasParams trees.now params
        × (quote.new ≡ chain quote.old (generics lead form params))) }
    ensures fault { IfErr result (λ error. IfFault error (HasNoParams trees.now)) }
{
    let mut left = within_generics(trees)?;
    let mut any = false;
    while !left.is_empty() {
        let (param, rest) = parse_param(left)?;
        push_lead(quote, alloc, lead, any)?;
        push_param(quote, alloc, &param, form)?;
        any = true;
        left = rest;
    }
    if any {
        return Ok(push_mark(quote, '>')?);
    }
    Ok(())
}

/// Writes a parameter in the given form at the end of the quote.
fn push_param(
    quote: &mut Quote,
    alloc: Global,
    param: &Param<'_>,
    form: Form,
) -> Result<(), IdentError>
    ensures { OnOk result (quote.new ≡ chain quote.old (param_in form (param_trees param.now))) }
{
    match form {
        Form::Declared => push_declared(quote, alloc, param),
        Form::Named => Ok(push_trees(quote, param.name)?),
    }
}

/// Writes a parameter without its default at the end of the quote.
fn push_declared(quote: &mut Quote, alloc: Global, param: &Param<'_>) -> Result<(), IdentError>
    ensures { OnOk result (quote.new ≡ chain quote.old (param_in forms.Declared (param_trees param.now))) }
{
    push_trees(quote, param.attributes)?;
    push_keyword(quote, alloc, param.kind)?;
    push_trees(quote, param.name)?;
    Ok(push_led(quote, param.bounds)?)
}

/// Writes the keyword of a parameter, if it has one, at the end of the quote.
fn push_keyword(quote: &mut Quote, alloc: Global, kind: ParamKind) -> Result<(), IdentError>
    ensures { OnOk result (quote.new ≡ chain quote.old (keyword kind)) }
{
    match kind {
        ParamKind::Lifetime => Ok(()),
        ParamKind::Type => Ok(()),
        ParamKind::Const => push_word(quote, alloc, "const"),
    }
}
