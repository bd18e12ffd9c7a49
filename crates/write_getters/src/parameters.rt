//! The generic parameters of a struct, as its `impl` declares them and uses them.
ghost use Rattle.std.specs.Prelude.{◌≡◌, IfOk, List, OnOk, map};
ghost use Rattle.declarations.specs.Param.{ParamTrees, param_trees};
ghost use Rattle.proc_macro2.specs.Forest.{chain};
ghost use Rattle.write_getters.specs.Copies.{copy_trees};
ghost use Rattle.write_getters.specs.Parameters.{AreParamsOf, after_colon, argument, keyword, parameter};

use crate::copies::{add, copy_trees, put, put_copies};
use crate::errors::WriteError;
use declarations::{Param, ParamKind, parse_param, within_generics};
use proc_macro2::{Ident, Punct, Spacing, Span, TokenStream, TokenTree};
use std::alloc::{AllocError, Global};

/// The generic parameters of a struct, in order.
#[derive(Drop)]
pub struct ParameterStreams {
    /// Each parameter as it is declared, without its default: `'a`, `T: A`, `const N: usize`.
    pub declared: Vec<TokenStream>,
    /// Each parameter as an argument: `'a`, `T`, `N`.
    pub arguments: Vec<TokenStream>,
}

/// Returns the generic parameters of a struct, which are given in their brackets, for its `impl`.
///
/// Returns `Declared` if one of them has an error, or the error that memory ran out.
///
/// Example: for `<'a, T: A = B>` the declared parameters are `'a` and `T: A`, and the arguments are `'a` and `T`.
pub fn parameters(alloc: Global, generics: &[TokenTree]) -> Result<ParameterStreams, WriteError>
    ensures { IfOk result (λ parameters. (all : List ParamTrees) × AreParamsOf generics.now all
        × (parameters.declared.items ≡ map parameter all) × (parameters.arguments.items ≡ map argument all)) }
{
    let mut declared = Vec::new(alloc);
    let mut arguments = Vec::new(alloc);
    let mut left = within_generics(generics)?;
    while !left.is_empty() {
        let (param, rest) = parse_param(left)?;
        add(&mut declared, parameter(alloc, &param)?)?;
        add(&mut arguments, copy_trees(alloc, param.name)?)?;
        left = rest;
    }
    Ok(ParameterStreams {
        declared,
        arguments,
    })
}

/// Returns a parameter as it is declared, without its default.
fn parameter(alloc: Global, param: &Param<'_>) -> Result<TokenStream, WriteError>
    ensures { IfOk result (λ stream. stream ≡ parameter (param_trees param.now)) }
{
    let mut stream = copy_trees(alloc, param.attributes)?;
    put_keyword(alloc, &mut stream, param.kind)?;
    put_copies(&mut stream, param.name)?;
    put_bounds(&mut stream, param.bounds)?;
    Ok(stream)
}

/// Appends the keyword with which a parameter of this kind is declared, if it has one.
fn put_keyword(alloc: Global, stream: &mut TokenStream, kind: ParamKind) -> Result<(), WriteError>
    ensures { OnOk result (stream.new ≡ chain stream.old (copy_trees (keyword kind))) }
{
    match kind {
        ParamKind::Lifetime | ParamKind::Type => Ok(()),
        ParamKind::Const => {
            let word = Ident::new(alloc, "const", Span::call_site())?;
            put(stream, TokenTree::Ident(word))?;
            Ok(())
        }
    }
}

/// Appends `:` and copies of the bounds, if there are any.
fn put_bounds(stream: &mut TokenStream, bounds: &[TokenTree]) -> Result<(), AllocError>
    ensures { OnOk result (stream.new ≡ chain stream.old (copy_trees (after_colon bounds.now))) }
{
    if bounds.is_empty() {
        return Ok(());
    }
    put(stream, TokenTree::Punct(Punct::new(':', Spacing::Alone)))?;
    put_copies(stream, bounds)
}
