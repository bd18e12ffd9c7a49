//! Adds the trees of a hole's value to the result.
ghost use Rattle.std.specs.Prelude.{◌≡◌, false, IfErr, IfOk, Ok, Err, OnOk, Some};
ghost use Rattle.std.specs.Str.{chars};
ghost use Rattle.proc_macro2.specs.Negative.{has_minus};
ghost use Rattle.proc_macro2.specs.Building.{split};
ghost use Rattle.proc_macro2.specs.Forest.{chain};
ghost use Rattle.proc_macro2.specs.IdentFault.{ident_fault};
ghost use Rattle.proc_macro2.specs.Trees.{alone};
ghost use Rattle.proc_macro2.specs.declared.TokenTree.TheVariants.{Ident as IdentTree, Literal as LiteralTree};
ghost use Rattle.quoting.specs.Filled.{then_outcome};
ghost use Rattle.quoting.specs.Given.{UnlessMemory, filling_by, in_turns, span_of, text_of};
ghost use Rattle.quoting.specs.Holes.{filling_of, put_in};
ghost use Rattle.quoting.specs.Items.{One};
ghost use Rattle.quoting.specs.Kept.{item_filling};
ghost use Rattle.quoting.specs.Values.{name_unless, value_of};

use crate::builder::StreamBuilder;
use crate::errors::TemplateError;
use crate::holes::{Filling, Hole, HoleName};
use crate::making::{number_literal, truth_ident};
use crate::values::{Item, Value};
use pm_stream::parts;
use proc_macro2::{Ident, IdentError, Literal, Span, TokenStream, TokenTree};
use std::alloc::{AllocError, Global};

/// Adds the trees of the named hole in these turns to the stream. About `more` trees are expected after them.
#[inline(always)]
pub(crate) fn put_name(
    alloc: Global,
    out: &mut StreamBuilder,
    name: &HoleName<'_>,
    holes: &[Hole<'_>],
    turns: &[usize],
    more: usize,
) -> Result<(), TemplateError>
    ensures ok { OnOk result (then_outcome (Ok out.old) (put_in (span_of name.now)
        (filling_of (in_turns holes.now turns.now) (text_of name.now))) ≡ Ok out.new) }
    ensures fault { IfErr result (λ fault. UnlessMemory fault (put_in (span_of name.now)
        (filling_of (in_turns holes.now turns.now) (text_of name.now)) ≡ Err fault)) }
{
    match name.filling(holes, turns) {
        None => Err(TemplateError::NoHole(name.span())),
        Some(Filling::One(stream)) => Ok(out.append(stream, more)?),
        Some(filling) => put_filling(alloc, out, filling, name.span(), more),
    }
}

/// Adds the trees of the filling to the stream. An error gets the span of the hole's name.
fn put_filling(
    alloc: Global,
    out: &mut StreamBuilder,
    filling: Filling<'_>,
    span: Span,
    more: usize,
) -> Result<(), TemplateError>
    ensures ok { OnOk result (then_outcome (Ok out.old) (put_in span (Some (filling_by filling.entry))) ≡ Ok out.new) }
    ensures fault { IfErr result (λ fault.
        UnlessMemory fault (put_in span (Some (filling_by filling.entry)) ≡ Err fault)) }
{
    match filling {
        Filling::One(stream) => Ok(out.append(stream, more)?),
        Filling::Each(_) => Err(TemplateError::LoneList(span)),
        Filling::Of(value) => put_value(alloc, out, value, span, more),
        Filling::Tree(tree) => Ok(put_tree(alloc, out, tree, more)?),
        Filling::Ident(ident) => Ok(out.put(TokenTree::Ident(ident.clone()?), more)?),
        Filling::Literal(literal) => Ok(put_literal(alloc, out, literal.clone()?, more)?),
        Filling::Text(text) => Ok(put_literal(alloc, out, Literal::string(alloc, text)?, more)?),
        Filling::Item(item) => put_item(alloc, out, item, span, more),
    }
}

/// Adds the trees of the value to the stream. An error gets the span of the hole's name.
fn put_value(
    alloc: Global,
    out: &mut StreamBuilder,
    value: &Value<'_>,
    span: Span,
    more: usize,
) -> Result<(), TemplateError>
    ensures ok { OnOk result (then_outcome (Ok out.old) (put_in span (Some (value_of value.now))) ≡ Ok out.new) }
    ensures fault { IfErr result (λ fault.
        UnlessMemory fault (put_in span (Some (value_of value.now)) ≡ Err fault)) }
{
    match value {
        Value::Nothing => Ok(()),
        Value::Stream(stream) => Ok(out.append(stream, more)?),
        Value::OwnedStream(stream) => Ok(out.append(stream, more)?),
        Value::Tree(tree) => Ok(put_tree(alloc, out, tree, more)?),
        Value::OwnedTree(tree) => Ok(put_tree(alloc, out, tree, more)?),
        Value::Ident(ident) => Ok(out.put(TokenTree::Ident((*ident).clone()?), more)?),
        Value::Literal(literal) => Ok(put_literal(alloc, out, (*literal).clone()?, more)?),
        Value::Name(name) => { Ok(out.put(TokenTree::Ident(ident_of(alloc, name, span)?), more)?) }
        Value::Boolean(truth) => Ok(out.put(TokenTree::Ident(truth_ident(alloc, *truth)?), more)?),
        Value::NotFinite => Err(TemplateError::NotFinite(span)),
        Value::String(text) => Ok(put_literal(alloc, out, Literal::string(alloc, text)?, more)?),
        Value::Character(c) => Ok(put_literal(alloc, out, Literal::character(alloc, *c)?, more)?),
        Value::Number(number) => {
            Ok(put_literal(alloc, out, number_literal(alloc, *number)?, more)?)
        }
        Value::Streams(_)
        | Value::Trees(_)
        | Value::Idents(_)
        | Value::Literals(_)
        | Value::Strings(_)
        | Value::List(_) => Err(TemplateError::LoneList(span)),
    }
}

/// Adds the value of a list to the stream. An error gets the span of the hole's name.
fn put_item(
    alloc: Global,
    out: &mut StreamBuilder,
    item: &Item,
    span: Span,
    more: usize,
) -> Result<(), TemplateError>
    ensures ok { OnOk result (then_outcome (Ok out.old) (put_in span (Some (item_filling item.now))) ≡ Ok out.new) }
    ensures fault { IfErr result (λ fault.
        UnlessMemory fault (put_in span (Some (item_filling item.now)) ≡ Err fault)) }
{
    match item {
        Item::Stream(stream) => Ok(out.append(stream, more)?),
        Item::Tree(tree) => Ok(put_tree(alloc, out, tree, more)?),
        Item::NotIdent => Err(TemplateError::NotIdent(span)),
        Item::NotFinite => Err(TemplateError::NotFinite(span)),
        Item::List(_) => Err(TemplateError::LoneList(span)),
    }
}

/// Returns the identifier with this name. An error gets the span of the hole's name.
fn ident_of(alloc: Global, name: &str, span: Span) -> Result<Ident, TemplateError>
    ensures ok { IfOk result (λ ident. name_unless (ident_fault false (chars name.now)) (chars name.now)
        ≡ One (alone (IdentTree ident))) }
    ensures fault { IfErr result (λ fault. UnlessMemory fault
        (put_in span (Some (name_unless (ident_fault false (chars name.now)) (chars name.now))) ≡ Err fault)) }
{
    match Ident::new(alloc, name, Span::call_site()) {
        Ok(ident) => Ok(ident),
        Err(IdentError::Memory(error)) => Err(TemplateError::Memory(error)),
        Err(IdentError::Empty | IdentError::Number | IdentError::Invalid | IdentError::Reserved) =>
            Err(TemplateError::NotIdent(span)),
    }
}

/// Puts the tree after the trees of the stream, a negative literal as its `-` and the rest.
fn put_tree(
    alloc: Global,
    out: &mut StreamBuilder,
    tree: &TokenTree,
    more: usize,
) -> Result<(), AllocError>
    ensures { OnOk result (out.new ≡ chain out.old (split tree.now)) }
{
    match tree {
        TokenTree::Literal(literal) => put_literal(alloc, out, literal.clone()?, more),
        TokenTree::Group(_) | TokenTree::Ident(_) | TokenTree::Punct(_) => out.put_copy(tree, more),
    }
}

/// Adds the literal to the stream. A negative one is added as the mark `-` and the rest.
fn put_literal(
    alloc: Global,
    out: &mut StreamBuilder,
    literal: Literal,
    more: usize,
) -> Result<(), AllocError>
    ensures { OnOk result (out.new ≡ chain out.old (split (LiteralTree literal))) }
{
    if has_minus(literal.text()) {
        let mut both = TokenStream::new(alloc);
        parts::put_literal(&mut both, literal)?;
        return out.append(&both, more);
    }
    // It computes nothing: proofs learn what the text of every literal is.
    literal.span();
    out.put(TokenTree::Literal(literal), more)
}

/// Returns whether the text begins with `-`.
fn has_minus(text: &str) -> bool
    ensures { result ≡ has_minus (chars text.now) }
{
    match text.chars().next() {
        Some(c) => c == '-',
        None => false,
    }
}
