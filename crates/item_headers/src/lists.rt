//! Adds words, marks and trees to a quote, and the marks and words before each element of a list.
ghost use Rattle.std.specs.Prelude.{◌≡◌, IsTrue, OnOk, true};
ghost use Rattle.std.specs.Str.{chars};
ghost use Rattle.item_headers.specs.Lists.{first_lead, lead_of, led, mark, pushed_trees, word};
ghost use Rattle.item_headers.specs.declared.lists.Lead.TheVariants as leads;
ghost use Rattle.proc_macro2.specs.Forest.{chain, leaf, nil};
ghost use Rattle.proc_macro2.specs.Mark.{is_mark};
ghost use Rattle.proc_macro2.specs.Token.{Mark};

use proc_macro2::{Ident, IdentError, Punct, Spacing, Span, TokenTree};
use quoting::Quote;
use std::alloc::{AllocError, Global};

/// The marks or the word before the first element of a list.
#[derive(Clone, Copy)]
pub(crate) enum Lead {
    /// `<`
    Angle,
    /// `::<`
    Turbofish,
    /// `where`
    Where,
}

/// Adds a mark that is Alone at the end of the quote.
pub(crate) fn push_mark(quote: &mut Quote, character: char) -> Result<(), AllocError>
    requires { IsTrue (is_mark character) }
    ensures { OnOk result (quote.new ≡ chain quote.old (mark character)) }
{
    quote.push(TokenTree::Punct(Punct::new(character, Spacing::Alone)))
}

/// Adds a word at the end of the quote.
pub(crate) fn push_word(quote: &mut Quote, alloc: Global, name: &str) -> Result<(), IdentError>
    ensures { OnOk result (quote.new ≡ chain quote.old (word (chars name.now))) }
{
    let ident = Ident::new(alloc, name, Span::call_site())?;
    quote.push(TokenTree::Ident(ident))?;
    Ok(())
}

/// Adds copies of the trees at the end of the quote.
pub(crate) fn push_trees(quote: &mut Quote, trees: &[TokenTree]) -> Result<(), AllocError>
    ensures { OnOk result (quote.new ≡ chain quote.old (pushed_trees trees.now)) }
{
    let mut left = trees;
    while let Some((tree, rest)) = left.split_first() {
        let copy = tree.clone()?;
        quote.push(copy)?;
        left = rest;
    }
    Ok(())
}

/// Adds `:` and copies of the trees at the end of the quote, or nothing if there are no trees.
pub(crate) fn push_led(quote: &mut Quote, trees: &[TokenTree]) -> Result<(), AllocError>
    ensures { OnOk result (quote.new ≡ chain quote.old (led 58 trees.now)) }
{
    if trees.is_empty() {
        return Ok(());
    }
    push_mark(quote, ':')?;
    push_trees(quote, trees)?;
    Ok(())
}

/// Adds the marks or the word before an element of a list: `,` if `any` elements come before it, or else `lead`.
pub(crate) fn push_lead(
    quote: &mut Quote,
    alloc: Global,
    lead: Lead,
    any: bool,
) -> Result<(), IdentError>
    ensures { OnOk result (quote.new ≡ chain quote.old (lead_of any lead)) }
{
    if any {
        return Ok(push_mark(quote, ',')?);
    }
    push_first_lead(quote, alloc, lead)
}

/// Adds the marks or the word before the first element of a list.
fn push_first_lead(quote: &mut Quote, alloc: Global, lead: Lead) -> Result<(), IdentError>
    ensures { OnOk result (quote.new ≡ chain quote.old (first_lead lead)) }
{
    match lead {
        Lead::Angle => Ok(push_mark(quote, '<')?),
        Lead::Turbofish => Ok(push_turbofish(quote)?),
        Lead::Where => push_word(quote, alloc, "where"),
    }
}

/// Adds `::<` at the end of the quote.
fn push_turbofish(quote: &mut Quote) -> Result<(), AllocError>
    ensures { OnOk result (quote.new ≡ chain quote.old (first_lead leads.Turbofish)) }
{
    push_joint_colon(quote)?;
    push_mark(quote, ':')?;
    push_mark(quote, '<')?;
    Ok(())
}

/// Adds a `:` that is Joint at the end of the quote.
fn push_joint_colon(quote: &mut Quote) -> Result<(), AllocError>
    ensures { OnOk result (quote.new ≡ chain quote.old (leaf (Mark 58 true) 0 0 nil)) }
{
    quote.push(TokenTree::Punct(Punct::new(':', Spacing::Joint)))
}
