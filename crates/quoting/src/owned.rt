//! Fills the holes of a template that nobody else uses, and reuses its lists.
//!
//! The functions call themselves for groups. The stack is bounded, since templates with groups below a fixed depth are
//! rejected.
ghost use Rattle.std.specs.Prelude.{◌≡◌, ◌≤◌, [], IfErr, IfOk, Ok, Err, OnOk};
ghost use Rattle.proc_macro2.specs.Forest.{Forest, IsBuilt};
ghost use Rattle.proc_macro2.specs.Trees.{alone, forest, GoesInside};
ghost use Rattle.quoting.specs.Filled.{depth_limit, then_outcome, filled_by};
ghost use Rattle.quoting.specs.Given.{Settles, UnlessMemory, apart, apart_before, gives, inside_at, inside_tree};

use crate::builder::StreamBuilder;
use crate::errors::TemplateError;
use crate::fill::{are_fixed, has_meaning, repeat_onto};
use crate::holes::Hole;
use crate::interpolation::{FoundInterpolation, interpolation_at};
use crate::putting::put_name;
use crate::respace::mark_as;
use pm_stream::parts;
use proc_macro2::{Group, Spacing, TokenStream, TokenTree};
use std::alloc::Global;

/// Returns the template with its holes filled, as `filled` does outside of repetitions. The trees before the first hole
/// keep their list. Groups may nest up to `depth` deep.
#[cycle(filled_in_place)]
pub(crate) fn filled_in_place(
    alloc: Global,
    template: TokenStream,
    holes: &[Hole<'_>],
    depth: usize,
) -> Result<TokenStream, TemplateError>
    requires { depth ≤ depth_limit }
    ensures ok { IfOk result (λ stream. filled_by (gives holes.now []) depth 0 template ≡ Ok stream) }
    ensures fault { IfErr result (λ fault.
        UnlessMemory fault (filled_by (gives holes.now []) depth 0 template ≡ Err fault)) }
{
    let mut list = parts::into_trees(template)?;
    let mut done = 0;
    while let Some((tree, after)) = list[done..].split_first() {
        match interpolation_at(tree, after) {
            None => {
                let apart = comes_apart(tree, after);
                settle(alloc, &mut list[done], apart, holes, depth)?;
                done += 1;
            }
            Some(_) => break,
        }
    }
    if done == list.len() {
        return Ok(parts::stream(alloc, list)?);
    }
    let (mut out, rest) = StreamBuilder::of_first(alloc, list, done)?;
    fill_rest(alloc, &mut out, rest, holes, depth)?;
    Ok(out.finish()?)
}

/// Adds the trees of `rest` to the stream, with their holes filled.
#[cycle(filled_in_place)]
fn fill_rest(
    alloc: Global,
    out: &mut StreamBuilder,
    rest: Vec<TokenTree>,
    holes: &[Hole<'_>],
    depth: usize,
) -> Result<(), TemplateError>
    requires built { IsBuilt (forest rest.items) }
    requires few { depth ≤ depth_limit }
    ensures ok { OnOk result (then_outcome (Ok out.old)
        (filled_by (gives holes.now []) depth 0 (forest rest.items)) ≡ Ok out.new) }
    ensures fault { IfErr result (λ fault.
        UnlessMemory fault (filled_by (gives holes.now []) depth 0 (forest rest.items) ≡ Err fault)) }
{
    let mut list = rest;
    let mut done = 0;
    while let Some((tree, after)) = list[done..].split_first() {
        match interpolation_at(tree, after) {
            None => {
                let more = after.len();
                let apart = comes_apart(tree, after);
                settle(alloc, &mut list[done], apart, holes, depth)?;
                out.put_copy(&list[done], more)?;
                done += 1;
            }
            Some(FoundInterpolation::Names(name, left)) => {
                let more = left.len();
                put_name(alloc, out, &name, holes, &[], more)?;
                done = list.len() - more;
            }
            Some(FoundInterpolation::Repeats(repetition, left)) => {
                let more = left.len();
                repeat_onto(alloc, out, &repetition, holes, &[], depth)?;
                done = list.len() - more;
            }
        }
    }
    Ok(())
}

/// Changes the tree, which begins neither a hole nor a repetition, into the tree of the result. It also proves that the
/// new tree can be part of a stream.
#[cycle(filled_in_place)]
#[inline(always)]
fn settle(
    alloc: Global,
    tree: &mut TokenTree,
    apart: bool,
    holes: &[Hole<'_>],
    depth: usize,
) -> Result<(), TemplateError>
    requires inside { GoesInside tree.old }
    requires few { depth ≤ depth_limit }
    ensures ok { OnOk result (Settles (gives holes.now []) depth apart tree.old tree.new) }
    ensures inside { OnOk result (GoesInside tree.new) }
    ensures built { OnOk result (IsBuilt (alone tree.new)) }
    ensures fault { IfErr result (λ fault.
        UnlessMemory fault (inside_tree (gives holes.now []) depth tree.old ≡ Err fault)) }
{
    change(alloc, tree, apart, holes, depth)?;
    // It computes nothing: proofs learn what is true of every tree.
    tree.span();
    Ok(())
}

/// Fills the contents of a group, or sets a mark Alone if `apart` is true.
#[cycle(filled_in_place)]
#[inline(always)]
fn change(
    alloc: Global,
    tree: &mut TokenTree,
    apart: bool,
    holes: &[Hole<'_>],
    depth: usize,
) -> Result<(), TemplateError>
    requires inside { GoesInside tree.old }
    requires few { depth ≤ depth_limit }
    ensures ok { OnOk result (Settles (gives holes.now []) depth apart tree.old tree.new) }
    ensures inside { OnOk result (GoesInside tree.new) }
    ensures fault { IfErr result (λ fault.
        UnlessMemory fault (inside_tree (gives holes.now []) depth tree.old ≡ Err fault)) }
{
    match tree {
        TokenTree::Group(group) => fill_group(alloc, group, holes, depth),
        TokenTree::Punct(mark) => {
            if apart {
                *mark = mark_as(mark, Spacing::Alone);
            }
            Ok(())
        }
        TokenTree::Ident(_) | TokenTree::Literal(_) => Ok(()),
    }
}

/// Fills the contents of the group.
#[cycle(filled_in_place)]
fn fill_group(
    alloc: Global,
    group: &mut Group,
    holes: &[Hole<'_>],
    depth: usize,
) -> Result<(), TemplateError>
    requires { depth ≤ depth_limit }
    ensures ok { OnOk result ((inside : Forest) × (inside_at (gives holes.now []) depth group.old ≡ Ok inside)
        × (group.new ≡ record group.old { stream = inside })) }
    ensures fault { IfErr result (λ fault.
        UnlessMemory fault (inside_at (gives holes.now []) depth group.old ≡ Err fault)) }
{
    let Some(inner) = depth.checked_sub(1) else {
        return Err(TemplateError::TooDeep(group.span()));
    };
    // If there is nothing to fill, the trees stay in their list.
    if are_fixed(group.stream_ref().trees()) {
        return Ok(());
    }
    let inside = filled_in_place(alloc, parts::take_stream(group), holes, inner)?;
    parts::set_stream(group, inside);
    Ok(())
}

/// Returns whether the tree is a mark right before a hole or a repetition, which makes it Alone.
#[inline(always)]
fn comes_apart(tree: &TokenTree, after: &[TokenTree]) -> bool
    ensures { apart result tree.now ≡ apart_before (forest after.now) tree.now }
{
    match tree {
        TokenTree::Punct(_) => has_meaning(after),
        TokenTree::Group(_) | TokenTree::Ident(_) | TokenTree::Literal(_) => false,
    }
}
