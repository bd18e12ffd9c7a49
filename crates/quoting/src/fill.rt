//! Fills the holes of a template that is shared.
//!
//! The functions call themselves for groups. The stack is bounded, since templates with groups below a fixed depth are
//! rejected.
ghost use Rattle.std.specs.Prelude.{◌≡◌, ◌≤◌, ◌+◌, ◌++◌, ◌∷◌, [], All, IfErr, IfOk, Ok, Err, OnOk, length};
ghost use Rattle.std.specs.List.{list_all};
ghost use Rattle.proc_macro2.specs.Forest.{chain};
ghost use Rattle.proc_macro2.specs.Trees.{forest, GoesInside};
ghost use Rattle.quoting.specs.Filled.{before_turn, depth_limit, then_outcome, has_meaning, filled_by};
ghost use Rattle.quoting.specs.Given.{UnlessMemory, apart_before, gives, inside_at, is_fixed, repeats_of, separator_of};

use crate::builder::StreamBuilder;
use crate::errors::TemplateError;
use crate::holes::Hole;
use crate::interpolation::{FoundInterpolation, Repetition, interpolation_at};
use crate::putting::put_name;
use crate::respace::{mark_as, with_contents};
use crate::turns::{check_turns, turns_of};
use proc_macro2::{Group, Punct, Spacing, TokenStream, TokenTree};
use std::alloc::{AllocError, Global};

/// Returns the template with its holes filled in these turns of repetitions, the outermost first. Groups may nest up
/// to `depth` deep.
#[cycle(fill_template)]
pub(crate) fn fill_template(
    alloc: Global,
    template: &TokenStream,
    holes: &[Hole<'_>],
    turns: &[usize],
    depth: usize,
) -> Result<TokenStream, TemplateError>
    requires { length turns.now + depth ≤ depth_limit }
    ensures ok { IfOk result (λ stream. filled_by (gives holes.now turns.now) depth 0 template.now ≡ Ok stream) }
    ensures fault { IfErr result (λ fault.
        UnlessMemory fault (filled_by (gives holes.now turns.now) depth 0 template.now ≡ Err fault)) }
{
    let trees = template.trees();
    let mut out = StreamBuilder::new(alloc);
    fill_onto(alloc, &mut out, trees, holes, turns, depth)?;
    Ok(out.finish()?)
}

/// Adds the trees of the template to the stream, with their holes filled as `fill_template` does.
#[cycle(fill_template)]
fn fill_onto(
    alloc: Global,
    out: &mut StreamBuilder,
    template: &[TokenTree],
    holes: &[Hole<'_>],
    turns: &[usize],
    depth: usize,
) -> Result<(), TemplateError>
    requires inside { All GoesInside template.now }
    requires few { length turns.now + depth ≤ depth_limit }
    ensures ok { OnOk result (then_outcome (Ok out.old)
        (filled_by (gives holes.now turns.now) depth 0 (forest template.now)) ≡ Ok out.new) }
    ensures fault { IfErr result (λ fault.
        UnlessMemory fault (filled_by (gives holes.now turns.now) depth 0 (forest template.now) ≡ Err fault)) }
{
    let mut left = template;
    while let Some((tree, after)) = left.split_first() {
        match interpolation_at(tree, after) {
            None => {
                if let TokenTree::Group(group) = tree {
                    let inside = filled_inside(alloc, group, holes, turns, depth)?;
                    out.put(TokenTree::Group(with_contents(group, inside)), after.len())?;
                } else {
                    out.put(apart_before(tree, after)?, after.len())?;
                }
                left = after;
            }
            Some(FoundInterpolation::Names(name, rest)) => {
                put_name(alloc, out, &name, holes, turns, rest.len())?;
                left = rest;
            }
            Some(FoundInterpolation::Repeats(repetition, rest)) => {
                repeat_onto(alloc, out, &repetition, holes, turns, depth)?;
                left = rest;
            }
        }
    }
    Ok(())
}

/// Returns a copy of the tree. A mark is Alone in the copy if a hole or a repetition begins right after it.
fn apart_before(tree: &TokenTree, after: &[TokenTree]) -> Result<TokenTree, AllocError>
    ensures { IfOk result (λ copy. copy ≡ apart_before (forest after.now) tree.now) }
{
    match tree {
        TokenTree::Punct(mark) if has_meaning(after) => Ok(TokenTree::Punct(mark_as(
            mark,
            Spacing::Alone,
        ))),
        _ => tree.clone(),
    }
}

/// Returns whether the trees begin with a hole or a repetition.
pub(crate) fn has_meaning(trees: &[TokenTree]) -> bool
    ensures { result ≡ has_meaning (forest trees.now) }
{
    match trees.split_first() {
        Some((first, after)) => interpolation_at(first, after).is_some(),
        None => false,
    }
}

/// Returns the contents of the group with their holes filled. Groups may nest up to `depth` deep, this group included.
#[cycle(fill_template)]
fn filled_inside(
    alloc: Global,
    group: &Group,
    holes: &[Hole<'_>],
    turns: &[usize],
    depth: usize,
) -> Result<TokenStream, TemplateError>
    requires { length turns.now + depth ≤ depth_limit }
    ensures ok { IfOk result (λ inside. inside_at (gives holes.now turns.now) depth group.now ≡ Ok inside) }
    ensures fault { IfErr result (λ fault.
        UnlessMemory fault (inside_at (gives holes.now turns.now) depth group.now ≡ Err fault)) }
{
    let Some(inner) = depth.checked_sub(1) else {
        return Err(TemplateError::TooDeep(group.span()));
    };
    let template = group.stream_ref();
    // If there is nothing to fill, the trees are shared.
    if are_fixed(template.trees()) {
        return Ok(template.clone()?);
    }
    fill_template(alloc, template, holes, turns, inner)
}

/// Returns whether no tree is a group or a `#`, so that filling changes nothing.
pub(crate) fn are_fixed(trees: &[TokenTree]) -> bool
    ensures { result ≡ list_all is_fixed trees.now }
{
    for tree in trees {
        if !is_fixed(tree) {
            return false;
        }
    }
    true
}

/// Returns whether the tree is neither a group nor a `#`.
fn is_fixed(tree: &TokenTree) -> bool
    ensures { result ≡ is_fixed tree.now }
{
    match tree {
        TokenTree::Group(_) => false,
        TokenTree::Punct(mark) => mark.as_char() != '#',
        TokenTree::Ident(_) | TokenTree::Literal(_) => true,
    }
}

/// Adds the turns of a repetition to the stream, with the separator between them. The error `NoList` comes before any
/// error inside the repetition.
#[cycle(fill_template)]
pub(crate) fn repeat_onto(
    alloc: Global,
    out: &mut StreamBuilder,
    repetition: &Repetition<'_>,
    holes: &[Hole<'_>],
    turns: &[usize],
    depth: usize,
) -> Result<(), TemplateError>
    requires { length turns.now + depth ≤ depth_limit }
    ensures ok { OnOk result (then_outcome (Ok out.old)
        (gives holes.now turns.now depth (repeats_of repetition.now)) ≡ Ok out.new) }
    ensures fault { IfErr result (λ fault.
        UnlessMemory fault (gives holes.now turns.now depth (repeats_of repetition.now) ≡ Err fault)) }
{
    let body = repetition.body;
    let Some(inner) = depth.checked_sub(1) else {
        return Err(TemplateError::TooDeep(body.span()));
    };
    let trees = body.stream_ref().trees();
    let Some(count) = turns_of(alloc, trees, holes, turns)? else {
        return Err(TemplateError::NoList(body.span()));
    };
    check_turns(trees, holes, turns, inner, count)?;
    for turn in 0..count {
        separate(out, repetition.separator, turn, trees.len())?;
        fill_turn(alloc, out, trees, holes, turns, turn, inner)?;
    }
    Ok(())
}

/// Adds the trees of one turn of a repetition to the stream, with their holes filled. `turns` are those of the
/// repetitions around it.
#[cycle(fill_template)]
fn fill_turn(
    alloc: Global,
    out: &mut StreamBuilder,
    template: &[TokenTree],
    holes: &[Hole<'_>],
    turns: &[usize],
    turn: usize,
    depth: usize,
) -> Result<(), TemplateError>
    requires inside { All GoesInside template.now }
    requires few { length turns.now + (1 + depth) ≤ depth_limit }
    ensures ok { OnOk result (then_outcome (Ok out.old)
        (filled_by (gives holes.now (turns.now ++ turn ∷ [])) depth 0 (forest template.now)) ≡ Ok out.new) }
    ensures fault { IfErr result (λ fault. UnlessMemory fault
        (filled_by (gives holes.now (turns.now ++ turn ∷ [])) depth 0 (forest template.now) ≡ Err fault)) }
{
    // Most repetitions are not inside another one. They need no list of turns.
    if turns.is_empty() {
        return fill_onto(alloc, out, template, holes, &[turn], depth);
    }
    let here = and_turn(alloc, turns, turn)?;
    fill_onto(alloc, out, template, holes, here.as_slice(), depth)
}

/// Returns the turns of the outer repetitions, followed by this turn.
fn and_turn(alloc: Global, turns: &[usize], turn: usize) -> Result<Vec<usize>, AllocError>
    ensures { IfOk result (λ list. list.items ≡ turns.now ++ turn ∷ []) }
{
    let mut list = Vec::with_capacity(alloc, turns.len().saturating_add(1))?;
    list.extend_from_slice(turns)?;
    list.push(turn)?;
    Ok(list)
}

/// Adds the separator, Alone, before every turn but the first. About `more` trees are expected after it.
fn separate(
    out: &mut StreamBuilder,
    separator: Option<&Punct>,
    turn: usize,
    more: usize,
) -> Result<(), AllocError>
    ensures { OnOk result (out.new ≡ chain out.old (before_turn (separator_of separator.entry) turn)) }
{
    match separator {
        Some(mark) if turn > 0 => out.put(TokenTree::Punct(mark_as(mark, Spacing::Alone)), more),
        _ => Ok(()),
    }
}
