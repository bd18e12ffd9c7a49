//! Makes Alone marks Joint that are to be written close to the next mark.
ghost use Rattle.std.specs.Prelude.{◌≡◌, ◌≤◌, ◌<◌, ◌||◌, ◌++◌, ◌∷◌, [], IfOk, MatchOption, OnOk, length};
ghost use Rattle.proc_macro2.specs.Leaf.{is_joint};
ghost use Rattle.proc_macro2.specs.Trees.{forest};
ghost use Rattle.proc_macro2.specs.WellSpaced.{next_token};
ghost use Rattle.quoting.specs.Joined.{begins_operator, joined, may_join};
ghost use Rattle.quoting.specs.Part.{Adds, Closes, Linked, all_kept, joined_alone};
ghost use Rattle.quoting.specs.Visited.{visited_marks};

use crate::open_list::OpenList;
use crate::respace::mark_as;
use proc_macro2::{Punct, Spacing, TokenStream, TokenTree};
use std::alloc::{AllocError, Global};

/// A tree of a stream that [`join_marks`] visits: a group whose trees are visited next, or a mark that is to be joined.
#[derive(Clone, Copy)]
pub struct Visit {
    /// The number of groups around the tree.
    pub depth: usize,
    /// The number of trees before it in its list.
    pub index: usize,
}

/// Returns the stream in which each visited mark is Joint, if it may be joined with the next token of its list.
///
/// The visits are in reading order, and each group around a mark is visited before the mark. The first visit of which
/// this is not true changes nothing, and neither do the visits after it (`visited-marks`). Only the lists in which
/// marks are joined and the lists around these are copied. The others stay shared.
///
/// Fails if memory runs out.
pub fn join_marks(
    alloc: Global,
    stream: &TokenStream,
    visits: &[Visit],
) -> Result<TokenStream, AllocError>
    ensures { IfOk result (λ new. new ≡ joined (visited_marks 0 0 stream.now visits.now) stream.now) }
{
    let mut outer: Vec<OpenList<'_>> = Vec::new(alloc);
    let mut here = OpenList::new(stream);
    for visit in visits {
        here = closed_to(alloc, &mut outer, here, visit.depth)?;
        here.keep_before(visit.index);
        let Some((tree, after)) = visited_tree(&here, outer.len(), visit) else {
            return close_all(alloc, outer, here);
        };
        if let TokenTree::Group(group) = tree {
            outer.push(here)?;
            here = OpenList::new(group.stream_ref());
        } else {
            join_next(&mut here, alloc, tree, after)?;
        }
    }
    close_all(alloc, outer, here)
}

/// Returns the first tree that is left of the list, and the trees after it, if it is visited. The list is in this
/// number of groups.
fn visited_tree<'a>(
    list: &OpenList<'a>,
    depth: usize,
    visit: &Visit,
) -> Option<(&'a TokenTree, &'a [TokenTree])>
    ensures { MatchOption result
        (visit.now.depth ≡ depth → visit.now.index ≡ list.now.count → list.now.left ≡ [])
        (λ next. (list.now.left ≡ next.0.now ∷ next.1.now)
        × (visit.now.depth ≡ depth) × (visit.now.index ≡ list.now.count)) }
{
    if visit.depth != depth || visit.index != list.count() {
        return None;
    }
    list.next()
}

/// Joins the first tree that is left of the list, if it is a mark that may be joined. It must not be a group.
fn join_next(
    list: &mut OpenList<'_>,
    alloc: Global,
    tree: &TokenTree,
    after: &[TokenTree],
) -> Result<(), AllocError>
    requires { list.old.left ≡ tree.now ∷ after.now }
    ensures { OnOk result (Adds list.old (joined_alone tree.now (next_token (forest after.now))) list.new) }
{
    if let TokenTree::Punct(mark) = tree {
        let spacing = joined_spacing(mark, after);
        if spacing != mark.spacing() {
            return list.replace(alloc, TokenTree::Punct(mark_as(mark, spacing)));
        }
    }
    list.keep();
    Ok(())
}

/// Returns the spacing of the joined mark before these trees: Joint if it was or may be joined.
fn joined_spacing(mark: &Punct, after: &[TokenTree]) -> Spacing
    ensures { is_joint result
        ≡ (is_joint mark.now.spacing || may_join mark.now.mark (next_token (forest after.now))) }
{
    if mark.spacing() == Spacing::Joint || may_join(mark.as_char(), after) {
        Spacing::Joint
    } else {
        Spacing::Alone
    }
}

/// Closes all lists that are open. All trees that are left are kept.
fn close_all<'a>(
    alloc: Global,
    outer: Vec<OpenList<'a>>,
    innermost: OpenList<'a>,
) -> Result<TokenStream, AllocError>
    requires { Linked outer.items innermost.whole }
    ensures { IfOk result (λ new. new ≡ all_kept outer.entry.items innermost.entry) }
{
    let mut outer = outer;
    let mut here = closed_to(alloc, &mut outer, innermost, 0)?;
    here.keep_rest();
    here.finish()
}

/// Closes the innermost open lists until this number of lists is open around the innermost one. All trees that are left
/// in the closed lists are kept.
fn closed_to<'a>(
    alloc: Global,
    outer: &mut Vec<OpenList<'a>>,
    innermost: OpenList<'a>,
    depth: usize,
) -> Result<OpenList<'a>, AllocError>
    requires { Linked outer.old.items innermost.whole }
    ensures { IfOk result (λ list. Closes outer.old.items innermost.entry depth outer.new.items list) }
{
    let mut here = innermost;
    while let Some(mut around) = pop_above(outer, depth) {
        here.keep_rest();
        around.close(alloc, here)?;
        here = around;
    }
    Ok(here)
}

/// Takes off the last list, if more than `depth` lists are open.
fn pop_above<'a>(outer: &mut Vec<OpenList<'a>>, depth: usize) -> Option<OpenList<'a>>
    ensures { MatchOption result ((outer.new.items ≡ outer.old.items) × (length outer.old.items ≤ depth))
        (λ last. (outer.old.items ≡ outer.new.items ++ last ∷ []) × (depth < length outer.old.items)) }
{
    if outer.len() > depth {
        outer.pop()
    } else {
        None
    }
}

/// Returns whether the mark may be joined with the first of the trees after it. This must be a mark.
fn may_join(mark: char, after: &[TokenTree]) -> bool
    ensures { result ≡ may_join mark (next_token (forest after.now)) }
{
    match after.first() {
        Some(TokenTree::Punct(next)) => mark != '\'' && !begins_operator(mark, next.as_char()),
        _ => false,
    }
}

/// Returns whether these marks begin an operator or a comment if they are written close.
pub fn begins_operator(mark: char, next: char) -> bool
    ensures { result ≡ begins_operator mark next }
{
    match next {
        '=' => matches!(
            mark,
            '=' | '!' | '<' | '>' | '+' | '-' | '*' | '/' | '%' | '^' | '&' | '|' | '.'
        ),
        ':' | '&' | '.' => mark == next,
        '>' => mark == '-' || mark == '=',
        '-' => mark == '<',
        '/' | '*' => mark == '/',
        _ => false,
    }
}
