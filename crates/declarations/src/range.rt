//! The walk over a type or bounds alone.
ghost use Rattle.std.specs.Prelude.{◌≡◌, ◌+◌, ◌≤◌, ◌<◌, ◌^◌, ◌==◌, ◌&&◌, IfNone, IfSome};
ghost use Rattle.std.specs.Prelude.{MatchResult, None, Some, false, length, true};
ghost use Rattle.item_tables.specs.Walk.{step};
ghost use Rattle.declarations.specs.Range.{in_range};
ghost use Rattle.declarations.specs.Tables.{StopsAt};
ghost use Rattle.declarations.specs.Signs.{BeginsWith, classes_of, signs};
ghost use Rattle.item_tables.specs.TypeStep.{may_end};
ghost use Rattle.declarations.specs.Walk.{Stops};
ghost use Rattle.item_tables.specs.declared.class.SignClass.{SignClass as ClassValue};

use crate::signs::first_sign;
use item_tables::class::SignClass;
use item_tables::types::{TypeState, may_end, type_step};
use item_tables::walk_state::depth_after;
use pm_stream::TokenTree;

/// Skips a type or bounds from a state on. At an error it returns the trees after the longest prefix that can go on.
#[tactic(auto, using(crate::proofs::RangeStepLemmas::walks))]
pub(crate) fn past_range(
    trees: &[TokenTree],
    start: TypeState,
) -> Result<&[TokenTree], &[TokenTree]>
    ensures { MatchResult result (λ rest. StopsAt (in_range start 0) true trees.now rest.now)
        (λ left. StopsAt (in_range start 0) false trees.now left.now) }
{
    let mut state = start;
    let mut depth = 0usize;
    let mut left = trees;
    while let Some((next, brackets, after)) = next_range(state, depth, left) {
        state = next;
        depth = brackets;
        left = after;
    }
    if is_end(state, depth) {
        Ok(left)
    } else {
        Err(left)
    }
}

/// Whether a type or bounds may end in this state, within so many angle brackets.
fn is_end(state: TypeState, depth: usize) -> bool
    ensures { result ≡ ((depth == 0) && may_end state) }
{
    depth == 0 && may_end(state)
}

/// One step: the next state, the number of open angle brackets, and the trees after the sign.
fn next_range(
    state: TypeState,
    depth: usize,
    trees: &[TokenTree],
) -> Option<(TypeState, usize, &[TokenTree])>
    requires { depth + length trees.now + 1 < 2 ^ 64 }
    ensures found { IfSome result (λ next. (class : ClassValue) × BeginsWith trees.now class next.2.now
        × (step (in_range state depth) class ≡ Some (in_range next.0 next.1))
        × (next.1 + length next.2.now ≤ depth + length trees.now)) }
    ensures none { IfNone result (Stops step (in_range state depth) (classes_of (signs trees.now))) }
{
    let (class, after) = first_sign(trees)?;
    let (next, brackets) = range_step(state, depth, class)?;
    Some((next, brackets, after))
}

/// The next state and the number of open angle brackets after a sign.
#[tactic(auto, using(crate::proofs::RangeStepLemmas::range_steps))]
fn range_step(state: TypeState, depth: usize, class: SignClass) -> Option<(TypeState, usize)>
    requires { depth + 1 < 2 ^ 64 }
    ensures found { IfSome result (λ next. step (in_range state depth) class ≡ Some (in_range next.0 next.1)) }
    ensures most { IfSome result (λ next. next.1 ≤ depth + 1) }
    ensures none { IfNone result (step (in_range state depth) class ≡ None) }
{
    let taken = type_step(state, class, depth == 0)?;
    Some((taken.state, depth_after(taken.turn, depth)))
}
