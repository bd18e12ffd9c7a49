//! The walk over the signs of trees by the tables of types, bounds and expressions.
ghost use Rattle.std.specs.Prelude.{◌≡◌, ◌+◌, ◌≤◌, ◌<◌, ◌^◌, ◌&&◌, IfNone, IfSome, MatchResult};
ghost use Rattle.std.specs.Prelude.{false, is_some, length, true};
ghost use Rattle.item_tables.specs.Classes.{any_of, is};
ghost use Rattle.item_tables.specs.Walk.{step};
ghost use Rattle.declarations.specs.Expected.{HasSigns};
ghost use Rattle.declarations.specs.Signs.{BeginsWith, classes_of, signs};
ghost use Rattle.declarations.specs.Tables.{AreSteps, StopsAt, Walked};
ghost use Rattle.declarations.specs.Walk.{Stops};
ghost use Rattle.item_tables.specs.declared.class.SignClass.{SignClass as ClassValue};

use crate::expected::{CLASSES, Expected};
use crate::signs::first_sign;
use item_tables::class::SignClass;
use item_tables::walk_state::WalkState;
use pm_stream::TokenTree;

/// Skips what can be read from a state on. At an error it returns the trees after the longest prefix that can go on.
pub(crate) fn walk_past<'a>(
    trees: &'a [TokenTree],
    start: WalkState,
) -> Result<&'a [TokenTree], &'a [TokenTree]>
    requires { start.depth ≡ 0 }
    ensures { MatchResult result (λ rest. StopsAt start true trees.now rest.now)
        (λ left. StopsAt start false trees.now left.now) }
{
    let stop = walk_from(trees, start);
    if stop.place.may_end() {
        Ok(stop.left)
    } else {
        Err(stop.left)
    }
}

/// The state and the trees at which a walk stops.
#[derive(Clone, Copy)]
pub(crate) struct Stop<'a> {
    pub place: WalkState,
    /// The trees that are left.
    pub left: &'a [TokenTree],
}

/// Walks from a state on, as far as the signs are steps.
pub(crate) fn walk_from<'a>(trees: &'a [TokenTree], start: WalkState) -> Stop<'a>
    requires { start.depth ≡ 0 }
    ensures walked { Walked start trees.now result.left.now result.place }
    ensures stops { Stops step result.place (classes_of (signs result.left.now)) }
    ensures depth { result.place.depth ≤ length trees.now }
{
    let mut place = start;
    let mut left = trees;
    while let Some((next, after)) = next_place(place, left) {
        place = next;
        left = after;
    }
    Stop { place, left }
}

/// One step: the next state, and the trees after the sign.
fn next_place<'a>(place: WalkState, trees: &'a [TokenTree]) -> Option<(WalkState, &'a [TokenTree])>
    requires { place.depth + length trees.now + 1 < 2 ^ 64 }
    ensures found { IfSome result (λ next. (class : ClassValue) × BeginsWith trees.now class next.1.now
        × (step place class ≡ Some next.0)
        × (next.0.depth + length next.1.now ≤ place.depth + length trees.now)) }
    ensures none { IfNone result (Stops step place (classes_of (signs trees.now))) }
{
    let (class, after) = first_sign(trees)?;
    let next = place.step(class)?;
    Some((next, after))
}

/// Those of the classes for which there is a step from this place.
fn steps_among(place: WalkState, classes: &[SignClass]) -> Expected
    requires { place.depth + 1 < 2 ^ 64 }
    ensures { HasSigns result (λ class. any_of (λ x. is x class && is_some (step place x)) classes.now) false }
{
    let mut found = Expected::nothing();
    for class in classes {
        if place.step(*class).is_some() {
            found = found.with(*class);
        }
    }
    found
}

/// The signs for which there is a step from this place, and the end if what is read may end there.
#[cold]
pub(crate) fn steps_from(place: WalkState) -> Expected
    requires { place.depth + 1 < 2 ^ 64 }
    ensures { AreSteps place result }
{
    let found = steps_among(place, &CLASSES);
    if place.may_end() {
        found.with_end()
    } else {
        found
    }
}
