//! How far a path reads, and with what signs it can go on. This is for trees that are no path.
ghost use Rattle.std.specs.Prelude.{◌≡◌, ◌-◌, ◌≤◌, ◌||◌, length};
ghost use Rattle.declarations.specs.Expected.{HasSigns};
ghost use Rattle.declarations.specs.Explore.{ExpectsWhole, Sees};
ghost use Rattle.declarations.specs.ExplorePath.{Turns, path_at};
ghost use Rattle.declarations.specs.Fault.{first_extent};
ghost use Rattle.declarations.specs.Syntax.{test_of};
ghost use Rattle.declarations.specs.rules.Names.{AfterArguments, AfterName, AfterSeparator};
ghost use Rattle.declarations.specs.rules.Paths.{angle_rest, path, round_rest, segment, type_path};

use crate::expected::Expected;
use crate::explore::{Seen, explore, joined, no_sign, stopped};
use crate::fault::Fault;
use crate::reader::is;
use crate::signs::first_sign;
use crate::syntax::{ARGUMENTS, RETURNED, Test};
use crate::type_path::{is_round, is_segment, opens};
use item_tables::class::SignClass;
use pm_stream::TokenTree;

/// Where in a path what follows is read.
#[derive(Clone, Copy)]
pub enum PathPlace {
    /// After the name of a segment.
    AfterName,
    /// After the name of a segment and `::`.
    AfterSeparator,
    /// After the generic arguments of a segment.
    AfterArguments,
}

/// No sign is read, and one that passes one of the tests could come.
fn unread(trees: &[TokenTree], may_end: bool, first: Test, second: Test, third: Test) -> Seen<'_>
    ensures left { result.left.now ≡ trees.now }
    ensures next { HasSigns result.next
        (λ class. test_of first class || (test_of second class || test_of third class)) may_end }
{
    let second = no_sign(second, trees).next.both(no_sign(third, trees).next);
    let next = no_sign(first, trees).next.both(second);
    Seen {
        left: trees,
        next: if may_end { next.with_end() } else { next },
    }
}

/// Reads the name of a segment.
fn see_segment(trees: &[TokenTree]) -> Result<(PathPlace, &[TokenTree]), Seen<'_>>
    ensures { Turns segment trees.now result }
{
    match first_sign(trees) {
        Some((class, rest)) => {
            if is_segment(class) {
                Ok((PathPlace::AfterName, rest))
            } else {
                Err(no_sign(Test::PathSegment, trees))
            }
        }
        None => Err(no_sign(Test::PathSegment, trees)),
    }
}

/// Reads generic arguments and `>`.
fn see_angle(trees: &[TokenTree]) -> Result<(PathPlace, &[TokenTree]), Seen<'_>>
    ensures { Turns angle_rest trees.now result }
{
    let inside = explore(&ARGUMENTS, trees);
    if !inside.next.has_end() {
        return Err(stopped(inside));
    }
    let closing = no_sign(Test::Is(SignClass::Greater), inside.left);
    match first_sign(inside.left) {
        Some((class, rest)) => {
            if is(SignClass::Greater, class) {
                Ok((PathPlace::AfterArguments, rest))
            } else {
                Err(joined(inside, closing))
            }
        }
        None => Err(joined(inside, closing)),
    }
}

/// Reads what comes after parentheses.
fn see_round(trees: &[TokenTree]) -> Result<(PathPlace, &[TokenTree]), Seen<'_>>
    ensures { Turns round_rest trees.now result }
{
    let separator = Test::Is(SignClass::PathSeparator);
    let none = unread(
        trees,
        true,
        Test::Is(SignClass::Arrow),
        separator,
        separator,
    );
    match first_sign(trees) {
        Some((class, rest)) => {
            if is(SignClass::Arrow, class) {
                Err(explore(&RETURNED, rest))
            } else if is(SignClass::PathSeparator, class) {
                see_segment(rest)
            } else {
                Err(none)
            }
        }
        None => Err(none),
    }
}

/// Reads what comes after generic arguments.
fn after_arguments(trees: &[TokenTree]) -> Result<(PathPlace, &[TokenTree]), Seen<'_>>
    ensures { Turns (path AfterArguments) trees.now result }
{
    let separator = Test::Is(SignClass::PathSeparator);
    let none = unread(trees, true, separator, separator, separator);
    match first_sign(trees) {
        Some((class, rest)) => {
            if is(SignClass::PathSeparator, class) {
                see_segment(rest)
            } else {
                Err(none)
            }
        }
        None => Err(none),
    }
}

/// Reads what comes after the name of a segment.
fn after_name(trees: &[TokenTree]) -> Result<(PathPlace, &[TokenTree]), Seen<'_>>
    ensures { Turns (path AfterName) trees.now result }
{
    let separator = Test::Is(SignClass::PathSeparator);
    let none = unread(trees, true, Test::Opens, Test::Round, separator);
    match first_sign(trees) {
        Some((class, rest)) => {
            if opens(class) {
                see_angle(rest)
            } else if is_round(class) {
                see_round(rest)
            } else if is(SignClass::PathSeparator, class) {
                Ok((PathPlace::AfterSeparator, rest))
            } else {
                Err(none)
            }
        }
        None => Err(none),
    }
}

/// Reads what comes after the name of a segment and `::`.
fn after_separator(trees: &[TokenTree]) -> Result<(PathPlace, &[TokenTree]), Seen<'_>>
    ensures { Turns (path AfterSeparator) trees.now result }
{
    let none = unread(trees, false, Test::Opens, Test::Round, Test::PathSegment);
    match first_sign(trees) {
        Some((class, rest)) => {
            if opens(class) {
                see_angle(rest)
            } else if is_round(class) {
                see_round(rest)
            } else if is_segment(class) {
                Ok((PathPlace::AfterName, rest))
            } else {
                Err(none)
            }
        }
        None => Err(none),
    }
}

/// Reads on at this place.
fn see_next(place: PathPlace, trees: &[TokenTree]) -> Result<(PathPlace, &[TokenTree]), Seen<'_>>
    ensures { Turns (path_at place) trees.now result }
{
    match place {
        PathPlace::AfterName => after_name(trees),
        PathPlace::AfterSeparator => after_separator(trees),
        PathPlace::AfterArguments => after_arguments(trees),
    }
}

/// Reads the beginning of a path.
fn see_first(trees: &[TokenTree]) -> Result<(PathPlace, &[TokenTree]), Seen<'_>>
    ensures { Turns type_path trees.now result }
{
    let separator = Test::Is(SignClass::PathSeparator);
    let none = unread(
        trees,
        false,
        separator,
        Test::PathSegment,
        Test::PathSegment,
    );
    match first_sign(trees) {
        Some((class, rest)) => {
            if is(SignClass::PathSeparator, class) {
                see_segment(rest)
            } else if is_segment(class) {
                Ok((PathPlace::AfterName, rest))
            } else {
                Err(none)
            }
        }
        None => Err(none),
    }
}

/// Reads the rest of a path from this place on.
fn see_rest<'a>(place: PathPlace, trees: &'a [TokenTree]) -> Seen<'a>
    ensures { Sees (path_at place) trees.now result }
{
    let mut at = place;
    let mut left = trees;
    loop {
        match see_next(at, left) {
            Ok((next, rest)) => {
                at = next;
                left = rest;
            }
            Err(seen) => return seen,
        }
    }
}

/// Reads a path as far as it goes.
fn see_path(trees: &[TokenTree]) -> Seen<'_>
    ensures { Sees type_path trees.now result }
{
    match see_first(trees) {
        Ok((place, rest)) => see_rest(place, rest),
        Err(seen) => seen,
    }
}

/// The signs that could come next where the trees are no path.
fn expected_in_path(trees: &[TokenTree]) -> Expected
    ensures { ExpectsWhole type_path trees.now result }
{
    see_path(trees).next
}

/// The error of trees that are no path, where `left` are the trees from the error on.
#[cold]
pub(crate) fn fault_in_path(trees: &[TokenTree], left: &[TokenTree]) -> Fault
    requires { length left.now ≤ length trees.now }
    ensures at { result.at ≡ length trees.now - length left.now }
    ensures span { result.span ≡ first_extent left.now }
    ensures expected { ExpectsWhole type_path trees.now result.expected }
{
    let fault = Fault::ahead_of(trees.len() - left.len(), left);
    fault.expecting(expected_in_path(trees))
}
