//! Why no piece begins at a single quote.
#![tactic(auto, using(lexical::proofs::RuleSteps::steps))]

ghost use Rattle.std.specs.Prelude.{◌≡◌, None, codes, not};
ghost use Rattle.std.specs.Str.{chars};
ghost use Rattle.std.specs.Char.{is_ascii_digit};
ghost use Rattle.lexical.specs.Character.{line_feed};
ghost use Rattle.lexical.specs.Quoted.{is_one_of};
ghost use Rattle.lexical.specs.Identifier.{name};
ghost use Rattle.lexical.specs.Rule.{Exactly, One, Then, UpTo, find};
ghost use Rattle.lexical.specs.PieceFinder.{find_lone_quote};
ghost use Rattle.lexical.specs.SingleQuoted.{character};
ghost use Rattle.lexical.specs.RuleMatch.{Passes, Reads};
ghost use Rattle.explain.specs.Shapes.{closed_single_body, raw_lifetime_start, single_front, single_opening};
ghost use Rattle.explain.specs.Shapes.{single_pair, single_rule};
ghost use Rattle.explain.specs.Trouble.{IsTrouble};

use crate::reason::Reason;
use crate::single_contents::single_content;
use crate::trouble::Trouble;
use lexical::parts::{Class, TextCursor, begins, name, one, one_that, skip};

/// What kind of literal has single quotes.
#[derive(Clone, Copy)]
pub enum SingleKind {
    /// A character.
    Character,
    /// A byte.
    Byte,
}

/// Whether the character is a pair by itself: any character except `'`, backslash and LF.
fn stands_alone(c: char) -> bool
    ensures { result ≡ not (is_one_of (codes "'\\\n") c) }
{
    !matches!(c, '\'' | '\\' | '\n')
}

/// Whether the character may be between two `'` although it is no pair: `'` or LF.
fn is_closed_alone(c: char) -> bool
    ensures { result ≡ is_one_of (codes "'\n") c }
{
    matches!(c, '\'' | '\n')
}

/// Returns the cursor after a pair: a character except `'`, backslash and LF, or a backslash and a character except LF.
/// Returns `None` where a comment begins.
fn past_single_pair(at: TextCursor<'_>) -> Option<TextCursor<'_>>
    ensures { Reads single_pair at.entry result }
{
    if begins(at.rest, "//") || begins(at.rest, "/*") {
        return None;
    }
    match one_that(at, |c| stands_alone(c)) {
        Some(end) => Some(end),
        None => one_that(at.past("\\")?, |c| c != '\n'),
    }
}

/// Returns the cursor after the pairs up to the next `'`, and after that `'`.
fn past_single_pairs(inside: TextCursor<'_>) -> Option<TextCursor<'_>>
    ensures { Reads (UpTo single_pair (Exactly (codes "'"))) inside.entry result }
{
    let mut end = inside;
    while let Some(after) = past_single_pair(end) {
        end = after;
    }
    end.past("'")
}

/// Returns the cursor after one `'` or LF and the `'` that follows it.
fn past_closed_alone(inside: TextCursor<'_>) -> Option<TextCursor<'_>>
    ensures { Reads (Then (One (is_one_of (codes "'\n"))) (Exactly (codes "'"))) inside.entry result }
{
    one_that(inside, |c| is_closed_alone(c))?.past("'")
}

/// Returns the cursor after the `'` that closes a character literal.
fn past_single(inside: TextCursor<'_>) -> Option<TextCursor<'_>>
    ensures { Reads closed_single_body inside.entry result }
{
    match past_closed_alone(inside) {
        Some(end) => Some(end),
        None => past_single_pairs(inside),
    }
}

/// Returns why no character or byte literal begins at the cursor. `inside` is after its opening quote.
pub fn single<'a>(at: TextCursor<'a>, inside: TextCursor<'a>, kind: SingleKind) -> Trouble<'a>
    requires opens { Passes single_opening at inside }
    requires front { Passes (Exactly (single_front kind)) at inside }
    requires none { find (single_rule kind) (chars at.rest.now) ≡ None }
    ensures { IsTrouble at.entry result }
{
    match past_single(inside) {
        Some(end) => single_content(at, inside, end, kind),
        None => Trouble {
            reason: Reason::UnclosedCharacter,
            at,
            after: inside,
        },
    }
}

/// Returns why no raw lifetime begins at the cursor. `inside` is after the `'`, `inner` after `'r#`, and `end` after
/// the name.
fn raw_lifetime<'a>(
    at: TextCursor<'a>,
    inside: TextCursor<'a>,
    inner: TextCursor<'a>,
    end: TextCursor<'a>,
) -> Trouble<'a>
    requires quote { Passes (Exactly (codes "'")) at inside }
    requires front { Passes (Exactly (codes "'r#")) at inner }
    requires name { Passes name inner end }
    requires lone { find_lone_quote (chars at.rest.now) ≡ None }
    requires none { find character (chars at.rest.now) ≡ None }
    ensures { IsTrouble at.entry result }
{
    match end.past("'") {
        Some(after) => single_content(at, inside, after, SingleKind::Character),
        None => Trouble {
            reason: Reason::ReservedRawName,
            at,
            after: end,
        },
    }
}

/// Returns why no lifetime of this name begins at the cursor. `inside` is after the `'`, and `end` after the name.
fn lifetime<'a>(at: TextCursor<'a>, inside: TextCursor<'a>, end: TextCursor<'a>) -> Trouble<'a>
    requires quote { Passes (Exactly (codes "'")) at inside }
    requires name { Passes name inside end }
    requires raw { find raw_lifetime_start (chars at.rest.now) ≡ None }
    requires lone { find_lone_quote (chars at.rest.now) ≡ None }
    requires none { find character (chars at.rest.now) ≡ None }
    ensures { IsTrouble at.entry result }
{
    if let Some(after) = end.past("'") {
        return single_content(at, inside, after, SingleKind::Character);
    }
    let Some(after) = end.past("#") else {
        unreachable!()
    };
    Trouble {
        reason: Reason::HashAfterLifetime,
        at: end,
        after,
    }
}

/// Returns why no piece begins at the cursor, which is before a `'` and a digit. `inside` is after the `'`, and `first`
/// after the digit.
fn digit_lifetime<'a>(
    at: TextCursor<'a>,
    inside: TextCursor<'a>,
    first: TextCursor<'a>,
) -> Trouble<'a>
    requires quote { Passes (Exactly (codes "'")) at inside }
    requires digit { Passes (One is_ascii_digit) inside first }
    requires none { find character (chars at.rest.now) ≡ None }
    ensures { IsTrouble at.entry result }
{
    let end = skip(first, Class::IdentifierContinue);
    match end.past("'") {
        Some(after) => single_content(at, inside, after, SingleKind::Character),
        None => Trouble {
            reason: Reason::DigitLifetime,
            at,
            after: end,
        },
    }
}

/// Returns why no piece begins at the cursor, which is before a `'`. `inside` is after the `'`.
pub fn quote<'a>(at: TextCursor<'a>, inside: TextCursor<'a>) -> Trouble<'a>
    requires opens { Passes (Exactly (codes "'")) at inside }
    requires lone { find_lone_quote (chars at.rest.now) ≡ None }
    requires none { find character (chars at.rest.now) ≡ None }
    ensures { IsTrouble at.entry result }
{
    if let Some(inner) = at.past("'r#") {
        if let Some(end) = name(inner) {
            return raw_lifetime(at, inside, inner, end);
        }
        let Some(end) = name(inside) else {
            unreachable!()
        };
        return lifetime(at, inside, end);
    }
    if let Some(end) = name(inside) {
        return lifetime(at, inside, end);
    }
    match one(inside, Class::Digit) {
        Some(first) => digit_lifetime(at, inside, first),
        None => single(at, inside, SingleKind::Character),
    }
}
