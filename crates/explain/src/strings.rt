//! Why no string begins at what opens one.
#![tactic(auto, using(lexical::proofs::RuleSteps::steps))]

ghost use Rattle.std.specs.Prelude.{◌≡◌, ◌∷◌, IsTrue, None, codes, not};
ghost use Rattle.std.specs.Str.{chars};
ghost use Rattle.lexical.specs.Ascii.{all_ascii};
ghost use Rattle.lexical.specs.Quoted.{cooked_string, front, is_one_of};
ghost use Rattle.lexical.specs.PieceFinder.{found_identifier};
ghost use Rattle.lexical.specs.RawString.{raw_front, raw_string as raw_rule};
ghost use Rattle.lexical.specs.Rule.{Exactly, Run, find};
ghost use Rattle.lexical.specs.RuleMatch.{Passes, Reads};
ghost use Rattle.explain.specs.Shapes.{any, closed_body, closed_raw_body, is_hash, no_double_quote, pair};
ghost use Rattle.explain.specs.Shapes.{raw_name_start, raw_unit};
ghost use Rattle.explain.specs.Trouble.{IsTrouble};

use crate::contents::string_content;
use crate::raw_contents::raw_content;
use crate::reason::Reason;
use crate::trouble::Trouble;
use lexical::parts::{
    Class, StringKind, TextCursor, before, begins, one_that, skip, skip_to, skip_to_either,
};

/// Whether the character is a pair by itself: any character except `"` and backslash.
fn stands_alone(c: char) -> bool
    ensures { result ≡ not (is_one_of (codes "\"\\") c) }
{
    !matches!(c, '"' | '\\')
}

/// Returns the cursor after a pair: a character except `"` and backslash, or a backslash and any character.
fn past_pair(at: TextCursor<'_>) -> Option<TextCursor<'_>>
    ensures { Reads pair at.entry result }
{
    match one_that(at, |c| stands_alone(c)) {
        Some(end) => Some(end),
        None => one_that(at.past("\\")?, |_| true),
    }
}

/// Returns the cursor after the first `"` that has no backslash before it in a pair.
fn past_quote(inside: TextCursor<'_>) -> Option<TextCursor<'_>>
    ensures { Reads closed_body inside.entry result }
{
    let mut end = skip_to_either(inside, b'"', b'\\');
    while let Some(after) = past_pair(end) {
        end = skip_to_either(after, b'"', b'\\');
    }
    end.past("\"")
}

/// Returns the cursor after a character, or `None` where the closing quote and hash signs of the raw string are.
#[tactic(auto, unfolding(lexical::specs::Rule::find))]
fn past_raw_unit<'a>(at: TextCursor<'a>, hashes: &str) -> Option<TextCursor<'a>>
    requires { IsTrue (all_ascii hashes.now) }
    ensures { Reads (raw_unit hashes.now) at.entry result }
{
    let (c, after) = at.advance()?;
    if c == '"' && begins(after.rest, hashes) {
        return None;
    }
    Some(after)
}

/// Returns the cursor after the first `"` with these hash signs after it, and after the hash signs.
fn past_raw_quote<'a>(inside: TextCursor<'a>, hashes: &str) -> Option<TextCursor<'a>>
    requires { IsTrue (all_ascii hashes.now) }
    ensures { Reads (closed_raw_body hashes.now) inside.entry result }
{
    let mut end = skip_to(inside, b'"');
    while let Some(after) = past_raw_unit(end, hashes) {
        end = skip_to(after, b'"');
    }
    end.past("\"")?.past(hashes)
}

/// Returns why no string of this kind begins at the cursor. `inside` is after its opening quote.
pub fn string<'a>(at: TextCursor<'a>, inside: TextCursor<'a>, kind: StringKind) -> Trouble<'a>
    requires opens { Passes (Exactly (front kind)) at inside }
    requires none { find (cooked_string kind) (chars at.rest.now) ≡ None }
    ensures { IsTrouble at.entry result }
{
    match past_quote(inside) {
        Some(end) => string_content(at, inside, end, kind),
        None => Trouble {
            reason: Reason::UnclosedString,
            at,
            after: inside,
        },
    }
}

/// Returns why no raw string of this kind begins at the cursor. `inside` is after its letters.
pub fn raw_string<'a>(at: TextCursor<'a>, inside: TextCursor<'a>, kind: StringKind) -> Trouble<'a>
    requires letters { Passes (Exactly (raw_front kind)) at inside }
    requires name { find raw_name_start (chars at.rest.now) ≡ None }
    requires identifier { found_identifier (chars at.rest.now) ≡ None }
    requires none { find (raw_rule kind) (chars at.rest.now) ≡ None }
    ensures { IsTrouble at.entry result }
{
    let quote = skip(inside, Class::Hash);
    let Some(body) = quote.past("\"") else {
        return without_quote(at, inside, quote, kind);
    };
    let hashes = before(inside.rest, quote.rest);
    let Some(end) = past_raw_quote(body, hashes) else {
        return Trouble {
            reason: Reason::UnclosedRawString,
            at,
            after: body,
        };
    };
    if hashes.len() > MOST_HASHES {
        return Trouble {
            reason: Reason::TooManyHashes,
            at,
            after: body,
        };
    }
    raw_content(at, inside, quote, body, end, hashes, kind)
}

/// The largest number of hash signs that a raw string may have.
const MOST_HASHES: usize = 255;

/// Returns the trouble for hash signs, from `inside` to `end`, with no quote after them.
fn without_quote<'a>(
    at: TextCursor<'a>,
    inside: TextCursor<'a>,
    end: TextCursor<'a>,
    kind: StringKind,
) -> Trouble<'a>
    requires letters { Passes (Exactly (raw_front kind)) at inside }
    requires signs { Passes (Run is_hash) inside end }
    requires quote { find (Exactly (codes "\"")) (chars end.rest.now) ≡ None }
    requires name { find raw_name_start (chars at.rest.now) ≡ None }
    requires identifier { found_identifier (chars at.rest.now) ≡ None }
    ensures { IsTrouble at.entry result }
{
    let Some(after) = past_other(end) else {
        unreachable!()
    };
    Trouble {
        reason: Reason::HashesWithoutQuote,
        at: end,
        after,
    }
}

/// Returns the cursor after a character except `"`, or `at` itself at the end of the text. Returns `None` before a `"`.
fn past_other(at: TextCursor<'_>) -> Option<TextCursor<'_>>
    ensures { Reads no_double_quote at.entry result }
{
    if begins(at.rest, "\"") {
        return None;
    }
    match one_that(at, |_| true) {
        Some(end) => Some(end),
        None => Some(at),
    }
}
