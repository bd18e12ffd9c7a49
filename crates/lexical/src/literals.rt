//! Literals.
#![tactic(auto, using(crate::proofs::RuleSteps::steps))]

ghost use Rattle.std.specs.Prelude.{◌&&◌, IsTrue, codes};
ghost use Rattle.lexical.specs.Ascii.{all_ascii};
ghost use Rattle.lexical.specs.Literal as rule;
ghost use Rattle.lexical.specs.Quoted.{body, unit};
ghost use Rattle.lexical.specs.RawString.{may_stand_raw, raw};
ghost use Rattle.lexical.specs.Rule.{Either, Exactly, Then};
ghost use Rattle.lexical.specs.RuleMatch.{Reads};

use crate::cursor::TextCursor;
use crate::numbers::number;
use crate::quoted::{StringKind, string};
use crate::raw_strings::raw_string;
use crate::single_quotes::single;

/// Returns the cursor after the literal between quotes at the cursor, by the rule `quoted-literal`.
#[inline(never)]
pub fn skip_quoted(at: TextCursor<'_>) -> Option<TextCursor<'_>>
    ensures { Reads rule.quoted_literal at.entry result }
{
    if let Some(end) = any_string(at, "\"", "r", StringKind::Plain) {
        return Some(end);
    }
    if let Some(end) = single(at, "'", StringKind::Plain) {
        return Some(end);
    }
    if let Some(end) = any_string(at, "b\"", "br", StringKind::Byte) {
        return Some(end);
    }
    match single(at, "b'", StringKind::Byte) {
        Some(end) => Some(end),
        None => any_string(at, "c\"", "cr", StringKind::C),
    }
}

/// Returns the cursor after the string at the cursor. `front` opens it if it has escapes, and `raw_front` opens it if
/// it is raw.
fn any_string<'a>(
    at: TextCursor<'a>,
    front: &str,
    raw_front: &str,
    kind: StringKind,
) -> Option<TextCursor<'a>>
    requires ascii { IsTrue (all_ascii front.now && all_ascii raw_front.now) }
    ensures { Reads
        (Either (Then (Exactly front.now) (body (unit kind) (codes "\""))) (raw raw_front.now (may_stand_raw kind)))
        at.entry result }
{
    match string(at, front, kind) {
        Some(end) => Some(end),
        None => raw_string(at, raw_front, kind),
    }
}

/// Returns the cursor after the literal at the cursor, by the rule `literal`.
pub fn literal(at: TextCursor<'_>) -> Option<TextCursor<'_>>
    ensures { Reads rule.literal at.entry result }
{
    match skip_quoted(at) {
        Some(end) => Some(end),
        None => number(at),
    }
}
