//! Strings with escapes.
#![tactic(auto, using(crate::proofs::RuleSteps::steps))]

ghost use Rattle.std.specs.Prelude.{◌≡◌, codes, IsTrue};
ghost use Rattle.lexical.specs.Ascii.{all_ascii};
ghost use Rattle.lexical.specs.Quoted as rule;
ghost use Rattle.lexical.specs.Rule.{Exactly, One, Run, Then};
ghost use Rattle.lexical.specs.RuleMatch.{Passes, Reads};

use crate::contents::{count_allowed, may_stand};
use crate::cursor::TextCursor;
use crate::escapes::escape;
use crate::identifiers::name;
use crate::skip::one;
use memchr::memchr3;

/// What a string consists of.
#[derive(Clone, Copy)]
pub enum StringKind {
    /// Characters: a string.
    Plain,
    /// Bytes: a byte string. Its text is ASCII; other bytes need escapes.
    Byte,
    /// Bytes other than zero: a C string.
    C,
}

/// Returns the cursor after the suffix of a literal, by the rule `suffix`. A literal without a suffix leaves the cursor
/// where it is.
pub fn suffix(at: TextCursor<'_>) -> TextCursor<'_>
    ensures { Passes rule.suffix at.entry result }
{
    match name(at) {
        Some(end) => end,
        None => at,
    }
}

/// Whether a string of the kind may contain the character as it is, without an escape.
fn stands_for_itself(c: char, kind: StringKind) -> bool
    ensures { result ≡ rule.is_plain kind c }
{
    match c {
        '"' | '\\' | '\r' => false,
        _ => may_stand(c, kind),
    }
}

/// Returns the cursor after one character that needs no escape.
fn plain(at: TextCursor<'_>, kind: StringKind) -> Option<TextCursor<'_>>
    ensures { Reads (One (rule.is_plain kind)) at.entry result }
{
    one(at, |c| stands_for_itself(c, kind))
}

/// Returns the cursor after all characters that need no escape, at the first quote, backslash, CR or forbidden
/// character.
fn skip_plain(at: TextCursor<'_>, kind: StringKind) -> TextCursor<'_>
    ensures { Passes (Run (rule.is_plain kind)) at.entry result }
{
    let bytes = at.rest.as_bytes();
    let size = memchr3(b'"', b'\\', b'\r', bytes).unwrap_or(bytes.len());
    at.after_bytes(count_allowed(&bytes[..size], kind))
}

/// Returns the cursor after what may follow a backslash in a string.
fn escape_or_line_end(at: TextCursor<'_>, kind: StringKind) -> Option<TextCursor<'_>>
    ensures { Reads (rule.escape_or_line_end kind) at.entry result }
{
    if let Some(end) = at.past("\n") {
        return Some(end);
    }
    match at.past("\r\n") {
        Some(end) => Some(end),
        None => escape(at, kind),
    }
}

/// Returns the cursor after a unit of a string, by the rules `string-unit`, `byte-string-unit` and `c-string-unit`.
fn unit(at: TextCursor<'_>, kind: StringKind) -> Option<TextCursor<'_>>
    ensures { Reads (rule.unit kind) at.entry result }
{
    if let Some(escape) = at.past("\\") {
        return escape_or_line_end(escape, kind);
    }
    match plain(at, kind) {
        Some(end) => Some(end),
        None => at.past("\r\n"),
    }
}

/// Returns the cursor after the string at the cursor, which `front` opens, by the rules `string`, `byte-string` and
/// `c-string`.
pub fn string<'a>(at: TextCursor<'a>, front: &str, kind: StringKind) -> Option<TextCursor<'a>>
    requires ascii { IsTrue (all_ascii front.now) }
    ensures { Reads (Then (Exactly front.now) (rule.body (rule.unit kind) (codes "\""))) at.entry result }
{
    let inside = at.past(front)?;
    let mut end = skip_plain(inside, kind);
    while let Some(after) = unit(end, kind) {
        end = skip_plain(after, kind);
    }
    let closed = end.past("\"")?;
    Some(suffix(closed))
}
