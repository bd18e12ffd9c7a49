//! Raw strings, which have no escapes.
#![tactic(auto, using(crate::proofs::RuleSteps::steps))]

ghost use Rattle.std.specs.Prelude.{◌≡◌, ◌∷◌, IsTrue};
ghost use Rattle.std.specs.Str.{chars};
ghost use Rattle.lexical.specs.Ascii.{all_ascii};
ghost use Rattle.lexical.specs.Character.{double_quote};
ghost use Rattle.lexical.specs.RawString as rule;
ghost use Rattle.lexical.specs.RawString.{may_stand_raw};
ghost use Rattle.lexical.specs.Rule.{Run};
ghost use Rattle.lexical.specs.RuleMatch.{Passes, Reads, ReadsText};

use crate::bytes::{Class, skip};
use crate::contents::{count_allowed, may_stand};
use crate::cursor::TextCursor;
use crate::quoted::{StringKind, suffix};
use crate::text::{before, begins};
use memchr::memchr2;

/// The largest number of hash signs of a raw string.
const MOST_HASHES: usize = 255;

/// Returns the hash signs at the cursor, at most 255, and the cursor after them, by the rule `raw-hashes`.
fn hashes(at: TextCursor<'_>) -> Option<(&str, TextCursor<'_>)>
    ensures { ReadsText rule.hashes at.entry result }
{
    let end = skip(at, Class::Hash);
    let hashes = before(at.rest, end.rest);
    if hashes.len() > MOST_HASHES {
        return None;
    }
    Some((hashes, end))
}

/// Returns the cursor after all characters that a raw string may contain, at the first quote, CR or forbidden
/// character.
fn skip_plain(at: TextCursor<'_>, kind: StringKind) -> TextCursor<'_>
    ensures { Passes (Run (rule.is_raw_plain kind)) at.entry result }
{
    let bytes = at.rest.as_bytes();
    let size = memchr2(b'"', b'\r', bytes).unwrap_or(bytes.len());
    at.after_bytes(count_allowed(&bytes[..size], kind))
}

/// Returns the cursor after a unit of a raw string with these hash signs, by the rule `raw-unit`.
#[tactic(auto, unfolding(crate::specs::Rule::find))]
fn raw_unit<'a>(at: TextCursor<'a>, kind: StringKind, hashes: &str) -> Option<TextCursor<'a>>
    requires { IsTrue (all_ascii hashes.now) }
    ensures { Reads (rule.raw_unit (may_stand_raw kind) (double_quote ∷ hashes.now)) at.entry result }
{
    let (c, after) = at.advance()?;
    if c == '"' && begins(after.rest, hashes) {
        return None;
    }
    if c == '\r' {
        return at.past("\r\n");
    }
    if may_stand(c, kind) {
        Some(after)
    } else {
        None
    }
}

/// Returns the cursor after the raw string at the cursor, which `front` opens, by the rules `raw-string`,
/// `raw-byte-string` and `raw-c-string`.
pub fn raw_string<'a>(at: TextCursor<'a>, front: &str, kind: StringKind) -> Option<TextCursor<'a>>
    requires ascii { IsTrue (all_ascii front.now) }
    ensures { Reads (rule.raw front.now (may_stand_raw kind)) at.entry result }
{
    let (hashes, quote) = hashes(at.past(front)?)?;
    let mut end = quote.past("\"")?;
    while let Some(after) = raw_unit(end, kind, hashes) {
        end = skip_plain(after, kind);
    }
    Some(suffix(end.past("\"")?.past(hashes)?))
}
