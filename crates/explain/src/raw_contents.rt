//! The first error in the content of a raw string that is closed.
#![tactic(auto, using(lexical::proofs::RuleSteps::steps))]

ghost use Rattle.std.specs.Prelude.{◌≡◌, ◌≤◌, ◌∷◌, ◌&&◌, ◌==◌, Err, IsTrue, None, codes, false, length, not};
ghost use Rattle.std.specs.Str.{chars};
ghost use Rattle.lexical.specs.Ascii.{all_ascii};
ghost use Rattle.lexical.specs.Character.{carriage_return, double_quote};
ghost use Rattle.lexical.specs.RawString.{may_stand_raw, raw_front, raw_string, raw_unit};
ghost use Rattle.lexical.specs.Rule.{Exactly, Run, find};
ghost use Rattle.lexical.specs.RuleMatch.{Passes, Reads};
ghost use Rattle.explain.specs.Content.{raw_character};
ghost use Rattle.explain.specs.Shapes.{closed_raw_body, is_hash};
ghost use Rattle.explain.specs.Trouble.{IsTrouble};

use crate::reason::Reason;
use crate::trouble::Trouble;
use lexical::parts::{StringKind, TextCursor, begins};
use literal_escaper::EscapeError;

/// Whether the content of a string of this kind may have the character. A CR is checked elsewhere.
fn may_stand(c: char, kind: StringKind) -> bool
    ensures { result ≡ may_stand_raw kind c }
{
    match kind {
        StringKind::Plain => true,
        StringKind::Byte => c.is_ascii(),
        StringKind::C => c != '\0',
    }
}

/// Returns the cursor after a unit of a raw string with these hash signs.
#[tactic(auto, unfolding(lexical::specs::Rule::find))]
fn past_unit<'a>(at: TextCursor<'a>, hashes: &str, kind: StringKind) -> Option<TextCursor<'a>>
    requires { IsTrue (all_ascii hashes.now) }
    ensures { Reads (raw_unit (may_stand_raw kind) (double_quote ∷ hashes.now)) at.entry result }
{
    let (c, after) = at.advance()?;
    if c == '"' && begins(after.rest, hashes) {
        return None;
    }
    if c == '\r' {
        return at.past("\r\n");
    }
    if may_stand(c, kind) {
        Some(after)
    } else {
        None
    }
}

/// Returns the error for a character that a raw string of this kind may not have. For a CR, the caller has checked that
/// no LF follows.
fn error_of(c: char, kind: StringKind) -> EscapeError
    requires { (may_stand_raw kind c && not (c == carriage_return)) ≡ false }
    ensures { raw_character kind c ≡ Err result }
{
    if c == '\r' {
        return EscapeError::BareCarriageReturnInRawString;
    }
    match kind {
        StringKind::Byte => EscapeError::NonAsciiCharInByte,
        StringKind::C => EscapeError::NulInCStr,
        StringKind::Plain => unreachable!(),
    }
}

/// Returns the first error in the content of a raw string that begins at `at`. `inside` is after its letters, `quote`
/// after its hash signs, `body` after its opening quote, and `end` after all of it.
pub fn raw_content<'a>(
    at: TextCursor<'a>,
    inside: TextCursor<'a>,
    quote: TextCursor<'a>,
    body: TextCursor<'a>,
    end: TextCursor<'a>,
    hashes: &str,
    kind: StringKind,
) -> Trouble<'a>
    requires letters { Passes (Exactly (raw_front kind)) at inside }
    requires signs { (run : Passes (Run is_hash) inside quote) × (hashes.now ≡ run.front) }
    requires few { length hashes.now ≤ 255 }
    requires ascii { IsTrue (all_ascii hashes.now) }
    requires opens { Passes (Exactly (codes "\"")) quote body }
    requires closed { Passes (closed_raw_body hashes.now) body end }
    requires none { find (raw_string kind) (chars at.rest.now) ≡ None }
    ensures { IsTrouble at.entry result }
{
    let mut place = body;
    while let Some(after) = past_unit(place, hashes, kind) {
        place = after;
    }
    let Some((c, after)) = place.advance() else {
        unreachable!()
    };
    Trouble {
        reason: Reason::Content(error_of(c, kind)),
        at: place,
        after,
    }
}
