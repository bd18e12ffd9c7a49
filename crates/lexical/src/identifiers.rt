//! Names and identifiers.
#![tactic(auto, using(crate::proofs::RuleSteps::steps))]

ghost use Rattle.std.specs.Prelude.{◌≡◌, ◌+◌, ◌∷◌, IsTrue, List, ℕ, codes};
ghost use Rattle.std.specs.Str.{chars};
ghost use Rattle.lexical.specs.Class.{is_ident_start};
ghost use Rattle.lexical.specs.Identifier as rule;
ghost use Rattle.lexical.specs.Identifier.{is_reserved as reserved, literal_prefixes};
ghost use Rattle.lexical.specs.PieceFinder.{found_identifier};
ghost use Rattle.lexical.specs.PieceStep.{Answers};
ghost use Rattle.lexical.specs.RuleMatch.{Reads};
ghost use Rattle.lexical.specs.Text.{begins_any, begins_with};

use crate::bytes::{Class, one, skip};
use crate::cursor::TextCursor;
use crate::piece::PieceKind;
use crate::text::{before, begins, is_text};

/// Returns the cursor after the name at the cursor, by the rule `name`.
pub fn name(at: TextCursor<'_>) -> Option<TextCursor<'_>>
    ensures { Reads rule.name at.entry result }
{
    let after = one(at, Class::IdentifierStart)?;
    Some(skip(after, Class::IdentifierContinue))
}

/// Whether the text begins like a literal that has letters before its quote, by the rule `reserved-prefix`. `first` is
/// its first character.
#[inline(always)]
fn begins_literal(text: &str, first: char) -> bool
    requires { (rest : List ℕ) × (chars text.now ≡ first ∷ rest) }
    ensures { result ≡ begins_any literal_prefixes (chars text.now) }
{
    match first {
        'r' => begins(text, "r\"") || begins(text, "r#\"") || begins(text, "r##"),
        'b' => begins(text, "b\"")
            || begins(text, "b'")
            || begins(text, "br\"")
            || begins(text, "br#"),
        'c' => begins(text, "c\"") || begins(text, "cr\"") || begins(text, "cr#"),
        _ => false,
    }
}

/// Whether a raw identifier must not have the name, by the rule `raw-reserved`: `_`, `super`, `self`, `Self` and
/// `crate`.
pub fn is_reserved(name: &str) -> bool
    ensures { result ≡ reserved (chars name.now) }
{
    is_text(name, "_")
        || is_text(name, "super")
        || is_text(name, "self")
        || is_text(name, "Self")
        || is_text(name, "crate")
}

/// Returns the cursor after the name of a raw identifier. The cursor `at` is after its `r#`.
#[inline(never)]
pub fn raw_name(at: TextCursor<'_>) -> Option<TextCursor<'_>>
    ensures { Reads rule.raw_name at.entry result }
{
    let end = name(at)?;
    if is_reserved(before(at.rest, end.rest)) {
        return None;
    }
    Some(end)
}

/// Returns the cursor after the identifier at the cursor, even if a literal begins there. `raw` says whether the text
/// there begins with `r#`.
pub fn any_identifier(at: TextCursor<'_>, raw: bool) -> Option<TextCursor<'_>>
    requires { begins_with (codes "r#") (chars at.rest.now) ≡ raw }
    ensures { Reads (rule.any_identifier raw) at.entry result }
{
    if raw {
        raw_name(at.past("r#")?)
    } else {
        name(at)
    }
}

/// Returns the kind of the identifier at the cursor, by the rule `identifier`, and the cursor after it. `first` is the
/// character at the cursor, and `after` is the cursor after that character.
#[inline(always)]
pub fn identifier<'a>(
    at: TextCursor<'a>,
    first: char,
    after: TextCursor<'a>,
) -> Option<(PieceKind<'a>, TextCursor<'a>)>
    requires starts { IsTrue (is_ident_start first) }
    requires split { chars at.rest.now ≡ first ∷ chars after.rest.now }
    requires one { after.chars_before ≡ at.chars_before + 1 }
    ensures { Answers (found_identifier (chars at.entry.rest.now)) at.entry result }
{
    if begins_literal(at.rest, first) {
        return None;
    }
    if let Some(inside) = at.past("r#") {
        let end = raw_name(inside)?;
        let kind = PieceKind::Name {
            raw: true,
            name: before(inside.rest, end.rest),
        };
        return Some((kind, end));
    }
    let end = skip(after, Class::IdentifierContinue);
    let kind = PieceKind::Name {
        raw: false,
        name: before(at.rest, end.rest),
    };
    Some((kind, end))
}
