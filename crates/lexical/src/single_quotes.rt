//! Character literals and byte literals.
#![tactic(auto, using(crate::proofs::RuleSteps::steps))]

ghost use Rattle.std.specs.Prelude.{◌≡◌, IsTrue};
ghost use Rattle.lexical.specs.Ascii.{all_ascii};
ghost use Rattle.lexical.specs.Quoted.{escape};
ghost use Rattle.lexical.specs.Rule.{One};
ghost use Rattle.lexical.specs.SingleQuoted as rule;
ghost use Rattle.lexical.specs.SingleQuoted.{is_plain};
ghost use Rattle.lexical.specs.RuleMatch.{Reads};

use crate::cursor::TextCursor;
use crate::escapes::escape;
use crate::quoted::{StringKind, suffix};
use crate::skip::one;

/// Whether a literal of the kind may have the character between single quotes as it is, without an escape.
pub fn stands_bare(c: char, kind: StringKind) -> bool
    ensures { result ≡ is_plain kind c }
{
    match c {
        '\'' | '\\' | '\n' | '\r' | '\t' => false,
        _ => !matches!(kind, StringKind::Byte) || c.is_ascii(),
    }
}

/// Returns the cursor after one character that needs no escape.
fn bare(at: TextCursor<'_>, kind: StringKind) -> Option<TextCursor<'_>>
    ensures { Reads (One (is_plain kind)) at.entry result }
{
    one(at, |c| stands_bare(c, kind))
}

/// Returns the cursor after one character that needs no escape, or after a backslash and its escape.
fn unit(at: TextCursor<'_>, kind: StringKind) -> Option<TextCursor<'_>>
    ensures { Reads (rule.unit (is_plain kind) (escape kind)) at.entry result }
{
    match bare(at, kind) {
        Some(end) => Some(end),
        None => escape(at.past("\\")?, kind),
    }
}

/// Returns the cursor after the literal between single quotes at the cursor, which `front` opens, by the rules
/// `character` and `byte`.
pub fn single<'a>(at: TextCursor<'a>, front: &str, kind: StringKind) -> Option<TextCursor<'a>>
    requires ascii { IsTrue (all_ascii front.now) }
    ensures { Reads (rule.single front.now (is_plain kind) (escape kind)) at.entry result }
{
    let end = unit(at.past(front)?, kind)?;
    Some(suffix(end.past("'")?))
}
