//! Punctuation marks and lone quotes.

ghost use Rattle.std.specs.Prelude.{◌≡◌, not};
ghost use Rattle.std.specs.Str.{chars};
ghost use Rattle.lexical.specs.Mark.{is_mark as is_one_of_marks, bars_quote, comment_fronts, joint_before};
ghost use Rattle.lexical.specs.Mark.{follows_quote as follows};
ghost use Rattle.lexical.specs.Text.{begins_any, first_passes};
ghost use Rattle.lexical.specs.declared.piece.PieceKind.TheVariants as kinds;

use crate::bytes::{Class, holds};
use crate::cursor::TextCursor;
use crate::identifiers::any_identifier;
use crate::piece::PieceKind;
use crate::text::{begins, split_first};

/// Whether the character is one of the 22 marks, by the rule `marks`.
#[inline(always)]
pub fn is_mark(c: char) -> bool
    ensures { result ≡ is_one_of_marks c }
{
    holds(Class::Mark, c)
}

/// Whether the text begins with a comment, `//` or `/*`.
#[inline(always)]
pub fn begins_comment(text: &str) -> bool
    ensures { result ≡ begins_any comment_fronts (chars text.now) }
{
    begins(text, "//") || begins(text, "/*")
}

/// Returns the kind of a mark that `rest` follows, by the rules `mark` and `joint`.
#[inline(always)]
pub fn mark<'a>(mark: char, rest: &str) -> PieceKind<'a>
    ensures { result ≡ kinds.Mark (joint_before (chars rest.now)) mark }
{
    let joint = match split_first(rest) {
        Some((next, _)) => is_mark(next) && !begins_comment(rest),
        None => false,
    };
    PieceKind::Mark { joint, mark }
}

/// Whether a `'` may come right before an identifier that ends at the cursor. It may not if a `'` follows the
/// identifier, or if a `#` follows and the identifier is not raw.
fn is_unbarred(end: TextCursor<'_>, raw: bool) -> bool
    ensures { result ≡ not (first_passes (bars_quote raw) (chars end.entry.rest.now)) }
{
    match end.advance() {
        Some((next, _)) => next != '\'' && (raw || next != '#'),
        None => true,
    }
}

/// Whether a lone quote may come right before the cursor, by the rule `lone-quote`.
#[inline(never)]
pub fn follows_quote(at: TextCursor<'_>) -> bool
    ensures { result ≡ follows (chars at.entry.rest.now) }
{
    let raw = begins(at.rest, "r#");
    match any_identifier(at, raw) {
        Some(end) => is_unbarred(end, raw),
        None => false,
    }
}
