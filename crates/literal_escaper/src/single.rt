//! Reads contents that must be one unit.

ghost use Rattle.literal_escaper.specs.Unescaping.{Gives, text_at};
ghost use Rattle.literal_escaper.specs.Single.{single, single_front};

use crate::classes::{ContentClass, holds};
use crate::content_cursor::ContentCursor;
use crate::errors::EscapeError;
use crate::escape::escape;
use crate::kind::Unescape;

/// Returns the unit of a character or of the escape that it begins, or an error, and the cursor after it.
fn first_unit<K: Unescape>(
    c: char,
    after: ContentCursor<'_>,
) -> (Result<K::Unit, EscapeError>, ContentCursor<'_>)
    ensures { Gives (single_front K.kind c (text_at after.entry)) after.entry result }
{
    if !holds(ContentClass::CharSpecial, c) {
        return (K::of_char(c), after);
    }
    match c {
        '\\' => escape::<K>(after),
        '\r' => (Err(EscapeError::BareCarriageReturn), after),
        _ => (Err(EscapeError::EscapeOnlyChar), after),
    }
}

/// Returns the one unit of the content, by the rule `single-item`, or an error, and the cursor after what was read.
#[tactic(auto, unfolding(crate::specs::Single::single))]
pub fn unescape_single<K: Unescape>(
    at: ContentCursor<'_>,
) -> (Result<K::Unit, EscapeError>, ContentCursor<'_>)
    ensures { Gives (single K.kind (text_at at.entry)) at.entry result }
{
    let Some((c, after)) = at.advance() else {
        return (Err(EscapeError::ZeroChars), at);
    };
    let (unit, end) = first_unit::<K>(c, after);
    if unit.is_err() {
        return (unit, end);
    }
    match end.advance() {
        None => (unit, end),
        Some((_, past)) => (Err(EscapeError::MoreThanOneChar), past),
    }
}
