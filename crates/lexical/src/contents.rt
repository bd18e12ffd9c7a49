//! The characters that a string must not contain.
//!
//! The end of a string is searched for among its bytes. Then the bytes up to there are checked.

ghost use Rattle.std.specs.Prelude.{◌≡◌, length};
ghost use Rattle.std.specs.Char.{is_ascii};
ghost use Rattle.lexical.specs.Finder.{while_front};
ghost use Rattle.lexical.specs.RawString.{may_stand_raw};

use crate::quoted::StringKind;
use memchr::memchr;

/// Whether a string of the kind may contain the character, with escapes or raw.
pub fn may_stand(c: char, kind: StringKind) -> bool
    ensures { result ≡ may_stand_raw kind c }
{
    match kind {
        StringKind::Plain => true,
        StringKind::Byte => c.is_ascii(),
        StringKind::C => c != '\0',
    }
}

/// Counts the bytes before the first one that is past ASCII.
fn count_ascii(bytes: &[u8]) -> usize
    ensures { result ≡ length (while_front is_ascii bytes.now) }
{
    if bytes.is_ascii() {
        return bytes.len();
    }
    let mut count = 0;
    while count < bytes.len() {
        if !bytes[count].is_ascii() {
            break;
        }
        count += 1;
    }
    count
}

/// Counts the bytes before the first one that a string of the kind must not contain.
pub fn count_allowed(stretch: &[u8], kind: StringKind) -> usize
    ensures { result ≡ length (while_front (may_stand_raw kind) stretch.now) }
{
    match kind {
        StringKind::Plain => stretch.len(),
        StringKind::Byte => count_ascii(stretch),
        StringKind::C => memchr(0, stretch).unwrap_or(stretch.len()),
    }
}
