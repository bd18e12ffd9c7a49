//! Searches for an ASCII character.
//!
//! The search looks at bytes. No byte of another character is below 0x80, so it finds only the ASCII character.

ghost use Rattle.std.specs.Prelude.{◌≡◌, ◌<◌, ◌==◌, ◌||◌, not};
ghost use Rattle.std.specs.Str.{IsUtf8, chars};
ghost use Rattle.lexical.specs.Finder.{while_rest};
ghost use Rattle.lexical.specs.Rule.{Run};
ghost use Rattle.lexical.specs.RuleMatch.{Passes};

use crate::cursor::TextCursor;
use memchr::{memchr, memchr2};

/// Returns the cursor at the first `stop`, an ASCII character, or at the end of the text if there is none.
pub fn skip_to(at: TextCursor<'_>, stop: u8) -> TextCursor<'_>
    requires { stop < 128 }
    ensures { Passes (Run (λ c. not (c == stop))) at.entry result }
{
    let bytes = at.rest.as_bytes();
    let size = memchr(stop, bytes).unwrap_or(bytes.len());
    at.after_bytes(size)
}

/// Returns the text from the first `stop` on, an ASCII character, or the empty end of the text if there is none. It
/// counts no characters.
pub fn from_first(text: &str, stop: u8) -> &str
    requires { stop < 128 }
    ensures rest { chars result.now ≡ while_rest (λ c. not (c == stop)) (chars text.now) }
    ensures utf8 { IsUtf8 result.now }
{
    let bytes = text.as_bytes();
    let before = memchr(stop, bytes).unwrap_or(bytes.len());
    &text[before..]
}

/// Returns the cursor at the first `a` or `b`, two ASCII characters, or at the end of the text if there is none.
pub fn skip_to_either(at: TextCursor<'_>, a: u8, b: u8) -> TextCursor<'_>
    requires ascii_a { a < 128 }
    requires ascii_b { b < 128 }
    ensures { Passes (Run (λ c. not (c == a || c == b))) at.entry result }
{
    let bytes = at.rest.as_bytes();
    let size = memchr2(a, b, bytes).unwrap_or(bytes.len());
    at.after_bytes(size)
}
