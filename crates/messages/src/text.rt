//! Parts of texts.
ghost use Rattle.std.specs.Prelude.{◌≡◌, drop, take};
ghost use Rattle.std.specs.Str.{IsUtf8, chars};

use lexical::parts::before;

/// Splits the text after its first `count` characters, or at its end if it has fewer.
pub fn split_chars(text: &str, count: u32) -> (&str, &str)
    ensures front { chars result.0.now ≡ take count (chars text.now) }
    ensures rest { chars result.1.now ≡ drop count (chars text.now) }
    ensures utf8_front { IsUtf8 result.0.now }
    ensures utf8_rest { IsUtf8 result.1.now }
{
    let mut rest = text.chars();
    for _ in 0..count {
        let _ = rest.next();
    }
    let after = rest.as_str();
    (before(text, after), after)
}
