//! Cursors into a text.

ghost use Rattle.std.specs.Prelude.{◌≡◌, ◌+◌, ◌<◌, ◌^◌, length};
ghost use Rattle.std.specs.Str.{IsUtf8, chars};

use crate::text::{char_count, split_first, strip};

/// The rest of a text, and how many characters come before it.
#[derive(Clone, Copy)]
pub struct TextCursor<'a> {
    /// The text after the cursor.
    pub rest: &'a str,
    /// How many characters of the text come before the cursor.
    pub chars_before: usize,
    // The rest is valid UTF-8, and the count of characters cannot overflow.
    pub ghost text: { ∥ IsUtf8 rest.now ∥₁ },
    pub ghost room: { chars_before + length (chars rest.now) < 2 ^ 64 },
}

impl<'a> TextCursor<'a> {
    ghost use Rattle.std.specs.Prelude.{◌∷◌, ◌++◌, [], IsTrue, List, ℕ, MatchOption, drop, take};
    ghost use Rattle.std.specs.Str.{IsCharBoundary, encode_utf8_all};
    ghost use Rattle.lexical.specs.Ascii.{all_ascii};
    ghost use Rattle.lexical.specs.Rule.{Exactly};
    ghost use Rattle.lexical.specs.RuleMatch.{Reads};

    /// Returns the cursor at the start of a text.
    #[inline(always)]
    pub fn new(text: &'a str) -> Self
        ensures rest { result.rest.now ≡ text.now }
        ensures chars { result.chars_before ≡ 0 }
    {
        // The contract of `iter` bounds how many bytes a text has, and so how many characters.
        let _bytes = text.as_bytes().iter();
        TextCursor {
            rest: text,
            chars_before: 0,
        }
    }

    /// Returns the next character, and the cursor after it.
    #[inline(always)]
    pub fn advance(self) -> Option<(char, Self)>
        ensures { MatchOption result (chars self.entry.rest.now ≡ []) (λ x.
            (chars self.entry.rest.now ≡ x.0 ∷ chars x.1.rest.now)
            × (x.1.chars_before ≡ self.entry.chars_before + 1)) }
    {
        let (first, rest) = split_first(self.rest)?;
        let after = TextCursor {
            rest,
            chars_before: self.chars_before + 1,
        };
        Some((first, after))
    }

    /// Returns the cursor after the ASCII text `front`, or `None` if the rest does not begin with it.
    #[inline(always)]
    pub fn past(self, front: &str) -> Option<Self>
        requires { IsTrue (all_ascii front.now) }
        ensures { Reads (Exactly front.now) self.entry result }
    {
        let rest = strip(self.rest, front)?;
        let after = TextCursor {
            rest,
            chars_before: self.chars_before + front.len(),
        };
        Some(after)
    }

    /// Returns the cursor after the next `size` bytes, which must end between two characters.
    pub fn after_bytes(self, size: usize) -> Self
        requires { IsCharBoundary self.rest.now size }
        ensures rest { result.rest.now ≡ drop size self.entry.rest.now }
        ensures count { result.chars_before ≡ self.entry.chars_before + length (chars (take size self.entry.rest.now)) }
    {
        TextCursor {
            rest: &self.rest[size..],
            chars_before: self.chars_before + char_count(&self.rest[..size]),
        }
    }

    /// Counts the bytes of `text` before the cursor. The cursor's rest must be a suffix of `text`.
    #[inline(always)]
    pub fn bytes_in(self, text: &str) -> usize
        requires { (front : List ℕ) × (chars text.now ≡ front ++ chars self.rest.now) }
        ensures { (front : List ℕ) → chars text.now ≡ front ++ chars self.entry.rest.now
            → result ≡ length (encode_utf8_all front) }
    {
        text.len() - self.rest.len()
    }
}
