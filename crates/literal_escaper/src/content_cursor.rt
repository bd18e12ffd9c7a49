//! A cursor into the content of a literal.

ghost use Rattle.std.specs.Prelude.{◌≡◌, ◌∷◌, [], ◌≤◌, IfSome, MatchOption, length};
ghost use Rattle.std.specs.Str.{IsUtf8, chars};

/// A position in the content of a literal.
#[derive(Clone, Copy)]
pub struct ContentCursor<'a> {
    /// The content after the cursor.
    pub rest: &'a str,
    /// How many bytes the whole content has.
    pub end: usize,
    // The rest is valid UTF-8 and no longer than the content.
    pub ghost text: { ∥ IsUtf8 rest.now ∥₁ },
    pub ghost within: { length rest.now ≤ end },
}

impl<'a> ContentCursor<'a> {
    ghost use Rattle.literal_escaper.specs.Items.{byte_offset};
    ghost use Rattle.literal_escaper.specs.Text.{bytes};

    /// Returns the cursor at the start of a content.
    pub fn new(content: &'a str) -> Self
        ensures rest { chars result.rest.now ≡ chars content.now }
        ensures end { result.end ≡ bytes (chars content.now) }
    {
        ContentCursor {
            rest: content,
            end: content.len(),
        }
    }

    /// Returns how many bytes of the content come before the cursor.
    pub fn byte_offset(self) -> usize
        ensures { result ≡ byte_offset self.entry.end (chars self.entry.rest.now) }
    {
        self.end - self.rest.len()
    }

    /// Returns the next character, and the cursor after it.
    #[tactic(auto, using(std::proofs::lemmas::Str::chars_past_char))]
    pub fn advance(self) -> Option<(char, Self)>
        ensures { MatchOption result (chars self.entry.rest.now ≡ []) (λ x.
            (chars self.entry.rest.now ≡ x.0 ∷ chars x.1.rest.now) × (x.1.end ≡ self.entry.end)) }
    {
        let mut characters = self.rest.chars();
        let first = characters.next()?;
        let after = ContentCursor {
            rest: characters.as_str(),
            end: self.end,
        };
        Some((first, after))
    }
}
