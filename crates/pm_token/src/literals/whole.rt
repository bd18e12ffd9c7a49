//! Parses a literal from its text.
ghost use Rattle.std.specs.Prelude.{◌≡◌, ◌==◌, ◌+◌, ◌↔◌, ◌∷◌, [], length, IfOk, IfErr, IfSome, IsTrue, MatchOption};
ghost use Rattle.std.specs.Prelude.{MatchResult, false, if◌then◌else◌};
ghost use Rattle.std.specs.Char.{is_ascii_digit};
ghost use Rattle.std.specs.Str.{chars, IsUtf8};
ghost use Rattle.lexical.specs.Literal as literals;
ghost use Rattle.lexical.specs.Text.{first_passes};
ghost use Rattle.pm_span.specs.Extent.{nowhere};
ghost use Rattle.pm_span.specs.Files.{Fits, Holds, next_lo, with_file};
ghost use Rattle.pm_token.specs.LiteralText.{IsWholeLiteral};
ghost use Rattle.pm_token.specs.Outcome.{IfLex, IsRefusalOf, was_read};

use crate::errors::{LexError, ParseError};
use crate::literals::Literal;
use lexical::literal_at;
use pm_span::parts::{add_file, allocator, char_count, fits, span_of};
use pm_span::{SourceMap, Span};
use std::alloc::{AllocError, Global};

impl Literal {
    /// Parses a text that is one literal, or `-` and a literal that begins with a digit (`whole-literal`).
    ///
    /// The text becomes the next file of the map, and the literal's span is all of it. Nothing may be before or
    /// after the literal, not even white space.
    ///
    /// A text that is anything else is rejected with `Lex` and the span 0..0, and becomes a file of the map
    /// too. `MapFull` comes exactly if the text would end past the map's limit (`fits`), and `Memory` if memory
    /// runs out. Both leave the map as it was.
    ///
    /// In a new map `-1u12` gives the literal of this text at 1..6. `- 1` and `-""` are rejected.
    pub fn from_str(text: &str, map: &mut SourceMap) -> Result<Literal, ParseError>
        ensures ok { IfOk result (λ literal. literal ≡ record {
          text = chars text.now;
          span = record { lo = next_lo map.old; hi = next_lo map.old + length (chars text.now) };
        }) }
        ensures whole { IfOk result (λ _. IsWholeLiteral (chars text.now)) }
        ensures within { IsTrue (was_read result) → Fits map.old (length (chars text.now)) }

        ensures lex { IfErr result (λ error. IfLex error (λ fault.
            (fault ≡ nowhere) × (IsWholeLiteral (chars text.now) → ⊥))) }
        ensures held { MatchResult result (λ literal. Holds map.new literal.span)
            (λ error. IfLex error (Holds map.new)) }
        ensures map_full { (result ≡ Err ParseError.MapFull)
            ↔ (Fits map.old (length (chars text.now)) → ⊥) }

        ensures kept { map.new
            ≡ (if was_read result then with_file map.old (chars text.now) else map.old) }
    {
        let Some(lo) = fits(map, text) else {
            return Err(ParseError::MapFull);
        };
        let span = span_of(lo, lo + char_count(text) as u32);
        let literal = Literal::whole_at(allocator(map), text, span);
        if let Err(ParseError::Memory(_)) = &literal {
            return literal;
        }
        add_file(map, text)?;
        literal
    }

    /// Parses a text that is one literal, and gives the literal this span. Any other text is a syntax error.
    fn whole_at(alloc: Global, text: &str, span: Span) -> Result<Literal, ParseError>
        ensures ok { IfOk result (λ literal. literal ≡ record { text = chars text.now; span = span }) }
        ensures whole { IfOk result (λ _. IsWholeLiteral (chars text.now)) }
        ensures refused { IfErr result (IsRefusalOf (IsWholeLiteral (chars text.now))) }
    {
        if !Literal::is_whole(text) {
            return Err(ParseError::Lex(LexError::at(Span::call_site())));
        }
        Ok(Literal::from_parts(alloc, text, span)?)
    }

    /// Makes the literal of this text, with the span 0..0. The text must be a literal (`is_whole`). Out of
    /// memory is the only error. For `1.5` it is `1.5`.
    pub fn from_str_unchecked(alloc: Global, text: &str) -> Result<Literal, AllocError>
        requires { IsWholeLiteral (chars text.now) }
        ensures ok { IfOk result (λ literal. literal ≡ record { text = chars text.now; span = nowhere }) }
    {
        Literal::from_parts(alloc, text, Span::call_site())
    }

    /// Returns whether the text is a literal, or `-` and a literal that begins with a digit (`whole-literal`).
    /// These are the texts that `from_str` accepts: `1u8`, `-0.1` and `"a"`, but not `- 1`, `1 ` or `-""`.
    pub fn is_whole(text: &str) -> bool
        ensures { IsTrue result ↔ IsWholeLiteral (chars text.now) }
    {
        match skip_minus(text) {
            Some(number) => begins_with_digit(number) && is_literal(number),
            None => is_literal(text),
        }
    }
}

/// Returns the text after its first character if that is `-`.
fn skip_minus(text: &str) -> Option<&str>
    ensures split { MatchOption result (first_passes (λ c. c == 45) (chars text.now) ≡ false)
        (λ number. chars text.now ≡ 45 ∷ chars number.now) }
    ensures utf8 { IfSome result (λ number. IsUtf8 number.now) }
{
    text.strip_prefix('-')
}

/// Returns whether the text begins with an ASCII digit.
#[tactic(auto, using(std::proofs::lemmas::Str::chars_past_char))]
fn begins_with_digit(text: &str) -> bool
    ensures { result ≡ first_passes is_ascii_digit (chars text.now) }
{
    match text.chars().next() {
        Some(c) => c.is_ascii_digit(),
        None => false,
    }
}

/// Returns whether the whole text is a literal of the grammar.
fn is_literal(text: &str) -> bool
    ensures { IsTrue result ↔ literals.Literal (chars text.now) [] }
{
    literal_at(text) == Some(text.len())
}
