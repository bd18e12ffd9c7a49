//! Makes literals of texts, characters and bytes.
ghost use Rattle.std.specs.Prelude.{◌≡◌, IfOk, IfSome, IsTrue};
ghost use Rattle.std.specs.Str.{chars};
ghost use Rattle.pm_span.specs.Extent.{nowhere};
ghost use Rattle.pm_token.specs.CString.{IsCStringText, has_no_zero};
ghost use Rattle.pm_token.specs.Escaped.{byte_string_text, byte_text, character_text, string_text};
ghost use Rattle.pm_token.specs.Text.{IsText};

use crate::escapes::{TextBuilder, stands_for_itself};
use crate::literals::Literal;
use crate::symbols::Symbol;
use pm_span::Span;
use std::alloc::{AllocError, Global};
use std::str;

/// Returns the character literal's text if the character is ASCII and needs no escape. This allocates nothing.
fn plain_character(c: char) -> Option<Symbol>
    ensures value { IfSome result (λ text. text ≡ character_text c) }
    ensures text { IfSome result IsText }
{
    if !c.is_ascii() || !stands_for_itself(c as u8, '\'') {
        return None;
    }
    let end = [c as u8, b'\''];
    let Ok(end) = str::from_utf8(&end) else {
        return None;
    };
    let text = Symbol::concatenation("'", end)?;
    Some(text)
}

/// Returns the text of the character's literal. Out of memory is the only error.
fn between_quotes(alloc: Global, c: char) -> Result<Symbol, AllocError>
    ensures value { IfOk result (λ text. text ≡ character_text c) }
    ensures text { IfOk result IsText }
{
    if let Some(text) = plain_character(c) {
        return Ok(text);
    }
    let mut builder = TextBuilder::new(alloc);
    builder.push('\'')?;
    builder.push_escaped('\'', c, "")?;
    builder.push('\'')?;
    let text = builder.finish(alloc)?;
    Ok(text)
}

/// Literals of texts, characters and bytes.
impl Literal {
    /// Makes the string literal of the text (`string-text`), with the span 0..0. For CR, a quote and U+0301 it
    /// is `"\r\"\u{301}"`. Out of memory is the only error.
    pub fn string(alloc: Global, text: &str) -> Result<Literal, AllocError>
        ensures ok { IfOk result (λ literal.
            literal ≡ record { text = string_text (chars text.now); span = nowhere }) }
    {
        Literal::string_at(alloc, text, Span::call_site())
    }

    /// Makes the string literal of the text, with this span. Out of memory is the only error.
    pub(crate) fn string_at(alloc: Global, text: &str, span: Span) -> Result<Literal, AllocError>
        ensures ok { IfOk result (λ literal.
            literal ≡ record { text = string_text (chars text.now); span = span }) }
    {
        // Most texts have nothing to escape. Otherwise the builder grows.
        let mut builder = TextBuilder::with_room(alloc, text.len() + 2)?;
        builder.push('"')?;
        builder.push_content('"', text)?;
        builder.push('"')?;
        Ok(Literal {
            text: builder.finish(alloc)?,
            span,
        })
    }

    /// Makes the literal of the character (`character-text`), with the span 0..0. For `'` it is `'\''`, and for
    /// `"` it is `'"'`. Out of memory is the only error.
    pub fn character(alloc: Global, c: char) -> Result<Literal, AllocError>
        ensures ok { IfOk result (λ literal.
            literal ≡ record { text = character_text c; span = nowhere }) }
    {
        Ok(Literal {
            text: between_quotes(alloc, c)?,
            span: Span::call_site(),
        })
    }

    /// Makes the literal of the byte (`byte-text`), with the span 0..0. For 0x1F it is `b'\x1F'`. Out of memory
    /// is the only error.
    pub fn byte_character(alloc: Global, byte: u8) -> Result<Literal, AllocError>
        ensures ok { IfOk result (λ literal.
            literal ≡ record { text = byte_text byte; span = nowhere }) }
    {
        let mut builder = TextBuilder::new(alloc);
        builder.push('b')?;
        builder.push('\'')?;
        builder.push_byte(b'\'', byte, &[])?;
        builder.push('\'')?;
        Ok(Literal {
            text: builder.finish(alloc)?,
            span: Span::call_site(),
        })
    }

    /// Makes the byte string literal of the bytes (`byte-string-text`), with the span 0..0. For `"`, 0 and `7`
    /// it is `b"\"\x007"`. Out of memory is the only error.
    pub fn byte_string(alloc: Global, bytes: &[u8]) -> Result<Literal, AllocError>
        ensures ok { IfOk result (λ literal.
            literal ≡ record { text = byte_string_text bytes.now; span = nowhere }) }
    {
        let mut builder = TextBuilder::new(alloc);
        builder.push('b')?;
        builder.push('"')?;
        builder.push_bytes(b'"', bytes)?;
        builder.push('"')?;
        Ok(Literal {
            text: builder.finish(alloc)?,
            span: Span::call_site(),
        })
    }

    /// Makes the C string literal of the bytes (`c-string-text`), with the span 0..0. No byte may be zero: the
    /// zero that ends a C string is not written in its literal. For 0x7F, 0xFF and the bytes of U+0333 it is
    /// `c"\u{7f}\xFF\u{333}"`. Out of memory is the only error.
    pub fn c_string(alloc: Global, bytes: &[u8]) -> Result<Literal, AllocError>
        requires { IsTrue (has_no_zero bytes.now) }
        ensures ok { IfOk result (λ literal.
            IsCStringText bytes.now literal.text × (literal.span ≡ nowhere)) }
    {
        let mut builder = TextBuilder::new(alloc);
        builder.push('c')?;
        builder.push('"')?;
        builder.push_c_string(bytes)?;
        builder.push('"')?;
        Ok(Literal {
            text: builder.finish(alloc)?,
            span: Span::call_site(),
        })
    }
}
