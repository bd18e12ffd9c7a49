//! The values of literals.
ghost use Rattle.std.specs.Prelude.{◌≡◌, ◌↔◌, [], Ok, IsOk, IfErr};
ghost use Rattle.lexical.specs.SingleQuoted.{Byte, Character};
ghost use Rattle.pm_token.specs.declared.literals.conversion.ConversionErrorKind.TheVariants.{InvalidLiteralKind};
ghost use Rattle.pm_token.specs.SingleValue.{IsUnsuffixed, byte_value, char_value};
ghost use Rattle.pm_token.specs.Value.{Answers, byte_str_value, bytes_of, cstr_value, str_value, text_of};

mod content;
mod raw;
mod single;
mod unescaped;

use crate::literals::Literal;
use crate::literals::conversion::ConversionErrorKind;
use crate::literals::values::content::{cooked_content, raw_content};
use crate::literals::values::raw::{raw_bytes, raw_c_string, raw_string};
use crate::literals::values::single::{byte_of, character_of};
use crate::literals::values::unescaped::{unescaped_bytes, unescaped_c_string, unescaped_string};
use std::alloc::Global;

impl Literal {
    /// Returns the value of a string literal without a suffix (`string-value`).
    ///
    /// The value of `".."` is the characters of its items, in order. The value of `r".."`, with any number of
    /// `#`, is its content unchanged.
    ///
    /// `FailedToUnescape` has the last error among the items of a `".."`; warnings don't count.
    /// `InvalidLiteralKind` comes for all other literals, and only for these. `Memory` comes if memory runs
    /// out, but never if the value is empty.
    ///
    /// The value of `"a\tb"` is `a`, a tab and `b`, and that of `r#"\"#` is a backslash. `"a"s` and `b"a"` are
    /// rejected.
    pub fn str_value(&self, alloc: Global) -> Result<String, ConversionErrorKind>
        ensures value { Answers text_of (str_value self.now.text) result }
        ensures memory { str_value self.now.text ≡ Ok [] → IsOk result }
    {
        let text = self.text();
        if let Some(content) = cooked_content(text, "\"") {
            return unescaped_string(alloc, content);
        }
        match raw_content(text, "r") {
            Some(content) => Ok(raw_string(alloc, content)?),
            None => Err(ConversionErrorKind::InvalidLiteralKind),
        }
    }

    /// Returns the value of a byte string literal without a suffix (`byte-string-value`).
    ///
    /// The value of `b".."` is the bytes of its items, and that of `br".."` is the bytes of its content. The
    /// errors are those of `str_value`.
    ///
    /// The value of `b"\xFF"` is the byte 0xFF, and that of `br"\x"` is the bytes 0x5C and 0x78. `"a"` is
    /// rejected.
    pub fn byte_str_value(&self, alloc: Global) -> Result<Vec<u8>, ConversionErrorKind>
        ensures value { Answers bytes_of (byte_str_value self.now.text) result }
        ensures memory { byte_str_value self.now.text ≡ Ok [] → IsOk result }
    {
        let text = self.text();
        if let Some(content) = cooked_content(text, "b\"") {
            return unescaped_bytes(alloc, content);
        }
        match raw_content(text, "br") {
            Some(content) => Ok(raw_bytes(alloc, content)?),
            None => Err(ConversionErrorKind::InvalidLiteralKind),
        }
    }

    /// Returns the value of a C string literal without a suffix, with a zero byte at its end
    /// (`c-string-value`).
    ///
    /// The value of `c".."` is the bytes of its items; those of a character are its UTF-8. The value of
    /// `cr".."` is the bytes of its content. The errors are those of `str_value`, but `Memory` may come for any
    /// value.
    ///
    /// The value of `c"a\x80"` is the bytes 0x61, 0x80 and 0. `"a"` is rejected.
    pub fn cstr_value(&self, alloc: Global) -> Result<Vec<u8>, ConversionErrorKind>
        ensures { Answers bytes_of (cstr_value self.now.text) result }
    {
        let text = self.text();
        if let Some(content) = cooked_content(text, "c\"") {
            return unescaped_c_string(alloc, content);
        }
        match raw_content(text, "cr") {
            Some(content) => Ok(raw_c_string(alloc, content)?),
            None => Err(ConversionErrorKind::InvalidLiteralKind),
        }
    }

    /// Returns the value of a character literal without a suffix (`character-value`).
    ///
    /// The value is the character between the quotes, or the character of the escape there. This allocates
    /// nothing. All other literals are rejected with `InvalidLiteralKind`, and there is no other error.
    ///
    /// The value of `'\''` is `'`, and that of `' '` is the space. `'a'u8`, `"a"` and `b'a'` are rejected.
    pub fn char_value(&self) -> Result<char, ConversionErrorKind>
        ensures ok { IsOk result ↔ IsUnsuffixed Character self.now.text }
        ensures value { result ≡ char_value self.now.text }
        ensures kind { IfErr result (λ error. error ≡ InvalidLiteralKind) }
    {
        // This computes nothing. It shows to the proof that the text is that of a literal.
        let _ = &self.text;
        character_of(self.text())
    }

    /// Returns the value of a byte literal without a suffix (`byte-value`).
    ///
    /// All other literals are rejected with `InvalidLiteralKind`, and there is no other error. This allocates
    /// nothing. The value of `b'\xFF'` is 255. `b'a'u8` and `'a'` are rejected.
    pub fn byte_value(&self) -> Result<u8, ConversionErrorKind>
        ensures ok { IsOk result ↔ IsUnsuffixed Byte self.now.text }
        ensures value { result ≡ byte_value self.now.text }
        ensures kind { IfErr result (λ error. error ≡ InvalidLiteralKind) }
    {
        let _ = &self.text;
        byte_of(self.text())
    }
}
