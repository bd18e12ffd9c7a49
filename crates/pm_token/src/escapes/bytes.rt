//! Writes bytes for literals that have quotes.
ghost use Rattle.std.specs.Prelude.{◌≡◌, ◌<◌, ◌++◌, ◌&&◌, codes, nat_le, nat_lt, true, OnOk};
ghost use Rattle.std.specs.Fmt.{digit_glyph};
ghost use Rattle.lexical.specs.Text.{first_passes};
ghost use Rattle.lexical.specs.Quoted.{is_octal_digit};
ghost use Rattle.pm_token.specs.Escaped.{content, hex_pair, char_text, written_byte};

use crate::escapes::TextBuilder;
use std::alloc::AllocError;

impl TextBuilder {
    /// Writes the bytes for a literal in these quotes (`escaped`, `written-byte`).
    pub(crate) fn push_bytes(&mut self, quote: u8, bytes: &[u8]) -> Result<(), AllocError>
        ensures ok { OnOk result (self.new ≡ self.old ++ content quote written_byte bytes.now) }
    {
        let mut left = bytes;
        while let Some((&byte, rest)) = left.split_first() {
            self.push_byte(quote, byte, rest)?;
            left = rest;
        }
        Ok(())
    }

    /// Writes the byte for a literal in these quotes, whose content goes on with `rest`.
    pub(crate) fn push_byte(&mut self, quote: u8, byte: u8, rest: &[u8]) -> Result<(), AllocError>
        ensures ok { OnOk result (self.new ≡ self.old ++ char_text quote written_byte byte rest.now) }
    {
        match byte {
            0 if begins_octal(rest) => self.push_long_zero(),
            0 => self.push_short('0'),
            b'\t' => self.push_short('t'),
            b'\r' => self.push_short('r'),
            b'\n' => self.push_short('n'),
            b'\\' => self.push_short('\\'),
            _ if byte == quote => self.push_short(char::from(quote)),
            _ => self.push_plain_byte(byte),
        }
    }

    /// Writes a byte that has no short escape.
    fn push_plain_byte(&mut self, byte: u8) -> Result<(), AllocError>
        ensures ok { OnOk result (self.new ≡ self.old ++ written_byte byte) }
    {
        if is_bare(byte) {
            self.push(char::from(byte))
        } else {
            self.push_hex(byte)
        }
    }

    /// Writes the byte as its number, such as `\xFF`.
    pub(crate) fn push_hex(&mut self, byte: u8) -> Result<(), AllocError>
        ensures ok { OnOk result (self.new ≡ self.old ++ (codes "\\x" ++ hex_pair byte)) }
    {
        self.push_short('x')?;
        self.push(hex_digit(byte / 16))?;
        self.push(hex_digit(byte % 16))
    }
}

/// Returns whether the bytes begin with one of the digits 0 to 7.
fn begins_octal(bytes: &[u8]) -> bool
    ensures { result ≡ first_passes is_octal_digit bytes.now }
{
    match bytes.first() {
        Some(byte) => matches!(byte, b'0'..=b'7'),
        None => false,
    }
}

/// Returns whether the byte is a printable ASCII character.
fn is_bare(byte: u8) -> bool
    ensures { result ≡ (nat_le 32 byte && nat_lt byte 127) }
{
    byte >= b' ' && byte < 0x7F
}

/// Returns the hex digit of this value, in upper case.
fn hex_digit(value: u8) -> char
    requires { value < 16 }
    ensures { result ≡ digit_glyph true value }
{
    if value < 10 {
        char::from(b'0' + value)
    } else {
        char::from(b'A' + (value - 10))
    }
}
