//! Writes the text of literals that have quotes.
ghost use Rattle.std.specs.Prelude.{◌≡◌, ◌∷◌, ◌++◌, ℕ, List, [], codes, length, IfOk, OnOk};
ghost use Rattle.std.specs.Prelude.{string_bytes};
ghost use Rattle.std.specs.Str.{IsUtf8, chars, encode_utf8_all};
ghost use Rattle.std.specs.Char.Escape.{escape_unicode};
ghost use Rattle.lexical.specs.Text.{first_passes};
ghost use Rattle.lexical.specs.Finder.{while_front};
ghost use Rattle.lexical.specs.Form.{Run};
ghost use Rattle.lexical.specs.Quoted.{is_octal_digit};
ghost use Rattle.pm_token.specs.Escaped.{is_hidden, is_bare as bare, is_plain_ascii, written_char, char_text, content};
ghost use Rattle.pm_token.specs.Escaped.{string_text};
ghost use Rattle.pm_token.specs.Text.{IsText};

mod bytes;
mod c_strings;
mod words;

use crate::escapes::words::count_in_string;
use crate::symbols::Symbol;
use std::alloc::{AllocError, Global};
use std::marker::Model;
use ucd_category::GeneralCategory;

/// A text that is being written. Contracts speak of its characters.
#[derive(Drop)]
pub struct TextBuilder {
    text: String,
}

impl Model for TextBuilder {
    ghost use Rattle.std.specs.Prelude.{ℕ, List, string_bytes};
    ghost use Rattle.std.specs.Str.{chars};

    ghost Value = { List ℕ };

    ghost view = { λ builder. chars (string_bytes builder.text) };
}

impl TextBuilder {
    /// Makes an empty builder.
    pub(crate) fn new(alloc: Global) -> TextBuilder
        ensures { result ≡ [] }
    {
        TextBuilder {
            text: String::new(alloc),
        }
    }

    /// Makes an empty builder with room for this number of bytes. Out of memory is the only error.
    pub fn with_room(alloc: Global, bytes: usize) -> Result<TextBuilder, AllocError>
        ensures { IfOk result (λ builder. builder ≡ []) }
    {
        Ok(TextBuilder {
            text: String::with_capacity(alloc, bytes)?,
        })
    }

    /// Returns what was written as the text of a token. Out of memory is the only error.
    pub(crate) fn finish(self, alloc: Global) -> Result<Symbol, AllocError>
        ensures ok { IfOk result (λ symbol. symbol ≡ self) }
        ensures text { IfOk result IsText }
    {
        Symbol::from_string(alloc, self.text)
    }

    /// Returns what was written. This allocates nothing.
    pub fn into_string(self) -> String
        ensures { string_bytes result ≡ encode_utf8_all self }
    {
        self.text
    }

    /// Writes the text. Out of memory is the only error.
    pub fn push_text(&mut self, text: &str) -> Result<(), AllocError>
        ensures ok { OnOk result (self.new ≡ self.old ++ chars text.now) }
    {
        self.text.push_str(text)
    }

    /// Writes the string literal of the text. Out of memory is the only error.
    pub fn push_string(&mut self, text: &str) -> Result<(), AllocError>
        ensures ok { OnOk result (self.new ≡ self.old ++ string_text (chars text.now)) }
    {
        self.push('"')?;
        self.push_content('"', text)?;
        self.push('"')
    }

    /// Writes the character. Out of memory is the only error.
    pub fn push(&mut self, c: char) -> Result<(), AllocError>
        ensures ok { OnOk result (self.new ≡ self.old ++ c ∷ []) }
    {
        self.text.push(c)
    }

    /// Writes a backslash and the letter.
    pub(crate) fn push_short(&mut self, letter: char) -> Result<(), AllocError>
        ensures ok { OnOk result (self.new ≡ self.old ++ 92 ∷ letter ∷ []) }
    {
        self.push('\\')?;
        self.push(letter)
    }

    /// Writes `\x00`.
    pub(crate) fn push_long_zero(&mut self) -> Result<(), AllocError>
        ensures ok { OnOk result (self.new ≡ self.old ++ codes "\\x00") }
    {
        self.push_short('x')?;
        self.push('0')?;
        self.push('0')
    }

    /// Writes the character as its number, such as `\u{1f}`.
    fn push_unicode(&mut self, c: char) -> Result<(), AllocError>
        ensures ok { OnOk result (self.new ≡ self.old ++ escape_unicode c) }
    {
        for unit in c.escape_unicode() {
            self.push(unit)?;
        }
        Ok(())
    }

    /// Writes a character that has no short escape, for a string.
    fn push_char(&mut self, c: char) -> Result<(), AllocError>
        ensures ok { OnOk result (self.new ≡ self.old ++ written_char c) }
    {
        if is_bare(c) {
            self.push(c)
        } else {
            self.push_unicode(c)
        }
    }

    /// Writes the character for a literal in these quotes, whose content goes on with `rest`.
    pub(crate) fn push_escaped(
        &mut self,
        quote: char,
        c: char,
        rest: &str,
    ) -> Result<(), AllocError>
        ensures ok { OnOk result (self.new ≡ self.old ++ char_text quote written_char c (chars rest.now)) }
    {
        match c {
            '\0' if begins_octal(rest) => self.push_long_zero(),
            '\0' => self.push_short('0'),
            '\t' => self.push_short('t'),
            '\r' => self.push_short('r'),
            '\n' => self.push_short('n'),
            '\\' => self.push_short('\\'),
            _ if c == quote => self.push_short(quote),
            _ => self.push_char(c),
        }
    }

    /// Writes the ASCII characters that the text begins with, as far as they need no escape between these
    /// quotes. It returns the rest of the text.
    #[inline(always)]
    fn push_plain<'a>(&mut self, quote: char, text: &'a str) -> Result<&'a str, AllocError>
        ensures ok { IfOk result (λ rest. (front : List ℕ) × (chars text.now ≡ front ++ chars rest.now)
            × (self.new ≡ self.old ++ front) × Run (is_plain_ascii quote) front (chars rest.now)) }
        ensures utf8 { IfOk result (λ rest. IsUtf8 rest.now) }
    {
        let size = count_plain(text.as_bytes(), quote);
        let (front, rest) = text.split_at(size);
        self.text.push_str(front)?;
        Ok(rest)
    }

    /// Writes the characters of the text for a literal in these quotes. Out of memory is the only error.
    pub fn push_content(&mut self, quote: char, text: &str) -> Result<(), AllocError>
        ensures ok { OnOk result (self.new ≡ self.old ++ content quote written_char (chars text.now)) }
    {
        let mut rest = self.push_plain(quote, text)?.chars();
        while let Some(c) = rest.next() {
            self.push_escaped(quote, c, rest.as_str())?;
            rest = self.push_plain(quote, rest.as_str())?.chars();
        }
        Ok(())
    }
}

/// Returns how many of the first bytes are ASCII characters that need no escape between these quotes.
///
/// Words of 8 bytes are faster from two words on.
fn count_plain(bytes: &[u8], quote: char) -> usize
    ensures { result ≡ length (while_front (is_plain_ascii quote) bytes.now) }
{
    if quote == '"' && bytes.len() >= 16 {
        count_in_string(bytes)
    } else {
        count_by_bytes(bytes, quote)
    }
}

/// Does what `count_plain` does, one byte at a time.
fn count_by_bytes(bytes: &[u8], quote: char) -> usize
    ensures { result ≡ length (while_front (is_plain_ascii quote) bytes.now) }
{
    let mut count = 0;
    while count < bytes.len() {
        if !stands_for_itself(bytes[count], quote) {
            break;
        }
        count += 1;
    }
    count
}

/// Returns whether the byte is a printable ASCII character and neither this quote nor a backslash.
#[inline(always)]
pub(crate) fn stands_for_itself(byte: u8, quote: char) -> bool
    ensures { result ≡ is_plain_ascii quote byte }
{
    byte >= b' ' && byte < 0x7F && byte != b'\\' && char::from(byte) != quote
}

/// Returns whether the text begins with one of the digits 0 to 7.
pub fn begins_octal(text: &str) -> bool
    ensures { result ≡ first_passes is_octal_digit (chars text.now) }
{
    match text.chars().next() {
        Some(c) => c.is_digit(8),
        None => false,
    }
}

/// Returns whether the character needs no escape in a string literal, quotes and backslashes aside (`bare`).
pub fn is_bare(c: char) -> bool
    ensures { result ≡ bare c }
{
    if c.is_ascii() {
        return c >= ' ' && c != '\u{7F}';
    }
    !hides(GeneralCategory::for_char(c))
}

/// Returns whether characters of this category are invisible, or show only on their neighbours (`hidden`).
fn hides(category: GeneralCategory) -> bool
    ensures { result ≡ is_hidden category }
{
    matches!(
        category,
        GeneralCategory::NonspacingMark
            | GeneralCategory::EnclosingMark
            | GeneralCategory::SpaceSeparator
            | GeneralCategory::LineSeparator
            | GeneralCategory::ParagraphSeparator
            | GeneralCategory::Control
            | GeneralCategory::Format
            | GeneralCategory::PrivateUse
            | GeneralCategory::Unassigned
    )
}
