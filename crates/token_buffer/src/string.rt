//! The string literal of a doc comment's text, which is not in the source.
ghost use Rattle.std.specs.Prelude.{◌≡◌, ◌∷◌, ◌↔◌, [], IfSome, IsTrue, OnOk};
ghost use Rattle.std.specs.Fmt.{WritesOnOk};
ghost use Rattle.std.specs.Str.{chars, encode_utf8_all, IsUtf8};
ghost use Rattle.std.specs.Char.Escape.{escape_unicode};
ghost use Rattle.pm_token.specs.Escaped.{string_text, char_text, written_char};
ghost use Rattle.token_buffer.specs.Strings.{IsAfter, escape_text};

use pm_token::parts::{begins_octal, is_bare};
use std::fmt;

/// How a character is written in a string literal.
#[derive(Clone, Copy)]
enum Escape {
    /// The character itself.
    Bare(char),
    /// A backslash and this character.
    Short(char),
    /// `\x00`.
    LongZero,
    /// The character's number, such as `\u{1f}`.
    Unicode(char),
}

/// Writes the string literal of the text.
pub fn write_string<W: fmt::Write>(text: &str, f: &mut fmt::Formatter<W>) -> fmt::Result
    ensures { WritesOnOk W.write_str_gives f.old result (encode_utf8_all (string_text (chars text.now))) f.new }
{
    write_one('"', f)?;
    let mut rest = text.chars();
    while let Some(c) = rest.next() {
        write_escape(escape_of(c, rest.as_str()), f)?;
    }
    write_one('"', f)
}

/// Writes the text.
pub fn write_text<W: fmt::Write>(text: &str, f: &mut fmt::Formatter<W>) -> fmt::Result
    ensures { WritesOnOk W.write_str_gives f.old result (encode_utf8_all (chars text.now)) f.new }
{
    f.write_str(text)
}

/// Writes the character.
pub fn write_one<W: fmt::Write>(c: char, f: &mut fmt::Formatter<W>) -> fmt::Result
    ensures { WritesOnOk W.write_str_gives f.old result (encode_utf8_all (c ∷ [])) f.new }
{
    f.write_char(c)
}

/// Returns whether both texts are the same. Their string literals are the same exactly then.
pub fn is_same(text: &str, other: &str) -> bool
    ensures texts { IsTrue result ↔ (chars text.now ≡ chars other.now) }
    ensures strings { IsTrue result ↔ (string_text (chars text.now) ≡ string_text (chars other.now)) }
{
    text == other
}

/// Returns whether `literal` is the string literal of `text`.
pub fn is_string_of(literal: &str, text: &str) -> bool
    ensures { IsTrue result ↔ (chars literal.now ≡ string_text (chars text.now)) }
{
    let Some(mut left) = after(literal, '"') else {
        return false;
    };
    let mut rest = text.chars();
    while let Some(c) = rest.next() {
        let Some(next) = after_escape(left, escape_of(c, rest.as_str())) else {
            return false;
        };
        left = next;
    }
    left == "\""
}

/// Writes a character in this way.
fn write_escape<W: fmt::Write>(escape: Escape, f: &mut fmt::Formatter<W>) -> fmt::Result
    ensures { WritesOnOk W.write_str_gives f.old result (encode_utf8_all (escape_text escape)) f.new }
{
    match escape {
        Escape::Bare(c) => write_one(c, f),
        Escape::Short(c) => {
            write_one('\\', f)?;
            write_one(c, f)
        }
        Escape::LongZero => f.write_str("\\x00"),
        Escape::Unicode(c) => write_unicode(c, f),
    }
}

/// Writes the character as its number, such as `\u{1f}`.
fn write_unicode<W: fmt::Write>(c: char, f: &mut fmt::Formatter<W>) -> fmt::Result
    ensures { WritesOnOk W.write_str_gives f.old result (encode_utf8_all (escape_unicode c)) f.new }
{
    for unit in c.escape_unicode() {
        write_one(unit, f)?;
    }
    Ok(())
}

/// Returns the text after a character that is written in this way, or `None` if the text doesn't begin with that.
fn after_escape(text: &str, escape: Escape) -> Option<&str>
    ensures after { IsAfter (escape_text escape) (chars text.now) result }
    ensures utf8 { IfSome result (λ rest. IsUtf8 rest.now) }
{
    match escape {
        Escape::Bare(c) => after(text, c),
        Escape::Short(c) => after(after(text, '\\')?, c),
        Escape::LongZero => after(after(after(after(text, '\\')?, 'x')?, '0')?, '0'),
        Escape::Unicode(c) => after_unicode(text, c),
    }
}

/// Returns the text after the character's number, such as `\u{1f}`, or `None` if the text doesn't begin with that.
fn after_unicode(text: &str, c: char) -> Option<&str>
    ensures after { IsAfter (escape_unicode c) (chars text.now) result }
    ensures utf8 { IfSome result (λ rest. IsUtf8 rest.now) }
{
    let mut rest = text;
    for unit in c.escape_unicode() {
        rest = after(rest, unit)?;
    }
    Some(rest)
}

/// Returns the text after the character, or `None` if the text doesn't begin with it.
fn after(text: &str, c: char) -> Option<&str>
    ensures after { IsAfter (c ∷ []) (chars text.now) result }
    ensures utf8 { IfSome result (λ rest. IsUtf8 rest.now) }
{
    let mut rest = text.chars();
    match rest.next() {
        Some(first) if first == c => Some(rest.as_str()),
        _ => None,
    }
}

/// Returns how the character is written in a string literal, if `rest` follows it.
fn escape_of(c: char, rest: &str) -> Escape
    ensures { escape_text result ≡ char_text 34 written_char c (chars rest.now) }
{
    match c {
        '\0' if begins_octal(rest) => Escape::LongZero,
        '\0' => Escape::Short('0'),
        '\t' => Escape::Short('t'),
        '\r' => Escape::Short('r'),
        '\n' => Escape::Short('n'),
        '\\' => Escape::Short('\\'),
        '"' => Escape::Short('"'),
        _ if is_bare(c) => Escape::Bare(c),
        _ => Escape::Unicode(c),
    }
}
