//! Literals between quotes that a few bytes decide.

ghost use Rattle.std.specs.Prelude.{◌≡◌, ◌++◌, ◌<◌, ◌^◌, ◌&&◌, List, ℕ, IfSome, IsTrue};
ghost use Rattle.std.specs.Prelude.{codes, get_or, nat_lt, not, take};
ghost use Rattle.std.specs.List.{list_all};
ghost use Rattle.std.specs.Str.{chars};
ghost use Rattle.memchr.specs.Find.{IsFirstByte, is_byte3};
ghost use Rattle.lexical.specs.Character.{backslash, carriage_return, double_quote};
ghost use Rattle.lexical.specs.Class.{is_ident_start};
ghost use Rattle.lexical.specs.Found.{IsAt};
ghost use Rattle.lexical.specs.Quick.{Anywhere, IsAsciiAt, IsLiteralAt, IsStretch, Single, pair_front};
ghost use Rattle.lexical.specs.Quoted.{ByteStr, Str, allows, body, escape, escape_or_line_end, hex, pair, unicode};
ghost use Rattle.lexical.specs.Quoted.{unit};
ghost use Rattle.lexical.specs.RawString.{may_stand_raw};
ghost use Rattle.lexical.specs.Rule.{Stands};
ghost use Rattle.lexical.specs.SingleQuoted.{Byte, Character};
ghost use Rattle.lexical.specs.MachineWord.{is_plain_ascii};

use crate::bytes::{Base, Class, count_ascii, holds_ascii};
use crate::escapes::{is_letter, writes_character};
use crate::fast_path::{Extent, ascii_extent, byte_at, count_extent};
use crate::quoted::StringKind;
use crate::single_quotes::stands_bare;
use crate::text::{split_first, strip};
use memchr::memchr3;

/// Whether a literal between quotes ends before this byte and has no suffix.
#[inline(always)]
fn ends_literal(byte: u8) -> bool
    ensures { result ≡ (nat_lt byte 128 && not (is_ident_start byte)) }
{
    byte.is_ascii() && !holds_ascii(Class::IdentifierStart, byte)
}

/// Whether the byte may be the first of the two digits after `\x`. It returns false for C strings, where two zeros are
/// forbidden: the slower functions read those.
#[inline(always)]
fn begins_pair(byte: u8, kind: StringKind) -> bool
    ensures { result ≡ (nat_lt byte 128 && pair_front kind byte) }
{
    match kind {
        StringKind::Plain => holds_ascii(Class::DigitOf(Base::Octal), byte),
        StringKind::Byte => holds_ascii(Class::HexDigit, byte),
        StringKind::C => false,
    }
}

/// Returns how many bytes `x` and its two digits at the start have, by the rule `hex-escape`.
#[inline(always)]
fn hex_size(bytes: &[u8], kind: StringKind) -> Option<usize>
    ensures { IfSome result (IsAsciiAt (Anywhere (Stands (hex (pair kind)))) bytes.now) }
{
    if byte_at(bytes, 0) == b'x'
        && begins_pair(byte_at(bytes, 1), kind)
        && holds_ascii(Class::HexDigit, byte_at(bytes, 2))
    {
        Some(3)
    } else {
        None
    }
}

/// Returns how many bytes `u{`, the code of a character and `}` at the start have, by the rule `unicode-escape`.
#[inline(never)]
fn unicode_size(bytes: &[u8], kind: StringKind) -> Option<usize>
    ensures { IfSome result (IsAsciiAt (Anywhere (Stands (unicode (allows kind)))) bytes.now) }
{
    if byte_at(bytes, 0) != b'u' || byte_at(bytes, 1) != b'{' {
        return None;
    }
    let code = &bytes[2..];
    if !holds_ascii(Class::HexDigit, byte_at(code, 0)) {
        return None;
    }
    let digits = count_ascii(code, Class::CodeDigit);
    if byte_at(code, digits) != b'}' || !writes_character(&code[..digits], kind) {
        return None;
    }
    Some(digits + 3)
}

/// Returns how many bytes the escape of one letter has, without its backslash.
#[inline(always)]
fn letter_size(bytes: &[u8], kind: StringKind) -> Option<usize>
    ensures { IfSome result (IsAsciiAt (Anywhere (Stands (escape kind))) bytes.now) }
{
    let first = byte_at(bytes, 0);
    if first.is_ascii() && is_letter(first as char, kind) {
        return Some(1);
    }
    None
}

/// Returns how many bytes the escape at the start has, without its backslash.
#[inline(always)]
fn escape_size(bytes: &[u8], kind: StringKind) -> Option<usize>
    ensures { IfSome result (IsAsciiAt (Anywhere (Stands (escape kind))) bytes.now) }
{
    if let Some(size) = letter_size(bytes, kind) {
        return Some(size);
    }
    match hex_size(bytes, kind) {
        Some(size) => Some(size),
        None => unicode_size(bytes, kind),
    }
}

/// Returns how many bytes a literal between single quotes has after its first quote, if it holds one ASCII character
/// that is no escape.
#[inline(always)]
fn bare_size(inside: &[u8], kind: StringKind) -> Option<usize>
    ensures { IfSome result (IsAsciiAt (Single kind) inside.now) }
{
    let byte = byte_at(inside, 0);
    if byte.is_ascii()
        && byte_at(inside, 1) == b'\''
        && stands_bare(byte as char, kind)
        && ends_literal(byte_at(inside, 2))
    {
        return Some(2);
    }
    None
}

/// Returns how many bytes a literal between single quotes has after its first quote, if it holds a backslash and a
/// letter.
#[inline(always)]
fn backslash_size(inside: &[u8], kind: StringKind) -> Option<usize>
    ensures { IfSome result (IsAsciiAt (Single kind) inside.now) }
{
    if byte_at(inside, 0) != b'\\' {
        return None;
    }
    let unit = letter_size(&inside[1..], kind)? + 1;
    if byte_at(inside, unit) == b'\'' && ends_literal(byte_at(inside, unit + 1)) {
        return Some(unit + 1);
    }
    None
}

/// Returns how many bytes a literal between single quotes has after its first quote, if it holds one ASCII character or
/// an escape.
#[inline(always)]
fn single_size(inside: &[u8], kind: StringKind) -> Option<usize>
    ensures { IfSome result (IsAsciiAt (Single kind) inside.now) }
{
    if byte_at(inside, 0) != b'\\' {
        return bare_size(inside, kind);
    }
    let unit = escape_size(&inside[1..], kind)? + 1;
    if byte_at(inside, unit) == b'\'' && ends_literal(byte_at(inside, unit + 1)) {
        return Some(unit + 1);
    }
    None
}

/// Returns how many bytes the character literal at the start has, if it holds one ASCII character or an escape.
#[inline(always)]
pub fn character_size(text: &str) -> Option<usize>
    ensures { IfSome result (IsAsciiAt Character text.now) }
{
    let bytes = text.as_bytes();
    if byte_at(bytes, 0) != b'\'' {
        return None;
    }
    Some(single_size(&bytes[1..], StringKind::Plain)? + 1)
}

/// Returns the extent of the character literal at the start, if it holds one ASCII character that is no escape.
#[inline(always)]
pub fn bare_character(text: &str) -> Option<Extent>
    ensures { IfSome result (IsLiteralAt (chars text.now)) }
{
    let bytes = text.as_bytes();
    if byte_at(bytes, 0) != b'\'' {
        return None;
    }
    let size = bare_size(&bytes[1..], StringKind::Plain)?;
    Some(ascii_extent(size + 1))
}

/// Returns the extent of the character literal at the start, if it holds a backslash and a letter.
#[inline(always)]
pub fn letter_character(text: &str) -> Option<Extent>
    ensures { IfSome result (IsLiteralAt (chars text.now)) }
{
    let bytes = text.as_bytes();
    if byte_at(bytes, 0) != b'\'' {
        return None;
    }
    let size = backslash_size(&bytes[1..], StringKind::Plain)?;
    Some(ascii_extent(size + 1))
}

/// Returns the extent of the character literal at the start, if it holds one ASCII character or an escape.
#[inline(always)]
pub fn character(text: &str) -> Option<Extent>
    ensures { IfSome result (IsLiteralAt (chars text.now)) }
{
    Some(ascii_extent(character_size(text)?))
}

/// Returns how many bytes the byte literal at the start has.
#[inline(always)]
pub fn byte_size(text: &str) -> Option<usize>
    ensures { IfSome result (IsAsciiAt Byte text.now) }
{
    let bytes = text.as_bytes();
    if byte_at(bytes, 0) != b'b' || byte_at(bytes, 1) != b'\'' {
        return None;
    }
    Some(single_size(&bytes[2..], StringKind::Byte)? + 2)
}

/// Returns the extent of the character literal at the start, if it holds one character that is no escape, past ASCII
/// too.
#[inline(always)]
pub fn wide_character(text: &str) -> Option<Extent>
    ensures { IfSome result (IsLiteralAt (chars text.now)) }
{
    let (quote, inside) = split_first(text)?;
    let (c, after) = split_first(inside)?;
    let rest = strip(after, "'")?;
    if quote != '\''
        || !stands_bare(c, StringKind::Plain)
        || !ends_literal(byte_at(rest.as_bytes(), 0))
    {
        return None;
    }
    let bytes = text.len() - rest.len();
    Some(Extent { bytes, chars: 3 })
}

/// Returns how many bytes follow a backslash in a string: a LF or an escape.
#[inline(always)]
fn escaped_size(bytes: &[u8], kind: StringKind) -> Option<usize>
    ensures { IfSome result (IsAsciiAt (Anywhere (Stands (escape_or_line_end kind))) bytes.now) }
{
    if byte_at(bytes, 0) == b'\n' {
        return Some(1);
    }
    escape_size(bytes, kind)
}

/// Whether a string of the kind may contain each character of the bytes. It returns false for C strings, where zeros
/// are forbidden: the slower functions read those.
#[inline(always)]
fn may_hold(stretch: &[u8], kind: StringKind) -> bool
    ensures { IsTrue result → IsTrue (list_all (may_stand_raw kind) (chars stretch.now)) }
{
    match kind {
        StringKind::Plain => true,
        StringKind::Byte => stretch.is_ascii(),
        StringKind::C => false,
    }
}

/// Returns how many bytes come before the first quote, backslash or CR, or `None` if there is none.
#[inline(always)]
fn plain_size(bytes: &[u8]) -> Option<usize>
    ensures { IsFirstByte (is_byte3 double_quote backslash carriage_return) bytes.now result }
{
    // Often a quote or an escape follows at once.
    let next = byte_at(bytes, 0);
    if next == b'"' || next == b'\\' {
        return Some(0);
    }
    memchr3(b'"', b'\\', b'\r', bytes)
}

/// Returns how many bytes come before the first quote, backslash or CR, if a string of the kind may contain them all.
#[inline(always)]
fn stretch_size(bytes: &[u8], kind: StringKind) -> Option<usize>
    ensures { IfSome result (IsStretch kind bytes.now) }
{
    let size = plain_size(bytes)?;
    if may_hold(&bytes[..size], kind) {
        Some(size)
    } else {
        None
    }
}

/// Returns how many bytes a string has after its first quote, if it has no CR. `inside` is the text after that quote,
/// and `stretch` is the number of bytes in it before the first quote, backslash or CR.
///
/// Quotes, backslashes and CR are searched for among the bytes. The search goes on after each escape, so it passes the
/// string once.
#[inline(always)]
fn body_size(inside: &str, stretch: usize, kind: StringKind) -> Option<usize>
    requires { IsStretch kind inside.now stretch }
    ensures found { IfSome result (IsAt (Stands (body (unit kind) (codes "\""))) (chars inside.now)) }
    ensures within { IfSome result (λ size. size < 2 ^ 63) }
{
    let bytes = inside.as_bytes();
    let mut size = stretch;
    while bytes[size] == b'\\' {
        size += 1;
        size += escaped_size(&bytes[size..], kind)?;
        size += stretch_size(&bytes[size..], kind)?;
    }
    if bytes[size] == b'"' && ends_literal(byte_at(bytes, size + 1)) {
        return Some(size + 1);
    }
    None
}

/// Returns the extent of a string of `stretch` ASCII bytes that are no escapes. `inside` is the text after its first
/// quote.
#[inline(always)]
pub fn plain_string(inside: &str, stretch: usize) -> Option<Extent>
    requires { IsTrue (list_all is_plain_ascii (take stretch inside.now)) }
    ensures { (text : List ℕ) → chars text ≡ codes "\"" ++ chars inside.now → IfSome result (IsLiteralAt (chars text)) }
{
    let bytes = inside.as_bytes();
    if byte_at(bytes, stretch) == b'"' && ends_literal(byte_at(bytes, stretch + 1)) {
        return Some(ascii_extent(stretch + 2));
    }
    None
}

/// Returns the extent of the string at the start of `text`, which has `stretch` ASCII bytes before its first escape.
/// `inside` is the text after its first quote.
#[inline(always)]
pub fn escaped_string(text: &str, inside: &str, stretch: usize) -> Option<Extent>
    requires split { chars text.now ≡ codes "\"" ++ chars inside.now }
    requires plain { IsTrue (list_all is_plain_ascii (take stretch inside.now)) }
    requires backslash { get_or inside.now stretch 32 ≡ backslash }
    ensures { IfSome result (IsLiteralAt (chars text.now)) }
{
    let size = body_size(inside, stretch, StringKind::Plain)?;
    Some(count_extent(text, size + 1))
}

/// Returns the extent of the string at the start, if it has no CR.
#[inline(always)]
pub fn string(text: &str) -> Option<Extent>
    ensures { IfSome result (IsLiteralAt (chars text.now)) }
{
    let inside = strip(text, "\"")?;
    let stretch = memchr3(b'"', b'\\', b'\r', inside.as_bytes())?;
    let size = body_size(inside, stretch, StringKind::Plain)?;
    Some(count_extent(text, size + 1))
}

/// Returns how many bytes the string at the start has, if it has no CR.
#[inline(always)]
pub fn string_size(text: &str) -> Option<usize>
    ensures { IfSome result (IsAt Str (chars text.now)) }
{
    let inside = strip(text, "\"")?;
    let stretch = memchr3(b'"', b'\\', b'\r', inside.as_bytes())?;
    Some(body_size(inside, stretch, StringKind::Plain)? + 1)
}

/// Returns how many bytes the byte string at the start has, if it has no CR.
#[inline(always)]
pub fn byte_string_size(text: &str) -> Option<usize>
    ensures { IfSome result (IsAt ByteStr (chars text.now)) }
{
    let inside = strip(text, "b\"")?;
    let stretch = stretch_size(inside.as_bytes(), StringKind::Byte)?;
    Some(body_size(inside, stretch, StringKind::Byte)? + 2)
}
