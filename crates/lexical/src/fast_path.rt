//! Pieces that a few bytes decide.
//!
//! Most pieces of a source are ASCII and are followed by ASCII. They are found among the bytes, and no character is
//! decoded. If the bytes do not decide, [`piece_at`](crate::piece_at) decodes the characters.

ghost use Rattle.std.specs.Prelude.{◌≡◌, ◌==◌, ◌&&◌, ◌||◌, Bool, IfSome, false, get_or, nat_lt, not};
ghost use Rattle.std.specs.Str.{chars};
ghost use Rattle.lexical.specs.Character.{double_quote};
ghost use Rattle.lexical.specs.Found.{IsAt, IsPieceAt};
ghost use Rattle.lexical.specs.Literal.{Literal};
ghost use Rattle.lexical.specs.Mark.{bars_quote};
ghost use Rattle.lexical.specs.Quick.{IsAsciiAt, IsLiteralAt, Line, UnbarredName};

mod numbers;
pub mod quoted;

use crate::bytes::{Class, count_ascii, holds_ascii};
use crate::class::{PieceStart, byte_start};
use crate::piece::{Piece, PieceKind};
use crate::text::char_count;
use crate::words::{count_line, count_name};
use numbers::{long_number_size, number_size};
use quoted::{byte_size, byte_string_size, character_size, string_size};

/// Returns the byte at the index, or a space if the index is past the end.
#[inline(always)]
pub fn byte_at(bytes: &[u8], index: usize) -> u8
    ensures { result ≡ get_or bytes.now index 32 }
{
    if index < bytes.len() {
        bytes[index]
    } else {
        b' '
    }
}

/// Whether a name ends before this byte, and neither a literal nor a raw identifier can begin with the two.
#[inline(always)]
fn ends_name(byte: u8) -> bool
    ensures { result ≡ (nat_lt byte 128 && not ((byte == double_quote) || bars_quote false byte)) }
{
    byte.is_ascii() && byte != b'"' && byte != b'\'' && byte != b'#'
}

/// Returns how many bytes the plain identifier at the start has.
#[inline(always)]
fn name_size(text: &str) -> Option<usize>
    ensures { IfSome result (IsAsciiAt UnbarredName text.now) }
{
    let bytes = text.as_bytes();
    if !holds_ascii(Class::IdentifierStart, byte_at(bytes, 0)) {
        return None;
    }
    let size = count_name(bytes);
    if ends_name(byte_at(bytes, size)) {
        Some(size)
    } else {
        None
    }
}

/// Returns how many bytes the plain identifier at the start has, by single bytes. This is faster for the names of
/// lifetimes, which are short.
#[inline(always)]
fn short_name_size(text: &str) -> Option<usize>
    ensures { IfSome result (IsAsciiAt UnbarredName text.now) }
{
    let bytes = text.as_bytes();
    if !holds_ascii(Class::IdentifierStart, byte_at(bytes, 0)) {
        return None;
    }
    let size = count_ascii(bytes, Class::IdentifierContinue);
    if ends_name(byte_at(bytes, size)) {
        Some(size)
    } else {
        None
    }
}

/// Returns how many bytes the rest of the line has, if it is ASCII and has no CR.
#[inline(always)]
fn line_size(text: &str) -> Option<usize>
    ensures { IfSome result (IsAsciiAt Line text.now) }
{
    let bytes = text.as_bytes();
    let size = count_line(bytes);
    if size == bytes.len() {
        return Some(size);
    }
    if bytes[size] == b'\n' {
        Some(size)
    } else {
        None
    }
}

/// Returns the line comment at the start, if it is no inner doc comment.
#[inline(always)]
pub fn line_comment(text: &str) -> Option<Piece<'_>>
    ensures { (first : Bool) → IfSome result (λ piece. IsPieceAt first (chars text.now) piece) }
{
    let bytes = text.as_bytes();
    let third = byte_at(bytes, 2);
    if byte_at(bytes, 0) != b'/' || byte_at(bytes, 1) != b'/' || third == b'!' {
        return None;
    }
    if third != b'/' {
        let size = line_size(&text[2..])?;
        return Some(ascii(PieceKind::Gap, size + 2));
    }
    if byte_at(bytes, 3) == b'/' {
        return None;
    }
    let doc_body = &text[3..];
    let doc_size = line_size(doc_body)?;
    let doc = PieceKind::Doc {
        inner: false,
        text: &doc_body[..doc_size],
    };
    Some(ascii(doc, doc_size + 3))
}

/// Returns a piece of `size` ASCII characters.
#[inline(always)]
fn ascii(kind: PieceKind<'_>, size: usize) -> Piece<'_>
    ensures kind { result.kind ≡ kind.entry }
    ensures bytes { result.bytes ≡ size }
    ensures chars { result.chars ≡ size }
{
    Piece {
        kind,
        bytes: size,
        chars: size,
    }
}

/// How long a literal is. With the kind, this makes a piece.
#[derive(Clone, Copy)]
pub struct Extent {
    /// How many bytes it has.
    pub bytes: usize,
    /// How many characters it has.
    pub chars: usize,
}

/// Returns the extent of a literal of `size` bytes, all ASCII.
#[inline(always)]
fn ascii_extent(size: usize) -> Extent
    ensures bytes { result.bytes ≡ size }
    ensures chars { result.chars ≡ size }
{
    Extent {
        bytes: size,
        chars: size,
    }
}

/// Returns the extent of the literal in the first `size` bytes of the text. It counts the characters.
#[inline(always)]
fn count_extent(text: &str, size: usize) -> Extent
    requires { IsAt Literal (chars text.now) size }
    ensures { IsLiteralAt (chars text.now) result }
{
    Extent {
        bytes: size,
        chars: char_count(&text[..size]),
    }
}

/// Returns the extent of the byte or byte string at the start.
#[inline(always)]
pub fn byte_literal(text: &str) -> Option<Extent>
    ensures { IfSome result (IsLiteralAt (chars text.now)) }
{
    match byte_size(text) {
        Some(size) => Some(ascii_extent(size)),
        None => Some(count_extent(text, byte_string_size(text)?)),
    }
}

/// Returns the piece at the start of the text if a few bytes decide it. `None` means that they do not.
#[inline(always)]
pub fn fast_piece(text: &str) -> Option<Piece<'_>>
    ensures { (first : Bool) → IfSome result (λ piece. IsPieceAt first (chars text.now) piece) }
{
    let bytes = text.as_bytes();
    if bytes.is_empty() {
        return None;
    }
    let byte = bytes[0];
    match byte_start(byte) {
        PieceStart::Letter => {
            let size = name_size(text)?;
            let name = PieceKind::Name {
                raw: false,
                name: &text[..size],
            };
            Some(ascii(name, size))
        }
        PieceStart::Mark => {
            let next = byte_at(bytes, 1);
            if next == b'/' {
                return None;
            }
            let joint = holds_ascii(Class::Mark, next);
            let mark = PieceKind::Mark {
                joint,
                mark: byte as char,
            };
            Some(ascii(mark, 1))
        }
        PieceStart::Opener => {
            if byte_at(bytes, 1) == b'/' {
                return None;
            }
            Some(ascii(PieceKind::Opener(byte as char), 1))
        }
        PieceStart::Closer => Some(ascii(PieceKind::Closer(byte as char), 1)),
        PieceStart::White => Some(ascii(PieceKind::Gap, 1)),
        PieceStart::Digit => Some(ascii(PieceKind::Literal, number_size(text)?)),
        _ => None,
    }
}

/// Returns the extent of the number at the start if a few bytes decide it: a float, or an integer with a base or a
/// suffix. `None` means that they do not.
#[inline(always)]
pub fn long_number(text: &str) -> Option<Extent>
    ensures { IfSome result (IsLiteralAt (chars text.now)) }
{
    Some(ascii_extent(long_number_size(text)?))
}

/// Returns the lone quote at the start if a few bytes decide it. `None` means that they do not.
#[inline(always)]
pub fn lone_quote(text: &str) -> Option<Piece<'_>>
    ensures { (first : Bool) → IfSome result (λ piece. IsPieceAt first (chars text.now) piece) }
{
    if byte_at(text.as_bytes(), 0) != b'\'' {
        return None;
    }
    short_name_size(&text[1..])?;
    let quote = PieceKind::Mark {
        joint: true,
        mark: '\'',
    };
    Some(ascii(quote, 1))
}

/// Returns how many bytes the literal at the start has, if a few bytes decide it. `None` means that they do not.
#[inline(never)]
pub fn fast_literal(text: &str) -> Option<usize>
    ensures { IfSome result (IsAt Literal (chars text.now)) }
{
    match byte_start(byte_at(text.as_bytes(), 0)) {
        PieceStart::Digit => match number_size(text) {
            Some(size) => Some(size),
            None => long_number_size(text),
        },
        PieceStart::DoubleQuote => string_size(text),
        PieceStart::Quote => character_size(text),
        PieceStart::Letter => match byte_size(text) {
            Some(size) => Some(size),
            None => byte_string_size(text),
        },
        _ => None,
    }
}
