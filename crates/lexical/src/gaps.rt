//! White characters, each of which is a gap.

ghost use Rattle.std.specs.Prelude.{◌≡◌, ◌≤◌, IsTrue, length, take};
ghost use Rattle.std.specs.List.{list_all};
ghost use Rattle.std.specs.Str.{IsUtf8, chars, encode_utf8_all};
ghost use Rattle.lexical.specs.Class.{is_white};
ghost use Rattle.lexical.specs.Finder.{while_front};
ghost use Rattle.lexical.specs.WhiteRun.{IsPastWhite, SplitsWhite, ascii_white};

use crate::bytes::{Class, holds_ascii, skip};
use crate::cursor::TextCursor;
use crate::fast_path::byte_at;

/// Counts the spaces at the start, four at a time. It leaves up to three of them uncounted.
#[inline(always)]
fn spaces(bytes: &[u8]) -> usize
    ensures within { result ≤ length bytes.now }
    ensures white { IsTrue (list_all ascii_white (take result bytes.now)) }
{
    let mut count = 0;
    while bytes[count..].starts_with(b"    ") {
        count += 4;
    }
    count
}

/// Returns the text after the ASCII white characters at its start, and how many characters they are. Each of these is a
/// piece by the rule `gap`.
///
/// If the text begins with none, it returns the whole text and 0. For two spaces and `a b` it returns `a b` and 2.
#[inline(always)]
pub fn past_white(text: &str) -> (&str, usize)
    ensures passed { IsPastWhite (chars text.now) (chars result.0.now) result.1 }
    ensures utf8 { IsUtf8 result.0.now }
{
    let bytes = text.as_bytes();
    let mut white = 0;
    while white < bytes.len() {
        if !holds_ascii(Class::White, bytes[white]) {
            break;
        }
        white += 1;
        // Lines often begin with many spaces.
        white += spaces(&bytes[white..]);
    }
    (&text[white..], white)
}

/// Counts the bytes of all white characters at the start of the text, past ASCII too.
#[inline(never)]
fn white_size(text: &str) -> usize
    ensures { result ≡ length (encode_utf8_all (while_front is_white (chars text.now))) }
{
    skip(TextCursor::new(text), Class::White).bytes_in(text)
}

/// Splits the text after all white characters at its start, past ASCII too.
///
/// For two spaces and `a b` it returns the two spaces and `a b`.
#[inline(always)]
pub fn split_white(text: &str) -> (&str, &str)
    ensures { SplitsWhite text.now result.0.now result.1.now }
{
    let (_, size) = past_white(text);
    if byte_at(text.as_bytes(), size).is_ascii() {
        return text.split_at(size);
    }
    // This call is separate, so that the split above needs no check that it falls between two characters.
    text.split_at(white_size(text))
}
