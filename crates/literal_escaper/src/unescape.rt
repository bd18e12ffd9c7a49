//! Returns the items of contents with escapes.

ghost use Rattle.std.specs.Prelude.{◌≡◌};
ghost use Rattle.std.specs.Str.{chars};
ghost use Rattle.literal_escaper.specs.Items.{items};
ghost use Rattle.literal_escaper.specs.Kind.{byte_kind, c_kind, string_kind};
ghost use Rattle.literal_escaper.specs.Single.{single};
ghost use Rattle.literal_escaper.specs.Within.{AreWithin};

use crate::content_cursor::ContentCursor;
use crate::cooked::{Cooked, next_item};
use crate::errors::EscapeError;
use crate::kind::{Bytes, CStr, Str};
use crate::mixed_unit::MixedUnit;
use crate::single::unescape_single;
use std::marker::Model;
use std::ops::Range;

/// An iterator over the items of a string's content. [`unescape_str`] makes one.
#[derive(Drop)]
pub struct UnescapeStr<'a> {
    content: Cooked<'a>,
}

impl<'a> Model for UnescapeStr<'a> {
    ghost use Rattle.std.specs.Prelude.{ℕ, List};
    ghost use Rattle.literal_escaper.specs.Items.{Item};
    ghost use Rattle.literal_escaper.specs.Kind.{string_kind};
    ghost use Rattle.literal_escaper.specs.Unescaping.{cooked_left};

    ghost Value = { List (Item ℕ) };

    ghost view = { λ it. cooked_left string_kind it.content };
}

impl Iterator for UnescapeStr<'_> {
    ghost use Rattle.std.specs.Iterator.{YieldsFirst, item_count};

    type Item = (Range<usize>, Result<char, EscapeError>);

    ghost next_gives = { YieldsFirst (λ left. left) };

    ghost remaining = { item_count (λ left. left) };

    fn next(&mut self) -> Option<(Range<usize>, Result<char, EscapeError>)> {
        next_item::<Str>(&mut self.content)
    }
}

/// Returns the items of a string's content, by the rules `items` and `string-kind`.
///
/// The content is the text between the quotes. An item has its range of bytes in the content, and its character or the
/// error there.
///
/// For `\x41b` the items are `A` at 0..4 and `b` at 4..5. For `\x80` the item is `OutOfRangeHexEscape` at 0..4.
pub fn unescape_str(src: &str) -> UnescapeStr<'_>
    ensures value { result ≡ items string_kind (chars src.now) }
    ensures within { AreWithin src.now result }
{
    UnescapeStr {
        content: Cooked::new(src),
    }
}

/// An iterator over the items of a byte string's content. [`unescape_byte_str`] makes one.
#[derive(Drop)]
pub struct UnescapeByteStr<'a> {
    content: Cooked<'a>,
}

impl<'a> Model for UnescapeByteStr<'a> {
    ghost use Rattle.std.specs.Prelude.{ℕ, List};
    ghost use Rattle.literal_escaper.specs.Items.{Item};
    ghost use Rattle.literal_escaper.specs.Kind.{byte_kind};
    ghost use Rattle.literal_escaper.specs.Unescaping.{cooked_left};

    ghost Value = { List (Item ℕ) };

    ghost view = { λ it. cooked_left byte_kind it.content };
}

impl Iterator for UnescapeByteStr<'_> {
    ghost use Rattle.std.specs.Iterator.{YieldsFirst, item_count};

    type Item = (Range<usize>, Result<u8, EscapeError>);

    ghost next_gives = { YieldsFirst (λ left. left) };

    ghost remaining = { item_count (λ left. left) };

    fn next(&mut self) -> Option<(Range<usize>, Result<u8, EscapeError>)> {
        next_item::<Bytes>(&mut self.content)
    }
}

/// Returns the items of a byte string's content, by the rules `items` and `byte-kind`.
///
/// An item has its range of bytes in the content, and its byte or the error there.
///
/// For `\xFF` the item is 0xFF at 0..4. For `\u{41}` the item is `UnicodeEscapeInByte` at 0..6.
pub fn unescape_byte_str(src: &str) -> UnescapeByteStr<'_>
    ensures value { result ≡ items byte_kind (chars src.now) }
    ensures within { AreWithin src.now result }
{
    UnescapeByteStr {
        content: Cooked::new(src),
    }
}

/// An iterator over the items of a C string's content. [`unescape_c_str`] makes one.
#[derive(Drop)]
pub struct UnescapeCStr<'a> {
    content: Cooked<'a>,
}

impl<'a> Model for UnescapeCStr<'a> {
    ghost use Rattle.std.specs.Prelude.{List};
    ghost use Rattle.literal_escaper.specs.Items.{Item};
    ghost use Rattle.literal_escaper.specs.Kind.{c_kind};
    ghost use Rattle.literal_escaper.specs.Unescaping.{cooked_left};
    ghost use Rattle.literal_escaper.specs.declared.mixed_unit.MixedUnit.{MixedUnit};

    ghost Value = { List (Item MixedUnit) };

    ghost view = { λ it. cooked_left c_kind it.content };
}

impl Iterator for UnescapeCStr<'_> {
    ghost use Rattle.std.specs.Iterator.{YieldsFirst, item_count};

    type Item = (Range<usize>, Result<MixedUnit, EscapeError>);

    ghost next_gives = { YieldsFirst (λ left. left) };

    ghost remaining = { item_count (λ left. left) };

    fn next(&mut self) -> Option<(Range<usize>, Result<MixedUnit, EscapeError>)> {
        next_item::<CStr>(&mut self.content)
    }
}

/// Returns the items of a C string's content, by the rules `items` and `c-kind`.
///
/// An item has its range of bytes in the content, and its unit or the error there. A unit is a character or a byte past
/// ASCII, never zero.
///
/// For `\x80` the item is the byte 0x80 at 0..4. For `\0` the item is `NulInCStr` at 0..2.
pub fn unescape_c_str(src: &str) -> UnescapeCStr<'_>
    ensures value { result ≡ items c_kind (chars src.now) }
    ensures within { AreWithin src.now result }
{
    UnescapeCStr {
        content: Cooked::new(src),
    }
}

/// Returns the one character of a character literal's content, by the rule `single-item`, or the error in it.
///
/// For `\n` it returns LF. The empty text is the error `ZeroChars`, `ab` is `MoreThanOneChar`, and a bare `'` is
/// `EscapeOnlyChar`.
pub fn unescape_char(src: &str) -> Result<char, EscapeError>
    ensures { result ≡ (single string_kind (chars src.now)).unit }
{
    let (unit, _) = unescape_single::<Str>(ContentCursor::new(src));
    unit
}

/// Returns the one byte of a byte literal's content, by the rule `single-item`, or the error in it.
///
/// For `\xFF` it returns 0xFF. `ab` is the error `MoreThanOneChar`, and `\u{41}` is `UnicodeEscapeInByte`.
pub fn unescape_byte(src: &str) -> Result<u8, EscapeError>
    ensures { result ≡ (single byte_kind (chars src.now)).unit }
{
    let (unit, _) = unescape_single::<Bytes>(ContentCursor::new(src));
    unit
}
