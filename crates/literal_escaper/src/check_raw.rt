//! Returns the items of raw contents.

ghost use Rattle.std.specs.Prelude.{◌≡◌};
ghost use Rattle.std.specs.Str.{chars};
ghost use Rattle.literal_escaper.specs.Items.{raw_items};
ghost use Rattle.literal_escaper.specs.Kind.{any_char, ascii_byte};
ghost use Rattle.literal_escaper.specs.Units.{raw_c_char};
ghost use Rattle.literal_escaper.specs.Within.{AreWithin};

use crate::content_cursor::ContentCursor;
use crate::errors::EscapeError;
use crate::kind::{Bytes, CStr, Str};
use crate::num::NonZeroChar;
use crate::raw::next_raw_item;
use std::marker::Model;
use std::ops::Range;

/// An iterator over the items of a raw string's content. [`check_raw_str`] makes one.
#[derive(Drop)]
pub struct CheckRawStr<'a> {
    cursor: ContentCursor<'a>,
}

impl<'a> Model for CheckRawStr<'a> {
    ghost use Rattle.std.specs.Prelude.{ℕ, List};
    ghost use Rattle.literal_escaper.specs.Items.{Item};
    ghost use Rattle.literal_escaper.specs.Kind.{any_char};
    ghost use Rattle.literal_escaper.specs.Unescaping.{raw_left};

    ghost Value = { List (Item ℕ) };

    ghost view = { λ it. raw_left any_char it.cursor };
}

impl Iterator for CheckRawStr<'_> {
    ghost use Rattle.std.specs.Iterator.{YieldsFirst, item_count};

    type Item = (Range<usize>, Result<char, EscapeError>);

    ghost next_gives = { YieldsFirst (λ left. left) };

    ghost remaining = { item_count (λ left. left) };

    fn next(&mut self) -> Option<(Range<usize>, Result<char, EscapeError>)> {
        next_raw_item::<Str>(&mut self.cursor)
    }
}

/// Returns the items of a raw string's content, one for each character, by the rules `raw-items` and `string-kind`.
///
/// An item has its range of bytes in the content, and the character or the error there.
///
/// For `\n` the items are `\` at 0..1 and `n` at 1..2. For a CR the item is `BareCarriageReturnInRawString` at 0..1.
pub fn check_raw_str(src: &str) -> CheckRawStr<'_>
    ensures value { result ≡ raw_items any_char (chars src.now) }
    ensures within { AreWithin src.now result }
{
    CheckRawStr {
        cursor: ContentCursor::new(src),
    }
}

/// An iterator over the items of a raw byte string's content. [`check_raw_byte_str`] makes one.
#[derive(Drop)]
pub struct CheckRawByteStr<'a> {
    cursor: ContentCursor<'a>,
}

impl<'a> Model for CheckRawByteStr<'a> {
    ghost use Rattle.std.specs.Prelude.{ℕ, List};
    ghost use Rattle.literal_escaper.specs.Items.{Item};
    ghost use Rattle.literal_escaper.specs.Kind.{ascii_byte};
    ghost use Rattle.literal_escaper.specs.Unescaping.{raw_left};

    ghost Value = { List (Item ℕ) };

    ghost view = { λ it. raw_left ascii_byte it.cursor };
}

impl Iterator for CheckRawByteStr<'_> {
    ghost use Rattle.std.specs.Iterator.{YieldsFirst, item_count};

    type Item = (Range<usize>, Result<u8, EscapeError>);

    ghost next_gives = { YieldsFirst (λ left. left) };

    ghost remaining = { item_count (λ left. left) };

    fn next(&mut self) -> Option<(Range<usize>, Result<u8, EscapeError>)> {
        next_raw_item::<Bytes>(&mut self.cursor)
    }
}

/// Returns the items of a raw byte string's content, one for each character, by the rules `raw-items` and `byte-kind`.
///
/// An item has its range of bytes in the content, and the byte or the error there.
///
/// For `aé` the items are 0x61 at 0..1 and `NonAsciiCharInByte` at 1..3.
pub fn check_raw_byte_str(src: &str) -> CheckRawByteStr<'_>
    ensures value { result ≡ raw_items ascii_byte (chars src.now) }
    ensures within { AreWithin src.now result }
{
    CheckRawByteStr {
        cursor: ContentCursor::new(src),
    }
}

/// An iterator over the items of a raw C string's content. [`check_raw_c_str`] makes one.
#[derive(Drop)]
pub struct CheckRawCStr<'a> {
    cursor: ContentCursor<'a>,
}

impl<'a> Model for CheckRawCStr<'a> {
    ghost use Rattle.std.specs.Prelude.{ℕ, List};
    ghost use Rattle.literal_escaper.specs.Items.{Item};
    ghost use Rattle.literal_escaper.specs.Units.{raw_c_char};
    ghost use Rattle.literal_escaper.specs.Unescaping.{raw_left};

    ghost Value = { List (Item ℕ) };

    ghost view = { λ it. raw_left raw_c_char it.cursor };
}

impl Iterator for CheckRawCStr<'_> {
    ghost use Rattle.std.specs.Iterator.{YieldsFirst, item_count};

    type Item = (Range<usize>, Result<NonZeroChar, EscapeError>);

    ghost next_gives = { YieldsFirst (λ left. left) };

    ghost remaining = { item_count (λ left. left) };

    fn next(&mut self) -> Option<(Range<usize>, Result<NonZeroChar, EscapeError>)> {
        next_raw_item::<CStr>(&mut self.cursor)
    }
}

/// Returns the items of a raw C string's content, one for each character, by the rules `raw-items` and `c-kind`.
///
/// An item has its range of bytes in the content, and the character or the error there. No character is NUL.
///
/// For `a` and NUL the items are `a` at 0..1 and `NulInCStr` at 1..2.
pub fn check_raw_c_str(src: &str) -> CheckRawCStr<'_>
    ensures value { result ≡ raw_items raw_c_char (chars src.now) }
    ensures within { AreWithin src.now result }
{
    CheckRawCStr {
        cursor: ContentCursor::new(src),
    }
}
