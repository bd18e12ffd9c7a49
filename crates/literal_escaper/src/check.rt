//! Finds the errors in the content of a literal.

ghost use Rattle.std.specs.Prelude.{◌≡◌};
ghost use Rattle.std.specs.Iterator.{YieldsFirst};
ghost use Rattle.std.specs.Str.{chars};
ghost use Rattle.literal_escaper.specs.Errors.{errors_among, errors_in, single_error};
ghost use Rattle.literal_escaper.specs.Unescaping.{cooked_left, raw_left};
ghost use Rattle.literal_escaper.specs.Within.{AreWithin};

use crate::content_cursor::ContentCursor;
use crate::cooked::{Cooked, next_item};
use crate::errors::EscapeError;
use crate::kind::{Bytes, CStr, CheckRaw, Str, Unescape};
use crate::mode::Mode;
use crate::raw::next_raw_item;
use crate::single::unescape_single;
use std::marker::Model;
use std::ops::Range;

/// Returns the error of a content that must be one unit, if it has one.
fn error_of_single<K: Unescape>(src: &str) -> Option<(Range<usize>, EscapeError)>
    ensures { result ≡ single_error K.kind (chars src.now) }
{
    let (unit, end) = unescape_single::<K>(ContentCursor::new(src));
    match unit {
        Ok(_) => None,
        Err(e) => Some((0..end.byte_offset(), e)),
    }
}

/// Returns the next error of a content with escapes.
fn next_error<K: Unescape>(content: &mut Cooked<'_>) -> Option<(Range<usize>, EscapeError)>
    ensures { YieldsFirst (λ c. errors_among (cooked_left K.kind c)) content.old result content.new }
{
    while let Some((range, unit)) = next_item::<K>(content) {
        if let Err(e) = unit {
            return Some((range, e));
        }
    }
    None
}

/// Returns the next error of a raw content.
fn next_raw_error<K: CheckRaw>(
    cursor: &mut ContentCursor<'_>,
) -> Option<(Range<usize>, EscapeError)>
    ensures { YieldsFirst (λ p. errors_among (raw_left K.unit_of p)) cursor.old result cursor.new }
{
    while let Some((range, unit)) = next_raw_item::<K>(cursor) {
        if let Err(e) = unit {
            return Some((range, e));
        }
    }
    None
}

/// An iterator over the errors and warnings of a content. [`check_for_errors`] makes one.
#[derive(Drop)]
pub struct CheckForErrors<'a> {
    mode: Mode,
    single: Option<(Range<usize>, EscapeError)>,
    content: Cooked<'a>,
}

impl<'a> Model for CheckForErrors<'a> {
    ghost use Rattle.std.specs.Prelude.{List};
    ghost use Rattle.literal_escaper.specs.Errors.{Error};
    ghost use Rattle.literal_escaper.specs.Left.{errors_left};

    ghost Value = { List Error };

    ghost view = { λ it. errors_left it.mode it.single it.content };
}

impl Iterator for CheckForErrors<'_> {
    ghost use Rattle.std.specs.Iterator.{YieldsFirst, item_count};

    type Item = (Range<usize>, EscapeError);

    ghost next_gives = { YieldsFirst (λ left. left) };

    ghost remaining = { item_count (λ left. left) };

    fn next(&mut self) -> Option<(Range<usize>, EscapeError)> {
        match self.mode {
            Mode::Char | Mode::Byte => self.single.take(),
            Mode::Str => next_error::<Str>(&mut self.content),
            Mode::RawStr => next_raw_error::<Str>(&mut self.content.cursor),
            Mode::ByteStr => next_error::<Bytes>(&mut self.content),
            Mode::RawByteStr => next_raw_error::<Bytes>(&mut self.content.cursor),
            Mode::CStr => next_error::<CStr>(&mut self.content),
            Mode::RawCStr => next_raw_error::<CStr>(&mut self.content.cursor),
        }
    }
}

impl<'a> CheckForErrors<'a> {
    /// Returns an iterator over the errors of the whole content.
    fn new(src: &'a str, mode: Mode) -> Self
        ensures { result ≡ errors_in mode (chars src.now) }
    {
        let single = match mode {
            Mode::Char => error_of_single::<Str>(src),
            Mode::Byte => error_of_single::<Bytes>(src),
            _ => None,
        };
        CheckForErrors {
            mode,
            single,
            content: Cooked::new(src),
        }
    }
}

/// Returns the errors and warnings of a content of this kind in order, by the rule `content-errors`.
///
/// Each has its range of bytes in the content. For a character or a byte there is at most one. Its range begins at the
/// start of the content and ends after the last character that was read.
///
/// As a character, `abc` has the error `MoreThanOneChar` at 0..2. As a string, `a"` has the error `EscapeOnlyChar` at
/// 1..2; as a raw string it has none.
pub fn check_for_errors(src: &str, mode: Mode) -> CheckForErrors<'_>
    ensures value { result ≡ errors_in mode (chars src.now) }
    ensures within { AreWithin src.now result }
{
    CheckForErrors::new(src, mode)
}
