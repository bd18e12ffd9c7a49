//! Reads the items at the start of a content with escapes.

ghost use Rattle.std.specs.Prelude.{◌≡◌, ◌<◌, [], ◌∷◌, ◌++◌, IfNone, IfSome, IsFalse, MatchOption, length};
ghost use Rattle.literal_escaper.specs.Character.{is_blank as blank, line_feed as line_end};
ghost use Rattle.literal_escaper.specs.Items.{front, items_from, line_skip, unit_front, white_range};
ghost use Rattle.literal_escaper.specs.Unescaping.{Gives, GivesFront, front_items, skips_line, text_at};
ghost use Rattle.literal_escaper.specs.Text.{first_is, while_rest};

use crate::classes::{ContentClass, holds};
use crate::content_cursor::ContentCursor;
use crate::errors::EscapeError;
use crate::escape::escape;
use crate::kind::Unescape;
use std::ops::Range;

/// An item: its range of bytes in the content, and a unit or an error.
pub type Item<U> = (Range<usize>, Result<U, EscapeError>);

/// What one step at the start of a content reads.
#[derive(Drop)]
pub struct Front<'a, U: Copy> {
    /// The first item, if there is one.
    pub item: Option<Item<U>>,
    /// The range of the warning about a white character that comes after that item.
    pub warning: Option<Range<usize>>,
    /// The cursor after the characters that were read.
    pub after: ContentCursor<'a>,
}

/// Whether the character is skipped after a backslash and a line end.
fn is_blank(c: char) -> bool
    ensures { result ≡ blank c }
{
    holds(ContentClass::Blank, c)
}

/// Returns whether a line end is among the blanks at the cursor, and the cursor after them.
fn skip_blanks(at: ContentCursor<'_>) -> (bool, ContentCursor<'_>)
    ensures lines { result.0 ≡ skips_line (text_at at.entry) }
    ensures rest { text_at result.1 ≡ while_rest blank (text_at at.entry) }
    ensures end { result.1.end ≡ at.entry.end }
{
    let mut lines = false;
    let mut after = at;
    while let Some((c, next)) = after.advance() {
        if !is_blank(c) {
            break;
        }
        lines = lines || c == '\n';
        after = next;
    }
    (lines, after)
}

/// Returns the range from `start` to after the character at `after`, if that character is white.
fn unskipped_white(start: ContentCursor<'_>, after: ContentCursor<'_>) -> Option<Range<usize>>
    requires { start.end ≡ after.end }
    ensures { result ≡ white_range start.entry.end (text_at start.entry) (text_at after.entry) }
{
    let (c, past) = after.advance()?;
    if holds(ContentClass::White, c) {
        Some(start.byte_offset()..past.byte_offset())
    } else {
        None
    }
}

/// Reads a backslash and LF at the cursor `at`, with the blanks after them. They have no unit, but may have warnings.
/// `line` is the cursor after the LF.
#[tactic(auto, unfolding(crate::specs::Items::line_skip))]
fn skip_line<'a, U: Copy>(at: ContentCursor<'a>, line: ContentCursor<'a>) -> Front<'a, U>
    requires { at.end ≡ line.end }
    ensures { GivesFront
        (line_skip at.entry.end (text_at at.entry) (text_at line.entry))
        at.entry result.item result.warning result.after }
{
    let (lines, after) = skip_blanks(line);
    let white = unskipped_white(at, after);
    if lines {
        let skipped = at.byte_offset()..after.byte_offset();
        Front {
            item: Some((skipped, Err(EscapeError::MultipleSkippedLinesWarning))),
            warning: white,
            after,
        }
    } else {
        Front {
            item: white.map(|range| (range, Err(EscapeError::UnskippedWhitespaceWarning))),
            warning: None,
            after,
        }
    }
}

/// Returns the unit of a character or of the escape that it begins, or an error, and the cursor after it.
fn read_unit<K: Unescape>(
    c: char,
    after: ContentCursor<'_>,
) -> (Result<K::Unit, EscapeError>, ContentCursor<'_>)
    ensures { Gives (unit_front K.kind c (text_at after.entry)) after.entry result }
{
    if !holds(ContentClass::StringSpecial, c) {
        return (K::of_char(c), after);
    }
    match c {
        '\\' => escape::<K>(after),
        '"' => (Err(EscapeError::EscapeOnlyChar), after),
        _ => (Err(EscapeError::BareCarriageReturn), after),
    }
}

/// Returns the cursor after an LF.
fn line_feed(at: ContentCursor<'_>) -> Option<ContentCursor<'_>>
    ensures { MatchOption result (IsFalse (first_is line_end (text_at at.entry)))
        (λ line. (text_at at.entry ≡ line_end ∷ text_at line) × (line.end ≡ at.entry.end)) }
{
    match at.advance() {
        Some(('\n', line)) => Some(line),
        _ => None,
    }
}

/// Reads one step at the cursor: a skipped line end, an escape, or one character. Returns `None` at the end of the
/// content.
#[tactic(auto, unfolding(crate::specs::Items::front))]
pub fn read_front<K: Unescape>(at: ContentCursor<'_>) -> Option<Front<'_, K::Unit>>
    ensures value { MatchOption result (text_at at.entry ≡ []) (λ x.
        GivesFront (front K.kind at.entry.end (text_at at.entry)) at.entry x.item x.warning x.after) }
    ensures more { IfSome result (λ x. 0 < length (text_at at.entry)) }
{
    let (c, after) = at.advance()?;
    if c == '\\' {
        if let Some(line) = line_feed(after) {
            return Some(skip_line(at, line));
        }
    }
    let (unit, rest) = read_unit::<K>(c, after);
    Some(Front {
        item: Some((at.byte_offset()..rest.byte_offset(), unit)),
        warning: None,
        after: rest,
    })
}

/// Reads from the cursor on until an item is found, or until the end of the content.
pub fn next_front<K: Unescape>(at: ContentCursor<'_>) -> Front<'_, K::Unit>
    ensures left { items_from K.kind at.entry.end (text_at at.entry)
        ≡ front_items result.item result.warning ++ items_from K.kind result.after.end (text_at result.after) }
    ensures none { IfNone result.item ((result.warning ≡ None) × (text_at result.after ≡ [])) }
{
    let mut cursor = at;
    while let Some(front) = read_front::<K>(cursor) {
        if front.item.is_some() {
            return front;
        }
        cursor = front.after;
    }
    Front {
        item: None,
        warning: None,
        after: cursor,
    }
}
