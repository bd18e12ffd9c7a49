//! The first error in the content of a literal that is closed.
#![tactic(auto, using(lexical::proofs::RuleSteps::steps))]

ghost use Rattle.std.specs.Prelude.{◌≡◌, ◌≤◌, ◌<◌, ◌∷◌, ◌++◌, [], List, MatchOption, None, ℕ, codes, false, length};
ghost use Rattle.std.specs.Str.{chars};
ghost use Rattle.lexical.specs.Character.{double_quote};
ghost use Rattle.lexical.specs.Quoted.{cooked_string, front};
ghost use Rattle.lexical.specs.Rule.{Exactly, find};
ghost use Rattle.lexical.specs.RuleMatch.{Passes, Reads};
ghost use Rattle.lexical.specs.Text.{begins_with};
ghost use Rattle.explain.specs.Content.{is_of_last as of_last};
ghost use Rattle.explain.specs.Shapes.{closed_body};
ghost use Rattle.explain.specs.Trouble.{IsTrouble};
ghost use Rattle.explain.specs.Walk.{IsFaulty, IsFront, IsInside, IsLast, IsLeft, IsPast, IsStep, error_in, line_end};

use crate::reason::Reason;
use crate::trouble::Trouble;
use lexical::parts::{StringKind, TextCursor};
use literal_escaper::{EscapeError, unescape_byte_str, unescape_c_str, unescape_str};
use std::ops::Range;

/// The first item that the escaper reads from a content.
#[derive(Drop)]
pub struct Front {
    /// The size of the item in bytes.
    pub size: usize,
    /// The error of the item, if it has one.
    pub error: Option<EscapeError>,
}

/// What is at a cursor in the content of a string.
#[derive(Drop)]
pub enum ContentItem<'a> {
    /// A unit, and the cursor after it.
    Unit(TextCursor<'a>),
    /// An error, and the cursor after what was read for it.
    Fault(EscapeError, TextCursor<'a>),
    /// The quote that ends the string.
    End,
}

/// Returns the content from the cursor up to the quote before `end`.
pub fn content<'a>(at: TextCursor<'a>, end: TextCursor<'a>) -> &'a str
    requires { (quote : ℕ) × (quote < 128) × IsInside quote at end }
    ensures { (quote : ℕ) (left : List ℕ) → quote < 128 → IsLeft quote left at.entry end.entry
        → chars result.now ≡ left }
{
    let size = at.rest.len() - end.rest.len() - 1;
    &at.rest[..size]
}

/// Returns the size and the error of an item of the escaper, whose range begins at 0.
fn front_of<U: Copy>(range: Range<usize>, unit: Result<U, EscapeError>) -> Front
    ensures size { result.size ≡ range.end }
    ensures error { result.error ≡ error_in unit }
{
    let size = range.end;
    match unit {
        Ok(_) => Front { size, error: None },
        Err(error) => Front {
            size,
            error: Some(error),
        },
    }
}

/// Returns the first item that the escaper reads from a content, or `None` if the content is empty. The content must
/// not begin with a backslash and a line end, which the escaper reads in another way.
fn read_front(content: &str, kind: StringKind) -> Option<Front>
    requires { begins_with (codes "\\\n") (chars content.now) ≡ false }
    ensures { MatchOption result (chars content.now ≡ []) (IsFront kind (chars content.now)) }
{
    match kind {
        StringKind::Plain => {
            let (range, unit) = unescape_str(content).next()?;
            Some(front_of(range, unit))
        }
        StringKind::Byte => {
            let (range, unit) = unescape_byte_str(content).next()?;
            Some(front_of(range, unit))
        }
        StringKind::C => {
            let (range, unit) = unescape_c_str(content).next()?;
            Some(front_of(range, unit))
        }
    }
}

/// Returns the cursor after CR LF, or after a backslash and a line end.
fn past_line_end(at: TextCursor<'_>) -> Option<TextCursor<'_>>
    ensures { Reads line_end at.entry result }
{
    if let Some(end) = at.past("\r\n") {
        return Some(end);
    }
    match at.past("\\\n") {
        Some(end) => Some(end),
        None => at.past("\\\r\n"),
    }
}

/// Returns what is at the cursor in the content of a string. The quote before `end` closes the string.
fn next_step<'a>(at: TextCursor<'a>, end: TextCursor<'a>, kind: StringKind) -> ContentItem<'a>
    requires { IsInside double_quote at end }
    ensures { IsStep kind at.entry end.entry result }
{
    if let Some(after) = past_line_end(at) {
        return ContentItem::Unit(after);
    }
    match read_front(content(at, end), kind) {
        Some(Front { size, error: None }) => ContentItem::Unit(at.after_bytes(size)),
        Some(
            Front {
                size,
                error: Some(error),
            },
        ) => ContentItem::Fault(error, at.after_bytes(size)),
        None => ContentItem::End,
    }
}

/// Whether the error is about the last character that was read, and not about the whole escape.
fn is_of_last(error: &EscapeError) -> bool
    ensures { result ≡ of_last error.now }
{
    matches!(
        error,
        EscapeError::InvalidEscape
            | EscapeError::InvalidCharInHexEscape
            | EscapeError::InvalidCharInUnicodeEscape
            | EscapeError::LeadingUnderscoreUnicodeEscape
    )
}

/// Returns the cursor before the last character between `at` and `end`.
fn last_character<'a>(at: TextCursor<'a>, end: TextCursor<'a>) -> TextCursor<'a>
    requires { (past : IsPast at end) × (1 ≤ length past.part) }
    ensures { IsLast at.entry end.entry result }
{
    let mut last = at;
    while last.chars_before + 1 < end.chars_before {
        let Some((_, after)) = last.advance() else {
            unreachable!()
        };
        last = after;
    }
    last
}

/// Returns the trouble for an error in what was read from `at` to `after`. The wrong part is all of it, or its last
/// character.
pub fn faulty<'a>(at: TextCursor<'a>, after: TextCursor<'a>, error: EscapeError) -> Trouble<'a>
    requires { (past : IsPast at after) × (1 ≤ length past.part) }
    ensures { IsFaulty error at.entry after.entry result }
{
    let at = if is_of_last(&error) {
        last_character(at, after)
    } else {
        at
    };
    Trouble {
        reason: Reason::Content(error),
        at,
        after,
    }
}

/// Returns the first error in the content of a string that begins at `at`. Its content begins at `inside`, and `end` is
/// after its closing quote.
pub fn string_content<'a>(
    at: TextCursor<'a>,
    inside: TextCursor<'a>,
    end: TextCursor<'a>,
    kind: StringKind,
) -> Trouble<'a>
    requires opens { Passes (Exactly (front kind)) at inside }
    requires closed { Passes closed_body inside end }
    requires none { find (cooked_string kind) (chars at.rest.now) ≡ None }
    ensures { IsTrouble at.entry result }
{
    let mut place = inside;
    loop {
        match next_step(place, end, kind) {
            ContentItem::Unit(after) => place = after,
            ContentItem::Fault(error, after) => return faulty(place, after, error),
            ContentItem::End => unreachable!(),
        }
    }
}
