//! Reads escapes: what follows a backslash.

ghost use Rattle.std.specs.Prelude.{◌≡◌, ◌<◌, ◌≤◌};
ghost use Rattle.literal_escaper.specs.Escape.{read_braced, read_code, escape as what_escapes, hex_escape as hex_read};
ghost use Rattle.literal_escaper.specs.Escape.{is_code_character, letter, letter_unit, second_digit};
ghost use Rattle.literal_escaper.specs.Escape.{unicode_escape as unicode_read};
ghost use Rattle.literal_escaper.specs.Unescaping.{Gives, code_answer, digit_count, digit_number, next_count};
ghost use Rattle.literal_escaper.specs.Unescaping.{next_number, text_at};
ghost use Rattle.literal_escaper.specs.Text.{while_rest};

use crate::classes::{ContentClass, holds};
use crate::content_cursor::ContentCursor;
use crate::errors::EscapeError;
use crate::kind::{Unescape, character_of};

/// Returns the character that a letter after a backslash means, by the rule `item-letter`.
fn simple_escape(c: char) -> Option<char>
    ensures { result ≡ letter c }
{
    if !holds(ContentClass::SimpleEscape, c) {
        return None;
    }
    match c {
        '0' => Some('\0'),
        'n' => Some('\n'),
        'r' => Some('\r'),
        't' => Some('\t'),
        _ => Some(c),
    }
}

/// Returns the unit of a letter after a backslash, or an error.
fn letter_escape<K: Unescape>(c: char) -> Result<K::Unit, EscapeError>
    ensures { result ≡ letter_unit K.kind (letter c) }
{
    match simple_escape(c) {
        Some('\0') => K::NUL,
        Some(c) => K::of_char(c),
        None => Err(EscapeError::InvalidEscape),
    }
}

/// Returns the unit of two hex digits, of which the first was read, or an error.
fn low_digit<K: Unescape>(
    high: u32,
    at: ContentCursor<'_>,
) -> (Result<K::Unit, EscapeError>, ContentCursor<'_>)
    requires { high < 16 }
    ensures { Gives (second_digit K.kind high (text_at at.entry)) at.entry result }
{
    let Some((c, after)) = at.advance() else {
        return (Err(EscapeError::TooShortHexEscape), at);
    };
    let Some(low) = c.to_digit(16) else {
        return (Err(EscapeError::InvalidCharInHexEscape), after);
    };
    (K::of_hex((16 * high + low) as u8), after)
}

/// Returns the unit of two hex digits, by the rule `item-hex`, or an error.
#[tactic(auto, unfolding(crate::specs::Escape::hex_escape))]
fn hex_escape<K: Unescape>(
    at: ContentCursor<'_>,
) -> (Result<K::Unit, EscapeError>, ContentCursor<'_>)
    ensures { Gives (hex_read K.kind (text_at at.entry)) at.entry result }
{
    let Some((c, after)) = at.advance() else {
        return (Err(EscapeError::TooShortHexEscape), at);
    };
    let Some(high) = c.to_digit(16) else {
        return (Err(EscapeError::InvalidCharInHexEscape), after);
    };
    low_digit::<K>(high, after)
}

/// The largest number that is kept for the digits in braces: that of the last character with one more digit.
const LARGEST_CODE: u32 = 0x10F_FFFF;

/// The number that the digits in braces write.
#[derive(Clone, Copy)]
struct Code<'a> {
    /// How many digits there are. Seven means seven or more.
    count: u32,
    /// Their number. Once it is above 10FFFF, further digits leave it unchanged.
    number: u32,
    /// The cursor after the digits and the underscores among them.
    after: ContentCursor<'a>,
}

/// Returns the count with one more digit, but at most seven.
fn one_more(count: u32) -> u32
    requires { count ≤ 7 }
    ensures value { result ≡ next_count count }
    ensures within { result ≤ 7 }
{
    if count < 7 { count + 1 } else { count }
}

/// Returns the number with the digit after it. A number above 10FFFF stays as it is.
fn append_digit(number: u32, digit: u32) -> u32
    requires number { number ≤ LARGEST_CODE }
    requires digit { digit < 16 }
    ensures value { result ≡ next_number number digit }
    ensures within { result ≤ LARGEST_CODE }
{
    if number <= 0x10_FFFF {
        16 * number + digit
    } else {
        number
    }
}

/// Reads the digits at the cursor and the underscores among them.
fn digits(at: ContentCursor<'_>) -> Code<'_>
    ensures count { result.count ≡ digit_count (text_at at.entry) }
    ensures number { result.number ≡ digit_number (text_at at.entry) }
    ensures rest { text_at result.after ≡ while_rest is_code_character (text_at at.entry) }
    ensures end { result.after.end ≡ at.entry.end }
{
    let mut count: u32 = 0;
    let mut number: u32 = 0;
    let mut after = at;
    while let Some((c, next)) = after.advance() {
        if !holds(ContentClass::CodeCharacter, c) {
            break;
        }
        if let Some(digit) = c.to_digit(16) {
            count = one_more(count);
            number = append_digit(number, digit);
        }
        after = next;
    }
    Code {
        count,
        number,
        after,
    }
}

/// Returns the unit of this many digits with this number, or an error.
fn code_escape<K: Unescape>(count: u32, number: u32) -> Result<K::Unit, EscapeError>
    ensures { result ≡ code_answer K.kind count number }
{
    if count > 6 {
        return Err(EscapeError::OverlongUnicodeEscape);
    }
    K::of_code(character_of(number))
}

/// Reads the digits at the cursor and the closing brace after them.
#[tactic(auto, using(crate::proofs::CodeLemmas::code_unit_is), unfolding(crate::specs::Escape::read_code))]
fn rest_of_code<K: Unescape>(
    at: ContentCursor<'_>,
) -> (Result<K::Unit, EscapeError>, ContentCursor<'_>)
    ensures { Gives (read_code K.kind (text_at at.entry)) at.entry result }
{
    let code = digits(at);
    match code.after.advance() {
        None => (Err(EscapeError::UnclosedUnicodeEscape), code.after),
        Some(('}', after)) => (code_escape::<K>(code.count, code.number), after),
        Some((_, after)) => (Err(EscapeError::InvalidCharInUnicodeEscape), after),
    }
}

/// Returns the unit of a character's code and its closing brace, or an error. The opening brace was read.
fn braced_escape<K: Unescape>(
    at: ContentCursor<'_>,
) -> (Result<K::Unit, EscapeError>, ContentCursor<'_>)
    ensures { Gives (read_braced K.kind (text_at at.entry)) at.entry result }
{
    let Some((c, after)) = at.advance() else {
        return (Err(EscapeError::UnclosedUnicodeEscape), at);
    };
    if c == '_' {
        return (Err(EscapeError::LeadingUnderscoreUnicodeEscape), after);
    }
    if c == '}' {
        return (Err(EscapeError::EmptyUnicodeEscape), after);
    }
    if !holds(ContentClass::HexDigit, c) {
        return (Err(EscapeError::InvalidCharInUnicodeEscape), after);
    }
    rest_of_code::<K>(at)
}

/// Returns the unit of a character's code in braces, by the rule `item-code`, or an error.
#[tactic(auto, unfolding(crate::specs::Escape::unicode_escape))]
fn unicode_escape<K: Unescape>(
    at: ContentCursor<'_>,
) -> (Result<K::Unit, EscapeError>, ContentCursor<'_>)
    ensures { Gives (unicode_read K.kind (text_at at.entry)) at.entry result }
{
    match at.advance() {
        None => (Err(EscapeError::NoBraceInUnicodeEscape), at),
        Some(('{', after)) => braced_escape::<K>(after),
        Some((_, after)) => (Err(EscapeError::NoBraceInUnicodeEscape), after),
    }
}

/// Returns the unit of the escape after a backslash, by the rule `item-escape`, or an error.
#[tactic(auto, unfolding(crate::specs::Escape::escape))]
pub fn escape<K: Unescape>(
    at: ContentCursor<'_>,
) -> (Result<K::Unit, EscapeError>, ContentCursor<'_>)
    ensures { Gives (what_escapes K.kind (text_at at.entry)) at.entry result }
{
    match at.advance() {
        None => (Err(EscapeError::LoneSlash), at),
        Some(('x', after)) => hex_escape::<K>(after),
        Some(('u', after)) => unicode_escape::<K>(after),
        Some((c, after)) => (letter_escape::<K>(c), after),
    }
}
