//! Escapes: what follows a backslash in a literal.
#![tactic(auto, using(crate::proofs::RuleSteps::steps))]

ghost use Rattle.std.specs.Prelude.{◌≡◌, IsTrue};
ghost use Rattle.std.specs.List.{list_all};
ghost use Rattle.lexical.specs.Quoted as rule;
ghost use Rattle.lexical.specs.Quoted.{is_code, is_code_digit, is_one_of};
ghost use Rattle.lexical.specs.Rule.{One};
ghost use Rattle.lexical.specs.RuleMatch.{Reads};

use crate::bytes::{Base, Class, one, skip};
use crate::cursor::TextCursor;
use crate::quoted::StringKind;
use crate::skip::one as one_that;
use crate::text::{before, begins};

/// Whether a backslash and this letter are a simple escape, by the rule `simple-escape`.
pub fn is_letter(c: char, kind: StringKind) -> bool
    ensures { result ≡ is_one_of (rule.letters kind) c }
{
    match c {
        'n' | 'r' | 't' | '\\' | '\'' | '"' => true,
        '0' => !matches!(kind, StringKind::C),
        _ => false,
    }
}

/// Returns the cursor after the letter of a simple escape.
fn simple(at: TextCursor<'_>, kind: StringKind) -> Option<TextCursor<'_>>
    ensures { Reads (One (is_one_of (rule.letters kind))) at.entry result }
{
    one_that(at, |c| is_letter(c, kind))
}

/// Returns the cursor after two hex digits.
fn hex_pair(at: TextCursor<'_>) -> Option<TextCursor<'_>>
    ensures { Reads rule.hex_pair at.entry result }
{
    one(one(at, Class::HexDigit)?, Class::HexDigit)
}

/// Returns the cursor after two hex digits if a literal of the kind allows them after `\x`.
fn pair(at: TextCursor<'_>, kind: StringKind) -> Option<TextCursor<'_>>
    ensures { Reads (rule.pair kind) at.entry result }
{
    match kind {
        StringKind::Plain => one(one(at, Class::DigitOf(Base::Octal))?, Class::HexDigit),
        StringKind::Byte => hex_pair(at),
        StringKind::C => {
            if begins(at.rest, "00") {
                return None;
            }
            hex_pair(at)
        }
    }
}

/// Returns the cursor after `x` and its two digits, by the rule `hex-escape`.
fn hex(at: TextCursor<'_>, kind: StringKind) -> Option<TextCursor<'_>>
    ensures { Reads (rule.hex (rule.pair kind)) at.entry result }
{
    pair(at.past("x")?, kind)
}

/// Whether `\u{..}` may have this value in a literal of the kind.
fn allows(kind: StringKind, value: u32) -> bool
    ensures { result ≡ rule.allows kind value }
{
    match kind {
        StringKind::Plain => true,
        StringKind::Byte => false,
        StringKind::C => value > 0,
    }
}

/// The largest number of hex digits in `\u{..}`.
const MOST_DIGITS: u32 = 6;

/// Whether there are at most six hex digits, and they are the code of a character that the kind allows. Any `_` among
/// them is skipped.
pub fn writes_character(code: &[u8], kind: StringKind) -> bool
    requires { IsTrue (list_all is_code_digit code.now) }
    ensures { result ≡ is_code (rule.allows kind) code.now }
{
    let mut value: u32 = 0;
    let mut count: u32 = 0;
    for byte in code {
        if let Some(digit) = (*byte as char).to_digit(16) {
            value = 16 * value + digit;
            count += 1;
        }
        if count > MOST_DIGITS || value > 0x10_FFFF {
            return false;
        }
    }
    char::from_u32(value).is_some() && allows(kind, value)
}

/// Returns the cursor after the code of a character: one hex digit and all hex digits and `_` after it.
fn code(at: TextCursor<'_>, kind: StringKind) -> Option<TextCursor<'_>>
    ensures { Reads (rule.code (rule.allows kind)) at.entry result }
{
    let first = one(at, Class::HexDigit)?;
    let end = skip(first, Class::CodeDigit);
    if !writes_character(before(at.rest, end.rest).as_bytes(), kind) {
        return None;
    }
    Some(end)
}

/// Returns the cursor after `u{`, the code of a character and `}`, by the rule `unicode-escape`.
fn unicode(at: TextCursor<'_>, kind: StringKind) -> Option<TextCursor<'_>>
    ensures { Reads (rule.unicode (rule.allows kind)) at.entry result }
{
    code(at.past("u{")?, kind)?.past("}")
}

/// Returns the cursor after an escape: a letter, `x` and two digits, or `u{..}` with the code of a character.
pub fn escape(at: TextCursor<'_>, kind: StringKind) -> Option<TextCursor<'_>>
    ensures { Reads (rule.escape kind) at.entry result }
{
    if let Some(end) = simple(at, kind) {
        return Some(end);
    }
    match hex(at, kind) {
        Some(end) => Some(end),
        None => unicode(at, kind),
    }
}
