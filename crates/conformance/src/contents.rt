//! What the library finds in the content of a literal.
ghost use Rattle.std.specs.Iterator.{IsFinite};

use crate::answer::Answer;
use proc_macro2::rustc_literal_escaper::{
    EscapeError, MixedUnit, Mode, NonZeroChar, check_for_errors, check_raw_byte_str,
    check_raw_c_str, check_raw_str, unescape_byte, unescape_byte_str, unescape_c_str,
    unescape_char, unescape_str,
};
use std::alloc::{AllocError, Global};
use std::ops::Range;

/// Returns what this call of the escaper gives for the content: each item with its range of bytes, its unit or error,
/// and a semicolon. For a character or a byte it is only the unit or the error. Returns `None` for an unknown call.
///
/// For `unescape_str`, `\x41b` gives `0..4 U+41;4..5 U+62;`. For `unescape_char`, `'` gives
/// `EscapeOnlyChar`.
pub fn content_answer<'a>(
    alloc: Global,
    call: &'a str,
    content: &str,
) -> Result<Option<Answer<'a>>, AllocError> {
    let answer_text = match call {
        "unescape_str" => items(alloc, unescape_str(content)),
        "unescape_byte_str" => items(alloc, unescape_byte_str(content)),
        "unescape_c_str" => items(alloc, unescape_c_str(content)),
        "check_raw_str" => items(alloc, check_raw_str(content)),
        "check_raw_byte_str" => items(alloc, check_raw_byte_str(content)),
        "check_raw_c_str" => items(alloc, check_raw_c_str(content)),
        "unescape_char" => unit_text(alloc, unescape_char(content)),
        "unescape_byte" => unit_text(alloc, unescape_byte(content)),
        _ => return errors_answer(alloc, call, content),
    };
    Ok(Some(Answer {
        kind: call,
        answer_text: answer_text?,
    }))
}

/// Returns the errors in the content, if the call names the kind of the literal after `errors_`.
fn errors_answer<'a>(
    alloc: Global,
    call: &'a str,
    content: &str,
) -> Result<Option<Answer<'a>>, AllocError> {
    match call.strip_prefix("errors_").and_then(mode) {
        Some(mode) => Ok(Some(Answer {
            kind: call,
            answer_text: errors(alloc, content, mode)?,
        })),
        None => Ok(None),
    }
}

/// Returns the kind of literal that a word names.
fn mode(name: &str) -> Option<Mode> {
    match name {
        "Char" => Some(Mode::Char),
        "Byte" => Some(Mode::Byte),
        "Str" => Some(Mode::Str),
        "RawStr" => Some(Mode::RawStr),
        "ByteStr" => Some(Mode::ByteStr),
        "RawByteStr" => Some(Mode::RawByteStr),
        "CStr" => Some(Mode::CStr),
        "RawCStr" => Some(Mode::RawCStr),
        _ => None,
    }
}

/// Returns all items that an iterator of the escaper gives.
fn items<U: Unit, I: Iterator<Item = (Range<usize>, Result<U, EscapeError>)> + Drop>(
    alloc: Global,
    items: I,
) -> Result<String, AllocError>
    requires { I.can_next items × IsFinite (I.remaining items) }
{
    let mut answer_text = String::new(alloc);
    for (range, unit) in items {
        let unit = unit_text(alloc, unit)?;
        write!(answer_text, "{}..{} {unit};", range.start, range.end)?;
    }
    Ok(answer_text)
}

/// Returns all errors in a content of this kind, each with its range.
fn errors(alloc: Global, content: &str, mode: Mode) -> Result<String, AllocError> {
    let mut answer_text = String::new(alloc);
    for (range, error) in check_for_errors(content, mode) {
        write!(answer_text, "{}..{} {error:?};", range.start, range.end)?;
    }
    Ok(answer_text)
}

/// Returns the text of a unit, or the name of an error.
fn unit_text<U: Unit>(alloc: Global, unit: Result<U, EscapeError>) -> Result<String, AllocError> {
    match unit {
        Ok(unit) => unit.text(alloc),
        Err(error) => format!(in alloc; "{error:?}"),
    }
}

/// A unit of a literal's content.
trait Unit: Copy {
    /// Returns `U+` and the character's code, or the byte in two digits of hex.
    fn text(self, alloc: Global) -> Result<String, AllocError>;
}

impl Unit for char {
    fn text(self, alloc: Global) -> Result<String, AllocError> {
        format!(in alloc; "U+{:X}", u32::from(self))
    }
}

impl Unit for u8 {
    fn text(self, alloc: Global) -> Result<String, AllocError> {
        format!(in alloc; "{self:02X}")
    }
}

impl Unit for NonZeroChar {
    fn text(self, alloc: Global) -> Result<String, AllocError> {
        self.get().text(alloc)
    }
}

impl Unit for MixedUnit {
    fn text(self, alloc: Global) -> Result<String, AllocError> {
        match self {
            MixedUnit::Char(c) => c.text(alloc),
            MixedUnit::HighByte(byte) => byte.get().text(alloc),
        }
    }
}
