//! The values of contents with escapes.
ghost use Rattle.std.specs.Prelude.{◌≡◌, ◌∷◌, ◌++◌, [], Ok, Some, None, IsOk, OnOk, if◌then◌else◌};
ghost use Rattle.std.specs.Str.{chars};
ghost use Rattle.literal_escaper.specs.Kind.{byte_kind, c_kind, string_kind};
ghost use Rattle.literal_escaper.specs.Warning.{is_fault};
ghost use Rattle.pm_token.specs.Value.{Answers, bytes_of, c_bytes, text_of, unit_bytes, units, value_from};

use crate::literals::conversion::ConversionErrorKind;
use literal_escaper::{EscapeError, MixedUnit, unescape_byte_str, unescape_c_str, unescape_str};
use std::alloc::{AllocError, Global};

/// Returns `fault`, or the fault before it if `fault` is only a warning.
fn last_fault(before: Option<EscapeError>, fault: EscapeError) -> Option<EscapeError>
    ensures { result ≡ (if is_fault fault then Some fault else before) }
{
    if fault.is_fatal() {
        Some(fault)
    } else {
        before
    }
}

/// Adds a character at the end of the text.
fn push_char(text: &mut String, c: char) -> Result<(), AllocError>
    ensures { OnOk result (text_of text.new ≡ text_of text.old ++ c ∷ []) }
{
    text.push(c)
}

/// Returns the characters of a string's content, with its escapes replaced.
pub fn unescaped_string(alloc: Global, content: &str) -> Result<String, ConversionErrorKind>
    ensures value { Answers text_of (value_from (Some (units string_kind (chars content.now))) None) result }
    ensures memory { units string_kind (chars content.now) ≡ Ok [] → IsOk result }
{
    let mut value = String::new(alloc);
    let mut fault = None;
    for (_, unit) in unescape_str(content) {
        match unit {
            Ok(c) => push_char(&mut value, c)?,
            Err(e) => fault = last_fault(fault, e),
        }
    }
    match fault {
        None => Ok(value),
        Some(fault) => Err(ConversionErrorKind::from(fault)),
    }
}

/// Returns the bytes of a byte string's content, with its escapes replaced.
pub fn unescaped_bytes(alloc: Global, content: &str) -> Result<Vec<u8>, ConversionErrorKind>
    ensures value { Answers bytes_of (value_from (Some (units byte_kind (chars content.now))) None) result }
    ensures memory { units byte_kind (chars content.now) ≡ Ok [] → IsOk result }
{
    let mut value = Vec::new(alloc);
    let mut fault = None;
    for (_, unit) in unescape_byte_str(content) {
        match unit {
            Ok(byte) => value.push(byte)?,
            Err(e) => fault = last_fault(fault, e),
        }
    }
    match fault {
        None => Ok(value),
        Some(fault) => Err(ConversionErrorKind::from(fault)),
    }
}

/// Adds the bytes of a unit at the end.
fn push_unit(bytes: &mut Vec<u8>, unit: MixedUnit) -> Result<(), AllocError>
    ensures { OnOk result (bytes_of bytes.new ≡ bytes_of bytes.old ++ unit_bytes unit) }
{
    match unit {
        MixedUnit::Char(c) => {
            let mut encoded = [0; 4];
            bytes.extend_from_slice(c.get().encode_utf8(&mut encoded).as_bytes())
        }
        MixedUnit::HighByte(byte) => Ok(bytes.push(byte.get())?),
    }
}

/// Returns the bytes of a C string's content, with its escapes replaced, and a zero byte.
pub fn unescaped_c_string(alloc: Global, content: &str) -> Result<Vec<u8>, ConversionErrorKind>
    ensures { Answers bytes_of (value_from (Some (c_bytes (units c_kind (chars content.now)))) None) result }
{
    let mut value = Vec::with_capacity(alloc, content.len().saturating_add(1))?;
    let mut fault = None;
    for (_, unit) in unescape_c_str(content) {
        match unit {
            Ok(unit) => push_unit(&mut value, unit)?,
            Err(e) => fault = last_fault(fault, e),
        }
    }
    if let Some(fault) = fault {
        return Err(ConversionErrorKind::from(fault));
    }
    value.push(0)?;
    Ok(value)
}
