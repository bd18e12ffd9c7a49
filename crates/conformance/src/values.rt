//! The library's answer for a value.
ghost use Rattle.std.specs.Prelude.{◌≡◌};
ghost use Rattle.proc_macro2.specs.CString.{has_no_zero};

use crate::answer::Answer;
use proc_macro2::Literal;
use std::alloc::{AllocError, Global};

/// Returns the text of the literal that this call makes of the value. If it makes none, the answer is `refused`.
///
/// For `c_string`, `a` and a quote give `c"a\""`.
pub fn value_answer<'a>(
    alloc: Global,
    asked: &'a str,
    value: &str,
) -> Result<Answer<'a>, AllocError> {
    match literal_of(alloc, asked, value)? {
        Some(literal) => Ok(Answer {
            kind: asked,
            answer_text: format!(in alloc; "{literal}")?,
        }),
        None => Ok(Answer::no_literal(alloc)),
    }
}

/// Returns the literal that this call makes of the text, of its first character, of its first byte, or of its bytes.
/// Returns `None` if the text has no such character or byte, and for a C string with NUL.
fn literal_of(alloc: Global, call: &str, value: &str) -> Result<Option<Literal>, AllocError> {
    let bytes = value.as_bytes();
    Ok(match call {
        "string" => Some(Literal::string(alloc, value)?),
        "character" => match value.chars().next() {
            Some(c) => Some(Literal::character(alloc, c)?),
            None => None,
        },
        "byte_character" => match bytes.first() {
            Some(&byte) => Some(Literal::byte_character(alloc, byte)?),
            None => None,
        },
        "byte_string" => Some(Literal::byte_string(alloc, bytes)?),
        "c_string" if has_no_zero(bytes) => Some(Literal::c_string(alloc, bytes)?),
        _ => None,
    })
}

/// Whether no byte is zero.
fn has_no_zero(bytes: &[u8]) -> bool
    ensures { result ≡ has_no_zero bytes.now }
{
    bytes.iter().all(|&byte| byte != 0)
}
