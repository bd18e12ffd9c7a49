//! The library's answer for the text of a literal.
use crate::answer::Answer;
use proc_macro2::{ConversionErrorKind, Literal, ParseError, SourceMap};
use std::alloc::{AllocError, Global};

/// Returns the printed literal that the text is, or its value if the question is about the value. For a text that is no
/// literal the answer is `refused`.
///
/// For `str_value`, `"ab"` gives `6162`, `1` gives `InvalidLiteralKind`, and the answer for `- 1` is `refused`.
pub fn literal_answer<'a>(
    alloc: Global,
    asked: &'a str,
    text: &str,
) -> Result<Answer<'a>, ParseError> {
    let mut map = SourceMap::new(alloc);
    let literal = match Literal::from_str(text, &mut map) {
        Ok(literal) => literal,
        Err(ParseError::Lex(_)) => return Ok(Answer::no_literal(alloc)),
        Err(error) => return Err(error),
    };
    let (kind, answer_text) = match asked {
        "str_value" => (
            asked,
            hex(alloc, literal.str_value(alloc).map(String::into_bytes))?,
        ),
        "byte_str_value" => (asked, hex(alloc, literal.byte_str_value(alloc))?),
        "cstr_value" => (asked, hex(alloc, literal.cstr_value(alloc))?),
        _ => ("literal", format!(in alloc; "{literal}")?),
    };
    Ok(Answer { kind, answer_text })
}

/// Returns the bytes of a value in hex, or the name of the error. Fails if memory runs out.
fn hex(alloc: Global, value: Result<Vec<u8>, ConversionErrorKind>) -> Result<String, AllocError> {
    match value {
        Ok(bytes) => hex::encode(alloc, bytes.as_slice()),
        Err(ConversionErrorKind::Memory(error)) => Err(error),
        Err(error) => format!(in alloc; "{error:?}"),
    }
}
