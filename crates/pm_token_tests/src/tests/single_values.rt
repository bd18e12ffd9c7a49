use crate::tests::checks::{check_answer, read_literal};
use pm_token::ConversionErrorKind;
use std::alloc::Global;
use std::process::Abort;
use test_helpers::release;

type Value<T> = Result<T, ConversionErrorKind>;

/// Returns the value of the text's literal as a character, and as a byte.
fn single_values(rt: &impl Abort, alloc: Global, text: &str) -> (Value<char>, Value<u8>) {
    let literal = read_literal(alloc, text).expect(rt, text);
    let values = (literal.char_value(), literal.byte_value());
    release(literal);
    values
}

/// Returns this value, or the error for another kind of literal.
fn right_kind<T>(value: Option<T>) -> Value<T> {
    match value {
        Some(value) => Ok(value),
        None => Err(ConversionErrorKind::InvalidLiteralKind),
    }
}

/// Asserts the values of each text's literal as a character and as a byte. If it has none, the error is
/// `InvalidLiteralKind`.
fn single_values_are(rt: &impl Abort, alloc: Global, rows: &[(&str, Option<char>, Option<u8>)]) {
    for &(text, character, byte) in rows {
        let values = single_values(rt, alloc, text);
        let want = (right_kind(character), right_kind(byte));
        check_answer(rt, text, &values, &want);
        release((values, want));
    }
}

#[test]
fn a_character_has_the_character_between_its_quotes(rt: HostRuntime) {
    let rows = &[
        ("'\\''", Some('\''), None),
        ("' '", Some(' '), None),
        ("'\"'", Some('"'), None),
        ("'\u{E9}'", Some('\u{E9}'), None),
        ("'\\n'", Some('\n'), None),
        ("'\\\\'", Some('\\'), None),
        ("'\\x7F'", Some('\u{7F}'), None),
        ("'\\u{10_FFFF}'", Some('\u{10FFFF}'), None),
    ];
    single_values_are(&rt, rt.alloc(), rows);
}

#[test]
fn a_byte_has_the_byte_between_its_quotes(rt: HostRuntime) {
    let rows = &[
        ("b'\\xFF'", None, Some(255)),
        ("b'a'", None, Some(b'a')),
        ("b'\\''", None, Some(b'\'')),
        ("b'\\0'", None, Some(0)),
    ];
    single_values_are(&rt, rt.alloc(), rows);
}

#[test]
fn other_literals_are_of_another_kind(rt: HostRuntime) {
    let rows = &[
        ("'a'u8", None, None),
        ("b'a'u8", None, None),
        ("\"a\"", None, None),
        ("b\"a\"", None, None),
        ("1", None, None),
        ("-1", None, None),
    ];
    single_values_are(&rt, rt.alloc(), rows);
}
