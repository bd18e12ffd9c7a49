//! Assertions that the tests share. They return nothing, and stop the test if memory runs out, because each `?` in a
//! test makes its proof longer. For the same reason tests let go of tokens by `release`.
use pm_span::{SourceMap, Span};
use pm_token::{Ident, IdentError, Literal, ParseError};
use std::alloc::{AllocError, Global};
use std::fmt::{Debug, Display};
use std::process::Abort;
use test_helpers::release;

/// Asserts that the answer in a row of a test is the expected one. The row is printed if it fails.
pub fn check_answer<T: PartialEq + Debug>(rt: &impl Abort, row: &str, answer: &T, want: &T) {
    assert!(rt; answer == want, "{answer:?} and not {want:?} of {row:?}");
}

/// Reads the literal of the text, as the first text of a new map.
pub fn read_literal(alloc: Global, text: &str) -> Result<Literal, ParseError> {
    let mut map = SourceMap::new(alloc);
    Literal::from_str(text, &mut map)
}

/// Makes the identifier of the name, with the span 0..0.
pub fn make_ident(alloc: Global, name: &str, raw: bool) -> Result<Ident, IdentError> {
    if raw {
        Ident::new_raw(alloc, name, Span::call_site())
    } else {
        Ident::new(alloc, name, Span::call_site())
    }
}

/// Returns the text of the literal, if it was made.
fn text_of(literal: &Result<Literal, AllocError>) -> Option<&str> {
    match literal {
        Ok(literal) => Some(literal.text()),
        Err(_) => None,
    }
}

/// Asserts that the literal was made, and has this text.
pub fn is_written(rt: &impl Abort, literal: Result<Literal, AllocError>, want: &str) {
    check_answer(rt, want, &text_of(&literal), &Some(want));
    release(literal);
}

/// Asserts the `Display` text of a value.
pub fn displays<T: Display>(rt: &impl Abort, alloc: Global, value: &T, want: &str) {
    let shown = format!(in alloc; "{value}").expect(rt, want);
    check_answer(rt, want, &shown.as_str(), &want);
}

/// Asserts the `Debug` text of a value.
pub fn shows<T: Debug>(rt: &impl Abort, alloc: Global, value: &T, want: &str) {
    let shown = format!(in alloc; "{value:?}").expect(rt, want);
    check_answer(rt, want, &shown.as_str(), &want);
}

/// Asserts the `Debug` text of a value, if it was made.
pub fn made_shows<T: Debug + Drop, E: Debug + Drop>(
    rt: &impl Abort,
    alloc: Global,
    made: Result<T, E>,
    want: &str,
) {
    let value = made.expect(rt, want);
    shows(rt, alloc, &value, want);
}

/// Asserts the `Debug` text of each value of the table.
pub fn are_shown<T: Debug>(rt: &impl Abort, alloc: Global, rows: &[(T, &str)]) {
    for (value, want) in rows {
        shows(rt, alloc, value, want);
    }
}

/// Asserts the `Display` text of each value of the table.
pub fn are_displayed<T: Display>(rt: &impl Abort, alloc: Global, rows: &[(T, &str)]) {
    for (value, want) in rows {
        displays(rt, alloc, value, want);
    }
}

/// Asserts that each value of the table is equal to itself, and to none of the others.
pub fn are_distinct<T: PartialEq + Debug>(rt: &impl Abort, values: &[T]) {
    for (at, value) in values.iter().enumerate() {
        is_distinct(rt, values, at, value);
    }
}

/// Asserts that the value is equal to the one at this index of the table, and to no other.
fn is_distinct<T: PartialEq + Debug>(rt: &impl Abort, values: &[T], at: usize, value: &T) {
    for (index, other) in values.iter().enumerate() {
        let answers = (value == other, value != other);
        let want = (at == index, at != index);
        assert!(rt; answers == want, "of {value:?} and {other:?}");
    }
}
