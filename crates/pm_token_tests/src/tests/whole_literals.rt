use crate::tests::checks::{check_answer, read_literal};
use pm_span::SourceMap;
use pm_span::parts::{bounds, span_of};
use pm_token::{Literal, ParseError};
use std::alloc::Global;
use std::process::Abort;
use test_helpers::release;

/// Returns the positions of the literal of the text in a new map, if the text is one.
fn literal_bounds(alloc: Global, text: &str) -> Option<(u32, u32)> {
    let parsed = read_literal(alloc, text);
    let found = bounds_if_whole(&parsed, text);
    release(parsed);
    found
}

/// Returns the positions of the literal, if it was parsed and has this text.
fn bounds_if_whole(parsed: &Result<Literal, ParseError>, text: &str) -> Option<(u32, u32)> {
    match parsed {
        Ok(literal) if literal.text() == text => Some(bounds(literal.span())),
        _ => None,
    }
}

/// Returns the positions of the text's syntax error.
fn fault_bounds(alloc: Global, text: &str) -> Option<(u32, u32)> {
    let parsed = read_literal(alloc, text);
    let found = bounds_if_fault(&parsed);
    release(parsed);
    found
}

/// Returns the positions of the syntax error, if there is one.
fn bounds_if_fault(parsed: &Result<Literal, ParseError>) -> Option<(u32, u32)> {
    match parsed {
        Err(ParseError::Lex(fault)) => Some(bounds(fault.span())),
        _ => None,
    }
}

/// Asserts that each text is a whole literal, with the span from 1 to `end` in a new map.
fn are_whole(rt: &impl Abort, alloc: Global, rows: &[(&str, u32)]) {
    for &(text, end) in rows {
        let answers = (literal_bounds(alloc, text), Literal::is_whole(text));
        check_answer(rt, text, &answers, &(Some((1, end)), true));
    }
}

/// Asserts that no text is a whole literal, and that each error has the span 0..0.
fn are_refused(rt: &impl Abort, alloc: Global, texts: &[&str]) {
    for text in texts {
        let answers = (fault_bounds(alloc, text), Literal::is_whole(text));
        check_answer(rt, text, &answers, &(Some((0, 0)), false));
    }
}

/// Asserts that the literal made of the text has this text and the span 0..0. The text must be a whole literal.
fn is_made(rt: &impl Abort, alloc: Global, text: &str) {
    assert!(rt; Literal::is_whole(text));
    let literal = Literal::from_str_unchecked(alloc, text).expect(rt, text);
    let answers = (literal.text(), bounds(literal.span()));
    check_answer(rt, text, &answers, &(text, (0, 0)));
    release(literal);
}

/// Returns whether a map with this limit was full for the text, and whether it then holds the first three
/// characters.
fn outcome(alloc: Global, text: &str, limit: u32) -> (bool, bool) {
    let mut map = SourceMap::with_limit(alloc, limit);
    let parsed = Literal::from_str(text, &mut map);
    let full = matches!(&parsed, Err(ParseError::MapFull));
    let answers = (full, map.holds(span_of(1, 4)));
    release((parsed, map));
    answers
}

/// Asserts that a map with this limit is full for the text, or that the text's file is added.
fn are_full(rt: &impl Abort, alloc: Global, rows: &[(&str, u32, bool)]) {
    for &(text, limit, full) in rows {
        let answers = (limit, outcome(alloc, text, limit));
        check_answer(rt, text, &answers, &(limit, (full, !full)));
    }
}

#[test]
fn a_whole_literal_is_accepted(rt: HostRuntime) {
    let rows = &[
        ("0", 2),
        ("0.1", 4),
        ("-1u12", 6),
        ("-1.0f12", 8),
        ("-0.1", 5),
        ("1.", 3),
        ("0o0A", 5),
        ("\"a\u{E9}\"", 5),
        ("b'x'", 5),
        ("cr##\"Hello \"world\"!\"##", 23),
        ("'a'u8", 6),
    ];
    are_whole(&rt, rt.alloc(), rows);
}

#[test]
fn a_literal_is_made_of_a_text_that_is_known_to_be_one(rt: HostRuntime) {
    for text in ["1.5", "-3i32", "\"a\""] {
        is_made(&rt, rt.alloc(), text);
    }
}

#[test]
fn any_other_text_is_refused_nowhere(rt: HostRuntime) {
    let texts = &[
        "",
        "-",
        " 0",
        "0 ",
        "1 ",
        "0 1",
        "0// c",
        "/**/0",
        "\u{FEFF}0",
        "- 1",
        "--1",
        "-\"\"",
        "-'a'",
        "a",
        "0b12",
        "0x_",
        "1..2",
        "1.f32",
        "1\u{301}",
        "(/*ERROR*/)",
        "'a",
    ];
    are_refused(&rt, rt.alloc(), texts);
}

#[test]
fn a_file_is_added_where_the_text_was_read(rt: HostRuntime) {
    let rows = &[
        ("0x_", 3, true),
        ("0x_", 4, false),
        ("123", 3, true),
        ("123", 4, false),
    ];
    are_full(&rt, rt.alloc(), rows);
}
