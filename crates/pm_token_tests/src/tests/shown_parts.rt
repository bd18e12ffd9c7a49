// The `Debug` texts of the parts of tokens, and of tokens without a span.
use crate::tests::checks::{are_shown, check_answer, made_shows, read_literal, shows};
use pm_span::parts::span_of;
use pm_span::{LineColumn, SourceMap, Span};
use pm_token::parts::punct;
use pm_token::{Delimiter, Ident, Literal, Spacing};
use std::alloc::{AllocError, Global};
use std::process::Abort;
use test_helpers::release;

#[test]
fn a_delimiter_shows_its_name(rt: HostRuntime) {
    let rows = &[
        (Delimiter::Parenthesis, "Parenthesis"),
        (Delimiter::Brace, "Brace"),
        (Delimiter::Bracket, "Bracket"),
        (Delimiter::None, "None"),
    ];
    are_shown(&rt, rt.alloc(), rows);
}

#[test]
fn a_spacing_shows_its_name(rt: HostRuntime) {
    let rows = &[(Spacing::Alone, "Alone"), (Spacing::Joint, "Joint")];
    are_shown(&rt, rt.alloc(), rows);
}

/// Asserts the `Debug` text of the raw identifier with the name.
fn raw_shows(rt: &impl Abort, alloc: Global, name: &str, span: Span, want: &str) {
    made_shows(rt, alloc, Ident::new_raw(alloc, name, span), want);
}

#[test]
fn a_raw_identifier_shows_its_front(rt: HostRuntime) {
    let alloc = rt.alloc();
    let nowhere = Span::call_site();
    raw_shows(&rt, alloc, "ab", nowhere, "Ident { sym: r#ab }");
    let want = "Ident { sym: r#fn, span: bytes(34..38) }";
    raw_shows(&rt, alloc, "fn", span_of(34, 38), want);
}

#[test]
fn a_mark_without_a_place_shows_no_span(rt: HostRuntime) {
    let nowhere = Span::call_site();
    let rows = [
        (
            punct('#', Spacing::Alone, nowhere),
            "Punct { char: '#', spacing: Alone }",
        ),
        (
            punct('\'', Spacing::Joint, nowhere),
            "Punct { char: '\\'', spacing: Joint }",
        ),
        (
            punct('+', Spacing::Alone, span_of(0, 1)),
            "Punct { char: '+', spacing: Alone, span: bytes(0..1) }",
        ),
    ];
    are_shown(&rt, rt.alloc(), &rows);
}

/// Asserts the `Debug` text of the literal that is read from the text.
fn read_shows(rt: &impl Abort, alloc: Global, text: &str, want: &str) {
    made_shows(rt, alloc, read_literal(alloc, text), want);
}

#[test]
fn a_literal_shows_its_text_as_it_is_written(rt: HostRuntime) {
    let alloc = rt.alloc();
    made_shows(
        &rt,
        alloc,
        Literal::string(alloc, "a\n"),
        "Literal { lit: \"a\\n\" }",
    );
    made_shows(
        &rt,
        alloc,
        Literal::i8_suffixed(alloc, -1),
        "Literal { lit: -1i8 }",
    );
    read_shows(
        &rt,
        alloc,
        "b'x'",
        "Literal { lit: b'x', span: bytes(1..5) }",
    );
    read_shows(
        &rt,
        alloc,
        "-1u12",
        "Literal { lit: -1u12, span: bytes(1..6) }",
    );
}

#[test]
fn a_place_shows_its_line_and_column(rt: HostRuntime) {
    let value = LineColumn { line: 3, column: 0 };
    shows(&rt, rt.alloc(), &value, "LineColumn { line: 3, column: 0 }");
}

/// Returns the `Debug` text of a map of these texts, with the limit 100.
fn map_shown(alloc: Global, texts: &[&str]) -> Result<String, AllocError> {
    let mut map = SourceMap::with_limit(alloc, 100);
    for text in texts {
        release(Literal::from_str(text, &mut map));
    }
    let shown: Result<_, _> = format!(in alloc; "{map:?}");
    release(map);
    shown
}

/// Asserts that the text has each of these parts.
fn has_parts(rt: &impl Abort, text: &str, parts: &[&str]) {
    for part in parts {
        check_answer(rt, part, &(text, text.contains(*part)), &(text, true));
    }
}

#[test]
fn a_map_shows_its_texts_and_its_limit(rt: HostRuntime) {
    let alloc = rt.alloc();
    let texts = &["1", "\"a\n\"", "x y"];
    let shown = map_shown(alloc, texts).expect(&rt, "a map");
    let parts = [
        "SourceMap {",
        "\"1\"",
        "\"\\\"a\\n\\\"\"",
        "\"x y\"",
        "limit: 100",
    ];
    has_parts(&rt, shown.as_str(), &parts);
    let again = map_shown(alloc, texts).expect(&rt, "a map");
    check_answer(&rt, "the same texts", &again.as_str(), &shown.as_str());
}
