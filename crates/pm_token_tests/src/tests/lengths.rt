// A text of at most 22 bytes is kept in its token, and a longer one in memory. Both are kept unchanged and copied.
use crate::tests::checks::{check_answer, make_ident};
use pm_token::{Ident, Literal};
use std::alloc::Global;
use std::fmt::Display;
use std::process::Abort;
use test_helpers::release;

/// Copies the identifier of the name.
fn copied_ident(rt: &impl Abort, alloc: Global, name: &str, raw: bool) -> Ident {
    let ident = make_ident(alloc, name, raw).expect(rt, name);
    let copy = ident.clone().expect(rt, name);
    release(ident);
    copy
}

/// Copies the string literal of the text.
fn copied_literal(rt: &impl Abort, alloc: Global, text: &str) -> Literal {
    let literal = Literal::string(alloc, text).expect(rt, text);
    let copy = literal.clone().expect(rt, text);
    release(literal);
    copy
}

/// Returns how the token is written, and drops it.
fn written<T: Display + Drop>(rt: &impl Abort, alloc: Global, token: T) -> String {
    format!(in alloc; "{token}").expect(rt, "a text")
}

/// Asserts how a copy of the plain identifier of the name is written.
fn is_kept(rt: &impl Abort, alloc: Global, name: &str) {
    let plain = written(rt, alloc, copied_ident(rt, alloc, name, false));
    check_answer(rt, name, &plain.as_str(), &name);
}

/// Asserts how a copy of the raw identifier of the name is written.
fn is_kept_raw(rt: &impl Abort, alloc: Global, name: &str) {
    let raw = written(rt, alloc, copied_ident(rt, alloc, name, true));
    check_answer(rt, name, &raw.as_str().strip_prefix("r#"), &Some(name));
}

/// Asserts how a copy of the string literal of the text is written.
fn is_quoted(rt: &impl Abort, alloc: Global, text: &str) {
    let quoted = written(rt, alloc, copied_literal(rt, alloc, text));
    let inside = quoted.as_str().strip_prefix('"').unwrap_or("");
    check_answer(rt, text, &inside.strip_suffix('"'), &Some(text));
}

/// Makes a text of 100,000 bytes.
fn long_text(rt: &impl Abort, alloc: Global) -> String {
    let mut text = String::new(alloc);
    for _ in 0..10_000 {
        text.push_str("abcdefghij").expect(rt, "a long text");
    }
    text
}

#[test]
fn a_name_of_any_length_is_kept(rt: HostRuntime) {
    let names = &[
        "a",
        "abcdefghijklmnopqrstu",
        "abcdefghijklmnopqrstuv",
        "abcdefghijklmnopqrstuvw",
        "\u{E9}\u{E9}\u{E9}\u{E9}\u{E9}\u{E9}\u{E9}\u{E9}\u{E9}\u{E9}\u{E9}",
        "a\u{E9}\u{E9}\u{E9}\u{E9}\u{E9}\u{E9}\u{E9}\u{E9}\u{E9}\u{E9}\u{E9}",
    ];
    for name in names {
        is_kept(&rt, rt.alloc(), name);
        is_kept_raw(&rt, rt.alloc(), name);
    }
}

#[test]
fn a_literal_of_any_length_is_kept(rt: HostRuntime) {
    for text in &["", "abcdefghijklmnopqrst", "abcdefghijklmnopqrstu"] {
        is_quoted(&rt, rt.alloc(), text);
    }
}

#[test]
fn a_text_of_100000_bytes_is_kept(rt: HostRuntime) {
    let text = long_text(&rt, rt.alloc());
    is_kept(&rt, rt.alloc(), text.as_str());
    is_kept_raw(&rt, rt.alloc(), text.as_str());
    is_quoted(&rt, rt.alloc(), text.as_str());
}
