//! Tests of the openers that `explain` returns.
use crate::tests::checks::check_answer;
use explain::{ExplainError, Explained, Opener, explain};
use std::alloc::Global;
use std::process::Abort;
use test_helpers::release;

/// Asserts that the text doesn't parse, and that these bytes are the openers that no closer matches before the error,
/// the innermost last.
fn check(rt: &(impl Abort + AllocGlobal), text: &str, want: &str) {
    let explained = explain(rt.alloc(), text);
    let found = openers(rt, rt.alloc(), &explained);
    check_answer(rt, text, &found.as_str(), &want);
    release((explained, found));
}

/// The bytes of the openers that no closer matches before the text's error.
fn openers(
    rt: &impl Abort,
    alloc: Global,
    explained: &Result<Option<Explained>, ExplainError>,
) -> String {
    match explained {
        Ok(Some(explained)) => opener_bytes(rt, alloc, explained),
        Ok(None) => String::from_str(alloc, "none").expect(rt, "none"),
        Err(_) => String::from_str(alloc, "memory").expect(rt, "memory"),
    }
}

/// The bytes of the openers in the explanation, the innermost last.
fn opener_bytes(rt: &impl Abort, alloc: Global, explained: &Explained) -> String {
    let mut shown = String::new(alloc);
    for opener in explained.outer.iter() {
        add_opener(rt, &mut shown, opener);
        shown.push(' ').expect(rt, "a text");
    }
    if let Some(opener) = &explained.innermost {
        add_opener(rt, &mut shown, opener);
    }
    shown
}

/// Appends the bytes of the opener.
fn add_opener(rt: &impl Abort, shown: &mut String, opener: &Opener) {
    let (start, end) = (opener.at.start, opener.at.end);
    assert!(rt; write!(shown, "{start}..{end}").is_ok());
}

#[test]
fn openers_that_no_closer_matches(rt: HostRuntime) {
    check(&rt, "(a", "0..1");
    check(&rt, "é([{", "2..3 3..4 4..5");
    check(&rt, "{ (x) [y }", "0..1 6..7");
    check(&rt, "[ () \"\\q\"", "0..1");
    check(&rt, "a )", "");
    check(&rt, "[a] ('b", "4..5");
}
