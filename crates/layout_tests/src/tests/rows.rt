// The tightest texts of short streams: which neighbours must be parted, and which may touch.
use crate::tests::checks::{check_answer, comes_back, laid_out, stream_of};
use crate::tests::choosers::Always;
use layout::Gap;
use std::process::Abort;
use test_helpers::release;

/// A source, and its stream's text with no gaps except those that must be there.
const TIGHTEST: &[(&str, &str)] = &[
    ("fn f ( ) { }", "fn f(){}"),
    ("a . b", "a.b"),
    ("a + b", "a+b"),
    ("+ =", "+ ="),
    ("+=", "+="),
    ("/ /", "/ /"),
    ("/ *", "/ *"),
    ("r \"\"", "r \"\""),
    ("r #", "r #"),
    ("b 'a'", "b 'a'"),
    ("x \"\"", "x \"\""),
    ("\"\" a", "\"\" a"),
    ("\"\" 1", "\"\" 1"),
    ("\"\" \"\"", "\"\"\"\""),
    ("'a 'b'", "'a 'b'"),
    ("'a #", "'a #"),
    ("'r #", "'r #"),
    ("1 a", "1 a"),
    ("1 . a", "1.a"),
    ("1 . r#a", "1.r#a"),
    ("1_0 . a", "1_0.a"),
    ("1 . b'a'", "1.b'a'"),
    ("1 . 'a'", "1 . 'a'"),
    ("1 . \"a\"", "1 .\"a\""),
    ("1 . ( )", "1 .()"),
    ("1 . . 2", "1 . .2"),
    ("1i32 . abs ( )", "1i32.abs()"),
    ("- 1i32 . abs ( )", "-1i32.abs()"),
    ("2.0 . sqrt ( )", "2.0.sqrt()"),
    ("1.0f64 . max ( x )", "1.0f64.max(x)"),
    ("1e5 . ( )", "1e5.()"),
    ("0x1F . a", "0x1F.a"),
    ("1. . a", "1. .a"),
    ("1 + 1", "1 +1"),
    ("1 .", "1 ."),
    ("1 . 2", "1 .2"),
    ("1 .. 2", "1..2"),
    ("1 ..= 2", "1..=2"),
    ("0x1f .. x", "0x1f..x"),
    ("1. .. 2", "1. ..2"),
    ("1.5 .. 2", "1.5..2"),
    ("1e5 .. 2", "1e5..2"),
    ("0e + 1", "0e +1"),
    ("x . 0", "x.0"),
    ("x . 0 . 1", "x.0 .1"),
    ("x . 0 . y", "x.0.y"),
    (". 0", ".0"),
    ("a /// b\n c", "a #[doc=\" b\"]c"),
];

/// Asserts what the tightest text of the source's stream is, and that the stream comes back from it.
fn check_tightest(rt: &(impl Abort + AllocGlobal), source: &str, want: &str) {
    let stream = stream_of(rt, source);
    let text = laid_out(rt, &stream, &mut Always(Gap::Nothing));
    check_answer(rt, source, &text.as_str(), &want);
    check_answer(rt, source, &comes_back(rt, &stream, want), &true);
    release((stream, text));
}

#[test]
fn tightest_texts(rt: HostRuntime) {
    for &(source, want) in TIGHTEST {
        check_tightest(&rt, source, want);
    }
}
