//! Tests the laws of parsed and printed streams on many texts, on each beginning of each text, and on the two parts
//! before and after each of its byte offsets.

use crate::tests::checks::{check_answer, display_text, parse_first, parsed, repeat_parts};
use pm_span::parts::bounds;
use proc_macro2::{ParseError, TokenStream};
use std::alloc::{AllocError, Global};
use std::process::Abort;
use test_helpers::release;

/// Texts that parse.
const PARSED: &[&str] = &[
    "",
    "fn f(x) { x + y }",
    "a+'b'",
    "'b\"x\"",
    "1..2",
    "1.f32",
    "1.",
    "0E--0",
    "1e5\u{301}",
    "0o0A",
    "/// d\r\n",
    "/**/",
    "/***/x",
    "(/*ERROR*/)",
    "+x",
    "-3i32",
    "- 3i32",
    "-1u12",
    "- 1",
    "-\"\"",
    "\"a\\x000b\\x007c\\08d\\0e\\0\"",
    "c\"\\u{7f}\\xFF\\xFE\\u{333}\"",
    "\"a\r\nb\"",
    "\"a\"s",
    "abcd",
    "1",
    "    \u{13015} a z    ",
    "\u{feff}foo",
    "'r#prefix#lifetime",
    "0.1",
    "aaa\nbbb",
    "ccc\nddd",
    "aaa\nbbb\nccc\nddd",
    "255",
    "a#",
    "r#fn",
    "\"a\\\n \n\u{a0}b\"",
    "<<=",
    "+/**/-",
    "~// c",
    "{ }",
    "{ x }",
    "(x)",
    "[x]",
    "x",
    "a+b",
    "a += b",
    "a+=b",
    "'a",
    "r#a",
    "//x",
    "\u{feff}a",
    "//! doc",
    "/** doc */",
    "/*!*/",
    "/**\r\n*/",
    "////x",
    "//\r",
    "'a 'static 'r#gen",
    "'_",
    "r#dyn",
    "r r#a ra",
    "\"\\\r\n    x\"",
    "cr##\"Hello \"world\"!\"##",
    "'\\u{10__FFFF}'",
    "r#\"\"#r",
    "&'b\"x\"",
    "1._0",
    "1.0e+-5",
    "0.0ECMA",
    "999r#u256",
    "0x1e+5",
    "tuple.0.0",
    "340282366920938463463374607431768211455u128",
    "-170141183460469231731687303715884105728",
    " 0",
    "0 ",
    "0 1",
    "0// c",
    "-1.0f12",
    "\"\\\r\nx\"",
    "\"\\\r\na\r\n\"",
    "b'\\x1F'",
    "'\\''",
    "'\"'",
    "c\"a\\x80\"",
    "\"a\\tb\"",
    "br\"\\x\"",
    "a b (c d) e",
    ":",
    "+'a",
    "  a",
    "x // c\ny",
    "+\n+",
    "//\r\ny",
    "/// d\nx",
    "/// d\n\nx",
    "a\n+=b",
    "a+\n=b",
    "1.\nf32",
    "1.0e+_5\u{301}",
    "1.0e\n+_5\u{301}",
    "x(r#\"y\"#)",
    "*/",
    "'e\u{301}",
    "'a + x",
    "/ *=",
    "::",
    "+'b'",
    "+- 3i32",
    "' '",
    "b'\\xFF'",
    "'a'u8",
    "b'a'",
    "\"a\u{e9}b\u{13015}c\"",
    "c\"\\x80\"",
    "\"\u{e9}\" a",
    "{}{x}[x](x)",
    "r#\"a\"#r cr##\"Hello \"world\"!\"## b'x' c\"\\x80\"",
    "1.0e+-5 999r#u256 0x1e+5",
    "&'a r#b",
    "a+=(1)",
];

/// Texts that have a fault.
const FAULTY: &[&str] = &[
    "'br#\"x\"#",
    "1.5\u{301}",
    "0b12",
    "0x_",
    "///\r",
    "/*/",
    "/* /* */ x",
    "(]",
    ")",
    "a ( [ b",
    "( /* x",
    "foo\u{feff}",
    "'''",
    "'prefix#lifetime",
    "'aa'bb",
    "'r#gen'a",
    "a\n(",
    "r#self",
    "a\"",
    "b\"",
    "( \"",
    "///\r \n",
    "/**\r \n*/",
    "' a",
    "r#_",
    "r#1",
    "\"\\u{0000000}\"",
    "\"\\u{999999}\"",
    "\"\\u{_0}\"",
    "\"\\u{}\"",
    "\"\\\r\n  \rx\"",
    "c\"\\0\"",
    "c\"\\x00\"",
    "c\"\\u{0}\"",
    "br##\"\"#",
    "b'\u{86}'",
    "([)",
    "{ ( }",
    "( [ ] {",
    ") \"",
    "\" )",
    "a\n\u{feff}b",
    "/**",
    "a/*",
    "'1",
    "'a#",
    "'ab'",
    "''",
    "''a",
    "b'",
    "'e\u{301}'",
    "\"\\\n\u{85}\r\"",
    "b'''",
    "'\n'",
    "b'\t'",
    "a '''",
    "\"\\u{1234567}\"",
    "\"\\u{12\"",
    "\"\\x8g\"",
    "\"\\x80\"",
    "\"\\ua}\"",
    "b'ab'",
    "a (]",
    "a (",
    "'\r\n'",
    "\"a\"\u{301}",
    "''''",
];

/// Whether a parsed stream is well spaced, and its printed text parses to the same tokens and is printed the same
/// again.
fn comes_back(rt: &impl Abort, alloc: Global, stream: &TokenStream) -> bool {
    let text = display_text(rt, alloc, stream);
    let again = parsed(rt, alloc, text.as_str());
    let again_text = display_text(rt, alloc, &again);
    let same = stream.same_tokens(&again) && again.same_tokens(stream);
    release(again);
    same && stream.is_well_spaced() && again_text == text
}

/// Asserts that the text parses to a stream that comes back from its printed text, or that it has a fault at one of its
/// positions. If `parses` is given, also asserts whether the text parses.
fn check_text(rt: &(impl Abort + AllocGlobal), text: &str, parses: Option<bool>) {
    let found = parse_first(rt.alloc(), text);
    if let Some(parses) = parses {
        check_answer(rt, text, &found.is_ok(), &parses);
    }
    check_found(rt, text, &found);
    release(found);
}

/// Asserts that the stream comes back from its printed text, or that the fault is at a position of the text.
fn check_found(
    rt: &(impl Abort + AllocGlobal),
    text: &str,
    found: &Result<TokenStream, ParseError>,
) {
    let holds = match found {
        Ok(stream) => comes_back(rt, rt.alloc(), stream),
        Err(ParseError::Lex(fault)) => lies_in(bounds(fault.span()), text),
        Err(_) => false,
    };
    check_answer(rt, text, &holds, &true);
}

/// Whether these are twice one position of the text.
fn lies_in((lo, hi): (u32, u32), text: &str) -> bool {
    let last = text.chars().count().saturating_add(1);
    lo == hi && lo > 0 && lo as usize <= last
}

/// Whether the two streams, one after the other, have the tokens of the text.
fn gives_both(rt: &impl Abort, alloc: Global, text: &str, streams: [TokenStream; 2]) -> bool {
    let both = TokenStream::from_streams(alloc, streams).expect(rt, text);
    let stream = parsed(rt, alloc, text);
    let same = stream.same_tokens(&both);
    release((both, stream));
    same
}

/// Asserts that the two texts with a line feed between them have the trees of both, if each parses and the second
/// doesn't begin with U+FEFF.
fn check_joined(rt: &(impl Abort + AllocGlobal), first: &str, second: &str) {
    if second.starts_with('\u{feff}') {
        return;
    }
    match parse_first(rt.alloc(), first) {
        Ok(before) => check_joined_to(rt, first, before, second),
        Err(error) => release(error),
    }
}

/// Asserts that the two texts with a line feed between them have the trees of the first, which are these, and those of
/// the second, if it parses.
fn check_joined_to(
    rt: &(impl Abort + AllocGlobal),
    first: &str,
    before: TokenStream,
    second: &str,
) {
    match parse_first(rt.alloc(), second) {
        Ok(after) => {
            let text = join_lines(rt.alloc(), first, second).expect(rt, first);
            let same = gives_both(rt, rt.alloc(), text.as_str(), [before, after]);
            check_answer(rt, text.as_str(), &same, &true);
        }
        Err(error) => release((before, error)),
    }
}

/// The two texts with a line feed between them.
fn join_lines(alloc: Global, first: &str, second: &str) -> Result<String, AllocError> {
    format!(in alloc; "{first}\n{second}")
}

/// Asserts the laws for the text, for each of its beginnings, and for the two parts at each of its byte offsets.
fn check_beginnings(rt: &(impl Abort + AllocGlobal), text: &str, parses: bool) {
    check_text(rt, text, Some(parses));
    check_joined(rt, text, "");
    for (bytes, _) in text.char_indices() {
        let (first, second) = text.split_at_checked(bytes).unwrap_or((text, ""));
        check_text(rt, first, None);
        check_joined(rt, first, second);
    }
}

#[test]
fn beginnings_of_parsed_texts_keep_the_laws(rt: HostRuntime) {
    for text in PARSED {
        check_beginnings(&rt, text, true);
    }
}

#[test]
fn beginnings_of_texts_with_a_fault_keep_the_laws(rt: HostRuntime) {
    for text in FAULTY {
        check_beginnings(&rt, text, false);
    }
}

#[test]
fn two_texts_are_joined_by_a_line_feed(rt: HostRuntime) {
    for first in PARSED {
        for second in PARSED {
            check_joined(&rt, first, second);
        }
    }
}

#[test]
fn beginnings_of_long_texts_keep_the_laws(rt: HostRuntime) {
    let rows: &[(&[(&str, u32)], bool)] = &[
        (&[("r", 1), ("#", 255), ("\"\"", 1), ("#", 255)], true),
        (&[("r", 1), ("#", 256), ("\"\"", 1), ("#", 256)], false),
        (&[("(", 100), (")", 100)], true),
        (&[("(", 100)], false),
        (&[("[", 100), (")", 1)], false),
        (&[("/*", 100), ("*/", 100), ("x", 1)], true),
        (&[("/*", 100), ("*/", 99)], false),
    ];
    for &(parts, parses) in rows {
        let text = repeat_parts(&rt, rt.alloc(), parts);
        check_beginnings(&rt, text.as_str(), parses);
    }
}
