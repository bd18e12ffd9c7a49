// Tests of cursors on texts that were written by hand. Each call is tested at least once.

use crate::tests::checks::check_answer;
use pm_span::parts::bounds;
use pm_stream::TokenStream;
use pm_token::{Delimiter, Spacing};
use std::alloc::Global;
use std::process::Abort;
use test_helpers::release;
use token_buffer::{Cursor, LiteralText, TokenBuffer, TokenText};

/// Asserts what the cursor at the start of `r#f += 'é (\"x\")` returns up to the group.
fn check_names_and_marks<'a>(rt: &impl Abort, cursor: Cursor<'a>) -> Option<Cursor<'a>> {
    let start = (cursor.eof(), cursor.span().map(bounds));
    let (name, rest) = cursor.ident()?;
    let (plus, spacing, rest) = rest.punct()?;
    let (lifetime, rest) = rest.skip()?.lifetime()?;
    let found = (start, (name.raw, name.text), (plus, spacing), lifetime.text);
    let want = (
        (false, Some((1, 4))),
        (true, "f"),
        ('+', Spacing::Joint),
        "é",
    );
    check_answer(rt, "names and marks", &found, &want);
    Some(rest)
}

/// The buffer of the text.
fn buffer_of<'a>(rt: &impl Abort, alloc: Global, text: &'a str) -> TokenBuffer<'a> {
    TokenBuffer::new(alloc, text).expect(rt, text)
}

/// Asserts what the cursor before `(\"x\")` returns.
fn check_group(rt: &impl Abort, cursor: Cursor<'_>) -> Option<()> {
    let in_brackets = cursor.group(Delimiter::Bracket).is_some();
    let start = (
        cursor.span().map(bounds),
        in_brackets,
        cursor.any_group().is_some(),
    );
    check_answer(rt, "a group", &start, &(Some((11, 16)), false, true));
    let (inside, after) = cursor.group(Delimiter::Parenthesis)?;
    let (literal, end) = inside.literal()?;
    let is_x = matches!(literal, LiteralText::Source("\"x\""));
    let ends = (after.eof(), end.eof(), end.next().is_none());
    let want = (true, (true, true, true));
    check_answer(rt, "inside a group", &(is_x, ends), &want);
    Some(())
}

#[test]
fn tokens_come_one_after_another(rt: HostRuntime) {
    let buffer = buffer_of(&rt, rt.alloc(), "r#f += 'é (\"x\")");
    let checked = match check_names_and_marks(&rt, buffer.begin()) {
        Some(rest) => check_group(&rt, rest),
        None => None,
    };
    check_answer(&rt, "all tokens", &checked, &Some(()));
    release(buffer);
}

/// Asserts what the cursor at the start of `//! d`, CR and LF returns. The comment includes the CR before its line
/// feed, but its text does not.
fn check_doc(rt: &impl Abort, cursor: Cursor<'_>) -> Option<()> {
    let group = cursor.skip()?.skip()?;
    let (_, inside, _) = group.any_group()?;
    let (name, rest) = inside.ident()?;
    let (mark, _, rest) = rest.punct()?;
    let (text, _) = rest.next()?;
    let is_d = matches!(text, TokenText::Literal(LiteralText::Doc(" d")));
    let spans = (group.span().map(bounds), rest.span().map(bounds));
    let want = ((Some((1, 7)), Some((1, 7))), ("doc", '=', true));
    let found = (spans, (name.text, mark, is_d));
    check_answer(rt, "a doc comment", &found, &want);
    Some(())
}

#[test]
fn a_doc_comment_is_its_tokens(rt: HostRuntime) {
    let buffer = buffer_of(&rt, rt.alloc(), "//! d\r\n");
    let checked = check_doc(&rt, buffer.begin());
    check_answer(&rt, "a doc comment", &checked, &Some(()));
    release(buffer);
}

/// The printed text of the cursor's tokens.
fn printed_text(rt: &impl Abort, alloc: Global, cursor: Cursor<'_>) -> String {
    let stream = stream_of(rt, alloc, cursor);
    let text = stream.to_string(alloc).expect(rt, "a text");
    release(stream);
    text
}

/// The stream of the cursor's tokens.
fn stream_of(rt: &impl Abort, alloc: Global, cursor: Cursor<'_>) -> TokenStream {
    cursor.to_stream(alloc).expect(rt, "a stream")
}

/// Whether the cursor's tokens are those that the text parses to.
fn are_those_of(rt: &impl Abort, alloc: Global, cursor: Cursor<'_>, text: &str) -> bool {
    let stream = stream_of(rt, alloc, cursor);
    let parsed = TokenStream::parse_unmapped(alloc, text).expect(rt, text);
    let same = stream.same_tokens(&parsed);
    release((stream, parsed));
    same
}

/// The cursor after the first tree of the buffer, which has one.
fn after_first<'a>(rt: &impl Abort, buffer: &'a TokenBuffer<'a>) -> Cursor<'a> {
    buffer.begin().skip().expect(rt, "the text has a tree")
}

#[test]
fn what_is_left_is_a_stream(rt: HostRuntime) {
    let text = "a (b + [c]) //! d\n'x 1.0";
    let buffer = buffer_of(&rt, rt.alloc(), text);
    let same = are_those_of(&rt, rt.alloc(), buffer.begin(), text);
    check_answer(&rt, text, &same, &true);
    let rest = printed_text(&rt, rt.alloc(), after_first(&rt, &buffer));
    let want = "(b + [c]) # ! [doc = \" d\"] 'x 1.0";
    check_answer(&rt, text, &rest.as_str(), &want);
    release(buffer);
}

/// Texts, each with the printed text of all its trees but the first.
const PRINTED: &[(&str, &str)] = &[
    ("a+=(b)", "+= (b)"),
    ("a {x}{}", "{ x } { }"),
    ("(a) r#f [1.0, 'b]", "r#f [1.0 , 'b]"),
    ("a", ""),
    ("a/// b", "# [doc = \" b\"]"),
    ("a//!\té\"\\", "# ! [doc = \"\\té\\\"\\\\\"]"),
    ("a/**\n\u{200b}*/", "# [doc = \"\\n\\u{200b}\"]"),
    ("a/**\07\0*/", "# [doc = \"\\x007\\0\"]"),
];

/// Asserts the printed text of all trees of a text but the first, from their cursor and from their stream.
fn check_printed(rt: &(impl Abort + AllocGlobal), cursor: Cursor<'_>, want: &str) {
    let text = format!(in rt.alloc(); "{cursor}").expect(rt, want);
    let by_stream = printed_text(rt, rt.alloc(), cursor);
    let found = (text.as_str(), by_stream.as_str());
    check_answer(rt, "by the cursor and by the stream", &found, &(want, want));
    release((text, by_stream));
}

#[test]
fn a_cursor_is_printed_as_its_stream(rt: HostRuntime) {
    for &(text, want) in PRINTED {
        let buffer = buffer_of(&rt, rt.alloc(), text);
        check_printed(&rt, after_first(&rt, &buffer), want);
        release(buffer);
    }
}

#[test]
fn a_long_list_is_printed_without_an_error(rt: HostRuntime) {
    let mut text = String::from_str(rt.alloc(), "x").expect(&rt, "x");
    for _ in 0..70_000 {
        text.push_str(" + \"y\" { z } (r#w)").expect(&rt, "a list");
    }
    let buffer = buffer_of(&rt, rt.alloc(), text.as_str());
    check_printed(&rt, buffer.begin(), text.as_str());
    release(buffer);
}

/// Pairs of texts, each with whether their trees are the same up to spans.
const COMPARED: &[(&str, &str, bool)] = &[
    ("a", "  a", true),
    ("", "", true),
    ("a", "", false),
    ("a b", "a", false),
    ("a", "r#a", false),
    ("a", "b", false),
    ("1", "1u8", false),
    ("+=", "+ =", false),
    ("(a)", "[a]", false),
    ("(a) b", "(a b)", false),
    ("/// a", "# [doc = \" a\"]", true),
    ("//! a", "# ! [doc = \" a\"]", true),
    ("/// a", "/** a*/", true),
    ("/// a", "/// b", false),
    ("/// a", "#[doc = \" ab\"]", false),
    ("/// ab", "#[doc = \" a\"]", false),
    ("/// \"\u{200b}", "#[doc = \" \\\"\\u{200b}\"]", true),
    ("/// \u{200b}", "#[doc = \" \\u{200B}\"]", false),
];

/// Whether the two cursors' streams are the same up to spans.
fn have_same_streams(
    rt: &impl Abort,
    alloc: Global,
    cursor: Cursor<'_>,
    other: Cursor<'_>,
) -> bool {
    let stream = stream_of(rt, alloc, cursor);
    let others = stream_of(rt, alloc, other);
    let same = stream.same_tokens(&others);
    release((stream, others));
    same
}

#[test]
fn cursors_are_equal_up_to_spans(rt: HostRuntime) {
    for &(text, other, want) in COMPARED {
        let buffer = buffer_of(&rt, rt.alloc(), text);
        let others = buffer_of(&rt, rt.alloc(), other);
        let (left, right) = (buffer.begin(), others.begin());
        let streams = have_same_streams(&rt, rt.alloc(), left, right);
        let found = (other, left == right, right == left, streams);
        check_answer(&rt, text, &found, &(other, want, want, want));
        release((buffer, others));
    }
}

/// Texts, each with the printed text of the trees after its generic arguments, or `none` if it doesn't begin with any.
const TURBOFISHES: &[(&str, &str)] = &[
    ("::<Vec<T>>(x)", "(x)"),
    ("::<fn() -> T, 'a> = 1", "= 1"),
    ("::<>", ""),
    ("::<T (x)", "none"),
    (":: f", "none"),
    (": :<T>(x)", "none"),
    ("<T>(x)", "none"),
];

/// The printed text of the trees after generic arguments, or `none`.
fn after_turbofish(rt: &impl Abort, alloc: Global, cursor: Cursor<'_>) -> String {
    match cursor.turbofish() {
        Some(rest) => printed_text(rt, alloc, rest),
        None => String::from_str(alloc, "none").expect(rt, "none"),
    }
}

#[test]
fn generic_arguments_end_at_their_mark(rt: HostRuntime) {
    for &(text, want) in TURBOFISHES {
        let buffer = buffer_of(&rt, rt.alloc(), text);
        let found = after_turbofish(&rt, rt.alloc(), buffer.begin());
        check_answer(&rt, text, &found.as_str(), &want);
        release((buffer, found));
    }
}
