use crate::tests::checks::{check_answer, parsed, shows};
use pm_span::Span;
use pm_span::parts::{bounds, span_of};
use pm_stream::parts::group;
use proc_macro2::extra::DelimSpan;
use proc_macro2::{Delimiter, Group, TokenStream, TokenTree};
use std::alloc::Global;
use std::process::Abort;
use test_helpers::release;

/// The spans of a whole group, of its opener and of its closer.
type GroupSpans = ((u32, u32), (u32, u32), (u32, u32));

/// The spans of the group, of its opener and of its closer.
fn spans_of(group: &Group) -> GroupSpans {
    (
        bounds(group.span()),
        bounds(group.span_open()),
        bounds(group.span_close()),
    )
}

fn spans_of_delimiters(span: DelimSpan) -> GroupSpans {
    (
        bounds(span.join()),
        bounds(span.open()),
        bounds(span.close()),
    )
}

/// Asserts the spans of the group and its delimiters.
fn check_spans(rt: &impl Abort, group: &Group, want: GroupSpans) {
    check_answer(rt, "the group", &spans_of(group), &want);
    let found = spans_of_delimiters(group.delim_span());
    check_answer(rt, "its delim_span", &found, &want);
}

/// Asserts the spans of the first tree of the text in a new map. The tree must be a group.
fn check_first(rt: &(impl Abort + AllocGlobal), text: &str, want: GroupSpans) {
    let stream = parsed(rt, rt.alloc(), text);
    match stream.trees().get(0) {
        Some(TokenTree::Group(group)) => check_spans(rt, group, want),
        _ => check_answer(rt, text, &"no group", &"a group"),
    }
    release(stream);
}

#[test]
fn a_group_opens_and_closes_at_its_delimiters(rt: HostRuntime) {
    check_first(&rt, "(x)", ((1, 4), (1, 2), (3, 4)));
    check_first(&rt, "[]", ((1, 3), (1, 2), (2, 3)));
    check_first(&rt, "{ \u{e9} }", ((1, 6), (1, 2), (5, 6)));
}

#[test]
fn a_group_whose_span_was_set_opens_and_closes_there(rt: HostRuntime) {
    let inside = TokenStream::new(rt.alloc());
    let mut group = group(Delimiter::Parenthesis, inside, span_of(1, 4));
    check_spans(&rt, &group, ((1, 4), (1, 2), (3, 4)));
    group.set_span(Span::call_site());
    check_spans(&rt, &group, ((0, 0), (0, 0), (0, 0)));
    group.set_span(span_of(2, 3));
    check_spans(&rt, &group, ((2, 3), (2, 3), (2, 3)));
    group.set_span(span_of(4294967295, 4294967295));
    let end = (4294967295, 4294967295);
    check_spans(&rt, &group, (end, end, end));
    release(group);
}

#[test]
fn the_spans_of_delimiters_are_shown_as_the_whole(rt: HostRuntime) {
    let inside = TokenStream::new(rt.alloc());
    let group = group(Delimiter::Brace, inside, span_of(1, 4));
    shows(&rt, rt.alloc(), &group.delim_span(), "bytes(1..4)");
    release(group);
}

/// A group of the group `[]`, whose span is 1..3.
fn nested_group(rt: &impl Abort, alloc: Global) -> TokenTree {
    let inside = parsed(rt, alloc, "[]");
    TokenTree::Group(group(Delimiter::Brace, inside, Span::call_site()))
}

#[test]
fn a_tree_whose_span_is_set_keeps_those_inside(rt: HostRuntime) {
    let mut tree = nested_group(&rt, rt.alloc());
    tree.set_span(span_of(7, 9));
    let want = "Group { delimiter: Brace, stream: TokenStream [\
        Group { delimiter: Bracket, stream: TokenStream [], span: bytes(1..3) }], span: bytes(7..9) }";
    shows(&rt, rt.alloc(), &tree, want);
    release(tree);
}
