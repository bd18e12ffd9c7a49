// Tests of how Debug shows streams and trees, and of what an empty stream prints.
use crate::tests::built_streams::{empty_group, group_of, one};
use crate::tests::checks::{check_answer, displays, has_no_width, parsed, shows};
use proc_macro2::{Delimiter, Ident, Span, TokenStream, TokenTree};
use std::alloc::Global;
use std::process::Abort;
use test_helpers::release;

#[test]
fn an_empty_stream_is_printed_as_nothing(rt: HostRuntime) {
    let alloc = rt.alloc();
    let made = TokenStream::new(alloc);
    displays(&rt, alloc, &made, "");
    shows(&rt, alloc, &made, "TokenStream []");
    release(made);
}

/// The stream of a raw identifier that is in no file.
fn raw_name(rt: &impl Abort, alloc: Global, name: &str) -> TokenStream {
    let ident = Ident::new_raw(alloc, name, Span::call_site()).expect(rt, name);
    one(alloc, TokenTree::Ident(ident)).expect(rt, name)
}

#[test]
fn a_group_at_0_to_0_shows_no_span(rt: HostRuntime) {
    let alloc = rt.alloc();
    let nothing = empty_group(alloc, Delimiter::None);
    shows(
        &rt,
        alloc,
        &nothing,
        "Group { delimiter: None, stream: TokenStream [] }",
    );
    let inside = raw_name(&rt, alloc, "ab");
    let parentheses = group_of(Delimiter::Parenthesis, inside, Span::call_site());
    shows(
        &rt,
        alloc,
        &parentheses,
        "Group { delimiter: Parenthesis, stream: TokenStream [Ident { sym: r#ab }] }",
    );
    release((nothing, parentheses));
}

/// How Debug shows the stream of the text in a new map, on several lines.
fn shown_on_lines(rt: &impl Abort, alloc: Global, text: &str) -> String {
    let stream = parsed(rt, alloc, text);
    let shown = format!(in alloc; "{stream:#?}").expect(rt, text);
    release(stream);
    shown
}

#[test]
fn a_stream_is_shown_on_lines(rt: HostRuntime) {
    let shown = shown_on_lines(&rt, rt.alloc(), "r#fn(b'x')");
    let want = "TokenStream [
    Ident {
        sym: r#fn,
        span: bytes(1..5),
    },
    Group {
        delimiter: Parenthesis,
        stream: TokenStream [
            Literal {
                lit: b'x',
                span: bytes(6..10),
            },
        ],
        span: bytes(5..11),
    },
]";
    check_answer(&rt, "r#fn(b'x')", &shown.as_str(), &want);
}

/// Asserts that the trees of the text are displayed as these texts, whatever width the format has.
fn trees_have_no_width(rt: &impl Abort, alloc: Global, text: &str, wanted: &[&str]) {
    let stream = parsed(rt, alloc, text);
    has_no_width(rt, alloc, &stream, text);
    for (tree, want) in stream.trees().iter().zip(wanted) {
        has_no_width(rt, alloc, tree, want);
    }
    release(stream);
}

#[test]
fn a_width_or_a_precision_changes_no_stream(rt: HostRuntime) {
    let trees = &["r#ab", "1.5", "+", "(x)"];
    trees_have_no_width(&rt, rt.alloc(), "r#ab 1.5 + (x)", trees);
}
