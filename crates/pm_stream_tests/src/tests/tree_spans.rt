//! Callers of the look-ups of spans. They need neither a check nor a proof that the map holds the spans.
ghost use Rattle.pm_stream.specs.HeldSpans.{HoldsTree};

use crate::tests::checks::check_answer;
use proc_macro2::{LineColumn, Literal, ParseError, SourceMap, TokenStream, TokenTree};
use test_helpers::release;

/// Where the last tree of the text begins that is in no group.
fn start_of_last(text: &str, map: &mut SourceMap) -> Result<Option<LineColumn>, ParseError> {
    let stream = TokenStream::from_str(text, map)?;
    let mut last = None;
    for tree in stream.trees() {
        last = Some(tree.span().start(map));
    }
    Ok(last)
}

/// Where the last tree of the text begins that is in at most one group.
fn start_of_last_inside(text: &str, map: &mut SourceMap) -> Result<Option<LineColumn>, ParseError> {
    let stream = TokenStream::from_str(text, map)?;
    let mut last = None;
    for tree in stream.trees() {
        last = Some(start_of_last_in(tree, map));
    }
    Ok(last)
}

/// Where the tree begins, or the last tree right inside it if it has one.
fn start_of_last_in(tree: &TokenTree, map: &SourceMap) -> LineColumn
    requires { HoldsTree map.now tree.now }
{
    let mut last = tree.span().start(map);
    if let TokenTree::Group(group) = tree {
        for inner in group.stream_ref().trees() {
            last = inner.span().start(map);
        }
    }
    last
}

/// Where the literal that is the whole text begins.
fn start_of_literal(text: &str, map: &mut SourceMap) -> Result<LineColumn, ParseError> {
    let literal = Literal::from_str(text, map)?;
    Ok(literal.span().start(map))
}

#[test]
fn the_map_holds_each_span_of_what_was_read(rt: HostRuntime) {
    let mut map = SourceMap::new(rt.alloc());
    let text = "a\n (b\nc)";
    let start = start_of_last(text, &mut map).expect(&rt, text);
    check_answer(&rt, text, &start, &Some(LineColumn { line: 2, column: 1 }));
    let start = start_of_last_inside(text, &mut map).expect(&rt, text);
    check_answer(&rt, text, &start, &Some(LineColumn { line: 3, column: 0 }));
    let start = start_of_literal("-1u8", &mut map).expect(&rt, "-1u8");
    check_answer(&rt, "-1u8", &start, &LineColumn { line: 1, column: 0 });
    release(map);
}
