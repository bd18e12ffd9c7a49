// Tests of streams that no text parses to: with groups without delimiters, or trees that are in no file.
ghost use Rattle.std.specs.Prelude.{IfOk};
ghost use Rattle.pm_stream.specs.Trees.{GoesInside};

use crate::tests::checks::{check_answer, display_text, prints, shows};
use pm_span::Span;
use pm_span::parts::span_of;
use pm_stream::parts::{group, stream};
use pm_stream::{TokenStream, TokenTree};
use pm_token::parts::{ident, punct};
use pm_token::{Delimiter, Spacing};
use std::alloc::{AllocError, Global};
use std::process::Abort;
use test_helpers::release;

fn name(alloc: Global, span: Span) -> Result<TokenTree, AllocError>
    ensures { IfOk result GoesInside }
{
    Ok(TokenTree::Ident(ident(alloc, "_", false, span)?))
}

fn plus(spacing: Spacing) -> TokenTree
    ensures { GoesInside result }
{
    TokenTree::Punct(punct('+', spacing, Span::call_site()))
}

/// The group of this stream, with this span.
pub fn group_of(delimiter: Delimiter, stream: TokenStream, span: Span) -> TokenTree
    ensures { GoesInside result }
{
    TokenTree::Group(group(delimiter, stream, span))
}

/// The stream of this tree alone.
pub fn one(alloc: Global, tree: TokenTree) -> Result<TokenStream, AllocError>
    requires { GoesInside tree }
{
    let _ = tree.span();
    stream(alloc, vec![in alloc; tree]?)
}

fn three(
    alloc: Global,
    first: TokenTree,
    second: TokenTree,
    third: TokenTree,
) -> Result<TokenStream, AllocError>
    requires first { GoesInside first }
    requires second { GoesInside second }
    requires third { GoesInside third }
{
    let _ = first.span();
    let _ = second.span();
    let _ = third.span();
    stream(alloc, vec![in alloc; first, second, third]?)
}

/// The group without trees, which is in no file.
pub fn empty_group(alloc: Global, delimiter: Delimiter) -> TokenTree
    ensures { GoesInside result }
{
    group_of(delimiter, TokenStream::new(alloc), Span::call_site())
}

fn name_between(alloc: Global, delimiter: Delimiter) -> Result<TokenTree, AllocError> {
    let inside = one(alloc, name(alloc, Span::call_site())?)?;
    Ok(group_of(delimiter, inside, Span::call_site()))
}

/// Asserts what a group is printed as when it is empty, and when it has a name in it.
fn check_delimiter(rt: &impl Abort, alloc: Global, delimiter: Delimiter, empty: &str, full: &str) {
    prints(rt, alloc, empty_group(alloc, delimiter), empty);
    let group = name_between(alloc, delimiter).expect(rt, full);
    prints(rt, alloc, group, full);
}

#[test]
fn a_group_is_printed_by_its_delimiter(rt: HostRuntime) {
    let alloc = rt.alloc();
    check_delimiter(&rt, alloc, Delimiter::Parenthesis, "()", "(_)");
    check_delimiter(&rt, alloc, Delimiter::Brace, "{ }", "{ _ }");
    check_delimiter(&rt, alloc, Delimiter::Bracket, "[]", "[_]");
    check_delimiter(&rt, alloc, Delimiter::None, "", "_");
}

fn name_in_parentheses(alloc: Global) -> Result<TokenStream, AllocError> {
    let inside = one(alloc, name(alloc, span_of(2, 3))?)?;
    one(
        alloc,
        group_of(Delimiter::Parenthesis, inside, span_of(1, 4)),
    )
}

#[test]
fn trees_are_shown_with_their_spans(rt: HostRuntime) {
    let stream = name_in_parentheses(rt.alloc()).expect(&rt, "(_)");
    let want = "TokenStream [Group { delimiter: Parenthesis, stream: TokenStream [\
        Ident { sym: _, span: bytes(2..3) }], span: bytes(1..4) }]";
    shows(&rt, rt.alloc(), &stream, want);
    release(stream);
}

#[test]
fn a_mark_with_no_span_is_shown_on_lines(rt: HostRuntime) {
    let stream = one(rt.alloc(), plus(Spacing::Alone)).expect(&rt, "+");
    let shown = format!(in rt.alloc(); "{stream:#?}").expect(&rt, "+");
    let want = "TokenStream [\n    Punct {\n        char: '+',\n        spacing: Alone,\n    },\n]";
    check_answer(&rt, "+", &shown.as_str(), &want);
    release(stream);
}

/// Bracket groups inside one another, `levels` deep, with marks before and after each.
fn deep(alloc: Global, levels: u32) -> Result<TokenStream, AllocError> {
    let mut stream = TokenStream::new(alloc);
    for _ in 0..levels {
        let deep = group_of(Delimiter::Bracket, stream, Span::call_site());
        stream = three(alloc, plus(Spacing::Joint), deep, plus(Spacing::Joint))?;
    }
    Ok(stream)
}

#[test]
fn groups_nest_deep_without_stack(rt: HostRuntime) {
    let stream = deep(rt.alloc(), 300000).expect(&rt, "deep groups");
    let printed = display_text(&rt, rt.alloc(), &stream);
    let row = "each level is `+[] +`";
    check_answer(&rt, row, &printed.as_str().len(), &(5 * 300000));
    release(stream);
}
