// Tests of groups and trees that are made by hand.
use crate::tests::checks::{displays, iterator_of, parsed, prints, shows};
use proc_macro2::{Delimiter, Group, Ident, Literal, Punct, Spacing, Span, TokenStream, TokenTree};
use std::alloc::Global;
use std::process::Abort;
use test_helpers::release;

/// The group of the trees of the text.
fn group_of(rt: &impl Abort, alloc: Global, delimiter: Delimiter, text: &str) -> Group {
    Group::new(delimiter, parsed(rt, alloc, text))
}

#[test]
fn a_new_group_stands_nowhere(rt: HostRuntime) {
    let alloc = rt.alloc();
    let group = group_of(&rt, alloc, Delimiter::Brace, "x");
    displays(&rt, alloc, &group, "{ x }");
    let want =
        "Group { delimiter: Brace, stream: TokenStream [Ident { sym: x, span: bytes(1..2) }] }";
    shows(&rt, alloc, &group, want);
    release(group);
}

/// The stream of the group.
fn inside_of(rt: &impl Abort, group: &Group) -> TokenStream {
    group.stream().expect(rt, "the stream of a group")
}

/// Takes the first tree of a stream of the group, and drops it and the rest.
fn take_first(rt: &impl Abort, group: &Group) {
    let mut trees = iterator_of(inside_of(rt, group)).expect(rt, "an iterator");
    release(trees.next());
    release(trees);
}

#[test]
fn a_group_keeps_the_trees_of_its_stream(rt: HostRuntime) {
    let alloc = rt.alloc();
    let group = group_of(&rt, alloc, Delimiter::Parenthesis, "x + y");
    take_first(&rt, &group);
    displays(&rt, alloc, &group, "(x + y)");
    prints(&rt, alloc, inside_of(&rt, &group), "x + y");
    release(group);
}

/// The raw identifier `r#fn`.
fn raw_fn(rt: &impl Abort, alloc: Global) -> TokenTree {
    TokenTree::from(Ident::new_raw(alloc, "fn", Span::call_site()).expect(rt, "r#fn"))
}

/// The literal `7u8`.
fn seven(rt: &impl Abort, alloc: Global) -> TokenTree {
    TokenTree::from(Literal::u8_suffixed(alloc, 7).expect(rt, "7u8"))
}

#[test]
fn each_kind_of_token_becomes_a_tree(rt: HostRuntime) {
    let alloc = rt.alloc();
    let group = Group::new(Delimiter::Bracket, TokenStream::new(alloc));
    prints(&rt, alloc, TokenTree::from(group), "[]");
    prints(&rt, alloc, raw_fn(&rt, alloc), "r#fn");
    let punct = Punct::new('+', Spacing::Joint);
    prints(&rt, alloc, TokenTree::from(punct), "+");
    prints(&rt, alloc, seven(&rt, alloc), "7u8");
}
