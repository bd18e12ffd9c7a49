// Tests of streams that are built from trees, other streams and tokens.
use crate::tests::checks::{check_answer, displays, parsed, prints, shows};
use pm_span::parts::span_of;
use pm_stream::parts::group;
use pm_token::parts::punct;
use proc_macro2::{Delimiter, Group, Ident, Literal, Spacing, Span, TokenStream, TokenTree};
use std::alloc::Global;
use std::process::Abort;
use test_helpers::release;

/// The identifier `x`, which is in no file.
fn x(rt: &impl Abort, alloc: Global) -> Ident {
    Ident::new(alloc, "x", Span::call_site()).expect(rt, "x")
}

/// The stream of `x` alone.
fn only_x(rt: &impl Abort, alloc: Global) -> TokenStream {
    TokenStream::from_tree(alloc, TokenTree::Ident(x(rt, alloc))).expect(rt, "x")
}

/// The group of this stream, which is in no file.
fn group_of(delimiter: Delimiter, stream: TokenStream) -> Group {
    group(delimiter, stream, Span::call_site())
}

/// The literal `-3i32` at 1..6.
fn minus_three(rt: &impl Abort, alloc: Global) -> Literal {
    let mut literal = Literal::i32_suffixed(alloc, -3).expect(rt, "-3i32");
    literal.set_span(span_of(1, 6));
    literal
}

/// The stream of `-3i32` alone.
fn only_minus_three(rt: &impl Abort, alloc: Global) -> TokenStream {
    TokenStream::from_tree(alloc, TokenTree::Literal(minus_three(rt, alloc))).expect(rt, "-3i32")
}

/// Asserts what the stream prints, and how Debug shows it.
fn is_seen(rt: &impl Abort, alloc: Global, stream: TokenStream, printed: &str, shown: &str) {
    displays(rt, alloc, &stream, printed);
    shows(rt, alloc, &stream, shown);
    release(stream);
}

#[test]
fn a_negative_literal_is_put_in_as_its_sign_and_the_rest(rt: HostRuntime) {
    let want = "TokenStream [Punct { char: '-', spacing: Alone, span: bytes(1..6) }, \
        Literal { lit: 3i32, span: bytes(1..6) }]";
    is_seen(
        &rt,
        rt.alloc(),
        only_minus_three(&rt, rt.alloc()),
        "- 3i32",
        want,
    );
}

#[test]
fn a_mark_keeps_its_spacing(rt: HostRuntime) {
    let colon = TokenTree::Punct(punct(':', Spacing::Joint, Span::call_site()));
    let stream = TokenStream::from_tree(rt.alloc(), colon).expect(&rt, ":");
    let want = "TokenStream [Punct { char: ':', spacing: Joint }]";
    is_seen(&rt, rt.alloc(), stream, ":", want);
}

/// An empty group in braces, and one of `x` for each delimiter.
fn groups(rt: &impl Abort, alloc: Global) -> Vec<Group> {
    let mut groups = Vec::new(alloc);
    let empty = group_of(Delimiter::Brace, TokenStream::new(alloc));
    groups.push(empty).expect(rt, "a group");
    for &delimiter in &[
        Delimiter::Brace,
        Delimiter::Parenthesis,
        Delimiter::Bracket,
        Delimiter::None,
    ] {
        let group = group_of(delimiter, only_x(rt, alloc));
        groups.push(group).expect(rt, "a group");
    }
    groups
}

#[test]
fn groups_are_put_after_one_another(rt: HostRuntime) {
    let mut stream = TokenStream::new(rt.alloc());
    let groups = groups(&rt, rt.alloc());
    stream.extend_groups(groups).expect(&rt, "the groups");
    prints(&rt, rt.alloc(), stream, "{ } { x } (x) [x] x");
}

fn add_identifiers(rt: &impl Abort, alloc: Global, stream: &mut TokenStream) {
    let two = [x(rt, alloc), x(rt, alloc)];
    stream.extend_idents(two).expect(rt, "x x");
}

fn add_marks(rt: &impl Abort, stream: &mut TokenStream) {
    let two = [
        punct('+', Spacing::Joint, Span::call_site()),
        punct('=', Spacing::Alone, Span::call_site()),
    ];
    stream.extend_puncts(two).expect(rt, "+=");
}

fn add_literals(rt: &impl Abort, alloc: Global, stream: &mut TokenStream) {
    let one = Literal::u8_unsuffixed(alloc, 1).expect(rt, "1");
    let two = [minus_three(rt, alloc), one];
    stream.extend_literals(two).expect(rt, "-3i32 1");
}

fn add_trees(rt: &impl Abort, alloc: Global, stream: &mut TokenStream) {
    let plus = TokenTree::Punct(punct('+', Spacing::Alone, Span::call_site()));
    let two = [plus, TokenTree::Literal(minus_three(rt, alloc))];
    stream.extend_trees(two).expect(rt, "+ -3i32");
}

#[test]
fn tokens_of_each_kind_are_put_in(rt: HostRuntime) {
    let alloc = rt.alloc();
    let mut stream = TokenStream::new(alloc);
    add_identifiers(&rt, alloc, &mut stream);
    add_marks(&rt, &mut stream);
    add_literals(&rt, alloc, &mut stream);
    add_trees(&rt, alloc, &mut stream);
    prints(&rt, alloc, stream, "x x += - 3i32 1 + - 3i32");
}

/// A clone of the stream.
fn copy_of(rt: &impl Abort, stream: &TokenStream) -> TokenStream {
    stream.clone().expect(rt, "a clone")
}

/// The stream of an empty stream, of the other stream, and of `-3i32`.
fn three_streams(rt: &impl Abort, alloc: Global, other: &TokenStream) -> TokenStream {
    let again = copy_of(rt, other);
    let minus = only_minus_three(rt, alloc);
    let nothing = TokenStream::new(alloc);
    TokenStream::from_streams(alloc, [nothing, again, minus]).expect(rt, "three")
}

/// Appends the trees of the other stream twice.
fn add_twice(rt: &impl Abort, stream: &mut TokenStream, other: &TokenStream) {
    let two = [copy_of(rt, other), copy_of(rt, other)];
    stream.extend_streams(two).expect(rt, "two streams");
}

#[test]
fn streams_are_put_after_one_another(rt: HostRuntime) {
    let x = only_x(&rt, rt.alloc());
    let mut stream = three_streams(&rt, rt.alloc(), &x);
    add_twice(&rt, &mut stream, &x);
    prints(&rt, rt.alloc(), stream, "x - 3i32 x x");
    prints(&rt, rt.alloc(), x, "x");
}

#[test]
fn a_stream_that_is_extended_leaves_its_clone(rt: HostRuntime) {
    let alloc = rt.alloc();
    let mut stream = only_x(&rt, alloc);
    let kept = copy_of(&rt, &stream);
    stream.extend_idents([x(&rt, alloc)]).expect(&rt, "x");
    prints(&rt, alloc, stream, "x x");
    prints(&rt, alloc, kept, "x");
}

#[test]
fn a_stream_is_extended_by_its_own_clone(rt: HostRuntime) {
    let alloc = rt.alloc();
    let mut stream = parsed(&rt, alloc, "a +");
    let kept = copy_of(&rt, &stream);
    let again = copy_of(&rt, &kept);
    stream.extend_streams([again]).expect(&rt, "a +");
    prints(&rt, alloc, stream, "a + a +");
    prints(&rt, alloc, kept, "a +");
}

/// The stream of the group.
fn inside_of(rt: &impl Abort, group: &Group) -> TokenStream {
    group.stream().expect(rt, "the stream of a group")
}

/// A clone of the group.
fn copy_of_group(rt: &impl Abort, group: &Group) -> Group {
    group.clone().expect(rt, "a clone")
}

#[test]
fn a_stream_of_a_group_that_is_extended_leaves_the_group(rt: HostRuntime) {
    let alloc = rt.alloc();
    let group = group_of(Delimiter::Parenthesis, only_x(&rt, alloc));
    let mut inside = inside_of(&rt, &group);
    let again = copy_of_group(&rt, &group);
    inside.extend_groups([again]).expect(&rt, "(x)");
    prints(&rt, alloc, inside, "x (x)");
    prints(&rt, alloc, inside_of(&rt, &group), "x");
    release(group);
}

/// The trees `x` and `-3i32`.
fn two_trees(rt: &impl Abort, alloc: Global) -> Vec<TokenTree> {
    let mut trees = Vec::new(alloc);
    trees.push(TokenTree::Ident(x(rt, alloc))).expect(rt, "x");
    let minus = TokenTree::Literal(minus_three(rt, alloc));
    trees.push(minus).expect(rt, "-3i32");
    trees
}

/// The stream of the trees `x` and `-3i32`, as std collects it.
fn collect_trees(rt: &impl Abort, alloc: Global) -> TokenStream {
    let stream: Result<TokenStream, _> = two_trees(rt, alloc).into_iter().collect(alloc);
    stream.expect(rt, "a stream")
}

/// The stream of the trees `x` and `-3i32` twice, as std collects it.
fn collect_twice(rt: &impl Abort, alloc: Global) -> TokenStream {
    let stream = collect_trees(rt, alloc);
    let mut streams = Vec::new(alloc);
    streams.push(copy_of(rt, &stream)).expect(rt, "a stream");
    streams.push(stream).expect(rt, "a stream");
    let both: Result<TokenStream, _> = streams.into_iter().collect(alloc);
    both.expect(rt, "both streams")
}

/// Extends the stream by a tree, a stream and a token of each kind.
fn extend_by_each(rt: &impl Abort, alloc: Global, stream: &mut TokenStream) {
    let tree = TokenTree::Ident(x(rt, alloc));
    stream.extend([tree]).expect(rt, "a tree");
    stream.extend([only_x(rt, alloc)]).expect(rt, "a stream");
    let group = group_of(Delimiter::Bracket, TokenStream::new(alloc));
    stream.extend([group]).expect(rt, "a group");
    stream.extend([x(rt, alloc)]).expect(rt, "an identifier");
    let plus = punct('+', Spacing::Alone, Span::call_site());
    stream.extend([plus]).expect(rt, "a mark");
    let minus = minus_three(rt, alloc);
    stream.extend([minus]).expect(rt, "a literal");
}

#[test]
fn std_collects_and_extends(rt: HostRuntime) {
    let mut stream = collect_twice(&rt, rt.alloc());
    extend_by_each(&rt, rt.alloc(), &mut stream);
    let want = "x - 3i32 x - 3i32 x x [] x + - 3i32";
    prints(&rt, rt.alloc(), stream, want);
}

#[test]
fn many_trees_take_a_step_each(rt: HostRuntime) {
    let mut stream = TokenStream::new(rt.alloc());
    for _ in 0..100000 {
        let plus = punct('+', Spacing::Alone, Span::call_site());
        stream.extend_puncts([plus]).expect(&rt, "+");
    }
    check_answer(&rt, "many trees", &stream.trees().len(), &100000);
    release(stream);
}

#[test]
fn an_empty_group_gives_an_empty_stream(rt: HostRuntime) {
    for &delimiter in &[
        Delimiter::Parenthesis,
        Delimiter::Bracket,
        Delimiter::Brace,
        Delimiter::None,
    ] {
        let group = group_of(delimiter, TokenStream::new(rt.alloc()));
        let again = copy_of_group(&rt, &group);
        prints(&rt, rt.alloc(), inside_of(&rt, &group), "");
        prints(&rt, rt.alloc(), inside_of(&rt, &again), "");
        release((group, again));
    }
}
