// Tests of the iterator that takes a stream apart.
use crate::tests::built_streams::one;
use crate::tests::checks::{
    check_answer, displays, iterator_of, parsed, prints, repeat_parts, shows,
};
use proc_macro2::{TokenStream, TokenTree, token_stream};
use std::alloc::Global;
use std::fmt::Display;
use std::process::Abort;
use test_helpers::release;

/// The printed text of each tree that the iterator gives, in brackets.
fn bracketed_trees(rt: &impl Abort, alloc: Global, trees: token_stream::IntoIter) -> String {
    let mut all = String::new(alloc);
    for tree in trees {
        add_bracketed(rt, alloc, &mut all, tree);
    }
    all
}

/// Appends the printed text of the value, in brackets.
fn add_bracketed<T: Display + Drop>(rt: &impl Abort, alloc: Global, all: &mut String, value: T) {
    let text = format!(in alloc; "<{value}>").expect(rt, "a text");
    all.push_str(text.as_str()).expect(rt, "a text");
}

/// The iterator over the trees of the stream.
fn trees_of(rt: &impl Abort, stream: TokenStream) -> token_stream::IntoIter {
    iterator_of(stream).expect(rt, "an iterator")
}

/// The iterator over the trees of the text.
fn trees_in(rt: &impl Abort, alloc: Global, text: &str) -> token_stream::IntoIter {
    trees_of(rt, parsed(rt, alloc, text))
}

/// Drops the next tree of the iterator, if there is one.
fn skip(trees: &mut token_stream::IntoIter) {
    release(trees.next());
}

/// Asserts what the `size_hint` of the iterator is.
fn hints_at(rt: &impl Abort, trees: &token_stream::IntoIter, count: usize) {
    check_answer(rt, "size_hint", &trees.size_hint(), &(count, Some(count)));
}

/// Asserts whether the iterator gives another tree, and drops the tree.
fn has_next(rt: &impl Abort, trees: &mut token_stream::IntoIter, want: bool) {
    let next = trees.next();
    check_answer(rt, "the next tree", &next.is_some(), &want);
    release(next);
}

/// Asserts which trees the iterator gives.
fn gives(rt: &impl Abort, alloc: Global, trees: token_stream::IntoIter, want: &str) {
    let all = bracketed_trees(rt, alloc, trees);
    check_answer(rt, want, &all.as_str(), &want);
}

#[test]
fn groups_are_given_whole(rt: HostRuntime) {
    let alloc = rt.alloc();
    let trees = trees_in(&rt, alloc, "a b (c d) e");
    hints_at(&rt, &trees, 4);
    gives(&rt, alloc, trees, "<a><b><(c d)><e>");
    let none = trees_of(&rt, TokenStream::new(alloc));
    hints_at(&rt, &none, 0);
    gives(&rt, alloc, none, "");
}

#[test]
fn a_copy_of_a_half_used_iterator_gives_the_rest(rt: HostRuntime) {
    let alloc = rt.alloc();
    let mut trees = trees_in(&rt, alloc, "a b (c d) e");
    skip(&mut trees);
    skip(&mut trees);
    let copy = trees.clone().expect(&rt, "a copy");
    hints_at(&rt, &trees, 2);
    hints_at(&rt, &copy, 2);
    gives(&rt, alloc, trees, "<(c d)><e>");
    gives(&rt, alloc, copy, "<(c d)><e>");
}

/// The printed text of each tree of the stream, as a stream of that tree alone, in brackets. Each tree from the
/// iterator may be put into a stream again, which needs no proof here.
fn each_alone(rt: &impl Abort, alloc: Global, stream: TokenStream) -> String {
    let mut all = String::new(alloc);
    for tree in trees_of(rt, stream) {
        let alone = one(alloc, tree).expect(rt, "a stream");
        add_bracketed(rt, alloc, &mut all, alone);
    }
    all
}

#[test]
fn each_tree_may_stand_in_another_stream(rt: HostRuntime) {
    let alloc = rt.alloc();
    let stream = parsed(&rt, alloc, "a (b c) -1 'd \"\"");
    let all = each_alone(&rt, alloc, stream);
    let want = "<a><(b c)><-><1><'><d><\"\">";
    check_answer(&rt, want, &all.as_str(), &want);
}

#[test]
fn an_iterator_ends_again_after_its_end(rt: HostRuntime) {
    let mut trees = trees_in(&rt, rt.alloc(), "a");
    has_next(&rt, &mut trees, true);
    has_next(&rt, &mut trees, false);
    has_next(&rt, &mut trees, false);
    release(trees);
}

#[test]
fn an_iterator_shows_the_trees_that_are_left(rt: HostRuntime) {
    let alloc = rt.alloc();
    let mut trees = trees_in(&rt, alloc, "a (b) +");
    skip(&mut trees);
    shows(
        &rt,
        alloc,
        &trees,
        "TokenStream [Group { delimiter: Parenthesis, stream: TokenStream [\
         Ident { sym: b, span: bytes(4..5) }], span: bytes(3..6) }, \
         Punct { char: '+', spacing: Alone, span: bytes(7..8) }]",
    );
    skip(&mut trees);
    skip(&mut trees);
    shows(&rt, alloc, &trees, "TokenStream []");
    release(trees);
}

#[test]
fn a_shared_stream_keeps_what_the_other_gives(rt: HostRuntime) {
    let alloc = rt.alloc();
    let stream = parsed(&rt, alloc, "a (b) +");
    let mut trees = trees_of(&rt, stream.clone().expect(&rt, "a clone"));
    skip(&mut trees);
    displays(&rt, alloc, &stream, "a (b) +");
    gives(&rt, alloc, trees, "<(b)><+>");
    displays(&rt, alloc, &stream, "a (b) +");
    release(stream);
}

#[test]
fn an_iterator_over_deep_groups_is_dropped_in_little_stack(rt: HostRuntime) {
    let alloc = rt.alloc();
    let text = repeat_parts(&rt, alloc, &[("[", 100_000), ("]", 100_000)]);
    let trees = trees_in(&rt, alloc, text.as_str());
    hints_at(&rt, &trees, 1);
    let mut given = trees_in(&rt, alloc, text.as_str());
    has_next(&rt, &mut given, true);
    release((trees, given));
}

/// The upper bound in an iterator's `size_hint`: none, or the greatest number. The lower bound is 0.
#[derive(Clone, Copy)]
enum Most {
    Unknown,
    Greatest,
}

/// An iterator over the trees of another one, with a `size_hint` that says little.
#[derive(Drop)]
struct Hinting {
    trees: token_stream::IntoIter,
    most: Most,
}

impl Iterator for Hinting {
    ghost use Rattle.std.specs.Iterator.{YieldsFirst, item_count};

    type Item = TokenTree;

    ghost next_gives = { YieldsFirst (λ it. it.trees) };

    ghost remaining = { item_count (λ it. it.trees) };

    fn next(&mut self) -> Option<TokenTree> {
        self.trees.next()
    }

    fn size_hint(&self) -> (usize, Option<usize>) {
        let _ = self.trees.size_hint();
        match self.most {
            Most::Unknown => (0, None),
            Most::Greatest => (0, Some(usize::MAX)),
        }
    }
}

/// Asserts what `x` is extended to by the trees of the text, from an iterator with this upper bound.
fn extends(rt: &impl Abort, alloc: Global, text: &str, most: Most, want: &str) {
    let mut stream = parsed(rt, alloc, "x");
    let trees = trees_in(rt, alloc, text);
    stream
        .extend_trees(Hinting { trees, most })
        .expect(rt, text);
    prints(rt, alloc, stream, want);
}

#[test]
fn what_an_iterator_hints_at_changes_nothing(rt: HostRuntime) {
    for most in [Most::Unknown, Most::Greatest] {
        extends(&rt, rt.alloc(), "a (b) +", most, "x a (b) +");
        extends(&rt, rt.alloc(), "", most, "x");
    }
}
