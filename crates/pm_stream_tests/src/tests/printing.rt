// Tests that Display fails only if its writer does. No contract can say so, because the trait has no word for a write
// that fails.
use crate::tests::checks::{parsed, repeat_parts};
use pm_stream::TokenTree;
use std::fmt::Display;
use std::process::Abort;
use test_helpers::release;

/// Asserts that the value is written as this text, without an error.
fn is_written<D: Display>(rt: &(impl Abort + AllocGlobal), value: &D, text: &str) {
    let mut found = String::new(rt.alloc());
    let written = write!(&mut found, "{value}").is_ok();
    assert!(rt; written && found.as_str() == text);
}

/// Asserts that the text is one tree, and that the stream, this tree, and the tree as a group if it is one, are written
/// as the text.
fn one_tree_is_written(rt: &(impl Abort + AllocGlobal), text: &str) {
    let stream = parsed(rt, rt.alloc(), text);
    is_written(rt, &stream, text);
    tree_is_written(rt, stream.trees().first(), text);
    release(stream);
}

/// Asserts that there is a tree, and that it, and the tree as a group if it is one, are written as the text.
fn tree_is_written(rt: &(impl Abort + AllocGlobal), tree: Option<&TokenTree>, text: &str) {
    let tree = tree.expect(rt, "it has a tree");
    is_written(rt, tree, text);
    if let TokenTree::Group(group) = tree {
        is_written(rt, group, text);
    }
}

#[test]
fn a_long_literal_is_printed_without_an_error(rt: HostRuntime) {
    let text = repeat_parts(&rt, rt.alloc(), &[("\"", 1), ("a", 1_100_000), ("\"", 1)]);
    one_tree_is_written(&rt, text.as_str());
}

#[test]
fn deep_groups_are_printed_without_an_error(rt: HostRuntime) {
    let text = repeat_parts(&rt, rt.alloc(), &[("(", 70_000), ("x", 1), (")", 70_000)]);
    one_tree_is_written(&rt, text.as_str());
}

#[test]
fn a_long_name_is_printed_without_an_error(rt: HostRuntime) {
    let text = repeat_parts(&rt, rt.alloc(), &[("r#", 1), ("a", 1_100_000)]);
    one_tree_is_written(&rt, text.as_str());
}

#[test]
fn a_long_list_is_printed_without_an_error(rt: HostRuntime) {
    let text = repeat_parts(&rt, rt.alloc(), &[("x + \"y\" (z) ", 70_000), ("'a", 1)]);
    let stream = parsed(&rt, rt.alloc(), text.as_str());
    is_written(&rt, &stream, text.as_str());
    release(stream);
}

#[test]
fn a_long_list_in_a_group_is_printed_without_an_error(rt: HostRuntime) {
    for (front, back) in [("(x", ")"), ("[x", "]"), ("{ x", " }")] {
        let text = repeat_parts(&rt, rt.alloc(), &[(front, 1), (" x ;", 130_000), (back, 1)]);
        one_tree_is_written(&rt, text.as_str());
    }
}
