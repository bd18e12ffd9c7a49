// Tests how many bytes a tree takes, because a long text has many trees.
use crate::tests::checks::check_answer;
use proc_macro2::{Group, TokenStream, TokenTree};
use std::mem::size_of;
use std::process::Abort;

/// Asserts that a value of a type takes `want` bytes.
fn take(rt: &impl Abort, name: &str, bytes: usize, want: usize) {
    check_answer(rt, name, &bytes, &want);
}

#[test]
fn trees_take_no_more_bytes_than_this(rt: HostRuntime) {
    take(&rt, "Group", size_of::<Group>(), 32);
    take(&rt, "TokenStream", size_of::<TokenStream>(), 16);
    take(&rt, "TokenTree", size_of::<TokenTree>(), 40);
}
