// Errors as code that makes the compiler report them.
use crate::tests::checks::{Answer, Reads, check, check_trees, parsed};
use declarations::{compile_error, parse_type_item};
use proc_macro2::{Span, TokenStream, TokenTree};
use std::alloc::{AllocError, Global};
use test_helpers::release;

/// The code for the error of `parse_type_item`, or for a text of one's own.
///
/// An answer has the code, `at` and the span of its first tree. Each tree with another span, also in a group, adds a
/// comma and that span.
#[derive(Clone, Copy)]
struct CodeReads<'a> {
    alloc: Global,
    /// The text, which is reported at the last tree, or at no place if there are no trees.
    text: Option<&'a str>,
}

impl Reads for CodeReads<'_> {
    fn put(&self, trees: &[TokenTree], out: &mut Answer) {
        match self.text {
            Some(text) => put_code(compile_error(self.alloc, text, last_span(trees)), out),
            None => match parse_type_item(trees) {
                Ok(_) => out.text("no error"),
                Err(fault) => put_code(fault.to_compile_error(self.alloc), out),
            },
        }
    }
}

/// The span of the last tree, or of no place if there are no trees.
fn last_span(trees: &[TokenTree]) -> Span {
    match trees.last() {
        Some(tree) => tree.span(),
        None => Span::call_site(),
    }
}

/// Writes the code and the spans of its trees.
fn put_code(code: Result<TokenStream, AllocError>, out: &mut Answer) {
    match code {
        Ok(code) => {
            out.show(&code);
            put_spans(code.trees(), out);
            release(code);
        }
        Err(_) => out.text("no memory"),
    }
}

/// Writes the span of the first tree, and those of others that are not the same.
fn put_spans(trees: &[TokenTree], out: &mut Answer) {
    if let Some(first) = trees.first() {
        let span = first.span();
        out.text(" at ");
        out.debug(&span);
        put_others(trees, span, out);
        for tree in trees {
            if let TokenTree::Group(group) = tree {
                put_others(group.stream_ref().trees(), span, out);
            }
        }
    }
}

/// Writes the spans of the trees that have another one.
fn put_others(trees: &[TokenTree], span: Span, out: &mut Answer) {
    for tree in trees {
        if !tree.span().eq(&span) {
            out.text(", ");
            out.debug(&tree.span());
        }
    }
}

#[test]
fn a_fault_is_reported_at_its_tree(rt: HostRuntime) {
    let alloc = rt.alloc();
    check(
        &rt,
        &CodeReads { alloc, text: None },
        "
        enum E a_b; => :: core :: compile_error ! { \"expected `{`, `where` or `<`\" } at bytes(8..11)
        fn f() {} => :: core :: compile_error ! { \"expected a struct, an enum or a union\" } at bytes(1..3)
        struct => :: core :: compile_error ! { \"the declaration ends too early, expected a name\" } at bytes(0..0)
        ",
    );
}

#[test]
fn a_text_of_ones_own_is_reported_at_a_span(rt: HostRuntime) {
    let alloc = rt.alloc();
    let own = CodeReads {
        alloc,
        text: Some("no \"skip\"\n\u{e9} \\"),
    };
    check(
        &rt,
        &own,
        "a skip => :: core :: compile_error ! { \"no \\\"skip\\\"\\n\u{e9} \\\\\" } at bytes(3..7)",
    );
    let empty = CodeReads {
        alloc,
        text: Some(""),
    };
    check_trees(
        &rt,
        &empty,
        &[],
        "an empty text at no place",
        ":: core :: compile_error ! { \"\" } at bytes(0..0)",
    );
    let code = compile_error(alloc, "", Span::call_site()).expect(&rt, "an empty text");
    let again = parsed(&rt, "::core::compile_error! {\"\"}");
    assert!(rt; code.same_tokens(&again), "an empty text");
    release((code, again));
}
