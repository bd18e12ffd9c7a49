use crate::tests::checks::{displays, shows};
use pm_span::Span;
use pm_span::parts::span_of;
use pm_token::parts::{ident, punct};
use pm_token::{Ident, Spacing};
use std::alloc::{AllocError, Global};
use std::process::Abort;
use test_helpers::release;

fn low_line(alloc: Global, span: Span) -> Result<Ident, AllocError> {
    ident(alloc, "_", false, span)
}

/// Asserts the `Display` and `Debug` texts of `_` with this span.
fn low_line_shows(rt: &impl Abort, alloc: Global, span: Span, want: &str) {
    let name = low_line(alloc, span).expect(rt, want);
    displays(rt, alloc, &name, "_");
    shows(rt, alloc, &name, want);
    release(name);
}

#[test]
fn tokens_show_their_parts_and_spans(rt: HostRuntime) {
    let alloc = rt.alloc();
    let want = "Ident { sym: _, span: bytes(1..2) }";
    low_line_shows(&rt, alloc, span_of(1, 2), want);
    low_line_shows(&rt, alloc, Span::call_site(), "Ident { sym: _ }");
    let mark = punct('+', Spacing::Joint, span_of(3, 4));
    displays(&rt, alloc, &mark, "+");
    let want = "Punct { char: '+', spacing: Joint, span: bytes(3..4) }";
    shows(&rt, alloc, &mark, want);
}
