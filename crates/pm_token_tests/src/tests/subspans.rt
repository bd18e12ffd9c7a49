use crate::tests::checks::{check_answer, read_literal, shows};
use pm_span::Span;
use pm_span::parts::{bounds, span_of};
use pm_token::parts::punct;
use pm_token::{Literal, Spacing};
use std::alloc::Global;
use std::ops::Bound;
use std::ops::Bound::{Excluded, Included, Unbounded};
use std::process::Abort;
use test_helpers::release;

/// Two bounds, and the positions of the part between them.
type Row = (Bound<usize>, Bound<usize>, Option<(u32, u32)>);

/// Asserts the span of the part of the literal that the bounds of each row name.
fn parts_are(rt: &impl Abort, literal: &Literal, rows: &[Row]) {
    for (row, &(start, end, want)) in rows.iter().enumerate() {
        let found = literal.subspan(start, end).map(bounds);
        check_answer(rt, literal.text(), &(row, found), &(row, want));
    }
}

/// Asserts the span of the part of the text's literal that the bounds of each row name.
fn parts_of_text_are(rt: &impl Abort, alloc: Global, text: &str, rows: &[Row]) {
    let literal = read_literal(alloc, text).expect(rt, text);
    parts_are(rt, &literal, rows);
    release(literal);
}

#[test]
fn a_part_lies_between_two_counts_of_characters(rt: HostRuntime) {
    let rows = &[
        (Included(1), Excluded(2), Some((2, 3))),
        (Included(1), Excluded(4), None),
        (Excluded(0), Unbounded, Some((2, 4))),
        (Included(3), Unbounded, Some((4, 4))),
        (Excluded(2), Unbounded, Some((4, 4))),
        (Excluded(3), Unbounded, None),
        (Unbounded, Unbounded, Some((1, 4))),
        (Unbounded, Included(2), Some((1, 4))),
        (Unbounded, Included(3), None),
        (Included(2), Excluded(1), None),
        (Included(2), Included(1), Some((3, 3))),
    ];
    parts_of_text_are(&rt, rt.alloc(), "0.1", rows);
}

#[test]
fn a_part_counts_characters_and_not_bytes(rt: HostRuntime) {
    let rows = &[(Included(2), Included(2), Some((3, 4)))];
    parts_of_text_are(&rt, rt.alloc(), "\"é.\"", rows);
}

#[test]
fn no_part_begins_or_ends_at_a_huge_count(rt: HostRuntime) {
    let rows = &[
        (Included(usize::MAX), Unbounded, None),
        (Excluded(usize::MAX), Unbounded, None),
        (Unbounded, Included(usize::MAX), None),
        (Unbounded, Excluded(usize::MAX), None),
        (Included(4294967296), Unbounded, None),
        (Excluded(4294967295), Unbounded, None),
        (Unbounded, Included(4294967295), None),
        (Unbounded, Excluded(4294967297), None),
    ];
    parts_of_text_are(&rt, rt.alloc(), "0.1", rows);
}

#[test]
fn a_part_lies_in_the_span_that_was_set(rt: HostRuntime) {
    let mut literal = read_literal(rt.alloc(), "0.1").expect(&rt, "0.1");
    literal.set_span(span_of(4294967294, 4294967295));
    let rows = &[
        (Included(1), Unbounded, Some((4294967295, 4294967295))),
        (Excluded(1), Unbounded, None),
        (Included(0), Included(0), Some((4294967294, 4294967295))),
        (Included(0), Included(1), None),
    ];
    parts_are(&rt, &literal, rows);
    literal.set_span(Span::call_site());
    let rows = &[
        (Unbounded, Unbounded, Some((0, 0))),
        (Included(0), Excluded(0), Some((0, 0))),
        (Excluded(0), Unbounded, None),
    ];
    parts_are(&rt, &literal, rows);
    release(literal);
}

#[test]
fn a_span_that_is_set_is_all_that_changes(rt: HostRuntime) {
    let mut mark = punct('+', Spacing::Joint, span_of(3, 4));
    mark.set_span(span_of(7, 8));
    let want = "Punct { char: '+', spacing: Joint, span: bytes(7..8) }";
    shows(&rt, rt.alloc(), &mark, want);
    let mut literal = read_literal(rt.alloc(), "0.1").expect(&rt, "0.1");
    literal.set_span(span_of(7, 9));
    shows(
        &rt,
        rt.alloc(),
        &literal,
        "Literal { lit: 0.1, span: bytes(7..9) }",
    );
    release(literal);
}
