// Choosers, and the texts that they make.
use crate::tests::checks::{check_answer, comes_back, laid_out, stream_of};
use layout::{Chooser, Gap, GapContext, LayoutError, text_with, write_with};
use proc_macro2::token_stream::Step;
use proc_macro2::{Punct, Spacing, TokenStream, TokenTree};
use std::process::Abort;
use test_helpers::release;

/// The same gap everywhere.
#[derive(Drop)]
pub struct Always(pub Gap);

impl Chooser for Always {
    fn gap(&mut self, _place: GapContext<'_>) -> Gap {
        self.0
    }
}

/// Chooses a line for each token, indented by the number of open groups. It counts its calls, and those at an end.
#[derive(Drop)]
struct Lines {
    asked: usize,
    ends: usize,
}

impl Chooser for Lines {
    fn gap(&mut self, place: GapContext<'_>) -> Gap {
        self.asked = self.asked.saturating_add(1);
        if place.before.is_none() || place.after.is_none() {
            self.ends = self.ends.saturating_add(1);
            return Gap::Nothing;
        }
        Gap::Line(place.depth)
    }
}

/// Chooses a gap before and a gap after each dot, and nothing elsewhere.
#[derive(Drop)]
struct AroundDots {
    before: Gap,
    after: Gap,
}

impl Chooser for AroundDots {
    fn gap(&mut self, place: GapContext<'_>) -> Gap {
        if is_dot(place.before) {
            return self.after;
        }
        if is_dot(place.after) {
            return self.before;
        }
        Gap::Nothing
    }
}

/// Returns whether the step is the mark `.`.
fn is_dot(step: Option<Step<'_>>) -> bool {
    match step {
        Some(Step::Token(TokenTree::Punct(punct), _)) => punct.as_char() == '.',
        _ => false,
    }
}

/// A source, the gaps before and after each dot, and the text of its stream with these gaps.
const DOTS: &[(&str, Gap, Gap, &str)] = &[
    ("x . 0 . y", Gap::Nothing, Gap::Nothing, "x.0.y"),
    ("x . 0 . y", Gap::Nothing, Gap::Space, "x. 0 . y"),
    ("x . 0 . y", Gap::Space, Gap::Nothing, "x .0 .y"),
    ("x . 0 . y", Gap::Nothing, Gap::Line(1), "x.\n 0 .\n y"),
    ("1 .. 2", Gap::Nothing, Gap::Space, "1.. 2"),
    ("1 .. 2", Gap::Space, Gap::Nothing, "1 ..2"),
    ("1 . . 2", Gap::Nothing, Gap::Space, "1 . . 2"),
    ("1i32 . abs", Gap::Nothing, Gap::Space, "1i32. abs"),
    ("1. . a", Gap::Nothing, Gap::Space, "1. . a"),
    ("0 .", Gap::Nothing, Gap::Nothing, "0 ."),
    ("0 .", Gap::Nothing, Gap::Space, "0 . "),
];

/// Asserts what the text of the source's stream is with these gaps around its dots, and that the stream comes back.
fn check_dots(rt: &(impl Abort + AllocGlobal), row: &(&str, Gap, Gap, &str)) {
    let &(source, before, after, want) = row;
    let stream = stream_of(rt, source);
    let text = laid_out(rt, &stream, &mut AroundDots { before, after });
    check_answer(rt, source, &text.as_str(), &want);
    check_answer(rt, source, &comes_back(rt, &stream, want), &true);
    release((stream, text));
}

#[test]
fn a_dot_touches_digits_only_before_a_name_or_a_dot(rt: HostRuntime) {
    for row in DOTS {
        check_dots(&rt, row);
    }
}

/// Asserts what the stream's text is with this gap everywhere.
fn check_gap(rt: &(impl Abort + AllocGlobal), stream: &TokenStream, gap: Gap, want: &str) {
    let text = laid_out(rt, stream, &mut Always(gap));
    check_answer(rt, want, &text.as_str(), &want);
}

#[test]
fn the_chosen_gap_is_written(rt: HostRuntime) {
    let stream = stream_of(&rt, "a+=b(c)");
    check_gap(&rt, &stream, Gap::Nothing, "a+=b(c)");
    check_gap(&rt, &stream, Gap::Space, " a += b ( c ) ");
    let lines = "\n  a\n  +=\n  b\n  (\n  c\n  )\n  ";
    check_gap(&rt, &stream, Gap::Line(2), lines);
    release(stream);
}

#[test]
fn gaps_come_in_order(rt: HostRuntime) {
    let stream = stream_of(&rt, "a{b(c)}d");
    let mut lines = Lines { asked: 0, ends: 0 };
    let text = laid_out(&rt, &stream, &mut lines);
    let want = "a\n{\n b\n (\n  c\n )\n}\nd";
    check_answer(&rt, "a{b(c)}d", &text.as_str(), &want);
    check_answer(&rt, "a{b(c)}d", &(lines.asked, lines.ends), &(9, 2));
    release((stream, text));
}

/// Returns the stream of one Joint mark.
fn joint_mark(rt: &(impl Abort + AllocGlobal)) -> TokenStream {
    assert!(rt; Punct::is_punct_char('+'));
    let mark = TokenTree::Punct(Punct::new('+', Spacing::Joint));
    TokenStream::from_tree(rt.alloc(), mark).expect(rt, "+")
}

#[test]
fn a_stream_that_is_not_well_spaced_has_no_text(rt: HostRuntime) {
    let stream = joint_mark(&rt);
    let text = text_with(&stream, &mut Always(Gap::Space), rt.alloc());
    let is_error = matches!(&text, Err(LayoutError::NotWellSpaced));
    release((stream, text));
    check_answer(&rt, "+", &is_error, &true);
}

#[test]
fn a_stream_that_is_not_well_spaced_is_not_written(rt: HostRuntime) {
    let stream = joint_mark(&rt);
    let mut written = Vec::new(rt.alloc());
    let answer = write_with(&stream, &mut Always(Gap::Space), rt.alloc(), &mut written);
    let is_error = matches!(&answer, Err(LayoutError::NotWellSpaced));
    check_answer(&rt, "+", &(is_error, written.is_empty()), &(true, true));
    release((stream, written, answer));
}

#[test]
fn a_stream_is_written(rt: HostRuntime) {
    let stream = stream_of(&rt, "fn f");
    let mut written = Vec::new(rt.alloc());
    let answer = write_with(&stream, &mut Always(Gap::Nothing), rt.alloc(), &mut written);
    check_answer(&rt, "fn f", &answer.is_ok(), &true);
    check_answer(&rt, "fn f", &written.as_slice(), &b"fn f".as_slice());
    release((stream, written, answer));
}
