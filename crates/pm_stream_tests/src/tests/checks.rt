//! Assertions that the tests share, each about one text that is parsed.
//!
//! They return nothing, and stop the test if memory runs out, because each `?` in a test makes its proof longer. For
//! the same reason tests let go of streams and trees by `release`.
ghost use Rattle.pm_span.specs.Files.{Holds};

use pm_span::parts::span_of;
use proc_macro2::token_stream::IntoIter;
use proc_macro2::{ParseError, SourceMap, Span, TokenStream};
use std::alloc::{AllocError, Global};
use std::fmt::{Debug, Display};
use std::process::Abort;
use test_helpers::release;

/// Asserts that the answer in a row of a test is the expected one. The row is printed if it fails.
pub fn check_answer<T: PartialEq + Debug>(rt: &impl Abort, row: &str, answer: &T, want: &T) {
    assert!(rt; answer == want, "{answer:?} and not {want:?} of {row:?}");
}

/// The stream of the text, which is the first file of a new map.
pub fn parse_first(alloc: Global, text: &str) -> Result<TokenStream, ParseError> {
    TokenStream::from_str(text, &mut SourceMap::new(alloc))
}

/// The stream of the text, which parses and is the first file of a new map.
pub fn parsed(rt: &impl Abort, alloc: Global, text: &str) -> TokenStream {
    parse_first(alloc, text).expect(rt, text)
}

/// The stream of the text, which parses and becomes the next file of the map.
pub fn parsed_into(rt: &impl Abort, map: &mut SourceMap, text: &str) -> TokenStream {
    TokenStream::from_str(text, map).expect(rt, text)
}

/// The iterator over the trees of the stream.
pub fn iterator_of(stream: TokenStream) -> Result<IntoIter, AllocError> {
    Ok(stream.into_iter()?)
}

/// The parts one after the other, each the given number of times.
pub fn repeat_parts(rt: &impl Abort, alloc: Global, parts: &[(&str, u32)]) -> String {
    let mut text = String::new(alloc);
    for (part, count) in parts {
        for _ in 0..*count {
            text.push_str(part).expect(rt, "a long text");
        }
    }
    text
}

/// The span between the positions, which the map holds.
pub fn span_between(rt: &impl Abort, map: &SourceMap, positions: (u32, u32)) -> Span
    ensures { Holds map.now result }
{
    let (lo, hi) = positions;
    assert!(rt; lo <= hi, "of {lo}..{hi}");
    let span = span_of(lo, hi);
    assert!(rt; map.holds(span), "of {lo}..{hi}");
    span
}

/// Asserts whether two texts, each parsed in a new map, give the same tokens.
pub fn check_same(rt: &(impl Abort + AllocGlobal), text: &str, other: &str, same: bool) {
    let found = are_same(rt, rt.alloc(), text, other);
    check_answer(rt, text, &(other, found), &(other, same));
}

/// Asserts that Debug shows `want` for the stream of `text`, which becomes the next text of the map.
pub fn check_shown(rt: &(impl Abort + AllocGlobal), map: &mut SourceMap, text: &str, want: &str) {
    let stream = TokenStream::from_str(text, map).expect(rt, text);
    shows(rt, rt.alloc(), &stream, want);
    release(stream);
}

/// The printed text of the stream of `text`, which is parsed in a new map.
pub fn printed_text(rt: &impl Abort, alloc: Global, text: &str) -> String {
    let stream = parsed(rt, alloc, text);
    let printed = display_text(rt, alloc, &stream);
    release(stream);
    printed
}

/// Whether the stream of `text`, parsed in a new map, is well spaced.
pub fn parses_well_spaced(rt: &impl Abort, alloc: Global, text: &str) -> bool {
    let stream = parsed(rt, alloc, text);
    let spaced = stream.is_well_spaced();
    release(stream);
    spaced
}

/// Whether the two texts, each parsed in a new map, give the same tokens, compared in both directions.
fn are_same(rt: &impl Abort, alloc: Global, text: &str, other: &str) -> bool {
    let stream = parsed(rt, alloc, text);
    let other = parsed(rt, alloc, other);
    let same = stream.same_tokens(&other) && other.same_tokens(&stream);
    release((stream, other));
    same
}

/// How many trees the stream of `text` has.
pub fn count_trees(rt: &impl Abort, alloc: Global, text: &str) -> usize {
    let stream = parsed(rt, alloc, text);
    let count = stream.trees().len();
    release(stream);
    count
}

/// The text that Display writes for the value.
pub fn display_text<T: Display>(rt: &impl Abort, alloc: Global, value: &T) -> String {
    format!(in alloc; "{value}").expect(rt, "a text")
}

/// Asserts that the value is displayed as this text.
pub fn displays<T: Display>(rt: &impl Abort, alloc: Global, value: &T, want: &str) {
    let found = display_text(rt, alloc, value);
    check_answer(rt, want, &found.as_str(), &want);
}

/// Asserts that the value is displayed as this text, and drops the value.
pub fn prints<T: Display + Drop>(rt: &impl Abort, alloc: Global, value: T, want: &str) {
    displays(rt, alloc, &value, want);
}

/// Asserts that Debug shows the value as this text.
pub fn shows<T: Debug>(rt: &impl Abort, alloc: Global, value: &T, want: &str) {
    let found = format!(in alloc; "{value:?}").expect(rt, want);
    check_answer(rt, want, &found.as_str(), &want);
}

/// Asserts that the value is displayed as this text, whatever width or precision the format has.
pub fn has_no_width<T: Display>(rt: &impl Abort, alloc: Global, value: &T, text: &str) {
    let found = format!(in alloc; "{value:>9}|{value:*^9}|{value:.1}").expect(rt, text);
    let want = format!(in alloc; "{text}|{text}|{text}").expect(rt, text);
    check_answer(rt, text, &found.as_str(), &want.as_str());
}
