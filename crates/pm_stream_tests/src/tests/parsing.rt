use crate::tests::checks::{check_answer, display_text, parse_first};
use pm_span::SourceMap;
use pm_span::parts::span_of;
use pm_stream::TokenStream;
use pm_stream::reprinting::reprint;
use pm_token::ParseError;
use std::alloc::Global;
use std::fmt::Debug;
use std::process::Abort;
use test_helpers::release;

/// Whether the text parses in a map with this limit, whether the map then holds its four characters, whether the map is
/// full and rejects the empty text, and whether it holds one more position.
fn at_limit(alloc: Global, text: &str, limit: u32) -> [bool; 4] {
    let mut map = SourceMap::with_limit(alloc, limit);
    let parsed = TokenStream::from_str(text, &mut map);
    let holds = map.holds(span_of(1, 5));
    let empty = TokenStream::from_str("", &mut map);
    let full = matches!(&empty, Err(ParseError::MapFull));
    let answers = [parsed.is_ok(), holds, full, map.holds(span_of(6, 6))];
    release((parsed, empty, map));
    answers
}

/// Asserts that a map with the limit `limit` holds the text, which parses or not, and that the map is then full, or
/// otherwise holds one more position.
fn check_limit(rt: &(impl Abort + AllocGlobal), text: &str, parses: bool, limit: u32, full: bool) {
    let found = at_limit(rt.alloc(), text, limit);
    let want = [parses, true, full, !full];
    check_answer(rt, text, &(limit, found), &(limit, want));
}

#[test]
fn a_file_stays_in_the_map_up_to_the_limit(rt: HostRuntime) {
    check_limit(&rt, "abcd", true, 5, true);
    check_limit(&rt, "abcd", true, 6, false);
    check_limit(&rt, "abc)", false, 5, true);
    check_limit(&rt, "abc)", false, 6, false);
}

/// How Debug shows the value, which is dropped.
fn debug_text<T: Debug + Drop>(rt: &impl Abort, alloc: Global, value: T) -> String {
    format!(in alloc; "{value:?}").expect(rt, "a text")
}

/// Asserts that parsing the text without a map gives the same result as with a new map, including spans and faults.
fn check_unmapped(rt: &(impl Abort + AllocGlobal), text: &str) {
    let mapped = debug_text(rt, rt.alloc(), parse_first(rt.alloc(), text));
    let unmapped = TokenStream::parse_unmapped(rt.alloc(), text);
    let unmapped = debug_text(rt, rt.alloc(), unmapped);
    check_answer(rt, text, &unmapped.as_str(), &mapped.as_str());
}

#[test]
fn a_text_is_parsed_without_a_map_as_in_a_new_one(rt: HostRuntime) {
    check_unmapped(&rt, "");
    check_unmapped(&rt, "/// x\nf(1, 'c') += \u{e9}");
    check_unmapped(&rt, "a (]");
    check_unmapped(&rt, "a ( [ b");
}

/// The printed text of the text's stream, printed from trees, or why it does not parse.
fn print_trees(rt: &impl Abort, alloc: Global, text: &str) -> Result<String, ParseError> {
    match TokenStream::parse_unmapped(alloc, text) {
        Ok(stream) => {
            let printed = display_text(rt, alloc, &stream);
            release(stream);
            Ok(printed)
        }
        Err(error) => Err(error),
    }
}

/// Asserts that printing the text without trees gives the printed text of its stream, or the same fault.
fn check_reprinted(rt: &(impl Abort + AllocGlobal), text: &str) {
    let by_trees = print_trees(rt, rt.alloc(), text);
    let by_trees = debug_text(rt, rt.alloc(), by_trees);
    let reprinted = debug_text(rt, rt.alloc(), reprint(rt.alloc(), text));
    check_answer(rt, text, &reprinted.as_str(), &by_trees.as_str());
}

#[test]
fn a_text_is_reprinted_as_its_stream_is_printed(rt: HostRuntime) {
    check_reprinted(&rt, "");
    check_reprinted(&rt, "//! x\n/// \u{e9}\"\n{f(1, 'c') += r#a; [] ({}) 'b}");
    check_reprinted(&rt, "a (]");
    check_reprinted(&rt, "a ( [ b");
    check_reprinted(&rt, "{ \"");
}
