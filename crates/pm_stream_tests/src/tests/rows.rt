// Tests of several texts in one map, and of the map's limit.
use crate::tests::checks::{check_answer, check_shown};
use proc_macro2::{ParseError, SourceMap, TokenStream};
use std::process::Abort;
use test_helpers::release;

/// Asserts whether `text` fits into the map, whose limit is `limit`.
fn check_fits(rt: &impl Abort, map: &mut SourceMap, limit: u32, text: &str, fits: bool) {
    let parsed = TokenStream::from_str(text, map);
    let full = matches!(&parsed, Err(ParseError::MapFull));
    release(parsed);
    check_answer(rt, text, &(limit, full), &(limit, !fits));
}

/// Asserts whether `z` and then the empty text fit after `abcd`, whose span is 1..5.
fn check_limit(rt: &(impl Abort + AllocGlobal), limit: u32, z: bool, empty: bool) {
    let mut map = SourceMap::with_limit(rt.alloc(), limit);
    let parsed = TokenStream::from_str("abcd", &mut map);
    check_answer(rt, "abcd", &(limit, parsed.is_ok()), &(limit, true));
    release(parsed);
    check_fits(rt, &mut map, limit, "z", z);
    check_fits(rt, &mut map, limit, "", empty);
    release(map);
}

/// Asserts whether the empty text fits into a new map with this limit.
fn check_empty(rt: &(impl Abort + AllocGlobal), limit: u32, fits: bool) {
    let mut map = SourceMap::with_limit(rt.alloc(), limit);
    check_fits(rt, &mut map, limit, "", fits);
    release(map);
}

#[test]
fn the_empty_text_has_a_position_of_its_own(rt: HostRuntime) {
    let map = &mut SourceMap::new(rt.alloc());
    check_shown(&rt, map, "", "TokenStream []");
    check_shown(
        &rt,
        map,
        "x",
        "TokenStream [Ident { sym: x, span: bytes(2..3) }]",
    );
    check_shown(
        &rt,
        map,
        "y",
        "TokenStream [Ident { sym: y, span: bytes(4..5) }]",
    );
}

#[test]
fn a_text_past_the_limit_leaves_the_map_as_it_was(rt: HostRuntime) {
    check_limit(&rt, 5, false, false);
    check_limit(&rt, 6, false, true);
    check_limit(&rt, 7, true, false);
    check_limit(&rt, 9, true, true);
    check_empty(&rt, 0, false);
    check_empty(&rt, 1, true);
}
