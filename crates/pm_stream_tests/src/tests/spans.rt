// Tests of the look-ups of spans, in texts that were parsed into one map.
use crate::tests::checks::{check_answer, parsed_into, repeat_parts, shows, span_between};
use pm_span::parts::{bounds, span_of};
use proc_macro2::{LineColumn, SourceMap, Span, TokenStream};
use std::process::Abort;
use test_helpers::release;

fn pair(at: LineColumn) -> (usize, usize) {
    (at.line, at.column)
}

/// Asserts where the span starts and ends, by line and column, and which bytes it takes.
fn check_look_ups(
    rt: &impl Abort,
    map: &mut SourceMap,
    positions: (u32, u32),
    want: [(usize, usize); 3],
) {
    let span = span_between(rt, map, positions);
    let bytes = span.byte_range(map);
    let start = pair(span.start(map));
    let found = [start, pair(span.end(map)), (bytes.start, bytes.end)];
    check_answer(rt, "a span", &(positions, found), &(positions, want));
}

/// Asserts the text of the span, copied and borrowed.
fn check_text(rt: &impl Abort, map: &mut SourceMap, positions: (u32, u32), want: Option<&str>) {
    let span = span_between(rt, map, positions);
    let copy = span.source_text(map).expect(rt, "a copied text");
    let answers = (positions, copy.as_deref(), span.source_str(map));
    check_answer(rt, "a text", &answers, &(positions, want, want));
    release(copy);
}

/// Asserts the name of the file that has the span.
fn check_name(rt: &impl Abort, map: &SourceMap, positions: (u32, u32), want: &str) {
    let name = span_between(rt, map, positions).file(map).expect(rt, want);
    check_answer(rt, want, &(positions, name.as_str()), &(positions, want));
    release(name);
}

/// Asserts which positions two spans join to.
fn check_join(
    rt: &impl Abort,
    map: &SourceMap,
    first: (u32, u32),
    (lo, hi): (u32, u32),
    want: Option<(u32, u32)>,
) {
    assert!(rt; lo <= hi);
    let joined = span_between(rt, map, first).join(span_of(lo, hi), map);
    let answer = (first, (lo, hi), joined.map(bounds));
    check_answer(rt, "a join", &answer, &(first, (lo, hi), want));
}

/// Asserts the spans of the trees of `text`, which becomes the next text of the map.
fn check_spans(
    rt: &(impl Abort + AllocGlobal),
    map: &mut SourceMap,
    text: &str,
    want: &[(u32, u32)],
) {
    let stream = parsed_into(rt, map, text);
    let mut found = Vec::new(rt.alloc());
    for tree in stream.trees() {
        found.push(bounds(tree.span())).expect(rt, text);
    }
    check_answer(rt, text, &found.as_slice(), &want);
    release((stream, found));
}

/// Asserts the look-ups and the text of each span: its positions, where it starts and ends, and its bytes.
fn check_rows(
    rt: &impl Abort,
    map: &mut SourceMap,
    rows: &[((u32, u32), [(usize, usize); 3], &str)],
) {
    for &(positions, want, text) in rows {
        check_look_ups(rt, map, positions, want);
        check_text(rt, map, positions, Some(text));
    }
}

/// Parses `x` and `é` in turn, `times` times, each at the next two positions.
fn check_many(rt: &(impl Abort + AllocGlobal), map: &mut SourceMap, times: u32) {
    for pair in 0..times.min(1000) {
        check_spans(rt, map, "x", &[(4 * pair + 1, 4 * pair + 2)]);
        check_spans(rt, map, "é", &[(4 * pair + 3, 4 * pair + 4)]);
    }
}

#[test]
fn look_ups_are_the_same_in_every_order(rt: HostRuntime) {
    let mut maps = SourceMap::new(rt.alloc());
    let map = &mut maps;
    check_spans(
        &rt,
        map,
        "    \u{13015} a z    ",
        &[(5, 6), (7, 8), (9, 10)],
    );
    let first = ((5, 6), [(1, 4), (1, 5), (4, 8)], "\u{13015}");
    let second = ((7, 8), [(1, 6), (1, 7), (9, 10)], "a");
    let third = ((9, 10), [(1, 8), (1, 9), (11, 12)], "z");
    check_rows(&rt, map, &[first, third, second]);
    check_rows(&rt, map, &[third, second, first]);
    check_rows(&rt, map, &[second, first, third]);
    check_rows(
        &rt,
        map,
        &[((1, 14), [(1, 0), (1, 13), (0, 16)], "    \u{13015} a z    ")],
    );
    release(maps);
}

/// Asserts that the map holds no span that begins after 0, of those up to `most`.
fn check_only_file_0(rt: &impl Abort, map: &SourceMap, most: u32) {
    for lo in 1..=most {
        for hi in lo..=most {
            let answer = (lo, hi, map.holds(span_of(lo, hi)));
            check_answer(rt, "a span", &answer, &(lo, hi, false));
        }
    }
}

#[test]
fn after_invalidate_texts_begin_at_1_again(rt: HostRuntime) {
    let mut maps = SourceMap::with_limit(rt.alloc(), 5);
    let map = &mut maps;
    check_spans(&rt, map, "1", &[(1, 2)]);
    check_spans(&rt, map, "1", &[(3, 4)]);
    map.invalidate();
    check_only_file_0(&rt, map, 5);
    check_text(&rt, map, (0, 0), None);
    check_look_ups(&rt, map, (0, 0), [(1, 0), (1, 0), (0, 0)]);
    check_spans(&rt, map, "1", &[(1, 2)]);
    let longer = TokenStream::from_str("123", map);
    check_answer(&rt, "the limit stays", &longer.is_err(), &true);
    release(longer);
    check_spans(&rt, map, "12", &[(3, 5)]);
    release(maps);
}

#[test]
fn spans_of_one_file_join(rt: HostRuntime) {
    let mut maps = SourceMap::new(rt.alloc());
    let map = &mut maps;
    check_spans(&rt, map, "aaa\nbbb", &[(1, 4), (5, 8)]);
    check_spans(&rt, map, "ccc\nddd", &[(9, 12), (13, 16)]);
    check_join(&rt, map, (1, 4), (5, 8), Some((1, 8)));
    check_join(&rt, map, (5, 8), (1, 4), Some((1, 8)));
    check_join(&rt, map, (1, 4), (9, 12), None);
    check_join(&rt, map, (9, 12), (1, 4), None);
    check_join(&rt, map, (8, 8), (9, 9), None);
    check_join(&rt, map, (1, 4), (5, 9), None);
    check_join(&rt, map, (0, 0), (0, 0), Some((0, 0)));
    check_join(&rt, map, (0, 0), (1, 1), None);
    check_rows(&rt, map, &[((1, 8), [(1, 0), (2, 3), (0, 7)], "aaa\nbbb")]);
    check_name(&rt, map, (1, 8), "<parsed string 1>");
    check_name(&rt, map, (9, 16), "<parsed string 2>");
    release(maps);
}

#[test]
fn a_span_of_no_text_has_none(rt: HostRuntime) {
    let mut maps = SourceMap::new(rt.alloc());
    let map = &mut maps;
    check_spans(&rt, map, "a", &[(1, 2)]);
    check_look_ups(&rt, map, (0, 0), [(1, 0), (1, 0), (0, 0)]);
    check_text(&rt, map, (0, 0), None);
    check_name(&rt, map, (0, 0), "<unspecified>");
    release(maps);
}

#[test]
fn lines_end_at_a_line_feed_alone(rt: HostRuntime) {
    let mut maps = SourceMap::new(rt.alloc());
    let map = &mut maps;
    check_spans(&rt, map, "a\r\nb\n", &[(1, 2), (4, 5)]);
    let rows = &[
        ((1, 2), [(1, 0), (1, 1), (0, 1)], "a"),
        ((2, 3), [(1, 1), (1, 2), (1, 2)], "\r"),
        ((3, 4), [(1, 2), (2, 0), (2, 3)], "\n"),
        ((4, 5), [(2, 0), (2, 1), (3, 4)], "b"),
        ((6, 6), [(3, 0), (3, 0), (5, 5)], ""),
    ];
    check_rows(&rt, map, rows);
    release(maps);
}

#[test]
fn bytes_are_counted_past_ascii(rt: HostRuntime) {
    let mut maps = SourceMap::new(rt.alloc());
    let map = &mut maps;
    check_spans(
        &rt,
        map,
        "é\n\u{13015}ü a\n\nz é",
        &[(1, 2), (3, 5), (6, 7), (9, 10), (11, 12)],
    );
    let rows = &[
        ((1, 2), [(1, 0), (1, 1), (0, 2)], "é"),
        ((4, 7), [(2, 1), (2, 4), (7, 11)], "ü a"),
        ((7, 8), [(2, 4), (3, 0), (11, 12)], "\n"),
        ((9, 12), [(4, 0), (4, 3), (13, 17)], "z é"),
        ((12, 12), [(4, 3), (4, 3), (17, 17)], ""),
    ];
    check_rows(&rt, map, rows);
    release(maps);
}

#[test]
fn a_border_is_in_one_file(rt: HostRuntime) {
    let mut maps = SourceMap::new(rt.alloc());
    let map = &mut maps;
    check_spans(&rt, map, "é", &[(1, 2)]);
    check_spans(&rt, map, "", &[]);
    check_spans(&rt, map, "\na", &[(5, 6)]);
    check_rows(&rt, map, &[((2, 2), [(1, 1), (1, 1), (2, 2)], "")]);
    check_name(&rt, map, (2, 2), "<parsed string 1>");
    check_rows(&rt, map, &[((3, 3), [(1, 0), (1, 0), (0, 0)], "")]);
    check_name(&rt, map, (3, 3), "<parsed string 2>");
    check_rows(&rt, map, &[((4, 5), [(1, 0), (2, 0), (0, 1)], "\n")]);
    check_name(&rt, map, (4, 5), "<parsed string 3>");
    release(maps);
}

#[test]
fn many_files_stay_apart(rt: HostRuntime) {
    let mut maps = SourceMap::new(rt.alloc());
    let map = &mut maps;
    check_many(&rt, map, 150);
    check_rows(&rt, map, &[((597, 598), [(1, 0), (1, 1), (0, 1)], "x")]);
    check_name(&rt, map, (597, 598), "<parsed string 299>");
    check_rows(&rt, map, &[((203, 204), [(1, 0), (1, 1), (0, 2)], "é")]);
    check_name(&rt, map, (203, 204), "<parsed string 102>");
    check_join(&rt, map, (597, 598), (599, 600), None);
    release(maps);
}

#[test]
fn other_spans_are_made_from_spans(rt: HostRuntime) {
    let (first, second) = (span_of(1, 2), span_of(3, 4));
    let resolved = bounds(first.resolved_at(second));
    check_answer(&rt, "resolved at", &resolved, &(1, 2));
    let located = bounds(first.located_at(second));
    check_answer(&rt, "located at", &located, &(3, 4));
    check_answer(&rt, "mixed site", &bounds(Span::mixed_site()), &(0, 0));
    let site = bounds(Span::def_site());
    check_answer(&rt, "definition site", &site, &(0, 0));
    let no_file = first.local_file().is_none();
    check_answer(&rt, "no file on disk", &no_file, &true);
}

#[test]
fn a_map_shows_its_files(rt: HostRuntime) {
    let mut maps = SourceMap::with_limit(rt.alloc(), 9);
    let map = &mut maps;
    check_spans(&rt, map, "é\nb", &[(1, 2), (3, 4)]);
    let want = "SourceMap { alloc: Global, files: [FileInfo { text: \"é\\nb\", lo: 1, hi: 4, \
        line_starts: [2] }], limit: 9 }";
    shows(&rt, rt.alloc(), &maps, want);
    release(maps);
}

/// A line with a name of 98 characters, of which the first takes two bytes.
const LONG_LINE: &str = "\u{e9}bcdefghijklmnopqrstuvwxyzabcdefghijklmnopqrstuvw\
    abcdefghijklmnopqrstuvwxyzabcdefghijklmnopqrstuvw\n";

#[test]
fn a_text_past_a_mebibyte_becomes_a_file(rt: HostRuntime) {
    let mut map = SourceMap::new(rt.alloc());
    let text = repeat_parts(&rt, rt.alloc(), &[(LONG_LINE, 20_000)]);
    let stream = parsed_into(&rt, &mut map, text.as_str());
    check_answer(&rt, "a long text", &stream.trees().len(), &20_000);
    release(stream);
    // The first character of the last line.
    let want = [(20_000, 0), (20_000, 1), (1_999_900, 1_999_902)];
    check_look_ups(&rt, &mut map, (1_979_902, 1_979_903), want);
    release(map);
}
