// Tests which bytes spans take on lines that aren't ASCII, in many orders. No look-up changes the result of the next.
use crate::tests::checks::{check_answer, span_between};
use pm_span::parts::{add_file, fits};
use proc_macro2::SourceMap;
use std::alloc::Global;
use std::process::Abort;
use test_helpers::release;

/// Parts of the literal `"aéb𓀕c"`, in characters from its start, and the bytes that they take.
const PARTS: [((u32, u32), (usize, usize)); 5] = [
    ((6, 7), (10, 11)),
    ((4, 5), (5, 9)),
    ((1, 3), (1, 4)),
    ((3, 4), (4, 5)),
    ((0, 7), (0, 11)),
];

/// The tokens of four spaces, U+13015, ` a z` and four spaces, in characters, and the bytes that they take.
const TOKENS: [((u32, u32), (usize, usize)); 3] = [
    ((4, 5), (4, 8)),
    ((6, 7), (9, 10)),
    ((8, 9), (11, 12)),
];

/// Adds the text to the map, and returns the position where it begins.
fn add(rt: &impl Abort, map: &mut SourceMap, text: &str) -> u32 {
    let lo = fits(map, text);
    assert!(rt; lo.is_some(), "the text fits");
    let _ = add_file(map, text).expect(rt, "a file");
    lo.unwrap_or(0)
}

/// Asserts which bytes of the text at `base` these characters take, by each of the three look-ups.
fn check(
    rt: &impl Abort,
    map: &mut SourceMap,
    (text, base): (&str, u32),
    chars: (u32, u32),
    bytes: (usize, usize),
) {
    let (from, to) = chars;
    let positions = (base.saturating_add(from), base.saturating_add(to));
    let span = span_between(rt, map, positions);
    let want = text.get(bytes.0..bytes.1);
    check_answer(
        rt,
        "the text",
        &(chars, span.source_str(map)),
        &(chars, want),
    );
    let found = span.byte_range(map);
    let answer = (chars, found.start, found.end);
    check_answer(rt, "the bytes", &answer, &(chars, bytes.0, bytes.1));
    let copy = span.source_text(map).expect(rt, "a copied text");
    check_answer(
        rt,
        "the copied text",
        &(chars, copy.as_deref()),
        &(chars, want),
    );
    release(copy);
}

/// Asserts the bytes of these parts in this order, with `margin` times `é` before and after the text.
fn check_in_order<const N: usize>(
    rt: &impl Abort,
    alloc: Global,
    (text, margin): (&str, u32),
    parts: &[((u32, u32), (usize, usize))],
    order: [usize; N],
) {
    let mut line = String::new(alloc);
    add_margin(rt, &mut line, margin);
    let before = line.len();
    line.push_str(text).expect(rt, text);
    add_margin(rt, &mut line, margin);
    let mut map = SourceMap::new(alloc);
    let base = add(rt, &mut map, line.as_str());
    for index in order.iter() {
        if let Some(((from, to), (start, end))) = parts.get(*index) {
            let chars = (from.saturating_add(margin), to.saturating_add(margin));
            let bytes = (start.saturating_add(before), end.saturating_add(before));
            check(rt, &mut map, (line.as_str(), base), chars, bytes);
        }
    }
    release((line, map));
}

/// Appends `é` this many times.
fn add_margin(rt: &impl Abort, line: &mut String, times: u32) {
    for _ in 0..times {
        line.push('é').expect(rt, "é");
    }
}

#[test]
fn any_order_of_five_spans_gives_the_same_bytes(rt: HostRuntime) {
    let alloc = rt.alloc();
    let mut orders = 0u32;
    for code in 0..3125usize {
        let order = [
            code % 5,
            code / 5 % 5,
            code / 25 % 5,
            code / 125 % 5,
            code / 625 % 5,
        ];
        if (0..5usize).all(|index| order.contains(&index)) {
            orders = orders.saturating_add(1);
            check_in_order(&rt, alloc, ("\"aéb𓀕c\"", 0), &PARTS, order);
            check_in_order(&rt, alloc, ("\"aéb𓀕c\"", 100), &PARTS, order);
        }
    }
    check_answer(&rt, "the orders", &orders, &120);
}

#[test]
fn any_order_of_three_spans_gives_the_same_bytes(rt: HostRuntime) {
    let alloc = rt.alloc();
    let orders = &[
        [0, 1, 2],
        [0, 2, 1],
        [1, 0, 2],
        [1, 2, 0],
        [2, 0, 1],
        [2, 1, 0],
    ];
    for order in orders.iter() {
        check_in_order(&rt, alloc, ("    𓀕 a z    ", 0), &TOKENS, *order);
        check_in_order(&rt, alloc, ("    𓀕 a z    ", 100), &TOKENS, *order);
    }
}

/// Returns a number below `end`, by the next step of a fixed sequence.
fn draw(seed: &mut u32, end: u32) -> u32 {
    *seed = seed.wrapping_mul(1664525).wrapping_add(1013904223);
    (*seed >> 8) % end.max(1)
}

/// Returns a random character of one to four bytes.
fn draw_character(seed: &mut u32) -> char {
    match draw(seed, 400) {
        0 => '\n',
        1..=100 => 'a',
        101..=200 => 'é',
        201..=300 => '€',
        _ => '𓀕',
    }
}

/// Returns a text of `count` characters of one to four bytes, and the byte offsets of its characters and of its end.
fn random_text(rt: &impl Abort, alloc: Global, seed: &mut u32, count: u32) -> (String, Vec<usize>) {
    let mut text = String::new(alloc);
    let mut offsets = vec![in alloc; 0].expect(rt, "the offsets");
    for _ in 0..count {
        text.push(draw_character(seed)).expect(rt, "a text");
        offsets.push(text.len()).expect(rt, "the offsets");
    }
    (text, offsets)
}

/// Asserts the bytes of a span between two random offsets.
fn check_drawn(
    rt: &impl Abort,
    map: &mut SourceMap,
    (text, offsets): (&str, &[usize]),
    base: u32,
    seed: &mut u32,
) {
    let count = offsets.len().min(60000) as u32;
    let (first, second) = (draw(seed, count), draw(seed, count));
    let (from, to) = (first.min(second), first.max(second));
    if let (Some(start), Some(end)) = (offsets.get(from as usize), offsets.get(to as usize)) {
        check(rt, map, (text, base), (from, to), (*start, *end));
    }
}

#[test]
fn drawn_spans_of_two_texts_take_the_bytes_that_are_counted(rt: HostRuntime) {
    let mut seed = 1;
    let mut map = SourceMap::new(rt.alloc());
    for _ in 0..4 {
        check_drawn_texts(&rt, rt.alloc(), &mut map, &mut seed);
        map.invalidate();
    }
    release(map);
}

/// Asserts the bytes of random spans of two random texts in turn.
fn check_drawn_texts(rt: &impl Abort, alloc: Global, map: &mut SourceMap, seed: &mut u32) {
    let first = random_text(rt, alloc, seed, 3000);
    let second = random_text(rt, alloc, seed, 1000);
    let first_base = add(rt, map, first.0.as_str());
    let second_base = add(rt, map, second.0.as_str());
    for _ in 0..300 {
        check_drawn(rt, map, (first.0.as_str(), &first.1), first_base, seed);
        check_drawn(rt, map, (second.0.as_str(), &second.1), second_base, seed);
    }
    release((first, second));
}
