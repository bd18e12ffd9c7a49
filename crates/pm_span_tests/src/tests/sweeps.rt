//! Systematic maps and look-ups, on both sides of each threshold.
use crate::tests::answers::{Digest, LOOK_UPS, LookUp, Maps, compare};
use crate::tests::checks::check_count;
use crate::tests::texts::{lines, wide_line};
use std::process::Abort;
use test_helpers::release;

/// Looks up spans from an offset of one line on, and up to `far` characters after and before it.
fn ask_far(rt: &(impl Abort + AllocGlobal), digest: &mut Digest, text: &str, from: u32, far: u32) {
    let mut maps = Maps::new(rt.alloc());
    let lo = maps.add(rt, text).saturating_add(from);
    let hi = lo.saturating_add(far);
    let last = maps.last;
    maps.ask(rt, digest, LookUp::Bytes, lo, lo);
    maps.ask(rt, digest, LookUp::Bytes, lo, hi);
    maps.ask(rt, digest, LookUp::Text, hi.saturating_sub(1), hi);
    maps.ask(rt, digest, LookUp::Text, hi.saturating_sub(33), hi);
    maps.ask(rt, digest, LookUp::Bytes, lo.saturating_sub(far), lo);
    maps.ask(rt, digest, LookUp::Bytes, lo, last);
    release(maps);
}

#[test]
fn walks_of_each_length_answer_as_they_did(rt: HostRuntime) {
    let text = wide_line(&rt, rt.alloc(), 420);
    let mut digest = Digest::new();
    for &from in &[0, 1, 31, 32, 33, 64, 127, 128, 129, 200] {
        for far in 0..=140 {
            ask_far(&rt, &mut digest, &text, from, far);
        }
    }
    check_count(&rt, digest.asked, 5000);
    compare(&rt, "walks", digest);
    release(text);
}

/// Looks up spans at each position of a text.
fn ask_each(rt: &(impl Abort + AllocGlobal), digest: &mut Digest, text: &str, far: u32) {
    let mut maps = Maps::new(rt.alloc());
    let lo = maps.add(rt, text);
    let last = maps.last;
    for position in lo..last.saturating_add(1) {
        let hi = position.saturating_add(far).min(last);
        maps.ask(rt, digest, LookUp::Lines, position, hi);
        maps.ask(rt, digest, LookUp::Bytes, position, hi);
    }
    release(maps);
}

#[test]
fn files_of_few_and_many_lines_answer_as_they_did(rt: HostRuntime) {
    let mut digest = Digest::new();
    for &first in &[0, 15, 63, 127] {
        for count in first..first + 4 {
            for &wide in &[0, 1, 4] {
                let text = lines(&rt, rt.alloc(), count, wide);
                ask_each(&rt, &mut digest, &text, 3);
                release(text);
            }
        }
    }
    check_count(&rt, digest.asked, 5000);
    compare(&rt, "line_counts", digest);
}

#[test]
fn spans_of_many_lines_answer_as_they_did(rt: HostRuntime) {
    let mut digest = Digest::new();
    for &wide in &[0, 3, 30] {
        let text = lines(&rt, rt.alloc(), 100, wide);
        for &far in &[31, 32, 33, 129, 250] {
            ask_each(&rt, &mut digest, &text, far);
        }
        release(text);
    }
    check_count(&rt, digest.asked, 5000);
    compare(&rt, "long_spans", digest);
}

#[test]
fn several_files_answer_as_they_did(rt: HostRuntime) {
    let alloc = rt.alloc();
    let wide = wide_line(&rt, alloc, 150);
    let tall = lines(&rt, alloc, 70, 5);
    let mut maps = Maps::new(alloc);
    let mut digest = Digest::new();
    for _ in 0..3 {
        for &text in &[
            "",
            "a",
            "\u{e9}",
            "",
            wide.as_str(),
            tall.as_str(),
            "\n",
            "a\u{e9}\nb\n",
        ] {
            let lo = maps.add(&rt, text);
            ask_file(&rt, &mut maps, &mut digest, lo);
        }
        maps.invalidate();
    }
    check_count(&rt, digest.asked, 500);
    compare(&rt, "several_files", digest);
    release((wide, tall, maps));
}

/// Looks up spans of the last file, which begins at `lo`.
fn ask_file(rt: &impl Abort, maps: &mut Maps, digest: &mut Digest, lo: u32) {
    let last = maps.last;
    for &what in LOOK_UPS {
        maps.ask(rt, digest, what, 0, 0);
        maps.ask(rt, digest, what, lo, lo);
        maps.ask(rt, digest, what, lo, last);
        maps.ask(rt, digest, what, last, last);
        for &back in &[1, 2, 32, 33, 100, 200, 300] {
            let before = last.saturating_sub(back);
            maps.ask(rt, digest, what, before, before);
        }
    }
}
