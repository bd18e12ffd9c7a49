//! Random maps and look-ups.
use crate::tests::answers::{Digest, LOOK_UPS, Maps, compare};
use crate::tests::checks::check_count;
use crate::tests::texts::random_text;
use std::process::Abort;
use test_helpers::{Random, release};

/// The number of maps that are made.
const MAPS: u32 = 150;

/// Looks up a random span, which begins anywhere or near the one before, and returns where it begins.
fn ask_some(
    rt: &(impl Abort + AllocGlobal),
    random: &mut Random,
    maps: &mut Maps,
    digest: &mut Digest,
    before: u32,
) -> u32 {
    let lo = if random.up_to(2) == 0 {
        random.up_to(maps.last)
    } else {
        let near = random.up_to(80);
        before
            .saturating_add(near)
            .saturating_sub(40)
            .min(maps.last)
    };
    let far = random.one_of(&[0, 10, 60, 200, 2000]);
    let hi = lo.saturating_add(random.up_to(far)).min(maps.last);
    let what = random.one_of(LOOK_UPS);
    maps.ask(rt, digest, what, lo, hi);
    lo
}

#[test]
fn random_maps_answer_as_they_did(rt: HostRuntime) {
    let alloc = rt.alloc();
    let mut random = Random::new(71);
    let mut maps = Maps::new(alloc);
    let mut digest = Digest::new();
    for _ in 0..MAPS {
        if random.up_to(1) == 0 {
            maps.invalidate();
        }
        let text = random_text(&rt, alloc, &mut random, 900);
        let mut before = maps.add(&rt, &text);
        for _ in 0..50 {
            before = ask_some(&rt, &mut random, &mut maps, &mut digest, before);
        }
        release(text);
    }
    check_count(&rt, digest.asked, 5000);
    compare(&rt, "random_maps", digest);
    release(maps);
}
