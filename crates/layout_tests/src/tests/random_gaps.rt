// Random streams, each with the tightest gaps, the loosest gaps and random gaps. They come back from all these texts.
use crate::tests::checks::{check_answer, comes_back, laid_out};
use crate::tests::choosers::Always;
use layout::{Chooser, Gap, GapContext};
use proc_macro2::{SourceMap, TokenStream};
use std::process::Abort;
use test_helpers::{Random, release};

/// The number of texts that are made.
const TEXTS: u32 = 4000;

const PARSED: u32 = 2080;

/// The pieces of which texts are made.
const PIECES: &[&str] = &[
    "a", "r", "b", "br", "cr", "_", "e5", "fn", "\u{e9}", "r#a", "'a", "'r", "0", "12u8", "0x1F",
    "1.0", "2.", "1e3", "0e", "'a'", "b'a'", "\"\"", "\"a\"s", "b\"\"", "r\"\"", "r#\"\"#",
    "c\"\"", "+", "-", "=", ".", "..", "::", "/", "*", "#", "!", "&", "<", ">", ":", ",", "(", ")",
    "[", "]", "{", "}", " ", " ", " ", "\n",
];

/// A chooser of random gaps, which makes random texts too.
#[derive(Drop)]
struct RandomGaps {
    random: Random,
}

impl RandomGaps {
    /// Returns a text of up to 12 pieces.
    fn text(&mut self, rt: &(impl Abort + AllocGlobal)) -> String {
        let mut text = String::new(rt.alloc());
        for _ in 0..self.random.below(13) {
            text.push_str(self.random.one_of(PIECES))
                .expect(rt, "a text");
        }
        text
    }
}

impl Chooser for RandomGaps {
    fn gap(&mut self, _place: GapContext<'_>) -> Gap {
        match self.random.below(4) {
            0..=1 => Gap::Nothing,
            2 => Gap::Space,
            _ => Gap::Line(self.random.below(3) as usize),
        }
    }
}

/// Asserts that the stream comes back from its text with the chooser's gaps.
fn check<C: Chooser>(rt: &(impl Abort + AllocGlobal), stream: &TokenStream, chooser: &mut C) {
    let text = laid_out(rt, stream, chooser);
    let same = comes_back(rt, stream, text.as_str());
    check_answer(rt, text.as_str(), &same, &true);
}

/// Asserts that the stream comes back from its text with the tightest gaps, with the loosest, and twice with random
/// ones.
fn check_gaps(rt: &(impl Abort + AllocGlobal), stream: &TokenStream, random: &mut RandomGaps) {
    check(rt, stream, &mut Always(Gap::Nothing));
    check(rt, stream, &mut Always(Gap::Line(1)));
    check(rt, stream, random);
    check(rt, stream, random);
}

/// Makes a text and, if it parses, asserts that its stream comes back. Returns whether it parses.
fn check_text(rt: &(impl Abort + AllocGlobal), random: &mut RandomGaps) -> bool {
    let text = random.text(rt);
    let found = TokenStream::from_str(text.as_str(), &mut SourceMap::new(rt.alloc()));
    let parses = found.is_ok();
    if let Ok(stream) = &found {
        check_gaps(rt, stream, random);
    }
    release((text, found));
    parses
}

#[test]
fn random_streams_come_back_from_random_gaps(rt: HostRuntime) {
    let mut random = RandomGaps {
        random: Random::new(7),
    };
    let mut parsed: u32 = 0;
    for _ in 0..TEXTS {
        if check_text(&rt, &mut random) {
            parsed = parsed.saturating_add(1);
        }
    }
    check_answer(&rt, "random texts", &parsed, &PARSED);
}
