//! Texts in which spans are looked up.
use std::alloc::Global;
use std::process::Abort;
use test_helpers::Random;

/// Characters that take one to four bytes.
const WIDE: &[char] = &['a', '\u{e9}', '\r', '\u{20ac}', 'z', '\u{1f600}', ' '];

/// Makes one line of `count` characters, which take one to four bytes in turn.
pub fn wide_line(rt: &impl Abort, alloc: Global, count: u32) -> String {
    let mut text = String::new(alloc);
    for number in 0..count {
        add(rt, &mut text, WIDE[number as usize % WIDE.len()]);
    }
    text
}

/// Makes `count` lines, of which every `wide`-th isn't ASCII, or none if `wide` is 0.
pub fn lines(rt: &impl Abort, alloc: Global, count: u32, wide: u32) -> String {
    let mut text = String::new(alloc);
    for number in 0..count {
        if number > 0 {
            add(rt, &mut text, '\n');
        }
        let is_wide = wide > 0 && number % wide == 0;
        let line = if is_wide { "l\u{e9}t" } else { "x;" };
        text.push_str(line).expect(rt, line);
    }
    text
}

/// Makes a random text of at most `most` characters, with lines of ASCII, or with lines of both kinds.
pub fn random_text(rt: &impl Abort, alloc: Global, random: &mut Random, most: u32) -> String {
    let mut text = String::new(alloc);
    let count = random.up_to(most);
    let width = random.one_of(&[3, 20, 150, 1000]);
    let narrow = random.one_of(&[0, 1, 4, 40]);
    let mut is_wide = false;
    for _ in 0..count {
        if random.up_to(width) == 0 {
            add(rt, &mut text, '\n');
            is_wide = random.up_to(narrow) == 1;
        } else if is_wide {
            add(rt, &mut text, random.one_of(WIDE));
        } else {
            add(rt, &mut text, random.one_of(&['a', ' ', '\t', ';']));
        }
    }
    text
}

/// Appends the character to the text.
fn add(rt: &impl Abort, text: &mut String, c: char) {
    text.push(c).expect(rt, "a text");
}
