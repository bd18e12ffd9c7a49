use crate::tests::checks::{check_answer, displays, shows};
use pm_token::{Punct, Spacing};

/// The 22 marks.
const MARKS: &str = "~!@#$%^&*-=+|;:,<.>/?'";

#[test]
fn the_marks_are_22_characters_of_ascii(rt: HostRuntime) {
    check_answer(&rt, MARKS, &MARKS.len(), &22);
    for code in 0..128 {
        let c = char::from(code);
        let (answer, want) = (Punct::is_punct_char(c), MARKS.contains(c));
        check_answer(&rt, MARKS, &(c, answer), &(c, want));
    }
}

#[test]
fn no_character_past_ascii_is_a_mark(rt: HostRuntime) {
    for &c in &[
        '\u{80}',
        '×',
        '\u{2019}',
        '\u{2026}',
        '\u{FF0B}',
        '\u{10FFFF}',
    ] {
        check_answer(&rt, MARKS, &(c, Punct::is_punct_char(c)), &(c, false));
    }
}

#[test]
fn a_new_mark_stands_nowhere(rt: HostRuntime) {
    let alloc = rt.alloc();
    let mark = Punct::new('\'', Spacing::Joint);
    displays(&rt, alloc, &mark, "'");
    shows(&rt, alloc, &mark, "Punct { char: '\\'', spacing: Joint }");
}
