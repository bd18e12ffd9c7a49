// The units of contents. The items of each content are among the recorded answers of `conformance`.
use crate::tests::checks::check_answer;
use literal_escaper::{EscapeError, Mode, NonZeroChar, NonZeroU8, unescape_str};
use std::process::Abort;

#[test]
fn the_value_zero_is_refused(rt: HostRuntime) {
    check_answer(&rt, "the character 0", &NonZeroChar::new('\0'), &None);
    check_answer(&rt, "the byte 0", &NonZeroU8::new(0), &None);
    let character = NonZeroChar::new('a').map(|c| c.get());
    check_answer(&rt, "a", &character, &Some('a'));
    let byte = NonZeroU8::new(0xFF).map(|b| b.get());
    check_answer(&rt, "the byte 0xFF", &byte, &Some(0xFF));
}

/// Asserts whether contents of this kind are in double quotes, and after which prefix.
fn check_prefix(rt: &impl Abort, mode: Mode, quoted: bool, prefix: &str) {
    let answers = (mode, mode.in_double_quotes(), mode.prefix_noraw());
    check_answer(rt, "quotes and prefix", &answers, &(mode, quoted, prefix));
}

#[test]
fn a_kind_of_literal_has_its_prefix(rt: HostRuntime) {
    check_prefix(&rt, Mode::Char, false, "");
    check_prefix(&rt, Mode::Byte, false, "b");
    check_prefix(&rt, Mode::Str, true, "");
    check_prefix(&rt, Mode::RawStr, true, "");
    check_prefix(&rt, Mode::ByteStr, true, "b");
    check_prefix(&rt, Mode::RawByteStr, true, "b");
    check_prefix(&rt, Mode::CStr, true, "c");
    check_prefix(&rt, Mode::RawCStr, true, "c");
}

#[test]
fn the_warnings_are_not_fatal(rt: HostRuntime) {
    assert!(rt; !EscapeError::UnskippedWhitespaceWarning.is_fatal());
    assert!(rt; !EscapeError::MultipleSkippedLinesWarning.is_fatal());
    assert!(rt; EscapeError::NulInCStr.is_fatal());
}

#[test]
fn no_item_comes_after_the_last(rt: HostRuntime) {
    let mut items = unescape_str("a");
    assert!(rt; items.next().is_some());
    assert!(rt; items.next().is_none());
    assert!(rt; items.next().is_none());
}
