// The literals of bytes that are no text. The literals of texts are among the recorded answers of `conformance`.
use crate::tests::checks::is_written;
use pm_token::Literal;

#[test]
fn bytes_that_are_no_text_are_written_with_escapes(rt: HostRuntime) {
    let alloc = rt.alloc();
    is_written(&rt, Literal::byte_character(alloc, 0xAB), "b'\\xAB'");
    let bytes = b"\x1F ~\x7F\x80\xFF";
    is_written(
        &rt,
        Literal::byte_string(alloc, bytes),
        "b\"\\x1F ~\\x7F\\x80\\xFF\"",
    );
    let bytes = b"\x7F\xFF\xFE\xCC\xB3";
    is_written(
        &rt,
        Literal::c_string(alloc, bytes),
        "c\"\\u{7f}\\xFF\\xFE\\u{333}\"",
    );
    let bytes = b"\xE2\x82a\xF0\x9F\x98";
    is_written(
        &rt,
        Literal::c_string(alloc, bytes),
        "c\"\\xE2\\x82a\\xF0\\x9F\\x98\"",
    );
    let bytes = b"\xC3\xA9\x80\xC0\x80";
    is_written(
        &rt,
        Literal::c_string(alloc, bytes),
        "c\"\u{E9}\\x80\\xC0\\x80\"",
    );
}
