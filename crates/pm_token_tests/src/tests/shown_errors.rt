// The `Debug` and `Display` texts of errors.
use crate::tests::checks::{are_displayed, are_shown, displays, read_literal, shows};
use literal_escaper::EscapeError;
use pm_span::Span;
use pm_span::parts::span_of;
use pm_token::parts::fault;
use pm_token::{ConversionErrorKind, IdentError, ParseError};
use std::alloc::{AllocError, Global};
use std::process::Abort;
use test_helpers::release;

/// Asserts the `Debug` text of the error for a text that is no literal.
fn is_refused_as(rt: &impl Abort, alloc: Global, text: &str, want: &str) {
    let refused = read_literal(alloc, text).err();
    shows(rt, alloc, &refused, want);
    release(refused);
}

#[test]
fn a_fault_shows_its_span_wherever_it_is(rt: HostRuntime) {
    let rows = [
        (fault(Span::call_site()), "LexError { span: bytes(0..0) }"),
        (fault(span_of(1, 1)), "LexError { span: bytes(1..1) }"),
        (fault(span_of(28, 30)), "LexError { span: bytes(28..30) }"),
    ];
    are_shown(&rt, rt.alloc(), &rows);
    let want = "Some(Lex(LexError { span: bytes(0..0) }))";
    is_refused_as(&rt, rt.alloc(), "- 1", want);
}

#[test]
fn an_error_of_parsing_shows_its_kind(rt: HostRuntime) {
    let rows = [
        (
            ParseError::Lex(fault(span_of(2, 2))),
            "Lex(LexError { span: bytes(2..2) })",
        ),
        (ParseError::MapFull, "MapFull"),
        (ParseError::Memory(AllocError), "Memory(AllocError)"),
    ];
    are_shown(&rt, rt.alloc(), &rows);
}

#[test]
fn an_error_of_parsing_says_what_is_wrong(rt: HostRuntime) {
    let fault_says = "cannot parse string into token stream";
    displays(&rt, rt.alloc(), &fault(span_of(2, 2)), fault_says);
    let rows = [
        (ParseError::Lex(fault(Span::call_site())), fault_says),
        (ParseError::MapFull, "map full"),
        (ParseError::Memory(AllocError), "no memory"),
    ];
    are_displayed(&rt, rt.alloc(), &rows);
}

#[test]
fn an_error_of_a_name_shows_its_kind(rt: HostRuntime) {
    let rows = &[
        (IdentError::Empty, "Empty"),
        (IdentError::Number, "Number"),
        (IdentError::Invalid, "Invalid"),
        (IdentError::Reserved, "Reserved"),
        (IdentError::Memory(AllocError), "Memory(AllocError)"),
    ];
    are_shown(&rt, rt.alloc(), rows);
}

#[test]
fn an_error_of_a_name_says_what_is_wrong(rt: HostRuntime) {
    let rows = &[
        (
            IdentError::Empty,
            "an identifier has at least one character",
        ),
        (IdentError::Number, "a number is no identifier"),
        (IdentError::Invalid, "not a valid identifier"),
        (
            IdentError::Reserved,
            "this name is reserved, and can't be raw",
        ),
        (IdentError::Memory(AllocError), "no memory"),
    ];
    are_displayed(&rt, rt.alloc(), rows);
}

#[test]
fn a_refusal_of_a_value_shows_its_fault(rt: HostRuntime) {
    let rows = &[
        (
            ConversionErrorKind::FailedToUnescape(EscapeError::BareCarriageReturn),
            "FailedToUnescape(BareCarriageReturn)",
        ),
        (
            ConversionErrorKind::InvalidLiteralKind,
            "InvalidLiteralKind",
        ),
        (
            ConversionErrorKind::Memory(AllocError),
            "Memory(AllocError)",
        ),
    ];
    are_shown(&rt, rt.alloc(), rows);
}

#[test]
fn a_refusal_of_a_value_says_what_is_wrong(rt: HostRuntime) {
    let rows = &[
        (
            ConversionErrorKind::FailedToUnescape(EscapeError::LoneSlash),
            "cannot unescape the literal",
        ),
        (
            ConversionErrorKind::InvalidLiteralKind,
            "the literal is of another kind or has a suffix",
        ),
        (ConversionErrorKind::Memory(AllocError), "no memory"),
    ];
    are_displayed(&rt, rt.alloc(), rows);
}

#[test]
fn an_error_of_a_content_says_what_is_wrong(rt: HostRuntime) {
    let rows = &[
        (EscapeError::LoneSlash, "nothing follows the backslash"),
        (EscapeError::NulInCStr, "a zero in a C string"),
    ];
    are_displayed(&rt, rt.alloc(), rows);
}
