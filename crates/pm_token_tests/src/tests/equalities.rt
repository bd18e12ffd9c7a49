// Values are equal exactly if they are the same variant and have equal parts.
use crate::tests::checks::are_distinct;
use literal_escaper::EscapeError;
use pm_token::{ConversionErrorKind, Delimiter, Spacing};
use std::alloc::AllocError;

#[test]
fn delimiters_are_equal_to_themselves_alone(rt: HostRuntime) {
    let delimiters = &[
        Delimiter::Parenthesis,
        Delimiter::Brace,
        Delimiter::Bracket,
        Delimiter::None,
    ];
    are_distinct(&rt, delimiters);
}

#[test]
fn spacings_are_equal_to_themselves_alone(rt: HostRuntime) {
    are_distinct(&rt, &[Spacing::Alone, Spacing::Joint]);
}

#[test]
fn refusals_of_values_are_equal_by_their_faults(rt: HostRuntime) {
    let refusals = [
        ConversionErrorKind::FailedToUnescape(EscapeError::LoneSlash),
        ConversionErrorKind::FailedToUnescape(EscapeError::InvalidEscape),
        ConversionErrorKind::InvalidLiteralKind,
        ConversionErrorKind::Memory(AllocError),
    ];
    are_distinct(&rt, &refusals);
}
