//! The errors in the content of a literal, as numbers.
ghost use Rattle.std.specs.Prelude.{◌≡◌};
ghost use Rattle.pm_c.specs.Faults.{fault_number};

use proc_macro2::EscapeError;

/// Returns the number of an error. The errors count from 0, in the order in which they are declared.
pub(crate) fn fault_number(fault: &EscapeError) -> u32
    ensures { result ≡ fault_number fault.now }
{
    match fault {
        EscapeError::ZeroChars => 0,
        EscapeError::MoreThanOneChar => 1,
        EscapeError::LoneSlash => 2,
        EscapeError::InvalidEscape => 3,
        EscapeError::BareCarriageReturn => 4,
        EscapeError::BareCarriageReturnInRawString => 5,
        EscapeError::EscapeOnlyChar => 6,
        EscapeError::TooShortHexEscape => 7,
        EscapeError::InvalidCharInHexEscape => 8,
        EscapeError::OutOfRangeHexEscape => 9,
        EscapeError::NoBraceInUnicodeEscape => 10,
        EscapeError::InvalidCharInUnicodeEscape => 11,
        EscapeError::EmptyUnicodeEscape => 12,
        EscapeError::UnclosedUnicodeEscape => 13,
        EscapeError::LeadingUnderscoreUnicodeEscape => 14,
        EscapeError::OverlongUnicodeEscape => 15,
        EscapeError::LoneSurrogateUnicodeEscape => 16,
        EscapeError::OutOfRangeUnicodeEscape => 17,
        EscapeError::UnicodeEscapeInByte => 18,
        EscapeError::NonAsciiCharInByte => 19,
        EscapeError::NulInCStr => 20,
        EscapeError::UnskippedWhitespaceWarning => 21,
        EscapeError::MultipleSkippedLinesWarning => 22,
    }
}
