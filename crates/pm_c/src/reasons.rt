//! Why a text doesn't parse.
ghost use Rattle.std.specs.Prelude.{◌≡◌};
ghost use Rattle.pm_c.specs.Calls.{ExplainAnswer};
ghost use Rattle.pm_c.specs.Reasons.{detail_number, reason_number, explanation_record};

use crate::codes::{DONE, MAP_FULL, NO_MEMORY, NOT_UTF8};
use crate::faults::fault_number;
use crate::records::PmExplanation;
use explain::{ExplainError, Explained, Reason, explain};
use std::alloc::Global;
use std::str;

/// Returns why a text doesn't parse, and where.
pub(crate) fn explain_text(alloc: Global, source: &[u8]) -> PmExplanation
    ensures { ExplainAnswer source.now result }
{
    let Ok(text) = str::from_utf8(source) else {
        return PmExplanation::without_reason(NOT_UTF8);
    };
    match explain(alloc, text) {
        Ok(None) => PmExplanation::without_reason(DONE),
        Ok(Some(explained)) => explanation_record(&explained),
        Err(ExplainError::MapFull) => PmExplanation::without_reason(MAP_FULL),
        Err(ExplainError::Memory(_)) => PmExplanation::without_reason(NO_MEMORY),
    }
}

/// Returns the record for C of an explanation.
fn explanation_record(explained: &Explained) -> PmExplanation
    ensures { result ≡ explanation_record explained.now }
{
    let (opener_start, opener_end) = match &explained.innermost {
        Some(opener) => (opener.at.start, opener.at.end),
        None => (0, 0),
    };
    PmExplanation {
        code: DONE,
        reason: reason_number(&explained.reason),
        detail: detail_number(&explained.reason),
        fault: explained.before.start,
        start: explained.at.start,
        end: explained.at.end,
        opener_start,
        opener_end,
    }
}

/// Returns the number of a reason. The reasons count from 1, in the order in which they are declared.
fn reason_number(reason: &Reason) -> u32
    ensures { result ≡ reason_number reason.now }
{
    match reason {
        Reason::UnclosedComment => 1,
        Reason::BareReturnInDoc => 2,
        Reason::UnclosedString => 3,
        Reason::UnclosedRawString => 4,
        Reason::TooManyHashes => 5,
        Reason::HashesWithoutQuote => 6,
        Reason::ReservedRawName => 7,
        Reason::UnclosedCharacter => 8,
        Reason::Content(_) => 9,
        Reason::DigitLifetime => 10,
        Reason::HashAfterLifetime => 11,
        Reason::NoDigits => 12,
        Reason::BadDigit => 13,
        Reason::BadNumberEnd => 14,
        Reason::MisplacedMark => 15,
        Reason::NoToken => 16,
        Reason::StrayCloser => 17,
        Reason::MismatchedCloser => 18,
        Reason::UnclosedOpener => 19,
    }
}

/// Returns the number of the error for the content of a literal, and 0 for every other reason.
fn detail_number(reason: &Reason) -> u32
    ensures { result ≡ detail_number reason.now }
{
    match reason {
        Reason::Content(fault) => fault_number(fault),
        _ => 0,
    }
}
