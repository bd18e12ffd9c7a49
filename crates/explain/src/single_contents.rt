//! The first error in the content of a character or byte literal that is closed.
#![tactic(auto, using(lexical::proofs::RuleSteps::steps))]

ghost use Rattle.std.specs.Prelude.{◌≡◌, None};
ghost use Rattle.std.specs.Str.{chars};
ghost use Rattle.lexical.specs.Character.{single_quote};
ghost use Rattle.lexical.specs.Rule.{Exactly, Stands, find};
ghost use Rattle.lexical.specs.RuleMatch.{Passes};
ghost use Rattle.explain.specs.Content.{is_of_literal as of_literal};
ghost use Rattle.explain.specs.Shapes.{closed_character, single_front, single_rule};
ghost use Rattle.explain.specs.Trouble.{IsTrouble};
ghost use Rattle.explain.specs.Walk.{IsInside, IsPast, IsSingleFault, single_mode};

use crate::contents::{content, faulty};
use crate::quotes::SingleKind;
use crate::reason::Reason;
use crate::trouble::Trouble;
use lexical::parts::TextCursor;
use literal_escaper::{EscapeError, Mode, check_for_errors};

/// Returns the escaper's mode for this kind of literal.
fn mode_of(kind: SingleKind) -> Mode
    ensures { result ≡ single_mode kind }
{
    match kind {
        SingleKind::Character => Mode::Char,
        SingleKind::Byte => Mode::Byte,
    }
}

/// Returns the error in the content, after the number of bytes that were read for it. Returns `None` if there is no
/// error.
fn fault_of(content: &str, kind: SingleKind) -> Option<(usize, EscapeError)>
    ensures { IsSingleFault kind (chars content.now) result }
{
    let (range, error) = check_for_errors(content, mode_of(kind)).next()?;
    Some((range.end, error))
}

/// Whether the whole literal is wrong.
fn is_of_literal(error: &EscapeError) -> bool
    ensures { result ≡ of_literal error.now }
{
    matches!(error, EscapeError::ZeroChars | EscapeError::MoreThanOneChar)
}

/// Returns the first error in the content of a character or byte literal that begins at `at`. Its content begins at
/// `inside`, and `end` is after its closing quote.
pub fn single_content<'a>(
    at: TextCursor<'a>,
    inside: TextCursor<'a>,
    end: TextCursor<'a>,
    kind: SingleKind,
) -> Trouble<'a>
    requires opens { Passes (Exactly (single_front kind)) at inside }
    requires closed { (past : IsPast at end) × Stands closed_character past.part (chars end.rest.now) }
    requires closes { IsInside single_quote inside end }
    requires none { find (single_rule kind) (chars at.rest.now) ≡ None }
    ensures { IsTrouble at.entry result }
{
    match fault_of(content(inside, end), kind) {
        Some((size, error)) => {
            if is_of_literal(&error) {
                return Trouble {
                    reason: Reason::Content(error),
                    at,
                    after: end,
                };
            }
            faulty(inside, inside.after_bytes(size), error)
        }
        None => unreachable!(),
    }
}
