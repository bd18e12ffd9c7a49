//! Why no number begins at a digit.
#![tactic(auto, using(lexical::proofs::RuleSteps::steps))]

ghost use Rattle.std.specs.Prelude.{◌≡◌, None, false, true};
ghost use Rattle.std.specs.Str.{chars};
ghost use Rattle.std.specs.Char.{is_ascii_digit};
ghost use Rattle.lexical.specs.Number as rule;
ghost use Rattle.lexical.specs.Rule.{Exactly, One, Then, find};
ghost use Rattle.lexical.specs.RuleMatch.{Passes};
ghost use Rattle.lexical.specs.Text.{first_passes};
ghost use Rattle.lexical.specs.Bytes.{radix};
ghost use Rattle.explain.specs.Shapes.{base_prefix, ends_badly};
ghost use Rattle.explain.specs.Trouble.{IsTrouble};

use crate::reason::Reason;
use crate::trouble::Trouble;
use lexical::parts::{Base, Class, TextCursor, one, skip};

/// Returns the cursor after a character that may not follow a number.
#[tactic(auto, using(crate::proofs::NumberLemmas::past_bad))]
fn past_bad_end(end: TextCursor<'_>) -> TextCursor<'_>
    requires none { find rule.end (chars end.rest.now) ≡ None }
    requires digit { first_passes is_ascii_digit (chars end.rest.now) ≡ false }
    ensures { Passes (One ends_badly) end.entry result }
{
    let Some((_, after)) = end.advance() else {
        unreachable!()
    };
    after
}

/// Returns why no number of this base begins at the cursor. `inside` is after the prefix of the base.
fn no_based_number<'a>(at: TextCursor<'a>, inside: TextCursor<'a>, base: Base) -> Trouble<'a>
    requires prefix { Passes (Exactly (base_prefix base)) at inside }
    requires none { find (Then (rule.digits_in (radix base)) rule.end) (chars inside.rest.now) ≡ None }
    ensures { IsTrouble at.entry result }
{
    let start = skip(inside, Class::Underscore);
    match one(start, Class::DigitOf(base)) {
        Some(first) => {
            let end = skip(first, Class::DigitOrUnderscoreOf(base));
            match one(end, Class::Digit) {
                Some(after) => Trouble {
                    reason: Reason::BadDigit,
                    at: end,
                    after,
                },
                None => Trouble {
                    reason: Reason::BadNumberEnd,
                    at: end,
                    after: past_bad_end(end),
                },
            }
        }
        None => match one(start, Class::Digit) {
            Some(after) => Trouble {
                reason: Reason::BadDigit,
                at: start,
                after,
            },
            None => Trouble {
                reason: Reason::NoDigits,
                at,
                after: start,
            },
        },
    }
}

/// Returns why no number begins at the cursor, which is before a digit.
pub fn number(at: TextCursor<'_>) -> Trouble<'_>
    requires digit { first_passes is_ascii_digit (chars at.rest.now) ≡ true }
    requires none { find rule.number (chars at.rest.now) ≡ None }
    ensures { IsTrouble at.entry result }
{
    if let Some(inside) = at.past("0x") {
        return no_based_number(at, inside, Base::Hexadecimal);
    }
    if let Some(inside) = at.past("0o") {
        return no_based_number(at, inside, Base::Octal);
    }
    if let Some(inside) = at.past("0b") {
        return no_based_number(at, inside, Base::Binary);
    }
    let Some(first) = one(at, Class::Digit) else {
        unreachable!()
    };
    let end = skip(first, Class::DigitOrUnderscore);
    Trouble {
        reason: Reason::BadNumberEnd,
        at: end,
        after: past_bad_end(end),
    }
}
