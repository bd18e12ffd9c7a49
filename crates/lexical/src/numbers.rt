//! Numbers, read by their characters.
#![tactic(auto, using(crate::proofs::RuleSteps::steps))]

ghost use Rattle.std.specs.Prelude.{◌≡◌, IsTrue};
ghost use Rattle.std.specs.Str.{chars};
ghost use Rattle.lexical.specs.Ascii.{all_ascii};
ghost use Rattle.lexical.specs.Bytes.{radix};
ghost use Rattle.lexical.specs.Number as rule;
ghost use Rattle.lexical.specs.Number.{base_prefixes};
ghost use Rattle.lexical.specs.Rule.{Exactly, Then};
ghost use Rattle.lexical.specs.RuleMatch.{Reads};
ghost use Rattle.lexical.specs.Text.{begins_any};

use crate::bytes::{Base, Class, is_next, one, skip};
use crate::cursor::TextCursor;
use crate::quoted::suffix;
use crate::text::begins;

/// Returns the cursor after the digits at the cursor, by the rule `digits`.
fn digits(at: TextCursor<'_>) -> Option<TextCursor<'_>>
    ensures { Reads rule.digits at.entry result }
{
    let after = one(at, Class::Digit)?;
    Some(skip(after, Class::DigitOrUnderscore))
}

/// Returns the cursor after the suffix of a number, by the rule `number-end`.
fn end(at: TextCursor<'_>) -> Option<TextCursor<'_>>
    ensures { Reads rule.end at.entry result }
{
    let end = suffix(at);
    if is_next(end, Class::IdentifierContinue) {
        None
    } else {
        Some(end)
    }
}

/// Returns the cursor after the dot of a number, by the rule `dot`.
fn dot(at: TextCursor<'_>) -> Option<TextCursor<'_>>
    ensures { Reads rule.dot at.entry result }
{
    let end = at.past(".")?;
    if is_next(end, Class::BarsDot) {
        None
    } else {
        Some(end)
    }
}

/// Returns the cursor after the exponent at the cursor, by the rule `exponent`.
fn exponent(at: TextCursor<'_>) -> Option<TextCursor<'_>>
    ensures { Reads rule.exponent at.entry result }
{
    let letter = one(at, Class::ExponentLetter)?;
    let sign = skip(letter, Class::Underscore);
    let after = match one(sign, Class::Sign) {
        Some(after) => after,
        None => sign,
    };
    digits(skip(after, Class::Underscore))
}

/// Returns the cursor after a number's dot and everything that follows the dot in the number.
fn fraction(at: TextCursor<'_>) -> Option<TextCursor<'_>>
    ensures { Reads rule.fraction at.entry result }
{
    let after = skip(dot(at)?, Class::DigitOrUnderscore);
    match exponent(after) {
        Some(after) => end(after),
        None => end(after),
    }
}

/// Returns the cursor after the part that makes a float of the digits before it.
fn float_tail(at: TextCursor<'_>) -> Option<TextCursor<'_>>
    ensures { Reads rule.float_tail at.entry result }
{
    match fraction(at) {
        Some(end) => Some(end),
        None => end(exponent(at)?),
    }
}

/// Returns the cursor after a number that begins with no prefix of a base.
fn decimal(at: TextCursor<'_>) -> Option<TextCursor<'_>>
    ensures { Reads (Then rule.digits rule.tail) at.entry result }
{
    let after = digits(at)?;
    match float_tail(after) {
        Some(end) => Some(end),
        None => end(after),
    }
}

/// Returns the cursor after the digits of this base, by the rule `base-digits`. A digit that is too large for the base
/// must not follow.
fn digits_in(at: TextCursor<'_>, base: Base) -> Option<TextCursor<'_>>
    ensures { Reads (rule.digits_in (radix base)) at.entry result }
{
    let first = one(skip(at, Class::Underscore), Class::DigitOf(base))?;
    let end = skip(first, Class::DigitOrUnderscoreOf(base));
    if is_next(end, Class::Digit) {
        None
    } else {
        Some(end)
    }
}

/// Returns the cursor after the prefix of a base and its digits.
fn prefix_and_digits<'a>(at: TextCursor<'a>, prefix: &str, base: Base) -> Option<TextCursor<'a>>
    requires ascii { IsTrue (all_ascii prefix.now) }
    ensures { Reads (Then (Exactly prefix.now) (rule.digits_in (radix base))) at.entry result }
{
    digits_in(at.past(prefix)?, base)
}

/// Returns the cursor after a prefix and its digits of base 16, 8 or 2, by the rule `based`.
fn based_number(at: TextCursor<'_>) -> Option<TextCursor<'_>>
    ensures { Reads rule.based_number at.entry result }
{
    if let Some(end) = prefix_and_digits(at, "0x", Base::Hexadecimal) {
        return Some(end);
    }
    match prefix_and_digits(at, "0o", Base::Octal) {
        Some(end) => Some(end),
        None => prefix_and_digits(at, "0b", Base::Binary),
    }
}

/// Whether the text begins with the prefix of a base.
#[tactic(auto)]
fn begins_based(text: &str) -> bool
    ensures { result ≡ begins_any base_prefixes (chars text.now) }
{
    begins(text, "0x") || begins(text, "0o") || begins(text, "0b")
}

/// Returns the cursor after the number at the cursor, by the rule `number`.
#[tactic(auto, using(crate::proofs::NumberFinderLemmas::read_numbers, crate::proofs::RuleSteps::steps))]
#[inline(never)]
pub fn number(at: TextCursor<'_>) -> Option<TextCursor<'_>>
    ensures { Reads rule.number at.entry result }
{
    if begins_based(at.rest) {
        end(based_number(at)?)
    } else {
        decimal(at)
    }
}
