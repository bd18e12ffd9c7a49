//! Reads the values of literals.
ghost use Rattle.std.specs.Prelude.{◌≡◌, ◌↔◌, [], ◌∷◌, IfErr, IfOk, OnOk};
ghost use Rattle.std.specs.Str.{chars, IsUtf8};
ghost use Rattle.proc_macro2.specs.LiteralText.{IsWholeLiteral};
ghost use Rattle.proc_macro2.specs.Value.{byte_str_value, cstr_value, str_value};
ghost use Rattle.proc_macro2.specs.declared.ConversionErrorKind.TheVariants.{InvalidLiteralKind};
ghost use Rattle.pm_c.specs.Calls.{
  HasBytesValue,
  HasTextValue,
  IsAmong,
  IsNumbered,
  IsOtherText,
  KeepsAllButBytes,
  KeepsAllButText,
  ValueAnswer,
};
ghost use Rattle.pm_c.specs.declared.codes.TheConstants.{DONE, NO_LITERAL, NO_MEMORY, NOT_UTF8};
ghost use Rattle.pm_c.specs.declared.codes.TheConstants.{NOT_UNESCAPED, OTHER_KIND};

use crate::codes::{NO_LITERAL, NO_MEMORY, NOT_UNESCAPED, NOT_UTF8, OTHER_KIND};
use crate::faults::fault_number;
use crate::records::PmAnswer;
use crate::session::Session;
use proc_macro2::{ConversionErrorKind, Literal};
use std::alloc::Global;
use std::str;

impl Session {
    /// Writes the value of a string literal into the session's text.
    pub(crate) fn str_value(&mut self, text: &[u8]) -> PmAnswer
        ensures answer { ValueAnswer (str_value (chars text.now)) text.now self.old self.new result }
        ensures done { result.code ≡ DONE → HasTextValue (str_value (chars text.now)) self.new result }
        ensures kept { KeepsAllButText self.old self.new }
    {
        let literal = match literal_of(self.alloc, text) {
            Ok(literal) => literal,
            Err(answer) => return answer,
        };
        match literal.str_value(self.alloc) {
            Ok(value) => {
                self.text = value;
                PmAnswer::success(0, self.text.len())
            }
            Err(error) => refusal(error),
        }
    }

    /// Writes the value of a byte string literal into the session's bytes.
    pub(crate) fn byte_str_value(&mut self, text: &[u8]) -> PmAnswer
        ensures answer { ValueAnswer (byte_str_value (chars text.now)) text.now self.old self.new result }
        ensures done { result.code ≡ DONE → HasBytesValue (byte_str_value (chars text.now)) self.new result }
        ensures kept { KeepsAllButBytes self.old self.new }
    {
        let literal = match literal_of(self.alloc, text) {
            Ok(literal) => literal,
            Err(answer) => return answer,
        };
        match literal.byte_str_value(self.alloc) {
            Ok(value) => {
                self.bytes = value;
                PmAnswer::success(0, self.bytes.len())
            }
            Err(error) => refusal(error),
        }
    }

    /// Writes the value of a C string literal, with the zero at its end, into the session's bytes.
    pub(crate) fn cstr_value(&mut self, text: &[u8]) -> PmAnswer
        ensures answer { ValueAnswer (cstr_value (chars text.now)) text.now self.old self.new result }
        ensures done { result.code ≡ DONE → HasBytesValue (cstr_value (chars text.now)) self.new result }
        ensures kept { KeepsAllButBytes self.old self.new }
    {
        let literal = match literal_of(self.alloc, text) {
            Ok(literal) => literal,
            Err(answer) => return answer,
        };
        match literal.cstr_value(self.alloc) {
            Ok(value) => {
                self.bytes = value;
                PmAnswer::success(0, self.bytes.len())
            }
            Err(error) => refusal(error),
        }
    }
}

/// Returns the literal that the whole text is, or the result that says why it is none.
fn literal_of(alloc: Global, text: &[u8]) -> Result<Literal, PmAnswer>
    ensures ok { IfOk result (λ literal. literal.text ≡ chars text.now) }
    ensures utf8 { OnOk result (IsUtf8 text.now) }
    ensures whole { OnOk result (IsWholeLiteral (chars text.now)) }
    ensures not_utf8 { IfErr result (λ answer. (answer.code ≡ NOT_UTF8) ↔ (IsUtf8 text.now → ⊥)) }
    ensures no_literal { IfErr result (λ answer. (answer.code ≡ NO_LITERAL) ↔ IsOtherText text.now) }
    ensures codes { IfErr result (λ answer. IsAmong (NOT_UTF8 ∷ NO_LITERAL ∷ NO_MEMORY ∷ []) answer.code) }
{
    let Ok(text) = str::from_utf8(text) else {
        return Err(PmAnswer::with_error(NOT_UTF8));
    };
    if !Literal::is_whole(text) {
        return Err(PmAnswer::with_error(NO_LITERAL));
    }
    match Literal::from_str_unchecked(alloc, text) {
        Ok(literal) => Ok(literal),
        Err(_) => Err(PmAnswer::with_error(NO_MEMORY)),
    }
}

/// Returns the result that says why a literal has no value.
fn refusal(error: ConversionErrorKind) -> PmAnswer
    ensures codes { IsAmong (NO_MEMORY ∷ NOT_UNESCAPED ∷ OTHER_KIND ∷ []) result.code }
    ensures kind { result.code ≡ OTHER_KIND → error ≡ InvalidLiteralKind }
    ensures unescaped { result.code ≡ NOT_UNESCAPED → IsNumbered error result.number }
{
    match error {
        ConversionErrorKind::InvalidLiteralKind => PmAnswer::with_error(OTHER_KIND),
        ConversionErrorKind::FailedToUnescape(fault) => PmAnswer {
            code: NOT_UNESCAPED,
            number: fault_number(&fault),
            bytes: 0,
        },
        ConversionErrorKind::Memory(_) => PmAnswer::with_error(NO_MEMORY),
    }
}
