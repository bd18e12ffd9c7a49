//! Tokens of truth values and numbers.
ghost use Rattle.std.specs.Prelude.{◌≡◌, IfOk, false};
ghost use Rattle.std.specs.Str.{chars};
ghost use Rattle.proc_macro2.specs.Extent.{nowhere};
ghost use Rattle.quoting.specs.Values.{number_text, truth_text};

use crate::values::Number;
use proc_macro2::{Ident, Literal, Span};
use std::alloc::{AllocError, Global};

/// Returns the text `true` or `false`.
#[tactic(auto, using(crate::proofs::NameLemmas::true_chars, crate::proofs::NameLemmas::false_chars))]
fn truth_name(truth: bool) -> &'static str
    ensures { chars result.now ≡ truth_text truth }
{
    if truth { "true" } else { "false" }
}

/// Returns the identifier `true` or `false`.
pub(crate) fn truth_ident(alloc: Global, truth: bool) -> Result<Ident, AllocError>
    ensures { IfOk result (λ ident. ident ≡ record { name = truth_text truth; raw = false; span = nowhere }) }
{
    match Ident::new(alloc, truth_name(truth), Span::call_site()) {
        Ok(ident) => Ok(ident),
        Err(_) => Err(AllocError),
    }
}

/// Returns the literal of the number, with its suffix.
pub(crate) fn number_literal(alloc: Global, number: Number) -> Result<Literal, AllocError>
    ensures { IfOk result (λ literal. literal ≡ record { text = number_text number; span = nowhere }) }
{
    match number {
        Number::U8(n) => Literal::u8_suffixed(alloc, n),
        Number::U16(n) => Literal::u16_suffixed(alloc, n),
        Number::U32(n) => Literal::u32_suffixed(alloc, n),
        Number::U64(n) => Literal::u64_suffixed(alloc, n),
        Number::U128(n) => Literal::u128_suffixed(alloc, n),
        Number::Usize(n) => Literal::usize_suffixed(alloc, n),
        Number::I8(n) => Literal::i8_suffixed(alloc, n),
        Number::I16(n) => Literal::i16_suffixed(alloc, n),
        Number::I32(n) => Literal::i32_suffixed(alloc, n),
        Number::I64(n) => Literal::i64_suffixed(alloc, n),
        Number::I128(n) => Literal::i128_suffixed(alloc, n),
        Number::Isize(n) => Literal::isize_suffixed(alloc, n),
    }
}
