//! Calls for the crates that make tokens. Users of the library do not need them.
ghost use Rattle.std.specs.Prelude.{◌≡◌, IfOk, IsTrue, MatchOption, false, true};
ghost use Rattle.std.specs.Str.{chars};
ghost use Rattle.lexical.specs.Mark.{is_mark};
ghost use Rattle.lexical.specs.Token as tokens;
ghost use Rattle.pm_token.specs.Built.{IsBuiltToken};
ghost use Rattle.pm_token.specs.Escaped.{string_text};
ghost use Rattle.pm_token.specs.Negative.{has_minus, minus_of, number_of};

use crate::errors::LexError;
pub use crate::escapes::{TextBuilder, begins_octal, is_bare};
use crate::identifiers::Ident;
use crate::literals::Literal;
use crate::marks::{Punct, Spacing};
use pm_span::Span;
use pm_span::parts::bounds;
use std::alloc::{AllocError, Global};
use std::fmt;

/// Makes the identifier of this name, which has no `r#` even if it is raw. Out of memory is the only error.
// Inlined, because most tokens of a text are identifiers.
#[inline(always)]
pub fn ident(alloc: Global, name: &str, raw: bool, span: Span) -> Result<Ident, AllocError>
    requires { IsBuiltToken (tokens.Name raw (chars name.now)) }
    ensures ok { IfOk result (λ ident. ident ≡ record { name = chars name.now; raw = raw; span = span }) }
{
    Ident::from_parts(alloc, name, raw, span)
}

/// Borrows the name of the identifier, without `r#` even if it is raw. Nothing is copied.
#[inline(always)]
pub fn name_of(ident: &Ident) -> &str
    ensures { chars result.now ≡ ident.now.name }
{
    ident.name()
}

/// Returns whether the identifier is raw.
#[inline(always)]
pub fn is_raw(ident: &Ident) -> bool
    ensures { result ≡ ident.now.raw }
{
    ident.is_raw()
}

/// Drops the identifier, as `drop` does, but field by field and inlined.
///
/// `drop` takes the address of the whole identifier. So an identifier that was just moved out of a list would
/// first be written to the stack. Here a short name, which owns no memory, costs nothing.
#[inline(always)]
pub fn discard(ident: Ident) {
    ident.discard();
}

/// Makes the mark of this character.
pub fn punct(mark: char, spacing: Spacing, span: Span) -> Punct
    requires { IsTrue (is_mark mark) }
    ensures { result ≡ record { mark = mark; spacing = spacing; span = span } }
{
    Punct::from_parts(mark, spacing, span)
}

/// Makes the literal of this text (`literal-token`). Out of memory is the only error.
pub fn literal(alloc: Global, text: &str, span: Span) -> Result<Literal, AllocError>
    requires { IsBuiltToken (tokens.Literal (chars text.now)) }
    ensures ok { IfOk result (λ literal. literal ≡ record { text = chars text.now; span = span }) }
{
    Literal::from_parts(alloc, text, span)
}

/// Splits a negative literal into its `-`, which is `Alone`, and its number. Both have the literal's span. Any
/// other literal is returned whole, without a mark. This allocates nothing.
pub fn split_minus(literal: Literal) -> (Option<Punct>, Literal)
    ensures { MatchOption result.0 ((has_minus literal.text ≡ false) × (result.1 ≡ literal))
        (λ minus. (has_minus literal.text ≡ true)
        × (minus ≡ minus_of literal) × (result.1 ≡ number_of literal)) }
{
    literal.split_minus()
}

/// Makes the string literal of the text. Out of memory is the only error.
pub fn string_literal(alloc: Global, text: &str, span: Span) -> Result<Literal, AllocError>
    ensures ok { IfOk result (λ literal.
        literal ≡ record { text = string_text (chars text.now); span = span }) }
{
    Literal::string_at(alloc, text, span)
}

/// Makes the syntax error with this span.
pub fn fault(span: Span) -> LexError
    ensures { result ≡ span }
{
    LexError::at(span)
}

/// Shows a token's span, unless it is 0..0.
pub fn show_span<W: fmt::Write>(debug: &mut fmt::DebugStruct<'_, W>, span: Span) {
    if bounds(span) != (0, 0) {
        debug.field("span", &span);
    }
}
