//! Makes the literals of integers.
ghost use Rattle.std.specs.Prelude.{◌≡◌, ◌++◌, IfOk, codes};
ghost use Rattle.std.specs.Fmt.{decimal, signed_decimal};
ghost use Rattle.pm_span.specs.Extent.{nowhere};
ghost use Rattle.pm_token.specs.Integer.{suffix_text};
ghost use Rattle.pm_token.specs.Text.{IsText};

use crate::literals::Literal;
use crate::symbols::Symbol;
use itoa::Buffer;
use pm_span::Span;
use std::alloc::{AllocError, Global};

/// The text after the digits of a number: nothing, or the name of a type.
#[derive(Clone, Copy)]
enum Suffix {
    /// Nothing.
    Nothing,
    /// `u8`.
    U8,
    /// `u16`.
    U16,
    /// `u32`.
    U32,
    /// `u64`.
    U64,
    /// `u128`.
    U128,
    /// `usize`.
    Usize,
    /// `i8`.
    I8,
    /// `i16`.
    I16,
    /// `i32`.
    I32,
    /// `i64`.
    I64,
    /// `i128`.
    I128,
    /// `isize`.
    Isize,
}

impl Suffix {
    /// Returns the suffix as it is written.
    #[inline(always)]
    fn name(self) -> &'static str
        ensures { result.now ≡ suffix_text self }
    {
        match self {
            Suffix::Nothing => "",
            Suffix::U8 => "u8",
            Suffix::U16 => "u16",
            Suffix::U32 => "u32",
            Suffix::U64 => "u64",
            Suffix::U128 => "u128",
            Suffix::Usize => "usize",
            Suffix::I8 => "i8",
            Suffix::I16 => "i16",
            Suffix::I32 => "i32",
            Suffix::I64 => "i64",
            Suffix::I128 => "i128",
            Suffix::Isize => "isize",
        }
    }
}

/// Returns the text of a number of 64 bits with its suffix. Out of memory is the only error.
#[inline(always)]
fn narrow_unsigned(alloc: Global, value: u64, suffix: Suffix) -> Result<Symbol, AllocError>
    ensures value { IfOk result (λ text. text ≡ decimal value ++ suffix_text suffix) }
    ensures text { IfOk result IsText }
{
    match Symbol::number(false, value, suffix.name()) {
        Some(text) => Ok(text),
        None => wide_unsigned(alloc, u128::from(value), suffix),
    }
}

/// Returns the text of a signed number of 64 bits with its suffix. Out of memory is the only error.
#[inline(always)]
fn narrow_signed(alloc: Global, value: i64, suffix: Suffix) -> Result<Symbol, AllocError>
    ensures value { IfOk result (λ text. text ≡ signed_decimal value ++ suffix_text suffix) }
    ensures text { IfOk result IsText }
{
    match Symbol::number(value < 0, value.unsigned_abs(), suffix.name()) {
        Some(text) => Ok(text),
        None => wide_signed(alloc, i128::from(value), suffix),
    }
}

/// Returns the text of any number with its suffix. Out of memory is the only error.
fn wide_unsigned(alloc: Global, value: u128, suffix: Suffix) -> Result<Symbol, AllocError>
    ensures value { IfOk result (λ text. text ≡ decimal value ++ suffix_text suffix) }
    ensures text { IfOk result IsText }
{
    let mut buffer = Buffer::new();
    let text = Symbol::concat(alloc, buffer.format(value), suffix.name())?;
    Ok(text)
}

/// Returns the text of any signed number with its suffix. Out of memory is the only error.
fn wide_signed(alloc: Global, value: i128, suffix: Suffix) -> Result<Symbol, AllocError>
    ensures value { IfOk result (λ text. text ≡ signed_decimal value ++ suffix_text suffix) }
    ensures text { IfOk result IsText }
{
    let mut buffer = Buffer::new();
    let text = Symbol::concat(alloc, buffer.format(value), suffix.name())?;
    Ok(text)
}

/// Returns the text of a number with its suffix, in a faster way for 64 bits. Out of memory is the only error.
#[inline(always)]
fn unsigned_text(alloc: Global, value: u128, suffix: Suffix) -> Result<Symbol, AllocError>
    ensures value { IfOk result (λ text. text ≡ decimal value ++ suffix_text suffix) }
    ensures text { IfOk result IsText }
{
    if value <= u128::from(u64::MAX) {
        return narrow_unsigned(alloc, value as u64, suffix);
    }
    wide_unsigned(alloc, value, suffix)
}

/// Returns the text of a signed number with its suffix, as `unsigned_text` does. Out of memory is the only error.
#[inline(always)]
fn signed_text(alloc: Global, value: i128, suffix: Suffix) -> Result<Symbol, AllocError>
    ensures value { IfOk result (λ text. text ≡ signed_decimal value ++ suffix_text suffix) }
    ensures text { IfOk result IsText }
{
    if value >= i128::from(i64::MIN) && value <= i128::from(i64::MAX) {
        return narrow_signed(alloc, value as i64, suffix);
    }
    wide_signed(alloc, value, suffix)
}

/// Makes the literal of a number without a sign.
#[inline(always)]
fn unsigned_literal(alloc: Global, value: u128, suffix: Suffix) -> Result<Literal, AllocError>
    ensures ok { IfOk result (λ literal.
        literal ≡ record { text = decimal value ++ suffix_text suffix; span = nowhere }) }
{
    Ok(Literal {
        text: unsigned_text(alloc, value, suffix)?,
        span: Span::call_site(),
    })
}

/// Makes the literal of a number, with `-` before it if it is negative.
#[inline(always)]
fn signed_literal(alloc: Global, value: i128, suffix: Suffix) -> Result<Literal, AllocError>
    ensures ok { IfOk result (λ literal.
        literal ≡ record { text = signed_decimal value ++ suffix_text suffix; span = nowhere }) }
{
    Ok(Literal {
        text: signed_text(alloc, value, suffix)?,
        span: Span::call_site(),
    })
}

/// Literals of integers.
///
/// A literal without a suffix is the decimal text of the number (`integer-text`), which is the same for
/// a wider type. A literal with a suffix has the type's name after the digits.
impl Literal {
    /// Makes the literal of the number without a suffix, with the span 0..0. For 255 it is `255`.
    /// Out of memory is the only error.
    #[inline]
    pub fn u8_unsuffixed(alloc: Global, value: u8) -> Result<Literal, AllocError>
        ensures ok { IfOk result (λ literal.
            literal ≡ record { text = decimal value; span = nowhere }) }
    {
        Literal::u16_unsuffixed(alloc, u16::from(value))
    }

    /// Makes the literal of the number without a suffix, with the span 0..0. For 65535 it is `65535`.
    /// Out of memory is the only error.
    #[inline]
    pub fn u16_unsuffixed(alloc: Global, value: u16) -> Result<Literal, AllocError>
        ensures ok { IfOk result (λ literal.
            literal ≡ record { text = decimal value; span = nowhere }) }
    {
        Literal::u32_unsuffixed(alloc, u32::from(value))
    }

    /// Makes the literal of the number without a suffix, with the span 0..0. For 3 it is `3`.
    /// Out of memory is the only error.
    #[inline]
    pub fn u32_unsuffixed(alloc: Global, value: u32) -> Result<Literal, AllocError>
        ensures ok { IfOk result (λ literal.
            literal ≡ record { text = decimal value; span = nowhere }) }
    {
        Literal::u64_unsuffixed(alloc, u64::from(value))
    }

    /// Makes the literal of the number without a suffix, with the span 0..0. For 10 it is `10`.
    /// Out of memory is the only error.
    #[inline]
    pub fn u64_unsuffixed(alloc: Global, value: u64) -> Result<Literal, AllocError>
        ensures ok { IfOk result (λ literal.
            literal ≡ record { text = decimal value; span = nowhere }) }
    {
        Literal::u128_unsuffixed(alloc, u128::from(value))
    }

    /// Makes the literal of the number without a suffix, with the span 0..0. For 7 it is `7`.
    /// Out of memory is the only error.
    #[inline]
    pub fn u128_unsuffixed(alloc: Global, value: u128) -> Result<Literal, AllocError>
        ensures ok { IfOk result (λ literal.
            literal ≡ record { text = decimal value; span = nowhere }) }
    {
        unsigned_literal(alloc, value, Suffix::Nothing)
    }

    /// Makes the literal of the number without a suffix, with the span 0..0. For 0 it is `0`.
    /// Out of memory is the only error.
    #[inline]
    pub fn usize_unsuffixed(alloc: Global, value: usize) -> Result<Literal, AllocError>
        ensures ok { IfOk result (λ literal.
            literal ≡ record { text = decimal value; span = nowhere }) }
    {
        unsigned_literal(alloc, value as u128, Suffix::Nothing)
    }

    /// Makes the literal of the number followed by `u8`, with the span 0..0. For 255 it is `255u8`.
    /// Out of memory is the only error.
    #[inline]
    pub fn u8_suffixed(alloc: Global, value: u8) -> Result<Literal, AllocError>
        ensures ok { IfOk result (λ literal.
            literal ≡ record { text = decimal value ++ codes "u8"; span = nowhere }) }
    {
        unsigned_literal(alloc, u128::from(value), Suffix::U8)
    }

    /// Makes the literal of the number followed by `u16`, with the span 0..0. For 65535 it is `65535u16`.
    /// Out of memory is the only error.
    #[inline]
    pub fn u16_suffixed(alloc: Global, value: u16) -> Result<Literal, AllocError>
        ensures ok { IfOk result (λ literal.
            literal ≡ record { text = decimal value ++ codes "u16"; span = nowhere }) }
    {
        unsigned_literal(alloc, u128::from(value), Suffix::U16)
    }

    /// Makes the literal of the number followed by `u32`, with the span 0..0. For 3 it is `3u32`.
    /// Out of memory is the only error.
    #[inline]
    pub fn u32_suffixed(alloc: Global, value: u32) -> Result<Literal, AllocError>
        ensures ok { IfOk result (λ literal.
            literal ≡ record { text = decimal value ++ codes "u32"; span = nowhere }) }
    {
        unsigned_literal(alloc, u128::from(value), Suffix::U32)
    }

    /// Makes the literal of the number followed by `u64`, with the span 0..0. For 10 it is `10u64`.
    /// Out of memory is the only error.
    #[inline]
    pub fn u64_suffixed(alloc: Global, value: u64) -> Result<Literal, AllocError>
        ensures ok { IfOk result (λ literal.
            literal ≡ record { text = decimal value ++ codes "u64"; span = nowhere }) }
    {
        unsigned_literal(alloc, u128::from(value), Suffix::U64)
    }

    /// Makes the literal of the number followed by `u128`, with the span 0..0. For 7 it is `7u128`.
    /// Out of memory is the only error.
    #[inline]
    pub fn u128_suffixed(alloc: Global, value: u128) -> Result<Literal, AllocError>
        ensures ok { IfOk result (λ literal.
            literal ≡ record { text = decimal value ++ codes "u128"; span = nowhere }) }
    {
        unsigned_literal(alloc, value, Suffix::U128)
    }

    /// Makes the literal of the number followed by `usize`, with the span 0..0. For 0 it is `0usize`.
    /// Out of memory is the only error.
    #[inline]
    pub fn usize_suffixed(alloc: Global, value: usize) -> Result<Literal, AllocError>
        ensures ok { IfOk result (λ literal.
            literal ≡ record { text = decimal value ++ codes "usize"; span = nowhere }) }
    {
        unsigned_literal(alloc, value as u128, Suffix::Usize)
    }

    /// Makes the literal of the number without a suffix, with the span 0..0. For -128 it is `-128`.
    /// Out of memory is the only error.
    #[inline]
    pub fn i8_unsuffixed(alloc: Global, value: i8) -> Result<Literal, AllocError>
        ensures ok { IfOk result (λ literal.
            literal ≡ record { text = signed_decimal value; span = nowhere }) }
    {
        Literal::i16_unsuffixed(alloc, i16::from(value))
    }

    /// Makes the literal of the number without a suffix, with the span 0..0. For -3 it is `-3`.
    /// Out of memory is the only error.
    #[inline]
    pub fn i16_unsuffixed(alloc: Global, value: i16) -> Result<Literal, AllocError>
        ensures ok { IfOk result (λ literal.
            literal ≡ record { text = signed_decimal value; span = nowhere }) }
    {
        Literal::i32_unsuffixed(alloc, i32::from(value))
    }

    /// Makes the literal of the number without a suffix, with the span 0..0. For -3 it is `-3`.
    /// Out of memory is the only error.
    #[inline]
    pub fn i32_unsuffixed(alloc: Global, value: i32) -> Result<Literal, AllocError>
        ensures ok { IfOk result (λ literal.
            literal ≡ record { text = signed_decimal value; span = nowhere }) }
    {
        Literal::i64_unsuffixed(alloc, i64::from(value))
    }

    /// Makes the literal of the number without a suffix, with the span 0..0. For 12 it is `12`.
    /// Out of memory is the only error.
    #[inline]
    pub fn i64_unsuffixed(alloc: Global, value: i64) -> Result<Literal, AllocError>
        ensures ok { IfOk result (λ literal.
            literal ≡ record { text = signed_decimal value; span = nowhere }) }
    {
        Literal::i128_unsuffixed(alloc, i128::from(value))
    }

    /// Makes the literal of the number without a suffix, with the span 0..0. For -1 it is `-1`.
    /// Out of memory is the only error.
    #[inline]
    pub fn i128_unsuffixed(alloc: Global, value: i128) -> Result<Literal, AllocError>
        ensures ok { IfOk result (λ literal.
            literal ≡ record { text = signed_decimal value; span = nowhere }) }
    {
        signed_literal(alloc, value, Suffix::Nothing)
    }

    /// Makes the literal of the number without a suffix, with the span 0..0. For 0 it is `0`.
    /// Out of memory is the only error.
    #[inline]
    pub fn isize_unsuffixed(alloc: Global, value: isize) -> Result<Literal, AllocError>
        ensures ok { IfOk result (λ literal.
            literal ≡ record { text = signed_decimal value; span = nowhere }) }
    {
        signed_literal(alloc, value as i128, Suffix::Nothing)
    }

    /// Makes the literal of the number followed by `i8`, with the span 0..0. For -128 it is `-128i8`.
    /// Out of memory is the only error.
    #[inline]
    pub fn i8_suffixed(alloc: Global, value: i8) -> Result<Literal, AllocError>
        ensures ok { IfOk result (λ literal.
            literal ≡ record { text = signed_decimal value ++ codes "i8"; span = nowhere }) }
    {
        signed_literal(alloc, i128::from(value), Suffix::I8)
    }

    /// Makes the literal of the number followed by `i16`, with the span 0..0. For -3 it is `-3i16`.
    /// Out of memory is the only error.
    #[inline]
    pub fn i16_suffixed(alloc: Global, value: i16) -> Result<Literal, AllocError>
        ensures ok { IfOk result (λ literal.
            literal ≡ record { text = signed_decimal value ++ codes "i16"; span = nowhere }) }
    {
        signed_literal(alloc, i128::from(value), Suffix::I16)
    }

    /// Makes the literal of the number followed by `i32`, with the span 0..0. For -3 it is `-3i32`.
    /// Out of memory is the only error.
    #[inline]
    pub fn i32_suffixed(alloc: Global, value: i32) -> Result<Literal, AllocError>
        ensures ok { IfOk result (λ literal.
            literal ≡ record { text = signed_decimal value ++ codes "i32"; span = nowhere }) }
    {
        signed_literal(alloc, i128::from(value), Suffix::I32)
    }

    /// Makes the literal of the number followed by `i64`, with the span 0..0. For 12 it is `12i64`.
    /// Out of memory is the only error.
    #[inline]
    pub fn i64_suffixed(alloc: Global, value: i64) -> Result<Literal, AllocError>
        ensures ok { IfOk result (λ literal.
            literal ≡ record { text = signed_decimal value ++ codes "i64"; span = nowhere }) }
    {
        signed_literal(alloc, i128::from(value), Suffix::I64)
    }

    /// Makes the literal of the number followed by `i128`, with the span 0..0. For -1 it is `-1i128`.
    /// Out of memory is the only error.
    #[inline]
    pub fn i128_suffixed(alloc: Global, value: i128) -> Result<Literal, AllocError>
        ensures ok { IfOk result (λ literal.
            literal ≡ record { text = signed_decimal value ++ codes "i128"; span = nowhere }) }
    {
        signed_literal(alloc, value, Suffix::I128)
    }

    /// Makes the literal of the number followed by `isize`, with the span 0..0. For 0 it is `0isize`.
    /// Out of memory is the only error.
    #[inline]
    pub fn isize_suffixed(alloc: Global, value: isize) -> Result<Literal, AllocError>
        ensures ok { IfOk result (λ literal.
            literal ≡ record { text = signed_decimal value ++ codes "isize"; span = nowhere }) }
    {
        signed_literal(alloc, value as i128, Suffix::Isize)
    }
}
