//! The texts of tokens.
ghost use Rattle.std.specs.Prelude.{◌≡◌, ◌<◌, ◌++◌, ℕ, List, drop, length, IfOk, IfSome, IsOk, Some};
ghost use Rattle.std.specs.Prelude.{codes, string_bytes, if◌then◌else◌};
ghost use Rattle.std.specs.Fmt.{decimal};
ghost use Rattle.std.specs.Str.{chars, encode_utf8_all};
ghost use Rattle.pm_token.specs.Kept.{IsShort, text_bytes};
ghost use Rattle.pm_token.specs.Negative.{has_minus};
ghost use Rattle.pm_token.specs.Text.{IsText};
ghost use Rattle.pm_token.specs.declared.symbols.short.TheConstants.{ROOM};

mod names;
mod shared;
mod short;

pub use names::Name;
use shared::{Shared, Unsigned};
use short::{ROOM, Short};
use std::alloc::{AllocError, Global};
use std::fmt;
use std::marker::Model;

/// A text: a short one in place, or a long one in memory that copies share. A long text that begins with `-` is
/// not shared, so that the `-` can be removed without an allocation.
#[derive(Drop)]
enum Text {
    Short(Short),
    Long(Unsigned),
    Negative(Box<String>),
}

impl Text {
    /// Copies a long text. Out of memory is the only error.
    fn long(alloc: Global, text: &str) -> Result<Text, AllocError>
        requires { ROOM < length text.now }
        ensures ok { IfOk result (λ kept. text_bytes kept ≡ text.now) }
    {
        if is_negative(text) {
            return Ok(Text::Negative(Box::new(alloc, String::from_str(alloc, text)?)?));
        }
        Ok(Text::Long(Unsigned::new(Shared::new(alloc, text)?)))
    }

    /// Takes a long text without a copy. Out of memory is the only error.
    fn long_from_string(alloc: Global, text: String) -> Result<Text, AllocError>
        requires { ROOM < length (string_bytes text) }
        ensures ok { IfOk result (λ kept. text_bytes kept ≡ string_bytes text) }
    {
        if is_negative(text.as_str()) {
            return Ok(Text::Negative(Box::new(alloc, text)?));
        }
        Ok(Text::Long(Unsigned::new(Shared::from_string(text)?)))
    }

    /// Copies the text. Out of memory is the only error.
    #[inline(always)]
    fn new(alloc: Global, text: &str) -> Result<Text, AllocError>
        ensures ok { IfOk result (λ kept. text_bytes kept ≡ text.now) }
        ensures short { IsShort (chars text.now) → IsOk result }
    {
        if text.len() <= ROOM {
            Ok(Text::Short(Short::new(text)))
        } else {
            Ok(Text::long(alloc, text)?)
        }
    }

    /// Takes the text without a copy if it is long, and copies it if it is short. Out of memory is the only
    /// error; a short text needs no memory.
    fn from_string(alloc: Global, text: String) -> Result<Text, AllocError>
        ensures ok { IfOk result (λ kept. text_bytes kept ≡ string_bytes text) }
        ensures short { IsShort (chars (string_bytes text)) → IsOk result }
    {
        if text.len() <= ROOM {
            Ok(Text::Short(Short::new(text.as_str())))
        } else {
            Ok(Text::long_from_string(alloc, text)?)
        }
    }
}

/// Copies the text; a long one is shared, unless it begins with `-`. The errors are those of a literal's copy.
impl Clone for Text {
    ghost is_clone = { λ text copy. text_bytes copy ≡ text_bytes text };

    ghost is_infallible = { λ text. IsShort (chars (text_bytes text)) };

    #[inline(always)]
    fn clone(&self) -> Result<Text, AllocError> {
        match self {
            Text::Short(text) => Ok(Text::Short(text.copy())),
            Text::Long(text) => Ok(Text::Long(text.share()?)),
            Text::Negative(text) => Text::new(*text.allocator(), text.as_str()),
        }
    }
}

/// Returns whether the text begins with `-`.
#[tactic(auto, using(std::proofs::lemmas::Str::chars_past_char))]
fn is_negative(text: &str) -> bool
    ensures { result ≡ has_minus (chars text.now) }
{
    match text.chars().next() {
        Some('-') => true,
        _ => false,
    }
}

/// Removes the `-` that the text begins with, and returns whether there was one.
#[tactic(auto, using(std::proofs::lemmas::Str::chars_past_char))]
fn strip_minus(text: &mut String) -> bool
    ensures found { result ≡ has_minus (chars (string_bytes text.old)) }
    ensures rest { chars (string_bytes text.new)
        ≡ (if result then drop 1 (chars (string_bytes text.old)) else chars (string_bytes text.old)) }
{
    match text.as_str().chars().next() {
        Some('-') => {
            text.remove(0);
            true
        }
        _ => false,
    }
}

/// The text of a literal. Contracts speak of its characters.
#[derive(Drop)]
pub struct Symbol {
    text: Text,
}

impl Model for Symbol {
    ghost Value = { List ℕ };

    ghost view = { λ symbol. chars (text_bytes symbol.text) };
}

impl Symbol {
    /// Copies the text. Out of memory is the only error.
    #[inline(always)]
    pub fn new(alloc: Global, text: &str) -> Result<Symbol, AllocError>
        ensures ok { IfOk result (λ symbol. symbol ≡ chars text.now) }
    {
        Ok(Symbol {
            text: Text::new(alloc, text)?,
        })
    }

    /// Takes the text. Out of memory is the only error.
    pub fn from_string(alloc: Global, text: String) -> Result<Symbol, AllocError>
        ensures ok { IfOk result (λ symbol. symbol ≡ chars (string_bytes text)) }
        ensures text { IfOk result IsText }
    {
        Ok(Symbol {
            text: Text::from_string(alloc, text)?,
        })
    }

    /// Returns both texts joined, if the result is short. This allocates nothing.
    #[inline(always)]
    pub fn concatenation(front: &str, back: &str) -> Option<Symbol>
        ensures value { IfSome result (λ symbol. symbol ≡ chars (front.now ++ back.now)) }
        ensures text { IfSome result IsText }
    {
        if front.len() > ROOM || back.len() > ROOM - front.len() {
            return None;
        }
        Some(Symbol {
            text: Text::Short(Short::concatenation(front, back)),
        })
    }

    /// Returns a number in decimal digits, after a `-` if it is negative, joined with `suffix`, if the result
    /// is short. This allocates nothing.
    #[inline(always)]
    pub(crate) fn number(negative: bool, value: u64, suffix: &str) -> Option<Symbol>
        ensures value { IfSome result (λ symbol. symbol
            ≡ chars ((if negative then codes "-" else codes "") ++ decimal value ++ suffix.now)) }
        ensures text { IfSome result IsText }
    {
        Some(Symbol {
            text: Text::Short(Short::number(negative, value, suffix)?),
        })
    }

    /// Returns both texts joined. Out of memory is the only error; a short result needs no memory.
    #[inline(always)]
    pub fn concat(alloc: Global, front: &str, back: &str) -> Result<Symbol, AllocError>
        ensures ok { IfOk result (λ symbol. symbol ≡ chars (front.now ++ back.now)) }
        ensures text { IfOk result IsText }
    {
        match Symbol::concatenation(front, back) {
            Some(text) => Ok(text),
            None => Symbol::long_concat(alloc, front, back),
        }
    }

    /// Does what `concat` does, if the result is long.
    fn long_concat(alloc: Global, front: &str, back: &str) -> Result<Symbol, AllocError>
        ensures ok { IfOk result (λ symbol. symbol ≡ chars (front.now ++ back.now)) }
        ensures text { IfOk result IsText }
    {
        let mut text = String::with_capacity(alloc, front.len() + back.len())?;
        text.push_str(front)?;
        text.push_str(back)?;
        Symbol::from_string(alloc, text)
    }

    /// Removes the `-` that the text begins with, and returns whether there was one.
    pub fn strip_minus(&mut self) -> bool
        ensures found { result ≡ has_minus self.old }
        ensures rest { self.new ≡ (if result then drop 1 self.old else self.old) }
    {
        match &mut self.text {
            Text::Short(text) => text.strip_minus(),
            // A shared text never begins with `-`.
            Text::Long(text) => is_negative(text.as_str()),
            Text::Negative(text) => strip_minus(text),
        }
    }

    /// Returns the text.
    #[inline(always)]
    pub fn as_str(&self) -> &str
        ensures { chars result.now ≡ self.now }
    {
        match &self.text {
            Text::Short(text) => text.as_str(),
            Text::Long(text) => text.as_str(),
            Text::Negative(text) => text.as_str(),
        }
    }
}

/// Copies the text; a long one is shared, unless it begins with `-`. The errors are those of a literal's copy.
impl Clone for Symbol {
    ghost is_clone = { λ symbol copy. copy ≡ symbol };

    ghost is_infallible = { IsShort };

    #[inline(always)]
    fn clone(&self) -> Result<Symbol, AllocError> {
        Ok(Symbol {
            text: self.text.clone()?,
        })
    }
}

impl fmt::Display for Symbol {
    ghost output = { λ symbol. Some (encode_utf8_all symbol) };

    fn fmt<W: fmt::Write>(&self, f: &mut fmt::Formatter<W>) -> fmt::Result {
        f.write_str(self.as_str())
    }
}
