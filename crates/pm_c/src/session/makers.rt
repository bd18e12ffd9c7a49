//! Makes the texts of literals.
ghost use Rattle.std.specs.Prelude.{◌≡◌, IfOk, IsOk};
ghost use Rattle.proc_macro2.specs.CString.{has_no_zero};
ghost use Rattle.proc_macro2.specs.Escaped.{byte_string_text, byte_text};
ghost use Rattle.pm_c.specs.Calls.{
  CStringAnswer,
  CharacterAnswer,
  HasText,
  IsAmong,
  KeepsAllButText,
  MakeAnswer,
  ReadLiteralAnswer,
  StringAnswer,
};
ghost use Rattle.std.specs.Prelude.{[], ◌∷◌};
ghost use Rattle.pm_c.specs.declared.codes.TheConstants.{DONE, NO_MEMORY};

use crate::codes::{MAP_FULL, NO_CHARACTER, NO_LITERAL, NO_MEMORY, NOT_UTF8};
use crate::records::PmAnswer;
use crate::session::Session;
use pm_span::parts::bounds;
use proc_macro2::{Literal, ParseError};
use std::alloc::AllocError;
use std::str;

impl Session {
    /// Replaces the session's text by the text of the literal.
    fn take_text(&mut self, literal: Result<Literal, AllocError>) -> PmAnswer
        ensures made { result.code ≡ DONE → IsOk literal }
        ensures text { result.code ≡ DONE → IfOk literal (λ literal. HasText self.new literal.text result) }
        ensures codes { IsAmong (DONE ∷ NO_MEMORY ∷ []) result.code }
        ensures kept { KeepsAllButText self.old self.new }
    {
        let Ok(literal) = literal else {
            return PmAnswer::with_error(NO_MEMORY);
        };
        self.text.clear();
        match self.text.push_str(literal.text()) {
            Ok(()) => PmAnswer::success(0, self.text.len()),
            Err(_) => PmAnswer::with_error(NO_MEMORY),
        }
    }

    /// Reads the text of a literal, which becomes a file of the map, and returns where the literal is.
    pub(crate) fn read_literal(&mut self, text: &[u8]) -> PmAnswer
        ensures { ReadLiteralAnswer self.old text.now self.new result }
    {
        let Ok(text) = str::from_utf8(text) else {
            return PmAnswer::with_error(NOT_UTF8);
        };
        match Literal::from_str(text, &mut self.map) {
            Ok(literal) => {
                let (lo, hi) = bounds(literal.span());
                PmAnswer::success(lo, (hi - lo) as usize)
            }
            Err(ParseError::Lex(_)) => PmAnswer::with_error(NO_LITERAL),
            Err(ParseError::MapFull) => PmAnswer::with_error(MAP_FULL),
            Err(ParseError::Memory(_)) => PmAnswer::with_error(NO_MEMORY),
        }
    }

    /// Writes the string literal of a text into the session's text.
    pub(crate) fn string(&mut self, text: &[u8]) -> PmAnswer
        ensures { StringAnswer text.now self.old self.new result }
    {
        match str::from_utf8(text) {
            Ok(text) => self.take_text(Literal::string(self.alloc, text)),
            Err(_) => PmAnswer::with_error(NOT_UTF8),
        }
    }

    /// Writes the literal of a character into the session's text.
    pub(crate) fn character(&mut self, c: u32) -> PmAnswer
        ensures { CharacterAnswer c self.old self.new result }
    {
        match char::from_u32(c) {
            Some(c) => self.take_text(Literal::character(self.alloc, c)),
            None => PmAnswer::with_error(NO_CHARACTER),
        }
    }

    /// Writes the literal of a byte into the session's text.
    pub(crate) fn byte_character(&mut self, byte: u8) -> PmAnswer
        ensures { MakeAnswer (byte_text byte) self.old self.new result }
    {
        self.take_text(Literal::byte_character(self.alloc, byte))
    }

    /// Writes the byte string literal of some bytes into the session's text.
    pub(crate) fn byte_string(&mut self, bytes: &[u8]) -> PmAnswer
        ensures { MakeAnswer (byte_string_text bytes.now) self.old self.new result }
    {
        self.take_text(Literal::byte_string(self.alloc, bytes))
    }

    /// Writes the C string literal of some bytes into the session's text, if none of them is zero.
    pub(crate) fn c_string(&mut self, bytes: &[u8]) -> PmAnswer
        ensures { CStringAnswer bytes.now self.old self.new result }
    {
        if has_no_zero(bytes) {
            self.take_text(Literal::c_string(self.alloc, bytes))
        } else {
            PmAnswer::with_error(NO_CHARACTER)
        }
    }
}

/// Whether none of the bytes is zero.
fn has_no_zero(bytes: &[u8]) -> bool
    ensures { result ≡ has_no_zero bytes.now }
{
    bytes.iter().all(|byte| *byte != 0)
}
