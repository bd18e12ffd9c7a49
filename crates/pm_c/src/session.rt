//! A session: a map, the streams that were read, and the results that calls may copy.
ghost use Rattle.std.specs.Prelude.{◌≡◌, ◌↔◌, ◌≤◌, ◌==◌, [], ◌∷◌, length, if◌then◌else◌, IfErr, IfOk, OnOk};
ghost use Rattle.std.specs.Str.{chars, encode_utf8_all, IsUtf8};
ghost use Rattle.std.specs.String.{string_bytes};
ghost use Rattle.slab.specs.Slab.{SameValues};
ghost use Rattle.proc_macro2.specs.Files.{Fits, next_lo, with_file};
ghost use Rattle.proc_macro2.specs.Parsing.{FaultAt, ParsesTo};
ghost use Rattle.proc_macro2.specs.Printed.{printed};
ghost use Rattle.pm_c.specs.Calls.{
  FreeAnswer,
  IsAmong,
  IsFaultAt,
  IsKept,
  IsNew,
  ListAnswer,
  Overflows,
  ParseAnswer,
  PiecesAnswer,
  PrintAnswer,
  ReprintAnswer,
  refusal_code,
};
ghost use Rattle.pm_c.specs.declared.codes.TheConstants.{DONE, FAULT, MAP_FULL, NO_MEMORY, NOT_UTF8, TOO_LONG};

mod copies;
mod lookups;
mod makers;
mod values;

use crate::codes::{DONE, FAULT, MAP_FULL, NO_MEMORY, NO_STREAM, NOT_UTF8, TOO_LONG};
use crate::listing::list;
use crate::piece_list::list_pieces;
use crate::records::{PmAnswer, PmPiece, PmTree};
use pm_span::parts::bounds;
use proc_macro2::{ParseError, SourceMap, TokenStream, reprint};
use slab::Slab;
use std::alloc::{AllocError, Global};
use std::fmt::Write;
use std::str;

/// A map, the streams that were read with it, and the last results of printing, listing and making literals.
#[derive(Drop)]
pub struct Session {
    alloc: Global,
    map: SourceMap,
    streams: Slab<TokenStream>,
    trees: Vec<PmTree>,
    pieces: Vec<PmPiece>,
    text: String,
    bytes: Vec<u8>,
}

impl Session {
    /// Returns a session that has read nothing. It allocates no memory.
    pub(crate) fn new(alloc: Global) -> Session
        ensures { IsNew result }
    {
        Session {
            alloc,
            map: SourceMap::new(alloc),
            streams: Slab::new(alloc),
            trees: Vec::new(alloc),
            pieces: Vec::new(alloc),
            text: String::new(alloc),
            bytes: Vec::new(alloc),
        }
    }

    /// Reads a text into a stream of the session, and returns the stream's number.
    pub(crate) fn parse(&mut self, source: &[u8]) -> PmAnswer
        ensures { ParseAnswer self.old source.now self.new result }
    {
        match self.stream_of(source) {
            Ok(stream) => self.keep(stream),
            Err(answer) => answer,
        }
    }

    /// Returns the stream of a text, or the result that says why there is none.
    fn stream_of(&mut self, source: &[u8]) -> Result<TokenStream, PmAnswer>
        ensures utf8 { OnOk result (IsUtf8 source.now) }
        ensures parses { IfOk result (ParsesTo (next_lo self.old.map) (chars source.now)) }
        ensures fits { OnOk result (Fits self.old.map (length (chars source.now))) }
        ensures fault { IfErr result (λ answer. answer.code ≡ FAULT
            → FaultAt (next_lo self.old.map) (chars source.now) answer.number) }
        ensures not_utf8 { IfErr result (λ answer. (answer.code ≡ NOT_UTF8) ↔ (IsUtf8 source.now → ⊥)) }
        ensures map_full { IfErr result (λ answer. (answer.code ≡ MAP_FULL) ↔ Overflows self.old.map source.now) }
        ensures codes { IfErr result (λ answer. IsAmong (FAULT ∷ MAP_FULL ∷ NO_MEMORY ∷ NOT_UTF8 ∷ []) answer.code) }
        ensures left { IfErr result (λ answer. self.new ≡ (if answer.code == FAULT
            then record self.old { map = with_file self.old.map (chars source.now) } else self.old)) }
        ensures read { OnOk result (self.new ≡ record self.old { map = with_file self.old.map (chars source.now) }) }
    {
        let Ok(text) = str::from_utf8(source) else {
            return Err(PmAnswer::with_error(NOT_UTF8));
        };
        match TokenStream::from_str(text, &mut self.map) {
            Ok(stream) => Ok(stream),
            Err(error) => Err(refusal(error)),
        }
    }

    /// Keeps a stream, and returns its number.
    fn keep(&mut self, stream: TokenStream) -> PmAnswer
        ensures done { result.code ≡ DONE → IsKept self.old stream self.new result.number }
        ensures too_long { result.code ≡ TOO_LONG → 4294967296 ≤ self.old.streams.vacant_key }
        ensures codes { IsAmong (DONE ∷ NO_MEMORY ∷ TOO_LONG ∷ []) result.code }
        ensures streams { (result.code ≡ DONE → ⊥) → SameValues self.old.streams self.new.streams }
        ensures rest { self.new ≡ record self.old { streams = self.new.streams } }
    {
        match self.streams.insert(stream) {
            Ok(key) => {
                if key <= 0xFFFF_FFFF {
                    PmAnswer::success(key as u32, 0)
                } else {
                    self.streams.try_remove(key);
                    PmAnswer::with_error(TOO_LONG)
                }
            }
            Err(_) => PmAnswer::with_error(NO_MEMORY),
        }
    }

    /// Frees a stream. The next stream may get its number.
    pub(crate) fn free(&mut self, number: u32) -> u32
        ensures { FreeAnswer self.old number self.new result }
    {
        match self.streams.try_remove(number as usize) {
            Some(_) => DONE,
            None => NO_STREAM,
        }
    }

    /// Prints a stream into the session's text.
    pub(crate) fn print(&mut self, number: u32) -> PmAnswer
        ensures { PrintAnswer self.old number self.new result }
    {
        let Some(stream) = self.streams.get(number as usize) else {
            return PmAnswer::with_error(NO_STREAM);
        };
        match print(stream, &mut self.text) {
            Ok(()) => PmAnswer::success(number, self.text.len()),
            Err(_) => PmAnswer::with_error(NO_MEMORY),
        }
    }

    /// Prints a text into the session's text. It makes no trees and no file of the map.
    pub(crate) fn reprint(&mut self, source: &[u8]) -> PmAnswer
        ensures { ReprintAnswer self.old source.now self.new result }
    {
        let Ok(text) = str::from_utf8(source) else {
            return PmAnswer::with_error(NOT_UTF8);
        };
        match reprint(self.alloc, text) {
            Ok(printed) => {
                self.text = printed;
                PmAnswer::success(0, self.text.len())
            }
            Err(error) => refusal(error),
        }
    }

    /// Lists a stream into the session's records and text.
    pub(crate) fn list(&mut self, number: u32) -> PmAnswer
        ensures { ListAnswer self.old number self.new result }
    {
        let Some(stream) = self.streams.get(number as usize) else {
            return PmAnswer::with_error(NO_STREAM);
        };
        match list(stream, &mut self.trees, &mut self.text) {
            Ok(count) => PmAnswer::success(count, self.text.len()),
            Err(error) => PmAnswer::with_error(error.code()),
        }
    }

    /// Lists the pieces of a text, which becomes no file of the map. Returns their number and the byte offset where
    /// they end.
    pub(crate) fn pieces(&mut self, source: &[u8]) -> PmAnswer
        ensures { PiecesAnswer self.old source.now self.new result }
    {
        let Ok(text) = str::from_utf8(source) else {
            return PmAnswer::with_error(NOT_UTF8);
        };
        if source.len() > 0xFFFF_FFFF {
            return PmAnswer::with_error(TOO_LONG);
        }
        match list_pieces(text, &mut self.pieces) {
            Ok(covered) => PmAnswer::success(self.pieces.len() as u32, covered),
            Err(_) => PmAnswer::with_error(NO_MEMORY),
        }
    }
}

/// Replaces `text` by the printed stream.
fn print(stream: &TokenStream, text: &mut String) -> Result<(), AllocError>
    ensures { OnOk result (string_bytes text.new ≡ encode_utf8_all (printed stream.now)) }
{
    text.clear();
    write!(text, "{stream}")
}

/// Returns the result for a text that could not be read.
fn refusal(error: ParseError) -> PmAnswer
    ensures code { result.code ≡ refusal_code error }
    ensures fault { result.code ≡ FAULT → IsFaultAt error result.number }
{
    match error {
        ParseError::Lex(error) => {
            let (lo, _) = bounds(error.span());
            PmAnswer {
                code: FAULT,
                number: lo,
                bytes: 0,
            }
        }
        ParseError::MapFull => PmAnswer::with_error(MAP_FULL),
        ParseError::Memory(_) => PmAnswer::with_error(NO_MEMORY),
    }
}
