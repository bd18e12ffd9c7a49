//! The C interface to token streams. A session reads texts into streams, lists and prints them, makes literals, and
//! finds lines, columns and source text. `dev/header.py` makes `pm_c.h` from this file: from the comments and types
//! of the exports, and from the codes that each one's record in `specs/Calls.antt` lists.
//!
//! The record says what the call returns and how the session changes. The clause `handle` says of each call that a
//! live handle is written to `back`. If the handle isn't live, the code is `NOT_LIVE` and nothing is written.
#![tactic(auto)]

mod checks;
mod codes;
mod faults;
mod handle;
mod listing;
mod piece_list;
mod reasons;
mod records;
mod session;

ghost use Rattle.std.specs.Prelude.{◌≡◌, ◌↔◌, [], ◌∷◌, false, true};
ghost use Rattle.std.specs.Str.{chars};
ghost use Rattle.std.specs.String.{string_bytes};
ghost use Rattle.proc_macro2.specs.Escaped.{byte_string_text, byte_text};
ghost use Rattle.proc_macro2.specs.Value.{byte_str_value, cstr_value, str_value};
ghost use Rattle.pm_c.specs.Handle.{HandsBack};
ghost use Rattle.pm_c.specs.Calls.{
  ByteRangeAnswer,
  CStringAnswer,
  CharacterAnswer,
  CopyAnswer,
  ExplainAnswer,
  FileNameAnswer,
  FreeAnswer,
  HasBytesValue,
  HasTextValue,
  IdentAnswer,
  IsAmong,
  IsNew,
  JoinAnswer,
  KeepsAllButBytes,
  KeepsAllButText,
  LineColumnAnswer,
  ListAnswer,
  LiteralAnswer,
  MakeAnswer,
  ParseAnswer,
  PiecesAnswer,
  PrintAnswer,
  ReadLiteralAnswer,
  ReprintAnswer,
  SourceTextAnswer,
  StringAnswer,
  ValueAnswer,
};
ghost use Rattle.pm_c.specs.declared.codes.TheConstants.{DONE, NO_MEMORY, NOT_LIVE};

use codes::{DONE, NO_MEMORY, NOT_LIVE};
pub use handle::PmSession;
pub use records::{PmAnswer, PmExplanation, PmLineColumn, PmPiece, PmRange, PmTree};
use session::Session;
use std::alloc::Global;

// Calls a method of the session, and then writes the session's handle to `back`.
macro_rules! on_session {
    ($session:ident, $back:ident, $not_live:expr, |$inside:ident| $call:expr) => {{
        let Some(mut $inside) = $session.open() else {
            return $not_live;
        };
        let answer = $call;
        *$back = PmSession::of($inside);
        answer
    }};
}

/// Makes a session and writes its handle to `out`. `pm_session_free` frees it. A session whose handle was in `out`
/// before is lost.
#[unsafe(no_mangle)]
pub extern "C" fn pm_session_new(alloc: Global, out: &mut PmSession) -> u32
    ensures codes { IsAmong (DONE ∷ NO_MEMORY ∷ []) result }
    ensures live { result ≡ DONE → out.new.live ≡ true }
    ensures done { result ≡ DONE → IsNew out.new.inside.value }
    ensures unwritten { result ≡ NO_MEMORY → out.new ≡ out.old }
{
    match Box::new(alloc, Session::new(alloc)) {
        Ok(session) => {
            *out = PmSession::of(session);
            DONE
        }
        Err(_) => NO_MEMORY,
    }
}

/// Frees a session with all that it holds. No copy of its handle may be used from then on.
#[unsafe(no_mangle)]
pub extern "C" fn pm_session_free(session: PmSession) -> u32
    ensures codes { IsAmong (DONE ∷ NOT_LIVE ∷ []) result }
    ensures not_live { (result ≡ NOT_LIVE) ↔ (session.live ≡ false) }
{
    match session.open() {
        Some(inside) => {
            drop(inside);
            DONE
        }
        None => NOT_LIVE,
    }
}

/// Reads a text into a new stream of the session, with the number `number`. The text is a file of the session from then
/// on, also after `FAULT` and `TOO_LONG`. It is none after `NOT_UTF8` and `MAP_FULL`, and may be one after `NO_MEMORY`.
#[unsafe(no_mangle)]
pub extern "C" fn pm_parse(session: PmSession, back: &mut PmSession, text: &[u8]) -> PmAnswer
    ensures handle { HandsBack session back.old back.new result.code }
    ensures answer { session.live ≡ true → ParseAnswer session.inside.value text.now back.new.inside.value result }
{
    on_session!(
        session,
        back,
        PmAnswer::with_error(NOT_LIVE),
        |inside| inside.parse(text)
    )
}

/// Frees a stream of the session. A later stream may get its number.
#[unsafe(no_mangle)]
pub extern "C" fn pm_stream_free(session: PmSession, back: &mut PmSession, stream: u32) -> u32
    ensures handle { HandsBack session back.old back.new result }
    ensures answer { session.live ≡ true → FreeAnswer session.inside.value stream back.new.inside.value result }
{
    on_session!(session, back, NOT_LIVE, |inside| inside.free(stream))
}

/// Prints a stream into the session's text, which then has `bytes` bytes.
#[unsafe(no_mangle)]
pub extern "C" fn pm_print(session: PmSession, back: &mut PmSession, stream: u32) -> PmAnswer
    ensures handle { HandsBack session back.old back.new result.code }
    ensures answer { session.live ≡ true → PrintAnswer session.inside.value stream back.new.inside.value result }
{
    on_session!(
        session,
        back,
        PmAnswer::with_error(NOT_LIVE),
        |inside| inside.print(stream)
    )
}

/// Prints a text into the session's text, which then has `bytes` bytes, as `pm_parse` and `pm_print` would, but makes
/// no stream and no file. The position of a syntax error counts from 1.
#[unsafe(no_mangle)]
pub extern "C" fn pm_reprint(session: PmSession, back: &mut PmSession, text: &[u8]) -> PmAnswer
    ensures handle { HandsBack session back.old back.new result.code }
    ensures answer { session.live ≡ true → ReprintAnswer session.inside.value text.now back.new.inside.value result }
{
    on_session!(
        session,
        back,
        PmAnswer::with_error(NOT_LIVE),
        |inside| inside.reprint(text)
    )
}

/// Lists a stream. The session's records become its trees in reading order, and the session's text the texts of its
/// identifiers and literals, one after another. `number` counts the records, and `bytes` the bytes of the text.
#[unsafe(no_mangle)]
pub extern "C" fn pm_list(session: PmSession, back: &mut PmSession, stream: u32) -> PmAnswer
    ensures handle { HandsBack session back.old back.new result.code }
    ensures answer { session.live ≡ true → ListAnswer session.inside.value stream back.new.inside.value result }
{
    on_session!(
        session,
        back,
        PmAnswer::with_error(NOT_LIVE),
        |inside| inside.list(stream)
    )
}

/// Lists all pieces of a text as the session's records, with white characters and comments, and makes no file. `number`
/// counts the records. The pieces end at the byte offset `bytes`, and cover the text exactly if that is its length.
#[unsafe(no_mangle)]
pub extern "C" fn pm_pieces(session: PmSession, back: &mut PmSession, text: &[u8]) -> PmAnswer
    ensures handle { HandsBack session back.old back.new result.code }
    ensures answer { session.live ≡ true → PiecesAnswer session.inside.value text.now back.new.inside.value result }
{
    on_session!(
        session,
        back,
        PmAnswer::with_error(NOT_LIVE),
        |inside| inside.pieces(text)
    )
}

/// Copies the session's text into a buffer of exactly its length. A buffer of any other length is not written.
#[unsafe(no_mangle)]
pub extern "C" fn pm_copy_text(session: PmSession, back: &mut PmSession, into: &mut [u8]) -> u32
    ensures handle { HandsBack session back.old back.new result }
    ensures answer { session.live ≡ true
        → CopyAnswer (string_bytes session.inside.value.text) into.old into.new result }
    ensures same { session.live ≡ true → back.new.inside.value ≡ session.inside.value }
    ensures unwritten { session.live ≡ false → into.new ≡ into.old }
{
    on_session!(session, back, NOT_LIVE, |inside| inside.copy_text(into))
}

/// Copies the session's bytes into a buffer of exactly their number. A buffer of any other length is not written.
#[unsafe(no_mangle)]
pub extern "C" fn pm_copy_bytes(session: PmSession, back: &mut PmSession, into: &mut [u8]) -> u32
    ensures handle { HandsBack session back.old back.new result }
    ensures answer { session.live ≡ true → CopyAnswer session.inside.value.bytes.items into.old into.new result }
    ensures same { session.live ≡ true → back.new.inside.value ≡ session.inside.value }
    ensures unwritten { session.live ≡ false → into.new ≡ into.old }
{
    on_session!(session, back, NOT_LIVE, |inside| inside.copy_bytes(into))
}

/// Copies the records of `pm_list` into a buffer of exactly their number. A buffer of any other length is not written.
#[unsafe(no_mangle)]
pub extern "C" fn pm_copy_trees(
    session: PmSession,
    back: &mut PmSession,
    into: &mut [PmTree],
) -> u32
    ensures handle { HandsBack session back.old back.new result }
    ensures answer { session.live ≡ true → CopyAnswer session.inside.value.trees.items into.old into.new result }
    ensures same { session.live ≡ true → back.new.inside.value ≡ session.inside.value }
    ensures unwritten { session.live ≡ false → into.new ≡ into.old }
{
    on_session!(session, back, NOT_LIVE, |inside| inside.copy_trees(into))
}

/// Copies the records of `pm_pieces` into a buffer of just their number. A buffer of any other length is not written.
#[unsafe(no_mangle)]
pub extern "C" fn pm_copy_pieces(
    session: PmSession,
    back: &mut PmSession,
    into: &mut [PmPiece],
) -> u32
    ensures handle { HandsBack session back.old back.new result }
    ensures answer { session.live ≡ true → CopyAnswer session.inside.value.pieces.items into.old into.new result }
    ensures same { session.live ≡ true → back.new.inside.value ≡ session.inside.value }
    ensures unwritten { session.live ≡ false → into.new ≡ into.old }
{
    on_session!(session, back, NOT_LIVE, |inside| inside.copy_pieces(into))
}

/// Returns why a text doesn't parse, and where. It makes no file and needs no session, so any thread may call it.
#[unsafe(no_mangle)]
pub extern "C" fn pm_explain(alloc: Global, text: &[u8]) -> PmExplanation
    ensures answer { ExplainAnswer text.now result }
{
    reasons::explain_text(alloc, text)
}

/// Checks whether `name`, which is given without `r#`, is the name of an identifier: of a raw one if `raw` is true,
/// else of a plain one. Any thread may call it.
#[unsafe(no_mangle)]
pub extern "C" fn pm_ident_check(alloc: Global, name: &[u8], raw: bool) -> u32
    ensures answer { IdentAnswer raw name.now result }
{
    checks::ident(alloc, name, raw)
}

/// Checks whether the text is a literal, or `-` and a number. Any thread may call it.
#[unsafe(no_mangle)]
pub extern "C" fn pm_literal_check(text: &[u8]) -> u32
    ensures answer { LiteralAnswer text.now result }
{
    checks::literal(text)
}

/// Reads the text of a literal, which begins at the position `number` and has `bytes` characters, not bytes. From then
/// on the text is a file of the session, also after `NO_LITERAL`.
#[unsafe(no_mangle)]
pub extern "C" fn pm_read_literal(session: PmSession, back: &mut PmSession, text: &[u8]) -> PmAnswer
    ensures handle { HandsBack session back.old back.new result.code }
    ensures answer { session.live ≡ true
        → ReadLiteralAnswer session.inside.value text.now back.new.inside.value result }
{
    on_session!(
        session,
        back,
        PmAnswer::with_error(NOT_LIVE),
        |inside| inside.read_literal(text)
    )
}

/// Writes the string literal of a text into the session's text, which then has `bytes` bytes.
#[unsafe(no_mangle)]
pub extern "C" fn pm_string(session: PmSession, back: &mut PmSession, text: &[u8]) -> PmAnswer
    ensures handle { HandsBack session back.old back.new result.code }
    ensures answer { session.live ≡ true → StringAnswer text.now session.inside.value back.new.inside.value result }
{
    on_session!(
        session,
        back,
        PmAnswer::with_error(NOT_LIVE),
        |inside| inside.string(text)
    )
}

/// Writes the literal of a character into the session's text, which then has `bytes` bytes.
#[unsafe(no_mangle)]
pub extern "C" fn pm_character(session: PmSession, back: &mut PmSession, character: u32) -> PmAnswer
    ensures handle { HandsBack session back.old back.new result.code }
    ensures answer { session.live ≡ true → CharacterAnswer character session.inside.value back.new.inside.value result }
{
    on_session!(
        session,
        back,
        PmAnswer::with_error(NOT_LIVE),
        |inside| inside.character(character)
    )
}

/// Writes the literal of a byte into the session's text, which then has `bytes` bytes.
#[unsafe(no_mangle)]
pub extern "C" fn pm_byte_character(session: PmSession, back: &mut PmSession, byte: u8) -> PmAnswer
    ensures handle { HandsBack session back.old back.new result.code }
    ensures answer { session.live ≡ true
        → MakeAnswer (byte_text byte) session.inside.value back.new.inside.value result }
{
    on_session!(
        session,
        back,
        PmAnswer::with_error(NOT_LIVE),
        |inside| inside.byte_character(byte)
    )
}

/// Writes the byte string literal of some bytes into the session's text, which then has `bytes` bytes.
#[unsafe(no_mangle)]
pub extern "C" fn pm_byte_string(
    session: PmSession,
    back: &mut PmSession,
    contents: &[u8],
) -> PmAnswer
    ensures handle { HandsBack session back.old back.new result.code }
    ensures answer { session.live ≡ true
        → MakeAnswer (byte_string_text contents.now) session.inside.value back.new.inside.value result }
{
    on_session!(
        session,
        back,
        PmAnswer::with_error(NOT_LIVE),
        |inside| inside.byte_string(contents)
    )
}

/// Writes the C string literal of some bytes, without a zero at their end, into the session's text, of `bytes` bytes.
#[unsafe(no_mangle)]
pub extern "C" fn pm_c_string(session: PmSession, back: &mut PmSession, contents: &[u8]) -> PmAnswer
    ensures handle { HandsBack session back.old back.new result.code }
    ensures answer { session.live ≡ true
        → CStringAnswer contents.now session.inside.value back.new.inside.value result }
{
    on_session!(
        session,
        back,
        PmAnswer::with_error(NOT_LIVE),
        |inside| inside.c_string(contents)
    )
}

/// Writes the value of a string literal, given by its text, into the session's text, which then has `bytes` bytes.
#[unsafe(no_mangle)]
pub extern "C" fn pm_str_value(session: PmSession, back: &mut PmSession, text: &[u8]) -> PmAnswer
    ensures handle { HandsBack session back.old back.new result.code }
    ensures answer { session.live ≡ true
        → ValueAnswer (str_value (chars text.now)) text.now session.inside.value back.new.inside.value result }
    ensures done { result.code ≡ DONE → HasTextValue (str_value (chars text.now)) back.new.inside.value result }
    ensures kept { session.live ≡ true → KeepsAllButText session.inside.value back.new.inside.value }
{
    on_session!(
        session,
        back,
        PmAnswer::with_error(NOT_LIVE),
        |inside| inside.str_value(text)
    )
}

/// Writes the value of a byte string literal, given by its text, into the session's bytes, which are `bytes` then.
#[unsafe(no_mangle)]
pub extern "C" fn pm_byte_str_value(
    session: PmSession,
    back: &mut PmSession,
    text: &[u8],
) -> PmAnswer
    ensures handle { HandsBack session back.old back.new result.code }
    ensures answer { session.live ≡ true
        → ValueAnswer (byte_str_value (chars text.now)) text.now session.inside.value back.new.inside.value result }
    ensures done { result.code ≡ DONE → HasBytesValue (byte_str_value (chars text.now)) back.new.inside.value result }
    ensures kept { session.live ≡ true → KeepsAllButBytes session.inside.value back.new.inside.value }
{
    on_session!(
        session,
        back,
        PmAnswer::with_error(NOT_LIVE),
        |inside| inside.byte_str_value(text)
    )
}

/// Writes the value of a C string literal, given by its text, into the session's bytes, which are `bytes` then. The
/// zero at the end is one of them.
#[unsafe(no_mangle)]
pub extern "C" fn pm_cstr_value(session: PmSession, back: &mut PmSession, text: &[u8]) -> PmAnswer
    ensures handle { HandsBack session back.old back.new result.code }
    ensures answer { session.live ≡ true
        → ValueAnswer (cstr_value (chars text.now)) text.now session.inside.value back.new.inside.value result }
    ensures done { result.code ≡ DONE → HasBytesValue (cstr_value (chars text.now)) back.new.inside.value result }
    ensures kept { session.live ≡ true → KeepsAllButBytes session.inside.value back.new.inside.value }
{
    on_session!(
        session,
        back,
        PmAnswer::with_error(NOT_LIVE),
        |inside| inside.cstr_value(text)
    )
}

/// Returns the line and column of a position.
#[unsafe(no_mangle)]
pub extern "C" fn pm_line_column_of(
    session: PmSession,
    back: &mut PmSession,
    position: u32,
) -> PmLineColumn
    ensures handle { HandsBack session back.old back.new result.code }
    ensures answer { session.live ≡ true → LineColumnAnswer session.inside.value.map position result }
    ensures same { session.live ≡ true → back.new.inside.value ≡ session.inside.value }
{
    on_session!(
        session,
        back,
        PmLineColumn::with_error(NOT_LIVE),
        |inside| inside.line_column(position)
    )
}

/// Returns the byte offsets in its text where a span begins and ends.
#[unsafe(no_mangle)]
pub extern "C" fn pm_byte_range(
    session: PmSession,
    back: &mut PmSession,
    lo: u32,
    hi: u32,
) -> PmRange
    ensures handle { HandsBack session back.old back.new result.code }
    ensures answer { session.live ≡ true → ByteRangeAnswer session.inside.value.map lo hi result }
    ensures same { session.live ≡ true → back.new.inside.value ≡ session.inside.value }
{
    on_session!(
        session,
        back,
        PmRange::with_error(NOT_LIVE),
        |inside| inside.byte_range(lo, hi)
    )
}

/// Writes the text of a span into the session's text, which then has `bytes` bytes. The span 0..0 has no text.
#[unsafe(no_mangle)]
pub extern "C" fn pm_source_text(
    session: PmSession,
    back: &mut PmSession,
    lo: u32,
    hi: u32,
) -> PmAnswer
    ensures handle { HandsBack session back.old back.new result.code }
    ensures answer { session.live ≡ true → SourceTextAnswer session.inside.value lo hi back.new.inside.value result }
{
    on_session!(
        session,
        back,
        PmAnswer::with_error(NOT_LIVE),
        |inside| inside.source_text(lo, hi)
    )
}

/// Writes the name of the text that has the span into the session's text: `<parsed string 2>` for the second text.
#[unsafe(no_mangle)]
pub extern "C" fn pm_file_name(
    session: PmSession,
    back: &mut PmSession,
    lo: u32,
    hi: u32,
) -> PmAnswer
    ensures handle { HandsBack session back.old back.new result.code }
    ensures answer { session.live ≡ true → FileNameAnswer session.inside.value lo hi back.new.inside.value result }
{
    on_session!(
        session,
        back,
        PmAnswer::with_error(NOT_LIVE),
        |inside| inside.file_name(lo, hi)
    )
}

/// Returns the span from the earlier start of two spans to their later end. `NOT_HELD` is about the first of the two.
#[unsafe(no_mangle)]
pub extern "C" fn pm_join(
    session: PmSession,
    back: &mut PmSession,
    lo: u32,
    hi: u32,
    other_lo: u32,
    other_hi: u32,
) -> PmRange
    ensures handle { HandsBack session back.old back.new result.code }
    ensures answer { session.live ≡ true → JoinAnswer session.inside.value.map lo hi other_lo other_hi result }
    ensures same { session.live ≡ true → back.new.inside.value ≡ session.inside.value }
{
    on_session!(
        session,
        back,
        PmRange::with_error(NOT_LIVE),
        |inside| inside.join(lo, hi, other_lo, other_hi)
    )
}

/// Forgets the texts that were read, but no stream. The next text begins at position 1 again, so spans of earlier texts
/// are no longer valid.
#[unsafe(no_mangle)]
pub extern "C" fn pm_forget(session: PmSession, back: &mut PmSession) -> u32
    ensures handle { HandsBack session back.old back.new result }
    ensures codes { IsAmong (DONE ∷ NOT_LIVE ∷ []) result }
    ensures answer { session.live ≡ true → back.new.inside.value ≡ record session.inside.value {
      map = record { texts = []; limit = session.inside.value.map.limit };
    } }
{
    on_session!(session, back, NOT_LIVE, |inside| {
        inside.forget();
        DONE
    })
}
