//! The pieces of a text as records.
ghost use Rattle.std.specs.Prelude.{◌≡◌, ◌^◌, ◌<◌, ◌≤◌, IfOk, OnOk, length};
ghost use Rattle.lexical.specs.Found.{kind_of};
ghost use Rattle.std.specs.Str.{chars};
ghost use Rattle.pm_c.specs.Pieces.{ListsPieces, flag_number, gap_number, kind_numbers};

use crate::records::PmPiece;
use proc_macro2::{PieceKind, pieces};
use std::alloc::AllocError;

/// Replaces `records` by the records of all pieces of the text, and returns how many bytes the pieces have.
pub(crate) fn list_pieces(text: &str, records: &mut Vec<PmPiece>) -> Result<usize, AllocError>
    requires { length text.now < 2 ^ 32 }
    ensures lists { IfOk result (ListsPieces text.now records.new.items) }
    ensures few { OnOk result (length records.new.items < 2 ^ 32) }
{
    records.clear();
    let mut walk = pieces(text);
    while let Some(next) = walk.next_piece() {
        let (kind, detail) = kind_numbers(next.piece.kind, next.text);
        let start = next.byte_offset as u32;
        let count = next.text.len() as u32;
        records.push(PmPiece {
            kind,
            detail,
            start,
            count,
        })?;
    }
    Ok(text.len() - walk.rest().len())
}

/// Returns the number of the kind of piece, and the detail of its record.
fn kind_numbers(kind: PieceKind<'_>, text: &str) -> (u8, u8)
    ensures { result ≡ kind_numbers (kind_of kind.entry (chars text.now)) text.now }
{
    match kind {
        PieceKind::FrontMark => (0, 0),
        PieceKind::Gap => (gap_number(text), 0),
        PieceKind::Doc { inner, .. } => (3, flag_number(inner)),
        PieceKind::Opener(_) => (4, 0),
        PieceKind::Closer(_) => (5, 0),
        PieceKind::Literal => (6, 0),
        PieceKind::Mark { joint, .. } => (7, flag_number(joint)),
        PieceKind::Name { raw, .. } => (8, flag_number(raw)),
    }
}

/// Returns the number of a gap: 2 for a comment, 1 for a white character.
fn gap_number(text: &str) -> u8
    ensures { result ≡ gap_number text.now }
{
    match text.as_bytes().first() {
        Some(byte) if *byte == b'/' => 2,
        _ => 1,
    }
}

/// Returns 1 for `true` and 0 for `false`.
fn flag_number(flag: bool) -> u8
    ensures { result ≡ flag_number flag }
{
    if flag { 1 } else { 0 }
}
