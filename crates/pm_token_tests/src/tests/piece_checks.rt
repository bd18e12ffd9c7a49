//! Assertions that the tests of the lexer share.

use crate::tests::checks::check_answer;
use lexical::{Piece, PieceKind, literal_at, piece_at};
use std::process::Abort;

/// Asserts which piece the text begins with, if it is not at byte offset 0 of the source.
pub fn check_piece(rt: &impl Abort, text: &str, want: Option<Piece<'_>>) {
    check_answer(rt, text, &piece_at(text, false), &want);
}

/// Asserts how many bytes the literal at the start of the text has.
pub fn check_literal_length(rt: &impl Abort, text: &str, want: Option<usize>) {
    check_answer(rt, text, &literal_at(text), &want);
}

/// Asserts that each text begins with a piece of this kind, with this number of bytes and of characters.
pub fn check_pieces(rt: &impl Abort, kind: PieceKind<'_>, rows: &[(&str, usize, usize)]) {
    for &(text, bytes, chars) in rows {
        check_piece(rt, text, Some(Piece { kind, bytes, chars }));
    }
}

/// Asserts that each text begins with neither a piece nor a literal.
pub fn check_no_pieces(rt: &impl Abort, texts: &[&str]) {
    for text in texts {
        check_piece(rt, text, None);
        check_literal_length(rt, text, None);
    }
}
