//! Counts the plain comments of a text, which no token keeps.
ghost use Rattle.std.specs.Prelude.{◌≡◌, ◌<◌, ◌&&◌, List, OnOk, nat_lt};
ghost use Rattle.std.specs.Io.KnownBytes.{Appends};
ghost use Rattle.std.specs.Str.{chars};
ghost use Rattle.lexical.specs.Cover.{IsCover};
ghost use Rattle.lexical.specs.Found.{kind_of};
ghost use Rattle.lexical.specs.Piece.{Piece};
ghost use Rattle.messages.specs.Message.{of_file};
ghost use Rattle.pretty.specs.Comments.{comments, denial, is_comment, note};

use lexical::parts::begins;
use lexical::{PieceKind, PlacedPiece, pieces};
use std::io;
use std::io::Write;

/// Returns how many comments of a text are not doc comments.
///
/// Example: `/// a`, LF, `fn f() {} // b` and `/* c */` have two.
pub fn count_comments(text: &str) -> usize
    ensures { (all : List Piece) → IsCover all (chars text.now) → result ≡ comments all }
{
    // Each comment has at least one byte, so the count cannot overflow.
    let _bytes = text.len();
    let mut count: usize = 0;
    let mut walk = pieces(text);
    while let Some(next) = walk.next_after_white().piece {
        if is_comment(next) {
            count += 1;
        }
    }
    count
}

/// Whether the piece is a comment, but not a doc comment.
fn is_comment(next: PlacedPiece<'_>) -> bool
    ensures { result ≡ is_comment (
      kind_of next.entry.piece.kind (chars next.entry.text.now),
      chars next.entry.text.now,
    ) }
{
    match next.piece.kind {
        PieceKind::Gap => begins(next.text, "/"),
        _ => false,
    }
}

/// Writes to `errors` that `count` comments were left out.
pub fn say_left_out<E: Write>(count: usize, errors: &mut E) -> io::Result<()>
    ensures { OnOk result (Appends (E.contents errors.old) (E.contents errors.new) (note count)) }
{
    if count == 1 {
        return writeln!(
            errors,
            "note: 1 comment is not kept; tokens indent keeps it"
        );
    }
    writeln!(
        errors,
        "note: {count} comments are not kept; tokens indent keeps them"
    )
}

/// Writes to `errors` that nothing was written for the file at this path, since `count` comments would be lost.
pub fn say_denied<E: Write>(path: &str, count: usize, errors: &mut E) -> io::Result<()>
    ensures { OnOk result (Appends (E.contents errors.old) (E.contents errors.new) (denial path.now count)) }
{
    if count == 1 {
        return writeln!(
            errors,
            "{path}: error: 1 comment would be lost; tokens indent keeps it"
        );
    }
    writeln!(
        errors,
        "{path}: error: {count} comments would be lost; tokens indent keeps them"
    )
}
