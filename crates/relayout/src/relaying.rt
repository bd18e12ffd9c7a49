//! Writes a text with other white space.
ghost use Rattle.std.specs.Prelude.{◌≡◌, ◌++◌, IfErr, IfOk, Bool, ℕ, List, string_bytes};
ghost use Rattle.std.specs.Str.{IsUtf8, chars};
ghost use Rattle.lexical.specs.Found.{kind_of};
ghost use Rattle.relayout.specs.Relayout.{is_line};
ghost use Rattle.relayout.specs.Relaid.{HasNoCover, IfNoPiece, IsRelaid};
ghost use Rattle.relayout.specs.Written.{Placed};

use crate::errors::RelayoutError;
use crate::white::{White, push_white};
use lexical::parts::{before, begins};
use lexical::{PieceKind, PlacedPiece, pieces};
use pm_token::parts::TextBuilder;
use std::alloc::{AllocError, Global};

/// Returns the text with other white space between its tokens and comments, which stay as they are.
///
/// Each run of white characters becomes what the next of the choices says. Runs after the last choice stay as they are.
/// No run is added, none becomes empty, and a line comment keeps its line end. So the text keeps its pieces except for
/// white characters, and it parses to the same tokens up to spans, whatever is chosen.
///
/// Returns `NoPiece` if no pieces cover the text, and `Memory` if memory runs out. Delimiters need not match. The call
/// takes time proportional to the length of the text and of what it writes.
///
/// Example: with `Space`, `Lines` with 4 spaces and `Space`, `a  +\n// b\n c` becomes `a +\n    // b\nc`.
pub fn relayout(alloc: Global, text: &str, choices: &[White]) -> Result<String, RelayoutError>
    ensures ok { IfOk result (λ out. IsRelaid choices.now (chars text.now) (chars (string_bytes out))) }
    ensures no_piece { IfErr result (IfNoPiece (HasNoCover (chars text.now))) }
{
    let mut out = TextBuilder::with_room(alloc, text.len())?;
    let mut left = choices;
    let mut line = false;
    // The text from `kept` up to the walk stays as it is and is not written yet. It is copied in one go, before the
    // next run of white characters that changes or at the end.
    let mut kept = text;
    let mut walk = pieces(text);
    loop {
        let from = walk.rest();
        let next = walk.next_after_white();
        let Some(piece) = next.piece else {
            if !next.rest.is_empty() {
                return Err(RelayoutError::NoPiece);
            }
            let (stays, _) = push_run(&mut out, left, line, kept, from, next.white, next.rest)?;
            out.push_text(stays)?;
            return Ok(out.into_string());
        };
        let (stays, choices) = push_run(&mut out, left, line, kept, from, next.white, next.rest)?;
        kept = stays;
        left = choices;
        line = is_line(piece);
    }
}

/// Whether the piece is a line comment, also a doc comment.
fn is_line(next: PlacedPiece<'_>) -> bool
    ensures { result ≡ is_line (
      kind_of next.entry.piece.kind (chars next.entry.text.now),
      chars next.entry.text.now,
    ) }
{
    match next.piece.kind {
        PieceKind::Gap | PieceKind::Doc { .. } => begins(next.text, "//"),
        _ => false,
    }
}

/// Takes the next choice for the run of white characters between `from` and `to`, if the run is not empty. A run that
/// changes is written as the choice says, after the text that was kept before it. Returns the text that is kept now,
/// which ends with `to`, and the choices for later runs.
#[inline(always)]
fn push_run<'a, 'b>(
    out: &mut TextBuilder,
    choices: &'a [White],
    line: bool,
    kept: &'b str,
    from: &str,
    run: &str,
    to: &'b str,
) -> Result<(&'b str, &'a [White]), AllocError>
    requires kept { (front : List ℕ) × (chars kept.now ≡ front ++ chars from.now) }
    requires run { chars from.now ≡ chars run.now ++ chars to.now }
    ensures placed { IfOk result (λ x. (front : List ℕ) → chars kept.now ≡ front ++ chars from.now
        → Placed choices.now x.1.now line front (chars run.now) (chars x.0.now) (chars to.now) out.old out.new) }
    ensures utf8 { IfOk result (λ x. IsUtf8 x.0.now) }
{
    if run.is_empty() {
        return Ok((kept, choices));
    }
    match choices.split_first() {
        None => Ok((kept, choices)),
        Some((White::Kept, left)) => Ok((kept, left)),
        Some((choice, left)) => {
            out.push_text(before(kept, from))?;
            push_white(out, *choice, line, run)?;
            Ok((to, left))
        }
    }
}
