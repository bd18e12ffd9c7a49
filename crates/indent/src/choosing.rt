//! Chooses the white space that indents a text.
ghost use Rattle.std.specs.Prelude.{IfOk, OnOk};
ghost use Rattle.std.specs.List.{All};
ghost use Rattle.indent.specs.Indented.{KeepsLines};

use lexical::{PieceKind, PlacedPiece, pieces};
use relayout::White;
use std::alloc::{AllocError, Global};

/// By how much each open group indents a line.
#[derive(Clone, Copy, Debug, PartialEq, Eq)]
pub enum IndentStyle {
    /// By one tab.
    Tab,
    /// By this number of spaces.
    Spaces(u8),
}

/// Returns the choice for each run of white space of a text, so that its lines are indented by the groups that are
/// open.
///
/// Closers at the start of a line count as closed before the line.
pub fn choices(alloc: Global, text: &str, step: IndentStyle) -> Result<Vec<White>, AllocError>
    ensures { IfOk result (λ choices. All KeepsLines choices.items) }
{
    let mut choices = Vec::new(alloc);
    let mut open: usize = 0;
    let mut walk = pieces(text);
    loop {
        let next = walk.next_after_white();
        let Some(piece) = next.piece else {
            push_choice(&mut choices, next.white, "", 0, step)?;
            return Ok(choices);
        };
        push_choice(&mut choices, next.white, next.rest, open, step)?;
        open = open_after(piece, open);
    }
}

/// Returns how many groups are open after the piece.
fn open_after(next: PlacedPiece<'_>, open: usize) -> usize {
    match next.piece.kind {
        PieceKind::Opener(_) => open.saturating_add(1),
        PieceKind::Closer(_) => open.saturating_sub(1),
        _ => open,
    }
}

/// Adds the choice for a run of white space, if it is not empty. `rest` follows the run, and `open` groups are open
/// there.
fn push_choice(
    choices: &mut Vec<White>,
    run: &str,
    rest: &str,
    open: usize,
    step: IndentStyle,
) -> Result<(), AllocError>
    ensures { All KeepsLines choices.old.items → OnOk result (All KeepsLines choices.new.items) }
{
    if run.is_empty() {
        return Ok(());
    }
    let choice = if run.contains('\n') {
        indentation(open.saturating_sub(closers(rest)), step)
    } else {
        White::Kept
    };
    choices.push(choice)?;
    Ok(())
}

/// Returns how many closers are at the start of the line.
fn closers(line: &str) -> usize {
    let mut count: usize = 0;
    for c in line.chars() {
        match c {
            ')' | ']' | '}' => count = count.saturating_add(1),
            ' ' | '\t' => {}
            _ => break,
        }
    }
    count
}

/// Returns the white space that begins a line on this level.
fn indentation(level: usize, step: IndentStyle) -> White
    ensures { KeepsLines result }
{
    match step {
        IndentStyle::Tab => White::Lines {
            tabs: level,
            spaces: 0,
        },
        IndentStyle::Spaces(width) => White::Lines {
            tabs: 0,
            spaces: level.saturating_mul(usize::from(width)),
        },
    }
}
