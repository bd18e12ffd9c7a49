//! Marks the pieces of a text.
ghost use Rattle.std.specs.Prelude.{◌≡◌, IfOk, List, MatchOption, [], true, ℕ, reverse};
ghost use Rattle.std.specs.Prelude.{string_bytes};
ghost use Rattle.std.specs.Str.{chars};
ghost use Rattle.lexical.specs.Found.{kind_of};
ghost use Rattle.lexical.specs.Piece.{Piece};
ghost use Rattle.explain.specs.Explained.{IsExplained, Parses};
ghost use Rattle.highlight.specs.Delimiters.{delimiter_styles};
ghost use Rattle.highlight.specs.Page.{IsMarked};
ghost use Rattle.highlight.specs.Pieces.{AreAllPieces, first_position, is_nil, is_quote, piece_style, styles_left};

use crate::format::Format;
use crate::nesting::Nesting;
use crate::style::{Style, style_of};
use crate::unread::push_unread;
use crate::writing::Sheet;
use explain::{ExplainError, Explained, explain};
use messages::Failure;
use proc_macro2::{PieceKind, PlacedPiece, pieces};
use std::alloc::{AllocError, Global};

/// Returns the text with its pieces marked.
///
/// A closer that matches no opener is marked as an error, and so is an opener that is never closed. If the text could
/// not be read to its end, openers that still wait are not marked, since their closers may follow. Where no piece
/// begins, the part that is wrong is marked with the reason, and the text around it is marked as not read.
pub fn mark_pieces(alloc: Global, format: Format, text: &str) -> Result<String, Failure>
    ensures { IfOk result (λ out. IsMarked format text.now (string_bytes out)) }
{
    let mut styling = Styling {
        delimiters: styles_of_delimiters(alloc, text)?,
        is_after_quote: false,
    };
    let mut sheet = Sheet::new(alloc, format);
    let mut walk = pieces(text);
    loop {
        let next = walk.next_after_white();
        styling.is_after_quote = styling.is_after_quote & next.white.is_empty();
        let Some(piece) = next.piece else {
            sheet.push_piece(Style::Bare, next.white)?;
            let answer = explanation_of(alloc, next.rest)?;
            push_unread(alloc, &mut sheet, &answer, next.rest)?;
            return Ok(sheet.out);
        };
        let style = styling.style_of(piece);
        sheet.push_piece(Style::Bare, next.white)?;
        sheet.push_piece(style, piece.text)?;
    }
}

/// Returns the styles of the delimiters in reverse order, so that the first is the last item.
fn styles_of_delimiters(alloc: Global, text: &str) -> Result<Vec<Style>, AllocError>
    ensures { IfOk result (λ styles. (all : List Piece) × (rest : List ℕ)
        × AreAllPieces true (chars text.now) all rest
        × (reverse styles.items ≡ delimiter_styles (is_nil rest) [] [] all)) }
{
    let mut nesting = Nesting::new(alloc);
    let mut walk = pieces(text);
    while let Some(next) = walk.next_after_white().piece {
        nesting.take(next.piece.kind)?;
    }
    let mut styles = nesting.into_styles(walk.rest().is_empty());
    styles.reverse();
    Ok(styles)
}

/// What is known before a piece and decides its style.
#[derive(Drop)]
struct Styling {
    // The styles of the remaining delimiters, in reverse order.
    delimiters: Vec<Style>,
    // Whether the piece before was the `'` of a lifetime.
    is_after_quote: bool,
}

impl Styling {
    /// Returns the style of the next piece.
    fn style_of(&mut self, next: PlacedPiece<'_>) -> Style
        ensures style { result ≡ piece_style (reverse self.old.delimiters.items) self.old.is_after_quote
            (kind_of next.entry.piece.kind (chars next.entry.text.now)) next.entry.text.now }
        ensures delimiters { reverse self.new.delimiters.items
            ≡ styles_left (reverse self.old.delimiters.items)
            (kind_of next.entry.piece.kind (chars next.entry.text.now)) }
        ensures quote { self.new.is_after_quote ≡ is_quote (kind_of next.entry.piece.kind (chars next.entry.text.now)) }
    {
        let is_after_quote = self.is_after_quote;
        self.is_after_quote = is_quote(next.piece.kind);
        match next.piece.kind {
            PieceKind::Opener(_) | PieceKind::Closer(_) => {
                self.delimiters.pop().unwrap_or(Style::Unclosed)
            }
            PieceKind::Name { .. } if is_after_quote => Style::Lifetime,
            kind => style_of(kind, next.text),
        }
    }
}

/// Whether the piece is the mark `'`.
fn is_quote(kind: PieceKind<'_>) -> bool
    ensures { (text : List ℕ) → result ≡ is_quote (kind_of kind.entry text) }
{
    match kind {
        PieceKind::Mark { mark, .. } => mark == '\'',
        _ => false,
    }
}

/// Returns why the text doesn't parse, if it doesn't.
fn explanation_of(alloc: Global, text: &str) -> Result<Option<Explained>, Failure>
    ensures { IfOk result (λ answer. MatchOption answer
        (Parses first_position (chars text.now)) (IsExplained first_position (chars text.now))) }
{
    match explain(alloc, text) {
        Ok(answer) => Ok(answer),
        Err(ExplainError::MapFull) => Err(Failure::MapFull),
        Err(ExplainError::Memory(_)) => Err(Failure::Memory),
    }
}
