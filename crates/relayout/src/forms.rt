//! The doc comment that can hold a text.
ghost use Rattle.std.specs.List.{list_all};
ghost use Rattle.std.specs.Prelude.{◌≡◌, ◌↔◌, ◌++◌, ◌||◌, [], codes, IfOk, IsTrue, MatchOption};
ghost use Rattle.std.specs.Str.{chars};
ghost use Rattle.lexical.specs.Comment as comments;
ghost use Rattle.relayout.specs.Commented.{CanHold, IsDocBlock, block_front, comment_front, doc_comment};
ghost use Rattle.relayout.specs.Commented.{has_no_return, is_doc_line};
ghost use Rattle.relayout.specs.Comments.{in_line};

use lexical::parts::{TextCursor, begins, skip_to, skip_to_either};
use lexical::{PieceKind, piece_at};
use pm_token::parts::TextBuilder;
use std::alloc::{AllocError, Global};

/// Returns what precedes and what follows the text in a doc comment and the LF after it. This is a comment of one line
/// or, if `blocks` is true and no line can hold the text, a block. Returns `None` if no such comment can hold the text.
pub(crate) fn form_of(
    alloc: Global,
    inner: bool,
    blocks: bool,
    doc_body: &str,
) -> Result<Option<(&'static str, &'static str)>, AllocError>
    ensures { IfOk result (λ found. MatchOption found (CanHold blocks inner (chars doc_body.now) → ⊥)
        (λ form. CanHold blocks inner (chars doc_body.now)
        × (chars form.0.now ++ (chars doc_body.now ++ chars form.1.now)
        ≡ doc_comment inner (chars doc_body.now) ++ codes "\n"))) }
{
    if is_doc_line(inner, doc_body) {
        return Ok(Some((front_of(inner), "\n")));
    }
    if !blocks {
        return Ok(None);
    }
    if is_doc_block(alloc, inner, doc_body)? {
        Ok(Some((block_front_of(inner), "*/\n")))
    } else {
        Ok(None)
    }
}

/// Returns `//!` for an inner comment and `///` for an outer one.
fn front_of(inner: bool) -> &'static str
    ensures { result.now ≡ comment_front inner }
{
    if inner { "//!" } else { "///" }
}

/// Returns `/*!` for an inner comment and `/**` for an outer one.
fn block_front_of(inner: bool) -> &'static str
    ensures { result.now ≡ block_front inner }
{
    if inner { "/*!" } else { "/**" }
}

/// Whether a doc comment of one line can hold the text.
fn is_doc_line(inner: bool, text: &str) -> bool
    ensures { result ≡ is_doc_line inner (chars text.now) }
{
    is_in_line(text) && (inner || !begins(text, "/"))
}

/// Whether the text has neither LF nor CR in it.
fn is_in_line(text: &str) -> bool
    ensures { result ≡ list_all in_line (chars text.now) }
{
    skip_to_either(TextCursor::new(text), b'\n', b'\r')
        .rest
        .is_empty()
}

/// Whether the text has no CR in it. rustc reads a CR LF of a comment as LF, but not that of a literal.
fn has_no_return(text: &str) -> bool
    ensures { result ≡ has_no_return (chars text.now) }
{
    skip_to(TextCursor::new(text), b'\r').rest.is_empty()
}

/// Whether a block doc comment can hold the text. The comment is read to find out.
fn is_doc_block(alloc: Global, inner: bool, doc_body: &str) -> Result<bool, AllocError>
    ensures { IfOk result (λ is. IsTrue is ↔ IsDocBlock inner (chars doc_body.now)) }
{
    if !has_no_return(doc_body) {
        return Ok(false);
    }
    let mut comment = TextBuilder::with_room(alloc, doc_body.len())?;
    comment.push_text(block_front_of(inner))?;
    comment.push_text(doc_body)?;
    comment.push_text("*/")?;
    Ok(is_doc(comment.into_string().as_str(), inner, doc_body))
}

/// Whether the whole text is a doc comment with the text `doc_body`.
fn is_doc(comment: &str, inner: bool, doc_body: &str) -> bool
    ensures { IsTrue result ↔ comments.Doc inner (chars doc_body.now) (chars comment.now) [] }
{
    let Some(piece) = piece_at(comment, false) else {
        return false;
    };
    if piece.bytes != comment.len() {
        return false;
    }
    match piece.kind {
        PieceKind::Doc {
            inner: is_inner,
            text,
        } => is_inner == inner && text == doc_body,
        _ => false,
    }
}
