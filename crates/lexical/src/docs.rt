//! Doc comments and their text.

ghost use Rattle.std.specs.Prelude.{◌≡◌};
ghost use Rattle.std.specs.Str.{chars};
ghost use Rattle.lexical.specs.Comment.{Comment, has_bare_return as bare, is_doc as documents, is_inner as inward};
ghost use Rattle.lexical.specs.CommentKind.{comment_kind as kind_of_comment, doc_text as text_of_doc};
ghost use Rattle.lexical.specs.Form.{Where};
ghost use Rattle.lexical.specs.PieceStep.{Tells};

use crate::piece::PieceKind;
use crate::search::from_first;
use crate::text::{before, begins, split_first, without_return};

/// Whether the comment is an inner doc comment, which documents the item around it.
fn is_inner(comment: &str) -> bool
    ensures { result ≡ inward (chars comment.now) }
{
    begins(comment, "//!") || begins(comment, "/*!")
}

/// Whether the comment is a doc comment, by the rule `doc-comment`.
fn is_doc(comment: &str) -> bool
    ensures { result ≡ documents (chars comment.now) }
{
    let outer = begins(comment, "///") || begins(comment, "/**");
    let plain = begins(comment, "////") || begins(comment, "/***") || begins(comment, "/**/");
    is_inner(comment) || outer && !plain
}

/// Returns the text of a doc comment that `rest` follows, by the rule `doc-text`.
fn doc_text<'a>(comment: &'a str, rest: &str) -> &'a str
    requires { Where documents Comment (chars comment.now) (chars rest.now) }
    ensures { chars result.now ≡ text_of_doc (chars comment.now) (chars rest.now) }
{
    let doc_body = &comment[3..];
    if begins(comment, "/*") {
        before(doc_body, "*/")
    } else if begins(rest, "\n") {
        without_return(doc_body)
    } else {
        doc_body
    }
}

/// Whether the text has a CR with no LF after it.
fn has_bare_return(text: &str) -> bool
    ensures { result ≡ bare (chars text.now) }
{
    let mut rest = from_first(text, b'\r');
    while let Some((_, after)) = split_first(rest) {
        if !begins(after, "\n") {
            return true;
        }
        rest = from_first(after, b'\r');
    }
    false
}

/// Returns which kind of piece a comment is that `rest` follows. A doc comment is rejected if its text has a CR with no
/// LF after it.
pub fn comment_kind<'a>(comment: &'a str, rest: &str) -> Option<PieceKind<'a>>
    requires { Comment (chars comment.now) (chars rest.now) }
    ensures { Tells (kind_of_comment (chars comment.now) (chars rest.now)) (chars comment.now) result }
{
    if !is_doc(comment) {
        return Some(PieceKind::Gap);
    }
    let text = doc_text(comment, rest);
    if has_bare_return(text) {
        return None;
    }
    let kind = PieceKind::Doc {
        inner: is_inner(comment),
        text,
    };
    Some(kind)
}
