//! Writes the doc attributes of a text as doc comments.
ghost use Rattle.std.specs.Prelude.{◌≡◌, ◌↔◌, ◌++◌, ◌&&◌, ◌||◌, [], ℕ, Bool, List, codes, false, true};
ghost use Rattle.std.specs.Prelude.{IfErr, IfOk, IfSome, IsTrue, MatchOption, string_bytes};
ghost use Rattle.std.specs.Str.{IsUtf8, chars};
ghost use Rattle.lexical.specs.Ascii.{all_ascii};
ghost use Rattle.lexical.specs.Cover.{onto};
ghost use Rattle.lexical.specs.Found.{kind_of};
ghost use Rattle.lexical.specs.Literal as lexical;
ghost use Rattle.lexical.specs.Piece.{HasNoPiece};
ghost use Rattle.lexical.specs.Text.{begins_with};
ghost use Rattle.pm_token.specs.Escaped.{string_text};
ghost use Rattle.pm_token.specs.LiteralText.{IsWholeLiteral};
ghost use Rattle.pm_token.specs.Text.{IsText};
ghost use Rattle.relayout.specs.Commented.{Part, Spells, attribute_front, is_free, new_part};
ghost use Rattle.relayout.specs.Comments.{BecomesComment, HasNoAttribute, IsAttribute, IsCommented, IsFirstPart};
ghost use Rattle.relayout.specs.Relaid.{HasNoCover, IfNoPiece};
ghost use Rattle.relayout.specs.Written.{ends_line, is_white_gap};

use crate::errors::RelayoutError;
use crate::forms::form_of;
use crate::literals::{escaped_text, plain_front};
use lexical::parts::{TextCursor, before, begins};
use lexical::{PieceKind, literal_at, past_white, piece_at};
use pm_token::parts::{TextBuilder, string_literal};
use pm_token::{ConversionErrorKind, Literal};
use proc_macro2::Span;
use std::alloc::{AllocError, Global};

/// Returns the text with its doc attributes written as doc comments.
///
/// `#[doc = ".."]` becomes `///..`, and `# ![doc = ".."]` becomes `//!..`. Such a comment is read as that attribute, so
/// the text parses to the same tokens up to spans. An attribute stays if it is spelled in another way, if more than
/// white space precedes it on its line, or if LF does not follow its `]` at once. It also stays if its text has LF or
/// CR, which no one-line comment can hold, or if the text would begin with `/` right after `///`. Everything else stays
/// as it is.
///
/// Returns `NoPiece` if no pieces cover the text, and `Memory` if memory runs out. Delimiters need not match. The call
/// takes time proportional to the length of the text.
///
/// Example: `#[doc = " a"]`, LF and `fn f() {}` become `/// a`, LF and `fn f() {}`.
pub fn with_doc_comments(alloc: Global, text: &str) -> Result<String, RelayoutError>
    ensures ok { IfOk result (λ out. IsCommented false (chars text.now) (chars (string_bytes out))) }
    ensures no_piece { IfErr result (IfNoPiece (HasNoCover (chars text.now))) }
{
    commented(alloc, text, false)
}

/// Returns the text with its doc attributes written as doc comments, whatever the spelling of their literals.
///
/// It writes the comments of `with_doc_comments`, and more. A literal may be spelled in any way, as `r" a"`, which
/// rustc makes of `/// a` in a macro. An attribute whose text no one-line comment can hold becomes `/**..*/` or
/// `/*!..*/`, if that comment is read as this text and the text has no CR. The returned text parses to the same tokens
/// up to spans, but a doc literal may become another spelling of its value. Everything else stays as it is.
///
/// Returns `NoPiece` if no pieces cover the text, and `Memory` if memory runs out. Delimiters need not match. The call
/// takes time proportional to the length of the text.
///
/// Example: `#[doc = r" a"]`, LF, `#[doc = "b\nc"]` and LF become `/// a`, LF, `/**b`, LF, `c*/` and LF.
pub fn with_any_doc_comments(alloc: Global, text: &str) -> Result<String, RelayoutError>
    ensures ok { IfOk result (λ out. IsCommented true (chars text.now) (chars (string_bytes out))) }
    ensures no_piece { IfErr result (IfNoPiece (HasNoCover (chars text.now))) }
{
    commented(alloc, text, true)
}

/// Does the work of `with_doc_comments` or, if `any` is true, of `with_any_doc_comments`.
fn commented(alloc: Global, text: &str, any: bool) -> Result<String, RelayoutError>
    ensures ok { IfOk result (λ out. IsCommented any (chars text.now) (chars (string_bytes out))) }
    ensures no_piece { IfErr result (IfNoPiece (HasNoCover (chars text.now))) }
{
    let mut out = TextBuilder::with_room(alloc, text.len())?;
    // `kept` is the text that is not written yet, and `rest` its end that is not read yet. What is kept is copied in
    // one go.
    let mut kept = text;
    let mut rest = text;
    let mut first = true;
    let mut free = true;
    while !rest.is_empty() {
        // Of white space only the line ends matter, so it is skipped without the lexer.
        let (solid, white) = past_white(rest);
        if white > 0 {
            free = is_free_after(free, before(rest, solid));
            rest = solid;
            first = false;
            continue;
        }
        if let Some(after) = push_comment(alloc, &mut out, kept, rest, free, any)? {
            kept = after;
            rest = after;
            first = false;
            continue;
        }
        let Some((after, is_free)) = past_piece(rest, first, free, any) else {
            return Err(RelayoutError::NoPiece);
        };
        rest = after;
        first = false;
        free = is_free;
    }
    out.push_text(kept)?;
    Ok(out.into_string())
}

/// Whether the line is blank up to the end of `white`. `free` says whether it is blank up to the start of `white`.
#[inline(always)]
fn is_free_after(free: bool, white: &str) -> bool
    ensures { result ≡ (free || ends_line (chars white.now)) }
{
    free || ends_line(white)
}

/// Whether the white space has a line end in it.
#[inline(always)]
fn ends_line(white: &str) -> bool
    ensures { result ≡ ends_line (chars white.now) }
{
    white.chars().any(|c| c == '\n')
}

/// Writes a comment for the attribute at the start of `text`, after the part of `kept` that precedes `text`. `free`
/// says whether only white space precedes `text` on its line. Returns what follows the attribute's line. If no
/// attribute that becomes a comment begins there, it returns `None` and writes nothing.
#[inline(always)]
fn push_comment<'a>(
    alloc: Global,
    out: &mut TextBuilder,
    kept: &str,
    text: &'a str,
    free: bool,
    any: bool,
) -> Result<Option<&'a str>, AllocError>
    requires { (front : List ℕ) × (chars kept.now ≡ front ++ chars text.now) }
    ensures found { IfOk result (λ found. MatchOption found
        ((IsTrue free → HasNoAttribute any (chars text.now)) × (out.new ≡ out.old))
        (λ rest. (free ≡ true)
        × BecomesComment any (chars kept.now) (chars text.now) (chars rest.now) out.old out.new)) }
    ensures utf8 { IfOk result (λ found. IfSome found (λ rest. IsUtf8 rest.now)) }
{
    if !free {
        return Ok(None);
    }
    if !begins(text, "#") {
        return Ok(None);
    }
    push_attribute(alloc, out, kept, text, any)
}

/// Does the work of `push_comment` for a text that only white space precedes on its line.
#[inline(never)]
fn push_attribute<'a>(
    alloc: Global,
    out: &mut TextBuilder,
    kept: &str,
    text: &'a str,
    any: bool,
) -> Result<Option<&'a str>, AllocError>
    requires { (front : List ℕ) × (chars kept.now ≡ front ++ chars text.now) }
    ensures found { IfOk result (λ found. MatchOption found
        (HasNoAttribute any (chars text.now) × (out.new ≡ out.old))
        (λ rest. BecomesComment any (chars kept.now) (chars text.now) (chars rest.now) out.old out.new)) }
    ensures utf8 { IfOk result (λ found. IfSome found (λ rest. IsUtf8 rest.now)) }
{
    let Some((inner, after)) = past_front(text) else {
        return Ok(None);
    };
    // Most literals hold their text as it is or with short escapes. These are read without the lexer.
    if let Some((front, more)) = plain_front(after) {
        if let Some(end) = TextCursor::new(more).past("\"]\n") {
            return push_doc(alloc, out, kept, text, inner, any, front, end.rest);
        }
        if let Some((doc_body, rest)) = escaped_text(alloc, front, more)? {
            return push_doc(alloc, out, kept, text, inner, any, doc_body.as_str(), rest);
        }
    }
    let Some((literal, rest)) = split_literal(after) else {
        return Ok(None);
    };
    let Some(doc_body) = text_of(alloc, literal, any)? else {
        return Ok(None);
    };
    push_doc(alloc, out, kept, text, inner, any, doc_body.as_str(), rest)
}

/// Writes the comment for an attribute whose text is `doc_body`, if a comment can hold that text, and returns `rest`,
/// which follows the attribute's line. Otherwise it returns `None` and writes nothing.
fn push_doc<'a>(
    alloc: Global,
    out: &mut TextBuilder,
    kept: &str,
    text: &str,
    inner: bool,
    any: bool,
    doc_body: &str,
    rest: &'a str,
) -> Result<Option<&'a str>, AllocError>
    requires kept { (front : List ℕ) × (chars kept.now ≡ front ++ chars text.now) }
    requires is { (literal : List ℕ)
        × IsAttribute any (chars text.now) inner literal (chars doc_body.now) (chars rest.now) }
    ensures found { IfOk result (λ found. MatchOption found
        (HasNoAttribute any (chars text.now) × (out.new ≡ out.old))
        (λ rest. BecomesComment any (chars kept.now) (chars text.now) (chars rest.now) out.old out.new)) }
    ensures utf8 { IfOk result (λ found. IfSome found (λ rest. IsUtf8 rest.now)) }
{
    let Some((front, end)) = form_of(alloc, inner, any, doc_body)? else {
        return Ok(None);
    };
    out.push_text(before(kept, text))?;
    out.push_text(front)?;
    out.push_text(doc_body)?;
    out.push_text(end)?;
    Ok(Some(rest))
}

/// Returns what follows the piece at the start of the text, and whether only white space precedes that on its line.
/// `free` says whether only white space precedes the piece on its line. If so, no attribute that becomes a comment may
/// begin there. Returns `None` if no piece begins there.
#[inline(always)]
fn past_piece(text: &str, first: bool, free: bool, _any: bool) -> Option<(&str, bool)>
    requires { IsTrue free → HasNoAttribute _any (chars text.now) }
    ensures found { MatchOption result (HasNoPiece first (chars text.now))
        (λ next. (part : Part) × IsFirstPart _any first free (chars text.now) part (chars next.0.now)
        × (next.1 ≡ is_free free part) × (chars text.now ≡ onto (new_part part) [] ++ chars next.0.now)) }
    ensures utf8 { IfSome result (λ next. IsUtf8 next.0.now) }
{
    let Some(piece) = piece_at(text, first) else {
        return None;
    };
    let (own, rest) = text.split_at(piece.bytes);
    Some((rest, is_free(free, piece.kind, own)))
}

/// Whether the line is blank up to the end of a piece of this kind and text. `free` says whether it is blank up to its
/// start.
fn is_free(free: bool, kind: PieceKind<'_>, text: &str) -> bool
    ensures { result ≡ (is_white_gap (kind_of kind.entry (chars text.now), chars text.now)
        && (free || begins_with (codes "\n") (chars text.now))) }
{
    match kind {
        PieceKind::Gap => !begins(text, "/") && (free || begins(text, "\n")),
        _ => false,
    }
}

/// Returns which doc attribute begins the text, an inner one (`true`) or an outer one, and the text from its literal
/// on. Returns `None` if none begins it.
fn past_front(text: &str) -> Option<(bool, &str)>
    ensures found { MatchOption result
        ((inner : Bool) → begins_with (attribute_front inner) (chars text.now) ≡ false)
        (λ x. chars text.now ≡ attribute_front x.0 ++ chars x.1.now) }
    ensures utf8 { IfSome result (λ x. IsUtf8 x.1.now) }
{
    let start = TextCursor::new(text);
    if let Some(literal) = start.past("#[doc = ") {
        return Some((false, literal.rest));
    }
    if let Some(literal) = start.past("# ![doc = ") {
        return Some((true, literal.rest));
    }
    None
}

/// Returns the literal at the start of the text, and what follows the `]` and LF after it. Returns `None` if no literal
/// begins there or something else follows it.
fn split_literal(text: &str) -> Option<(&str, &str)>
    ensures found { MatchOption result ((p r : List ℕ) → lexical.Literal p (codes "]\n" ++ r)
        → chars text.now ≡ p ++ (codes "]\n" ++ r) → ⊥)
        (λ x. lexical.Literal (chars x.0.now) (codes "]\n" ++ chars x.1.now)
        × (chars text.now ≡ chars x.0.now ++ (codes "]\n" ++ chars x.1.now))) }
    ensures utf8 { IfSome result (λ x. IsUtf8 x.1.now) }
{
    let Some(bytes) = literal_at(text) else {
        return None;
    };
    let Some(end) = TextCursor::new(&text[bytes..]).past("]\n") else {
        return None;
    };
    Some((&text[..bytes], end.rest))
}

/// Returns the text that this literal spells, if there is one. If `any` is false, the literal must be the one that
/// `Literal::string` writes for the text.
fn text_of(alloc: Global, literal: &str, any: bool) -> Result<Option<String>, AllocError>
    requires { IsWholeLiteral (chars literal.now) }
    ensures { IfOk result (λ found. MatchOption found
        ((text : List ℕ) → IsText text → Spells any (chars literal.now) text → ⊥)
        (λ text. Spells any (chars literal.now) (chars (string_bytes text)))) }
{
    match Literal::from_str_unchecked(alloc, literal)?.str_value(alloc) {
        Ok(text) => {
            if any {
                Ok(Some(text))
            } else {
                same_literal(alloc, literal, text)
            }
        }
        Err(ConversionErrorKind::Memory(error)) => Err(error),
        Err(ConversionErrorKind::InvalidLiteralKind) => Ok(None),
        Err(ConversionErrorKind::FailedToUnescape(_)) => Ok(None),
    }
}

/// Returns `text` if `Literal::string` writes `literal` for it.
fn same_literal(alloc: Global, literal: &str, text: String) -> Result<Option<String>, AllocError>
    ensures { IfOk result (λ found. MatchOption found
        (chars literal.now ≡ string_text (chars (string_bytes text)) → ⊥)
        (λ same. (same ≡ text) × (chars literal.now ≡ string_text (chars (string_bytes text))))) }
{
    let again = string_literal(alloc, text.as_str(), Span::call_site())?;
    if is_same(again.text(), literal) {
        Ok(Some(text))
    } else {
        Ok(None)
    }
}

/// Whether the two texts are equal.
fn is_same(text: &str, other: &str) -> bool
    ensures { IsTrue result ↔ (chars text.now ≡ chars other.now) }
{
    text == other
}
