//! Advice that helps to fix an error.

ghost use Rattle.std.specs.Prelude.{◌≡◌, ◌+◌, ◌<◌, ◌^◌, ◌++◌, List, ℕ, IfOk, Some, codes, length};
ghost use Rattle.std.specs.Str.{chars};
ghost use Rattle.lexical.specs.Comment.{BlockComment};
ghost use Rattle.lexical.specs.Form.{HasNone};
ghost use Rattle.lexical.specs.Rule.{Stands};
ghost use Rattle.lexical.specs.declared.quoted.StringKind.{StringKind};
ghost use Rattle.pm_span.specs.Files.{Fits, new_map, next_lo};
ghost use Rattle.explain.specs.Explained.{IsExplained, IsStretch};
ghost use Rattle.explain.specs.Hint.{Helps, IsHint};
ghost use Rattle.explain.specs.Shapes.{raw_opening};
ghost use Rattle.explain.specs.Walk.{IsPast};
ghost use Rattle.explain.specs.declared.reason.Reason.TheVariants.{UnclosedComment, UnclosedRawString};

use crate::comment_hints::open_comments;
use crate::explained::{Explained, Stretch};
use crate::explaining::stretch;
use crate::quote_hints::nearest;
use crate::reason::Reason;
use lexical::parts::TextCursor;
use pm_span::parts::bounds;
use std::alloc::{AllocError, Global};

/// Advice that helps to fix an error, as defined in `specs/Hint.antt`.
#[derive(Clone, Copy)]
pub enum Hint {
    /// Advice for a block comment that doesn't end.
    Comments {
        /// How many block comments are open at the end of the text, including this one.
        depth: usize,
        /// The comment inside it that ended last, if one did. Often this comment was not meant to begin.
        closed: Option<Stretch>,
    },
    /// Advice for a raw string that doesn't end: the quote with the most hash signs right after it, together with
    /// these. Of several such quotes it is the first.
    Quote(Stretch),
}

/// Returns advice on the error of a text. `explained` must be what [`explain`](crate::explain) returned for
/// this text.
///
/// Returns `None` for all reasons except an unclosed block comment, and an unclosed raw string that has a quote in it.
/// Fails if memory for the list of open comments runs out. Nothing else is allocated.
///
/// In `/* a/*.rs */` one comment is open at the end, and `/*.rs */` ended last, the bytes 4..12.
pub fn advice(alloc: Global, text: &str, explained: &Explained) -> Result<Option<Hint>, AllocError>
    requires fits { Fits new_map (length (chars text.now)) }
    requires explained { IsExplained (next_lo new_map) (chars text.now) explained.now }
    ensures { IfOk result (IsHint (next_lo new_map) (chars text.now) explained.now) }
{
    match explained.reason {
        Reason::UnclosedComment => Ok(Some(comment_hint(alloc, text, explained.at)?)),
        Reason::UnclosedRawString => Ok(quote_hint(text, explained.at)),
        _ => Ok(None),
    }
}

/// Returns the hint for a block comment that doesn't end. `at` is its `/*`.
fn comment_hint(alloc: Global, text: &str, at: Stretch) -> Result<Hint, AllocError>
    requires fits { Fits new_map (length (chars text.now)) }
    requires stands { (text_before more : List ℕ) × (chars text.now ≡ text_before ++ (codes "/*" ++ more))
        × IsStretch (next_lo new_map) text_before (codes "/*") at × HasNone BlockComment (codes "/*" ++ more) }
    ensures { IfOk result (λ hint. (text_before more : List ℕ) → chars text.now ≡ text_before ++ (codes "/*" ++ more)
        → IsStretch (next_lo new_map) text_before (codes "/*") at
        → Helps (next_lo new_map) text_before (codes "/*" ++ more) UnclosedComment (Some hint)) }
{
    let start = TextCursor::new(&text[at.start..]);
    let (lo, _) = bounds(at.span);
    let (depth, ended) = open_comments(alloc, start)?;
    let Some((from, to)) = ended else {
        return Ok(Hint::Comments {
            depth,
            closed: None,
        });
    };
    Ok(Hint::Comments {
        depth,
        closed: Some(between(text, from, to, lo)),
    })
}

/// Returns the hint for a raw string that doesn't end, or `None` if it has no quote in it. `at` is what opens the
/// string.
fn quote_hint(text: &str, at: Stretch) -> Option<Hint>
    requires fits { Fits new_map (length (chars text.now)) }
    requires stands { (kind : StringKind) × (text_before opening body : List ℕ)
        × (chars text.now ≡ text_before ++ (opening ++ body))
        × Stands (raw_opening kind) opening body × IsStretch (next_lo new_map) text_before opening at }
    ensures { (kind : StringKind) (text_before opening body : List ℕ)
        → chars text.now ≡ text_before ++ (opening ++ body)
        → Stands (raw_opening kind) opening body → IsStretch (next_lo new_map) text_before opening at
        → Helps (next_lo new_map) text_before (opening ++ body) UnclosedRawString result }
{
    let inside = TextCursor::new(&text[at.end..]);
    let (_, lo) = bounds(at.span);
    let (from, to) = nearest(inside)?;
    Some(Hint::Quote(between(text, from, to, lo)))
}

/// Returns the part of a text between two cursors. The cursors belong to a rest of the text that begins at the position
/// `base`.
fn between(text: &str, from: TextCursor<'_>, to: TextCursor<'_>, base: u32) -> Stretch
    requires from { (front : List ℕ) × (chars text.now ≡ front ++ chars from.rest.now) }
    requires to { IsPast from to }
    requires room { base + to.chars_before < 2 ^ 32 }
    ensures { (begin : ℕ) (front part : List ℕ) → chars text.now ≡ front ++ chars from.entry.rest.now
        → chars from.entry.rest.now ≡ part ++ chars to.entry.rest.now
        → base + from.entry.chars_before ≡ begin + length front
        → to.entry.chars_before ≡ from.entry.chars_before + length part → IsStretch begin front part result }
{
    let lo = base + from.chars_before as u32;
    let hi = base + to.chars_before as u32;
    stretch(text, from.rest, to.rest, lo, hi)
}
