//! Steps over comments.
#![tactic(auto, using(crate::proofs::BlockSteps::block_steps))]

ghost use Rattle.std.specs.Prelude.{◌≡◌, ◌<◌, ◌≤◌, [], IfSome, MatchOption, length};
ghost use Rattle.std.specs.Str.{chars};
ghost use Rattle.lexical.specs.Comment as rule;
ghost use Rattle.lexical.specs.PieceFinder.{comment_found};
ghost use Rattle.lexical.specs.PieceStep.{Answers};
ghost use Rattle.lexical.specs.Rule.{Ends, find};
ghost use Rattle.lexical.specs.RuleMatch.{Leads, Reads};

use crate::cursor::TextCursor;
use crate::docs::comment_kind;
use crate::piece::PieceKind;
use crate::search::{skip_to, skip_to_either};
use crate::text::before;

/// Returns the cursor after the line comment at the cursor, by the rule `line-comment`.
fn skip_line(at: TextCursor<'_>) -> Option<TextCursor<'_>>
    ensures { Reads rule.line_comment at.entry result }
{
    let after = at.past("//")?;
    Some(skip_to(after, b'\n'))
}

/// Moves past one `/*`, one `*/` or one other character. Returns the cursor there and how many block comments are open
/// there, where `depth` are open at `at`.
fn step(at: TextCursor<'_>, depth: usize) -> Option<(TextCursor<'_>, usize)>
    requires inside { 0 < depth }
    requires fits { depth ≤ at.chars_before }
    ensures leads { MatchOption result (chars at.entry.rest.now ≡ [])
        (λ x. Leads (Ends depth) at.entry (Ends x.1) x.0) }
    ensures shorter { IfSome result (λ x. length (chars x.0.rest.now) < length (chars at.entry.rest.now)) }
    ensures fits { IfSome result (λ x. x.1 ≤ x.0.chars_before) }
{
    let (_, after) = at.advance()?;
    if let Some(closed) = at.past("*/") {
        return Some((closed, depth - 1));
    }
    if let Some(opened) = at.past("/*") {
        return Some((opened, depth + 1));
    }
    Some((after, depth))
}

/// Returns the cursor after the block comment at the cursor, by the rule `block-comment`.
fn skip_block(at: TextCursor<'_>) -> Option<TextCursor<'_>>
    ensures { Reads rule.block_comment at.entry result }
{
    let mut end = at.past("/*")?;
    let mut depth = 1;
    while depth > 0 {
        let sign = skip_to_either(end, b'*', b'/');
        let (after, inside) = step(sign, depth)?;
        end = after;
        depth = inside;
    }
    Some(end)
}

/// Returns the cursor after the comment at the cursor, or `None` if no comment begins there.
pub fn skip_comment(at: TextCursor<'_>) -> Option<TextCursor<'_>>
    ensures { Reads rule.comment at.entry result }
{
    match skip_line(at) {
        Some(end) => Some(end),
        None => skip_block(at),
    }
}

/// Returns the kind of the comment at the cursor, a gap or a doc comment, and the cursor after it. A doc comment is
/// rejected if its text has a CR with no LF after it.
#[inline(never)]
pub fn comment(at: TextCursor<'_>) -> Option<(PieceKind<'_>, TextCursor<'_>)>
    ensures { Answers (comment_found (find rule.comment (chars at.entry.rest.now))) at.entry result }
{
    let end = skip_comment(at)?;
    let kind = comment_kind(before(at.rest, end.rest), end.rest)?;
    Some((kind, end))
}
