//! Finds the block comments that are open at the end of a text.

ghost use Rattle.std.specs.Prelude.{◌≡◌, ◌++◌, List, [], ℕ, IfOk, MatchOption, codes};
ghost use Rattle.std.specs.Str.{chars};
ghost use Rattle.lexical.specs.Comment.{BlockComment};
ghost use Rattle.lexical.specs.Form.{HasNone};
ghost use Rattle.explain.specs.HintWalk.{IsSign, LeftComments};

use lexical::parts::TextCursor;
use std::alloc::{AllocError, Global};

/// What is at a cursor in a block comment.
#[derive(Clone, Copy)]
pub enum Sign {
    /// `/*`, which begins a comment.
    Opens,
    /// `*/`, which ends a comment.
    Closes,
    /// A character at which neither begins.
    Other,
}

/// Returns what is at the cursor, and the cursor after it. Returns `None` at the end of the text.
#[tactic(auto, using(lexical::proofs::RuleSteps::past_text))]
fn sign_at(at: TextCursor<'_>) -> Option<(Sign, TextCursor<'_>)>
    ensures { MatchOption result (chars at.entry.rest.now ≡ []) (λ x. IsSign x.0 at.entry x.1) }
{
    let (_, after) = at.advance()?;
    if let Some(inside) = at.past("/*") {
        return Some((Sign::Opens, inside));
    }
    if let Some(after_sign) = at.past("*/") {
        return Some((Sign::Closes, after_sign));
    }
    Some((Sign::Other, after))
}

/// Returns how many block comments are open at the end of the text, including the one at `start`, and the cursors
/// before and after the comment that ended last.
pub fn open_comments<'a>(
    alloc: Global,
    start: TextCursor<'a>,
) -> Result<(usize, Option<(TextCursor<'a>, TextCursor<'a>)>), AllocError>
    requires opens { (more : List ℕ) × (chars start.rest.now ≡ codes "/*" ++ more) }
    requires none { HasNone BlockComment (chars start.rest.now) }
    ensures { IfOk result (λ x. LeftComments start.entry x.0 x.1) }
{
    let mut opened = Vec::new(alloc);
    let mut closed = None;
    let mut at = start;
    while let Some((sign, after)) = sign_at(at) {
        match sign {
            Sign::Opens => opened.push(at)?,
            Sign::Closes => {
                let Some(from) = opened.pop() else {
                    unreachable!()
                };
                closed = Some((from, after));
            }
            Sign::Other => {}
        }
        at = after;
    }
    Ok((opened.len(), closed))
}
