//! Finds the reason why no piece begins at a cursor.
#![tactic(auto, using(lexical::proofs::RuleSteps::steps))]

ghost use Rattle.std.specs.Prelude.{◌≡◌, ◌≢◌, [], MatchOption, None, false, true};
ghost use Rattle.std.specs.Str.{chars};
ghost use Rattle.lexical.specs.Comment as rule;
ghost use Rattle.lexical.specs.Comment.{has_bare_return};
ghost use Rattle.lexical.specs.Mark.{comment_fronts};
ghost use Rattle.lexical.specs.PieceFinder.{comment_found, find_piece};
ghost use Rattle.lexical.specs.Rule.{find};
ghost use Rattle.lexical.specs.Text.{begins_any};
ghost use Rattle.explain.specs.Trouble.{IsTrouble};
ghost use Rattle.explain.specs.Walk.{IsFirstBare};

use crate::letters::letter;
use crate::numbers::number;
use crate::quotes::quote;
use crate::reason::Reason;
use crate::strings::string;
use crate::trouble::Trouble;
use lexical::parts::{
    PieceStart, StringKind, TextCursor, begins, piece_start_of, skip_comment, skip_to,
};

/// Returns the cursors before and after the first CR, from `inside` on, that no LF follows.
fn bare_return(inside: TextCursor<'_>) -> Option<(TextCursor<'_>, TextCursor<'_>)>
    ensures { MatchOption result (has_bare_return (chars inside.entry.rest.now) ≡ false)
        (λ x. IsFirstBare inside.entry x.0 x.1) }
{
    let mut at = skip_to(inside, b'\r');
    while let Some((_, after)) = at.advance() {
        if !begins(after.rest, "\n") {
            return Some((at, after));
        }
        at = skip_to(after, b'\r');
    }
    None
}

/// The number of bytes that open a doc comment.
const DOC_FRONT: usize = 3;

/// Returns why no comment is at the cursor, which is before what begins a comment.
fn comment(at: TextCursor<'_>) -> Trouble<'_>
    requires begins { begins_any comment_fronts (chars at.rest.now) ≡ true }
    requires none { comment_found (find rule.comment (chars at.rest.now)) ≡ None }
    ensures { IsTrouble at.entry result }
{
    let Some(_) = skip_comment(at) else {
        let Some(after) = at.past("/*") else {
            unreachable!()
        };
        return Trouble {
            reason: Reason::UnclosedComment,
            at,
            after,
        };
    };
    let Some((at, after)) = bare_return(at.after_bytes(DOC_FRONT)) else {
        unreachable!()
    };
    Trouble {
        reason: Reason::BareReturnInDoc,
        at,
        after,
    }
}

/// Returns why no piece begins at the cursor, which isn't at the end of the text. `first` says whether the cursor is at
/// the start of a source.
pub fn reason_at(at: TextCursor<'_>, first: bool) -> Trouble<'_>
    requires some { chars at.rest.now ≢ [] }
    requires none { find_piece first (chars at.rest.now) ≡ None }
    ensures { IsTrouble at.entry result }
{
    let Some((c, after)) = at.advance() else {
        unreachable!()
    };
    match piece_start_of(c) {
        PieceStart::Digit => number(at),
        PieceStart::Slash => comment(at),
        PieceStart::Quote => quote(at, after),
        PieceStart::DoubleQuote => string(at, after, StringKind::Plain),
        PieceStart::Letter => letter(at),
        PieceStart::FrontMark => Trouble {
            reason: Reason::MisplacedMark,
            at,
            after,
        },
        PieceStart::Other => Trouble {
            reason: Reason::NoToken,
            at,
            after,
        },
        PieceStart::White => unreachable!(),
        PieceStart::Opener => unreachable!(),
        PieceStart::Closer => unreachable!(),
        PieceStart::Mark => unreachable!(),
    }
}
