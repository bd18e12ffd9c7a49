//! Why no piece begins at a letter.
#![tactic(auto, using(lexical::proofs::RuleSteps::steps))]

ghost use Rattle.std.specs.Prelude.{◌≡◌, None, codes, true};
ghost use Rattle.std.specs.Str.{chars};
ghost use Rattle.lexical.specs.Class.{is_ident_start};
ghost use Rattle.lexical.specs.Identifier.{name};
ghost use Rattle.lexical.specs.Literal.{quoted_literal};
ghost use Rattle.lexical.specs.Rule.{Exactly, find};
ghost use Rattle.lexical.specs.PieceFinder.{found_identifier};
ghost use Rattle.lexical.specs.RuleMatch.{Passes};
ghost use Rattle.lexical.specs.Text.{first_passes};
ghost use Rattle.explain.specs.Trouble.{IsTrouble};

use crate::quotes::{SingleKind, single};
use crate::reason::Reason;
use crate::strings::{raw_string, string};
use crate::trouble::Trouble;
use lexical::parts::{StringKind, TextCursor, name};

/// Returns why no piece begins at the cursor, which is before `r#`. `inner` is after the `r#`.
fn raw_name<'a>(at: TextCursor<'a>, inner: TextCursor<'a>) -> Trouble<'a>
    requires front { Passes (Exactly (codes "r#")) at inner }
    requires identifier { found_identifier (chars at.rest.now) ≡ None }
    requires literal { find quoted_literal (chars at.rest.now) ≡ None }
    ensures { IsTrouble at.entry result }
{
    if let Some(end) = name(inner) {
        return Trouble {
            reason: Reason::ReservedRawName,
            at,
            after: end,
        };
    }
    let Some(inside) = at.past("r") else {
        unreachable!()
    };
    raw_string(at, inside, StringKind::Plain)
}

/// Returns why no piece begins at the cursor, which is before a letter.
pub fn letter(at: TextCursor<'_>) -> Trouble<'_>
    requires letter { first_passes is_ident_start (chars at.rest.now) ≡ true }
    requires identifier { found_identifier (chars at.rest.now) ≡ None }
    requires literal { find quoted_literal (chars at.rest.now) ≡ None }
    ensures { IsTrouble at.entry result }
{
    if let Some(inside) = at.past("b\"") {
        return string(at, inside, StringKind::Byte);
    }
    if let Some(inside) = at.past("c\"") {
        return string(at, inside, StringKind::C);
    }
    if let Some(inside) = at.past("b'") {
        return single(at, inside, SingleKind::Byte);
    }
    if let Some(inner) = at.past("r#") {
        return raw_name(at, inner);
    }
    if let Some(inside) = at.past("r") {
        return raw_string(at, inside, StringKind::Plain);
    }
    if let Some(inside) = at.past("br") {
        return raw_string(at, inside, StringKind::Byte);
    }
    let Some(inside) = at.past("cr") else {
        unreachable!()
    };
    raw_string(at, inside, StringKind::C)
}
