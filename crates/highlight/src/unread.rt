//! The text that follows the last piece, and what is wrong in it.
ghost use Rattle.std.specs.Prelude.{◌≡◌, ◌++◌, ◌-◌, OnOk, string_bytes};
ghost use Rattle.std.specs.Str.{chars};
ghost use Rattle.highlight.specs.Page.{marked_pieces};
ghost use Rattle.highlight.specs.Pieces.{faulty, fault_of, first_position, stuck, unread};

use crate::style::Style;
use crate::writing::Sheet;
use explain::{Explained, Reason, Stretch};
use messages::split_chars;
use pm_span::parts::bounds;
use std::alloc::{AllocError, Global};

/// Appends the rest of a text, at which no piece begins. The part that is wrong is marked with the reason why the rest
/// doesn't parse. If that reason is about something later, only the first character is marked, as for U+FEFF that comes
/// first.
pub fn push_unread(
    alloc: Global,
    sheet: &mut Sheet,
    answer: &Option<Explained>,
    rest: &str,
) -> Result<(), AllocError>
    ensures { OnOk result (string_bytes sheet.new.out ≡ string_bytes sheet.old.out
        ++ marked_pieces sheet.old.format sheet.old.line (unread answer.now (chars rest.now))) }
{
    match answer {
        Some(why) => {
            if why.before.start == 0 {
                let (lo, hi) = bounds(fault_of(why).span);
                push_faulty(
                    alloc,
                    sheet,
                    &why.reason,
                    lo.saturating_sub(FIRST),
                    hi - lo,
                    rest,
                )
            } else {
                push_stuck(sheet, rest)
            }
        }
        None => push_stuck(sheet, rest),
    }
}

/// The position of a text's first character.
const FIRST: u32 = 1;

/// Returns what is marked for an error: the part that is wrong or, if that is empty, as at the end of a text, the part
/// before it.
fn fault_of(why: &Explained) -> Stretch
    ensures { result ≡ fault_of why.now }
{
    if why.at.start == why.at.end {
        why.before
    } else {
        why.at
    }
}

/// Appends a text in which, for this reason, `size` characters are wrong after the first `before` ones.
fn push_faulty(
    alloc: Global,
    sheet: &mut Sheet,
    reason: &Reason,
    before: u32,
    size: u32,
    text: &str,
) -> Result<(), AllocError>
    ensures { OnOk result (string_bytes sheet.new.out ≡ string_bytes sheet.old.out
        ++ marked_pieces sheet.old.format sheet.old.line (faulty reason.now before size (chars text.now))) }
{
    let (front, rest) = split_chars(text, before);
    let (here, after) = split_chars(rest, size);
    sheet.push_piece(Style::Unread, front)?;
    sheet.push_faulty(alloc, reason, here)?;
    sheet.push_piece(Style::Unread, after)?;
    Ok(())
}

/// Appends a text of which only the first character is marked, without a reason.
fn push_stuck(sheet: &mut Sheet, text: &str) -> Result<(), AllocError>
    ensures { OnOk result (string_bytes sheet.new.out ≡ string_bytes sheet.old.out
        ++ marked_pieces sheet.old.format sheet.old.line (stuck (chars text.now))) }
{
    let mut after = text.chars();
    let Some(first) = after.next() else {
        return Ok(());
    };
    sheet.push_piece(Style::NoPiece, first.encode_utf8(&mut [0; 4]))?;
    sheet.push_piece(Style::Unread, after.as_str())?;
    Ok(())
}
