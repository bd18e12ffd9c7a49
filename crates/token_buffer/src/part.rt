//! The content of an entry, without its position.
ghost use Rattle.std.specs.Prelude.{◌≡◌};
ghost use Rattle.token_buffer.specs.Entries.{event_of, IsWithin};
ghost use Rattle.token_buffer.specs.Parts.{part_event, at_zero};

use crate::cursor::{LiteralText, Name};
use crate::entry::Entry;
use pm_token::Delimiter;

/// The content of an entry: a token, or the start or the end of a group.
#[derive(Clone, Copy)]
pub enum Part<'a> {
    /// An identifier.
    Ident(Name<'a>),
    /// A mark, and whether it is `Joint`.
    Punct(char, bool),
    /// A literal.
    Literal(LiteralText<'a>),
    /// The start of a group.
    Open(Delimiter),
    /// The end of a group.
    Close(Delimiter),
}

/// Returns the content of an entry.
#[inline(always)]
pub fn part_of(text: &str, entry: Entry) -> Part<'_>
    requires { IsWithin text.now entry }
    ensures { part_event result ≡ at_zero (event_of text.now entry) }
{
    match entry {
        Entry::Name { raw, lo, hi, at } => {
            let _ = at;
            Part::Ident(Name {
                raw,
                text: &text[lo as usize..hi as usize],
            })
        }
        Entry::Mark {
            joint,
            mark,
            at,
            end,
        } => {
            let _ = at;
            let _ = end;
            Part::Punct(mark, joint)
        }
        Entry::Literal { lo, hi, at } => {
            let _ = at;
            Part::Literal(LiteralText::Source(&text[lo as usize..hi as usize]))
        }
        Entry::Open {
            delimiter,
            at,
            count,
        } => {
            let _ = at;
            let _ = count;
            Part::Open(delimiter)
        }
        Entry::Close { delimiter, end } => {
            let _ = end;
            Part::Close(delimiter)
        }
        Entry::DocName { at, end } => {
            let _ = at;
            let _ = end;
            Part::Ident(Name {
                raw: false,
                text: "doc",
            })
        }
        Entry::DocText {
            closing,
            lo,
            hi,
            at,
        } => {
            let _ = closing;
            let _ = at;
            Part::Literal(LiteralText::Doc(&text[lo as usize..hi as usize]))
        }
    }
}
