//! Whether the controls of direction on a line are balanced.
ghost use Rattle.std.specs.Prelude.{◌≡◌, ◌∷◌, IfOk, None, OnOk, Some, if◌then◌else◌, reverse};
ghost use Rattle.std.specs.Str.{chars};
ghost use Rattle.rust_check.specs.Turns.{is_balanced, is_same, open_after, turn_of};

use std::alloc::{AllocError, Global};

/// What a control does to the direction of the text.
#[derive(Clone, Copy, Debug, PartialEq, Eq)]
pub enum Turn {
    /// It opens and closes nothing.
    Stays,
    /// It opens a part with its own direction: an isolate (`true`), or an embedding or override (`false`).
    Opens(bool),
    /// It closes an isolate (`true`), or an embedding or override (`false`).
    Closes(bool),
}

/// Whether the controls of direction on the text's first line are balanced: each part that is opened there is closed
/// there, the innermost first, and nothing else is closed. Only LF ends the line.
pub fn is_balanced(alloc: Global, text: &str) -> Result<bool, AllocError>
    ensures { IfOk result (λ is. is ≡ is_balanced (chars text.now)) }
{
    let mut opened = Vec::new(alloc);
    let mut rest = text.chars();
    while let Some(c) = rest.next() {
        if c == '\n' {
            return Ok(opened.as_slice().is_empty());
        }
        if !take(&mut opened, c)? {
            return Ok(false);
        }
    }
    Ok(opened.as_slice().is_empty())
}

/// Applies the character to the parts that are open, and returns whether it is in balance. It is not if it closes
/// another part than the innermost.
fn take(opened: &mut Vec<bool>, c: char) -> Result<bool, AllocError>
    ensures { IfOk result (λ is. open_after (Some (reverse opened.old.items)) c
        ≡ (if is then Some (reverse opened.new.items) else None)) }
{
    match turn_of(c) {
        Turn::Stays => Ok(true),
        Turn::Opens(apart) => {
            opened.push(apart)?;
            Ok(true)
        }
        Turn::Closes(apart) => match opened.pop() {
            Some(innermost) => Ok(is_same(innermost, apart)),
            None => Ok(false),
        },
    }
}

/// Whether both are isolates, or neither is.
fn is_same(a: bool, b: bool) -> bool
    ensures { result ≡ is_same a b }
{
    if a { b } else { !b }
}

/// Returns what the character does to the direction of the text.
fn turn_of(c: char) -> Turn
    ensures { result ≡ turn_of c }
{
    match c {
        '\u{202A}' | '\u{202B}' | '\u{202D}' | '\u{202E}' => Turn::Opens(false),
        '\u{2066}'..='\u{2068}' => Turn::Opens(true),
        '\u{202C}' => Turn::Closes(false),
        '\u{2069}' => Turn::Closes(true),
        _ => Turn::Stays,
    }
}
