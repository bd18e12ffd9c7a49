//! How a line is shown on a terminal, and how many columns it takes.
ghost use Rattle.std.specs.Prelude.{◌≡◌, ◌++◌, IfOk, OnOk, codes, string_bytes};
ghost use Rattle.std.specs.Str.{chars};
ghost use Rattle.messages.specs.Each.{each};
ghost use Rattle.rust_check.specs.Shown.{carets, columns, fill_columns, visible_char, times};

use crate::hidden::is_hidden;
use std::alloc::{AllocError, Global};
use unicode_width::UnicodeWidthChar;

/// Returns the two parts of a line as they are shown: a tab as four spaces, CR and hidden characters as U+FFFD.
pub fn shown_line(alloc: Global, front: &str, rest: &str) -> Result<String, AllocError>
    ensures { IfOk result (λ out. string_bytes out
        ≡ each visible_char (chars front.now) ++ each visible_char (chars rest.now)) }
{
    let mut out = String::new(alloc);
    push_shown(&mut out, front)?;
    push_shown(&mut out, rest)?;
    Ok(out)
}

/// Returns carets under the columns of `part`, but at least one, after spaces for the columns of `front`, which
/// precedes it.
pub fn underline(alloc: Global, front: &str, part: &str) -> Result<String, AllocError>
    ensures { IfOk result (λ out. string_bytes out
        ≡ fill_columns (codes " ") (chars front.now) ++ carets (chars part.now)) }
{
    let mut out = String::new(alloc);
    push_filled(&mut out, " ", front)?;
    let bare = out.len();
    push_filled(&mut out, "^", part)?;
    if out.len() == bare {
        out.push_str("^")?;
    }
    Ok(out)
}

/// Returns `count` spaces.
pub fn spaces(alloc: Global, count: usize) -> Result<String, AllocError>
    ensures { IfOk result (λ out. string_bytes out ≡ times count (codes " ")) }
{
    let mut out = String::new(alloc);
    push_times(&mut out, count, " ")?;
    Ok(out)
}

/// Appends a text as it is shown.
fn push_shown(out: &mut String, text: &str) -> Result<(), AllocError>
    ensures { OnOk result (string_bytes out.new ≡ string_bytes out.old ++ each visible_char (chars text.now)) }
{
    for c in text.chars() {
        push_character(out, c)?;
    }
    Ok(())
}

/// Appends a character as it is shown.
fn push_character(out: &mut String, c: char) -> Result<(), AllocError>
    ensures { OnOk result (string_bytes out.new ≡ string_bytes out.old ++ visible_char c) }
{
    match c {
        '\t' => out.push_str("    "),
        '\r' => out.push('\u{FFFD}'),
        _ if is_hidden(c) => out.push('\u{FFFD}'),
        _ => out.push(c),
    }
}

/// Appends `fill` once for each column of the text.
fn push_filled(out: &mut String, fill: &str, text: &str) -> Result<(), AllocError>
    ensures { OnOk result (string_bytes out.new ≡ string_bytes out.old ++ fill_columns fill.now (chars text.now)) }
{
    for c in text.chars() {
        push_times(out, columns(c), fill)?;
    }
    Ok(())
}

/// Appends the text `count` times.
fn push_times(out: &mut String, count: usize, text: &str) -> Result<(), AllocError>
    ensures { OnOk result (string_bytes out.new ≡ string_bytes out.old ++ times count text.now) }
{
    for _ in 0..count {
        out.push_str(text)?;
    }
    Ok(())
}

/// Returns how many columns the character takes as it is shown.
fn columns(c: char) -> usize
    ensures { result ≡ columns c }
{
    match c {
        '\t' => 4,
        '\r' => 1,
        _ if is_hidden(c) => 1,
        _ => c.width().unwrap_or(0),
    }
}
