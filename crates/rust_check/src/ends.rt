//! What is odd about the line ends of a text.
ghost use Rattle.std.specs.Prelude.{◌≡◌, OnOk};
ghost use Rattle.std.specs.Str.{chars};
ghost use Rattle.rust_check.specs.LineEnds.{begins_feed, ends_after, found_at_end, found_in_ends, is_other};
ghost use Rattle.rust_check.specs.LineEnds.{joint_style};
ghost use Rattle.rust_check.specs.LineEnds.{odd};
ghost use Rattle.rust_check.specs.Message.{finding_of};
ghost use Rattle.rust_check.specs.TextPosition.{front};
ghost use Rattle.rust_check.specs.Telling.{Tells};

use crate::finding::{Finding, TextPosition};
use crate::options::Form;
use crate::writing::write_line;
use std::alloc::Global;
use std::io;
use std::io::Write;

/// How the lines of a text end.
#[derive(Clone, Copy, Debug, PartialEq, Eq)]
pub enum Style {
    /// No line has ended.
    Unknown,
    /// Each line ends with LF alone.
    Feed,
    /// Each line ends with CR and LF.
    Return,
    /// Some lines end with LF alone, and others with CR and LF.
    Mixed,
}

/// What is known about the line ends before a character.
#[derive(Clone, Copy, Debug, PartialEq, Eq)]
pub struct LineEnds {
    /// How the lines end.
    pub style: Style,
    /// Whether the character follows a CR.
    pub after_return: bool,
}

/// Writes a line for each CR that no LF follows, and one for the first line end that differs from those before it.
pub fn tell_line_ends<W: Write>(
    alloc: Global,
    form: Form,
    path: &str,
    text: &str,
    found: &mut bool,
    writer: &mut W,
) -> io::Result<()>
    ensures { OnOk result (Tells form path.now (found_in_ends front (chars text.now)) (W.contents writer.old)
        (W.contents writer.new) found.old found.new) }
{
    let mut place = TextPosition::front();
    let mut ends = LineEnds {
        style: Style::Unknown,
        after_return: false,
    };
    let mut rest = text.chars();
    while let Some(c) = rest.next() {
        tell_end(
            alloc,
            form,
            path,
            ends,
            place,
            c,
            rest.as_str(),
            found,
            writer,
        )?;
        ends = ends.after(c);
        place = place.after(c);
    }
    Ok(())
}

/// Writes a line for the character `c` at `place`, if it is odd. `rest` follows the character.
fn tell_end<W: Write>(
    alloc: Global,
    form: Form,
    path: &str,
    ends: LineEnds,
    place: TextPosition,
    c: char,
    rest: &str,
    found: &mut bool,
    writer: &mut W,
) -> io::Result<()>
    ensures { OnOk result (Tells form path.now (found_at_end ends place c (chars rest.now)) (W.contents writer.old)
        (W.contents writer.new) found.old found.new) }
{
    let finding = match c {
        '\r' if !begins_feed(rest) => odd("bare-return", "CR that no LF follows", "\r", place),
        '\n' if ends.is_other() => odd(
            "mixed-line-ends",
            "a line that ends unlike those before it",
            "\n",
            place,
        ),
        _ => return Ok(()),
    };
    *found = true;
    write_line(alloc, form, path, &finding, writer)
}

/// Returns the finding for something odd at this place. It has no line of the source.
pub fn odd<'a>(
    name: &'static str,
    says: &'static str,
    here: &'a str,
    place: TextPosition,
) -> Finding<'a>
    ensures { finding_of result ≡ odd name.now says.now (chars here.now) place }
{
    Finding {
        name,
        says,
        place,
        front: "",
        here,
        rest: "",
    }
}

/// Whether the text begins with LF.
fn begins_feed(text: &str) -> bool
    ensures { result ≡ begins_feed (chars text.now) }
{
    match text.chars().next() {
        Some(c) => c == '\n',
        None => false,
    }
}

impl LineEnds {
    /// Returns what is known after the character.
    fn after(self, c: char) -> LineEnds
        ensures { result ≡ ends_after self c }
    {
        LineEnds {
            style: if c == '\n' {
                self.joint_style()
            } else {
                self.style
            },
            after_return: c == '\r',
        }
    }

    /// Returns how lines end once LF is read here.
    fn joint_style(self) -> Style
        ensures { result ≡ joint_style self }
    {
        match self.style {
            Style::Unknown if self.after_return => Style::Return,
            Style::Unknown => Style::Feed,
            style => if self.is_other() { Style::Mixed } else { style },
        }
    }

    /// Whether a line that ends with LF here ends differently from the lines before it. It is `false` if those already
    /// differ.
    fn is_other(self) -> bool
        ensures { result ≡ is_other self }
    {
        match self.style {
            Style::Feed => self.after_return,
            Style::Return => !self.after_return,
            _ => false,
        }
    }
}
