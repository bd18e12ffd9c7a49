//! Writes a finding.
ghost use Rattle.std.specs.Prelude.{OnOk};
ghost use Rattle.std.specs.Io.KnownBytes.{Appends};
ghost use Rattle.rust_check.specs.Colours.{codes_of};
ghost use Rattle.rust_check.specs.Message.{excerpt, headline, json, json_what, json_where, line_message, long, message};
ghost use Rattle.rust_check.specs.Message.{finding_of, short};

use crate::colours::Colours;
use crate::finding::{Finding, TextPosition};
use crate::options::Form;
use crate::shown::{shown_line, spaces, underline};
use crate::text_position::{byte_count, first_line};
use messages::json_escape;
use std::alloc::Global;
use std::io;
use std::io::Write;

/// Writes a finding in the file at this path, in the given form.
pub fn write_message<W: Write>(
    alloc: Global,
    form: Form,
    path: &str,
    finding: &Finding<'_>,
    writer: &mut W,
) -> io::Result<()>
    ensures { OnOk result (Appends (W.contents writer.old) (W.contents writer.new)
        (message form path.now (finding_of finding.now))) }
{
    match form {
        Form::Short => write_short(path, finding, writer),
        Form::Long => write_long(alloc, Colours::none(), path, finding, writer),
        Form::Coloured => write_long(alloc, Colours::terminal(), path, finding, writer),
        Form::Json => write_json(alloc, path, finding, writer),
    }
}

/// Writes a finding in the file at this path on one line: as JSON if that is the form, else in the short form.
pub fn write_line<W: Write>(
    alloc: Global,
    form: Form,
    path: &str,
    finding: &Finding<'_>,
    writer: &mut W,
) -> io::Result<()>
    ensures { OnOk result (Appends (W.contents writer.old) (W.contents writer.new)
        (line_message form path.now (finding_of finding.now))) }
{
    match form {
        Form::Json => write_json(alloc, path, finding, writer),
        _ => write_short(path, finding, writer),
    }
}

/// Writes a finding on one line, as `FILE:L:C: error: what`. Line and column count from 1, and columns are characters.
fn write_short<W: Write>(path: &str, finding: &Finding<'_>, writer: &mut W) -> io::Result<()>
    ensures { OnOk result (Appends (W.contents writer.old) (W.contents writer.new)
        (short path.now (finding_of finding.now))) }
{
    let line = finding.place.line;
    // The column may be the largest `usize`, so the sum needs more bits.
    let column = finding.place.column as u128 + 1;
    let says = finding.says;
    writeln!(writer, "{path}:{line}:{column}: error: {says}")
}

/// Writes a finding with its line of the source and carets below that.
fn write_long<W: Write>(
    alloc: Global,
    colours: Colours,
    path: &str,
    finding: &Finding<'_>,
    writer: &mut W,
) -> io::Result<()>
    ensures { OnOk result (Appends (W.contents writer.old) (W.contents writer.new)
        (long (codes_of colours) path.now (finding_of finding.now))) }
{
    write_headline(colours, finding, writer)?;
    write_excerpt(alloc, colours, path, finding, writer)
}

/// Writes the line that says what is wrong.
fn write_headline<W: Write>(
    colours: Colours,
    finding: &Finding<'_>,
    writer: &mut W,
) -> io::Result<()>
    ensures { OnOk result (Appends (W.contents writer.old) (W.contents writer.new)
        (headline (codes_of colours) (finding_of finding.now))) }
{
    let Colours {
        fault,
        strong,
        off,
        ..
    } = colours;
    let name = finding.name;
    let says = finding.says;
    writeln!(writer, "{fault}error[{name}]{off}{strong}: {says}{off}")
}

/// Writes where a finding is, its line of the source, and carets below that.
pub fn write_excerpt<W: Write>(
    alloc: Global,
    colours: Colours,
    path: &str,
    finding: &Finding<'_>,
    writer: &mut W,
) -> io::Result<()>
    ensures { OnOk result (Appends (W.contents writer.old) (W.contents writer.new)
        (excerpt (codes_of colours) path.now (finding_of finding.now))) }
{
    let Colours {
        fault,
        line,
        off,
        ..
    } = colours;
    let number = finding.place.line.to_string(alloc)?;
    // The column may be the largest `usize`, so the sum needs more bits.
    let column = finding.place.column as u128 + 1;
    let gutter = spaces(alloc, number.len())?;
    let source = shown_line(alloc, finding.front, first_line(finding.rest))?;
    let carets = underline(alloc, finding.front, first_line(finding.here))?;
    write!(
        writer,
        "{gutter}{line}-->{off} {path}:{number}:{column}\n{line}{gutter} |{off}\n\
         {line}{number} |{off} {source}\n{line}{gutter} |{off} {fault}{carets}{off}\n"
    )
}

/// Writes a finding as a JSON object on one line.
fn write_json<W: Write>(
    alloc: Global,
    path: &str,
    finding: &Finding<'_>,
    writer: &mut W,
) -> io::Result<()>
    ensures { OnOk result (Appends (W.contents writer.old) (W.contents writer.new)
        (json path.now (finding_of finding.now))) }
{
    write_json_what(alloc, path, finding, writer)?;
    write_json_where(finding, writer)
}

/// Writes the first part of the JSON object: the file and what is wrong.
fn write_json_what<W: Write>(
    alloc: Global,
    path: &str,
    finding: &Finding<'_>,
    writer: &mut W,
) -> io::Result<()>
    ensures { OnOk result (Appends (W.contents writer.old) (W.contents writer.new)
        (json_what path.now (finding_of finding.now))) }
{
    let file = json_escape(alloc, path)?;
    let name = finding.name;
    let says = json_escape(alloc, finding.says)?;
    write!(
        writer,
        "{{\"file\":\"{file}\",\"reason\":\"{name}\",\"message\":\"{says}\","
    )
}

/// Writes the second part of the JSON object: where the finding is.
fn write_json_where<W: Write>(finding: &Finding<'_>, writer: &mut W) -> io::Result<()>
    ensures { OnOk result (Appends (W.contents writer.old) (W.contents writer.new)
        (json_where (finding_of finding.now))) }
{
    let TextPosition {
        line,
        column,
        begin,
    } = finding.place;
    // The sums may exceed a `usize`.
    let column = column as u128 + 1;
    let end = begin as u128 + byte_count(finding.here) as u128;
    write!(
        writer,
        "\"line\":{line},\"column\":{column},\"begin\":{begin},\"end\":{end}}}\n"
    )
}
