//! Writes lines and `tags` files.
ghost use Rattle.std.specs.Prelude.{OnOk, map, string_bytes};
ghost use Rattle.std.specs.Io.KnownBytes.{Appends};
ghost use Rattle.outline.specs.Tags.{WritesTags, lines_text};

use std::io;
use std::io::Write;

/// Writes the lines, each with a line end.
pub fn print_all<W: Write>(lines: &[String], writer: &mut W) -> io::Result<()>
    ensures { OnOk result (Appends (W.contents writer.old) (W.contents writer.new)
        (lines_text (map string_bytes lines.now))) }
{
    for line in lines {
        writeln!(writer, "{line}")?;
    }
    Ok(())
}

/// Writes a `tags` file with these lines, sorted by their bytes.
pub fn print_tags<W: Write>(lines: &mut Vec<String>, writer: &mut W) -> io::Result<()>
    ensures { OnOk result (WritesTags (map string_bytes lines.old.items) (W.contents writer.old)
        (W.contents writer.new)) }
{
    lines.sort_unstable();
    writer.write_all(b"!_TAG_FILE_SORTED\t1\t//\n")?;
    print_all(lines.as_slice(), writer)
}
