//! Lists several files, one after the other.
ghost use Rattle.std.specs.Prelude.{◌≡◌, ℕ, IfOk, List, map, string_bytes};
ghost use Rattle.std.specs.Io.KnownBytes.{Appends};
ghost use Rattle.outline.specs.Answer.{Lists};
ghost use Rattle.outline.specs.Files.{AreOf, IsOf, Outcome, Writes, all_lines, outcome_of, worst};
ghost use Rattle.outline.specs.Tags.{WritesTags, lines_text};

use crate::answer::{Unlisted, lines_of};
use crate::options::{Form, Options};
use crate::tags::{print_all, print_tags};
use messages::{Failure, read_text, say, say_at, status};
use std::io::Write;

/// What the program found out about a file: its lines and its status. A file has lines only if its status is 0.
#[derive(Drop)]
pub struct Listed {
    /// The lines of the file's declarations.
    pub lines: Vec<String>,
    /// 0 if the file is listed, 1 if its text has an error, and 2 if it could not be read.
    pub status: u8,
}

/// Lists the files that the options name, and returns the greatest status of a file.
///
/// If a file cannot be listed, the reason is written to `errors`, and the other files are still listed. Fails if a
/// write to `writer` fails or, for a `tags` file, if memory runs out.
pub fn list_files<W: Write, E: Write>(
    rt: &HostRuntime,
    options: &Options,
    writer: &mut W,
    errors: &mut E,
) -> Result<u8, Failure>
    ensures { IfOk result (λ status. (outcomes : List Outcome)
        × AreOf options.now.form (map string_bytes options.now.paths.items) outcomes
        × Writes options.now.form (all_lines outcomes) (W.contents writer.old) (W.contents writer.new)
        × (status ≡ worst outcomes)) }
{
    let paths = options.paths.as_slice();
    match options.form {
        Form::Ctags => list_tags(rt, paths, writer, errors),
        form => list_each(rt, form, paths, writer, errors),
    }
}

/// Writes the lines of each file.
fn list_each<W: Write, E: Write>(
    rt: &HostRuntime,
    form: Form,
    paths: &[String],
    writer: &mut W,
    errors: &mut E,
) -> Result<u8, Failure>
    ensures { IfOk result (λ status. (outcomes : List Outcome)
        × AreOf form (map string_bytes paths.now) outcomes
        × Appends (W.contents writer.old) (W.contents writer.new) (lines_text (all_lines outcomes))
        × (status ≡ worst outcomes)) }
{
    let mut worst = 0;
    for path in paths {
        let listed = list_file(rt, form, path.as_str(), errors);
        print_all(listed.lines.as_slice(), writer)?;
        worst = worst.max(listed.status);
    }
    Ok(worst)
}

/// Writes a `tags` file with the lines of all files.
fn list_tags<W: Write, E: Write>(
    rt: &HostRuntime,
    paths: &[String],
    writer: &mut W,
    errors: &mut E,
) -> Result<u8, Failure>
    ensures { IfOk result (λ status. (outcomes : List Outcome)
        × AreOf Form.Ctags (map string_bytes paths.now) outcomes
        × WritesTags (all_lines outcomes) (W.contents writer.old) (W.contents writer.new)
        × (status ≡ worst outcomes)) }
{
    let mut tags = Vec::new(rt.alloc());
    let mut worst = 0;
    for path in paths {
        let mut listed = list_file(rt, Form::Ctags, path.as_str(), errors);
        tags.append(&mut listed.lines)?;
        worst = worst.max(listed.status);
    }
    print_tags(&mut tags, writer)?;
    Ok(worst)
}

/// Lists the file at this path. If it cannot be listed, it has no lines, and the reason is written to `errors`. A
/// failure of that write is ignored.
fn list_file<E: Write>(rt: &HostRuntime, form: Form, path: &str, errors: &mut E) -> Listed
    ensures { IsOf form path.now (outcome_of result) }
{
    match file_lines(rt, form, path) {
        Ok(Ok(lines)) => Listed { lines, status: 0 },
        Ok(Err(unlisted)) => {
            let _ = say_at(path, unlisted.start, unlisted.fault, errors);
            Listed {
                lines: Vec::new(rt.alloc()),
                status: 1,
            }
        }
        Err(failure) => {
            let _ = say(rt.alloc(), path, &failure, errors);
            Listed {
                lines: Vec::new(rt.alloc()),
                status: status(&Err(failure)),
            }
        }
    }
}

/// The lines of the declarations in the file at this path.
fn file_lines(
    rt: &HostRuntime,
    form: Form,
    path: &str,
) -> Result<Result<Vec<String>, Unlisted>, Failure>
    ensures { IfOk result (λ found. IfOk found (λ lines. (text : List ℕ)
        × Lists form path.now text (map string_bytes lines.items))) }
{
    let text = read_text(rt, path)?;
    lines_of(rt.alloc(), form, path, text.as_str())
}
