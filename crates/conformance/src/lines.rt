//! Compares the library with recorded answers, line by line.
ghost use Rattle.std.specs.Prelude.{ℕ, List, Option, IfOk, IfSome, string_bytes};
ghost use Rattle.std.specs.Io.KnownBytes.{IsAtEnd};
ghost use Rattle.conformance.specs.Comparison.{IsComparison, IsReport};

use crate::answer::answer_to;
use crate::columns::read_line;
use proc_macro2::ParseError;
use std::alloc::{AllocError, Global};
use std::io;
use std::io::{BufRead, Write};

/// How many answers were compared, and how many of them differ.
#[derive(Clone, Copy, Debug, PartialEq, Eq)]
pub struct Tally {
    /// The number of lines that were read.
    pub answers: u64,
    /// The number of lines that have another answer than the library, or that are no recorded answer.
    pub differences: u64,
}

/// Compares the library's answers with those on the reader's lines, and writes what differs.
///
/// Both numbers count lines, up to `u64::MAX`. Fails if reading fails, also at a line that is not UTF-8, if writing
/// fails, or if memory runs out. The beginning of what differs is written then.
///
/// For the one line `fault`, a tab, `(]`, a tab and `1:1` it returns one answer and no difference, and writes nothing.
/// For a line that names a difference from the Rust crate, the answer that is right here is compared.
pub fn compare_lines<R: BufRead + Drop, W: Write>(
    alloc: Global,
    reader: R,
    writer: &mut W,
) -> io::Result<Tally>
    ensures { IfOk result (λ tally. (left : Option (List ℕ)) × IsAtEnd left
        × IsComparison (R.remaining reader) left tally
        (W.contents writer.old) (W.contents writer.new)) }
{
    let mut tally = Tally {
        answers: 0,
        differences: 0,
    };
    for line in reader.lines(alloc) {
        let line = line?;
        tally.answers = tally.answers.saturating_add(1);
        if let Some(report) = difference(alloc, line.as_str())? {
            tally.differences = tally.differences.saturating_add(1);
            writer.write_all(report.as_bytes())?;
        }
    }
    Ok(tally)
}

/// Returns the report on a line that has another answer than the library, or that is no recorded answer. Returns `None`
/// if the two answers are the same.
fn difference(alloc: Global, line: &str) -> Result<Option<String>, AllocError>
    ensures { IfOk result (λ reported. IfSome reported (λ report.
        IsReport line.now (string_bytes report))) }
{
    let Some(recorded) = read_line(alloc, line)? else {
        return Ok(Some(format!(in alloc; "no recorded answer: {line}\n")?));
    };
    let here = match answer_to(alloc, recorded.asked, recorded.text.as_str()) {
        Ok(Some(found)) if found.kind == recorded.kind && found.answer_text == recorded.answer => {
            return Ok(None);
        }
        Ok(Some(found)) => format!(in alloc; "{} {:?}", found.kind, found.answer_text)?,
        Ok(None) => return Ok(Some(format!(in alloc; "no recorded answer: {line}\n")?)),
        Err(ParseError::Memory(error)) => return Err(error),
        Err(error) => format!(in alloc; "{error}")?,
    };
    Ok(Some(format!(in alloc; "differs: {line}\nhere: {here}\n")?))
}
