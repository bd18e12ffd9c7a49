//! Compares the lexer with a plain one, `slow`, on the texts of standard input.
//!
//! Each line has a text, written as the content of a string literal. The program writes the lines on which the two
//! lexers differ, and then the numbers of texts, of comparisons and of those that differ. The exit status is 0 exactly
//! if none differs. A line that is no such content counts as one that differs.
#![tactic(auto)]

ghost use Rattle.std.specs.Prelude.{IfOk};
ghost use Rattle.std.specs.Process.{exit_status};
ghost use Rattle.lexical_tests.specs.Run.{IsRun};

mod compare;
mod slow;
mod tally;

use compare::compare;
use literal_escaper::unescape_str;
use std::alloc::{AllocError, Global};
use std::io;
use std::io::{BufWriter, Write};
use std::process::ExitCode;
use tally::Tally;

fn main(rt: HostRuntime) -> io::Result<ExitCode> {
    let lines = io::read_to_string(rt.alloc(), rt.stdin())?;
    let mut writer = BufWriter::new(rt.alloc(), rt.stdout())?;
    run(rt.alloc(), lines.as_str(), &mut writer)
}

/// Compares both lexers on the text of each line, and writes the lines on which they differ, and then the numbers.
fn run<W: Write>(alloc: Global, lines: &str, writer: &mut W) -> io::Result<ExitCode>
    ensures { IfOk result (λ code. IsRun (exit_status code) (W.contents writer.new)) }
{
    let tally = compare_lines(alloc, lines, writer)?;
    writeln!(
        writer,
        "{} texts, {} comparisons: {} differ",
        tally.texts, tally.comparisons, tally.differ
    )?;
    writer.flush()?;
    Ok(if tally.differ == 0 {
        ExitCode::SUCCESS
    } else {
        ExitCode::FAILURE
    })
}

/// Compares both lexers on the text of each line, and writes the lines on which they differ.
fn compare_lines<W: Write>(alloc: Global, lines: &str, writer: &mut W) -> io::Result<Tally> {
    let mut tally = Tally {
        texts: 0,
        comparisons: 0,
        differ: 0,
    };
    for line in lines.lines() {
        let before = tally.differ;
        tally.texts = tally.texts.saturating_add(1);
        match text_of(alloc, line)? {
            Some(text) => compare(text.as_str(), &mut tally),
            None => tally.count(false),
        }
        if tally.differ != before {
            writeln!(writer, "differs: {line}")?;
        }
    }
    Ok(tally)
}

/// Returns the value of a string literal with this content, or `None` if the content is wrong.
fn text_of(alloc: Global, content: &str) -> Result<Option<String>, AllocError> {
    let mut text = String::new(alloc);
    for (_, unit) in unescape_str(content) {
        match unit {
            Ok(character) => text.push(character)?,
            Err(_) => return Ok(None),
        }
    }
    Ok(Some(text))
}
