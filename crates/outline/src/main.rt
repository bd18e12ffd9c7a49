//! Lists what Rust files declare: modules, types, functions and other items, in reading order.
//!
//! `outline FILE..` writes a line `FILE:L:C: fn name` for each declaration. The position is where the declaration
//! begins after its attributes. The items of a module, a trait, an `impl` or an `extern` block are listed under it,
//! indented by two spaces a level, for at most 32 levels. An `impl` or an `extern` block is listed by its header as it
//! is written, with one space for each run of white space. Imports and macro calls are not listed, except
//! `macro_rules!`. The bodies of functions are not read.
//!
//! `--json` writes one JSON object a line for each declaration, with the fields `file`, `line`, `column`, `kind`,
//! `name` and `depth`. `--ctags` writes a `tags` file for editors, with the declarations that have names. The file `-`
//! is standard input, which is also read if no file is named. Lines and columns count from 1. Columns are characters.
//!
//! The status is 0 if all texts are listed, and 1 if a text does not parse or has something that is no item. It is 2 if
//! the arguments are wrong, a read or a write failed, a text is not UTF-8 or is too long, or memory ran out. A line on
//! standard error gives the reason. Nothing of such a file is listed. The other files are listed, unless a write
//! failed.
#![tactic(auto)]

mod answer;
mod entries;
mod files;
mod level;
mod levels;
mod lines;
mod names;
mod options;
mod tags;

use files::list_files;
use messages::{Failure, exit_code, words};
use options::{USAGE, options_of};
use std::env;
use std::io::{BufWriter, Write};
use std::process::ExitCode;

fn main(rt: HostRuntime) -> ExitCode {
    exit_code(rt.alloc(), run(&rt), &mut rt.stderr())
}

/// Does what the program's arguments say, and returns the exit status.
fn run(rt: &HostRuntime) -> Result<u8, Failure> {
    let words = words(rt.alloc(), env::args(rt), USAGE)?;
    let options = options_of(rt.alloc(), words.as_slice())?;
    let mut writer = BufWriter::new(rt.alloc(), rt.stdout())?;
    let status = list_files(rt, &options, &mut writer, &mut rt.stderr())?;
    writer.flush()?;
    Ok(status)
}
