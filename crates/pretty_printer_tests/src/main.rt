//! Writes the pretty texts of the streams on standard input, for comparison with recorded ones.
//!
//! No contract says where lines break. So `stdout` beside `stdin` records the texts of 1,038 streams. The first 100 are
//! in full, then 900 are digests. The last 38 are in full again: their layouts were wrong once, or did not end.
//! `bench/pretty_record/remake.py` makes the record again. The status is 0 exactly if every line of the input is a row.
#![tactic(auto)]

mod rows;

use rows::write_rows;
use std::io;
use std::io::{BufWriter, Write};
use std::process::ExitCode;

fn main(rt: HostRuntime) -> io::Result<ExitCode> {
    let lines = io::read_to_string(rt.alloc(), rt.stdin())?;
    let mut writer = BufWriter::new(rt.alloc(), rt.stdout())?;
    let wrong = write_rows(rt.alloc(), lines.as_str(), false, &mut writer)?;
    writer.flush()?;
    Ok(if wrong == 0 {
        ExitCode::SUCCESS
    } else {
        ExitCode::FAILURE
    })
}
