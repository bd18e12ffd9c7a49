//! The program `tokens`, which reads source text from standard input. `tokens print` prints the tokens and a line feed
//! to standard output. `tokens spans` writes a line for each tree: the line and column where the tree begins and where
//! it ends, and its kind.
#![tactic(auto)]

mod arguments;
mod command;
mod engine;
mod errors;
#[cfg(test)]
mod failing;
mod messages;
mod mode;
mod output;
mod reading;
mod sinks;
mod sources;
mod spans;
mod writing;

use arguments::words;
use command::command;
use sinks::WriteSink;
use sources::ReadSource;
use std::env;
use std::process::ExitCode;

fn main(rt: HostRuntime) -> ExitCode {
    let mut reader = ReadSource::new(rt.stdin());
    let mut writer = WriteSink::new(rt.stdout());
    let mut errors = WriteSink::new(rt.stderr());
    let words = words(rt.alloc(), env::args(&rt));
    let status = command(rt.alloc(), words, &mut reader, &mut writer, &mut errors);
    ExitCode::from(status)
}
