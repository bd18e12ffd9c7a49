//! Makes one call of the library twice, and writes what each call returned and what it left.
//!
//! It is for `dev/checks/out_of_memory`, which runs each case once for each allocation of the first call, and makes
//! that allocation fail. The three arguments name the group of cases, the call, and the input of the call.
#![tactic(auto)]

mod building;
mod copies;
mod fails;
mod headers;
mod literals;
mod lookups;
mod names;
mod parsing;
mod quotes;
mod reading;
mod relaying;
mod shown;
mod unfailing;
mod watched;

use fails::Fail;
use std::alloc::Global;
use std::env;
use std::io::Write;

fn main(rt: HostRuntime) -> Result<(), Fail> {
    let alloc = rt.alloc();
    let words: Vec<String> = env::args(&rt)?.skip(1).collect(alloc)?;
    match words.as_slice() {
        [subject, call, input] => run(
            alloc,
            &mut rt.stdout(),
            subject.as_str(),
            call.as_str(),
            input.as_str(),
        ),
        _ => Err(Fail::NoCase),
    }
}

/// Runs the case.
fn run<W: Write>(
    alloc: Global,
    out: &mut W,
    subject: &str,
    call: &str,
    input: &str,
) -> Result<(), Fail> {
    match subject {
        "parse" => parsing::run(alloc, out, call, input),
        "look" => lookups::run(alloc, out, call, input),
        "name" => names::run(alloc, out, call, input),
        "literal" => literals::run(alloc, out, call, input),
        "value" => literals::run_value(alloc, out, call, input),
        "make" => building::run_new(alloc, out, call),
        "extend" => building::run_extend(alloc, out, call, input),
        "read" => reading::run(alloc, out, call, input),
        "copy" => copies::run(alloc, out, call, input),
        "relay" => relaying::run(alloc, out, call, input),
        "header" => headers::run(alloc, out, call, input),
        "quote" => quotes::run(alloc, out, call, input),
        "unfailing" => unfailing::run(alloc, out, call, input),
        _ => Err(Fail::NoCase),
    }
}
