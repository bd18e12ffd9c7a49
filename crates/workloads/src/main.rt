//! Does what users of the library wait for, on texts that it makes by a seed, and prints a digest of all answers.
//!
//! `workloads JOB SEED SIZE` reads the items of which it makes them from standard input, where a form feed stands
//! between two. `bench/run` times each job in two checkouts.
#![tactic(auto)]

mod awkward;
mod digest;
mod editing;
mod fails;
mod generating;
mod listing;
mod prettifying;
mod random;
mod reading;
mod texts;

use digest::Digest;
use fails::Fail;
use random::Random;
use std::alloc::{AllocError, Global};
use std::env;
use std::io::Read;

fn main(rt: HostRuntime) -> Result<(), Fail> {
    let alloc = rt.alloc();
    let words: Vec<String> = env::args(&rt)?.skip(1).collect(alloc)?;
    let text = input(&rt)?;
    let items: Vec<&str> = text.as_str().split('\u{c}').collect(alloc)?;
    if items.is_empty() {
        return Err(Fail::NoItems);
    }
    let [job, seed, size] = words.as_slice() else {
        return Err(Fail::Usage);
    };
    let seed = number(seed.as_str())?;
    let size = number(size.as_str())?;
    let mut digest = Digest::new();
    run(
        alloc,
        job.as_str(),
        seed,
        size,
        items.as_slice(),
        &mut digest,
    )?;
    let value = digest.value();
    println!(rt; "{job} {value:016x}")?;
    Ok(())
}

// The text of standard input.
fn input(rt: &HostRuntime) -> Result<String, Fail> {
    let mut bytes = Vec::new(rt.alloc());
    rt.stdin().read_to_end(&mut bytes)?;
    String::from_utf8(bytes).map_err(|_| Fail::NotUtf8)
}

// The number that a word is.
fn number(word: &str) -> Result<u64, Fail> {
    word.parse::<u64>().map_err(|_| Fail::Usage)
}

// Does a job, or each of them once.
fn run(
    alloc: Global,
    job: &str,
    seed: u64,
    size: u64,
    items: &[&str],
    digest: &mut Digest,
) -> Result<(), Fail> {
    let mut random = Random::new(seed);
    match job {
        "read" => reading::run(alloc, &mut random, size, items, digest),
        "generate" => generating::run(alloc, &mut random, size, items, digest),
        "prettify" => prettifying::run(alloc, &mut random, size, items, digest),
        "list" => listing::run(alloc, &mut random, size, items, digest),
        "edit" => editing::run(alloc, &mut random, size, items, digest),
        "awkward" => awkward::run(alloc, &mut random, size, items, digest),
        "all" => {
            reading::run(alloc, &mut random, size, items, digest)?;
            generating::run(alloc, &mut random, size, items, digest)?;
            prettifying::run(alloc, &mut random, size, items, digest)?;
            listing::run(alloc, &mut random, size, items, digest)?;
            editing::run(alloc, &mut random, size, items, digest)?;
            awkward::run(alloc, &mut random, size, items, digest)
        }
        _ => Err(Fail::Usage),
    }
}
