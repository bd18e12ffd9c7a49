//! Counts the files with an error and the files that were not read, for the exit status.
ghost use Rattle.std.specs.Prelude.{◌≡◌, ◌+◌, ◌<◌, ◌^◌, OnOk};
ghost use Rattle.std.specs.Io.KnownBytes.{Appends};
ghost use Rattle.rust_check.specs.Files.{count_outcome, nothing, status_of, summary};

use messages::Failure;
use std::io;
use std::io::Write;

/// How many of the files so far have an error, or were not read.
#[derive(Clone, Copy, Debug, PartialEq, Eq)]
pub struct Tally {
    /// The number of files whose text has an error.
    pub faulty: usize,
    /// The number of files that were not read.
    pub unread: usize,
}

impl Tally {
    /// Returns the counts before any file.
    pub fn new() -> Tally
        ensures { result ≡ nothing }
    {
        Tally {
            faulty: 0,
            unread: 0,
        }
    }

    /// Returns the counts with the outcome of one more file: whether its text has an error, or why it was not read.
    pub fn with(self, outcome: &Result<bool, Failure>) -> Tally
        requires faulty { self.faulty + 1 < 2 ^ 64 }
        requires unread { self.unread + 1 < 2 ^ 64 }
        ensures { result ≡ count_outcome self outcome.now }
    {
        match outcome {
            Ok(true) => Tally {
                faulty: self.faulty + 1,
                unread: self.unread,
            },
            Ok(false) => self,
            Err(_) => Tally {
                faulty: self.faulty,
                unread: self.unread + 1,
            },
        }
    }

    /// Returns the exit status: 2 if a file was not read, else 1 if a text has an error, else 0.
    pub fn status(self) -> u8
        ensures { result ≡ status_of self }
    {
        if self.unread > 0 {
            2
        } else if self.faulty > 0 {
            1
        } else {
            0
        }
    }

    /// Writes how many of the `files` files have an error and how many were not read.
    pub fn write_summary<W: Write>(self, files: usize, writer: &mut W) -> io::Result<()>
        ensures { OnOk result (Appends (W.contents writer.old) (W.contents writer.new) (summary files self)) }
    {
        let Tally { faulty, unread } = self;
        writeln!(
            writer,
            "{files} files, {faulty} with a fault, {unread} not read"
        )
    }
}
