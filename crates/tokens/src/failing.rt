//! Sources and sinks in memory for tests. They move a few bytes in each call, and fail at last.
ghost use Rattle.std.specs.Prelude.{◌<◌, None, Some, false};

use crate::sinks::{ByteSink, MemorySink, is_refusal};
use crate::sources::{ByteSource, MemorySource};
use std::alloc::Global;
use std::io;

/// Bytes in memory that come a few at a time, until a read fails.
#[derive(Drop)]
pub struct FailingSource<'a> {
    source: MemorySource<'a>,
    most: usize,
    reads: usize,
    failed: bool,
    ghost some: { 0 < most },
}

impl<'a> FailingSource<'a> {
    /// Returns a source of these bytes that gives at most `most` bytes in each read, and fails after `reads` reads.
    pub fn new(bytes: &'a [u8], most: usize, reads: usize) -> FailingSource<'a>
        requires { 0 < most }
    {
        FailingSource {
            source: MemorySource::new(bytes),
            most,
            reads,
            failed: false,
        }
    }
}

impl ByteSource for FailingSource<'_> {
    ghost left = { λ source. Some source.source.rest.now };

    ghost has_failed = { λ source. source.failed };

    fn read(&mut self, buffer: &mut [u8]) -> io::Result<usize> {
        let given = if self.reads == 0 {
            Err(io::Error::other("no more reads"))
        } else {
            self.reads -= 1;
            let most = self.most.min(buffer.len());
            self.source.read(&mut buffer[..most])
        };
        self.failed = self.failed || given.is_err();
        given
    }
}

/// Bytes that come whole in each of the first reads, and once more after the end, as a terminal may send them. The
/// source counts its reads.
#[derive(Drop)]
pub struct TerminalSource<'a> {
    bytes: &'a [u8],
    end: usize,
    reads: usize,
}

impl<'a> TerminalSource<'a> {
    /// Returns a source that gives these bytes in the first `times` reads, ends in the next read, and then gives them
    /// again.
    pub fn new(bytes: &'a [u8], times: usize) -> TerminalSource<'a> {
        TerminalSource {
            bytes,
            end: times.saturating_add(1),
            reads: 0,
        }
    }

    /// Returns how many reads there were.
    pub fn reads(&self) -> usize {
        self.reads
    }
}

impl ByteSource for TerminalSource<'_> {
    ghost left = { λ _. None };

    ghost has_failed = { λ _. false };

    fn read(&mut self, buffer: &mut [u8]) -> io::Result<usize> {
        self.reads = self.reads.saturating_add(1);
        if self.reads == self.end || self.reads > self.end.saturating_add(1) {
            return Ok(0);
        }
        let n = self.bytes.len().min(buffer.len());
        buffer[..n].copy_from_slice(&self.bytes[..n]);
        Ok(n)
    }
}

/// A sink in memory that takes a few bytes at a time, or none, until a write fails.
#[derive(Drop)]
pub struct FailingSink {
    sink: MemorySink,
    most: usize,
    writes: usize,
    failed: bool,
}

impl FailingSink {
    /// Returns a sink that takes at most `most` bytes in each write, and fails after `writes` writes.
    pub fn new(alloc: Global, most: usize, writes: usize) -> FailingSink {
        FailingSink {
            sink: MemorySink::new(alloc),
            most,
            writes,
            failed: false,
        }
    }

    /// Returns the bytes that the sink took.
    pub fn bytes(&self) -> &[u8] {
        self.sink.bytes()
    }
}

impl ByteSink for FailingSink {
    ghost held = { λ sink. Some sink.sink.bytes.items };

    ghost has_failed = { λ sink. sink.failed };

    fn write(&mut self, bytes: &[u8]) -> io::Result<usize> {
        let taken = if self.writes == 0 {
            Err(io::Error::other("no more writes"))
        } else {
            self.writes -= 1;
            self.sink.write(&bytes[..self.most.min(bytes.len())])
        };
        self.failed = self.failed || is_refusal(&taken, bytes);
        taken
    }
}
