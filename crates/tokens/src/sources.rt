//! Sources, from which the input of a run comes.
ghost use Rattle.std.specs.Prelude.{◌≡◌, ◌≤◌, ◌<◌, ◌||◌, ℕ, Bool, Option, Some, List, length, take, is_err, IfOk};
ghost use Rattle.std.specs.Prelude.{OnErr, false};
ghost use Rattle.std.specs.Io.KnownBytes.{Consumes, IsAtEnd, Keeps};

use std::io;
use std::io::Read;

/// Something from which bytes can be read.
///
/// Proofs may know which bytes a source has left, as they do for one in memory. For a file they don't.
pub trait ByteSource {
    // the bytes that later reads will give, if proofs may know them
    ghost left: { Self → Option (List ℕ) };

    // whether a call has failed so far
    ghost has_failed: { Self → Bool };

    /// Reads bytes into the start of `buffer`, and returns how many bytes it read.
    ///
    /// If it returns 0 for a buffer that isn't empty, the input has ended. It reads nothing if it returns an error.
    fn read(&mut self, buffer: &mut [u8]) -> io::Result<usize>
        ensures within { IfOk result (λ n. n ≤ length buffer.new) }
        ensures bytes { IfOk result (λ n.
            Consumes (left self.old) (left self.new) (take n buffer.new)) }
        ensures end { IfOk result (λ n.
            n ≡ 0 → 0 < length buffer.new → IsAtEnd (left self.new)) }
        ensures flag { has_failed self.new ≡ (has_failed self.old || is_err result) }
        ensures kept { OnErr result (Keeps (left self.old) (left self.new)) };
}

/// Bytes in memory. No read of them fails.
#[derive(Drop)]
pub struct MemorySource<'a> {
    rest: &'a [u8],
    failed: bool,
}

impl<'a> MemorySource<'a> {
    /// Returns a source of these bytes.
    pub fn new(bytes: &'a [u8]) -> MemorySource<'a>
        ensures left { ⟦<MemorySource<'a> as ByteSource>⟧.left result ≡ Some bytes.now }
        ensures flag { ⟦<MemorySource<'a> as ByteSource>⟧.has_failed result ≡ false }
    {
        MemorySource {
            rest: bytes,
            failed: false,
        }
    }
}

impl ByteSource for MemorySource<'_> {
    ghost left = { λ source. Some source.rest.now };

    ghost has_failed = { λ source. source.failed };

    fn read(&mut self, buffer: &mut [u8]) -> io::Result<usize> {
        let n = self.rest.len().min(buffer.len());
        buffer[..n].copy_from_slice(&self.rest[..n]);
        self.rest = &self.rest[n..];
        Ok(n)
    }
}

/// A source that reads from a `Read`. Its bytes are known to proofs if those of the reader are.
///
/// A read that a signal interrupts counts as failed.
#[derive(Drop)]
pub struct ReadSource<R> {
    reader: R,
    failed: bool,
}

impl<R: Read> ReadSource<R> {
    /// Returns a source of the bytes that the reader gives.
    pub fn new(reader: R) -> ReadSource<R>
        ensures left { ⟦<ReadSource<R> as ByteSource>⟧.left result ≡ R.remaining reader }
        ensures flag { ⟦<ReadSource<R> as ByteSource>⟧.has_failed result ≡ false }
    {
        ReadSource {
            reader,
            failed: false,
        }
    }
}

impl<R: Read> ByteSource for ReadSource<R> {
    ghost left = { λ source. R.remaining source.reader };

    ghost has_failed = { λ source. source.failed };

    fn read(&mut self, buffer: &mut [u8]) -> io::Result<usize> {
        let result = self.reader.read(buffer);
        self.failed = self.failed || result.is_err();
        result
    }
}
