//! Sinks, to which the output of a run goes.
ghost use Rattle.std.specs.Prelude.{◌≡◌, ◌≤◌, ◌||◌, ℕ, Bool, Option, Some, List, length, take, IfOk, OnErr, false, []};
ghost use Rattle.std.specs.Io.KnownBytes.{Appends, Keeps};
ghost use Rattle.tokens.specs.Refusal.{is_refusal};

use std::alloc::Global;
use std::io;
use std::io::Write;

/// Something to which bytes can be written.
///
/// Proofs may know which bytes a sink holds, as they do for one in memory. For a file they don't.
pub trait ByteSink {
    // the bytes that the sink holds, if proofs may know them
    ghost held: { Self → Option (List ℕ) };

    // whether a call so far has failed, or has taken no bytes of a slice that isn't empty
    ghost has_failed: { Self → Bool };

    /// Takes a prefix of `bytes`, and returns how many bytes that is. It takes none if it returns an error.
    fn write(&mut self, bytes: &[u8]) -> io::Result<usize>
        ensures within { IfOk result (λ n. n ≤ length bytes.now) }
        ensures bytes { IfOk result (λ n.
            Appends (held self.old) (held self.new) (take n bytes.now)) }
        ensures flag { has_failed self.new
            ≡ (has_failed self.old || is_refusal result bytes.now) }
        ensures kept { OnErr result (Keeps (held self.old) (held self.new)) };
}

/// Bytes in memory. A write fails if memory runs out.
#[derive(Drop)]
pub struct MemorySink {
    bytes: Vec<u8>,
    failed: bool,
}

impl MemorySink {
    /// Returns a sink that holds nothing yet.
    pub fn new(alloc: Global) -> MemorySink
        ensures held { ⟦<MemorySink as ByteSink>⟧.held result ≡ Some [] }
        ensures flag { ⟦<MemorySink as ByteSink>⟧.has_failed result ≡ false }
    {
        MemorySink {
            bytes: Vec::new(alloc),
            failed: false,
        }
    }

    /// Returns the bytes that the sink holds.
    pub fn bytes(&self) -> &[u8]
        ensures { ⟦<MemorySink as ByteSink>⟧.held self.now ≡ Some result.now }
    {
        self.bytes.as_slice()
    }
}

impl ByteSink for MemorySink {
    ghost held = { λ sink. Some sink.bytes.items };

    ghost has_failed = { λ sink. sink.failed };

    fn write(&mut self, bytes: &[u8]) -> io::Result<usize> {
        let result = self.bytes.extend_from_slice(bytes);
        self.failed = self.failed || result.is_err();
        result?;
        Ok(bytes.len())
    }
}

/// A sink that writes to a `Write`. Its bytes are known to proofs if those of the writer are.
///
/// It does not flush, so the owner of the writer must. A write that a signal interrupts counts as failed.
#[derive(Drop)]
pub struct WriteSink<W> {
    writer: W,
    failed: bool,
}

impl<W: Write> WriteSink<W> {
    /// Returns a sink that passes its bytes to the writer.
    pub fn new(writer: W) -> WriteSink<W>
        ensures held { ⟦<WriteSink<W> as ByteSink>⟧.held result ≡ W.contents writer }
        ensures flag { ⟦<WriteSink<W> as ByteSink>⟧.has_failed result ≡ false }
    {
        WriteSink {
            writer,
            failed: false,
        }
    }
}

impl<W: Write> ByteSink for WriteSink<W> {
    ghost held = { λ sink. W.contents sink.writer };

    ghost has_failed = { λ sink. sink.failed };

    fn write(&mut self, bytes: &[u8]) -> io::Result<usize> {
        let result = self.writer.write(bytes);
        self.failed = self.failed || is_refusal(&result, bytes);
        result
    }
}

/// Whether a write failed, or took no bytes of a slice that isn't empty.
pub(crate) fn is_refusal(answer: &io::Result<usize>, bytes: &[u8]) -> bool
    ensures { result ≡ is_refusal answer.now bytes.now }
{
    match answer {
        Ok(n) => *n == 0 && !bytes.is_empty(),
        Err(_) => true,
    }
}
