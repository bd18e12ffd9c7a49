//! Reads a source to its end.
ghost use Rattle.std.specs.Prelude.{◌≡◌, ◌+◌, ◌≤◌, ◌<◌, ◌||◌, length, take, drop, vec_len, is_err, IfOk, OnOk, IfSome};
ghost use Rattle.std.specs.Io.KnownBytes.{Consumes, IsAtEnd};
ghost use Rattle.tokens.specs.Answer.{is_io, IsReadAnswer};
ghost use Rattle.tokens.specs.Known.{IsReadOut};

use crate::errors::RunError;
use crate::sources::ByteSource;
use std::alloc::{AllocError, Global};
use std::io;

/// The number of bytes for which each read has room at least.
const BLOCK: usize = 64 * 1024;

/// Reads all the bytes that the source has left.
///
/// Returns `Io` if a read failed, and `Memory` if memory runs out. Some of the bytes may have been read then.
pub fn read_to_end<R: ByteSource>(alloc: Global, reader: &mut R) -> Result<Vec<u8>, RunError>
    ensures value { IfOk result (λ bytes.
        IfSome (R.left reader.old) (λ input. bytes.items ≡ input)) }
    ensures end { OnOk result (IsReadOut (R.left reader.old) (R.left reader.new)) }
    ensures errors { IsReadAnswer result }
    ensures flag { R.has_failed reader.new ≡ (R.has_failed reader.old || is_io result) }
{
    let mut bytes = Vec::new(alloc);
    let mut filled = 0;
    loop {
        make_room(&mut bytes, filled)?;
        let Ok(count) = read_at(reader, bytes.as_mut_slice(), filled) else {
            return Err(RunError::Io);
        };
        if count == 0 {
            bytes.truncate(filled);
            return Ok(bytes);
        }
        filled += count;
    }
}

/// Makes room for a block of zeros after the bytes that are filled. Capacity past that block stays untouched, so the
/// system need not provide memory for it.
fn make_room(bytes: &mut Vec<u8>, filled: usize) -> Result<(), AllocError>
    requires { filled ≤ vec_len bytes.old }
    ensures room { OnOk result (filled + BLOCK ≤ vec_len bytes.new) }
    ensures front { OnOk result (take filled bytes.new.items ≡ take filled bytes.old.items) }
{
    if bytes.len() - filled < BLOCK {
        bytes.reserve(BLOCK)?;
        bytes.resize(filled + BLOCK, 0)?;
    }
    Ok(())
}

/// Reads once, into the part of the buffer after the bytes that are filled.
fn read_at<R: ByteSource>(reader: &mut R, buffer: &mut [u8], filled: usize) -> io::Result<usize>
    requires { filled < length buffer.old }
    ensures within { IfOk result (λ n. filled + n ≤ length buffer.new) }
    ensures bytes { IfOk result (λ n. Consumes (R.left reader.old) (R.left reader.new)
        (take n (drop filled buffer.new))) }
    ensures end { IfOk result (λ n. n ≡ 0 → IsAtEnd (R.left reader.new)) }
    ensures flag { R.has_failed reader.new ≡ (R.has_failed reader.old || is_err result) }
    ensures front { take filled buffer.new ≡ take filled buffer.old }
{
    reader.read(&mut buffer[filled..])
}
