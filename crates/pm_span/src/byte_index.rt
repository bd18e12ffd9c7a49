//! An index that finds byte offsets by character offsets, in a text that isn't ASCII.
ghost use Rattle.std.specs.Prelude.{◌≡◌, ◌≤◌, List, ℕ, length, drop, IfOk};
ghost use Rattle.std.specs.Str.{chars, IsUtf8};
ghost use Rattle.std.specs.String.{string_bytes};
ghost use Rattle.pm_span.specs.CharOffset.{byte_offset};
ghost use Rattle.pm_span.specs.ByteIndex.{AreBlockEnds, IsByteOffset};

use crate::text::{char_count, skip_chars, skip_chars_back};
use std::alloc::{AllocError, Global};
use std::marker::Model;
use std::ops::Range;

/// The number of characters in a block. To find an offset, at most half as many are walked over.
const BLOCK: u32 = 64;

/// A text that isn't ASCII, with the byte offsets of some of its characters.
#[derive(Drop)]
pub(crate) struct ByteIndex {
    text: String,
    /// The number of characters.
    count: u32,
    /// The byte offset at which each full block ends.
    ends: Vec<usize>,
}

/// One offset of a text, both in characters and in bytes.
#[derive(Clone, Copy)]
struct OffsetPair {
    chars: u32,
    bytes: usize,
}

impl Model for ByteIndex {
    ghost use Rattle.std.specs.Prelude.{List, ℕ};
    ghost use Rattle.std.specs.Str.{chars};
    ghost use Rattle.std.specs.String.{string_bytes};
    ghost use Rattle.pm_span.specs.ByteIndex.{IsByteIndex};

    ghost Value = { List ℕ };

    ghost view = { λ index. chars (string_bytes index.text) };

    ghost invariant = { λ index. IsByteIndex (chars (string_bytes index.text)) index.count index.ends.items };
}

/// Returns the text after its first 64 characters. The characters in its first 64 bytes are counted quickly, and
/// only the rest are passed one by one.
fn skip_block(text: &str) -> &str
    requires { 64 ≤ length (chars text.now) }
    ensures value { chars result.now ≡ drop 64 (chars text.now) }
    ensures utf8 { IsUtf8 result.now }
{
    let size = BLOCK as usize;
    if text.is_char_boundary(size) {
        let (front, rest) = text.split_at(size);
        skip_chars(rest, size - char_count(front))
    } else {
        skip_chars(text, size)
    }
}

/// Returns the byte offset at which each full block of the text ends. The text has `count` characters.
fn block_ends(alloc: Global, text: &str, count: u32) -> Result<Vec<usize>, AllocError>
    requires { count ≡ length (chars text.now) }
    ensures { IfOk result (λ ends. AreBlockEnds (chars text.now) ends.items) }
{
    let blocks = count / BLOCK;
    let mut ends = Vec::with_capacity(alloc, blocks as usize)?;
    let mut rest = text;
    for _ in 0..blocks {
        rest = skip_block(rest);
        ends.push(text.len() - rest.len())?;
    }
    Ok(ends)
}

/// Returns the one of two known offsets that is nearer to `char_offset`, in characters.
fn nearer(char_offset: u32, first: OffsetPair, second: OffsetPair) -> OffsetPair
    ensures { (text : List ℕ) → IsByteOffset text first.chars first.bytes
        → IsByteOffset text second.chars second.bytes → IsByteOffset text result.chars result.bytes }
{
    if char_offset.abs_diff(first.chars) <= char_offset.abs_diff(second.chars) {
        first
    } else {
        second
    }
}

impl ByteIndex {
    /// Builds the index of a text with `count` characters. Out of memory is the only error.
    pub(crate) fn new(alloc: Global, text: String, count: u32) -> Result<ByteIndex, AllocError>
        requires { count ≡ length (chars (string_bytes text)) }
        ensures ok { IfOk result (λ index. index ≡ chars (string_bytes text)) }
    {
        let ends = block_ends(alloc, text.as_str(), count)?;
        Ok(ByteIndex { text, count, ends })
    }

    /// Returns the text.
    pub(crate) fn as_str(&self) -> &str
        ensures value { chars result.now ≡ self.now }
        ensures utf8 { IsUtf8 result.now }
    {
        self.text.as_str()
    }

    /// Returns the offset at which the block of `char_offset` begins.
    fn block_start(&self, char_offset: u32) -> OffsetPair
        requires { char_offset ≤ length self.now }
        ensures value { IsByteOffset self.now result.chars result.bytes }
        ensures before { result.chars ≤ char_offset }
    {
        let block = char_offset / BLOCK;
        if block == 0 {
            OffsetPair { chars: 0, bytes: 0 }
        } else {
            OffsetPair {
                chars: block * BLOCK,
                bytes: self.ends[block as usize - 1],
            }
        }
    }

    /// Returns the offset at which the block of `char_offset` ends. If the block isn't full, this is the end of the
    /// text.
    fn block_end(&self, char_offset: u32) -> OffsetPair
        requires { char_offset ≤ length self.now }
        ensures value { IsByteOffset self.now result.chars result.bytes }
        ensures after { char_offset ≤ result.chars }
    {
        let block = char_offset / BLOCK;
        match self.ends.get(block as usize) {
            Some(bytes) => OffsetPair {
                chars: (block + 1) * BLOCK,
                bytes: *bytes,
            },
            None => OffsetPair {
                chars: self.count,
                bytes: self.text.len(),
            },
        }
    }

    /// Returns the number of bytes before `char_offset`. It counts on from the known offset, or back from it.
    fn count_from(&self, known: OffsetPair, char_offset: u32) -> usize
        requires known { IsByteOffset self.now known.chars known.bytes }
        requires within { char_offset ≤ length self.now }
        ensures { result ≡ byte_offset self.now char_offset }
    {
        if char_offset == known.chars {
            return known.bytes;
        }
        let text = self.text.as_str();
        if char_offset < known.chars {
            let front = skip_chars_back(&text[..known.bytes], (known.chars - char_offset) as usize);
            front.len()
        } else {
            let rest = skip_chars(&text[known.bytes..], (char_offset - known.chars) as usize);
            text.len() - rest.len()
        }
    }

    /// Converts an offset in characters to one in bytes. In a block of ASCII this is an addition. Otherwise it
    /// walks from the nearest of three offsets: both ends of the block, and `known`.
    fn byte_offset(&self, char_offset: u32, known: OffsetPair) -> usize
        requires within { char_offset ≤ length self.now }
        requires known { IsByteOffset self.now known.chars known.bytes }
        ensures { result ≡ byte_offset self.now char_offset }
    {
        let start = self.block_start(char_offset);
        let end = self.block_end(char_offset);
        if end.bytes - start.bytes == (end.chars - start.chars) as usize {
            return start.bytes + (char_offset - start.chars) as usize;
        }
        let nearest = nearer(char_offset, known, nearer(char_offset, start, end));
        self.count_from(nearest, char_offset)
    }

    /// Returns the byte offsets of two character offsets of the text.
    #[inline(never)]
    pub(crate) fn byte_range(&self, start: u32, end: u32) -> Range<usize>
        requires ordered { start ≤ end }
        requires within { end ≤ length self.now }
        ensures start { result.start ≡ byte_offset self.now start }
        ensures end { result.end ≡ byte_offset self.now end }
    {
        let front = OffsetPair { chars: 0, bytes: 0 };
        let from = self.byte_offset(start, front);
        let known = OffsetPair {
            chars: start,
            bytes: from,
        };
        from..self.byte_offset(end, known)
    }
}
