//! An index that finds the line of a character offset.
ghost use Rattle.std.specs.Prelude.{◌≡◌, ◌*◌, ◌<◌, ◌≤◌, List, ℕ, ◌∷◌, length, slice_index, IfOk};
ghost use Rattle.std.specs.List.Sorted.{IsNonDecreasing};
ghost use Rattle.pm_span.specs.CharOffset.{line_column};
ghost use Rattle.pm_span.specs.LineIndex.{AreBlocks, AreUpTo, after_line_feeds};

use crate::location::LineColumn;
use std::alloc::{AllocError, Global};
use std::marker::Model;

/// The usual number of characters in a block.
const BLOCK: u32 = 32;

/// The number of characters in a block if lines are about as short. So no block has many lines.
const SHORT_BLOCK: u32 = 8;

/// With at most this number of line starts, the search needs no blocks.
const FEW_LINES: usize = 4;

/// The offsets at which the lines of a text begin, with counts that make the search for a line short.
#[derive(Drop)]
pub(crate) struct LineIndex {
    /// The offset after each line feed, in characters.
    starts: Vec<u32>,
    /// For each block of characters, how many lines begin at or before its start; empty if there are few lines.
    blocks: Vec<u32>,
    /// The number of characters in a block.
    block: u32,
}

impl Model for LineIndex {
    ghost use Rattle.std.specs.Prelude.{List, ℕ};
    ghost use Rattle.pm_span.specs.LineIndex.{IsLineIndex};

    ghost Value = { List ℕ };

    ghost view = { λ index. index.starts.items };

    ghost invariant = { λ index. IsLineIndex index.starts.items index.blocks.items index.block };
}

/// Returns the number of characters in a block, for a text with `count` characters.
fn block_for(line_feeds: usize, count: u32) -> u32
    ensures { 0 < result }
{
    if line_feeds > (count / SHORT_BLOCK) as usize {
        SHORT_BLOCK
    } else {
        BLOCK
    }
}

/// Counts, for each block of `block` characters, how many line starts are at or before the start of the block.
fn count_by_blocks(
    alloc: Global,
    starts: &[u32],
    count: u32,
    block: u32,
) -> Result<Vec<u32>, AllocError>
    requires { 0 < block }
    ensures ok { IfOk result (λ blocks. AreBlocks block starts.now blocks.items) }
{
    if starts.len() <= FEW_LINES {
        return Ok(Vec::new(alloc));
    }
    let size = count / block;
    let mut blocks = Vec::with_capacity(alloc, size as usize + 1)?;
    let mut lines = 0;
    let mut block_start = 0u32;
    for _ in 0..size as usize + 1 {
        lines = count_on(starts, lines, block_start);
        blocks.push(lines.min(u32::MAX as usize) as u32)?;
        block_start = block_start.saturating_add(block);
    }
    Ok(blocks)
}

/// Returns how many of the offsets, which ascend, are at most `char_offset`. The first `from` of them must be.
fn count_on(offsets: &[u32], from: usize, char_offset: u32) -> usize
    requires { AreUpTo offsets.now from char_offset }
    ensures before { AreUpTo offsets.now result char_offset }
    ensures after { result < length offsets.now → char_offset < slice_index offsets.now result }
{
    let mut count = from;
    while count < offsets.len() && offsets[count] <= char_offset {
        count += 1;
    }
    count
}

/// Returns the number of the block that has the offset, if each block has `block` characters.
fn block_of(char_offset: u32, block: u32) -> u32
    requires { 0 < block }
    ensures { result * block ≤ char_offset }
{
    // Most texts have blocks of BLOCK characters, and a division by a constant is fast.
    if block == BLOCK {
        char_offset / BLOCK
    } else {
        char_offset / block
    }
}

impl LineIndex {
    /// Builds the index of these ascending line starts, for a text of `count` characters. Out of memory is the only
    /// error.
    #[inline(always)]
    pub(crate) fn new(alloc: Global, starts: Vec<u32>, count: u32) -> Result<LineIndex, AllocError>
        requires { IsNonDecreasing starts.items }
        ensures ok { IfOk result (λ index. index ≡ starts.items) }
    {
        let block = block_for(starts.len(), count);
        let blocks = count_by_blocks(alloc, &starts, count, block)?;
        Ok(LineIndex {
            starts,
            blocks,
            block,
        })
    }

    /// Returns the offset after each line feed, in characters.
    pub(crate) fn starts(&self) -> &Vec<u32> {
        &self.starts
    }

    /// Returns how many lines begin at or before the start of the block of `char_offset`; 0 without blocks. A
    /// search for the line may begin there.
    fn lines_before(&self, char_offset: u32) -> usize
        ensures { AreUpTo self.now result char_offset }
    {
        match self.blocks.get(block_of(char_offset, self.block) as usize) {
            Some(lines) => *lines as usize,
            None => 0,
        }
    }

    /// Returns the offset at which the line begins that comes after this number of line feeds, in characters.
    fn line_start(&self, line_feeds: usize) -> u32
        requires { line_feeds ≤ length self.now }
        ensures { result ≡ slice_index (0 ∷ self.now) line_feeds }
    {
        if line_feeds == 0 {
            0
        } else {
            self.starts[line_feeds - 1]
        }
    }

    /// Returns the line and column at an offset of the text, in characters.
    pub(crate) fn line_column(&self, char_offset: u32) -> LineColumn
        ensures { (text : List ℕ) → self.now ≡ after_line_feeds text → char_offset ≤ length text
            → result ≡ line_column text char_offset }
    {
        let line_feeds = count_on(&self.starts, self.lines_before(char_offset), char_offset);
        let line_start = self.line_start(line_feeds);
        LineColumn {
            line: line_feeds + 1,
            column: (char_offset - line_start) as usize,
        }
    }
}
