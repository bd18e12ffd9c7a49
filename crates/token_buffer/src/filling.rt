//! Makes the entries of a buffer from the tokens of its text.
ghost use Rattle.std.specs.Prelude.{◌≡◌, ◌+◌, [], ◌∷◌, OnOk, false, length};
ghost use Rattle.std.specs.Str.{encode_utf8_all};
ghost use Rattle.pm_stream.specs.Taken.{IsTakenTo};
ghost use Rattle.token_buffer.specs.Filled.{Fills, Puts, doc_entries};
ghost use Rattle.token_buffer.specs.declared.entry.Entry.{Entry};

use crate::entry::Entry;
use pm_stream::reading::{Lexed, TokenSink};
use pm_token::Delimiter;
use std::alloc::AllocError;

/// One more than the largest number of entries that an opener can count.
const COUNTS: usize = u32::MAX as usize + 1;

/// A buffer while its text is read.
#[derive(Drop)]
pub struct Filling<'t> {
    /// The whole text.
    pub text: &'t str,
    /// The entries of all tokens so far.
    pub entries: Vec<Entry>,
}

/// A group whose closer is still to come.
#[derive(Drop)]
pub struct OpenGroup {
    /// The delimiter of the group.
    delimiter: Delimiter,
    /// The position of its opener.
    lo: u32,
    /// The index of its opener's entry.
    index: usize,
}

impl<'t> TokenSink for Filling<'t> {
    type Opened = OpenGroup;

    ghost opens = { λ group. (group.delimiter, group.lo) };

    ghost took = { λ filling taken. Fills filling taken };

    #[inline(always)]
    fn opener(group: &OpenGroup) -> (Delimiter, u32)
        ensures { result ≡ (group.now.delimiter, group.now.lo) }
    {
        (group.delimiter, group.lo)
    }

    #[inline(always)]
    fn mark(&mut self, lexed: Lexed<'_>, joint: bool, mark: char) -> Result<(), AllocError> {
        let at = lexed.at;
        let end = at + lexed.piece.chars as u32;
        self.push(Entry::Mark {
            joint,
            mark,
            at,
            end,
        })
    }

    #[inline(always)]
    fn name(&mut self, lexed: Lexed<'_>, raw: bool, name: &str) -> Result<(), AllocError> {
        let (_, hi) = self.bytes(lexed);
        let lo = hi - name.len() as u32;
        self.push(Entry::Name {
            raw,
            lo,
            hi,
            at: lexed.at,
        })
    }

    #[inline(always)]
    fn literal(&mut self, lexed: Lexed<'_>) -> Result<(), AllocError> {
        let (lo, hi) = self.bytes(lexed);
        self.push(Entry::Literal {
            lo,
            hi,
            at: lexed.at,
        })
    }

    #[inline(always)]
    fn doc(&mut self, lexed: Lexed<'_>, inner: bool, doc_body: &str) -> Result<(), AllocError> {
        let at = lexed.at;
        let end = at + lexed.piece.chars as u32;
        let (begin, _) = self.bytes(lexed);
        let lo = begin + 3;
        let text = Entry::DocText {
            closing: (lexed.piece.bytes - 3 - doc_body.len()) as u8,
            lo,
            hi: lo + doc_body.len() as u32,
            at,
        };
        self.push_doc(inner, text, at, end)
    }

    #[inline(always)]
    fn gap(&mut self, _lexed: Lexed<'_>) {}

    #[inline(always)]
    fn white(&mut self, _text: &str, _size: usize) {}

    #[inline(always)]
    fn open(&mut self, lexed: Lexed<'_>, delimiter: Delimiter) -> Result<OpenGroup, AllocError> {
        let lo = lexed.at;
        let index = self.entries.len();
        self.push(Entry::Open {
            delimiter,
            at: lo,
            count: 0,
        })?;
        Ok(OpenGroup {
            delimiter,
            lo,
            index,
        })
    }

    #[inline(always)]
    fn close(
        &mut self,
        lexed: Lexed<'_>,
        delimiter: Delimiter,
        group: OpenGroup,
    ) -> Result<(), AllocError> {
        let inside = self.entries.len() - group.index - 1;
        self.entries[group.index] = Entry::Open {
            delimiter,
            at: group.lo,
            // The count of a longer group is wrong, but a buffer with so many entries is never returned.
            count: (inside % COUNTS) as u32,
        };
        self.push(Entry::Close {
            delimiter,
            end: lexed.at + 1,
        })
    }
}

impl<'t> Filling<'t> {
    /// Adds an entry.
    #[inline(always)]
    fn push(&mut self, entry: Entry) -> Result<(), AllocError>
        ensures { OnOk result (Puts self.old self.new (entry ∷ [])) }
    {
        self.entries.push(entry)?;
        Ok(())
    }

    /// Adds a doc comment: the mark `#`, the mark `!` if it is inner, and the group with its text.
    // Out of line, since few pieces are doc comments. If it took a `Lexed`, that of every piece would be put in
    // memory.
    #[inline(never)]
    fn push_doc(&mut self, inner: bool, text: Entry, at: u32, end: u32) -> Result<(), AllocError>
        ensures { OnOk result (Puts self.old self.new (doc_entries inner text at end)) }
    {
        self.push(alone('#', at, end))?;
        if inner {
            self.push(alone('!', at, end))?;
        }
        self.push(Entry::Open {
            delimiter: Delimiter::Bracket,
            at,
            count: 3,
        })?;
        self.push(Entry::DocName { at, end })?;
        self.push(alone('=', at, end))?;
        self.push(text)?;
        self.push(Entry::Close {
            delimiter: Delimiter::Bracket,
            end,
        })
    }

    /// Returns the byte offsets at which a piece begins and ends.
    #[inline(always)]
    fn bytes(&self, lexed: Lexed<'_>) -> (u32, u32)
        requires { IsTakenTo Fills self.now lexed }
        ensures begins { (to : IsTakenTo Fills self.now lexed.entry)
            → result.0 ≡ length (encode_utf8_all to.before.passed) }
        ensures ends { result.1 ≡ result.0 + lexed.entry.piece.bytes }
    {
        let lo = (self.text.len() - lexed.text.len()) as u32;
        (lo, lo + lexed.piece.bytes as u32)
    }
}

/// Makes the entry of a mark that isn't `Joint`.
fn alone(mark: char, at: u32, end: u32) -> Entry
    ensures { result ≡ Entry.Mark false mark at end }
{
    Entry::Mark {
        joint: false,
        mark,
        at,
        end,
    }
}
