//! The tokens of a text, one after another.
ghost use Rattle.std.specs.Prelude.{◌≡◌, ◌≤◌, ◌+◌, ◌<◌, ◌^◌, ◌↔◌, ◌⊎◌, IfOk, IfErr, length};
ghost use Rattle.std.specs.Str.{chars};
ghost use Rattle.pm_span.specs.Files.{Fits, new_map, next_lo};
ghost use Rattle.pm_stream.specs.Forest.{flattening};
ghost use Rattle.pm_stream.specs.Parsing.{ParsesTo, ReportsFault};
ghost use Rattle.token_buffer.specs.Reads.{left};
ghost use Rattle.token_buffer.specs.Many.{HasManyTokens};
ghost use Rattle.token_buffer.specs.Refused.{IfFault, IfTooLong};

use crate::cursor::Cursor;
use crate::entry::Entry;
use crate::errors::BufferError;
use crate::filling::Filling;
use pm_span::parts::fits_new;
use pm_stream::reading::read;
use pm_token::ParseError;
use std::alloc::Global;
use std::marker::Model;

/// The tokens of a text, which [`Cursor`](crate::Cursor)s read.
///
/// The buffer takes 16 bytes for each token, and for each start and each end of a group. The text of each token
/// stays in the source.
#[derive(Drop)]
pub struct TokenBuffer<'a> {
    text: &'a str,
    entries: Vec<Entry>,
}

impl<'a> Model for TokenBuffer<'a> {
    ghost use Rattle.pm_stream.specs.Forest.{Forest};
    ghost use Rattle.pm_stream.specs.Codec.{coded_forest};

    ghost Value = { Forest };

    ghost coded = { coded_forest };

    ghost use Rattle.token_buffer.specs.Held.{Holds};
    ghost use Rattle.token_buffer.specs.Left.{trees_of};

    ghost view = { λ buffer. trees_of buffer.text.now buffer.entries.items };

    ghost use Rattle.pm_stream.specs.Forest.{IsBuilt};

    ghost invariant = { λ buffer.
        Holds buffer.text.now buffer.entries.items (trees_of buffer.text.now buffer.entries.items)
        × IsBuilt (trees_of buffer.text.now buffer.entries.items) };
}

impl<'a> TokenBuffer<'a> {
    /// Reads the tokens of a text, which are those of the stream that it parses to (`parses-to`).
    ///
    /// Positions are those of a new map, in which the text begins at 1. Syntax errors are those of
    /// `TokenStream::parse_unmapped`.
    ///
    /// `TooLong` comes if the text has more than 4294967295 bytes, or is valid and has more tokens than that; each
    /// end of a group counts as a token. A text with fewer bytes gives `Parse(MapFull)` exactly if it has too many
    /// characters for a new map (`fits`). `Parse(Memory)` comes if memory runs out.
    ///
    /// `a += (b)` has the identifier `a`, the marks `+` and `=`, and the group of `b`.
    pub fn new(alloc: Global, text: &'a str) -> Result<TokenBuffer<'a>, BufferError>
        ensures ok { IfOk result (λ buffer. ParsesTo (next_lo new_map) (chars text.now) buffer) }
        ensures fault { ReportsFault IfFault (next_lo new_map) (chars text.now) result }
        ensures map_full { (result ≡ Err (BufferError.Parse ParseError.MapFull))
            ↔ ((length text.now < 2 ^ 32) × (Fits new_map (length (chars text.now)) → ⊥)) }
        ensures few { IfOk result (λ buffer. (length text.now < 2 ^ 32) × (length (flattening buffer) < 2 ^ 32)) }
        ensures many { IfErr result (λ error. IfTooLong error
            ((2 ^ 32 ≤ length text.now) ⊎ HasManyTokens (next_lo new_map) (chars text.now))) }
    {
        if text.len() > u32::MAX as usize {
            return Err(BufferError::TooLong);
        }
        let Some(lo) = fits_new(text) else {
            return Err(BufferError::Parse(ParseError::MapFull));
        };
        let mut filling = Filling {
            text,
            // In source code a token has about four bytes, with the white space after it.
            entries: Vec::with_capacity(alloc, text.len() / 4)?,
        };
        read(alloc, lo, text, &mut filling)?;
        let Filling { text, entries } = filling;
        if entries.len() > u32::MAX as usize {
            return Err(BufferError::TooLong);
        }
        Ok(TokenBuffer { text, entries })
    }

    /// Returns a cursor over all trees of the buffer.
    pub fn begin(&self) -> Cursor<'_>
        ensures { left result ≡ self.now }
    {
        Cursor::over(self.text, self.entries.as_slice())
    }
}
