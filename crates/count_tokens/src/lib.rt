//! Counts the tokens of each kind in a text. It is an example of how to write a reader of your own.
//!
//! [`read`] loops over the tokens of a text, and gives them to a [`TokenSink`], which is [`Counts`] here.
#![tactic(auto)]

ghost use Rattle.std.specs.Prelude.{◌≡◌, ◌↔◌, Err, IfErr, IfOk, length};
ghost use Rattle.std.specs.Str.{chars};
ghost use Rattle.pm_span.specs.Files.{Fits, new_map, next_lo};
ghost use Rattle.pm_token.specs.Outcome.{IfLex};
ghost use Rattle.pm_stream.specs.Forest.{Forest, flattening};
ghost use Rattle.pm_stream.specs.Parsing.{FaultAt, ParsesTo};
ghost use Rattle.count_tokens.specs.Counted.{Counted, counts_of};

use pm_span::parts::fits_new;
use pm_stream::reading::{Lexed, TokenSink, read};
use pm_token::{Delimiter, ParseError};
use std::alloc::{AllocError, Global};

#[cfg(test)]
mod tests;

/// The number of tokens of each kind in a text. A doc comment counts as the tokens that it is read as.
#[derive(Clone, Copy, Debug, PartialEq)]
pub struct Counts {
    /// The number of identifiers, including the names of lifetimes.
    pub names: u64,
    /// The number of punctuation marks.
    pub marks: u64,
    /// The number of literals.
    pub literals: u64,
    /// The number of groups.
    pub groups: u64,
}

/// Counts the tokens of each kind in a text.
///
/// Returns `Lex` if the text doesn't parse, with the position of its syntax error (`fault`), counted as in a new map.
/// Returns `MapFull` exactly if the text doesn't fit a new map (`fits`), and `Memory` if memory runs out.
///
/// Example: `f(1) // a` has one name, no mark, one literal and one group.
pub fn count_tokens(alloc: Global, text: &str) -> Result<Counts, ParseError>
    ensures ok { IfOk result (λ counts. (stream : Forest) × ParsesTo (next_lo new_map) (chars text.now) stream
        × (counts ≡ counts_of (flattening stream))) }
    ensures lex { IfErr result (λ error. IfLex error (λ fault.
        FaultAt (next_lo new_map) (chars text.now) fault.lo)) }
    ensures map_full { (result ≡ Err ParseError.MapFull) ↔ (Fits new_map (length (chars text.now)) → ⊥) }
{
    let Some(lo) = fits_new(text) else {
        return Err(ParseError::MapFull);
    };
    let mut counts = Counts {
        names: 0,
        marks: 0,
        literals: 0,
        groups: 0,
    };
    read(alloc, lo, text, &mut counts)?;
    Ok(counts)
}

impl TokenSink for Counts {
    type Opened = (Delimiter, u32);

    ghost opens = { λ group. group };

    ghost took = { λ counts taken. Counted counts taken };

    fn opener(group: &Self::Opened) -> (Delimiter, u32) {
        *group
    }

    fn mark(&mut self, _lexed: Lexed<'_>, _joint: bool, _mark: char) -> Result<(), AllocError> {
        self.marks += 1;
        Ok(())
    }

    fn name(&mut self, _lexed: Lexed<'_>, _raw: bool, _name: &str) -> Result<(), AllocError> {
        self.names += 1;
        Ok(())
    }

    fn literal(&mut self, _lexed: Lexed<'_>) -> Result<(), AllocError> {
        self.literals += 1;
        Ok(())
    }

    fn doc(&mut self, _lexed: Lexed<'_>, inner: bool, _doc_body: &str) -> Result<(), AllocError> {
        // The tokens of `#[doc = ".."]`, or of `#![doc = ".."]`.
        self.marks += if inner { 3 } else { 2 };
        self.groups += 1;
        self.names += 1;
        self.literals += 1;
        Ok(())
    }

    fn gap(&mut self, _lexed: Lexed<'_>) {}

    fn white(&mut self, _text: &str, _size: usize) {}

    fn open(&mut self, lexed: Lexed<'_>, delimiter: Delimiter) -> Result<Self::Opened, AllocError> {
        self.groups += 1;
        Ok((delimiter, lexed.at))
    }

    fn close(
        &mut self,
        _lexed: Lexed<'_>,
        _delimiter: Delimiter,
        _group: Self::Opened,
    ) -> Result<(), AllocError> {
        Ok(())
    }
}
