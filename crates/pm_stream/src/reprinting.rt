//! Prints a text as its stream is printed, without building trees.
ghost use Rattle.std.specs.Prelude.{◌≡◌, ◌+◌, ◌<◌, ◌^◌, ◌↔◌, ◌++◌, ℕ, [], ◌∷◌, length, string_bytes};
ghost use Rattle.std.specs.Prelude.{OnOk, IfOk, IfErr};
ghost use Rattle.std.specs.Str.{chars};
ghost use Rattle.lexical.specs.Token.{Mark, Token, token_text};
ghost use Rattle.pm_span.specs.Files.{Fits, new_map, next_lo};
ghost use Rattle.pm_token.specs.Outcome.{IfLex};
ghost use Rattle.pm_stream.specs.Parsing.{ReportsFault};
ghost use Rattle.pm_stream.specs.Events.{One, doc_onto};
ghost use Rattle.pm_stream.specs.Fault.{IsFault};
ghost use Rattle.pm_stream.specs.Delimited.{opening};
ghost use Rattle.pm_stream.specs.Printed.{parts, space};
ghost use Rattle.pm_stream.specs.PrintedTree.{ending};
ghost use Rattle.pm_stream.specs.PrinterState.{Prints, PrintsEvents, doc_front};
ghost use Rattle.pm_stream.specs.PrintsText.{PrintsText};

use crate::display::is_brace;
use crate::reading::{Lexed, TokenSink, read};
use pm_span::parts::fits_new;
use pm_token::parts::TextBuilder;
use pm_token::{Delimiter, ParseError};
use std::alloc::{AllocError, Global};

/// Returns the printed text of a text: what Display writes for the stream that it parses to.
///
/// No trees are built. The call allocates memory for the printed text, which is seldom longer than the source, and for
/// a list of the open groups.
///
/// The errors are those of [`parse_unmapped`](crate::TokenStream::parse_unmapped). `Lex` has the position of
/// the fault (`fault`), in characters counted from 1. `MapFull` is returned exactly if the text does not fit a new map
/// (`fits`), and `Memory` if memory runs out.
///
/// `a+=b` gives `a += b`, and `{x}` gives `{ x }`. The fault of `(]` is 2..2.
pub fn reprint(alloc: Global, text: &str) -> Result<String, ParseError>
    ensures ok { IfOk result (λ out. PrintsText (next_lo new_map) (chars text.now) (string_bytes out)) }
    ensures fault { ReportsFault IfLex (next_lo new_map) (chars text.now) result }
    ensures map_full { (result ≡ Err ParseError.MapFull)
        ↔ (Fits new_map (length (chars text.now)) → ⊥) }
{
    let Some(lo) = fits_new(text) else {
        return Err(ParseError::MapFull);
    };
    reprint_at(alloc, lo, text)
}

/// Returns the printed text of a text that begins at the position `base`.
fn reprint_at(alloc: Global, base: u32, text: &str) -> Result<String, ParseError>
    requires { base + length (chars text.now) < 2 ^ 32 }
    ensures ok { IfOk result (λ out. PrintsText base (chars text.now) (string_bytes out)) }
    ensures lex { IfErr result (IsFault base (chars text.now)) }
{
    let mut printer = Printer {
        text_out: TextBuilder::with_room(alloc, text.len())?,
        gap: false,
    };
    read(alloc, base, text, &mut printer)?;
    Ok(printer.text_out.into_string())
}

/// A sink that prints the tokens.
#[derive(Drop)]
struct Printer {
    /// The printed text of what was read so far.
    text_out: TextBuilder,
    /// Whether a space goes before what is printed next.
    gap: bool,
}

/// A group whose closer was not read yet.
#[derive(Drop)]
struct OpenGroup {
    /// Its delimiter.
    delimiter: Delimiter,
    /// The position of its opener.
    lo: u32,
}

impl TokenSink for Printer {
    type Opened = OpenGroup;

    ghost opens = { λ group. (group.delimiter, group.lo) };

    ghost took = { λ printer taken. Prints printer taken.events };

    #[inline(always)]
    fn opener(group: &OpenGroup) -> (Delimiter, u32) {
        (group.delimiter, group.lo)
    }

    #[inline(always)]
    fn mark(&mut self, _lexed: Lexed<'_>, joint: bool, mark: char) -> Result<(), AllocError> {
        self.write_char(mark)?;
        self.gap = !joint;
        Ok(())
    }

    #[inline(always)]
    fn name(&mut self, lexed: Lexed<'_>, _raw: bool, _name: &str) -> Result<(), AllocError> {
        self.write(lexed.own_text())?;
        self.gap = true;
        Ok(())
    }

    #[inline(always)]
    fn literal(&mut self, lexed: Lexed<'_>) -> Result<(), AllocError> {
        self.write(lexed.own_text())?;
        self.gap = true;
        Ok(())
    }

    #[inline(always)]
    fn doc(&mut self, _lexed: Lexed<'_>, inner: bool, doc_body: &str) -> Result<(), AllocError> {
        self.push_doc(inner, doc_body)
    }

    #[inline(always)]
    fn gap(&mut self, _lexed: Lexed<'_>) {}

    #[inline(always)]
    fn white(&mut self, _text: &str, _size: usize) {}

    #[inline(always)]
    fn open(&mut self, lexed: Lexed<'_>, delimiter: Delimiter) -> Result<OpenGroup, AllocError> {
        self.write_opening(delimiter)?;
        self.gap = is_brace(delimiter);
        Ok(OpenGroup {
            delimiter,
            lo: lexed.at,
        })
    }

    /// Handles a closer. It is not inlined, so that the loop keeps fewer values in registers for the other, more
    /// frequent pieces.
    #[inline(never)]
    fn close(
        &mut self,
        _lexed: Lexed<'_>,
        delimiter: Delimiter,
        _group: OpenGroup,
    ) -> Result<(), AllocError> {
        push_ending(&mut self.text_out, delimiter)?;
        self.gap = true;
        Ok(())
    }
}

impl Printer {
    /// Prints the text, after a space if one goes before it.
    fn write(&mut self, text: &str) -> Result<(), AllocError>
        ensures ok { OnOk result (self.new.text_out ≡ self.old.text_out ++ (space self.old.gap ++ chars text.now)) }
    {
        if self.gap {
            self.text_out.push(' ')?;
        }
        self.text_out.push_text(text)
    }

    /// Prints the character, after a space if one goes before it. This is faster than `write` with a text of one
    /// character.
    fn write_char(&mut self, c: char) -> Result<(), AllocError>
        ensures ok { OnOk result (self.new.text_out ≡ self.old.text_out ++ (space self.old.gap ++ c ∷ [])) }
    {
        if self.gap {
            self.text_out.push(' ')?;
        }
        self.text_out.push(c)
    }

    /// Prints a doc comment: the mark `#`, the mark `!` if it is inner, and the group of its text.
    #[inline(never)]
    fn push_doc(&mut self, inner: bool, text: &str) -> Result<(), AllocError>
        ensures ok { OnOk result ((lo hi : ℕ)
            → PrintsEvents self.old self.new (doc_onto lo hi inner (chars text.now) [])) }
    {
        self.write(doc_front(inner))?;
        self.text_out.push_string(text)?;
        self.text_out.push(']')?;
        self.gap = true;
        Ok(())
    }

    /// Prints the opener of a group, after a space if one goes before it.
    #[inline(always)]
    fn write_opening(&mut self, delimiter: Delimiter) -> Result<(), AllocError>
        ensures ok { OnOk result (self.new.text_out ≡ self.old.text_out ++ (space self.old.gap ++ opening delimiter)) }
    {
        match delimiter {
            Delimiter::Parenthesis => self.write_char('('),
            Delimiter::Brace => self.write_char('{'),
            Delimiter::Bracket => self.write_char('['),
            Delimiter::None => self.write(""),
        }
    }
}

/// Prints the closer of a group, with a space before `}`.
fn push_ending(text_out: &mut TextBuilder, delimiter: Delimiter) -> Result<(), AllocError>
    ensures { OnOk result (text_out.new ≡ text_out.old ++ ending delimiter) }
{
    match delimiter {
        Delimiter::Parenthesis => text_out.push(')'),
        Delimiter::Brace => {
            text_out.push(' ')?;
            text_out.push('}')
        }
        Delimiter::Bracket => text_out.push(']'),
        Delimiter::None => Ok(()),
    }
}

/// Returns what is printed of a doc comment before its text.
fn doc_front(inner: bool) -> &'static str
    ensures { result.now ≡ doc_front inner }
{
    if inner { "# ! [doc = " } else { "# [doc = " }
}
