//! Appends marked pieces to the output.
ghost use Rattle.std.specs.Prelude.{◌≡◌, ◌+◌, ◌++◌, [], OnOk, codes, encode_utf8, string_bytes};
ghost use Rattle.std.specs.Prelude.{◌<◌, ◌≤◌, ℕ, IfOk, false, length, slice_index, true};
ghost use Rattle.std.specs.Str.{IsUtf8};
ghost use Rattle.highlight.specs.Mark.{Faulty, Styled};
ghost use Rattle.highlight.specs.Page.{IsBare, anchor, escape_text, in_span, in_colour, line_after, line_past};
ghost use Rattle.highlight.specs.Page.{marked_piece, marked_text};

use crate::format::Format;
use crate::style::Style;
use explain::Reason;
use std::alloc::{AllocError, Global};

/// The output so far.
#[derive(Drop)]
pub struct Sheet {
    /// The text with its marks.
    pub out: String,
    /// The line on which the next piece begins, counted from 1.
    pub line: usize,
    format: Format,
}

impl Sheet {
    /// Returns an empty output, at line 1.
    pub fn new(alloc: Global, format: Format) -> Sheet
        ensures out { string_bytes result.out ≡ [] }
        ensures line { result.line ≡ 1 }
        ensures format { result.format ≡ format }
    {
        Sheet {
            out: String::new(alloc),
            line: 1,
            format,
        }
    }

    /// Appends the text of a piece, marked by its style.
    pub fn push_piece(&mut self, style: Style, text: &str) -> Result<(), AllocError>
        ensures shown { OnOk result (string_bytes self.new.out
            ≡ string_bytes self.old.out
            ++ marked_piece self.old.format self.old.line (Styled style, text.now)) }
        ensures line { OnOk result (self.new.line ≡ line_past self.old.format self.old.line text.now) }
        ensures kept { self.new.format ≡ self.old.format }
    {
        self.push_marked(style.class(), style.colour(), text)
    }

    /// Appends a part of the text that is wrong, with the message of the reason.
    pub fn push_faulty(
        &mut self,
        alloc: Global,
        reason: &Reason,
        text: &str,
    ) -> Result<(), AllocError>
        ensures shown { OnOk result (string_bytes self.new.out
            ≡ string_bytes self.old.out
            ++ marked_piece self.old.format self.old.line (Faulty reason.now, text.now)) }
        ensures line { OnOk result (self.new.line ≡ line_past self.old.format self.old.line text.now) }
        ensures kept { self.new.format ≡ self.old.format }
    {
        let class = format!(in alloc; "x title=\"{}\"", reason.message())?;
        self.push_marked(class.as_str(), Style::NoPiece.colour(), text)
    }

    /// Appends the text with this class or in this colour. An empty text gets no mark.
    #[tactic(auto, using(crate::proofs::MarkLemmas::marks))]
    fn push_marked(&mut self, class: &str, colour: &str, text: &str) -> Result<(), AllocError>
        ensures shown { OnOk result (string_bytes self.new.out
            ≡ string_bytes self.old.out
            ++ marked_text self.old.format self.old.line class.now colour.now text.now) }
        ensures line { OnOk result (self.new.line ≡ line_past self.old.format self.old.line text.now) }
        ensures kept { self.new.format ≡ self.old.format }
    {
        if text.is_empty() {
            return Ok(());
        }
        match self.format {
            Format::Html => self.push_span(class, text),
            Format::Term => self.push_coloured(colour, text),
        }
    }

    /// Appends the text in a `<span>` of the class, or without one if the class is empty.
    fn push_span(&mut self, class: &str, text: &str) -> Result<(), AllocError>
        ensures shown { OnOk result (string_bytes self.new.out
            ≡ string_bytes self.old.out ++ in_span class.now (escape_text self.old.line text.now)) }
        ensures line { OnOk result (self.new.line ≡ line_after self.old.line text.now) }
        ensures kept { self.new.format ≡ self.old.format }
    {
        if class.is_empty() {
            return self.push_escaped(text);
        }
        self.out.push_str("<span class=")?;
        self.out.push_str(class)?;
        self.out.push('>')?;
        self.push_escaped(text)?;
        self.out.push_str("</span>")?;
        Ok(())
    }

    /// Appends the text in the colour, or without one if the colour is empty.
    fn push_coloured(&mut self, colour: &str, text: &str) -> Result<(), AllocError>
        ensures shown { OnOk result (string_bytes self.new.out
            ≡ string_bytes self.old.out ++ in_colour colour.now text.now) }
        ensures line { self.new.line ≡ self.old.line }
        ensures kept { self.new.format ≡ self.old.format }
    {
        if colour.is_empty() {
            return self.out.push_str(text);
        }
        self.out.push_str("\x1b[")?;
        self.out.push_str(colour)?;
        self.out.push('m')?;
        self.out.push_str(text)?;
        self.out.push_str("\x1b[0m")
    }

    /// Appends the text, escaped, with an anchor after each line feed.
    fn push_escaped(&mut self, text: &str) -> Result<(), AllocError>
        ensures shown { OnOk result (string_bytes self.new.out
            ≡ string_bytes self.old.out ++ escape_text self.old.line text.now) }
        ensures line { OnOk result (self.new.line ≡ line_after self.old.line text.now) }
        ensures kept { self.new.format ≡ self.old.format }
    {
        let mut rest = self.push_bare(text)?.chars();
        while let Some(c) = rest.next() {
            self.push_character(c)?;
            rest = self.push_bare(rest.as_str())?.chars();
        }
        Ok(())
    }

    /// Appends the part of the text before the first byte that is escaped, and returns the rest.
    fn push_bare<'a>(&mut self, text: &'a str) -> Result<&'a str, AllocError>
        ensures shown { IfOk result (λ rest. string_bytes self.new.out ++ escape_text self.old.line rest.now
            ≡ string_bytes self.old.out ++ escape_text self.old.line text.now) }
        ensures line { IfOk result (λ rest. line_after self.old.line rest.now ≡ line_after self.old.line text.now) }
        ensures shorter { IfOk result (λ rest. length rest.now ≤ length text.now) }
        ensures utf8 { IfOk result (λ rest. IsUtf8 rest.now) }
        ensures kept_line { self.new.line ≡ self.old.line }
        ensures kept_format { self.new.format ≡ self.old.format }
    {
        let size = bare_size(text.as_bytes());
        self.out.push_str(&text[..size])?;
        Ok(&text[size..])
    }

    /// Appends a character, escaped if it must be.
    #[tactic(auto, using(crate::proofs::EscapeLemmas::of_character))]
    fn push_character(&mut self, c: char) -> Result<(), AllocError>
        ensures shown { OnOk result (string_bytes self.new.out
            ≡ string_bytes self.old.out ++ escape_text self.old.line (encode_utf8 c)) }
        ensures line { OnOk result (self.new.line ≡ line_after self.old.line (encode_utf8 c)) }
        ensures kept { self.new.format ≡ self.old.format }
    {
        match c {
            '\n' => self.push_line_feed(),
            '<' => self.out.push_str("&lt;"),
            '>' => self.out.push_str("&gt;"),
            '&' => self.out.push_str("&amp;"),
            '"' => self.out.push_str("&quot;"),
            _ => self.out.push(c),
        }
    }

    /// Begins a line, with its anchor. More lines than can be counted count as running out of memory.
    fn push_line_feed(&mut self) -> Result<(), AllocError>
        ensures shown { OnOk result (string_bytes self.new.out
            ≡ string_bytes self.old.out ++ (codes "\n" ++ anchor (self.old.line + 1))) }
        ensures line { OnOk result (self.new.line ≡ self.old.line + 1) }
        ensures kept { self.new.format ≡ self.old.format }
    {
        let Some(line) = self.line.checked_add(1) else {
            return Err(AllocError);
        };
        self.line = line;
        self.out.push_str("\n<a id=L")?;
        write!(self.out, "{line}")?;
        self.out.push_str("></a>")
    }
}

/// Returns how many bytes precede the first byte that is escaped, or the end.
fn bare_size(bytes: &[u8]) -> usize
    ensures within { result ≤ length bytes.now }
    ensures bare { (k : ℕ) → k < result → IsBare (slice_index bytes.now k) }
    ensures stop { result < length bytes.now → slice_index bytes.now result < 128 }
{
    let mut size = 0;
    while size < bytes.len() {
        if is_escaped(bytes[size]) {
            break;
        }
        size += 1;
    }
    size
}

/// Whether the byte is not appended as it is.
fn is_escaped(byte: u8) -> bool
    ensures bare { result ≡ false → IsBare byte }
    ensures ascii { result ≡ true → byte < 128 }
{
    match byte {
        b'\n' | b'<' | b'>' | b'&' | b'"' => true,
        _ => false,
    }
}
