//! Findings: what is reported about a text, and where.
ghost use Rattle.std.specs.Prelude.{◌≡◌, ◌+◌, ◌<◌, ◌^◌, encode_utf8, length};
ghost use Rattle.rust_check.specs.TextPosition.{front, place_after};

/// A position in a text.
#[derive(Clone, Copy, Debug, PartialEq, Eq)]
pub struct TextPosition {
    /// The line, counted from 1.
    pub line: usize,
    /// The number of characters before it on its line.
    pub column: usize,
    /// The number of bytes before it in the text.
    pub begin: usize,
}

impl TextPosition {
    /// Returns the position at which a text begins.
    pub fn front() -> TextPosition
        ensures { result ≡ front }
    {
        TextPosition {
            line: 1,
            column: 0,
            begin: 0,
        }
    }

    /// Returns the position after the character `c`, if `c` is at this position. A new line begins after LF.
    pub fn after(self, c: char) -> TextPosition
        requires line { self.line + 1 < 2 ^ 64 }
        requires column { self.column + 1 < 2 ^ 64 }
        requires begin { self.begin + length (encode_utf8 c) < 2 ^ 64 }
        ensures { result ≡ place_after self c }
    {
        let begin = self.begin + c.len_utf8();
        if c == '\n' {
            TextPosition {
                line: self.line + 1,
                column: 0,
                begin,
            }
        } else {
            TextPosition {
                line: self.line,
                column: self.column + 1,
                begin,
            }
        }
    }
}

/// Something that is reported about a text, and where it is.
#[derive(Clone, Copy)]
pub struct Finding<'a> {
    /// A short name for the kind of finding.
    pub name: &'static str,
    /// What it is, in a few words.
    pub says: &'static str,
    /// Where it begins.
    pub place: TextPosition,
    /// The text before it on its line.
    pub front: &'a str,
    /// The text that it is about.
    pub here: &'a str,
    /// The text from where it begins up to the end.
    pub rest: &'a str,
}
