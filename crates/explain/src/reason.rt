//! Why a text doesn't parse.

use literal_escaper::EscapeError;

/// Why a text doesn't parse. Each reason has its own definition in `specs/Reason.antt`.
///
/// [`Reason::message`] returns the reason in words, such as `this digit is too large for its number's base`. A table on
/// the page `crates/explain/README.md` has the names and the messages of all reasons.
#[derive(Debug, Drop, PartialEq, Eq)]
pub enum Reason {
    /// A block comment that doesn't end: the `/*` of `/* a`.
    UnclosedComment,
    /// A CR in a doc comment without an LF after it.
    BareReturnInDoc,
    /// A string that doesn't end: the `"` of `"a`.
    UnclosedString,
    /// A raw string that doesn't end: the `r#"` of `r#"a"`.
    UnclosedRawString,
    /// More than 255 hash signs before a raw string.
    TooManyHashes,
    /// Hash signs after `r`, `br` or `cr` with no quote after them, and no name after `r#`: the `~` of `r#~`.
    HashesWithoutQuote,
    /// A name that can't be raw: `r#self`.
    ReservedRawName,
    /// A character or byte that doesn't end: the `'` of `'+`.
    UnclosedCharacter,
    /// The first error in the content of a literal that is closed, by the rules of [`literal_escaper`]: the `q` of
    /// `"\q"`.
    Content(EscapeError),
    /// A lifetime that begins with a digit: `'1a`.
    DigitLifetime,
    /// A hash sign right after a lifetime: the `#` of `'a#`.
    HashAfterLifetime,
    /// No digit after the prefix of a base: `0x`.
    NoDigits,
    /// A digit that is too large for its base: the `2` of `0b12`.
    BadDigit,
    /// A character right after an integer. It can be inside a name, but can't begin one.
    BadNumberEnd,
    /// U+FEFF that isn't at the start of the text.
    MisplacedMark,
    /// A character with which no token begins.
    NoToken,
    /// A closer where no opener is open: the `)` of `a)`.
    StrayCloser,
    /// A closer that doesn't match the innermost opener: the `]` of `(]`.
    MismatchedCloser,
    /// An opener that no closer matches: the `(` of `(a`.
    UnclosedOpener,
}
