//! Classes of characters, and which piece a character can begin.

ghost use Rattle.std.specs.Prelude.{◌≡◌};
ghost use Rattle.lexical.specs.Class.{is_white as white, is_ident_start, is_ident_continue};
ghost use Rattle.lexical.specs.PieceFinder.{piece_start};
ghost use Rattle.lexical.specs.Quick.{byte_starts};

use crate::bytes::{Class, holds};

/// What the first character of a text says about the piece there.
#[derive(Clone, Copy)]
pub enum PieceStart {
    /// A white character.
    White,
    /// A character that may begin an identifier.
    Letter,
    /// A digit from 0 to 9.
    Digit,
    /// One of `(`, `[`, `{`.
    Opener,
    /// One of `)`, `]`, `}`.
    Closer,
    /// `/`, with which a comment may begin.
    Slash,
    /// `'`.
    Quote,
    /// `"`.
    DoubleQuote,
    /// The byte order mark U+FEFF.
    FrontMark,
    /// One of the other marks.
    Mark,
    /// Any other character. No piece begins with it.
    Other,
}

/// Whether the character is white space or one of the two marks of direction, by the rule `white`.
pub fn is_white(c: char) -> bool
    ensures { result ≡ white c }
{
    c.is_whitespace() || c == '\u{200E}' || c == '\u{200F}'
}

/// Whether an identifier may begin with the character, by the rule `identifier-start`.
#[tactic(auto, using(crate::proofs::ClassLemmas::ident_start_ascii))]
pub fn starts_identifier(c: char) -> bool
    ensures { result ≡ is_ident_start c }
{
    if c.is_ascii() {
        return c.is_ascii_alphabetic() | (c == '_');
    }
    unicode_ident::is_xid_start(c) && !is_white(c) && c != '\u{FEFF}'
}

/// Whether an identifier may continue with the character, by the rule `identifier-continue`.
#[tactic(auto, using(crate::proofs::ClassLemmas::ident_continue_ascii))]
pub fn continues_identifier(c: char) -> bool
    ensures { result ≡ is_ident_continue c }
{
    if c.is_ascii() {
        return c.is_ascii_alphanumeric() | (c == '_');
    }
    unicode_ident::is_xid_continue(c)
}

/// Short names for the table below.
const WHITE: PieceStart = PieceStart::White;

const LETTER: PieceStart = PieceStart::Letter;

const DIGIT: PieceStart = PieceStart::Digit;

const OPENER: PieceStart = PieceStart::Opener;

const CLOSER: PieceStart = PieceStart::Closer;

const SLASH: PieceStart = PieceStart::Slash;

const QUOTE: PieceStart = PieceStart::Quote;

const DOUBLE_QUOTE: PieceStart = PieceStart::DoubleQuote;

const MARK: PieceStart = PieceStart::Mark;

const OTHER: PieceStart = PieceStart::Other;

/// What each ASCII byte can begin. A byte past ASCII does not decide it, so its entry is `OTHER`.
#[rattlefmt::skip]
static STARTS: [PieceStart; 256] = [
    OTHER, OTHER, OTHER, OTHER, OTHER, OTHER, OTHER, OTHER,
    OTHER, WHITE, WHITE, WHITE, WHITE, WHITE, OTHER, OTHER,
    OTHER, OTHER, OTHER, OTHER, OTHER, OTHER, OTHER, OTHER,
    OTHER, OTHER, OTHER, OTHER, OTHER, OTHER, OTHER, OTHER,
    WHITE, MARK, DOUBLE_QUOTE, MARK, MARK, MARK, MARK, QUOTE,
    OPENER, CLOSER, MARK, MARK, MARK, MARK, MARK, SLASH,
    DIGIT, DIGIT, DIGIT, DIGIT, DIGIT, DIGIT, DIGIT, DIGIT,
    DIGIT, DIGIT, MARK, MARK, MARK, MARK, MARK, MARK,
    MARK, LETTER, LETTER, LETTER, LETTER, LETTER, LETTER, LETTER,
    LETTER, LETTER, LETTER, LETTER, LETTER, LETTER, LETTER, LETTER,
    LETTER, LETTER, LETTER, LETTER, LETTER, LETTER, LETTER, LETTER,
    LETTER, LETTER, LETTER, OPENER, OTHER, CLOSER, MARK, LETTER,
    OTHER, LETTER, LETTER, LETTER, LETTER, LETTER, LETTER, LETTER,
    LETTER, LETTER, LETTER, LETTER, LETTER, LETTER, LETTER, LETTER,
    LETTER, LETTER, LETTER, LETTER, LETTER, LETTER, LETTER, LETTER,
    LETTER, LETTER, LETTER, OPENER, MARK, CLOSER, MARK, OTHER,
    OTHER, OTHER, OTHER, OTHER, OTHER, OTHER, OTHER, OTHER, OTHER, OTHER, OTHER, OTHER, OTHER, OTHER, OTHER, OTHER,
    OTHER, OTHER, OTHER, OTHER, OTHER, OTHER, OTHER, OTHER, OTHER, OTHER, OTHER, OTHER, OTHER, OTHER, OTHER, OTHER,
    OTHER, OTHER, OTHER, OTHER, OTHER, OTHER, OTHER, OTHER, OTHER, OTHER, OTHER, OTHER, OTHER, OTHER, OTHER, OTHER,
    OTHER, OTHER, OTHER, OTHER, OTHER, OTHER, OTHER, OTHER, OTHER, OTHER, OTHER, OTHER, OTHER, OTHER, OTHER, OTHER,
    OTHER, OTHER, OTHER, OTHER, OTHER, OTHER, OTHER, OTHER, OTHER, OTHER, OTHER, OTHER, OTHER, OTHER, OTHER, OTHER,
    OTHER, OTHER, OTHER, OTHER, OTHER, OTHER, OTHER, OTHER, OTHER, OTHER, OTHER, OTHER, OTHER, OTHER, OTHER, OTHER,
    OTHER, OTHER, OTHER, OTHER, OTHER, OTHER, OTHER, OTHER, OTHER, OTHER, OTHER, OTHER, OTHER, OTHER, OTHER, OTHER,
    OTHER, OTHER, OTHER, OTHER, OTHER, OTHER, OTHER, OTHER, OTHER, OTHER, OTHER, OTHER, OTHER, OTHER, OTHER, OTHER,
];

/// What the first byte of a text says about the piece there. It says nothing if the byte is past ASCII.
#[inline(always)]
pub fn byte_start(byte: u8) -> PieceStart
    ensures { result ≡ byte_starts byte }
{
    STARTS[byte as usize]
}

/// Returns what the first character of a text says about the piece there.
#[tactic(auto, using(crate::proofs::ClassLemmas::start_letter))]
#[inline(always)]
pub fn piece_start_of(c: char) -> PieceStart
    ensures { result ≡ piece_start c }
{
    if holds(Class::IdentifierStart, c) {
        return PieceStart::Letter;
    }
    if holds(Class::White, c) {
        return PieceStart::White;
    }
    if holds(Class::Digit, c) {
        return PieceStart::Digit;
    }
    match c {
        '(' | '[' | '{' => PieceStart::Opener,
        ')' | ']' | '}' => PieceStart::Closer,
        '/' => PieceStart::Slash,
        '\'' => PieceStart::Quote,
        '"' => PieceStart::DoubleQuote,
        '\u{FEFF}' => PieceStart::FrontMark,
        _ if holds(Class::Mark, c) => PieceStart::Mark,
        _ => PieceStart::Other,
    }
}
