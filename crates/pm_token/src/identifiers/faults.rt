//! Tests whether a name is valid for an identifier.
ghost use Rattle.std.specs.Prelude.{◌≡◌, ◌==◌, Bool, IsTrue, None, Some, false, length};
ghost use Rattle.std.specs.Str.{chars};
ghost use Rattle.std.specs.List.{list_all};
ghost use Rattle.lexical.specs.Class.{is_ident_continue, is_ident_start};
ghost use Rattle.lexical.specs.Finder.{while_front};
ghost use Rattle.pm_token.specs.IdentFault.{ident_fault, is_name as name_only, is_number as digits_only};
ghost use Rattle.pm_token.specs.IdentFault.{is_plain_continue, is_plain_start};

use lexical::is_reserved;
use std::alloc::AllocError;
use std::error::Error;
use std::fmt;

/// Why a name is not valid for an identifier: the first variant that is true of the name.
#[derive(Debug, Drop, PartialEq, Eq)]
pub enum IdentError {
    /// The name has no characters.
    Empty,
    /// The name has only ASCII digits, such as `255`.
    Number,
    /// The name is not a character that may begin an identifier, followed by characters that may continue one.
    /// An example is `a#`.
    Invalid,
    /// The name is `_`, `super`, `self`, `Self` or `crate`, which a raw identifier can't have.
    Reserved,
    /// Memory ran out. The name is valid.
    Memory(AllocError),
}

impl fmt::Display for IdentError {
    ghost use Rattle.std.specs.Prelude.{Some};
    ghost use Rattle.pm_token.specs.IdentFault.{ident_message};

    ghost output = { λ error. Some (ident_message error) };

    fn fmt<W: fmt::Write>(&self, f: &mut fmt::Formatter<W>) -> fmt::Result {
        match self {
            IdentError::Empty => f.write_str("an identifier has at least one character"),
            IdentError::Number => f.write_str("a number is no identifier"),
            IdentError::Invalid => f.write_str("not a valid identifier"),
            IdentError::Reserved => f.write_str("this name is reserved, and can't be raw"),
            IdentError::Memory(_) => f.write_str("no memory"),
        }
    }
}

impl Error for IdentError {}

impl From<AllocError> for IdentError {
    ghost use Rattle.pm_token.specs.declared.identifiers.faults.IdentError.TheVariants.{Memory};

    ghost from_gives = { λ error result. result ≡ Memory error };

    fn from(error: AllocError) -> IdentError {
        IdentError::Memory(error)
    }
}

/// Returns whether the text has no characters.
fn is_empty(text: &str) -> bool
    ensures { result ≡ (length (chars text.now) == 0) }
{
    text.is_empty()
}

/// Returns whether the text has only ASCII digits.
fn is_number(text: &str) -> bool
    ensures { result ≡ digits_only (chars text.now) }
{
    text.chars().all(|c| c.is_ascii_digit())
}

/// Returns whether an identifier may begin with the character (`identifier-start`).
fn begins_name(c: char) -> bool
    ensures { result ≡ is_ident_start c }
{
    if c != '_' && !unicode_ident::is_xid_start(c) {
        return false;
    }
    !c.is_whitespace() && c != '\u{200E}' && c != '\u{200F}' && c != '\u{FEFF}'
}

/// Returns whether each of the characters may continue an identifier (`identifier-continue`).
fn all_continue(text: &str) -> bool
    ensures { result ≡ list_all is_ident_continue (chars text.now) }
{
    text.chars().all(|c| unicode_ident::is_xid_continue(c))
}

/// Returns whether the whole text is a name.
// This reads each character once, while the lexer's search for the end of a name may read some twice.
#[tactic(auto, using(std::proofs::lemmas::Str::chars_past_char))]
fn is_name(text: &str) -> bool
    ensures { result ≡ name_only (chars text.now) }
{
    let mut rest = text.chars();
    match rest.next() {
        Some(first) => begins_name(first) && all_continue(rest.as_str()),
        None => false,
    }
}

/// Returns whether the byte is an ASCII letter or `_`.
#[inline(always)]
fn begins_plain(byte: u8) -> bool
    ensures { result ≡ is_plain_start byte }
{
    byte.is_ascii_alphabetic() || byte == b'_'
}

/// Short words that make the table below a square.
const NO: bool = false;

const YES: bool = true;

/// For each byte, whether it is an ASCII letter, a digit or `_`.
#[rattlefmt::skip]
static CONTINUES: [bool; 256] = [
    NO, NO, NO, NO, NO, NO, NO, NO, NO, NO, NO, NO, NO, NO, NO, NO,
    NO, NO, NO, NO, NO, NO, NO, NO, NO, NO, NO, NO, NO, NO, NO, NO,
    NO, NO, NO, NO, NO, NO, NO, NO, NO, NO, NO, NO, NO, NO, NO, NO,
    YES, YES, YES, YES, YES, YES, YES, YES, YES, YES, NO, NO, NO, NO, NO, NO,
    NO, YES, YES, YES, YES, YES, YES, YES, YES, YES, YES, YES, YES, YES, YES, YES,
    YES, YES, YES, YES, YES, YES, YES, YES, YES, YES, YES, NO, NO, NO, NO, YES,
    NO, YES, YES, YES, YES, YES, YES, YES, YES, YES, YES, YES, YES, YES, YES, YES,
    YES, YES, YES, YES, YES, YES, YES, YES, YES, YES, YES, NO, NO, NO, NO, NO,
    NO, NO, NO, NO, NO, NO, NO, NO, NO, NO, NO, NO, NO, NO, NO, NO,
    NO, NO, NO, NO, NO, NO, NO, NO, NO, NO, NO, NO, NO, NO, NO, NO,
    NO, NO, NO, NO, NO, NO, NO, NO, NO, NO, NO, NO, NO, NO, NO, NO,
    NO, NO, NO, NO, NO, NO, NO, NO, NO, NO, NO, NO, NO, NO, NO, NO,
    NO, NO, NO, NO, NO, NO, NO, NO, NO, NO, NO, NO, NO, NO, NO, NO,
    NO, NO, NO, NO, NO, NO, NO, NO, NO, NO, NO, NO, NO, NO, NO, NO,
    NO, NO, NO, NO, NO, NO, NO, NO, NO, NO, NO, NO, NO, NO, NO, NO,
    NO, NO, NO, NO, NO, NO, NO, NO, NO, NO, NO, NO, NO, NO, NO, NO,
];

/// Returns whether the byte is an ASCII letter, a digit or `_`.
#[inline(always)]
fn continues_plain(byte: u8) -> bool
    ensures { result ≡ is_plain_continue byte }
{
    CONTINUES[byte as usize]
}

/// Returns how many of the first bytes are ASCII letters, digits or `_`.
#[inline(always)]
fn count_plain(bytes: &[u8]) -> usize
    ensures { result ≡ length (while_front is_plain_continue bytes.now) }
{
    let mut count = 0;
    while count < bytes.len() {
        if !continues_plain(bytes[count]) {
            break;
        }
        count += 1;
    }
    count
}

/// Returns whether the text is a name of ASCII letters, digits and `_`. Other names are left to `other_fault`.
#[inline(always)]
fn is_plain_name(text: &str) -> bool
    ensures { IsTrue result → (ident_fault false (chars text.now) ≡ None) }
{
    let Some((first, rest)) = text.as_bytes().split_first() else {
        return false;
    };
    if !begins_plain(*first) {
        return false;
    }
    count_plain(rest) == rest.len()
}

/// Returns why the name is not valid, if it isn't (`identifier-fault`).
// Most names are ASCII, and one pass over the bytes decides about these.
#[inline(always)]
pub(crate) fn fault(name: &str, raw: bool) -> Option<IdentError>
    ensures { result ≡ ident_fault raw (chars name.now) }
{
    if !raw && is_plain_name(name) {
        return None;
    }
    other_fault(name, raw)
}

/// Does what `fault` does, for any name.
#[inline(never)]
fn other_fault(name: &str, raw: bool) -> Option<IdentError>
    ensures { result ≡ ident_fault raw (chars name.now) }
{
    if !is_name(name) {
        return Some(fault_of_other(name));
    }
    if raw && is_reserved(name) {
        return Some(IdentError::Reserved);
    }
    None
}

/// Returns why a text is not a name.
fn fault_of_other(text: &str) -> IdentError
    requires { name_only (chars text.now) ≡ false }
    ensures { (raw : Bool) → ident_fault raw (chars text.now) ≡ Some result }
{
    if is_empty(text) {
        return IdentError::Empty;
    }
    if is_number(text) {
        return IdentError::Number;
    }
    IdentError::Invalid
}
