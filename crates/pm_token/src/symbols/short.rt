//! Short texts, which are kept in place.
ghost use Rattle.std.specs.Prelude.{◌≡◌, ◌↔◌, ◌≤◌, ◌+◌, ◌++◌, ℕ, List, drop, length, replicate, take, false, true};
ghost use Rattle.std.specs.Prelude.{codes, IfSome, IsTrue, IsUtf8, MatchOption, if◌then◌else◌};
ghost use Rattle.std.specs.Fmt.{decimal};
ghost use Rattle.std.specs.Str.{chars};
ghost use Rattle.pm_token.specs.Negative.{has_minus};
ghost use Rattle.pm_token.specs.declared.symbols.short.TheConstants.{ROOM};

use itoa::write_digits;
use std::marker::Model;
use std::str;

/// The largest number of bytes in a short text. With its length and the tag of an enum it is as long as three
/// pointers.
pub(crate) const ROOM: usize = 22;

/// A text of at most 22 bytes. The bytes after it are zero, so that texts can be compared as whole words.
#[derive(Drop)]
pub(crate) struct Short {
    len: u8,
    bytes: [u8; ROOM],
}

impl Model for Short {
    ghost Value = { List ℕ };

    ghost view = { λ short. take short.len short.bytes };

    ghost invariant = { λ short. (short.len ≤ ROOM) × ∥ IsUtf8 (take short.len short.bytes) ∥₁
        × (drop short.len short.bytes ≡ drop short.len (replicate ROOM 0)) };
}

impl Short {
    /// Copies the text.
    #[inline(always)]
    pub(crate) fn new(text: &str) -> Short
        requires { length text.now ≤ ROOM }
        ensures { result ≡ text.now }
    {
        let mut bytes = [0; ROOM];
        bytes[..text.len()].copy_from_slice(text.as_bytes());
        Short {
            len: text.len() as u8,
            bytes,
        }
    }

    /// Copies both texts, one after the other.
    #[inline(always)]
    pub(crate) fn concatenation(front: &str, back: &str) -> Short
        requires { length front.now + length back.now ≤ ROOM }
        ensures { result ≡ front.now ++ back.now }
    {
        let end = front.len() + back.len();
        let mut bytes = [0; ROOM];
        bytes[..front.len()].copy_from_slice(front.as_bytes());
        bytes[front.len()..end].copy_from_slice(back.as_bytes());
        Short {
            len: end as u8,
            bytes,
        }
    }

    /// Returns a number in decimal digits, after a `-` if it is negative, joined with `suffix`; `None` if this
    /// is too long.
    #[inline(always)]
    pub(crate) fn number(negative: bool, value: u64, suffix: &str) -> Option<Short>
        ensures { IfSome result (λ short.
            short ≡ (if negative then codes "-" else codes "") ++ decimal value ++ suffix.now) }
    {
        let start = usize::from(negative);
        let digits_end = start + count_digits(value);
        if suffix.len() > ROOM - digits_end {
            return None;
        }
        let end = digits_end + suffix.len();
        let mut bytes = [0; ROOM];
        // If the number has no `-`, its first digit overwrites this byte.
        bytes[0] = b'-';
        write_digits(value, &mut bytes, digits_end);
        bytes[digits_end..end].copy_from_slice(suffix.as_bytes());
        Some(Short {
            len: end as u8,
            bytes,
        })
    }

    /// Returns whether both texts are the same.
    #[inline(always)]
    pub(crate) fn same(&self, other: &Short) -> bool
        ensures { IsTrue result ↔ (chars self.now ≡ chars other.now) }
    {
        self.len == other.len && self.bytes == other.bytes
    }

    /// Returns the bytes of the text.
    #[inline(always)]
    pub(crate) fn as_bytes(&self) -> &[u8]
        ensures value { result.now ≡ self.now }
        ensures utf8 { IsUtf8 result.now }
    {
        &self.bytes[..self.len as usize]
    }

    /// Returns the text.
    #[inline(always)]
    pub(crate) fn as_str(&self) -> &str
        ensures value { result.now ≡ self.now }
        ensures fits { length result.now ≤ ROOM }
    {
        // By the invariant the bytes are UTF-8, so this need not be tested again.
        unsafe { str::from_utf8_unchecked(&self.bytes[..self.len as usize]) }
    }

    /// Removes the `-` that the text begins with, and returns whether there was one.
    pub(crate) fn strip_minus(&mut self) -> bool
        ensures found { result ≡ has_minus (chars self.old) }
        ensures rest { chars self.new ≡ (if result then drop 1 (chars self.old) else chars self.old) }
    {
        let Some(rest) = past_minus(self.as_str()) else {
            return false;
        };
        *self = Short::new(rest);
        true
    }

    /// Copies the text.
    #[inline(always)]
    pub(crate) fn copy(&self) -> Short
        ensures { result ≡ self.now }
    {
        Short {
            len: self.len,
            bytes: self.bytes,
        }
    }
}

/// Returns how many decimal digits the number has.
#[inline(always)]
fn count_digits(value: u64) -> usize
    ensures { result ≡ length (decimal value) }
{
    if value == 0 {
        return 1;
    }
    value.ilog10() as usize + 1
}

/// Returns the text after the `-` that it begins with, or `None` if it begins otherwise.
#[tactic(auto, using(std::proofs::lemmas::Str::chars_past_char))]
fn past_minus(text: &str) -> Option<&str>
    ensures found { MatchOption result (has_minus (chars text.now) ≡ false)
        (λ rest. (has_minus (chars text.now) ≡ true) × (chars rest.now ≡ drop 1 (chars text.now))) }
    ensures fits { IfSome result (λ rest. length rest.now ≤ length text.now) }
{
    let mut rest = text.chars();
    match rest.next() {
        Some('-') => Some(rest.as_str()),
        _ => None,
    }
}
