//! Long texts, which are shared by their copies.
ghost use Rattle.std.specs.Prelude.{◌≡◌, ◌<◌, ◌≤◌, IfOk, IsOk, false, length, string_bytes};
ghost use Rattle.std.specs.Rc.{rc_str_bytes};
ghost use Rattle.std.specs.Str.{chars, encode_utf8_all};
ghost use Rattle.pm_token.specs.Negative.{has_minus};
ghost use Rattle.pm_token.specs.declared.symbols.short.TheConstants.{ROOM};

use std::alloc::{AllocError, Global};
use std::rc::RcStr;

/// A text of more than 22 bytes, which its copies share.
#[derive(Drop)]
pub(crate) struct Shared {
    text: RcStr,
    ghost long: { ROOM < length (rc_str_bytes text) },
}

impl Shared {
    /// Copies the text. Out of memory is the only error.
    pub(crate) fn new(alloc: Global, text: &str) -> Result<Shared, AllocError>
        requires { ROOM < length text.now }
        ensures ok { IfOk result (λ shared. rc_str_bytes shared.text ≡ text.now) }
    {
        Ok(Shared {
            text: RcStr::from_str(alloc, text)?,
        })
    }

    /// Takes the text without a copy. Out of memory is the only error.
    pub(crate) fn from_string(text: String) -> Result<Shared, AllocError>
        requires { ROOM < length (string_bytes text) }
        ensures ok { IfOk result (λ shared. rc_str_bytes shared.text ≡ string_bytes text) }
    {
        Ok(Shared {
            text: RcStr::from_string(text)?,
        })
    }

    /// Returns the text.
    #[inline(always)]
    pub(crate) fn as_str(&self) -> &str
        ensures { result.now ≡ rc_str_bytes self.now.text }
    {
        self.text.as_str()
    }

    /// Shares the text. This allocates nothing, and fails if the text has more owners than can be counted.
    #[inline(always)]
    pub(crate) fn share(&self) -> Result<Shared, AllocError>
        ensures ok { IfOk result (λ shared. rc_str_bytes shared.text ≡ rc_str_bytes self.now.text) }
        ensures short { length (encode_utf8_all (chars (rc_str_bytes self.now.text))) ≤ ROOM → IsOk result }
    {
        // This computes nothing. It shows to the proof that the bytes are UTF-8.
        self.text.as_str();
        Ok(Shared {
            text: self.text.clone()?,
        })
    }
}

/// A text of more than 22 bytes that doesn't begin with `-`. Its copies share it.
#[derive(Drop)]
pub(crate) struct Unsigned {
    text: Shared,
    ghost no_minus: { has_minus (chars (rc_str_bytes text.text)) ≡ false },
}

impl Unsigned {
    /// Makes an unsigned text of a long one, which must not begin with `-`.
    pub(crate) fn new(text: Shared) -> Unsigned
        requires { has_minus (chars (rc_str_bytes text.text)) ≡ false }
        ensures { rc_str_bytes result.text.text ≡ rc_str_bytes text.text }
    {
        Unsigned { text }
    }

    /// Returns the text.
    #[inline(always)]
    pub(crate) fn as_str(&self) -> &str
        ensures value { result.now ≡ rc_str_bytes self.now.text.text }
        ensures no_minus { has_minus (chars result.now) ≡ false }
    {
        self.text.as_str()
    }

    /// Shares the text. This allocates nothing, and fails if the text has more owners than can be counted.
    #[inline(always)]
    pub(crate) fn share(&self) -> Result<Unsigned, AllocError>
        ensures ok { IfOk result (λ shared. rc_str_bytes shared.text.text ≡ rc_str_bytes self.now.text.text) }
        ensures short { length (encode_utf8_all (chars (rc_str_bytes self.now.text.text))) ≤ ROOM
            → IsOk result }
    {
        Ok(Unsigned {
            text: self.text.share()?,
        })
    }
}
