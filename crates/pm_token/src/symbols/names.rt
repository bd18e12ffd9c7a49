//! The names of identifiers, raw and plain.
ghost use Rattle.std.specs.Prelude.{◌≡◌, ◌↔◌, ◌≤◌, IfOk, IfSome, IsOk, IsTrue, Some, false, length};
ghost use Rattle.std.specs.Rc.{rc_str_bytes};
ghost use Rattle.std.specs.Str.{IsUtf8, chars, encode_utf8_all};
ghost use Rattle.pm_token.specs.Kept.{IsShort, KeptName, is_raw, name_bytes};
ghost use Rattle.pm_token.specs.declared.symbols.short.TheConstants.{ROOM};

use super::shared::Shared;
use super::short::{ROOM, Short};
use std::alloc::{AllocError, Global};
use std::fmt;
use std::marker::Model;

/// A plain or raw name, short or long. With one enum for all four, a name is no larger than a text. Copies of a
/// long name share it.
#[derive(Drop)]
enum NameText {
    Short(Short),
    Long(Shared),
    RawShort(Short),
    RawLong(Shared),
}

impl NameText {
    /// Makes a name with a copy of a short text.
    #[inline(always)]
    fn short(text: &str, raw: bool) -> NameText
        requires { length text.now ≤ ROOM }
        ensures bytes { name_bytes result ≡ text.now }
        ensures raw { is_raw result ≡ raw }
    {
        if raw {
            NameText::RawShort(Short::new(text))
        } else {
            NameText::Short(Short::new(text))
        }
    }

    /// Makes a name of a long text.
    fn long(text: Shared, raw: bool) -> NameText
        ensures bytes { name_bytes result ≡ rc_str_bytes text.text }
        ensures raw { is_raw result ≡ raw }
    {
        if raw {
            NameText::RawLong(text)
        } else {
            NameText::Long(text)
        }
    }
}

/// The name of an identifier without `r#`, and whether it is raw. Contracts speak of its characters.
#[derive(Drop)]
pub struct Name {
    text: NameText,
}

impl Model for Name {
    ghost Value = { KeptName };

    ghost view = { λ name. record { name = chars (name_bytes name.text); raw = is_raw name.text } };
}

impl Name {
    /// Copies the name. Out of memory is the only error.
    #[inline(always)]
    pub fn new(alloc: Global, name: &str, raw: bool) -> Result<Name, AllocError>
        ensures ok { IfOk result (λ kept. kept ≡ record { name = chars name.now; raw = raw }) }
    {
        let text = if name.len() <= ROOM {
            NameText::short(name, raw)
        } else {
            NameText::long(Shared::new(alloc, name)?, raw)
        };
        Ok(Name { text })
    }

    /// Drops the name field by field, so that a short one need not be written to memory first.
    #[inline(always)]
    pub(crate) fn discard(self) {
        match self.text {
            NameText::Short(text) | NameText::RawShort(text) => drop(text),
            NameText::Long(text) | NameText::RawLong(text) => drop(text),
        }
    }

    /// Returns the name, without `r#`.
    #[inline(always)]
    pub fn as_str(&self) -> &str
        ensures { chars result.now ≡ self.now.name }
    {
        match &self.text {
            NameText::Short(name) | NameText::RawShort(name) => name.as_str(),
            NameText::Long(name) | NameText::RawLong(name) => name.as_str(),
        }
    }

    /// Returns the bytes of the name, without `r#`. Names are compared by them.
    #[inline(always)]
    pub fn as_bytes(&self) -> &[u8]
        ensures value { chars result.now ≡ self.now.name }
        ensures utf8 { IsUtf8 result.now }
    {
        match &self.text {
            NameText::Short(name) | NameText::RawShort(name) => name.as_bytes(),
            NameText::Long(name) | NameText::RawLong(name) => name.as_str().as_bytes(),
        }
    }

    /// Returns the bytes of a short plain name, or `None` for any other name.
    #[inline(always)]
    pub fn plain_bytes(&self) -> Option<&[u8]>
        ensures { IfSome result (λ bytes. (chars bytes.now ≡ self.now.name)
            × IsUtf8 bytes.now × (self.now.raw ≡ false)) }
    {
        match &self.text {
            NameText::Short(name) => Some(name.as_bytes()),
            _ => None,
        }
    }

    /// Returns whether both names are the same, and both raw or both plain.
    #[inline(always)]
    pub fn same(&self, other: &Name) -> bool
        ensures { IsTrue result ↔ (self.now ≡ other.now) }
    {
        match (&self.text, &other.text) {
            (NameText::Short(name), NameText::Short(other_name)) => name.same(other_name),
            _ => self.has_same_bytes(other),
        }
    }

    /// Does what `same` does, for any names.
    #[inline(never)]
    fn has_same_bytes(&self, other: &Name) -> bool
        ensures { IsTrue result ↔ (self.now ≡ other.now) }
    {
        self.is_raw() == other.is_raw() && self.as_bytes() == other.as_bytes()
    }

    /// Returns whether the name is raw.
    #[inline(always)]
    pub fn is_raw(&self) -> bool
        ensures { result ≡ self.now.raw }
    {
        match &self.text {
            NameText::Short(_) | NameText::Long(_) => false,
            NameText::RawShort(_) | NameText::RawLong(_) => true,
        }
    }
}

/// Copies the name; a long one is shared. The copy fails if a long name has more owners than can be counted.
impl Clone for Name {
    ghost is_clone = { λ name copy. copy ≡ name };

    ghost is_infallible = { λ name. IsShort name.name };

    #[inline(always)]
    fn clone(&self) -> Result<Name, AllocError> {
        let text = match &self.text {
            NameText::Short(name) => NameText::Short(name.copy()),
            NameText::RawShort(name) => NameText::RawShort(name.copy()),
            NameText::Long(name) => NameText::Long(name.share()?),
            NameText::RawLong(name) => NameText::RawLong(name.share()?),
        };
        Ok(Name { text })
    }
}

impl fmt::Display for Name {
    ghost output = { λ name. Some (encode_utf8_all name.name) };

    fn fmt<W: fmt::Write>(&self, f: &mut fmt::Formatter<W>) -> fmt::Result {
        f.write_str(self.as_str())
    }
}
