//! Identifiers.
ghost use Rattle.std.specs.Prelude.{◌≡◌, ◌≤◌, IfOk};

mod comparisons;
mod faults;

use crate::parts::show_span;
use crate::symbols::Name;
pub use faults::IdentError;
use faults::fault;
use pm_span::Span;
use pm_span::parts::bounds;
use std::alloc::{AllocError, Global};
use std::fmt;
use std::marker::Model;

/// An identifier or a keyword, raw or plain.
///
/// A raw identifier is written with `r#`. Its text has the `r#` too: that of `r#fn` is `r#fn`, and `r#fn` is not equal
/// to the text `fn`.
#[derive(Drop)]
pub struct Ident {
    name: Name,
    span: Span,
}

impl Model for Ident {
    ghost use Rattle.pm_token.specs.Leaf.{Name, name_token};
    ghost use Rattle.pm_token.specs.Built.{IsBuiltToken};
    ghost use Rattle.lexical.specs.Token as tokens;

    ghost Value = { Name };

    ghost view = { λ ident. record { name = ident.name.name; raw = ident.name.raw; span = ident.span } };

    ghost invariant = { λ ident. IsBuiltToken (tokens.Name ident.name.raw ident.name.name) };
}

impl Ident {
    ghost use Rattle.std.specs.Cmp.Lexicographic.{pointwise};
    ghost use Rattle.std.specs.Prelude.{◌↔◌, IsTrue, true, false, get_or, nat_eq};
    ghost use Rattle.std.specs.Str.{chars};
    ghost use Rattle.pm_token.specs.Built.{IsBuiltToken};
    ghost use Rattle.pm_token.specs.IdentFault.{Refuses, ident_fault};
    ghost use Rattle.pm_token.specs.Leaf.{name_token};
    ghost use Rattle.pm_token.specs.Spelling.{name_text, spelled, spelling};
    ghost use Rattle.lexical.specs.Token as tokens;

    /// Makes the identifier of this name, which has no `r#`. Out of memory is the only error.
    #[inline(always)]
    pub(crate) fn from_parts(
        alloc: Global,
        name: &str,
        raw: bool,
        span: Span,
    ) -> Result<Ident, AllocError>
        requires { IsBuiltToken (tokens.Name raw (chars name.now)) }
        ensures ok { IfOk result (λ ident. ident ≡ record { name = chars name.now; raw = raw; span = span }) }
    {
        Ok(Ident {
            name: Name::new(alloc, name, raw)?,
            span,
        })
    }

    /// Drops the identifier field by field, so that a short name need not be written to memory first.
    #[inline(always)]
    pub(crate) fn discard(self) {
        self.name.discard();
    }

    /// Makes the identifier of this name, if the name is valid.
    #[inline(always)]
    fn valid_ident(alloc: Global, name: &str, raw: bool, span: Span) -> Result<Ident, IdentError>
        ensures ok { IfOk result (λ ident. ident ≡ record { name = chars name.now; raw = raw; span = span }) }
        ensures refused { Refuses (ident_fault raw (chars name.now)) result }
    {
        match fault(name, raw) {
            Some(error) => Err(error),
            None => Ok(Ident::from_parts(alloc, name, raw, span)?),
        }
    }

    /// Makes the plain identifier of this name, with this span.
    ///
    /// Keywords are accepted: only a compiler of the printed tokens rejects `fn` as the name of a variable.
    ///
    /// The error is the first that is true of the name (`identifier-fault`). `Empty` means that the name has no
    /// characters, and `Number` that it has only ASCII digits. `Invalid` means that it is not a character that
    /// may begin an identifier, followed by characters that may continue one. `Memory` comes only for a valid
    /// name. `255` is a `Number`, and `r#a` is `Invalid`.
    #[inline(always)]
    pub fn new(alloc: Global, name: &str, span: Span) -> Result<Ident, IdentError>
        ensures ok { IfOk result (λ ident. ident ≡ record { name = chars name.now; raw = false; span = span }) }

        ensures empty { (result ≡ Err IdentError.Empty)
            ↔ (ident_fault false (chars name.now) ≡ Some IdentError.Empty) }
        ensures number { (result ≡ Err IdentError.Number)
            ↔ (ident_fault false (chars name.now) ≡ Some IdentError.Number) }
        ensures invalid { (result ≡ Err IdentError.Invalid)
            ↔ (ident_fault false (chars name.now) ≡ Some IdentError.Invalid) }
        ensures reserved { (result ≡ Err IdentError.Reserved)
            ↔ (ident_fault false (chars name.now) ≡ Some IdentError.Reserved) }
    {
        Ident::valid_ident(alloc, name, false, span)
    }

    /// Makes the raw identifier of this name, which is given without `r#`, with this span.
    ///
    /// The errors are those of [`new`](Ident::new), and then `Reserved` if the name is `_`, `super`, `self`,
    /// `Self` or `crate`. The name `fn` makes `r#fn`.
    #[inline(always)]
    pub fn new_raw(alloc: Global, name: &str, span: Span) -> Result<Ident, IdentError>
        ensures ok { IfOk result (λ ident. ident ≡ record { name = chars name.now; raw = true; span = span }) }

        ensures empty { (result ≡ Err IdentError.Empty)
            ↔ (ident_fault true (chars name.now) ≡ Some IdentError.Empty) }
        ensures number { (result ≡ Err IdentError.Number)
            ↔ (ident_fault true (chars name.now) ≡ Some IdentError.Number) }
        ensures invalid { (result ≡ Err IdentError.Invalid)
            ↔ (ident_fault true (chars name.now) ≡ Some IdentError.Invalid) }
        ensures reserved { (result ≡ Err IdentError.Reserved)
            ↔ (ident_fault true (chars name.now) ≡ Some IdentError.Reserved) }
    {
        Ident::valid_ident(alloc, name, true, span)
    }

    /// Returns whether `text` is how the identifier is written: a raw `a` is written `r#a`, and not `a`.
    ///
    /// If the text is a constant, as in `name.eq_str("fn")`, the clause `spelled` gives a proof that the
    /// identifier is written `fn`: `spelled (codes "fn")` computes to `codes "fn"`.
    #[inline(always)]
    pub fn eq_str(&self, text: &str) -> bool
        ensures exactly { IsTrue result ↔ (name_text self.now ≡ chars text.now) }
        ensures value { result ≡ pointwise nat_eq (name_text self.now) (chars text.now) }

        // These two clauses compute if the text is a constant and ASCII.
        ensures spelled { IsTrue result ↔ (name_text self.now ≡ spelled text.now) }
        ensures computed { result ≡ pointwise nat_eq (name_text self.now) (spelled text.now) }
    {
        // Most identifiers are plain and short. The text comes first, because the compiler often knows its
        // length.
        match self.name.plain_bytes() {
            Some(name) => text.as_bytes() == name,
            None => self.is_written(text),
        }
    }

    /// Does what `eq_str` does, for any identifier.
    #[inline(never)]
    fn is_written(&self, text: &str) -> bool
        ensures exactly { IsTrue result ↔ (name_text self.now ≡ chars text.now) }
        ensures value { result ≡ pointwise nat_eq (name_text self.now) (chars text.now) }
        ensures spelled { IsTrue result ↔ (name_text self.now ≡ spelled text.now) }
        ensures computed { result ≡ pointwise nat_eq (name_text self.now) (spelled text.now) }
    {
        let name = self.name.as_bytes();
        if !self.name.is_raw() {
            return name == text.as_bytes();
        }
        match text.strip_prefix("r#") {
            Some(rest) => name == rest.as_bytes(),
            None => false,
        }
    }

    /// Returns the first byte of the identifier as it is written: `a` for `ab`, and `r` for a raw `ab`.
    ///
    /// A caller that looks for one of many words needs to compare only those that begin with this byte.
    #[inline(always)]
    pub fn first_byte(&self) -> u8
        ensures { result ≡ get_or (spelling self.now) 0 0 }
    {
        if self.name.is_raw() {
            return b'r';
        }
        match self.name.as_bytes().split_first() {
            Some((byte, _)) => *byte,
            None => 0,
        }
    }

    /// Returns the name, without `r#`.
    #[inline(always)]
    pub(crate) fn name(&self) -> &str
        ensures { chars result.now ≡ self.now.name }
    {
        self.name.as_str()
    }

    /// Returns whether the identifier is raw.
    #[inline(always)]
    pub(crate) fn is_raw(&self) -> bool
        ensures { result ≡ self.now.raw }
    {
        self.name.is_raw()
    }

    /// Returns the identifier's span. Its contract also gives what is true of every identifier (`built`).
    pub fn span(&self) -> Span
        ensures value { result ≡ self.now.span }
        ensures built { IsBuiltToken (name_token self.now) }
        ensures ordered { self.now.span.lo ≤ self.now.span.hi }
    {
        let Ident { span, .. } = self;
        // This computes nothing. It shows to the proof that the span does not end before it begins.
        bounds(*span);
        *span
    }

    /// Sets the identifier's span, and changes nothing else.
    pub fn set_span(&mut self, span: Span)
        ensures { self.new ≡ record self.old { span = span } }
    {
        self.span = span;
    }
}

/// Copies the identifier with its span. This allocates nothing, because a name of more than 22 bytes is shared.
/// The copy fails if such a name has more owners than can be counted.
impl Clone for Ident {
    ghost use Rattle.pm_token.specs.Kept.{IsShort};

    ghost is_clone = { λ ident copy. copy ≡ ident };

    ghost is_infallible = { λ ident. IsShort ident.name };

    #[inline(always)]
    fn clone(&self) -> Result<Ident, AllocError> {
        Ok(Ident {
            name: self.name.clone()?,
            span: self.span,
        })
    }
}

impl fmt::Display for Ident {
    ghost use Rattle.std.specs.Prelude.{Some};
    ghost use Rattle.std.specs.Str.{encode_utf8_all};
    ghost use Rattle.lexical.specs.Token.{token_text};
    ghost use Rattle.pm_token.specs.Leaf.{name_token};

    ghost output = { λ ident. Some (encode_utf8_all (token_text (name_token ident))) };

    fn fmt<W: fmt::Write>(&self, f: &mut fmt::Formatter<W>) -> fmt::Result {
        if self.name.is_raw() {
            f.write_str("r#")?;
        }
        self.name.fmt(f)
    }
}

/// Shows the identifier as it is written, and its span unless that is 0..0.
impl fmt::Debug for Ident {
    fn fmt<W: fmt::Write>(&self, f: &mut fmt::Formatter<W>) -> fmt::Result {
        let mut debug = f.debug_struct("Ident");
        debug.field("sym", &format_args!("{self}"));
        show_span(&mut debug, self.span);
        debug.finish()
    }
}
