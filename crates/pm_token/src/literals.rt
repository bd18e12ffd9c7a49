//! Literals.
ghost use Rattle.std.specs.Prelude.{◌≡◌, ◌≤◌, IfOk};
ghost use Rattle.std.specs.Str.{chars};

mod conversion;
mod integers;
mod negative;
mod quoted;
mod subspan;
mod values;
mod whole;

pub use crate::literals::conversion::ConversionErrorKind;
use crate::parts::show_span;
use crate::symbols::Symbol;
use pm_span::Span;
use pm_span::parts::bounds;
use std::alloc::{AllocError, Global};
use std::fmt;
use std::marker::Model;

/// A literal: a string, a character, a byte or a number, kept as its text.
#[derive(Drop)]
pub struct Literal {
    text: Symbol,
    span: Span,
}

impl Model for Literal {
    ghost use Rattle.pm_token.specs.Leaf.{Text};
    ghost use Rattle.pm_token.specs.LiteralText.{IsLiteralText};

    ghost Value = { Text };

    ghost view = { λ literal. record { text = literal.text; span = literal.span } };

    ghost invariant = { λ literal. IsLiteralText literal.text };
}

impl Literal {
    ghost use Rattle.pm_token.specs.LiteralText.{IsLiteralText};

    /// Makes the literal of this text, with this span. Out of memory is the only error.
    #[inline(always)]
    pub(crate) fn from_parts(alloc: Global, text: &str, span: Span) -> Result<Literal, AllocError>
        requires { IsLiteralText (chars text.now) }
        ensures ok { IfOk result (λ literal. literal ≡ record { text = chars text.now; span = span }) }
    {
        Ok(Literal {
            text: Symbol::new(alloc, text)?,
            span,
        })
    }

    /// Returns the literal as it is written, with its quotes, its suffix and a `-` before a negative number.
    ///
    /// This is what `to_string()` gives, without a copy. It is not the value: the text of `"a"` has 3 characters.
    #[inline(always)]
    pub fn text(&self) -> &str
        ensures { chars result.now ≡ self.now.text }
    {
        self.text.as_str()
    }

    /// Returns the literal's span. Its contract also gives what is true of every literal's text: it is a
    /// `literal-token` or, outside of streams, a `negative-literal`.
    pub fn span(&self) -> Span
        ensures value { result ≡ self.now.span }
        ensures built { IsLiteralText self.now.text }
        ensures ordered { self.now.span.lo ≤ self.now.span.hi }
    {
        // This computes nothing. It shows to the proof that the span does not end before it begins.
        bounds(self.span);
        self.span
    }

    /// Sets the literal's span, and changes nothing else.
    pub fn set_span(&mut self, span: Span)
        ensures { self.new ≡ record self.old { span = span } }
    {
        self.span = span;
    }
}

/// Copies the literal with its span. A text of more than 22 bytes is shared, but copied if it begins with `-`.
/// The copy fails if a shared text has more owners than can be counted, or if memory runs out.
impl Clone for Literal {
    ghost use Rattle.pm_token.specs.Kept.{IsShort};

    ghost is_clone = { λ literal copy. copy ≡ literal };

    ghost is_infallible = { λ literal. IsShort literal.text };

    #[inline(always)]
    fn clone(&self) -> Result<Literal, AllocError> {
        Ok(Literal {
            text: self.text.clone()?,
            span: self.span,
        })
    }
}

impl fmt::Display for Literal {
    ghost use Rattle.std.specs.Prelude.{Some};
    ghost use Rattle.std.specs.Str.{encode_utf8_all};
    ghost use Rattle.lexical.specs.Token.{token_text};
    ghost use Rattle.pm_token.specs.Leaf.{text_token};

    ghost output = { λ literal. Some (encode_utf8_all (token_text (text_token literal))) };

    fn fmt<W: fmt::Write>(&self, f: &mut fmt::Formatter<W>) -> fmt::Result {
        self.text.fmt(f)
    }
}

/// Shows the literal as it is written, and its span unless that is 0..0.
impl fmt::Debug for Literal {
    fn fmt<W: fmt::Write>(&self, f: &mut fmt::Formatter<W>) -> fmt::Result {
        let mut debug = f.debug_struct("Literal");
        debug.field("lit", &format_args!("{self}"));
        show_span(&mut debug, self.span);
        debug.finish()
    }
}
