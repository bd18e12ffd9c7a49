//! Punctuation marks.
ghost use Rattle.std.specs.Prelude.{◌≡◌, ◌≤◌, ◌∷◌, [], IsTrue};
ghost use Rattle.std.specs.Str.{encode_utf8_all};
ghost use Rattle.lexical.specs.Mark.{is_mark};
ghost use Rattle.pm_span.specs.Extent.{nowhere};
ghost use Rattle.pm_token.specs.Built.{IsBuiltToken};
ghost use Rattle.pm_token.specs.Leaf.{mark_token};

use crate::parts::show_span;
use pm_span::Span;
use pm_span::parts::bounds;
use std::alloc::AllocError;
use std::fmt;
use std::marker::Model;

/// Whether a punctuation mark is joint with what directly follows it.
#[derive(Clone, Copy, Debug, PartialEq, Eq)]
pub enum Spacing {
    /// The mark is not joint. The marks made from a doc comment are also `Alone`.
    Alone,
    /// One of the 22 mark characters directly follows, and no comment begins there (`joint`). Or the mark is
    /// the `'` before its identifier (`lone-quote`). In `+=` the `+` is `Joint`, and in `'a` the `'`.
    Joint,
}

/// A punctuation mark, which is one character (`marks`).
#[derive(Drop)]
pub struct Punct {
    mark: char,
    spacing: Spacing,
    span: Span,
}

impl Model for Punct {
    ghost use Rattle.pm_token.specs.Leaf.{Mark};
    ghost use Rattle.std.specs.Prelude.{IsTrue};
    ghost use Rattle.lexical.specs.Mark.{is_mark};

    ghost Value = { Mark };

    ghost view = { λ punct. record { mark = punct.mark; spacing = punct.spacing; span = punct.span } };

    ghost invariant = { λ punct. IsTrue (is_mark punct.mark) };
}

impl Punct {
    /// Returns whether the character is one of the 22 punctuation marks (`marks`).
    ///
    /// `+` and `'` are punctuation marks; `_`, `(` and `"` are not.
    pub fn is_punct_char(c: char) -> bool
        ensures { result ≡ is_mark c }
    {
        lexical::is_mark(c)
    }

    /// Makes the punctuation mark of this character, with the span 0..0. This allocates nothing.
    ///
    /// The character must be one of the 22 `marks`; [`Punct::is_punct_char`] tests this. The mark of `'+'`
    /// prints as `+`, whatever its spacing.
    #[inline(always)]
    pub fn new(mark: char, spacing: Spacing) -> Punct
        requires { IsTrue (is_mark mark) }
        ensures { result ≡ record { mark = mark; spacing = spacing; span = nowhere } }
    {
        Punct::from_parts(mark, spacing, Span::call_site())
    }

    #[inline(always)]
    pub(crate) fn from_parts(mark: char, spacing: Spacing, span: Span) -> Punct
        requires { IsTrue (is_mark mark) }
        ensures { result ≡ record { mark = mark; spacing = spacing; span = span } }
    {
        Punct {
            mark,
            spacing,
            span,
        }
    }

    /// Returns the mark's character.
    #[inline(always)]
    pub fn as_char(&self) -> char
        ensures { result ≡ self.now.mark }
    {
        self.mark
    }

    /// Returns whether the mark is joint with what directly follows it.
    #[inline(always)]
    pub fn spacing(&self) -> Spacing
        ensures { result ≡ self.now.spacing }
    {
        self.spacing
    }

    /// Returns the mark's span. Its contract also gives what is true of every mark (`built`).
    pub fn span(&self) -> Span
        ensures value { result ≡ self.now.span }
        ensures built { IsBuiltToken (mark_token self.now) }
        ensures ordered { self.now.span.lo ≤ self.now.span.hi }
    {
        // This computes nothing. It shows to the proof that the span does not end before it begins.
        bounds(self.span);
        self.span
    }

    /// Sets the mark's span, and changes nothing else.
    pub fn set_span(&mut self, span: Span)
        ensures { self.new ≡ record self.old { span = span } }
    {
        self.span = span;
    }
}

/// Copies the mark with its span. This allocates nothing.
impl Clone for Punct {
    ghost use Rattle.std.specs.Prelude.{⊤};

    ghost is_clone = { λ punct copy. copy ≡ punct };

    ghost is_infallible = { λ punct. ⊤ };

    #[inline(always)]
    fn clone(&self) -> Result<Punct, AllocError> {
        Ok(Punct {
            mark: self.mark,
            spacing: self.spacing,
            span: self.span,
        })
    }
}

impl fmt::Display for Punct {
    ghost use Rattle.std.specs.Prelude.{Some};
    ghost use Rattle.std.specs.Str.{encode_utf8_all};
    ghost use Rattle.lexical.specs.Token.{token_text};

    ghost output = { λ punct. Some (encode_utf8_all (token_text (mark_token punct))) };

    fn fmt<W: fmt::Write>(&self, f: &mut fmt::Formatter<W>) -> fmt::Result {
        f.write_str(text_of(self.mark))
    }
}

/// Returns the text of a mark.
// A text of one byte is written by one store; a character would have to be encoded first.
#[inline(always)]
fn text_of(mark: char) -> &'static str
    requires { IsTrue (is_mark mark) }
    ensures { result.now ≡ encode_utf8_all (mark ∷ []) }
{
    match mark {
        '~' => "~",
        '!' => "!",
        '@' => "@",
        '#' => "#",
        '$' => "$",
        '%' => "%",
        '^' => "^",
        '&' => "&",
        '*' => "*",
        '-' => "-",
        '=' => "=",
        '+' => "+",
        '|' => "|",
        ';' => ";",
        ':' => ":",
        ',' => ",",
        '<' => "<",
        '.' => ".",
        '>' => ">",
        '/' => "/",
        '?' => "?",
        '\'' => "'",
        _ => unreachable!(),
    }
}

/// Shows the mark, its spacing, and its span unless that is 0..0.
impl fmt::Debug for Punct {
    fn fmt<W: fmt::Write>(&self, f: &mut fmt::Formatter<W>) -> fmt::Result {
        let mut debug = f.debug_struct("Punct");
        debug.field("char", &self.mark);
        debug.field("spacing", &self.spacing);
        show_span(&mut debug, self.span);
        debug.finish()
    }
}
