//! Which delimiters match each other.
ghost use Rattle.std.specs.Prelude.{◌≡◌, ◌++◌, [], ◌∷◌, IsTrue, List, OnOk, ℕ, if◌then◌else◌, length, slice_set};
ghost use Rattle.highlight.specs.declared.style.Style.TheVariants.{Unclosed};
ghost use Rattle.lexical.specs.Delimiter.{is_closer};
ghost use Rattle.lexical.specs.Found.{kind_of};
ghost use Rattle.highlight.specs.Delimiters.{close_delimiter, closer_of, from_match, spare, still_waiting, styles_past};
ghost use Rattle.highlight.specs.Delimiters.{waiting_past};
ghost use Rattle.highlight.specs.Nesting.{ClosesByCloser, IsAwaited, flag, waiting_of};

use crate::style::Style;
use proc_macro2::PieceKind;
use std::alloc::{AllocError, Global};

/// The delimiters up to some byte offset of a text, with the style of each so far.
#[derive(Drop)]
pub struct Nesting {
    // The style of an opener is `Unclosed` until a closer matches it.
    styles: Vec<Style>,
    // The openers that no closer has matched yet, the innermost last.
    openers: Vec<Opener>,
    awaited: Awaited,
}

/// An opener that waits for its closer.
#[derive(Clone, Copy)]
pub struct Opener {
    closer: char,
    // The number of delimiters before it.
    index: usize,
    around: Awaited,
}

/// The closers for which some opener waits.
#[derive(Clone, Copy)]
pub struct Awaited {
    round: bool,
    square: bool,
    curly: bool,
}

impl Nesting {
    /// Returns the state before the first delimiter.
    pub fn new(alloc: Global) -> Nesting
        ensures styles { result.styles.items ≡ [] }
        ensures waiting { waiting_of result.openers.items ≡ [] }
        ensures awaited { IsAwaited result.awaited result.openers.items }
    {
        Nesting {
            styles: Vec::new(alloc),
            openers: Vec::new(alloc),
            awaited: Awaited {
                round: false,
                square: false,
                curly: false,
            },
        }
    }

    /// Takes the next piece. Only delimiters change anything.
    ///
    /// A closer matches the innermost opener that waits for it. The openers inside that one are never closed.
    #[inline]
    pub fn take(&mut self, kind: PieceKind<'_>) -> Result<(), AllocError>
        requires awaited { IsAwaited self.old.awaited self.old.openers.items }
        requires kind { ClosesByCloser kind }
        ensures styles { OnOk result ((text : List ℕ) → self.new.styles.items
            ≡ styles_past (kind_of kind.entry text) self.old.styles.items (waiting_of self.old.openers.items)) }
        ensures waiting { OnOk result ((text : List ℕ) → waiting_of self.new.openers.items
            ≡ waiting_past (kind_of kind.entry text) self.old.styles.items (waiting_of self.old.openers.items)) }
        ensures awaited { OnOk result (IsAwaited self.new.awaited self.new.openers.items) }
    {
        match kind {
            PieceKind::Opener(opener) => self.open(opener),
            PieceKind::Closer(closer) => self.close(closer),
            _ => Ok(()),
        }
    }

    /// Takes an opener.
    fn open(&mut self, opener: char) -> Result<(), AllocError>
        requires { IsAwaited self.old.awaited self.old.openers.items }
        ensures styles { OnOk result (self.new.styles.items ≡ self.old.styles.items ++ Unclosed ∷ []) }
        ensures waiting { OnOk result (waiting_of self.new.openers.items
            ≡ record { closer = closer_of opener; index = length self.old.styles.items }
            ∷ waiting_of self.old.openers.items) }
        ensures awaited { OnOk result (IsAwaited self.new.awaited self.new.openers.items) }
    {
        let closer = closer_of(opener);
        let around = self.awaited;
        self.openers.push(Opener {
            closer,
            index: self.styles.len(),
            around,
        })?;
        self.awaited = Awaited {
            round: closer == ')' || around.round,
            square: closer == ']' || around.square,
            curly: closer == '}' || around.curly,
        };
        Ok(self.styles.push(Style::Unclosed)?)
    }

    /// Takes a closer.
    fn close(&mut self, closer: char) -> Result<(), AllocError>
        requires awaited { IsAwaited self.old.awaited self.old.openers.items }
        requires closer { IsTrue (is_closer closer) }
        ensures styles { OnOk result (self.new.styles.items
            ≡ close_delimiter self.old.styles.items (from_match closer (waiting_of self.old.openers.items))) }
        ensures waiting { OnOk result (waiting_of self.new.openers.items
            ≡ still_waiting (waiting_of self.old.openers.items)
            (from_match closer (waiting_of self.old.openers.items))) }
        ensures awaited { OnOk result (IsAwaited self.new.awaited self.new.openers.items) }
    {
        let style = self.take_match(closer);
        Ok(self.styles.push(style)?)
    }

    /// Removes the opener that the closer matches and the openers inside it, and returns the style of the pair.
    fn take_match(&mut self, closer: char) -> Style
        requires awaited { IsAwaited self.old.awaited self.old.openers.items }
        requires closer { IsTrue (is_closer closer) }
        ensures styles { self.new.styles.items ++ result ∷ []
            ≡ close_delimiter self.old.styles.items (from_match closer (waiting_of self.old.openers.items)) }
        ensures waiting { waiting_of self.new.openers.items
            ≡ still_waiting (waiting_of self.old.openers.items)
            (from_match closer (waiting_of self.old.openers.items)) }
        ensures awaited { IsAwaited self.new.awaited self.new.openers.items }
    {
        if !self.awaited.has(closer) {
            return Style::StrayCloser;
        }
        while let Some(opener) = self.openers.pop() {
            self.awaited = opener.around;
            if opener.closer == closer {
                let style = Style::Delimiter(self.openers.len());
                set_style(&mut self.styles, opener.index, style);
                return style;
            }
        }
        Style::StrayCloser
    }

    /// Returns the styles of all delimiters. If the text was not read to its end, the waiting openers count as closed,
    /// since their closers may follow.
    pub fn into_styles(self, is_whole: bool) -> Vec<Style>
        ensures { result.items
            ≡ (if is_whole then self.styles.items else spare self.styles.items (waiting_of self.openers.items)) }
    {
        let Nesting {
            mut styles,
            mut openers,
            ..
        } = self;
        if !is_whole {
            while let Some(opener) = openers.pop() {
                set_style(&mut styles, opener.index, Style::Delimiter(openers.len()));
            }
        }
        styles
    }
}

impl Awaited {
    /// Whether some opener waits for the closer.
    fn has(self, closer: char) -> bool
        ensures { result ≡ flag closer self }
    {
        match closer {
            ')' => self.round,
            ']' => self.square,
            _ => self.curly,
        }
    }
}

/// Sets the style at the index, if there is an item at it.
fn set_style(styles: &mut Vec<Style>, index: usize, style: Style)
    ensures { styles.new.items ≡ slice_set styles.old.items index style }
{
    if index < styles.len() {
        styles[index] = style;
    }
}

/// The closer of an opener.
fn closer_of(opener: char) -> char
    ensures { result ≡ closer_of opener }
{
    match opener {
        '(' => ')',
        '[' => ']',
        _ => '}',
    }
}
