//! Finds the end of generic arguments, which are between marks and in no group.
ghost use Rattle.std.specs.Prelude.{◌≡◌, MatchOption, None, Some};
ghost use Rattle.token_buffer.specs.Arguments.{is_text_mark, text_begins_arrow};

use crate::cursor::{Cursor, TokenText};
use pm_token::Spacing;

impl<'a> Cursor<'a> {
    ghost use Rattle.token_buffer.specs.Arguments.{after_arguments, after_turbofish};
    ghost use Rattle.token_buffer.specs.Reads.{left};

    /// Returns the trees after the generic arguments that come first, or `None` if none come first.
    ///
    /// Generic arguments are a `<` and all trees up to its `>`. A `>` closes the last open `<`, unless it is that
    /// of `->`. If more than 4294967295 are open, the result is `None`. The time is proportional to the number of
    /// trees passed.
    ///
    /// `<Vec<T>, fn() -> T> (x)` gives `(x)`. `< (x)` gives `None`.
    pub fn generic_arguments(self) -> Option<Cursor<'a>>
        ensures { MatchOption result (after_arguments (left self.entry) ≡ None)
            (λ rest. after_arguments (left self.entry) ≡ Some (left rest)) }
    {
        let Some(('<', _, inside)) = self.punct() else {
            return None;
        };
        let mut here = inside;
        let mut depth = 0u32;
        let mut arrow = false;
        while let Some((first, after)) = here.next() {
            let begins = begins_arrow(first);
            if is_mark(first, '<') {
                depth = depth.checked_add(1)?;
            } else if is_mark(first, '>') && !arrow {
                if depth == 0 {
                    return Some(after);
                }
                depth -= 1;
            }
            arrow = begins;
            here = after;
        }
        None
    }

    /// Returns the trees after the turbofish that comes first, or `None` if none does. A turbofish is `::` and
    /// [`generic_arguments`](Cursor::generic_arguments).
    ///
    /// `::<T>(x)` gives `(x)`. `::f` gives `None`.
    pub fn turbofish(self) -> Option<Cursor<'a>>
        ensures { MatchOption result (after_turbofish (left self.entry) ≡ None)
            (λ rest. after_turbofish (left self.entry) ≡ Some (left rest)) }
    {
        let Some((':', Spacing::Joint, colon)) = self.punct() else {
            return None;
        };
        let Some((':', _, arguments)) = colon.punct() else {
            return None;
        };
        arguments.generic_arguments()
    }
}

/// Returns whether the tree is this mark.
fn is_mark(text: TokenText<'_>, mark: char) -> bool
    ensures { result ≡ is_text_mark mark text.entry }
{
    matches!(text, TokenText::Punct(found, _) if found == mark)
}

/// Returns whether the tree is a `Joint` `-`.
fn begins_arrow(text: TokenText<'_>) -> bool
    ensures { result ≡ text_begins_arrow text.entry }
{
    matches!(text, TokenText::Punct('-', Spacing::Joint))
}
