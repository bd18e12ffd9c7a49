//! Splits a negative literal into its `-` and its number.
ghost use Rattle.std.specs.Prelude.{◌≡◌, MatchOption, false, true};
ghost use Rattle.pm_token.specs.Negative.{has_minus, minus_of, number_of};

use crate::literals::Literal;
use crate::marks::{Punct, Spacing};

impl Literal {
    /// Splits a negative literal into its `-` and its number. Any other literal is returned whole.
    pub(crate) fn split_minus(self) -> (Option<Punct>, Literal)
        ensures { MatchOption result.0 ((has_minus self.text ≡ false) × (result.1 ≡ self))
            (λ minus. (has_minus self.text ≡ true)
            × (minus ≡ minus_of self) × (result.1 ≡ number_of self)) }
    {
        let Literal { mut text, span } = self;
        if !text.strip_minus() {
            return (None, Literal { text, span });
        }
        let minus = Punct::from_parts('-', Spacing::Alone, span);
        (Some(minus), Literal { text, span })
    }
}
