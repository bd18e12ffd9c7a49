//! A step over one character that passes a test.
#![tactic(auto, using(crate::proofs::RuleSteps::steps))]

ghost use Rattle.std.specs.Prelude.{◌≡◌, Bool, ℕ};
ghost use Rattle.lexical.specs.Rule.{One, Run};
ghost use Rattle.lexical.specs.RuleMatch.{Passes, Reads};

use crate::cursor::TextCursor;

/// Returns the cursor after one character if the character passes the test, and otherwise `None`.
pub fn one<F: Fn(char) -> bool>(at: TextCursor<'_>, passes: F) -> Option<TextCursor<'_>>
    requires { F.IsAlwaysCallable passes }
    ensures { (test : ℕ → Bool) → ((c : ℕ) (b : Bool) → F.post passes c b → b ≡ test c)
        → Reads (One test) at.entry result }
{
    let (c, after) = at.advance()?;
    if passes(c) { Some(after) } else { None }
}
