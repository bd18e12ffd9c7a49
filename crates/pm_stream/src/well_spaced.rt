//! Whether parsing the printed text of a stream gives the stream again.
//!
//! If memory for the list of open groups runs out, the function calls itself for the group. So it returns an answer
//! anyway.
ghost use Rattle.std.specs.Prelude.{◌≡◌, ◌↔◌, ◌==◌, IsTrue, true};
ghost use Rattle.std.specs.Str.{chars};
ghost use Rattle.lexical.specs.Character.{single_quote};
ghost use Rattle.lexical.specs.Mark.{quotable_fronts};
ghost use Rattle.lexical.specs.Token.{Mark};
ghost use Rattle.lexical.specs.Text.{begins_any, first_passes};
ghost use Rattle.pm_token.specs.Leaf.{mark_token};
ghost use Rattle.pm_stream.specs.Forest.{IsBuilt};
ghost use Rattle.pm_stream.specs.Trees.{forest};
ghost use Rattle.pm_stream.specs.Shown.{is_shown};
ghost use Rattle.pm_stream.specs.SpacedTree.{step_fits, tree_fits};
ghost use Rattle.pm_stream.specs.Steps.{step_of};
ghost use Rattle.pm_stream.specs.WellSpaced.{fits, follows_joint, follows_quote, next_token, well_spaced, IsWellSpaced};

use crate::steps::{Step, Steps};
use crate::stream::{TokenStream, TokenTree};
use lexical::parts::begins;
use pm_token::{Delimiter, Punct, Spacing};
use std::alloc::Global;

impl TokenStream {
    /// Returns whether the stream is `well-spaced`: whether parsing its printed text gives the same stream, up to
    /// spans. Every stream that was parsed from a text is well spaced.
    ///
    /// The answer is right even if memory runs out. The time is proportional to the number of trees. The contract also
    /// says that every stream is `built`.
    ///
    /// The stream of `+` Joint and the identifier `a` is not well spaced. It is printed as `+a`, which parses to `+`
    /// Alone and `a`.
    pub fn is_well_spaced(&self) -> bool
        ensures value { IsTrue result ↔ IsWellSpaced self.now }
        ensures built { IsBuilt self.now }
    {
        are_well_spaced(self.alloc(), self.trees())
    }
}

/// Whether these trees and all trees inside them are well spaced.
fn are_well_spaced(alloc: Global, trees: &[TokenTree]) -> bool
    ensures { result ≡ well_spaced (forest trees.now) }
{
    let mut steps = Steps::new(alloc, trees);
    loop {
        match steps.next() {
            Ok(None) => return true,
            Ok(Some(step)) => {
                if !step_fits(step) {
                    return false;
                }
            }
            Err(_) => {
                let Some((group, _)) = steps.pass_over() else {
                    unreachable!();
                };
                if !is_shown(group.delimiter()) {
                    return false;
                }
                if !are_well_spaced(alloc, group.stream_ref().trees()) {
                    return false;
                }
            }
        }
    }
}

/// Whether the step fits: the group that it enters has delimiters, or its token may come before the trees after it.
fn step_fits(step: Step<'_>) -> bool
    ensures { result ≡ step_fits (step_of step.entry) }
{
    match step {
        Step::Enter(group, _) => is_shown(group.delimiter()),
        Step::Leave(..) => true,
        Step::Token(tree, after) => fits(tree, after),
    }
}

/// Whether the printed text shows where a group with this delimiter begins and ends.
fn is_shown(delimiter: Delimiter) -> bool
    ensures { result ≡ is_shown delimiter }
{
    delimiter != Delimiter::None
}

/// Whether the tree may come before these trees, whatever is inside it.
fn fits(tree: &TokenTree, after: &[TokenTree]) -> bool
    ensures { result ≡ tree_fits tree.now (forest after.now) }
{
    match tree {
        TokenTree::Group(group) => is_shown(group.delimiter()),
        TokenTree::Punct(punct) => mark_fits(punct, after),
        TokenTree::Ident(_) | TokenTree::Literal(_) => true,
    }
}

/// Whether the mark may come before these trees.
fn mark_fits(punct: &Punct, after: &[TokenTree]) -> bool
    ensures { result ≡ fits (mark_token punct.now) (next_token (forest after.now)) }
{
    let mark = punct.as_char();
    match punct.spacing() {
        Spacing::Joint => may_be_joint(mark, after),
        Spacing::Alone => mark != '\'',
    }
}

/// Returns whether this mark may come before these trees with the spacing Joint, in a stream that is `well-spaced`.
///
/// The mark `'` may come before an identifier, or a literal that begins with `b"`, `c"`, `r"`, `br"` or `cr"`. Any
/// other mark may come before a mark with which it begins no comment, or a literal that begins with `'`. With the
/// spacing Alone each mark may come before any tree, except that `'` is never Alone.
///
/// `+` may be Joint before `=`, but not before `a` or at the end.
pub fn may_be_joint(mark: char, after: &[TokenTree]) -> bool
    ensures { result ≡ fits (Mark mark true) (next_token (forest after.now)) }
{
    if mark == '\'' {
        follows_quote(after)
    } else {
        follows_joint(mark, after)
    }
}

/// Whether the first tree may come right after `'`.
fn follows_quote(trees: &[TokenTree]) -> bool
    ensures { result ≡ follows_quote (next_token (forest trees.now)) }
{
    match trees.first() {
        Some(TokenTree::Ident(_)) => true,
        Some(TokenTree::Literal(literal)) => is_quotable(literal.text()),
        _ => false,
    }
}

/// Whether the first tree may come right after this Joint mark, which isn't `'`.
fn follows_joint(mark: char, trees: &[TokenTree]) -> bool
    ensures { result ≡ follows_joint mark (next_token (forest trees.now)) }
{
    match trees.first() {
        Some(TokenTree::Punct(punct)) => mark != '/' || !matches!(punct.as_char(), '/' | '*'),
        Some(TokenTree::Literal(literal)) => begins_with_quote(literal.text()),
        _ => false,
    }
}

/// Whether the text begins as a literal does that may come right after `'`.
fn is_quotable(text: &str) -> bool
    ensures { result ≡ begins_any quotable_fronts (chars text.now) }
{
    begins(text, "b\"")
        || begins(text, "c\"")
        || begins(text, "r\"")
        || begins(text, "br\"")
        || begins(text, "cr\"")
}

/// Whether the text begins with `'`.
#[tactic(auto, using(std::proofs::lemmas::Str::chars_past_char))]
fn begins_with_quote(text: &str) -> bool
    ensures { result ≡ first_passes (λ c. c == single_quote) (chars text.now) }
{
    text.chars().next() == Some('\'')
}
