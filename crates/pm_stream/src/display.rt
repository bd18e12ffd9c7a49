//! How streams are printed.
//!
//! If memory for the list of open groups runs out, the function calls itself for the group. So it prints the group
//! anyway.
ghost use Rattle.std.specs.Prelude.{◌≡◌, OnOk};
ghost use Rattle.std.specs.Fmt.{WritesOnOk};
ghost use Rattle.std.specs.Str.{encode_utf8_all};
ghost use Rattle.pm_stream.specs.Delimited.{opening, is_brace};
ghost use Rattle.pm_stream.specs.Trees.{forest};
ghost use Rattle.pm_stream.specs.Printed.{printed_after, space};
ghost use Rattle.pm_stream.specs.PrintedTree.{ending, front_text, gap_after_step, gap_within, step_text};
ghost use Rattle.pm_stream.specs.Steps.{step_of};

use crate::steps::{Step, Steps};
use crate::stream::{Group, TokenStream, TokenTree};
use pm_token::{Delimiter, Spacing};
use std::alloc::Global;
use std::fmt;
use std::fmt::Display;

/// Prints the trees, with a space before them if `within`.
fn print_trees<W: fmt::Write>(
    alloc: Global,
    trees: &[TokenTree],
    within: bool,
    f: &mut fmt::Formatter<W>,
) -> fmt::Result
    ensures { WritesOnOk W.write_str_gives f.old result
        (encode_utf8_all (printed_after within (forest trees.now))) f.new }
{
    let mut steps = Steps::new(alloc, trees);
    let mut gap = within;
    loop {
        match steps.next() {
            Ok(None) => return Ok(()),
            Ok(Some(step)) => {
                print_step(step, &mut gap, f)?;
            }
            Err(_) => {
                let Some((group, _)) = steps.pass_over() else {
                    unreachable!();
                };
                let around = group.delimiter();
                print_space(gap, f)?;
                print_opening(around, f)?;
                let inside = group.stream_ref().trees();
                print_trees(alloc, inside, is_brace(around), f)?;
                print_ending(around, f)?;
                gap = true;
            }
        }
    }
}

/// Prints one step, with a space before it if `gap`. Then sets `gap` to whether a space goes before what is printed
/// next.
#[inline(always)]
fn print_step<W: fmt::Write>(
    step: Step<'_>,
    gap: &mut bool,
    f: &mut fmt::Formatter<W>,
) -> fmt::Result
    ensures writes { WritesOnOk W.write_str_gives f.old result
        (encode_utf8_all (step_text gap.old (step_of step.entry))) f.new }
    ensures gap { OnOk result (gap.new ≡ gap_after_step (step_of step.entry)) }
{
    match step {
        Step::Enter(group, _) => {
            let delimiter = group.delimiter();
            print_space(*gap, f)?;
            *gap = is_brace(delimiter);
            print_opening(delimiter, f)
        }
        Step::Leave(group, _) => {
            *gap = true;
            print_ending(group.delimiter(), f)
        }
        Step::Token(tree, _) => {
            print_space(*gap, f)?;
            *gap = gap_within(tree);
            print_front(tree, f)
        }
    }
}

/// Prints a space if `gap`.
fn print_space<W: fmt::Write>(gap: bool, f: &mut fmt::Formatter<W>) -> fmt::Result
    ensures { WritesOnOk W.write_str_gives f.old result (encode_utf8_all (space gap)) f.new }
{
    if gap { f.write_str(" ") } else { Ok(()) }
}

/// Prints a token, or the opener of a group.
fn print_front<W: fmt::Write>(tree: &TokenTree, f: &mut fmt::Formatter<W>) -> fmt::Result
    ensures { WritesOnOk W.write_str_gives f.old result
        (encode_utf8_all (front_text tree.now)) f.new }
{
    match tree {
        TokenTree::Group(group) => print_opening(group.delimiter(), f),
        TokenTree::Ident(ident) => ident.fmt(f),
        TokenTree::Punct(punct) => punct.fmt(f),
        TokenTree::Literal(literal) => literal.fmt(f),
    }
}

/// Prints the opener of a group.
fn print_opening<W: fmt::Write>(delimiter: Delimiter, f: &mut fmt::Formatter<W>) -> fmt::Result
    ensures { WritesOnOk W.write_str_gives f.old result
        (encode_utf8_all (opening delimiter)) f.new }
{
    f.write_str(opener(delimiter))
}

/// Prints the closer of a group, with a space before `}`.
fn print_ending<W: fmt::Write>(delimiter: Delimiter, f: &mut fmt::Formatter<W>) -> fmt::Result
    ensures { WritesOnOk W.write_str_gives f.old result (encode_utf8_all (ending delimiter)) f.new }
{
    f.write_str(closer(delimiter))
}

/// Returns the opener of a group with this delimiter.
pub(crate) fn opener(delimiter: Delimiter) -> &'static str
    ensures { result.now ≡ opening delimiter }
{
    match delimiter {
        Delimiter::Parenthesis => "(",
        Delimiter::Brace => "{",
        Delimiter::Bracket => "[",
        Delimiter::None => "",
    }
}

/// Returns the closer of a group with this delimiter, with a space before `}`.
pub(crate) fn closer(delimiter: Delimiter) -> &'static str
    ensures { result.now ≡ ending delimiter }
{
    match delimiter {
        Delimiter::Parenthesis => ")",
        Delimiter::Brace => " }",
        Delimiter::Bracket => "]",
        Delimiter::None => "",
    }
}

/// Whether the delimiter is `Brace`.
pub(crate) fn is_brace(delimiter: Delimiter) -> bool
    ensures { result ≡ is_brace delimiter }
{
    delimiter == Delimiter::Brace
}

/// Whether a space goes before what is printed next: the first tree inside a group, or the tree after a token.
fn gap_within(tree: &TokenTree) -> bool
    ensures { result ≡ gap_within tree.now }
{
    match tree {
        TokenTree::Group(group) => is_brace(group.delimiter()),
        TokenTree::Punct(punct) => punct.spacing() == Spacing::Alone,
        _ => true,
    }
}

/// Prints the trees by the rule `printed`: one space between two trees, but none after a Joint mark. Groups are printed
/// with their delimiters. Braces have spaces inside, so `{x}` is printed `{ x }` and `{}` is printed `{ }`. Fails only
/// if the writer fails; a part of the text may be written then. If memory runs out, all trees are printed anyway.
impl Display for TokenStream {
    ghost use Rattle.std.specs.Prelude.{Some};
    ghost use Rattle.pm_stream.specs.Printed.{printed};

    ghost output = { λ stream. Some (encode_utf8_all (printed stream)) };

    fn fmt<W: fmt::Write>(&self, f: &mut fmt::Formatter<W>) -> fmt::Result {
        print_trees(self.alloc(), self.trees(), false, f)
    }
}

/// Prints a token, or a group with its delimiters, by the rule `printed`. Fails only if the writer fails.
impl Display for TokenTree {
    ghost use Rattle.std.specs.Prelude.{Some};
    ghost use Rattle.pm_stream.specs.Trees.{alone};
    ghost use Rattle.pm_stream.specs.Printed.{printed};

    ghost output = { λ tree. Some (encode_utf8_all (printed (alone tree))) };

    fn fmt<W: fmt::Write>(&self, f: &mut fmt::Formatter<W>) -> fmt::Result {
        match self {
            TokenTree::Group(group) => group.fmt(f),
            TokenTree::Ident(ident) => ident.fmt(f),
            TokenTree::Punct(punct) => punct.fmt(f),
            TokenTree::Literal(literal) => literal.fmt(f),
        }
    }
}

/// Prints the trees between the delimiters, by the rule `printed`. Of a group without delimiters only the trees are
/// printed. Fails only if the writer fails.
impl Display for Group {
    ghost use Rattle.std.specs.Prelude.{Some};
    ghost use Rattle.pm_stream.specs.PrintedTree.{group_text};

    ghost output = { λ group. Some (encode_utf8_all (group_text group)) };

    fn fmt<W: fmt::Write>(&self, f: &mut fmt::Formatter<W>) -> fmt::Result {
        let delimiter = self.delimiter();
        let stream = self.stream_ref();
        print_opening(delimiter, f)?;
        print_trees(stream.alloc(), stream.trees(), is_brace(delimiter), f)?;
        print_ending(delimiter, f)
    }
}
