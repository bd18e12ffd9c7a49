//! Gaps of white space, and the trait of types that choose them.
ghost use Rattle.std.specs.Prelude.{◌≡◌, ◌<◌, ◌++◌, OnOk, ⊤};
ghost use Rattle.std.specs.Str.{chars};
ghost use Rattle.std.specs.Char.{is_ascii_digit};
ghost use Rattle.std.specs.List.{list_all};
ghost use Rattle.lexical.specs.Class.{is_ident_start};
ghost use Rattle.lexical.specs.Number.{bars_dot, is_digit_or_underscore};
ghost use Rattle.lexical.specs.Text.{ends_with, first_passes};
ghost use Rattle.layout.specs.Layout.{event_text, goes_on, is_digits, is_dot, is_joint, parts_literal, parts_name};
ghost use Rattle.layout.specs.Writing.{before_of, event_of, front_char, gap_before_dot, gap_text, known_gap};
ghost use Rattle.layout.specs.Writing.{literal_gap, spaces, tree_event};
ghost use Rattle.layout.specs.Written.{Choice, choice_of};
ghost use Rattle.pm_stream.specs.Steps.{step_of};

use crate::writing::{closer, opener};
use pm_stream::{Step, TokenTree};
use pm_token::Spacing;
use pm_token::parts::{TextBuilder, is_raw, name_of};
use std::alloc::AllocError;

/// White space between two tokens.
#[derive(Clone, Copy)]
pub enum Gap {
    /// No white space.
    Nothing,
    /// One space.
    Space,
    /// A line end and this number of spaces.
    Line(usize),
    /// A line end, an empty line and this number of spaces.
    Blank(usize),
}

/// Where in a stream a gap is, as a chooser sees it.
#[derive(Clone, Copy)]
pub struct GapContext<'a> {
    /// The token, opener or closer before the gap, with the trees that follow it in the same list. `None` at the
    /// beginning of the stream.
    pub before: Option<Step<'a>>,
    /// The token, opener or closer after the gap. `None` at the end of the stream.
    pub after: Option<Step<'a>>,
    /// The number of groups around the gap. A gap before a closer counts as outside the closer's group.
    pub depth: usize,
}

/// Chooses the gaps of a layout.
pub trait Chooser {
    // Relates the chooser before a call, the place with the gap that it gave, and the chooser after it.
    ghost gap_gives: { Self → Choice → Self → Type 0 } = { λ _ _ _. ⊤ };

    /// Returns the gap that the chooser wants at this place. It is called once for each gap of a stream, in order.
    fn gap(&mut self, place: GapContext<'_>) -> Gap
        ensures { gap_gives self.old (choice_of place.entry result) self.new };
}

/// Returns the gap that is written where `chosen` is chosen. Nothing is written after a Joint mark. A space is written
/// if nothing is chosen and the text of the next step would extend the token before. Returns `None` if the step before
/// is a number of digits and the next step is a dot, because the text after the dot then decides.
#[inline(always)]
pub(crate) fn fitting(before: Option<Step<'_>>, chosen: Gap, next: Step<'_>) -> Option<Gap>
    ensures { result ≡ known_gap (before_of before.entry) chosen (event_of (step_of next.entry)) }
{
    let Some(step) = before else {
        return Some(chosen);
    };
    if is_joint(step) {
        return Some(Gap::Nothing);
    }
    let Gap::Nothing = chosen else {
        return Some(chosen);
    };
    if !goes_on(step, next) {
        return Some(Gap::Nothing);
    }
    if is_dot(next) {
        return gap_before_dot(step);
    }
    Some(Gap::Space)
}

/// Whether the step is the mark `.`.
fn is_dot(step: Step<'_>) -> bool
    ensures { result ≡ is_dot (event_of (step_of step.entry)) }
{
    match step {
        Step::Token(TokenTree::Punct(punct), _) => punct.as_char() == '.',
        _ => false,
    }
}

/// Returns the gap between the step and a dot if nothing is chosen, or `None` if the text after the dot decides.
fn gap_before_dot(step: Step<'_>) -> Option<Gap>
    ensures { result ≡ gap_before_dot (event_of (step_of step.entry)) }
{
    match step {
        Step::Token(TokenTree::Literal(literal), _) => literal_gap(literal.text()),
        _ => Some(Gap::Space),
    }
}

/// Returns the gap between the literal of this text and a dot, or `None` if the text after the dot decides.
fn literal_gap(text: &str) -> Option<Gap>
    ensures { result ≡ literal_gap (chars text.now) }
{
    if is_digits(text) {
        return None;
    }
    if ends_with_dot(text) {
        return Some(Gap::Space);
    }
    Some(Gap::Nothing)
}

/// Whether the text is a digit and then only digits and `_`.
fn is_digits(text: &str) -> bool
    ensures { result ≡ is_digits (chars text.now) }
{
    begins_with_digit(text) && is_all_digits(text)
}

/// Whether each character is an ASCII digit or `_`.
fn is_all_digits(text: &str) -> bool
    ensures { result ≡ list_all is_digit_or_underscore (chars text.now) }
{
    text.chars().all(|c| c.is_ascii_digit() || c == '_')
}

/// Whether the text ends with a dot.
fn ends_with_dot(text: &str) -> bool
    ensures { result ≡ ends_with 46 (chars text.now) }
{
    text.ends_with('.')
}

/// Whether a dot before this gap and step belongs to no number: the gap is empty, and a dot or a character that may
/// begin an identifier follows it.
pub(crate) fn frees_dot(gap: Gap, next: Step<'_>) -> bool
    ensures { result ≡ first_passes bars_dot (gap_text gap ++ event_text (event_of (step_of next.entry))) }
{
    let Gap::Nothing = gap else {
        return false;
    };
    begins_with_bar(next)
}

/// Whether the step's text begins with a dot or with a character that may begin an identifier.
fn begins_with_bar(step: Step<'_>) -> bool
    ensures { result ≡ first_passes bars_dot (event_text (event_of (step_of step.entry))) }
{
    match first_of(step) {
        Some(first) => bars_dot(first),
        None => false,
    }
}

/// Whether a dot right before the character belongs to no number.
fn bars_dot(c: char) -> bool
    ensures { result ≡ bars_dot c }
{
    c == '.' || begins_name(c)
}

/// Whether an identifier may begin with the character.
fn begins_name(c: char) -> bool
    ensures { result ≡ is_ident_start c }
{
    if c != '_' && !unicode_ident::is_xid_start(c) {
        return false;
    }
    !c.is_whitespace() && c != '\u{200E}' && c != '\u{200F}' && c != '\u{FEFF}'
}

/// Whether the step is a Joint mark.
#[inline(always)]
fn is_joint(step: Step<'_>) -> bool
    ensures { result ≡ is_joint (event_of (step_of step.entry)) }
{
    match step {
        Step::Token(TokenTree::Punct(punct), _) => punct.spacing() == Spacing::Joint,
        _ => false,
    }
}

/// Whether the text of the next step would extend the token of this step.
#[inline(always)]
fn goes_on(step: Step<'_>, next: Step<'_>) -> bool
    ensures { result ≡ goes_on (event_of (step_of step.entry)) (event_text (event_of (step_of next.entry))) }
{
    let Step::Token(tree, _) = step else {
        return false;
    };
    let Some(first) = first_of(next) else {
        return false;
    };
    match tree {
        TokenTree::Group(_) => false,
        TokenTree::Ident(_) => parts_name(first),
        TokenTree::Punct(_) => lexical::is_mark(first),
        TokenTree::Literal(literal) => parts_literal(literal.text(), first),
    }
}

/// The first character that the step writes.
#[inline(always)]
fn first_of(step: Step<'_>) -> Option<char>
    ensures { result ≡ front_char (event_text (event_of (step_of step.entry))) }
{
    match step {
        Step::Enter(group, _) => opener(group.delimiter()),
        Step::Leave(group, _) => closer(group.delimiter()),
        Step::Token(tree, _) => first_of_tree(tree),
    }
}

/// The first character of a token, or of a group's opener.
#[inline(always)]
fn first_of_tree(tree: &TokenTree) -> Option<char>
    ensures { result ≡ front_char (event_text (tree_event tree.now)) }
{
    match tree {
        TokenTree::Group(group) => opener(group.delimiter()),
        TokenTree::Ident(ident) if is_raw(ident) => Some('r'),
        TokenTree::Ident(ident) => name_of(ident).chars().next(),
        TokenTree::Punct(punct) => Some(punct.as_char()),
        TokenTree::Literal(literal) => literal.text().chars().next(),
    }
}

/// Whether the character right after a name would extend the name, or make a literal or a lifetime of it.
fn parts_name(c: char) -> bool
    ensures { result ≡ parts_name c }
{
    unicode_ident::is_xid_continue(c) || c == '"' || c == '\'' || c == '#'
}

/// Whether the character right after the literal of this text would extend it.
fn parts_literal(text: &str, c: char) -> bool
    ensures { result ≡ parts_literal (chars text.now) c }
{
    if begins_with_digit(text) {
        unicode_ident::is_xid_continue(c) || c == '.' || c == '+' || c == '-'
    } else {
        unicode_ident::is_xid_continue(c)
    }
}

/// Whether a digit begins the text.
fn begins_with_digit(text: &str) -> bool
    ensures { result ≡ first_passes is_ascii_digit (chars text.now) }
{
    match text.chars().next() {
        Some(first) => first.is_ascii_digit(),
        None => false,
    }
}

/// Writes the gap.
#[inline(always)]
pub(crate) fn push_gap(text: &mut TextBuilder, gap: Gap) -> Result<(), AllocError>
    ensures { OnOk result (text.new ≡ text.old ++ gap_text gap) }
{
    match gap {
        Gap::Nothing => Ok(()),
        Gap::Space => text.push(' '),
        Gap::Line(columns) => {
            text.push('\n')?;
            push_spaces(text, columns)
        }
        Gap::Blank(columns) => {
            text.push('\n')?;
            text.push('\n')?;
            push_spaces(text, columns)
        }
    }
}

/// Writes `count` spaces.
fn push_spaces(text: &mut TextBuilder, count: usize) -> Result<(), AllocError>
    ensures { OnOk result (text.new ≡ text.old ++ spaces count) }
{
    let mut left = count;
    while left >= 8 {
        text.push_text("        ")?;
        left -= 8;
    }
    text.push_text(few_spaces(left))
}

/// Returns `count` spaces, which are fewer than eight.
fn few_spaces(count: usize) -> &'static str
    requires { count < 8 }
    ensures { result.now ≡ spaces count }
{
    match count {
        0 => "",
        1 => " ",
        2 => "  ",
        3 => "   ",
        4 => "    ",
        5 => "     ",
        6 => "      ",
        _ => "       ",
    }
}
