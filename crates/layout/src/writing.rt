//! Writes a stream with chosen gaps.
ghost use Rattle.std.specs.Prelude.{◌≡◌, ◌↔◌, ◌++◌, Err, IfErr, IfOk, OnOk, [], codes, if◌then◌else◌, is_none, true};
ghost use Rattle.std.specs.Prelude.{false, string_bytes};
ghost use Rattle.std.specs.Str.{chars};
ghost use Rattle.lexical.specs.Token.{token_text};
ghost use Rattle.pm_token.specs.Leaf.{name_token};
ghost use Rattle.pm_stream.specs.Delimited.{closing, opening};
ghost use Rattle.pm_stream.specs.Steps.{step_of};
ghost use Rattle.pm_stream.specs.WellSpaced.{IsWellSpaced};
ghost use Rattle.layout.specs.Layout.{IsLayout, event_text};
ghost use Rattle.layout.specs.Writing.{IsNoWrite, ReadsBack, before_of, event_of, front_char, gap_text, held_text};
ghost use Rattle.layout.specs.Writing.{known_gap, option_list, pushed, tree_event};
ghost use Rattle.layout.specs.Written.{IsWritten, Writes, depth_at, depth_past};
ghost use Rattle.layout.specs.declared.errors.LayoutError.TheVariants.{NotWellSpaced};

use crate::errors::LayoutError;
use crate::gaps::{Chooser, Gap, GapContext, fitting, frees_dot, push_gap};
use pm_stream::{Step, TokenStream, TokenTree};
use pm_token::parts::{TextBuilder, is_raw, name_of};
use pm_token::{Delimiter, Ident};
use std::alloc::{AllocError, Global};
use std::io::Write;

/// Returns the tokens of the stream with the gaps that the chooser gives.
///
/// Each gap is written as it is given, with two exceptions. Nothing is written after a Joint mark, and a space is
/// written if the chooser gives nothing and the next token would extend the one before (`must-part`). Whether a dot
/// would extend the digits before it depends on the next gap: `x.0.y` is written if the chooser gives nothing there,
/// and `x.0 . y` if it gives a space after the dot only. So the text is a layout of the stream and reads back to it up
/// to spans, whatever the chooser gives.
///
/// Returns `NotWellSpaced` exactly if the stream isn't `well-spaced`, and `Memory` if memory runs out. The call takes
/// time proportional to the length of the text.
pub fn text_with<C: Chooser>(
    stream: &TokenStream,
    chooser: &mut C,
    alloc: Global,
) -> Result<String, LayoutError>
    ensures written { IfOk result
        (λ text. IsWritten C.gap_gives chooser.old chooser.new stream.now (chars (string_bytes text))) }
    ensures layout { IfOk result (λ text. IsLayout stream.now (chars (string_bytes text))) }
    ensures back { IfOk result (λ text. ReadsBack stream.now (chars (string_bytes text))) }
    ensures refused { (result ≡ Err NotWellSpaced) ↔ (IsWellSpaced stream.now → ⊥) }
    ensures unwritten { IfErr result IsNoWrite }
{
    if !stream.is_well_spaced() {
        return Err(LayoutError::NotWellSpaced);
    }
    let text = laid_out(stream, chooser, alloc)?;
    Ok(text)
}

/// Returns the tokens of a well-spaced stream with the gaps that the chooser gives.
fn laid_out<C: Chooser>(
    stream: &TokenStream,
    chooser: &mut C,
    alloc: Global,
) -> Result<String, AllocError>
    ensures { IfOk result
        (λ text. IsWritten C.gap_gives chooser.old chooser.new stream.now (chars (string_bytes text))) }
{
    let mut text = TextBuilder::with_room(alloc, 0)?;
    let mut steps = stream.steps();
    let mut before = None;
    let mut depth: usize = 0;
    // Whether `before` is a dot that is not written yet.
    let mut held = false;
    while let Some(step) = steps.next()? {
        let place = GapContext {
            before,
            after: Some(step),
            depth: depth_at(depth, step),
        };
        let chosen = chooser.gap(place);
        push_fitting(&mut text, &mut held, before, chosen, step)?;
        depth = depth_past(depth, step);
        before = Some(step);
    }
    let place = GapContext {
        before,
        after: None,
        depth,
    };
    let last = chooser.gap(place);
    push_end(&mut text, held, last)?;
    Ok(text.into_string())
}

/// Writes the step with the gap before it, after the dot that is held back. If the step is a dot whose gap depends on
/// the text after it, this dot is held back instead.
#[inline(always)]
fn push_fitting(
    text: &mut TextBuilder,
    held: &mut bool,
    before: Option<Step<'_>>,
    chosen: Gap,
    step: Step<'_>,
) -> Result<(), AllocError>
    ensures held_back { OnOk result
        (held.new ≡ is_none (known_gap (before_of before.entry) chosen (event_of (step_of step.entry)))) }
    ensures appended { let event = event_of (step_of step.entry) in
        OnOk result (text.new ≡ text.old ++ pushed held.old (known_gap (before_of before.entry) chosen event) event) }
{
    let Some(gap) = fitting(before, chosen, step) else {
        *held = true;
        return Ok(());
    };
    push_held(text, held, gap, step)?;
    push_gap(text, gap)?;
    push_step(text, step)
}

/// Writes the dot that is held back, if there is one, before this gap and step.
#[inline(always)]
fn push_held(
    text: &mut TextBuilder,
    held: &mut bool,
    gap: Gap,
    next: Step<'_>,
) -> Result<(), AllocError>
    ensures held_back { OnOk result (held.new ≡ false) }
    ensures appended { OnOk result
        (text.new ≡ text.old ++ held_text held.old (gap_text gap ++ event_text (event_of (step_of next.entry)))) }
{
    if !*held {
        return Ok(());
    }
    *held = false;
    push_dot(text, gap, next)
}

/// Writes a dot, and a space before it unless this gap and step come after the dot and keep it out of a number.
#[cold]
fn push_dot(text: &mut TextBuilder, gap: Gap, next: Step<'_>) -> Result<(), AllocError>
    ensures { OnOk result
        (text.new ≡ text.old ++ held_text true (gap_text gap ++ event_text (event_of (step_of next.entry)))) }
{
    if frees_dot(gap, next) {
        return text.push('.');
    }
    text.push(' ')?;
    text.push('.')
}

/// Writes the last gap, after the dot that is held back.
fn push_end(text: &mut TextBuilder, held: bool, last: Gap) -> Result<(), AllocError>
    ensures { OnOk result (text.new ≡ text.old ++ ((if held then codes " ." else []) ++ gap_text last)) }
{
    if !held {
        return push_gap(text, last);
    }
    text.push(' ')?;
    text.push('.')?;
    push_gap(text, last)
}

/// Returns the depth of the gap before the step, when `depth` groups are open. A gap before a closer counts as outside
/// the closer's group.
fn depth_at(depth: usize, step: Step<'_>) -> usize
    ensures { result ≡ depth_at depth (step_of step.entry) }
{
    match step {
        Step::Leave(..) => depth.saturating_sub(1),
        _ => depth,
    }
}

/// Returns how many groups are open after the step, when `depth` are open before it.
fn depth_past(depth: usize, step: Step<'_>) -> usize
    ensures { result ≡ depth_past depth (step_of step.entry) }
{
    match step {
        Step::Enter(..) => depth.saturating_add(1),
        Step::Leave(..) => depth.saturating_sub(1),
        Step::Token(..) => depth,
    }
}

/// Writes the token, opener or closer.
#[inline(always)]
fn push_step(text: &mut TextBuilder, step: Step<'_>) -> Result<(), AllocError>
    ensures { OnOk result (text.new ≡ text.old ++ event_text (event_of (step_of step.entry))) }
{
    match step {
        Step::Enter(group, _) => push_mark(text, opener(group.delimiter())),
        Step::Leave(group, _) => push_mark(text, closer(group.delimiter())),
        Step::Token(tree, _) => push_tree(text, tree),
    }
}

/// Writes the token, or the group's opener. Names and literals are appended without a copy in between.
#[inline(always)]
fn push_tree(text: &mut TextBuilder, tree: &TokenTree) -> Result<(), AllocError>
    ensures { OnOk result (text.new ≡ text.old ++ event_text (tree_event tree.now)) }
{
    match tree {
        TokenTree::Group(group) => push_mark(text, opener(group.delimiter())),
        TokenTree::Ident(ident) => push_name(text, ident),
        TokenTree::Punct(punct) => text.push(punct.as_char()),
        TokenTree::Literal(literal) => text.push_text(literal.text()),
    }
}

/// Writes the identifier.
#[inline(always)]
fn push_name(text: &mut TextBuilder, ident: &Ident) -> Result<(), AllocError>
    ensures { OnOk result (text.new ≡ text.old ++ token_text (name_token ident.now)) }
{
    if is_raw(ident) {
        text.push('r')?;
        text.push('#')?;
    }
    text.push_text(name_of(ident))
}

/// Writes the mark of a delimiter, if it has one.
#[inline(always)]
fn push_mark(text: &mut TextBuilder, mark: Option<char>) -> Result<(), AllocError>
    ensures { OnOk result (text.new ≡ text.old ++ option_list mark) }
{
    match mark {
        Some(mark) => text.push(mark),
        None => Ok(()),
    }
}

/// The mark that opens a group, if it has one.
pub(crate) fn opener(delimiter: Delimiter) -> Option<char>
    ensures text { option_list result ≡ opening delimiter }
    ensures first { result ≡ front_char (opening delimiter) }
{
    match delimiter {
        Delimiter::Parenthesis => Some('('),
        Delimiter::Brace => Some('{'),
        Delimiter::Bracket => Some('['),
        Delimiter::None => None,
    }
}

/// The mark that closes a group, if it has one.
pub(crate) fn closer(delimiter: Delimiter) -> Option<char>
    ensures text { option_list result ≡ closing delimiter }
    ensures first { result ≡ front_char (closing delimiter) }
{
    match delimiter {
        Delimiter::Parenthesis => Some(')'),
        Delimiter::Brace => Some('}'),
        Delimiter::Bracket => Some(']'),
        Delimiter::None => None,
    }
}

/// Writes the tokens of the stream with the gaps that the chooser gives, as [`text_with`] returns them.
///
/// Returns `NotWellSpaced` or `Memory`, for the same reasons as [`text_with`], before it writes anything. Returns
/// `Write` if the writer fails: a prefix of the text may have been written then.
pub fn write_with<C: Chooser, W: Write>(
    stream: &TokenStream,
    chooser: &mut C,
    alloc: Global,
    writer: &mut W,
) -> Result<(), LayoutError>
    ensures ok { OnOk result (Writes (IsWritten C.gap_gives chooser.old chooser.new stream.now) stream.now
        (W.contents writer.old) (W.contents writer.new)) }
    ensures refused { (result ≡ Err NotWellSpaced) ↔ (IsWellSpaced stream.now → ⊥) }
    ensures untouched { IfErr result (λ error. error ≡ NotWellSpaced → W.contents writer.new ≡ W.contents writer.old) }
{
    let text = text_with(stream, chooser, alloc)?;
    match writer.write_all(text.as_str().as_bytes()) {
        Ok(()) => Ok(()),
        Err(error) => Err(LayoutError::Write(error)),
    }
}
