//! The calls among tokens.
ghost use Rattle.std.specs.Prelude.{◌≡◌, ◌++◌, ◌∷◌, ◌+◌, ◌<◌, ◌^◌, [], None, Some, true, IfOk, OnOk, MatchOption};
ghost use Rattle.std.specs.Prelude.{length, reverse};
ghost use Rattle.std.specs.Str.{bytes_eq, chars, encode_utf8_all};
ghost use Rattle.lexical.specs.Token as tokens;
ghost use Rattle.pm_token.specs.Leaf.{is_joint};
ghost use Rattle.token_buffer.specs.Arguments.{begins_arrow};
ghost use Rattle.token_buffer.specs.Reads.{left, first_extent};
ghost use Rattle.find_calls.specs.Calls.{calls, is_fn};
ghost use Rattle.find_calls.specs.Opened.{as_call, candidate, inside_turbofish, is_called_at_once, is_in_angle};
ghost use Rattle.find_calls.specs.Opened.{call_spans, past_arrow, Closes, IsNoted, IsOpened, Leaves, Passes};

use pm_span::Span;
use pm_token::{Delimiter, Spacing};
use std::alloc::{AllocError, Global};
use token_buffer::{Cursor, Name, TokenText};

/// The limit of groups and `<` that are open at once. A `TokenBuffer` has fewer tokens.
const DEEPEST: usize = u32::MAX as usize;

/// An occurrence of the name that may be a call.
#[derive(Clone, Copy)]
struct Candidate {
    /// The span of the name.
    span: Span,
    /// Whether the tokens that were read make it a call.
    is_call: bool,
}

/// A group or a `<` that is open around the next tree.
#[derive(Clone, Copy)]
enum Open<'a> {
    /// A group, and the trees after it.
    Group(Cursor<'a>),
    /// A `<` in the turbofish of a candidate. The `<` that begins the turbofish has the index of its candidate.
    Angle(Option<usize>),
}

/// The spans of the names of all calls of this name that the cursor has, those inside groups too, in reading order.
///
/// It takes time in proportion to how many trees there are. Of `f(g!(f(1)))` and the name `f` the spans are 1..2 and
/// 6..7.
pub fn calls(alloc: Global, name: &str, cursor: Cursor<'_>) -> Result<Vec<Span>, AllocError>
    ensures { IfOk result (λ spans. spans.items ≡ calls name.now (left cursor.entry)) }
{
    let found = candidates(alloc, name, cursor)?;
    spans_of_calls(alloc, found.as_slice())
}

/// The spans of those candidates that are calls.
fn spans_of_calls(alloc: Global, found: &[Candidate]) -> Result<Vec<Span>, AllocError>
    ensures { IfOk result (λ spans. spans.items ≡ call_spans found.now) }
{
    let mut spans = Vec::new(alloc);
    for one in found {
        if one.is_call {
            spans.push(one.span)?;
        }
    }
    Ok(spans)
}

/// The candidates for calls of this name that the cursor has, in reading order. Each says whether it is a call.
///
/// It reads every tree once. `opened` has what is open, the innermost last. A `<` is kept there only if it is in the
/// turbofish of a candidate, so `in_arguments` says whether the next `<` or `>` counts.
fn candidates(
    alloc: Global,
    name: &str,
    mut cursor: Cursor<'_>,
) -> Result<Vec<Candidate>, AllocError>
    ensures { IfOk result (λ found. call_spans found.items ≡ calls name.now (left cursor.entry)) }
{
    let mut found = Vec::new(alloc);
    let mut opened = Vec::new(alloc);
    let mut defined = false;
    let mut in_arguments = false;
    loop {
        let follows_fn = defined;
        defined = false;
        let Some((first, after)) = cursor.next() else {
            let Some(next) = leave(cursor, &mut opened) else {
                return Ok(found);
            };
            cursor = next;
            in_arguments = is_in_arguments(opened.as_slice());
            continue;
        };
        match first {
            TokenText::Ident(ident) => {
                defined = is_fn(ident);
                if is_text(ident.text, name) && !follows_fn {
                    if let Some(inside) = note(cursor, after, &mut opened, &mut found)? {
                        cursor = inside;
                        defined = false;
                        in_arguments = true;
                        continue;
                    }
                }
                cursor = after;
            }
            TokenText::Group(_, inside) => {
                open_group(&mut opened, after)?;
                cursor = inside;
                in_arguments = false;
            }
            TokenText::Punct(mark, spacing) if in_arguments => {
                cursor = turn(mark, spacing, after, &mut opened, &mut found)?;
                in_arguments = is_in_arguments(opened.as_slice());
            }
            _ => cursor = after,
        }
    }
}

/// Takes out what is open innermost, at the end of a list, and returns the trees to go on at. Those are the trees after
/// a group. After a `<`, which nothing closes, they are still the end of the list. Returns `None` if nothing is open.
fn leave<'a>(end: Cursor<'a>, opened: &mut Vec<Open<'a>>) -> Option<Cursor<'a>>
    ensures { MatchOption result (reverse opened.old.items ≡ [])
        (λ next. Leaves (left end.entry) (reverse opened.old.items) (left next) (reverse opened.new.items)) }
{
    match opened.pop() {
        None => None,
        Some(Open::Group(after)) => Some(after),
        Some(Open::Angle(_)) => Some(end),
    }
}

/// Whether a `<` is open innermost.
fn is_in_arguments(opened: &[Open<'_>]) -> bool
    ensures { result ≡ is_in_angle (reverse opened.now) }
{
    matches!(opened.last(), Some(Open::Angle(_)))
}

/// Adds the name that comes first to the candidates, if it may be a call. If a turbofish follows the name, opens its
/// `<`, and returns the trees after that.
fn note<'a>(
    here: Cursor<'a>,
    after: Cursor<'a>,
    opened: &mut Vec<Open<'a>>,
    found: &mut Vec<Candidate>,
) -> Result<Option<Cursor<'a>>, AllocError>
    ensures { IfOk result (λ inside. MatchOption inside
        (IsNoted (left here.entry) (left after.entry) opened.old.items found.old.items opened.new.items found.new.items)
        (λ trees. IsOpened (left here.entry) (left after.entry) (left trees)
        opened.old.items found.old.items opened.new.items found.new.items)) }
{
    if let Some(inside) = inside_turbofish(after) {
        open_angle(opened, Some(found.len()))?;
        push(found, here, false)?;
        return Ok(Some(inside));
    }
    if is_called_at_once(after) {
        push(found, here, true)?;
    }
    Ok(None)
}

/// Opens or closes a `<` at this mark in generic arguments, and returns the trees to go on at. The `>` of an arrow
/// closes nothing, so it is passed with its `-`.
fn turn<'a>(
    mark: char,
    spacing: Spacing,
    after: Cursor<'a>,
    opened: &mut Vec<Open<'a>>,
    found: &mut Vec<Candidate>,
) -> Result<Cursor<'a>, AllocError>
    ensures { IfOk result (λ next. is_in_angle (reverse opened.old.items) ≡ true
        → Passes (tokens.Mark mark (is_joint spacing)) (left after.entry) (reverse opened.old.items) found.old.items
        (left next) (reverse opened.new.items) found.new.items) }
{
    if mark == '<' {
        open_angle(opened, None)?;
        return Ok(after);
    }
    if mark == '>' {
        close(after, opened, found);
        return Ok(after);
    }
    if begins_arrow(mark, spacing) {
        return Ok(past_arrow(after));
    }
    Ok(after)
}

/// Whether the mark is a `-` that is joint with the mark after it.
fn begins_arrow(mark: char, spacing: Spacing) -> bool
    ensures { result ≡ begins_arrow (tokens.Mark mark (is_joint spacing)) }
{
    mark == '-' && spacing == Spacing::Joint
}

/// The trees after the `>` that comes first, or all trees if none does.
fn past_arrow(after: Cursor<'_>) -> Cursor<'_>
    ensures { left result ≡ past_arrow (left after.entry) }
{
    match after.next() {
        Some((TokenText::Punct('>', _), rest)) => rest,
        _ => after,
    }
}

/// Opens a group. The trees are those after it.
fn open_group<'a>(opened: &mut Vec<Open<'a>>, after: Cursor<'a>) -> Result<(), AllocError>
    ensures { OnOk result (opened.new.items ≡ opened.old.items ++ Open.Group after.entry ∷ []) }
{
    opened.push(Open::Group(after))?;
    Ok(())
}

/// Opens a `<`. It also returns `AllocError` if `DEEPEST` groups and `<` are open, because the definition of generic
/// arguments has no end for a deeper `<`.
fn open_angle(opened: &mut Vec<Open<'_>>, candidate: Option<usize>) -> Result<(), AllocError>
    ensures opened { OnOk result (opened.new.items ≡ opened.old.items ++ Open.Angle candidate ∷ []) }
    ensures few { OnOk result (length opened.old.items + 1 < 2 ^ 32) }
{
    if opened.len() >= DEEPEST {
        return Err(AllocError);
    }
    opened.push(Open::Angle(candidate))?;
    Ok(())
}

/// Closes the innermost `<`. If it has a candidate, and a group in parentheses follows, the candidate is a call.
fn close<'a>(after: Cursor<'a>, opened: &mut Vec<Open<'a>>, found: &mut Vec<Candidate>)
    ensures { Closes (left after.entry) (reverse opened.old.items) found.old.items
        (reverse opened.new.items) found.new.items }
{
    if let Some(Open::Angle(Some(index))) = opened.pop() {
        if after.group(Delimiter::Parenthesis).is_some() {
            mark_call(found, index);
        }
    }
}

/// Makes the candidate of this index a call.
fn mark_call(found: &mut Vec<Candidate>, index: usize)
    ensures { found.new.items ≡ as_call index found.old.items }
{
    if let Some(candidate) = found.get_mut(index) {
        candidate.is_call = true;
    }
}

/// Adds the first tree to the candidates, if there is one.
fn push(found: &mut Vec<Candidate>, here: Cursor<'_>, is_call: bool) -> Result<(), AllocError>
    ensures { OnOk result (found.new.items ≡ found.old.items ++ candidate is_call (first_extent (left here.entry))) }
{
    if let Some(span) = here.span() {
        found.push(Candidate { span, is_call })?;
    }
    Ok(())
}

/// The trees after the `::<` that comes first, if it does. No `>` need close it.
fn inside_turbofish(after: Cursor<'_>) -> Option<Cursor<'_>>
    ensures { MatchOption result (inside_turbofish (left after.entry) ≡ None)
        (λ inside. inside_turbofish (left after.entry) ≡ Some (left inside)) }
{
    let Some((':', Spacing::Joint, colon)) = after.punct() else {
        return None;
    };
    let Some((':', _, angle)) = colon.punct() else {
        return None;
    };
    let Some(('<', _, inside)) = angle.punct() else {
        return None;
    };
    Some(inside)
}

/// Whether the trees after a name make it a call with no turbofish: a group in parentheses, or `!` and a group.
fn is_called_at_once(after: Cursor<'_>) -> bool
    ensures { result ≡ is_called_at_once (left after.entry) }
{
    match after.next() {
        Some((TokenText::Group(delimiter, _), _)) => delimiter == Delimiter::Parenthesis,
        Some((TokenText::Punct('!', _), arguments)) => arguments.any_group().is_some(),
        _ => false,
    }
}

/// Whether it is the keyword `fn`.
fn is_fn(ident: Name<'_>) -> bool
    ensures { result ≡ is_fn (tokens.Name ident.entry.raw (chars ident.entry.text.now)) }
{
    !ident.raw && is_text(ident.text, "fn")
}

/// Whether the texts are equal.
fn is_text(text: &str, other: &str) -> bool
    ensures { result ≡ bytes_eq (encode_utf8_all (chars text.now)) other.now }
{
    text == other
}
