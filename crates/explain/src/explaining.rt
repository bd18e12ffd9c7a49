//! Finds the reason why a text doesn't parse.
ghost use Rattle.std.specs.Prelude.{◌≡◌, ◌≢◌, ◌≤◌, ◌+◌, ◌<◌, ◌^◌, ◌↔◌, ◌++◌, Bool, Err, List, [], ℕ, IfOk};
ghost use Rattle.std.specs.Prelude.{MatchOption, false, length, true};
ghost use Rattle.std.specs.Str.{chars};
ghost use Rattle.lexical.specs.Found.{IsPieceAt};
ghost use Rattle.lexical.specs.Piece.{HasNoPiece};
ghost use Rattle.pm_span.specs.Files.{Fits, new_map, next_lo};
ghost use Rattle.explain.specs.Explained.{IsExplained, IsStretch, IsStuck, Parses, SaysLeftOpen};
ghost use Rattle.explain.specs.Open.{Loses, WaitsAs, opener_of, refusal, waiting};
ghost use Rattle.explain.specs.Remembered.{Remembers};

use crate::explained::{ExplainError, Explained, Opener, Stretch};
use crate::reason::Reason;
use crate::stuck::reason_at;
use lexical::Piece;
use lexical::parts::TextCursor;
use pm_span::parts::{bounds, fits_new, span_of};
use pm_stream::reading::{Ending, Lexed, TokenSink, walk};
use pm_token::Delimiter;
use std::alloc::{AllocError, Global};

/// Returns why a text doesn't parse, or `None` if it parses.
///
/// The spans are those of a new map whose first file is the text. Fails with `MapFull` exactly if the text doesn't fit
/// a new map, and with `Memory` if memory runs out. Only the list of open delimiters is allocated.
///
/// For `a + 0x;` the reason is `NoDigits`, and `at` is `0x`, the bytes 4..6.
pub fn explain(alloc: Global, text: &str) -> Result<Option<Explained>, ExplainError>
    ensures answer { IfOk result (λ answer. MatchOption answer
        (Parses (next_lo new_map) (chars text.now)) (IsExplained (next_lo new_map) (chars text.now))) }
    ensures map_full { (result ≡ Err ExplainError.MapFull)
        ↔ (Fits new_map (length (chars text.now)) → ⊥) }
    ensures fits { IfOk result (λ answer. Fits new_map (length (chars text.now))) }
{
    let Some(lo) = fits_new(text) else {
        return Err(ExplainError::MapFull);
    };
    Ok(explain_at(alloc, lo, text)?)
}

/// Returns why a text doesn't parse that begins at the position `base`, or `None` if it parses.
fn explain_at(alloc: Global, base: u32, text: &str) -> Result<Option<Explained>, AllocError>
    requires { base + length (chars text.now) < 2 ^ 32 }
    ensures { IfOk result (λ answer. MatchOption answer
        (Parses base (chars text.now)) (IsExplained base (chars text.now))) }
{
    let mut openers = Openers { text };
    let Ending {
        rest,
        at,
        first,
        opened,
        stray,
    } = walk(alloc, base, text, &mut openers)?;
    if let Some(closer) = stray {
        return Ok(Some(explain_closer(text, rest, at, closer, opened)));
    }
    if is_done(rest) {
        return Ok(left_open(opened));
    }
    Ok(Some(stuck(text, rest, at, first, opened)))
}

/// Whether the rest of a text is empty.
fn is_done(rest: &str) -> bool
    ensures done { result ≡ true → chars rest.now ≡ [] }
    ensures more { result ≡ false → chars rest.now ≢ [] }
{
    rest.is_empty()
}

/// A sink that keeps the delimiter and the part of the text of each open opener. It ignores all other tokens.
#[derive(Drop)]
struct Openers<'a> {
    text: &'a str,
}

impl<'a> TokenSink for Openers<'a> {
    type Opened = Opener;

    ghost opens = { λ opener. opener_of opener };

    ghost took = { λ openers taken. Remembers openers taken };

    #[inline(always)]
    fn opener(opener: &Opener) -> (Delimiter, u32)
        ensures { result ≡ opener_of opener.now }
    {
        let (lo, _) = bounds(opener.at.span);
        (opener.delimiter, lo)
    }

    #[inline(always)]
    fn mark(&mut self, _lexed: Lexed<'_>, _joint: bool, _mark: char) -> Result<(), AllocError> {
        Ok(())
    }

    #[inline(always)]
    fn name(&mut self, _lexed: Lexed<'_>, _raw: bool, _name: &str) -> Result<(), AllocError> {
        Ok(())
    }

    #[inline(always)]
    fn literal(&mut self, _lexed: Lexed<'_>) -> Result<(), AllocError> {
        Ok(())
    }

    #[inline(always)]
    fn doc(&mut self, _lexed: Lexed<'_>, _inner: bool, _doc_body: &str) -> Result<(), AllocError> {
        Ok(())
    }

    #[inline(always)]
    fn gap(&mut self, _lexed: Lexed<'_>) {}

    #[inline(always)]
    fn white(&mut self, _text: &str, _size: usize) {}

    #[inline(always)]
    fn open(&mut self, lexed: Lexed<'_>, delimiter: Delimiter) -> Result<Opener, AllocError> {
        let start = self.text.len() - lexed.text.len();
        let at = Stretch {
            start,
            end: start + lexed.piece.bytes,
            span: lexed.span(),
        };
        Ok(Opener { delimiter, at })
    }

    #[inline(always)]
    fn close(
        &mut self,
        _lexed: Lexed<'_>,
        _delimiter: Delimiter,
        _opener: Opener,
    ) -> Result<(), AllocError> {
        Ok(())
    }
}

/// Explains that a closer matches no opener, or not the innermost one. The rest of the text begins with the closer, at
/// the position `at`.
fn explain_closer(text: &str, rest: &str, at: u32, closer: Piece, openers: Vec<Opener>) -> Explained
    requires stands { (first : Bool) × IsPieceAt first (chars rest.now) closer }
    requires text_before { (text_before : List ℕ) × (chars text.now ≡ text_before ++ chars rest.now) }
    requires room { at + closer.chars < 2 ^ 32 }
    ensures before { (base : ℕ) (text_before : List ℕ) → chars text.now ≡ text_before ++ chars rest.now
        → at ≡ base + length text_before → IsStretch base text_before [] result.before }
    ensures at { (base : ℕ) (text_before part after : List ℕ) → chars text.now ≡ text_before ++ chars rest.now
        → at ≡ base + length text_before → chars rest.now ≡ part ++ after → closer.entry.chars ≡ length part
        → IsStretch base text_before part result.at }
    ensures reason { result.reason ≡ refusal result.innermost }
    ensures open { WaitsAs (waiting openers.items) result.innermost result.outer.items }
    ensures kept { Loses openers.items result.innermost result.outer.items }
{
    let tail = &rest[closer.bytes..];
    let end = at + closer.chars as u32;
    let mut outer = openers;
    let innermost = outer.pop();
    let reason = match innermost {
        None => Reason::StrayCloser,
        Some(_) => Reason::MismatchedCloser,
    };
    Explained {
        reason,
        before: stretch(text, rest, rest, at, at),
        at: stretch(text, rest, tail, at, end),
        innermost,
        outer,
    }
}

/// Returns the part of a text from where its rest `from` begins, at the position `lo`, to where its rest `to` begins,
/// at the position `hi`.
pub fn stretch(text: &str, from: &str, to: &str, lo: u32, hi: u32) -> Stretch
    requires from { (front : List ℕ) × (chars text.now ≡ front ++ chars from.now) }
    requires to { (part : List ℕ) × (chars from.now ≡ part ++ chars to.now) }
    requires ordered { lo ≤ hi }
    ensures { (base : ℕ) (front part : List ℕ) → chars text.now ≡ front ++ chars from.now
        → chars from.now ≡ part ++ chars to.now → lo ≡ base + length front → hi ≡ lo + length part
        → IsStretch base front part result }
{
    Stretch {
        start: text.len() - from.len(),
        end: text.len() - to.len(),
        span: span_of(lo, hi),
    }
}

/// Explains that an opener is left open at the end of the text. Returns `None` if none is.
fn left_open(openers: Vec<Opener>) -> Option<Explained>
    ensures { MatchOption result (waiting openers.items ≡ [])
        (λ x. SaysLeftOpen x × WaitsAs (waiting openers.items) x.innermost x.outer.items
        × Loses openers.items x.innermost x.outer.items) }
{
    let mut outer = openers;
    let opener = outer.pop()?;
    let at = opener.at;
    let (lo, _) = bounds(at.span);
    Some(Explained {
        reason: Reason::UnclosedOpener,
        before: Stretch {
            start: at.start,
            end: at.start,
            span: span_of(lo, lo),
        },
        at,
        innermost: Some(opener),
        outer,
    })
}

/// Explains that no piece begins at this rest of a text, which is at the position `at`.
fn stuck(text: &str, rest: &str, at: u32, first: bool, openers: Vec<Opener>) -> Explained
    requires some { chars rest.now ≢ [] }
    requires none { HasNoPiece first (chars rest.now) }
    requires text_before { (text_before : List ℕ) × (chars text.now ≡ text_before ++ chars rest.now) }
    requires room { at + length (chars rest.now) < 2 ^ 32 }
    ensures stuck { (base : ℕ) (text_before : List ℕ) → chars text.now ≡ text_before ++ chars rest.now
        → at ≡ base + length text_before → IsStuck base text_before first (chars rest.now) result }
    ensures open { WaitsAs (waiting openers.items) result.innermost result.outer.items }
    ensures kept { Loses openers.items result.innermost result.outer.items }
{
    let start = TextCursor::new(rest);
    let trouble = reason_at(start, first);
    let lo = at + trouble.at.chars_before as u32;
    let hi = at + trouble.after.chars_before as u32;
    let mut outer = openers;
    let innermost = outer.pop();
    Explained {
        reason: trouble.reason,
        before: stretch(text, rest, trouble.at.rest, at, lo),
        at: stretch(text, trouble.at.rest, trouble.after.rest, lo, hi),
        innermost,
        outer,
    }
}
