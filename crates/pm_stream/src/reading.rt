//! The one loop over the pieces of a text. Delimiters are matched here, and nowhere else.
//!
//! [`read`] passes the tokens of a text, in order, to a [`TokenSink`], which builds trees or something else of them.
ghost use Rattle.std.specs.Prelude.{◌≡◌, ◌≢◌, ◌≤◌, ◌+◌, ◌<◌, ◌^◌, ℕ, Bool, List, [], ◌∷◌, length, reverse, map};
ghost use Rattle.std.specs.Prelude.{IfErr, IfNone, IfOk, IfSome, MatchOption, OnOk, false, true};
ghost use Rattle.std.specs.Str.{chars};
ghost use Rattle.lexical.specs.Found.{IsPieceAt};
ghost use Rattle.lexical.specs.Piece.{HasNoPiece};
ghost use Rattle.lexical.specs.declared.piece.PieceKind.TheVariants as kinds;
ghost use Rattle.pm_stream.specs.Delimited.{delimiter_of};
ghost use Rattle.pm_stream.specs.Fault.{IsFault, IsFaultFor, IsOpenFault, IsStray};
ghost use Rattle.pm_stream.specs.OpenGroups.{FitsInnermost, Opened};
ghost use Rattle.pm_stream.specs.Reading.{CanRead, HasRead, ReadsAll, ReadsTo, openers_of};
ghost use Rattle.pm_stream.specs.Taken.{CanClose, CanOpen, CanPass, CanSkip, CanTake, HasClosed, HasOpened};
ghost use Rattle.pm_stream.specs.Taken.{HasPassed, HasTaken, IsLexed, Taken, Waiting, nothing};

use lexical::{Piece, PieceKind, past_white, piece_at};
use pm_span::Span;
use pm_span::parts::span_of;
use pm_token::parts::fault;
use pm_token::{Delimiter, ParseError};
use std::alloc::{AllocError, Global};

/// A piece of a text, with its position.
#[derive(Clone, Copy)]
pub struct Lexed<'t> {
    /// What kind of piece it is, and its size in bytes and in characters.
    pub piece: Piece<'t>,
    /// The text from the start of the piece to the end of the source.
    pub text: &'t str,
    /// The position of the piece, in characters: the position of the source plus the number of characters before the
    /// piece.
    pub at: u32,
}

impl<'t> Lexed<'t> {
    /// Returns the text of the piece.
    #[inline(always)]
    pub fn own_text(self) -> &'t str
        requires { IsLexed self }
        ensures { (is : IsLexed self.entry) → chars result.now ≡ is.found.front }
    {
        &self.text[..self.piece.bytes]
    }

    /// Returns the span of the piece.
    #[inline(always)]
    pub fn span(self) -> Span
        requires { IsLexed self }
        ensures { (is : IsLexed self.entry)
            → result ≡ record { lo = self.entry.at; hi = self.entry.at + length is.found.front } }
    {
        span_of(self.at, self.at + self.piece.chars as u32)
    }
}

/// Receives the tokens of a text from [`read`], in reading order.
///
/// Each call gets the piece that the token was read from. The text after the piece is `text[piece.bytes..]`, and its
/// position is `at + piece.chars`.
///
/// `opens` gives an open group's delimiter and position. `took` relates a sink to what was read: it holds before each
/// call, and the call preserves it.
pub trait TokenSink {
    /// What the sink keeps of a group until its closer is read.
    type Opened: Drop;

    // The group's delimiter, and the position of its opener.
    ghost opens: { Self.Opened → Waiting };

    // How the sink relates to what was read.
    ghost took: { Self → Taken Self.Opened → Type 0 };

    /// Returns the delimiter of an open group, and the position of its opener.
    fn opener(group: &Self::Opened) -> (Delimiter, u32)
        ensures { result ≡ opens group.now };

    /// Takes a punctuation mark.
    fn mark(&mut self, lexed: Lexed<'_>, joint: bool, mark: char) -> Result<(), AllocError>
        requires { CanTake took self.old lexed (kinds.Mark joint mark) }
        ensures { OnOk result (HasTaken took self.old self.new lexed.entry (kinds.Mark joint mark)) };

    /// Takes an identifier, or a lifetime's name after the mark `'`. `name` is without the `r#` of a raw identifier,
    /// which the text of `lexed` includes.
    fn name(&mut self, lexed: Lexed<'_>, raw: bool, name: &str) -> Result<(), AllocError>
        requires { CanTake took self.old lexed (kinds.Name raw name) }
        ensures { OnOk result (HasTaken took self.old self.new lexed.entry (kinds.Name raw name.entry)) };

    /// Takes a literal, whose text is the text of the piece.
    fn literal(&mut self, lexed: Lexed<'_>) -> Result<(), AllocError>
        requires { CanTake took self.old lexed kinds.Literal }
        ensures { OnOk result (HasTaken took self.old self.new lexed.entry kinds.Literal) };

    /// Takes a doc comment, instead of all the tokens that it expands to. `doc_body` is its text without the comment's
    /// marks.
    fn doc(&mut self, lexed: Lexed<'_>, inner: bool, doc_body: &str) -> Result<(), AllocError>
        requires { CanTake took self.old lexed (kinds.Doc inner doc_body) }
        ensures { OnOk result (HasTaken took self.old self.new lexed.entry (kinds.Doc inner doc_body.entry)) };

    /// Takes a piece that is no token: the front mark, a comment that is no doc comment, or a white character. ASCII
    /// white characters right after a piece are passed to [`white`](TokenSink::white) instead.
    fn gap(&mut self, lexed: Lexed<'_>)
        requires { CanSkip took self.old lexed }
        ensures { HasTaken took self.old self.new lexed.entry kinds.Gap };

    /// Takes the ASCII white characters right after a piece: the first `size` characters of `text`, where `size` may be
    /// 0. It is called after each piece's call. `text` is all of the source after that piece.
    fn white(&mut self, text: &str, size: usize)
        requires { CanPass took self.old (chars text.now) size }
        ensures { HasPassed took self.old self.new (chars text.now) size };

    /// Takes an opener. The value that it returns is passed to `close` with the group's closer.
    fn open(&mut self, lexed: Lexed<'_>, delimiter: Delimiter) -> Result<Self::Opened, AllocError>
        requires { CanOpen took self.old lexed delimiter }
        ensures { IfOk result (HasOpened opens took self.old self.new lexed.entry delimiter) };

    /// Takes the closer of the innermost open group. A closer that does not match that group is a fault, and is not
    /// passed to the sink.
    fn close(
        &mut self,
        lexed: Lexed<'_>,
        delimiter: Delimiter,
        group: Self::Opened,
    ) -> Result<(), AllocError>
        requires { CanClose opens took self.old lexed delimiter group }
        ensures { OnOk result (HasClosed opens took self.old self.new lexed.entry delimiter group) };
}

/// Where reading stopped, and which groups were open there.
#[derive(Drop)]
pub struct Ending<'t, T> {
    /// The text that was not read, which is empty if all was read. Otherwise it begins with the stray closer, or no
    /// piece begins there.
    pub rest: &'t str,
    /// The position where the rest begins.
    pub at: u32,
    /// Whether the rest is the whole text.
    pub first: bool,
    /// The groups that were open, the innermost last.
    pub opened: Vec<T>,
    /// The closer at which reading stopped, if that closer doesn't close the innermost open group.
    pub stray: Option<Piece<'t>>,
}

/// Passes the tokens of a text to the sink, as far as the text can be read.
///
/// The text begins at the position `base`. Reading stops at the end of the text, where no piece begins, or before a
/// closer that doesn't close the innermost open group.
///
/// The call fails if memory runs out, in the sink or for the list of open groups.
#[inline(always)]
pub fn walk<'t, S: TokenSink>(
    alloc: Global,
    base: u32,
    text: &'t str,
    sink: &mut S,
) -> Result<Ending<'t, S::Opened>, AllocError>
    requires room { base + length (chars text.now) < 2 ^ 32 }
    requires starts { S.took sink.old (nothing base (chars text.now)) }
    ensures reads { IfOk result (λ ending. ReadsTo S.opens S.took base (chars text.now) (chars ending.rest.now)
        ending.at ending.first sink.new ending.opened.items) }
    ensures stops { IfOk result (λ ending. MatchOption ending.stray
        (HasNoPiece ending.first (chars ending.rest.now))
        (λ piece. IsPieceAt ending.first (chars ending.rest.now) piece × ((waiting : List Opened)
        → map S.opens (reverse ending.opened.items) ≡ openers_of waiting → IsStray piece.kind waiting))) }
    ensures left { IfOk result (λ ending.
        ending.at + length (chars ending.rest.now) ≡ base + length (chars text.now)) }
{
    let mut opened: Vec<S::Opened> = Vec::new(alloc);
    let mut rest = text;
    let mut at = base;
    // Comparing lengths avoids a flag for the first piece, which would take a register in each loop that inlines this
    // one.
    while let Some(piece) = piece_at(rest, rest.len() == text.len()) {
        let lexed = Lexed {
            piece,
            text: rest,
            at,
        };
        if !take(sink, &mut opened, lexed)? {
            return Ok(Ending {
                rest,
                at,
                first: rest.len() == text.len(),
                opened,
                stray: Some(piece),
            });
        }
        let tail = &rest[piece.bytes..];
        // White characters are gaps. Those of ASCII are skipped all at once.
        let (after, white) = past_white(tail);
        sink.white(tail, white);
        rest = after;
        at += (piece.chars + white) as u32;
    }
    Ok(Ending {
        rest,
        at,
        first: rest.len() == text.len(),
        opened,
        stray: None,
    })
}

/// Passes all tokens of a text that begins at the position `base` to the sink, or fails.
///
/// `Lex` has the position of the fault (`fault`). `Memory` is returned if memory runs out, and `MapFull` never.
#[inline(always)]
pub fn read<S: TokenSink>(
    alloc: Global,
    base: u32,
    text: &str,
    sink: &mut S,
) -> Result<(), ParseError>
    requires room { base + length (chars text.now) < 2 ^ 32 }
    requires starts { S.took sink.old (nothing base (chars text.now)) }
    ensures ok { OnOk result (ReadsAll S.took base (chars text.now) sink.new) }
    ensures lex { IfErr result (IsFault base (chars text.now)) }
{
    let ending = walk(alloc, base, text, sink)?;
    end::<S>(ending.opened, ending.rest, ending.at)
}

/// Passes the piece to the sink and returns `true`. For a closer that doesn't close the innermost open group, does
/// nothing and returns `false`.
#[inline(always)]
fn take<S: TokenSink>(
    sink: &mut S,
    opened: &mut Vec<S::Opened>,
    lexed: Lexed<'_>,
) -> Result<bool, AllocError>
    requires { CanRead S.opens S.took sink.old opened.old.items lexed }
    ensures ok { IfOk result (λ taken. taken ≡ true
        → HasRead S.opens S.took sink.old sink.new opened.old.items opened.new.items lexed.entry) }
    ensures stray { IfOk result (λ taken. taken ≡ false → (sink.new ≡ sink.old) × (opened.new ≡ opened.old)
        × ((waiting : List Opened) → map S.opens (reverse opened.old.items) ≡ openers_of waiting
        → IsStray lexed.entry.piece.kind waiting)) }
    ensures memory { IfErr result (λ _. (waiting : List Opened)
        → map S.opens (reverse opened.old.items) ≡ openers_of waiting → IsStray lexed.entry.piece.kind waiting → ⊥) }
{
    match lexed.piece.kind {
        PieceKind::Opener(c) => {
            let group = sink.open(lexed, delimiter(c))?;
            opened.push(group)?;
        }
        PieceKind::Closer(c) => {
            let delimiter = delimiter(c);
            let Some(group) = innermost::<S>(opened, delimiter) else {
                return Ok(false);
            };
            sink.close(lexed, delimiter, group)?;
        }
        PieceKind::Doc { inner, text } => sink.doc(lexed, inner, text)?,
        PieceKind::Mark { joint, mark } => sink.mark(lexed, joint, mark)?,
        PieceKind::Name { raw, name } => sink.name(lexed, raw, name)?,
        PieceKind::Literal => sink.literal(lexed)?,
        PieceKind::FrontMark | PieceKind::Gap => sink.gap(lexed),
    }
    Ok(true)
}

/// Removes and returns the innermost open group, if it has this delimiter.
fn innermost<S: TokenSink>(opened: &mut Vec<S::Opened>, delimiter: Delimiter) -> Option<S::Opened>
    ensures some { IfSome result (λ group. (reverse opened.old.items ≡ group ∷ reverse opened.new.items)
        × ((S.opens group).0 ≡ delimiter)) }
    ensures none { IfNone result ((opened.new ≡ opened.old) × ((waiting : List Opened)
        → map S.opens (reverse opened.old.items) ≡ openers_of waiting → FitsInnermost delimiter waiting → ⊥)) }
{
    let (other, _) = S::opener(opened.last()?);
    if other != delimiter {
        return None;
    }
    opened.pop()
}

/// Returns `Ok` if all was read and no group is open. Otherwise the fault is where the rest begins, or, if all was
/// read, where the innermost open group begins.
#[inline(never)]
fn end<S: TokenSink>(mut opened: Vec<S::Opened>, rest: &str, at: u32) -> Result<(), ParseError>
    ensures ok { OnOk result ((chars rest.now ≡ []) × (opened.items ≡ [])) }
    ensures stuck { chars rest.now ≢ [] → IfErr result (IsFaultFor at (Unit {0})) }
    ensures stays_open { chars rest.now ≡ [] → IfErr result (λ error. (waiting : List Opened)
        → map S.opens (reverse opened.items) ≡ openers_of waiting → IsOpenFault waiting error) }
{
    if !rest.is_empty() {
        return Err(fault_at(at));
    }
    let Some(group) = opened.pop() else {
        return Ok(());
    };
    let (_, lo) = S::opener(&group);
    Err(fault_at(lo))
}

/// Returns the delimiter whose opener or closer is `c`.
fn delimiter(c: char) -> Delimiter
    ensures { result ≡ delimiter_of c }
{
    match c {
        '(' | ')' => Delimiter::Parenthesis,
        '{' | '}' => Delimiter::Brace,
        _ => Delimiter::Bracket,
    }
}

/// Returns the error for a fault at this position.
fn fault_at(position: u32) -> ParseError
    ensures { result ≡ ParseError.Lex (record { lo = position; hi = position }) }
{
    ParseError::Lex(fault(span_of(position, position)))
}
