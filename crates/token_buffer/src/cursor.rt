//! Cursors over the trees of a buffer.
ghost use Rattle.std.specs.Prelude.{◌≡◌, ◌≢◌, MatchOption, IfSome, IfNone, false, true};
ghost use Rattle.std.specs.Str.{chars};
ghost use Rattle.pm_token.specs.Leaf.{is_joint};
ghost use Rattle.pm_stream.specs.Forest.{IsBuilt, nil};
ghost use Rattle.pm_stream.specs.Size.{is_nil};
ghost use Rattle.token_buffer.specs.Entries.{closer_end};
ghost use Rattle.token_buffer.specs.Left.{trees_of, HoldsOwn, HoldsOwn-prop};

use crate::entry::Entry;
use pm_span::Span;
use pm_span::parts::{char_count, span_of};
use pm_token::{Delimiter, Spacing};

/// The remaining trees of a buffer, or of a group in it. A cursor is cheap to copy, and lends the texts of its
/// tokens.
///
/// A reader goes on with the cursors that the calls return, and backs up with an older one. Each call takes
/// constant time and allocates nothing, unless its comment says otherwise.
#[derive(Clone, Copy)]
pub struct Cursor<'a> {
    pub(crate) text: &'a str,
    pub(crate) entries: &'a [Entry],
    ghost holds: { HoldsOwn text.now entries.now } by { HoldsOwn-prop text.now entries.now },
    ghost built: { ∥ IsBuilt (trees_of text.now entries.now) ∥₁ },
}

/// An identifier.
#[derive(Clone, Copy)]
pub struct Name<'a> {
    /// Whether it is written with `r#`.
    pub raw: bool,
    /// The name, without `r#`.
    pub text: &'a str,
}

/// The text of a literal.
#[derive(Clone, Copy)]
pub enum LiteralText<'a> {
    /// The literal as it is written.
    Source(&'a str),
    /// The text of a doc comment. The literal is the string of this text (`string-text`), which is not in the
    /// source.
    Doc(&'a str),
}

/// A token by its text, or a group.
#[derive(Clone, Copy)]
pub enum TokenText<'a> {
    /// An identifier.
    Ident(Name<'a>),
    /// A mark.
    Punct(char, Spacing),
    /// A literal.
    Literal(LiteralText<'a>),
    /// A group, and a cursor over its trees.
    Group(Delimiter, Cursor<'a>),
}

impl<'a> Cursor<'a> {
    ghost use Rattle.lexical.specs.Token as tokens;
    ghost use Rattle.token_buffer.specs.Reads.{left, Begins, BeginsWith, BeginsWithGroup, literal_text};
    ghost use Rattle.token_buffer.specs.Reads.{name_first, mark_first, literal_first, lifetime_first, group_first};
    ghost use Rattle.token_buffer.specs.Reads.{first_extent};

    /// Makes the cursor over the trees of these entries.
    pub(crate) fn over(text: &'a str, entries: &'a [Entry]) -> Cursor<'a>
        requires holds { HoldsOwn text.now entries.now }
        requires built { IsBuilt (trees_of text.now entries.now) }
        ensures { left result ≡ trees_of text.now entries.now }
    {
        Cursor { text, entries }
    }

    /// Returns whether no tree is left.
    pub fn eof(self) -> bool
        ensures { result ≡ is_nil (left self.entry) }
    {
        self.entries.is_empty()
    }

    /// Returns the first tree and a cursor over the trees after it, or `None` at the end.
    ///
    /// In `a (b)` the first tree is the identifier `a`, and the group is left.
    #[inline(always)]
    pub fn next(self) -> Option<(TokenText<'a>, Cursor<'a>)>
        ensures { MatchOption result (left self.entry ≡ nil) (λ found. Begins found.0 self.entry found.1) }
    {
        let text = self.text;
        let Some((entry, entries)) = self.entries.split_first() else {
            return None;
        };
        match *entry {
            Entry::Name { raw, lo, hi, at } => {
                let _ = at;
                let name = Name {
                    raw,
                    text: &text[lo as usize..hi as usize],
                };
                Some((TokenText::Ident(name), Cursor { text, entries }))
            }
            Entry::Mark {
                joint,
                mark,
                at,
                end,
            } => {
                let _ = at;
                let _ = end;
                Some((
                    TokenText::Punct(mark, spacing(joint)),
                    Cursor { text, entries },
                ))
            }
            Entry::Literal { lo, hi, at } => {
                let _ = at;
                let literal = LiteralText::Source(&text[lo as usize..hi as usize]);
                Some((TokenText::Literal(literal), Cursor { text, entries }))
            }
            Entry::Open {
                delimiter,
                at,
                count,
            } => {
                let _ = at;
                let (inside, _) = entries.split_at(count as usize);
                let (_, after) = entries.split_at(count as usize + 1);
                let inside = Cursor {
                    text,
                    entries: inside,
                };
                let after = Cursor {
                    text,
                    entries: after,
                };
                Some((TokenText::Group(delimiter, inside), after))
            }
            Entry::Close { delimiter, end } => {
                let _ = delimiter;
                let _ = end;
                unreachable!()
            }
            Entry::DocName { at, end } => {
                let _ = at;
                let _ = end;
                let name = Name {
                    raw: false,
                    text: "doc",
                };
                Some((TokenText::Ident(name), Cursor { text, entries }))
            }
            Entry::DocText {
                closing,
                lo,
                hi,
                at,
            } => {
                let _ = closing;
                let _ = at;
                let literal = LiteralText::Doc(&text[lo as usize..hi as usize]);
                Some((TokenText::Literal(literal), Cursor { text, entries }))
            }
        }
    }

    /// Returns a cursor over the trees after the first one, or `None` at the end. The first tree may be a group.
    pub fn skip(self) -> Option<Cursor<'a>>
        ensures none { IfNone result (left self.entry ≡ nil) }
        ensures some { IfSome result (λ rest. (first : TokenText) × Begins first self.entry rest) }
    {
        let (_, rest) = self.next()?;
        Some(rest)
    }

    /// Returns the span of the first tree, or `None` at the end.
    ///
    /// The span is in characters, and that of a group includes its delimiters. The time is proportional to the
    /// text's length if the tree is an identifier or a literal, and else constant. In a text `(b)` the span is
    /// 1..4.
    pub fn span(self) -> Option<Span>
        ensures { result ≡ first_extent (left self.entry) }
    {
        let text = self.text;
        let Some((entry, entries)) = self.entries.split_first() else {
            return None;
        };
        match *entry {
            Entry::Name { raw, lo, hi, at } => {
                let front = if raw { 2 } else { 0 };
                let name = char_count(&text[lo as usize..hi as usize]);
                Some(span_of(at, at + (front + name) as u32))
            }
            Entry::Mark {
                joint,
                mark,
                at,
                end,
            } => {
                let _ = joint;
                let _ = mark;
                Some(span_of(at, end))
            }
            Entry::Literal { lo, hi, at } => {
                let literal = char_count(&text[lo as usize..hi as usize]);
                Some(span_of(at, at + literal as u32))
            }
            Entry::Open {
                delimiter,
                at,
                count,
            } => {
                let _ = delimiter;
                let end = closer_end(entries[count as usize]);
                Some(span_of(at, end))
            }
            Entry::Close { delimiter, end } => {
                let _ = delimiter;
                let _ = end;
                unreachable!()
            }
            Entry::DocName { at, end } => Some(span_of(at, end)),
            Entry::DocText {
                closing,
                lo,
                hi,
                at,
            } => {
                let doc_body = char_count(&text[lo as usize..hi as usize]);
                Some(span_of(at, at + (3 + doc_body + closing as usize) as u32))
            }
        }
    }

    /// Returns the identifier that comes first and the trees after it, or `None` if none comes first.
    pub fn ident(self) -> Option<(Name<'a>, Cursor<'a>)>
        ensures { MatchOption result (name_first (left self.entry) ≡ false)
            (λ found. BeginsWith (tokens.Name found.0.raw (chars found.0.text.now)) self.entry found.1) }
    {
        match self.next() {
            Some((TokenText::Ident(name), rest)) => Some((name, rest)),
            _ => None,
        }
    }

    /// Returns the mark that comes first, its spacing and the trees after it, or `None` if none comes first.
    pub fn punct(self) -> Option<(char, Spacing, Cursor<'a>)>
        ensures { MatchOption result (mark_first (left self.entry) ≡ false)
            (λ found. BeginsWith (tokens.Mark found.0 (is_joint found.1)) self.entry found.2) }
    {
        match self.next() {
            Some((TokenText::Punct(mark, spacing), rest)) => Some((mark, spacing, rest)),
            _ => None,
        }
    }

    /// Returns the literal that comes first and the trees after it, or `None` if none comes first.
    pub fn literal(self) -> Option<(LiteralText<'a>, Cursor<'a>)>
        ensures { MatchOption result (literal_first (left self.entry) ≡ false)
            (λ found. BeginsWith (tokens.Literal (literal_text found.0)) self.entry found.1) }
    {
        match self.next() {
            Some((TokenText::Literal(literal), rest)) => Some((literal, rest)),
            _ => None,
        }
    }

    /// Returns the name of the lifetime that comes first and the trees after it, or `None` if none comes first.
    ///
    /// The lifetime `'a` is the mark `'`, which is `Joint`, and the identifier `a`.
    pub fn lifetime(self) -> Option<(Name<'a>, Cursor<'a>)>
        ensures { MatchOption result (lifetime_first (left self.entry) ≡ false)
            (λ found. (name : Cursor) × BeginsWith (tokens.Mark 39 true) self.entry name
            × BeginsWith (tokens.Name found.0.raw (chars found.0.text.now)) name found.1) }
    {
        match self.punct() {
            Some(('\'', Spacing::Joint, name)) => name.ident(),
            _ => None,
        }
    }

    /// Returns the trees in the group that comes first and the trees after it, or `None` if no group with this
    /// delimiter comes first.
    pub fn group(self, delimiter: Delimiter) -> Option<(Cursor<'a>, Cursor<'a>)>
        ensures { MatchOption result (group_first (left self.entry) ≢ Some delimiter)
            (λ found. BeginsWithGroup delimiter self.entry found.0 found.1) }
    {
        match self.any_group() {
            Some((found, inside, after)) if found == delimiter => Some((inside, after)),
            _ => None,
        }
    }

    /// Returns the delimiter and the trees of the group that comes first and the trees after it, or `None` if none
    /// comes first.
    pub fn any_group(self) -> Option<(Delimiter, Cursor<'a>, Cursor<'a>)>
        ensures { MatchOption result (group_first (left self.entry) ≡ None)
            (λ found. BeginsWithGroup found.0 self.entry found.1 found.2) }
    {
        match self.next() {
            Some((TokenText::Group(delimiter, inside), after)) => Some((delimiter, inside, after)),
            _ => None,
        }
    }
}

/// Returns the position at which a closer's group ends, or 0 for any other entry.
fn closer_end(entry: Entry) -> u32
    ensures { result ≡ closer_end entry }
{
    match entry {
        Entry::Close { delimiter, end } => {
            let _ = delimiter;
            end
        }
        _ => 0,
    }
}

/// Returns the spacing of a mark.
fn spacing(joint: bool) -> Spacing
    ensures { is_joint result ≡ joint }
{
    if joint {
        Spacing::Joint
    } else {
        Spacing::Alone
    }
}
