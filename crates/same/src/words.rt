//! The words of a text that are compared: its tokens in order and, if wanted, its comments.
ghost use Rattle.std.specs.Prelude.{◌≡◌, ◌+◌, ◌*◌, ◌<◌, ◌∷◌, [], Bool, IfNone, IfSome, List, ℕ, None, length, true};
ghost use Rattle.std.specs.Str.{IsUtf8, chars};
ghost use Rattle.lexical.specs.Piece.{Piece};
ghost use Rattle.lexical.specs.Found.{LendsText, kind_of};

use crate::source_word::{DocStep, SourceWord, after, alone, delimiter};
use lexical::parts::begins;
use lexical::{PieceKind, PieceWalk, PlacedPiece, pieces};
use pm_token::Delimiter;

/// The words that are left of a text.
#[derive(Drop)]
pub struct Words<'a> {
    walk: PieceWalk<'a>,
    comments: bool,
    // The next token of a doc comment that is being read, if there is one, and the comment's text.
    step: Option<DocStep>,
    doc: &'a str,
    ghost doc_text: { ∥ IsUtf8 doc.now ∥₁ },
    /// The text from the last word on.
    pub here: &'a str,
}

impl<'a> Words<'a> {
    ghost use Rattle.same.specs.SourceWord.{HasText, Placed, doc_from, doc_left, step_after, word_of};
    ghost use Rattle.same.specs.Words.{ComesFirst, Covers, piece_words, placed_onto, size, words_left};

    /// Returns all words of a text: its tokens and, if `comments` is true, its comments. Without comments a doc comment
    /// counts as the attribute that it is read as.
    pub fn new(text: &'a str, comments: bool) -> Words<'a>
        ensures walk { result.walk.rest.now ≡ text.now }
        ensures front { result.walk.at_front ≡ true }
        ensures comments { result.comments ≡ comments }
        ensures step { result.step ≡ None }
    {
        Words {
            walk: pieces(text),
            comments,
            step: None,
            doc: "",
            here: text,
        }
    }
    /// Returns the next word, and sets `here` to the text from that word on. Returns `None` at the end, where `here` is
    /// empty.
    #[inline(always)]
    pub fn next(&mut self) -> Option<SourceWord<'a>>
        ensures first { IfSome result (λ source_word. (xs : List Piece) → Covers self.old.walk xs
            → ComesFirst self.old source_word self.new xs) }
        ensures text { IfSome result HasText }
        ensures none { IfNone result ((xs : List Piece) → Covers self.old.walk xs → (words_left self.old xs ≡ [])
            × (chars self.new.here.now ≡ [])) }
        ensures smaller { IfSome result (λ _. size self.new < size self.old) }
    {
        // The inlined body lets the loops of the callers keep the walk in registers, as `next_piece` does.
        if let Some(step) = self.step {
            return Some(self.take_step(step));
        }
        loop {
            let next = self.walk.next_after_white();
            self.here = next.rest;
            if let Some(source_word) = self.begin(next.piece?) {
                return Some(source_word);
            }
        }
    }

    /// Returns the first word of the piece, if it has one.
    fn begin(&mut self, next: PlacedPiece<'a>) -> Option<SourceWord<'a>>
        requires lends { LendsText next.piece.kind }
        requires piece { IsUtf8 next.text.now }
        requires no_step { self.now.step ≡ None }
        ensures some { IfSome result (λ source_word. (here : List ℕ) (more : List Placed)
            → piece_words self.old.comments
            (kind_of next.entry.piece.kind (chars next.entry.text.now)) (chars next.entry.text.now) here more
            ≡ (word_of source_word, here) ∷ placed_onto (doc_left self.new.step (chars self.new.doc.now)) here more) }
        ensures none { IfNone result ((here : List ℕ) (more : List Placed) → piece_words self.old.comments
            (kind_of next.entry.piece.kind (chars next.entry.text.now)) (chars next.entry.text.now) here more ≡ more) }
        ensures step { IfNone result (self.new.step ≡ None) }
        ensures text { IfSome result HasText }
        ensures walk { self.new.walk ≡ self.old.walk }
        ensures comments { self.new.comments ≡ self.old.comments }
        ensures here { self.new.here ≡ self.old.here }
    {
        match next.piece.kind {
            PieceKind::FrontMark => None,
            PieceKind::Gap if self.comments && begins(next.text, "/") => Some(SourceWord::Comment(
                next.text,
            )),
            PieceKind::Gap => None,
            PieceKind::Doc { .. } if self.comments => Some(SourceWord::Comment(next.text)),
            PieceKind::Doc { inner, text } => {
                self.doc = text;
                let step = if inner {
                    DocStep::InnerHash
                } else {
                    DocStep::Hash
                };
                Some(self.take_step(step))
            }
            PieceKind::Opener(c) => Some(SourceWord::Opener(delimiter(c))),
            PieceKind::Closer(c) => Some(SourceWord::Closer(delimiter(c))),
            PieceKind::Literal => Some(SourceWord::Literal(next.text)),
            PieceKind::Mark { joint, mark } => Some(SourceWord::Mark(joint, mark)),
            PieceKind::Name { raw, name } => Some(SourceWord::Name(raw, name)),
        }
    }

    /// Returns the token of this step of the doc comment.
    fn take_step(&mut self, step: DocStep) -> SourceWord<'a>
        ensures first { (here : List ℕ) (more : List Placed)
            → placed_onto (doc_from step (chars self.old.doc.now)) here more
            ≡ (word_of result, here) ∷ placed_onto (doc_left self.new.step (chars self.new.doc.now)) here more }
        ensures text { HasText result }
        ensures step { self.new.step ≡ step_after step }
        ensures doc { self.new.doc ≡ self.old.doc }
        ensures walk { self.new.walk ≡ self.old.walk }
        ensures comments { self.new.comments ≡ self.old.comments }
        ensures here { self.new.here ≡ self.old.here }
    {
        self.step = after(step);
        match step {
            DocStep::Hash | DocStep::InnerHash => alone('#'),
            DocStep::Bang => alone('!'),
            DocStep::Opener => SourceWord::Opener(Delimiter::Bracket),
            DocStep::Name => SourceWord::Name(false, "doc"),
            DocStep::Equals => alone('='),
            DocStep::Text => SourceWord::DocText(self.doc_text()),
            DocStep::Closer => SourceWord::Closer(Delimiter::Bracket),
        }
    }

    /// Returns the text of the doc comment.
    fn doc_text(&self) -> &'a str
        ensures same { result.now ≡ self.now.doc.now }
        ensures utf8 { IsUtf8 result.now }
    {
        self.doc
    }
}
