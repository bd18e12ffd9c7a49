//! Iterates over all pieces of a text.

ghost use Rattle.std.specs.Prelude.{◌≡◌, ◌+◌, ◌<◌, ◌^◌, length, true};
ghost use Rattle.std.specs.Str.{IsUtf8, chars};

use crate::gaps::split_white;
use crate::lexer::piece_at;
use crate::piece::Piece;

/// A piece of a text, with its byte offset.
#[derive(Clone, Copy, Debug, PartialEq, Eq)]
pub struct PlacedPiece<'a> {
    /// What kind of piece it is, and how many bytes and characters it has.
    pub piece: Piece<'a>,
    /// The text of the piece, a slice of the source.
    pub text: &'a str,
    /// How many bytes of the source come before it.
    pub byte_offset: usize,
}

/// A run of white characters and the piece after it, as [`PieceWalk::next_after_white`] returns them.
#[derive(Clone, Copy, Debug, PartialEq, Eq)]
pub struct Spaced<'a> {
    /// The white characters, ASCII and others. Each is a gap. It is empty if there are none.
    pub white: &'a str,
    /// The source after the white characters, up to its end. It begins with the piece, if there is one.
    pub rest: &'a str,
    /// The piece, which is no white character, or `None` if no piece begins there.
    pub piece: Option<PlacedPiece<'a>>,
}

/// The pieces of a text that are left. [`pieces`] makes one.
#[derive(Drop)]
pub struct PieceWalk<'a> {
    rest: &'a str,
    // How many bytes of the text come before the rest, and whether the rest is the whole text.
    byte_offset: usize,
    at_front: bool,
    // The rest is valid UTF-8, and the count of bytes cannot overflow.
    ghost text: { ∥ IsUtf8 rest.now ∥₁ },
    ghost room: { byte_offset + length rest.now < 2 ^ 64 },
}

/// Returns a walk over all pieces of a text in order, gaps and comments too. [`PieceWalk::next_piece`] then returns
/// them one by one. It allocates no memory.
///
/// For `a /**/+` the pieces are `a` at byte 0, a gap at 1, the gap `/**/` at 2 and the mark `+` at 6.
pub fn pieces(text: &str) -> PieceWalk<'_>
    ensures rest { result.rest.now ≡ text.now }
    ensures byte_offset { result.byte_offset ≡ 0 }
    ensures front { result.at_front ≡ true }
{
    // The contract of `iter` bounds how many bytes a text has.
    let _bytes = text.as_bytes().iter();
    PieceWalk {
        rest: text,
        byte_offset: 0,
        at_front: true,
    }
}

impl<'a> PieceWalk<'a> {
    ghost use Rattle.std.specs.Prelude.{IfNone, IfSome};
    ghost use Rattle.lexical.specs.Piece.{HasNoPiece};
    ghost use Rattle.lexical.specs.Walk.{IsNext, IsSpaced, PassesWhite};

    /// Returns the piece at the start of the rest, and moves past it.
    ///
    /// It returns `None` at the end of the text, and where no piece begins, as [`piece_at`](crate::piece_at)
    /// says. Then it changes nothing. Otherwise the text of the piece and the new rest, joined, are the old rest. For
    /// `+ "a` it returns the mark and the gap, and then `None` with the rest `"a`.
    #[inline(always)]
    pub fn next_piece(&mut self) -> Option<PlacedPiece<'a>>
        ensures found { IfSome result (λ next. IsNext self.old next self.new) }
        ensures none { IfNone result (HasNoPiece self.old.at_front (chars self.old.rest.now)) }
        ensures unchanged { IfNone result (self.new ≡ self.old) }
    {
        // Inlined, the piece stays in registers in a caller's loop. A call would write it to memory and read it back.
        let piece = piece_at(self.rest, self.at_front)?;
        let next = PlacedPiece {
            piece,
            text: &self.rest[..piece.bytes],
            byte_offset: self.byte_offset,
        };
        *self = PieceWalk {
            rest: &self.rest[piece.bytes..],
            byte_offset: self.byte_offset + piece.bytes,
            at_front: false,
        };
        Some(next)
    }

    /// Returns the next piece that is no white character, with the run of white characters before it, and moves past
    /// both. [`next_piece`](PieceWalk::next_piece) would return each white character as a gap of its own.
    ///
    /// If no piece follows, it moves past the white characters only. `Spaced::rest` is then empty at the end of the
    /// text; otherwise no piece begins there. Comments are pieces, so it does not skip them. For two spaces, U+2028,
    /// `+` and an LF it returns the first three characters with the mark, at byte offset 5, and then the LF without a
    /// piece.
    #[inline(always)]
    pub fn next_after_white(&mut self) -> Spaced<'a>
        ensures { IsSpaced self.old result self.new }
    {
        let white = self.pass_white();
        Spaced {
            white,
            rest: self.rest,
            piece: self.next_piece(),
        }
    }

    /// Moves past the white characters at the start of the rest, and returns their text.
    #[inline(always)]
    fn pass_white(&mut self) -> &'a str
        ensures { PassesWhite self.old result.now self.new }
    {
        let (white, rest) = split_white(self.rest);
        *self = PieceWalk {
            rest,
            byte_offset: self.byte_offset + white.len(),
            at_front: self.at_front & white.is_empty(),
        };
        white
    }

    /// Returns the text after the pieces that were returned so far. It is empty once they cover the whole text.
    pub fn rest(&self) -> &'a str
        ensures rest { result.now ≡ self.now.rest.now }
        ensures utf8 { IsUtf8 result.now }
    {
        self.rest
    }
}
