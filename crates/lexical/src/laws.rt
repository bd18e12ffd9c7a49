//! Laws about the pieces of a text.

ghost use Rattle.std.specs.Prelude.{◌≡◌, ◌++◌, Bool, List, ℕ};
ghost use Rattle.lexical.specs.Piece.{IsPiece, Kind};

/// At most one piece begins at a byte offset: the text there determines its kind, its text and what follows it.
pub fn one_piece()
    ensures { (first : Bool) (k l : Kind) (p q r s : List ℕ) → IsPiece first k p r → IsPiece first l q s
        → p ++ r ≡ q ++ s → (k ≡ l) × (p ≡ q) × (r ≡ s) }
{}
