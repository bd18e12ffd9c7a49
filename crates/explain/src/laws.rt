//! Facts that are proved about the reasons.

ghost use Rattle.std.specs.Prelude.{◌≡◌, ◌++◌, Bool, List, ℕ};
ghost use Rattle.lexical.specs.Piece.{FrontMark, IsPiece, Kind};
ghost use Rattle.explain.specs.Explained.{IsExplained};
ghost use Rattle.explain.specs.Reason.{Holds};
ghost use Rattle.explain.specs.declared.explained.Explained.{Explained};
ghost use Rattle.explain.specs.declared.reason.Reason.TheVariants.{MisplacedMark};

use crate::reason::Reason;

/// At most one reason holds of a text, whatever part of the text each reason says is wrong. The reason includes the
/// error, if the content of a literal is wrong.
pub fn one_reason()
    ensures { (x y : Reason) (f p r g q s : List ℕ) → Holds x f p r → Holds y g q s
        → f ++ (p ++ r) ≡ g ++ (q ++ s) → x ≡ y }
{}

/// A reason holds of a text with one wrong part only: that part, and the text before it, are determined.
pub fn one_place()
    ensures { (x : Reason) (f p r g q s : List ℕ) → Holds x f p r → Holds x g q s
        → f ++ (p ++ r) ≡ g ++ (q ++ s) → (f ≡ g) × (p ≡ q) }
{}

/// No reason holds where a piece begins, except `MisplacedMark` at the front mark, which is U+FEFF at the start of a
/// text.
pub fn no_piece()
    ensures { (x : Reason) (first : Bool) (kind : Kind) (f p r q s : List ℕ) → Holds x f p r → IsPiece first kind q s
        → f ++ (p ++ r) ≡ q ++ s → (kind ≡ FrontMark) × (x ≡ MisplacedMark) }
{}

/// A text has at most one explanation: two explanations that fulfil the contract of `explain` have the same `reason`,
/// `before` and `at`.
pub fn one_explanation()
    ensures { (base : ℕ) (source : List ℕ) (x y : Explained) → IsExplained base source x → IsExplained base source y
        → (x.reason ≡ y.reason) × (x.before ≡ y.before) × (x.at ≡ y.at) }
{}
