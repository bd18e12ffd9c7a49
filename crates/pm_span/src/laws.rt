//! Laws of lines and columns. These functions compute nothing: what is proved is in their contracts.
ghost use Rattle.std.specs.Prelude.{◌≡◌, ◌↔◌, ◌++◌, IsTrue, Some};
ghost use Rattle.std.specs.Hash as fed;
ghost use Rattle.pm_span.specs.Order.{IsBefore};

use crate::location::LineColumn;
use std::cmp::Ordering;
use std::hash::Hash;

/// A line and column comes before another if its line does, or its column on the same line. Two are equal exactly
/// if both their lines and their columns are equal. A hasher is fed the line and then the column.
///
/// Line 1, column 5 comes before line 2, column 0.
pub fn ordered_line_columns()
    ensures equal { (a b : LineColumn) → IsTrue (⟦<LineColumn as PartialEq>⟧.eq a b)
        ↔ ((a.line ≡ b.line) × (a.column ≡ b.column)) }
    ensures less { (a b : LineColumn) → (⟦<LineColumn as Ord>⟧.cmp a b ≡ Ordering.Less) ↔ IsBefore a b }
    ensures greater { (a b : LineColumn) → (⟦<LineColumn as Ord>⟧.cmp a b ≡ Ordering.Greater) ↔ IsBefore b a }
    ensures same { (a b : LineColumn) → (⟦<LineColumn as Ord>⟧.cmp a b ≡ Ordering.Equal)
        ↔ ((a.line ≡ b.line) × (a.column ≡ b.column)) }
    ensures partial { (a b : LineColumn) → ⟦<LineColumn as PartialOrd>⟧.partial_cmp a b
        ≡ Some (⟦<LineColumn as Ord>⟧.cmp a b) }
    ensures hash { (a : LineColumn) → ⟦<LineColumn as Hash>⟧.hash_input a
        ≡ fed.usize a.line ++ fed.usize a.column }
{}
