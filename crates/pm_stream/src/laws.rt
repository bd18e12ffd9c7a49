//! Facts that are proved about the definitions which the other contracts use.
ghost use Rattle.std.specs.Prelude.{◌≡◌};
ghost use Rattle.pm_stream.specs.Forest.{Forest};
ghost use Rattle.pm_stream.specs.Printed.{printed};
ghost use Rattle.pm_stream.specs.PrinterRule.{text_by_rule};

/// The printed text of a stream is its trees in order, with one space between two trees but none after a Joint mark.
///
/// The text of a group is its delimiters around the text of its stream. `( .. )` and `[ .. ]` have no spaces inside.
/// Braces are `{ }` around an empty stream, and otherwise `{ .. }` with one space on each side. A group without
/// delimiters is printed as its stream.
pub fn printed_by_the_rule()
    ensures { (stream : Forest) → printed stream ≡ text_by_rule stream }
{}
