//! Laws of the definitions that the contracts cite. Their functions compute nothing.
ghost use Rattle.pretty_printer.specs.Laws.{JoinsOnce, NothingWanted, OnlySpacing, SpacedAsInItsText};
ghost use Rattle.pretty_printer.specs.Laws.{StaysWellSpaced, WasWellSpaced};

/// States that joining marks changes only spacings, changes nothing the second time, and that the joined
/// stream is well spaced exactly if the stream is.
///
/// So the text of [`to_pretty_string`](crate::to_pretty_string) is that of a well spaced stream,
/// whatever the rules of the layout want. If the marks of a stream are spaced as in its text, the text is a layout of
/// the stream itself.
pub fn joining()
    ensures spacing { OnlySpacing }
    ensures once { JoinsOnce }
    ensures spaced { StaysWellSpaced }
    ensures before { WasWellSpaced }
    ensures nothing { NothingWanted }
    ensures same { SpacedAsInItsText }
{}
