//! Laws of the definitions that the contracts cite. Their functions compute nothing.
ghost use Rattle.quoting.specs.Laws.{AFaultIsHopeless, KeepsWhatItMay, NothingToDo, OnlySpacing};
ghost use Rattle.quoting.specs.Laws.{WellSpacedWithoutFault};

/// States that a respaced stream is well spaced unless it has a `first-fault`.
///
/// Respacing changes spacings only. A mark keeps its spacing if some well spaced choice of spacings keeps it, so a
/// stream that is well spaced is unchanged. A stream has a `first-fault` exactly if no choice of spacings is well
/// spaced.
pub fn respacing()
    ensures spaced { WellSpacedWithoutFault }
    ensures hopeless { AFaultIsHopeless }
    ensures spacing { OnlySpacing }
    ensures keeps { KeepsWhatItMay }
    ensures unchanged { NothingToDo }
{}
