//! The words and names by which declarations are shown.
ghost use Rattle.std.specs.Prelude.{◌≡◌, ◌++◌, IfOk, OnOk, false, string_bytes};
ghost use Rattle.std.specs.Str.{chars};
ghost use Rattle.outline.specs.Line.{in_line, one_line, word_of};

use declarations::ItemKind;
use std::alloc::{AllocError, Global};

/// Returns the word for a kind of item.
pub fn word_of(kind: ItemKind) -> &'static str
    ensures { result.now ≡ word_of kind }
{
    match kind {
        ItemKind::Constant => "const",
        ItemKind::Enum => "enum",
        ItemKind::ExternBlock => "extern",
        ItemKind::ExternCrate => "crate",
        ItemKind::Function => "fn",
        ItemKind::Group => "item",
        ItemKind::Impl => "impl",
        ItemKind::Macro | ItemKind::MacroCall => "macro",
        ItemKind::Module => "mod",
        ItemKind::Static => "static",
        ItemKind::Struct => "struct",
        ItemKind::Trait | ItemKind::TraitAlias => "trait",
        ItemKind::TypeAlias => "type",
        ItemKind::Union => "union",
        ItemKind::Use => "use",
    }
}

/// Returns the text on one line, with one space for each run of spaces and control characters.
pub fn one_line(alloc: Global, text: &str) -> Result<String, AllocError>
    ensures { IfOk result (λ out. string_bytes out ≡ one_line false (chars text.now)) }
{
    let mut out = String::new(alloc);
    let mut gap = false;
    for c in text.chars() {
        push_in_line(&mut out, gap, c)?;
        gap = c <= ' ';
    }
    Ok(out)
}

/// Appends a character, and a space before it if it is after a gap. Appends nothing if it is itself part of a gap.
fn push_in_line(out: &mut String, gap: bool, c: char) -> Result<(), AllocError>
    ensures { OnOk result (string_bytes out.new ≡ string_bytes out.old ++ in_line gap c) }
{
    if c <= ' ' {
        return Ok(());
    }
    if gap {
        out.push(' ')?;
    }
    out.push(c)
}
