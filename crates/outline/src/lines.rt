//! The line of a declaration.
ghost use Rattle.std.specs.Prelude.{◌≡◌, ◌++◌, IfOk, OnOk, option_map, string_bytes};
ghost use Rattle.outline.specs.Line.{indent, json, line_of, plain, line_of_value, tag, title};

use crate::names::word_of;
use crate::options::Form;
use declarations::ItemKind;
use messages::json_escape;
use proc_macro2::LineColumn;
use std::alloc::{AllocError, Global};

/// A declaration as it is shown.
#[derive(Clone, Copy)]
pub struct Shown<'a> {
    /// The number of declarations that it is in.
    pub depth: usize,
    /// The kind of the item.
    pub kind: ItemKind,
    /// Whether the item has a name.
    pub named: bool,
    /// The name of the item, or its header if it has no name.
    pub name: &'a str,
    /// The line and the column where it begins.
    pub start: LineColumn,
}

/// Returns the line of a declaration, without a line end. A `tags` file has lines only for items with names.
pub fn line_of(
    alloc: Global,
    form: Form,
    path: &str,
    shown: Shown<'_>,
) -> Result<Option<String>, AllocError>
    ensures { IfOk result (λ line. option_map string_bytes line ≡ line_of form path.now (line_of_value shown.entry)) }
{
    match form {
        Form::Lines => Ok(Some(plain(alloc, path, shown)?)),
        Form::Json => Ok(Some(json(alloc, path, shown)?)),
        Form::Ctags if shown.named => Ok(Some(tag(alloc, path, shown)?)),
        Form::Ctags => Ok(None),
    }
}

/// The line `FILE:L:C: fn name`. Line and column count from 1.
fn plain(alloc: Global, path: &str, shown: Shown<'_>) -> Result<String, AllocError>
    ensures { IfOk result (λ out. string_bytes out ≡ plain path.now (line_of_value shown.entry)) }
{
    let mut out = String::new(alloc);
    let line = shown.start.line;
    // The type is wide enough that the sum cannot overflow.
    let column = shown.start.column as u128 + 1;
    write!(out, "{path}:{line}:{column}: ")?;
    push_indent(&mut out, shown.depth)?;
    push_title(&mut out, shown)?;
    Ok(out)
}

/// The declaration as a JSON object.
fn json(alloc: Global, path: &str, shown: Shown<'_>) -> Result<String, AllocError>
    ensures { IfOk result (λ out. string_bytes out ≡ json path.now (line_of_value shown.entry)) }
{
    let mut out = String::new(alloc);
    let line = shown.start.line;
    // The type is wide enough that the sum cannot overflow.
    let column = shown.start.column as u128 + 1;
    let file = json_escape(alloc, path)?;
    let word = word_of(shown.kind);
    let name = json_escape(alloc, shown.name)?;
    let depth = shown.depth;
    write!(
        out,
        "{{\"file\":\"{file}\",\"line\":{line},\"column\":{column},\"kind\":\"{word}\",\"name\":\"{name}\",\
         \"depth\":{depth}}}"
    )?;
    Ok(out)
}

/// The line of a declaration in a `tags` file.
fn tag(alloc: Global, path: &str, shown: Shown<'_>) -> Result<String, AllocError>
    ensures { IfOk result (λ out. string_bytes out ≡ tag path.now (line_of_value shown.entry)) }
{
    let mut out = String::new(alloc);
    let name = shown.name;
    let line = shown.start.line;
    let word = word_of(shown.kind);
    write!(out, "{name}\t{path}\t{line};\"\t{word}")?;
    Ok(out)
}

/// Appends two spaces for each level, for at most 32 levels.
fn push_indent(out: &mut String, depth: usize) -> Result<(), AllocError>
    ensures { OnOk result (string_bytes out.new ≡ string_bytes out.old ++ indent depth) }
{
    for _ in 0..depth.min(32) {
        out.push_str("  ")?;
    }
    Ok(())
}

/// Appends the word for the kind and the name, or the header if there is no name.
fn push_title(out: &mut String, shown: Shown<'_>) -> Result<(), AllocError>
    ensures { OnOk result (string_bytes out.new ≡ string_bytes out.old ++ title (line_of_value shown.entry)) }
{
    let name = shown.name;
    if !shown.named {
        return out.push_str(name);
    }
    let word = word_of(shown.kind);
    write!(out, "{word} {name}")
}
