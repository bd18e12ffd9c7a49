//! Writes the getters for the structs of a text.
ghost use Rattle.std.specs.Prelude.{◌≡◌, List, MatchOption, None, OnOk, Some};
ghost use Rattle.std.specs.Io.KnownBytes.{Appends};
ghost use Rattle.std.specs.Prelude.{flat_map};
ghost use Rattle.std.specs.Str.{chars};
ghost use Rattle.proc_macro2.specs.Forest.{Forest};
ghost use Rattle.write_getters.specs.Answer.{IsItemCode, IsStructCode, Writes, WritesFile, line_of, named_fields};

use crate::errors::WriteError;
use crate::getters::getters;
use crate::templates::{GENERIC, PLAIN, Templates};
use declarations::{
    AnyItem, Body, FieldList, Fields, ItemKind, parse_type_item, split_any_item,
    split_inner_attributes,
};
use messages::Failure;
use proc_macro2::{Group, SourceMap, TokenStream, TokenTree};
use std::alloc::Global;
use std::io::Write;

/// Writes a line with the getters of each struct of the text that has named fields, in order. Items inside groups are
/// skipped.
///
/// After an error a prefix of the output may have been written, but nothing if the text doesn't parse.
pub fn print_getters<W: Write>(alloc: Global, text: &str, writer: &mut W) -> Result<(), WriteError>
    ensures { OnOk result (Writes (chars PLAIN.now) (chars GENERIC.now) (chars text.now) (W.contents writer.old)
        (W.contents writer.new)) }
{
    let mut map = SourceMap::new(alloc);
    match TokenStream::from_str(text, &mut map) {
        Ok(stream) => match print_file(alloc, stream.trees(), writer) {
            Ok(()) => Ok(()),
            Err(error) => Err(error.at_position(&map)),
        },
        Err(error) => Err(WriteError::from(Failure::parse_failure(error, &map))),
    }
}

/// Writes a line with the getters of each struct among the items of a file.
fn print_file<W: Write>(
    alloc: Global,
    trees: &[TokenTree],
    writer: &mut W,
) -> Result<(), WriteError>
    ensures { OnOk result (WritesFile (chars PLAIN.now) (chars GENERIC.now) trees.now (W.contents writer.old)
        (W.contents writer.new)) }
{
    let templates = Templates::new(alloc)?;
    let (_, items) = split_inner_attributes(trees)?;
    let mut left = items;
    while !left.is_empty() {
        let (item, rest) = split_any_item(left)?;
        print_item(alloc, &templates, &item, writer)?;
        left = rest;
    }
    Ok(())
}

/// Writes the line of an item, if it is a struct with named fields.
fn print_item<W: Write>(
    alloc: Global,
    templates: &Templates,
    item: &AnyItem<'_>,
    writer: &mut W,
) -> Result<(), WriteError>
    ensures { OnOk result ((all : List Forest) × IsItemCode templates.now item.now.kind item.now.trees.now all
        × Appends (W.contents writer.old) (W.contents writer.new) (flat_map line_of all)) }
{
    match item.kind {
        ItemKind::Struct => print_struct(alloc, templates, item.trees, writer),
        _ => Ok(()),
    }
}

/// Writes a line with the getters of the struct, if it has named fields.
fn print_struct<W: Write>(
    alloc: Global,
    templates: &Templates,
    trees: &[TokenTree],
    writer: &mut W,
) -> Result<(), WriteError>
    ensures { OnOk result ((all : List Forest) × IsStructCode templates.now trees.now all
        × Appends (W.contents writer.old) (W.contents writer.new) (flat_map line_of all)) }
{
    let item = parse_type_item(trees)?;
    match named_fields(&item.body) {
        Some(group) => {
            let code = getters(alloc, templates, &item, FieldList::named(group))?;
            writeln!(writer, "{code}")?;
            Ok(())
        }
        None => Ok(()),
    }
}

/// Returns the braces around the named fields of a struct, if it has any.
fn named_fields<'a>(body: &Body<'a>) -> Option<&'a Group>
    ensures { MatchOption result (named_fields body.now ≡ None) (λ group. named_fields body.now ≡ Some group.now) }
{
    match body {
        Body::Struct(Fields::Named(group)) => Some(group),
        Body::Struct(Fields::Tuple(_) | Fields::Unit) | Body::Enum(_) | Body::Union(_) => None,
    }
}
