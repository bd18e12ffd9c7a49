//! Looking up the spans of a text's trees in their map.

use crate::fails::Fail;
use crate::parsing::map_of_x;
use crate::shown::show_map;
use crate::watched::{begin, show};
use proc_macro2::{SourceMap, Span, TokenStream};
use std::alloc::{AllocError, Global};
use std::io::Write;
use std::ops::Range;

/// Looks up the files, bytes or texts of all spans of a text's trees, and of the span 0..0.
pub fn run<W: Write>(alloc: Global, out: &mut W, call: &str, text: &str) -> Result<(), Fail> {
    let mut map = map_of_x(alloc, u32::MAX)?;
    let spans = spans_of(alloc, text, &mut map)?;
    for _ in 0..2 {
        ask(alloc, out, call, &mut map, &spans)?;
        show_map(out, &map)?;
    }
    Ok(())
}

fn ask<W: Write>(
    alloc: Global,
    out: &mut W,
    call: &str,
    map: &mut SourceMap,
    spans: &[Span],
) -> Result<(), Fail> {
    match call {
        "file" => show_files(alloc, out, map, spans),
        "byte_range" => show_bytes(alloc, out, map, spans),
        "source_text" => show_texts(alloc, out, map, spans),
        _ => Err(Fail::NoCase),
    }
}

fn show_files<W: Write>(
    alloc: Global,
    out: &mut W,
    map: &SourceMap,
    spans: &[Span],
) -> Result<(), Fail> {
    let mut names = Vec::with_capacity(alloc, spans.len())?;
    begin(out)?;
    ask_files(map, spans, &mut names)?;
    show(out, names)
}

fn show_bytes<W: Write>(
    alloc: Global,
    out: &mut W,
    map: &mut SourceMap,
    spans: &[Span],
) -> Result<(), Fail> {
    let mut ranges = Vec::with_capacity(alloc, spans.len())?;
    begin(out)?;
    ask_bytes(map, spans, &mut ranges)?;
    show(out, ranges)
}

fn show_texts<W: Write>(
    alloc: Global,
    out: &mut W,
    map: &mut SourceMap,
    spans: &[Span],
) -> Result<(), Fail> {
    let mut texts = Vec::with_capacity(alloc, spans.len())?;
    begin(out)?;
    ask_texts(map, spans, &mut texts)?;
    show(out, texts)
}

/// Returns the span 0..0, and the spans of the trees of the text, which becomes a file of the map.
fn spans_of(alloc: Global, text: &str, map: &mut SourceMap) -> Result<Vec<Span>, Fail> {
    let mut spans = Vec::new(alloc);
    spans.push(Span::call_site())?;
    for tree in TokenStream::from_str(text, map)?.trees() {
        spans.push(tree.span())?;
    }
    Ok(spans)
}

/// Looks up the file of each span. The list has room for the results, so only a look-up allocates memory. This is also
/// true of the functions below.
fn ask_files(
    map: &SourceMap,
    spans: &[Span],
    names: &mut Vec<Result<String, AllocError>>,
) -> Result<(), AllocError> {
    for span in spans {
        if map.holds(*span) {
            names.push(span.file(map))?;
        }
    }
    Ok(())
}

fn ask_bytes(
    map: &mut SourceMap,
    spans: &[Span],
    ranges: &mut Vec<Range<usize>>,
) -> Result<(), AllocError> {
    for span in spans {
        if map.holds(*span) {
            ranges.push(span.byte_range(map))?;
        }
    }
    Ok(())
}

fn ask_texts(
    map: &mut SourceMap,
    spans: &[Span],
    texts: &mut Vec<Result<Option<String>, AllocError>>,
) -> Result<(), AllocError> {
    for span in spans {
        if map.holds(*span) {
            texts.push(span.source_text(map))?;
        }
    }
    Ok(())
}
