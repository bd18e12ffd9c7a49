//! Texts with other white space, or with doc comments.

use crate::fails::Fail;
use crate::watched::{begin, show};
use relayout::{White, relayout, with_any_doc_comments, with_doc_comments};
use std::alloc::Global;
use std::io::Write;

/// Writes the text with its first white space so wide that there is no room for it, or with comments for its doc
/// attributes.
pub fn run<W: Write>(alloc: Global, out: &mut W, call: &str, text: &str) -> Result<(), Fail> {
    let wide = White::Lines {
        tabs: 0,
        spaces: 100,
    };
    for _ in 0..2 {
        begin(out)?;
        match call {
            "relayout" => show(out, relayout(alloc, text, &[wide]))?,
            "with_doc_comments" => show(out, with_doc_comments(alloc, text))?,
            "with_any_doc_comments" => show(out, with_any_doc_comments(alloc, text))?,
            _ => return Err(Fail::NoCase),
        }
    }
    Ok(())
}
