//! The spans of the trees of a stream.
ghost use Rattle.proc_macro2.specs.HeldSpans.{HoldsAll};

use proc_macro2::{SourceMap, TokenStream, TokenTree};
use std::alloc::{AllocError, Global};

/// Returns a line for each tree of the stream, each group before the trees inside it: where the tree begins and ends,
/// and its kind.
///
/// For `a (b)` the lines are `1:0-1:1 ident`, `1:2-1:5 group` and `1:3-1:4 ident`.
pub fn span_lines(
    alloc: Global,
    stream: &TokenStream,
    map: &SourceMap,
) -> Result<String, AllocError>
    requires { HoldsAll map.now stream.now }
{
    let mut lines = String::new(alloc);
    let mut walk = stream.walk();
    while let Some(tree) = walk.next()? {
        let span = tree.span();
        let (start, end) = (span.start(map), span.end(map));
        let kind = match tree {
            TokenTree::Group(_) => "group",
            TokenTree::Ident(_) => "ident",
            TokenTree::Punct(_) => "punct",
            TokenTree::Literal(_) => "literal",
        };
        writeln!(
            lines,
            "{}:{}-{}:{} {kind}",
            start.line, start.column, end.line, end.column
        )?;
    }
    Ok(lines)
}
