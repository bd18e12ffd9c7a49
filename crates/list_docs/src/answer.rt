//! Writes the doc comments of a text.
ghost use Rattle.std.specs.Prelude.{IfErr, OnOk};
ghost use Rattle.std.specs.Str.{chars};
ghost use Rattle.messages.specs.Parsed.{MayFail};
ghost use Rattle.list_docs.specs.Answer.{Writes};

use crate::doc::doc_text;
use crate::item::{State, print_item};
use messages::Failure;
use proc_macro2::{SourceMap, TokenStream};
use std::alloc::Global;
use std::io::Write;

/// Writes a line for each doc comment of the text and for each item that has one, inside groups too, in reading order.
///
/// Returns `Fault`, which has line and column, or `MapFull` before anything is written. Returns `Memory` or `Write`
/// after a prefix of the lines may have been written.
///
/// Example: for `/// x` the line is `1:0 " x"`, and for `fn add` after it the line is `fn add`.
pub fn print_text<W: Write>(alloc: Global, text: &str, writer: &mut W) -> Result<(), Failure>
    ensures ok { OnOk result (Writes (chars text.now) (W.contents writer.old) (W.contents writer.new)) }
    ensures err { IfErr result (MayFail (chars text.now) (W.contents writer.old) (W.contents writer.new)) }
{
    let mut map = SourceMap::new(alloc);
    match TokenStream::from_str(text, &mut map) {
        Ok(stream) => {
            let mut state = State::Nothing;
            let mut walk = stream.walk();
            while let Some(tree) = walk.next()? {
                if let Some(doc) = doc_text(tree) {
                    let start = doc.span().start(&map);
                    writeln!(writer, "{}:{} {doc}", start.line, start.column)?;
                }
                print_item(state, tree, writer)?;
                state = state.after(tree);
            }
            Ok(())
        }
        Err(error) => Err(Failure::parse_failure(error, &map)),
    }
}
