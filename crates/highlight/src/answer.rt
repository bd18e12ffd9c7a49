//! Writes a text with its pieces marked.
ghost use Rattle.std.specs.Prelude.{◌≡◌, ◌++◌, ℕ, List, IsTrue, OnOk};
ghost use Rattle.std.specs.Io.KnownBytes.{Appends};
ghost use Rattle.highlight.specs.Page.{IsMarked, foot, head};
ghost use Rattle.highlight.specs.Seen.{can_be_seen, plain};

use crate::format::Format;
use crate::marking::mark_pieces;
use crate::page::frame_of;
use messages::Failure;
use std::alloc::Global;
use std::io::Write;

/// Writes the text with its pieces marked; for a page, between the page's head and foot. The marked text is complete in
/// memory before the first byte is written.
///
/// The output depends only on the format, the pieces of the text, and the reason why what follows them doesn't parse.
/// Without tags and with escapes undone, the output is the text; for a terminal this holds if the text has no ESC.
/// After an error a prefix of the output may have been written.
#[tactic(auto, using(crate::proofs::SeenLemmas::marked_shows))]
pub fn write_marked<W: Write>(
    alloc: Global,
    format: Format,
    text: &str,
    writer: &mut W,
) -> Result<(), Failure>
    ensures { OnOk result ((body : List ℕ) × IsMarked format text.now body
        × Appends (W.contents writer.old) (W.contents writer.new) (head format ++ (body ++ foot format))
        × (IsTrue (can_be_seen format text.now) → plain format body ≡ text.now)) }
{
    let body = mark_pieces(alloc, format, text)?;
    let frame = frame_of(format);
    Ok(write!(writer, "{}{body}{}", frame.head, frame.foot)?)
}
