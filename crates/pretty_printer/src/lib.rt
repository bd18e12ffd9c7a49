//! Prints streams on lines for people.
//!
//! [`to_pretty_string`] writes a stream's tokens on lines of at most 100 columns where that is possible. The text reads
//! back to the stream with its marks respaced, whatever gaps the rules here choose. The crate `layout` promises this
//! for every layout.
#![tactic(auto)]

ghost use Rattle.std.specs.Prelude.{◌≡◌, Err, IfErr, IfOk, string_bytes};
ghost use Rattle.std.specs.Str.{chars};
ghost use Rattle.layout.specs.Writing.{IsNoWrite};
ghost use Rattle.layout.specs.declared.errors.LayoutError.TheVariants.{NotWellSpaced};
ghost use Rattle.proc_macro2.specs.WellSpaced.{IsWellSpaced};
ghost use Rattle.quoting.specs.Choice.{HopelessIfNamed};
ghost use Rattle.quoting.specs.Fault.{IsFaultOf};
ghost use Rattle.pretty_printer.specs.PrettyText.{IsJoinedLayout, IsPrettyText};

mod atoms;
mod chosen;
mod expressions;
mod groups;
pub mod laws;
mod limits;
mod lines;
mod parts;
mod printer;
mod reading;
mod roles;
mod sides;
mod signs;
mod tree;

use layout::{LayoutError, text_with};
use printer::Printer;
use proc_macro2::TokenStream;
use quoting::join::join_marks;
use quoting::{Quote, QuoteError};
use std::alloc::Global;

/// Returns the stream's tokens as text for people: each statement or item begins a line, and blocks and long lists take
/// several lines.
///
/// The marks are respaced first, as `Quote::finish` does: a Joint mark becomes Alone if it can't be joined with the
/// next token. A stream that is `well-spaced` is respaced to itself. Then some Alone marks become Joint, so that they
/// are written close to the next mark: those after which the layout wants no space, if the two marks begin no operator.
/// `>` and `,` are written `>,`, but `&` and `&` are written `& &`. The text is a layout of this stream, which is
/// `joined`, so it reads back to it, up to spans. No contract says which marks these are, and where the lines break.
///
/// `NoneGroup` and `LoneQuote` are returned for the first tree that no spacing of the marks allows (`first-fault`), and
/// `Memory` if memory runs out. The call takes time in proportion to the length of the text.
///
/// `fn f(){g(1)}` is written over three lines, the second of which is `    g(1)`.
pub fn to_pretty_string(alloc: Global, stream: &TokenStream) -> Result<String, QuoteError>
    ensures text { IfOk result (λ text. IsPrettyText stream.now (chars (string_bytes text))) }
    ensures fault { IfErr result (IsFaultOf stream.now) }
    ensures hopeless { IfErr result (HopelessIfNamed stream.now) }
{
    quoting::laws::respacing();
    match lay_out(alloc, stream) {
        Ok(text) => return Ok(text),
        Err(LayoutError::Memory(error)) => return Err(QuoteError::Memory(error)),
        Err(LayoutError::NotWellSpaced) => {}
        Err(LayoutError::Write(_)) => unreachable!(),
    }
    let mut quote = Quote::new(alloc);
    quote.push_stream(stream.clone()?)?;
    let stream = quote.finish()?;
    match lay_out(alloc, &stream) {
        Ok(text) => Ok(text),
        Err(LayoutError::Memory(error)) => Err(QuoteError::Memory(error)),
        Err(LayoutError::NotWellSpaced | LayoutError::Write(_)) => unreachable!(),
    }
}

/// Returns the tokens of the stream as text for people, in which some marks are joined, or `NotWellSpaced` if the
/// stream is not well spaced.
fn lay_out(alloc: Global, stream: &TokenStream) -> Result<String, LayoutError>
    ensures spaced { IfOk result (λ text. IsWellSpaced stream.now) }
    ensures text { IfOk result (λ text. IsJoinedLayout stream.now (chars (string_bytes text))) }
    ensures refused { result ≡ Err NotWellSpaced → IsWellSpaced stream.now → ⊥ }
    ensures unwritten { IfErr result IsNoWrite }
{
    laws::joining();
    let mut chosen = Printer::new(alloc, stream)?.choose()?;
    let joined = join_marks(alloc, stream, &chosen.visits)?;
    let text = text_with(&joined, &mut chosen, alloc)?;
    Ok(text)
}
