//! Writes a text with its lines indented, or checks that they are.
ghost use Rattle.std.specs.Prelude.{◌≡◌, ◌↔◌, IfErr, IfOk, IsTrue, List, OnOk, Option, ℕ, string_bytes};
ghost use Rattle.std.specs.Str.{chars};
ghost use Rattle.explain.specs.Explained.{Parses};
ghost use Rattle.proc_macro2.specs.Parsing.{FaultAt};
ghost use Rattle.messages.specs.Parsed.{MayFail, first};
ghost use Rattle.messages.specs.declared.errors.Failure.TheVariants.{Memory};
ghost use Rattle.indent.specs.Indented.{IsIndented, Writes};

use crate::choosing::{IndentStyle, choices};
use explain::{ExplainError, explain};
use messages::Failure;
use proc_macro2::{SourceMap, TokenStream};
use relayout::{RelayoutError, relayout};
use std::alloc::Global;
use std::io::Write;

/// Writes the text with its lines indented. Its tokens and comments stay the same, whatever the indentation is.
///
/// Returns `Fault`, which has line and column, `MapFull` or `Memory` before anything is written. Returns `Write` if a
/// write fails: a prefix of the text may have been written then.
pub fn print_text<W: Write>(
    alloc: Global,
    text: &str,
    step: IndentStyle,
    writer: &mut W,
) -> Result<(), Failure>
    ensures ok { OnOk result (Writes (chars text.now) (W.contents writer.old) (W.contents writer.new)) }
    ensures err { IfErr result (MayFail (chars text.now) (W.contents writer.old) (W.contents writer.new)) }
{
    match indent(alloc, text, step) {
        Ok(indented) => {
            writer.write_all(indented.as_str().as_bytes())?;
            Ok(())
        }
        Err(failure) => Err(failure),
    }
}

/// Returns whether indenting its lines leaves the text as it is.
///
/// Returns `Fault`, `MapFull` or `Memory` as an error, for the same reasons as `print_text`.
pub fn is_indented(alloc: Global, text: &str, step: IndentStyle) -> Result<bool, Failure>
    ensures ok { IfOk result (λ same. (out : List ℕ) × IsIndented (chars text.now) out
        × (IsTrue same ↔ (out ≡ chars text.now))) }
    ensures err { IfErr result (λ failure. (known : Option (List ℕ)) → MayFail (chars text.now) known known failure) }
{
    let indented = indent(alloc, text, step)?;
    Ok(indented.as_str() == text)
}

/// Returns the text with its lines indented. It finds out whether the text parses without building trees.
fn indent(alloc: Global, text: &str, step: IndentStyle) -> Result<String, Failure>
    ensures ok { IfOk result (λ out. IsIndented (chars text.now) (chars (string_bytes out))) }
    ensures err { IfErr result (λ failure. (known : Option (List ℕ)) → MayFail (chars text.now) known known failure) }
{
    match explain(alloc, text) {
        Ok(None) => indent_parsed(alloc, text, step),
        Ok(Some(_)) => Err(fault_of(alloc, text)),
        Err(ExplainError::MapFull) => Err(Failure::MapFull),
        Err(ExplainError::Memory(_)) => Err(Failure::Memory),
    }
}

/// Returns the error for a text that doesn't parse, with its line and column. Only this needs a map.
fn fault_of(alloc: Global, text: &str) -> Failure
    requires { (position : ℕ) × FaultAt first (chars text.now) position }
    ensures { (known : Option (List ℕ)) → MayFail (chars text.now) known known result }
{
    let mut map = SourceMap::new(alloc);
    match TokenStream::from_str(text, &mut map) {
        Ok(_) => unreachable!(),
        Err(error) => Failure::parse_failure(error, &map),
    }
}

/// Returns a text that parses with its lines indented. The only error is that memory runs out.
fn indent_parsed(alloc: Global, text: &str, step: IndentStyle) -> Result<String, Failure>
    requires { Parses first (chars text.now) }
    ensures ok { IfOk result (λ out. IsIndented (chars text.now) (chars (string_bytes out))) }
    ensures err { IfErr result (λ failure. failure ≡ Memory) }
{
    let choices = choices(alloc, text, step)?;
    match relayout(alloc, text, choices.as_slice()) {
        Ok(out) => Ok(out),
        Err(RelayoutError::Memory(_)) => Err(Failure::Memory),
        Err(RelayoutError::NoPiece) => unreachable!(),
    }
}
