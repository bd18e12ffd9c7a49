//! The output for an input, complete before it is written.
ghost use Rattle.std.specs.Prelude.{◌≡◌, ◌||◌, is_err, OnOk, IfErr};
ghost use Rattle.std.specs.Io.KnownBytes.{Appends};
ghost use Rattle.tokens.specs.Known.{AppendsFront};
ghost use Rattle.tokens.specs.Output.{output_bytes};

use crate::errors::RunError;
use crate::sinks::ByteSink;
use crate::spans::write_lines;
use crate::writing::write_all;
use proc_macro2::PlacedTree;

/// The whole output for an input, known before its first byte is written.
#[derive(Drop)]
pub enum RunOutput {
    /// A text, which is written as it is.
    Text(String),
    /// Trees, each of which is written as a line.
    Trees(Vec<PlacedTree>),
}

/// Writes the output to the sink.
///
/// Returns `Io` if a write failed or took no bytes. A prefix of the output is written then.
pub fn write_output<W: ByteSink>(writer: &mut W, output: &RunOutput) -> Result<(), RunError>
    ensures ok { OnOk result (Appends (W.held writer.old) (W.held writer.new) (output_bytes output.now)) }
    ensures io { IfErr result (λ e. e ≡ RunError.Io) }
    ensures front { AppendsFront (W.held writer.old) (W.held writer.new) (output_bytes output.now) }
    ensures flag { W.has_failed writer.new ≡ (W.has_failed writer.old || is_err result) }
{
    match output {
        RunOutput::Text(text) => write_all(writer, text.as_bytes()),
        RunOutput::Trees(trees) => write_lines(writer, trees.as_slice()),
    }
}
