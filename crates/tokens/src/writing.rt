//! Writes bytes to a sink.
ghost use Rattle.std.specs.Prelude.{◌≡◌, ◌||◌, is_err, OnOk, IfErr};
ghost use Rattle.std.specs.Io.KnownBytes.{Appends};
ghost use Rattle.tokens.specs.Known.{AppendsFront};

use crate::errors::RunError;
use crate::sinks::ByteSink;

/// Writes all the bytes, in as many calls as the sink needs.
///
/// Returns `Io` if a write failed or took no bytes. A prefix of the bytes is written then.
pub fn write_all<W: ByteSink>(writer: &mut W, bytes: &[u8]) -> Result<(), RunError>
    ensures ok { OnOk result (Appends (W.held writer.old) (W.held writer.new) bytes.now) }
    ensures io { IfErr result (λ e. e ≡ RunError.Io) }
    ensures front { AppendsFront (W.held writer.old) (W.held writer.new) bytes.now }
    ensures flag { W.has_failed writer.new ≡ (W.has_failed writer.old || is_err result) }
{
    let mut rest = bytes;
    while !rest.is_empty() {
        match writer.write(rest) {
            Ok(0) | Err(_) => return Err(RunError::Io),
            Ok(n) => rest = &rest[n..],
        }
    }
    Ok(())
}
