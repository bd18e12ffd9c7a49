//! The two lines of the output between which an allocation fails, and the result after them.

use crate::fails::Fail;
use std::fmt::Debug;
use std::io::Write;

/// Writes the line before a call.
pub fn begin<W: Write>(out: &mut W) -> Result<(), Fail> {
    out.write_all(b"call\n")?;
    Ok(())
}

/// Writes the line after a call.
pub fn end<W: Write>(out: &mut W) -> Result<(), Fail> {
    out.write_all(b"answered\n")?;
    Ok(())
}

/// Writes the line after a call, and the call's result.
pub fn show<W: Write, A: Debug + Drop>(out: &mut W, answer: A) -> Result<(), Fail> {
    end(out)?;
    writeln!(out, "{answer:?}")?;
    Ok(())
}
