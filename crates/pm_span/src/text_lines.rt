//! One pass over a text, which finds its lines and counts its characters.
ghost use Rattle.std.specs.Prelude.{◌≡◌, ◌<◌, ◌^◌, length, IfOk};
ghost use Rattle.std.specs.Str.{chars};
ghost use Rattle.pm_span.specs.LineIndex.{after_line_feeds};

use crate::text::{FirstLine, first_line};
use std::alloc::{AllocError, Global};

/// The result of one pass over a text.
#[derive(Drop)]
pub(crate) struct Lines {
    /// The offset after each line feed, in characters.
    pub(crate) starts: Vec<u32>,
    /// The number of characters in the text.
    pub(crate) count: u32,
}

/// Finds the lines of the text. Out of memory is the only error.
#[inline(always)]
pub(crate) fn find_lines(alloc: Global, text: &str) -> Result<Lines, AllocError>
    requires { length (chars text.now) < 2 ^ 32 }
    ensures starts { IfOk result (λ lines. lines.starts.items ≡ after_line_feeds (chars text.now)) }
    ensures count { IfOk result (λ lines. lines.count ≡ length (chars text.now)) }
{
    let mut starts = Vec::new(alloc);
    let mut start = 0;
    let mut rest = text;
    loop {
        let FirstLine { count, split } = first_line(rest);
        match split {
            Some((_, after)) => {
                start = start + count as u32 + 1;
                starts.push(start)?;
                rest = after;
            }
            None => {
                return Ok(Lines {
                    starts,
                    count: start + count as u32,
                });
            }
        }
    }
}
