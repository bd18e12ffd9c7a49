//! White space, and what replaces it.
ghost use Rattle.std.specs.Prelude.{◌≡◌, ◌++◌, IfOk, OnOk, false};
ghost use Rattle.std.specs.Str.{chars};
ghost use Rattle.relayout.specs.Written.{ends_line, line_end, line_ends, times, white_text};

use pm_token::parts::TextBuilder;
use std::alloc::AllocError;

/// What replaces a run of white characters.
#[derive(Clone, Copy, Debug, PartialEq, Eq)]
pub enum White {
    /// The run stays as it is.
    Kept,
    /// One space, or LF if the run follows a line comment.
    Space,
    /// The line ends of the run, each LF or CR LF, and after the last one tabs and then spaces. The run's other
    /// characters are dropped. A run without a line end stays as it is.
    Lines {
        /// The number of tabs after the last line end.
        tabs: usize,
        /// The number of spaces after the tabs.
        spaces: usize,
    },
}

/// Writes what the choice puts in place of a run. `line` says whether the run follows a line comment.
pub(crate) fn push_white(
    out: &mut TextBuilder,
    choice: White,
    line: bool,
    run: &str,
) -> Result<(), AllocError>
    ensures { OnOk result (out.new ≡ out.old ++ white_text choice line (chars run.now)) }
{
    match choice {
        White::Kept => out.push_text(run),
        White::Space if line => out.push('\n'),
        White::Space => out.push(' '),
        White::Lines { tabs, spaces } => push_lines(out, tabs, spaces, run),
    }
}

/// Writes the run's line ends, and then tabs and spaces. A run without a line end is written as it is.
fn push_lines(
    out: &mut TextBuilder,
    tabs: usize,
    spaces: usize,
    run: &str,
) -> Result<(), AllocError>
    ensures { OnOk result (out.new ≡ out.old ++ white_text (White.Lines tabs spaces) false (chars run.now)) }
{
    if !push_line_ends(out, run)? {
        return out.push_text(run);
    }
    push_times(out, '\t', tabs)?;
    push_times(out, ' ', spaces)
}

/// Writes the run's line ends, and returns whether there are any.
fn push_line_ends(out: &mut TextBuilder, run: &str) -> Result<bool, AllocError>
    ensures { IfOk result (λ ended. (ended ≡ ends_line (chars run.now))
        × (out.new ≡ out.old ++ line_ends false (chars run.now))) }
{
    let mut ended = false;
    let mut returned = false;
    for c in run.chars() {
        push_line_end(out, returned, c)?;
        ended = ended || c == '\n';
        returned = c == '\r';
    }
    Ok(ended)
}

/// Writes the character if it is LF. `returned` says that a CR precedes it, which is then written before it.
fn push_line_end(out: &mut TextBuilder, returned: bool, c: char) -> Result<(), AllocError>
    ensures { OnOk result (out.new ≡ out.old ++ line_end returned c) }
{
    match c {
        '\n' if returned => {
            out.push('\r')?;
            out.push('\n')
        }
        '\n' => out.push('\n'),
        _ => Ok(()),
    }
}

/// Writes the character `count` times.
fn push_times(out: &mut TextBuilder, c: char, count: usize) -> Result<(), AllocError>
    ensures { OnOk result (out.new ≡ out.old ++ times c count) }
{
    let mut left = count;
    while left > 0 {
        out.push(c)?;
        left -= 1;
    }
    Ok(())
}
