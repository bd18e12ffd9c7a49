//! Compares the chosen white space with that of a simpler implementation, for random texts.
ghost use Rattle.std.specs.Prelude.{◌<◌};

use crate::choosing::{IndentStyle, choices as choices_now};
use lexical::parts::begins;
use lexical::{PieceKind, PlacedPiece, pieces};
use relayout::White;
use std::alloc::{AllocError, Global};
use std::test::Fail;

/// The number of texts.
const TEXTS: u32 = 4_000;

/// The parts of which the texts consist.
const PARTS: &[&str] = &[
    " ",
    " ",
    "  ",
    "      ",
    "\t",
    "\n",
    "\n",
    "\n    ",
    "\r\n",
    "\r",
    "\u{b}",
    "\u{c}",
    "\u{85}",
    "\u{a0}",
    "\u{feff}",
    "\u{2028}",
    "\u{200e}",
    "(",
    "(",
    "{",
    "[",
    ")",
    ")",
    "}",
    "]",
    "a",
    "é",
    "+",
    "/",
    "// b\n",
    "// c",
    "/* d\n */",
    "/// e\n",
    "\"f\n\"",
    "\"",
    "'",
    "'g'",
    "1.5",
];

/// A generator of random numbers.
#[derive(Drop)]
struct Random {
    /// The last number, which isn't 0.
    state: u64,
}

impl Random {
    /// Returns a number below the bound, which isn't 0.
    fn below(&mut self, bound: u64) -> u64
        requires { 0 < bound }
        ensures { result < bound }
    {
        self.state ^= self.state << 13;
        self.state ^= self.state >> 7;
        self.state ^= self.state << 17;
        self.state % bound
    }

    /// Returns a text of some parts.
    fn text(&mut self, alloc: Global) -> Result<String, AllocError> {
        let mut text = String::new(alloc);
        for _ in 0..self.below(24) {
            let at = self.below(38) as usize;
            text.push_str(PARTS.get(at).copied().unwrap_or(""))?;
        }
        Ok(text)
    }
}

#[test]
fn the_same_is_chosen_as_by_the_code_of_the_start(rt: HostRuntime) -> Result<(), Fail> {
    let alloc = rt.alloc();
    let mut random = Random { state: 59 };
    let mut runs: usize = 0;
    for number in 0..TEXTS {
        let text = random.text(alloc)?;
        let step = if number % 2 == 0 {
            IndentStyle::Tab
        } else {
            IndentStyle::Spaces(3)
        };
        let now = choices_now(alloc, text.as_str(), step)?;
        let then = choices(alloc, text.as_str(), step)?;
        assert_eq!(rt; now.as_slice(), then.as_slice(), "of {text:?}");
        runs = runs.saturating_add(now.len());
    }
    assert!(rt; runs > 5_000, "{runs}");
    Ok(())
}

// ---- the simpler implementation

/// The white space before a piece.
#[derive(Clone, Copy, PartialEq)]
enum Run {
    // No white space.
    Nothing,
    // White space without a line end.
    WithinLine,
    // White space with a line end.
    EndsLine,
}

fn choices(alloc: Global, text: &str, step: IndentStyle) -> Result<Vec<White>, AllocError> {
    let mut choices = Vec::new(alloc);
    let mut open: usize = 0;
    let mut run = Run::Nothing;
    let mut here = text;
    let mut walk = pieces(text);
    while let Some(next) = walk.next_piece() {
        let line = here;
        here = walk.rest();
        if is_white(next) {
            run = with_white(run, next.text);
            continue;
        }
        push_choice(&mut choices, run, line, open, step)?;
        run = Run::Nothing;
        open = open_after(next, open);
    }
    push_choice(&mut choices, run, "", 0, step)?;
    Ok(choices)
}

/// Whether the piece is a white character.
fn is_white(next: PlacedPiece<'_>) -> bool {
    match next.piece.kind {
        PieceKind::Gap => !begins(next.text, "/"),
        _ => false,
    }
}

/// Returns the run with more white space.
fn with_white(run: Run, more: &str) -> Run {
    if run == Run::EndsLine || more.contains('\n') {
        Run::EndsLine
    } else {
        Run::WithinLine
    }
}

/// Returns how many groups are open after the piece.
fn open_after(next: PlacedPiece<'_>, open: usize) -> usize {
    match next.piece.kind {
        PieceKind::Opener(_) => open.saturating_add(1),
        PieceKind::Closer(_) => open.saturating_sub(1),
        _ => open,
    }
}

/// Adds the choice for a run of white space, if there is one. `rest` follows the run, and `open` groups are open there.
fn push_choice(
    choices: &mut Vec<White>,
    run: Run,
    rest: &str,
    open: usize,
    step: IndentStyle,
) -> Result<(), AllocError> {
    match run {
        Run::Nothing => {}
        Run::WithinLine => choices.push(White::Kept)?,
        Run::EndsLine => choices.push(indentation(open.saturating_sub(closers(rest)), step))?,
    }
    Ok(())
}

/// Returns how many closers are at the start of the line.
fn closers(line: &str) -> usize {
    let mut count: usize = 0;
    for c in line.chars() {
        match c {
            ')' | ']' | '}' => count = count.saturating_add(1),
            ' ' | '\t' => {}
            _ => break,
        }
    }
    count
}

/// Returns the white space that begins a line on this level.
fn indentation(level: usize, step: IndentStyle) -> White {
    match step {
        IndentStyle::Tab => White::Lines {
            tabs: level,
            spaces: 0,
        },
        IndentStyle::Spaces(width) => White::Lines {
            tabs: 0,
            spaces: level.saturating_mul(usize::from(width)),
        },
    }
}
