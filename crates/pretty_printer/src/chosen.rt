//! The gaps of a stream, once they are all chosen, and the marks that are to be joined.
use crate::atoms::White;
use layout::{Chooser, Gap, GapContext};
use quoting::join::Visit;
use std::alloc::AllocError;

/// How far a list of trees is read: up to an atom.
#[derive(Clone, Copy)]
pub struct ListPosition {
    /// The index of the next atom, and the one after the last.
    pub at: usize,
    pub end: usize,
    /// The number of trees before the next atom.
    pub trees: usize,
}

/// The gaps before the tokens, openers and closers of a stream.
#[derive(Drop)]
pub struct Chosen {
    pub gaps: Vec<White>,
    /// The index of the next of them.
    pub at: usize,
    /// The marks that are to be joined, in reading order, with each group around them before the marks inside it.
    pub visits: Vec<Visit>,
    /// The number of groups around the next atom that are among them.
    pub entered: usize,
}

impl Chosen {
    /// Adds the gap before the next token, opener or closer.
    #[inline(always)]
    pub fn add(&mut self, gap: White) -> Result<(), AllocError> {
        self.gaps.push(gap)?;
        Ok(())
    }

    /// Wants the mark to be joined that is before the next atom of a list in these lists.
    #[inline(never)]
    pub fn want(&mut self, outer: &[ListPosition], here: &ListPosition) -> Result<(), AllocError> {
        for depth in self.entered..outer.len().saturating_add(1) {
            let index = outer.get(depth).unwrap_or(here).trees.saturating_sub(1);
            self.visits.push(Visit { depth, index })?;
        }
        self.entered = outer.len();
        Ok(())
    }
}

impl Chooser for Chosen {
    #[inline(always)]
    fn gap(&mut self, _place: GapContext<'_>) -> Gap {
        let gap = self.gaps.get(self.at);
        self.at = self.at.wrapping_add(1);
        match gap {
            Some(White::Space) => Gap::Space,
            Some(White::Line(column)) => Gap::Line(*column as usize),
            Some(White::Blank(column)) => Gap::Blank(*column as usize),
            // A stream with tokens ends with a line.
            None if self.at > 1 => Gap::Line(0),
            _ => Gap::Nothing,
        }
    }
}
