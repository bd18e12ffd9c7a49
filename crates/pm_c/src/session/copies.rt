//! Copies the results of a session into buffers.
ghost use Rattle.std.specs.String.{string_bytes};
ghost use Rattle.pm_c.specs.Calls.{CopyAnswer};

use crate::codes::{DONE, NO_ROOM};
use crate::records::{PmPiece, PmTree};
use crate::session::Session;

impl Session {
    /// Copies the session's text into a buffer of its length.
    pub(crate) fn copy_text(&self, into: &mut [u8]) -> u32
        ensures { CopyAnswer (string_bytes self.now.text) into.old into.new result }
    {
        copy(self.text.as_bytes(), into)
    }

    /// Copies the session's bytes into a buffer of their number.
    pub(crate) fn copy_bytes(&self, into: &mut [u8]) -> u32
        ensures { CopyAnswer self.now.bytes.items into.old into.new result }
    {
        copy(self.bytes.as_slice(), into)
    }

    /// Copies the records of trees into a buffer of their number.
    pub(crate) fn copy_trees(&self, into: &mut [PmTree]) -> u32
        ensures { CopyAnswer self.now.trees.items into.old into.new result }
    {
        copy(self.trees.as_slice(), into)
    }

    /// Copies the records of pieces into a buffer of their number.
    pub(crate) fn copy_pieces(&self, into: &mut [PmPiece]) -> u32
        ensures { CopyAnswer self.now.pieces.items into.old into.new result }
    {
        copy(self.pieces.as_slice(), into)
    }
}

/// Copies the items into a buffer of exactly their number. A buffer of any other length is not written.
fn copy<T: Copy>(lent: &[T], into: &mut [T]) -> u32
    ensures { CopyAnswer lent.now into.old into.new result }
{
    if lent.len() != into.len() {
        return NO_ROOM;
    }
    into.copy_from_slice(lent);
    DONE
}
