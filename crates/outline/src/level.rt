//! The part of a file that is open while its items are read.
ghost use Rattle.std.specs.Prelude.{◌≡◌, drop, map as mapped};
ghost use Rattle.token_buffer.specs.Reads.{left};
ghost use Rattle.outline.specs.Hollow.{hollow, trees_in};

use pm_stream::TokenTree;
use token_buffer::Cursor;

/// A file, or the braces of a declaration. Some of its items may have been read.
#[derive(Drop)]
pub struct Level<'a> {
    /// The trees of the level. Almost all groups in them are empty.
    pub trees: Vec<TokenTree>,
    /// The number of trees that have been read.
    pub at: usize,
    /// The trees that are left, with all that is in their groups.
    pub rest: Cursor<'a>,
    ghost even: { drop at trees.items ≡ mapped hollow (trees_in (left rest)) },
}
