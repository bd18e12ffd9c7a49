//! A reason, and the wrong part of the text as cursors.

use crate::reason::Reason;
use lexical::parts::TextCursor;

/// Why no piece begins at a cursor.
#[derive(Drop)]
pub struct Trouble<'a> {
    /// The reason.
    pub reason: Reason,
    /// The cursor before the wrong part of the text.
    pub at: TextCursor<'a>,
    /// The cursor after the wrong part of the text.
    pub after: TextCursor<'a>,
}
