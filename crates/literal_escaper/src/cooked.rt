//! Reads contents with escapes, item by item.

ghost use Rattle.std.specs.Iterator.{YieldsFirst};
ghost use Rattle.literal_escaper.specs.Unescaping.{cooked_left};

use crate::content_cursor::ContentCursor;
use crate::errors::EscapeError;
use crate::front::{Front, Item, next_front};
use crate::kind::Unescape;
use std::ops::Range;

/// The rest of a content with escapes.
#[derive(Drop)]
pub struct Cooked<'a> {
    /// The cursor at which the rest begins.
    pub cursor: ContentCursor<'a>,
    /// The range of a warning about a white character. If there is one, it is the next item.
    pub warning: Option<Range<usize>>,
}

impl<'a> Cooked<'a> {
    ghost use Rattle.std.specs.Prelude.{◌≡◌, None};
    ghost use Rattle.std.specs.Str.{chars};
    ghost use Rattle.literal_escaper.specs.Unescaping.{text_at};
    ghost use Rattle.literal_escaper.specs.Text.{bytes};

    /// Returns the content with the cursor at its start.
    pub fn new(content: &'a str) -> Self
        ensures rest { text_at result.cursor ≡ chars content.now }
        ensures end { result.cursor.end ≡ bytes (chars content.now) }
        ensures warning { result.warning ≡ None }
    {
        Cooked {
            cursor: ContentCursor::new(content),
            warning: None,
        }
    }
}

/// Returns the next item of the content, and moves past it.
pub fn next_item<K: Unescape>(content: &mut Cooked<'_>) -> Option<Item<K::Unit>>
    ensures { YieldsFirst (cooked_left K.kind) content.old result content.new }
{
    if let Some(range) = content.warning.take() {
        return Some((range, Err(EscapeError::UnskippedWhitespaceWarning)));
    }
    let Front {
        item,
        warning,
        after,
    } = next_front::<K>(content.cursor);
    content.cursor = after;
    content.warning = warning;
    item
}
