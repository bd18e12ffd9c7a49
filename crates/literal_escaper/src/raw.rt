//! Reads raw contents, item by item.

ghost use Rattle.std.specs.Prelude.{◌≡◌};
ghost use Rattle.std.specs.Iterator.{YieldsFirst};
ghost use Rattle.literal_escaper.specs.Items.{raw_unit};
ghost use Rattle.literal_escaper.specs.Unescaping.{raw_left};

use crate::classes::{ContentClass, holds};
use crate::content_cursor::ContentCursor;
use crate::errors::EscapeError;
use crate::front::Item;
use crate::kind::CheckRaw;

/// Returns the unit of a character of a raw content, or an error.
fn unit<K: CheckRaw>(c: char) -> Result<K::Unit, EscapeError>
    ensures { result ≡ raw_unit K.unit_of c }
{
    if holds(ContentClass::RawSpecial, c) {
        Err(EscapeError::BareCarriageReturnInRawString)
    } else {
        K::of_char(c)
    }
}

/// Returns the next item of a raw content, and moves the cursor past it.
#[tactic(auto, unfolding(crate::specs::Items::raw_items_from))]
pub fn next_raw_item<K: CheckRaw>(cursor: &mut ContentCursor<'_>) -> Option<Item<K::Unit>>
    ensures { YieldsFirst (raw_left K.unit_of) cursor.old result cursor.new }
{
    let (c, after) = cursor.advance()?;
    let range = cursor.byte_offset()..after.byte_offset();
    *cursor = after;
    Some((range, unit::<K>(c)))
}
