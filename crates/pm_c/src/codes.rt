//! The codes that calls return. `dev/header.py` makes the codes of `pm_c.h` from these lines, and lists the codes of
//! each call.

/// The call succeeded.
pub const DONE: u32 = 0;
/// The text has a syntax error at the position `number`.
pub const FAULT: u32 = 1;
/// The positions of the session's texts would pass 4294967295.
pub const MAP_FULL: u32 = 2;
/// Memory ran out.
pub const NO_MEMORY: u32 = 3;
/// The bytes aren't UTF-8.
pub const NOT_UTF8: u32 = 4;
/// The session has no stream with this number.
pub const NO_STREAM: u32 = 5;
/// The buffer's length is not exactly that of what is to be copied.
pub const NO_ROOM: u32 = 6;
/// The handle isn't live: it has no session.
pub const NOT_LIVE: u32 = 7;
/// A count doesn't fit in 32 bits.
pub const TOO_LONG: u32 = 8;
/// The name is empty.
pub const NAME_EMPTY: u32 = 9;
/// The name has digits only.
pub const NAME_NUMBER: u32 = 10;
/// The name is not that of an identifier.
pub const NAME_INVALID: u32 = 11;
/// The name can't be raw: `_`, `super`, `self`, `Self` or `crate`.
pub const NAME_RESERVED: u32 = 12;
/// The text is not a literal.
pub const NO_LITERAL: u32 = 13;
/// The literal is of another kind, or has a suffix.
pub const OTHER_KIND: u32 = 14;
/// The literal's content has an error: `number` is one of the values of `pm_escape`.
pub const NOT_UNESCAPED: u32 = 15;
/// No text of the session contains the span.
pub const NOT_HELD: u32 = 16;
/// The number is not a character, or one of the bytes is zero.
pub const NO_CHARACTER: u32 = 17;
/// No text of the session contains both spans.
pub const NOT_JOINED: u32 = 18;
