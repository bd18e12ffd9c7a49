//! Reads the contents of literals, item by item: their characters or bytes, and their errors.
//!
//! The rules are in docs/GRAMMAR.md under "Escaper items"; their exact definitions are in `specs/`. No call allocates
//! memory, and each call returns for every text.
//!
//! A rule is named by its label in backquotes, such as `item-hex`. `docs/GRAMMAR.md` lists all rules with their
//! definitions.
#![tactic(auto)]

mod check;
mod check_raw;
mod classes;
mod content_cursor;
mod cooked;
mod errors;
mod escape;
mod front;
mod kind;
pub mod laws;
mod mixed_unit;
mod mode;
mod num;
mod raw;
mod single;
mod unescape;

pub use crate::check::{CheckForErrors, check_for_errors};
pub use crate::check_raw::{
    CheckRawByteStr, CheckRawCStr, CheckRawStr, check_raw_byte_str, check_raw_c_str, check_raw_str,
};
pub use crate::errors::EscapeError;
pub use crate::mixed_unit::MixedUnit;
pub use crate::mode::Mode;
pub use crate::num::{NonZeroChar, NonZeroU8};
pub use crate::unescape::{
    UnescapeByteStr, UnescapeCStr, UnescapeStr, unescape_byte, unescape_byte_str, unescape_c_str,
    unescape_char, unescape_str,
};
