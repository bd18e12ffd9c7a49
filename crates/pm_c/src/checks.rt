//! Checks whether texts are names or literals.
ghost use Rattle.pm_c.specs.Calls.{IdentAnswer, LiteralAnswer};

use crate::codes::{
    DONE, NAME_EMPTY, NAME_INVALID, NAME_NUMBER, NAME_RESERVED, NO_LITERAL, NO_MEMORY, NOT_UTF8,
};
use proc_macro2::{Ident, IdentError, Literal, Span};
use std::alloc::Global;
use std::str;

/// Returns the code that says whether `name` is the name of an identifier, or why it is not.
pub(crate) fn ident(alloc: Global, name: &[u8], raw: bool) -> u32
    ensures { IdentAnswer raw name.now result }
{
    let Ok(name) = str::from_utf8(name) else {
        return NOT_UTF8;
    };
    let made = if raw {
        Ident::new_raw(alloc, name, Span::call_site())
    } else {
        Ident::new(alloc, name, Span::call_site())
    };
    match made {
        Ok(_) => DONE,
        Err(IdentError::Empty) => NAME_EMPTY,
        Err(IdentError::Number) => NAME_NUMBER,
        Err(IdentError::Invalid) => NAME_INVALID,
        Err(IdentError::Reserved) => NAME_RESERVED,
        Err(IdentError::Memory(_)) => NO_MEMORY,
    }
}

/// Returns the code that says whether the text is a literal.
pub(crate) fn literal(text: &[u8]) -> u32
    ensures { LiteralAnswer text.now result }
{
    match str::from_utf8(text) {
        Ok(text) => {
            if Literal::is_whole(text) {
                DONE
            } else {
                NO_LITERAL
            }
        }
        Err(_) => NOT_UTF8,
    }
}
