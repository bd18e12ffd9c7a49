//! Why a text doesn't parse, and where.
//!
//! [`explain`] answers a [`Reason`] with what is at fault, as bytes and as a span. Proved is that one of the 19 reasons
//! is answered at each fault, that it holds by its own definition in `specs/Reason.antt`, which is in the words of the
//! grammar's rules and of the escaper's items, and that the bytes and the span are what the definition speaks of; that
//! no other reason explains the text, each holds at one place of it, and none where a piece stands ([`laws`]); that
//! `None` is answered only for a text that parses; and which openers no closer matches up to the fault, each by its
//! kind, its bytes and its span.
//!
//! [`advice`] has further places that help to mend a fault, by definitions of their own in `specs/Hint.antt`: which
//! comment in an unclosed one ended last, and which quote came nearest to ending an unclosed raw string.
#![tactic(auto)]

mod comment_hints;
mod contents;
mod explained;
mod explaining;
mod hints;
pub mod laws;
mod letters;
mod numbers;
mod quote_hints;
mod quotes;
mod raw_contents;
mod reason;
mod single_contents;
mod strings;
mod stuck;
mod trouble;
mod words;

pub use crate::explained::{ExplainError, Explained, Opener, Stretch};
pub use crate::explaining::explain;
pub use crate::hints::{Hint, advice};
pub use crate::reason::Reason;
