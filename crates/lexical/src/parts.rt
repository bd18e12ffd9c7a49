//! The steps of the lexer, for crates that say why no piece begins somewhere or go over all pieces. They are not meant
//! for users.

pub use crate::bytes::{Base, Class, one, skip};
pub use crate::class::{PieceStart, piece_start_of};
pub use crate::comments::skip_comment;
pub use crate::cursor::TextCursor;
pub use crate::identifiers::name;
pub use crate::quoted::StringKind;
pub use crate::search::{skip_to, skip_to_either};
pub use crate::skip::one as one_that;
pub use crate::text::{before, begins};
