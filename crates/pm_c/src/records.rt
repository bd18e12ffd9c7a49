//! The records that calls return to C. `dev/header.py` makes the structs of `pm_c.h` from these.
ghost use Rattle.std.specs.Prelude.{◌≡◌};
ghost use Rattle.pm_c.specs.declared.codes.TheConstants.{DONE};

use crate::codes::DONE;

/// The result of a call. If the code is not `DONE`, only `code` has a meaning, and `number` if the code's comment names
/// it.
#[repr(C)]
#[derive(Clone, Copy)]
pub struct PmAnswer {
    /// The code of the call.
    pub code: u32,
    /// A number, whose meaning the comment of the call gives.
    pub number: u32,
    /// The number of bytes in what the call made, unless its comment gives another meaning.
    pub bytes: usize,
}

impl PmAnswer {
    /// Returns the result of a call that failed with this code.
    pub(crate) fn with_error(code: u32) -> PmAnswer
        ensures { result.code ≡ code }
    {
        PmAnswer {
            code,
            number: 0,
            bytes: 0,
        }
    }

    /// Returns the result of a call that succeeded.
    pub(crate) fn success(number: u32, bytes: usize) -> PmAnswer
        ensures { result ≡ record { code = DONE; number = number; bytes = bytes } }
    {
        PmAnswer {
            code: DONE,
            number,
            bytes,
        }
    }
}

/// A tree of a stream, as `pm_list` lists it.
#[repr(C)]
#[derive(Clone, Copy)]
pub struct PmTree {
    /// 0 for a group, 1 for an identifier, 2 for a mark, 3 for a literal.
    pub kind: u8,
    /// For a group 0 for ( ), 1 for { }, 2 for [ ], 3 for no delimiters; for a mark 1 if it is joint; else 0.
    pub detail: u8,
    /// The position where it begins, in characters.
    pub lo: u32,
    /// The position where it ends, in characters.
    pub hi: u32,
    /// The byte offset of its text in the session's text; for a mark its character; for a group 0.
    pub start: u32,
    /// The number of bytes in its text; for a group the number of trees directly inside it; for a mark 0.
    pub count: u32,
}

/// A piece of a text.
#[repr(C)]
#[derive(Clone, Copy)]
pub struct PmPiece {
    /// 0 for the mark U+FEFF at the start, 1 for a white character, 2 for a comment, 3 for a doc comment, 4 for an
    /// opener, 5 for a closer, 6 for a literal, 7 for a mark, 8 for an identifier.
    pub kind: u8,
    /// 1 for a doc comment with `!`, for a joint mark and for an identifier with `r#`; else 0.
    pub detail: u8,
    /// The byte offset in the text where it begins.
    pub start: u32,
    /// The number of its bytes.
    pub count: u32,
}

/// Why a text doesn't parse, and where. All offsets are in bytes of the text.
#[repr(C)]
#[derive(Clone, Copy)]
pub struct PmExplanation {
    /// The code of the call.
    pub code: u32,
    /// 0 if the text parses, else one of the values of `pm_reason`.
    pub reason: u32,
    /// For an error in the content of a literal, one of the values of `pm_escape`; else 0.
    pub detail: u32,
    /// The offset at which the text is rejected.
    pub fault: usize,
    /// The offset where the part that is wrong begins. It may be later than `fault`: for a digit that is too large for
    /// the base, say.
    pub start: usize,
    /// The offset where the part that is wrong ends.
    pub end: usize,
    /// The offset where the innermost opener begins that no closer before the error matches; 0 if there is none.
    pub opener_start: usize,
    /// The offset where that opener ends; 0 if there is none.
    pub opener_end: usize,
}

/// A line and a column.
#[repr(C)]
#[derive(Clone, Copy)]
pub struct PmLineColumn {
    /// The code of the call.
    pub code: u32,
    /// The line, counted from 1.
    pub line: usize,
    /// The column in characters, counted from 0.
    pub column: usize,
}

/// A part of a text, in byte offsets or in positions.
#[repr(C)]
#[derive(Clone, Copy)]
pub struct PmRange {
    /// The code of the call.
    pub code: u32,
    /// Where the part begins.
    pub start: usize,
    /// Where the part ends.
    pub end: usize,
}

impl PmRange {
    /// Returns the result of a call that failed with this code.
    pub(crate) fn with_error(code: u32) -> PmRange
        ensures { result.code ≡ code }
    {
        PmRange {
            code,
            start: 0,
            end: 0,
        }
    }

    /// Returns the result of a call that succeeded.
    pub(crate) fn success(start: usize, end: usize) -> PmRange
        ensures { result ≡ record { code = DONE; start = start; end = end } }
    {
        PmRange {
            code: DONE,
            start,
            end,
        }
    }
}

impl PmLineColumn {
    /// Returns the result of a call that failed with this code.
    pub(crate) fn with_error(code: u32) -> PmLineColumn
        ensures { result.code ≡ code }
    {
        PmLineColumn {
            code,
            line: 0,
            column: 0,
        }
    }
}

impl PmExplanation {
    /// Returns a result that has only a code: the text parses, or it was not read.
    pub(crate) fn without_reason(code: u32) -> PmExplanation
        ensures code { result.code ≡ code }
        ensures none { result.reason ≡ 0 }
    {
        PmExplanation {
            code,
            reason: 0,
            detail: 0,
            fault: 0,
            start: 0,
            end: 0,
            opener_start: 0,
            opener_end: 0,
        }
    }
}
