//! The trees of a stream as records, in reading order.
ghost use Rattle.std.specs.Prelude.{◌≡◌, ◌++◌, ◌≤◌, flat_map, length, string_bytes, IfErr, IfOk, OnErr, OnOk};
ghost use Rattle.proc_macro2.specs.InOrder.{in_order};
ghost use Rattle.pm_c.specs.Listing.{
  IsLongTree,
  IsTooLong,
  error_code,
  delimiter_number,
  kept_text,
  record_of,
  records_from,
  spacing_number,
  width,
};

use crate::codes::{NO_MEMORY, TOO_LONG};
use crate::records::PmTree;
use pm_span::parts::bounds;
use proc_macro2::{Delimiter, Spacing, TokenStream, TokenTree};
use std::alloc::{AllocError, AllocFailed};
use std::fmt::Write;

/// Why a stream cannot be listed.
#[derive(Drop)]
pub(crate) enum ListError {
    /// A count doesn't fit in 32 bits.
    TooLong,
    /// Memory ran out.
    Memory,
}

impl ListError {
    /// Returns the code of the error.
    pub(crate) fn code(&self) -> u32
        ensures { result ≡ error_code self.now }
    {
        match self {
            ListError::TooLong => TOO_LONG,
            ListError::Memory => NO_MEMORY,
        }
    }
}

impl From<AllocError> for ListError {
    ghost use Rattle.std.specs.Prelude.{◌≡◌};
    ghost use Rattle.pm_c.specs.declared.listing.ListError.TheVariants.{Memory};

    ghost from_gives = { λ _ error. error ≡ Memory };

    fn from(_error: AllocError) -> ListError {
        ListError::Memory
    }
}

impl<T: Drop> From<AllocFailed<T>> for ListError {
    ghost use Rattle.std.specs.Prelude.{◌≡◌};
    ghost use Rattle.pm_c.specs.declared.listing.ListError.TheVariants.{Memory};

    ghost from_gives = { λ _ error. error ≡ Memory };

    fn from(_error: AllocFailed<T>) -> ListError {
        ListError::Memory
    }
}

/// Replaces `trees` by the records of a stream's trees, each group before the trees inside it, and `text` by the texts
/// of its identifiers and literals, one after another. Returns the number of records.
pub(crate) fn list(
    stream: &TokenStream,
    trees: &mut Vec<PmTree>,
    text: &mut String,
) -> Result<u32, ListError>
    ensures count { IfOk result (λ count. count ≡ length trees.new.items) }
    ensures trees { OnOk result (trees.new.items ≡ records_from 0 (in_order stream.now)) }
    ensures text { OnOk result (string_bytes text.new ≡ flat_map kept_text (in_order stream.now)) }
    ensures too_long { IfErr result (λ error. error ≡ ListError.TooLong → IsTooLong stream.now) }
{
    trees.clear();
    text.clear();
    let mut walk = stream.walk();
    while let Some(tree) = walk.next()? {
        let record = record_of(tree, text)?;
        trees.push(record)?;
    }
    narrow(trees.len())
}

/// Returns the record of a tree, and appends the tree's text to `text`.
fn record_of(tree: &TokenTree, text: &mut String) -> Result<PmTree, ListError>
    ensures record { IfOk result (λ made. made ≡ record_of (length (string_bytes text.old)) tree.now) }
    ensures text { OnOk result (string_bytes text.new ≡ string_bytes text.old ++ kept_text tree.now) }
    ensures too_long { IfErr result (λ error. error ≡ ListError.TooLong
        → IsLongTree (length (string_bytes text.old)) tree.now) }
{
    let (lo, hi) = bounds(tree.span());
    let start = narrow(text.len())?;
    match tree {
        TokenTree::Group(group) => Ok(PmTree {
            kind: 0,
            detail: delimiter_number(group.delimiter()),
            lo,
            hi,
            start: 0,
            count: narrow(width(group.stream_ref()))?,
        }),
        TokenTree::Ident(ident) => {
            write!(text, "{ident}")?;
            Ok(PmTree {
                kind: 1,
                detail: 0,
                lo,
                hi,
                start,
                count: narrow(text.len())? - start,
            })
        }
        TokenTree::Punct(punct) => Ok(PmTree {
            kind: 2,
            detail: spacing_number(punct.spacing()),
            lo,
            hi,
            start: punct.as_char() as u32,
            count: 0,
        }),
        TokenTree::Literal(literal) => {
            write!(text, "{literal}")?;
            Ok(PmTree {
                kind: 3,
                detail: 0,
                lo,
                hi,
                start,
                count: narrow(text.len())? - start,
            })
        }
    }
}

/// Returns how many trees a stream has, without those inside groups.
fn width(stream: &TokenStream) -> usize
    ensures { result ≡ width stream.now }
{
    stream.trees().len()
}

/// Returns the number of a delimiter.
pub(crate) fn delimiter_number(delimiter: Delimiter) -> u8
    ensures { result ≡ delimiter_number delimiter }
{
    match delimiter {
        Delimiter::Parenthesis => 0,
        Delimiter::Brace => 1,
        Delimiter::Bracket => 2,
        Delimiter::None => 3,
    }
}

/// Returns the number of a spacing.
pub(crate) fn spacing_number(spacing: Spacing) -> u8
    ensures { result ≡ spacing_number spacing }
{
    match spacing {
        Spacing::Alone => 0,
        Spacing::Joint => 1,
    }
}

/// Returns the count as a number of 32 bits, if it fits.
pub(crate) fn narrow(count: usize) -> Result<u32, ListError>
    ensures ok { IfOk result (λ narrow. narrow ≡ count) }
    ensures too_long { OnErr result (4294967296 ≤ count) }
{
    if count > 0xFFFF_FFFF {
        return Err(ListError::TooLong);
    }
    Ok(count as u32)
}
