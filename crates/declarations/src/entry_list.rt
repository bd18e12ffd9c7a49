//! The entries of an attribute's list, one at a time.
ghost use Rattle.std.specs.Prelude.{◌≡◌, ◌<◌, IfOk, MatchResult, length};
ghost use Rattle.declarations.specs.Entry.{IsEntryAt};
ghost use Rattle.declarations.specs.EntryList.{IsEntryListFault};
ghost use Rattle.declarations.specs.List.{AreInside, IsFirst};

use crate::entry::{Entry, fault_without_comma, parse_entry};
use crate::fault::Fault;
use crate::list::past_comma;
use pm_stream::{Group, TokenTree};

/// The entries in a group of an attribute, in order. A `,` is between two entries, and may be after the last.
///
/// The iterator gives each entry as [`parse_entry`] reads it from the remaining trees. At an error it gives a `Fault`,
/// whose `at` counts from the start of the remaining trees, and then ends. It allocates nothing. For
/// `(skip, rename = "a")` it gives `skip` and `rename = "a"`.
///
/// ```text
/// for entry in Entries::new(group) {
///     let entry = entry?;
///     if entry.is("skip") { .. }
/// }
/// ```
#[derive(Clone, Copy, Debug)]
pub struct Entries<'a> {
    /// The trees that are not yet read.
    pub left: &'a [TokenTree],
}

impl<'a> Entries<'a> {
    /// Returns an iterator over the entries in this group, such as `(a, b)` in `#[name(a, b)]`.
    pub fn new(group: &'a Group) -> Entries<'a>
        ensures { AreInside result.left.now group.now }
    {
        Entries {
            left: group.stream_ref().trees(),
        }
    }
}

impl<'a> Iterator for Entries<'a> {
    ghost use Rattle.std.specs.Iterator.{at_most};
    ghost use Rattle.declarations.specs.EntryList.{GivesEntry};

    type Item = Result<Entry<'a>, Fault>;

    ghost next_gives = { GivesEntry };

    // At most as many elements come as trees are left.
    ghost remaining = { λ list. at_most (length list.left.now) };

    fn next(&mut self) -> Option<Result<Entry<'a>, Fault>> {
        if self.left.is_empty() {
            return None;
        }
        match first_entry(self.left) {
            Ok((entry, left)) => {
                self.left = left;
                Some(Ok(entry))
            }
            Err(fault) => {
                self.left = &[];
                Some(Err(fault))
            }
        }
    }
}

/// The first entry of a list, and the trees after its comma.
pub(crate) fn first_entry(trees: &[TokenTree]) -> Result<(Entry<'_>, &[TokenTree]), Fault>
    ensures given { MatchResult result (λ found. IsFirst IsEntryAt trees.now found.0 found.1.now)
        (λ fault. IsEntryListFault trees.now fault) }
    ensures fewer { IfOk result (λ found. length found.1.now < length trees.now) }
{
    match parse_entry(trees) {
        Ok((entry, rest)) => match past_comma(rest) {
            Some(left) => Ok((entry, left)),
            None => Err(fault_without_comma(trees, &entry, rest)),
        },
        Err(fault) => Err(fault),
    }
}
