//! An attribute as one entry.
ghost use Rattle.std.specs.Prelude.{[], IfErr, IfOk};
ghost use Rattle.declarations.specs.Ending.{EndsAt, closing_of};
ghost use Rattle.declarations.specs.Entry.{IsEntryAt, IsEntryFault};
ghost use Rattle.declarations.specs.EntryExpects.{ExpectsEntry};
ghost use Rattle.pm_stream.specs.DocGroup.{trees_of};

use crate::attribute::Attribute;
use crate::entry::{Entry, whole_entry};
use crate::fault::Fault;

impl<'a> Attribute<'a> {
    /// Returns the trees in the brackets as one entry: a path, a path and a list, or a path, `=` and an expression.
    ///
    /// `#[name(a, b)]` gives the entry `name(a, b)`, whose list `Entries` can read, and `#[path = "a.rs"]` gives the
    /// entry `path = "a.rs"`. If the trees in the brackets are not exactly one entry, the call returns a `Fault`, whose
    /// `at` counts the trees in the brackets. If trees are missing at the end, its span is that of the closing bracket.
    /// [`args`](Attribute::args) returns trees of any other form as they are. The call allocates nothing.
    ///
    /// If a macro by example passed the entry or its path in a group without delimiters, as `$m:meta` or `$p:path`,
    /// the trees inside are read, as by [`parse_entry`](crate::parse_entry). That call also says where an
    /// error inside of such a group is.
    pub fn entry(&self) -> Result<Entry<'a>, Fault>
        ensures ok { IfOk result (λ entry. IsEntryAt (trees_of self.now.group.now.stream) entry []) }
        ensures err { IfErr result (EndsAt (closing_of self.now.group.now)
            (IsEntryFault (trees_of self.now.group.now.stream))) }
        ensures expected { IfErr result (λ fault.
            ExpectsEntry (trees_of self.now.group.now.stream) fault.at fault.expected) }
    {
        match whole_entry(self.group.stream_ref().trees()) {
            Ok(entry) => Ok(entry),
            Err(fault) => Err(fault.within(self.group)),
        }
    }
}
