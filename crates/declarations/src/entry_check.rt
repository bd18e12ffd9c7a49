//! Checks that the entries of a list have known names, and no name twice.
ghost use Rattle.std.specs.Prelude.{◌≡◌, ℕ, ◌≤◌, [], IfErr, List, None, OnOk, false, length, option_copied};
ghost use Rattle.std.specs.Fmt.{WritesOnOk};
ghost use Rattle.declarations.specs.Ending.{closing_of, or_extent};
ghost use Rattle.declarations.specs.EntryCheck.{HasNames, IsEntryError, known_part, more_known, name_part, next_known};
ghost use Rattle.declarations.specs.EntryCheck.{number_of, place_of, in_backticks};
ghost use Rattle.declarations.specs.Expected.{HasSigns};

use crate::entry::{Entry, spot_of};
use crate::entry_list::first_entry;
use crate::expected::Expected;
use crate::fault::{Fault, are_same, or_span, write_message};
use pm_span::Span;
use pm_stream::{Group, TokenTree};
use pm_token::Ident;
use std::error::Error;
use std::fmt;
use std::fmt::Display;

/// The kind of error in a list of entries.
#[derive(Clone, Copy, Debug, PartialEq, Eq)]
pub enum EntryProblem {
    /// No entry can be read here, or the entry has something after it that is no `,`. In `skip rename` the error is at
    /// `rename`, as it is in `skip, = rename` at the `=`.
    NoEntry,
    /// The entry has none of the known names. A literal, or a path of several segments, never has one.
    Unknown,
    /// The entry has the name of an earlier entry.
    Repeated,
}

/// An error in a list of entries: its kind, where it is, and the names that are known.
///
/// Where there is no entry, the text of the error is that of a [`Fault`](crate::Fault), which says what
/// was expected. Otherwise it names the entry.
#[derive(Clone, Copy, Debug)]
pub struct EntryError<'a> {
    /// The kind of error.
    pub problem: EntryProblem,
    /// The number of trees of the list before the error.
    pub at: usize,
    /// The span of the first wrong tree, or `None` if the list ends too early, to which [`within`](EntryError::within)
    /// adds the span of the closing delimiter. In a group without delimiters it is that of a tree inside, as
    /// [`parse_entry`](crate::parse_entry) says.
    pub span: Option<Span>,
    /// The name of the unknown or repeated entry. It is `None` if the entry is a literal or a path of several segments,
    /// or if there is no entry.
    pub name: Option<&'a Ident>,
    /// The names that are known.
    pub known: &'a [&'a str],
    /// The signs that can come next, if there is no entry.
    expected: Expected,
}

impl<'a> EntryError<'a> {
    /// Returns the field [`span`](EntryError::span): the span of the first wrong tree.
    pub fn span(&self) -> Option<Span>
        ensures { result ≡ self.now.span }
    {
        self.span
    }

    /// Returns the signs that could come where there is no entry, in place of what is there.
    ///
    /// This is the set of the [`Fault`](crate::Fault) that
    /// [`Entries`](crate::Entries) gives there. It is empty if an entry has an unknown or a
    /// repeated name. For `skip rename` it has `,`, `=` and the end, among others.
    pub fn expected(&self) -> Expected
        ensures { result ≡ self.now.expected }
    {
        self.expected
    }

    /// Returns the error of a list that is the trees in this group.
    ///
    /// If the error has no span, because the list ends too early, the result has the span of the group's closing
    /// delimiter. Otherwise the result is the same error. For the list in `(rename =)` it has the span of `)`.
    pub fn within(self, group: &Group) -> EntryError<'a>
        ensures span { result.span ≡ or_extent self.entry.span (closing_of group.now) }
        ensures kept { (result.problem ≡ self.entry.problem) × (result.at ≡ self.entry.at)
            × (result.name ≡ self.entry.name) × (result.known ≡ self.entry.known)
            × (result.expected ≡ self.entry.expected) }
    {
        EntryError {
            problem: self.problem,
            at: self.at,
            span: or_span(self.span, Some(group.span_close())),
            name: self.name,
            known: self.known,
            expected: self.expected,
        }
    }
}

/// Checks that each entry of the list has one of the known names, and that no two entries have the same name.
///
/// The list is the trees in a group of an attribute, such as `skip, rename = "a"` in `#[name(skip, rename = "a")]`. A
/// name is a path of one identifier. At most 128 names can be known, which is a precondition. The call returns an error
/// for the first entry with an unknown or a repeated name, or where the list goes on with no entry. It allocates
/// nothing.
///
/// If `skip` and `rename` are known, the list `skip, renam = "a"` has an error at `renam`, after 2 trees. Its text is
/// "unknown entry `renam`; known are `skip`, `rename`". For `rename = ,` it is "expected an expression".
pub fn check_entries<'a>(list: &'a [TokenTree], known: &'a [&'a str]) -> Result<(), EntryError<'a>>
    requires { length known.now ≤ 128 }
    ensures ok { OnOk result ((places : List ℕ) × HasNames known.now list.now places []) }
    ensures err { IfErr result (λ error. IsEntryError known.now list.now error) }
{
    let mut seen = [false; 128];
    let mut left = list;
    while !left.is_empty() {
        let before = list.len() - left.len();
        match first_entry(left) {
            Ok((entry, next)) => {
                let place = place_of(&entry, known);
                if place == known.len() {
                    let span = spot_of(left, &entry);
                    return Err(wrong(EntryProblem::Unknown, before, span, entry.name(), known));
                }
                if seen[place] {
                    let span = spot_of(left, &entry);
                    return Err(wrong(EntryProblem::Repeated, before, span, entry.name(), known));
                }
                seen[place] = true;
                left = next;
            }
            Err(fault) => {
                let at = before + fault.at;
                return Err(no_entry(at, fault, known));
            }
        }
    }
    Ok(())
}

/// The error of an entry with an unknown or a repeated name.
fn wrong<'a>(
    problem: EntryProblem,
    at: usize,
    span: Option<Span>,
    name: Option<&'a Ident>,
    known: &'a [&'a str],
) -> EntryError<'a>
    ensures problem { result.problem ≡ problem }
    ensures at { result.at ≡ at }
    ensures span { result.span ≡ span }
    ensures name { result.name ≡ name.entry }
    ensures known { result.known.now ≡ known.now }
    ensures expected { HasSigns result.expected (λ class. false) false }
{
    EntryError {
        problem,
        at,
        span,
        name,
        known,
        expected: Expected::nothing(),
    }
}

/// The error after `at` trees where no entry can be read.
fn no_entry<'a>(at: usize, fault: Fault, known: &'a [&'a str]) -> EntryError<'a>
    ensures problem { result.problem ≡ EntryProblem.NoEntry }
    ensures at { result.at ≡ at }
    ensures span { result.span ≡ fault.span }
    ensures name { result.name ≡ None }
    ensures known { result.known.now ≡ known.now }
    ensures expected { result.expected ≡ fault.expected }
{
    EntryError {
        problem: EntryProblem::NoEntry,
        at,
        span: fault.span,
        name: None,
        known,
        expected: fault.expected(),
    }
}

/// The position of the entry's name among the known names, or their number if it is not among them.
fn place_of(entry: &Entry<'_>, known: &[&str]) -> usize
    ensures { result ≡ place_of known.now entry.now }
{
    let mut at = 0;
    for word in known {
        if entry.is(word) {
            return at;
        }
        at += 1;
    }
    at
}

impl<'a> PartialEq for EntryError<'a> {
    ghost use Rattle.std.proofs.Common.{rules};
    ghost use Rattle.std.specs.Cmp.Rules.{comparing};
    ghost use Rattle.declarations.specs.EntryCheck.{entry_error_eq};

    ghost eq = { entry_error_eq };

    ghost laws = { Prim.search (comparing, rules) };

    /// Whether both errors have the same kind, position and span. The known names and the expected signs do not matter.
    fn eq(&self, other: &EntryError<'a>) -> bool {
        number_of(self.problem) == number_of(other.problem)
            && (self.at == other.at && are_same(self.span, other.span))
    }
}

impl<'a> Eq for EntryError<'a> {
    ghost use Rattle.std.proofs.Common.{rules};
    ghost use Rattle.std.specs.Cmp.Rules.{comparing};

    ghost laws = { Prim.search (comparing, rules) };
}

/// The number of an error's kind. No two kinds have the same number.
fn number_of(problem: EntryProblem) -> u8
    ensures { result ≡ number_of problem }
{
    match problem {
        EntryProblem::NoEntry => 0,
        EntryProblem::Unknown => 1,
        EntryProblem::Repeated => 2,
    }
}

/// Writes a space and the name in backticks, if there is a name.
fn write_name<W: fmt::Write>(name: Option<&Ident>, f: &mut fmt::Formatter<W>) -> fmt::Result
    ensures { WritesOnOk W.write_str_gives f.old result (name_part (option_copied name.entry)) f.new }
{
    match name {
        Some(ident) => {
            f.write_str(" `")?;
            ident.fmt(f)?;
            f.write_str("`")
        }
        None => Ok(()),
    }
}

/// Writes the end of the message, with the names that are known.
fn write_known<W: fmt::Write>(known: &[&str], f: &mut fmt::Formatter<W>) -> fmt::Result
    ensures { WritesOnOk W.write_str_gives f.old result (known_part known.now) f.new }
{
    match known.split_first() {
        Some((word, words)) => {
            f.write_str("; known are ")?;
            write_quoted(word, f)?;
            write_more(words, f)
        }
        None => f.write_str("; no names are known"),
    }
}

/// Writes more known names, each after a comma.
fn write_more<W: fmt::Write>(words: &[&str], f: &mut fmt::Formatter<W>) -> fmt::Result
    ensures { WritesOnOk W.write_str_gives f.old result (more_known words.now) f.new }
{
    for word in words {
        write_next(word, f)?;
    }
    Ok(())
}

/// Writes a comma and one more known name.
fn write_next<W: fmt::Write>(word: &str, f: &mut fmt::Formatter<W>) -> fmt::Result
    ensures { WritesOnOk W.write_str_gives f.old result (next_known word.now) f.new }
{
    f.write_str(", ")?;
    write_quoted(word, f)
}

/// Writes a name in backticks.
fn write_quoted<W: fmt::Write>(word: &str, f: &mut fmt::Formatter<W>) -> fmt::Result
    ensures { WritesOnOk W.write_str_gives f.old result (in_backticks word.now) f.new }
{
    f.write_str("`")?;
    f.write_str(word)?;
    f.write_str("`")
}

impl<'a> Display for EntryError<'a> {
    ghost use Rattle.std.specs.Prelude.{Some};
    ghost use Rattle.declarations.specs.EntryCheck.{error_text};

    ghost output = { λ error. Some (error_text error) };

    fn fmt<W: fmt::Write>(&self, f: &mut fmt::Formatter<W>) -> fmt::Result {
        match self.problem {
            EntryProblem::NoEntry => write_message(self.span, self.expected, f),
            EntryProblem::Unknown => {
                f.write_str("unknown entry")?;
                write_name(self.name, f)?;
                write_known(self.known, f)
            }
            EntryProblem::Repeated => {
                f.write_str("a second entry")?;
                write_name(self.name, f)
            }
        }
    }
}

impl<'a> Error for EntryError<'a> {}
