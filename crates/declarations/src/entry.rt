//! The entries of an attribute's list.
ghost use Rattle.std.specs.Prelude.{◌≡◌, ◌-◌, ◌<◌, ◌≤◌, ◌⊎◌, [], IfErr, IfNone, IfOk, IfSome, MatchResult};
ghost use Rattle.std.specs.Prelude.{None, Some, false, length, option_copied};
ghost use Rattle.grammars.specs.First.{heads, may_begin};
ghost use Rattle.grammars.specs.Grammar.{Sign, perhaps};
ghost use Rattle.pm_stream.specs.declared.stream.TokenTree.TheVariants as trees_are;
ghost use Rattle.pm_token.specs.Spelling.{spelled};
ghost use Rattle.declarations.specs.Attribute.{is_named};
ghost use Rattle.declarations.specs.Bare.{bare_first, inside_of};
ghost use Rattle.declarations.specs.Entry.{BeginsWithNone, Continues, GoesOn, HasArgs, IsArgsFault, IsEntryAt};
ghost use Rattle.declarations.specs.Entry.{IsEntryFault, IsFaultAfter, IsFaultWithin, IsHeldEntryAt, IsListAt};
ghost use Rattle.declarations.specs.Entry.{IsNearEntryAt, IsNearFault, IsNoEntry, IsOnlyPlainRest, IsOnlyRest};
ghost use Rattle.declarations.specs.Entry.{IsPlainEntryAt, IsPlainEntryFault, IsPlainFault, ReadsEntry};
ghost use Rattle.declarations.specs.Entry.{entry_extent, entry_spot, only_name, sole_name, span_or};
ghost use Rattle.declarations.specs.EntryExpects.{CouldGoOn, ExpectsAfter, ExpectsCommaAfter, ExpectsEntry};
ghost use Rattle.declarations.specs.EntryExpects.{ExpectsNear, ExpectsWithin, is_path};
ghost use Rattle.declarations.specs.Expected.{Expects};
ghost use Rattle.declarations.specs.Fault.{extent_at, first_extent};
ghost use Rattle.declarations.specs.Reader.{Finds, ReadsRule, Sticks, classes_in};
ghost use Rattle.declarations.specs.rules.Entries.{continues, entry, entry_list, entry_literal, entry_path};
ghost use Rattle.declarations.specs.rules.Entries.{entry_rest, entry_value, is_entry_segment, is_literal};
ghost use Rattle.declarations.specs.rules.Entries.{literal_entry, more_segments, named_entry, next_segment, segments};
ghost use Rattle.declarations.specs.rules.Expressions.{expression};
ghost use Rattle.declarations.specs.rules.Names.{one};
ghost use Rattle.declarations.specs.rules.Pieces.{ByRule};
ghost use Rattle.declarations.specs.declared.entry.Entry.{Entry as EntryValue};
ghost use Rattle.item_tables.specs.declared.class.SignClass.TheVariants as signs;

use crate::attribute::is_named;
use crate::bare::{bare_trees, has_no_delimiters, inside_of};
use crate::expected::Expected;
use crate::explore::{expected_by, fault_by};
use crate::fault::Fault;
use crate::item::split_group;
use crate::reader::{begins, is, part, past};
use crate::signs::first_sign;
use crate::syntax::{ENTRY, ENTRY_REST, Syntax};
use crate::walk::walk_past;
use item_tables::class::SignClass;
use item_tables::walk_state::{Continuation, Spot, State, WalkState};
use pm_span::Span;
use pm_stream::{Group, TokenTree};
use pm_token::Ident;

/// The form of an entry in an attribute's list.
#[derive(Clone, Copy, Debug)]
pub enum EntryKind<'a> {
    /// A path alone, such as `skip`.
    Path,
    /// A path and a group, such as `rename(a, b)`. The trees inside the group are not read.
    List(&'a Group),
    /// A path, `=` and this expression, such as `rename = "a"`.
    Value(&'a [TokenTree]),
    /// This literal, such as `"a"`, `-1` or `true`. There is no path.
    Literal(&'a [TokenTree]),
}

/// An entry of an attribute's list, such as `skip`, `rename = "a"` or `bound(T, U)`.
#[derive(Clone, Copy, Debug)]
pub struct Entry<'a> {
    /// The path, such as `a` or `a::b`. It has no trees if the entry is a literal.
    pub path: &'a [TokenTree],
    /// The form of the entry, with what comes after its path.
    pub kind: EntryKind<'a>,
}

/// Returns the entry at the start of the trees, and the trees after it.
///
/// Pass the trees in a group of an attribute, or the rest that an earlier call returned. An entry is a literal or a
/// path. After a path there may be a group, or `=` and an expression; of an expression only the end is found. A segment
/// of a path is any identifier except `_`, `true` and `false`. It may be a keyword: `unsafe(no_mangle)` has the path
/// `unsafe`.
///
/// If the trees begin with no entry, the call returns a `Fault`. The rule `entry` is in crates/declarations/README.md.
/// The call allocates nothing. For `a::b = f(1) + 2, c` the path is `a::b`, the value `f(1) + 2`, and the rest `, c`.
///
/// A macro by example passes `$m:meta` and `$p:path` as groups without delimiters. If the trees begin with such a
/// group, the entry is the one that the group holds, and its parts are trees inside of the group. If the group holds a
/// path alone, a list or `=` and a value can come after the group. In the group the path of the entry may be in a
/// group of its own. Groups that hold nothing but such a group are looked through. An error inside of the group has an
/// `at` of 0, since no tree comes before the group. Its span is that of the first wrong tree inside, or that of the
/// group if trees are missing at its end. Its expected signs are those that could come there inside of the group, and
/// the end if the group could end there.
pub fn parse_entry(trees: &[TokenTree]) -> Result<(Entry<'_>, &[TokenTree]), Fault>
    ensures ok { IfOk result (λ found. IsEntryAt trees.now found.0 found.1.now) }
    ensures only { IfOk result (λ found. IsOnlyPlainRest trees.now found.1.now) }
    ensures fewer { IfOk result (λ found. length found.1.now < length trees.now) }
    ensures fault { IfErr result (λ fault. IsNoEntry trees.now fault) }
    ensures expected { IfErr result (λ fault. ExpectsEntry trees.now fault.at fault.expected) }
{
    match split_bare(trees) {
        Some((group, after)) => held_entry(group, after),
        None => plain_entry(trees),
    }
}

/// The entry at the start of the trees, which is not in a group without delimiters, and the trees after it.
fn plain_entry(trees: &[TokenTree]) -> Result<(Entry<'_>, &[TokenTree]), Fault>
    ensures ok { IfOk result (λ found. IsPlainEntryAt trees.now found.0 found.1.now) }
    ensures only { IfOk result (λ found. IsOnlyRest entry trees.now found.1.now) }
    ensures fewer { IfOk result (λ found. length found.1.now < length trees.now) }
    ensures fault { IfErr result (λ fault. IsPlainFault trees.now fault) }
    ensures expected { IfErr result (λ fault. Expects (ByRule entry) trees.now fault.at fault.expected) }
{
    match entry_of(trees) {
        Ok((entry, rest)) => Ok((entry, rest)),
        Err(left) => Err(fault_by(&ENTRY, trees, left)),
    }
}

/// The entry that the group holds, or whose path it holds, and the trees after the entry.
fn held_entry<'a>(
    group: &'a Group,
    after: &'a [TokenTree],
) -> Result<(Entry<'a>, &'a [TokenTree]), Fault>
    ensures ok { IfOk result (λ found.
        IsHeldEntryAt IsNearEntryAt (inside_of group.now) after.now found.0 found.1.now) }
    ensures within { IfOk result (λ found. length found.1.now ≤ length after.now) }
    ensures fault { IfErr result (λ fault.
        IsFaultWithin IsNearFault group.now fault ⊎ IsFaultAfter IsNearEntryAt group.now after.now fault) }
    ensures expected { IfErr result (λ fault. ExpectsWithin IsNearFault ExpectsNear group.now fault.expected
        ⊎ ExpectsAfter IsNearEntryAt group.now after.now fault.at fault.expected) }
{
    match whole_near_entry(inside_of(group)) {
        Ok(held) => match held.kind {
            EntryKind::Path => go_on(held.path, after),
            EntryKind::List(_) | EntryKind::Value(_) | EntryKind::Literal(_) => Ok((held, after)),
        },
        Err(fault) => Err(fault_within(group, fault)),
    }
}

/// The entry at the start of the trees, perhaps in a group without delimiters that holds no such group.
fn near_entry(trees: &[TokenTree]) -> Result<(Entry<'_>, &[TokenTree]), Fault>
    ensures ok { IfOk result (λ found. IsNearEntryAt trees.now found.0 found.1.now) }
    ensures fewer { IfOk result (λ found. length found.1.now < length trees.now) }
    ensures fault { IfErr result (λ fault. BeginsWithNone IsPlainEntryAt IsPlainEntryFault trees.now fault) }
    ensures expected { IfErr result (λ fault. ExpectsNear trees.now fault.at fault.expected) }
{
    match split_bare(trees) {
        Some((group, after)) => near_held(group, after),
        None => plain_entry(trees),
    }
}

/// The entry that the group holds, or whose path it holds. In the group there is no group without delimiters.
fn near_held<'a>(
    group: &'a Group,
    after: &'a [TokenTree],
) -> Result<(Entry<'a>, &'a [TokenTree]), Fault>
    ensures ok { IfOk result (λ found.
        IsHeldEntryAt IsPlainEntryAt (inside_of group.now) after.now found.0 found.1.now) }
    ensures within { IfOk result (λ found. length found.1.now ≤ length after.now) }
    ensures fault { IfErr result (λ fault.
        IsFaultWithin IsPlainEntryFault group.now fault ⊎ IsFaultAfter IsPlainEntryAt group.now after.now fault) }
    ensures expected { IfErr result (λ fault. ExpectsWithin IsPlainEntryFault (Expects (ByRule entry)) group.now
        fault.expected ⊎ ExpectsAfter IsPlainEntryAt group.now after.now fault.at fault.expected) }
{
    match whole_plain_entry(inside_of(group)) {
        Ok(plain) => match plain.kind {
            EntryKind::Path => go_on(plain.path, after),
            EntryKind::List(_) | EntryKind::Value(_) | EntryKind::Literal(_) => Ok((plain, after)),
        },
        Err(fault) => Err(fault_within(group, fault)),
    }
}

/// The error in the trees before which the group is, for this error in the trees inside of the group.
fn fault_within(group: &Group, inner: Fault) -> Fault
    ensures at { result.at ≡ 0 }
    ensures span { result.span ≡ Some (span_or inner.span group.now.span) }
    ensures expected { result.expected ≡ inner.expected }
{
    let fault = Fault::at_span(0, Some(span_or(inner.span, group.span())));
    fault.expecting(inner.expected())
}

/// The span, or else the other one.
fn span_or(span: Option<Span>, other: Span) -> Span
    ensures { result ≡ span_or span other }
{
    match span {
        Some(span) => span,
        None => other,
    }
}

/// The entry that has this path, and at the start of the trees what comes after its path; and the trees after it.
fn go_on<'a>(
    path: &'a [TokenTree],
    after: &'a [TokenTree],
) -> Result<(Entry<'a>, &'a [TokenTree]), Fault>
    ensures read { MatchResult result (λ found. GoesOn path.now after.now found.0 found.1.now)
        (λ fault. IsArgsFault after.now fault) }
    ensures within { IfOk result (λ found. length found.1.now ≤ length after.now) }
    ensures expected { IfErr result (λ fault.
        Expects (ByRule entry_rest) after.now (fault.at - 1) fault.expected) }
{
    match args_of(after) {
        Ok((kind, rest)) => Ok((Entry { path, kind }, rest)),
        Err(left) => {
            let fault = fault_by(&ENTRY_REST, after, left);
            Err(fault.after(1 + (after.len() - left.len())))
        }
    }
}

impl<'a> Entry<'a> {
    /// Returns whether the path is this one identifier. A raw identifier is compared with its `r#`.
    pub fn is(&self, word: &str) -> bool
        ensures { result ≡ is_named self.now.path.now (spelled word.now) }
    {
        is_named(self.path, word)
    }

    /// Returns the path if it is one identifier, and `None` for a literal or a longer path.
    ///
    /// For `rename = "a"` it returns `rename`.
    pub fn name(&self) -> Option<&'a Ident>
        ensures { option_copied result ≡ sole_name self.now.path.now }
    {
        only_name(bare_trees(self.path))
    }

    /// Returns the span of the first tree. An entry that a call of this crate returned always has one. For an entry in
    /// a group without delimiters it is that of the first tree inside.
    pub fn span(&self) -> Option<Span>
        ensures { result ≡ entry_extent self.now.kind self.now.path.now }
    {
        match self.kind {
            EntryKind::Literal(literal) => first_span(literal),
            EntryKind::Path | EntryKind::List(_) | EntryKind::Value(_) => first_span(self.path),
        }
    }
}

/// The identifier, if it is the only tree.
fn only_name(trees: &[TokenTree]) -> Option<&Ident>
    ensures { option_copied result ≡ only_name trees.now }
{
    match trees {
        [TokenTree::Ident(name)] => Some(name),
        _ => None,
    }
}

/// The group without delimiters that the trees begin with, and the trees after it.
fn split_bare(trees: &[TokenTree]) -> Option<(&Group, &[TokenTree])>
    ensures found { IfSome result (λ found. bare_first trees.now ≡ Some (found.0.now, found.1.now)) }
    ensures none { IfNone result (bare_first trees.now ≡ None) }
{
    match split_group(trees) {
        Some((group, rest)) if has_no_delimiters(group.delimiter()) => Some((group, rest)),
        _ => None,
    }
}

/// The span of the first tree, or if that is a group without delimiters, that of the entry in it.
pub(crate) fn spot_of(trees: &[TokenTree], entry: &Entry<'_>) -> Option<Span>
    ensures { result ≡ entry_spot trees.now entry.now }
{
    match split_bare(trees) {
        Some(_) => entry.span(),
        None => first_span(trees),
    }
}

/// The span of the first tree.
fn first_span(trees: &[TokenTree]) -> Option<Span>
    ensures { result ≡ first_extent trees.now }
{
    match trees.first() {
        Some(tree) => Some(tree.span()),
        None => None,
    }
}

/// The entry that all of the trees are.
pub(crate) fn whole_entry(trees: &[TokenTree]) -> Result<Entry<'_>, Fault>
    ensures ok { IfOk result (λ entry. IsEntryAt trees.now entry []) }
    ensures err { IfErr result (λ fault. IsEntryFault trees.now fault) }
    ensures expected { IfErr result (λ fault. ExpectsEntry trees.now fault.at fault.expected) }
{
    match parse_entry(trees) {
        Ok((entry, rest)) => {
            if rest.is_empty() {
                Ok(entry)
            } else {
                Err(fault_after_entry(trees, &entry, rest))
            }
        }
        Err(fault) => Err(fault),
    }
}

/// Whether the entry is a path alone.
fn is_path(kind: EntryKind<'_>) -> bool
    ensures { result ≡ is_path kind.entry }
{
    match kind {
        EntryKind::Path => true,
        EntryKind::List(_) | EntryKind::Value(_) | EntryKind::Literal(_) => false,
    }
}

/// Whether a group without delimiters holds a path alone, with which the entry begins. The trees after the group are
/// `after`, and those after the entry are `rest`.
#[cold]
fn holds_path(entry: &Entry<'_>, after: &[TokenTree], rest: &[TokenTree]) -> bool
    ensures { (held : EntryValue) → Continues held.kind held after.now entry.now rest.now
        → is_path held.kind ≡ result }
{
    if rest.len() < after.len() {
        return true;
    }
    is_path(entry.kind)
}

/// The signs with which the entry at the start of the trees could go on. The trees after the entry are `rest`.
#[cold]
fn onward(trees: &[TokenTree], entry: &Entry<'_>, rest: &[TokenTree]) -> Expected
    ensures { CouldGoOn trees.now entry.now rest.now result }
{
    match split_bare(trees) {
        Some((_, after)) => {
            if holds_path(entry, after, rest) {
                expected_by(&ENTRY_REST, after)
            } else {
                expected_by(&Syntax::Nothing, after)
            }
        }
        None => expected_by(&ENTRY, trees),
    }
}

/// The error of trees that are left after an entry.
#[cold]
fn fault_after_entry(trees: &[TokenTree], entry: &Entry<'_>, rest: &[TokenTree]) -> Fault
    requires { length rest.now ≤ length trees.now }
    ensures at { result.at ≡ length trees.now - length rest.now }
    ensures span { result.span ≡ first_extent rest.now }
    ensures expected { CouldGoOn trees.now entry.now rest.now result.expected }
{
    Fault::ahead_of(trees.len() - rest.len(), rest).expecting(onward(trees, entry, rest))
}

/// The error after an entry in a list that neither `,` nor the end follows.
#[cold]
pub(crate) fn fault_without_comma(
    trees: &[TokenTree],
    entry: &Entry<'_>,
    rest: &[TokenTree],
) -> Fault
    requires { length rest.now ≤ length trees.now }
    ensures at { result.at ≡ length trees.now - length rest.now }
    ensures span { result.span ≡ first_extent rest.now }
    ensures expected { ExpectsCommaAfter trees.now entry.now rest.now result.expected }
{
    let next = onward(trees, entry, rest);
    let fault = Fault::ahead_of(trees.len() - rest.len(), rest);
    fault.expecting(next.with(SignClass::Comma).with_end())
}

/// The entry that all of the trees are, perhaps in a group without delimiters that holds no such group.
fn whole_near_entry(trees: &[TokenTree]) -> Result<Entry<'_>, Fault>
    ensures ok { IfOk result (λ entry. IsNearEntryAt trees.now entry []) }
    ensures err { IfErr result (λ fault. IsNearFault trees.now fault) }
    ensures expected { IfErr result (λ fault. ExpectsNear trees.now fault.at fault.expected) }
{
    match near_entry(trees) {
        Ok((entry, after)) => {
            if after.is_empty() {
                Ok(entry)
            } else {
                Err(fault_after_entry(trees, &entry, after))
            }
        }
        Err(fault) => Err(fault),
    }
}

/// The entry that all of the trees are. It is not in a group without delimiters.
fn whole_plain_entry(trees: &[TokenTree]) -> Result<Entry<'_>, Fault>
    ensures ok { IfOk result (λ entry. IsPlainEntryAt trees.now entry []) }
    ensures err { IfErr result (λ fault. IsPlainEntryFault trees.now fault) }
    ensures expected { IfErr result (λ fault. Expects (ByRule entry) trees.now fault.at fault.expected) }
{
    match plain_entry(trees) {
        Ok((entry, left)) => {
            if left.is_empty() {
                Ok(entry)
            } else {
                Err(fault_by(&ENTRY, trees, left))
            }
        }
        Err(fault) => Err(fault),
    }
}

pub(crate) fn is_segment(class: SignClass) -> bool
    ensures { result ≡ is_entry_segment class }
{
    match class {
        SignClass::Word(_) | SignClass::Keyword(_) => true,
        SignClass::SelfValue | SignClass::SelfType | SignClass::Super | SignClass::Crate => true,
        SignClass::As | SignClass::Await | SignClass::Jump => true,
        _ => false,
    }
}

/// Skips a segment of a path.
#[tactic(auto, using(crate::proofs::ReaderLemmas::steps))]
fn segment(trees: &[TokenTree]) -> Result<&[TokenTree], &[TokenTree]>
    ensures { ReadsRule (Sign is_entry_segment) trees.now result }
{
    match first_sign(trees) {
        Some((found, rest)) => {
            if is_segment(found) {
                Ok(rest)
            } else {
                Err(trees)
            }
        }
        None => Err(trees),
    }
}

/// Skips `::`, if it is next.
#[tactic(auto, using(crate::proofs::ReaderLemmas::steps))]
fn separator(trees: &[TokenTree]) -> Result<&[TokenTree], &[TokenTree]>
    ensures { ReadsRule (perhaps (one signs.PathSeparator)) trees.now result }
{
    if begins(trees, SignClass::PathSeparator) {
        past(trees, SignClass::PathSeparator)
    } else {
        Ok(trees)
    }
}

/// Skips `::` and a segment.
fn next_segment(trees: &[TokenTree]) -> Result<&[TokenTree], &[TokenTree]>
    ensures { ReadsRule next_segment trees.now result }
{
    segment(past(trees, SignClass::PathSeparator)?)
}

/// Skips more segments, each after `::`.
fn more_segments(trees: &[TokenTree]) -> Result<&[TokenTree], &[TokenTree]>
    ensures { ReadsRule more_segments trees.now result }
{
    let mut left = trees;
    while begins(left, SignClass::PathSeparator) {
        match next_segment(left) {
            Ok(next) => left = next,
            Err(fault) => return Err(fault),
        }
    }
    Ok(left)
}

/// Skips a segment and all that follow it after `::`.
#[tactic(auto, using(crate::proofs::ReaderLemmas::steps))]
fn segments(trees: &[TokenTree]) -> Result<&[TokenTree], &[TokenTree]>
    ensures { ReadsRule segments trees.now result }
{
    more_segments(segment(trees)?)
}

/// Skips the path of an entry.
fn entry_path(trees: &[TokenTree]) -> Result<&[TokenTree], &[TokenTree]>
    ensures { ReadsRule entry_path trees.now result }
{
    segments(separator(trees)?)
}

pub(crate) fn is_literal(class: SignClass) -> bool
    ensures { result ≡ is_literal class }
{
    match class {
        SignClass::Literal | SignClass::Truth => true,
        _ => false,
    }
}

/// Skips a literal without a minus sign.
#[tactic(auto, using(crate::proofs::ReaderLemmas::steps))]
fn plain_literal(trees: &[TokenTree]) -> Result<&[TokenTree], &[TokenTree]>
    ensures { ReadsRule (Sign is_literal) trees.now result }
{
    match first_sign(trees) {
        Some((found, rest)) => {
            if is_literal(found) {
                Ok(rest)
            } else {
                Err(trees)
            }
        }
        None => Err(trees),
    }
}

/// Skips a literal, with a minus sign or without.
fn literal(trees: &[TokenTree]) -> Result<&[TokenTree], &[TokenTree]>
    ensures { ReadsRule entry_literal trees.now result }
{
    if begins(trees, SignClass::Minus) {
        past(past(trees, SignClass::Minus)?, SignClass::Literal)
    } else {
        plain_literal(trees)
    }
}

/// Skips an expression.
#[tactic(auto, using(crate::proofs::EntryLemmas::expression_reads))]
pub(crate) fn past_expression(trees: &[TokenTree]) -> Result<&[TokenTree], &[TokenTree]>
    ensures { ReadsRule expression trees.now result }
{
    let start = WalkState {
        rule: Continuation::Outside,
        state: State::At(Spot::Expression),
        depth: 0,
    };
    walk_past(trees, start)
}

/// Whether the sign can go on after an operand but can begin no value: `=`, `>` or `->`.
pub(crate) fn continues(class: SignClass) -> bool
    ensures { result ≡ continues class }
{
    match class {
        SignClass::Equals | SignClass::Greater | SignClass::Arrow => true,
        _ => false,
    }
}

/// Skips the value of an entry.
#[tactic(auto, using(crate::proofs::EntryLemmas::values))]
fn past_value(trees: &[TokenTree]) -> Result<&[TokenTree], &[TokenTree]>
    ensures { ReadsRule entry_value trees.now result }
{
    match first_sign(trees) {
        Some((class, _)) => {
            if continues(class) {
                Err(trees)
            } else {
                past_expression(trees)
            }
        }
        None => Err(trees),
    }
}

/// The group with delimiters at the start of the trees, and the trees after it.
#[tactic(auto, using(crate::proofs::EntryLemmas::lists))]
fn split_list(trees: &[TokenTree]) -> Option<(&Group, &[TokenTree])>
    ensures found { IfSome result (λ found. IsListAt trees.now (trees_are.Group found.0.now) found.1.now) }
    ensures none { IfNone result (heads entry_list (classes_in trees.now) ≡ false) }
{
    match split_group(trees) {
        Some((group, rest)) => {
            if has_no_delimiters(group.delimiter()) {
                None
            } else {
                Some((group, rest))
            }
        }
        None => None,
    }
}

/// What comes after the path of an entry, and the trees after the entry.
#[tactic(auto, using(crate::proofs::EntryLemmas::arguments))]
fn args_of(trees: &[TokenTree]) -> Result<(EntryKind<'_>, &[TokenTree]), &[TokenTree]>
    ensures { MatchResult result (λ found. Finds entry_rest trees.now found.1.now
        × HasArgs found.0 trees.now found.1.now) (λ left. Sticks entry_rest trees.now left.now) }
{
    match split_list(trees) {
        Some((group, rest)) => Ok((EntryKind::List(group), rest)),
        None => value_of(trees),
    }
}

/// The value of an entry, if `=` is next, and the trees after the entry.
#[tactic(auto, using(crate::proofs::EntryLemmas::arguments))]
fn value_of(trees: &[TokenTree]) -> Result<(EntryKind<'_>, &[TokenTree]), &[TokenTree]>
    requires { heads entry_list (classes_in trees.now) ≡ false }
    ensures { MatchResult result (λ found. Finds entry_rest trees.now found.1.now
        × HasArgs found.0 trees.now found.1.now) (λ left. Sticks entry_rest trees.now left.now) }
{
    match first_sign(trees) {
        Some((class, from_value)) => {
            if is(SignClass::Equals, class) {
                match past_value(from_value) {
                    Ok(rest) => Ok((EntryKind::Value(part(from_value, rest)), rest)),
                    Err(left) => Err(left),
                }
            } else {
                Ok((EntryKind::Path, trees))
            }
        }
        None => Ok((EntryKind::Path, trees)),
    }
}

/// Whether a literal can begin with a sign of this class.
fn begins_literal(class: SignClass) -> bool
    ensures { result ≡ may_begin literal_entry class }
{
    match class {
        SignClass::Minus | SignClass::Literal | SignClass::Truth => true,
        _ => false,
    }
}

/// The entry at the start of the trees, and the trees after it; or the trees from the error on.
#[tactic(auto, using(crate::proofs::EntryLemmas::kinds_of))]
fn entry_of(trees: &[TokenTree]) -> Result<(Entry<'_>, &[TokenTree]), &[TokenTree]>
    ensures { ReadsEntry entry trees.now result }
{
    match first_sign(trees) {
        Some((class, _)) => {
            if begins_literal(class) {
                literal_of(trees)
            } else {
                named_of(trees)
            }
        }
        None => named_of(trees),
    }
}

/// The literal at the start of the trees as an entry, and the trees after it; or the trees from the error on.
#[tactic(auto, using(crate::proofs::EntryLemmas::literals))]
fn literal_of(trees: &[TokenTree]) -> Result<(Entry<'_>, &[TokenTree]), &[TokenTree]>
    ensures { ReadsEntry literal_entry trees.now result }
{
    match literal(trees) {
        Ok(rest) => {
            let literal = part(trees, rest);
            Ok((
                Entry {
                    path: &[],
                    kind: EntryKind::Literal(literal),
                },
                rest,
            ))
        }
        Err(left) => Err(left),
    }
}

/// The entry with a path at the start of the trees, and the trees after it; or the trees from the error on.
#[tactic(auto, using(crate::proofs::EntryLemmas::paths))]
fn named_of(trees: &[TokenTree]) -> Result<(Entry<'_>, &[TokenTree]), &[TokenTree]>
    ensures { ReadsEntry named_entry trees.now result }
{
    match entry_path(trees) {
        Ok(from_args) => match args_of(from_args) {
            Ok((kind, rest)) => {
                let path = part(trees, from_args);
                Ok((Entry { path, kind }, rest))
            }
            Err(left) => Err(left),
        },
        Err(left) => Err(left),
    }
}
