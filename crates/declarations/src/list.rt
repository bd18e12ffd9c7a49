//! Lists of fields and of variants, one element at a time.
ghost use Rattle.std.specs.Prelude.{◌≡◌, ◌-◌, ◌≤◌, ◌<◌, IfErr, IfNone, IfOk, IfSome, List, MatchResult, length, true};
ghost use Rattle.pm_stream.specs.declared.stream.TokenTree.{TokenTree as Tree};
ghost use Rattle.declarations.specs.Expected.{Expects};
ghost use Rattle.declarations.specs.Explore.{ExpectsComma};
ghost use Rattle.declarations.specs.Fault.{extent_at, first_extent};
ghost use Rattle.declarations.specs.Forms.{IsVariant};
ghost use Rattle.declarations.specs.List.{AreInside, IsFirst, IsFieldOf, IsListFault, IsPastComma, ListsFields};
ghost use Rattle.declarations.specs.List.{field_form, field_rule};
ghost use Rattle.declarations.specs.Reading.{FaultAt};
ghost use Rattle.declarations.specs.Variant.{IsVariantAt};

use crate::explore::fault_at_comma;
use crate::fault::Fault;
use crate::field::{Field, parse_field, parse_tuple_field};
use crate::item::Fields;
use crate::part_syntax::{FIELD, TUPLE_FIELD, VARIANT};
use crate::variant::{Variant, parse_variant};
use pm_stream::{Group, TokenTree};

/// The fields in braces or parentheses, in order. A `,` is between two fields, and may be after the last.
///
/// The iterator gives each field as [`parse_field`] reads it from the remaining trees, or as [`parse_tuple_field`] does
/// if the fields have no names. At an error it gives a `Fault`, whose `at` counts from the start of the remaining
/// trees, and then ends. It allocates nothing. For `a: A, b: B` it gives `a: A` and `b: B`.
///
/// ```text
/// for field in fields.list() {
///     let field = field?;
///     ..
/// }
/// ```
#[derive(Clone, Copy, Debug)]
pub struct FieldList<'a> {
    /// Whether the fields have names.
    pub named: bool,
    /// The trees that are not yet read.
    pub left: &'a [TokenTree],
}

/// The variants in the braces of an enum, in order. A `,` is between two variants, and may be after the last.
///
/// The iterator gives each variant as [`parse_variant`] reads it from the remaining trees. At an error it gives a
/// `Fault`, whose `at` counts from the start of the remaining trees, and then ends. It allocates nothing. For
/// `A, B(u8) = 1` it gives `A` and `B(u8) = 1`.
#[derive(Clone, Copy, Debug)]
pub struct VariantList<'a> {
    /// The trees that are not yet read.
    pub left: &'a [TokenTree],
}

impl<'a> FieldList<'a> {
    /// Returns an iterator over the named fields in this group, such as the braces of a union.
    pub fn named(group: &'a Group) -> FieldList<'a>
        ensures named { result.named ≡ true }
        ensures inside { AreInside result.left.now group.now }
    {
        FieldList {
            named: true,
            left: group.stream_ref().trees(),
        }
    }
}

impl<'a> Fields<'a> {
    /// Returns an iterator over the fields.
    pub fn list(&self) -> FieldList<'a>
        ensures { ListsFields self.now result }
    {
        match self {
            Fields::Named(group) => FieldList::named(group),
            Fields::Tuple(group) => FieldList {
                named: false,
                left: group.stream_ref().trees(),
            },
            Fields::Unit => FieldList {
                named: true,
                left: &[],
            },
        }
    }
}

impl<'a> VariantList<'a> {
    /// Returns an iterator over the variants in these braces.
    pub fn new(group: &'a Group) -> VariantList<'a>
        ensures { AreInside result.left.now group.now }
    {
        VariantList {
            left: group.stream_ref().trees(),
        }
    }
}

impl<'a> Iterator for FieldList<'a> {
    ghost use Rattle.std.specs.Iterator.{at_most};
    ghost use Rattle.declarations.specs.List.{GivesField};

    type Item = Result<Field<'a>, Fault>;

    ghost next_gives = { GivesField };

    // At most as many fields come as trees are left.
    ghost remaining = { λ list. at_most (length list.left.now) };

    fn next(&mut self) -> Option<Result<Field<'a>, Fault>> {
        if self.left.is_empty() {
            return None;
        }
        match first_field(self.named, self.left) {
            Ok((field, left)) => {
                self.left = left;
                Some(Ok(field))
            }
            Err(fault) => {
                self.left = &[];
                Some(Err(fault))
            }
        }
    }
}

impl<'a> Iterator for VariantList<'a> {
    ghost use Rattle.std.specs.Iterator.{at_most};
    ghost use Rattle.declarations.specs.List.{GivesVariant};

    type Item = Result<Variant<'a>, Fault>;

    ghost next_gives = { GivesVariant };

    ghost remaining = { λ list. at_most (length list.left.now) };

    fn next(&mut self) -> Option<Result<Variant<'a>, Fault>> {
        if self.left.is_empty() {
            return None;
        }
        match first_variant(self.left) {
            Ok((variant, left)) => {
                self.left = left;
                Some(Ok(variant))
            }
            Err(fault) => {
                self.left = &[];
                Some(Err(fault))
            }
        }
    }
}

/// The first field of a list, and the trees after its comma.
fn first_field(named: bool, trees: &[TokenTree]) -> Result<(Field<'_>, &[TokenTree]), Fault>
    ensures given { MatchResult result (λ found. IsFirst (IsFieldOf named) trees.now found.0 found.1.now)
        (λ fault. IsListFault (field_form named) trees.now fault) }
    ensures fewer { IfOk result (λ found. length found.1.now < length trees.now) }
{
    match field_at(named, trees) {
        Ok((field, rest)) => match past_comma(rest) {
            Some(left) => Ok((field, left)),
            None => Err(fault_after_field(named, trees, rest)),
        },
        Err(fault) => Err(fault),
    }
}

/// The field at the start of the trees, with a name or without, and the trees after it.
fn field_at(named: bool, trees: &[TokenTree]) -> Result<(Field<'_>, &[TokenTree]), Fault>
    ensures ok { IfOk result (λ found. IsFieldOf named trees.now found.0 found.1.now) }
    ensures fault { IfErr result (λ fault. FaultAt (field_form named) trees.now fault.at) }
    ensures span { IfErr result (λ fault. fault.span ≡ extent_at trees.now fault.at) }
    ensures expected { IfErr result (λ fault. Expects (field_form named) trees.now fault.at fault.expected) }
{
    if named {
        parse_field(trees)
    } else {
        parse_tuple_field(trees)
    }
}

/// The error after a field that neither `,` nor the end follows.
#[cold]
fn fault_after_field(named: bool, trees: &[TokenTree], rest: &[TokenTree]) -> Fault
    requires { length rest.now ≤ length trees.now }
    ensures at { result.at ≡ length trees.now - length rest.now }
    ensures span { result.span ≡ first_extent rest.now }
    ensures expected { ExpectsComma (field_rule named) trees.now result.expected }
{
    if named {
        fault_at_comma(&FIELD, trees, rest)
    } else {
        fault_at_comma(&TUPLE_FIELD, trees, rest)
    }
}

/// The first variant of a list, and the trees after its comma.
fn first_variant(trees: &[TokenTree]) -> Result<(Variant<'_>, &[TokenTree]), Fault>
    ensures given { MatchResult result (λ found. IsFirst IsVariantAt trees.now found.0 found.1.now)
        (λ fault. IsListFault IsVariant trees.now fault) }
    ensures fewer { IfOk result (λ found. length found.1.now < length trees.now) }
{
    match parse_variant(trees) {
        Ok((variant, rest)) => match past_comma(rest) {
            Some(left) => Ok((variant, left)),
            None => Err(fault_at_comma(&VARIANT, trees, rest)),
        },
        Err(fault) => Err(fault),
    }
}

/// The trees after the comma that they begin with, or no trees if there are none.
pub(crate) fn past_comma(trees: &[TokenTree]) -> Option<&[TokenTree]>
    ensures found { IfSome result (λ left. IsPastComma trees.now left.now) }
    ensures none { IfNone result ((left : List Tree) → IsPastComma trees.now left → ⊥) }
{
    match trees.split_first() {
        None => Some(trees),
        Some((TokenTree::Punct(mark), rest)) if mark.as_char() == ',' => Some(rest),
        Some(_) => None,
    }
}
