//! The fields of a struct, a variant or a union.
ghost use Rattle.std.specs.Prelude.{◌≡◌, IfErr, IfOk, MatchResult};
ghost use Rattle.declarations.specs.Expected.{Expects};
ghost use Rattle.declarations.specs.Fault.{extent_at};
ghost use Rattle.declarations.specs.Field.{HasColonType, HasFieldParts, HasNameType, HasTypeParts, IsFieldAt};
ghost use Rattle.declarations.specs.Field.{field_rest};
ghost use Rattle.declarations.specs.Forms.{IsField, IsTupleField};
ghost use Rattle.declarations.specs.Reader.{Finds, Sticks};
ghost use Rattle.declarations.specs.Reading.{FaultAt};
ghost use Rattle.declarations.specs.rules.Parameters.{with_type};
ghost use Rattle.declarations.specs.rules.Parts.{field, tuple_field};

use crate::explore::fault_by;
use crate::fault::Fault;
use crate::front::front_of;
use crate::function::name_of;
use crate::parameter::past_type;
use crate::part_syntax::{FIELD, TUPLE_FIELD};
use crate::reader::{is, part};
use crate::signs::first_sign;
use item_tables::class::SignClass;
use pm_stream::TokenTree;
use pm_token::Ident;

/// A field, split into its parts in reading order.
#[derive(Clone, Copy, Debug)]
pub struct Field<'a> {
    /// The outer attributes, perhaps none.
    pub attributes: &'a [TokenTree],
    /// The visibility, or no trees.
    pub visibility: &'a [TokenTree],
    /// The name before the `:`, or `None` for a field in parentheses.
    pub name: Option<&'a Ident>,
    /// The type.
    pub field_type: &'a [TokenTree],
}

/// Returns the parts of the named field at the start of the trees, and the trees after it.
///
/// It reads the same trees as [`split_field`](crate::split_field), and returns the same errors. For
/// `#[a] pub x: Vec<A, B>, y: C` the name is `x`, the type is `Vec<A, B>`, and the rest is `, y: C`.
#[tactic(auto, using(crate::proofs::FieldLemmas::field_faults))]
pub fn parse_field(trees: &[TokenTree]) -> Result<(Field<'_>, &[TokenTree]), Fault>
    ensures ok { IfOk result (λ found. IsFieldAt IsField HasFieldParts trees.now found.0 found.1.now) }
    ensures fault { IfErr result (λ fault. FaultAt IsField trees.now fault.at) }
    ensures span { IfErr result (λ fault. fault.span ≡ extent_at trees.now fault.at) }
    ensures expected { IfErr result (λ fault. Expects IsField trees.now fault.at fault.expected) }
{
    match field_of(trees) {
        Ok((field, rest)) => Ok((field, rest)),
        Err(left) => Err(fault_by(&FIELD, trees, left)),
    }
}

/// Returns the parts of the field without a name at the start of the trees, and the trees after it.
///
/// It reads the same trees as [`split_tuple_field`](crate::split_tuple_field), and returns the same
/// errors. For `pub (A, B), C` the type is `(A, B)`, and the rest is `, C`.
#[tactic(auto, using(crate::proofs::TupleFieldLemmas::tuple_faults))]
pub fn parse_tuple_field(trees: &[TokenTree]) -> Result<(Field<'_>, &[TokenTree]), Fault>
    ensures ok { IfOk result (λ found. IsFieldAt IsTupleField HasTypeParts trees.now found.0 found.1.now) }
    ensures fault { IfErr result (λ fault. FaultAt IsTupleField trees.now fault.at) }
    ensures span { IfErr result (λ fault. fault.span ≡ extent_at trees.now fault.at) }
    ensures expected { IfErr result (λ fault. Expects IsTupleField trees.now fault.at fault.expected) }
{
    match tuple_field_of(trees) {
        Ok((field, rest)) => Ok((field, rest)),
        Err(left) => Err(fault_by(&TUPLE_FIELD, trees, left)),
    }
}

/// Reads a named field. Returns it and the trees after it, or the trees from the error on.
#[tactic(auto, using(crate::proofs::FieldLemmas::fields_of))]
pub(crate) fn field_of(trees: &[TokenTree]) -> Result<(Field<'_>, &[TokenTree]), &[TokenTree]>
    ensures { MatchResult result (λ found. Finds field trees.now found.1.now
        × IsFieldAt IsField HasFieldParts trees.now found.0 found.1.now) (λ left. Sticks field trees.now left.now) }
{
    match front_of(trees) {
        Ok((front, from_name)) => match named_type_of(from_name) {
            Ok((name, field_type, rest)) => {
                let field = Field {
                    attributes: front.attributes,
                    visibility: front.visibility,
                    name: Some(name),
                    field_type,
                };
                Ok((field, rest))
            }
            Err(left) => Err(left),
        },
        Err(left) => Err(left),
    }
}

/// Reads a name, `:` and a type. Returns the name, the type and the trees after it.
#[tactic(auto, using(crate::proofs::FieldLemmas::named_types))]
fn named_type_of(trees: &[TokenTree]) -> Result<(&Ident, &[TokenTree], &[TokenTree]), &[TokenTree]>
    ensures { MatchResult result (λ found. Finds field_rest trees.now found.2.now
        × HasNameType trees.now found.0.now found.1.now found.2.now)
        (λ left. Sticks field_rest trees.now left.now) }
{
    match name_of(trees) {
        Ok((name, from_colon)) => match colon_type_of(from_colon) {
            Ok((field_type, rest)) => Ok((name, field_type, rest)),
            Err(left) => Err(left),
        },
        Err(left) => Err(left),
    }
}

/// Reads `:` and a type. Returns the type and the trees after it.
fn colon_type_of(trees: &[TokenTree]) -> Result<(&[TokenTree], &[TokenTree]), &[TokenTree]>
    ensures { MatchResult result (λ found. Finds with_type trees.now found.1.now
        × HasColonType trees.now found.0.now found.1.now) (λ left. Sticks with_type trees.now left.now) }
{
    match first_sign(trees) {
        Some((class, from_type)) => {
            if is(SignClass::Colon, class) {
                match past_type(from_type) {
                    Ok(rest) => Ok((part(from_type, rest), rest)),
                    Err(left) => Err(left),
                }
            } else {
                Err(trees)
            }
        }
        None => Err(trees),
    }
}

/// Reads a field without a name. Returns it and the trees after it, or the trees from the error on.
///
/// Parentheses after `pub` that can be a restriction are one, as the rule `tuple-field` says.
#[tactic(auto, using(crate::proofs::TupleFieldLemmas::tuple_fields_of))]
pub(crate) fn tuple_field_of(trees: &[TokenTree]) -> Result<(Field<'_>, &[TokenTree]), &[TokenTree]>
    ensures { MatchResult result (λ found. Finds tuple_field trees.now found.1.now
        × IsFieldAt IsTupleField HasTypeParts trees.now found.0 found.1.now)
        (λ left. Sticks tuple_field trees.now left.now) }
{
    match front_of(trees) {
        Ok((front, from_type)) => match past_type(from_type) {
            Ok(rest) => {
                let field = Field {
                    attributes: front.attributes,
                    visibility: front.visibility,
                    name: None,
                    field_type: part(from_type, rest),
                };
                Ok((field, rest))
            }
            Err(left) => Err(left),
        },
        Err(left) => Err(left),
    }
}
