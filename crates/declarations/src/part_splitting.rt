//! Calls that split a part of a declaration off the start of trees.
ghost use Rattle.std.specs.Prelude.{◌≡◌, IfErr, IfOk};
ghost use Rattle.declarations.specs.Expected.{Expects};
ghost use Rattle.declarations.specs.Fault.{extent_at};
ghost use Rattle.declarations.specs.Forms.{AreAttributes, AreBounds, AreFields, AreGenerics, AreTupleFields, IsField};
ghost use Rattle.declarations.specs.Forms.{IsItem, IsTupleField, IsType, IsVisibility, IsWhere};
ghost use Rattle.declarations.specs.Forms.{AreInnerAttributes, AreVariants, IsExpression, IsVariant};
ghost use Rattle.declarations.specs.Reading.{FaultAt, IsOnly, Reads};

use crate::entry::past_expression;
use crate::explore::fault_by;
use crate::fault::Fault;
use crate::field::{parse_field, parse_tuple_field};
use crate::front::past_visibility;
use crate::function::{past_generics, past_where};
use crate::generic_argument::past_bounds;
use crate::inner::past_inner_attributes;
use crate::item::item_of;
use crate::item_syntax::TYPE_ITEM;
use crate::parameter::{past_attributes, past_type};
use crate::part_list::{Element, past_list};
use crate::part_syntax::{
    ATTRIBUTES, BOUNDS, EXPRESSION, FIELDS, GENERICS, INNER_ATTRIBUTES, TUPLE_FIELDS, TYPE,
    VARIANTS, WHERE,
};
use crate::reader::part;
use crate::variant::parse_variant;
use pm_stream::TokenTree;

/// Returns the type at the start of the trees, and the trees after it.
///
/// A type is not parsed; only its end is found. It ends outside of angle brackets, after an operand, where the next
/// sign cannot continue it. For `Vec<A>, B` it is `Vec<A>`.
#[tactic(auto, using(crate::proofs::PartReaderLemmas::type_parts))]
pub fn split_type(trees: &[TokenTree]) -> Result<(&[TokenTree], &[TokenTree]), Fault>
    ensures ok { IfOk result (λ found. Reads IsType trees.now found.0.now found.1.now) }
    ensures only { IfOk result (λ found. IsOnly IsType trees.now found.0.now found.1.now) }
    ensures fault { IfErr result (λ fault. FaultAt IsType trees.now fault.at) }
    ensures span { IfErr result (λ fault. fault.span ≡ extent_at trees.now fault.at) }
    ensures expected { IfErr result (λ fault. Expects IsType trees.now fault.at fault.expected) }
{
    match past_type(trees) {
        Ok(rest) => Ok((part(trees, rest), rest)),
        Err(left) => Err(fault_by(&TYPE, trees, left)),
    }
}

/// Returns the bounds at the start of the trees, perhaps none, and the trees after them.
///
/// Bounds end as a type does. For `A + 'b = C` they are `A + 'b`.
#[tactic(auto, using(crate::proofs::PartReaderLemmas::bound_parts))]
pub fn split_bounds(trees: &[TokenTree]) -> Result<(&[TokenTree], &[TokenTree]), Fault>
    ensures ok { IfOk result (λ found. Reads AreBounds trees.now found.0.now found.1.now) }
    ensures only { IfOk result (λ found. IsOnly AreBounds trees.now found.0.now found.1.now) }
    ensures fault { IfErr result (λ fault. FaultAt AreBounds trees.now fault.at) }
    ensures span { IfErr result (λ fault. fault.span ≡ extent_at trees.now fault.at) }
    ensures expected { IfErr result (λ fault. Expects AreBounds trees.now fault.at fault.expected) }
{
    match past_bounds(trees) {
        Ok(rest) => Ok((part(trees, rest), rest)),
        Err(left) => Err(fault_by(&BOUNDS, trees, left)),
    }
}

/// Returns the outer attributes at the start of the trees, perhaps none, and the trees after them.
///
/// The trees in the brackets are not read. For `#[a] #[b] pub x` the attributes are `#[a] #[b]`.
#[tactic(auto, using(crate::proofs::PartReaderLemmas::attribute_parts))]
pub fn split_attributes(trees: &[TokenTree]) -> Result<(&[TokenTree], &[TokenTree]), Fault>
    ensures ok { IfOk result (λ found. Reads AreAttributes trees.now found.0.now found.1.now) }
    ensures only { IfOk result (λ found. IsOnly AreAttributes trees.now found.0.now found.1.now) }
    ensures fault { IfErr result (λ fault. FaultAt AreAttributes trees.now fault.at) }
    ensures span { IfErr result (λ fault. fault.span ≡ extent_at trees.now fault.at) }
    ensures expected { IfErr result (λ fault. Expects AreAttributes trees.now fault.at fault.expected) }
{
    match past_attributes(trees) {
        Ok(rest) => Ok((part(trees, rest), rest)),
        Err(left) => Err(fault_by(&ATTRIBUTES, trees, left)),
    }
}

/// Returns the visibility at the start of the trees, perhaps no trees, and the trees after it.
///
/// Parentheses after `pub` belong to the visibility if they are `(crate)`, `(self)`, `(super)` or `(in ..)`. The path
/// after `in` is not read. For `pub (A, B)` the visibility is `pub`.
#[tactic(auto, using(crate::proofs::PartReaderLemmas::visibility_parts))]
pub fn split_visibility(trees: &[TokenTree]) -> Result<(&[TokenTree], &[TokenTree]), Fault>
    ensures ok { IfOk result (λ found. Reads IsVisibility trees.now found.0.now found.1.now) }
    ensures only { IfOk result (λ found. IsOnly IsVisibility trees.now found.0.now found.1.now) }
    ensures fault { IfErr result (λ fault. FaultAt IsVisibility trees.now fault.at) }
    ensures span { IfErr result (λ fault. fault.span ≡ extent_at trees.now fault.at) }
    ensures expected { IfErr result (λ fault. Expects IsVisibility trees.now fault.at fault.expected) }
{
    let rest = past_visibility(trees);
    Ok((part(trees, rest), rest))
}

/// Returns the named field at the start of the trees, with attributes and visibility, and the trees after it.
///
/// For `#[a] pub x: Vec<A, B>, y: C` the field is `#[a] pub x: Vec<A, B>`.
#[tactic(auto, using(crate::proofs::PartReaderLemmas::fields_read))]
pub fn split_field(trees: &[TokenTree]) -> Result<(&[TokenTree], &[TokenTree]), Fault>
    ensures ok { IfOk result (λ found. Reads IsField trees.now found.0.now found.1.now) }
    ensures only { IfOk result (λ found. IsOnly IsField trees.now found.0.now found.1.now) }
    ensures fault { IfErr result (λ fault. FaultAt IsField trees.now fault.at) }
    ensures span { IfErr result (λ fault. fault.span ≡ extent_at trees.now fault.at) }
    ensures expected { IfErr result (λ fault. Expects IsField trees.now fault.at fault.expected) }
{
    match parse_field(trees) {
        Ok((_, rest)) => Ok((part(trees, rest), rest)),
        Err(fault) => Err(fault),
    }
}

/// Returns the field without a name at the start of the trees, with attributes and visibility, and the trees after it.
///
/// For `pub (A, B), C` the field is `pub (A, B)`, whose type is `(A, B)`.
#[tactic(auto, using(crate::proofs::PartReaderLemmas::tuple_fields_read))]
pub fn split_tuple_field(trees: &[TokenTree]) -> Result<(&[TokenTree], &[TokenTree]), Fault>
    ensures ok { IfOk result (λ found. Reads IsTupleField trees.now found.0.now found.1.now) }
    ensures only { IfOk result (λ found. IsOnly IsTupleField trees.now found.0.now found.1.now) }
    ensures fault { IfErr result (λ fault. FaultAt IsTupleField trees.now fault.at) }
    ensures span { IfErr result (λ fault. fault.span ≡ extent_at trees.now fault.at) }
    ensures expected { IfErr result (λ fault. Expects IsTupleField trees.now fault.at fault.expected) }
{
    match parse_tuple_field(trees) {
        Ok((_, rest)) => Ok((part(trees, rest), rest)),
        Err(fault) => Err(fault),
    }
}

/// Returns the named fields at the start of the trees, perhaps none, and the trees after them.
///
/// A `,` is between two fields, and may be after the last. If a rest is left of the trees in a struct's braces, the
/// struct has an error there.
#[tactic(auto, using(crate::proofs::PartReaderLemmas::field_lists_read))]
pub fn split_fields(trees: &[TokenTree]) -> Result<(&[TokenTree], &[TokenTree]), Fault>
    ensures ok { IfOk result (λ found. Reads AreFields trees.now found.0.now found.1.now) }
    ensures only { IfOk result (λ found. IsOnly AreFields trees.now found.0.now found.1.now) }
    ensures fault { IfErr result (λ fault. FaultAt AreFields trees.now fault.at) }
    ensures span { IfErr result (λ fault. fault.span ≡ extent_at trees.now fault.at) }
    ensures expected { IfErr result (λ fault. Expects AreFields trees.now fault.at fault.expected) }
{
    match past_list(Element::Field, trees) {
        Ok(rest) => Ok((part(trees, rest), rest)),
        Err(left) => Err(fault_by(&FIELDS, trees, left)),
    }
}

/// Returns the fields without names at the start of the trees, perhaps none, and the trees after them.
///
/// A `,` is between two fields, and may be after the last.
#[tactic(auto, using(crate::proofs::PartReaderLemmas::tuple_field_lists_read))]
pub fn split_tuple_fields(trees: &[TokenTree]) -> Result<(&[TokenTree], &[TokenTree]), Fault>
    ensures ok { IfOk result (λ found. Reads AreTupleFields trees.now found.0.now found.1.now) }
    ensures only { IfOk result (λ found. IsOnly AreTupleFields trees.now found.0.now found.1.now) }
    ensures fault { IfErr result (λ fault. FaultAt AreTupleFields trees.now fault.at) }
    ensures span { IfErr result (λ fault. fault.span ≡ extent_at trees.now fault.at) }
    ensures expected { IfErr result (λ fault. Expects AreTupleFields trees.now fault.at fault.expected) }
{
    match past_list(Element::TupleField, trees) {
        Ok(rest) => Ok((part(trees, rest), rest)),
        Err(left) => Err(fault_by(&TUPLE_FIELDS, trees, left)),
    }
}

/// Returns the variant at the start of the trees, and the trees after it.
///
/// It includes the attributes, the visibility and the discriminant. The trees inside its braces or parentheses are not
/// read. For `#[a] B { c: D } = f::<X, Y>(), C` it is everything before the last `,`.
#[tactic(auto, using(crate::proofs::PartReaderLemmas::variants_read))]
pub fn split_variant(trees: &[TokenTree]) -> Result<(&[TokenTree], &[TokenTree]), Fault>
    ensures ok { IfOk result (λ found. Reads IsVariant trees.now found.0.now found.1.now) }
    ensures only { IfOk result (λ found. IsOnly IsVariant trees.now found.0.now found.1.now) }
    ensures fault { IfErr result (λ fault. FaultAt IsVariant trees.now fault.at) }
    ensures span { IfErr result (λ fault. fault.span ≡ extent_at trees.now fault.at) }
    ensures expected { IfErr result (λ fault. Expects IsVariant trees.now fault.at fault.expected) }
{
    match parse_variant(trees) {
        Ok((_, rest)) => Ok((part(trees, rest), rest)),
        Err(fault) => Err(fault),
    }
}

/// Returns the variants at the start of the trees, perhaps none, and the trees after them.
///
/// A `,` is between two variants, and may be after the last. If a rest is left of the trees in an enum's braces, the
/// enum has an error there.
#[tactic(auto, using(crate::proofs::PartReaderLemmas::variant_lists_read))]
pub fn split_variants(trees: &[TokenTree]) -> Result<(&[TokenTree], &[TokenTree]), Fault>
    ensures ok { IfOk result (λ found. Reads AreVariants trees.now found.0.now found.1.now) }
    ensures only { IfOk result (λ found. IsOnly AreVariants trees.now found.0.now found.1.now) }
    ensures fault { IfErr result (λ fault. FaultAt AreVariants trees.now fault.at) }
    ensures span { IfErr result (λ fault. fault.span ≡ extent_at trees.now fault.at) }
    ensures expected { IfErr result (λ fault. Expects AreVariants trees.now fault.at fault.expected) }
{
    match past_list(Element::Variant, trees) {
        Ok(rest) => Ok((part(trees, rest), rest)),
        Err(left) => Err(fault_by(&VARIANTS, trees, left)),
    }
}

/// Returns the expression at the start of the trees, and the trees after it.
///
/// Like the discriminant of a variant, it ends before a `,`, a `;` or a second operand, outside of angle brackets and
/// a closure's bars, or with the trees. It is not parsed; only its end is found, so `a => b` is one expression. For
/// `f::<X, Y>() as A<B, C>, D` it is everything before the last `,`.
///
/// A `<` opens angle brackets only where an operand must come, such as after `::`, and in the type of a cast. So
/// `a < b, c > d` ends before the `,`. A `$` is in no expression.
#[tactic(auto, using(crate::proofs::PartReaderLemmas::expression_parts))]
pub fn split_expression(trees: &[TokenTree]) -> Result<(&[TokenTree], &[TokenTree]), Fault>
    ensures ok { IfOk result (λ found. Reads IsExpression trees.now found.0.now found.1.now) }
    ensures only { IfOk result (λ found. IsOnly IsExpression trees.now found.0.now found.1.now) }
    ensures fault { IfErr result (λ fault. FaultAt IsExpression trees.now fault.at) }
    ensures span { IfErr result (λ fault. fault.span ≡ extent_at trees.now fault.at) }
    ensures expected { IfErr result (λ fault. Expects IsExpression trees.now fault.at fault.expected) }
{
    match past_expression(trees) {
        Ok(rest) => Ok((part(trees, rest), rest)),
        Err(left) => Err(fault_by(&EXPRESSION, trees, left)),
    }
}

/// Returns the generic parameters at the start of the trees with their angle brackets, and the trees after them.
///
/// The parameters may be left out. For `<'a, T: A<B> = C, const N: usize = 3> where T: D` they are everything before
/// `where`.
#[tactic(auto, using(crate::proofs::PartReaderLemmas::generic_parts))]
pub fn split_generics(trees: &[TokenTree]) -> Result<(&[TokenTree], &[TokenTree]), Fault>
    ensures ok { IfOk result (λ found. Reads AreGenerics trees.now found.0.now found.1.now) }
    ensures only { IfOk result (λ found. IsOnly AreGenerics trees.now found.0.now found.1.now) }
    ensures fault { IfErr result (λ fault. FaultAt AreGenerics trees.now fault.at) }
    ensures span { IfErr result (λ fault. fault.span ≡ extent_at trees.now fault.at) }
    ensures expected { IfErr result (λ fault. Expects AreGenerics trees.now fault.at fault.expected) }
{
    match past_generics(trees) {
        Ok(rest) => Ok((part(trees, rest), rest)),
        Err(left) => Err(fault_by(&GENERICS, trees, left)),
    }
}

/// Returns the where clause at the start of the trees, perhaps no trees, and the trees after it.
///
/// For `where T: A, [U; 2]: B { .. }` the clause is everything before the braces.
#[tactic(auto, using(crate::proofs::PartReaderLemmas::where_parts))]
pub fn split_where(trees: &[TokenTree]) -> Result<(&[TokenTree], &[TokenTree]), Fault>
    ensures ok { IfOk result (λ found. Reads IsWhere trees.now found.0.now found.1.now) }
    ensures only { IfOk result (λ found. IsOnly IsWhere trees.now found.0.now found.1.now) }
    ensures fault { IfErr result (λ fault. FaultAt IsWhere trees.now fault.at) }
    ensures span { IfErr result (λ fault. fault.span ≡ extent_at trees.now fault.at) }
    ensures expected { IfErr result (λ fault. Expects IsWhere trees.now fault.at fault.expected) }
{
    match past_where(trees) {
        Ok(rest) => Ok((part(trees, rest), rest)),
        Err(left) => Err(fault_by(&WHERE, trees, left)),
    }
}

/// Returns the struct, enum or union at the start of the trees, and the trees after it.
///
/// It includes the attributes and the visibility. The trees inside the braces or parentheses of its body are not read:
/// [`split_fields`], [`split_tuple_fields`] and [`split_variants`] read them.
#[tactic(auto, using(crate::proofs::PartReaderLemmas::items_read))]
pub fn split_item(trees: &[TokenTree]) -> Result<(&[TokenTree], &[TokenTree]), Fault>
    ensures ok { IfOk result (λ found. Reads IsItem trees.now found.0.now found.1.now) }
    ensures only { IfOk result (λ found. IsOnly IsItem trees.now found.0.now found.1.now) }
    ensures fault { IfErr result (λ fault. FaultAt IsItem trees.now fault.at) }
    ensures span { IfErr result (λ fault. fault.span ≡ extent_at trees.now fault.at) }
    ensures expected { IfErr result (λ fault. Expects IsItem trees.now fault.at fault.expected) }
{
    match item_of(trees) {
        Ok((_, rest)) => Ok((part(trees, rest), rest)),
        Err(left) => Err(fault_by(&TYPE_ITEM, trees, left)),
    }
}

/// Returns the inner attributes at the start of the trees, perhaps none, and the trees after them.
///
/// For `#![a] #[b] fn f() {}` the attributes are `#![a]`.
#[tactic(auto, using(crate::proofs::InnerLemmas::inner_parts))]
pub fn split_inner_attributes(trees: &[TokenTree]) -> Result<(&[TokenTree], &[TokenTree]), Fault>
    ensures ok { IfOk result (λ found. Reads AreInnerAttributes trees.now found.0.now found.1.now) }
    ensures only { IfOk result (λ found. IsOnly AreInnerAttributes trees.now found.0.now found.1.now) }
    ensures fault { IfErr result (λ fault. FaultAt AreInnerAttributes trees.now fault.at) }
    ensures span { IfErr result (λ fault. fault.span ≡ extent_at trees.now fault.at) }
    ensures expected { IfErr result (λ fault. Expects AreInnerAttributes trees.now fault.at fault.expected) }
{
    match past_inner_attributes(trees) {
        Ok(rest) => Ok((part(trees, rest), rest)),
        Err(left) => Err(fault_by(&INNER_ATTRIBUTES, trees, left)),
    }
}
