//! The variants of an enum.
ghost use Rattle.std.specs.Prelude.{◌≡◌, IfErr, IfOk, MatchResult};
ghost use Rattle.declarations.specs.Expected.{Expects};
ghost use Rattle.declarations.specs.Fault.{extent_at};
ghost use Rattle.declarations.specs.Forms.{IsVariant};
ghost use Rattle.declarations.specs.Reader.{Finds, Sticks};
ghost use Rattle.declarations.specs.Reading.{FaultAt};
ghost use Rattle.declarations.specs.Variant.{AreDelimited, HasDiscriminant, HasVariantRest, IsVariantAt, variant_rest};
ghost use Rattle.declarations.specs.Variant.{with_fields};
ghost use Rattle.declarations.specs.rules.Parts.{discriminant, variant, variant_fields};

use crate::entry::past_expression;
use crate::explore::fault_by;
use crate::fault::Fault;
use crate::front::front_of;
use crate::function::name_of;
use crate::item::{Fields, split_braces, split_parentheses};
use crate::part_syntax::VARIANT;
use crate::reader::{is, part};
use crate::signs::first_sign;
use item_tables::class::SignClass;
use pm_stream::TokenTree;
use pm_token::Ident;

/// A variant of an enum, split into its parts in reading order.
#[derive(Clone, Copy, Debug)]
pub struct Variant<'a> {
    /// The outer attributes, perhaps none.
    pub attributes: &'a [TokenTree],
    /// The visibility, or no trees. Only the input of a macro can have one.
    pub visibility: &'a [TokenTree],
    /// The name.
    pub name: &'a Ident,
    /// The fields, or `Unit` if the variant has none.
    pub fields: Fields<'a>,
    /// The expression after `=`, or no trees. For `= -1` it is two trees, `-` and `1`.
    pub discriminant: &'a [TokenTree],
}

/// Returns the parts of the variant at the start of the trees, and the trees after it.
///
/// It reads the same trees as [`split_variant`](crate::split_variant), and returns the same errors. For
/// `#[a] B { c: D } = 1, C` the name is `B`, the fields are those in the braces, the discriminant is `1`, and the rest
/// is `, C`.
pub fn parse_variant(trees: &[TokenTree]) -> Result<(Variant<'_>, &[TokenTree]), Fault>
    ensures ok { IfOk result (λ found. IsVariantAt trees.now found.0 found.1.now) }
    ensures fault { IfErr result (λ fault. FaultAt IsVariant trees.now fault.at) }
    ensures span { IfErr result (λ fault. fault.span ≡ extent_at trees.now fault.at) }
    ensures expected { IfErr result (λ fault. Expects IsVariant trees.now fault.at fault.expected) }
{
    match variant_of(trees) {
        Ok((variant, rest)) => Ok((variant, rest)),
        Err(left) => Err(fault_by(&VARIANT, trees, left)),
    }
}

/// Reads a variant. Returns it and the trees after it, or the trees from the error on.
#[tactic(auto, using(crate::proofs::VariantLemmas::variants_of))]
pub(crate) fn variant_of(trees: &[TokenTree]) -> Result<(Variant<'_>, &[TokenTree]), &[TokenTree]>
    ensures { MatchResult result (λ found. Finds variant trees.now found.1.now
        × IsVariantAt trees.now found.0 found.1.now) (λ left. Sticks variant trees.now left.now) }
{
    match front_of(trees) {
        Ok((front, from_name)) => match named_of(from_name) {
            Ok((named, rest)) => {
                let variant = Variant {
                    attributes: front.attributes,
                    visibility: front.visibility,
                    name: named.name,
                    fields: named.fields,
                    discriminant: named.discriminant,
                };
                Ok((variant, rest))
            }
            Err(left) => Err(left),
        },
        Err(left) => Err(left),
    }
}

/// The parts of a variant after its visibility.
#[derive(Clone, Copy)]
struct Named<'a> {
    name: &'a Ident,
    fields: Fields<'a>,
    discriminant: &'a [TokenTree],
}

/// Reads a variant from its name on. Returns the parts and the trees after them.
#[tactic(auto, using(crate::proofs::VariantLemmas::named))]
fn named_of(trees: &[TokenTree]) -> Result<(Named<'_>, &[TokenTree]), &[TokenTree]>
    ensures { MatchResult result (λ found. Finds variant_rest trees.now found.1.now
        × HasVariantRest trees.now found.0.name.now found.0.fields found.0.discriminant.now found.1.now)
        (λ left. Sticks variant_rest trees.now left.now) }
{
    match name_of(trees) {
        Ok((name, from_fields)) => {
            let (fields, from_value) = fields_of(from_fields);
            match discriminant_of(from_value) {
                Ok((discriminant, rest)) => {
                    let named = Named {
                        name,
                        fields,
                        discriminant,
                    };
                    Ok((named, rest))
                }
                Err(left) => Err(left),
            }
        }
        Err(left) => Err(left),
    }
}

/// Reads the fields of a variant, if parentheses or braces are next. Returns them and the trees after them.
#[tactic(auto, using(crate::proofs::VariantLemmas::fields_read))]
fn fields_of(trees: &[TokenTree]) -> (Fields<'_>, &[TokenTree])
    ensures finds { Finds variant_fields trees.now result.1.now }
    ensures whole { trees.now ≡ with_fields result.0 result.1.now }
    ensures delimited { AreDelimited result.0 }
{
    match split_parentheses(trees) {
        Some((group, rest)) => (Fields::Tuple(group), rest),
        None => match split_braces(trees) {
            Some((group, rest)) => (Fields::Named(group), rest),
            None => (Fields::Unit, trees),
        },
    }
}

/// Reads `=` and an expression, if `=` is next. Returns the expression, or no trees, and the trees after it.
#[tactic(auto, using(crate::proofs::VariantLemmas::discriminants))]
fn discriminant_of(trees: &[TokenTree]) -> Result<(&[TokenTree], &[TokenTree]), &[TokenTree]>
    ensures { MatchResult result (λ found. Finds discriminant trees.now found.1.now
        × HasDiscriminant trees.now found.0.now found.1.now) (λ left. Sticks discriminant trees.now left.now) }
{
    match first_sign(trees) {
        Some((class, from_value)) => {
            if is(SignClass::Equals, class) {
                match past_expression(from_value) {
                    Ok(rest) => Ok((part(from_value, rest), rest)),
                    Err(left) => Err(left),
                }
            } else {
                Ok((&[], trees))
            }
        }
        None => Ok((&[], trees)),
    }
}
