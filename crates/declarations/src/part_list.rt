//! Lists of parts with `,` between two and perhaps after the last.
//!
//! At an error a function returns the trees from the error on.
ghost use Rattle.std.specs.Prelude.{◌≡◌, ◌<◌, IfOk, MatchResult, length, true};
ghost use Rattle.declarations.specs.PartList.{IsNext, element_rule, list_rule};
ghost use Rattle.declarations.specs.Reader.{ReadsRule, Sticks};

use crate::field::{field_of, tuple_field_of};
use crate::generic_argument::argument_of;
use crate::param_parts::{param_of, predicate_of};
use crate::reader::is;
use crate::signs::first_sign;
use crate::variant::variant_of;
use item_tables::class::SignClass;
use pm_stream::TokenTree;

/// What the elements of a list are.
#[derive(Clone, Copy)]
pub enum Element {
    /// Named fields.
    Field,
    /// Fields without names.
    TupleField,
    /// Variants.
    Variant,
    /// Generic parameters.
    Parameter,
    /// Predicates of a where clause.
    Predicate,
    /// Generic arguments.
    Argument,
}

/// Skips an element.
fn past_element(element: Element, trees: &[TokenTree]) -> Result<&[TokenTree], &[TokenTree]>
    ensures { ReadsRule (element_rule element) trees.now result }
{
    match element {
        Element::Field => Ok(field_of(trees)?.1),
        Element::TupleField => Ok(tuple_field_of(trees)?.1),
        Element::Variant => Ok(variant_of(trees)?.1),
        Element::Parameter => Ok(param_of(trees)?.1),
        Element::Predicate => Ok(predicate_of(trees)?.1),
        Element::Argument => Ok(argument_of(trees)?.1),
    }
}

/// Skips the next element and its `,`, if there are any. Returns whether there was a `,`, and the trees after it.
fn past_next(element: Element, trees: &[TokenTree]) -> Result<(bool, &[TokenTree]), &[TokenTree]>
    ensures reads { MatchResult result (λ found. IsNext element found.0 trees.now found.1.now)
        (λ left. Sticks (list_rule element) trees.now left.now) }
    ensures fewer { IfOk result (λ found. found.0 ≡ true → length found.1.now < length trees.now) }
{
    match past_element(element, trees) {
        Ok(from_comma) => match first_sign(from_comma) {
            Some((class, rest)) => {
                if is(SignClass::Comma, class) {
                    Ok((true, rest))
                } else {
                    Ok((false, from_comma))
                }
            }
            None => Ok((false, from_comma)),
        },
        Err(left) => {
            if left.len() == trees.len() {
                Ok((false, trees))
            } else {
                Err(left)
            }
        }
    }
}

/// Skips a list.
pub(crate) fn past_list(element: Element, trees: &[TokenTree]) -> Result<&[TokenTree], &[TokenTree]>
    ensures { ReadsRule (list_rule element) trees.now result }
{
    let mut left = trees;
    loop {
        match past_next(element, left) {
            Ok((more, rest)) => {
                if !more {
                    return Ok(rest);
                }
                left = rest;
            }
            Err(fault) => return Err(fault),
        }
    }
}
