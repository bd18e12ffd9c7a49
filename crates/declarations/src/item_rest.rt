//! What items have after their names. Each function skips what one rule reads, and returns the trees after it, or the
//! trees from the error on.
ghost use Rattle.std.specs.Prelude.{◌≡◌, IfNone, IfSome, false, true};
ghost use Rattle.grammars.specs.First.{heads};
ghost use Rattle.grammars.specs.Grammar.{Many, Then, perhaps};
ghost use Rattle.declarations.specs.ItemRest.{is_value, round, tuple_rest, value};
ghost use Rattle.declarations.specs.Kind.{named_rule};
ghost use Rattle.declarations.specs.Reader.{Finds, ReadsRule, classes_in};
ghost use Rattle.declarations.specs.rules.Bodies.{body_end, braces, constant_rest, constant_value, function_rest, name};
ghost use Rattle.declarations.specs.rules.Bodies.{not_semicolon, semicolon, struct_rest, type_and_value, until};
ghost use Rattle.declarations.specs.rules.Bodies.{where_and_body};
ghost use Rattle.declarations.specs.rules.Names.{word};
ghost use Rattle.declarations.specs.rules.Parts.{where_clause};
ghost use Rattle.declarations.specs.declared.any_item.ItemKind.TheVariants as kinds;

use crate::function::{is_name, past_generics, past_returning, past_where};
use crate::parameter::past_type;
use crate::reader::{begins, is, past};
use crate::signs::first_sign;
use crate::type_path::is_round;
use item_tables::class::SignClass;
use pm_stream::TokenTree;

// ---- single signs

/// Whether a word, which can be a name, is next.
#[tactic(auto, using(crate::proofs::ReaderLemmas::steps))]
pub(crate) fn begins_word(trees: &[TokenTree]) -> bool
    ensures { result ≡ heads word (classes_in trees.now) }
{
    match first_sign(trees) {
        Some((class, _)) => is_name(class),
        None => false,
    }
}

/// Skips a name.
#[tactic(auto, using(crate::proofs::ReaderLemmas::steps))]
pub(crate) fn past_name(trees: &[TokenTree]) -> Result<&[TokenTree], &[TokenTree]>
    ensures { ReadsRule name trees.now result }
{
    match first_sign(trees) {
        Some((class, rest)) => { if is_name(class) { Ok(rest) } else { Err(trees) } }
        None => Err(trees),
    }
}

/// Skips `;`.
#[tactic(auto, using(crate::proofs::ReaderLemmas::steps))]
pub(crate) fn past_semicolon(trees: &[TokenTree]) -> Result<&[TokenTree], &[TokenTree]>
    ensures { ReadsRule semicolon trees.now result }
{
    past(trees, SignClass::Semicolon)
}

/// Skips a body in braces.
#[tactic(auto, using(crate::proofs::ReaderLemmas::steps))]
pub(crate) fn past_braces(trees: &[TokenTree]) -> Result<&[TokenTree], &[TokenTree]>
    ensures { ReadsRule braces trees.now result }
{
    past(trees, SignClass::Braces)
}

/// Skips a body in braces, or `;`.
pub(crate) fn past_body_end(trees: &[TokenTree]) -> Result<&[TokenTree], &[TokenTree]>
    ensures { ReadsRule body_end trees.now result }
{
    if begins(trees, SignClass::Braces) {
        past_braces(trees)
    } else {
        past_semicolon(trees)
    }
}

/// Whether a group in parentheses is next.
#[tactic(auto, using(crate::proofs::ReaderLemmas::steps))]
fn begins_round(trees: &[TokenTree]) -> bool
    ensures { result ≡ heads round (classes_in trees.now) }
{
    match first_sign(trees) {
        Some((class, _)) => is_round(class),
        None => false,
    }
}

/// Skips a group in parentheses.
#[tactic(auto, using(crate::proofs::ReaderLemmas::steps))]
fn past_round(trees: &[TokenTree]) -> Result<&[TokenTree], &[TokenTree]>
    ensures { ReadsRule round trees.now result }
{
    match first_sign(trees) {
        Some((class, rest)) => {
            if is_round(class) {
                Ok(rest)
            } else {
                Err(trees)
            }
        }
        None => Err(trees),
    }
}

/// Skips a group in parentheses, if one is next.
#[tactic(auto, using(crate::proofs::ReaderLemmas::steps))]
pub(crate) fn may_round(trees: &[TokenTree]) -> Result<&[TokenTree], &[TokenTree]>
    ensures { ReadsRule (perhaps round) trees.now result }
{
    if begins_round(trees) {
        past_round(trees)
    } else {
        Ok(trees)
    }
}

// ---- structs, enums and unions

/// Skips the fields of a tuple struct, a where clause and `;`.
fn past_tuple(trees: &[TokenTree]) -> Result<&[TokenTree], &[TokenTree]>
    ensures { ReadsRule tuple_rest trees.now result }
{
    let from_clause = past_round(trees)?;
    let from_end = past_where(from_clause)?;
    past_semicolon(from_end)
}

/// Skips a where clause, and braces or `;`.
#[tactic(auto, using(crate::proofs::ReaderLemmas::steps))]
fn past_plain(trees: &[TokenTree]) -> Result<&[TokenTree], &[TokenTree]>
    ensures { ReadsRule (Then where_clause body_end) trees.now result }
{
    let from_end = past_where(trees)?;
    past_body_end(from_end)
}

/// Skips what a struct has after its generic parameters.
#[tactic(auto, using(crate::proofs::ItemRestLemmas::choices))]
fn past_struct_rest(trees: &[TokenTree]) -> Result<&[TokenTree], &[TokenTree]>
    ensures { ReadsRule struct_rest trees.now result }
{
    if begins_round(trees) {
        past_tuple(trees)
    } else {
        past_plain(trees)
    }
}

/// Skips a struct from its name on.
pub(crate) fn past_struct(trees: &[TokenTree]) -> Result<&[TokenTree], &[TokenTree]>
    ensures { ReadsRule (named_rule kinds.Struct) trees.now result }
{
    let from_generics = past_name(trees)?;
    let from_rest = past_generics(from_generics)?;
    past_struct_rest(from_rest)
}

/// Skips a where clause and braces.
#[tactic(auto, using(crate::proofs::ReaderLemmas::steps))]
pub(crate) fn past_where_and_body(trees: &[TokenTree]) -> Result<&[TokenTree], &[TokenTree]>
    ensures { ReadsRule where_and_body trees.now result }
{
    let from_body = past_where(trees)?;
    past_braces(from_body)
}

/// Skips an enum or a union from its name on.
pub(crate) fn past_enum(trees: &[TokenTree]) -> Result<&[TokenTree], &[TokenTree]>
    ensures { ReadsRule (named_rule kinds.Enum) trees.now result }
{
    let from_generics = past_name(trees)?;
    let from_clause = past_generics(from_generics)?;
    past_where_and_body(from_clause)
}

// ---- functions

/// Skips what a function has after its generic parameters.
#[tactic(auto, using(crate::proofs::ReaderLemmas::steps))]
fn past_function_rest(trees: &[TokenTree]) -> Result<&[TokenTree], &[TokenTree]>
    ensures { ReadsRule function_rest trees.now result }
{
    let from_return = past_round(trees)?;
    past_returning(from_return)
}

/// Skips a function from its name on.
#[tactic(auto, using(crate::proofs::ReaderLemmas::steps))]
pub(crate) fn past_function(trees: &[TokenTree]) -> Result<&[TokenTree], &[TokenTree]>
    ensures { ReadsRule (named_rule kinds.Function) trees.now result }
{
    let from_generics = past_name(trees)?;
    let from_parameters = past_generics(from_generics)?;
    past_function_rest(from_parameters)
}

// ---- constants and statics

/// Whether the sign can be in the expression of a constant.
fn goes_on(class: SignClass) -> bool
    ensures { result ≡ is_value class }
{
    !is(SignClass::Semicolon, class)
}

/// Skips one more sign of an expression, if one is next.
#[tactic(auto, using(crate::proofs::ReaderLemmas::steps))]
fn value_sign(trees: &[TokenTree]) -> Option<&[TokenTree]>
    ensures found { IfSome result (λ rest. Finds not_semicolon trees.now rest.now) }
    ensures begins { IfSome result (λ rest. heads not_semicolon (classes_in trees.now) ≡ true) }
    ensures none { IfNone result (heads not_semicolon (classes_in trees.now) ≡ false) }
{
    match first_sign(trees) {
        Some((class, rest)) => { if goes_on(class) { Some(rest) } else { None } }
        None => None,
    }
}

/// Skips the signs before `;`.
fn value_signs(trees: &[TokenTree]) -> &[TokenTree]
    ensures { Finds (Many not_semicolon) trees.now result.now }
{
    let mut left = trees;
    while let Some(next) = value_sign(left) {
        left = next;
    }
    left
}

/// Skips the expression of a constant, up to its `;`.
#[tactic(auto, using(crate::proofs::ReaderLemmas::steps))]
fn past_until(trees: &[TokenTree]) -> Result<&[TokenTree], &[TokenTree]>
    ensures { ReadsRule until trees.now result }
{
    match value_sign(trees) {
        Some(rest) => Ok(value_signs(rest)),
        None => Err(trees),
    }
}

/// Skips `=` and the expression of a constant.
#[tactic(auto, using(crate::proofs::ReaderLemmas::steps))]
fn past_value(trees: &[TokenTree]) -> Result<&[TokenTree], &[TokenTree]>
    ensures { ReadsRule value trees.now result }
{
    let from_value = past(trees, SignClass::Equals)?;
    past_until(from_value)
}

/// Skips `=` and the expression of a constant, if `=` is next.
#[tactic(auto, using(crate::proofs::ReaderLemmas::steps))]
fn may_value(trees: &[TokenTree]) -> Result<&[TokenTree], &[TokenTree]>
    ensures { ReadsRule constant_value trees.now result }
{
    if begins(trees, SignClass::Equals) {
        past_value(trees)
    } else {
        Ok(trees)
    }
}

/// Skips the value of a constant or a static, if it has one, and `;`.
fn past_constant_end(trees: &[TokenTree]) -> Result<&[TokenTree], &[TokenTree]>
    ensures { ReadsRule (Then constant_value semicolon) trees.now result }
{
    let from_end = may_value(trees)?;
    past_semicolon(from_end)
}

/// Skips the type of a constant or a static, and its value.
#[tactic(auto, using(crate::proofs::ReaderLemmas::steps))]
fn past_typed(trees: &[TokenTree]) -> Result<&[TokenTree], &[TokenTree]>
    ensures { ReadsRule type_and_value trees.now result }
{
    let from_type = past(trees, SignClass::Colon)?;
    let from_value = past_type(from_type)?;
    past_constant_end(from_value)
}

/// Skips what a constant has after its name.
#[tactic(auto, using(crate::proofs::ReaderLemmas::steps))]
pub(crate) fn past_constant_rest(trees: &[TokenTree]) -> Result<&[TokenTree], &[TokenTree]>
    ensures { ReadsRule constant_rest trees.now result }
{
    let from_type = past_generics(trees)?;
    past_typed(from_type)
}

/// Skips a static from its name on.
#[tactic(auto, using(crate::proofs::ReaderLemmas::steps))]
pub(crate) fn past_static_rest(trees: &[TokenTree]) -> Result<&[TokenTree], &[TokenTree]>
    ensures { ReadsRule (named_rule kinds.Static) trees.now result }
{
    let from_type = past_name(trees)?;
    past_typed(from_type)
}
