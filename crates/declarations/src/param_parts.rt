//! The parts of generic parameters and of predicates.
//!
//! A function here returns the part at the start of the trees, and the trees after it. At an error it returns the trees
//! from the error on.
ghost use Rattle.std.specs.Prelude.{◌≡◌, ◌++◌, IfErr, IfNone, IfOk, IfSome, List, [], MatchOption, MatchResult, false};
ghost use Rattle.grammars.specs.First.{heads};
ghost use Rattle.grammars.specs.Grammar.{perhaps};
ghost use Rattle.pm_stream.specs.declared.stream.TokenTree.{TokenTree as Tree};
ghost use Rattle.declarations.specs.Forms.{AreAttributes, AreBounds, IsType};
ghost use Rattle.declarations.specs.Param.{EndsElement, Fails, HasBounds, HasDefault, HasName, HasNo, HasParam};
ghost use Rattle.declarations.specs.Param.{HasPredicate, IsBack, IsParamAt, IsPredicateAt, IsWord, Leads, MayHave};
ghost use Rattle.declarations.specs.Param.{MustHave, ParamTrees, PredicateTrees, ReadsConstant, ReadsPart};
ghost use Rattle.declarations.specs.Param.{after_bounds, after_name, is_constant, param_trees, predicate_trees};
ghost use Rattle.declarations.specs.Parameter.{LeadsTo};
ghost use Rattle.declarations.specs.Reader.{Finds, Sticks, classes_in};
ghost use Rattle.declarations.specs.Reading.{Reads};
ghost use Rattle.declarations.specs.Signs.{BeginsWith};
ghost use Rattle.declarations.specs.rules.Names.{one, word};
ghost use Rattle.declarations.specs.rules.Parts.{attributes, constant_default, default_type, parameter, parameter_rest};
ghost use Rattle.declarations.specs.rules.Parts.{predicate, with_bounds, with_constant};
ghost use Rattle.declarations.specs.rules.Paths.{colon_bounds};
ghost use Rattle.declarations.specs.rules.Types.{bounds, type};
ghost use Rattle.item_tables.specs.declared.class.SignClass.TheVariants as classes;
ghost use Rattle.declarations.specs.declared.generics.ParamKind.{ParamKind as Kind};
ghost use Rattle.declarations.specs.declared.generics.ParamKind.TheVariants as kinds;

use crate::generic_argument::past_bounds;
use crate::generics::{Param, ParamKind, Predicate};
use crate::parameter::{past_attributes, past_type};
use crate::reader::{is, part};
use crate::signs::first_sign;
use item_tables::class::{Keyword, SignClass};
use pm_stream::TokenTree;

/// The generic parameter at the start of the trees, and the trees after it.
pub(crate) fn param_of<'a>(
    trees: &'a [TokenTree],
) -> Result<(Param<'a>, &'a [TokenTree]), &'a [TokenTree]>
    ensures ok { IfOk result (λ found. HasParam trees.now (param_trees found.0) found.1.now) }
    ensures nothing { IfErr result (λ left. (param : ParamTrees) → (rest : List Tree)
        → IsParamAt trees.now param rest → ⊥) }
    ensures rule { MatchResult result (λ found. Finds parameter trees.now found.1.now)
        (λ left. Sticks parameter trees.now left.now) }
{
    let (attributes, from_name) = attributes_of(trees)?;
    let (kind, name, from_bounds) = name_of(from_name)?;
    let (bounds, from_default) = bounds_of(kind, from_bounds)?;
    let (default, from_end) = default_of(kind, from_default)?;
    let param = Param {
        attributes,
        kind,
        name,
        bounds,
        default,
    };
    Ok((param, from_end))
}

/// The predicate at the start of the trees, and the trees after it.
pub(crate) fn predicate_of<'a>(
    trees: &'a [TokenTree],
) -> Result<(Predicate<'a>, &'a [TokenTree]), &'a [TokenTree]>
    ensures ok { IfOk result (λ found. HasPredicate trees.now (predicate_trees found.0) found.1.now) }
    ensures nothing { IfErr result (λ left. (predicate : PredicateTrees) → (rest : List Tree)
        → IsPredicateAt trees.now predicate rest → ⊥) }
    ensures rule { MatchResult result (λ found. Finds predicate trees.now found.1.now)
        (λ left. Sticks predicate trees.now left.now) }
{
    let (bounded, from_colon) = type_of(trees)?;
    let (bounds, from_end) = must_bounds(from_colon)?;
    Ok((Predicate { bounded, bounds }, from_end))
}

// ---- parts that the tables read

/// The trees before `rest`, with which they end.
fn before<'a>(trees: &'a [TokenTree], rest: &[TokenTree]) -> &'a [TokenTree]
    requires { IsBack rest.now trees.now }
    ensures { trees.now ≡ result.now ++ rest.now }
{
    trees.split_at(trees.len() - rest.len()).0
}

#[tactic(auto, using(crate::proofs::ParamRuleLemmas::attribute_parts))]
fn attributes_of<'a>(
    trees: &'a [TokenTree],
) -> Result<(&'a [TokenTree], &'a [TokenTree]), &'a [TokenTree]>
    ensures parts { MatchResult result (λ found. Reads AreAttributes trees.now found.0.now found.1.now)
        (λ left. Fails (Reads AreAttributes) trees.now left.now) }
    ensures rule { ReadsPart attributes trees.now result }
{
    match past_attributes(trees) {
        Ok(rest) => Ok((part(trees, rest), rest)),
        Err(left) => Err(left),
    }
}

#[tactic(auto, using(crate::proofs::ParamRuleLemmas::bound_parts))]
fn plain_bounds<'a>(
    trees: &'a [TokenTree],
) -> Result<(&'a [TokenTree], &'a [TokenTree]), &'a [TokenTree]>
    ensures parts { MatchResult result (λ found. Reads AreBounds trees.now found.0.now found.1.now)
        (λ left. Fails (Reads AreBounds) trees.now left.now) }
    ensures rule { ReadsPart bounds trees.now result }
{
    match past_bounds(trees) {
        Ok(rest) => Ok((part(trees, rest), rest)),
        Err(left) => Err(left),
    }
}

#[tactic(auto, using(crate::proofs::ParamRuleLemmas::type_parts))]
fn type_of<'a>(
    trees: &'a [TokenTree],
) -> Result<(&'a [TokenTree], &'a [TokenTree]), &'a [TokenTree]>
    ensures parts { MatchResult result (λ found. Reads IsType trees.now found.0.now found.1.now)
        (λ left. Fails (Reads IsType) trees.now left.now) }
    ensures rule { ReadsPart type trees.now result }
{
    match past_type(trees) {
        Ok(rest) => Ok((part(trees, rest), rest)),
        Err(left) => Err(left),
    }
}

// ---- single signs

/// The trees after the sign of this class that they begin with.
fn past_sign(trees: &[TokenTree], class: SignClass) -> Option<&[TokenTree]>
    ensures found { IfSome result (λ rest. BeginsWith trees.now class rest.now) }
    ensures none { IfNone result (HasNo class trees.now) }
    ensures heads { IfNone result (heads (one class) (classes_in trees.now) ≡ false) }
{
    match first_sign(trees) {
        Some((found, rest)) => { if is(class, found) { Some(rest) } else { None } }
        None => None,
    }
}

/// The trees after the end of a list's element, which is a `,` or the end of the trees.
pub(crate) fn past_end(trees: &[TokenTree]) -> Option<&[TokenTree]>
    ensures { MatchOption result ((rest : List Tree) → EndsElement trees.now rest → ⊥)
        (λ rest. EndsElement trees.now rest.now) }
{
    if trees.is_empty() {
        return Some(trees);
    }
    match past_sign(trees, SignClass::Comma) {
        Some(rest) => Some(rest),
        None => None,
    }
}

// ---- the parts of a parameter

/// A word, and the trees after it.
fn word_of<'a>(
    trees: &'a [TokenTree],
) -> Result<(&'a [TokenTree], &'a [TokenTree]), &'a [TokenTree]>
    ensures parts { MatchResult result (λ found. IsWord trees.now found.0.now found.1.now)
        (λ left. Fails IsWord trees.now left.now) }
    ensures rule { ReadsPart word trees.now result }
{
    let Some((class, rest)) = first_sign(trees) else {
        return Err(trees);
    };
    match class {
        SignClass::Word(_) => Ok((before(trees, rest), rest)),
        _ => Err(trees),
    }
}

/// The kind and the name of a parameter, and the trees after them.
fn name_of<'a>(
    trees: &'a [TokenTree],
) -> Result<(ParamKind, &'a [TokenTree], &'a [TokenTree]), &'a [TokenTree]>
    ensures ok { IfOk result (λ found. HasName found.0 trees.now found.1.now found.2.now) }
    ensures nothing { IfErr result (λ left. (kind : Kind) → Fails (HasName kind) trees.now left.now) }
    ensures rule { MatchResult result (λ found. LeadsTo parameter_rest trees.now (after_name found.0) found.2.now)
        (λ left. Sticks parameter_rest trees.now left.now) }
{
    let Some((class, rest)) = first_sign(trees) else {
        return Err(trees);
    };
    match class {
        SignClass::Lifetime => Ok((ParamKind::Lifetime, before(trees, rest), rest)),
        SignClass::Word(_) => Ok((ParamKind::Type, before(trees, rest), rest)),
        SignClass::Keyword(Keyword::Const) => {
            let (name, after) = word_of(rest)?;
            Ok((ParamKind::Const, name, after))
        }
        _ => Err(trees),
    }
}

/// The bounds after `:`, or no trees if there is no `:`.
fn may_bounds<'a>(
    trees: &'a [TokenTree],
) -> Result<(&'a [TokenTree], &'a [TokenTree]), &'a [TokenTree]>
    ensures parts { MatchResult result
        (λ found. MayHave classes.Colon (Reads AreBounds) trees.now found.0.now found.1.now)
        (λ left. Fails (MayHave classes.Colon (Reads AreBounds)) trees.now left.now) }
    ensures rule { ReadsPart with_bounds trees.now result }
{
    match past_sign(trees, SignClass::Colon) {
        Some(left) => plain_bounds(left),
        None => Ok((none_of(trees), trees)),
    }
}

/// The bounds after a `:` that must be there.
fn must_bounds<'a>(
    trees: &'a [TokenTree],
) -> Result<(&'a [TokenTree], &'a [TokenTree]), &'a [TokenTree]>
    ensures parts { MatchResult result
        (λ found. MustHave classes.Colon (Reads AreBounds) trees.now found.0.now found.1.now)
        (λ left. Fails (MustHave classes.Colon (Reads AreBounds)) trees.now left.now) }
    ensures rule { ReadsPart colon_bounds trees.now result }
{
    match past_sign(trees, SignClass::Colon) {
        Some(left) => plain_bounds(left),
        None => Err(trees),
    }
}

/// The type after a `:` that must be there.
fn must_type<'a>(
    trees: &'a [TokenTree],
) -> Result<(&'a [TokenTree], &'a [TokenTree]), &'a [TokenTree]>
    ensures parts { MatchResult result
        (λ found. MustHave classes.Colon (Reads IsType) trees.now found.0.now found.1.now)
        (λ left. Fails (MustHave classes.Colon (Reads IsType)) trees.now left.now) }
    ensures rule { Leads (after_name kinds.Const) (after_bounds kinds.Const) trees.now result }
{
    match past_sign(trees, SignClass::Colon) {
        Some(left) => type_of(left),
        None => Err(trees),
    }
}

/// The bounds of a lifetime or a type, or the type of a constant.
fn bounds_of<'a>(
    kind: ParamKind,
    trees: &'a [TokenTree],
) -> Result<(&'a [TokenTree], &'a [TokenTree]), &'a [TokenTree]>
    ensures parts { MatchResult result (λ found. HasBounds kind trees.now found.0.now found.1.now)
        (λ left. Fails (HasBounds kind) trees.now left.now) }
    ensures rule { Leads (after_name kind) (after_bounds kind) trees.now result }
{
    match kind {
        ParamKind::Lifetime => may_bounds(trees),
        ParamKind::Type => may_bounds(trees),
        ParamKind::Const => must_type(trees),
    }
}

/// No trees, as a slice of the given ones.
fn none_of(trees: &[TokenTree]) -> &[TokenTree]
    ensures { result.now ≡ [] }
{
    trees.split_at(0).0
}

fn is_constant(class: SignClass) -> bool
    ensures { result ≡ is_constant class }
{
    match class {
        SignClass::Literal | SignClass::Braces | SignClass::Block | SignClass::Truth => true,
        _ => false,
    }
}

/// The default of a constant: a literal, braces, `true`, `false` or a type.
fn constant_of<'a>(
    trees: &'a [TokenTree],
) -> Result<(&'a [TokenTree], &'a [TokenTree]), &'a [TokenTree]>
    ensures parts { MatchResult result (λ found. ReadsConstant trees.now found.0.now found.1.now)
        (λ left. Fails ReadsConstant trees.now left.now) }
    ensures rule { ReadsPart constant_default trees.now result }
{
    let Some((class, rest)) = first_sign(trees) else {
        return type_of(trees);
    };
    if is_constant(class) {
        return Ok((before(trees, rest), rest));
    }
    match class {
        SignClass::Minus => match past_sign(rest, SignClass::Literal) {
            Some(after) => Ok((before(trees, after), after)),
            None => Err(rest),
        },
        _ => type_of(trees),
    }
}

/// The type after `=`, or no trees if there is no `=`.
fn may_type<'a>(
    trees: &'a [TokenTree],
) -> Result<(&'a [TokenTree], &'a [TokenTree]), &'a [TokenTree]>
    ensures parts { MatchResult result
        (λ found. MayHave classes.Equals (Reads IsType) trees.now found.0.now found.1.now)
        (λ left. Fails (MayHave classes.Equals (Reads IsType)) trees.now left.now) }
    ensures rule { ReadsPart (perhaps default_type) trees.now result }
{
    match past_sign(trees, SignClass::Equals) {
        Some(left) => type_of(left),
        None => Ok((none_of(trees), trees)),
    }
}

/// The constant after `=`, or no trees if there is no `=`.
fn may_constant<'a>(
    trees: &'a [TokenTree],
) -> Result<(&'a [TokenTree], &'a [TokenTree]), &'a [TokenTree]>
    ensures parts { MatchResult result
        (λ found. MayHave classes.Equals ReadsConstant trees.now found.0.now found.1.now)
        (λ left. Fails (MayHave classes.Equals ReadsConstant) trees.now left.now) }
    ensures rule { ReadsPart with_constant trees.now result }
{
    match past_sign(trees, SignClass::Equals) {
        Some(left) => constant_of(left),
        None => Ok((none_of(trees), trees)),
    }
}

/// The default of a parameter. A lifetime has none.
fn default_of<'a>(
    kind: ParamKind,
    trees: &'a [TokenTree],
) -> Result<(&'a [TokenTree], &'a [TokenTree]), &'a [TokenTree]>
    ensures parts { MatchResult result (λ found. HasDefault kind trees.now found.0.now found.1.now)
        (λ left. Fails (HasDefault kind) trees.now left.now) }
    ensures rule { ReadsPart (after_bounds kind) trees.now result }
{
    match kind {
        ParamKind::Lifetime => Ok((none_of(trees), trees)),
        ParamKind::Type => may_type(trees),
        ParamKind::Const => may_constant(trees),
    }
}
