//! What traits and type aliases have after their names. Each function skips what one rule reads, and returns the trees
//! after it, or the trees from the error on.
ghost use Rattle.std.specs.Prelude.{◌≡◌, MatchResult, false, true};
ghost use Rattle.grammars.specs.First.{heads};
ghost use Rattle.grammars.specs.Grammar.{Then};
ghost use Rattle.declarations.specs.ItemFront.{HasHeader, LacksHeader, ReadsKind, ReadsNamed};
ghost use Rattle.declarations.specs.ItemRest.{alias_type, trait_alias_rest, trait_body};
ghost use Rattle.declarations.specs.Kind.{named_rule};
ghost use Rattle.declarations.specs.Reader.{ReadsRule, classes_in};
ghost use Rattle.declarations.specs.rules.Bodies.{alias_rest, alias_value, semicolon};
ghost use Rattle.declarations.specs.rules.Fronts.{auto_front};
ghost use Rattle.declarations.specs.rules.Names.{Trait, key, one};
ghost use Rattle.declarations.specs.rules.Parts.{where_clause, with_bounds};
ghost use Rattle.declarations.specs.rules.Paths.{colon_bounds};
ghost use Rattle.declarations.specs.rules.Rules.{rules};
ghost use Rattle.declarations.specs.rules.Types.{type};
ghost use Rattle.item_tables.specs.declared.class.SignClass.TheVariants as signs;
ghost use Rattle.item_tables.specs.declared.class.Keyword.TheVariants as keywords;
ghost use Rattle.declarations.specs.declared.any_item.ItemKind.TheVariants as kinds;

use crate::any_item::ItemKind;
use crate::function::{past_generics, past_where};
use crate::generic_argument::past_bounds;
use crate::item_front::FoundItem;
use crate::item_rest::{past_name, past_semicolon, past_where_and_body};
use crate::parameter::past_type;
use crate::reader::{begins, is, past};
use crate::signs::first_sign;
use item_tables::class::{Keyword, SignClass};
use pm_stream::TokenTree;

/// Skips `:` and bounds.
#[tactic(auto, using(crate::proofs::ReaderLemmas::steps))]
fn past_colon_bounds(trees: &[TokenTree]) -> Result<&[TokenTree], &[TokenTree]>
    ensures { ReadsRule colon_bounds trees.now result }
{
    let from_bounds = past(trees, SignClass::Colon)?;
    past_bounds(from_bounds)
}

/// Skips `:` and bounds, if `:` is next.
#[tactic(auto, using(crate::proofs::ReaderLemmas::steps))]
fn may_bounds(trees: &[TokenTree]) -> Result<&[TokenTree], &[TokenTree]>
    ensures { ReadsRule with_bounds trees.now result }
{
    if begins(trees, SignClass::Colon) {
        past_colon_bounds(trees)
    } else {
        Ok(trees)
    }
}

// ---- type aliases

/// Skips a type and a where clause.
#[tactic(auto, using(crate::proofs::ReaderLemmas::steps))]
fn past_type_and_where(trees: &[TokenTree]) -> Result<&[TokenTree], &[TokenTree]>
    ensures { ReadsRule (Then type where_clause) trees.now result }
{
    let from_clause = past_type(trees)?;
    past_where(from_clause)
}

/// Skips `=`, the type of an alias and a where clause.
#[tactic(auto, using(crate::proofs::ReaderLemmas::steps))]
fn past_alias_type(trees: &[TokenTree]) -> Result<&[TokenTree], &[TokenTree]>
    ensures { ReadsRule alias_type trees.now result }
{
    let from_type = past(trees, SignClass::Equals)?;
    past_type_and_where(from_type)
}

/// Skips `=`, the type of an alias and a where clause, if `=` is next.
#[tactic(auto, using(crate::proofs::ReaderLemmas::steps))]
fn may_alias_type(trees: &[TokenTree]) -> Result<&[TokenTree], &[TokenTree]>
    ensures { ReadsRule alias_value trees.now result }
{
    if begins(trees, SignClass::Equals) {
        past_alias_type(trees)
    } else {
        Ok(trees)
    }
}

/// Skips the type of an alias, if it has one, and `;`.
#[tactic(auto, using(crate::proofs::ReaderLemmas::steps))]
fn past_alias_end(trees: &[TokenTree]) -> Result<&[TokenTree], &[TokenTree]>
    ensures { ReadsRule (Then alias_value semicolon) trees.now result }
{
    let from_end = may_alias_type(trees)?;
    past_semicolon(from_end)
}

/// Skips what a type alias has after its generic parameters.
fn past_alias_rest(trees: &[TokenTree]) -> Result<&[TokenTree], &[TokenTree]>
    ensures { ReadsRule alias_rest trees.now result }
{
    let from_clause = may_bounds(trees)?;
    let from_value = past_where(from_clause)?;
    past_alias_end(from_value)
}

/// Skips a type alias from its name on.
#[tactic(auto, using(crate::proofs::ReaderLemmas::steps))]
pub(crate) fn past_alias(trees: &[TokenTree]) -> Result<&[TokenTree], &[TokenTree]>
    ensures { ReadsRule (named_rule kinds.TypeAlias) trees.now result }
{
    let from_generics = past_name(trees)?;
    let from_rest = past_generics(from_generics)?;
    past_alias_rest(from_rest)
}

// ---- traits

/// Skips a where clause and `;`.
#[tactic(auto, using(crate::proofs::ReaderLemmas::steps))]
fn past_clause_end(trees: &[TokenTree]) -> Result<&[TokenTree], &[TokenTree]>
    ensures { ReadsRule (Then where_clause semicolon) trees.now result }
{
    let from_end = past_where(trees)?;
    past_semicolon(from_end)
}

/// Skips `=`, the bounds of a trait alias, a where clause and `;`.
fn past_trait_alias(trees: &[TokenTree]) -> Result<&[TokenTree], &[TokenTree]>
    ensures { ReadsRule trait_alias_rest trees.now result }
{
    let from_bounds = past(trees, SignClass::Equals)?;
    let from_clause = past_bounds(from_bounds)?;
    past_clause_end(from_clause)
}

/// Skips the bounds of a trait, a where clause and braces.
#[tactic(auto, using(crate::proofs::ReaderLemmas::steps))]
fn past_trait_body(trees: &[TokenTree]) -> Result<&[TokenTree], &[TokenTree]>
    ensures { ReadsRule trait_body trees.now result }
{
    let from_clause = may_bounds(trees)?;
    past_where_and_body(from_clause)
}

/// Skips the name and the generic parameters of a trait.
#[tactic(auto, using(crate::proofs::TraitLemmas::headers))]
fn past_header(trees: &[TokenTree]) -> Result<&[TokenTree], &[TokenTree]>
    ensures { MatchResult result (λ rest. HasHeader trees.now rest.now) (λ left. LacksHeader trees.now left.now) }
{
    match past_name(trees) {
        Ok(from_generics) => match past_generics(from_generics) {
            Ok(rest) => Ok(rest),
            Err(left) => Err(left),
        },
        Err(left) => Err(left),
    }
}

/// Reads a trait alias whose name is at the start of the trees. `rest` is after its generic parameters.
#[tactic(auto, using(crate::proofs::TraitLemmas::traits))]
fn trait_alias_of<'a>(
    trees: &'a [TokenTree],
    rest: &'a [TokenTree],
) -> Result<FoundItem<'a>, &'a [TokenTree]>
    requires header { HasHeader trees.now rest.now }
    requires equals { heads (one signs.Equals) (classes_in rest.now) ≡ true }
    ensures { ReadsNamed (key keywords.Trait) (rules Trait) trees.now result }
{
    match past_trait_alias(rest) {
        Ok(after) => Ok(FoundItem {
            kind: ItemKind::TraitAlias,
            named: trees,
            rest: after,
        }),
        Err(left) => Err(left),
    }
}

/// Reads a trait whose name is at the start of the trees. `rest` is after its generic parameters.
#[tactic(auto, using(crate::proofs::TraitLemmas::traits))]
fn trait_of<'a>(
    trees: &'a [TokenTree],
    rest: &'a [TokenTree],
) -> Result<FoundItem<'a>, &'a [TokenTree]>
    requires header { HasHeader trees.now rest.now }
    requires no_equals { heads (one signs.Equals) (classes_in rest.now) ≡ false }
    ensures { ReadsNamed (key keywords.Trait) (rules Trait) trees.now result }
{
    match past_trait_body(rest) {
        Ok(after) => Ok(FoundItem {
            kind: ItemKind::Trait,
            named: trees,
            rest: after,
        }),
        Err(left) => Err(left),
    }
}

/// Reads a trait or a trait alias after its `trait`.
#[tactic(auto, using(crate::proofs::TraitLemmas::traits))]
pub(crate) fn past_trait(trees: &[TokenTree]) -> Result<FoundItem<'_>, &[TokenTree]>
    ensures { ReadsNamed (key keywords.Trait) (rules Trait) trees.now result }
{
    match past_header(trees) {
        Ok(rest) => {
            if begins(rest, SignClass::Equals) {
                trait_alias_of(trees, rest)
            } else {
                trait_of(trees, rest)
            }
        }
        Err(left) => Err(left),
    }
}

/// Reads a trait after its `auto`.
#[tactic(auto, using(crate::proofs::TraitLemmas::traits))]
pub(crate) fn past_auto(trees: &[TokenTree]) -> Result<FoundItem<'_>, &[TokenTree]>
    ensures { ReadsKind auto_front trees.now result }
{
    match first_sign(trees) {
        Some((class, rest)) => {
            if is(SignClass::Keyword(Keyword::Trait), class) {
                past_trait(rest)
            } else {
                Err(trees)
            }
        }
        None => Err(trees),
    }
}
