//! Macros, macro calls, imports and external crates. Each function skips what one rule reads, and returns the trees
//! after it, or the trees from the error on.
ghost use Rattle.std.specs.Prelude.{◌≡◌, ◌<◌, MatchOption, MatchResult, false, length};
ghost use Rattle.grammars.specs.First.{heads};
ghost use Rattle.grammars.specs.Grammar.{Many, Sign, Then};
ghost use Rattle.declarations.specs.ItemRest.{further_segment, is_call_group, is_crate_name, is_new_name, is_use_list};
ghost use Rattle.declarations.specs.ItemRest.{round_call, use_end, use_list};
ghost use Rattle.declarations.specs.Kind.{named_rule};
ghost use Rattle.declarations.specs.Parameter.{LeadsTo};
ghost use Rattle.declarations.specs.Reader.{ReadsRule, classes_in};
ghost use Rattle.declarations.specs.Signs.{BeginsWith};
ghost use Rattle.declarations.specs.rules.Bodies.{name};
ghost use Rattle.declarations.specs.rules.Fronts.{as_name, crate_name, is_segment, new_name};
ghost use Rattle.declarations.specs.rules.Items.{call_end, call_name, use_path};
ghost use Rattle.declarations.specs.rules.Names.{one};
ghost use Rattle.item_tables.specs.declared.class.SignClass.TheVariants as signs;
ghost use Rattle.declarations.specs.declared.any_item.ItemKind.TheVariants as kinds;

use crate::function::is_name;
use crate::item_rest::{
    begins_word, may_round, past_body_end, past_braces, past_name, past_semicolon,
};
use crate::reader::{begins, is, past};
use crate::signs::first_sign;
use item_tables::class::SignClass;
use pm_stream::TokenTree;

// ---- macros and modules

/// Skips a macro from its name on.
pub(crate) fn past_macro(trees: &[TokenTree]) -> Result<&[TokenTree], &[TokenTree]>
    ensures { ReadsRule (named_rule kinds.Macro) trees.now result }
{
    let from_parameters = past_name(trees)?;
    let from_body = may_round(from_parameters)?;
    past_braces(from_body)
}

/// Skips a module from its name on.
#[tactic(auto, using(crate::proofs::ReaderLemmas::steps))]
pub(crate) fn past_module(trees: &[TokenTree]) -> Result<&[TokenTree], &[TokenTree]>
    ensures { ReadsRule (named_rule kinds.Module) trees.now result }
{
    let from_body = past_name(trees)?;
    past_body_end(from_body)
}

// ---- macro calls

/// Whether the sign is a group of a macro call that `;` must follow.
pub(crate) fn is_call_group(class: SignClass) -> bool
    ensures { result ≡ is_call_group class }
{
    match class {
        SignClass::Parentheses | SignClass::Restriction | SignClass::Brackets => true,
        _ => false,
    }
}

/// Skips a group of a macro call that `;` must follow.
fn past_call_group(trees: &[TokenTree]) -> Result<&[TokenTree], &[TokenTree]>
    ensures { ReadsRule (Sign is_call_group) trees.now result }
{
    match first_sign(trees) {
        Some((class, rest)) => {
            if is_call_group(class) {
                Ok(rest)
            } else {
                Err(trees)
            }
        }
        None => Err(trees),
    }
}

/// Skips the group of a macro call in parentheses or brackets, and `;`.
#[tactic(auto, using(crate::proofs::ReaderLemmas::steps))]
fn past_round_call(trees: &[TokenTree]) -> Result<&[TokenTree], &[TokenTree]>
    ensures { ReadsRule round_call trees.now result }
{
    let from_end = past_call_group(trees)?;
    past_semicolon(from_end)
}

/// Skips the group of a macro call, and the `;` that must follow parentheses and brackets.
#[tactic(auto, using(crate::proofs::ReaderLemmas::steps))]
fn past_call_end(trees: &[TokenTree]) -> Result<&[TokenTree], &[TokenTree]>
    ensures { ReadsRule call_end trees.now result }
{
    if begins(trees, SignClass::Braces) {
        past_braces(trees)
    } else {
        past_round_call(trees)
    }
}

/// Skips a name and the group of a macro call.
fn past_named_call(trees: &[TokenTree]) -> Result<&[TokenTree], &[TokenTree]>
    ensures { ReadsRule (Then name call_end) trees.now result }
{
    let from_group = past_name(trees)?;
    past_call_end(from_group)
}

/// Skips what a macro call has after its `!`.
#[tactic(auto, using(crate::proofs::ItemRestLemmas::choices))]
pub(crate) fn past_call_name(trees: &[TokenTree]) -> Result<&[TokenTree], &[TokenTree]>
    ensures { ReadsRule call_name trees.now result }
{
    if begins_word(trees) {
        past_named_call(trees)
    } else {
        past_call_end(trees)
    }
}

/// Whether the sign can be a segment of a path.
pub(crate) fn is_segment(class: SignClass) -> bool
    ensures { result ≡ is_segment class }
{
    match class {
        SignClass::Word(_) | SignClass::SelfValue | SignClass::Super | SignClass::Crate => true,
        _ => false,
    }
}

/// Skips a segment of a path.
#[tactic(auto, using(crate::proofs::ReaderLemmas::steps))]
pub(crate) fn past_segment(trees: &[TokenTree]) -> Result<&[TokenTree], &[TokenTree]>
    ensures { ReadsRule (Sign is_segment) trees.now result }
{
    match first_sign(trees) {
        Some((class, rest)) => {
            if is_segment(class) {
                Ok(rest)
            } else {
                Err(trees)
            }
        }
        None => Err(trees),
    }
}

/// Skips `::` and a segment of a path.
#[tactic(auto, using(crate::proofs::ReaderLemmas::steps))]
fn past_further(trees: &[TokenTree]) -> Result<&[TokenTree], &[TokenTree]>
    ensures { ReadsRule further_segment trees.now result }
{
    let from_segment = past(trees, SignClass::PathSeparator)?;
    past_segment(from_segment)
}

/// Whether `::` and a segment of a path are next, if the trees fit.
#[tactic(auto, using(crate::proofs::ItemRestLemmas::further))]
fn begins_further(trees: &[TokenTree]) -> bool
    ensures { result ≡ heads further_segment (classes_in trees.now) }
{
    begins(trees, SignClass::PathSeparator)
}

/// Skips the segments of a path after the first one.
pub(crate) fn past_segments(trees: &[TokenTree]) -> Result<&[TokenTree], &[TokenTree]>
    ensures { ReadsRule (Many further_segment) trees.now result }
{
    let mut left = trees;
    while begins_further(left) {
        match past_further(left) {
            Ok(next) => left = next,
            Err(fault) => return Err(fault),
        }
    }
    Ok(left)
}

// ---- imports and external crates

/// Whether the sign is a name or `_`.
pub(crate) fn is_new_name(class: SignClass) -> bool
    ensures { result ≡ is_new_name class }
{
    is_name(class) || is(SignClass::Underscore, class)
}

/// Skips a name or `_`.
#[tactic(auto, using(crate::proofs::ReaderLemmas::steps))]
fn past_new_name(trees: &[TokenTree]) -> Result<&[TokenTree], &[TokenTree]>
    ensures { ReadsRule new_name trees.now result }
{
    match first_sign(trees) {
        Some((class, rest)) => {
            if is_new_name(class) {
                Ok(rest)
            } else {
                Err(trees)
            }
        }
        None => Err(trees),
    }
}

/// Skips `as` and a name or `_`.
#[tactic(auto, using(crate::proofs::ReaderLemmas::steps))]
fn past_as(trees: &[TokenTree]) -> Result<&[TokenTree], &[TokenTree]>
    ensures { ReadsRule (Then (one signs.As) new_name) trees.now result }
{
    let from_name = past(trees, SignClass::As)?;
    past_new_name(from_name)
}

/// Skips `as` and a name or `_`, if `as` is next.
#[tactic(auto, using(crate::proofs::ReaderLemmas::steps))]
fn may_as(trees: &[TokenTree]) -> Result<&[TokenTree], &[TokenTree]>
    ensures { ReadsRule as_name trees.now result }
{
    if begins(trees, SignClass::As) {
        past_as(trees)
    } else {
        Ok(trees)
    }
}

/// Skips the end of an import after the last segment of its path.
#[tactic(auto, using(crate::proofs::ReaderLemmas::steps))]
fn past_use_end(trees: &[TokenTree]) -> Result<&[TokenTree], &[TokenTree]>
    ensures { ReadsRule use_end trees.now result }
{
    let from_end = may_as(trees)?;
    past_semicolon(from_end)
}

/// Whether the sign is `*` or braces.
pub(crate) fn is_use_list(class: SignClass) -> bool
    ensures { result ≡ is_use_list class }
{
    match class {
        SignClass::Star | SignClass::Braces => true,
        _ => false,
    }
}

/// Skips `*` or braces.
#[tactic(auto, using(crate::proofs::ReaderLemmas::steps))]
fn past_use_sign(trees: &[TokenTree]) -> Result<&[TokenTree], &[TokenTree]>
    ensures { ReadsRule (Sign is_use_list) trees.now result }
{
    match first_sign(trees) {
        Some((class, rest)) => {
            if is_use_list(class) {
                Ok(rest)
            } else {
                Err(trees)
            }
        }
        None => Err(trees),
    }
}

/// Skips the end of an import from its `*` or its braces on.
#[tactic(auto, using(crate::proofs::ReaderLemmas::steps))]
fn past_use_list(trees: &[TokenTree]) -> Result<&[TokenTree], &[TokenTree]>
    ensures { ReadsRule use_list trees.now result }
{
    let from_end = past_use_sign(trees)?;
    past_semicolon(from_end)
}

/// The trees after `::`, if `::` is next.
#[tactic(auto, using(crate::proofs::ItemRestLemmas::separators))]
fn may_separator(trees: &[TokenTree]) -> Option<&[TokenTree]>
    ensures { MatchOption result (heads (one signs.PathSeparator) (classes_in trees.now) ≡ false)
        (λ rest. BeginsWith trees.now signs.PathSeparator rest.now) }
{
    match first_sign(trees) {
        Some((class, rest)) => {
            if is(SignClass::PathSeparator, class) {
                Some(rest)
            } else {
                None
            }
        }
        None => None,
    }
}

/// Skips a segment of an import's path and `::`. If these are not next, it skips the rest of the import.
#[tactic(auto, using(crate::proofs::ItemRestLemmas::imports))]
fn use_step(trees: &[TokenTree]) -> Result<&[TokenTree], Result<&[TokenTree], &[TokenTree]>>
    ensures { MatchResult result
        (λ next. LeadsTo use_path trees.now use_path next.now × (length next.now < length trees.now))
        (λ end. ReadsRule use_path trees.now end) }
{
    match first_sign(trees) {
        Some((class, rest)) => {
            if is_segment(class) {
                match may_separator(rest) {
                    Some(next) => Ok(next),
                    None => Err(past_use_end(rest)),
                }
            } else {
                Err(past_use_list(trees))
            }
        }
        None => Err(Err(trees)),
    }
}

/// Skips an import from a segment of its path, `*` or braces on.
fn past_use_path(trees: &[TokenTree]) -> Result<&[TokenTree], &[TokenTree]>
    ensures { ReadsRule use_path trees.now result }
{
    let mut left = trees;
    loop {
        match use_step(left) {
            Ok(next) => left = next,
            Err(end) => return end,
        }
    }
}

/// Skips an import after its `use`.
#[tactic(auto, using(crate::proofs::ItemRestLemmas::imports))]
pub(crate) fn past_use(trees: &[TokenTree]) -> Result<&[TokenTree], &[TokenTree]>
    ensures { ReadsRule (named_rule kinds.Use) trees.now result }
{
    match first_sign(trees) {
        Some((class, rest)) => {
            if is(SignClass::PathSeparator, class) {
                past_use_path(rest)
            } else {
                past_use_path(trees)
            }
        }
        None => Err(trees),
    }
}

/// Whether the sign is the name of an external crate, or `self`.
pub(crate) fn is_crate_name(class: SignClass) -> bool
    ensures { result ≡ is_crate_name class }
{
    is_name(class) || is(SignClass::SelfValue, class)
}

/// Skips the name of an external crate, or `self`.
#[tactic(auto, using(crate::proofs::ReaderLemmas::steps))]
fn past_crate_name(trees: &[TokenTree]) -> Result<&[TokenTree], &[TokenTree]>
    ensures { ReadsRule crate_name trees.now result }
{
    match first_sign(trees) {
        Some((class, rest)) => {
            if is_crate_name(class) {
                Ok(rest)
            } else {
                Err(trees)
            }
        }
        None => Err(trees),
    }
}

/// Skips an external crate from its name on.
#[tactic(auto, using(crate::proofs::ReaderLemmas::steps))]
pub(crate) fn past_crate(trees: &[TokenTree]) -> Result<&[TokenTree], &[TokenTree]>
    ensures { ReadsRule (named_rule kinds.ExternCrate) trees.now result }
{
    let from_as = past_crate_name(trees)?;
    past_use_end(from_as)
}
