//! What items have before their names. Each function reads an item by one rule, and finds its kind and its name. At an
//! error it returns the trees from the error on.
ghost use Rattle.std.specs.Prelude.{◌≡◌, true};
ghost use Rattle.grammars.specs.First.{heads, may_begin};
ghost use Rattle.grammars.specs.Grammar.{Then, perhaps};
ghost use Rattle.declarations.specs.ItemFront.{ReadsAfter, ReadsConstant, ReadsKind, ReadsNamed};
ghost use Rattle.declarations.specs.ItemRest.{fn_item, is_new_name};
ghost use Rattle.declarations.specs.Kind.{AreQualifiers, keyword_rule, named_rule};
ghost use Rattle.declarations.specs.Reader.{Finds, ReadsRule, classes_in};
ghost use Rattle.declarations.specs.Signs.{BeginsWith};
ghost use Rattle.declarations.specs.rules.Fronts.{async_front, const_front, function_front, gen_front, safe_front};
ghost use Rattle.declarations.specs.rules.Names.{Static, one};
ghost use Rattle.declarations.specs.rules.Rules.{rules};
ghost use Rattle.item_tables.specs.declared.class.SignClass.TheVariants as signs;
ghost use Rattle.item_tables.specs.declared.class.Keyword.TheVariants as keywords;

use crate::any_item::ItemKind;
use crate::function::{is_safe, may};
use crate::item_paths::is_new_name;
use crate::item_rest::{past_constant_rest, past_function, past_static_rest};
use crate::reader::is;
use crate::signs::first_sign;
use crate::trait_rest::past_trait;
use item_tables::class::{Keyword, SignClass, Word};
use pm_stream::TokenTree;

/// The kind of an item, and where its name and its end are.
#[derive(Clone, Copy)]
pub struct FoundItem<'a> {
    /// The kind of the item.
    pub kind: ItemKind,
    /// The trees from the name on, or from after the keyword if the kind has no names.
    pub named: &'a [TokenTree],
    /// The trees after the item.
    pub rest: &'a [TokenTree],
}

/// The item of this kind that was read from its name on.
pub(crate) fn named_item<'a>(
    kind: ItemKind,
    trees: &'a [TokenTree],
    read: Result<&'a [TokenTree], &'a [TokenTree]>,
) -> Result<FoundItem<'a>, &'a [TokenTree]>
    requires { ReadsRule (named_rule kind) trees.now read }
    ensures { ReadsNamed (keyword_rule kind) (named_rule kind) trees.now result }
{
    match read {
        Ok(rest) => Ok(FoundItem {
            kind,
            named: trees,
            rest,
        }),
        Err(left) => Err(left),
    }
}

// ---- functions

/// Reads a function from its `fn` on.
#[tactic(auto, using(crate::proofs::ItemFrontLemmas::functions))]
pub(crate) fn past_fn(trees: &[TokenTree]) -> Result<FoundItem<'_>, &[TokenTree]>
    ensures { ReadsKind fn_item trees.now result }
{
    match first_sign(trees) {
        Some((class, rest)) => {
            if is(SignClass::Keyword(Keyword::Fn), class) {
                named_item(ItemKind::Function, rest, past_function(rest))
            } else {
                Err(trees)
            }
        }
        None => Err(trees),
    }
}

/// Skips the literal that names an ABI, if it is next.
#[tactic(auto, using(crate::proofs::ItemFrontLemmas::literals))]
pub(crate) fn may_literal(trees: &[TokenTree]) -> &[TokenTree]
    ensures finds { Finds (perhaps (one signs.Literal)) trees.now result.now }
    ensures qualifiers { AreQualifiers trees.now result.now }
{
    match first_sign(trees) {
        Some((class, rest)) => {
            if is(SignClass::Literal, class) {
                rest
            } else {
                trees
            }
        }
        None => trees,
    }
}

/// Reads a function after its `extern`.
#[tactic(auto, using(crate::proofs::ItemFrontLemmas::functions))]
fn past_abi(trees: &[TokenTree]) -> Result<FoundItem<'_>, &[TokenTree]>
    ensures { ReadsKind (Then (perhaps (one signs.Literal)) fn_item) trees.now result }
{
    past_fn(may_literal(trees))
}

/// Reads a function from its `extern` or its `fn` on.
#[tactic(auto, using(crate::proofs::ItemFrontLemmas::functions))]
pub(crate) fn past_function_front(trees: &[TokenTree]) -> Result<FoundItem<'_>, &[TokenTree]>
    ensures { ReadsKind function_front trees.now result }
{
    match first_sign(trees) {
        Some((class, rest)) => {
            if is(SignClass::Keyword(Keyword::Extern), class) {
                past_abi(rest)
            } else {
                past_fn(trees)
            }
        }
        None => Err(trees),
    }
}

/// Reads a function after its `gen`.
#[tactic(auto, using(crate::proofs::ItemFrontLemmas::functions))]
pub(crate) fn past_gen(trees: &[TokenTree]) -> Result<FoundItem<'_>, &[TokenTree]>
    ensures { ReadsKind gen_front trees.now result }
{
    match first_sign(trees) {
        Some((class, rest)) => {
            if is_safe(class) {
                past_function_front(rest)
            } else {
                past_function_front(trees)
            }
        }
        None => Err(trees),
    }
}

/// Reads a function after its `async`.
#[tactic(auto, using(crate::proofs::ItemFrontLemmas::functions))]
pub(crate) fn past_async(trees: &[TokenTree]) -> Result<FoundItem<'_>, &[TokenTree]>
    ensures { ReadsKind async_front trees.now result }
{
    match first_sign(trees) {
        Some((class, rest)) => {
            if is(SignClass::Word(Word::Gen), class) {
                past_gen(rest)
            } else {
                past_gen(trees)
            }
        }
        None => Err(trees),
    }
}

// ---- constants

/// Whether the sign begins a function that has no qualifiers before its `extern`.
fn begins_fn(class: SignClass) -> bool
    ensures { result ≡ may_begin function_front class }
{
    match class {
        SignClass::Keyword(Keyword::Extern | Keyword::Fn) => true,
        _ => false,
    }
}

/// Whether a function follows that has no qualifiers before its `extern`.
#[tactic(auto, using(crate::proofs::ReaderLemmas::steps))]
fn begins_function(trees: &[TokenTree]) -> bool
    ensures { result ≡ heads function_front (classes_in trees.now) }
{
    match first_sign(trees) {
        Some((class, _)) => begins_fn(class),
        None => false,
    }
}

/// Whether the sign begins what a function has after its `gen`.
fn begins_after_gen(class: SignClass) -> bool
    ensures { result ≡ may_begin gen_front class }
{
    is_safe(class) || begins_fn(class)
}

/// Whether what a function has after its `gen` is next.
#[tactic(auto, using(crate::proofs::ReaderLemmas::steps))]
fn begins_gen(trees: &[TokenTree]) -> bool
    ensures { result ≡ heads gen_front (classes_in trees.now) }
{
    match first_sign(trees) {
        Some((class, _)) => begins_after_gen(class),
        None => false,
    }
}

/// Reads a constant. The trees begin with its name, and `rest` is after it.
fn constant_of<'a>(
    trees: &'a [TokenTree],
    rest: &'a [TokenTree],
) -> Result<FoundItem<'a>, &'a [TokenTree]>
    ensures { ReadsConstant trees.now rest.now result }
{
    match past_constant_rest(rest) {
        Ok(after) => Ok(FoundItem {
            kind: ItemKind::Constant,
            named: trees,
            rest: after,
        }),
        Err(left) => Err(left),
    }
}

/// Reads a constant, or a function that has the word `safe` or `gen`. The word or `_` is the first sign.
#[tactic(auto, using(crate::proofs::ConstantLemmas::constants))]
fn past_const_word<'a>(
    class: SignClass,
    trees: &'a [TokenTree],
    rest: &'a [TokenTree],
) -> Result<FoundItem<'a>, &'a [TokenTree]>
    requires begins { BeginsWith trees.now class rest.now }
    requires name { is_new_name class ≡ true }
    ensures { ReadsAfter (signs.Keyword keywords.Const) const_front trees.now result }
{
    if is(SignClass::Word(Word::Safe), class) {
        if begins_function(rest) {
            return past_function_front(rest);
        }
        return constant_of(trees, rest);
    }
    if is(SignClass::Word(Word::Gen), class) {
        if begins_gen(rest) {
            return past_gen(rest);
        }
        return constant_of(trees, rest);
    }
    constant_of(trees, rest)
}

/// Reads a constant, a function or a trait after its `const`.
#[tactic(auto, using(crate::proofs::ConstantLemmas::constants))]
pub(crate) fn past_const(trees: &[TokenTree]) -> Result<FoundItem<'_>, &[TokenTree]>
    ensures { ReadsAfter (signs.Keyword keywords.Const) const_front trees.now result }
{
    match first_sign(trees) {
        Some((class, rest)) => {
            if is(SignClass::Keyword(Keyword::Async), class) {
                return past_async(rest);
            }
            if is(SignClass::Keyword(Keyword::Unsafe), class) {
                return past_function_front(rest);
            }
            if is(SignClass::Keyword(Keyword::Trait), class) {
                return past_trait(rest);
            }
            if is_new_name(class) {
                return past_const_word(class, trees, rest);
            }
            past_function_front(trees)
        }
        None => Err(trees),
    }
}

// ---- statics

/// Reads a static after its `static`.
#[tactic(auto, using(crate::proofs::ConstantLemmas::statics))]
pub(crate) fn past_static(trees: &[TokenTree]) -> Result<FoundItem<'_>, &[TokenTree]>
    ensures { ReadsAfter (signs.Keyword keywords.Static) (rules Static) trees.now result }
{
    let from_name = may(trees, SignClass::Keyword(Keyword::Mut));
    match past_static_rest(from_name) {
        Ok(rest) => Ok(FoundItem {
            kind: ItemKind::Static,
            named: from_name,
            rest,
        }),
        Err(left) => Err(left),
    }
}

/// Reads a static or a function after its `safe`.
#[tactic(auto, using(crate::proofs::ConstantLemmas::statics))]
pub(crate) fn past_safe(trees: &[TokenTree]) -> Result<FoundItem<'_>, &[TokenTree]>
    ensures { ReadsKind safe_front trees.now result }
{
    match first_sign(trees) {
        Some((class, rest)) => {
            if is(SignClass::Keyword(Keyword::Static), class) {
                past_static(rest)
            } else {
                past_function_front(trees)
            }
        }
        None => Err(trees),
    }
}
