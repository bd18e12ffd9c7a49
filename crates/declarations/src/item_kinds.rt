//! Items of any kind. Each function reads an item by one rule, and finds its kind and its name. At an error it returns
//! the trees from the error on.
ghost use Rattle.std.specs.Prelude.{◌≡◌, MatchOption, false};
ghost use Rattle.grammars.specs.First.{heads};
ghost use Rattle.declarations.specs.ItemFront.{ReadsAfter, ReadsAny, ReadsItem, ReadsKind};
ghost use Rattle.declarations.specs.Reader.{Finds, classes_in};
ghost use Rattle.declarations.specs.Signs.{BeginsWith};
ghost use Rattle.declarations.specs.rules.Fronts.{default_front, default_unsafe, extern_front, unsafe_extern};
ghost use Rattle.declarations.specs.rules.Fronts.{unsafe_front};
ghost use Rattle.declarations.specs.rules.Items.{any_rest, declaration, private_item};
ghost use Rattle.declarations.specs.rules.Parts.{visible};
ghost use Rattle.item_tables.specs.declared.class.SignClass.TheVariants as signs;
ghost use Rattle.item_tables.specs.declared.class.Keyword.TheVariants as keywords;

use crate::any_item::ItemKind;
use crate::function::may;
use crate::implementation::past_impl_rest;
use crate::item_calls::{call_item, is_call, separated_call};
use crate::item_front::{
    FoundItem, may_literal, named_item, past_async, past_const, past_fn, past_function_front,
    past_gen, past_safe, past_static,
};
use crate::item_paths::{past_crate, past_macro, past_module, past_use};
use crate::item_rest::{past_braces, past_enum, past_function, past_struct};
use crate::parameter::past_attributes;
use crate::reader::{begins, is};
use crate::signs::first_sign;
use crate::trait_rest::{past_alias, past_auto, past_trait};
use item_tables::class::{Keyword, SignClass, Word};
use pm_stream::TokenTree;

// ---- `extern`

/// Reads an `extern` block or a function after its `extern`.
#[tactic(auto, using(crate::proofs::ItemKindLemmas::externs))]
fn past_unsafe_extern(trees: &[TokenTree]) -> Result<FoundItem<'_>, &[TokenTree]>
    ensures { ReadsAfter (signs.Keyword keywords.Extern) unsafe_extern trees.now result }
{
    let from_rest = may_literal(trees);
    if begins(from_rest, SignClass::Braces) {
        named_item(ItemKind::ExternBlock, from_rest, past_braces(from_rest))
    } else {
        past_fn(from_rest)
    }
}

/// Reads an external crate, an `extern` block or a function after its `extern`.
#[tactic(auto, using(crate::proofs::ItemKindLemmas::externs))]
fn past_extern(trees: &[TokenTree]) -> Result<FoundItem<'_>, &[TokenTree]>
    ensures { ReadsAfter (signs.Keyword keywords.Extern) extern_front trees.now result }
{
    match first_sign(trees) {
        Some((class, rest)) => {
            if is(SignClass::Crate, class) {
                named_item(ItemKind::ExternCrate, rest, past_crate(rest))
            } else {
                past_unsafe_extern(trees)
            }
        }
        None => Err(trees),
    }
}

// ---- `unsafe`

/// Reads an item that has this keyword after its `unsafe`.
#[tactic(auto, using(crate::proofs::ItemKindLemmas::unsafes))]
fn unsafe_item<'a>(
    keyword: Keyword,
    trees: &'a [TokenTree],
    rest: &'a [TokenTree],
) -> Result<FoundItem<'a>, &'a [TokenTree]>
    requires { BeginsWith trees.now (signs.Keyword keyword) rest.now }
    ensures { ReadsKind unsafe_front trees.now result }
{
    match keyword {
        Keyword::Extern => past_unsafe_extern(rest),
        Keyword::Fn => named_item(ItemKind::Function, rest, past_function(rest)),
        Keyword::Impl => named_item(ItemKind::Impl, rest, past_impl_rest(rest)),
        Keyword::Mod => named_item(ItemKind::Module, rest, past_module(rest)),
        Keyword::Static => past_static(rest),
        Keyword::Trait => past_trait(rest),
        _ => Err(trees),
    }
}

/// Reads an item after its `unsafe`.
#[tactic(auto, using(crate::proofs::ItemKindLemmas::unsafes))]
fn past_unsafe(trees: &[TokenTree]) -> Result<FoundItem<'_>, &[TokenTree]>
    ensures { ReadsKind unsafe_front trees.now result }
{
    match first_sign(trees) {
        Some((class, rest)) => match class {
            SignClass::Keyword(keyword) => unsafe_item(keyword, trees, rest),
            _ => {
                if is(SignClass::Word(Word::Auto), class) {
                    past_auto(rest)
                } else {
                    Err(trees)
                }
            }
        },
        None => Err(trees),
    }
}

// ---- `default`

/// Reads an `impl` or a function after its `default unsafe`.
#[tactic(auto, using(crate::proofs::ItemKindLemmas::defaults))]
fn past_default_unsafe(trees: &[TokenTree]) -> Result<FoundItem<'_>, &[TokenTree]>
    ensures { ReadsKind default_unsafe trees.now result }
{
    match first_sign(trees) {
        Some((class, rest)) => {
            if is(SignClass::Keyword(Keyword::Impl), class) {
                named_item(ItemKind::Impl, rest, past_impl_rest(rest))
            } else {
                past_function_front(trees)
            }
        }
        None => Err(trees),
    }
}

/// Reads an item that has this keyword after its `default`.
#[tactic(auto, using(crate::proofs::ItemKindLemmas::defaults))]
fn default_item<'a>(
    keyword: Keyword,
    trees: &'a [TokenTree],
    rest: &'a [TokenTree],
) -> Result<FoundItem<'a>, &'a [TokenTree]>
    requires { BeginsWith trees.now (signs.Keyword keyword) rest.now }
    ensures { ReadsKind default_front trees.now result }
{
    match keyword {
        Keyword::Async => past_async(rest),
        Keyword::Const => past_const(rest),
        Keyword::Impl => named_item(ItemKind::Impl, rest, past_impl_rest(rest)),
        Keyword::Type => named_item(ItemKind::TypeAlias, rest, past_alias(rest)),
        Keyword::Unsafe => past_default_unsafe(rest),
        _ => past_function_front(trees),
    }
}

/// Reads an item after its `default`.
#[tactic(auto, using(crate::proofs::ItemKindLemmas::defaults))]
fn past_default(trees: &[TokenTree]) -> Result<FoundItem<'_>, &[TokenTree]>
    ensures { ReadsKind default_front trees.now result }
{
    match first_sign(trees) {
        Some((class, rest)) => match class {
            SignClass::Keyword(keyword) => default_item(keyword, trees, rest),
            _ => {
                if is(SignClass::Word(Word::Gen), class) {
                    return past_gen(rest);
                }
                if is(SignClass::Word(Word::Safe), class) {
                    return past_function_front(rest);
                }
                Err(trees)
            }
        },
        None => Err(trees),
    }
}

// ---- items after a visibility

/// Reads an item that begins with this keyword.
#[tactic(auto, using(crate::proofs::DeclarationLemmas::keyword_items))]
fn keyword_item<'a>(
    keyword: Keyword,
    trees: &'a [TokenTree],
    rest: &'a [TokenTree],
) -> Result<FoundItem<'a>, &'a [TokenTree]>
    requires { BeginsWith trees.now (signs.Keyword keyword) rest.now }
    ensures { ReadsKind declaration trees.now result }
{
    match keyword {
        Keyword::Async => past_async(rest),
        Keyword::Const => past_const(rest),
        Keyword::Enum => named_item(ItemKind::Enum, rest, past_enum(rest)),
        Keyword::Extern => past_extern(rest),
        Keyword::Fn => named_item(ItemKind::Function, rest, past_function(rest)),
        Keyword::Impl => named_item(ItemKind::Impl, rest, past_impl_rest(rest)),
        Keyword::Macro => named_item(ItemKind::Macro, rest, past_macro(rest)),
        Keyword::Mod => named_item(ItemKind::Module, rest, past_module(rest)),
        Keyword::Static => past_static(rest),
        Keyword::Struct => named_item(ItemKind::Struct, rest, past_struct(rest)),
        Keyword::Trait => past_trait(rest),
        Keyword::Type => named_item(ItemKind::TypeAlias, rest, past_alias(rest)),
        Keyword::Unsafe => past_unsafe(rest),
        Keyword::Use => named_item(ItemKind::Use, rest, past_use(rest)),
        _ => Err(trees),
    }
}

/// Reads an item that begins with this word.
#[tactic(auto, using(crate::proofs::DeclarationLemmas::word_items))]
fn word_item<'a>(
    word: Word,
    trees: &'a [TokenTree],
    rest: &'a [TokenTree],
) -> Result<FoundItem<'a>, &'a [TokenTree]>
    requires { BeginsWith trees.now (signs.Word word) rest.now }
    ensures { ReadsKind declaration trees.now result }
{
    match word {
        Word::Auto => past_auto(rest),
        Word::Default => past_default(rest),
        Word::Gen => past_gen(rest),
        Word::Safe => past_safe(rest),
        Word::Union => named_item(ItemKind::Union, rest, past_enum(rest)),
        Word::Plain => Err(trees),
    }
}

/// Reads an item after its visibility.
#[tactic(auto, using(crate::proofs::DeclarationLemmas::declarations))]
fn past_declaration(trees: &[TokenTree]) -> Result<FoundItem<'_>, &[TokenTree]>
    ensures { ReadsKind declaration trees.now result }
{
    match first_sign(trees) {
        Some((class, rest)) => match class {
            SignClass::Keyword(keyword) => keyword_item(keyword, trees, rest),
            SignClass::Word(word) => word_item(word, trees, rest),
            _ => Err(trees),
        },
        None => Err(trees),
    }
}

// ---- items without a visibility

/// Reads an item that has no visibility.
#[tactic(auto, using(crate::proofs::PrivateItemLemmas::private_items))]
fn past_private(trees: &[TokenTree]) -> Result<FoundItem<'_>, &[TokenTree]>
    ensures { ReadsKind private_item trees.now result }
{
    match first_sign(trees) {
        Some((class, rest)) => {
            if is(SignClass::Invisible, class) {
                Ok(FoundItem {
                    kind: ItemKind::Group,
                    named: trees,
                    rest,
                })
            } else if is(SignClass::PathSeparator, class) {
                separated_call(trees, rest)
            } else if is_call(class, rest) {
                call_item(trees, rest)
            } else {
                past_declaration(trees)
            }
        }
        None => Err(trees),
    }
}

// ---- items of any kind

/// Skips a visibility that must be there. Returns `None` if none is next.
#[tactic(auto, using(crate::proofs::AnyItemLemmas::visibles))]
fn past_visible(trees: &[TokenTree]) -> Option<&[TokenTree]>
    ensures { MatchOption result (heads visible (classes_in trees.now) ≡ false)
        (λ rest. Finds visible trees.now rest.now) }
{
    match first_sign(trees) {
        Some((class, rest)) => {
            if is(SignClass::Keyword(Keyword::Pub), class) {
                return Some(may(rest, SignClass::Restriction));
            }
            if is(SignClass::Visibility, class) {
                return Some(rest);
            }
            None
        }
        None => None,
    }
}

/// Reads an item after its attributes.
#[tactic(auto, using(crate::proofs::AnyItemLemmas::any_rests))]
fn past_any_rest(trees: &[TokenTree]) -> Result<FoundItem<'_>, &[TokenTree]>
    ensures { ReadsItem any_rest trees.now result }
{
    match past_visible(trees) {
        Some(rest) => past_declaration(rest),
        None => past_private(trees),
    }
}

/// Reads an item of any kind.
#[tactic(auto, using(crate::proofs::AnyItemLemmas::any_items_read))]
pub(crate) fn past_any_item(trees: &[TokenTree]) -> Result<FoundItem<'_>, &[TokenTree]>
    ensures { ReadsAny trees.now result }
{
    match past_attributes(trees) {
        Ok(rest) => past_any_rest(rest),
        Err(left) => Err(left),
    }
}
