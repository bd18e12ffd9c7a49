//! Macro calls as items. Each function reads one by a rule, and finds its name. At an error it returns the trees from
//! the error on.
ghost use Rattle.std.specs.Prelude.{◌≡◌};
ghost use Rattle.grammars.specs.First.{heads, may_begin};
ghost use Rattle.declarations.specs.ItemFront.{BeginsPath, ReadsCall, ReadsKind, is_call};
ghost use Rattle.declarations.specs.Parameter.{LeadsTo};
ghost use Rattle.declarations.specs.Reader.{classes_in};
ghost use Rattle.declarations.specs.Signs.{BeginsWith};
ghost use Rattle.declarations.specs.rules.Items.{begins_call, call, private_item};
ghost use Rattle.item_tables.specs.declared.class.SignClass.TheVariants as signs;

use crate::any_item::ItemKind;
use crate::function::is_name;
use crate::item_front::FoundItem;
use crate::item_paths::{is_segment, past_call_name, past_segments};
use crate::reader::past;
use crate::signs::first_sign;
use item_tables::class::{SignClass, Word};
use pm_stream::TokenTree;

/// Reads what a macro call has after the first segment of its path.
#[tactic(auto, using(crate::proofs::ItemCallLemmas::calls))]
fn past_call(trees: &[TokenTree]) -> Result<FoundItem<'_>, &[TokenTree]>
    ensures { ReadsCall trees.now result }
{
    match past_segments(trees) {
        Ok(from_mark) => match past(from_mark, SignClass::Exclamation) {
            Ok(named) => match past_call_name(named) {
                Ok(rest) => Ok(FoundItem {
                    kind: ItemKind::MacroCall,
                    named,
                    rest,
                }),
                Err(left) => Err(left),
            },
            Err(left) => Err(left),
        },
        Err(left) => Err(left),
    }
}

/// Reads a macro call. `rest` is after the first segment of its path.
#[tactic(auto, using(crate::proofs::ItemCallLemmas::call_items))]
pub(crate) fn call_item<'a>(
    trees: &'a [TokenTree],
    rest: &'a [TokenTree],
) -> Result<FoundItem<'a>, &'a [TokenTree]>
    requires leads { LeadsTo private_item trees.now call rest.now }
    requires path { BeginsPath trees.now rest.now }
    ensures { ReadsKind private_item trees.now result }
{
    past_call(rest)
}

/// Reads a macro call after the `::` that it begins with.
#[tactic(auto, using(crate::proofs::ItemCallLemmas::call_items))]
pub(crate) fn separated_call<'a>(
    trees: &'a [TokenTree],
    rest: &'a [TokenTree],
) -> Result<FoundItem<'a>, &'a [TokenTree]>
    requires { BeginsWith trees.now signs.PathSeparator rest.now }
    ensures { ReadsKind private_item trees.now result }
{
    match first_sign(rest) {
        Some((class, next)) => {
            if is_segment(class) {
                call_item(trees, next)
            } else {
                Err(rest)
            }
        }
        None => Err(rest),
    }
}

/// Whether the sign begins a macro call and no other item.
pub(crate) fn begins_call(class: SignClass) -> bool
    ensures { result ≡ begins_call class }
{
    match class {
        SignClass::Word(Word::Plain) | SignClass::SelfValue | SignClass::Super | SignClass::Crate =>
            true,
        _ => false,
    }
}

/// Whether the sign begins what a macro call has after a segment of its path.
fn goes_on_call(class: SignClass) -> bool
    ensures { result ≡ may_begin call class }
{
    match class {
        SignClass::Exclamation | SignClass::PathSeparator => true,
        _ => false,
    }
}

/// Whether what a macro call has after a segment of its path is next.
#[tactic(auto, using(crate::proofs::ReaderLemmas::steps))]
fn begins_call_rest(trees: &[TokenTree]) -> bool
    ensures { result ≡ heads call (classes_in trees.now) }
{
    match first_sign(trees) {
        Some((class, _)) => goes_on_call(class),
        None => false,
    }
}

/// Whether the sign begins a macro call, where `rest` comes after it.
pub(crate) fn is_call(class: SignClass, rest: &[TokenTree]) -> bool
    ensures { result ≡ is_call class (classes_in rest.now) }
{
    begins_call(class) || (is_name(class) && begins_call_rest(rest))
}
