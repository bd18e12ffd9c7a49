//! Inner attributes, which a file begins with.
ghost use Rattle.std.specs.Prelude.{◌≡◌};
ghost use Rattle.grammars.specs.First.{heads};
ghost use Rattle.declarations.specs.ItemRest.{inner_attribute};
ghost use Rattle.declarations.specs.Reader.{ReadsRule, classes_in};
ghost use Rattle.declarations.specs.rules.Parts.{inner_attributes};

use crate::reader::{begins, past};
use item_tables::class::SignClass;
use pm_stream::TokenTree;

/// Whether an inner attribute is next.
#[tactic(auto, using(crate::proofs::InnerLemmas::begins))]
fn begins_inner(trees: &[TokenTree]) -> bool
    ensures { result ≡ heads inner_attribute (classes_in trees.now) }
{
    begins(trees, SignClass::HashBang)
}

/// Skips an inner attribute.
#[tactic(auto, using(crate::proofs::ReaderLemmas::steps))]
fn past_inner(trees: &[TokenTree]) -> Result<&[TokenTree], &[TokenTree]>
    ensures { ReadsRule inner_attribute trees.now result }
{
    past(past(trees, SignClass::HashBang)?, SignClass::Brackets)
}

/// Skips inner attributes.
pub(crate) fn past_inner_attributes(trees: &[TokenTree]) -> Result<&[TokenTree], &[TokenTree]>
    ensures { ReadsRule inner_attributes trees.now result }
{
    let mut left = trees;
    while begins_inner(left) {
        match past_inner(left) {
            Ok(next) => left = next,
            Err(fault) => return Err(fault),
        }
    }
    Ok(left)
}
