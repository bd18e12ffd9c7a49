//! Functions that read by one rule of the grammar. Each returns the trees after what its rule reads at the start of the
//! trees, or the trees from the error on.
ghost use Rattle.std.specs.Prelude.{◌≡◌, ◌++◌};
ghost use Rattle.grammars.specs.First.{heads};
ghost use Rattle.declarations.specs.Parts.{begins_identifier, begins_mark, is_identifier, is_mark};
ghost use Rattle.declarations.specs.Reader.{Remains, ReadsRule, classes_in};
ghost use Rattle.item_tables.specs.Classes.{is};
ghost use Rattle.declarations.specs.rules.Names.{one};

use crate::signs::first_sign;
use item_tables::class::{SignClass, code};
use pm_stream::TokenTree;

/// Whether a sign has this class.
pub(crate) fn is(class: SignClass, found: SignClass) -> bool
    ensures { result ≡ is class found }
{
    code(class) == code(found)
}

/// Whether a sign of this class is next.
#[tactic(auto, using(crate::proofs::ReaderLemmas::steps))]
pub(crate) fn begins(trees: &[TokenTree], class: SignClass) -> bool
    ensures { result ≡ heads (one class) (classes_in trees.now) }
{
    match first_sign(trees) {
        Some((found, _)) => is(class, found),
        None => false,
    }
}

/// Whether a punctuation mark is next.
pub(crate) fn begins_mark(trees: &[TokenTree]) -> bool
    ensures { result ≡ begins_mark trees.now }
{
    match trees.first() {
        Some(tree) => is_mark(tree),
        None => false,
    }
}

fn is_mark(tree: &TokenTree) -> bool
    ensures { result ≡ is_mark tree.now }
{
    match tree {
        TokenTree::Punct(_) => true,
        TokenTree::Group(_) | TokenTree::Ident(_) | TokenTree::Literal(_) => false,
    }
}

/// Whether an identifier is next, which may be a keyword.
pub(crate) fn begins_identifier(trees: &[TokenTree]) -> bool
    ensures { result ≡ begins_identifier trees.now }
{
    match trees.first() {
        Some(tree) => is_identifier(tree),
        None => false,
    }
}

fn is_identifier(tree: &TokenTree) -> bool
    ensures { result ≡ is_identifier tree.now }
{
    match tree {
        TokenTree::Ident(_) => true,
        TokenTree::Group(_) | TokenTree::Punct(_) | TokenTree::Literal(_) => false,
    }
}

/// Skips a sign of this class.
pub(crate) fn past(trees: &[TokenTree], class: SignClass) -> Result<&[TokenTree], &[TokenTree]>
    ensures { ReadsRule (one class) trees.now result }
{
    match first_sign(trees) {
        Some((found, rest)) => {
            if is(class, found) {
                Ok(rest)
            } else {
                Err(trees)
            }
        }
        None => Err(trees),
    }
}

/// The trees before `rest`, with which they end.
#[tactic(auto, using(crate::proofs::ReaderLemmas::remains_whole))]
pub(crate) fn part<'a>(trees: &'a [TokenTree], rest: &[TokenTree]) -> &'a [TokenTree]
    requires { Remains rest.now trees.now }
    ensures { trees.now ≡ result.now ++ rest.now }
{
    trees.split_at(trees.len() - rest.len()).0
}
