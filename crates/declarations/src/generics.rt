//! Generic parameters and the predicates of where clauses, one at a time.
ghost use Rattle.std.specs.Prelude.{◌≡◌, ◌<◌, ◌≤◌, IfErr, IfOk, List, length};
ghost use Rattle.pm_stream.specs.declared.stream.TokenTree.{TokenTree as Tree};
ghost use Rattle.declarations.specs.Fault.{extent_at};
ghost use Rattle.declarations.specs.List.{IsListFault};
ghost use Rattle.declarations.specs.Param.{IsAfterWhere, IsOnlyParam, IsOnlyPredicate, IsParamAt, IsPredicateAt};
ghost use Rattle.declarations.specs.Param.{IsWithin, LacksBracket, LacksWhere, ParamTrees, PredicateTrees};
ghost use Rattle.declarations.specs.Param.{ReadsElement, is_mark_of, param_trees, predicate_trees};
ghost use Rattle.declarations.specs.rules.Parts.{parameter, predicate};
ghost use Rattle.declarations.specs.rules.Pieces.{ByRule};

use crate::explore::{fault_at_comma, fault_at_sign, fault_by};
use crate::fault::Fault;
use crate::param_parts::{param_of, past_end, predicate_of};
use crate::part_syntax::{GENERIC, PREDICATE};
use crate::syntax::Test;
use item_tables::class::{Keyword, SignClass};
use pm_stream::TokenTree;

/// The kind of a generic parameter.
#[derive(Clone, Copy, Debug, PartialEq, Eq)]
pub enum ParamKind {
    /// A lifetime, such as `'a`.
    Lifetime,
    /// A type, such as `T`.
    Type,
    /// A constant, such as `const N: usize`.
    Const,
}

/// A generic parameter, split into its parts in reading order.
#[derive(Clone, Copy, Debug)]
pub struct Param<'a> {
    /// The outer attributes, perhaps none.
    pub attributes: &'a [TokenTree],
    /// Whether the parameter is a lifetime, a type or a constant.
    pub kind: ParamKind,
    /// The name: one tree, or the two trees of a lifetime.
    pub name: &'a [TokenTree],
    /// The bounds after `:`, perhaps none. For a constant, its type.
    pub bounds: &'a [TokenTree],
    /// The default after `=`, or no trees.
    pub default: &'a [TokenTree],
}

/// A predicate of a where clause, split into its parts in reading order.
#[derive(Clone, Copy, Debug)]
pub struct Predicate<'a> {
    /// The type or the lifetime that is bounded, with its `for<..>`.
    pub bounded: &'a [TokenTree],
    /// The bounds after `:`, perhaps none.
    pub bounds: &'a [TokenTree],
}

/// Returns the trees between the angle brackets of an item's generic parameters.
///
/// For `<'a, T>` it returns `'a, T`, and for no trees it returns none. All other trees give a `Fault`: at the first
/// tree if it is not `<`, and otherwise at the end. Its expected sign is the `<` or the `>` that is missing.
pub fn within_generics(generics: &[TokenTree]) -> Result<&[TokenTree], Fault>
    ensures ok { IfOk result (λ inside. IsWithin generics.now inside.now) }
    ensures fault { IfErr result (λ fault. (inside : List Tree) → IsWithin generics.now inside → ⊥) }
    ensures place { IfErr result (λ fault. LacksBracket generics.now fault) }
    ensures span { IfErr result (λ fault. fault.span ≡ extent_at generics.now fault.at) }
{
    let Some((open, rest)) = generics.split_first() else {
        return Ok(generics);
    };
    if !is_mark_of('<', open) {
        return Err(fault_at_sign(Test::Opens, 0, generics));
    }
    match rest.split_last() {
        Some((close, inside)) if is_mark_of('>', close) => Ok(inside),
        _ => {
            let (_, end) = generics.split_at(generics.len());
            Err(fault_at_sign(Test::Is(SignClass::Greater), generics.len(), end))
        }
    }
}

/// Returns the trees after the `where` of an item's where clause.
///
/// For `where T: A,` it returns `T: A,`, and for no trees it returns none. All other trees give a `Fault` at the first
/// one, which expects `where`.
pub fn after_where(where_clause: &[TokenTree]) -> Result<&[TokenTree], Fault>
    ensures ok { IfOk result (λ inside. IsAfterWhere where_clause.now inside.now) }
    ensures fault { IfErr result (λ fault. (inside : List Tree) → IsAfterWhere where_clause.now inside → ⊥) }
    ensures place { IfErr result (λ fault. LacksWhere fault) }
    ensures span { IfErr result (λ fault. fault.span ≡ extent_at where_clause.now fault.at) }
{
    match where_clause.split_first() {
        None => Ok(where_clause),
        Some((TokenTree::Ident(word), rest)) if word.eq_str("where") => Ok(rest),
        Some(_) => Err(fault_at_sign(
            Test::Is(SignClass::Keyword(Keyword::Where)),
            0,
            where_clause,
        )),
    }
}

/// Returns the parts of the generic parameter at the start of the trees, and the trees after its `,`.
///
/// Pass the trees that [`within_generics`] returned, or the rest that an earlier call returned. The last parameter
/// needs no `,`. For `#[a] T: A<B, C> + 'b = D, const N: usize` the name is `T`, the bounds are `A<B, C> + 'b`, the
/// default is `D`, and the rest is `const N: usize`.
///
/// If the trees begin with no parameter, or neither `,` nor the end comes after it, the call returns a `Fault`: where
/// one of the parts has its error, or at the first sign that belongs to no part. The rule `parameter`, of which the
/// lists of [`split_generics`](crate::split_generics) are made, is in crates/declarations/README.md.
pub fn parse_param(trees: &[TokenTree]) -> Result<(Param<'_>, &[TokenTree]), Fault>
    ensures ok { IfOk result (λ found. IsParamAt trees.now (param_trees found.0) found.1.now) }
    ensures only { IfOk result (λ found. IsOnlyParam trees.now (param_trees found.0) found.1.now) }
    ensures reads { IfOk result (λ found. ReadsElement parameter trees.now found.1.now) }
    ensures fewer { IfOk result (λ found. length found.1.now < length trees.now) }
    ensures fault { IfErr result (λ fault. (param : ParamTrees) → (rest : List Tree)
        → IsParamAt trees.now param rest → ⊥) }
    ensures place { IfErr result (λ fault. IsListFault (ByRule parameter) trees.now fault) }
    ensures within { IfErr result (λ fault. fault.at ≤ length trees.now) }
    ensures span { IfErr result (λ fault. fault.span ≡ extent_at trees.now fault.at) }
{
    match param_of(trees) {
        Ok((param, from_end)) => match past_end(from_end) {
            Some(rest) => Ok((param, rest)),
            None => Err(fault_at_comma(&GENERIC, trees, from_end)),
        },
        Err(left) => Err(fault_by(&GENERIC, trees, left)),
    }
}

/// Returns the parts of the predicate at the start of the trees, and the trees after its `,`.
///
/// Pass the trees that [`after_where`] returned, or the rest that an earlier call returned. If the trees begin with no
/// predicate, or neither `,` nor the end comes after it, the call returns a `Fault`, as [`parse_param`] does. For
/// `for<'b> T: A<'b, C>, 'a: 'b` the bounded type is `for<'b> T`, the bounds are `A<'b, C>`, and the rest is `'a: 'b`.
pub fn parse_predicate(trees: &[TokenTree]) -> Result<(Predicate<'_>, &[TokenTree]), Fault>
    ensures ok { IfOk result (λ found. IsPredicateAt trees.now (predicate_trees found.0) found.1.now) }
    ensures only { IfOk result (λ found. IsOnlyPredicate trees.now (predicate_trees found.0) found.1.now) }
    ensures reads { IfOk result (λ found. ReadsElement predicate trees.now found.1.now) }
    ensures fewer { IfOk result (λ found. length found.1.now < length trees.now) }
    ensures fault { IfErr result (λ fault. (predicate : PredicateTrees) → (rest : List Tree)
        → IsPredicateAt trees.now predicate rest → ⊥) }
    ensures place { IfErr result (λ fault. IsListFault (ByRule predicate) trees.now fault) }
    ensures within { IfErr result (λ fault. fault.at ≤ length trees.now) }
    ensures span { IfErr result (λ fault. fault.span ≡ extent_at trees.now fault.at) }
{
    match predicate_of(trees) {
        Ok((predicate, from_end)) => match past_end(from_end) {
            Some(rest) => Ok((predicate, rest)),
            None => Err(fault_at_comma(&PREDICATE, trees, from_end)),
        },
        Err(left) => Err(fault_by(&PREDICATE, trees, left)),
    }
}

/// Whether the tree is this punctuation mark.
fn is_mark_of(mark: char, tree: &TokenTree) -> bool
    ensures { result ≡ is_mark_of mark tree.now }
{
    match tree {
        TokenTree::Punct(punct) => punct.as_char() == mark,
        TokenTree::Group(_) | TokenTree::Ident(_) | TokenTree::Literal(_) => false,
    }
}
