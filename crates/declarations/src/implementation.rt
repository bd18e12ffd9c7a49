//! The parts of an `impl`.
ghost use Rattle.std.specs.Prelude.{◌≡◌, false, true, IfErr, IfOk, MatchOption, MatchResult};
ghost use Rattle.grammars.specs.First.{heads, may_begin};
ghost use Rattle.declarations.specs.Expected.{Expects};
ghost use Rattle.declarations.specs.Fault.{extent_at};
ghost use Rattle.declarations.specs.Found.{TurnsTo};
ghost use Rattle.declarations.specs.Impl.{HasBraces, HasFront, HasGenerics, HasHeader, HasImplParts, HasTarget};
ghost use Rattle.declarations.specs.Impl.{HasTypes, IsImpl, begins_generics, begins_parameter, ends_parameter};
ghost use Rattle.declarations.specs.Impl.{for_type, goes_on_parameter, has_generics, target_types};
ghost use Rattle.declarations.specs.Reader.{Finds, ReadsRule, Sticks, classes_in};
ghost use Rattle.declarations.specs.Reading.{FaultAt};
ghost use Rattle.declarations.specs.Signs.{BeginsWith};
ghost use Rattle.declarations.specs.Whole.{IsWhole};
ghost use Rattle.item_tables.specs.declared.class.SignClass.TheVariants as signs;
ghost use Rattle.item_tables.specs.declared.class.Keyword.TheVariants as keywords;
ghost use Rattle.declarations.specs.rules.Bodies.{where_and_body};
ghost use Rattle.declarations.specs.rules.ImplItems.{impl_item, impl_keyword, impl_qualifiers};
ghost use Rattle.declarations.specs.rules.Impls.{const_target, impl_front, target};
ghost use Rattle.declarations.specs.rules.Pieces.{ByRule};

use crate::explore::fault_by;
use crate::fault::Fault;
use crate::front::past_visibility;
use crate::function::{is_name, may, past_generics, past_where};
use crate::item::split_braces;
use crate::item_rest::past_where_and_body;
use crate::parameter::{past_attributes, past_type};
use crate::reader::{is, part};
use crate::signs::first_sign;
use crate::syntax::IMPL;
use crate::type_path::opens;
use item_tables::class::{Keyword, SignClass, Word};
use pm_stream::{Group, TokenTree};

/// An `impl`, with its parts in reading order.
#[derive(Clone, Copy, Debug)]
pub struct Impl<'a> {
    /// The outer attributes, perhaps none.
    pub attributes: &'a [TokenTree],
    /// The visibility, perhaps nothing. It may be one group without delimiters.
    pub visibility: &'a [TokenTree],
    /// The qualifiers before `impl`, which are `default` and `unsafe`, perhaps none.
    pub qualifiers: &'a [TokenTree],
    /// The generic parameters with their angle brackets, perhaps nothing.
    pub generics: &'a [TokenTree],
    /// The `const` before the trait, perhaps nothing.
    pub constness: &'a [TokenTree],
    /// The `!` before the trait, perhaps nothing.
    pub negation: &'a [TokenTree],
    /// The trait, or `None` if there is no `for`.
    pub trait_path: Option<&'a [TokenTree]>,
    /// The type that the `impl` is for.
    pub self_type: &'a [TokenTree],
    /// The where clause with its `where`, perhaps nothing.
    pub where_clause: &'a [TokenTree],
    /// The body in braces. [`parse_file`](crate::parse_file) gives the items in it one at a time.
    pub body: &'a Group,
}

/// Returns the parts of the `impl` that the trees are.
///
/// For `unsafe impl<T> A<T> for Vec<T> where T: B { fn f() {} }` the qualifiers are `unsafe`, the generic parameters
/// are `<T>`, the trait is `A<T>`, the type is `Vec<T>`, the where clause is `where T: B`, and the body is
/// `{ fn f() {} }`. The `impl` of a type alone has no trait. A `for` of a type, as in `for<'a> fn(&'a u8)`, belongs to
/// this type.
///
/// The qualifiers are `default` and `unsafe`. Each may come once, in this order. A `const` or a `!` may come before the
/// trait. After `impl` a `<` begins generic parameters if `>`, `#`, `const` or a lifetime follows, or if a word follows
/// and then `:`, `,`, `>` or `=`. Otherwise it begins a type. If no type follows a `!`, the `!` is the type.
///
/// The call does not check whether the trait is a path, and does not read the trees in the braces. For these trees
/// [`parse_file`](crate::parse_file) gives the inner attributes and the items.
///
/// If the trees are not exactly one `impl`, the call returns a `Fault`. Its position is before the first tree that does
/// not fit, which may be a tree after the `impl`. The rule `impl-item` is in crates/declarations/README.md. The call
/// also rejects an `impl` inside a group without delimiters: pass the trees of this group. It allocates nothing.
#[tactic(auto, using(crate::proofs::ImplLemmas::promises))]
pub fn parse_impl(trees: &[TokenTree]) -> Result<Impl<'_>, Fault>
    ensures ok { IfOk result (λ item. IsImpl trees.now item) }
    ensures fault { IfErr result (λ fault. FaultAt (IsWhole (ByRule impl_item)) trees.now fault.at) }
    ensures span { IfErr result (λ fault. fault.span ≡ extent_at trees.now fault.at) }
    ensures expected { IfErr result (λ fault. Expects (ByRule impl_item) trees.now fault.at fault.expected) }
{
    match impl_of(trees) {
        Ok((item, rest)) => {
            if rest.is_empty() {
                Ok(item)
            } else {
                Err(fault_by(&IMPL, trees, rest))
            }
        }
        Err(left) => Err(fault_by(&IMPL, trees, left)),
    }
}

/// Reads the `impl` at the start of the trees. Returns it and the trees after it, or the trees from the error on.
#[tactic(auto, using(crate::proofs::ImplLemmas::items))]
fn impl_of(trees: &[TokenTree]) -> Result<(Impl<'_>, &[TokenTree]), &[TokenTree]>
    ensures { MatchResult result (λ found. Finds impl_item trees.now found.1.now
        × HasImplParts trees.now found.0 found.1.now) (λ left. Sticks impl_item trees.now left.now) }
{
    match front_of(trees) {
        Ok((front, from_header)) => match header_of(from_header) {
            Ok((header, from_clause)) => match end_of(from_clause) {
                Ok((end, rest)) => {
                    let item = Impl {
                        attributes: front.attributes,
                        visibility: front.visibility,
                        qualifiers: front.qualifiers,
                        generics: header.generics,
                        constness: header.constness,
                        negation: header.target.negation,
                        trait_path: header.target.trait_path,
                        self_type: header.target.self_type,
                        where_clause: end.where_clause,
                        body: end.body,
                    };
                    Ok((item, rest))
                }
                Err(left) => Err(left),
            },
            Err(left) => Err(left),
        },
        Err(left) => Err(left),
    }
}

// ---- up to `impl`

/// The parts of an `impl` before the keyword.
#[derive(Clone, Copy)]
struct Front<'a> {
    attributes: &'a [TokenTree],
    visibility: &'a [TokenTree],
    qualifiers: &'a [TokenTree],
}

/// Reads the parts before `impl`, and the keyword. Returns these parts and the trees after the keyword.
#[tactic(auto, using(crate::proofs::ImplLemmas::fronts))]
fn front_of(trees: &[TokenTree]) -> Result<(Front<'_>, &[TokenTree]), &[TokenTree]>
    ensures { MatchResult result (λ found. TurnsTo impl_item trees.now impl_front found.1.now
        × HasFront trees.now found.0.attributes.now found.0.visibility.now found.0.qualifiers.now found.1.now)
        (λ left. Sticks impl_item trees.now left.now) }
{
    match past_attributes(trees) {
        Ok(from_visibility) => {
            let from_qualifiers = past_visibility(from_visibility);
            let from_impl = past_impl_qualifiers(from_qualifiers);
            match past_impl(from_impl) {
                Ok(rest) => {
                    let front = Front {
                        attributes: part(trees, from_visibility),
                        visibility: part(from_visibility, from_qualifiers),
                        qualifiers: part(from_qualifiers, from_impl),
                    };
                    Ok((front, rest))
                }
                Err(left) => Err(left),
            }
        }
        Err(left) => Err(left),
    }
}

/// Skips the qualifiers before `impl`.
#[tactic(auto, using(crate::proofs::ImplLemmas::qualifiers_find))]
fn past_impl_qualifiers(trees: &[TokenTree]) -> &[TokenTree]
    ensures { Finds impl_qualifiers trees.now result.now }
{
    let from_unsafe = may(trees, SignClass::Word(Word::Default));
    may(from_unsafe, SignClass::Keyword(Keyword::Unsafe))
}

/// Skips `impl`.
#[tactic(auto, using(crate::proofs::ImplLemmas::keyword_rules))]
fn past_impl(trees: &[TokenTree]) -> Result<&[TokenTree], &[TokenTree]>
    ensures { MatchResult result (λ rest. BeginsWith trees.now (signs.Keyword keywords.Impl) rest.now)
        (λ left. Sticks impl_keyword trees.now left.now) }
{
    match first_sign(trees) {
        Some((class, rest)) => {
            if is(SignClass::Keyword(Keyword::Impl), class) {
                Ok(rest)
            } else {
                Err(trees)
            }
        }
        None => Err(trees),
    }
}

// ---- between `impl` and the where clause

/// The parts of an `impl` between the keyword and the where clause.
#[derive(Clone, Copy)]
struct Header<'a> {
    generics: &'a [TokenTree],
    constness: &'a [TokenTree],
    target: Target<'a>,
}

/// What an `impl` is for.
#[derive(Clone, Copy)]
struct Target<'a> {
    negation: &'a [TokenTree],
    trait_path: Option<&'a [TokenTree]>,
    self_type: &'a [TokenTree],
}

/// Reads the parts between `impl` and the where clause. Returns them and the trees after them.
#[tactic(auto, using(crate::proofs::ImplLemmas::headers))]
fn header_of(trees: &[TokenTree]) -> Result<(Header<'_>, &[TokenTree]), &[TokenTree]>
    ensures { MatchResult result (λ found. TurnsTo impl_front trees.now where_and_body found.1.now
        × HasHeader trees.now found.0.generics.now found.0.constness.now found.0.target.negation.now
        found.0.target.trait_path found.0.target.self_type.now found.1.now)
        (λ left. Sticks impl_front trees.now left.now) }
{
    match past_impl_generics(trees) {
        Ok((generics, from_const)) => {
            let from_target = may(from_const, SignClass::Keyword(Keyword::Const));
            let constness = part(from_const, from_target);
            match target_of(from_target) {
                Ok((target, rest)) => Ok((
                    Header {
                        generics,
                        constness,
                        target,
                    },
                    rest,
                )),
                Err(left) => Err(left),
            }
        }
        Err(left) => Err(left),
    }
}

/// Skips what an `impl` has after the keyword.
#[tactic(auto, using(crate::proofs::ImplLemmas::rests))]
pub(crate) fn past_impl_rest(trees: &[TokenTree]) -> Result<&[TokenTree], &[TokenTree]>
    ensures { ReadsRule impl_front trees.now result }
{
    match header_of(trees) {
        Ok((_, from_clause)) => past_where_and_body(from_clause),
        Err(left) => Err(left),
    }
}

// ---- generic parameters

/// Whether the sign alone shows that a `<` before it begins generic parameters.
fn begins_parameter(class: SignClass) -> bool
    ensures { result ≡ begins_parameter class }
{
    match class {
        SignClass::Greater
        | SignClass::Hash
        | SignClass::Lifetime
        | SignClass::Keyword(Keyword::Const) => true,
        _ => false,
    }
}

/// Whether the sign after a word shows that the word is a generic parameter.
fn ends_parameter(class: SignClass) -> bool
    ensures { result ≡ ends_parameter class }
{
    match class {
        SignClass::Colon | SignClass::Equals | SignClass::Comma | SignClass::Greater => true,
        _ => false,
    }
}

/// Whether the trees after a word show that the word is a generic parameter.
#[tactic(auto, using(crate::proofs::ImplLemmas::tests))]
fn goes_on_parameter(trees: &[TokenTree]) -> bool
    ensures { result ≡ goes_on_parameter (classes_in trees.now) }
{
    match first_sign(trees) {
        Some((class, _)) => ends_parameter(class),
        None => false,
    }
}

/// Whether the trees after a `<` show that it begins generic parameters.
#[tactic(auto, using(crate::proofs::ImplLemmas::tests))]
fn begins_generics(trees: &[TokenTree]) -> bool
    ensures { result ≡ begins_generics (classes_in trees.now) }
{
    match first_sign(trees) {
        Some((class, rest)) => {
            if begins_parameter(class) {
                return true;
            }
            if is_name(class) {
                goes_on_parameter(rest)
            } else {
                false
            }
        }
        None => false,
    }
}

/// Whether the trees after `impl` begin with generic parameters, and not with a type.
#[tactic(auto, using(crate::proofs::ImplLemmas::tests))]
fn has_generics(trees: &[TokenTree]) -> bool
    ensures { result ≡ has_generics (classes_in trees.now) }
{
    match first_sign(trees) {
        Some((class, rest)) => {
            if opens(class) {
                begins_generics(rest)
            } else {
                false
            }
        }
        None => false,
    }
}

/// Reads the generic parameters after `impl`, if they are next. Returns them and the trees after them.
#[tactic(auto, using(crate::proofs::ImplLemmas::parameters))]
fn past_impl_generics(trees: &[TokenTree]) -> Result<(&[TokenTree], &[TokenTree]), &[TokenTree]>
    ensures { MatchResult result (λ found. TurnsTo impl_front trees.now (target true) found.1.now
        × HasGenerics trees.now found.0.now found.1.now) (λ left. Sticks impl_front trees.now left.now) }
{
    if has_generics(trees) {
        match past_generics(trees) {
            Ok(rest) => Ok((part(trees, rest), rest)),
            Err(left) => Err(left),
        }
    } else {
        Ok((&[], trees))
    }
}

// ---- the trait and the type

/// Whether the sign begins a where clause or a body.
fn begins_end(class: SignClass) -> bool
    ensures { result ≡ may_begin where_and_body class }
{
    match class {
        SignClass::Keyword(Keyword::Where) | SignClass::Braces => true,
        _ => false,
    }
}

/// Whether a where clause or a body is next.
#[tactic(auto, using(crate::proofs::ReaderLemmas::steps))]
fn has_end(trees: &[TokenTree]) -> bool
    ensures { result ≡ heads where_and_body (classes_in trees.now) }
{
    match first_sign(trees) {
        Some((class, _)) => begins_end(class),
        None => false,
    }
}

/// Reads the trait and the type, with the `!` before them. Returns them and the trees after them.
#[tactic(auto, using(crate::proofs::ImplLemmas::targets))]
fn target_of(trees: &[TokenTree]) -> Result<(Target<'_>, &[TokenTree]), &[TokenTree]>
    ensures { MatchResult result (λ found. TurnsTo const_target trees.now where_and_body found.1.now
        × HasTarget trees.now found.0.negation.now found.0.trait_path found.0.self_type.now found.1.now)
        (λ left. Sticks const_target trees.now left.now) }
{
    match first_sign(trees) {
        Some((class, from_types)) => {
            if is(SignClass::Exclamation, class) {
                negative_of(trees, from_types)
            } else {
                types_of(trees, &[])
            }
        }
        None => Err(trees),
    }
}

/// Reads the trait and the type after the `!` that the trees begin with. Returns them and the trees after them.
#[tactic(auto, using(crate::proofs::ImplLemmas::negatives))]
fn negative_of<'a>(
    trees: &'a [TokenTree],
    from_types: &'a [TokenTree],
) -> Result<(Target<'a>, &'a [TokenTree]), &'a [TokenTree]>
    requires { BeginsWith trees.now signs.Exclamation from_types.now }
    ensures { MatchResult result (λ found. TurnsTo const_target trees.now where_and_body found.1.now
        × HasTarget trees.now found.0.negation.now found.0.trait_path found.0.self_type.now found.1.now)
        (λ left. Sticks const_target trees.now left.now) }
{
    let sign = part(trees, from_types);
    if has_end(from_types) {
        let target = Target {
            negation: &[],
            trait_path: None,
            self_type: sign,
        };
        Ok((target, from_types))
    } else {
        types_of(from_types, sign)
    }
}

/// Reads a type, or a trait, `for` and a type. Returns them and the trees after them.
#[tactic(auto, using(crate::proofs::ImplLemmas::types))]
fn types_of<'a>(
    trees: &'a [TokenTree],
    negation: &'a [TokenTree],
) -> Result<(Target<'a>, &'a [TokenTree]), &'a [TokenTree]>
    ensures { MatchResult result (λ found. Finds target_types trees.now found.1.now
        × HasTypes found.0.trait_path trees.now found.0.self_type.now found.1.now
        × (found.0.negation.now ≡ negation.now)) (λ left. Sticks target_types trees.now left.now) }
{
    match past_type(trees) {
        Ok(from_for) => match may_for(from_for) {
            Some(from_type) => match past_type(from_type) {
                Ok(rest) => {
                    let target = Target {
                        negation,
                        trait_path: Some(part(trees, from_for)),
                        self_type: part(from_type, rest),
                    };
                    Ok((target, rest))
                }
                Err(left) => Err(left),
            },
            None => {
                let target = Target {
                    negation,
                    trait_path: None,
                    self_type: part(trees, from_for),
                };
                Ok((target, from_for))
            }
        },
        Err(left) => Err(left),
    }
}

/// The trees after `for`, if `for` is next.
fn may_for(trees: &[TokenTree]) -> Option<&[TokenTree]>
    ensures { MatchOption result (heads for_type (classes_in trees.now) ≡ false)
        (λ rest. BeginsWith trees.now (signs.Keyword keywords.For) rest.now) }
{
    match first_sign(trees) {
        Some((class, rest)) => {
            if is(SignClass::Keyword(Keyword::For), class) {
                Some(rest)
            } else {
                None
            }
        }
        None => None,
    }
}

// ---- after the type

/// The parts of an `impl` after the type.
#[derive(Clone, Copy)]
pub(crate) struct End<'a> {
    /// The where clause, or no trees.
    pub where_clause: &'a [TokenTree],
    /// The body in braces.
    pub body: &'a Group,
}

/// Reads a where clause and a body in braces. Returns them and the trees after them.
pub(crate) fn end_of(trees: &[TokenTree]) -> Result<(End<'_>, &[TokenTree]), &[TokenTree]>
    ensures { MatchResult result (λ found. Finds where_and_body trees.now found.1.now
        × HasBraces trees.now found.0.where_clause.now found.0.body.now found.1.now)
        (λ left. Sticks where_and_body trees.now left.now) }
{
    match past_where(trees) {
        Ok(from_body) => match split_braces(from_body) {
            Some((body, rest)) => {
                let where_clause = part(trees, from_body);
                Ok((End { where_clause, body }, rest))
            }
            None => Err(from_body),
        },
        Err(left) => Err(left),
    }
}
