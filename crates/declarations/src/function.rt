//! The parts of a function.
ghost use Rattle.std.specs.Prelude.{◌≡◌, ◌∷◌, IfErr, IfNone, IfOk, IfSome, List, MatchResult};
ghost use Rattle.grammars.specs.Grammar.{Sign, perhaps};
ghost use Rattle.pm_stream.specs.declared.stream.Group.{Group as Grouped};
ghost use Rattle.pm_stream.specs.declared.stream.TokenTree.{TokenTree as Tree};
ghost use Rattle.pm_stream.specs.declared.stream.TokenTree.TheVariants as trees_are;
ghost use Rattle.declarations.specs.Expected.{Expects};
ghost use Rattle.declarations.specs.Fault.{extent_at};
ghost use Rattle.declarations.specs.Function.{AreParentheses, HasBody, HasEnd, HasFunctionParts, HasReturn};
ghost use Rattle.declarations.specs.Function.{IsBlock, IsFunction, IsNameAt};
ghost use Rattle.declarations.specs.Reader.{Finds, ReadsRule, Sticks};
ghost use Rattle.declarations.specs.Reading.{FaultAt};
ghost use Rattle.declarations.specs.Whole.{IsWhole};
ghost use Rattle.declarations.specs.rules.Bodies.{function_end, returning};
ghost use Rattle.item_tables.specs.Classes.{is_block, is_round, is_word};
ghost use Rattle.declarations.specs.rules.Fronts.{is_safe};
ghost use Rattle.declarations.specs.rules.Functions.{abi, function_item, qualifiers, return_type_rule};
ghost use Rattle.declarations.specs.rules.Names.{one, word};
ghost use Rattle.declarations.specs.rules.Parts.{closed_parameters, generics, where_clause};
ghost use Rattle.declarations.specs.rules.Pieces.{ByRule};

use crate::explore::fault_by;
use crate::fault::Fault;
use crate::front::past_visibility;
use crate::item::{split_group, split_name, split_parentheses};
use crate::parameter::{past_attributes, past_type};
use crate::part_list::{Element, past_list};
use crate::reader::{begins_identifier, begins_mark, is, part, past};
use crate::signs::{first_sign, group_class, name_class};
use crate::syntax::FUNCTION;
use crate::type_path::opens;
use item_tables::class::{Keyword, SignClass, Word};
use pm_stream::{Group, TokenTree};
use pm_token::Ident;

/// A function, with its parts in reading order.
#[derive(Clone, Copy, Debug)]
pub struct Function<'a> {
    /// The outer attributes, perhaps none.
    pub attributes: &'a [TokenTree],
    /// The visibility, perhaps nothing. It may be one group without delimiters.
    pub visibility: &'a [TokenTree],
    /// The qualifiers before `fn`, such as `const unsafe extern "C"`, perhaps none.
    pub qualifiers: &'a [TokenTree],
    /// The name.
    pub name: &'a Ident,
    /// The generic parameters with their angle brackets, perhaps nothing.
    pub generics: &'a [TokenTree],
    /// The group in parentheses. [`Parameters`](crate::Parameters) gives its parameters one at a time.
    pub parameters: &'a Group,
    /// The type after `->`. It has no trees if the function has no `->`.
    pub return_type: &'a [TokenTree],
    /// The where clause with its `where`, perhaps nothing.
    pub where_clause: &'a [TokenTree],
    /// The body in braces, or `None` if the function ends in `;`. If a macro by example passed the body as `$b:block`,
    /// it is the group without delimiters that holds these braces, perhaps in more such groups.
    pub body: Option<&'a Group>,
}

/// Returns the parts of the function that the trees are.
///
/// The function may be one of a file, of a trait, of an `impl` or of a block of foreign items, with a body or with `;`.
/// For `pub const unsafe fn f<T>(x: T) -> Vec<T> where T: A { x }` the visibility is `pub`, the qualifiers are
/// `const unsafe`, the name is `f`, and the generic parameters are `<T>`. The parameters are `(x: T)`, the return type
/// is `Vec<T>`, the where clause is `where T: A`, and the body is `{ x }`.
///
/// The qualifiers are `default`, `const`, `async`, `gen`, `unsafe` or `safe`, and `extern` with or without a literal.
/// Each may come once, in this order. The call does not check which of them fit together, or whether the function needs
/// a body. It does not read the trees inside the parentheses and the braces.
///
/// If the trees are not exactly one function, the call returns a `Fault`. Its position is before the first tree that
/// does not fit, which may be a tree after the function. The rule `function-item` is in crates/declarations/README.md.
/// The call rejects a function inside a group without delimiters: pass the trees of this group. It allocates nothing.
#[tactic(auto, using(crate::proofs::FunctionLemmas::promises))]
pub fn parse_function(trees: &[TokenTree]) -> Result<Function<'_>, Fault>
    ensures ok { IfOk result (λ function. IsFunction trees.now function) }
    ensures fault { IfErr result (λ fault. FaultAt (IsWhole (ByRule function_item)) trees.now fault.at) }
    ensures span { IfErr result (λ fault. fault.span ≡ extent_at trees.now fault.at) }
    ensures expected { IfErr result (λ fault. Expects (ByRule function_item) trees.now fault.at fault.expected) }
{
    match function_of(trees) {
        Ok((function, rest)) => {
            if rest.is_empty() {
                Ok(function)
            } else {
                Err(fault_by(&FUNCTION, trees, rest))
            }
        }
        Err(left) => Err(fault_by(&FUNCTION, trees, left)),
    }
}

/// Reads the function at the start of the trees. Returns it and the trees after it, or the trees from the error on.
fn function_of(trees: &[TokenTree]) -> Result<(Function<'_>, &[TokenTree]), &[TokenTree]>
    ensures { MatchResult result (λ found. Finds function_item trees.now found.1.now
        × HasFunctionParts trees.now found.0 found.1.now) (λ left. Sticks function_item trees.now left.now) }
{
    let from_visibility = past_attributes(trees)?;
    let from_qualifiers = past_visibility(from_visibility);
    let from_fn = past_qualifiers(from_qualifiers);
    let from_name = past(from_fn, SignClass::Keyword(Keyword::Fn))?;
    let (name, from_generics) = name_of(from_name)?;
    let from_parameters = past_generics(from_generics)?;
    let (parameters, from_return) = parentheses_of(from_parameters)?;
    let (end, rest) = end_of(from_return)?;
    let function = Function {
        attributes: part(trees, from_visibility),
        visibility: part(from_visibility, from_qualifiers),
        qualifiers: part(from_qualifiers, from_fn),
        name,
        generics: part(from_generics, from_parameters),
        parameters,
        return_type: end.return_type,
        where_clause: end.where_clause,
        body: end.body,
    };
    Ok((function, rest))
}

// ---- generic parameters and where clauses

/// Skips generic parameters, if they are next.
#[tactic(auto, using(crate::proofs::FrontLemmas::no_generics))]
pub(crate) fn past_generics(trees: &[TokenTree]) -> Result<&[TokenTree], &[TokenTree]>
    ensures { ReadsRule generics trees.now result }
{
    if begins_mark(trees) {
        past_brackets(trees)
    } else {
        Ok(trees)
    }
}

/// Skips generic parameters in angle brackets, if they are next.
#[tactic(auto, using(crate::proofs::FunctionPartLemmas::brackets))]
fn past_brackets(trees: &[TokenTree]) -> Result<&[TokenTree], &[TokenTree]>
    ensures { ReadsRule generics trees.now result }
{
    match first_sign(trees) {
        Some((class, rest)) => {
            if opens(class) {
                past_parameters(rest)
            } else {
                Ok(trees)
            }
        }
        None => Ok(trees),
    }
}

/// Skips generic parameters and the `>` after them.
#[tactic(auto, using(crate::proofs::FunctionPartLemmas::closings))]
fn past_parameters(trees: &[TokenTree]) -> Result<&[TokenTree], &[TokenTree]>
    ensures { ReadsRule closed_parameters trees.now result }
{
    past(past_list(Element::Parameter, trees)?, SignClass::Greater)
}

/// Skips a where clause, if one is next.
#[tactic(auto, using(crate::proofs::FrontLemmas::no_where))]
pub(crate) fn past_where(trees: &[TokenTree]) -> Result<&[TokenTree], &[TokenTree]>
    ensures { ReadsRule where_clause trees.now result }
{
    if begins_identifier(trees) {
        past_clause(trees)
    } else {
        Ok(trees)
    }
}

/// Skips a where clause, if one is next.
#[tactic(auto, using(crate::proofs::FunctionPartLemmas::clauses))]
fn past_clause(trees: &[TokenTree]) -> Result<&[TokenTree], &[TokenTree]>
    ensures { ReadsRule where_clause trees.now result }
{
    match first_sign(trees) {
        Some((class, rest)) => {
            if is(SignClass::Keyword(Keyword::Where), class) {
                past_list(Element::Predicate, rest)
            } else {
                Ok(trees)
            }
        }
        None => Ok(trees),
    }
}

// ---- qualifiers

/// Skips a sign of this class, if one is next.
pub(crate) fn may(trees: &[TokenTree], class: SignClass) -> &[TokenTree]
    ensures { Finds (perhaps (one class)) trees.now result.now }
{
    match first_sign(trees) {
        Some((found, rest)) => { if is(class, found) { rest } else { trees } }
        None => trees,
    }
}

/// Whether the sign is `unsafe` or `safe`.
pub(crate) fn is_safe(class: SignClass) -> bool
    ensures { result ≡ is_safe class }
{
    match class {
        SignClass::Keyword(Keyword::Unsafe) | SignClass::Word(Word::Safe) => true,
        _ => false,
    }
}

/// Skips `unsafe` or `safe`, if one of them is next.
#[tactic(auto, using(crate::proofs::FunctionPartLemmas::options))]
fn may_safe(trees: &[TokenTree]) -> &[TokenTree]
    ensures { Finds (perhaps (Sign is_safe)) trees.now result.now }
{
    match first_sign(trees) {
        Some((found, rest)) => { if is_safe(found) { rest } else { trees } }
        None => trees,
    }
}

/// Skips `extern` and the literal that names its ABI, if `extern` is next.
#[tactic(auto, using(crate::proofs::FunctionPartLemmas::options))]
fn may_abi(trees: &[TokenTree]) -> &[TokenTree]
    ensures { Finds (perhaps abi) trees.now result.now }
{
    match first_sign(trees) {
        Some((found, rest)) => {
            if is(SignClass::Keyword(Keyword::Extern), found) {
                may(rest, SignClass::Literal)
            } else {
                trees
            }
        }
        None => trees,
    }
}

/// Skips the qualifiers before `fn`.
#[tactic(auto, using(crate::proofs::FunctionPartLemmas::qualifiers_find))]
fn past_qualifiers(trees: &[TokenTree]) -> &[TokenTree]
    ensures { Finds qualifiers trees.now result.now }
{
    let after_default = may(trees, SignClass::Word(Word::Default));
    let after_const = may(after_default, SignClass::Keyword(Keyword::Const));
    let after_async = may(after_const, SignClass::Keyword(Keyword::Async));
    let after_gen = may(after_async, SignClass::Word(Word::Gen));
    may_abi(may_safe(after_gen))
}

// ---- the name and the parameters

/// Whether the sign can name a function. A keyword cannot.
pub(crate) fn is_name(class: SignClass) -> bool
    ensures { result ≡ is_word class }
{
    match class {
        SignClass::Word(_) => true,
        _ => false,
    }
}

/// The name at the start of the trees, and the trees after it.
pub(crate) fn name_of(trees: &[TokenTree]) -> Result<(&Ident, &[TokenTree]), &[TokenTree]>
    ensures { MatchResult result (λ found. IsNameAt trees.now found.0.now found.1.now)
        (λ left. Sticks word trees.now left.now) }
{
    match split_name(trees) {
        Ok((name, rest)) => {
            if is_name(name_class(name)) {
                Ok((name, rest))
            } else {
                Err(trees)
            }
        }
        Err(_) => Err(trees),
    }
}

/// The group in parentheses at the start of the trees, and the trees after it.
#[tactic(auto, using(crate::proofs::FunctionPartLemmas::parentheses))]
fn parentheses_of(trees: &[TokenTree]) -> Result<(&Group, &[TokenTree]), &[TokenTree]>
    ensures { MatchResult result (λ found. AreParentheses trees.now found.0.now found.1.now)
        (λ left. Sticks (Sign is_round) trees.now left.now) }
{
    match split_parentheses(trees) {
        Some((group, rest)) => Ok((group, rest)),
        None => Err(trees),
    }
}

// ---- after the parameters

/// The parts of a function after its parameters.
#[derive(Clone, Copy)]
struct End<'a> {
    return_type: &'a [TokenTree],
    where_clause: &'a [TokenTree],
    body: Option<&'a Group>,
}

/// Reads the parts after the parameters. Returns them and the trees after them.
#[tactic(auto, using(crate::proofs::FunctionLemmas::ends))]
fn end_of(trees: &[TokenTree]) -> Result<(End<'_>, &[TokenTree]), &[TokenTree]>
    ensures { MatchResult result (λ found. Finds returning trees.now found.1.now
        × HasEnd trees.now found.0.return_type.now found.0.where_clause.now found.0.body found.1.now)
        (λ left. Sticks returning trees.now left.now) }
{
    let (return_type, from_clause) = return_of(trees)?;
    let from_body = past_where(from_clause)?;
    let (body, rest) = body_of(from_body)?;
    let where_clause = part(from_clause, from_body);
    let end = End {
        return_type,
        where_clause,
        body,
    };
    Ok((end, rest))
}

/// Skips the parts after the parameters.
pub(crate) fn past_returning(trees: &[TokenTree]) -> Result<&[TokenTree], &[TokenTree]>
    ensures { ReadsRule returning trees.now result }
{
    match end_of(trees) {
        Ok((_, rest)) => Ok(rest),
        Err(left) => Err(left),
    }
}

/// Reads `->` and a type, if `->` is next. Returns the type, or no trees, and the trees after it.
#[tactic(auto, using(crate::proofs::FunctionPartLemmas::returns))]
pub(crate) fn return_of(trees: &[TokenTree]) -> Result<(&[TokenTree], &[TokenTree]), &[TokenTree]>
    ensures { MatchResult result (λ found. Finds return_type_rule trees.now found.1.now
        × HasReturn trees.now found.0.now found.1.now) (λ left. Sticks return_type_rule trees.now left.now) }
{
    match first_sign(trees) {
        Some((class, from_type)) => {
            if is(SignClass::Arrow, class) {
                match past_type(from_type) {
                    Ok(rest) => Ok((part(from_type, rest), rest)),
                    Err(left) => Err(left),
                }
            } else {
                Ok((&[], trees))
            }
        }
        None => Ok((&[], trees)),
    }
}

/// Reads a block or `;`. Returns the block, or `None` for `;`, and the trees after it.
fn body_of(trees: &[TokenTree]) -> Result<(Option<&Group>, &[TokenTree]), &[TokenTree]>
    ensures { MatchResult result (λ found. Finds function_end trees.now found.1.now
        × HasBody found.0 trees.now found.1.now) (λ left. Sticks function_end trees.now left.now) }
{
    if let Some((body, rest)) = split_block(trees) {
        return Ok((Some(body), rest));
    }
    match first_sign(trees) {
        Some((class, rest)) => {
            if is(SignClass::Semicolon, class) {
                Ok((None, rest))
            } else {
                Err(trees)
            }
        }
        None => Err(trees),
    }
}

/// Whether the sign is braces, or a group without delimiters that holds only braces.
pub(crate) fn is_block(class: SignClass) -> bool
    ensures { result ≡ is_block class }
{
    match class {
        SignClass::Braces | SignClass::Block => true,
        _ => false,
    }
}

/// The block at the start of the trees, and the trees after it.
fn split_block(trees: &[TokenTree]) -> Option<(&Group, &[TokenTree])>
    ensures found { IfSome result (λ found. (trees.now ≡ trees_are.Group found.0.now ∷ found.1.now)
        × IsBlock found.0.now) }
    ensures none { IfNone result ((group : Grouped) → (rest : List Tree) → trees.now ≡ trees_are.Group group ∷ rest
        → IsBlock group → ⊥) }
{
    match split_group(trees) {
        Some((group, rest)) if is_block(group_class(group)) => Some((group, rest)),
        _ => None,
    }
}
