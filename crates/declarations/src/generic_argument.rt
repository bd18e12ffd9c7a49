//! The generic arguments of a path, one at a time.
ghost use Rattle.std.specs.Prelude.{◌≡◌, ◌<◌, IfErr, IfOk, MatchResult, length, true};
ghost use Rattle.grammars.specs.First.{heads, may_begin};
ghost use Rattle.grammars.specs.Grammar.{Sign};
ghost use Rattle.declarations.specs.Entry.{IsOnlyRest};
ghost use Rattle.declarations.specs.Expected.{Expects};
ghost use Rattle.declarations.specs.Fault.{extent_at};
ghost use Rattle.declarations.specs.GenericArgument.{HasConstraint, IsArgumentAt, ReadsArgument};
ghost use Rattle.declarations.specs.List.{IsFirst, IsListFault};
ghost use Rattle.declarations.specs.Reader.{Finds, ReadsRule, Sticks, classes_in};
ghost use Rattle.declarations.specs.Reading.{FaultAt};
ghost use Rattle.item_tables.specs.Classes.{is_word};
ghost use Rattle.declarations.specs.rules.Paths.{binding_value, constant, constraint, generic_argument, is_constant};
ghost use Rattle.declarations.specs.rules.Paths.{word_argument, word_type};
ghost use Rattle.declarations.specs.rules.Pieces.{ByRule};
ghost use Rattle.declarations.specs.rules.Names.{one};
ghost use Rattle.declarations.specs.rules.Types.{bounds, type};
ghost use Rattle.item_tables.specs.declared.class.SignClass.TheVariants as signs;

use crate::explore::{fault_at_comma, fault_by};
use crate::fault::Fault;
use crate::list::past_comma;
use crate::parameter::past_type;
use crate::range::past_range;
use crate::reader::{begins, is, part, past};
use crate::signs::first_sign;
use crate::syntax::ARGUMENT;
use item_tables::class::SignClass;
use item_tables::types::TypeState;
use pm_stream::TokenTree;

/// The form of a generic argument.
#[derive(Clone, Copy, Debug)]
pub enum ArgumentKind<'a> {
    /// A lifetime, such as `'a`.
    Lifetime,
    /// A constant: a literal, `-` and a literal, `true`, `false`, or an expression in braces.
    Const,
    /// A type. A path such as `N` is a type here, also if it names a constant.
    Type,
    /// A name with `=` and this type or constant, such as `Item = u8` or `N = 3`.
    Binding(&'a [TokenTree]),
    /// A name with `:` and these bounds, such as `Item: Copy`. The bounds have no trees if nothing follows the `:`.
    Constraint(&'a [TokenTree]),
}

/// A generic argument of a path, such as `'a`, `Vec<T>`, `3` or `Item = u8`.
#[derive(Clone, Copy, Debug)]
pub struct GenericArgument<'a> {
    /// The lifetime, the constant or the type; or the trees before the `=` or the `:`, such as `Item`.
    pub trees: &'a [TokenTree],
    /// The form of the argument, with what comes after a `=` or a `:`.
    pub kind: ArgumentKind<'a>,
}

/// Returns the generic argument at the start of the trees, and the trees after it.
///
/// Pass the trees between angle brackets, or the rest that an earlier call returned. An argument is a lifetime, a
/// constant or a type. After a type that begins with a word there may be `=` and a constant or a type, or `:` and
/// bounds; the call does not check that the trees before them are one name, perhaps with arguments of its own. Types
/// and bounds are not parsed; only their ends are found. A comma within brackets ends no argument. The call allocates
/// nothing.
///
/// If the trees begin with no argument, the call returns a `Fault`. The rule `generic-argument` is in
/// crates/declarations/README.md. For `Item = Vec<(A, B)>, C` the trees are `Item`, the type is `Vec<(A, B)>`, and the
/// rest is `, C`.
#[tactic(auto, using(crate::proofs::GenericArgumentLemmas::contracts))]
pub fn parse_generic_argument(
    trees: &[TokenTree],
) -> Result<(GenericArgument<'_>, &[TokenTree]), Fault>
    ensures ok { IfOk result (λ found. IsArgumentAt trees.now found.0 found.1.now) }
    ensures only { IfOk result (λ found. IsOnlyRest generic_argument trees.now found.1.now) }
    ensures fewer { IfOk result (λ found. length found.1.now < length trees.now) }
    ensures fault { IfErr result (λ fault. FaultAt (ByRule generic_argument) trees.now fault.at) }
    ensures span { IfErr result (λ fault. fault.span ≡ extent_at trees.now fault.at) }
    ensures expected { IfErr result (λ fault. Expects (ByRule generic_argument) trees.now fault.at fault.expected) }
{
    match argument_of(trees) {
        Ok((argument, rest)) => Ok((argument, rest)),
        Err(left) => Err(fault_by(&ARGUMENT, trees, left)),
    }
}

/// The generic arguments between angle brackets, in order. A `,` is between two arguments, and may be after the last.
///
/// The iterator gives each argument as [`parse_generic_argument`] reads it from the remaining trees. At an error it
/// gives a `Fault`, whose `at` counts from the start of the remaining trees, and then ends. It allocates nothing. For
/// `'a, T, 3` it gives `'a`, `T` and `3`.
///
/// ```text
/// for argument in GenericArguments::new(trees) {
///     let argument = argument?;
///     if let ArgumentKind::Type = argument.kind { .. }
/// }
/// ```
#[derive(Clone, Copy, Debug)]
pub struct GenericArguments<'a> {
    /// The trees that are not yet read.
    pub left: &'a [TokenTree],
}

impl<'a> GenericArguments<'a> {
    /// Returns an iterator over the arguments in these trees, which are those between the angle brackets.
    pub fn new(trees: &'a [TokenTree]) -> GenericArguments<'a>
        ensures { result.left.now ≡ trees.now }
    {
        GenericArguments { left: trees }
    }
}

impl<'a> Iterator for GenericArguments<'a> {
    ghost use Rattle.std.specs.Iterator.{at_most};
    ghost use Rattle.declarations.specs.GenericArgument.{GivesArgument};

    type Item = Result<GenericArgument<'a>, Fault>;

    ghost next_gives = { GivesArgument };

    // At most as many elements come as trees are left.
    ghost remaining = { λ list. at_most (length list.left.now) };

    fn next(&mut self) -> Option<Result<GenericArgument<'a>, Fault>> {
        if self.left.is_empty() {
            return None;
        }
        match first_argument(self.left) {
            Ok((argument, left)) => {
                self.left = left;
                Some(Ok(argument))
            }
            Err(fault) => {
                self.left = &[];
                Some(Err(fault))
            }
        }
    }
}

/// The first argument of a list, and the trees after its comma.
fn first_argument(trees: &[TokenTree]) -> Result<(GenericArgument<'_>, &[TokenTree]), Fault>
    ensures given { MatchResult result (λ found. IsFirst IsArgumentAt trees.now found.0 found.1.now)
        (λ fault. IsListFault (ByRule generic_argument) trees.now fault) }
    ensures fewer { IfOk result (λ found. length found.1.now < length trees.now) }
{
    match parse_generic_argument(trees) {
        Ok((argument, rest)) => match past_comma(rest) {
            Some(left) => Ok((argument, left)),
            None => Err(fault_at_comma(&ARGUMENT, trees, rest)),
        },
        Err(fault) => Err(fault),
    }
}

/// Skips bounds.
#[tactic(auto, using(crate::proofs::GenericArgumentLemmas::bounds_read))]
pub(crate) fn past_bounds(trees: &[TokenTree]) -> Result<&[TokenTree], &[TokenTree]>
    ensures { ReadsRule bounds trees.now result }
{
    past_range(trees, TypeState::Bound)
}

/// Whether the sign is a constant by itself.
pub(crate) fn is_constant(class: SignClass) -> bool
    ensures { result ≡ is_constant class }
{
    match class {
        SignClass::Literal | SignClass::Braces | SignClass::Block | SignClass::Truth => true,
        _ => false,
    }
}

/// Whether the sign is a word.
fn is_word(class: SignClass) -> bool
    ensures { result ≡ is_word class }
{
    match class {
        SignClass::Word(_) => true,
        _ => false,
    }
}

/// Whether a constant can begin with the sign.
fn begins_constant(class: SignClass) -> bool
    ensures { result ≡ may_begin constant class }
{
    match class {
        SignClass::Minus
        | SignClass::Literal
        | SignClass::Braces
        | SignClass::Block
        | SignClass::Truth => true,
        _ => false,
    }
}

/// Skips a constant without a minus sign.
fn plain_constant(trees: &[TokenTree]) -> Result<&[TokenTree], &[TokenTree]>
    ensures { ReadsRule (Sign is_constant) trees.now result }
{
    match first_sign(trees) {
        Some((found, rest)) => {
            if is_constant(found) {
                Ok(rest)
            } else {
                Err(trees)
            }
        }
        None => Err(trees),
    }
}

/// Skips a constant, with a minus sign or without.
fn past_constant(trees: &[TokenTree]) -> Result<&[TokenTree], &[TokenTree]>
    ensures { ReadsRule constant trees.now result }
{
    if begins(trees, SignClass::Minus) {
        past(past(trees, SignClass::Minus)?, SignClass::Literal)
    } else {
        plain_constant(trees)
    }
}

/// Whether a constant can begin here.
#[tactic(auto, using(crate::proofs::ReaderLemmas::steps))]
fn heads_constant(trees: &[TokenTree]) -> bool
    ensures { result ≡ heads constant (classes_in trees.now) }
{
    match first_sign(trees) {
        Some((class, _)) => begins_constant(class),
        None => false,
    }
}

/// Skips what a name is bound to: a constant or a type.
#[tactic(auto, using(crate::proofs::ReaderLemmas::steps))]
fn past_binding_value(trees: &[TokenTree]) -> Result<&[TokenTree], &[TokenTree]>
    ensures { ReadsRule binding_value trees.now result }
{
    if heads_constant(trees) {
        past_constant(trees)
    } else {
        past_type(trees)
    }
}

/// Reads what follows a type that begins with a word: `=` and a constant or a type, `:` and bounds, or nothing.
#[tactic(auto, using(crate::proofs::GenericArgumentLemmas::constraints))]
fn constraint_of(trees: &[TokenTree]) -> Result<(ArgumentKind<'_>, &[TokenTree]), &[TokenTree]>
    ensures { MatchResult result (λ found. Finds constraint trees.now found.1.now
        × HasConstraint found.0 trees.now found.1.now) (λ left. Sticks constraint trees.now left.now) }
{
    match first_sign(trees) {
        Some((class, from_end)) => {
            if is(SignClass::Equals, class) {
                return match past_binding_value(from_end) {
                    Ok(rest) => Ok((ArgumentKind::Binding(part(from_end, rest)), rest)),
                    Err(left) => Err(left),
                };
            }
            if is(SignClass::Colon, class) {
                return match past_bounds(from_end) {
                    Ok(rest) => Ok((ArgumentKind::Constraint(part(from_end, rest)), rest)),
                    Err(left) => Err(left),
                };
            }
            Ok((ArgumentKind::Type, trees))
        }
        None => Ok((ArgumentKind::Type, trees)),
    }
}

/// The argument that begins with a word, and the trees after it; or the trees from the error on.
fn word_argument_of(
    trees: &[TokenTree],
) -> Result<(GenericArgument<'_>, &[TokenTree]), &[TokenTree]>
    requires { heads word_type (classes_in trees.now) ≡ true }
    ensures { ReadsArgument word_argument trees.now result }
{
    match past_type(trees) {
        Ok(from_mark) => match constraint_of(from_mark) {
            Ok((kind, rest)) => {
                let trees = part(trees, from_mark);
                Ok((GenericArgument { trees, kind }, rest))
            }
            Err(left) => Err(left),
        },
        Err(left) => Err(left),
    }
}

/// The type at the start of the trees as an argument, and the trees after it; or the trees from the error on.
fn plain_argument_of(
    trees: &[TokenTree],
) -> Result<(GenericArgument<'_>, &[TokenTree]), &[TokenTree]>
    ensures { ReadsArgument type trees.now result }
{
    match past_type(trees) {
        Ok(rest) => {
            let trees = part(trees, rest);
            let kind = ArgumentKind::Type;
            Ok((GenericArgument { trees, kind }, rest))
        }
        Err(left) => Err(left),
    }
}

/// The lifetime at the start of the trees as an argument, and the trees after it; or the trees from the error on.
fn lifetime_of(trees: &[TokenTree]) -> Result<(GenericArgument<'_>, &[TokenTree]), &[TokenTree]>
    ensures { ReadsArgument (one signs.Lifetime) trees.now result }
{
    match past(trees, SignClass::Lifetime) {
        Ok(rest) => {
            let trees = part(trees, rest);
            let kind = ArgumentKind::Lifetime;
            Ok((GenericArgument { trees, kind }, rest))
        }
        Err(left) => Err(left),
    }
}

/// The constant at the start of the trees as an argument, and the trees after it; or the trees from the error on.
fn constant_of(trees: &[TokenTree]) -> Result<(GenericArgument<'_>, &[TokenTree]), &[TokenTree]>
    ensures { ReadsArgument constant trees.now result }
{
    match past_constant(trees) {
        Ok(rest) => {
            let trees = part(trees, rest);
            let kind = ArgumentKind::Const;
            Ok((GenericArgument { trees, kind }, rest))
        }
        Err(left) => Err(left),
    }
}

/// The argument at the start of the trees, and the trees after it; or the trees from the error on.
#[tactic(auto, using(crate::proofs::GenericArgumentLemmas::kinds_of))]
pub(crate) fn argument_of(
    trees: &[TokenTree],
) -> Result<(GenericArgument<'_>, &[TokenTree]), &[TokenTree]>
    ensures { ReadsArgument generic_argument trees.now result }
{
    match first_sign(trees) {
        Some((class, _)) => {
            if is(SignClass::Lifetime, class) {
                return lifetime_of(trees);
            }
            if begins_constant(class) {
                return constant_of(trees);
            }
            if is_word(class) {
                return word_argument_of(trees);
            }
            plain_argument_of(trees)
        }
        None => plain_argument_of(trees),
    }
}
