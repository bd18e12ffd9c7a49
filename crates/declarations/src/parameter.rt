//! The parameters of functions, one at a time.
ghost use Rattle.std.specs.Prelude.{◌≡◌, ◌<◌, ◌||◌, IfErr, IfNone, IfOk, IfSome, MatchResult, false, length, true};
ghost use Rattle.grammars.specs.First.{heads};
ghost use Rattle.grammars.specs.Grammar.{perhaps};
ghost use Rattle.declarations.specs.Entry.{IsOnlyRest};
ghost use Rattle.declarations.specs.Expected.{Expects};
ghost use Rattle.declarations.specs.Fault.{extent_at};
ghost use Rattle.declarations.specs.List.{AreInside, IsFirst, IsListFault};
ghost use Rattle.declarations.specs.Parameter.{IsParameterAt, ReadsEnd, ReadsFront, ReadsNamed, ReadsParameter};
ghost use Rattle.declarations.specs.Parameter.{ReadsPattern, ReadsTyped, left_of};
ghost use Rattle.declarations.specs.Reader.{Finds, ReadsRule, classes_in};
ghost use Rattle.declarations.specs.Reading.{FaultAt, IsOnly, Reads};
ghost use Rattle.item_tables.specs.Classes.{opens};
ghost use Rattle.declarations.specs.rules.Names.{one};
ghost use Rattle.declarations.specs.rules.Parameters.{after_and, after_and_mut, after_mut, continues, dots};
ghost use Rattle.declarations.specs.rules.Parameters.{dotted_parameter, dotted_pattern, function_parameter, is_pattern};
ghost use Rattle.declarations.specs.rules.Parameters.{may_mutate, named_parameter, parameter_rest, pattern};
ghost use Rattle.declarations.specs.rules.Parameters.{pattern_angle, pattern_rest, pattern_sign, pattern_signs};
ghost use Rattle.declarations.specs.rules.Parameters.{plain_pattern, receiver, receiver_rest, self_type, two_dots};
ghost use Rattle.declarations.specs.rules.Parameters.{pattern_parameter};
ghost use Rattle.declarations.specs.rules.Parts.{attribute, attributes};
ghost use Rattle.declarations.specs.rules.Pieces.{ByRule};
ghost use Rattle.declarations.specs.rules.Types.{type};
ghost use Rattle.item_tables.specs.declared.class.SignClass.TheVariants as signs;
ghost use Rattle.declarations.specs.declared.parameter.Shape.TheVariants as shapes;

use crate::explore::{fault_at_comma, fault_by};
use crate::fault::Fault;
use crate::list::past_comma;
use crate::range::past_range;
use crate::reader::{begins, begins_mark, is, part, past};
use crate::signs::first_sign;
use crate::syntax::{PARAMETER, PATTERN};
use item_tables::class::{Keyword, SignClass};
use item_tables::types::TypeState;
use pm_stream::{Group, TokenTree};

/// The form of a function's parameter.
#[derive(Clone, Copy, Debug)]
pub enum ParameterKind<'a> {
    /// A receiver without a type, such as `self`, `mut self`, `&self` or `&'a mut self`.
    Receiver,
    /// A receiver with this type, such as `self: Box<Self>`.
    TypedReceiver(&'a [TokenTree]),
    /// A pattern with this type, such as `(a, b): (u8, u8)`.
    Typed(&'a [TokenTree]),
    /// `...` alone, or a pattern with `...` for its type, such as `rest: ...`.
    Variadic,
}

/// A parameter of a function, such as `&self`, `x: u8` or `#[a] (x, y): (u8, u8)`.
#[derive(Clone, Copy, Debug)]
pub struct Parameter<'a> {
    /// The outer attributes, perhaps none.
    pub attributes: &'a [TokenTree],
    /// The pattern or the receiver, without `:` and type. It has no trees if the parameter is `...` alone.
    pub pattern: &'a [TokenTree],
    /// The form of the parameter, with its type.
    pub kind: ParameterKind<'a>,
}

/// What a parameter begins with, up to its `:` or its end.
#[derive(Clone, Copy)]
pub enum Shape {
    /// A pattern.
    Pattern,
    /// `self` or `mut self`. A type may follow.
    Receiver,
    /// A receiver that begins with `&`. No type may follow.
    Reference,
}

/// Whether a pattern can begin with the sign, apart from angle brackets.
pub(crate) fn is_pattern(class: SignClass) -> bool
    ensures { result ≡ is_pattern class }
{
    match class {
        SignClass::Word(_) | SignClass::Keyword(Keyword::Mut | Keyword::Other) => true,
        SignClass::SelfType | SignClass::Super | SignClass::Crate | SignClass::Underscore => true,
        SignClass::Truth | SignClass::Literal | SignClass::PathSeparator => true,
        SignClass::Restriction
        | SignClass::Parentheses
        | SignClass::Brackets
        | SignClass::Invisible => true,
        SignClass::And | SignClass::Minus => true,
        _ => false,
    }
}

/// Whether the sign can be in a pattern after its first sign.
pub(crate) fn continues(class: SignClass) -> bool
    ensures { result ≡ continues class }
{
    match class {
        SignClass::Braces
        | SignClass::SelfValue
        | SignClass::Exclamation
        | SignClass::Dot
        | SignClass::Equals
        | SignClass::Infix => true,
        _ => is_pattern(class),
    }
}

fn opens(class: SignClass) -> bool
    ensures { result ≡ opens class }
{
    match class {
        SignClass::Less | SignClass::LessJoint => true,
        _ => false,
    }
}

/// Whether a pattern that does not begin with `..` can begin with the sign.
fn may_begin(class: SignClass) -> bool
    ensures { result ≡ (is_pattern class || opens class) }
{
    is_pattern(class) || opens(class)
}

/// Skips a type.
pub(crate) fn past_type(trees: &[TokenTree]) -> Result<&[TokenTree], &[TokenTree]>
    ensures { ReadsRule type trees.now result }
{
    past_range(trees, TypeState::Wanted)
}

/// Skips attributes.
pub(crate) fn past_attributes(trees: &[TokenTree]) -> Result<&[TokenTree], &[TokenTree]>
    ensures { ReadsRule attributes trees.now result }
{
    let mut left = trees;
    while begins_attribute(left) {
        match past_attribute(left) {
            Ok(next) => left = next,
            Err(fault) => return Err(fault),
        }
    }
    Ok(left)
}

/// Whether an attribute is next. The class of a tree that is no mark is not computed.
#[tactic(auto, using(crate::proofs::FrontLemmas::hashes))]
fn begins_attribute(trees: &[TokenTree]) -> bool
    ensures { result ≡ heads attribute (classes_in trees.now) }
{
    if begins_mark(trees) {
        begins(trees, SignClass::Hash)
    } else {
        false
    }
}

/// Skips an attribute.
#[tactic(auto, using(crate::proofs::ReaderLemmas::steps))]
fn past_attribute(trees: &[TokenTree]) -> Result<&[TokenTree], &[TokenTree]>
    ensures { ReadsRule attribute trees.now result }
{
    past(past(trees, SignClass::Hash)?, SignClass::Brackets)
}

/// Skips one more sign of a pattern, if one is next.
fn pattern_sign(trees: &[TokenTree]) -> Option<&[TokenTree]>
    ensures found { IfSome result (λ rest. Finds pattern_sign trees.now rest.now) }
    ensures begins { IfSome result (λ rest. heads pattern_sign (classes_in trees.now) ≡ true) }
    ensures none { IfNone result (heads pattern_sign (classes_in trees.now) ≡ false) }
{
    match first_sign(trees) {
        Some((class, rest)) => { if continues(class) { Some(rest) } else { None } }
        None => None,
    }
}

/// Skips more signs of a pattern.
fn pattern_signs(trees: &[TokenTree]) -> &[TokenTree]
    ensures { Finds pattern_signs trees.now result.now }
{
    let mut left = trees;
    while let Some(next) = pattern_sign(left) {
        left = next;
    }
    left
}

/// Skips braces, if they are next.
#[tactic(auto, using(crate::proofs::ReaderLemmas::steps))]
fn braces(trees: &[TokenTree]) -> Result<&[TokenTree], &[TokenTree]>
    ensures { ReadsRule (perhaps (one signs.Braces)) trees.now result }
{
    if begins(trees, SignClass::Braces) {
        past(trees, SignClass::Braces)
    } else {
        Ok(trees)
    }
}

/// Whether angle brackets are next.
#[tactic(auto, using(crate::proofs::ParameterLemmas::angles))]
fn begins_angle(trees: &[TokenTree]) -> bool
    ensures { result ≡ heads pattern_angle (classes_in trees.now) }
{
    match first_sign(trees) {
        Some((class, _)) => opens(class),
        None => false,
    }
}

/// Skips the end of a path from its angle brackets on, and fields in braces.
fn pattern_angle(trees: &[TokenTree]) -> Result<&[TokenTree], &[TokenTree]>
    requires { heads pattern_angle (classes_in trees.now) ≡ true }
    ensures { ReadsRule pattern_angle trees.now result }
{
    match past_type(trees) {
        Ok(rest) => braces(rest),
        Err(left) => Err(left),
    }
}

/// Skips the end of a path from its angle brackets on, if they are next.
#[tactic(auto, using(crate::proofs::ReaderLemmas::steps))]
fn perhaps_angle(trees: &[TokenTree]) -> Result<&[TokenTree], &[TokenTree]>
    ensures { ReadsRule (perhaps pattern_angle) trees.now result }
{
    if begins_angle(trees) {
        pattern_angle(trees)
    } else {
        Ok(trees)
    }
}

/// Skips the rest of a pattern.
#[tactic(auto, using(crate::proofs::ReaderLemmas::steps))]
fn pattern_rest(trees: &[TokenTree]) -> Result<&[TokenTree], &[TokenTree]>
    ensures { ReadsRule pattern_rest trees.now result }
{
    perhaps_angle(pattern_signs(trees))
}

/// Skips `..`.
fn two_dots(trees: &[TokenTree]) -> Result<&[TokenTree], &[TokenTree]>
    ensures { ReadsRule (two_dots) trees.now result }
{
    past(past(trees, SignClass::Dot)?, SignClass::Dot)
}

/// Skips a pattern that begins with `..`.
fn dotted_pattern(trees: &[TokenTree]) -> Result<&[TokenTree], &[TokenTree]>
    ensures { ReadsRule dotted_pattern trees.now result }
{
    pattern_rest(two_dots(trees)?)
}

/// Whether a pattern that does not begin with `..` can begin with the first sign.
#[tactic(auto, using(crate::proofs::ParameterLemmas::plain_patterns))]
fn begins_plain(trees: &[TokenTree]) -> bool
    ensures { result ≡ heads plain_pattern (classes_in trees.now) }
{
    match first_sign(trees) {
        Some((class, _)) => may_begin(class),
        None => false,
    }
}

/// Skips a pattern that does not begin with `..`.
fn plain_pattern(trees: &[TokenTree]) -> Result<&[TokenTree], &[TokenTree]>
    ensures { ReadsRule plain_pattern trees.now result }
{
    if begins_plain(trees) {
        pattern_rest(trees)
    } else {
        Err(trees)
    }
}

/// Skips a pattern.
#[tactic(auto, using(crate::proofs::ParameterLemmas::patterns))]
fn past_pattern(trees: &[TokenTree]) -> Result<&[TokenTree], &[TokenTree]>
    ensures { ReadsRule pattern trees.now result }
{
    if begins(trees, SignClass::Dot) {
        dotted_pattern(trees)
    } else {
        plain_pattern(trees)
    }
}

/// Skips `self` or `mut self`.
fn may_mutate(trees: &[TokenTree]) -> Result<&[TokenTree], &[TokenTree]>
    ensures { ReadsRule may_mutate trees.now result }
{
    if begins(trees, SignClass::Keyword(Keyword::Mut)) {
        past(
            past(trees, SignClass::Keyword(Keyword::Mut))?,
            SignClass::SelfValue,
        )
    } else {
        past(trees, SignClass::SelfValue)
    }
}

/// Skips `...`.
#[tactic(auto, using(crate::proofs::ReaderLemmas::steps))]
fn dots(trees: &[TokenTree]) -> Result<&[TokenTree], &[TokenTree]>
    ensures { ReadsRule dots trees.now result }
{
    past(two_dots(trees)?, SignClass::Dot)
}

/// What a parameter begins with after its `mut`, and the trees from the `:` or the end on.
#[tactic(auto, using(crate::proofs::ParameterLemmas::fronts))]
fn after_mut(trees: &[TokenTree]) -> Result<(Shape, &[TokenTree]), &[TokenTree]>
    ensures { ReadsFront after_mut (one signs.SelfValue) trees.now result }
{
    match first_sign(trees) {
        Some((class, rest)) => {
            if is(SignClass::SelfValue, class) {
                Ok((Shape::Receiver, rest))
            } else {
                pattern_shape(trees)
            }
        }
        None => Err(trees),
    }
}

/// Reads a pattern, up to its `:`.
fn pattern_shape(trees: &[TokenTree]) -> Result<(Shape, &[TokenTree]), &[TokenTree]>
    ensures { ReadsPattern pattern trees.now result }
{
    match past_pattern(trees) {
        Ok(rest) => Ok((Shape::Pattern, rest)),
        Err(left) => Err(left),
    }
}

/// Reads a pattern that does not begin with `..`, up to its `:`.
fn plain_shape(trees: &[TokenTree]) -> Result<(Shape, &[TokenTree]), &[TokenTree]>
    ensures { ReadsPattern plain_pattern trees.now result }
{
    match plain_pattern(trees) {
        Ok(rest) => Ok((Shape::Pattern, rest)),
        Err(left) => Err(left),
    }
}

/// What a parameter begins with after its `& mut`, and the trees from the `:` or the end on.
#[tactic(auto, using(crate::proofs::ParameterLemmas::fronts))]
fn after_and_mut(trees: &[TokenTree]) -> Result<(Shape, &[TokenTree]), &[TokenTree]>
    ensures { ReadsFront after_and_mut (one signs.SelfValue) trees.now result }
{
    match first_sign(trees) {
        Some((class, rest)) => {
            if is(SignClass::SelfValue, class) {
                Ok((Shape::Reference, rest))
            } else {
                pattern_shape(trees)
            }
        }
        None => Err(trees),
    }
}

/// What a parameter begins with after its `&`, and the trees from the `:` or the end on.
#[tactic(auto, using(crate::proofs::ParameterLemmas::fronts))]
fn after_and(trees: &[TokenTree]) -> Result<(Shape, &[TokenTree]), &[TokenTree]>
    ensures { ReadsFront after_and receiver_rest trees.now result }
{
    match first_sign(trees) {
        Some((class, rest)) => {
            if is(SignClass::Lifetime, class) {
                return match may_mutate(rest) {
                    Ok(after) => Ok((Shape::Reference, after)),
                    Err(left) => Err(left),
                };
            }
            if is(SignClass::Keyword(Keyword::Mut), class) {
                return after_and_mut(rest);
            }
            if is(SignClass::SelfValue, class) {
                return Ok((Shape::Reference, rest));
            }
            pattern_shape(trees)
        }
        None => Err(trees),
    }
}

/// Reads a receiver, or a pattern that does not begin with `..`, up to the `:` or the end.
#[tactic(auto, using(crate::proofs::ParameterLemmas::fronts))]
fn named_front(trees: &[TokenTree]) -> Result<(Shape, &[TokenTree]), &[TokenTree]>
    ensures { ReadsFront named_parameter receiver trees.now result }
{
    match first_sign(trees) {
        Some((class, rest)) => {
            if is(SignClass::SelfValue, class) {
                return Ok((Shape::Receiver, rest));
            }
            if is(SignClass::Keyword(Keyword::Mut), class) {
                return after_mut(rest);
            }
            if is(SignClass::And, class) {
                return after_and(rest);
            }
            plain_shape(trees)
        }
        None => Err(trees),
    }
}

/// The form of a receiver, with the type that may follow it, and the trees after it.
#[tactic(auto, using(crate::proofs::ParameterLemmas::self_types))]
fn self_type(trees: &[TokenTree]) -> Result<(ParameterKind<'_>, &[TokenTree]), &[TokenTree]>
    ensures { ReadsEnd self_type shapes.Receiver trees.now result }
{
    match first_sign(trees) {
        Some((class, from_type)) => {
            if is(SignClass::Colon, class) {
                match past_type(from_type) {
                    Ok(rest) => Ok((ParameterKind::TypedReceiver(part(from_type, rest)), rest)),
                    Err(left) => Err(left),
                }
            } else {
                Ok((ParameterKind::Receiver, trees))
            }
        }
        None => Ok((ParameterKind::Receiver, trees)),
    }
}

/// The form of a parameter with a pattern, from after its `:` on, and the trees after it.
#[tactic(auto, using(crate::proofs::ParameterLemmas::typed_ends))]
fn typed_end(trees: &[TokenTree]) -> Result<(ParameterKind<'_>, &[TokenTree]), &[TokenTree]>
    ensures { ReadsTyped trees.now result }
{
    if begins(trees, SignClass::Dot) {
        match dots(trees) {
            Ok(rest) => Ok((ParameterKind::Variadic, rest)),
            Err(left) => Err(left),
        }
    } else {
        match past_type(trees) {
            Ok(rest) => Ok((ParameterKind::Typed(part(trees, rest)), rest)),
            Err(left) => Err(left),
        }
    }
}

/// The form of a parameter with a pattern, from its `:` on, and the trees after it.
#[tactic(auto, using(crate::proofs::ParameterLemmas::typeds))]
fn pattern_parameter(trees: &[TokenTree]) -> Result<(ParameterKind<'_>, &[TokenTree]), &[TokenTree]>
    ensures { ReadsEnd pattern_parameter shapes.Pattern trees.now result }
{
    match first_sign(trees) {
        Some((class, from_end)) => {
            if is(SignClass::Colon, class) {
                typed_end(from_end)
            } else {
                Err(trees)
            }
        }
        None => Err(trees),
    }
}

/// The form of a parameter that begins with `shape`, and the trees after it.
#[tactic(auto, using(crate::proofs::ParameterLemmas::ends))]
fn end_of(
    shape: Shape,
    trees: &[TokenTree],
) -> Result<(ParameterKind<'_>, &[TokenTree]), &[TokenTree]>
    ensures { ReadsEnd (left_of shape) shape trees.now result }
{
    match shape {
        Shape::Pattern => pattern_parameter(trees),
        Shape::Receiver => self_type(trees),
        Shape::Reference => Ok((ParameterKind::Receiver, trees)),
    }
}

/// A parameter without its attributes.
#[derive(Clone, Copy)]
pub struct Named<'a> {
    /// The pattern or the receiver.
    pub pattern: &'a [TokenTree],
    /// The form of the parameter.
    pub kind: ParameterKind<'a>,
}

/// A receiver, or a pattern with its type that does not begin with `..`, and the trees after it.
#[tactic(auto, using(crate::proofs::ParameterLemmas::named))]
fn named_of(trees: &[TokenTree]) -> Result<(Named<'_>, &[TokenTree]), &[TokenTree]>
    ensures { ReadsNamed named_parameter trees.now result }
{
    match named_front(trees) {
        Ok((shape, from_end)) => match end_of(shape, from_end) {
            Ok((kind, rest)) => {
                let pattern = part(trees, from_end);
                Ok((Named { pattern, kind }, rest))
            }
            Err(left) => Err(left),
        },
        Err(left) => Err(left),
    }
}

/// `...`, or a pattern that begins with `..` and its type, and the trees after it.
#[tactic(auto, using(crate::proofs::ParameterLemmas::dotted))]
fn dotted_of(trees: &[TokenTree]) -> Result<(Named<'_>, &[TokenTree]), &[TokenTree]>
    ensures { ReadsNamed dotted_parameter trees.now result }
{
    match two_dots(trees) {
        Ok(after) => {
            if begins(after, SignClass::Dot) {
                match past(after, SignClass::Dot) {
                    Ok(rest) => Ok((
                        Named {
                            pattern: &[],
                            kind: ParameterKind::Variadic,
                        },
                        rest,
                    )),
                    Err(left) => Err(left),
                }
            } else {
                match pattern_rest(after) {
                    Ok(from_end) => match pattern_parameter(from_end) {
                        Ok((kind, rest)) => {
                            let pattern = part(trees, from_end);
                            Ok((Named { pattern, kind }, rest))
                        }
                        Err(left) => Err(left),
                    },
                    Err(left) => Err(left),
                }
            }
        }
        Err(left) => Err(left),
    }
}

/// A receiver, a pattern with its type, or `...`, and the trees after it.
#[tactic(auto, using(crate::proofs::ParameterLemmas::rests))]
fn rest_of(trees: &[TokenTree]) -> Result<(Named<'_>, &[TokenTree]), &[TokenTree]>
    ensures { ReadsNamed parameter_rest trees.now result }
{
    if begins(trees, SignClass::Dot) {
        dotted_of(trees)
    } else {
        named_of(trees)
    }
}

/// The parameter at the start of the trees, and the trees after it; or the trees from the error on.
#[tactic(auto, using(crate::proofs::ParameterLemmas::whole))]
fn parameter_of(trees: &[TokenTree]) -> Result<(Parameter<'_>, &[TokenTree]), &[TokenTree]>
    ensures { ReadsParameter trees.now result }
{
    match past_attributes(trees) {
        Ok(after) => match rest_of(after) {
            Ok((named, rest)) => {
                let attributes = part(trees, after);
                Ok((
                    Parameter {
                        attributes,
                        pattern: named.pattern,
                        kind: named.kind,
                    },
                    rest,
                ))
            }
            Err(left) => Err(left),
        },
        Err(left) => Err(left),
    }
}

/// Returns the parameter of a function at the start of the trees, and the trees after it.
///
/// Pass the trees in the parentheses of a function, or the rest that an earlier call returned. A parameter has
/// attributes, and then a receiver, a pattern with its type, or `...`. A receiver is `self`, `mut self`, `&self` or
/// `&mut self`. A lifetime may follow its `&`, and without `&` it may have a type. Patterns and types are not parsed;
/// only their ends are found. The call does not check that a receiver comes first and `...` last. It allocates nothing.
///
/// If the trees begin with no parameter, the call returns a `Fault`. The rules are in crates/declarations/README.md.
/// For `(a, b): Fn(A, B) -> C, d: D` the pattern is `(a, b)`, the type is `Fn(A, B) -> C`, and the rest is `, d: D`.
pub fn parse_parameter(trees: &[TokenTree]) -> Result<(Parameter<'_>, &[TokenTree]), Fault>
    ensures ok { IfOk result (λ found. IsParameterAt trees.now found.0 found.1.now) }
    ensures only { IfOk result (λ found. IsOnlyRest function_parameter trees.now found.1.now) }
    ensures fewer { IfOk result (λ found. length found.1.now < length trees.now) }
    ensures fault { IfErr result (λ fault. FaultAt (ByRule function_parameter) trees.now fault.at) }
    ensures span { IfErr result (λ fault. fault.span ≡ extent_at trees.now fault.at) }
    ensures expected { IfErr result (λ fault. Expects (ByRule function_parameter) trees.now fault.at fault.expected) }
{
    match parameter_of(trees) {
        Ok((parameter, rest)) => Ok((parameter, rest)),
        Err(left) => Err(fault_by(&PARAMETER, trees, left)),
    }
}

/// Returns the pattern at the start of the trees, and the trees after it.
///
/// A pattern is not parsed; only its end is found, which is before the first sign that can be in no pattern, such as
/// `:`. The pattern is one of a parameter: it does not begin with `self`, and has `|` only in groups. A keyword such as
/// `in` does not end it. It may begin with `..`, and `...` alone is a pattern here. A `self` after a first `&` or `mut`
/// is in the pattern here too. The call is for trees of a macro's own grammar, such as the parameters of a closure. For
/// `(a, b): (A, B)` the pattern is `(a, b)`.
#[tactic(auto, using(crate::proofs::ParameterLemmas::splits))]
pub fn split_pattern(trees: &[TokenTree]) -> Result<(&[TokenTree], &[TokenTree]), Fault>
    ensures ok { IfOk result (λ found. Reads (ByRule pattern) trees.now found.0.now found.1.now) }
    ensures only { IfOk result (λ found. IsOnly (ByRule pattern) trees.now found.0.now found.1.now) }
    ensures fault { IfErr result (λ fault. FaultAt (ByRule pattern) trees.now fault.at) }
    ensures span { IfErr result (λ fault. fault.span ≡ extent_at trees.now fault.at) }
    ensures expected { IfErr result (λ fault. Expects (ByRule pattern) trees.now fault.at fault.expected) }
{
    match past_pattern(trees) {
        Ok(rest) => Ok((part(trees, rest), rest)),
        Err(left) => Err(fault_by(&PATTERN, trees, left)),
    }
}

/// The parameters of a function, in order. A `,` is between two parameters, and may be after the last.
///
/// The iterator gives each parameter as [`parse_parameter`] reads it from the remaining trees. At an error it gives a
/// `Fault`, whose `at` counts from the start of the remaining trees, and then ends. It allocates nothing. For
/// `(&self, x: u8)` it gives `&self` and `x: u8`.
///
/// ```text
/// for parameter in Parameters::new(group) {
///     let parameter = parameter?;
///     if let ParameterKind::Typed(ty) = parameter.kind { .. }
/// }
/// ```
#[derive(Clone, Copy, Debug)]
pub struct Parameters<'a> {
    /// The trees that are not yet read.
    pub left: &'a [TokenTree],
}

impl<'a> Parameters<'a> {
    /// Returns an iterator over the parameters in these parentheses.
    pub fn new(group: &'a Group) -> Parameters<'a>
        ensures { AreInside result.left.now group.now }
    {
        Parameters {
            left: group.stream_ref().trees(),
        }
    }
}

impl<'a> Iterator for Parameters<'a> {
    ghost use Rattle.std.specs.Iterator.{at_most};
    ghost use Rattle.declarations.specs.Parameter.{GivesParameter};

    type Item = Result<Parameter<'a>, Fault>;

    ghost next_gives = { GivesParameter };

    // At most as many elements come as trees are left.
    ghost remaining = { λ list. at_most (length list.left.now) };

    fn next(&mut self) -> Option<Result<Parameter<'a>, Fault>> {
        if self.left.is_empty() {
            return None;
        }
        match first_parameter(self.left) {
            Ok((parameter, left)) => {
                self.left = left;
                Some(Ok(parameter))
            }
            Err(fault) => {
                self.left = &[];
                Some(Err(fault))
            }
        }
    }
}

/// The first parameter of a list, and the trees after its comma.
fn first_parameter(trees: &[TokenTree]) -> Result<(Parameter<'_>, &[TokenTree]), Fault>
    ensures given { MatchResult result (λ found. IsFirst IsParameterAt trees.now found.0 found.1.now)
        (λ fault. IsListFault (ByRule function_parameter) trees.now fault) }
    ensures fewer { IfOk result (λ found. length found.1.now < length trees.now) }
{
    match parse_parameter(trees) {
        Ok((parameter, rest)) => match past_comma(rest) {
            Some(left) => Ok((parameter, left)),
            None => Err(fault_at_comma(&PARAMETER, trees, rest)),
        },
        Err(fault) => Err(fault),
    }
}
