//! The steps of the walk over an expression, up to its end. A step says where a sign leads.
ghost use Rattle.std.specs.Prelude.{◌≡◌};
ghost use Rattle.item_tables.specs.Expression.{cast, cast_whole, closure, expression, expression_dot};
ghost use Rattle.item_tables.specs.Expression.{expression_less, expression_open, expression_whole, operator};
ghost use Rattle.item_tables.specs.Expression.{spot_ends, spot_step};

use crate::class::SignClass;
use crate::walk_state::{Continuation, Shift, Spot, open_angle, to_spot};

/// The step where an operand must come.
fn expression(class: SignClass) -> Option<Shift>
    ensures { result ≡ expression class }
{
    match class {
        SignClass::Restriction
        | SignClass::Parentheses
        | SignClass::Brackets
        | SignClass::Braces
        | SignClass::Block
        | SignClass::Invisible
        | SignClass::Word(_)
        | SignClass::SelfValue
        | SignClass::SelfType
        | SignClass::Super
        | SignClass::Crate
        | SignClass::Underscore
        | SignClass::Truth
        | SignClass::Literal
        | SignClass::Await => to_spot(Spot::ExpressionWhole),
        SignClass::Less | SignClass::LessJoint => open_angle(Continuation::Angle),
        SignClass::Lifetime | SignClass::Jump => to_spot(Spot::ExpressionOpen),
        SignClass::Dot => to_spot(Spot::ExpressionRange),
        SignClass::Minus
        | SignClass::Star
        | SignClass::And
        | SignClass::Exclamation
        | SignClass::Equals
        | SignClass::Greater
        | SignClass::PathSeparator
        | SignClass::Bars
        | SignClass::Keyword(_) => to_spot(Spot::Expression),
        SignClass::Hash => to_spot(Spot::ExpressionHash),
        SignClass::Bar => to_spot(Spot::Closure),
        SignClass::Arrow => to_spot(Spot::Cast),
        _ => None,
    }
}

/// The step where an operand may come, or what follows an operand.
fn expression_open(class: SignClass) -> Option<Shift>
    ensures { result ≡ expression_open class }
{
    match class {
        SignClass::Dot => to_spot(Spot::ExpressionOpen),
        SignClass::Question => to_spot(Spot::ExpressionWhole),
        SignClass::Plus | SignClass::Infix | SignClass::Colon => to_spot(Spot::Expression),
        _ => expression(class),
    }
}

/// The step after an operand of an expression or of a cast.
fn operator(class: SignClass) -> Option<Shift>
    ensures { result ≡ operator class }
{
    match class {
        SignClass::Restriction
        | SignClass::Parentheses
        | SignClass::Brackets
        | SignClass::Braces
        | SignClass::Block
        | SignClass::Invisible
        | SignClass::Question
        | SignClass::Await => to_spot(Spot::ExpressionWhole),
        SignClass::Jump => to_spot(Spot::ExpressionOpen),
        SignClass::Dot => to_spot(Spot::ExpressionDot),
        SignClass::As | SignClass::Arrow => to_spot(Spot::Cast),
        SignClass::Minus
        | SignClass::Star
        | SignClass::And
        | SignClass::Exclamation
        | SignClass::Equals
        | SignClass::Greater
        | SignClass::Plus
        | SignClass::Infix
        | SignClass::Colon
        | SignClass::Bar
        | SignClass::Bars
        | SignClass::LessEquals
        | SignClass::Keyword(_) => to_spot(Spot::Expression),
        _ => None,
    }
}

/// The step after an operand of an expression.
fn expression_whole(class: SignClass) -> Option<Shift>
    ensures { result ≡ expression_whole class }
{
    match class {
        SignClass::PathSeparator | SignClass::Less => to_spot(Spot::Expression),
        SignClass::LessJoint => to_spot(Spot::ExpressionLess),
        _ => operator(class),
    }
}

/// The step after a `Joint` `<` that is an operator. A second mark may belong to the operator, as in `<<`.
fn expression_less(class: SignClass) -> Option<Shift>
    ensures { result ≡ expression_less class }
{
    match class {
        SignClass::Less | SignClass::LessJoint | SignClass::LessEquals => to_spot(Spot::Expression),
        _ => expression(class),
    }
}

/// The step after an operand and `.`.
fn expression_dot(class: SignClass) -> Option<Shift>
    ensures { result ≡ expression_dot class }
{
    match class {
        SignClass::Dot => to_spot(Spot::ExpressionOpen),
        _ => expression(class),
    }
}

/// The step within the bars of a closure.
fn closure(class: SignClass) -> Option<Shift>
    ensures { result ≡ closure class }
{
    match class {
        SignClass::Bar => to_spot(Spot::Expression),
        SignClass::Less | SignClass::LessJoint => open_angle(Continuation::ClosureAngle),
        SignClass::Semicolon => None,
        _ => to_spot(Spot::Closure),
    }
}

/// The step where the type of a cast must come.
fn cast(class: SignClass) -> Option<Shift>
    ensures { result ≡ cast class }
{
    match class {
        SignClass::Restriction
        | SignClass::Parentheses
        | SignClass::Brackets
        | SignClass::Braces
        | SignClass::Block
        | SignClass::Invisible => to_spot(Spot::ExpressionWhole),
        SignClass::Word(_)
        | SignClass::SelfValue
        | SignClass::SelfType
        | SignClass::Super
        | SignClass::Crate
        | SignClass::Underscore
        | SignClass::Truth => to_spot(Spot::CastWhole),
        SignClass::Less | SignClass::LessJoint => open_angle(Continuation::CastAngle),
        SignClass::Lifetime
        | SignClass::PathSeparator
        | SignClass::Arrow
        | SignClass::Star
        | SignClass::And
        | SignClass::Exclamation
        | SignClass::As
        | SignClass::Jump
        | SignClass::Await
        | SignClass::Literal
        | SignClass::Keyword(_) => to_spot(Spot::Cast),
        _ => None,
    }
}

/// The step after a name in the type of a cast.
fn cast_whole(class: SignClass) -> Option<Shift>
    ensures { result ≡ cast_whole class }
{
    match class {
        SignClass::PathSeparator => to_spot(Spot::Cast),
        SignClass::Less | SignClass::LessJoint => open_angle(Continuation::CastAngle),
        _ => operator(class),
    }
}

/// The step from a state of an expression.
pub(crate) fn spot_step(spot: Spot, class: SignClass) -> Option<Shift>
    ensures { result ≡ spot_step spot class }
{
    match (spot, class) {
        (Spot::Expression, _) => expression(class),
        (Spot::ExpressionOpen, _) => expression_open(class),
        (Spot::ExpressionWhole, _) => expression_whole(class),
        (Spot::ExpressionLess, _) => expression_less(class),
        (Spot::ExpressionDot, _) => expression_dot(class),
        (Spot::ExpressionRange, SignClass::Dot) => to_spot(Spot::ExpressionOpen),
        (Spot::ExpressionHash, SignClass::Brackets) => to_spot(Spot::Expression),
        (Spot::Closure, _) => closure(class),
        (Spot::Cast, _) => cast(class),
        (Spot::CastWhole, _) => cast_whole(class),
        _ => None,
    }
}

/// Whether an expression may end in this state.
pub(crate) fn spot_ends(spot: Spot) -> bool
    ensures { result ≡ spot_ends spot }
{
    match spot {
        Spot::ExpressionOpen | Spot::ExpressionWhole | Spot::CastWhole => true,
        _ => false,
    }
}
