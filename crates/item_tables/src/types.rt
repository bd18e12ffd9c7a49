//! The steps of the walk over a type or bounds, up to their end.
ghost use Rattle.std.specs.Prelude.{◌≡◌};
ghost use Rattle.item_tables.specs.TypeStep.{abi, after_lifetime, argument, binder, bound, close_bracket};
ghost use Rattle.item_tables.specs.TypeStep.{continuation, for_binder, front, macro_group, may_end, minus};
ghost use Rattle.item_tables.specs.TypeStep.{open_bracket, operand, pointer, stay, step_of, tilde};

use crate::class::{Keyword, SignClass};

/// What may come next within a type.
#[derive(Clone, Copy)]
pub enum TypeState {
    /// An operand.
    Wanted,
    /// An operand, or the end of bounds. This state is before the first bound and after `+`.
    Bound,
    /// An operand, or what may follow a lifetime.
    Lifetime,
    /// An argument, or the end of the arguments. This state is after `<`, and after `,` within angle brackets.
    Argument,
    /// What continues an operand.
    Whole,
    /// The group of a macro, after a path and `!`.
    MacroGroup,
    /// `const` or `mut`, after `*`.
    Pointer,
    /// `const`, after `~`.
    Tilde,
    /// A literal or an operand, after `extern`.
    Abi,
    /// A literal, after the `-` of a constant argument.
    Minus,
    /// `<`, after `for`.
    For,
    /// The lifetimes of `for<..>`, or its `>`.
    Binder,
}

/// How a sign changes the number of open angle brackets.
#[derive(Clone, Copy)]
pub enum Turn {
    /// It changes nothing.
    Stay,
    /// It opens one bracket.
    Open,
    /// It closes one bracket.
    Close,
}

/// A step of the walk over a type.
#[derive(Clone, Copy)]
pub struct TypeStep {
    /// What may come next.
    pub state: TypeState,
    /// How the sign changes the number of open angle brackets.
    pub turn: Turn,
}

/// Whether a type may end in this state, outside of angle brackets.
pub fn may_end(state: TypeState) -> bool
    ensures { result ≡ may_end state }
{
    match state {
        TypeState::Whole | TypeState::Lifetime | TypeState::Bound => true,
        _ => false,
    }
}

fn stay(state: TypeState) -> Option<TypeStep>
    ensures { result ≡ stay state }
{
    Some(TypeStep {
        state,
        turn: Turn::Stay,
    })
}

fn open_bracket() -> Option<TypeStep>
    ensures { result ≡ open_bracket }
{
    Some(TypeStep {
        state: TypeState::Argument,
        turn: Turn::Open,
    })
}

/// The step at `>`, which is possible only within angle brackets.
fn close_bracket(outside: bool) -> Option<TypeStep>
    ensures { result ≡ close_bracket outside }
{
    if outside {
        None
    } else {
        Some(TypeStep {
            state: TypeState::Whole,
            turn: Turn::Close,
        })
    }
}

/// The step at a keyword that comes before an operand.
fn front(keyword: Keyword) -> Option<TypeStep>
    ensures { result ≡ front keyword }
{
    match keyword {
        Keyword::Async
        | Keyword::Dyn
        | Keyword::Fn
        | Keyword::Impl
        | Keyword::Mut
        | Keyword::Unsafe
        | Keyword::Use => stay(TypeState::Wanted),
        Keyword::Extern => stay(TypeState::Abi),
        Keyword::For => stay(TypeState::For),
        _ => None,
    }
}

/// The step where an operand may come.
fn operand(class: SignClass, outside: bool) -> Option<TypeStep>
    ensures { result ≡ operand class outside }
{
    match class {
        SignClass::Word(_)
        | SignClass::SelfValue
        | SignClass::SelfType
        | SignClass::Super
        | SignClass::Crate
        | SignClass::Underscore
        | SignClass::Restriction
        | SignClass::Parentheses
        | SignClass::Brackets
        | SignClass::Invisible
        | SignClass::Exclamation => stay(TypeState::Whole),
        SignClass::Truth | SignClass::Literal | SignClass::Braces | SignClass::Block if !outside =>
            stay(TypeState::Whole),
        SignClass::PathSeparator | SignClass::And | SignClass::Question => stay(TypeState::Wanted),
        SignClass::Keyword(keyword) => front(keyword),
        SignClass::Lifetime => stay(TypeState::Lifetime),
        SignClass::Star => stay(TypeState::Pointer),
        SignClass::Tilde => stay(TypeState::Tilde),
        SignClass::Minus if !outside => stay(TypeState::Minus),
        SignClass::Less | SignClass::LessJoint => open_bracket(),
        _ => None,
    }
}

/// The step after an operand.
fn continuation(class: SignClass, outside: bool) -> Option<TypeStep>
    ensures { result ≡ continuation class outside }
{
    match class {
        SignClass::Restriction | SignClass::Parentheses => stay(TypeState::Whole),
        SignClass::PathSeparator | SignClass::Arrow => stay(TypeState::Wanted),
        SignClass::Plus => stay(TypeState::Bound),
        SignClass::Exclamation => stay(TypeState::MacroGroup),
        SignClass::As | SignClass::Equals if !outside => stay(TypeState::Wanted),
        SignClass::Comma if !outside => stay(TypeState::Argument),
        SignClass::Colon if !outside => stay(TypeState::Bound),
        SignClass::Less | SignClass::LessJoint => open_bracket(),
        SignClass::Greater => close_bracket(outside),
        _ => None,
    }
}

/// The step before a bound, or at the end of bounds.
fn bound(class: SignClass, outside: bool) -> Option<TypeStep>
    ensures { result ≡ bound class outside }
{
    match class {
        SignClass::Comma if !outside => stay(TypeState::Argument),
        SignClass::Greater => close_bracket(outside),
        _ => operand(class, outside),
    }
}

/// The step after a lifetime.
fn after_lifetime(class: SignClass, outside: bool) -> Option<TypeStep>
    ensures { result ≡ after_lifetime class outside }
{
    match class {
        SignClass::Plus => stay(TypeState::Bound),
        _ => bound(class, outside),
    }
}

/// The step before an argument, or at the end of arguments.
fn argument(class: SignClass, outside: bool) -> Option<TypeStep>
    ensures { result ≡ argument class outside }
{
    match class {
        SignClass::Greater => close_bracket(outside),
        _ => operand(class, outside),
    }
}

/// The step after a path and `!`.
fn macro_group(class: SignClass) -> Option<TypeStep>
    ensures { result ≡ macro_group class }
{
    match class {
        SignClass::Restriction | SignClass::Parentheses | SignClass::Brackets | SignClass::Braces =>
            stay(TypeState::Whole),
        _ => None,
    }
}

/// The step after `*`.
fn pointer(class: SignClass) -> Option<TypeStep>
    ensures { result ≡ pointer class }
{
    match class {
        SignClass::Keyword(Keyword::Const | Keyword::Mut) => stay(TypeState::Wanted),
        _ => None,
    }
}

/// The step after `~`.
fn tilde(class: SignClass) -> Option<TypeStep>
    ensures { result ≡ tilde class }
{
    match class {
        SignClass::Keyword(Keyword::Const) => stay(TypeState::Wanted),
        _ => None,
    }
}

/// The step after `extern`.
fn abi(class: SignClass, outside: bool) -> Option<TypeStep>
    ensures { result ≡ abi class outside }
{
    match class {
        SignClass::Literal => stay(TypeState::Wanted),
        _ => operand(class, outside),
    }
}

/// The step after the `-` of a constant argument.
fn minus(class: SignClass) -> Option<TypeStep>
    ensures { result ≡ minus class }
{
    match class {
        SignClass::Literal => stay(TypeState::Whole),
        _ => None,
    }
}

/// The step after `for`.
fn for_binder(class: SignClass) -> Option<TypeStep>
    ensures { result ≡ for_binder class }
{
    match class {
        SignClass::Less | SignClass::LessJoint => stay(TypeState::Binder),
        _ => None,
    }
}

/// The step within `for<..>`.
fn binder(class: SignClass) -> Option<TypeStep>
    ensures { result ≡ binder class }
{
    match class {
        SignClass::Lifetime | SignClass::Comma | SignClass::Colon | SignClass::Plus => stay(
            TypeState::Binder,
        ),
        SignClass::Greater => stay(TypeState::Wanted),
        _ => None,
    }
}

/// The step from a state, or `None` if the sign cannot come next. `outside` says that no angle bracket is open.
pub fn type_step(state: TypeState, class: SignClass, outside: bool) -> Option<TypeStep>
    ensures { result ≡ step_of state class outside }
{
    match state {
        TypeState::Wanted => operand(class, outside),
        TypeState::Bound => bound(class, outside),
        TypeState::Lifetime => after_lifetime(class, outside),
        TypeState::Argument => argument(class, outside),
        TypeState::Whole => continuation(class, outside),
        TypeState::MacroGroup => macro_group(class),
        TypeState::Pointer => pointer(class),
        TypeState::Tilde => tilde(class),
        TypeState::Abi => abi(class, outside),
        TypeState::Minus => minus(class),
        TypeState::For => for_binder(class),
        TypeState::Binder => binder(class),
    }
}
