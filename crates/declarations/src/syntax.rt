//! Rules of the grammar as data, for the signs that can come next at an error.
ghost use Rattle.std.specs.Prelude.{◌≡◌};
ghost use Rattle.declarations.specs.Syntax.{admits, start_of, table_of, test_of};
ghost use Rattle.declarations.specs.rules.Entries.{is_list};
ghost use Rattle.declarations.specs.rules.Fronts.{is_constant_name};

use crate::entry::{continues as continues_value, is_literal, is_segment};
use crate::function::{is_block, is_name, is_safe};
use crate::generic_argument::is_constant;
use crate::item_calls::begins_call;
use crate::item_paths::{
    is_call_group, is_crate_name, is_new_name, is_segment as is_item_segment, is_use_list,
};
use crate::parameter::{continues, is_pattern};
use crate::part_syntax::{ATTRIBUTES, GENERICS, VISIBILITY, WHERE};
use crate::reader::is;
use crate::type_path::{is_round, is_segment as is_path_segment, opens};
use item_tables::class::{Keyword, SignClass, Word};
use item_tables::types::TypeState;
use item_tables::walk_state::{Continuation, Spot, State, WalkState};

/// A test of one sign.
#[derive(Clone, Copy)]
pub enum Test {
    /// The sign has this class.
    Is(SignClass),
    /// A word, which can be a name.
    Word,
    /// A segment of an entry's path.
    Segment,
    /// A literal, `true` or `false`.
    Literal,
    /// A literal, a block, `true` or `false`.
    Constant,
    /// A group with delimiters.
    List,
    /// `unsafe` or `safe`.
    Safe,
    /// Parentheses.
    Round,
    /// Braces, or a group without delimiters that holds only braces.
    Block,
    /// What a pattern can begin with, apart from angle brackets.
    Pattern,
    /// What a pattern can begin with, except `mut`.
    PatternAfterAnd,
    /// What a pattern can begin with, except `mut` and `&`.
    PatternFirst,
    /// What can be in a pattern after its first sign.
    InPattern,
    /// What can be in the pattern of a parameter after its first `..`.
    AfterDots,
    /// `<`
    Opens,
    /// The name of a segment of a type's path.
    PathSegment,
    /// Any sign except `;`.
    NotSemicolon,
    /// A segment of the path of a macro call or of an import.
    ItemSegment,
    /// What begins a macro call and no other item.
    BeginsCall,
    /// A group of a macro call that `;` must follow.
    CallGroup,
    /// A name or `_`.
    NewName,
    /// The name of an external crate, or `self`.
    CrateName,
    /// `*` or braces at the end of an import's path.
    UseList,
    /// The name of a constant, which after `const` belongs to nothing else.
    ConstantName,
}

/// A label of a part.
#[derive(Clone, Copy)]
pub enum Label {
    /// Attributes.
    Attributes,
    /// A visibility.
    Visible,
    /// Generic parameters.
    Generics,
    /// A where clause.
    Where,
    /// The qualifiers of a function.
    Front,
    /// A name, a path or a pattern.
    Named,
    /// A parameter.
    Parameter,
    /// Bounds.
    Bounds,
    /// The default of a generic parameter.
    Default,
    /// The type of a parameter.
    OfType,
    /// The value of an entry.
    Value,
    /// The type of a predicate.
    Bounded,
    /// The parameters of a function.
    Fields,
    /// A return type.
    Returns,
    /// A body, or the list of an entry.
    Body,
    /// No part.
    Rest,
}

/// A rule that a table reads.
#[derive(Clone, Copy)]
pub enum Table {
    /// A type.
    Type,
    /// Bounds.
    Bounds,
    /// The type after `impl`, which `for` and another type may follow.
    Target,
    /// The rest of such a type after an operand.
    TargetRest,
    /// Arguments within angle brackets, up to their `>`.
    Argument,
    /// The rest of such arguments after an operand.
    ArgumentRest,
    /// An expression.
    Expression,
}

/// A rule that reads what a table reads, if its first sign passes a test.
#[derive(Clone, Copy)]
pub enum Guard {
    /// The value of an entry, which is an expression.
    Value,
    /// Angle brackets and what follows them in a path, which are read as a type.
    Angle,
    /// A type that begins with a word.
    Word,
    /// A type that begins with neither a word nor a lifetime.
    Operand,
    /// A type that does not begin with parentheses that can be a restriction.
    Unrestricted,
    /// The type after `impl`, if it does not begin with `!`.
    Target,
    /// The type after `impl`, if it begins neither with `!` nor with `<`.
    PlainTarget,
    /// Arguments that begin with neither a word nor a lifetime.
    Argument,
    /// The rest of an argument that no generic parameter has.
    ArgumentRest,
}

/// A named rule, to which a sign can lead.
#[derive(Clone, Copy)]
pub enum Goal {
    /// A function after `fn`.
    Function,
    /// A function from its `extern` or its `fn` on.
    Qualified,
    /// A function after `async`.
    Async,
    /// An item after `const`.
    Constant,
    /// A static after its keyword.
    Static,
    /// A type alias after its keyword.
    Alias,
    /// A struct after its keyword.
    Struct,
    /// An enum after its keyword.
    Enum,
    /// A union after its keyword.
    Union,
    /// A trait after its keyword.
    Trait,
    /// An `impl` after its keyword.
    Impl,
    /// A module after its keyword.
    Module,
    /// An import after its keyword.
    Use,
    /// The rest of an import from a segment of its path, `*` or braces on.
    UsePath,
    /// The rest of a macro call after a segment of its path.
    Call,
    /// The rest of the type after `impl`, after an operand.
    TargetRest,
}

/// A rule that several other rules cite, or that a function reads.
#[derive(Clone, Copy)]
pub enum Nonterminal {
    /// Attributes.
    Attributes,
    /// A visibility, or nothing.
    Visibility,
    /// A named field.
    Field,
    /// A field without a name.
    TupleField,
    /// A variant.
    Variant,
    /// `:` and bounds, or nothing.
    WithBounds,
    /// A constant parameter, after `const`.
    ConstantParameter,
    /// A generic parameter, after its attributes.
    GenericRest,
    /// A generic parameter.
    Generic,
    /// Generic parameters, or nothing.
    Generics,
    /// A predicate of a where clause.
    Predicate,
    /// A where clause, or nothing.
    Where,
    /// The rest of a constant or a static after its name.
    TypeAndValue,
    /// A function from its `extern` or its `fn` on.
    FunctionFront,
    /// What follows the name of a function and its generic parameters.
    FunctionRest,
    /// A function.
    Function,
    /// The rest of an `impl` after its generic parameters.
    Target,
    /// The rest of an `impl` after one of its generic parameters.
    MoreGenerics,
    /// An `impl`.
    Impl,
    /// The rest of a macro call from its `!` on.
    MarkedCall,
    /// The rest of a macro call after a segment of its path.
    Call,
    /// An item after `default`.
    DefaultFront,
    /// An item that begins with a keyword.
    KeywordItem,
    /// A struct, an enum or a union.
    TypeItem,
    /// An item of any kind, or a group without delimiters.
    AnyItem,
    /// What follows the path of an entry.
    EntryRest,
    /// An entry of an attribute's list.
    Entry,
    /// The rest of a pattern after its first sign.
    PatternRest,
    /// A pattern.
    Pattern,
    /// `:` and a type or `...`
    Typed,
    /// The rest of a parameter after `&`.
    AfterAnd,
    /// A receiver, or a pattern and its type, which does not begin with `..`.
    NamedParameter,
    /// A parameter of a function.
    Parameter,
    /// A generic argument.
    Argument,
}

/// A rule of the grammar, apart from types, bounds and expressions, which tables read.
#[derive(Clone, Copy)]
pub enum Syntax<'a> {
    /// Nothing.
    Nothing,
    /// A sign that passes the test.
    Sign(Test),
    /// A label between signs.
    Mark(Label),
    /// What a table reads.
    Table(Table),
    /// What a table reads, if the first sign passes a test.
    Guarded(Guard),
    /// A sign that passes the test, and then the named rule.
    To(Test, Goal),
    /// The first rule, and then the second.
    Then(&'a Syntax<'a>, &'a Syntax<'a>),
    /// One of the two rules.
    Either(&'a Syntax<'a>, &'a Syntax<'a>),
    /// The rule any number of times.
    Many(&'a Syntax<'a>),
    /// The rule any number of times, with `,` between two and perhaps after the last.
    List(&'a Syntax<'a>),
    /// What the nonterminal reads.
    Nonterminal(Nonterminal),
}

/// Whether the sign is a group with delimiters.
fn is_list(class: SignClass) -> bool
    ensures { result ≡ is_list class }
{
    match class {
        SignClass::Restriction | SignClass::Parentheses | SignClass::Brackets | SignClass::Braces =>
            true,
        _ => false,
    }
}

/// Whether a sign of this class passes the test.
pub(crate) fn passes(test: Test, class: SignClass) -> bool
    ensures { result ≡ test_of test class }
{
    match test {
        Test::Is(wanted) => is(wanted, class),
        Test::Word => is_name(class),
        Test::Segment => is_segment(class),
        Test::Literal => is_literal(class),
        Test::Constant => is_constant(class),
        Test::List => is_list(class),
        Test::Safe => is_safe(class),
        Test::Round => is_round(class),
        Test::Block => is_block(class),
        Test::Pattern => is_pattern(class),
        Test::PatternAfterAnd => is_pattern(class) && !is(SignClass::Keyword(Keyword::Mut), class),
        Test::PatternFirst => is_pattern(class)
            && !(is(SignClass::Keyword(Keyword::Mut), class) || is(SignClass::And, class)),
        Test::InPattern => continues(class),
        Test::AfterDots => continues(class) && !is(SignClass::Dot, class),
        Test::Opens => opens(class),
        Test::PathSegment => is_path_segment(class),
        Test::NotSemicolon => !is(SignClass::Semicolon, class),
        Test::ItemSegment => is_item_segment(class),
        Test::BeginsCall => begins_call(class),
        Test::CallGroup => is_call_group(class),
        Test::NewName => is_new_name(class),
        Test::CrateName => is_crate_name(class),
        Test::UseList => is_use_list(class),
        Test::ConstantName => is_constant_name(class),
    }
}

/// Whether the sign is the name of a constant, and after `const` belongs to nothing else.
fn is_constant_name(class: SignClass) -> bool
    ensures { result ≡ is_constant_name class }
{
    (is_name(class)
        && !(is(SignClass::Word(Word::Safe), class) || is(SignClass::Word(Word::Gen), class)))
        || is(SignClass::Underscore, class)
}

/// The state of the walk from which a table reads.
pub(crate) fn start_of(table: Table) -> WalkState
    ensures { result ≡ start_of table }
{
    let (rule, state) = match table {
        Table::Type => (Continuation::Outside, State::Range(TypeState::Wanted)),
        Table::Bounds => (Continuation::Outside, State::Range(TypeState::Bound)),
        Table::Target => (Continuation::Target, State::Range(TypeState::Wanted)),
        Table::TargetRest => (Continuation::Target, State::Range(TypeState::Whole)),
        Table::Argument => (Continuation::Inside, State::Range(TypeState::Wanted)),
        Table::ArgumentRest => (Continuation::Inside, State::Range(TypeState::Whole)),
        Table::Expression => (Continuation::Outside, State::At(Spot::Expression)),
    };
    WalkState {
        rule,
        state,
        depth: 0,
    }
}

/// The table that reads what the guarded rule reads.
pub(crate) fn table_of(guard: Guard) -> Table
    ensures { result ≡ table_of guard }
{
    match guard {
        Guard::Value => Table::Expression,
        Guard::Angle | Guard::Word | Guard::Operand | Guard::Unrestricted => Table::Type,
        Guard::Target | Guard::PlainTarget => Table::Target,
        Guard::Argument => Table::Argument,
        Guard::ArgumentRest => Table::ArgumentRest,
    }
}

/// Whether the guarded rule can begin with a sign of this class, if its table can.
pub(crate) fn admits(guard: Guard, class: SignClass) -> bool
    ensures { result ≡ admits guard class }
{
    match guard {
        Guard::Value => !continues_value(class),
        Guard::Angle => opens(class),
        Guard::Word => is_name(class),
        Guard::Operand | Guard::Argument => !is_name(class) && !is(SignClass::Lifetime, class),
        Guard::Unrestricted => !is(SignClass::Restriction, class),
        Guard::Target => !is(SignClass::Exclamation, class),
        Guard::PlainTarget => !is(SignClass::Exclamation, class) && !opens(class),
        Guard::ArgumentRest => !is(SignClass::Equals, class)
            && !(is(SignClass::Comma, class) || is(SignClass::Colon, class)),
    }
}

// ---- the rules of functions

/// The path of an entry.
const ENTRY_PATH: Syntax<'static> = Syntax::Then(
    &Syntax::Either(
        &Syntax::Sign(Test::Is(SignClass::PathSeparator)),
        &Syntax::Nothing,
    ),
    &Syntax::Then(
        &Syntax::Sign(Test::Segment),
        &Syntax::Many(&Syntax::Then(
            &Syntax::Sign(Test::Is(SignClass::PathSeparator)),
            &Syntax::Sign(Test::Segment),
        )),
    ),
);

/// What follows the path of an entry: a list, a value or nothing.
pub(crate) static ENTRY_REST_DATA: Syntax<'static> = Syntax::Either(
    &Syntax::Either(
        &Syntax::Then(&Syntax::Mark(Label::Body), &Syntax::Sign(Test::List)),
        &Syntax::Then(
            &Syntax::Mark(Label::Rest),
            &Syntax::Then(
                &Syntax::Sign(Test::Is(SignClass::Equals)),
                &Syntax::Then(&Syntax::Mark(Label::Value), &Syntax::Guarded(Guard::Value)),
            ),
        ),
    ),
    &Syntax::Nothing,
);

/// The nonterminal of [`ENTRY_REST_DATA`].
pub(crate) const ENTRY_REST: Syntax<'static> = Syntax::Nonterminal(Nonterminal::EntryRest);

/// A literal as an entry.
const LITERAL_ENTRY: Syntax<'static> = Syntax::Then(
    &Syntax::Mark(Label::Value),
    &Syntax::Either(
        &Syntax::Then(
            &Syntax::Sign(Test::Is(SignClass::Minus)),
            &Syntax::Sign(Test::Is(SignClass::Literal)),
        ),
        &Syntax::Sign(Test::Literal),
    ),
);

/// An entry of an attribute's list.
pub(crate) static ENTRY_DATA: Syntax<'static> = Syntax::Either(
    &LITERAL_ENTRY,
    &Syntax::Then(
        &Syntax::Mark(Label::Named),
        &Syntax::Then(&ENTRY_PATH, &ENTRY_REST),
    ),
);

/// The nonterminal of [`ENTRY_DATA`].
pub(crate) const ENTRY: Syntax<'static> = Syntax::Nonterminal(Nonterminal::Entry);

/// The qualifiers before `fn`.
const QUALIFIERS: Syntax<'static> = Syntax::Then(
    &Syntax::Either(
        &Syntax::Sign(Test::Is(SignClass::Word(Word::Default))),
        &Syntax::Nothing,
    ),
    &Syntax::Then(
        &Syntax::Either(
            &Syntax::Sign(Test::Is(SignClass::Keyword(Keyword::Const))),
            &Syntax::Nothing,
        ),
        &Syntax::Then(
            &Syntax::Either(
                &Syntax::Sign(Test::Is(SignClass::Keyword(Keyword::Async))),
                &Syntax::Nothing,
            ),
            &Syntax::Then(
                &Syntax::Either(
                    &Syntax::Sign(Test::Is(SignClass::Word(Word::Gen))),
                    &Syntax::Nothing,
                ),
                &Syntax::Then(
                    &Syntax::Either(&Syntax::Sign(Test::Safe), &Syntax::Nothing),
                    &Syntax::Either(
                        &Syntax::Then(
                            &Syntax::Sign(Test::Is(SignClass::Keyword(Keyword::Extern))),
                            &Syntax::Either(
                                &Syntax::Sign(Test::Is(SignClass::Literal)),
                                &Syntax::Nothing,
                            ),
                        ),
                        &Syntax::Nothing,
                    ),
                ),
            ),
        ),
    ),
);

/// A block, or `;`.
const FUNCTION_END: Syntax<'static> = Syntax::Either(
    &Syntax::Then(&Syntax::Mark(Label::Body), &Syntax::Sign(Test::Block)),
    &Syntax::Then(
        &Syntax::Mark(Label::Rest),
        &Syntax::Sign(Test::Is(SignClass::Semicolon)),
    ),
);

/// What follows the name of a function and its generic parameters.
pub(crate) static FUNCTION_REST_DATA: Syntax<'static> = Syntax::Then(
    &Syntax::Mark(Label::Fields),
    &Syntax::Then(
        &Syntax::Sign(Test::Round),
        &Syntax::Then(
            &Syntax::Either(
                &Syntax::Then(
                    &Syntax::Mark(Label::Rest),
                    &Syntax::Then(
                        &Syntax::Sign(Test::Is(SignClass::Arrow)),
                        &Syntax::Then(&Syntax::Mark(Label::Returns), &Syntax::Table(Table::Type)),
                    ),
                ),
                &Syntax::Nothing,
            ),
            &Syntax::Then(&WHERE, &FUNCTION_END),
        ),
    ),
);

/// The nonterminal of [`FUNCTION_REST_DATA`].
pub(crate) const FUNCTION_REST: Syntax<'static> = Syntax::Nonterminal(Nonterminal::FunctionRest);

/// A function.
pub(crate) static FUNCTION_DATA: Syntax<'static> = Syntax::Then(
    &ATTRIBUTES,
    &Syntax::Then(
        &VISIBILITY,
        &Syntax::Then(
            &Syntax::Mark(Label::Front),
            &Syntax::Then(
                &QUALIFIERS,
                &Syntax::Then(
                    &Syntax::Sign(Test::Is(SignClass::Keyword(Keyword::Fn))),
                    &Syntax::Then(
                        &Syntax::Then(&Syntax::Mark(Label::Named), &Syntax::Sign(Test::Word)),
                        &Syntax::Then(&GENERICS, &FUNCTION_REST),
                    ),
                ),
            ),
        ),
    ),
);

/// The nonterminal of [`FUNCTION_DATA`].
pub(crate) const FUNCTION: Syntax<'static> = Syntax::Nonterminal(Nonterminal::Function);

/// Angle brackets of a path in a pattern, and perhaps fields in braces.
const PATTERN_ANGLE: Syntax<'static> = Syntax::Then(
    &Syntax::Guarded(Guard::Angle),
    &Syntax::Either(&Syntax::Sign(Test::Is(SignClass::Braces)), &Syntax::Nothing),
);

/// The rest of a pattern after its first sign.
pub(crate) static PATTERN_REST_DATA: Syntax<'static> = Syntax::Then(
    &Syntax::Many(&Syntax::Sign(Test::InPattern)),
    &Syntax::Either(&PATTERN_ANGLE, &Syntax::Nothing),
);

/// The nonterminal of [`PATTERN_REST_DATA`].
const PATTERN_REST: Syntax<'static> = Syntax::Nonterminal(Nonterminal::PatternRest);

/// `..`
const TWO_DOTS: Syntax<'static> = Syntax::Then(
    &Syntax::Sign(Test::Is(SignClass::Dot)),
    &Syntax::Sign(Test::Is(SignClass::Dot)),
);

/// A pattern that begins with `..`.
const DOTTED_PATTERN: Syntax<'static> = Syntax::Then(&TWO_DOTS, &PATTERN_REST);

/// A pattern.
pub(crate) static PATTERN_DATA: Syntax<'static> = Syntax::Either(
    &DOTTED_PATTERN,
    &Syntax::Either(
        &Syntax::Then(&Syntax::Sign(Test::Pattern), &PATTERN_REST),
        &PATTERN_ANGLE,
    ),
);

/// The nonterminal of [`PATTERN_DATA`].
pub(crate) const PATTERN: Syntax<'static> = Syntax::Nonterminal(Nonterminal::Pattern);

/// `...`
const DOTS: Syntax<'static> = Syntax::Then(&TWO_DOTS, &Syntax::Sign(Test::Is(SignClass::Dot)));

/// `:` and a type or `...`
pub(crate) static TYPED_DATA: Syntax<'static> = Syntax::Then(
    &Syntax::Mark(Label::Rest),
    &Syntax::Then(
        &Syntax::Sign(Test::Is(SignClass::Colon)),
        &Syntax::Then(
            &Syntax::Mark(Label::OfType),
            &Syntax::Either(&DOTS, &Syntax::Table(Table::Type)),
        ),
    ),
);

/// The nonterminal of [`TYPED_DATA`].
const TYPED: Syntax<'static> = Syntax::Nonterminal(Nonterminal::Typed);

/// What follows `self` or `mut self`.
const SELF_TYPE: Syntax<'static> = Syntax::Either(
    &Syntax::Then(
        &Syntax::Mark(Label::Rest),
        &Syntax::Then(
            &Syntax::Sign(Test::Is(SignClass::Colon)),
            &Syntax::Then(&Syntax::Mark(Label::OfType), &Syntax::Table(Table::Type)),
        ),
    ),
    &Syntax::Nothing,
);

/// `self` or `mut self`
const MAY_MUTATE: Syntax<'static> = Syntax::Either(
    &Syntax::Then(
        &Syntax::Sign(Test::Is(SignClass::Keyword(Keyword::Mut))),
        &Syntax::Sign(Test::Is(SignClass::SelfValue)),
    ),
    &Syntax::Sign(Test::Is(SignClass::SelfValue)),
);

/// A pattern and its type.
const TYPED_PATTERN: Syntax<'static> = Syntax::Then(&PATTERN, &TYPED);

/// The rest of a parameter after `&`.
pub(crate) static AFTER_AND_DATA: Syntax<'static> = Syntax::Either(
    &Syntax::Then(&Syntax::Sign(Test::Is(SignClass::Lifetime)), &MAY_MUTATE),
    &Syntax::Either(
        &Syntax::Then(
            &Syntax::Sign(Test::Is(SignClass::Keyword(Keyword::Mut))),
            &Syntax::Either(
                &Syntax::Sign(Test::Is(SignClass::SelfValue)),
                &TYPED_PATTERN,
            ),
        ),
        &Syntax::Either(
            &Syntax::Sign(Test::Is(SignClass::SelfValue)),
            &Syntax::Then(
                &Syntax::Either(
                    &DOTTED_PATTERN,
                    &Syntax::Either(
                        &Syntax::Then(&Syntax::Sign(Test::PatternAfterAnd), &PATTERN_REST),
                        &PATTERN_ANGLE,
                    ),
                ),
                &TYPED,
            ),
        ),
    ),
);

/// The nonterminal of [`AFTER_AND_DATA`].
const AFTER_AND: Syntax<'static> = Syntax::Nonterminal(Nonterminal::AfterAnd);

/// A receiver, or a pattern and its type, which does not begin with `..`.
pub(crate) static NAMED_PARAMETER_DATA: Syntax<'static> = Syntax::Either(
    &Syntax::Then(&Syntax::Sign(Test::Is(SignClass::SelfValue)), &SELF_TYPE),
    &Syntax::Either(
        &Syntax::Then(
            &Syntax::Sign(Test::Is(SignClass::Keyword(Keyword::Mut))),
            &Syntax::Either(
                &Syntax::Then(&Syntax::Sign(Test::Is(SignClass::SelfValue)), &SELF_TYPE),
                &TYPED_PATTERN,
            ),
        ),
        &Syntax::Either(
            &Syntax::Then(&Syntax::Sign(Test::Is(SignClass::And)), &AFTER_AND),
            &Syntax::Then(
                &Syntax::Either(
                    &Syntax::Then(&Syntax::Sign(Test::PatternFirst), &PATTERN_REST),
                    &PATTERN_ANGLE,
                ),
                &TYPED,
            ),
        ),
    ),
);

/// The nonterminal of [`NAMED_PARAMETER_DATA`].
const NAMED_PARAMETER: Syntax<'static> = Syntax::Nonterminal(Nonterminal::NamedParameter);

/// The rest of a parameter after `..`.
const AFTER_DOTS: Syntax<'static> = Syntax::Either(
    &Syntax::Sign(Test::Is(SignClass::Dot)),
    &Syntax::Then(
        &Syntax::Either(
            &Syntax::Then(&Syntax::Sign(Test::AfterDots), &PATTERN_REST),
            &Syntax::Either(&PATTERN_ANGLE, &Syntax::Nothing),
        ),
        &TYPED,
    ),
);

/// A parameter of a function.
pub(crate) static PARAMETER_DATA: Syntax<'static> = Syntax::Then(
    &Syntax::Mark(Label::Parameter),
    &Syntax::Then(
        &ATTRIBUTES,
        &Syntax::Then(
            &Syntax::Mark(Label::Named),
            &Syntax::Either(&Syntax::Then(&TWO_DOTS, &AFTER_DOTS), &NAMED_PARAMETER),
        ),
    ),
);

/// The nonterminal of [`PARAMETER_DATA`].
pub(crate) const PARAMETER: Syntax<'static> = Syntax::Nonterminal(Nonterminal::Parameter);

/// A constant: a literal, `-` and a literal, braces, `true` or `false`.
const CONSTANT: Syntax<'static> = Syntax::Either(
    &Syntax::Then(
        &Syntax::Sign(Test::Is(SignClass::Minus)),
        &Syntax::Sign(Test::Is(SignClass::Literal)),
    ),
    &Syntax::Sign(Test::Constant),
);

/// A generic argument.
pub(crate) static ARGUMENT_DATA: Syntax<'static> = Syntax::Either(
    &Syntax::Then(
        &Syntax::Mark(Label::Named),
        &Syntax::Sign(Test::Is(SignClass::Lifetime)),
    ),
    &Syntax::Either(
        &Syntax::Then(&Syntax::Mark(Label::Value), &CONSTANT),
        &Syntax::Then(
            &Syntax::Mark(Label::OfType),
            &Syntax::Either(
                &Syntax::Then(&Syntax::Guarded(Guard::Word), &CONSTRAINT),
                &Syntax::Guarded(Guard::Operand),
            ),
        ),
    ),
);

/// The nonterminal of [`ARGUMENT_DATA`].
pub(crate) const ARGUMENT: Syntax<'static> = Syntax::Nonterminal(Nonterminal::Argument);

/// What may follow a type that begins with a word, in a generic argument.
const CONSTRAINT: Syntax<'static> = Syntax::Either(
    &Syntax::Either(
        &Syntax::Then(
            &Syntax::Mark(Label::Rest),
            &Syntax::Then(
                &Syntax::Sign(Test::Is(SignClass::Equals)),
                &Syntax::Then(
                    &Syntax::Mark(Label::Value),
                    &Syntax::Either(&CONSTANT, &Syntax::Table(Table::Type)),
                ),
            ),
        ),
        &Syntax::Then(
            &Syntax::Mark(Label::Rest),
            &Syntax::Then(
                &Syntax::Sign(Test::Is(SignClass::Colon)),
                &Syntax::Then(&Syntax::Mark(Label::Bounds), &Syntax::Table(Table::Bounds)),
            ),
        ),
    ),
    &Syntax::Nothing,
);

/// Generic arguments.
pub(crate) const ARGUMENTS: Syntax<'static> = Syntax::List(&ARGUMENT);

/// The type after `->`.
pub(crate) const RETURNED: Syntax<'static> = Syntax::Then(
    &Syntax::Mark(Label::Returns),
    &Syntax::Table(Table::Type),
);

/// The qualifiers before `impl`.
const IMPL_QUALIFIERS: Syntax<'static> = Syntax::Then(
    &Syntax::Either(
        &Syntax::Sign(Test::Is(SignClass::Word(Word::Default))),
        &Syntax::Nothing,
    ),
    &Syntax::Either(
        &Syntax::Sign(Test::Is(SignClass::Keyword(Keyword::Unsafe))),
        &Syntax::Nothing,
    ),
);

/// An impl.
pub(crate) static IMPL_DATA: Syntax<'static> = Syntax::Then(
    &ATTRIBUTES,
    &Syntax::Then(
        &VISIBILITY,
        &Syntax::Then(
            &Syntax::Mark(Label::Front),
            &Syntax::Then(
                &IMPL_QUALIFIERS,
                &Syntax::To(Test::Is(SignClass::Keyword(Keyword::Impl)), Goal::Impl),
            ),
        ),
    ),
);

/// The nonterminal of [`IMPL_DATA`].
pub(crate) const IMPL: Syntax<'static> = Syntax::Nonterminal(Nonterminal::Impl);
