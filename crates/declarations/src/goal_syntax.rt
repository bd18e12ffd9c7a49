//! How named rules and nonterminals are read, for the signs that can come next at an error.
ghost use Rattle.std.specs.Prelude.{◌≡◌, ◌≤◌};
ghost use Rattle.declarations.specs.GoalSyntax.{IsReadBy};
ghost use Rattle.declarations.specs.Nonterminals.{nonterminal_size, rule_named};
ghost use Rattle.declarations.specs.Syntax.{grammar_of, size_of};

use crate::header_syntax::{
    ALIAS, ASYNC_FRONT, CONST_FRONT, ENUM, FUNCTION_FRONT_DATA, FUNCTION_ITEM, MODULE, STATIC,
    STRUCT, TRAIT, TYPE_AND_VALUE_DATA,
};
use crate::impl_syntax::{IMPL_FRONT, MORE_GENERICS_DATA, TARGET_DATA, TARGET_REST};
use crate::item_syntax::{
    ANY_ITEM_DATA, CALL_DATA, DEFAULT_FRONT_DATA, KEYWORD_ITEM_DATA, MARKED_CALL_DATA,
    TYPE_ITEM_DATA, USE,
};
use crate::part_syntax::{
    ATTRIBUTES_DATA, CONSTANT_PARAMETER_DATA, FIELD_DATA, GENERIC_DATA, GENERIC_REST_DATA,
    GENERICS_DATA, PREDICATE_DATA, TUPLE_FIELD_DATA, VARIANT_DATA, VISIBILITY_DATA, WHERE_DATA,
    WITH_BOUNDS_DATA,
};
use crate::syntax::{
    AFTER_AND_DATA, ARGUMENT_DATA, ENTRY_DATA, ENTRY_REST_DATA, FUNCTION_DATA, FUNCTION_REST_DATA,
    Goal, IMPL_DATA, NAMED_PARAMETER_DATA, Nonterminal, PARAMETER_DATA, PATTERN_DATA,
    PATTERN_REST_DATA, Syntax, TYPED_DATA,
};

// The data of the named rules. A reference to a static outlives the function that returns it, unlike one to a constant.

static FUNCTION_RULE: Syntax<'static> = FUNCTION_ITEM;

static ASYNC_RULE: Syntax<'static> = ASYNC_FRONT;

static CONSTANT_RULE: Syntax<'static> = CONST_FRONT;

static STATIC_RULE: Syntax<'static> = STATIC;

static ALIAS_RULE: Syntax<'static> = ALIAS;

static STRUCT_RULE: Syntax<'static> = STRUCT;

static ENUM_RULE: Syntax<'static> = ENUM;

static TRAIT_RULE: Syntax<'static> = TRAIT;

static IMPL_RULE: Syntax<'static> = IMPL_FRONT;

static MODULE_RULE: Syntax<'static> = MODULE;

static USE_RULE: Syntax<'static> = USE;

static TARGET_REST_RULE: Syntax<'static> = TARGET_REST;

/// How a named rule is read.
pub enum NamedRule {
    /// By its data.
    Data(&'static Syntax<'static>),
    /// By a loop over the path of a macro call.
    Call,
    /// By a loop over the path of an import.
    UsePath,
}

/// Returns how the named rule is read.
pub(crate) fn reader_of(goal: Goal) -> NamedRule
    ensures { IsReadBy goal result }
{
    match goal {
        Goal::Function => NamedRule::Data(&FUNCTION_RULE),
        Goal::Qualified => NamedRule::Data(&FUNCTION_FRONT_DATA),
        Goal::Async => NamedRule::Data(&ASYNC_RULE),
        Goal::Constant => NamedRule::Data(&CONSTANT_RULE),
        Goal::Static => NamedRule::Data(&STATIC_RULE),
        Goal::Alias => NamedRule::Data(&ALIAS_RULE),
        Goal::Struct => NamedRule::Data(&STRUCT_RULE),
        Goal::Enum | Goal::Union => NamedRule::Data(&ENUM_RULE),
        Goal::Trait => NamedRule::Data(&TRAIT_RULE),
        Goal::Impl => NamedRule::Data(&IMPL_RULE),
        Goal::Module => NamedRule::Data(&MODULE_RULE),
        Goal::Use => NamedRule::Data(&USE_RULE),
        Goal::UsePath => NamedRule::UsePath,
        Goal::Call => NamedRule::Call,
        Goal::TargetRest => NamedRule::Data(&TARGET_REST_RULE),
    }
}

/// Returns the rule of the nonterminal.
pub(crate) fn rule_of(nonterminal: Nonterminal) -> &'static Syntax<'static>
    ensures rule { grammar_of result.now ≡ rule_named nonterminal }
    ensures size { size_of result.now ≤ nonterminal_size nonterminal }
{
    match nonterminal {
        Nonterminal::Attributes => &ATTRIBUTES_DATA,
        Nonterminal::Visibility => &VISIBILITY_DATA,
        Nonterminal::Field => &FIELD_DATA,
        Nonterminal::TupleField => &TUPLE_FIELD_DATA,
        Nonterminal::Variant => &VARIANT_DATA,
        Nonterminal::WithBounds => &WITH_BOUNDS_DATA,
        Nonterminal::ConstantParameter => &CONSTANT_PARAMETER_DATA,
        Nonterminal::GenericRest => &GENERIC_REST_DATA,
        Nonterminal::Generic => &GENERIC_DATA,
        Nonterminal::Generics => &GENERICS_DATA,
        Nonterminal::Predicate => &PREDICATE_DATA,
        Nonterminal::Where => &WHERE_DATA,
        Nonterminal::TypeAndValue => &TYPE_AND_VALUE_DATA,
        Nonterminal::FunctionFront => &FUNCTION_FRONT_DATA,
        Nonterminal::FunctionRest => &FUNCTION_REST_DATA,
        Nonterminal::Function => &FUNCTION_DATA,
        Nonterminal::Target => &TARGET_DATA,
        Nonterminal::MoreGenerics => &MORE_GENERICS_DATA,
        Nonterminal::Impl => &IMPL_DATA,
        Nonterminal::MarkedCall => &MARKED_CALL_DATA,
        Nonterminal::Call => &CALL_DATA,
        Nonterminal::DefaultFront => &DEFAULT_FRONT_DATA,
        Nonterminal::KeywordItem => &KEYWORD_ITEM_DATA,
        Nonterminal::TypeItem => &TYPE_ITEM_DATA,
        Nonterminal::AnyItem => &ANY_ITEM_DATA,
        Nonterminal::EntryRest => &ENTRY_REST_DATA,
        Nonterminal::Entry => &ENTRY_DATA,
        Nonterminal::PatternRest => &PATTERN_REST_DATA,
        Nonterminal::Pattern => &PATTERN_DATA,
        Nonterminal::Typed => &TYPED_DATA,
        Nonterminal::AfterAnd => &AFTER_AND_DATA,
        Nonterminal::NamedParameter => &NAMED_PARAMETER_DATA,
        Nonterminal::Parameter => &PARAMETER_DATA,
        Nonterminal::Argument => &ARGUMENT_DATA,
    }
}
