//! Types, bounds, expressions and the parts of items as data, for the signs that can come next at an error.

use crate::syntax::{Guard, Label, Nonterminal, Syntax, Table, Test};
use item_tables::class::{Keyword, SignClass};

/// A type.
pub(crate) const TYPE: Syntax<'static> = Syntax::Table(Table::Type);

/// Bounds.
pub(crate) const BOUNDS: Syntax<'static> = Syntax::Table(Table::Bounds);

/// An expression.
pub(crate) const EXPRESSION: Syntax<'static> = Syntax::Table(Table::Expression);

/// An attribute.
const ATTRIBUTE: Syntax<'static> = Syntax::Then(
    &Syntax::Mark(Label::Attributes),
    &Syntax::Then(
        &Syntax::Sign(Test::Is(SignClass::Hash)),
        &Syntax::Sign(Test::Is(SignClass::Brackets)),
    ),
);

/// Attributes.
pub(crate) static ATTRIBUTES_DATA: Syntax<'static> = Syntax::Many(&ATTRIBUTE);

/// The nonterminal of [`ATTRIBUTES_DATA`].
pub(crate) const ATTRIBUTES: Syntax<'static> = Syntax::Nonterminal(Nonterminal::Attributes);

/// An inner attribute.
const INNER_ATTRIBUTE: Syntax<'static> = Syntax::Then(
    &Syntax::Mark(Label::Attributes),
    &Syntax::Then(
        &Syntax::Sign(Test::Is(SignClass::HashBang)),
        &Syntax::Sign(Test::Is(SignClass::Brackets)),
    ),
);

/// Inner attributes.
pub(crate) const INNER_ATTRIBUTES: Syntax<'static> = Syntax::Many(&INNER_ATTRIBUTE);

/// `pub`, perhaps with a restriction, or a group without delimiters that holds a visibility.
pub(crate) const VISIBLE: Syntax<'static> = Syntax::Either(
    &Syntax::Then(
        &Syntax::Sign(Test::Is(SignClass::Keyword(Keyword::Pub))),
        &Syntax::Either(
            &Syntax::Sign(Test::Is(SignClass::Restriction)),
            &Syntax::Nothing,
        ),
    ),
    &Syntax::Sign(Test::Is(SignClass::Visibility)),
);

/// A visibility, or nothing.
pub(crate) static VISIBILITY_DATA: Syntax<'static> = Syntax::Either(
    &Syntax::Then(&Syntax::Mark(Label::Visible), &VISIBLE),
    &Syntax::Nothing,
);

/// The nonterminal of [`VISIBILITY_DATA`].
pub(crate) const VISIBILITY: Syntax<'static> = Syntax::Nonterminal(Nonterminal::Visibility);

/// A named field.
pub(crate) static FIELD_DATA: Syntax<'static> = Syntax::Then(
    &ATTRIBUTES,
    &Syntax::Then(
        &VISIBILITY,
        &Syntax::Then(
            &Syntax::Mark(Label::Named),
            &Syntax::Then(
                &Syntax::Sign(Test::Word),
                &Syntax::Then(
                    &Syntax::Mark(Label::Rest),
                    &Syntax::Then(
                        &Syntax::Sign(Test::Is(SignClass::Colon)),
                        &Syntax::Then(&Syntax::Mark(Label::OfType), &Syntax::Table(Table::Type)),
                    ),
                ),
            ),
        ),
    ),
);

/// The nonterminal of [`FIELD_DATA`].
pub(crate) const FIELD: Syntax<'static> = Syntax::Nonterminal(Nonterminal::Field);

/// The type of a field without a name, after `pub`.
const PUBLIC_TYPE: Syntax<'static> = Syntax::Either(
    &Syntax::Then(
        &Syntax::Sign(Test::Is(SignClass::Restriction)),
        &Syntax::Then(&Syntax::Mark(Label::OfType), &Syntax::Table(Table::Type)),
    ),
    &Syntax::Then(
        &Syntax::Mark(Label::OfType),
        &Syntax::Guarded(Guard::Unrestricted),
    ),
);

/// A field without a name, after its attributes.
const TUPLE_FIELD_REST: Syntax<'static> = Syntax::Either(
    &Syntax::Then(
        &Syntax::Mark(Label::Visible),
        &Syntax::Then(
            &Syntax::Sign(Test::Is(SignClass::Keyword(Keyword::Pub))),
            &PUBLIC_TYPE,
        ),
    ),
    &Syntax::Either(
        &Syntax::Then(
            &Syntax::Mark(Label::Visible),
            &Syntax::Then(
                &Syntax::Sign(Test::Is(SignClass::Visibility)),
                &Syntax::Then(&Syntax::Mark(Label::OfType), &Syntax::Table(Table::Type)),
            ),
        ),
        &Syntax::Then(&Syntax::Mark(Label::OfType), &Syntax::Table(Table::Type)),
    ),
);

/// A field without a name.
pub(crate) static TUPLE_FIELD_DATA: Syntax<'static> = Syntax::Then(&ATTRIBUTES, &TUPLE_FIELD_REST);

/// The nonterminal of [`TUPLE_FIELD_DATA`].
pub(crate) const TUPLE_FIELD: Syntax<'static> = Syntax::Nonterminal(Nonterminal::TupleField);

/// The fields of a variant, or nothing.
const VARIANT_FIELDS: Syntax<'static> = Syntax::Either(
    &Syntax::Then(
        &Syntax::Mark(Label::Fields),
        &Syntax::Either(
            &Syntax::Sign(Test::Round),
            &Syntax::Sign(Test::Is(SignClass::Braces)),
        ),
    ),
    &Syntax::Nothing,
);

/// The discriminant of a variant, or nothing.
const DISCRIMINANT: Syntax<'static> = Syntax::Either(
    &Syntax::Then(
        &Syntax::Mark(Label::Rest),
        &Syntax::Then(
            &Syntax::Sign(Test::Is(SignClass::Equals)),
            &Syntax::Then(
                &Syntax::Mark(Label::Value),
                &Syntax::Table(Table::Expression),
            ),
        ),
    ),
    &Syntax::Nothing,
);

/// A variant.
pub(crate) static VARIANT_DATA: Syntax<'static> = Syntax::Then(
    &ATTRIBUTES,
    &Syntax::Then(
        &VISIBILITY,
        &Syntax::Then(
            &Syntax::Mark(Label::Named),
            &Syntax::Then(
                &Syntax::Sign(Test::Word),
                &Syntax::Then(&VARIANT_FIELDS, &DISCRIMINANT),
            ),
        ),
    ),
);

/// The nonterminal of [`VARIANT_DATA`].
pub(crate) const VARIANT: Syntax<'static> = Syntax::Nonterminal(Nonterminal::Variant);

/// Named fields.
pub(crate) const FIELDS: Syntax<'static> = Syntax::List(&FIELD);

/// Fields without names.
pub(crate) const TUPLE_FIELDS: Syntax<'static> = Syntax::List(&TUPLE_FIELD);

/// Variants.
pub(crate) const VARIANTS: Syntax<'static> = Syntax::List(&VARIANT);

/// `:` and bounds, or nothing.
pub(crate) static WITH_BOUNDS_DATA: Syntax<'static> = Syntax::Either(
    &Syntax::Then(
        &Syntax::Mark(Label::Rest),
        &Syntax::Then(
            &Syntax::Sign(Test::Is(SignClass::Colon)),
            &Syntax::Then(&Syntax::Mark(Label::Bounds), &Syntax::Table(Table::Bounds)),
        ),
    ),
    &Syntax::Nothing,
);

/// The nonterminal of [`WITH_BOUNDS_DATA`].
pub(crate) const WITH_BOUNDS: Syntax<'static> = Syntax::Nonterminal(Nonterminal::WithBounds);

/// `=` and a type.
pub(crate) const DEFAULT_TYPE: Syntax<'static> = Syntax::Then(
    &Syntax::Mark(Label::Rest),
    &Syntax::Then(
        &Syntax::Sign(Test::Is(SignClass::Equals)),
        &Syntax::Then(&Syntax::Mark(Label::Default), &Syntax::Table(Table::Type)),
    ),
);

/// `=` and the default of a constant, or nothing.
const WITH_CONSTANT: Syntax<'static> = Syntax::Either(
    &Syntax::Then(
        &Syntax::Mark(Label::Rest),
        &Syntax::Then(
            &Syntax::Sign(Test::Is(SignClass::Equals)),
            &Syntax::Then(
                &Syntax::Mark(Label::Default),
                &Syntax::Either(
                    &Syntax::Then(
                        &Syntax::Sign(Test::Is(SignClass::Minus)),
                        &Syntax::Sign(Test::Is(SignClass::Literal)),
                    ),
                    &Syntax::Either(
                        &Syntax::Sign(Test::Is(SignClass::Literal)),
                        &Syntax::Either(
                            &Syntax::Sign(Test::Block),
                            &Syntax::Either(
                                &Syntax::Sign(Test::Is(SignClass::Truth)),
                                &Syntax::Table(Table::Type),
                            ),
                        ),
                    ),
                ),
            ),
        ),
    ),
    &Syntax::Nothing,
);

/// A constant parameter, after `const`.
pub(crate) static CONSTANT_PARAMETER_DATA: Syntax<'static> = Syntax::Then(
    &Syntax::Mark(Label::Named),
    &Syntax::Then(
        &Syntax::Sign(Test::Word),
        &Syntax::Then(
            &Syntax::Mark(Label::Rest),
            &Syntax::Then(
                &Syntax::Sign(Test::Is(SignClass::Colon)),
                &Syntax::Then(
                    &Syntax::Mark(Label::Bounds),
                    &Syntax::Then(&Syntax::Table(Table::Type), &WITH_CONSTANT),
                ),
            ),
        ),
    ),
);

/// The nonterminal of [`CONSTANT_PARAMETER_DATA`].
pub(crate) const CONSTANT_PARAMETER: Syntax<'static> = Syntax::Nonterminal(
    Nonterminal::ConstantParameter,
);

/// A generic parameter, after its attributes.
pub(crate) static GENERIC_REST_DATA: Syntax<'static> = Syntax::Either(
    &Syntax::Then(
        &Syntax::Mark(Label::Named),
        &Syntax::Then(&Syntax::Sign(Test::Is(SignClass::Lifetime)), &WITH_BOUNDS),
    ),
    &Syntax::Either(
        &Syntax::Then(
            &Syntax::Mark(Label::Named),
            &Syntax::Then(
                &Syntax::Sign(Test::Word),
                &Syntax::Then(
                    &WITH_BOUNDS,
                    &Syntax::Either(&DEFAULT_TYPE, &Syntax::Nothing),
                ),
            ),
        ),
        &Syntax::Then(
            &Syntax::Mark(Label::Rest),
            &Syntax::Then(
                &Syntax::Sign(Test::Is(SignClass::Keyword(Keyword::Const))),
                &CONSTANT_PARAMETER,
            ),
        ),
    ),
);

/// The nonterminal of [`GENERIC_REST_DATA`].
pub(crate) const GENERIC_REST: Syntax<'static> = Syntax::Nonterminal(Nonterminal::GenericRest);

/// A generic parameter.
pub(crate) static GENERIC_DATA: Syntax<'static> = Syntax::Then(
    &Syntax::Mark(Label::Parameter),
    &Syntax::Then(&ATTRIBUTES, &GENERIC_REST),
);

/// The nonterminal of [`GENERIC_DATA`].
pub(crate) const GENERIC: Syntax<'static> = Syntax::Nonterminal(Nonterminal::Generic);

/// Generic parameters and the `>` after them.
const CLOSED_GENERICS: Syntax<'static> = Syntax::Then(
    &Syntax::List(&GENERIC),
    &Syntax::Then(
        &Syntax::Mark(Label::Rest),
        &Syntax::Sign(Test::Is(SignClass::Greater)),
    ),
);

/// Generic parameters, or nothing.
pub(crate) static GENERICS_DATA: Syntax<'static> = Syntax::Either(
    &Syntax::Then(
        &Syntax::Mark(Label::Generics),
        &Syntax::Either(
            &Syntax::Then(&Syntax::Sign(Test::Is(SignClass::Less)), &CLOSED_GENERICS),
            &Syntax::Then(
                &Syntax::Sign(Test::Is(SignClass::LessJoint)),
                &CLOSED_GENERICS,
            ),
        ),
    ),
    &Syntax::Nothing,
);

/// The nonterminal of [`GENERICS_DATA`].
pub(crate) const GENERICS: Syntax<'static> = Syntax::Nonterminal(Nonterminal::Generics);

/// A predicate of a where clause.
pub(crate) static PREDICATE_DATA: Syntax<'static> = Syntax::Then(
    &Syntax::Mark(Label::Bounded),
    &Syntax::Then(
        &Syntax::Table(Table::Type),
        &Syntax::Then(
            &Syntax::Mark(Label::Rest),
            &Syntax::Then(
                &Syntax::Sign(Test::Is(SignClass::Colon)),
                &Syntax::Then(&Syntax::Mark(Label::Bounds), &Syntax::Table(Table::Bounds)),
            ),
        ),
    ),
);

/// The nonterminal of [`PREDICATE_DATA`].
pub(crate) const PREDICATE: Syntax<'static> = Syntax::Nonterminal(Nonterminal::Predicate);

/// A where clause, or nothing.
pub(crate) static WHERE_DATA: Syntax<'static> = Syntax::Either(
    &Syntax::Then(
        &Syntax::Mark(Label::Where),
        &Syntax::Then(
            &Syntax::Sign(Test::Is(SignClass::Keyword(Keyword::Where))),
            &Syntax::List(&PREDICATE),
        ),
    ),
    &Syntax::Nothing,
);

/// The nonterminal of [`WHERE_DATA`].
pub(crate) const WHERE: Syntax<'static> = Syntax::Nonterminal(Nonterminal::Where);
