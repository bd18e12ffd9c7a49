//! An `impl` as data, for the signs that can come next at an error.

use crate::header_syntax::WHERE_AND_BODY;
use crate::part_syntax::{
    ATTRIBUTES, CONSTANT_PARAMETER, DEFAULT_TYPE, GENERIC, GENERIC_REST, WITH_BOUNDS,
};
use crate::syntax::{Goal, Guard, Label, Nonterminal, Syntax, Table, Test};
use item_tables::class::{Keyword, SignClass};

/// The rest of an `impl` after `!`.
const NEGATIVE: Syntax<'static> = Syntax::Then(
    &Syntax::Either(&Syntax::Table(Table::Target), &Syntax::Nothing),
    &WHERE_AND_BODY,
);

/// The rest of an `impl` from its trait or its type on, which is not `!`.
const TARGET_TYPE: Syntax<'static> = Syntax::Then(&Syntax::Guarded(Guard::Target), &WHERE_AND_BODY);

/// The rest of an `impl` from its trait or its type on, which begins neither with `!` nor with `<`.
const PLAIN_TYPE: Syntax<'static> = Syntax::Then(
    &Syntax::Guarded(Guard::PlainTarget),
    &WHERE_AND_BODY,
);

/// The rest of an `impl` after its `const`.
const CONST_TARGET: Syntax<'static> = Syntax::Either(
    &Syntax::Then(&Syntax::Sign(Test::Is(SignClass::Exclamation)), &NEGATIVE),
    &TARGET_TYPE,
);

/// The rest of an `impl` after its generic parameters.
pub(crate) static TARGET_DATA: Syntax<'static> = Syntax::Either(
    &Syntax::Then(
        &Syntax::Sign(Test::Is(SignClass::Keyword(Keyword::Const))),
        &CONST_TARGET,
    ),
    &Syntax::Either(
        &Syntax::Then(&Syntax::Sign(Test::Is(SignClass::Exclamation)), &NEGATIVE),
        &TARGET_TYPE,
    ),
);

/// The nonterminal of [`TARGET_DATA`].
const TARGET: Syntax<'static> = Syntax::Nonterminal(Nonterminal::Target);

/// The rest of an `impl` without generic parameters.
const PLAIN_TARGET: Syntax<'static> = Syntax::Either(
    &Syntax::Then(
        &Syntax::Sign(Test::Is(SignClass::Keyword(Keyword::Const))),
        &CONST_TARGET,
    ),
    &Syntax::Either(
        &Syntax::Then(&Syntax::Sign(Test::Is(SignClass::Exclamation)), &NEGATIVE),
        &PLAIN_TYPE,
    ),
);

/// The rest of an `impl` after one of its generic parameters.
pub(crate) static MORE_GENERICS_DATA: Syntax<'static> = Syntax::Then(
    &Syntax::Either(
        &Syntax::Then(
            &Syntax::Then(
                &Syntax::Mark(Label::Rest),
                &Syntax::Sign(Test::Is(SignClass::Comma)),
            ),
            &Syntax::List(&GENERIC),
        ),
        &Syntax::Nothing,
    ),
    &Syntax::Then(
        &Syntax::Mark(Label::Rest),
        &Syntax::Then(&Syntax::Sign(Test::Is(SignClass::Greater)), &TARGET),
    ),
);

/// The nonterminal of [`MORE_GENERICS_DATA`].
const MORE_GENERICS: Syntax<'static> = Syntax::Nonterminal(Nonterminal::MoreGenerics);

/// The rest of an `impl` after the arguments of a type that begins with `<`.
const ANGLE_TARGET: Syntax<'static> = Syntax::Then(
    &Syntax::To(Test::Is(SignClass::Greater), Goal::TargetRest),
    &WHERE_AND_BODY,
);

/// The rest of an `impl` after `<` and a word.
const IMPL_WORD: Syntax<'static> = Syntax::Either(
    &Syntax::Then(
        &Syntax::Sign(Test::Is(SignClass::Colon)),
        &Syntax::Then(
            &Syntax::Mark(Label::Bounds),
            &Syntax::Then(
                &Syntax::Table(Table::Bounds),
                &Syntax::Then(
                    &Syntax::Either(&DEFAULT_TYPE, &Syntax::Nothing),
                    &MORE_GENERICS,
                ),
            ),
        ),
    ),
    &Syntax::Either(
        &Syntax::Then(&DEFAULT_TYPE, &MORE_GENERICS),
        &Syntax::Either(
            &MORE_GENERICS,
            &Syntax::Then(&Syntax::Guarded(Guard::ArgumentRest), &ANGLE_TARGET),
        ),
    ),
);

/// The rest of an `impl` after `<`.
const IMPL_ANGLE: Syntax<'static> = Syntax::Either(
    &Syntax::Then(&Syntax::Sign(Test::Is(SignClass::Greater)), &TARGET),
    &Syntax::Either(
        &Syntax::Then(
            &Syntax::Sign(Test::Is(SignClass::Hash)),
            &Syntax::Then(
                &Syntax::Sign(Test::Is(SignClass::Brackets)),
                &Syntax::Then(&ATTRIBUTES, &Syntax::Then(&GENERIC_REST, &MORE_GENERICS)),
            ),
        ),
        &Syntax::Either(
            &Syntax::Then(
                &Syntax::Sign(Test::Is(SignClass::Lifetime)),
                &Syntax::Then(&WITH_BOUNDS, &MORE_GENERICS),
            ),
            &Syntax::Either(
                &Syntax::Then(
                    &Syntax::Sign(Test::Is(SignClass::Keyword(Keyword::Const))),
                    &Syntax::Then(&CONSTANT_PARAMETER, &MORE_GENERICS),
                ),
                &Syntax::Either(
                    &Syntax::Then(&Syntax::Sign(Test::Word), &IMPL_WORD),
                    &Syntax::Then(&Syntax::Guarded(Guard::Argument), &ANGLE_TARGET),
                ),
            ),
        ),
    ),
);

/// An `impl` after its keyword.
pub(crate) const IMPL_FRONT: Syntax<'static> = Syntax::Either(
    &Syntax::Then(&Syntax::Sign(Test::Opens), &IMPL_ANGLE),
    &PLAIN_TARGET,
);

/// The rest of the type of an `impl`, after arguments with which it begins.
pub(crate) const TARGET_REST: Syntax<'static> = Syntax::Table(Table::TargetRest);
