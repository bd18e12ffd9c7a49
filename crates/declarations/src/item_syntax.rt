//! Items as data, for the signs that can come next at an error.

use crate::header_syntax::{BRACES, ENUM, FUNCTION_FRONT, GEN_FRONT, NAME, SEMICOLON};
use crate::part_syntax::{ATTRIBUTES, VISIBILITY, VISIBLE};
use crate::syntax::{Goal, Label, Nonterminal, Syntax, Test};
use item_tables::class::{Keyword, SignClass, Word};

/// The group of a macro call, and the `;` that must follow parentheses and brackets.
const CALL_END: Syntax<'static> = Syntax::Either(
    &BRACES,
    &Syntax::Then(
        &Syntax::Mark(Label::Body),
        &Syntax::Then(&Syntax::Sign(Test::CallGroup), &SEMICOLON),
    ),
);

/// The rest of a macro call after its `!`.
const CALL_NAME: Syntax<'static> = Syntax::Either(&Syntax::Then(&NAME, &CALL_END), &CALL_END);

/// The rest of a macro call from its `!` on.
pub(crate) static MARKED_CALL_DATA: Syntax<'static> = Syntax::Then(
    &Syntax::Sign(Test::Is(SignClass::Exclamation)),
    &CALL_NAME,
);

/// The nonterminal of [`MARKED_CALL_DATA`].
pub(crate) const MARKED_CALL: Syntax<'static> = Syntax::Nonterminal(Nonterminal::MarkedCall);

/// The rest of a macro call after a segment of its path.
pub(crate) static CALL_DATA: Syntax<'static> = Syntax::Either(
    &MARKED_CALL,
    &Syntax::Then(
        &Syntax::Sign(Test::Is(SignClass::PathSeparator)),
        &Syntax::To(Test::ItemSegment, Goal::Call),
    ),
);

/// The nonterminal of [`CALL_DATA`].
const CALL: Syntax<'static> = Syntax::Nonterminal(Nonterminal::Call);

/// `as` and a name or `_`, or nothing.
const AS_NAME: Syntax<'static> = Syntax::Either(
    &Syntax::Then(
        &Syntax::Sign(Test::Is(SignClass::As)),
        &Syntax::Sign(Test::NewName),
    ),
    &Syntax::Nothing,
);

/// The end of an import after its last segment.
pub(crate) const USE_END: Syntax<'static> = Syntax::Then(&AS_NAME, &SEMICOLON);

/// `*` or braces, and `;`.
pub(crate) const USE_LIST: Syntax<'static> = Syntax::Then(&Syntax::Sign(Test::UseList), &SEMICOLON);

/// The rest of an import from a segment of its path, `*` or braces on.
const USE_PATH: Syntax<'static> = Syntax::Either(
    &Syntax::Then(
        &Syntax::Sign(Test::ItemSegment),
        &Syntax::Either(
            &Syntax::To(Test::Is(SignClass::PathSeparator), Goal::UsePath),
            &USE_END,
        ),
    ),
    &USE_LIST,
);

/// An import after its keyword.
pub(crate) const USE: Syntax<'static> = Syntax::Either(
    &Syntax::To(Test::Is(SignClass::PathSeparator), Goal::UsePath),
    &USE_PATH,
);

/// An `extern` block or a function after its ABI.
const EXTERN_REST: Syntax<'static> = Syntax::Either(
    &BRACES,
    &Syntax::To(Test::Is(SignClass::Keyword(Keyword::Fn)), Goal::Function),
);

/// An `extern` block or a function after `extern`.
const UNSAFE_EXTERN: Syntax<'static> = Syntax::Either(
    &Syntax::Then(&Syntax::Sign(Test::Is(SignClass::Literal)), &EXTERN_REST),
    &EXTERN_REST,
);

/// An item after `extern`.
const EXTERN_FRONT: Syntax<'static> = Syntax::Either(
    &Syntax::Then(
        &Syntax::Sign(Test::Is(SignClass::Crate)),
        &Syntax::Then(
            &Syntax::Mark(Label::Named),
            &Syntax::Then(
                &Syntax::Sign(Test::CrateName),
                &Syntax::Then(
                    &Syntax::Mark(Label::Rest),
                    &Syntax::Then(&AS_NAME, &SEMICOLON),
                ),
            ),
        ),
    ),
    &UNSAFE_EXTERN,
);

/// A trait after `auto`.
const AUTO_FRONT: Syntax<'static> = Syntax::To(
    Test::Is(SignClass::Keyword(Keyword::Trait)),
    Goal::Trait,
);

/// An item after `safe`.
const SAFE_FRONT: Syntax<'static> = Syntax::Either(
    &Syntax::To(Test::Is(SignClass::Keyword(Keyword::Static)), Goal::Static),
    &FUNCTION_FRONT,
);

/// An item after `default unsafe`.
const DEFAULT_UNSAFE: Syntax<'static> = Syntax::Either(
    &Syntax::To(Test::Is(SignClass::Keyword(Keyword::Impl)), Goal::Impl),
    &FUNCTION_FRONT,
);

/// An item after `default`.
pub(crate) static DEFAULT_FRONT_DATA: Syntax<'static> = Syntax::Either(
    &Syntax::To(Test::Is(SignClass::Keyword(Keyword::Async)), Goal::Async),
    &Syntax::Either(
        &Syntax::To(Test::Is(SignClass::Keyword(Keyword::Const)), Goal::Constant),
        &Syntax::Either(
            &Syntax::To(Test::Is(SignClass::Keyword(Keyword::Impl)), Goal::Impl),
            &Syntax::Either(
                &Syntax::To(Test::Is(SignClass::Keyword(Keyword::Type)), Goal::Alias),
                &Syntax::Either(
                    &Syntax::Then(
                        &Syntax::Sign(Test::Is(SignClass::Keyword(Keyword::Unsafe))),
                        &DEFAULT_UNSAFE,
                    ),
                    &Syntax::Either(
                        &Syntax::Then(
                            &Syntax::Sign(Test::Is(SignClass::Word(Word::Gen))),
                            &GEN_FRONT,
                        ),
                        &Syntax::Either(
                            &Syntax::To(Test::Is(SignClass::Word(Word::Safe)), Goal::Qualified),
                            &FUNCTION_FRONT,
                        ),
                    ),
                ),
            ),
        ),
    ),
);

/// The nonterminal of [`DEFAULT_FRONT_DATA`].
const DEFAULT_FRONT: Syntax<'static> = Syntax::Nonterminal(Nonterminal::DefaultFront);

/// An item after `unsafe`.
const UNSAFE_FRONT: Syntax<'static> = Syntax::Either(
    &Syntax::Then(
        &Syntax::Sign(Test::Is(SignClass::Keyword(Keyword::Extern))),
        &UNSAFE_EXTERN,
    ),
    &Syntax::Either(
        &Syntax::To(Test::Is(SignClass::Keyword(Keyword::Fn)), Goal::Function),
        &Syntax::Either(
            &Syntax::To(Test::Is(SignClass::Keyword(Keyword::Impl)), Goal::Impl),
            &Syntax::Either(
                &Syntax::To(Test::Is(SignClass::Keyword(Keyword::Mod)), Goal::Module),
                &Syntax::Either(
                    &Syntax::To(Test::Is(SignClass::Keyword(Keyword::Static)), Goal::Static),
                    &Syntax::Either(
                        &Syntax::To(Test::Is(SignClass::Keyword(Keyword::Trait)), Goal::Trait),
                        &Syntax::Then(
                            &Syntax::Sign(Test::Is(SignClass::Word(Word::Auto))),
                            &AUTO_FRONT,
                        ),
                    ),
                ),
            ),
        ),
    ),
);

/// A `macro` after its keyword.
const MACRO: Syntax<'static> = Syntax::Then(
    &NAME,
    &Syntax::Then(
        &Syntax::Either(&Syntax::Sign(Test::Round), &Syntax::Nothing),
        &BRACES,
    ),
);

/// An item that begins with a keyword.
pub(crate) static KEYWORD_ITEM_DATA: Syntax<'static> = Syntax::Either(
    &Syntax::To(Test::Is(SignClass::Keyword(Keyword::Async)), Goal::Async),
    &Syntax::Either(
        &Syntax::To(Test::Is(SignClass::Keyword(Keyword::Const)), Goal::Constant),
        &Syntax::Either(
            &Syntax::To(Test::Is(SignClass::Keyword(Keyword::Enum)), Goal::Enum),
            &Syntax::Either(
                &Syntax::Then(
                    &Syntax::Sign(Test::Is(SignClass::Keyword(Keyword::Extern))),
                    &EXTERN_FRONT,
                ),
                &Syntax::Either(
                    &Syntax::To(Test::Is(SignClass::Keyword(Keyword::Fn)), Goal::Function),
                    &Syntax::Either(
                        &Syntax::To(Test::Is(SignClass::Keyword(Keyword::Impl)), Goal::Impl),
                        &Syntax::Either(
                            &Syntax::Then(
                                &Syntax::Sign(Test::Is(SignClass::Keyword(Keyword::Macro))),
                                &MACRO,
                            ),
                            &Syntax::Either(
                                &Syntax::To(
                                    Test::Is(SignClass::Keyword(Keyword::Mod)),
                                    Goal::Module,
                                ),
                                &Syntax::Either(
                                    &Syntax::To(
                                        Test::Is(SignClass::Keyword(Keyword::Static)),
                                        Goal::Static,
                                    ),
                                    &Syntax::Either(
                                        &Syntax::To(
                                            Test::Is(SignClass::Keyword(Keyword::Struct)),
                                            Goal::Struct,
                                        ),
                                        &Syntax::Either(
                                            &Syntax::To(
                                                Test::Is(SignClass::Keyword(Keyword::Trait)),
                                                Goal::Trait,
                                            ),
                                            &Syntax::Either(
                                                &Syntax::To(
                                                    Test::Is(SignClass::Keyword(Keyword::Type)),
                                                    Goal::Alias,
                                                ),
                                                &Syntax::Either(
                                                    &Syntax::Then(
                                                        &Syntax::Sign(Test::Is(SignClass::Keyword(
                                                            Keyword::Unsafe,
                                                        ))),
                                                        &UNSAFE_FRONT,
                                                    ),
                                                    &Syntax::To(
                                                        Test::Is(SignClass::Keyword(Keyword::Use)),
                                                        Goal::Use,
                                                    ),
                                                ),
                                            ),
                                        ),
                                    ),
                                ),
                            ),
                        ),
                    ),
                ),
            ),
        ),
    ),
);

/// The nonterminal of [`KEYWORD_ITEM_DATA`].
const KEYWORD_ITEM: Syntax<'static> = Syntax::Nonterminal(Nonterminal::KeywordItem);

/// An item after a visibility.
const DECLARATION: Syntax<'static> = Syntax::Either(
    &Syntax::Then(
        &Syntax::Sign(Test::Is(SignClass::Word(Word::Auto))),
        &AUTO_FRONT,
    ),
    &Syntax::Either(
        &Syntax::Then(
            &Syntax::Sign(Test::Is(SignClass::Word(Word::Default))),
            &DEFAULT_FRONT,
        ),
        &Syntax::Either(
            &Syntax::Then(
                &Syntax::Sign(Test::Is(SignClass::Word(Word::Gen))),
                &GEN_FRONT,
            ),
            &Syntax::Either(
                &Syntax::Then(
                    &Syntax::Sign(Test::Is(SignClass::Word(Word::Safe))),
                    &SAFE_FRONT,
                ),
                &Syntax::Either(
                    &Syntax::To(Test::Is(SignClass::Word(Word::Union)), Goal::Union),
                    &KEYWORD_ITEM,
                ),
            ),
        ),
    ),
);

/// An item without a visibility that begins with `auto`.
const AUTO_ITEM: Syntax<'static> = Syntax::Then(
    &Syntax::Sign(Test::Is(SignClass::Word(Word::Auto))),
    &Syntax::Either(&CALL, &AUTO_FRONT),
);

/// An item without a visibility that begins with `default`.
const DEFAULT_ITEM: Syntax<'static> = Syntax::Then(
    &Syntax::Sign(Test::Is(SignClass::Word(Word::Default))),
    &Syntax::Either(&CALL, &DEFAULT_FRONT),
);

/// An item without a visibility that begins with `gen`.
const GEN_ITEM: Syntax<'static> = Syntax::Then(
    &Syntax::Sign(Test::Is(SignClass::Word(Word::Gen))),
    &Syntax::Either(&CALL, &GEN_FRONT),
);

/// An item without a visibility that begins with `safe`.
const SAFE_ITEM: Syntax<'static> = Syntax::Then(
    &Syntax::Sign(Test::Is(SignClass::Word(Word::Safe))),
    &Syntax::Either(&CALL, &SAFE_FRONT),
);

/// An item without a visibility that begins with `union`.
const UNION_ITEM: Syntax<'static> = Syntax::Then(
    &Syntax::Sign(Test::Is(SignClass::Word(Word::Union))),
    &Syntax::Either(&CALL, &ENUM),
);

/// An item without a visibility that begins with none of these words.
const OTHER_ITEM: Syntax<'static> = Syntax::Either(
    &Syntax::Then(&Syntax::Sign(Test::BeginsCall), &CALL),
    &Syntax::Either(
        &Syntax::Then(
            &Syntax::Sign(Test::Is(SignClass::PathSeparator)),
            &Syntax::To(Test::ItemSegment, Goal::Call),
        ),
        &Syntax::Either(&Syntax::Sign(Test::Is(SignClass::Invisible)), &KEYWORD_ITEM),
    ),
);

/// An item without a visibility.
const PRIVATE_ITEM: Syntax<'static> = Syntax::Either(
    &AUTO_ITEM,
    &Syntax::Either(
        &DEFAULT_ITEM,
        &Syntax::Either(
            &GEN_ITEM,
            &Syntax::Either(&SAFE_ITEM, &Syntax::Either(&UNION_ITEM, &OTHER_ITEM)),
        ),
    ),
);

/// An item of any kind after its attributes.
const ANY_REST: Syntax<'static> = Syntax::Either(
    &Syntax::Then(
        &Syntax::Mark(Label::Visible),
        &Syntax::Then(
            &VISIBLE,
            &Syntax::Then(&Syntax::Mark(Label::Front), &DECLARATION),
        ),
    ),
    &Syntax::Then(&Syntax::Mark(Label::Front), &PRIVATE_ITEM),
);

/// An item of any kind, or a group without delimiters.
pub(crate) static ANY_ITEM_DATA: Syntax<'static> = Syntax::Then(&ATTRIBUTES, &ANY_REST);

/// The nonterminal of [`ANY_ITEM_DATA`].
pub(crate) const ANY_ITEM: Syntax<'static> = Syntax::Nonterminal(Nonterminal::AnyItem);

/// A struct, an enum or a union.
pub(crate) static TYPE_ITEM_DATA: Syntax<'static> = Syntax::Then(
    &ATTRIBUTES,
    &Syntax::Then(
        &VISIBILITY,
        &Syntax::Then(
            &Syntax::Mark(Label::Front),
            &Syntax::Either(
                &Syntax::To(Test::Is(SignClass::Keyword(Keyword::Struct)), Goal::Struct),
                &Syntax::Either(
                    &Syntax::To(Test::Is(SignClass::Keyword(Keyword::Enum)), Goal::Enum),
                    &Syntax::To(Test::Is(SignClass::Word(Word::Union)), Goal::Union),
                ),
            ),
        ),
    ),
);

/// The nonterminal of [`TYPE_ITEM_DATA`].
pub(crate) const TYPE_ITEM: Syntax<'static> = Syntax::Nonterminal(Nonterminal::TypeItem);
