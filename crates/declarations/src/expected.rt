//! The signs that can come next where trees do not fit the grammar.
ghost use Rattle.std.specs.Prelude.{◌≡◌, ◌||◌, false, true};
ghost use Rattle.declarations.specs.Expected.{HasSigns, holds, holds_end};
ghost use Rattle.item_tables.specs.Classes.{is};

use item_tables::class::{Keyword, SignClass, Word, code};

/// A set of classes of signs, which may also have the end in it.
///
/// A [`Fault`](crate::Fault) has the signs that could come next where it is.
#[derive(Clone, Copy, Debug)]
pub struct Expected {
    /// Bit `n` says whether the class with the number `n` is in the set, and bit 127 whether the end is.
    bits: u128,
}

/// All classes, in the order of their numbers.
pub(crate) const CLASSES: [SignClass; 68] = [
    SignClass::Word(Word::Auto),
    SignClass::Word(Word::Default),
    SignClass::Word(Word::Safe),
    SignClass::Word(Word::Union),
    SignClass::Word(Word::Plain),
    SignClass::Keyword(Keyword::Async),
    SignClass::Keyword(Keyword::Const),
    SignClass::Keyword(Keyword::Dyn),
    SignClass::Keyword(Keyword::Enum),
    SignClass::Keyword(Keyword::Extern),
    SignClass::Keyword(Keyword::Fn),
    SignClass::Keyword(Keyword::For),
    SignClass::Keyword(Keyword::Impl),
    SignClass::Keyword(Keyword::Macro),
    SignClass::Keyword(Keyword::Mod),
    SignClass::Keyword(Keyword::Mut),
    SignClass::Keyword(Keyword::Pub),
    SignClass::Keyword(Keyword::Static),
    SignClass::Keyword(Keyword::Struct),
    SignClass::Keyword(Keyword::Trait),
    SignClass::Keyword(Keyword::Type),
    SignClass::Keyword(Keyword::Unsafe),
    SignClass::Keyword(Keyword::Use),
    SignClass::Keyword(Keyword::Where),
    SignClass::Keyword(Keyword::Other),
    SignClass::SelfValue,
    SignClass::SelfType,
    SignClass::Super,
    SignClass::Crate,
    SignClass::Underscore,
    SignClass::As,
    SignClass::Truth,
    SignClass::Await,
    SignClass::Jump,
    SignClass::Literal,
    SignClass::Lifetime,
    SignClass::PathSeparator,
    SignClass::Arrow,
    SignClass::HashBang,
    SignClass::LessEquals,
    SignClass::Bars,
    SignClass::Restriction,
    SignClass::Parentheses,
    SignClass::Brackets,
    SignClass::Braces,
    SignClass::Visibility,
    SignClass::Invisible,
    SignClass::Less,
    SignClass::LessJoint,
    SignClass::Greater,
    SignClass::Comma,
    SignClass::Colon,
    SignClass::Semicolon,
    SignClass::Equals,
    SignClass::Plus,
    SignClass::Minus,
    SignClass::Star,
    SignClass::And,
    SignClass::Question,
    SignClass::Exclamation,
    SignClass::Hash,
    SignClass::Tilde,
    SignClass::Bar,
    SignClass::Dot,
    SignClass::Infix,
    SignClass::Mark,
    SignClass::Block,
    SignClass::Word(Word::Gen),
];

impl Expected {
    /// The set without classes and without the end.
    pub(crate) fn nothing() -> Expected
        ensures { HasSigns result (λ class. false) false }
    {
        Expected { bits: 0 }
    }

    /// Returns whether a sign of this class is in the set.
    pub fn contains(&self, class: SignClass) -> bool
        ensures { result ≡ holds self.now class }
    {
        self.bits >> code(class) & 1 == 1
    }

    /// Returns whether the end is in the set: nothing more need come.
    pub fn has_end(&self) -> bool
        ensures { result ≡ holds_end self.now }
    {
        self.bits >> 127 & 1 == 1
    }

    /// The bits: bit `n` for the class with the number `n`, and bit 127 for the end.
    pub(crate) fn bits(self) -> u128
        ensures { result ≡ self.bits }
    {
        self.bits
    }

    /// The set with this class.
    pub(crate) fn with(self, class: SignClass) -> Expected
        ensures { HasSigns result (λ other. is class other || holds self other) (holds_end self) }
    {
        Expected {
            bits: self.bits | 1 << code(class),
        }
    }

    /// The set with the end.
    pub(crate) fn with_end(self) -> Expected
        ensures { HasSigns result (holds self) true }
    {
        Expected {
            bits: self.bits | 1 << 127,
        }
    }

    /// The set without the end.
    pub(crate) fn without_end(self) -> Expected
        ensures { HasSigns result (holds self) false }
    {
        Expected {
            bits: self.bits & !(1 << 127),
        }
    }

    /// Everything that is in one of the sets.
    pub(crate) fn both(self, other: Expected) -> Expected
        ensures { HasSigns result (λ class. holds self class || holds other class)
            (holds_end self || holds_end other) }
    {
        Expected {
            bits: self.bits | other.bits,
        }
    }
}
