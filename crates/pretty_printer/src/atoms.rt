//! What lines are made of: words, operators and groups.
use proc_macro2::Delimiter;

/// The kind of an atom.
#[derive(Clone, Copy)]
pub enum Kind {
    /// No atom. It is before the first atom of a list and after the last.
    Nothing,
    Lexeme(Lexeme),
    Sign(Sign),
    Group(Delimiter),
}

/// A name, a keyword, a literal or a lifetime.
#[derive(Clone, Copy, PartialEq)]
pub enum Lexeme {
    Name,
    /// The name of a kind of fragment in a macro's matcher, such as `expr`.
    Fragment,
    Literal,
    String,
    Lifetime,
    /// A keyword that no rule mentions.
    Keyword,
    As,
    Derive,
    Else,
    Extern,
    Fn,
    For,
    If,
    Impl,
    In,
    /// `enum`, `mod`, `struct` and `trait`
    Item,
    Let,
    Loop,
    MacroRules,
    Match,
    /// `async`, `const`, `move`, `mut`, `static` and `unsafe`
    Prefix,
    Pub,
    /// `break`, `return` and `yield`
    Return,
    Where,
    While,
}

/// An operator, of one mark or of several.
#[derive(Clone, Copy)]
pub enum Sign {
    One(char),
    /// `::`, `->`, `=>`, `&&` and `||`
    Path,
    Arrow,
    Arm,
    And,
    Or,
    /// `..`, `..=` and `...`
    Range,
    /// `==`, `!=`, `<=` and `>=`
    Compare,
    /// Any other operator, such as `+=`.
    Assign,
}

/// The role of an atom among the atoms around it.
#[derive(Clone, Copy, PartialEq)]
pub enum Role {
    Plain,
    /// `<` and `>` around types.
    Less,
    Greater,
    /// An operator between two operands, before its only operand, and after it.
    Between,
    Before,
    After,
    Path,
    Range,
    /// `=>`
    Arm,
    /// `#`, and the `!` after it.
    Hash,
    /// The `!` of a macro's call.
    Bang,
    /// The separator of a repetition in a macro.
    Separator,
    Comma,
    Semicolon,
    Colon,
    Dot,
    Where,
    /// The `|` that begins and ends a closure's parameters. `||` ends them.
    BarOpen,
    BarClose,
    /// A group that a macro repeats, and the parentheses of a `derive`.
    Repeated,
    /// The brackets of an attribute, and parentheses in one.
    Attribute,
    Meta,
    /// The parameters of a function.
    Params,
    /// Parentheses that are not a call's.
    Tuple,
    /// The braces of a `use`.
    Use,
    /// A branch of an `if` whose value is used.
    Branch,
    /// Statements, items or fields. Until roles are given: braces with `;` or `=>`.
    Block,
    /// The fields of a struct literal or of a variant.
    Fields,
    /// Any other braces.
    Expression,
}

/// A gap, in two bytes.
#[derive(Clone, Copy)]
pub enum White {
    Nothing,
    Space,
    /// A line end, and an empty line after it, with the number of spaces after them.
    Line(u8),
    Blank(u8),
}

/// A word, an operator or a group.
#[derive(Clone, Copy)]
pub struct Atom {
    /// The number of characters, if a group is on one line.
    pub width: usize,
    /// The number of characters before it in its list, if the list is on one line.
    pub offset: usize,
    /// The number of atoms before it in its list that need several lines.
    pub tall_before: usize,
    /// Of a group: the index of its node. Of `<` around types: that of its `>`, and the other way round.
    pub node: usize,
    /// The gap before it: at first that on one line, and that in the text once lines are broken.
    pub gap: White,
    pub kind: Kind,
    pub role: Role,
    /// Whether its last mark is Joint, so that no gap may follow.
    pub glued: bool,
    /// Whether it needs several lines.
    pub tall: bool,
    /// Whether a statement, an item or an arm of a list in braces ends with it.
    pub ends: bool,
}

/// No atom.
pub static NOTHING: Atom = Atom {
    width: 0,
    offset: 0,
    tall_before: 0,
    node: 0,
    gap: White::Nothing,
    kind: Kind::Nothing,
    role: Role::Plain,
    glued: false,
    tall: false,
    ends: false,
};

impl Atom {
    /// An atom with no role yet.
    #[inline(always)]
    pub fn new(kind: Kind, width: usize) -> Atom {
        Atom {
            width,
            offset: 0,
            tall_before: 0,
            node: 0,
            gap: White::Nothing,
            kind,
            role: Role::Plain,
            glued: false,
            tall: false,
            ends: false,
        }
    }

    /// The number of its tokens. A group counts as its opener.
    pub fn tokens(&self) -> usize {
        match self.kind {
            Kind::Lexeme(Lexeme::Lifetime) => 2,
            Kind::Sign(_) => self.width,
            _ => 1,
        }
    }

    pub fn is_word(&self, word: Lexeme) -> bool {
        matches!(self.kind, Kind::Lexeme(own) if own == word)
    }

    pub fn is_any_word(&self) -> bool {
        matches!(self.kind, Kind::Lexeme(_))
    }

    /// Whether it is this mark.
    pub fn is_mark(&self, mark: char) -> bool {
        matches!(self.kind, Kind::Sign(Sign::One(own)) if own == mark)
    }

    pub fn is_sign(&self) -> bool {
        matches!(self.kind, Kind::Sign(_))
    }

    pub fn is_group(&self) -> bool {
        matches!(self.kind, Kind::Group(_))
    }

    pub fn is_brace(&self) -> bool {
        matches!(self.kind, Kind::Group(Delimiter::Brace))
    }

    pub fn is_round(&self) -> bool {
        matches!(self.kind, Kind::Group(Delimiter::Parenthesis))
    }

    /// Whether it is a group, but not in braces.
    pub fn is_list(&self) -> bool {
        self.is_group() && !self.is_brace()
    }

    /// Whether it is a group with atoms, in a list that is measured.
    pub fn is_full(&self) -> bool {
        self.is_group() && self.width > 2
    }

    /// Whether it is the braces of an item, or of a head such as `if a`.
    pub fn is_body(&self) -> bool {
        matches!(self.role, Role::Block | Role::Branch)
    }

    /// Whether a space is before it on one line.
    pub fn is_spaced(&self) -> bool {
        matches!(self.gap, White::Space)
    }

    /// Whether it is a comma or a semicolon.
    pub fn ends_part(&self) -> bool {
        matches!(self.role, Role::Comma | Role::Semicolon)
    }

    /// Whether it is a word, but not a keyword.
    pub fn is_name(&self) -> bool {
        match self.kind {
            Kind::Lexeme(Lexeme::Name | Lexeme::Fragment | Lexeme::Literal) => true,
            Kind::Lexeme(Lexeme::String | Lexeme::Lifetime | Lexeme::Derive) => true,
            _ => false,
        }
    }

    /// Whether an operator after it has two sides.
    pub fn is_value(&self) -> bool {
        match self.kind {
            Kind::Lexeme(_) => self.is_name(),
            Kind::Group(_) => self.role != Role::Attribute,
            _ => self.role == Role::Greater || self.role == Role::After,
        }
    }
}

/// Returns what an identifier with this text is.
pub fn word_of(text: &str) -> Lexeme {
    match text.as_bytes() {
        b"as" => Lexeme::As,
        b"derive" => Lexeme::Derive,
        b"else" => Lexeme::Else,
        b"extern" => Lexeme::Extern,
        b"fn" => Lexeme::Fn,
        b"for" => Lexeme::For,
        b"if" => Lexeme::If,
        b"impl" => Lexeme::Impl,
        b"in" => Lexeme::In,
        b"let" => Lexeme::Let,
        b"loop" => Lexeme::Loop,
        b"macro_rules" => Lexeme::MacroRules,
        b"match" => Lexeme::Match,
        b"enum" | b"mod" | b"struct" | b"trait" => Lexeme::Item,
        b"async" | b"const" | b"move" | b"mut" | b"static" | b"unsafe" => Lexeme::Prefix,
        b"pub" => Lexeme::Pub,
        b"break" | b"return" | b"yield" => Lexeme::Return,
        b"where" => Lexeme::Where,
        b"while" => Lexeme::While,
        b"continue" | b"dyn" | b"ref" | b"type" | b"use" => Lexeme::Keyword,
        b"block" | b"expr" | b"ident" | b"item" | b"lifetime" | b"literal" => Lexeme::Fragment,
        b"meta" | b"pat" | b"path" | b"stmt" | b"tt" | b"ty" | b"vis" => Lexeme::Fragment,
        _ => Lexeme::Name,
    }
}
