//! The signs of trees. A sign is one tree, or two trees that are read as one.
ghost use Rattle.std.specs.Prelude.{◌≡◌, [], MatchOption, get_or, nat_eq};
ghost use Rattle.std.specs.Cmp.Lexicographic.{pointwise};
ghost use Rattle.pm_token.specs.Spelling.{name_text, spelled, spelling};
ghost use Rattle.pm_stream.specs.Trees.{forest};
ghost use Rattle.declarations.specs.Signs.{BeginsWith, group_class, held_class, held_group, is_early_keyword};
ghost use Rattle.declarations.specs.Signs.{is_late_keyword, is_pub, is_restriction, is_truth, is_visibility};
ghost use Rattle.declarations.specs.Signs.{item_keyword, joint_class, keyword_of, loose_class, mark_class};
ghost use Rattle.declarations.specs.Signs.{marks_class, may_restrict};
ghost use Rattle.declarations.specs.Signs.{name_class, operand_class, operator_class, pair_class, path_class};
ghost use Rattle.declarations.specs.Signs.{restricts, restricts_in, tree_class, type_keyword, unseen_class, word_of};

use crate::bare::innermost;
use item_tables::class::{Keyword, SignClass, Word};
use pm_stream::{Group, TokenStream, TokenTree};
use pm_token::{Delimiter, Ident, Spacing};

/// Returns the class of the first sign, and the trees after this sign. Returns `None` if there are no trees.
///
/// `::`, `->`, `<=` and `||` are one sign if the first mark is `Joint`. A `'` and an identifier are one sign, and so
/// are `#` and `!`. Every other tree is a sign of its own. A group without delimiters that holds a visibility, a
/// lifetime or a literal has the class of what it holds. If it holds only braces, its class is `Block`. If it holds one
/// group without delimiters alone, the innermost of these groups decides.
///
/// The call takes O(1) time, and for groups without delimiters in one another time in proportion to their number. It
/// allocates nothing.
pub fn first_sign<'a>(trees: &'a [TokenTree]) -> Option<(SignClass, &'a [TokenTree])>
    ensures { MatchOption result (trees.now ≡ []) (λ sign. BeginsWith trees.now sign.0 sign.1.now) }
{
    let (first, rest) = trees.split_first()?;
    let Some((second, after)) = rest.split_first() else {
        return Some((tree_class(first), rest));
    };
    match pair_class(first, second) {
        Some(class) => Some((class, after)),
        None => Some((tree_class(first), rest)),
    }
}

/// The class of two trees that are read as one sign, or `None`.
fn pair_class(first: &TokenTree, second: &TokenTree) -> Option<SignClass>
    ensures { result ≡ pair_class first.now second.now }
{
    let TokenTree::Punct(mark) = first else {
        return None;
    };
    match second {
        TokenTree::Punct(next) => {
            if mark.spacing() == Spacing::Joint {
                joint_class(mark.as_char(), next.as_char())
            } else {
                loose_class(mark.as_char(), next.as_char())
            }
        }
        TokenTree::Ident(_) => {
            if mark.as_char() == '\'' {
                Some(SignClass::Lifetime)
            } else {
                None
            }
        }
        TokenTree::Group(_) | TokenTree::Literal(_) => None,
    }
}

/// The class of two marks that are read as one sign, whatever the spacing of the first is.
fn loose_class(first: char, second: char) -> Option<SignClass>
    ensures { result ≡ loose_class first second }
{
    if first == '#' && second == '!' {
        return Some(SignClass::HashBang);
    }
    None
}

/// The class of two marks that are read as one sign, if the first is `Joint`.
fn joint_class(first: char, second: char) -> Option<SignClass>
    ensures { result ≡ joint_class first second }
{
    if let Some(class) = marks_class(first, second) {
        return Some(class);
    }
    loose_class(first, second)
}

/// The class of two marks that are read as one sign only if the first is `Joint`.
fn marks_class(first: char, second: char) -> Option<SignClass>
    ensures { result ≡ marks_class first second }
{
    if first == ':' && second == ':' {
        return Some(SignClass::PathSeparator);
    }
    if first == '-' && second == '>' {
        return Some(SignClass::Arrow);
    }
    if first == '<' && second == '=' {
        return Some(SignClass::LessEquals);
    }
    if first == '|' && second == '|' {
        return Some(SignClass::Bars);
    }
    None
}

fn tree_class(tree: &TokenTree) -> SignClass
    ensures { result ≡ tree_class tree.now }
{
    match tree {
        TokenTree::Group(group) => group_class(group),
        TokenTree::Ident(ident) => name_class(ident),
        TokenTree::Punct(punct) => mark_class(punct.as_char(), punct.spacing() == Spacing::Joint),
        TokenTree::Literal(_) => SignClass::Literal,
    }
}

pub(crate) fn group_class(group: &Group) -> SignClass
    ensures { result ≡ group_class group.now.delimiter group.now.stream }
{
    match group.delimiter() {
        Delimiter::Parenthesis => {
            if is_restriction(group.stream_ref()) {
                SignClass::Restriction
            } else {
                SignClass::Parentheses
            }
        }
        Delimiter::Bracket => SignClass::Brackets,
        Delimiter::Brace => SignClass::Braces,
        Delimiter::None => unseen_class(group.stream_ref()),
    }
}

/// The class of a group without delimiters, in which a `macro_rules!` macro passes a fragment.
fn unseen_class(inside: &TokenStream) -> SignClass
    ensures { result ≡ unseen_class inside.now }
{
    let held = innermost(inside);
    if is_visibility(held) {
        return SignClass::Visibility;
    }
    held_class(held.trees())
}

/// The class of trees in a group without delimiters that are no visibility.
fn held_class(trees: &[TokenTree]) -> SignClass
    ensures { result ≡ held_class trees.now }
{
    match trees {
        [TokenTree::Group(group)] => held_group(group),
        [TokenTree::Literal(_)] => SignClass::Literal,
        [TokenTree::Punct(mark), TokenTree::Ident(_)] if mark.as_char() == '\'' =>
            SignClass::Lifetime,
        _ => SignClass::Invisible,
    }
}

/// The class of a group without delimiters that holds only this group.
fn held_group(group: &Group) -> SignClass
    ensures { result ≡ held_group group.now.delimiter }
{
    match group.delimiter() {
        Delimiter::Brace => SignClass::Block,
        Delimiter::Parenthesis | Delimiter::Bracket | Delimiter::None => SignClass::Invisible,
    }
}

/// Whether the trees are a visibility: no trees, or `pub` with a restriction or without.
fn is_visibility(inside: &TokenStream) -> bool
    ensures { result ≡ is_visibility inside.now }
{
    let Some((first, rest)) = inside.trees().split_first() else {
        return true;
    };
    match first {
        TokenTree::Ident(ident) => is_pub(ident, may_restrict(rest)),
        TokenTree::Group(_) | TokenTree::Punct(_) | TokenTree::Literal(_) => false,
    }
}

/// Whether the identifier is `pub`, and what follows belongs to it.
fn is_pub(ident: &Ident, belongs: bool) -> bool
    ensures { result ≡ is_pub ident.now belongs }
{
    ident.eq_str("pub") && belongs
}

/// Whether the trees after `pub` are a restriction or none.
fn may_restrict(trees: &[TokenTree]) -> bool
    ensures { result ≡ may_restrict (forest trees.now) }
{
    let Some((first, rest)) = trees.split_first() else {
        return true;
    };
    match first {
        TokenTree::Group(group) => restricts_in(group, rest.is_empty()),
        TokenTree::Ident(_) | TokenTree::Punct(_) | TokenTree::Literal(_) => false,
    }
}

/// Whether the group restricts `pub`. It must be the last tree.
fn restricts_in(group: &Group, last: bool) -> bool
    ensures { result ≡ restricts_in group.now.delimiter group.now.stream last }
{
    match group.delimiter() {
        Delimiter::Parenthesis => last && is_restriction(group.stream_ref()),
        Delimiter::Bracket | Delimiter::Brace | Delimiter::None => false,
    }
}

/// Whether trees in parentheses restrict `pub`: `crate`, `self` or `super` alone, or `in` and more trees.
fn is_restriction(inside: &TokenStream) -> bool
    ensures { result ≡ is_restriction inside.now }
{
    let Some((first, rest)) = inside.trees().split_first() else {
        return false;
    };
    match first {
        TokenTree::Ident(ident) => restricts(ident, rest.is_empty()),
        TokenTree::Group(_) | TokenTree::Punct(_) | TokenTree::Literal(_) => false,
    }
}

/// Whether an identifier in parentheses restricts `pub`. `alone` says that it is the only tree there.
fn restricts(ident: &Ident, alone: bool) -> bool
    ensures { result ≡ restricts ident.now alone }
{
    ident.eq_str("in")
        || (alone && (ident.eq_str("crate") || ident.eq_str("self") || ident.eq_str("super")))
}

fn mark_class(mark: char, joint: bool) -> SignClass
    ensures { result ≡ mark_class mark joint }
{
    match mark {
        '<' if joint => SignClass::LessJoint,
        '<' => SignClass::Less,
        '>' => SignClass::Greater,
        ',' => SignClass::Comma,
        ':' => SignClass::Colon,
        ';' => SignClass::Semicolon,
        '=' => SignClass::Equals,
        '+' => SignClass::Plus,
        '-' => SignClass::Minus,
        '*' => SignClass::Star,
        '&' => SignClass::And,
        '?' => SignClass::Question,
        '!' => SignClass::Exclamation,
        '#' => SignClass::Hash,
        '~' => SignClass::Tilde,
        _ => operator_class(mark),
    }
}

/// The class of a mark that occurs only in expressions.
fn operator_class(mark: char) -> SignClass
    ensures { result ≡ operator_class mark }
{
    match mark {
        '|' => SignClass::Bar,
        '.' => SignClass::Dot,
        '/' | '%' | '^' | '@' => SignClass::Infix,
        _ => SignClass::Mark,
    }
}

/// The class of an identifier. Each test compares the first byte first, so the compiler can make one jump by that byte.
pub(crate) fn name_class(ident: &Ident) -> SignClass
    ensures { result ≡ name_class ident.now }
{
    let first = ident.first_byte();
    if let Some(class) = path_class(ident, first) {
        return class;
    }
    if let Some(class) = operand_class(ident, first) {
        return class;
    }
    match keyword_of(ident, first) {
        Some(keyword) => SignClass::Keyword(keyword),
        None => SignClass::Word(word_of(ident, first)),
    }
}

/// Whether the identifier is this text. `first` is the first byte of the identifier.
#[inline(always)]
fn is_written(ident: &Ident, first: u8, text: &str) -> bool
    requires { first ≡ get_or (spelling ident.now) 0 0 }
    ensures { result ≡ pointwise nat_eq (name_text ident.now) (spelled text.now) }
{
    match text.as_bytes().split_first() {
        Some((byte, _)) => *byte == first && ident.eq_str(text),
        None => ident.eq_str(text),
    }
}

/// The class of a keyword that can be in a path.
#[inline(always)]
fn path_class(ident: &Ident, first: u8) -> Option<SignClass>
    requires { first ≡ get_or (spelling ident.now) 0 0 }
    ensures { result ≡ path_class ident.now }
{
    if is_written(ident, first, "self") {
        return Some(SignClass::SelfValue);
    }
    if is_written(ident, first, "Self") {
        return Some(SignClass::SelfType);
    }
    if is_written(ident, first, "super") {
        return Some(SignClass::Super);
    }
    if is_written(ident, first, "crate") {
        return Some(SignClass::Crate);
    }
    if is_written(ident, first, "_") {
        return Some(SignClass::Underscore);
    }
    None
}

/// The class of a keyword that is an operand, or that can come before or after an operand.
#[inline(always)]
fn operand_class(ident: &Ident, first: u8) -> Option<SignClass>
    requires { first ≡ get_or (spelling ident.now) 0 0 }
    ensures { result ≡ operand_class ident.now }
{
    if is_truth(ident, first) {
        return Some(SignClass::Truth);
    }
    if is_written(ident, first, "as") {
        return Some(SignClass::As);
    }
    if is_written(ident, first, "await") {
        return Some(SignClass::Await);
    }
    if is_written(ident, first, "continue")
        || is_written(ident, first, "return")
        || is_written(ident, first, "break")
        || is_written(ident, first, "yield")
    {
        return Some(SignClass::Jump);
    }
    None
}

#[inline(always)]
fn is_truth(ident: &Ident, first: u8) -> bool
    requires { first ≡ get_or (spelling ident.now) 0 0 }
    ensures { result ≡ is_truth ident.now }
{
    is_written(ident, first, "true") || is_written(ident, first, "false")
}

#[inline(always)]
fn keyword_of(ident: &Ident, first: u8) -> Option<Keyword>
    requires { first ≡ get_or (spelling ident.now) 0 0 }
    ensures { result ≡ keyword_of ident.now }
{
    if let Some(keyword) = item_keyword(ident, first) {
        return Some(keyword);
    }
    if let Some(keyword) = type_keyword(ident, first) {
        return Some(keyword);
    }
    if is_early_keyword(ident, first) || is_late_keyword(ident, first) {
        Some(Keyword::Other)
    } else {
        None
    }
}

/// The keyword, if it only begins items or their parts.
#[inline(always)]
fn item_keyword(ident: &Ident, first: u8) -> Option<Keyword>
    requires { first ≡ get_or (spelling ident.now) 0 0 }
    ensures { result ≡ item_keyword ident.now }
{
    if is_written(ident, first, "struct") {
        return Some(Keyword::Struct);
    }
    if is_written(ident, first, "enum") {
        return Some(Keyword::Enum);
    }
    if is_written(ident, first, "static") {
        return Some(Keyword::Static);
    }
    if is_written(ident, first, "trait") {
        return Some(Keyword::Trait);
    }
    if is_written(ident, first, "type") {
        return Some(Keyword::Type);
    }
    if is_written(ident, first, "mod") {
        return Some(Keyword::Mod);
    }
    if is_written(ident, first, "macro") {
        return Some(Keyword::Macro);
    }
    if is_written(ident, first, "pub") {
        return Some(Keyword::Pub);
    }
    if is_written(ident, first, "where") {
        return Some(Keyword::Where);
    }
    None
}

/// The keyword, if it can come before the operand of a type.
#[inline(always)]
fn type_keyword(ident: &Ident, first: u8) -> Option<Keyword>
    requires { first ≡ get_or (spelling ident.now) 0 0 }
    ensures { result ≡ type_keyword ident.now }
{
    if is_written(ident, first, "mut") {
        return Some(Keyword::Mut);
    }
    if is_written(ident, first, "const") {
        return Some(Keyword::Const);
    }
    if is_written(ident, first, "extern") {
        return Some(Keyword::Extern);
    }
    if is_written(ident, first, "for") {
        return Some(Keyword::For);
    }
    if is_written(ident, first, "dyn") {
        return Some(Keyword::Dyn);
    }
    if is_written(ident, first, "impl") {
        return Some(Keyword::Impl);
    }
    if is_written(ident, first, "unsafe") {
        return Some(Keyword::Unsafe);
    }
    if is_written(ident, first, "async") {
        return Some(Keyword::Async);
    }
    if is_written(ident, first, "fn") {
        return Some(Keyword::Fn);
    }
    if is_written(ident, first, "use") {
        return Some(Keyword::Use);
    }
    None
}

/// The keywords that no rule names, from `abstract` to `let`.
#[inline(always)]
fn is_early_keyword(ident: &Ident, first: u8) -> bool
    requires { first ≡ get_or (spelling ident.now) 0 0 }
    ensures { result ≡ is_early_keyword ident.now }
{
    is_written(ident, first, "abstract")
        || is_written(ident, first, "become")
        || is_written(ident, first, "box")
        || is_written(ident, first, "do")
        || is_written(ident, first, "else")
        || is_written(ident, first, "final")
        || is_written(ident, first, "if")
        || is_written(ident, first, "in")
        || is_written(ident, first, "let")
}

#[inline(always)]
fn is_late_keyword(ident: &Ident, first: u8) -> bool
    requires { first ≡ get_or (spelling ident.now) 0 0 }
    ensures { result ≡ is_late_keyword ident.now }
{
    is_written(ident, first, "loop")
        || is_written(ident, first, "match")
        || is_written(ident, first, "move")
        || is_written(ident, first, "override")
        || is_written(ident, first, "priv")
        || is_written(ident, first, "ref")
        || is_written(ident, first, "typeof")
        || is_written(ident, first, "unsized")
        || is_written(ident, first, "virtual")
        || is_written(ident, first, "while")
}

#[inline(always)]
fn word_of(ident: &Ident, first: u8) -> Word
    requires { first ≡ get_or (spelling ident.now) 0 0 }
    ensures { result ≡ word_of ident.now }
{
    if is_written(ident, first, "auto") {
        return Word::Auto;
    }
    if is_written(ident, first, "default") {
        return Word::Default;
    }
    if is_written(ident, first, "gen") {
        return Word::Gen;
    }
    if is_written(ident, first, "safe") {
        return Word::Safe;
    }
    if is_written(ident, first, "union") {
        return Word::Union;
    }
    Word::Plain
}
