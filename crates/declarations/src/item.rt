//! Structs, enums and unions, as a derive macro gets them.
ghost use Rattle.std.specs.Prelude.{◌≡◌, ◌∷◌, [], IfErr, IfNone, IfOk, IfSome, List, MatchResult};
ghost use Rattle.pm_stream.specs.declared.stream.Group.{Group as Grouped};
ghost use Rattle.pm_stream.specs.declared.stream.TokenTree.{TokenTree as Tree};
ghost use Rattle.pm_stream.specs.declared.stream.TokenTree.TheVariants as trees_are;
ghost use Rattle.pm_token.specs.Leaf.{Name};
ghost use Rattle.declarations.specs.Expected.{Expects};
ghost use Rattle.declarations.specs.Fault.{extent_at};
ghost use Rattle.declarations.specs.Forms.{IsItem};
ghost use Rattle.declarations.specs.Item.{IsTypeItem};
ghost use Rattle.declarations.specs.ItemParts.{HasBodyAt, HasClauseEnd, HasDeclared, HasEnd, HasNamed, IsKeywordAt};
ghost use Rattle.declarations.specs.ItemParts.{IsSemicolonAt, class_of, clause_end, declared_by, end_of, from_name};
ghost use Rattle.declarations.specs.ItemParts.{item_rest, plain_end};
ghost use Rattle.declarations.specs.Reader.{Finds, Sticks};
ghost use Rattle.declarations.specs.Reading.{FaultAt};
ghost use Rattle.declarations.specs.Whole.{IsWhole};
ghost use Rattle.declarations.specs.rules.Bodies.{body_end, semicolon, struct_rest, where_and_body};
ghost use Rattle.declarations.specs.rules.Items.{type_item, type_keyword};
ghost use Rattle.item_tables.specs.declared.class.SignClass.TheVariants as classes;
ghost use Rattle.item_tables.specs.declared.class.Keyword.TheVariants as keywords;
ghost use Rattle.item_tables.specs.declared.class.Word.TheVariants as words;

use crate::explore::fault_by;
use crate::fault::Fault;
use crate::front::front_of;
use crate::function::{name_of, past_generics, past_where};
use crate::implementation::end_of as braces_of;
use crate::item_syntax::TYPE_ITEM;
use crate::reader::{is, part};
use crate::signs::{first_sign, name_class};
use item_tables::class::{Keyword, SignClass, Word};
use pm_stream::{Group, TokenTree};
use pm_token::{Delimiter, Ident};

/// A struct, an enum or a union, split into its parts.
///
/// The parts are in reading order, except that the fields of a tuple struct come before its where clause. A
/// `macro_rules!` macro passes a visibility (`$vis`) as a group without delimiters, which may be empty. Such a group is
/// the visibility of the item.
#[derive(Clone, Copy, Debug)]
pub struct TypeItem<'a> {
    /// The outer attributes, perhaps none.
    pub attributes: &'a [TokenTree],
    /// The visibility: `pub` with its restriction, one group without delimiters, or no trees.
    pub visibility: &'a [TokenTree],
    /// The keyword: `struct`, `enum` or `union`.
    pub keyword: &'a Ident,
    /// The name of the type.
    pub name: &'a Ident,
    /// The generic parameters with their angle brackets, or no trees.
    pub generics: &'a [TokenTree],
    /// The where clause with its `where`, or no trees.
    pub where_clause: &'a [TokenTree],
    /// The fields or the variants.
    pub body: Body<'a>,
    /// The `;` of a struct without braces, or no trees.
    pub semicolon: &'a [TokenTree],
}

/// The body of a struct, an enum or a union.
#[derive(Clone, Copy, Debug)]
pub enum Body<'a> {
    /// A struct with these fields.
    Struct(Fields<'a>),
    /// An enum with its variants in these braces.
    Enum(&'a Group),
    /// A union with its fields in these braces.
    Union(&'a Group),
}

/// The fields of a struct or a variant.
#[derive(Clone, Copy, Debug)]
pub enum Fields<'a> {
    /// Fields with names, in braces.
    Named(&'a Group),
    /// Fields without names, in parentheses.
    Tuple(&'a Group),
    /// No fields and no delimiters.
    Unit,
}

/// Splits a struct, an enum or a union into its parts. The item must be all of the trees.
///
/// It returns `Ok` exactly if [`split_item`](crate::split_item) reads all of the trees. Otherwise it
/// returns a `Fault` at the first tree that does not fit or is too many, or at the end if trees are missing. The trees
/// inside the braces or parentheses of the body are not read. For a group without delimiters that holds a whole item
/// it returns a `Fault`: pass the trees in that group instead. It allocates nothing.
///
/// For `pub struct S<T>(T) where T: A;` the visibility is `pub`, the name is `S`, the generic parameters are `<T>`, the
/// fields are `(T)`, and the where clause is `where T: A`.
#[tactic(auto, using(crate::proofs::ItemLemmas::promises))]
pub fn parse_type_item(trees: &[TokenTree]) -> Result<TypeItem<'_>, Fault>
    ensures ok { IfOk result (λ item. IsTypeItem trees.now item) }
    ensures fault { IfErr result (λ fault. FaultAt (IsWhole IsItem) trees.now fault.at) }
    ensures span { IfErr result (λ fault. fault.span ≡ extent_at trees.now fault.at) }
    ensures expected { IfErr result (λ fault. Expects IsItem trees.now fault.at fault.expected) }
{
    match item_of(trees) {
        Ok((item, rest)) => {
            if rest.is_empty() {
                Ok(item)
            } else {
                Err(fault_by(&TYPE_ITEM, trees, rest))
            }
        }
        Err(left) => Err(fault_by(&TYPE_ITEM, trees, left)),
    }
}

/// Reads an item. Returns it and the trees after it, or the trees from the error on.
#[tactic(auto, using(crate::proofs::ItemLemmas::items))]
pub(crate) fn item_of(trees: &[TokenTree]) -> Result<(TypeItem<'_>, &[TokenTree]), &[TokenTree]>
    ensures { MatchResult result (λ found. Finds type_item trees.now found.1.now
        × (found.1.now ≡ [] → IsTypeItem trees.now found.0)) (λ left. Sticks type_item trees.now left.now) }
{
    match front_of(trees) {
        Ok((front, from_keyword)) => match declared_of(from_keyword) {
            Ok((keyword, named, rest)) => {
                let item = TypeItem {
                    attributes: front.attributes,
                    visibility: front.visibility,
                    keyword,
                    name: named.name,
                    generics: named.generics,
                    where_clause: named.end.where_clause,
                    body: named.end.body,
                    semicolon: named.end.semicolon,
                };
                Ok((item, rest))
            }
            Err(left) => Err(left),
        },
        Err(left) => Err(left),
    }
}

// ---- the keyword, the name and the generic parameters

/// What the keyword of an item declares.
#[derive(Clone, Copy)]
enum Declared {
    /// `struct`
    Struct,
    /// `enum`
    Enum,
    /// `union`
    Union,
}

/// The parts of an item after its keyword.
#[derive(Clone, Copy)]
struct Named<'a> {
    name: &'a Ident,
    generics: &'a [TokenTree],
    end: End<'a>,
}

/// The parts of an item after its generic parameters.
#[derive(Clone, Copy)]
struct End<'a> {
    where_clause: &'a [TokenTree],
    body: Body<'a>,
    semicolon: &'a [TokenTree],
}

/// Reads an item from its keyword on. Returns the keyword, the parts after it, and the trees after the item.
#[tactic(auto, using(crate::proofs::ItemLemmas::declarations))]
fn declared_of(trees: &[TokenTree]) -> Result<(&Ident, Named<'_>, &[TokenTree]), &[TokenTree]>
    ensures { MatchResult result (λ found. Finds item_rest trees.now found.2.now
        × HasDeclared trees.now found.0.now found.1 found.2.now) (λ left. Sticks item_rest trees.now left.now) }
{
    match keyword_of(trees) {
        Ok((keyword, declared, from_name)) => match named_of(declared, from_name) {
            Ok((named, rest)) => Ok((keyword, named, rest)),
            Err(left) => Err(left),
        },
        Err(left) => Err(left),
    }
}

/// What a sign of this class declares.
fn declared_by(class: SignClass) -> Option<Declared>
    ensures { result ≡ declared_by class }
{
    match class {
        SignClass::Keyword(Keyword::Struct) => Some(Declared::Struct),
        SignClass::Keyword(Keyword::Enum) => Some(Declared::Enum),
        SignClass::Word(Word::Union) => Some(Declared::Union),
        _ => None,
    }
}

/// Reads the keyword of an item. Returns it, what it declares, and the trees after it.
#[tactic(auto, using(crate::proofs::ItemLemmas::keywords_of))]
fn keyword_of(trees: &[TokenTree]) -> Result<(&Ident, Declared, &[TokenTree]), &[TokenTree]>
    ensures { MatchResult result (λ found. IsKeywordAt trees.now found.0.now found.1 found.2.now)
        (λ left. Sticks type_keyword trees.now left.now) }
{
    match split_name(trees) {
        Ok((keyword, rest)) => match declared_by(name_class(keyword)) {
            Some(declared) => Ok((keyword, declared, rest)),
            None => Err(trees),
        },
        Err(_) => Err(trees),
    }
}

/// Reads an item from its name on. Returns the parts and the trees after them.
#[tactic(auto, using(crate::proofs::ItemLemmas::named))]
fn named_of(
    declared: Declared,
    trees: &[TokenTree],
) -> Result<(Named<'_>, &[TokenTree]), &[TokenTree]>
    ensures { MatchResult result (λ found. Finds (from_name declared) trees.now found.1.now
        × HasNamed declared trees.now found.0 found.1.now)
        (λ left. Sticks (from_name declared) trees.now left.now) }
{
    match name_of(trees) {
        Ok((name, from_generics)) => match past_generics(from_generics) {
            Ok(from_end) => match end_of(declared, from_end) {
                Ok((end, rest)) => {
                    let generics = part(from_generics, from_end);
                    Ok((
                        Named {
                            name,
                            generics,
                            end,
                        },
                        rest,
                    ))
                }
                Err(left) => Err(left),
            },
            Err(left) => Err(left),
        },
        Err(left) => Err(left),
    }
}

// ---- after the generic parameters

/// Reads what comes after the generic parameters. Returns the parts and the trees after them.
fn end_of(declared: Declared, trees: &[TokenTree]) -> Result<(End<'_>, &[TokenTree]), &[TokenTree]>
    ensures { MatchResult result (λ found. Finds (end_of declared) trees.now found.1.now
        × HasEnd (class_of declared) trees.now found.0.body found.0.where_clause.now found.0.semicolon.now found.1.now)
        (λ left. Sticks (end_of declared) trees.now left.now) }
{
    match declared {
        Declared::Struct => struct_end(trees),
        Declared::Enum => enum_end(trees),
        Declared::Union => union_end(trees),
    }
}

/// Reads what comes after the generic parameters of an enum. Returns the parts and the trees after them.
#[tactic(auto, using(crate::proofs::ItemLemmas::enum_has))]
fn enum_end(trees: &[TokenTree]) -> Result<(End<'_>, &[TokenTree]), &[TokenTree]>
    ensures { MatchResult result (λ found. Finds where_and_body trees.now found.1.now
        × HasEnd (classes.Keyword keywords.Enum) trees.now found.0.body found.0.where_clause.now
        found.0.semicolon.now found.1.now) (λ left. Sticks where_and_body trees.now left.now) }
{
    match braces_of(trees) {
        Ok((braces, rest)) => {
            let end = End {
                where_clause: braces.where_clause,
                body: Body::Enum(braces.body),
                semicolon: &[],
            };
            Ok((end, rest))
        }
        Err(left) => Err(left),
    }
}

/// Reads what comes after the generic parameters of a union. Returns the parts and the trees after them.
#[tactic(auto, using(crate::proofs::ItemLemmas::union_has))]
fn union_end(trees: &[TokenTree]) -> Result<(End<'_>, &[TokenTree]), &[TokenTree]>
    ensures { MatchResult result (λ found. Finds where_and_body trees.now found.1.now
        × HasEnd (classes.Word words.Union) trees.now found.0.body found.0.where_clause.now
        found.0.semicolon.now found.1.now) (λ left. Sticks where_and_body trees.now left.now) }
{
    match braces_of(trees) {
        Ok((braces, rest)) => {
            let end = End {
                where_clause: braces.where_clause,
                body: Body::Union(braces.body),
                semicolon: &[],
            };
            Ok((end, rest))
        }
        Err(left) => Err(left),
    }
}

/// Reads what comes after the generic parameters of a struct. Returns the parts and the trees after them.
fn struct_end(trees: &[TokenTree]) -> Result<(End<'_>, &[TokenTree]), &[TokenTree]>
    ensures { MatchResult result (λ found. Finds struct_rest trees.now found.1.now
        × HasEnd (classes.Keyword keywords.Struct) trees.now found.0.body found.0.where_clause.now
        found.0.semicolon.now found.1.now) (λ left. Sticks struct_rest trees.now left.now) }
{
    match split_parentheses(trees) {
        Some((fields, from_clause)) => match clause_end_of(from_clause) {
            Ok((where_clause, semicolon, rest)) => {
                let end = End {
                    where_clause,
                    body: Body::Struct(Fields::Tuple(fields)),
                    semicolon,
                };
                Ok((end, rest))
            }
            Err(left) => Err(left),
        },
        None => plain_end(trees),
    }
}

/// Reads a where clause and `;`. Returns both and the trees after them.
#[tactic(auto, using(crate::proofs::ItemLemmas::clause_ends))]
fn clause_end_of(
    trees: &[TokenTree],
) -> Result<(&[TokenTree], &[TokenTree], &[TokenTree]), &[TokenTree]>
    ensures { MatchResult result (λ found. Finds clause_end trees.now found.2.now
        × HasClauseEnd trees.now found.0.now found.1.now found.2.now) (λ left. Sticks clause_end trees.now left.now) }
{
    match past_where(trees) {
        Ok(from_semicolon) => match semicolon_of(from_semicolon) {
            Ok((semicolon, rest)) => Ok((part(trees, from_semicolon), semicolon, rest)),
            Err(left) => Err(left),
        },
        Err(left) => Err(left),
    }
}

/// Reads the end of a struct that has no fields in parentheses. Returns the parts and the trees after them.
#[tactic(auto, using(crate::proofs::ItemLemmas::plain_ends))]
fn plain_end(trees: &[TokenTree]) -> Result<(End<'_>, &[TokenTree]), &[TokenTree]>
    ensures { MatchResult result (λ found. Finds plain_end trees.now found.1.now
        × HasEnd (classes.Keyword keywords.Struct) trees.now found.0.body found.0.where_clause.now
        found.0.semicolon.now found.1.now) (λ left. Sticks plain_end trees.now left.now) }
{
    match past_where(trees) {
        Ok(from_body) => match body_of(from_body) {
            Ok((fields, semicolon, rest)) => {
                let end = End {
                    where_clause: part(trees, from_body),
                    body: Body::Struct(fields),
                    semicolon,
                };
                Ok((end, rest))
            }
            Err(left) => Err(left),
        },
        Err(left) => Err(left),
    }
}

/// Reads braces or `;`. Returns the fields in the braces, the `;`, and the trees after them.
#[tactic(auto, using(crate::proofs::ItemLemmas::bodies_of))]
fn body_of(trees: &[TokenTree]) -> Result<(Fields<'_>, &[TokenTree], &[TokenTree]), &[TokenTree]>
    ensures { MatchResult result (λ found. Finds body_end trees.now found.2.now
        × HasBodyAt trees.now found.0 found.1.now found.2.now) (λ left. Sticks body_end trees.now left.now) }
{
    match split_braces(trees) {
        Some((group, rest)) => Ok((Fields::Named(group), &[], rest)),
        None => match semicolon_of(trees) {
            Ok((semicolon, rest)) => Ok((Fields::Unit, semicolon, rest)),
            Err(left) => Err(left),
        },
    }
}

/// Reads `;`. Returns it and the trees after it.
fn semicolon_of(trees: &[TokenTree]) -> Result<(&[TokenTree], &[TokenTree]), &[TokenTree]>
    ensures { MatchResult result (λ found. Finds semicolon trees.now found.1.now
        × IsSemicolonAt trees.now found.0.now found.1.now) (λ left. Sticks semicolon trees.now left.now) }
{
    match first_sign(trees) {
        Some((class, rest)) => {
            if is(SignClass::Semicolon, class) {
                Ok((part(trees, rest), rest))
            } else {
                Err(trees)
            }
        }
        None => Err(trees),
    }
}

// ---- single trees

/// The identifier that the trees begin with, and the trees after it.
pub(crate) fn split_name(trees: &[TokenTree]) -> Result<(&Ident, &[TokenTree]), Fault>
    ensures found { IfOk result (λ found. trees.now ≡ trees_are.Ident found.0.now ∷ found.1.now) }
    ensures fault { IfErr result (λ fault. (name : Name) → (rest : List Tree)
        → trees.now ≡ trees_are.Ident name ∷ rest → ⊥) }
{
    match trees.split_first() {
        Some((TokenTree::Ident(name), rest)) => Ok((name, rest)),
        _ => Err(Fault::ahead_of(0, trees)),
    }
}

/// The group that the trees begin with, and the trees after it.
pub(crate) fn split_group(trees: &[TokenTree]) -> Option<(&Group, &[TokenTree])>
    ensures found { IfSome result (λ found. trees.now ≡ trees_are.Group found.0.now ∷ found.1.now) }
    ensures none { IfNone result ((group : Grouped) → (rest : List Tree)
        → trees.now ≡ trees_are.Group group ∷ rest → ⊥) }
{
    match trees.split_first() {
        Some((TokenTree::Group(group), rest)) => Some((group, rest)),
        _ => None,
    }
}

/// The group in parentheses that the trees begin with, and the trees after it.
pub(crate) fn split_parentheses(trees: &[TokenTree]) -> Option<(&Group, &[TokenTree])>
    ensures found { IfSome result (λ found. (trees.now ≡ trees_are.Group found.0.now ∷ found.1.now)
        × (found.0.now.delimiter ≡ Delimiter.Parenthesis)) }
    ensures none { IfNone result ((group : Grouped) → (rest : List Tree) → trees.now ≡ trees_are.Group group ∷ rest
        → group.delimiter ≡ Delimiter.Parenthesis → ⊥) }
{
    match split_group(trees) {
        Some((group, rest)) if group.delimiter() == Delimiter::Parenthesis => Some((group, rest)),
        _ => None,
    }
}

/// The group in braces that the trees begin with, and the trees after it.
pub(crate) fn split_braces(trees: &[TokenTree]) -> Option<(&Group, &[TokenTree])>
    ensures found { IfSome result (λ found. (trees.now ≡ trees_are.Group found.0.now ∷ found.1.now)
        × (found.0.now.delimiter ≡ Delimiter.Brace)) }
    ensures none { IfNone result ((group : Grouped) → (rest : List Tree) → trees.now ≡ trees_are.Group group ∷ rest
        → group.delimiter ≡ Delimiter.Brace → ⊥) }
{
    match split_group(trees) {
        Some((group, rest)) if group.delimiter() == Delimiter::Brace => Some((group, rest)),
        _ => None,
    }
}
