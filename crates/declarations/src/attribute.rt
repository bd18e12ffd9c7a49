//! Attributes, one at a time.
ghost use Rattle.std.specs.Prelude.{◌≡◌, ◌==◌, [], ◌∷◌, IfNone, IfSome, List, MatchOption, length};
ghost use Rattle.std.specs.Prelude.{option_copied};
ghost use Rattle.std.specs.List.{prefix_len};
ghost use Rattle.pm_token.specs.Leaf.{Mark};
ghost use Rattle.pm_token.specs.Spelling.{spelled};
ghost use Rattle.pm_stream.specs.DocGroup.{is_equals};
ghost use Rattle.pm_stream.specs.declared.stream.Group.{Group as Grouped};
ghost use Rattle.pm_stream.specs.declared.stream.TokenTree.{TokenTree as Tree};
ghost use Rattle.pm_stream.specs.declared.stream.TokenTree.TheVariants as trees_are;
ghost use Rattle.declarations.specs.Attribute.{AreArgs, IsAttributeAt, after_path, attributes_in, goes_on};
ghost use Rattle.declarations.specs.Attribute.{doc_of, inside, is_bracket, is_inner, is_named, is_outer, is_word};
ghost use Rattle.declarations.specs.Attribute.{literal_after, only_literal, parts_of, path_of};

use crate::bare::{bare_trees, has_no_delimiters, inside_of};
use crate::item::split_group;
use pm_stream::{Group, TokenTree};
use pm_token::{Delimiter, Literal, Punct, Spacing};

/// An attribute, such as `#[derive(Clone)]` or `#![no_std]`. A doc comment is an attribute too.
#[derive(Clone, Copy, Debug)]
pub struct Attribute<'a> {
    /// The `#` of an outer attribute, or the `#` and the `!` of an inner one.
    pub marks: &'a [TokenTree],
    /// The brackets, with the trees in them.
    pub group: &'a Group,
}

/// What comes after the path of an attribute.
#[derive(Clone, Copy, Debug)]
pub enum AttributeArgs<'a> {
    /// Nothing, as in `#[no_mangle]`.
    Nothing,
    /// A group alone, as in `#[derive(Clone)]`.
    Group(&'a Group),
    /// The trees after the `=`, as in `#[path = "a.rs"]`.
    Value(&'a [TokenTree]),
    /// A group and more trees after it. No attribute of Rust has this form.
    Other(&'a Group, &'a [TokenTree]),
}

/// The attributes at the start of trees, outer and inner, in order, such as those of an item, a field or a variant.
///
/// The iterator ends before the first trees that are no attribute, which stay in
/// `left`. It allocates nothing.
///
/// ```text
/// for attribute in Attributes::new(field.attributes) {
///     if attribute.is("serde") { .. }
/// }
/// ```
#[derive(Clone, Copy, Debug)]
pub struct Attributes<'a> {
    /// The trees that are not yet read.
    pub left: &'a [TokenTree],
}

impl<'a> Attributes<'a> {
    /// Returns an iterator over the attributes at the start of these trees.
    pub fn new(trees: &'a [TokenTree]) -> Attributes<'a>
        ensures { result.left.now ≡ trees.now }
    {
        Attributes { left: trees }
    }
}

impl<'a> Iterator for Attributes<'a> {
    ghost use Rattle.std.specs.Iterator.{YieldsFirstBy, item_count};

    type Item = Attribute<'a>;

    // The iterator gives the attributes at the start of the trees, each of them once.
    ghost next_gives = { YieldsFirstBy parts_of (λ list. attributes_in list.left.now) };

    ghost remaining = { item_count (λ list. attributes_in list.left.now) };

    fn next(&mut self) -> Option<Attribute<'a>> {
        let (attribute, rest) = split_attribute(self.left)?;
        self.left = rest;
        Some(attribute)
    }
}

/// Returns the attribute at the start of the trees, outer or inner, and the trees after it.
///
/// It returns `None` if the trees begin with no attribute. For `#[a] #[b] pub x` it returns `#[a]` and `#[b] pub x`.
pub fn split_attribute(trees: &[TokenTree]) -> Option<(Attribute<'_>, &[TokenTree])>
    ensures found { MatchOption result (attributes_in trees.now ≡ [])
        (λ found. attributes_in trees.now ≡ parts_of found.0 ∷ attributes_in found.1.now) }
    ensures parts { IfSome result (λ found. IsAttributeAt trees.now found.0 found.1.now) }
{
    let (hash, rest) = split_mark(trees)?;
    match split_group(rest) {
        Some((group, after)) if is_outer(hash, group) => {
            let (marks, _) = trees.split_at(1);
            Some((Attribute { marks, group }, after))
        }
        Some(_) => None,
        None => split_inner(trees, hash, rest),
    }
}

/// The inner attribute at the start of `trees`, and the trees after it. `rest` are the trees after `hash`.
fn split_inner<'a>(
    trees: &'a [TokenTree],
    hash: &Punct,
    rest: &'a [TokenTree],
) -> Option<(Attribute<'a>, &'a [TokenTree])>
    requires whole { trees.now ≡ trees_are.Punct hash.now ∷ rest.now }
    requires none { (group : Grouped) → (after : List Tree) → rest.now ≡ trees_are.Group group ∷ after → ⊥ }
    ensures found { MatchOption result (attributes_in trees.now ≡ [])
        (λ found. attributes_in trees.now ≡ parts_of found.0 ∷ attributes_in found.1.now) }
    ensures parts { IfSome result (λ found. IsAttributeAt trees.now found.0 found.1.now) }
{
    let (mark, brackets) = split_mark(rest)?;
    let (group, after) = split_group(brackets)?;
    if is_inner(hash, mark, group) {
        let (marks, _) = trees.split_at(2);
        Some((Attribute { marks, group }, after))
    } else {
        None
    }
}

/// The mark that the trees begin with, and the trees after it.
fn split_mark(trees: &[TokenTree]) -> Option<(&Punct, &[TokenTree])>
    ensures found { IfSome result (λ found. trees.now ≡ trees_are.Punct found.0.now ∷ found.1.now) }
    ensures none { IfNone result ((mark : Mark) → (rest : List Tree) → trees.now ≡ trees_are.Punct mark ∷ rest → ⊥) }
{
    match trees.split_first() {
        Some((TokenTree::Punct(mark), rest)) => Some((mark, rest)),
        _ => None,
    }
}

fn is_outer(hash: &Punct, group: &Group) -> bool
    ensures { result ≡ is_outer hash.now group.now }
{
    hash.as_char() == '#' && is_bracket(group.delimiter())
}

fn is_inner(hash: &Punct, mark: &Punct, group: &Group) -> bool
    ensures { result ≡ is_inner hash.now mark.now group.now }
{
    hash.as_char() == '#' && mark.as_char() == '!' && is_bracket(group.delimiter())
}

fn is_bracket(delimiter: Delimiter) -> bool
    ensures { result ≡ is_bracket delimiter }
{
    match delimiter {
        Delimiter::Bracket => true,
        Delimiter::Parenthesis | Delimiter::Brace | Delimiter::None => false,
    }
}

impl<'a> Attribute<'a> {
    /// Returns whether this is an inner attribute, such as `#![a]`.
    pub fn is_inner(&self) -> bool
        ensures { result ≡ (length self.now.marks.now == 2) }
    {
        self.marks.len() == 2
    }

    /// Returns the path: the trees in the brackets before the first `=` or the first group with delimiters.
    ///
    /// It is `rustfmt::skip` in `#[rustfmt::skip]`, `doc` in `#[doc = "a"]`, and `unsafe` in `#[unsafe(no_mangle)]`.
    ///
    /// If the trees in the brackets are one group without delimiters, as a macro by example passes `$m:meta`, the path
    /// is that of the trees in this group, or in the innermost of several such groups. So are what
    /// [`args`](Attribute::args), [`is`](Attribute::is) and [`doc`](Attribute::doc) return. A path that is such a group
    /// itself, as in `#[$p = 1]`, is returned as it is.
    pub fn path(&self) -> &'a [TokenTree]
        ensures { result.now ≡ path_of (inside self.now) }
    {
        split_path(inside_of(self.group)).0
    }

    /// Returns what comes after the path. A value that is a group without delimiters, as in `#[a = $e]`, is returned as
    /// it is.
    pub fn args(&self) -> AttributeArgs<'a>
        ensures { AreArgs (after_path (inside self.now)) result }
    {
        args_of(split_path(inside_of(self.group)).1)
    }

    /// Returns whether the path is this one identifier, perhaps in groups without delimiters. A raw identifier is
    /// compared with its `r#`.
    pub fn is(&self, word: &str) -> bool
        ensures { result ≡ is_named (path_of (inside self.now)) (spelled word.now) }
    {
        is_named(self.path(), word)
    }

    /// Returns the literal of a doc comment or of `#[doc = "text"]`, and `None` for every other attribute. The literal
    /// may be in groups without delimiters.
    pub fn doc(&self) -> Option<&'a Literal>
        ensures { option_copied result ≡ doc_of (inside self.now) }
    {
        let (path, rest) = split_path(inside_of(self.group));
        if is_named(path, "doc") {
            literal_after(rest)
        } else {
            None
        }
    }
}

/// Whether the trees are this one identifier, perhaps in groups without delimiters.
pub(crate) fn is_named(trees: &[TokenTree], word: &str) -> bool
    ensures { result ≡ is_named trees.now (spelled word.now) }
{
    is_word(bare_trees(trees), word)
}

/// Whether the trees are this one identifier.
fn is_word(trees: &[TokenTree], word: &str) -> bool
    ensures { result ≡ is_word trees.now (spelled word.now) }
{
    match trees {
        [TokenTree::Ident(name)] => name.eq_str(word),
        _ => false,
    }
}

/// The literal after `=` Alone, perhaps in groups without delimiters, if there are no other trees.
fn literal_after(trees: &[TokenTree]) -> Option<&Literal>
    ensures { option_copied result ≡ literal_after trees.now }
{
    match trees.split_first() {
        Some((TokenTree::Punct(mark), value)) if is_equals(mark) => only_literal(bare_trees(value)),
        _ => None,
    }
}

/// Whether it is the mark `=` Alone.
fn is_equals(mark: &Punct) -> bool
    ensures { result ≡ is_equals mark.now }
{
    mark.as_char() == '=' && mark.spacing() == Spacing::Alone
}

/// The literal, if it is the only tree.
fn only_literal(trees: &[TokenTree]) -> Option<&Literal>
    ensures { option_copied result ≡ only_literal trees.now }
{
    match trees {
        [TokenTree::Literal(literal)] => Some(literal),
        _ => None,
    }
}

/// The path at the start of the trees, and the trees after it.
fn split_path(trees: &[TokenTree]) -> (&[TokenTree], &[TokenTree])
    ensures path { result.0.now ≡ path_of trees.now }
    ensures rest { result.1.now ≡ after_path trees.now }
{
    trees.split_at(path_len(trees))
}

/// The number of trees in the path at the start of the trees.
fn path_len(trees: &[TokenTree]) -> usize
    ensures { result ≡ prefix_len goes_on trees.now }
{
    let mut left = trees;
    while let Some((tree, rest)) = left.split_first() {
        if !goes_on(tree) {
            return trees.len() - left.len();
        }
        left = rest;
    }
    trees.len()
}

/// Whether the tree can be in a path: it is not `=`, and not a group with delimiters.
fn goes_on(tree: &TokenTree) -> bool
    ensures { result ≡ goes_on tree.now }
{
    match tree {
        TokenTree::Group(group) => has_no_delimiters(group.delimiter()),
        TokenTree::Punct(mark) => mark.as_char() != '=',
        TokenTree::Ident(_) | TokenTree::Literal(_) => true,
    }
}

/// The form of the trees after a path.
fn args_of(rest: &[TokenTree]) -> AttributeArgs<'_>
    requires { prefix_len goes_on rest.now ≡ 0 }
    ensures { AreArgs rest.now result }
{
    match rest.split_first() {
        None => AttributeArgs::Nothing,
        Some((TokenTree::Group(group), after)) => {
            if after.is_empty() {
                AttributeArgs::Group(group)
            } else {
                AttributeArgs::Other(group, after)
            }
        }
        Some((_, value)) => AttributeArgs::Value(value),
    }
}
