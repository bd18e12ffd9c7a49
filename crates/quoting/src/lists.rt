//! Lists of values, which a hole can have.
ghost use Rattle.std.specs.Prelude.{◌≡◌, ℕ, false, IfOk, List, MatchOption, None, OnErr, OnOk, Some};
ghost use Rattle.std.specs.Borrow.{Bor};
ghost use Rattle.std.specs.Str.{chars};
ghost use Rattle.proc_macro2.specs.Building.{split};
ghost use Rattle.proc_macro2.specs.Escaped.{string_text};
ghost use Rattle.proc_macro2.specs.IdentFault.{ident_fault};
ghost use Rattle.proc_macro2.specs.Leaf as leaves;
ghost use Rattle.proc_macro2.specs.Trees.{alone};
ghost use Rattle.proc_macro2.specs.declared.TokenTree.TheVariants.{Ident as IdentTree, Literal as LiteralTree};
ghost use Rattle.quoting.specs.Items.{One, and_last, each_of, end, item_at, item_count};
ghost use Rattle.quoting.specs.Kept.{item_filling};
ghost use Rattle.quoting.specs.Values.{name_unless, plain_literal, value_of};

use crate::making::{number_literal, truth_ident};
use crate::values::{Item, Value, Values};
use proc_macro2::{Ident, IdentError, Literal, Span, TokenStream, TokenTree};
use std::alloc::{AllocError, Global};

impl Values {
    /// Returns an empty list. It allocates nothing.
    pub fn new(alloc: Global) -> Values
        ensures { result ≡ end }
    {
        Values {
            alloc,
            list: Vec::new(alloc),
        }
    }

    /// Adds a copy of the value's tokens at the end of the list.
    ///
    /// Fails if memory runs out. Then the list is unchanged, and the value is dropped.
    ///
    /// If `x` has two lists, one with `1u8` and one empty, `#( f(#( #x ),*) );*` gives `f(1u8); f()`.
    pub fn push(&mut self, value: Value<'_>) -> Result<(), AllocError>
        ensures ok { OnOk result (self.new ≡ and_last self.old (value_of value.entry)) }
        ensures err { OnErr result (self.new ≡ self.old) }
    {
        let item = item_filling(self.alloc, value)?;
        self.put(item)
    }

    /// Adds the item at the end of the list. If that fails, the list is unchanged.
    #[tactic(auto, using(crate::proofs::ItemLemmas::each_push))]
    fn put(&mut self, value: Item) -> Result<(), AllocError>
        ensures ok { OnOk result (self.new ≡ and_last self.old (item_filling value)) }
        ensures err { OnErr result (self.new ≡ self.old) }
    {
        self.list.push(value)?;
        Ok(())
    }

    /// Returns the number of values.
    #[tactic(auto, using(crate::proofs::ItemLemmas::item_count_each))]
    pub(crate) fn len(&self) -> usize
        ensures { result ≡ item_count self.now }
    {
        self.list.len()
    }

    /// Returns the value at this index, counted from 0.
    #[tactic(auto, using(crate::proofs::ItemLemmas::item_at_each))]
    pub(crate) fn get(&self, index: usize) -> Option<&Item>
        ensures { MatchOption result (item_at index self.now ≡ None)
            (λ value. item_at index self.now ≡ Some (item_filling value.now)) }
    {
        self.list.get(index)
    }
}

/// Returns a copy of the value for a list, which owns its tokens.
fn item_filling(alloc: Global, value: Value<'_>) -> Result<Item, AllocError>
    ensures { IfOk result (λ item. item_filling item ≡ value_of value.entry) }
{
    match value {
        Value::Nothing => Ok(Item::Stream(TokenStream::new(alloc))),
        Value::Stream(stream) => Ok(Item::Stream(stream.clone()?)),
        Value::OwnedStream(stream) => Ok(Item::Stream(stream)),
        Value::Tree(tree) => Ok(Item::Tree(tree.clone()?)),
        Value::OwnedTree(tree) => Ok(Item::Tree(tree)),
        Value::Ident(ident) => Ok(Item::Tree(TokenTree::Ident(ident.clone()?))),
        Value::Literal(literal) => Ok(Item::Tree(TokenTree::Literal(literal.clone()?))),
        Value::Name(name) => kept_name(alloc, name),
        Value::String(text) => Ok(Item::Tree(TokenTree::Literal(Literal::string(alloc, text)?))),
        Value::Character(c) => Ok(Item::Tree(TokenTree::Literal(Literal::character(alloc, c)?))),
        Value::Boolean(truth) => Ok(Item::Tree(TokenTree::Ident(truth_ident(alloc, truth)?))),
        Value::Number(number) => {
            Ok(Item::Tree(TokenTree::Literal(number_literal(alloc, number)?)))
        }
        Value::NotFinite => Ok(Item::NotFinite),
        Value::Streams(streams) => Ok(Item::List(kept_streams(alloc, streams)?)),
        Value::Trees(trees) => Ok(Item::List(kept_trees(alloc, trees)?)),
        Value::Idents(idents) => Ok(Item::List(kept_idents(alloc, idents)?)),
        Value::Literals(literals) => Ok(Item::List(kept_literals(alloc, literals)?)),
        Value::Strings(texts) => Ok(Item::List(kept_strings(alloc, texts)?)),
        Value::List(values) => Ok(Item::List(values)),
    }
}

/// Returns the identifier with this name, or `Item::NotIdent` if no identifier has it.
fn kept_name(alloc: Global, name: &str) -> Result<Item, AllocError>
    ensures { IfOk result (λ item. item_filling item
        ≡ name_unless (ident_fault false (chars name.now)) (chars name.now)) }
{
    match Ident::new(alloc, name, Span::call_site()) {
        Ok(ident) => Ok(Item::Tree(TokenTree::Ident(ident))),
        Err(IdentError::Memory(error)) => Err(error),
        Err(IdentError::Empty | IdentError::Number | IdentError::Invalid | IdentError::Reserved) =>
            Ok(Item::NotIdent),
    }
}

/// Returns a list of copies of the streams.
fn kept_streams(alloc: Global, streams: &[TokenStream]) -> Result<Values, AllocError>
    ensures { IfOk result (λ values. values ≡ each_of One streams.now) }
{
    let mut values = Values::new(alloc);
    for stream in streams {
        values.put(Item::Stream(stream.clone()?))?;
    }
    Ok(values)
}

/// Returns a list of copies of the trees.
fn kept_trees(alloc: Global, trees: &[TokenTree]) -> Result<Values, AllocError>
    ensures { IfOk result (λ values. values ≡ each_of (λ tree. One (split tree)) trees.now) }
{
    let mut values = Values::new(alloc);
    for tree in trees {
        values.put(Item::Tree(tree.clone()?))?;
    }
    Ok(values)
}

/// Returns a list of copies of the identifiers.
fn kept_idents(alloc: Global, idents: &[Ident]) -> Result<Values, AllocError>
    ensures { IfOk result (λ values.
        values ≡ each_of (λ (ident : leaves.Name). One (alone (IdentTree ident))) idents.now) }
{
    let mut values = Values::new(alloc);
    for ident in idents {
        values.put(Item::Tree(TokenTree::Ident(ident.clone()?)))?;
    }
    Ok(values)
}

/// Returns a list of copies of the literals.
fn kept_literals(alloc: Global, literals: &[Literal]) -> Result<Values, AllocError>
    ensures { IfOk result (λ values.
        values ≡ each_of (λ (literal : leaves.Text). One (split (LiteralTree literal))) literals.now) }
{
    let mut values = Values::new(alloc);
    for literal in literals {
        values.put(Item::Tree(TokenTree::Literal(literal.clone()?)))?;
    }
    Ok(values)
}

/// Returns a list of the string literals with these texts.
fn kept_strings(alloc: Global, texts: &[&str]) -> Result<Values, AllocError>
    ensures { IfOk result (λ values. values
        ≡ each_of (λ (text : Bor (List ℕ)). One (plain_literal (string_text (chars text.now)))) texts.now) }
{
    let mut values = Values::new(alloc);
    for text in texts {
        values.put(Item::Tree(TokenTree::Literal(Literal::string(alloc, text)?)))?;
    }
    Ok(values)
}
