//! Finds the items that doc comments document.
//!
//! An item is a keyword and the name right after it. It is documented if its keyword is the first one after a doc
//! comment that isn't inner. A `:` or `!` between them ends the search, since a field or a macro has one after its
//! name.
ghost use Rattle.std.specs.Prelude.{◌≡◌, OnOk};
ghost use Rattle.std.specs.Io.KnownBytes.{Appends};
ghost use Rattle.list_docs.specs.Item.{after, after_doc, is_keyword, is_mark, line_of_item, state_of};

use crate::doc::doc_text;
use proc_macro2::{Ident, TokenTree};
use std::io;
use std::io::Write;

/// How much of a documented item has been read.
#[derive(Clone, Copy)]
pub enum State<'a> {
    /// Nothing of an item.
    Nothing,
    /// The mark `!`. A doc comment right after it is an inner one.
    Inner,
    /// The item's doc comment.
    Documented,
    /// The item's doc comment and its keyword. A name comes next.
    Keyword(&'a Ident),
}

impl<'a> State<'a> {
    /// Returns the state after the tree is read too.
    pub fn after(self, tree: &'a TokenTree) -> State<'a>
        ensures { state_of result ≡ after (state_of self.entry) tree.now }
    {
        match (self, doc_text(tree)) {
            (State::Inner, Some(_)) => State::Nothing,
            (_, Some(_)) => State::Documented,
            (_, None) if is_mark(tree, '!') => State::Inner,
            (State::Documented, None) => after_doc(tree),
            (_, None) => State::Nothing,
        }
    }
}

/// Returns the state after a tree that follows a doc comment. The search for a keyword ends at `:`, which follows the
/// name of a field.
fn after_doc(tree: &TokenTree) -> State<'_>
    ensures { state_of result ≡ after_doc tree.now }
{
    match tree {
        TokenTree::Ident(name) if is_keyword(name) => State::Keyword(name),
        _ if is_mark(tree, ':') => State::Nothing,
        _ => State::Documented,
    }
}

/// Whether the tree is this mark.
fn is_mark(tree: &TokenTree, mark: char) -> bool
    ensures { result ≡ is_mark mark tree.now }
{
    match tree {
        TokenTree::Punct(punct) => punct.as_char() == mark,
        _ => false,
    }
}

/// Whether the identifier is a keyword that the name of an item follows.
fn is_keyword(name: &Ident) -> bool
    ensures { result ≡ is_keyword name.now }
{
    name.eq_str("enum")
        || name.eq_str("fn")
        || name.eq_str("mod")
        || name.eq_str("struct")
        || name.eq_str("trait")
        || name.eq_str("type")
}

/// Writes a line for a documented item if the tree is its name. For `fn` and `add` the line is `fn add`.
pub fn print_item<W: Write>(state: State<'_>, tree: &TokenTree, writer: &mut W) -> io::Result<()>
    ensures { OnOk result (Appends (W.contents writer.old) (W.contents writer.new)
        (line_of_item (state_of state.entry) tree.now)) }
{
    if let State::Keyword(keyword) = state {
        if let TokenTree::Ident(name) = tree {
            writeln!(writer, "{keyword} {name}")?;
        }
    }
    Ok(())
}
