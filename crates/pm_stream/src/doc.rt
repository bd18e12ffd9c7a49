//! The tokens of a doc comment.
ghost use Rattle.std.specs.Prelude.{◌≡◌, [], ◌∷◌, List, IfOk, IfSome, option_copied};
ghost use Rattle.std.specs.Str.{chars};
ghost use Rattle.pm_stream.specs.DocGroup.{AreDocOf, IsDocOf, doc_in, doc_of, is_doc, is_equals};
ghost use Rattle.pm_stream.specs.Trees.{alone, forest};
ghost use Rattle.pm_stream.specs.Forest.{flat_onto};
ghost use Rattle.pm_stream.specs.Events.{Event, doc_group_onto};
ghost use Rattle.pm_token.specs.Leaf.{Name, Mark};
ghost use Rattle.pm_token.specs.declared.delimiters.Delimiter.TheVariants.{Bracket};
ghost use Rattle.pm_stream.specs.declared.stream.TokenTree.TheVariants.{Ident as IdentTree, Punct as PunctTree};
ghost use Rattle.pm_stream.specs.declared.stream.TokenTree.TheVariants.{Literal as LiteralTree};

use crate::stream::{Group, TokenStream, TokenTree};
use pm_span::Span;
use pm_token::parts::{ident, punct, string_literal};
use pm_token::{Delimiter, Ident, Literal, Punct, Spacing};
use std::alloc::{AllocError, Global};

/// Returns the group `[doc = ".."]` for this text (`doc-tokens`). The group and each tree in it has this span.
pub(crate) fn doc_group(alloc: Global, text: &str, span: Span) -> Result<Group, AllocError>
    ensures ok { IfOk result (λ group. (events : List Event)
        → flat_onto (alone (TokenTree.Group group)) events
        ≡ doc_group_onto span.lo span.hi (chars text.now) events) }
{
    let doc = ident(alloc, "doc", false, span)?;
    let equals = punct('=', Spacing::Alone, span);
    let text = string_literal(alloc, text, span)?;
    let mut trees = Vec::with_capacity(alloc, 3)?;
    trees.push(TokenTree::Ident(doc))?;
    trees.push(TokenTree::Punct(equals))?;
    trees.push(TokenTree::Literal(text))?;
    let stream = TokenStream::from_vec(alloc, trees)?;
    Ok(Group::from_parts(Delimiter::Bracket, stream, span))
}

impl Group {
    /// Returns the literal of a doc comment's group, and `None` for every other group. For `[doc = "x"]` it returns
    /// `"x"`.
    ///
    /// A doc comment is parsed to `#`, to `!` if it is inner, and to this group. The group has the identifier `doc`,
    /// the mark `=` Alone and a literal, in brackets (`doc-tokens`). The trees before the group are not checked, so the
    /// group of the attribute `#[doc = "x"]` has its literal too.
    pub fn doc(&self) -> Option<&Literal>
        ensures value { option_copied result ≡ doc_of self.now }

        // The group holds the three trees, and is printed as `[doc = `, the literal and `]`.
        ensures trees { IfSome result (λ text. (name : Name) × (mark : Mark) × (self.now.stream
            ≡ forest (IdentTree name ∷ PunctTree mark ∷ LiteralTree text.now ∷ []))) }
        ensures printed { IfSome result (λ text. IsDocOf self.now text.now.text) }
    {
        let Delimiter::Bracket = self.delimiter() else {
            return None;
        };
        doc_in(self.stream_ref().trees())
    }
}

/// Returns the literal if the trees are `doc`, `=` Alone and a literal, and otherwise `None`.
fn doc_in(trees: &[TokenTree]) -> Option<&Literal>
    ensures value { option_copied result ≡ doc_in Bracket trees.now }
    ensures trees { IfSome result (λ literal. (n : Name) × (m : Mark)
        × (trees.now ≡ IdentTree n ∷ PunctTree m ∷ LiteralTree literal.now ∷ [])) }
    ensures printed { IfSome result (λ literal. AreDocOf trees.now literal.now.text) }
{
    let [
        TokenTree::Ident(name),
        TokenTree::Punct(mark),
        TokenTree::Literal(literal),
    ] = trees
    else {
        return None;
    };
    if is_doc(name) && is_equals(mark) {
        Some(literal)
    } else {
        None
    }
}

/// Whether it is the identifier `doc`.
fn is_doc(name: &Ident) -> bool
    ensures { result ≡ is_doc name.now }
{
    name.eq_str("doc")
}

/// Whether it is the mark `=` Alone.
fn is_equals(mark: &Punct) -> bool
    ensures { result ≡ is_equals mark.now }
{
    mark.as_char() == '=' && mark.spacing() == Spacing::Alone
}
