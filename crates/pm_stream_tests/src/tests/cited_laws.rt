// Facts about streams that callers can prove with public items alone: with the contracts of the readers, and with the
// laws. None of these functions has a proof file.
ghost use Rattle.std.specs.Prelude.{◌≡◌, ◌≤◌, ◌↔◌, IfOk, IfSome, IsTrue};
ghost use Rattle.proc_macro2.specs.Built.{IsBuiltToken};
ghost use Rattle.proc_macro2.specs.Forest.{IsBuilt};
ghost use Rattle.proc_macro2.specs.Laws.{Gives};
ghost use Rattle.proc_macro2.specs.Leaf.{mark_token, name_token};
ghost use Rattle.proc_macro2.specs.Trees.{GoesInside, alone};
ghost use Rattle.proc_macro2.specs.LiteralText.{IsLiteralText};
ghost use Rattle.proc_macro2.specs.Printed.{printed};
ghost use Rattle.proc_macro2.specs.Text.{IsText};
ghost use Rattle.proc_macro2.specs.WellSpaced.{IsWellSpaced};

use crate::tests::checks::check_answer;
use proc_macro2::{
    Group, Ident, Literal, ParseError, Punct, SourceMap, TokenStream, TokenTree, laws,
};
use test_helpers::release;

/// Parses a text. The stream comes back from its printed text.
fn read(text: &str, map: &mut SourceMap) -> Result<TokenStream, ParseError>
    ensures { IfOk result (λ stream. Gives 0 (printed stream) stream) }
{
    let stream = TokenStream::from_str(text, map)?;
    laws::printed_comes_back();
    Ok(stream)
}

/// However the stream was made, it comes back from its printed text if it is well spaced, and what it prints is a text.
fn comes_back(stream: &TokenStream)
    ensures back { IsWellSpaced stream.now → Gives 0 (printed stream.now) stream.now }
    ensures text { IsText (printed stream.now) }
{
    let _ = stream.trees();
    laws::printed_comes_back();
}

/// The stream of a group comes back from its printed text if it is well spaced.
fn inside_comes_back(group: &Group)
    ensures { IsWellSpaced group.now.stream → Gives 0 (printed group.now.stream) group.now.stream }
{
    let _ = group.stream_ref();
    laws::printed_comes_back();
}

/// Whether the stream comes back from its printed text. One call decides this.
fn prints_faithfully(stream: &TokenStream) -> bool
    ensures { IsTrue result ↔ Gives 0 (printed stream.now) stream.now }
{
    laws::printed_comes_back();
    stream.is_well_spaced()
}

/// Streams that are well spaced have the same tokens exactly if they print the same text.
fn print_alike(stream: &TokenStream, other: &TokenStream) -> Option<bool>
    ensures { IfSome result (λ same. IsTrue same ↔ (printed stream.now ≡ printed other.now)) }
{
    laws::printed_comes_back();
    if stream.is_well_spaced() && other.is_well_spaced() {
        return Some(stream.same_tokens(other));
    }
    None
}

/// A tree that may be put into a stream is built.
fn is_built(tree: &TokenTree)
    requires { GoesInside tree.now }
    ensures { IsBuilt (alone tree.now) }
{
    let _ = tree.span();
}

/// Each tree that a stream has may be put into a stream again.
fn each_is_built(stream: &TokenStream) {
    for tree in stream.trees() {
        is_built(tree);
    }
}

/// An identifier is a token of the grammar, and its span doesn't end before it begins.
fn ident_is_built(ident: &Ident)
    ensures token { IsBuiltToken (name_token ident.now) }
    ensures ordered { ident.now.span.lo ≤ ident.now.span.hi }
{
    let _ = ident.span();
}

/// A mark is a token of the grammar, and its span doesn't end before it begins.
fn punct_is_built(punct: &Punct)
    ensures token { IsBuiltToken (mark_token punct.now) }
    ensures ordered { punct.now.span.lo ≤ punct.now.span.hi }
{
    let _ = punct.span();
}

/// A literal has the text of a literal, and its span doesn't end before it begins.
fn literal_is_built(literal: &Literal)
    ensures text { IsLiteralText literal.now.text }
    ensures ordered { literal.now.span.lo ≤ literal.now.span.hi }
{
    let _ = literal.span();
}

/// Shows what is true of the tree, by its kind.
fn kind_is_built(tree: &TokenTree) {
    match tree {
        TokenTree::Group(group) => inside_comes_back(group),
        TokenTree::Ident(ident) => ident_is_built(ident),
        TokenTree::Punct(punct) => punct_is_built(punct),
        TokenTree::Literal(literal) => literal_is_built(literal),
    }
}

#[test]
fn what_laws_say_of_a_stream_is_seen_in_its_printed_text(rt: HostRuntime) {
    let mut map = SourceMap::new(rt.alloc());
    let stream = read("a+=(1)", &mut map).expect(&rt, "a+=(1)");
    comes_back(&stream);
    let answers = (prints_faithfully(&stream), print_alike(&stream, &stream));
    check_answer(&rt, "a+=(1)", &answers, &(true, Some(true)));
    show_trees(&stream);
    release((stream, map));
}

/// Shows what is true of the stream's trees.
fn show_trees(stream: &TokenStream) {
    each_is_built(stream);
    for tree in stream.trees() {
        kind_is_built(tree);
    }
}
