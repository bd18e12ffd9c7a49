// The printed text of each kind of tree. The text is parsed again and compared.
use crate::tests::checks::{check_answer, comes_back, displays, finished, parse_text, shows};
use crate::tests::trees::{Inner, Leaf, Tree, quote_with};
use proc_macro2::{
    Delimiter, Group, ParseError, Punct, SourceMap, Spacing, Span, TokenStream, TokenTree,
};
use quoting::{Quote, QuoteError, TemplateError};
use std::process::Abort;
use test_helpers::release;

/// Trees, and the printed text of their quote. The first ones are the examples of the README.
const PRINTED: &[(&[Tree], &str)] = &[
    // A Joint mark before a name becomes Alone.
    (
        &[Tree::One(Leaf::Joint('&')), Tree::One(Leaf::Name("self"))],
        "& self",
    ),
    // A lifetime is printed without a space.
    (
        &[
            Tree::One(Leaf::Alone('&')),
            Tree::One(Leaf::Alone('\'')),
            Tree::One(Leaf::Name("a")),
            Tree::One(Leaf::Name("str")),
        ],
        "& 'a str",
    ),
    // A negative number becomes its sign and the rest.
    (
        &[Tree::One(Leaf::Joint('=')), Tree::One(Leaf::Number(-3))],
        "=- 3i32",
    ),
    (&[Tree::One(Leaf::Number(-3))], "- 3i32"),
    (
        &[Tree::One(Leaf::Joint('+')), Tree::One(Leaf::Number(-3))],
        "+- 3i32",
    ),
    // A quote is Joint, and a mark before a name is Alone.
    (
        &[
            Tree::One(Leaf::Alone('\'')),
            Tree::One(Leaf::Name("a")),
            Tree::One(Leaf::Joint('+')),
            Tree::One(Leaf::Name("x")),
        ],
        "'a + x",
    ),
    // Marks do not begin a comment.
    (
        &[
            Tree::One(Leaf::Joint('/')),
            Tree::One(Leaf::Joint('*')),
            Tree::One(Leaf::Alone('=')),
        ],
        "/ *=",
    ),
    // A mark stays Joint if the next token may touch it. The last mark becomes Alone.
    (
        &[Tree::One(Leaf::Joint(':')), Tree::One(Leaf::Joint(':'))],
        "::",
    ),
    (
        &[Tree::One(Leaf::Joint('+')), Tree::One(Leaf::Character('b'))],
        "+'b'",
    ),
    (
        &[Tree::One(Leaf::Alone('\'')), Tree::One(Leaf::Bytes("x"))],
        "'b\"x\"",
    ),
    (&[], ""),
];

/// Trees for which no choice of spacings is well spaced, and whether the error is `LoneQuote`. Otherwise it is
/// `NoneGroup`.
const REFUSED: &[(&[Tree], bool)] = &[
    (&[Tree::One(Leaf::Joint('\''))], true),
    (
        &[
            Tree::One(Leaf::Joint('\'')),
            Tree::One(Leaf::Character('x')),
        ],
        true,
    ),
    (
        &[Tree::Of(Delimiter::None, &[Inner::One(Leaf::Name("x"))])],
        false,
    ),
    // The error is the first one in reading order.
    (
        &[Tree::Of(
            Delimiter::Bracket,
            &[Inner::Of(Delimiter::None, &[Leaf::Name("x")])],
        )],
        false,
    ),
    (
        &[
            Tree::Of(Delimiter::Parenthesis, &[Inner::One(Leaf::Joint('\''))]),
            Tree::Of(Delimiter::None, &[]),
        ],
        true,
    ),
    (
        &[Tree::Of(Delimiter::None, &[Inner::One(Leaf::Joint('\''))])],
        false,
    ),
];

/// `a { (b) [+] -> }` with marks that are Joint.
const NESTED: &[Tree] = &[
    Tree::One(Leaf::Name("a")),
    Tree::Of(
        Delimiter::Brace,
        &[
            Inner::Of(Delimiter::Parenthesis, &[Leaf::Name("b")]),
            Inner::Of(Delimiter::Bracket, &[Leaf::Joint('+')]),
            Inner::One(Leaf::Joint('-')),
            Inner::One(Leaf::Joint('>')),
        ],
    ),
];

/// Asserts that the stream has the printed text, and reads back from it.
fn check_stream(rt: &(impl Abort + AllocGlobal), stream: &TokenStream, want: &str) {
    displays(rt, stream, want, want);
    check_answer(rt, want, &comes_back(rt, stream), &true);
}

/// Asserts that the quote has the printed text, and reads back from it.
pub fn check_quote(rt: &(impl Abort + AllocGlobal), quote: &Quote, want: &str) {
    let stream = finished(rt, quote, want);
    check_stream(rt, &stream, want);
    release(stream);
}

/// Asserts that the quote of the trees has the printed text, and reads back from it.
fn check_printed(rt: &(impl Abort + AllocGlobal), trees: &[Tree], want: &str) {
    let quote = quote_with(rt, trees);
    check_quote(rt, &quote, want);
    release(quote);
}

/// Returns whether the error is `LoneQuote`, if it is this or `NoneGroup`.
fn is_lone_quote(found: &Result<TokenStream, QuoteError>) -> Option<bool> {
    match found {
        Err(QuoteError::LoneQuote) => Some(true),
        Err(QuoteError::NoneGroup) => Some(false),
        _ => None,
    }
}

/// Asserts that the quote of the trees, which are those of this row, has this error.
fn check_refused(rt: &(impl Abort + AllocGlobal), row: usize, trees: &[Tree], want: bool) {
    let quote = quote_with(rt, trees);
    let found = quote.finish();
    let error = is_lone_quote(&found);
    release((quote, found));
    check_answer(rt, "a row of REFUSED", &(row, error), &(row, Some(want)));
}

#[test]
fn trees_are_printed_so_that_they_come_back(rt: HostRuntime) {
    for &(trees, want) in PRINTED {
        check_printed(&rt, trees, want);
    }
}

#[test]
fn what_no_spacing_mends_is_reported(rt: HostRuntime) {
    for (row, &(trees, is_lone_quote)) in REFUSED.iter().enumerate() {
        check_refused(&rt, row, trees, is_lone_quote);
    }
}

#[test]
fn the_last_mark_is_alone_and_others_stay_joint(rt: HostRuntime) {
    let colons = &[Tree::One(Leaf::Joint(':')), Tree::One(Leaf::Joint(':'))];
    let quote = quote_with(&rt, colons);
    let stream = finished(&rt, &quote, "::");
    let want =
        "TokenStream [Punct { char: ':', spacing: Joint }, Punct { char: ':', spacing: Alone }]";
    shows(&rt, &stream, want);
    release((quote, stream));
}

#[test]
fn marks_in_groups_are_respaced_and_the_quote_stays(rt: HostRuntime) {
    let quote = quote_with(&rt, NESTED);
    for _ in 0..2 {
        check_quote(&rt, &quote, "a { (b) [+] -> }");
    }
    release(quote);
}

/// Returns the stream in parentheses.
fn in_parentheses(rt: &(impl Abort + AllocGlobal), stream: TokenStream) -> TokenStream {
    let group = TokenTree::Group(Group::new(Delimiter::Parenthesis, stream));
    TokenStream::from_tree(rt.alloc(), group).expect(rt, "a group")
}

/// Returns nested parentheses around a mark that is Joint.
fn deep_groups(rt: &(impl Abort + AllocGlobal), levels: u32) -> TokenStream {
    let mut stream = TokenStream::new(rt.alloc());
    let plus = Punct::new('+', Spacing::Joint);
    stream.extend_puncts([plus]).expect(rt, "+");
    for _ in 0..levels {
        stream = in_parentheses(rt, stream);
    }
    stream
}

/// Asserts that the quote has a well spaced stream of this many trees.
fn is_spaced(rt: &impl Abort, quote: &Quote, row: &str, count: usize) {
    let stream = finished(rt, quote, row);
    let answer = (stream.trees().len(), stream.is_well_spaced());
    release(stream);
    check_answer(rt, row, &answer, &(count, true));
}

#[test]
fn deep_groups_are_respaced_without_a_deep_stack(rt: HostRuntime) {
    let mut quote = Quote::new(rt.alloc());
    let stream = deep_groups(&rt, 100_000);
    quote.push_stream(stream).expect(&rt, "deep groups");
    is_spaced(&rt, &quote, "deep groups", 1);
    release(quote);
}

/// Adds the tree to the quote.
fn push(rt: &impl Abort, quote: &mut Quote, tree: TokenTree) {
    quote.push(tree).expect(rt, "a tree");
}

/// Returns what a quote has after these were pushed: an Alone quote, the stream in a group without delimiters, and a
/// Joint mark.
fn quote_of_pushes(rt: &(impl Abort + AllocGlobal), stream: TokenStream) -> TokenStream {
    let mut quote = Quote::new(rt.alloc());
    let first = TokenTree::Punct(Punct::new('\'', Spacing::Alone));
    push(rt, &mut quote, first);
    let group = TokenTree::Group(Group::new(Delimiter::None, stream));
    push(rt, &mut quote, group);
    let last = TokenTree::Punct(Punct::new('+', Spacing::Joint));
    push(rt, &mut quote, last);
    quote.into_stream()
}

/// Returns the spacing of the mark before a group, the group's delimiter and first tree, and the spacing of the mark
/// after it, if the stream consists of these three trees.
fn parts_of(stream: &TokenStream) -> Option<(Spacing, Delimiter, &TokenTree, Spacing)> {
    let [
        TokenTree::Punct(first),
        TokenTree::Group(group),
        TokenTree::Punct(last),
    ] = stream.trees()
    else {
        return None;
    };
    let name = group.stream_ref().trees().first()?;
    Some((first.spacing(), group.delimiter(), name, last.spacing()))
}

/// Returns the text of the span, if the map holds it.
fn text_of(map: &SourceMap, span: Span) -> Option<&str> {
    if map.holds(span) {
        span.source_str(map)
    } else {
        None
    }
}

/// Returns the parts of the stream, with the text of the first tree in the group.
fn texts_of<'m>(
    map: &'m SourceMap,
    stream: &TokenStream,
) -> Option<(Spacing, Delimiter, Option<&'m str>, Spacing)> {
    let (first, delimiter, name, last) = parts_of(stream)?;
    Some((first, delimiter, text_of(map, name.span()), last))
}

#[test]
fn a_stream_has_exactly_what_was_pushed(rt: HostRuntime) {
    let mut map = SourceMap::new(rt.alloc());
    let name = TokenStream::from_str("a", &mut map).expect(&rt, "a");
    let stream = quote_of_pushes(&rt, name);
    let want = (Spacing::Alone, Delimiter::None, Some("a"), Spacing::Joint);
    check_answer(&rt, "' a +", &texts_of(&map, &stream), &Some(want));
    release((map, stream));
}

#[test]
fn errors_say_why(rt: HostRuntime) {
    let no_delimiters = "a group has no delimiters";
    displays(&rt, &QuoteError::NoneGroup, "NoneGroup", no_delimiters);
    shows(&rt, &QuoteError::LoneQuote, "LoneQuote");
    let no_hole = TemplateError::NoHole(Span::call_site());
    shows(&rt, &no_hole, "NoHole(bytes(0..0))");
    let map_full = TemplateError::Parse(ParseError::MapFull);
    shows(&rt, &map_full, "Parse(MapFull)");
    release((no_hole, map_full));
}

/// Adds a Joint mark, which `finish` makes Alone, and a group of a name to the quote.
fn push_pair(rt: &(impl Abort + AllocGlobal), quote: &mut Quote) {
    let mark = TokenTree::Punct(Punct::new('+', Spacing::Joint));
    push(rt, quote, mark);
    let group = Group::new(Delimiter::Parenthesis, parse_text(rt, "x"));
    push(rt, quote, TokenTree::Group(group));
}

#[test]
fn forty_thousand_trees_are_finished(rt: HostRuntime) {
    let mut quote = Quote::new(rt.alloc());
    for _ in 0..20_000 {
        push_pair(&rt, &mut quote);
    }
    is_spaced(&rt, &quote, "+ (x) and so on", 40_000);
    release(quote);
}

#[test]
fn the_trees_of_a_text_go_between_others(rt: HostRuntime) {
    let before = &[Tree::One(Leaf::Name("x")), Tree::One(Leaf::Alone(':'))];
    let mut quote = quote_with(&rt, before);
    let kind = parse_text(&rt, "std::vec::Vec<u8>");
    quote.push_stream(kind).expect(&rt, "a type");
    let comma = TokenTree::Punct(Punct::new(',', Spacing::Joint));
    push(&rt, &mut quote, comma);
    check_quote(&rt, &quote, "x : std :: vec :: Vec < u8 > ,");
    release(quote);
}
