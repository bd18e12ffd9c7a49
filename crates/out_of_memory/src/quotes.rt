//! Pushing trees to a quote, and taking its stream.

use crate::fails::Fail;
use crate::shown::{show_map, show_stream};
use crate::watched::{begin, show};
use proc_macro2::{
    Delimiter, Group, Ident, Punct, SourceMap, Spacing, Span, TokenStream, TokenTree,
};
use quoting::{Hole, Number, Quote, TemplateError, Value, Values};
use std::alloc::Global;
use std::io::Write;

/// A template with a name in a group, and a repetition with a group.
const TEMPLATE: &str = "[#one] #((#each)),*";

/// A template with values, and a repetition inside a repetition.
const VALUES: &str = "#name #text #number #(#(#row)*)*";

/// A text that is too long to be kept in a token.
const LETTERS: &str = "abcdefghijabcdefghijabcdefghijabcdefghij";

/// Pushes trees to a quote of `x (+ y)`, whose `+` is Joint, or fills it, or takes its stream, and then writes what it
/// gives. It is filled with the given template, or with `TEMPLATE` if that is empty.
pub fn run<W: Write>(alloc: Global, out: &mut W, call: &str, given: &str) -> Result<(), Fail> {
    let template = if given.is_empty() { TEMPLATE } else { given };
    for _ in 0..2 {
        let mut quote = x_and_group(alloc)?;
        change(alloc, out, call, template, &mut quote)?;
        show_stream(out, &quote.finish()?)?;
    }
    Ok(())
}

fn change<W: Write>(
    alloc: Global,
    out: &mut W,
    call: &str,
    template: &str,
    quote: &mut Quote,
) -> Result<(), Fail> {
    match call {
        "push" => push(alloc, out, quote),
        "push_stream" => push_stream(alloc, out, quote),
        "fill" => fill(alloc, out, quote, template),
        "parse" => parse(alloc, out, quote),
        "values" => values(alloc, out, quote),
        "list" => list(alloc, out),
        "finish" => finish(out, &*quote),
        _ => Err(Fail::NoCase),
    }
}

fn push<W: Write>(alloc: Global, out: &mut W, quote: &mut Quote) -> Result<(), Fail> {
    let tree = name(alloc, "z")?;
    begin(out)?;
    show(out, quote.push(tree))
}

fn push_stream<W: Write>(alloc: Global, out: &mut W, quote: &mut Quote) -> Result<(), Fail> {
    let stream = TokenStream::from_tree(alloc, name(alloc, "z")?)?;
    begin(out)?;
    show(out, quote.push_stream(stream))
}

/// Fills a template with a tree for its name, no tree for another name, and a tree for each turn of its repetition.
fn fill<W: Write>(
    alloc: Global,
    out: &mut W,
    quote: &mut Quote,
    template: &str,
) -> Result<(), Fail> {
    let template = TokenStream::from_str(template, &mut SourceMap::new(alloc))?;
    let one = TokenStream::from_tree(alloc, name(alloc, "z")?)?;
    let nil = TokenStream::new(alloc);
    let each = [one.clone()?, one.clone()?];
    let holes = [
        Hole::one("one", &one),
        Hole::one("nil", &nil),
        Hole::each("each", &each),
    ];
    begin(out)?;
    show(out, quote.fill(&template, &holes))
}

/// Fills a template with a name, a text and a negative number, and a list of lists.
fn values<W: Write>(alloc: Global, out: &mut W, quote: &mut Quote) -> Result<(), Fail> {
    let template = TokenStream::from_str(VALUES, &mut SourceMap::new(alloc))?;
    let mut rows = Values::new(alloc);
    rows.push(Value::Strings(&["s", "t"]))?;
    begin(out)?;
    let done = fill_values(
        quote,
        &template,
        &Value::Name(LETTERS),
        &Value::String(LETTERS),
        &Value::Number(Number::I8(-7)),
        &Value::List(rows),
    );
    show(out, done)
}

/// Fills the template with these values.
fn fill_values<'a>(
    quote: &mut Quote,
    template: &TokenStream,
    name: &'a Value<'a>,
    text: &'a Value<'a>,
    number: &'a Value<'a>,
    row: &'a Value<'a>,
) -> Result<(), TemplateError> {
    let holes = [
        Hole::of("name", name),
        Hole::of("text", text),
        Hole::of("number", number),
        Hole::of("row", row),
    ];
    quote.fill(template, &holes)
}

/// Puts a list of a text in a list that has no room.
fn list<W: Write>(alloc: Global, out: &mut W) -> Result<(), Fail> {
    let mut list = Values::new(alloc);
    begin(out)?;
    show(out, list.push(Value::Strings(&[LETTERS])))
}

/// Parses the template's text, which becomes a file of a map, and fills it.
fn parse<W: Write>(alloc: Global, out: &mut W, quote: &mut Quote) -> Result<(), Fail> {
    let mut map = SourceMap::new(alloc);
    let one = TokenStream::from_tree(alloc, name(alloc, "z")?)?;
    let each = [one.clone()?, one.clone()?];
    let holes = [Hole::one("one", &one), Hole::each("each", &each)];
    begin(out)?;
    show(out, quote.parse(TEMPLATE, &mut map, &holes))?;
    show_map(out, &map)?;
    Ok(())
}

fn finish<W: Write>(out: &mut W, quote: &Quote) -> Result<(), Fail> {
    begin(out)?;
    show(out, quote.finish())
}

/// Returns a quote that shares its trees with no stream, and whose list has no room.
fn x_and_group(alloc: Global) -> Result<Quote, Fail> {
    let plus = TokenTree::Punct(Punct::new('+', Spacing::Joint));
    let inside = TokenStream::from_trees(alloc, [plus, name(alloc, "y")?])?;
    let group = TokenTree::Group(Group::new(Delimiter::Parenthesis, inside));
    let mut quote = Quote::new(alloc);
    quote.push(name(alloc, "x")?)?;
    quote.push(group)?;
    Ok(quote)
}

fn name(alloc: Global, text: &str) -> Result<TokenTree, Fail> {
    Ok(TokenTree::Ident(Ident::new(alloc, text, Span::call_site())?))
}
