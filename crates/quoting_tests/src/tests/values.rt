//! Values of every kind in the holes of templates, and lists of lists.
use crate::tests::checks::{check_answer, displays, parse_text};
use proc_macro2::{Ident, Literal, SourceMap, Span, TokenStream, TokenTree};
use quoting::{Hole, Number, Quote, TemplateError, Value, Values};
use std::process::Abort;
use test_helpers::release;

/// Returns the stream of the template with these holes.
fn filled_text(rt: &(impl Abort + AllocGlobal), template: &str, holes: &[Hole<'_>]) -> TokenStream {
    let mut quote = Quote::new(rt.alloc());
    let mut map = SourceMap::new(rt.alloc());
    quote.parse(template, &mut map, holes).expect(rt, template);
    release(map);
    quote.into_stream()
}

/// Asserts the printed text of the template with these holes.
fn check_holes(rt: &(impl Abort + AllocGlobal), template: &str, holes: &[Hole<'_>], want: &str) {
    let stream = filled_text(rt, template, holes);
    displays(rt, &stream, template, want);
    release(stream);
}

/// Asserts the printed text of the template with this value for `x`, which is lent.
fn check_lent<'a>(
    rt: &(impl Abort + AllocGlobal),
    template: &str,
    value: &'a Value<'a>,
    want: &str,
) {
    let holes = [Hole::of("x", value)];
    check_holes(rt, template, &holes, want);
}

/// Asserts the printed text of the template with this value for `x`.
fn check(rt: &(impl Abort + AllocGlobal), template: &str, value: Value<'_>, want: &str) {
    check_lent(rt, template, &value, want);
    release(value);
}

/// Returns the column of the error's span, if the map holds it.
fn column_of(error: &TemplateError, map: &SourceMap) -> Option<usize> {
    match error.span() {
        Some(span) if map.holds(span) => Some(span.start(map).column),
        _ => None,
    }
}

/// Returns the name of the error's variant, of those that these tests expect.
fn kind(error: &TemplateError) -> &'static str {
    match error {
        TemplateError::NotIdent(_) => "NotIdent",
        TemplateError::NotFinite(_) => "NotFinite",
        TemplateError::LoneList(_) => "LoneList",
        TemplateError::NoList(_) => "NoList",
        _ => "none of these",
    }
}

/// The variant of a template's error, its column, and the number of trees in the quote after it.
type ErrorCase = (&'static str, Option<usize>, usize);

/// Returns the error of the template with these holes.
fn fault_of(rt: &impl AllocGlobal, template: &str, holes: &[Hole<'_>]) -> ErrorCase {
    let mut quote = Quote::new(rt.alloc());
    let mut map = SourceMap::new(rt.alloc());
    let found = quote.parse(template, &mut map, holes);
    let (kind, column) = match &found {
        Ok(()) => ("no error", None),
        Err(error) => (kind(error), column_of(error, &map)),
    };
    let stream = quote.into_stream();
    let count = stream.trees().len();
    release((map, found, stream));
    (kind, column, count)
}

/// Returns the error of `a b #x` with this value for `x`.
fn value_fault<'a>(rt: &impl AllocGlobal, value: &'a Value<'a>) -> ErrorCase {
    let holes = [Hole::of("x", value)];
    fault_of(rt, "a b #x", &holes)
}

/// Asserts that a hole with this value is this error at its name, which leaves the quote empty.
fn check_fault(rt: &(impl Abort + AllocGlobal), value: Value<'_>, want: &'static str) {
    let found = value_fault(rt, &value);
    check_answer(rt, "a b #x", &found, &(want, Some(5), 0));
    release(value);
}

fn word(rt: &(impl Abort + AllocGlobal), text: &str) -> Ident {
    Ident::new(rt.alloc(), text, Span::call_site()).expect(rt, text)
}

fn string(rt: &(impl Abort + AllocGlobal), text: &str) -> Literal {
    Literal::string(rt.alloc(), text).expect(rt, text)
}

fn small(rt: &(impl Abort + AllocGlobal), number: i8) -> Literal {
    Literal::i8_unsuffixed(rt.alloc(), number).expect(rt, "a number")
}

/// Asserts the printed text of the template with the stream for `x`, lent and given.
fn check_stream(rt: &(impl Abort + AllocGlobal), stream: TokenStream, want: &str) {
    check(rt, "(#x, #x)", Value::Stream(&stream), want);
    check(rt, "(#x, #x)", Value::OwnedStream(stream), want);
}

/// Asserts the printed text of the template with the tree for `x`, lent and given.
fn check_tree(rt: &(impl Abort + AllocGlobal), tree: TokenTree, want: &str) {
    check(rt, "(#x, #x)", Value::Tree(&tree), want);
    check(rt, "(#x, #x)", Value::OwnedTree(tree), want);
}

#[test]
fn streams_and_trees_are_put_in(rt: HostRuntime) {
    check_stream(&rt, parse_text(&rt, "c + d"), "(c + d , c + d)");
    let literal = Literal::i8_suffixed(rt.alloc(), -4).expect(&rt, "-4i8");
    check_tree(&rt, TokenTree::Literal(literal), "(- 4i8 , - 4i8)");
}

/// Asserts the printed text of the template with the literal for `x`.
fn check_literal(rt: &(impl Abort + AllocGlobal), literal: Literal, want: &str) {
    check(rt, "(#x, #x)", Value::Literal(&literal), want);
    release(literal);
}

#[test]
fn tokens_are_put_in(rt: HostRuntime) {
    let ident = word(&rt, "a");
    check(&rt, "(#x, #x)", Value::Ident(&ident), "(a , a)");
    release(ident);
    check_literal(&rt, string(&rt, "b"), "(\"b\" , \"b\")");
    check_literal(&rt, small(&rt, -3), "(- 3 , - 3)");
}

#[test]
fn texts_and_truth_values_are_put_in(rt: HostRuntime) {
    check(&rt, "(#x, #x)", Value::Nothing, "(,)");
    check(&rt, "(#x, #x)", Value::Name("fn"), "(fn , fn)");
    check(&rt, "#x", Value::String("\"\n"), "\"\\\"\\n\"");
    check(&rt, "#x", Value::Character('\''), "'\\''");
    check(&rt, "(#x, #x)", Value::Boolean(true), "(true , true)");
    check(&rt, "(#x, #x)", Value::Boolean(false), "(false , false)");
}

#[test]
fn numbers_have_their_suffix(rt: HostRuntime) {
    let rows = &[
        (Number::U8(u8::MAX), "255u8"),
        (Number::U16(7), "7u16"),
        (Number::U32(7), "7u32"),
        (Number::U64(u64::MAX), "18446744073709551615u64"),
        (
            Number::U128(u128::MAX),
            "340282366920938463463374607431768211455u128",
        ),
        (Number::Usize(0), "0usize"),
        (Number::I8(i8::MIN), "- 128i8"),
        (Number::I16(-7), "- 7i16"),
        (Number::I32(7), "7i32"),
        (Number::I64(-7), "- 7i64"),
        (
            Number::I128(i128::MIN),
            "- 170141183460469231731687303715884105728i128",
        ),
        (Number::Isize(-1), "- 1isize"),
    ];
    for &(number, want) in rows {
        check(&rt, "#x", Value::Number(number), want);
    }
}

#[test]
fn a_value_that_is_no_token_is_an_error_at_the_name_of_its_hole(rt: HostRuntime) {
    for &name in &["1", "", "a b", "r#a"] {
        check_fault(&rt, Value::Name(name), "NotIdent");
    }
    check_fault(&rt, Value::NotFinite, "NotFinite");
    check_fault(&rt, Value::Streams(&[]), "LoneList");
    let list = Value::List(Values::new(rt.alloc()));
    check_fault(&rt, list, "LoneList");
}

/// Asserts what a list of two streams prints, and a list of trees.
fn check_streams(rt: &(impl Abort + AllocGlobal), each: &str) {
    let stream = parse_text(rt, "a; b");
    check(rt, each, Value::Trees(stream.trees()), "a , ; , b");
    let streams = [stream, TokenStream::new(rt.alloc())];
    check(rt, each, Value::Streams(&streams), "a ; b ,");
    release(streams);
}

/// Asserts what a list of two identifiers prints.
fn check_idents(rt: &(impl Abort + AllocGlobal), each: &str) {
    let idents = [word(rt, "a"), word(rt, "b")];
    check(rt, each, Value::Idents(&idents), "a , b");
    release(idents);
}

/// Asserts what a list of two literals prints.
fn check_literals(rt: &(impl Abort + AllocGlobal), each: &str) {
    let literals = [string(rt, "a"), small(rt, -1)];
    check(rt, each, Value::Literals(&literals), "\"a\" , - 1");
    release(literals);
}

/// Adds the value to the list.
fn add(rt: &impl Abort, list: &mut Values, value: Value<'_>) {
    list.push(value).expect(rt, "a list");
}

/// Asserts what a list of values prints.
fn check_values(rt: &(impl Abort + AllocGlobal), each: &str) {
    let mut list = Values::new(rt.alloc());
    add(rt, &mut list, Value::Number(Number::U8(1)));
    add(rt, &mut list, Value::Nothing);
    check(rt, each, Value::List(list), "1u8 ,");
}

#[test]
fn lists_of_every_kind_are_repeated(rt: HostRuntime) {
    let each = "#(#x),*";
    check_streams(&rt, each);
    check_idents(&rt, each);
    check_literals(&rt, each);
    check(&rt, each, Value::Strings(&["a", "b"]), "\"a\" , \"b\"");
    check_values(&rt, each);
}

/// Returns a list of two strings.
fn texts(rt: &(impl Abort + AllocGlobal)) -> Values {
    let mut texts = Values::new(rt.alloc());
    add(rt, &mut texts, Value::String("n"));
    add(rt, &mut texts, Value::String("m"));
    texts
}

/// Returns a list of two lists: one of two strings and one of one name.
fn rows(rt: &(impl Abort + AllocGlobal)) -> Values {
    let mut one = Values::new(rt.alloc());
    add(rt, &mut one, Value::Name("c"));
    let mut rows = Values::new(rt.alloc());
    add(rt, &mut rows, Value::Strings(&["a", "b"]));
    add(rt, &mut rows, Value::List(one));
    rows
}

/// A list of lists for `value`, a list for `name` and a name for `all`.
#[derive(Drop)]
struct Nested {
    values: Value<'static>,
    names: Value<'static>,
    all: Value<'static>,
}

/// Returns the values of the nested repetitions.
fn nested_values(rt: &(impl Abort + AllocGlobal)) -> Nested {
    Nested {
        values: Value::List(rows(rt)),
        names: Value::List(texts(rt)),
        all: Value::Name("z"),
    }
}

/// Returns the holes of these values.
fn three_holes(nested: &Nested) -> [Hole<'_>; 3] {
    [
        Hole::of("value", &nested.values),
        Hole::of("name", &nested.names),
        Hole::of("all", &nested.all),
    ]
}

#[test]
fn repetitions_are_nested(rt: HostRuntime) {
    let templates = &[
        (
            "#( #name: [ #( #value ),* ] );*",
            "\"n\" : [\"a\" , \"b\"] ; \"m\" : [c]",
        ),
        (
            "#( #( #value #name #all )* )*",
            "\"a\" \"n\" z \"b\" \"n\" z c \"m\" z",
        ),
    ];
    let nested = nested_values(&rt);
    let holes = three_holes(&nested);
    for &(template, want) in templates {
        check_holes(&rt, template, &holes, want);
    }
    // The innermost repetition has no list left.
    check_no_list(&rt, "#( #( #( #value )* )* )*", &holes);
    release(nested);
}

/// Asserts that a repetition of the template names no list.
fn check_no_list(rt: &(impl Abort + AllocGlobal), template: &str, holes: &[Hole<'_>]) {
    let (kind, _, _) = fault_of(rt, template, holes);
    check_answer(rt, template, &kind, &"NoList");
}
