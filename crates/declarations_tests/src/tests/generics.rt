// Generic parameters and predicates, with the number of trees in each part.
use crate::tests::checks::{Answer, Reads, check};
use crate::tests::expected::Call;
use declarations::{Param, after_where, parse_param, parse_predicate, within_generics};
use proc_macro2::TokenTree;

/// Writes a generic parameter: its kind, the number of trees of its name, and its other parts.
fn put_param(out: &mut Answer, param: &Param<'_>) {
    out.debug(&param.kind);
    out.count("", param.name.len());
    out.part("attributes", param.attributes.len());
    out.part("bounds", param.bounds.len());
    out.part("default", param.default.len());
}

/// The first parameter, and the trees that are left after it.
struct FirstParam;

impl Reads for FirstParam {
    fn put(&self, trees: &[TokenTree], out: &mut Answer) {
        match parse_param(trees) {
            Ok((param, rest)) => {
                put_param(out, &param);
                out.part("left", rest.len());
            }
            Err(fault) => out.error(&fault),
        }
    }
}

/// The generic parameters in angle brackets. `brackets: ` is before an error of the brackets.
struct Params;

impl Reads for Params {
    fn put(&self, trees: &[TokenTree], out: &mut Answer) {
        let mut left = match within_generics(trees) {
            Ok(inside) => inside,
            Err(fault) => {
                out.text("brackets: ");
                return out.error(&fault);
            }
        };
        // There are at most as many parameters as trees.
        for _ in trees {
            if left.is_empty() {
                return;
            }
            out.separate();
            match parse_param(left) {
                Ok((param, rest)) => {
                    put_param(out, &param);
                    left = rest;
                }
                Err(fault) => return out.error(&fault),
            }
        }
    }
}

/// The predicates of a where clause: what is bounded, and the bounds. `where: ` is before an error of the word `where`.
struct Predicates;

impl Reads for Predicates {
    fn put(&self, trees: &[TokenTree], out: &mut Answer) {
        let mut left = match after_where(trees) {
            Ok(inside) => inside,
            Err(fault) => {
                out.text("where: ");
                return out.error(&fault);
            }
        };
        // There are at most as many predicates as trees.
        for _ in trees {
            if left.is_empty() {
                return;
            }
            out.separate();
            match parse_predicate(left) {
                Ok((predicate, rest)) => {
                    out.count("bounded", predicate.bounded.len());
                    out.part("bounds", predicate.bounds.len());
                    left = rest;
                }
                Err(fault) => return out.error(&fault),
            }
        }
    }
}

#[test]
fn parameters_have_their_parts_in_order(rt: HostRuntime) {
    check(
        &rt,
        &Params,
        "
        =>
        <> =>
        <T> => Type 1
        <'a, 'b: 'a, T: A<B, C> + 'b = D<E, F>, #[g] const N: usize = 3,> => \
            Lifetime 2; Lifetime 2, bounds 2; Type 1, bounds 9, default 6; Const 1, attributes 2, bounds 1, default 1
        <T: for<'a> Fn(&'a u8) -> Vec<T> + ?Sized, U: = V, W:> => Type 1, bounds 16; Type 1, default 1; Type 1
        <const N: usize = { 1 + 2 }, const M: i8 = -1, const L: bool = true, const K: A = B::C> => \
            Const 1, bounds 1, default 1; Const 1, bounds 1, default 2; \
            Const 1, bounds 1, default 1; Const 1, bounds 1, default 4
        // Lifetimes may come after types, and raw identifiers are words.
        <r#fn, 'a> => Type 1; Lifetime 2
        <fn> => error at 0
        <'a = T> => error at 2
        <T: A B> => error at 3
        <T,, U> => Type 1; error at 0
        <const N> => missing after 2
        <const N: usize = -> => missing after 6
        <T = > => missing after 2
        <# T> => error at 1
        ",
    );
}

// A macro by example passes `$b:block` so. No bound and no default of a type can be one.
#[test]
fn a_block_in_a_group_without_delimiters_is_a_default(rt: HostRuntime) {
    check(
        &rt,
        &FirstParam,
        "
        const N: A =«{ 1 + 2 }», T => Const 1, bounds 1, default 1, left 1
        const N: A =«{ 1 + 2 }» => Const 1, bounds 1, default 1
        T =«{ 1 + 2 }», U => error at 2
        T: A +«{ 1 + 2 }», U => error at 4
        ",
    );
}

#[test]
fn predicates_have_their_parts_in_order(rt: HostRuntime) {
    check(
        &rt,
        &Predicates,
        "
        =>
        where =>
        where T: A<B, C>, for<'a> &'a [T; { N }]: D + 'a, 'b: 'c, U:, => \
            bounded 1, bounds 6; bounded 9, bounds 4; bounded 2, bounds 2; bounded 1
        where Vec<T>: ?Sized => bounded 4, bounds 2
        where T => missing after 1
        where T: A B => error at 3
        where , T: A => error at 0
        ",
    );
}

#[test]
fn brackets_and_where_are_taken_off(rt: HostRuntime) {
    check(
        &rt,
        &Params,
        "
        T => brackets: error at 0
        < => brackets: missing after 1
        < T => brackets: missing after 2
        T > => brackets: error at 0
        ",
    );
    // A raw identifier is no keyword.
    check(&rt, &Predicates, "r#where T: A => where: error at 0");
}

#[test]
fn an_error_names_the_bracket_or_the_word_that_is_missing(rt: HostRuntime) {
    check(
        &rt,
        &Call::InGenerics,
        "
        T > => expected `<`
        < T => the declaration ends too early, expected `>`
        ",
    );
    check(&rt, &Call::AfterWhere, "T: A => expected `where`");
}
