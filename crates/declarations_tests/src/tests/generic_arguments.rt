// The generic arguments of paths. The crate syn 2 reads each text in the same way, unless a row says otherwise.
use crate::tests::checks::{Answer, Reads, check};
use declarations::{ArgumentKind, GenericArgument, GenericArguments, parse_generic_argument};
use proc_macro2::TokenTree;

/// Writes the kind of an argument and the number of its trees, and of those after `=` or `:`.
fn put_argument(out: &mut Answer, argument: &GenericArgument<'_>) {
    let count = argument.trees.len();
    match argument.kind {
        ArgumentKind::Lifetime => out.count("lifetime", count),
        ArgumentKind::Const => out.count("const", count),
        ArgumentKind::Type => out.count("type", count),
        ArgumentKind::Binding(ty) => {
            out.count("binding", count);
            out.count("", ty.len());
        }
        ArgumentKind::Constraint(bounds) => {
            out.count("constraint", count);
            out.count("", bounds.len());
        }
    }
}

/// The generic arguments between angle brackets.
struct Arguments;

impl Reads for Arguments {
    fn put(&self, trees: &[TokenTree], out: &mut Answer) {
        for argument in GenericArguments::new(trees) {
            out.separate();
            match argument {
                Ok(argument) => put_argument(out, &argument),
                Err(fault) => out.error(&fault),
            }
        }
    }
}

/// The first argument, and the trees that are left after it.
struct FirstArgument;

impl Reads for FirstArgument {
    fn put(&self, trees: &[TokenTree], out: &mut Answer) {
        match parse_generic_argument(trees) {
            Ok((argument, rest)) => {
                put_argument(out, &argument);
                out.part("left", rest.len());
            }
            Err(fault) => out.error(&fault),
        }
    }
}

#[test]
fn each_kind_of_argument_is_named(rt: HostRuntime) {
    check(
        &rt,
        &Arguments,
        r#"
        =>
        'a => lifetime 2
        '_, 'static => lifetime 2; lifetime 2
        T => type 1
        T, => type 1
        3 => const 1
        -1, 'x', "y" => const 2; const 1; const 1
        true, false => const 1; const 1
        { N + 1 } => const 1
        Item = T => binding 1 1
        Item: A + B => constraint 1 3
        Item: => constraint 1 0
        Item<'a> = &'a T => binding 5 4
        Item<'a>: 'a => constraint 5 2
        _ => type 1
        impl A => type 2
        "#,
    );
}

#[test]
fn a_comma_within_brackets_ends_no_argument(rt: HostRuntime) {
    check(
        &rt,
        &Arguments,
        "
        (A, B), C => type 1; type 1
        [A; 3], C => type 1; type 1
        A<B, C>, D => type 6; type 1
        A<B<C, D>, E>, F => type 11; type 1
        Fn(A, B) -> C<D, E>, F => type 10; type 1
        <A<B, C> as D>::E, F => type 13; type 1
        fn(A, B) -> C, D => type 5; type 1
        dyn A<B, C> + D, E => type 9; type 1
        Item = A<B, C>, D => binding 1 6; type 1
        Item: A<B, C> + D, E => constraint 1 8; type 1
        a::B<C>, m![d, e], F => type 7; type 3; type 1
        ",
    );
}

#[test]
fn broken_arguments_are_rejected(rt: HostRuntime) {
    check(
        &rt,
        &Arguments,
        "
        , => error at 0
        A,, => type 1; error at 0
        A B => error at 1
        A; => error at 1
        -x => error at 1
        - => missing after 1
        3 + 4 => error at 1
        Item = => missing after 2
        A:: => missing after 3
        A< => missing after 2
        A> => error at 1
        &A = B => error at 2
        (A): B => error at 1
        'a: 'b => error at 2
        ",
    );
}

#[test]
fn a_name_is_bound_to_a_constant(rt: HostRuntime) {
    check(
        &rt,
        &Arguments,
        r#"
        N = 3 => binding 1 1
        N = -3 => binding 1 2
        N = 'x', M = "y" => binding 1 1; binding 1 1
        N = true, M = false, => binding 1 1; binding 1 1
        N = { M + 1 }, T => binding 1 1; type 1
        N<'a, T> = 3 => binding 7 1
        N = A<M = 3> => binding 1 6
        "#,
    );
}

#[test]
fn a_broken_constant_after_a_name_is_rejected(rt: HostRuntime) {
    check(
        &rt,
        &Arguments,
        "
        N = - => missing after 3
        N = -x => error at 3
        N = -{ 3 } => error at 3
        N = 3 + 4 => error at 3
        N = 3 = 4 => error at 3
        N = true M => error at 3
        N: 3 => error at 2
        3 = N => error at 1
        ",
    );
}

#[test]
fn an_argument_is_read_with_the_trees_after_it(rt: HostRuntime) {
    check(&rt, &FirstArgument, "A<B>; C => type 4, left 2");
}

// A macro by example passes `$b:block` in such a group.
#[test]
fn a_block_in_a_group_without_delimiters_is_a_constant(rt: HostRuntime) {
    check(&rt, &FirstArgument, "«{ N }» => const 1");
}

#[test]
fn a_constant_after_a_name_may_be_in_a_group_without_delimiters(rt: HostRuntime) {
    check(
        &rt,
        &Arguments,
        "
        N =«{ M }» => binding 1 1
        N =««3»», T => binding 1 1; type 1
        ",
    );
}
