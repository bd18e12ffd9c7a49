// The paths of types. The expected numbers of trees are counted in the texts by hand.
use crate::tests::checks::{Answer, Reads, check};
use declarations::{GenericArguments, PathArguments, parse_type_path};
use proc_macro2::TokenTree;

/// A path: the name of its last segment, and `<>` or `()` if arguments follow the name in such brackets.
///
/// `prefix` counts the trees before the name, and `inside` those in the brackets. `arguments` is the number of
/// arguments in `<>`. `output` counts the trees of the type after `->`.
struct Path;

impl Reads for Path {
    fn put(&self, trees: &[TokenTree], out: &mut Answer) {
        let path = match parse_type_path(trees) {
            Ok(path) => path,
            Err(fault) => return out.error(&fault),
        };
        let prefix = path.prefix.len();
        out.show(path.name);
        match path.arguments {
            PathArguments::None => out.part("prefix", prefix),
            PathArguments::AngleBracketed(inside) => {
                out.text("<>");
                out.part("prefix", prefix);
                out.part("inside", inside.len());
                out.part("arguments", count_arguments(inside));
            }
            PathArguments::Parenthesized(group, output) => {
                out.text("()");
                out.part("prefix", prefix);
                out.part("inside", group.stream_ref().trees().len());
                out.part("output", output.len());
            }
        }
    }
}

/// The number of generic arguments in these trees, up to an error.
fn count_arguments(trees: &[TokenTree]) -> usize {
    let mut count = 0usize;
    for argument in GenericArguments::new(trees) {
        if argument.is_ok() {
            count = count.saturating_add(1);
        }
    }
    count
}

#[test]
fn the_last_segment_has_the_name(rt: HostRuntime) {
    check(
        &rt,
        &Path,
        "
        T => T
        ::T => T, prefix 2
        a::T => T, prefix 3
        ::a::b::T => T, prefix 8
        self::T => T, prefix 3
        super::super::T => T, prefix 6
        crate::a::T => T, prefix 6
        Self::T => T, prefix 3
        A<B>::T => T, prefix 6
        A<B, C<D>>::b::T => T, prefix 14
        Fn(A)::T => T, prefix 4
        a::<B>::T => T, prefix 8
        T::a => a, prefix 3
        r#T => r#T
        ",
    );
    check(&rt, &Path, "Self => Self");
    check(
        &rt,
        &Path,
        "
        union => union
        auto::union => union, prefix 3
        ",
    );
}

#[test]
fn arguments_are_in_angle_brackets_or_parentheses(rt: HostRuntime) {
    check(
        &rt,
        &Path,
        "
        A<T> => A<>, inside 1, arguments 1
        A<> => A<>
        A<T,> => A<>, inside 2, arguments 1
        std::a::A<T> => A<>, prefix 6, inside 1, arguments 1
        A::<T> => A<>, inside 1, arguments 1
        ::a::A::<T, U> => A<>, prefix 5, inside 3, arguments 2
        A<B<C>> => A<>, inside 4, arguments 1
        A<B<C, D>, E> => A<>, inside 8, arguments 2
        A<<T as B>::C, 3> => A<>, inside 10, arguments 2
        A<T, N = -3> => A<>, inside 6, arguments 2
        A<'a, T, 3, { N }, -1, Item = U, Item: 'a + B> => A<>, inside 22, arguments 7
        A<&'a [T; N], (B, C), fn(D, E) -> F, dyn G + H> => A<>, inside 17, arguments 4
        b::A<A<T>> => A<>, prefix 3, inside 4, arguments 1
        A(B, C) => A(), inside 3
        A() => A()
        A(B) -> C<D> => A(), inside 1, output 4
        a::A(B) -> c::A => A(), prefix 3, inside 1, output 4
        A::(B) -> C => A(), inside 1, output 1
        ",
    );
}

#[test]
fn other_types_and_broken_paths_are_rejected(rt: HostRuntime) {
    check(
        &rt,
        &Path,
        "
        => missing after 0
        :: => missing after 2
        a:: => missing after 3
        A< => missing after 2
        A<T => missing after 3
        A<T, => missing after 4
        A<Item = => missing after 4
        A(B) -> => missing after 4
        A::<T>:: => missing after 8
        &A => error at 0
        [A] => error at 0
        (A) => error at 0
        <T as B>::A => error at 0
        dyn A => error at 0
        impl A => error at 0
        fn() => error at 0
        _ => error at 0
        ! => error at 0
        'a => error at 0
        A!() => error at 1
        A + B => error at 1
        A B => error at 1
        A<B><C> => error at 4
        A<B>::<C> => error at 6
        A::<B>::<C> => error at 8
        A<B>(C) => error at 4
        A(B)<C> => error at 2
        a::::A => error at 3
        a::fn::A => error at 3
        A<,> => error at 2
        A<T,,> => error at 4
        A<T; U> => error at 3
        A<'a + B> => error at 4
        A<N = 3 4> => error at 5
        A<T as B> => error at 3
        ",
    );
}

#[test]
fn groups_without_delimiters_are_looked_through(rt: HostRuntime) {
    check(
        &rt,
        &Path,
        "
        a::A<T> => A<>, prefix 3, inside 1, arguments 1
        «a::A<T>» => A<>, prefix 3, inside 1, arguments 1
        ««a::A<T>»» => A<>, prefix 3, inside 1, arguments 1
        «««««a::A<T>»»»»» => A<>, prefix 3, inside 1, arguments 1
        A + B => error at 1
        «A + B» => error at 1
        ««A + B»» => error at 1
        «««««A + B»»»»» => error at 1
        => missing after 0
        «» => missing after 0
        ««»» => missing after 0
        «««««»»»»» => missing after 0
        ",
    );
}

// A macro by example passes `$b:block` so, also through several macros.
#[test]
fn a_block_in_groups_without_delimiters_is_an_argument(rt: HostRuntime) {
    check(
        &rt,
        &Path,
        "
        a::A<«{ N + 1 }», T> => A<>, prefix 3, inside 3, arguments 2
        a::A<««{ N + 1 }»», T> => A<>, prefix 3, inside 3, arguments 2
        a::A<«««««{ N + 1 }»»»»», T> => A<>, prefix 3, inside 3, arguments 2
        «{ N + 1 }» => error at 0
        ««{ N + 1 }»» => error at 0
        «««««{ N + 1 }»»»»» => error at 0
        ",
    );
}
