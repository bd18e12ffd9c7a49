// The parts of functions. The expected numbers of trees are counted in the texts by hand.
use crate::tests::checks::{Answer, Reads, check, check_text};
use declarations::{Parameters, parse_function};
use proc_macro2::{Group, TokenTree};

/// A function: its name, its parts, and whether it has a body. `parameters` is the number of parameters before an error
/// in them.
struct Signature;

impl Reads for Signature {
    fn put(&self, trees: &[TokenTree], out: &mut Answer) {
        let function = match parse_function(trees) {
            Ok(function) => function,
            Err(fault) => return out.error(&fault),
        };
        out.show(function.name);
        out.part("attributes", function.attributes.len());
        out.part("visibility", function.visibility.len());
        out.part("qualifiers", function.qualifiers.len());
        out.part("generics", function.generics.len());
        out.part("parameters", count_parameters(function.parameters));
        out.part("return", function.return_type.len());
        out.part("where", function.where_clause.len());
        match function.body {
            Some(_) => out.text(", body"),
            None => out.text(", no body"),
        }
    }
}

/// The number of parameters in these parentheses, up to an error.
fn count_parameters(group: &Group) -> usize {
    let mut count = 0usize;
    for parameter in Parameters::new(group) {
        if parameter.is_ok() {
            count = count.saturating_add(1);
        }
    }
    count
}

#[test]
fn qualifiers_come_before_fn_in_order(rt: HostRuntime) {
    check(
        &rt,
        &Signature,
        r#"
        fn f() {} => f, body
        const fn f() {} => f, qualifiers 1, body
        async fn f() {} => f, qualifiers 1, body
        unsafe fn f() {} => f, qualifiers 1, body
        safe fn f(); => f, qualifiers 1, no body
        default fn f() {} => f, qualifiers 1, body
        extern fn f() {} => f, qualifiers 1, body
        extern "C" fn f() {} => f, qualifiers 2, body
        unsafe extern "C" fn f(); => f, qualifiers 3, no body
        const unsafe extern r"C" fn f() {} => f, qualifiers 4, body
        async unsafe extern fn f() {} => f, qualifiers 3, body
        default const async unsafe extern "C" fn f() {} => f, qualifiers 6, body
        const async fn f() {} => f, qualifiers 2, body
        gen fn f() {} => f, qualifiers 1, body
        async gen fn f() {} => f, qualifiers 2, body
        #[a] pub gen fn f(); => f, attributes 2, visibility 1, qualifiers 1, no body
        const gen unsafe extern "C" fn f() {} => f, qualifiers 5, body
        default const async gen safe extern fn f(); => f, qualifiers 6, no body
        pub(crate) default unsafe fn f(); => f, visibility 2, qualifiers 2, no body
        "#,
    );
}

#[test]
fn attributes_and_a_visibility_come_first(rt: HostRuntime) {
    check_text(
        &rt,
        &Signature,
        "/// It is.\n#[inline] pub const fn f() {}",
        "f, attributes 4, visibility 1, qualifiers 1, body",
    );
    check(
        &rt,
        &Signature,
        r#"
        pub fn f() {} => f, visibility 1, body
        pub(self) fn f(); => f, visibility 2, no body
        pub(in a::b) async fn f() {} => f, visibility 2, qualifiers 1, body
        #[a] #[b(c)] fn f() {} => f, attributes 4, body
        #[unsafe(no_mangle)] pub extern "C" fn f() {} => f, attributes 2, visibility 1, qualifiers 2, body
        "#,
    );
}

#[test]
fn generics_and_parameters_follow_the_name(rt: HostRuntime) {
    check(
        &rt,
        &Signature,
        r#"
        fn f<T>(x: T) {} => f, generics 3, parameters 1, body
        fn f<>() {} => f, generics 2, body
        fn f<'a, T: A<B> = C, const N: usize = 3>(x: &'a [T; N], y: u8) {} => f, generics 20, parameters 2, body
        fn f<F: Fn(A, B) -> C>(f: F) {} => f, generics 9, parameters 1, body
        fn f<T: A<B<C>>>(x: T); => f, generics 11, parameters 1, no body
        fn f(&self); => f, parameters 1, no body
        fn f(&'a mut self, x: u8) {} => f, parameters 2, body
        fn f(mut self: Box<Self>,) {} => f, parameters 1, body
        fn f((a, b): (A, B), #[c] [d]: [D; 1], _: E) {} => f, parameters 3, body
        fn f(g: fn(A, B) -> C, h: &dyn Fn(A) -> B) {} => f, parameters 2, body
        unsafe extern "C" fn f(x: *const u8, ...); => f, qualifiers 3, parameters 2, no body
        // Its parameters have a fault.
        fn f(crate) {} => f, body
        "#,
    );
}

#[test]
fn a_return_type_and_a_where_clause_come_before_the_body(rt: HostRuntime) {
    check(
        &rt,
        &Signature,
        "
        fn f() -> u8 { 0 } => f, return 1, body
        fn f() -> ! {} => f, return 1, body
        fn f() -> (); => f, return 1, no body
        fn f() -> impl Fn(A) -> B {} => f, return 6, body
        fn f() -> fn(A) -> fn(B) -> C; => f, return 9, no body
        fn f() -> Vec<Vec<T>> {} => f, return 7, body
        fn f() -> <T as A>::B {} => f, return 8, body
        fn f() -> impl A + use<'a, T> {} => f, return 10, body
        fn f() -> Result<(), Box<dyn E + 'a>> where 'a: 'b; => f, return 13, where 6, no body
        fn f<T>(x: T) where T: A {} => f, generics 3, parameters 1, where 4, body
        fn f<T>() -> Vec<T> where T: A, [T; 2]: B, {} => f, generics 3, return 4, where 9, body
        fn f<F>(f: F) where F: Fn(A) -> B; => f, generics 3, parameters 1, where 8, no body
        fn f() where {} => f, where 1, body
        fn f(&self) -> Self::A where Self: Sized; => f, parameters 1, return 4, where 4, no body
        ",
    );
}

#[test]
fn a_name_is_no_keyword(rt: HostRuntime) {
    check(
        &rt,
        &Signature,
        "
        fn r#fn() {} => r#fn, body
        fn union() {} => union, body
        fn auto() {} => auto, body
        default fn default() {} => default, qualifiers 1, body
        safe fn safe(); => safe, qualifiers 1, no body
        fn gen() {} => gen, body
        gen fn gen() {} => gen, qualifiers 1, body
        async gen fn r#gen() {} => r#gen, qualifiers 2, body
        fn fn() {} => error at 1
        fn _() {} => error at 1
        fn self() {} => error at 1
        fn 1() {} => error at 1
        fn () {} => error at 1
        fn g() {} => g, body
        ",
    );
}

#[test]
fn a_fault_is_before_the_first_tree_that_does_not_fit(rt: HostRuntime) {
    check(
        &rt,
        &Signature,
        "
        => missing after 0
        #[a] pub => missing after 3
        const unsafe => missing after 2
        async gen => missing after 2
        fn => missing after 1
        fn f => missing after 2
        fn f<T> => missing after 5
        fn f() => missing after 3
        fn f() -> => missing after 5
        fn f() -> A => missing after 6
        fn f() where T: => missing after 6
        fn f() -> {} => error at 5
        fn f() - A {} => error at 3
        fn f {} => error at 2
        fn f[] {} => error at 2
        fn f<T() {} => error at 4
        fn f() where T {} => error at 5
        fn f() = x; => error at 3
        fn f() [] => error at 3
        fn f() {} x => error at 4
        fn f() {} ; => error at 4
        fn f();; => error at 4
        fn f() {} fn g() {} => error at 4
        # fn f() {} => error at 1
        #![a] fn f() {} => error at 0
        pub (A) fn f() {} => error at 1
        pub pub fn f() {} => error at 1
        const pub fn f() {} => error at 1
        ",
    );
}

#[test]
fn qualifiers_in_another_order_and_other_items_are_faults(rt: HostRuntime) {
    check(
        &rt,
        &Signature,
        r#"
        async const fn f() {} => error at 1
        unsafe async fn f() {} => error at 1
        extern unsafe fn f() {} => error at 1
        extern "C" "D" fn f() {} => error at 2
        const const fn f() {} => error at 1
        unsafe safe fn f(); => error at 1
        const default fn f() {} => error at 1
        gen async fn f() {} => error at 1
        unsafe gen fn f() {} => error at 1
        gen gen fn f() {} => error at 1
        gen default fn f() {} => error at 1
        // A raw identifier is a plain word.
        r#gen fn f() {} => error at 0
        async r#gen fn f() {} => error at 1
        gen!(); => error at 1
        struct S; => error at 0
        pub struct S; => error at 1
        const F: u8 = 1; => error at 1
        extern "C" { fn f(); } => error at 2
        extern crate a; => error at 1
        unsafe impl A for B {} => error at 1
        f!(); => error at 0
        "#,
    );
}

#[test]
fn a_group_without_delimiters_may_be_the_visibility(rt: HostRuntime) {
    check(
        &rt,
        &Signature,
        "
        «pub»fn f() {} => f, visibility 1, body
        «pub(crate)»const fn f(); => f, visibility 1, qualifiers 1, no body
        «»unsafe fn f() {} => f, visibility 1, qualifiers 1, body
        «fn f() {}» => error at 0
        «const»fn f() {} => error at 0
        «pub»pub fn f() {} => error at 1
        ",
    );
}

// A macro by example passes `$b:block` so.
#[test]
fn a_body_may_be_in_groups_without_delimiters(rt: HostRuntime) {
    check(
        &rt,
        &Signature,
        "
        fn f()«{ x }» => f, body
        pub fn f(x: T) -> A««{ x }»» => f, visibility 1, parameters 1, return 1, body
        fn f() where T: A,«««««««««{}»»»»»»»»» => f, where 5, body
        fn f() where T:«{}» => f, where 3, body
        fn f() where«{}» => f, where 1, body
        fn f()«{ x } y» => error at 3
        fn f()«(x)» => error at 3
        fn f()«» => error at 3
        fn f()«{ x }»{} => error at 4
        fn f()««{ x }»»; => error at 4
        fn f() ->«{ x }»{} => error at 5
        fn f«{ x }» => error at 2
        ",
    );
}
