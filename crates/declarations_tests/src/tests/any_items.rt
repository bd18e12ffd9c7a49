// The item that each text begins with.
use crate::tests::checks::{Answer, Reads, check};
use declarations::split_any_item;
use proc_macro2::TokenTree;

/// The item that the trees begin with: its kind, the number of its trees, and its name, if it has one.
pub struct FirstItem;

impl Reads for FirstItem {
    fn put(&self, trees: &[TokenTree], out: &mut Answer) {
        match split_any_item(trees) {
            Ok((item, _)) => {
                out.debug(&item.kind);
                out.count("", item.trees.len());
                if let Some(name) = item.name {
                    out.text(" ");
                    out.show(name);
                }
            }
            Err(fault) => out.error(&fault),
        }
    }
}

#[test]
fn an_item_has_a_kind_and_a_name(rt: HostRuntime) {
    check(
        &rt,
        &FirstItem,
        r#"
        pub const unsafe extern "C" fn f<T>(x: T) -> Vec<T> where T: A {} fn => Function 22 f
        fn union(); x => Function 4 union
        extern "C" fn f() {} => Function 6 f
        const safe fn f() {} => Function 6 f
        const safe: u8 = 1 + 2; x => Constant 9 safe
        const _: () = {}; => Constant 7 _
        pub(crate) static mut A: B; => Static 8 A
        type A<T>: B = C where T: D; => TypeAlias 14 A
        unsafe auto trait T {} => Trait 5 T
        trait T: A + 'a where Self: B {} => Trait 12 T
        trait T = A + B; => TraitAlias 7 T
        impl<T: A> B for C<T> where T: D {} x => Impl 17
        impl <T as U>::V {} => Impl 10
        impl Trait for for<'a> fn(&'a u8) {} => Impl 11
        impl !A for B {} => Impl 6
        impl ! {} => Impl 3
        default unsafe impl A for B {} => Impl 7
        mod m { fn f() {} } x => Module 3 m
        use a::{b, c as d}; x => Use 6
        use a as _; => Use 5
        extern crate self as a; => ExternCrate 6 self
        unsafe extern "C" { fn f(); } => ExternBlock 4
        macro m($x:expr) { 1 } => Macro 4 m
        macro_rules! m { () => {} } x => MacroCall 4 m
        a::b!(c); x => MacroCall 7
        union! {} => MacroCall 3
        union U { a: u8 } => Union 3 U
        #[a] struct S(u8); => Struct 6 S
        enum E {} => Enum 3 E
        "#,
    );
}

#[test]
fn gen_is_a_qualifier_of_functions(rt: HostRuntime) {
    check(
        &rt,
        &FirstItem,
        r#"
        gen fn f() {} x => Function 5 f
        pub gen fn f() {} x => Function 6 f
        async gen fn f() {} => Function 6 f
        const gen fn f() {} => Function 6 f
        const async gen fn f(); => Function 7 f
        gen unsafe fn f() {} => Function 6 f
        pub gen safe fn f(); => Function 7 f
        const gen safe fn f(); => Function 7 f
        gen extern fn f() {} => Function 6 f
        const gen unsafe extern "C" fn f() {} => Function 9 f
        default gen fn f() {} => Function 6 f
        default const async gen unsafe extern fn f() {} x => Function 10 f
        gen fn gen() {} => Function 5 gen
        "#,
    );
}

#[test]
fn gen_is_a_name_where_no_function_follows(rt: HostRuntime) {
    check(
        &rt,
        &FirstItem,
        "
        gen!(); x => MacroCall 4
        gen::f!{} x => MacroCall 6
        a::gen!{} => MacroCall 6
        r#gen!{} => MacroCall 3
        macro_rules! gen {} => MacroCall 4 gen
        fn gen() {} => Function 4 gen
        const gen: u8 = 1; x => Constant 7 gen
        const gen<T>: u8 = 1; => Constant 10 gen
        default const gen: gen; => Constant 6 gen
        const r#gen: u8 = 1; => Constant 7 r#gen
        static gen: gen = gen; => Static 7 gen
        type gen<gen> = gen; => TypeAlias 8 gen
        struct gen(gen); => Struct 4 gen
        union gen { gen: gen } => Union 3 gen
        trait gen: gen {} => Trait 5 gen
        impl<gen> gen for gen<gen> {} => Impl 11
        mod gen; => Module 3 gen
        use gen::gen as gen; => Use 8
        extern crate gen; => ExternCrate 4 gen
        ",
    );
}

#[test]
fn what_comes_first_leads_to_the_kind(rt: HostRuntime) {
    check(
        &rt,
        &FirstItem,
        "
        default impl A for B {} x => Impl 6
        default type A = B; x => TypeAlias 6 A
        default unsafe fn f() {} => Function 6 f
        safe static A: B; x => Static 6 A
        safe fn f(); x => Function 5 f
        unsafe mod m {} x => Module 4 m
        unsafe static mut A: B = c; => Static 9 A
        unsafe trait T = A; x => TraitAlias 6 T
        unsafe extern fn f(); x => Function 6 f
        extern {} x => ExternBlock 2
        auto trait T {} x => Trait 4 T
        use ::a::*; x => Use 8
        use {a, b}; x => Use 3
        ",
    );
}

#[test]
fn a_trait_may_have_const_before_it(rt: HostRuntime) {
    check(
        &rt,
        &FirstItem,
        "
        const trait T { fn f(); } x => Trait 4 T
        pub const trait T: A {} x => Trait 7 T
        #[a] pub(crate) const trait T<U> where U: A {} => Trait 15 T
        default const trait T {} x => Trait 5 T
        const trait T = A + B; x => TraitAlias 8 T
        const trait gen {} => Trait 4 gen
        const r#trait: u8 = 1; => Constant 7 r#trait
        const auto: u8 = 1; => Constant 7 auto
        ",
    );
}

#[test]
fn the_path_of_a_macro_call_may_begin_with_any_word(rt: HostRuntime) {
    check(
        &rt,
        &FirstItem,
        "
        auto!{} x => MacroCall 3
        default::a!(b); x => MacroCall 7
        safe!(x); x => MacroCall 4
        self::a!{} x => MacroCall 6
        ::a::b! c {} x => MacroCall 9 c
        ",
    );
}
