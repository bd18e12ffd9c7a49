// The signs that an error says were expected.
use crate::tests::checks::{Answer, Reads, check, parsed, row_of};
use declarations::{
    Entries, Fault, FieldList, GenericArguments, Items, Keyword, Parameters, SignClass,
    VariantList, Word, after_where, parse_entry, parse_file, parse_function,
    parse_generic_argument, parse_impl, parse_item, parse_param, parse_parameter, parse_predicate,
    parse_type_item, parse_type_path, split_attributes, split_field, split_generics, split_pattern,
    split_variant, split_where, within_generics,
};
use proc_macro2::TokenTree;
use std::process::Abort;
use test_helpers::release;

/// A call that returns an error. The answer is what the error says.
pub enum Call {
    AfterWhere,
    ParseItem,
    ParseTypeItem,
    Argument,
    ArgumentList,
    Attributes,
    Entry,
    EntryList,
    Field,
    FieldList,
    File,
    Function,
    Generics,
    Impl,
    InGenerics,
    Items,
    Param,
    Parameter,
    ParameterList,
    Path,
    Pattern,
    Predicate,
    TupleFieldList,
    Variant,
    VariantList,
    Where,
}

/// The error of the first element of a list, if it has one.
fn error_of<T>(first: &Option<Result<T, Fault>>) -> Option<Fault> {
    match first {
        Some(Err(fault)) => Some(*fault),
        _ => None,
    }
}

/// The error of the call for these trees, if it returns one.
///
/// The calls are matched by three functions, because the proof of a function grows with the square of its calls.
fn fault_of(call: &Call, trees: &[TokenTree]) -> Option<Fault> {
    match call {
        Call::AfterWhere => after_where(trees).err(),
        Call::ParseItem => parse_item(trees).err(),
        Call::ParseTypeItem => parse_type_item(trees).err(),
        Call::File => parse_file(trees).err(),
        Call::Function => parse_function(trees).err(),
        Call::Impl => parse_impl(trees).err(),
        Call::InGenerics => within_generics(trees).err(),
        Call::Path => parse_type_path(trees).err(),
        Call::ArgumentList
        | Call::EntryList
        | Call::FieldList
        | Call::Items
        | Call::ParameterList
        | Call::TupleFieldList
        | Call::VariantList => fault_of_list(call, trees),
        Call::Argument
        | Call::Attributes
        | Call::Entry
        | Call::Field
        | Call::Generics
        | Call::Param
        | Call::Parameter
        | Call::Pattern
        | Call::Predicate
        | Call::Variant
        | Call::Where => fault_of_part(call, trees),
    }
}

/// The error of the first element of a list, if the call reads a list.
fn fault_of_list(call: &Call, left: &[TokenTree]) -> Option<Fault> {
    match call {
        Call::ArgumentList => error_of(&GenericArguments::new(left).next()),
        Call::EntryList => error_of(&Entries { left }.next()),
        Call::FieldList => error_of(&FieldList { named: true, left }.next()),
        Call::Items => error_of(&Items { left }.next()),
        Call::ParameterList => error_of(&Parameters { left }.next()),
        Call::TupleFieldList => error_of(&FieldList { named: false, left }.next()),
        Call::VariantList => error_of(&VariantList { left }.next()),
        _ => None,
    }
}

/// The error of the part that the trees begin with, if the call reads a part.
fn fault_of_part(call: &Call, trees: &[TokenTree]) -> Option<Fault> {
    match call {
        Call::Argument => parse_generic_argument(trees).err(),
        Call::Attributes => split_attributes(trees).err(),
        Call::Entry => parse_entry(trees).err(),
        Call::Field => split_field(trees).err(),
        Call::Generics => split_generics(trees).err(),
        Call::Param => parse_param(trees).err(),
        Call::Parameter => parse_parameter(trees).err(),
        Call::Pattern => split_pattern(trees).err(),
        Call::Predicate => parse_predicate(trees).err(),
        Call::Variant => split_variant(trees).err(),
        Call::Where => split_where(trees).err(),
        _ => None,
    }
}

impl Reads for Call {
    fn put(&self, trees: &[TokenTree], out: &mut Answer) {
        match fault_of(self, trees) {
            Some(fault) => out.show(&fault),
            None => out.text("no error"),
        }
    }
}

/// The signs that rows name, with their classes.
const SIGNS: &[(&str, SignClass)] = &[
    ("name", SignClass::Word(Word::Plain)),
    ("gen", SignClass::Word(Word::Gen)),
    ("async", SignClass::Keyword(Keyword::Async)),
    ("const", SignClass::Keyword(Keyword::Const)),
    ("extern", SignClass::Keyword(Keyword::Extern)),
    ("fn", SignClass::Keyword(Keyword::Fn)),
    ("impl", SignClass::Keyword(Keyword::Impl)),
    ("struct", SignClass::Keyword(Keyword::Struct)),
    ("trait", SignClass::Keyword(Keyword::Trait)),
    ("unsafe", SignClass::Keyword(Keyword::Unsafe)),
    ("where", SignClass::Keyword(Keyword::Where)),
    ("self", SignClass::SelfValue),
    ("Self", SignClass::SelfType),
    ("super", SignClass::Super),
    ("true", SignClass::Truth),
    ("literal", SignClass::Literal),
    ("lifetime", SignClass::Lifetime),
    ("(crate)", SignClass::Restriction),
    ("(", SignClass::Parentheses),
    ("[", SignClass::Brackets),
    ("{", SignClass::Braces),
    ("block", SignClass::Block),
    ("_", SignClass::Underscore),
    ("::", SignClass::PathSeparator),
    ("->", SignClass::Arrow),
    ("<", SignClass::Less),
    (">", SignClass::Greater),
    (",", SignClass::Comma),
    (":", SignClass::Colon),
    (";", SignClass::Semicolon),
    ("=", SignClass::Equals),
    ("+", SignClass::Plus),
    ("-", SignClass::Minus),
    ("&", SignClass::And),
    ("!", SignClass::Exclamation),
    ("#", SignClass::Hash),
    ("|", SignClass::Bar),
    (".", SignClass::Dot),
];

/// The class of a sign by its name, which is in the table.
fn class_named(rt: &impl Abort, name: &str) -> SignClass {
    let mut found = None;
    for &(sign, class) in SIGNS {
        if sign == name {
            found = Some(class);
        }
    }
    found.expect(rt, name)
}

/// Whether the error has the sign. The sign `end` is the end of the trees.
fn has_sign(rt: &impl Abort, fault: &Fault, name: &str) -> bool {
    if name == "end" {
        fault.expected().has_end()
    } else {
        fault.expected().contains(class_named(rt, name))
    }
}

/// Asserts that the error has each of these signs, or none of them.
fn check_names(rt: &impl Abort, fault: &Fault, text: &str, names: &str, wanted: bool) {
    for name in names.split(' ') {
        assert!(rt; has_sign(rt, fault, name) == wanted, "{name} of {text:?}");
    }
}

/// Checks an error of this text.
///
/// A row has the number of trees before the error, the signs that are expected there, and after `not` signs that are
/// not. The end is expected if `end` is the last sign before `not`, and only then.
fn check_fault(rt: &impl Abort, fault: &Fault, text: &str, wanted: &str) {
    let (at, signs) = wanted.split_once(' ').expect(rt, wanted);
    let (expected, others) = signs.split_once(" not ").expect(rt, wanted);
    let count: usize = at.parse().ok().expect(rt, wanted);
    assert!(rt; count == fault.at, "{} and not {at} of {text:?}", fault.at);
    check_names(rt, fault, text, expected, true);
    check_names(rt, fault, text, others, false);
    check_names(rt, fault, text, "end", expected.ends_with("end"));
}

/// Checks the error of one text.
fn check_row(rt: &(impl Abort + AllocGlobal), call: &Call, text: &str, wanted: &str) {
    let stream = parsed(rt, text);
    let fault = fault_of(call, stream.trees()).expect(rt, text);
    check_fault(rt, &fault, text, wanted);
    release(stream);
}

/// Checks the errors of the texts in the table.
fn check_signs(rt: &(impl Abort + AllocGlobal), call: &Call, table: &str) {
    let mut any = false;
    for line in table.lines() {
        if let Some((text, wanted)) = row_of(rt, line) {
            check_row(rt, call, text, wanted);
            any = true;
        }
    }
    assert!(rt; any, "a table with rows");
}

#[test]
fn an_error_has_the_signs_that_can_come_next(rt: HostRuntime) {
    check_signs(
        &rt,
        &Call::ParseTypeItem,
        "
        struct 5 => 1 name gen not literal ; where
        struct S => 2 < ( { ; where not name [ block
        struct S; x => 3 end not name ;
        ",
    );
    check_signs(
        &rt,
        &Call::ParseItem,
        "
        fn f() -> {} => 5 name & < ! not { ; ->
        const struct => 1 name _ fn trait not struct :
        ",
    );
    check_signs(
        &rt,
        &Call::Field,
        "
        x y => 1 : not :: , name
        x: Vec<u8 => 5 > , :: not ; name literal
        ",
    );
    check_signs(&rt, &Call::Variant, "A = => 2 literal - name not ,");
    check_signs(&rt, &Call::Attributes, "#[a] # b => 3 [ not ! name");
    check_signs(&rt, &Call::Generics, "<T U> => 2 : = , > not name lifetime");
    check_signs(&rt, &Call::Where, "where T; => 2 : :: < not , ; {");
}

#[test]
fn an_error_of_a_function_or_an_impl_has_the_signs_that_can_come_next(rt: HostRuntime) {
    check_signs(
        &rt,
        &Call::Function,
        "
        const struct => 1 async gen extern fn not const name #
        fn f() -> ; => 5 name & < not ; { where
        fn f() = ; => 3 -> where { ; not : name
        fn f(); ; => 4 end not ; name
        ",
    );
    check_signs(
        &rt,
        &Call::Impl,
        "
        unsafe fn => 1 impl not fn <
        impl T for ; => 3 name & not ; {
        ",
    );
}

#[test]
fn an_error_of_a_part_has_the_signs_that_can_come_next(rt: HostRuntime) {
    check_signs(
        &rt,
        &Call::Parameter,
        "
        & mut ; => 2 self name ( not ; : lifetime
        x ; => 1 : :: self not , lifetime
        .. => 2 name . = < : not , |
        ",
    );
    check_signs(
        &rt,
        &Call::Pattern,
        "
        : => 0 name ( < . not : self
        . 5 => 1 . not name literal
        ",
    );
    check_signs(
        &rt,
        &Call::Argument,
        "
        - x => 1 literal not name -
        A = ; => 2 name & - literal true { block not = ;
        ",
    );
    check_signs(
        &rt,
        &Call::Entry,
        "
        a = = 1 => 2 literal - name not = ,
        a :: 1 => 3 name unsafe not literal true
        ",
    );
}

#[test]
fn a_list_without_a_comma_has_the_signs_that_can_come_there(rt: HostRuntime) {
    check_signs(
        &rt,
        &Call::FieldList,
        "a: u8 b: u8 => 3 , :: + end not name : ;",
    );
    check_signs(&rt, &Call::TupleFieldList, "u8 u8 => 1 , < end not name >");
    check_signs(&rt, &Call::VariantList, "A B => 1 , = ( { end not name :");
    check_signs(
        &rt,
        &Call::EntryList,
        "a b => 1 , = :: [ end not name literal",
    );
    check_signs(
        &rt,
        &Call::ParameterList,
        "self u8 => 1 , : end not name ::",
    );
    check_signs(&rt, &Call::ArgumentList, "A B => 1 , = : < end not name >");
}

#[test]
fn a_list_has_the_signs_of_the_part_that_it_cannot_read(rt: HostRuntime) {
    check_signs(&rt, &Call::FieldList, "x y => 1 : not , name");
    check_signs(&rt, &Call::TupleFieldList, "pub => 1 name (crate) not , :");
    check_signs(&rt, &Call::VariantList, "5 => 0 name # not , literal");
    check_signs(&rt, &Call::EntryList, "a = , => 2 literal name not , =");
    check_signs(&rt, &Call::ParameterList, "x, y => 1 : not ,");
    check_signs(&rt, &Call::ArgumentList, "- x => 1 literal not , name");
    check_signs(&rt, &Call::Items, "fn f() -> ; => 5 name & not ;");
    check_signs(
        &rt,
        &Call::File,
        "
        fn f() {} struct 5 => 5 name not literal ;
        #![a] #! b => 5 [ not # name
        ",
    );
}

#[test]
fn an_error_of_a_generic_parameter_or_a_predicate_has_the_signs_that_can_come_next(
    rt: HostRuntime,
) {
    check_signs(
        &rt,
        &Call::Param,
        "
        1 => 0 name lifetime # const not literal ,
        T U => 1 : = , end not name >
        'a = 1 => 2 : , end not =
        const N = 1 => 2 : not = ,
        const N: u8 = - N => 6 literal not name - ,
        ",
    );
    check_signs(
        &rt,
        &Call::Predicate,
        "
        T => 1 : :: < not , =
        T: A = B => 3 , + :: end not = :
        ",
    );
}

#[test]
fn an_error_of_a_path_has_the_signs_that_can_come_next(rt: HostRuntime) {
    check_signs(
        &rt,
        &Call::Path,
        "
        &T => 0 name Self :: not & <
        :: :: a => 2 name super not ::
        a::b c => 4 :: < ( end not name , ->
        a::5 => 3 name < ( not literal ::
        A<B C> => 3 , > = :: not name literal
        A<B, ; => 4 name lifetime > not , ;
        A<B> C => 4 :: end not name < (
        F(A) = B => 2 -> :: end not = <
        a::F(A) ->  => 7 name & not ->
        ",
    );
}

#[test]
fn an_error_of_a_pattern_says_what_was_expected(rt: HostRuntime) {
    check(
        &rt,
        &Call::Pattern,
        "
        : => expected a pattern
        . 5 => expected `.`
        ",
    );
    check(
        &rt,
        &Call::Parameter,
        "
        & mut ; => expected a pattern or `self`
        .. ; => expected `:` or more of the pattern
        ..5 ; => expected `:` or more of the pattern
        ",
    );
}

#[test]
fn an_error_of_a_list_or_a_path_says_what_was_expected(rt: HostRuntime) {
    check(
        &rt,
        &Call::FieldList,
        "a: u8 b: u8 => expected `,`, more of the type or the end",
    );
    check(
        &rt,
        &Call::VariantList,
        "A B => expected `,`, `=`, `{` or `(`, among others",
    );
    check(
        &rt,
        &Call::ParameterList,
        "self u8 => expected `,`, `:` or the end",
    );
    check(&rt, &Call::ArgumentList, "- x => expected a literal");
    check(&rt, &Call::File, "fn f() {} struct 5 => expected a name");
    check(
        &rt,
        &Call::ParseItem,
        "const struct => expected a name, `fn`, `trait` or `unsafe`, among others",
    );
    check(
        &rt,
        &Call::Param,
        "
        'a = 1 => expected `,`, `:` or the end
        const N = 1 => expected `:`
        ",
    );
    check(
        &rt,
        &Call::Path,
        "
        F(A) = B => expected `->`, `::` or the end
        A<B> C => expected `::` or the end
        ",
    );
}
