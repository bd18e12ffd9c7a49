// Items, fields, variants and their parts, with the number of trees in each part.
use crate::tests::checks::{Answer, Reads, check};
use declarations::{
    Body, Field, Fields, Variant, is_keyword, parse_field, parse_tuple_field, parse_type_item,
    parse_variant,
};
use proc_macro2::TokenTree;

/// The shape of a struct or a variant, after a comma.
fn shape_of(fields: &Fields<'_>) -> &'static str {
    match fields {
        Fields::Named(_) => ", named",
        Fields::Tuple(_) => ", tuple",
        Fields::Unit => ", unit",
    }
}

/// Writes a field: its name, if it has one, its type, and its other parts.
pub fn put_field(out: &mut Answer, field: &Field<'_>) {
    if let Some(name) = field.name {
        out.show(name);
        out.text(", ");
    }
    out.count("type", field.field_type.len());
    out.part("attributes", field.attributes.len());
    out.part("visibility", field.visibility.len());
}

/// Writes a variant: its name, its shape, and its other parts.
pub fn put_variant(out: &mut Answer, variant: &Variant<'_>) {
    out.show(variant.name);
    out.text(shape_of(&variant.fields));
    out.part("attributes", variant.attributes.len());
    out.part("visibility", variant.visibility.len());
    out.part("discriminant", variant.discriminant.len());
}

/// A struct, an enum or a union: its name, the shape of its body, and its other parts.
struct Item;

impl Reads for Item {
    fn put(&self, trees: &[TokenTree], out: &mut Answer) {
        let item = match parse_type_item(trees) {
            Ok(item) => item,
            Err(fault) => return out.error(&fault),
        };
        let shape = match &item.body {
            Body::Struct(fields) => shape_of(fields),
            Body::Enum(_) => ", enum",
            Body::Union(_) => ", union",
        };
        out.show(item.name);
        out.text(shape);
        out.part("attributes", item.attributes.len());
        out.part("visibility", item.visibility.len());
        out.part("generics", item.generics.len());
        out.part("where", item.where_clause.len());
        out.part("semicolon", item.semicolon.len());
    }
}

/// The field that the trees begin with.
struct FirstField {
    /// Whether the field has a name.
    named: bool,
}

impl Reads for FirstField {
    fn put(&self, trees: &[TokenTree], out: &mut Answer) {
        let found = if self.named {
            parse_field(trees)
        } else {
            parse_tuple_field(trees)
        };
        match found {
            Ok((field, _)) => put_field(out, &field),
            Err(fault) => out.error(&fault),
        }
    }
}

/// The variant that the trees begin with.
struct FirstVariant;

impl Reads for FirstVariant {
    fn put(&self, trees: &[TokenTree], out: &mut Answer) {
        match parse_variant(trees) {
            Ok((variant, _)) => put_variant(out, &variant),
            Err(fault) => out.error(&fault),
        }
    }
}

#[test]
fn items_have_their_parts_in_order(rt: HostRuntime) {
    check(
        &rt,
        &Item,
        "
        struct S; => S, unit, semicolon 1
        pub(crate) struct S<T>(T) where T: A; => S, tuple, visibility 2, generics 3, where 4, semicolon 1
        #[a] #[b] struct S<T> where T: A { a: T } => S, named, attributes 4, generics 3, where 4
        struct S where A: B; => S, unit, where 4, semicolon 1
        pub struct union(crate); => union, tuple, visibility 1, semicolon 1
        pub enum E<'a, const N: usize = 3> { A(B) } => E, enum, visibility 1, generics 11
        union U { a: u8 } => U, union
        struct S; fn => error at 3
        struct S<T { a: T } => error at 4
        struct S(u8) {} => error at 3
        struct => missing after 1
        => missing after 0
        ",
    );
    check(
        &rt,
        &FirstField { named: true },
        "
        #[a] pub x: Vec<A, B>, y: C => x, type 6, attributes 2, visibility 1
        union: union => union, type 1
        pub x => missing after 2
        ",
    );
    check(
        &rt,
        &FirstField { named: false },
        "
        #[a] pub (A, B), C => type 1, attributes 2, visibility 1
        pub(crate) A => type 1, visibility 2
        #[a] => missing after 2
        ",
    );
    check(
        &rt,
        &FirstVariant,
        "
        #[a] B { c: D } = f::<X, Y>(), C => B, named, attributes 2, discriminant 9
        B(A), C => B, tuple
        pub B = -1 => B, unit, visibility 1, discriminant 2
        B => B, unit
        B = => missing after 2
        fn => error at 0
        ",
    );
}

/// The names among the trees that are keywords.
struct Keywords;

impl Reads for Keywords {
    fn put(&self, trees: &[TokenTree], out: &mut Answer) {
        for tree in trees {
            match tree {
                TokenTree::Ident(ident) if is_keyword(ident) => {
                    out.separate();
                    out.show(ident);
                }
                _ => {}
            }
        }
    }
}

#[test]
fn keywords_are_no_names(rt: HostRuntime) {
    check(
        &rt,
        &Keywords,
        "struct _ Self dyn yield try union auto gen r#struct => struct; _; Self; dyn; yield",
    );
}
