// The entries of attributes' lists. The crate syn 2 reads each text in the same way, unless a row says otherwise.
use crate::tests::checks::{Answer, Reads, check};
use crate::tests::expected::Call;
use declarations::{
    AttributeArgs, Attributes, Entries, Entry, EntryKind, SignClass, check_entries, parse_entry,
};
use proc_macro2::{Group, TokenTree};

/// Writes an entry: the trees of its path, and those after it. A literal has no path.
fn put_entry(out: &mut Answer, entry: &Entry<'_>) {
    if let EntryKind::Literal(literal) = entry.kind {
        return out.count("literal", literal.len());
    }
    out.count("path", entry.path.len());
    match entry.kind {
        EntryKind::List(group) => out.count(", list", group.stream_ref().trees().len()),
        EntryKind::Value(value) => out.count(", value", value.len()),
        EntryKind::Path | EntryKind::Literal(_) => {}
    }
}

/// The entries in the parentheses of an attribute.
struct EntryList;

impl Reads for EntryList {
    fn put(&self, trees: &[TokenTree], out: &mut Answer) {
        for entry in (Entries { left: trees }) {
            out.separate();
            match entry {
                Ok(entry) => put_entry(out, &entry),
                Err(fault) => out.error(&fault),
            }
        }
    }
}

#[test]
fn each_entry_is_given(rt: HostRuntime) {
    check(
        &rt,
        &EntryList,
        r#"
        =>
        skip => path 1
        skip, => path 1
        skip, rename = "a" => path 1; path 1, value 1
        a::b::c(d, e), ::f => path 7, list 3; path 3
        a = f::<X, Y>(1, 2) + 3, b => path 1, value 11; path 1
        a = |x, y| x + y, b => path 1, value 8; path 1
        a = if x { 1 } else { 2 }, b => path 1, value 5; path 1
        a = -1, b = !c, d = &e => path 1, value 2; path 1, value 2; path 1, value 2
        a = x.y[0], b => path 1, value 4; path 1
        a = Vec::<u8>::new(), b => path 1, value 10; path 1
        "a", 1, true, b'c' => literal 1; literal 1; literal 1; literal 1
        -1 => literal 2
        unsafe(no_mangle) => path 1, list 1
        self, super::a, crate::b = 1 => path 1; path 4; path 4, value 1
        a(b(c(d = 1))) => path 1, list 2
        a[b], c{d} => path 1, list 1; path 1, list 1
        a = b = c => path 1, value 3
        a = .., b = return => path 1, value 2; path 1, value 1
        // Paths that are keywords. The crate syn reads them only with its `parse_nested_meta`.
        type, default = 1, where(T: A) => path 1; path 1, value 1; path 1, list 3
        "#,
    );
}

#[test]
fn a_fault_ends_the_entries(rt: HostRuntime) {
    check(
        &rt,
        &EntryList,
        r#"
        a = 1 b => error at 3
        a, b == c => path 1; error at 2
        a => b => error at 2
        a = -> b => error at 2
        a = => missing after 2
        a = , b => error at 2
        a:: , b => error at 3
        a b => error at 1
        a(b) c => error at 2
        , a => error at 0
        a,, b => path 1; error at 0
        :: => missing after 2
        (a) => error at 0
        a = "x" "y" => error at 3
        _ = 1 => error at 0
        'a => error at 0
        - a => error at 1
        a = 1 + => missing after 4
        a < b => error at 1
        "#,
    );
}

/// The entries in the lists of attributes. `default` is added to an entry with this name. `names` is the number of
/// entries named `serialize` or `deserialize` in the entry's own list.
struct Nested;

impl Reads for Nested {
    fn put(&self, trees: &[TokenTree], out: &mut Answer) {
        for attribute in Attributes::new(trees) {
            if let AttributeArgs::Group(list) = attribute.args() {
                put_nested(out, list);
            }
        }
    }
}

/// Writes the entries in the list, with what their own lists have.
fn put_nested(out: &mut Answer, list: &Group) {
    for entry in Entries::new(list) {
        if let Ok(entry) = entry {
            out.separate();
            put_entry(out, &entry);
            out.flag("default", entry.is("default"));
            if let EntryKind::List(inside) = entry.kind {
                out.part("names", count_names(inside));
            }
        }
    }
}

/// The number of entries in the list that are `serialize` or `deserialize`.
fn count_names(list: &Group) -> usize {
    let mut names = 0_usize;
    for entry in Entries::new(list) {
        if let Ok(one) = entry {
            if one.is("serialize") || one.is("deserialize") {
                names = names.saturating_add(1);
            }
        }
    }
    names
}

#[test]
fn lists_are_read_within_lists(rt: HostRuntime) {
    check(
        &rt,
        &Nested,
        r#"#[serde(default, bound(serialize = "A", deserialize = "B"))] => path 1, default; path 1, list 7, names 2"#,
    );
}

/// The first entry, and the trees that are left after it. `is a` is added if this is its name. An error has its span.
struct FirstEntry;

impl Reads for FirstEntry {
    fn put(&self, trees: &[TokenTree], out: &mut Answer) {
        match parse_entry(trees) {
            Ok((entry, rest)) => {
                put_entry(out, &entry);
                out.flag("is a", entry.is("a"));
                out.part("left", rest.len());
            }
            Err(fault) => {
                out.error(&fault);
                out.text(", ");
                out.debug(&fault.span());
            }
        }
    }
}

#[test]
fn the_first_entry_leaves_the_rest(rt: HostRuntime) {
    check(
        &rt,
        &FirstEntry,
        "a::b = f(1) + 2, c => path 4, value 4, left 2",
    );
}

/// The error of `check_entries`: its kind, the number of trees before it, and the number of known names. `comma` and
/// `end` are added if a comma or the end can come there.
struct Checked<'a> {
    known: &'a [&'a str],
}

impl Reads for Checked<'_> {
    fn put(&self, trees: &[TokenTree], out: &mut Answer) {
        let known = self.known;
        if known.len() > 128 {
            return out.text("too many known names");
        }
        let error = match check_entries(trees, known) {
            Ok(()) => return out.text("no error"),
            Err(error) => error,
        };
        out.debug(&error.problem);
        out.count(" at", error.at);
        out.count(", known", error.known.len());
        out.flag("comma", error.expected().contains(SignClass::Comma));
        out.flag("end", error.expected().has_end());
    }
}

#[test]
fn each_name_is_known_and_comes_once(rt: HostRuntime) {
    check(
        &rt,
        &Checked {
            known: &["skip", "rename", "bound", "type"],
        },
        r#"
        => no error
        skip => no error
        rename = "a", skip, bound(T: A), type, => no error
        skip, renam = "a" => Unknown at 2, known 4
        a::skip => Unknown at 0, known 4
        skip, "rename" => Unknown at 2, known 4
        r#type => Unknown at 0, known 4
        skip, bound(skip), skip => Repeated at 5, known 4
        type = 1, type(2) => Repeated at 4, known 4
        skip, rename = , bound => NoEntry at 4, known 4
        skip, rename 1 => NoEntry at 3, known 4, comma, end
        skip, skip, + => Repeated at 2, known 4
        "#,
    );
}

/// What the error of `check_entries` says, and its span. If the error has a name, the name comes first.
struct Message<'a> {
    known: &'a [&'a str],
}

impl Reads for Message<'_> {
    fn put(&self, trees: &[TokenTree], out: &mut Answer) {
        let known = self.known;
        if known.len() > 128 {
            return out.text("too many known names");
        }
        match check_entries(trees, known) {
            Ok(()) => out.text("no error"),
            Err(error) => {
                if let Some(name) = error.name {
                    out.show(name);
                    out.text(": ");
                }
                out.show(&error);
                out.text(" at ");
                out.debug(&error.span());
            }
        }
    }
}

#[test]
fn an_error_says_what_is_wrong(rt: HostRuntime) {
    check(
        &rt,
        &Message {
            known: &["skip", "rename"],
        },
        r#"
        skip, renam = 1 => renam: unknown entry `renam`; known are `skip`, `rename` at Some(bytes(7..12))
        r#type => r#type: unknown entry `r#type`; known are `skip`, `rename` at Some(bytes(1..7))
        a::skip, skip => unknown entry; known are `skip`, `rename` at Some(bytes(1..2))
        "a" => unknown entry; known are `skip`, `rename` at Some(bytes(1..4))
        skip, skip(a) => skip: a second entry `skip` at Some(bytes(7..11))
        skip, = => expected an entry at Some(bytes(7..8))
        rename = => the declaration ends too early, expected an expression at None
        "#,
    );
}

#[test]
fn an_error_of_entries_has_the_signs_that_can_come_there(rt: HostRuntime) {
    check(
        &rt,
        &Checked { known: &["skip"] },
        "
        skip rename => NoEntry at 1, known 1, comma, end
        skip = , => NoEntry at 2, known 1
        rename => Unknown at 0, known 1
        ",
    );
}

#[test]
fn names_are_listed_where_none_or_one_is_known(rt: HostRuntime) {
    check(
        &rt,
        &Message { known: &[] },
        "skip => skip: unknown entry `skip`; no names are known at Some(bytes(1..5))",
    );
    check(
        &rt,
        &Message { known: &["a"] },
        "skip => skip: unknown entry `skip`; known are `a` at Some(bytes(1..5))",
    );
}

/// The entry that each attribute is, with `no span` if it has none. An error at the end is at the closing bracket.
struct AttributeEntries;

impl Reads for AttributeEntries {
    fn put(&self, trees: &[TokenTree], out: &mut Answer) {
        for attribute in Attributes::new(trees) {
            out.separate();
            match attribute.entry() {
                Ok(entry) => {
                    put_entry(out, &entry);
                    out.flag("no span", entry.span().is_none());
                }
                Err(fault) => out.error(&fault),
            }
        }
    }
}

#[test]
fn an_attribute_is_one_entry(rt: HostRuntime) {
    check(
        &rt,
        &AttributeEntries,
        r#"
        #[test] #![no_std] => path 1; path 1
        #[derive(Clone, Copy)] => path 1, list 3
        #[serde(bound(T, U), skip)] => path 1, list 4
        #[path = "a.rs"] => path 1, value 1
        #[doc = include_str!("a.md")] => path 1, value 3
        #[a = -1 + f(2, 3)] => path 1, value 5
        #[rustfmt::skip] => path 4
        #[unsafe(no_mangle)] => path 1, list 1
        /// text => path 1, value 1
        // Trees of other grammars. They are accepted only inside a list.
        #[error("{0}" if x => y)] => path 1, list 6
        #[a[b] c] => error at 2
        #[a = 1, b] => error at 3
        #[a b] => error at 1
        #[a =] => error at 2
        #[] => error at 0
        "#,
    );
}

// A macro by example passes `$m:meta`, `$p:path` and `$l:literal` in such groups.
#[test]
fn an_entry_in_a_group_without_delimiters_is_read(rt: HostRuntime) {
    check(
        &rt,
        &EntryList,
        r#"
        «skip» => path 1
        ««rename = "a"»», b => path 1, value 1; path 1
        ««««a::b(c, d)»»»», => path 4, list 3
        «a::b» = 1 + 2, c => path 4, value 3; path 1
        ««::a»»(b) => path 3, list 1
        «-1» => literal 2
        «"x"» => literal 1
        «pub» => path 1
        «a = 1» = 2 => error at 1
        «a b» => error at 0
        «» => error at 0
        ««a =»», b => error at 0
        «a» = => missing after 2
        «a» => b => error at 2
        «a» b => error at 1
        «'a» => error at 0
        "#,
    );
}

// Here a path in such a group is in another one: `$m:meta` is passed on with `$p = 1` in it.
#[test]
fn a_path_in_a_group_without_delimiters_is_read_in_another(rt: HostRuntime) {
    check(
        &rt,
        &EntryList,
        "
        ««a» = 1 + 2», b => path 1, value 3; path 1
        «««««a::b»»»(c)»» => path 4, list 1
        ««a»» = 1 => path 1, value 1
        ««a» b» => error at 0
        ««a = 1» = 2» => error at 0
        ««a» =», b => error at 0
        ««a»(b)»(c) => error at 1
        ",
    );
}

// The span of an error is that of the wrong tree in the group, or that of the group if trees are missing.
#[test]
fn an_error_in_a_group_without_delimiters_has_a_span(rt: HostRuntime) {
    check(
        &rt,
        &FirstEntry,
        "
        ««a b»», c => error at 0, Some(bytes(3..4))
        «a = », c => error at 0, Some(bytes(0..0))
        ",
    );
    check(
        &rt,
        &Checked { known: &["b"] },
        "«a = 1», b => Unknown at 0, known 1",
    );
    check(
        &rt,
        &Message { known: &["b"] },
        "«a = 1», b => a: unknown entry `a`; known are `b` at Some(bytes(1..2))",
    );
}

#[test]
fn an_error_in_a_group_without_delimiters_says_what_was_expected(rt: HostRuntime) {
    check(
        &rt,
        &Call::EntryList,
        "
        ««a b»», c => expected `=`, a group, `::` or the end
        «a = », c => expected an expression
        «» => expected an entry
        «a» = , c => expected an expression
        «a» = => the declaration ends too early, expected an expression
        «a» b => expected `,`, `=`, a group or the end
        «a»(b) c => expected `,` or the end
        «a = 1» = 2 => expected `,` or the end
        ",
    );
}

// Here a path in a group is in another one, with what comes after it.
#[test]
fn an_error_after_a_path_in_two_groups_says_what_was_expected(rt: HostRuntime) {
    check(
        &rt,
        &Call::EntryList,
        "
        ««a» b» => expected `=`, a group or the end
        ««a» =» => expected an expression
        ««a:: =» = b» => expected a name
        ",
    );
}
