// Errors at the end of a group, which can be reported at its closing delimiter.
use crate::tests::checks::{Answer, Reads, check};
use declarations::{AttributeArgs, Attributes, check_entries, split_type};
use proc_macro2::{Group, TokenTree};

/// For each attribute, the span of its error as one entry. If the attribute has a list, the span of the error in the
/// list follows, where the known names are `b` and `c`.
struct EntrySpans;

impl Reads for EntrySpans {
    fn put(&self, trees: &[TokenTree], out: &mut Answer) {
        for attribute in Attributes::new(trees) {
            out.separate();
            match attribute.entry() {
                Ok(_) => out.text("None"),
                Err(fault) => out.debug(&fault.span),
            }
            if let AttributeArgs::Group(group) = attribute.args() {
                put_list_span(out, group);
            }
        }
    }
}

/// Writes the span of the error of the entries in the list.
fn put_list_span(out: &mut Answer, list: &Group) {
    out.text(", ");
    match check_entries(list.stream_ref().trees(), &["b", "c"]) {
        Ok(()) => out.text("None"),
        Err(error) => out.debug(&error.within(list).span),
    }
}

#[test]
fn entries_end_too_early_at_their_brackets(rt: HostRuntime) {
    check(
        &rt,
        &EntrySpans,
        "
        #[a(b, c =)] => None, Some(bytes(11..12))
        #[a(b, c d)] => None, Some(bytes(10..11))
        #[a(b, c)] => None, None
        #[a =] => Some(bytes(6..7))
        ",
    );
}

/// For each group, the span of the error of the type in it, before and after the group is named.
struct TypeSpans;

impl Reads for TypeSpans {
    fn put(&self, trees: &[TokenTree], out: &mut Answer) {
        for tree in trees {
            if let TokenTree::Group(group) = tree {
                out.separate();
                match split_type(group.stream_ref().trees()) {
                    Ok(_) => out.text("None, None"),
                    Err(fault) => {
                        out.debug(&fault.span);
                        out.text(", ");
                        out.debug(&fault.within(group).span);
                    }
                }
            }
        }
    }
}

#[test]
fn a_caller_names_the_group_of_trees_that_it_passed(rt: HostRuntime) {
    check(
        &rt,
        &TypeSpans,
        "
        (&) => None, Some(bytes(3..4))
        ( & = ) => Some(bytes(5..6)), Some(bytes(5..6))
        ",
    );
}
