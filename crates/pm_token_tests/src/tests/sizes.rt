// The sizes of tokens in bytes. They matter because a long text has many tokens.
use crate::tests::checks::check_answer;
use pm_span::Span;
use pm_token::{Ident, Literal, Punct};
use std::mem::size_of;

#[test]
fn tokens_take_no_more_bytes_than_this(rt: HostRuntime) {
    check_answer(&rt, "Ident", &size_of::<Ident>(), &32);
    check_answer(&rt, "Literal", &size_of::<Literal>(), &32);
    check_answer(&rt, "Punct", &size_of::<Punct>(), &16);
    check_answer(&rt, "Span", &size_of::<Span>(), &8);
}
