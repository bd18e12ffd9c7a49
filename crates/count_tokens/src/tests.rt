//! Counts the tokens of a text that has each kind of them.
use crate::{Counts, count_tokens};

#[test]
fn each_kind_of_token_is_counted(rt: HostRuntime) {
    let text = "//! a\nfn f(x: &'a str) -> u8 { x[0] + r#\"b\"#.len() /* c */ }";
    let want = Counts {
        names: 9,
        marks: 10,
        literals: 3,
        groups: 5,
    };
    assert_eq!(&rt; count_tokens(rt.alloc(), text), Ok(want));
}
