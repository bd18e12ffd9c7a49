//! What the tests share.
//!
//! These functions return no errors, and stop the test if memory runs out, because each `?` in a test makes its proof
//! longer. For the same reason tests let go of streams, trees and quotes by `release`.
use proc_macro2::{SourceMap, TokenStream};
use quoting::Quote;
use std::fmt::{Debug, Display};
use std::process::Abort;
use test_helpers::release;

/// Asserts that the answer in a row of a test is the expected one. The row is printed if it fails.
pub fn check_answer<T: PartialEq + Debug>(rt: &impl Abort, row: &str, answer: &T, want: &T) {
    assert!(rt; answer == want, "{answer:?} and not {want:?} of {row:?}");
}

/// The stream of the text, which parses and is the first file of a new map.
pub fn parse_text(rt: &(impl Abort + AllocGlobal), text: &str) -> TokenStream {
    TokenStream::from_str(text, &mut SourceMap::new(rt.alloc())).expect(rt, text)
}

/// The stream of the quote, for which some choice of spacings is well spaced.
pub fn finished(rt: &impl Abort, quote: &Quote, row: &str) -> TokenStream {
    quote.finish().expect(rt, row)
}

/// The text that Display writes for the value.
pub fn display_text<T: Display>(rt: &(impl Abort + AllocGlobal), value: &T) -> String {
    format!(in rt.alloc(); "{value}").expect(rt, "a text")
}

/// Asserts that the value is displayed as this text.
pub fn displays<T: Display>(rt: &(impl Abort + AllocGlobal), value: &T, row: &str, want: &str) {
    let found = display_text(rt, value);
    check_answer(rt, row, &found.as_str(), &want);
}

/// Asserts that Debug shows the value as this text.
pub fn shows<T: Debug>(rt: &(impl Abort + AllocGlobal), value: &T, want: &str) {
    let found = format!(in rt.alloc(); "{value:?}").expect(rt, want);
    check_answer(rt, want, &found.as_str(), &want);
}

/// Returns whether the printed text of the stream parses to the same tokens.
pub fn comes_back(rt: &(impl Abort + AllocGlobal), stream: &TokenStream) -> bool {
    let text = display_text(rt, stream);
    let back = parse_text(rt, text.as_str());
    let same = stream.same_tokens(&back);
    release(back);
    same
}
