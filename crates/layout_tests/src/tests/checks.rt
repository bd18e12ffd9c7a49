//! What the tests share.
//!
//! These functions return no errors, and stop the test if memory runs out, because each `?` in a test makes its proof
//! longer. For the same reason tests let go of streams and texts by `release`.
use layout::{Chooser, text_with};
use proc_macro2::{SourceMap, TokenStream};
use std::fmt::Debug;
use std::process::Abort;
use test_helpers::release;

/// Asserts that the answer in a row of a test is the expected one. The row is printed if it fails.
pub fn check_answer<T: PartialEq + Debug>(rt: &impl Abort, row: &str, answer: &T, want: &T) {
    assert!(rt; answer == want, "{answer:?} and not {want:?} of {row:?}");
}

/// Returns the stream to which a text parses.
pub fn stream_of(rt: &(impl Abort + AllocGlobal), text: &str) -> TokenStream {
    TokenStream::from_str(text, &mut SourceMap::new(rt.alloc())).expect(rt, text)
}

/// Returns whether the text parses to the same tokens as the stream.
pub fn comes_back(rt: &(impl Abort + AllocGlobal), stream: &TokenStream, text: &str) -> bool {
    let back = stream_of(rt, text);
    let same = stream.same_tokens(&back);
    release(back);
    same
}

/// Returns the stream's text with the chooser's gaps. The stream must be well spaced.
pub fn laid_out<C: Chooser>(
    rt: &(impl Abort + AllocGlobal),
    stream: &TokenStream,
    chooser: &mut C,
) -> String {
    text_with(stream, chooser, rt.alloc()).expect(rt, "a text")
}
