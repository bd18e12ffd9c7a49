//! Reads the input of a program, reports errors on standard error, splits texts, and writes texts in JSON. Error
//! messages have the form that editors read: `FILE:L:C: error: what`.
#![tactic(auto)]

mod errors;
mod input;
mod json;
mod report;
mod text;

pub use errors::Failure;
pub use input::{is_option, path, push_input_if_empty, push_path, read_text, words};
pub use json::json_escape;
pub use report::{conclude, exit_code, say, say_at, say_of, status};
pub use text::split_chars;
