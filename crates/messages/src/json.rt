//! Texts in JSON.
ghost use Rattle.std.specs.Prelude.{◌≡◌, ◌∷◌, ◌++◌, ◌<◌, [], IfOk, OnOk, string_bytes};
ghost use Rattle.messages.specs.Json.{escape, json_escape, hex};

use std::alloc::{AllocError, Global};

/// Returns the text as it is written in a string of JSON.
pub fn json_escape(alloc: Global, text: &str) -> Result<String, AllocError>
    ensures { IfOk result (λ out. string_bytes out ≡ json_escape text.now) }
{
    let mut out = String::new(alloc);
    for c in text.chars() {
        push_escaped(&mut out, c)?;
    }
    Ok(out)
}

/// Appends a character. A quote, a backslash or a control character is escaped.
fn push_escaped(out: &mut String, c: char) -> Result<(), AllocError>
    ensures { OnOk result (string_bytes out.new ≡ string_bytes out.old ++ escape c) }
{
    match c {
        '"' => out.push_str("\\\""),
        '\\' => out.push_str("\\\\"),
        '\0'..='\u{F}' => push_control(out, "\\u000", c as u8),
        '\u{10}'..='\u{1F}' => push_control(out, "\\u001", c as u8 - 16),
        _ => out.push(c),
    }
}

/// Appends the escape of a control character, from its beginning and its last digit.
fn push_control(out: &mut String, front: &str, digit: u8) -> Result<(), AllocError>
    requires { digit < 16 }
    ensures { OnOk result (string_bytes out.new ≡ string_bytes out.old ++ (front.now ++ hex digit)) }
{
    out.push_str(front)?;
    out.push(hex(digit))
}

/// Returns a digit to the base 16.
fn hex(digit: u8) -> char
    requires { digit < 16 }
    ensures { result ∷ [] ≡ hex digit }
{
    if digit < 10 {
        (b'0' + digit) as char
    } else {
        (b'a' - 10 + digit) as char
    }
}
