//! The values of contents without escapes.
ghost use Rattle.std.specs.Prelude.{◌≡◌, [], IfOk, IsOk};
ghost use Rattle.std.specs.Str.{chars, encode_utf8_all};
ghost use Rattle.pm_token.specs.Value.{bytes_of, with_zero, text_of};

use std::alloc::{AllocError, Global};

/// Copies the content of a raw string.
pub fn raw_string(alloc: Global, content: &str) -> Result<String, AllocError>
    ensures ok { IfOk result (λ value. text_of value ≡ chars content.now) }
    ensures memory { chars content.now ≡ [] → IsOk result }
{
    let mut value = String::new(alloc);
    value.push_str(content)?;
    Ok(value)
}

/// Copies the bytes of the content of a raw byte string.
pub fn raw_bytes(alloc: Global, content: &str) -> Result<Vec<u8>, AllocError>
    ensures ok { IfOk result (λ value. bytes_of value ≡ encode_utf8_all (chars content.now)) }
    ensures memory { encode_utf8_all (chars content.now) ≡ [] → IsOk result }
{
    let mut value = Vec::new(alloc);
    value.extend_from_slice(content.as_bytes())?;
    Ok(value)
}

/// Copies the bytes of the content of a raw C string, and adds a zero byte.
pub fn raw_c_string(alloc: Global, content: &str) -> Result<Vec<u8>, AllocError>
    ensures { IfOk result (λ value. bytes_of value ≡ with_zero (encode_utf8_all (chars content.now))) }
{
    let mut value = Vec::with_capacity(alloc, content.len().saturating_add(1))?;
    value.extend_from_slice(content.as_bytes())?;
    value.push(0)?;
    Ok(value)
}
