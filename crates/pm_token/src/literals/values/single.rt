//! The values of characters and bytes, from their text.
ghost use Rattle.std.specs.Prelude.{◌≡◌};
ghost use Rattle.std.specs.Str.{chars};
ghost use Rattle.pm_token.specs.SingleValue.{byte_value, char_value};

use crate::literals::conversion::ConversionErrorKind;
use crate::literals::values::content::single_content;
use literal_escaper::{unescape_byte, unescape_char};

/// Returns the character between the quotes of a character literal (`character-value`).
pub fn character_of(text: &str) -> Result<char, ConversionErrorKind>
    ensures { result ≡ char_value (chars text.now) }
{
    match single_content(text, "'") {
        Some(content) => Ok(unescape_char(content)?),
        None => Err(ConversionErrorKind::InvalidLiteralKind),
    }
}

/// Returns the byte between the quotes of a byte literal (`byte-value`).
pub fn byte_of(text: &str) -> Result<u8, ConversionErrorKind>
    ensures { result ≡ byte_value (chars text.now) }
{
    match single_content(text, "b'") {
        Some(content) => Ok(unescape_byte(content)?),
        None => Err(ConversionErrorKind::InvalidLiteralKind),
    }
}
