//! How each kind of string reads its characters and escapes.

ghost use Rattle.std.specs.Prelude.{◌≡◌, ◌<◌, ℕ, Result, Ok, Err, refl};
ghost use Rattle.literal_escaper.specs.declared.errors.EscapeError.TheVariants.{NulInCStr};
ghost use Rattle.literal_escaper.specs.declared.errors.EscapeError.{EscapeError as TheError};
ghost use Rattle.literal_escaper.specs.Kind.{Kind, any_char, ascii_byte, byte_kind, c_kind, character, string_kind};
ghost use Rattle.literal_escaper.specs.Units.{raw_c_char};

use crate::errors::EscapeError;
use crate::mixed_unit::MixedUnit;
use crate::num::NonZeroChar;

/// A kind of raw content.
pub trait CheckRaw {
    /// The type of its units.
    type Unit: Copy;

    // The unit of a character.
    ghost unit_of: { ℕ → Result Self.Unit TheError };

    /// Returns the unit of a character, or an error.
    fn of_char(c: char) -> Result<Self::Unit, EscapeError>
        ensures { result ≡ unit_of c };
}

/// A kind of content with escapes.
pub trait Unescape {
    /// The type of its units.
    type Unit: Copy;

    // How the kind reads characters and escapes.
    ghost kind: { Kind Self.Unit };

    // The unit of NUL.
    ghost NUL: { Result Self.Unit TheError };

    /// The unit of NUL, which `\0` gives, or an error.
    const NUL: Result<Self::Unit, EscapeError>;

    // NUL is read as any other character.
    ghost nul_is: { NUL ≡ kind.of_char 0 };

    /// Returns the unit of a character, or an error.
    fn of_char(c: char) -> Result<Self::Unit, EscapeError>
        ensures { result ≡ kind.of_char c };

    /// Returns the unit of a number of two hex digits, or an error.
    fn of_hex(byte: u8) -> Result<Self::Unit, EscapeError>
        ensures { result ≡ kind.of_hex byte };

    /// Returns the unit of the character whose code is in braces, or an error. `code` may be an error already.
    fn of_code(code: Result<char, EscapeError>) -> Result<Self::Unit, EscapeError>
        ensures { result ≡ kind.of_code code };
}

/// Strings and character literals.
pub struct Str;

/// Byte strings and byte literals.
pub struct Bytes;

/// C strings.
pub struct CStr;

/// Returns the byte of an ASCII character, or an error.
fn byte_of(c: char) -> Result<u8, EscapeError>
    ensures { result ≡ ascii_byte c }
{
    if !c.is_ascii() {
        return Err(EscapeError::NonAsciiCharInByte);
    }
    Ok(c as u8)
}

impl CheckRaw for Str {
    type Unit = char;

    ghost unit_of = { any_char };

    fn of_char(c: char) -> Result<char, EscapeError> {
        Ok(c)
    }
}

impl CheckRaw for Bytes {
    type Unit = u8;

    ghost unit_of = { ascii_byte };

    fn of_char(c: char) -> Result<u8, EscapeError> {
        byte_of(c)
    }
}

impl CheckRaw for CStr {
    type Unit = NonZeroChar;

    ghost unit_of = { raw_c_char };

    fn of_char(c: char) -> Result<NonZeroChar, EscapeError> {
        match NonZeroChar::new(c) {
            Some(c) => Ok(c),
            None => Err(EscapeError::NulInCStr),
        }
    }
}

impl Unescape for Str {
    type Unit = char;

    ghost kind = { string_kind };

    ghost NUL = { Ok 0 };

    const NUL: Result<char, EscapeError> = Ok('\0');

    ghost nul_is = { refl };

    fn of_char(c: char) -> Result<char, EscapeError> {
        Ok(c)
    }

    fn of_hex(byte: u8) -> Result<char, EscapeError> {
        if !byte.is_ascii() {
            return Err(EscapeError::OutOfRangeHexEscape);
        }
        Ok(char::from(byte))
    }

    fn of_code(code: Result<char, EscapeError>) -> Result<char, EscapeError> {
        code
    }
}

impl Unescape for Bytes {
    type Unit = u8;

    ghost kind = { byte_kind };

    ghost NUL = { Ok 0 };

    const NUL: Result<u8, EscapeError> = Ok(0);

    ghost nul_is = { refl };

    fn of_char(c: char) -> Result<u8, EscapeError> {
        byte_of(c)
    }

    fn of_hex(byte: u8) -> Result<u8, EscapeError> {
        Ok(byte)
    }

    fn of_code(_code: Result<char, EscapeError>) -> Result<u8, EscapeError> {
        Err(EscapeError::UnicodeEscapeInByte)
    }
}

impl Unescape for CStr {
    type Unit = MixedUnit;

    ghost kind = { c_kind };

    ghost NUL = { Err NulInCStr };

    const NUL: Result<MixedUnit, EscapeError> = Err(EscapeError::NulInCStr);

    ghost nul_is = { refl };

    fn of_char(c: char) -> Result<MixedUnit, EscapeError> {
        MixedUnit::try_from(c)
    }

    fn of_hex(byte: u8) -> Result<MixedUnit, EscapeError> {
        MixedUnit::try_from(byte)
    }

    fn of_code(code: Result<char, EscapeError>) -> Result<MixedUnit, EscapeError> {
        MixedUnit::try_from(code?)
    }
}

/// Returns the character that has this code, or an error.
pub fn character_of(code: u32) -> Result<char, EscapeError>
    ensures { result ≡ character code }
{
    match char::from_u32(code) {
        Some(c) => Ok(c),
        None if code > 0x10_FFFF => Err(EscapeError::OutOfRangeUnicodeEscape),
        None => Err(EscapeError::LoneSurrogateUnicodeEscape),
    }
}
