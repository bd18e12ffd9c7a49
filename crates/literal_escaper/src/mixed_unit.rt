//! The units of C strings.

use crate::errors::EscapeError;
use crate::num::{NonZeroChar, NonZeroU8};

/// A unit of a C string: a character, or a byte past ASCII.
#[derive(Clone, Copy, Debug, PartialEq, Eq)]
pub enum MixedUnit {
    /// A character, which is written as its bytes in UTF-8: `é`, `\u{E9}`, and `\x01` to `\x7F`.
    Char(NonZeroChar),
    /// A byte past ASCII: `\x80`.
    HighByte(NonZeroU8),
}

/// Makes a unit of the character.
impl From<NonZeroChar> for MixedUnit {
    ghost use Rattle.std.specs.Prelude.{◌≡◌};
    ghost use Rattle.literal_escaper.specs.declared.mixed_unit.MixedUnit.TheVariants.{Char};

    ghost from_gives = { λ c unit. unit ≡ Char c };

    fn from(c: NonZeroChar) -> MixedUnit {
        MixedUnit::Char(c)
    }
}

/// Makes the character of a byte up to 0x7F, and of other bytes the byte itself.
impl From<NonZeroU8> for MixedUnit {
    ghost use Rattle.std.specs.Prelude.{◌≡◌};
    ghost use Rattle.literal_escaper.specs.Units.{byte_unit};

    ghost from_gives = { λ byte unit. unit ≡ byte_unit byte };

    fn from(byte: NonZeroU8) -> MixedUnit {
        let code = byte.get();
        if code.is_ascii() {
            if let Some(c) = NonZeroChar::new(char::from(code)) {
                return MixedUnit::Char(c);
            }
        }
        MixedUnit::HighByte(byte)
    }
}

/// Makes a unit of the character. NUL is the error `NulInCStr`.
impl TryFrom<char> for MixedUnit {
    ghost use Rattle.std.specs.Prelude.{◌≡◌};
    ghost use Rattle.literal_escaper.specs.Units.{c_char};

    type Error = EscapeError;

    ghost try_from_gives = { λ c unit. unit ≡ c_char c };

    fn try_from(c: char) -> Result<MixedUnit, EscapeError> {
        match NonZeroChar::new(c) {
            Some(c) => Ok(MixedUnit::from(c)),
            None => Err(EscapeError::NulInCStr),
        }
    }
}

/// Makes the character of a byte up to 0x7F, and of other bytes the byte itself. Zero is the error `NulInCStr`.
impl TryFrom<u8> for MixedUnit {
    ghost use Rattle.std.specs.Prelude.{◌≡◌};
    ghost use Rattle.literal_escaper.specs.Units.{c_byte};

    type Error = EscapeError;

    ghost try_from_gives = { λ byte unit. unit ≡ c_byte byte };

    fn try_from(byte: u8) -> Result<MixedUnit, EscapeError> {
        match NonZeroU8::new(byte) {
            Some(byte) => Ok(MixedUnit::from(byte)),
            None => Err(EscapeError::NulInCStr),
        }
    }
}
