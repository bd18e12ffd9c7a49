//! Laws of literals and their values, and of equality. These functions compute nothing: what is proved is in
//! their contracts. `specs/KindLaws.antt` and `specs/ValueLaws.antt` define the laws of literals.
ghost use Rattle.std.specs.Prelude.{◌≡◌, ◌↔◌, IsTrue};
ghost use Rattle.pm_span.specs.Extent.{Extent};
ghost use Rattle.pm_token.specs.KindLaws.{
  ByteStringsAreByteStrings,
  BytesAreBytes,
  CStringsAreCStrings,
  CharactersAreCharacters,
  StringsAreStrings,
};
ghost use Rattle.pm_token.specs.ValueLaws.{
  ByteStringsComeBack,
  ByteStringsHaveValues,
  ByteValuesComeBack,
  BytesComeBack,
  BytesHaveUnits,
  CStringsComeBack,
  CStringsHaveValues,
  CharacterValuesComeBack,
  CharactersComeBack,
  CharactersHaveUnits,
  RawByteStringsHaveBodies,
  RawCStringsHaveBodies,
  RawStringsHaveBodies,
  StringsComeBack,
  StringsHaveValues,
};

use crate::delimiters::Delimiter;
use crate::errors::{LexError, ParseError};
use crate::identifiers::IdentError;
use crate::literals::ConversionErrorKind;
use crate::marks::Spacing;

/// Two delimiters, two spacings, or two reasons why a literal has no value are equal exactly if they are the
/// same variant. Two reasons `FailedToUnescape` must also have the same fault.
///
/// The faults of `"\z"` and `"\x1"` both give `FailedToUnescape`, but they are not equal.
pub fn equal_delimiters_spacings_and_errors()
    ensures delimiters { (a b : Delimiter) → IsTrue (⟦<Delimiter as PartialEq>⟧.eq a b) ↔ (a ≡ b) }
    ensures spacings { (a b : Spacing) → IsTrue (⟦<Spacing as PartialEq>⟧.eq a b) ↔ (a ≡ b) }
    ensures errors { (a b : ConversionErrorKind) → IsTrue (⟦<ConversionErrorKind as PartialEq>⟧.eq a b) ↔ (a ≡ b) }
{}

/// Two errors of a text, or of a name, are equal exactly if they are the same variant. Two syntax errors must
/// also have the same span.
pub fn equal_errors()
    ensures lexing { (a b : Extent) → IsTrue (⟦<LexError as PartialEq>⟧.eq a b) ↔ (a ≡ b) }
    ensures parsing { (a b : ParseError) → IsTrue (⟦<ParseError as PartialEq>⟧.eq a b) ↔ (a ≡ b) }
    ensures names { (a b : IdentError) → IsTrue (⟦<IdentError as PartialEq>⟧.eq a b) ↔ (a ≡ b) }
{}

/// Each constructor makes a literal of its own kind, with nothing after it. `Literal::string` makes a string,
/// `byte_string` a byte string, and `c_string` a C string. `character` makes a character, and `byte_character`
/// a byte.
pub fn made_literals()
    ensures strings { StringsAreStrings }
    ensures byte_strings { ByteStringsAreByteStrings }
    ensures c_strings { CStringsAreCStrings }
    ensures characters { CharactersAreCharacters }
    ensures bytes { BytesAreBytes }
{}

/// The value of a made literal is what it was made of. The value of `Literal::string` is the text, that of
/// `byte_string` is the bytes, and that of `c_string` is the bytes and a zero byte. The text between the quotes
/// of a `character` unescapes to the character, and for a `byte_character` to the byte.
pub fn values_come_back()
    ensures strings { StringsComeBack }
    ensures byte_strings { ByteStringsComeBack }
    ensures c_strings { CStringsComeBack }
    ensures characters { CharactersComeBack }
    ensures bytes { BytesComeBack }
{}

/// The text between the quotes of a character or byte literal is one unit that unescapes, whatever suffix
/// follows. Without a suffix this unit is the value that `char_value` or `byte_value` returns. So the value of
/// `Literal::character` is the character, and that of `byte_character` is the byte.
pub fn single_values()
    ensures characters { CharactersHaveUnits }
    ensures bytes { BytesHaveUnits }
    ensures made_characters { CharacterValuesComeBack }
    ensures made_bytes { ByteValuesComeBack }
{}

/// Every raw literal without a suffix has a value. A string's is its body, a byte string's is the bytes of the
/// body, and a C string's is these bytes and a zero byte.
pub fn raw_values()
    ensures strings { RawStringsHaveBodies }
    ensures byte_strings { RawByteStringsHaveBodies }
    ensures c_strings { RawCStringsHaveBodies }
{}

/// The value of a literal with escapes is what the units of its content give, in order. This holds for a
/// literal without a suffix and without CR, however the grammar divides its content into units. A character by
/// itself gives that character, and an escape gives what it means. A backslash with LF gives nothing, nor do
/// the spaces, tabs and LFs that follow. In a C string a character gives its UTF-8, `\x` with two digits gives
/// one byte, and a zero byte ends the value. A literal with CR LF may have no value.
///
/// A string of `a\`, LF, two spaces and `b` has the value `ab`, and `c"é\xe9"` has C3 A9 E9 00.
pub fn cooked_values()
    ensures strings { StringsHaveValues }
    ensures byte_strings { ByteStringsHaveValues }
    ensures c_strings { CStringsHaveValues }
{}
