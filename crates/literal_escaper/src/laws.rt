//! Laws about errors, modes and units. The functions compute nothing: their contracts are the laws.
ghost use Rattle.std.specs.Prelude.{◌≡◌, ◌↔◌, IsTrue};

use crate::errors::EscapeError;
use crate::mixed_unit::MixedUnit;
use crate::mode::Mode;
use crate::num::{NonZeroChar, NonZeroU8};

/// Two errors, two modes or two units are equal exactly if they are of one kind and have the same character or byte.
/// The units are those of C strings, and characters and bytes that are not 0.
///
/// The unit of the character `a` equals no other unit. The unit of the byte 0xE9 does not equal that of `é`.
pub fn equal_errors_modes_and_units()
    ensures errors { (a b : EscapeError) → IsTrue (⟦<EscapeError as PartialEq>⟧.eq a b) ↔ (a ≡ b) }
    ensures modes { (a b : Mode) → IsTrue (⟦<Mode as PartialEq>⟧.eq a b) ↔ (a ≡ b) }
    ensures units { (a b : MixedUnit) → IsTrue (⟦<MixedUnit as PartialEq>⟧.eq a b) ↔ (a ≡ b) }
    ensures characters { (a b : NonZeroChar) → IsTrue (⟦<NonZeroChar as PartialEq>⟧.eq a b) ↔ (a ≡ b) }
    ensures bytes { (a b : NonZeroU8) → IsTrue (⟦<NonZeroU8 as PartialEq>⟧.eq a b) ↔ (a ≡ b) }
{}
