//! Characters and bytes other than zero.

use std::marker::Model;

/// A character other than NUL.
#[derive(Clone, Copy, Debug, PartialEq, Eq)]
pub struct NonZeroChar(char);

impl Model for NonZeroChar {
    ghost use Rattle.std.specs.Prelude.{ℕ, ◌<◌};

    ghost Value = { ℕ };

    ghost view = { λ c. c.0 };

    ghost invariant = { λ c. 0 < c.0 };

    ghost inverse = { λ n. record { 0 = n } };
}

impl NonZeroChar {
    ghost use Rattle.std.specs.Prelude.{◌≡◌, ◌<◌, MatchOption};

    /// Returns the character, or `None` if it is NUL: `a` for `a`, and `None` for U+0000.
    pub fn new(c: char) -> Option<NonZeroChar>
        ensures { MatchOption result (c ≡ 0) (λ other. (other ≡ c) × (0 < c)) }
    {
        match c {
            '\0' => None,
            _ => Some(NonZeroChar(c)),
        }
    }

    /// Returns the character as a `char`, which is never NUL.
    pub fn get(self) -> char
        ensures value { result ≡ self }
        ensures within { 0 < result }
    {
        let NonZeroChar(c) = self;
        c
    }
}

/// A byte other than zero.
#[derive(Clone, Copy, Debug, PartialEq, Eq)]
pub struct NonZeroU8(u8);

impl Model for NonZeroU8 {
    ghost use Rattle.std.specs.Prelude.{ℕ, ◌<◌};

    ghost Value = { ℕ };

    ghost view = { λ b. b.0 };

    ghost invariant = { λ b. 0 < b.0 };

    ghost inverse = { λ n. record { 0 = n } };
}

impl NonZeroU8 {
    ghost use Rattle.std.specs.Prelude.{◌≡◌, ◌<◌, MatchOption};

    /// Returns the byte, or `None` if it is zero: 1 for 1, and `None` for 0.
    pub fn new(n: u8) -> Option<NonZeroU8>
        ensures { MatchOption result (n ≡ 0) (λ b. (b ≡ n) × (0 < n)) }
    {
        if n == 0 { None } else { Some(NonZeroU8(n)) }
    }

    /// Returns the byte as a `u8`, which is never zero.
    pub fn get(self) -> u8
        ensures value { result ≡ self }
        ensures within { 0 < result }
    {
        let NonZeroU8(byte) = self;
        byte
    }
}
