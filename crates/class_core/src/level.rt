//! The level of a dimmer (Multilevel Switch Command Class).

ghost use Rattle.std.specs.Prelude.{◌≡◌, ℕ, IsTrue};
ghost use Rattle.std.specs.Option.{SomeIff};
ghost use Rattle.class_core.specs.Ranges.{is_level};

use std::marker::Model;

/// The level of what is full on.
pub const FULL_LEVEL: u8 = 99;
/// The level that asks for the last level above 0.
pub const LAST_LEVEL: u8 = 0xFF;

/// A level in per cent, 0 to 99, or 255 for the last level above 0. Contracts see its byte.
#[derive(Clone, Copy, Debug, PartialEq, Eq)]
pub struct Level {
    byte: u8,
}

impl Model for Level {
    ghost Value = { ℕ };

    ghost view = { λ l. l.byte };

    ghost invariant = { λ l. IsTrue (is_level l.byte) };

    ghost inverse = { λ n. record { byte = n } };
}

impl Level {
    /// The level with this byte, where there is one.
    pub fn of(byte: u8) -> Option<Level>
        ensures { SomeIff result (IsTrue (is_level byte)) byte }
    {
        if byte <= FULL_LEVEL || byte == LAST_LEVEL {
            Some(Level { byte })
        } else {
            None
        }
    }

    /// The byte that stands for it.
    pub fn byte(self) -> u8
        ensures value { result ≡ self }
        ensures level { IsTrue (is_level result) }
    {
        self.byte
    }
}
