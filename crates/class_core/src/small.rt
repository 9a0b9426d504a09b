//! Numbers that have fewer bits than a Rust type.

ghost use Rattle.std.specs.Prelude.{◌≡◌, ℕ, ◌<◌, ◌^◌, ◌*◌, ◌+◌, slice_index};
ghost use Rattle.std.specs.Option.{SomeIff};
ghost use Rattle.class_core.specs.Cell.{bits};

use std::marker::Model;

/// The greatest mode of a thermostat.
pub const MAX_MODE: u8 = 31;
/// The greatest kind of setpoint.
pub const MAX_SETPOINT_KIND: u8 = 15;
/// The longest wake-up interval, in seconds.
pub const MAX_SECONDS: u32 = 0xFF_FFFF;

/// A mode of a thermostat, 0 to 31 (Thermostat Mode Command Class). Contracts see its number.
#[derive(Clone, Copy, Debug, PartialEq, Eq)]
pub struct Mode {
    number: u8,
}

impl Model for Mode {
    ghost Value = { ℕ };

    ghost view = { λ m. m.number };

    ghost invariant = { λ m. m.number < 32 };

    ghost inverse = { λ n. record { number = n } };
}

impl Mode {
    /// The mode with this number, where there is one.
    pub fn of(number: u8) -> Option<Mode>
        ensures { SomeIff result (number < 32) number }
    {
        if number <= MAX_MODE {
            Some(Mode { number })
        } else {
            None
        }
    }

    /// The mode in the low five bits of a byte.
    pub fn from_low_bits(byte: u8) -> Mode
        ensures { result ≡ bits 0 5 byte }
    {
        Mode {
            number: byte & MAX_MODE,
        }
    }

    pub fn number(self) -> u8
        ensures value { result ≡ self }
        ensures range { result < 32 }
    {
        self.number
    }
}

/// A kind of setpoint, 0 to 15 (Thermostat Setpoint Command Class). Contracts see its number.
#[derive(Clone, Copy, Debug, PartialEq, Eq)]
pub struct SetpointKind {
    number: u8,
}

impl Model for SetpointKind {
    ghost Value = { ℕ };

    ghost view = { λ k. k.number };

    ghost invariant = { λ k. k.number < 16 };

    ghost inverse = { λ n. record { number = n } };
}

impl SetpointKind {
    /// The kind with this number, where there is one.
    pub fn of(number: u8) -> Option<SetpointKind>
        ensures { SomeIff result (number < 16) number }
    {
        if number <= MAX_SETPOINT_KIND {
            Some(SetpointKind { number })
        } else {
            None
        }
    }

    /// The kind in the low four bits of a byte.
    pub fn from_low_bits(byte: u8) -> SetpointKind
        ensures { result ≡ bits 0 4 byte }
    {
        SetpointKind {
            number: byte & MAX_SETPOINT_KIND,
        }
    }

    pub fn number(self) -> u8
        ensures value { result ≡ self }
        ensures range { result < 16 }
    {
        self.number
    }
}

/// A time in seconds, 0 to 16,777,215 (Wake Up Command Class). Contracts see its number.
#[derive(Clone, Copy, Debug, PartialEq, Eq)]
pub struct Seconds {
    number: u32,
}

impl Model for Seconds {
    ghost Value = { ℕ };

    ghost view = { λ s. s.number };

    ghost invariant = { λ s. s.number < 2 ^ 24 };

    ghost inverse = { λ n. record { number = n } };
}

impl Seconds {
    /// This many seconds, where three bytes hold them.
    pub fn of(number: u32) -> Option<Seconds>
        ensures { SomeIff result (number < 2 ^ 24) number }
    {
        if number <= MAX_SECONDS {
            Some(Seconds { number })
        } else {
            None
        }
    }

    /// The seconds in three bytes, high byte first.
    pub fn from_bytes(bytes: [u8; 3]) -> Seconds
        ensures { result ≡ slice_index bytes 0 * 65536 + slice_index bytes 1 * 256 + slice_index bytes 2 }
    {
        let [high, middle, low] = bytes;
        Seconds {
            number: u32::from(high) * 65536 + u32::from(middle) * 256 + u32::from(low),
        }
    }

    pub fn number(self) -> u32
        ensures value { result ≡ self }
        ensures range { result < 2 ^ 24 }
    {
        self.number
    }
}
