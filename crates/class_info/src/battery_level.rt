//! The charge of a battery (Battery Command Class).

ghost use Rattle.std.specs.Prelude.{◌≡◌, ℕ, IsTrue};
ghost use Rattle.std.specs.Option.{SomeIff};

use std::marker::Model;

/// The charge of what is full.
pub const FULL_BATTERY: u8 = 100;
/// What stands for a low battery.
pub const LOW_BATTERY: u8 = 0xFF;

/// A charge in per cent, 0 to 100, or 255 for a low battery. Contracts see its byte.
#[derive(Clone, Copy, Debug, PartialEq, Eq)]
pub struct BatteryLevel {
    byte: u8,
}

impl Model for BatteryLevel {
    ghost use Rattle.std.specs.Prelude.{ℕ, IsTrue};
    ghost use Rattle.class_info.specs.Values.{is_battery};

    ghost Value = { ℕ };

    ghost view = { λ l. l.byte };

    ghost invariant = { λ l. IsTrue (is_battery l.byte) };

    ghost inverse = { λ n. record { byte = n } };
}

impl BatteryLevel {
    ghost use Rattle.class_info.specs.Values.{is_battery};

    /// The charge with this byte, where there is one.
    pub fn of(byte: u8) -> Option<BatteryLevel>
        ensures { SomeIff result (IsTrue (is_battery byte)) byte }
    {
        if byte <= FULL_BATTERY || byte == LOW_BATTERY {
            Some(BatteryLevel { byte })
        } else {
            None
        }
    }

    /// The byte that stands for it.
    pub fn byte(self) -> u8
        ensures value { result ≡ self }
        ensures charge { IsTrue (is_battery result) }
    {
        self.byte
    }
}
