//! Numbers with the place of their decimal point and their unit.

ghost use Rattle.std.specs.Prelude.{◌≡◌, ◌<◌};

use crate::number::Number;
use std::marker::Model;

/// A number, how many of its digits stand after the decimal point (`precision`, 0 to 7), and its unit (`scale`,
/// 0 to 3), as in Thermostat Setpoint and Multilevel Sensor. Contracts see the three.
#[derive(Clone, Copy, Debug, PartialEq, Eq)]
pub struct Decimal {
    precision: u8,
    scale: u8,
    number: Number,
}

impl Model for Decimal {
    ghost use Rattle.std.specs.Prelude.{◌<◌};
    ghost use Rattle.class_core.specs.Ranges.{Scaled};

    ghost Value = { Scaled };

    ghost view = { λ d. record { precision = d.precision; scale = d.scale; number = d.number } };

    ghost invariant = { λ d. (d.precision < 8) × (d.scale < 4) };

    ghost inverse = { λ s. record { precision = s.precision; scale = s.scale; number = s.number } };
}

impl Decimal {
    pub fn new(precision: u8, scale: u8, number: Number) -> Decimal
        requires precision { precision < 8 }
        requires scale { scale < 4 }
        ensures { result ≡ record { precision = precision; scale = scale; number = number } }
    {
        Decimal {
            precision,
            scale,
            number,
        }
    }

    /// How many digits stand after the decimal point.
    pub fn precision(self) -> u8
        ensures value { result ≡ self.precision }
        ensures range { result < 8 }
    {
        self.precision
    }

    /// The unit, by its number in the class that the value is of.
    pub fn scale(self) -> u8
        ensures value { result ≡ self.scale }
        ensures range { result < 4 }
    {
        self.scale
    }

    /// The number without its decimal point.
    pub fn number(self) -> Number
        ensures { result ≡ self.number }
    {
        self.number
    }
}
