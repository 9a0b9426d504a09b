//! Numbers of one, two or four bytes.

ghost use Rattle.std.specs.Prelude.{◌≡◌, ◌<◌};
ghost use Rattle.class_core.specs.Ranges.{bytes_in, limit, size_of, value_of, sized};

/// How many bytes a number takes (the size field of Configuration and Thermostat Setpoint).
#[derive(Clone, Copy, Debug, PartialEq, Eq)]
pub enum Size {
    One,
    Two,
    Four,
}

impl Size {
    /// The number of bytes.
    pub fn bytes(self) -> u8
        ensures { result ≡ bytes_in self }
    {
        match self {
            Size::One => 1,
            Size::Two => 2,
            Size::Four => 4,
        }
    }

    /// The number of this size.
    pub fn number(self, value: u32) -> Number
        requires { value < limit self }
        ensures { result ≡ sized self value }
    {
        match self {
            Size::One => Number::One(value as u8),
            Size::Two => Number::Two(value as u16),
            Size::Four => Number::Four(value),
        }
    }
}

/// A number with its size; its sign, where it has one, is for the user of the number to know.
#[derive(Clone, Copy, Debug, PartialEq, Eq)]
pub enum Number {
    One(u8),
    Two(u16),
    Four(u32),
}

impl Number {
    /// How many bytes it takes.
    pub fn size(self) -> Size
        ensures { result ≡ size_of self }
    {
        match self {
            Number::One(_) => Size::One,
            Number::Two(_) => Size::Two,
            Number::Four(_) => Size::Four,
        }
    }

    /// The unsigned number of its bytes.
    pub fn value(self) -> u32
        ensures value { result ≡ value_of self }
        ensures fits { result < limit (size_of self) }
    {
        match self {
            Number::One(n) => u32::from(n),
            Number::Two(n) => u32::from(n),
            Number::Four(n) => n,
        }
    }
}
