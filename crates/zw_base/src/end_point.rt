//! End points of a node (Multi Channel Command Class: 0 is the node itself, 1 to 127 its end points).

ghost use Rattle.std.specs.Prelude.{◌≡◌, ℕ, ◌≤◌};
ghost use Rattle.std.specs.Option.{SomeIff};

use std::marker::Model;

/// The greatest end point.
pub const MAX_END: u8 = 127;

/// An end point, 0 to 127. Contracts see its number.
#[derive(Clone, Copy, Debug, PartialEq, Eq, PartialOrd, Ord)]
pub struct EndPoint {
    number: u8,
}

impl Model for EndPoint {
    ghost Value = { ℕ };

    ghost view = { λ e. e.number };

    ghost invariant = { λ e. e.number ≤ 127 };

    ghost inverse = { λ n. record { number = n } };
}

/// The end point with that number, where there is one.
pub fn read_end(n: u8) -> Option<EndPoint>
    ensures { SomeIff result (n ≤ 127) n }
{
    if n <= MAX_END {
        Some(EndPoint { number: n })
    } else {
        None
    }
}

impl EndPoint {
    /// End point 0, the node itself.
    pub fn root() -> EndPoint
        ensures { result ≡ 0 }
    {
        EndPoint { number: 0 }
    }

    pub fn number(self) -> u8
        ensures value { result ≡ self }
        ensures to_max { result ≤ 127 }
    {
        self.number
    }
}
