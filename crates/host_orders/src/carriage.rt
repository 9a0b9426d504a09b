//! How a command is carried to its node, which is fixed when it is taken.

use crate::actuator::Actuator;
use encap::Outer;

/// How a command is carried: what a value is for its node, and the outermost wrap of its messages.
#[derive(Clone, Copy, PartialEq, Eq)]
pub struct Carriage {
    pub actuator: Actuator,
    pub outer: Outer,
}

/// What goes on the air for a message.
#[derive(Clone, Copy, PartialEq, Eq)]
pub enum Form {
    /// The message itself, in one frame.
    Plain,
    /// The segments of the message (Transport Service).
    Cut,
    /// The message sealed (Security 0).
    Sealed,
}

impl Carriage {
    ghost use Rattle.std.specs.Prelude.{◌≡◌};
    ghost use Rattle.host_orders.specs.Wrapping.{form_of};

    /// What goes on the air.
    pub fn form(self) -> Form
        ensures { result ≡ form_of self.outer }
    {
        match self.outer {
            Outer::None | Outer::Crc16 => Form::Plain,
            Outer::Transport => Form::Cut,
            Outer::Security => Form::Sealed,
        }
    }
}
