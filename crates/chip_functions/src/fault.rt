//! Why bytes are no body.

use thiserror::Error;
use zw_base::NoMemory;

/// What is wrong with a body: the first fault from the left. Places count the bytes of the body from 0.
#[derive(Clone, Copy, Debug, PartialEq, Eq, Error)]
pub enum BodyFault {
    /// The function of that number has no body in this direction.
    #[error("unknownfunction")]
    UnknownFunction(u8),
    /// A field passes the end: the body needs this many bytes up to the end of that field, and has got fewer.
    #[error("short")]
    Short { need: u16, got: u16 },
    /// The field that begins at this place has a value outside its row, or a request goes on after its last field.
    #[error("badfield")]
    BadField(u16),
    #[error("nomemory")]
    NoMemory,
}

impl From<NoMemory> for BodyFault {
    ghost use Rattle.std.specs.Prelude.{◌≡◌};
    ghost use Rattle.chip_functions.specs.declared.fault.BodyFault.TheVariants.{NoMemory as OutOfMemory};

    ghost from_gives = { λ _ fault. fault ≡ OutOfMemory };

    fn from(_error: NoMemory) -> BodyFault {
        BodyFault::NoMemory
    }
}
