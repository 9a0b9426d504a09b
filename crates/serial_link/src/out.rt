//! What a link puts out, and why it refuses a frame.

ghost use Rattle.serial_link.specs.declared.out.SubmitFault.TheVariants.{NoMemory as OutOfMemory};
ghost use Rattle.std.specs.Prelude.{◌≡◌};

use serial_frame::{Frame, Refusal, Unit};

/// What a link puts out at an event.
#[derive(Debug, Drop)]
pub enum LinkOut {
    /// A unit to write to the other side.
    Write(Unit),
    /// A good frame of the other side, which was acknowledged.
    Got(Frame),
    /// The submitted frame was acknowledged.
    Sent,
    /// The submitted frame was not acknowledged in so many copies, always 4.
    Failed(u8),
    /// Bytes of the other side that are no unit.
    Bad(Refusal),
}

/// Why a frame was not submitted.
#[derive(Clone, Copy, Debug, PartialEq, Eq)]
pub enum SubmitFault {
    /// The frame before it is neither Sent nor Failed.
    Busy,
    NoMemory,
}

impl From<zw_base::NoMemory> for SubmitFault {
    ghost from_gives = { λ _ fault. fault ≡ OutOfMemory };

    fn from(_fault: zw_base::NoMemory) -> SubmitFault {
        SubmitFault::NoMemory
    }
}
