//! What a stream of bytes is made of: good units and refusals.

use crate::Unit;

/// Why bytes are no unit, in the order in which the faults are found.
#[derive(Clone, Copy, Debug, PartialEq, Eq)]
pub enum Refusal {
    /// Outside a frame, a byte that begins nothing.
    Stray(u8),
    /// A length byte below 3.
    BadLength(u8),
    /// A frame whose checksum `got` is not the right one, `want`.
    BadSum { want: u8, got: u8 },
    /// A frame with the right checksum and another type than 0x00 and 0x01.
    BadKind(u8),
    /// A frame that was not whole at the fifteenth tick after its first byte.
    Aborted,
}

/// One item of a stream.
#[derive(Debug, Drop)]
pub enum Item {
    Good(Unit),
    Refused(Refusal),
}
