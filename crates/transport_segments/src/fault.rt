//! Why a segment is not taken.

use thiserror::Error;
use zw_base::NoMemory;

/// Why a segment is not taken. The first that applies, in this order: Short, BadCrc, Extension, BadSize, BadOffset;
/// an allocation failure comes after them.
#[derive(Clone, Copy, Debug, PartialEq, Eq, Error)]
pub enum SegmentFault {
    /// Its check is `got`, and the check of what it carries is `want`.
    #[error("badcrc")]
    BadCrc { want: u16, got: u16 },
    /// Its datagram would have that many bytes, 0 or more than 512.
    #[error("badsize")]
    BadSize(u16),
    /// From that offset its payload passes the end of the datagram.
    #[error("badoffset")]
    BadOffset(u16),
    /// It announces a header extension.
    #[error("extension")]
    Extension,
    /// The bytes are no First or Subsequent Segment.
    #[error("short")]
    Short,
    /// There was no memory for the datagram.
    #[error("nomemory")]
    NoMemory,
}

impl From<NoMemory> for SegmentFault {
    ghost use Rattle.std.specs.Prelude.{◌≡◌};
    ghost use Rattle.transport_segments.specs.declared.fault.SegmentFault.TheVariants.{NoMemory as no_memory};

    ghost from_gives = { λ _ e. e ≡ no_memory };

    fn from(_error: NoMemory) -> SegmentFault {
        SegmentFault::NoMemory
    }
}
