//! Why a message is not wrapped or not opened.

use thiserror::Error;
use zw_base::NoMemory;

/// Why a message is not wrapped or not opened.
#[derive(Clone, Copy, Debug, PartialEq, Eq, Error)]
pub enum WrapFault {
    /// An encapsulation of that class stands inside one that must be inside it or beside it, or inside its own kind.
    #[error("outoforder")]
    OutOfOrder(u8),
    /// A length is `said`, and `got` bytes are there.
    #[error("length")]
    Length { said: u16, got: u16 },
    /// The check is `got`, and that of the bytes before it is `want`.
    #[error("badcrc")]
    BadCrc { want: u16, got: u16 },
    /// That many bytes do not fit a length byte.
    #[error("toolong")]
    TooLong(u16),
    /// The target is a set of end points.
    #[error("bitaddress")]
    BitAddress,
    /// There was no memory.
    #[error("nomemory")]
    NoMemory,
}

impl From<NoMemory> for WrapFault {
    ghost use Rattle.std.specs.Prelude.{◌≡◌};
    ghost use Rattle.encap.specs.declared.fault.WrapFault.TheVariants.{NoMemory as no_memory};

    ghost from_gives = { λ _ e. e ≡ no_memory };

    fn from(_error: NoMemory) -> WrapFault {
        WrapFault::NoMemory
    }
}
