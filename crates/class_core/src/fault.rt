//! Why bytes are no message.

ghost use Rattle.std.specs.Prelude.{◌≡◌};
ghost use Rattle.class_core.specs.declared.fault.ClassFault.TheVariants as faults;

use std::alloc::{AllocError, AllocFailed};
use thiserror::Error;
use zw_base::NoMemory;

/// What is wrong with the bytes of a message: the first field at fault from the left. Offsets and counts are in
/// bytes from the class byte, which has offset 0.
#[derive(Clone, Copy, Debug, PartialEq, Eq, Error)]
pub enum ClassFault {
    /// There are no bytes.
    #[error("empty")]
    Empty,
    /// No row has this class.
    #[error("unknownclass")]
    UnknownClass(u8),
    /// The class has no row with this command: the class, then the command.
    #[error("unknowncommand")]
    UnknownCommand(u8, u8),
    /// A field is not whole: this many bytes are needed up to its end.
    #[error("short")]
    Short(u16),
    /// The field at this offset has a value that its row does not have.
    #[error("badvalue")]
    BadValue(u16),
    /// There was no memory.
    #[error("nomemory")]
    NoMemory,
}

impl From<NoMemory> for ClassFault {
    ghost from_gives = { λ _ fault. fault ≡ faults.NoMemory };

    fn from(_none: NoMemory) -> ClassFault {
        ClassFault::NoMemory
    }
}

impl From<AllocError> for ClassFault {
    ghost from_gives = { λ _ fault. fault ≡ faults.NoMemory };

    fn from(_error: AllocError) -> ClassFault {
        ClassFault::NoMemory
    }
}

impl<T: Drop> From<AllocFailed<T>> for ClassFault {
    ghost from_gives = { λ _ fault. fault ≡ faults.NoMemory };

    fn from(_failed: AllocFailed<T>) -> ClassFault {
        ClassFault::NoMemory
    }
}
