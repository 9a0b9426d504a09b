//! Why a message does not open.

use thiserror::Error;

/// Why a message does not open, the first that holds.
#[derive(Clone, Copy, Debug, PartialEq, Eq, Error)]
pub enum SealFault {
    /// It has fewer than 20 bytes, so there is no sequence byte.
    #[error("short")]
    Short,
    /// Its code is not the one that it should have.
    #[error("badcode")]
    BadCode { want: [u8; 8], got: [u8; 8] },
    /// Its sequence byte is not 0.
    #[error("sequence")]
    Sequence(u8),
    /// There was no memory for the plain text.
    #[error("nomemory")]
    NoMemory,
}
