//! Hex text with white space, which is left out.

ghost use Rattle.std.specs.Prelude.{◌≡◌, IfOk, position};
ghost use Rattle.unit_report.specs.HexText.{is_white, is_foreign, digits_of, ReadsHex};

use hex::FromHexError;
use std::alloc::{AllocError, Global};
use zw_base::NoMemory;

/// Why a text is not checked.
#[derive(Clone, Copy, Debug, PartialEq, Eq)]
pub enum CheckFault {
    /// It is no hex: the place of the first byte that is neither a digit nor white space, or the length of the text where
    /// there is none and the number of digits is odd.
    BadHex(u64),
    /// There was no memory.
    NoMemory,
}

impl From<NoMemory> for CheckFault {
    ghost use Rattle.std.specs.Prelude.{◌≡◌};
    ghost use Rattle.unit_report.specs.declared.hex_text.CheckFault.TheVariants.{NoMemory as no_memory};

    ghost from_gives = { λ _ fault. fault ≡ no_memory };

    fn from(_error: NoMemory) -> CheckFault {
        CheckFault::NoMemory
    }
}

impl From<AllocError> for CheckFault {
    ghost use Rattle.std.specs.Prelude.{◌≡◌};
    ghost use Rattle.unit_report.specs.declared.hex_text.CheckFault.TheVariants.{NoMemory as no_memory};

    ghost from_gives = { λ _ fault. fault ≡ no_memory };

    fn from(_error: AllocError) -> CheckFault {
        CheckFault::NoMemory
    }
}

/// The bytes of a hex text.
pub(crate) fn read_hex(alloc: Global, text: &[u8]) -> Result<Vec<u8>, CheckFault>
    ensures { ReadsHex result text.now }
{
    if let Some(place) = foreign_place(text) {
        return Err(CheckFault::BadHex(place as u64));
    }
    let digits = digits(alloc, text)?;
    match hex::decode(alloc, digits.as_slice()) {
        Ok(bytes) => Ok(bytes),
        Err(FromHexError::OddLength) => Err(CheckFault::BadHex(text.len() as u64)),
        Err(_) => Err(CheckFault::NoMemory),
    }
}

/// The place of the first byte that is neither a digit nor white space.
fn foreign_place(text: &[u8]) -> Option<usize>
    ensures { result ≡ position is_foreign text.now }
{
    text.iter().position(|byte| is_foreign(*byte))
}

/// Whether a byte is neither a digit nor white space.
fn is_foreign(byte: u8) -> bool
    ensures { result ≡ is_foreign byte }
{
    !matches!(byte, b'0'..=b'9' | b'A'..=b'F' | b'a'..=b'f') && !is_white(byte)
}

/// The text without its white space.
fn digits(alloc: Global, text: &[u8]) -> Result<Vec<u8>, AllocError>
    ensures { IfOk result (λ digits. digits.items ≡ digits_of text.now) }
{
    text.iter()
        .copied()
        .filter(|byte| !is_white(*byte))
        .collect(alloc)
}

/// Whether a byte is a space, a tab, a line feed or a carriage return.
fn is_white(byte: u8) -> bool
    ensures { result ≡ is_white byte }
{
    matches!(byte, b' ' | b'\t' | b'\n' | b'\r')
}
