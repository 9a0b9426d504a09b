//! Sealed messages of an independent implementation (OpenSSL, by Python's `cryptography`), and the texts of faults.

use crate::rows::check_row;
use s0_crypto::{Keys, SealEnds, SealFault, keys, seal, unseal};
use std::alloc::Global;
use zw_base::{Bytes, NoMemory, read_node};

/// The network key, the nonces and the plain text of the tables.
const NETWORK: [u8; 16] = [
    0x00, 0x01, 0x02, 0x03, 0x04, 0x05, 0x06, 0x07, 0x08, 0x09, 0x0A, 0x0B, 0x0C, 0x0D, 0x0E, 0x0F,
];

const SENDER: [u8; 8] = [0xA0, 0xA1, 0xA2, 0xA3, 0xA4, 0xA5, 0xA6, 0xA7];

const RECEIVER: [u8; 8] = [0x01, 0x11, 0x22, 0x33, 0x44, 0x55, 0x66, 0x77];

const PLAIN: [u8; 26] = [
    0xA1, 0x16, 0xC9, 0xED, 0x46, 0xD6, 0x20, 0x77, 0x34, 0xA4, 0x33, 0x17, 0xD3, 0x0F, 0xD8, 0x8F,
    0x52, 0xAC, 0x86, 0x34, 0xC3, 0x7D, 0x90, 0x4B, 0xBF, 0x4E,
];

/// The sender, the receiver, how many bytes of the plain text are sealed, and the message. With 11 bytes the blocks that
/// the code covers are full and with 12 one more begins; with 15 a block of the key stream is used up and with 16 the next.
static SEALED: [(u8, u8, usize, &[u8]); 7] = [
    (
        1,
        4,
        0,
        b"\x98\x81\xA0\xA1\xA2\xA3\xA4\xA5\xA6\xA7\x4D\x01\x39\xAE\x25\x1E\x52\x1E\x93\xD2",
    ),
    (
        1,
        4,
        7,
        b"\x98\x81\xA0\xA1\xA2\xA3\xA4\xA5\xA6\xA7\x4D\x7B\x00\xE4\x99\x48\x47\xBF\x01\x73\x41\xCD\xB6\xA7\xB0\x16\xB7",
    ),
    (
        4,
        1,
        11,
        b"\x98\x81\xA0\xA1\xA2\xA3\xA4\xA5\xA6\xA7\x4D\x7B\x00\xE4\x99\x48\x47\xBF\x26\xB2\x07\xC9\x01\x88\x71\xA1\x82\x09\xAF\xDB\x12",
    ),
    (
        4,
        1,
        12,
        b"\x98\x81\xA0\xA1\xA2\xA3\xA4\xA5\xA6\xA7\x4D\x7B\x00\xE4\x99\x48\x47\xBF\x26\xB2\x07\xC9\xF8\x01\x51\x5A\x3F\x8E\x24\x6C\x9E\xD5",
    ),
    (
        1,
        4,
        15,
        b"\x98\x81\xA0\xA1\xA2\xA3\xA4\xA5\xA6\xA7\x4D\x7B\x00\xE4\x99\x48\x47\xBF\x26\xB2\x07\xC9\xF8\xF6\xAC\x4B\x01\x3F\x65\xDC\x6B\xFB\xE1\xBA\x16",
    ),
    (
        1,
        4,
        16,
        b"\x98\x81\xA0\xA1\xA2\xA3\xA4\xA5\xA6\xA7\x4D\x7B\x00\xE4\x99\x48\x47\xBF\x26\xB2\x07\xC9\xF8\xF6\xAC\x4B\xF2\x01\x30\xB6\xD8\x82\x58\x13\x88\x18",
    ),
    (
        1,
        4,
        26,
        b"\x98\x81\xA0\xA1\xA2\xA3\xA4\xA5\xA6\xA7\x4D\x7B\x00\xE4\x99\x48\x47\xBF\x26\xB2\x07\xC9\xF8\xF6\xAC\x4B\
          \xF2\x5E\xB4\x06\xD3\x3D\x40\xAC\x84\xE7\x09\x01\x4F\xFE\x60\xBB\xCF\x1C\x12\xF4",
    ),
];

/// What a message of the tables gives when it is opened. None where it is no message that may be opened.
fn open(
    alloc: Global,
    keys: &Keys,
    ends: &SealEnds,
    message: &[u8],
) -> Option<Result<Bytes, SealFault>> {
    if message.len() >= 20 {
        if message[0] != 0x98 || message[1] != 0x81 {
            return None;
        }
        if message[message.len() - 9] != RECEIVER[0] {
            return None;
        }
    }
    Some(unseal(alloc, keys, RECEIVER, ends, message))
}

/// Whether so many bytes of the plain text are sealed as the message.
fn is_sealed(
    alloc: Global,
    keys: &Keys,
    ends: &SealEnds,
    len: usize,
    message: &[u8],
) -> Result<bool, NoMemory> {
    if len > PLAIN.len() {
        return Ok(false);
    }
    let bytes = seal(alloc, keys, SENDER, RECEIVER, ends, &PLAIN[..len])?;
    Ok(bytes.as_slice() == message)
}

/// Whether the message opens as so many bytes of the plain text.
fn is_opened(alloc: Global, keys: &Keys, ends: &SealEnds, len: usize, message: &[u8]) -> bool {
    match open(alloc, keys, ends, message) {
        Some(Ok(plain)) => plain.len() == len && PLAIN.starts_with(plain.as_slice()),
        _ => false,
    }
}

fn ends(sender: u8, receiver: u8) -> Option<SealEnds> {
    Some(SealEnds {
        sender: read_node(sender)?,
        receiver: read_node(receiver)?,
    })
}

/// Whether a row is so, both ways.
fn is_so(alloc: Global, keys: &Keys, row: &(u8, u8, usize, &[u8])) -> bool {
    let &(sender, receiver, len, message) = row;
    match ends(sender, receiver) {
        Some(ends) => {
            is_sealed(alloc, keys, &ends, len, message) == Ok(true)
                && is_opened(alloc, keys, &ends, len, message)
        }
        None => false,
    }
}

#[test]
fn sealed_messages(rt: HostRuntime) {
    let keys = keys(NETWORK);
    for (at, row) in SEALED.iter().enumerate() {
        check_row(&rt, is_so(rt.alloc(), &keys, row), at);
    }
}

const NAMES: &[(SealFault, &str)] = &[
    (SealFault::Short, "short"),
    (
        SealFault::BadCode {
            want: [1; 8],
            got: [2; 8],
        },
        "badcode",
    ),
    (SealFault::Sequence(1), "sequence"),
    (SealFault::NoMemory, "nomemory"),
];

fn is_named(alloc: Global, fault: SealFault, name: &str) -> bool {
    match format!(in alloc; "{fault}") {
        Ok(text) => text.as_str() == name,
        Err(_) => false,
    }
}

#[test]
fn names_of_faults(rt: HostRuntime) {
    for (row, (fault, name)) in NAMES.iter().enumerate() {
        check_row(&rt, is_named(rt.alloc(), *fault, name), row);
    }
}
