//! What the chip answers to the functions that it answers at once, by bytes that were worked by hand.

use crate::playing::node;
use crate::rows::check_row;
use chip_sim::{Chip, ChipOut};
use serial_frame::{Unit, encode};
use std::alloc::Global;
use std::test::Fail;
use zw_base::{Bytes, List, NoMemory};

/// The bytes of a request, and all that the chip writes then.
const ROWS: &[(&[u8], &[u8])] = &[
    // GetInitData
    (
        b"\x01\x03\x00\x02\xFE",
        b"\x06\x01\x25\x01\x02\x05\x00\x1D\x13\x02\x00\x00\x00\x00\x00\x00\x00\x00\x00\x00\
          \x00\x00\x00\x00\x00\x00\x00\x00\x00\x00\x00\x00\x00\x00\x00\x00\x00\x07\x00\xD7",
    ),
    // GetRoutingInfo
    (
        b"\x01\x07\x00\x80\x0A\x00\x00\x00\x72",
        b"\x06\x01\x20\x01\x80\x02\x00\x00\x00\x00\x00\x00\x00\x00\x00\x00\x00\x00\x00\x00\x00\x00\x00\x00\x00\x00\x00\x00\x00\x00\x00\x00\x00\x00\x5C",
    ),
    // IsFailedNode
    (b"\x01\x04\x00\x62\x0A\x93", b"\x06\x01\x04\x01\x62\x00\x98"),
    // GetVersion
    (
        b"\x01\x03\x00\x15\xE9",
        b"\x06\x01\x10\x01\x15\x5A\x2D\x57\x61\x76\x65\x20\x30\x2E\x30\x30\x00\x01\x96",
    ),
    // MemoryGetId
    (
        b"\x01\x03\x00\x20\xDC",
        b"\x06\x01\x08\x01\x20\x00\x00\x00\x01\x01\xD6",
    ),
    // GetCapabilities
    (
        b"\x01\x03\x00\x07\xFB",
        b"\x06\x01\x2B\x01\x07\x01\x00\x00\x00\x00\x00\x00\x00\x4A\x00\x34\x80\x00\x00\x00\x00\x01\x01\x00\
          \x80\x02\x00\x00\x80\x00\x00\x00\x00\x00\x00\x00\x00\x00\x00\x00\x00\x00\x00\x00\x00\x2F",
    ),
    // GetNodeProtocolInfo, of a node that listens and of one that does not
    (
        b"\x01\x04\x00\x41\x0A\xB0",
        b"\x06\x01\x09\x01\x41\x80\x00\x00\x04\x00\x00\x32",
    ),
    (
        b"\x01\x04\x00\x41\x05\xBF",
        b"\x06\x01\x09\x01\x41\x00\x00\x00\x04\x00\x00\xB2",
    ),
];

/// A chip with nodes 2, 5 and 10, of which 5 does not listen, and the links 1 to 2 and 2 to 10.
fn network(alloc: Global) -> Result<Chip, Fail> {
    let mut chip = Chip::new(alloc)?;
    chip.join(node(2)?, true);
    chip.join(node(5)?, false);
    chip.join(node(10)?, true);
    chip.set_link(node(1)?, node(2)?, true);
    chip.set_link(node(2)?, node(10)?, true);
    Ok(chip)
}

fn feed(chip: &mut Chip, piece: &[u8], out: &mut List<ChipOut>) -> Result<(), NoMemory> {
    chip.feed(piece, out)
}

/// Puts the bytes of a unit after those of others.
fn put(alloc: Global, bytes: &mut Bytes, unit: &Unit) -> Result<(), NoMemory> {
    bytes.extend(encode(alloc, unit)?.as_slice())
}

/// The bytes of all units that are put out. None where something else is.
fn written(alloc: Global, outs: &[ChipOut]) -> Option<Bytes> {
    let mut bytes = Bytes::new(alloc);
    for out in outs {
        match out {
            ChipOut::Write(unit) => put(alloc, &mut bytes, unit).ok()?,
            _ => return None,
        }
    }
    Some(bytes)
}

/// Whether just these bytes are put out.
fn are_written(alloc: Global, outs: &[ChipOut], want: &[u8]) -> bool {
    match written(alloc, outs) {
        Some(bytes) => bytes.as_slice() == want,
        None => false,
    }
}

/// Whether the chip answers a request so. Its answer is acknowledged.
fn is_so(alloc: Global, chip: &mut Chip, fed: &[u8], want: &[u8]) -> bool {
    let mut out = List::new(alloc);
    feed(chip, fed, &mut out).is_ok()
        && are_written(alloc, out.as_slice(), want)
        && feed(chip, &[0x06], &mut out).is_ok()
}

#[test]
fn functions_are_answered(rt: HostRuntime) -> Result<(), Fail> {
    let mut chip = network(rt.alloc())?;
    for (row, (fed, want)) in ROWS.iter().enumerate() {
        check_row(&rt, is_so(rt.alloc(), &mut chip, fed, want), row);
    }
    Ok(())
}
