//! The segments of a datagram, against an implementation outside this project.

use crate::rows::check_row;
use std::alloc::Global;
use std::test::Fail;
use transport_segments::{Assembler, SegmentFault, Taken, cut};
use zw_base::{Bytes, List};

/// A Supervision Get with a Configuration Bulk Set of 200 parameters.
fn bulk_set() -> [u8; 210] {
    let mut datagram = [1; 210];
    datagram[..10].copy_from_slice(&[0x6C, 0x01, 0x01, 0xCE, 0x70, 0x07, 0x00, 0x00, 0xC8, 0x01]);
    datagram
}

/// How each segment of it begins, and its check.
const PARTS: &[(&[u8], u16)] = &[
    (
        &[
            0x55, 0xC0, 0xD2, 0x10, 0x6C, 0x01, 0x01, 0xCE, 0x70, 0x07, 0x00, 0x00, 0xC8, 0x01,
        ],
        0xD0BB,
    ),
    (&[0x55, 0xE0, 0xD2, 0x10, 0x27, 0x01], 0x49BB),
    (&[0x55, 0xE0, 0xD2, 0x10, 0x4E, 0x01], 0x9BFC),
    (&[0x55, 0xE0, 0xD2, 0x10, 0x75, 0x01], 0xA164),
    (&[0x55, 0xE0, 0xD2, 0x10, 0x9C, 0x01], 0x2F53),
    (&[0x55, 0xE0, 0xD2, 0x10, 0xC3, 0x01], 0x48A8),
];

/// The segments of a datagram.
fn segments(alloc: Global, id: u8, datagram: &[u8]) -> Result<List<Bytes>, Fail> {
    if id > 15 || datagram.is_empty() || datagram.len() > 512 {
        return Err("no datagram".into());
    }
    Ok(cut(alloc, id, datagram)?)
}

/// Whether a segment is so.
fn is_part(text: &[u8], prefix: &[u8], check: u16) -> bool {
    text.starts_with(prefix) && text.ends_with(&check.to_be_bytes())
}

/// Whether the segments are so.
fn are_parts(segments: &[Bytes]) -> bool {
    let mut same = segments.len() == PARTS.len();
    for (segment, (prefix, check)) in segments.iter().zip(PARTS) {
        same = is_part(segment.as_slice(), prefix, *check) && same;
    }
    same
}

/// Takes a segment, and gives the datagram that is whole with it.
fn take(assembler: &mut Assembler, segment: &[u8]) -> Option<Bytes> {
    match assembler.take(segment) {
        Ok(Taken::Whole(whole)) => Some(whole),
        _ => None,
    }
}

/// The datagram that is whole with the last of these segments.
fn joined(alloc: Global, segments: &[Bytes]) -> Option<Bytes> {
    let mut assembler = Assembler::new(alloc).ok()?;
    let mut whole = None;
    for segment in segments {
        whole = take(&mut assembler, segment.as_slice());
    }
    whole
}

/// Whether the segments are joined to the datagram.
fn are_joined(alloc: Global, segments: &[Bytes], datagram: &[u8]) -> bool {
    match joined(alloc, segments) {
        Some(whole) => whole.as_slice() == datagram,
        None => false,
    }
}

#[test]
fn a_bulk_set_is_cut_and_joined(rt: HostRuntime) -> Result<(), Fail> {
    let datagram = bulk_set();
    let segments = segments(rt.alloc(), 1, &datagram)?;
    assert!(rt; are_parts(segments.as_slice()));
    assert!(rt; are_joined(rt.alloc(), segments.as_slice(), &datagram));
    Ok(())
}

const NAMES: &[(SegmentFault, &str)] = &[
    (SegmentFault::BadCrc { want: 1, got: 2 }, "badcrc"),
    (SegmentFault::BadSize(513), "badsize"),
    (SegmentFault::BadOffset(40), "badoffset"),
    (SegmentFault::Extension, "extension"),
    (SegmentFault::Short, "short"),
    (SegmentFault::NoMemory, "nomemory"),
];

fn is_named(alloc: Global, fault: SegmentFault, name: &str) -> bool {
    match format!(in alloc; "{fault}") {
        Ok(text) => text.as_str() == name,
        Err(_) => false,
    }
}

#[test]
fn faults_have_names(rt: HostRuntime) {
    for (row, (fault, name)) in NAMES.iter().enumerate() {
        check_row(&rt, is_named(rt.alloc(), *fault, name), row);
    }
}
