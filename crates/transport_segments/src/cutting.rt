//! The segments of a datagram.

ghost use Rattle.std.specs.Prelude.{◌≡◌, ◌+◌, ◌*◌, ◌<◌, ◌≤◌, length, IfOk};
ghost use Rattle.transport_segments.specs.Segment.{segment_header, segment_text};
ghost use Rattle.transport_segments.specs.Parts.{Parts, slice_at};

use crate::segment::TRANSPORT;
use std::alloc::Global;
use zw_base::{Bytes, List, NoMemory, crc_ccitt};

/// The bytes of payload of each segment but the last (this project's own rule).
pub const SEGMENT_LEN: usize = 39;

/// The command of a First Segment whose size is below 256.
const FIRST: u8 = 0xC0;

/// The command of a Subsequent Segment whose size is below 256.
const SUBSEQUENT: u8 = 0xE0;

/// The segments of a datagram of 1 to 512 bytes, in order. The id is 0 to 15.
pub fn cut(alloc: Global, id: u8, datagram: &[u8]) -> Result<List<Bytes>, NoMemory>
    requires id { id ≤ 15 }
    requires from_one { 1 ≤ length datagram.now }
    requires to_most { length datagram.now ≤ 512 }
    ensures { IfOk result (λ segments. Parts datagram.now id segments.items) }
{
    let size = datagram.len() as u16;
    let mut segments = List::new(alloc);
    for k in 0..datagram.len().div_ceil(SEGMENT_LEN) {
        let offset = (SEGMENT_LEN * k) as u16;
        segments.push(segment(alloc, id, size, offset, slice(datagram, k))?)?;
    }
    Ok(segments)
}

/// What the k-th segment carries.
fn slice(datagram: &[u8], k: usize) -> &[u8]
    requires { 39 * k < length datagram.now }
    ensures { result.now ≡ slice_at datagram.now k }
{
    let rest = &datagram[SEGMENT_LEN * k..];
    if rest.len() < SEGMENT_LEN {
        rest
    } else {
        &rest[..SEGMENT_LEN]
    }
}

/// One segment.
fn segment(alloc: Global, id: u8, size: u16, offset: u16, payload: &[u8]) -> Result<Bytes, NoMemory>
    requires id { id ≤ 15 }
    requires size { size ≤ 512 }
    requires offset { offset ≤ 512 }
    ensures { IfOk result (λ text. text ≡ segment_text id size offset payload.now) }
{
    let mut text = header(alloc, id, size, offset, payload)?;
    let check = crc_ccitt(text.as_slice());
    text.push((check / 256) as u8)?;
    text.push((check % 256) as u8)?;
    Ok(text)
}

/// Its header and its payload.
fn header(alloc: Global, id: u8, size: u16, offset: u16, payload: &[u8]) -> Result<Bytes, NoMemory>
    requires id { id ≤ 15 }
    requires size { size ≤ 512 }
    requires offset { offset ≤ 512 }
    ensures { IfOk result (λ text. text ≡ segment_header id size offset payload.now) }
{
    let size_high = (size / 256) as u8;
    let size_low = (size % 256) as u8;
    if offset == 0 {
        Bytes::joined(
            alloc,
            &[TRANSPORT, FIRST + size_high, size_low, id * 16],
            payload,
        )
    } else {
        let tag = id * 16 + (offset / 256) as u8;
        let offset_low = (offset % 256) as u8;
        Bytes::joined(
            alloc,
            &[TRANSPORT, SUBSEQUENT + size_high, size_low, tag, offset_low],
            payload,
        )
    }
}
