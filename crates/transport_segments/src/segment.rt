//! The fields of one segment.

ghost use Rattle.std.specs.Prelude.{◌≡◌, ◌+◌, ◌<◌, ◌↔◌, length, IsTrue, IsSome, IfSome, IfOk, IfErr};
ghost use Rattle.std.specs.Option.{SomeIff};
ghost use Rattle.transport_segments.specs.Segment.{IsSegment, id_of, size_of, offset_of, payload_of, check_of, covered_of};
ghost use Rattle.transport_segments.specs.Faults.{IsSound, IsFaultOf};

use crate::SegmentFault;
use zw_base::crc_ccitt;

/// The class of Transport Service.
pub const TRANSPORT: u8 = 0x55;

/// The most bytes of a datagram.
pub const MAX_DATAGRAM: u16 = 512;

/// The bytes of the check at the end.
const CHECK_LEN: usize = 2;

/// A First or Subsequent Segment, taken apart.
#[derive(Clone, Copy)]
pub struct Segment<'a> {
    pub id: u8,
    pub size: u16,
    pub offset: u16,
    pub payload: &'a [u8],
}

/// Whether the bytes are a First or Subsequent Segment with a payload.
fn is_segment(bytes: &[u8]) -> bool
    ensures { IsTrue result ↔ IsSegment bytes.now }
{
    if bytes.len() < 7 || bytes[0] != TRANSPORT {
        return false;
    }
    match bytes[1] {
        0xC0..=0xC7 => true,
        0xE0..=0xE7 => bytes.len() >= 8,
        _ => false,
    }
}

/// The number of bytes of the datagram.
fn size(bytes: &[u8]) -> u16
    requires { IsSegment bytes.now }
    ensures { result ≡ size_of bytes.now }
{
    u16::from(bytes[1] % 8) * 256 + u16::from(bytes[2])
}

/// The place of the payload's first byte in the datagram.
fn offset(bytes: &[u8]) -> u16
    requires { IsSegment bytes.now }
    ensures { result ≡ offset_of bytes.now }
{
    if bytes[1] < 0xE0 {
        0
    } else {
        u16::from(bytes[3] % 8) * 256 + u16::from(bytes[4])
    }
}

/// The payload.
fn payload(bytes: &[u8]) -> &[u8]
    requires { IsSegment bytes.now }
    ensures { result.now ≡ payload_of bytes.now }
{
    let header = if bytes[1] < 0xE0 { 4 } else { 5 };
    &covered(bytes)[header..]
}

/// What the check covers.
fn covered(bytes: &[u8]) -> &[u8]
    requires { IsSegment bytes.now }
    ensures { result.now ≡ covered_of bytes.now }
{
    &bytes[..bytes.len() - CHECK_LEN]
}

/// The check that the segment carries.
fn check(bytes: &[u8]) -> u16
    requires { IsSegment bytes.now }
    ensures { result ≡ check_of bytes.now }
{
    u16::from(bytes[bytes.len() - 2]) * 256 + u16::from(bytes[bytes.len() - 1])
}

/// The session of a First or Subsequent Segment, 0 to 15; None for other bytes.
pub fn segment_id(bytes: &[u8]) -> Option<u8>
    ensures { SomeIff result (IsSegment bytes.now) (id_of bytes.now) }
{
    if is_segment(bytes) {
        Some(bytes[3] / 16)
    } else {
        None
    }
}

/// Whether a First or Subsequent Segment carries the last byte of its datagram; None for other bytes.
pub fn ends_datagram(bytes: &[u8]) -> Option<bool>
    ensures some { IsSome result ↔ IsSegment bytes.now }
    ensures ends { IfSome result (λ ends. IsTrue ends ↔ (offset_of bytes.now + length (payload_of bytes.now) ≡ size_of bytes.now)) }
{
    if is_segment(bytes) {
        Some(usize::from(offset(bytes)) + payload(bytes).len() == usize::from(size(bytes)))
    } else {
        None
    }
}

/// The segment in these bytes, or the first thing that is wrong with them.
pub fn judge(bytes: &[u8]) -> Result<Segment<'_>, SegmentFault>
    ensures sound { IfOk result (λ segment. IsSound bytes.now) }
    ensures id { IfOk result (λ segment. segment.id ≡ id_of bytes.now) }
    ensures size { IfOk result (λ segment. segment.size ≡ size_of bytes.now) }
    ensures offset { IfOk result (λ segment. segment.offset ≡ offset_of bytes.now) }
    ensures payload { IfOk result (λ segment. segment.payload.now ≡ payload_of bytes.now) }
    ensures fault { IfErr result (λ fault. IsFaultOf bytes.now fault) }
{
    if !is_segment(bytes) {
        return Err(SegmentFault::Short);
    }
    let want = crc_ccitt(covered(bytes));
    let got = check(bytes);
    if want != got {
        return Err(SegmentFault::BadCrc { want, got });
    }
    if bytes[3] / 8 % 2 == 1 {
        return Err(SegmentFault::Extension);
    }
    let size = size(bytes);
    if size == 0 || size > MAX_DATAGRAM {
        return Err(SegmentFault::BadSize(size));
    }
    let offset = offset(bytes);
    let payload = payload(bytes);
    if usize::from(offset) + payload.len() > usize::from(size) {
        return Err(SegmentFault::BadOffset(offset));
    }
    Ok(Segment {
        id: bytes[3] / 16,
        size,
        offset,
        payload,
    })
}
