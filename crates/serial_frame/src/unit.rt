//! Units (Serial API: ACK, NAK, CAN and data frames), and how they are written.

ghost use Rattle.std.specs.Prelude.{◌≡◌, ◌+◌, ◌≤◌, [], ◌∷◌, ◌++◌, IfOk, length, take};
ghost use Rattle.serial_frame.specs.Frame.{kind_code, xor_all, checksum, framed};
ghost use Rattle.serial_frame.specs.Items.{counted_of, unit_text};
ghost use Rattle.serial_frame.specs.Stream.{Reads};

use crate::{Frame, Item, Kind};
use std::alloc::Global;
use zw_base::{Bytes, NoMemory};

/// The byte that begins a data frame.
pub const SOF: u8 = 0x01;
/// The byte that acknowledges a data frame.
pub const ACK: u8 = 0x06;
/// The byte that refuses a data frame.
pub const NAK: u8 = 0x15;
/// The byte that says that a data frame was dropped.
pub const CAN: u8 = 0x18;

/// What a checksum begins with.
pub(crate) const SUM_START: u8 = 0xff;

/// The longest data frame: SOF, the length, type, function, a body of 252 bytes and the checksum.
const MAX_FRAME: usize = 257;

/// What one side writes at a time.
#[derive(Debug, Drop)]
pub enum Unit {
    Ack,
    Nak,
    Can,
    Framed(Frame),
}

fn kind_code(kind: Kind) -> u8
    ensures { result ≡ kind_code kind }
{
    match kind {
        Kind::Request => 0,
        Kind::Response => 1,
    }
}

/// The checksum, carried on over these bytes.
pub(crate) fn xor_all(start: u8, bytes: &[u8]) -> u8
    ensures { result ≡ xor_all start bytes.now }
{
    let mut sum = start;
    for byte in bytes {
        sum ^= *byte;
    }
    sum
}

/// The bytes of a unit on the line.
pub fn encode(alloc: Global, unit: &Unit) -> Result<Bytes, NoMemory>
    ensures text { IfOk result (λ bytes. bytes ≡ unit_text unit.now) }
    ensures reads { IfOk result (λ bytes. Reads bytes (Item.Good unit.now ∷ []) []) }
{
    match unit {
        Unit::Ack => Bytes::from_slice(alloc, &[ACK]),
        Unit::Nak => Bytes::from_slice(alloc, &[NAK]),
        Unit::Can => Bytes::from_slice(alloc, &[CAN]),
        Unit::Framed(frame) => encode_frame(alloc, frame),
    }
}

fn encode_frame(alloc: Global, frame: &Frame) -> Result<Bytes, NoMemory>
    ensures text { IfOk result (λ bytes. bytes ≡ framed (counted_of frame.now) (checksum (counted_of frame.now))) }
    ensures fits { length frame.now.body ≤ 252 }
{
    let body = frame.body.as_slice();
    let head = [SOF, body.len() as u8 + 3, kind_code(frame.kind), frame.func];
    let sum = xor_all(xor_all(SUM_START, &head[1..]), body);
    let mut text = [0; MAX_FRAME];
    put_at(&mut text, 0, &head);
    put_at(&mut text, 4, body);
    put_at(&mut text, 4 + body.len(), &[sum]);
    Bytes::from_slice(alloc, &text[..body.len() + 5])
}

/// Writes these bytes at a place.
pub(crate) fn put_at(text: &mut [u8], at: usize, bytes: &[u8])
    requires { at + length bytes.now ≤ length text.old }
    ensures { take (at + length bytes.now) text.new ≡ take at text.old ++ bytes.now }
{
    text[at..at + bytes.len()].copy_from_slice(bytes);
}
