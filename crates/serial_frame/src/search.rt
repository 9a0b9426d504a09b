//! The next item in bytes: each byte is judged once, by the running sum and its place in the frame.

ghost use Rattle.std.specs.Prelude.{◌≡◌, ◌≢◌, [], ◌∷◌, ◌++◌, ◌+◌, ◌<◌, ◌≤◌, IfOk, length, slice_index};
ghost use Rattle.serial_frame.specs.Frame.{kind_code, xor_all, checksum, framed};
ghost use Rattle.serial_frame.specs.Items.{IsCounted, ItemText};
ghost use Rattle.serial_frame.specs.Stream.{IsUnfinished};
ghost use Rattle.serial_frame.specs.Search.{running_sum, Finds};

use crate::unit::{SUM_START, xor_all};
use crate::{ACK, CAN, Frame, Item, Kind, NAK, Refusal, SOF, Unit};
use std::alloc::Global;
use zw_base::{Bytes, NoMemory};

/// The least length byte of a frame, which counts itself, type and function.
const MIN_SIZE: u8 = 3;

/// Type and function, before the body.
const HEAD: usize = 2;

/// What is found next in the bytes.
#[derive(Drop)]
pub(crate) enum Found<'a> {
    /// An item, and the bytes after it.
    Whole { item: Item, rest: &'a [u8] },
    /// One unfinished frame, or nothing, with its running sum.
    Part { sum: u8 },
}

/// What is found in a piece, after the bytes that are held of an unfinished frame.
pub(crate) fn find<'a>(
    alloc: Global,
    held: &[u8],
    sum: u8,
    piece: &'a [u8],
) -> Result<Found<'a>, NoMemory>
    requires unfinished { IsUnfinished held.now }
    requires sum { sum ≡ running_sum held.now }
    ensures { IfOk result (Finds held.now piece.now) }
{
    match held {
        [] => find_first(alloc, piece),
        [_] => find_length(alloc, piece),
        [_, size, counted @ ..] => find_end(alloc, *size, counted, sum, piece),
    }
}

/// What is found where no frame is unfinished.
pub(crate) fn find_first<'a>(alloc: Global, piece: &'a [u8]) -> Result<Found<'a>, NoMemory>
    ensures { IfOk result (Finds [] piece.now) }
{
    match piece {
        [] => Ok(Found::Part { sum: SUM_START }),
        [SOF, rest @ ..] => find_length(alloc, rest),
        [first, rest @ ..] => Ok(Found::Whole {
            item: single(*first),
            rest,
        }),
    }
}

/// The item of a byte that begins no frame.
fn single(byte: u8) -> Item
    requires { byte ≢ 1 }
    ensures { ItemText result (byte ∷ []) }
{
    match byte {
        ACK => Item::Good(Unit::Ack),
        NAK => Item::Good(Unit::Nak),
        CAN => Item::Good(Unit::Can),
        _ => Item::Refused(Refusal::Stray(byte)),
    }
}

/// What is found after SOF.
fn find_length<'a>(alloc: Global, piece: &'a [u8]) -> Result<Found<'a>, NoMemory>
    ensures { IfOk result (Finds (1 ∷ []) piece.now) }
{
    match piece {
        [] => Ok(Found::Part { sum: SUM_START }),
        [size, rest @ ..] if *size < MIN_SIZE => Ok(Found::Whole {
            item: Item::Refused(Refusal::BadLength(*size)),
            rest,
        }),
        [size, rest @ ..] => find_end(alloc, *size, &[], SUM_START ^ *size, rest),
    }
}

/// What is found after SOF, the length and the bytes counted so far.
fn find_end<'a>(
    alloc: Global,
    size: u8,
    counted: &[u8],
    sum: u8,
    piece: &'a [u8],
) -> Result<Found<'a>, NoMemory>
    requires long { 3 ≤ size }
    requires unfinished { length counted.now < size }
    requires sum { sum ≡ xor_all 255 (size ∷ counted.now) }
    ensures { IfOk result (Finds (1 ∷ size ∷ counted.now) piece.now) }
{
    let missing = size as usize - counted.len();
    if piece.len() < missing {
        return Ok(Found::Part {
            sum: xor_all(sum, piece),
        });
    }
    let last = &piece[..missing - 1];
    let item = judge(alloc, counted, last, xor_all(sum, last), piece[missing - 1])?;
    Ok(Found::Whole {
        item,
        rest: &piece[missing..],
    })
}

/// The item of a whole frame, whose bytes from the type to the body come in two parts.
fn judge(alloc: Global, counted: &[u8], last: &[u8], want: u8, got: u8) -> Result<Item, NoMemory>
    requires counted { IsCounted (counted.now ++ last.now) }
    requires sum { want ≡ checksum (counted.now ++ last.now) }
    ensures { IfOk result (λ item. ItemText item (framed (counted.now ++ last.now) got)) }
{
    if got != want {
        return Ok(Item::Refused(Refusal::BadSum { want, got }));
    }
    match byte_at(counted, last, 0) {
        0 => good(alloc, Kind::Request, counted, last),
        1 => good(alloc, Kind::Response, counted, last),
        other => Ok(Item::Refused(Refusal::BadKind(other))),
    }
}

/// The byte at a place in two parts.
fn byte_at(prefix: &[u8], back: &[u8], i: usize) -> u8
    requires { i < length prefix.now + length back.now }
    ensures { result ≡ slice_index (prefix.now ++ back.now) i }
{
    if i < prefix.len() {
        prefix[i]
    } else {
        back[i - prefix.len()]
    }
}

/// The good frame of these bytes from the type to the body.
fn good(alloc: Global, kind: Kind, counted: &[u8], last: &[u8]) -> Result<Item, NoMemory>
    requires counted { IsCounted (counted.now ++ last.now) }
    requires kind { slice_index (counted.now ++ last.now) 0 ≡ kind_code kind }
    ensures { IfOk result (λ item. ItemText item (framed (counted.now ++ last.now) (checksum (counted.now ++ last.now)))) }
{
    let skipped = counted.len().min(HEAD);
    let mut body = Bytes::from_slice(alloc, &counted[skipped..])?;
    body.extend(&last[HEAD - skipped..])?;
    Ok(Item::Good(Unit::Framed(Frame {
        kind,
        func: byte_at(counted, last, 1),
        body,
    })))
}
