//! Streams with the items that they are, and units with their bytes, worked by hand.

use crate::rows::check_row;
use serial_frame::*;
use std::alloc::Global;
use zw_base::{Bytes, List, NoMemory};

/// An item as a table writes it.
enum Want {
    Ack,
    Nak,
    Can,
    Frame {
        kind: Kind,
        func: u8,
        body: &'static [u8],
    },
    Refused(Refusal),
}

struct Row {
    stream: &'static [u8],
    items: &'static [Want],
    rest: u16,
}

const ROWS: &[Row] = &[
    Row {
        stream: &[0x01, 0x03, 0x00, 0x15, 0xe8],
        items: &[Want::Refused(Refusal::BadSum {
            want: 0xe9,
            got: 0xe8,
        })],
        rest: 0,
    },
    Row {
        stream: &[0x01, 0x03, 0x00, 0x15, 0xe9],
        items: &[Want::Frame {
            kind: Kind::Request,
            func: 0x15,
            body: &[],
        }],
        rest: 0,
    },
    Row {
        stream: &[0x01, 0x02, 0x00],
        items: &[
            Want::Refused(Refusal::BadLength(2)),
            Want::Refused(Refusal::Stray(0)),
        ],
        rest: 0,
    },
    Row {
        stream: &[0x01, 0x03, 0x02, 0x15, 0xeb],
        items: &[Want::Refused(Refusal::BadKind(2))],
        rest: 0,
    },
    Row {
        stream: &[0x06, 0x15, 0x18, 0xff],
        items: &[
            Want::Ack,
            Want::Nak,
            Want::Can,
            Want::Refused(Refusal::Stray(0xff)),
        ],
        rest: 0,
    },
    // a SendData request, its ACK and its response
    Row {
        stream: &[
            0x01, 0x0e, 0x00, 0x13, 0x02, 0x07, 0x6c, 0x01, 0x01, 0x03, 0x25, 0x01, 0xff, 0x25,
            0x01, 0x77, 0x06, 0x01, 0x04, 0x01, 0x13, 0x01, 0xe8,
        ],
        items: &[
            Want::Frame {
                kind: Kind::Request,
                func: 0x13,
                body: &[
                    0x02, 0x07, 0x6c, 0x01, 0x01, 0x03, 0x25, 0x01, 0xff, 0x25, 0x01,
                ],
            },
            Want::Ack,
            Want::Frame {
                kind: Kind::Response,
                func: 0x13,
                body: &[0x01],
            },
        ],
        rest: 0,
    },
    // a refused frame with SOF inside is one item, and what follows it is read again
    Row {
        stream: &[0x01, 0x05, 0x00, 0x01, 0x03, 0x00, 0x00, 0x06],
        items: &[
            Want::Refused(Refusal::BadSum {
                want: 0xf8,
                got: 0x00,
            }),
            Want::Ack,
        ],
        rest: 0,
    },
    Row {
        stream: &[0x06, 0x01, 0x03, 0x00, 0x15],
        items: &[Want::Ack],
        rest: 4,
    },
    Row {
        stream: &[0x01],
        items: &[],
        rest: 1,
    },
    Row {
        stream: &[],
        items: &[],
        rest: 0,
    },
];

fn is_frame(frame: &Frame, kind: Kind, func: u8, body: &[u8]) -> bool {
    frame.kind == kind && frame.func == func && frame.body.as_slice() == body
}

fn is_wanted(item: &Item, want: &Want) -> bool {
    match (item, want) {
        (Item::Good(Unit::Ack), Want::Ack)
        | (Item::Good(Unit::Nak), Want::Nak)
        | (Item::Good(Unit::Can), Want::Can) => true,
        (Item::Good(Unit::Framed(frame)), Want::Frame { kind, func, body }) => {
            is_frame(frame, *kind, *func, body)
        }
        (Item::Refused(refusal), Want::Refused(wanted)) => refusal == wanted,
        _ => false,
    }
}

fn are_wanted(items: &[Item], wants: &[Want]) -> bool {
    items.len() == wants.len()
        && items
            .iter()
            .zip(wants)
            .all(|(item, want)| is_wanted(item, want))
}

fn feed(decoder: &mut Decoder, piece: &[u8], items: &mut List<Item>) -> Result<(), NoMemory> {
    decoder.feed(piece, items)
}

/// Whether the stream of a row has its items.
fn is_so(alloc: Global, row: &Row) -> bool {
    let mut decoder = Decoder::new(alloc);
    let mut items = List::new(alloc);
    feed(&mut decoder, row.stream, &mut items).is_ok()
        && are_wanted(items.as_slice(), row.items)
        && decoder.rest() == row.rest
}

#[test]
fn streams_have_their_items(rt: HostRuntime) {
    for (at, row) in ROWS.iter().enumerate() {
        check_row(&rt, is_so(rt.alloc(), row), at);
    }
}

/// Whether the unit is written so.
fn is_encoded(alloc: Global, unit: &Unit, text: &[u8]) -> bool {
    match encode(alloc, unit) {
        Ok(bytes) => bytes.as_slice() == text,
        Err(_) => false,
    }
}

/// The copy of a response of one byte.
fn copy_of_response(alloc: Global) -> Option<Frame> {
    let frame = Frame {
        kind: Kind::Response,
        func: 0x13,
        body: Bytes::from_slice(alloc, &[0x01]).ok()?,
    };
    frame.copy(alloc).ok()
}

/// Whether that copy is written so.
fn is_frame_encoded(alloc: Global) -> bool {
    match copy_of_response(alloc) {
        Some(copy) => is_encoded(
            alloc,
            &Unit::Framed(copy),
            &[0x01, 0x04, 0x01, 0x13, 0x01, 0xe8],
        ),
        None => false,
    }
}

#[test]
fn units_are_written(rt: HostRuntime) {
    let alloc = rt.alloc();
    assert!(rt; is_encoded(alloc, &Unit::Ack, &[0x06]));
    assert!(rt; is_encoded(alloc, &Unit::Nak, &[0x15]));
    assert!(rt; is_encoded(alloc, &Unit::Can, &[0x18]));
    assert!(rt; is_frame_encoded(alloc));
}
