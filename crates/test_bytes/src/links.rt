//! Links driven by hand: what is put out, unit by unit.

use crate::rows::check_row;
use serial_frame::{Frame, Kind, Refusal, Unit, encode};
use serial_link::*;
use std::alloc::Global;
use std::test::Fail;
use zw_base::{Bytes, List, NoMemory};

/// What a test expects to be put out.
enum Want {
    Write(&'static [u8]),
    Got(u8),
    Sent,
    Bad(Refusal),
}

/// The request that tests submit, and its bytes.
const REQUEST: [u8; 5] = [0x01, 0x03, 0x00, 0x15, 0xe9];

fn request(alloc: Global) -> Frame {
    Frame {
        kind: Kind::Request,
        func: 0x15,
        body: Bytes::new(alloc),
    }
}

fn writes(alloc: Global, unit: &Unit, text: &[u8]) -> bool {
    match encode(alloc, unit) {
        Ok(bytes) => bytes.as_slice() == text,
        Err(_) => false,
    }
}

fn is_wanted(alloc: Global, out: &LinkOut, want: &Want) -> bool {
    match (out, want) {
        (LinkOut::Write(unit), Want::Write(text)) => writes(alloc, unit, text),
        (LinkOut::Got(frame), Want::Got(func)) => frame.func == *func,
        (LinkOut::Sent, Want::Sent) => true,
        (LinkOut::Bad(refusal), Want::Bad(wanted)) => refusal == wanted,
        _ => false,
    }
}

fn are_wanted(alloc: Global, outs: &[LinkOut], wants: &[Want]) -> bool {
    let mut same = outs.len() == wants.len();
    for (one, want) in outs.iter().zip(wants) {
        same = is_wanted(alloc, one, want) && same;
    }
    same
}

/// Whether that is all that was put out. It is forgotten.
fn was_put_out(alloc: Global, out: &mut List<LinkOut>, wants: &[Want]) -> bool {
    let same = are_wanted(alloc, out.as_slice(), wants);
    out.clear();
    same
}

/// What a test does to a link.
enum Act {
    Submit,
    Feed(&'static [u8]),
    Tick(u8),
}

/// What is done, and what is put out at it.
struct Row {
    act: Act,
    outs: &'static [Want],
}

/// A frame is answered, and one with a changed byte refused; a request goes out, once more after 16 ticks, and is acknowledged.
const ROWS: &[Row] = &[
    Row {
        act: Act::Feed(&REQUEST),
        outs: &[Want::Write(&[0x06]), Want::Got(0x15)],
    },
    Row {
        act: Act::Feed(&[
            0x01, 0x0e, 0x00, 0x13, 0x02, 0x06, 0x6c, 0x01, 0x01, 0x03, 0x25, 0x01, 0xff, 0x25,
            0x01, 0x77,
        ]),
        outs: &[
            Want::Write(&[0x15]),
            Want::Bad(Refusal::BadSum {
                want: 0x76,
                got: 0x77,
            }),
        ],
    },
    Row {
        act: Act::Submit,
        outs: &[Want::Write(&REQUEST)],
    },
    Row {
        act: Act::Tick(16),
        outs: &[Want::Write(&REQUEST)],
    },
    Row {
        act: Act::Feed(&[0x06]),
        outs: &[Want::Sent],
    },
];

fn submit(alloc: Global, link: &mut Link, out: &mut List<LinkOut>) -> Result<(), NoMemory> {
    match link.submit(request(alloc), out) {
        Err(SubmitFault::NoMemory) => Err(NoMemory),
        _ => Ok(()),
    }
}

fn feed(link: &mut Link, out: &mut List<LinkOut>, piece: &[u8]) -> Result<(), NoMemory> {
    link.feed(piece, out)
}

fn tick(link: &mut Link, out: &mut List<LinkOut>, ticks: u8) -> Result<(), NoMemory> {
    for _ in 0..ticks {
        link.tick(out)?;
    }
    Ok(())
}

fn perform(
    alloc: Global,
    link: &mut Link,
    out: &mut List<LinkOut>,
    act: &Act,
) -> Result<(), NoMemory> {
    match act {
        Act::Submit => submit(alloc, link, out),
        Act::Feed(piece) => feed(link, out, piece),
        Act::Tick(ticks) => tick(link, out, *ticks),
    }
}

/// Whether a row is so.
fn is_so(alloc: Global, link: &mut Link, out: &mut List<LinkOut>, row: &Row) -> bool {
    perform(alloc, link, out, &row.act).is_ok() && was_put_out(alloc, out, row.outs)
}

#[test]
fn exchange(rt: HostRuntime) -> Result<(), Fail> {
    let mut out = List::new(rt.alloc());
    let mut link = Link::new(rt.alloc())?;
    for (at, row) in ROWS.iter().enumerate() {
        check_row(&rt, is_so(rt.alloc(), &mut link, &mut out, row), at);
    }
    Ok(())
}
