//! Wrapped messages, against bytes that were made outside this project.

use crate::rows::check_row;
use encap::{Ends, Opened, Outer, Plan, Supervised, WrapFault, is_wrappable, unpack, wrap};
use std::alloc::Global;
use zw_base::{Bytes, List, NoMemory, read_end};

/// A plan of a session with its bit for updates, and of the end points of source and target.
fn plan(batch: bool, session: Option<(bool, u8)>, channel: Option<(u8, u8)>, outer: Outer) -> Plan {
    Plan {
        batch,
        session: session.map(|(updates, id)| Supervised { updates, id }),
        channel: channel.and_then(|(source, target)| ends(source, target)),
        outer,
    }
}

fn ends(source: u8, target: u8) -> Option<Ends> {
    match (read_end(source), read_end(target)) {
        (Some(source), Some(target)) => Some(Ends { source, target }),
        _ => None,
    }
}

fn list(alloc: Global, texts: &[&[u8]]) -> Result<List<Bytes>, NoMemory> {
    let mut commands = List::new(alloc);
    for text in texts {
        commands.push(Bytes::from_slice(alloc, text)?)?;
    }
    Ok(commands)
}

/// What `wrap` makes of these commands. None where they are not wrappable, or without memory.
fn wrapped(alloc: Global, plan: &Plan, texts: &[&[u8]]) -> Option<Result<Bytes, WrapFault>> {
    wrapped_list(alloc, plan, &list(alloc, texts).ok()?)
}

/// What `wrap` makes of a list. None where it is not wrappable.
fn wrapped_list(
    alloc: Global,
    plan: &Plan,
    commands: &List<Bytes>,
) -> Option<Result<Bytes, WrapFault>> {
    if is_wrappable(plan, commands) {
        Some(wrap(alloc, plan, commands))
    } else {
        None
    }
}

/// Whether the plan and the commands are written as the bytes.
fn is_written(alloc: Global, plan: &Plan, texts: &[&[u8]], bytes: &[u8]) -> bool {
    match wrapped(alloc, plan, texts) {
        Some(Ok(got)) => got.as_slice() == bytes,
        _ => false,
    }
}

/// Switch Binary Set.
const ON: &[u8] = b"\x25\x01\xFF";

/// Thermostat Mode Set, and Thermostat Setpoint Set.
const COMFORT: &[&[u8]] = &[b"\x40\x01\x01", b"\x43\x01\x01\x22\x00\xD7"];

/// A message: whether it is a batch, its session, its end points, its outermost wrap, its commands, and its bytes.
type Row = (
    bool,
    Option<(bool, u8)>,
    Option<(u8, u8)>,
    Outer,
    &'static [&'static [u8]],
    &'static [u8],
);

/// Messages in order, among them those of a switch, an end point, a thermostat and a plain relay, and two reports.
static IN_ORDER: [Row; 12] = [
    (false, None, None, Outer::None, &[ON], ON),
    (
        false,
        Some((false, 1)),
        None,
        Outer::None,
        &[ON],
        b"\x6C\x01\x01\x03\x25\x01\xFF",
    ),
    (
        false,
        Some((false, 1)),
        Some((0, 3)),
        Outer::None,
        &[ON],
        b"\x60\x0D\x00\x03\x6C\x01\x01\x03\x25\x01\xFF",
    ),
    (
        false,
        Some((false, 2)),
        Some((0, 9)),
        Outer::None,
        &[ON],
        b"\x60\x0D\x00\x09\x6C\x01\x02\x03\x25\x01\xFF",
    ),
    (
        false,
        None,
        Some((3, 0)),
        Outer::None,
        &[b"\x6C\x02\x01\xFF\x00"],
        b"\x60\x0D\x03\x00\x6C\x02\x01\xFF\x00",
    ),
    (
        false,
        None,
        Some((9, 0)),
        Outer::None,
        &[b"\x6C\x02\x02\x00\x00"],
        b"\x60\x0D\x09\x00\x6C\x02\x02\x00\x00",
    ),
    (
        false,
        None,
        None,
        Outer::Crc16,
        &[ON],
        b"\x56\x01\x25\x01\xFF\x1F\x3A",
    ),
    (
        true,
        Some((false, 1)),
        None,
        Outer::None,
        COMFORT,
        b"\x6C\x01\x01\x0E\x8F\x01\x02\x03\x40\x01\x01\x06\x43\x01\x01\x22\x00\xD7",
    ),
    (
        true,
        Some((true, 1)),
        Some((0, 3)),
        Outer::Crc16,
        COMFORT,
        b"\x56\x01\x60\x0D\x00\x03\x6C\x01\x81\x0E\x8F\x01\x02\x03\x40\x01\x01\x06\x43\x01\x01\x22\x00\xD7\xEB\x2A",
    ),
    (
        false,
        Some((false, 1)),
        None,
        Outer::None,
        &[b"\x70\x04\x07\x04\x00\x00\x05\xDC"],
        b"\x6C\x01\x01\x08\x70\x04\x07\x04\x00\x00\x05\xDC",
    ),
    (
        false,
        None,
        None,
        Outer::None,
        &[b"\x6C\x02\x01\xFF\x00"],
        b"\x6C\x02\x01\xFF\x00",
    ),
    (
        false,
        None,
        None,
        Outer::None,
        &[b"\x98\x81\x00"],
        b"\x98\x81\x00",
    ),
];

/// What is opened. None where there are too many bytes.
fn open(alloc: Global, bytes: &[u8]) -> Option<Result<Opened, WrapFault>> {
    if bytes.len() > 65534 {
        return None;
    }
    Some(unpack(alloc, bytes))
}

/// Whether the bytes are opened as the plan and the commands.
fn is_opened(alloc: Global, plan: &Plan, texts: &[&[u8]], bytes: &[u8]) -> bool {
    match open(alloc, bytes) {
        Some(Ok(opened)) => opened.plan == *plan && are(opened.commands.as_slice(), texts),
        _ => false,
    }
}

fn are(commands: &[Bytes], texts: &[&[u8]]) -> bool {
    commands.len() == texts.len()
        && commands
            .iter()
            .zip(texts)
            .all(|(command, text)| command.as_slice() == *text)
}

/// Whether the plan and the commands of a row are written as the bytes, and these opened as them.
fn goes_both_ways(alloc: Global, row: &Row) -> bool {
    let (batch, session, channel, outer, texts, bytes) = row;
    let plan = plan(*batch, *session, *channel, *outer);
    is_written(alloc, &plan, texts, bytes) && is_opened(alloc, &plan, texts, bytes)
}

#[test]
fn writes_and_opens_what_is_in_order(rt: HostRuntime) {
    for (at, row) in IN_ORDER.iter().enumerate() {
        check_row(&rt, goes_both_ways(rt.alloc(), row), at);
    }
}

const NAMES: &[(WrapFault, &str)] = &[
    (WrapFault::OutOfOrder(0x60), "outoforder"),
    (WrapFault::Length { said: 1, got: 0 }, "length"),
    (WrapFault::BadCrc { want: 1, got: 2 }, "badcrc"),
    (WrapFault::TooLong(256), "toolong"),
    (WrapFault::BitAddress, "bitaddress"),
    (WrapFault::NoMemory, "nomemory"),
];

fn is_named(alloc: Global, fault: WrapFault, name: &str) -> bool {
    match format!(in alloc; "{fault}") {
        Ok(text) => text.as_str() == name,
        Err(_) => false,
    }
}

#[test]
fn names_of_faults(rt: HostRuntime) {
    for (row, (fault, name)) in NAMES.iter().enumerate() {
        check_row(&rt, is_named(rt.alloc(), *fault, name), row);
    }
}
