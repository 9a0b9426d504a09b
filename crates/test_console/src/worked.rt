//! A command over memory, and what is written where reading or writing fails.

use crate::rows::check_row;
use device_sim::{Device, make_switch};
use host_keep::{Keeper, PlainKeeper};
use run_all::{ChaChaDraw, run_command};
use run_lines::Status;
use std::alloc::Global;
use std::io;
use std::io::Write;
use zw_base::{Bytes, MemorySink, MemorySource, NoMemory, Sink, Source, StdSink, read_node};

const KEY: [u8; 16] = [7; 16];

/// A switch is switched on.
pub(crate) const SWITCHES_ON: &str = "set 2 on\ntick 2\n";

/// The lines that the sink is given of it.
const SWITCHED_ON: [&str; 25] = [
    "> set 2 on\n",
    "accepted 1 node 2\n",
    "begin 2 1 1\n",
    "h 010E001302076C0101032501FF250177\n",
    "c 06\n",
    "c 0104011301E8\n",
    "air 1 1>2 via - 6C0101032501FF\n",
    "h 06\n",
    "> tick 2\n",
    "t 1\n",
    "heard 1\n",
    "dev 2 1 0/switch 255\n",
    "air 2 2>1 via - 6C0201FF00\n",
    "c 010500130100E8\n",
    "h 06\n",
    "t 2\n",
    "heard 2\n",
    "c 010B00040002056C0201FF0067\n",
    "h 06\n",
    "out 1 success\n",
    "store 2 0/switch 255\n",
    "end 2\n",
    "node 2 sessions 1\n",
    "value 2 0/switch confirmed 255 heard -\n",
    "device 2 0/switch 255\n",
];

/// The lines that answer the first line of the input.
const ANSWERED: usize = 8;

/// The lines before the final table.
const EVENTS: usize = 21;

/// So many of the lines, one after the other.
fn lines_of(alloc: Global, count: usize) -> Result<Bytes, NoMemory> {
    let mut text = Bytes::new(alloc);
    for line in SWITCHED_ON.iter().take(count) {
        text.extend(line.as_bytes())?;
    }
    Ok(text)
}

/// The call of `run_command`, whose contract is large, stands alone: what comes after it does not carry it along.
fn run_words<S: Source, K: Sink, P: Keeper>(
    alloc: Global,
    words: &[String],
    source: &mut S,
    sink: &mut K,
    devices: &mut Vec<Box<dyn Device>>,
    draw: &mut ChaChaDraw,
    keeper: &mut P,
) -> Status {
    run_command(alloc, words, source, sink, devices, KEY, draw, keeper)
}

/// The words, with a bar between each two.
fn words_of(alloc: Global, words: &str) -> Result<Vec<String>, NoMemory> {
    let mut list = Vec::new(alloc);
    for word in words.split('|') {
        list.push(String::from_str(alloc, word)?)?;
    }
    Ok(list)
}

/// The switch of node 2.
pub(crate) fn switch(alloc: Global) -> Result<Vec<Box<dyn Device>>, NoMemory> {
    let mut devices: Vec<Box<dyn Device>> = Vec::new(alloc);
    if let Some(node) = read_node(2) {
        devices.push(Box::new(alloc, make_switch(alloc, node, KEY)?)?)?;
    }
    Ok(devices)
}

/// Runs the command of these words, with a bar between each two, over these devices and this keeper.
pub(crate) fn ended_over<S: Source, K: Sink, P: Keeper>(
    alloc: Global,
    words: &str,
    source: &mut S,
    sink: &mut K,
    devices: &mut Vec<Box<dyn Device>>,
    keeper: &mut P,
) -> Result<Status, NoMemory> {
    let list = words_of(alloc, words)?;
    let mut draw = ChaChaDraw::new([0; 32]);
    Ok(run_words(
        alloc,
        list.as_slice(),
        source,
        sink,
        devices,
        &mut draw,
        keeper,
    ))
}

/// Runs it over the switch of node 2, and a keeper without records.
fn ended<S: Source, K: Sink>(
    alloc: Global,
    words: &str,
    source: &mut S,
    sink: &mut K,
) -> Result<Status, NoMemory> {
    let mut devices = switch(alloc)?;
    ended_over(
        alloc,
        words,
        source,
        sink,
        &mut devices,
        &mut PlainKeeper::new(alloc),
    )
}

/// Runs it over memory, where this read and this write fail, counted from 1 and 0 for none: how it ended, and what was written.
pub(crate) fn outcome(
    alloc: Global,
    words: &str,
    input: &[u8],
    read: u64,
    write: u64,
) -> Result<(Status, Bytes), NoMemory> {
    let mut source = MemorySource::new(alloc, input, &[read])?;
    let mut sink = MemorySink::new(alloc, &[write])?;
    let status = ended(alloc, words, &mut source, &mut sink)?;
    Ok((status, Bytes::from_slice(alloc, sink.bytes())?))
}

/// The read and the write that fail, how it ends, and how many of the lines are written. The answer to each line of the input is one write, and
/// so are the final tables.
const FAULTS: &[(u64, u64, Status, usize)] = &[
    (0, 0, Status::Ok, 25),
    (1, 0, Status::ReadFault, 0),
    (2, 0, Status::ReadFault, EVENTS),
    (0, 1, Status::WriteFault, 0),
    (0, 2, Status::WriteFault, ANSWERED),
    (0, 3, Status::WriteFault, EVENTS),
    (0, 4, Status::Ok, 25),
];

/// Whether it ends so where that read and that write fail, with just so many of the lines written.
fn ends_after(alloc: Global, row: &(u64, u64, Status, usize)) -> bool {
    let (read, write, want, count) = row;
    let ended = outcome(alloc, "sim", SWITCHES_ON.as_bytes(), *read, *write);
    match (ended, lines_of(alloc, *count)) {
        (Ok((status, written)), Ok(text)) => {
            status == *want && written.as_slice() == text.as_slice()
        }
        _ => false,
    }
}

#[test]
fn reads_and_writes_fail(rt: HostRuntime) {
    for (at, row) in FAULTS.iter().enumerate() {
        check_row(&rt, ends_after(rt.alloc(), row), at);
    }
}

/// A writer that takes one byte at a time, and none at the call of that number, counted from 1.
#[derive(Drop)]
struct Slow<'a> {
    taken: &'a mut Bytes,
    calls: u64,
    empty: u64,
}

impl<'a> Write for Slow<'a> {
    fn write(&mut self, buf: &[u8]) -> io::Result<usize> {
        self.calls = self.calls.saturating_add(1);
        if self.calls == self.empty {
            return Ok(0);
        }
        match buf.first() {
            Some(byte) if self.taken.push(*byte).is_ok() => Ok(1),
            _ => Ok(0),
        }
    }

    fn flush(&mut self) -> io::Result<()> {
        Ok(())
    }
}

/// How the first scenario ends over a sink that takes a byte a call, and none at the call of that number; and what it took.
fn slow_outcome(alloc: Global, empty: u64) -> Result<(Status, Bytes), NoMemory> {
    let mut taken = Bytes::new(alloc);
    let mut source = MemorySource::new(alloc, SWITCHES_ON.as_bytes(), &[])?;
    let mut sink = StdSink::new(Slow {
        taken: &mut taken,
        calls: 0,
        empty,
    });
    let status = ended(alloc, "sim", &mut source, &mut sink)?;
    Ok((status, taken))
}

/// The call at which a sink takes no more, how it ends, and how many bytes are taken.
const TAKEN: &[(u64, Status, usize)] = &[(12, Status::WriteFault, 11), (0, Status::Ok, 389)];

/// Whether it ends so over such a sink, with just so many bytes of the lines taken.
fn takes(alloc: Global, row: &(u64, Status, usize)) -> bool {
    let (empty, want, count) = row;
    match (slow_outcome(alloc, *empty), lines_of(alloc, 25)) {
        (Ok((status, taken)), Ok(whole)) => {
            status == *want && Some(taken.as_slice()) == whole.as_slice().get(..*count)
        }
        _ => false,
    }
}

#[test]
fn a_sink_takes_a_byte_at_a_time(rt: HostRuntime) {
    for (at, row) in TAKEN.iter().enumerate() {
        check_row(&rt, takes(rt.alloc(), row), at);
    }
}

#[test]
fn chacha_draws_the_published_stream(rt: HostRuntime) {
    let mut draw = ChaChaDraw::new([0; 32]);
    assert!(rt; draw.draw() == [0x76, 0xB8, 0xE0, 0xAD, 0xA0, 0xF1, 0x3D, 0x90]);
    assert!(rt; draw.draw() == [0x40, 0x5D, 0x6A, 0xE5, 0x53, 0x86, 0xBD, 0x28]);
}
