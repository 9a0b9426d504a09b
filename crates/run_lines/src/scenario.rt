//! A run from its first line to its status.

ghost use Rattle.std.specs.Prelude.{◌≡◌, ◌≤◌, IfOk};
ghost use Rattle.zw_base.specs.Faults.{Rose};
ghost use Rattle.run_lines.specs.Complete.{HasGoodInput, IsDone};
ghost use Rattle.run_lines.specs.Machine.{borrowed};
ghost use Rattle.run_lines.specs.Run.{HasRun, ClosesWell, ClosesBadly, bad_line_text};

use crate::running::{LinesEnd, run_lines};
use crate::writing::{write_piece, write_pieces};
use crate::{Answer, Machine, Status};
use std::alloc::Global;
use zw_base::{Bytes, NoMemory, Sink, Source};
use zw_print::print_entry;
use zw_text::Entry;
use zw_words::LineFault;

/// Runs the lines of a source, up to the first that is invalid, and writes what the machine answers and the last lines.
pub fn run_scenario<A, B, M: Machine<A, B>, S: Source, K: Sink>(
    alloc: Global,
    source: &mut S,
    sink: &mut K,
    machine: &mut M,
    first: &mut A,
    second: &mut B,
) -> Status
    ensures ran { HasRun result M.refuses M.runs M.stops M.ends (S.left source.old) (S.left source.new)
        (borrowed machine.old first.old second.old) (borrowed machine.new first.new second.new) (K.written sink.old) (K.written sink.new) }
    ensures source_never_falls { S.faults source.old ≤ S.faults source.new }
    ensures sink_never_falls { K.faults sink.old ≤ K.faults sink.new }
    ensures read_fault { result ≡ Status.ReadFault → Rose (S.faults source.old) (S.faults source.new) }
    ensures write_fault { result ≡ Status.WriteFault → Rose (K.faults sink.old) (K.faults sink.new) }
    ensures complete { HasGoodInput M.refuses (S.left source.old) → (Rose (S.faults source.old) (S.faults source.new) → ⊥)
        → (Rose (K.faults sink.old) (K.faults sink.new) → ⊥) → IsDone result }
{
    run_to_status(alloc, source, sink, machine, first, second)
}

/// The same, as its statuses tell it.
fn run_to_status<A, B, M: Machine<A, B>, S: Source, K: Sink>(
    alloc: Global,
    source: &mut S,
    sink: &mut K,
    machine: &mut M,
    first: &mut A,
    second: &mut B,
) -> Status
    ensures ran { HasRun result M.refuses M.runs M.stops M.ends (S.left source.old) (S.left source.new)
        (borrowed machine.old first.old second.old) (borrowed machine.new first.new second.new) (K.written sink.old) (K.written sink.new) }
    ensures source_never_falls { S.faults source.old ≤ S.faults source.new }
    ensures sink_never_falls { K.faults sink.old ≤ K.faults sink.new }
    ensures read_fault { result ≡ Status.ReadFault → Rose (S.faults source.old) (S.faults source.new) }
    ensures write_fault { result ≡ Status.WriteFault → Rose (K.faults sink.old) (K.faults sink.new) }
{
    match run_lines(alloc, source, sink, machine, first, second) {
        LinesEnd::All => end_well(alloc, sink, machine, first, second),
        LinesEnd::Bad { line, fault } => end_badly(alloc, sink, line, fault),
        LinesEnd::ReadFailed => Status::ReadFault,
        LinesEnd::TooMuch => Status::InputTooLong,
        LinesEnd::WriteFailed => Status::WriteFault,
        LinesEnd::NoMemory => Status::NoMemory,
    }
}

/// Writes the last lines of the machine.
fn end_well<A, B, M: Machine<A, B>, K: Sink>(
    alloc: Global,
    sink: &mut K,
    machine: &M,
    first: &A,
    second: &B,
) -> Status
    ensures closes { ClosesWell M.ends result (borrowed machine.now first.now second.now) (K.written sink.old) (K.written sink.new) }
    ensures never_falls { K.faults sink.old ≤ K.faults sink.new }
    ensures failed { result ≡ Status.WriteFault → Rose (K.faults sink.old) (K.faults sink.new) }
    ensures no_read { result ≡ Status.ReadFault → ⊥ }
{
    let mut pieces = Answer::new(alloc);
    if machine.end(first, second, &mut pieces).is_err() {
        return Status::NoMemory;
    }
    match write_pieces(sink, &pieces) {
        Ok(()) => Status::Ok,
        Err(_) => Status::WriteFault,
    }
}

/// Writes the line that reports an invalid line.
pub fn end_badly<K: Sink>(alloc: Global, sink: &mut K, line: u32, fault: LineFault) -> Status
    ensures closes { ClosesBadly line fault result (K.written sink.old) (K.written sink.new) }
    ensures never_falls { K.faults sink.old ≤ K.faults sink.new }
    ensures failed { result ≡ Status.WriteFault → Rose (K.faults sink.old) (K.faults sink.new) }
    ensures no_read { result ≡ Status.ReadFault → ⊥ }
{
    let Ok(text) = bad_line_text(alloc, line, fault) else {
        return Status::NoMemory;
    };
    match write_piece(sink, text.as_slice()) {
        Ok(()) => Status::BadLine { line, fault },
        Err(_) => Status::WriteFault,
    }
}

/// The line that reports an invalid line, with its line feed.
fn bad_line_text(alloc: Global, line: u32, fault: LineFault) -> Result<Bytes, NoMemory>
    ensures { IfOk result (λ text. text ≡ bad_line_text line fault) }
{
    let mut text = print_entry(alloc, &Entry::BadLine { line, fault })?;
    text.push(b'\n')?;
    Ok(text)
}
