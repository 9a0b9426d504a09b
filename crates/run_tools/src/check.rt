//! `check`: bytes as hex, and the lines that name them.

ghost use Rattle.std.specs.Prelude.{◌≡◌, ◌≤◌};
ghost use Rattle.zw_base.specs.Faults.{Rose};
ghost use Rattle.run_lines.specs.Complete.{IsDone};
ghost use Rattle.run_tools.specs.Check.{HasChecked, HasHex, WritesOf};

use crate::input::{InputFault, read_input};
use run_lines::{Status, write_piece};
use std::alloc::Global;
use unit_report::{CheckFault, check};
use zw_base::{Failed, Sink, Source};
use zw_words::Side;

/// Reads a source to its end as hex text, and writes what its bytes from that side of the line are.
pub fn run_check<S: Source, K: Sink>(
    alloc: Global,
    from: Side,
    source: &mut S,
    sink: &mut K,
) -> Status
    ensures checked { HasChecked result from (S.left source.old) (S.left source.new) (K.written sink.old) (K.written sink.new) }
    ensures source_never_falls { S.faults source.old ≤ S.faults source.new }
    ensures sink_never_falls { K.faults sink.old ≤ K.faults sink.new }
    ensures read_fault { result ≡ Status.ReadFault → Rose (S.faults source.old) (S.faults source.new) }
    ensures write_fault { result ≡ Status.WriteFault → Rose (K.faults sink.old) (K.faults sink.new) }
    ensures complete { HasHex (S.left source.old) → (Rose (S.faults source.old) (S.faults source.new) → ⊥)
        → (Rose (K.faults sink.old) (K.faults sink.new) → ⊥) → IsDone result }
{
    check_source(alloc, from, source, sink)
}

/// The same, as its statuses tell it.
fn check_source<S: Source, K: Sink>(
    alloc: Global,
    from: Side,
    source: &mut S,
    sink: &mut K,
) -> Status
    ensures checked { HasChecked result from (S.left source.old) (S.left source.new) (K.written sink.old) (K.written sink.new) }
    ensures source_never_falls { S.faults source.old ≤ S.faults source.new }
    ensures sink_never_falls { K.faults sink.old ≤ K.faults sink.new }
    ensures read_fault { result ≡ Status.ReadFault → Rose (S.faults source.old) (S.faults source.new) }
    ensures write_fault { result ≡ Status.WriteFault → Rose (K.faults sink.old) (K.faults sink.new) }
{
    match read_input(alloc, source) {
        Ok(input) => check_input(alloc, input.as_slice(), from, sink),
        Err(InputFault::Failed) => Status::ReadFault,
        Err(InputFault::TooLong) => Status::InputTooLong,
        Err(InputFault::NoMemory) => Status::NoMemory,
    }
}

/// Writes what the bytes of a hex text are.
fn check_input<K: Sink>(alloc: Global, input: &[u8], from: Side, sink: &mut K) -> Status
    ensures writes { WritesOf result from input.now (K.written sink.old) (K.written sink.new) }
    ensures never_falls { K.faults sink.old ≤ K.faults sink.new }
    ensures failed { result ≡ Status.WriteFault → Rose (K.faults sink.old) (K.faults sink.new) }
{
    match check(alloc, input, from) {
        Ok(text) => match write_piece(sink, text.as_slice()) {
            Ok(()) => Status::Ok,
            Err(Failed) => Status::WriteFault,
        },
        Err(CheckFault::BadHex(place)) => Status::BadHex(place),
        Err(CheckFault::NoMemory) => Status::NoMemory,
    }
}
