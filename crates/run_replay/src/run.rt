//! `replay`: a host that lines and foreign bytes drive.

ghost use Rattle.std.specs.Prelude.{◌≡◌, ◌≤◌};
ghost use Rattle.zw_base.specs.Faults.{Rose};
ghost use Rattle.zw_text.specs.Line.{replay_at};
ghost use Rattle.run_lines.specs.Complete.{HasGoodInput, IsDone};
ghost use Rattle.run_lines.specs.Lines.{fault_by};
ghost use Rattle.run_replay.specs.Replay.{ReplayRan};

use crate::machine::ReplayMachine;
use crate::replay::Replay;
use host_keep::Keeper;
use run_lines::{Status, run_scenario};
use std::alloc::Global;
use zw_base::{Draw, Sink, Source};

/// Runs the lines of a source on a host at its beginning, and writes what it does. `key` is the network key of the host; `keeper` holds
/// its records.
pub fn run_replay<S: Source, K: Sink, D: Draw, P: Keeper>(
    alloc: Global,
    key: [u8; 16],
    source: &mut S,
    sink: &mut K,
    draw: &mut D,
    keeper: &mut P,
) -> Status
    ensures ran { ReplayRan result key (S.left source.old) (S.left source.new) (P.shelf keeper.old) (P.shelf keeper.new)
        (K.written sink.old) (K.written sink.new) }
    ensures source_never_falls { S.faults source.old ≤ S.faults source.new }
    ensures sink_never_falls { K.faults sink.old ≤ K.faults sink.new }
    ensures read_fault { result ≡ Status.ReadFault → Rose (S.faults source.old) (S.faults source.new) }
    ensures write_fault { result ≡ Status.WriteFault → Rose (K.faults sink.old) (K.faults sink.new) }
    ensures complete { HasGoodInput (fault_by replay_at) (S.left source.old) → (Rose (S.faults source.old) (S.faults source.new) → ⊥)
        → (Rose (K.faults sink.old) (K.faults sink.new) → ⊥) → IsDone result }
{
    let Ok(replay) = Replay::new(alloc, key) else {
        return Status::NoMemory;
    };
    let mut machine = ReplayMachine::new(alloc, replay);
    run_scenario(alloc, source, sink, &mut machine, draw, keeper)
}
