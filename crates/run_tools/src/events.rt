//! `events`: lines that say what happens at devices and which frames arrive.

ghost use Rattle.std.specs.Prelude.{◌≡◌, ◌≤◌};
ghost use Rattle.zw_base.specs.Faults.{Rose};
ghost use Rattle.run_lines.specs.Complete.{HasGoodInput, IsDone};
ghost use Rattle.run_tools.specs.Events.{EventsRan, event_fault};

use crate::event_machine::EventMachine;
use event_flow::{EventWorld, events_flow};
use run_lines::{Status, run_scenario};
use std::alloc::Global;
use zw_base::{Sink, Source};

/// Runs the lines of a source, from a world in which nothing has happened, and writes what they do.
pub fn run_events<S: Source, K: Sink>(alloc: Global, source: &mut S, sink: &mut K) -> Status
    ensures ran { EventsRan result (S.left source.old) (S.left source.new) (K.written sink.old) (K.written sink.new) }
    ensures source_never_falls { S.faults source.old ≤ S.faults source.new }
    ensures sink_never_falls { K.faults sink.old ≤ K.faults sink.new }
    ensures read_fault { result ≡ Status.ReadFault → Rose (S.faults source.old) (S.faults source.new) }
    ensures write_fault { result ≡ Status.WriteFault → Rose (K.faults sink.old) (K.faults sink.new) }
    ensures complete { HasGoodInput event_fault (S.left source.old) → (Rose (S.faults source.old) (S.faults source.new) → ⊥)
        → (Rose (K.faults sink.old) (K.faults sink.new) → ⊥) → IsDone result }
{
    events_flow();
    let Ok(world) = EventWorld::new(alloc) else {
        return Status::NoMemory;
    };
    let mut machine = EventMachine::new(alloc, world);
    run_scenario(alloc, source, sink, &mut machine, &mut (), &mut ())
}
