//! `sim`: a scenario, line by line.

ghost use Rattle.std.specs.Prelude.{◌≡◌, ◌<◌, ◌≤◌, ◌^◌, length, map, ℕ};
ghost use Rattle.zw_base.specs.Faults.{Rose};
ghost use Rattle.zw_text.specs.Line.{line_at};
ghost use Rattle.run_lines.specs.Complete.{HasGoodInput, IsDone};
ghost use Rattle.run_lines.specs.Run.{ClosesWell, HasRun};
ghost use Rattle.run_lines.specs.Lines.{fault_by};
ghost use Rattle.run_sim.specs.Sim.{point_of, SimRan, SimRuns, SimStops, IsTable};
ghost use Rattle.host_keep.specs.Keeping.{Shelf};

use crate::running::run_lines;
use crate::simulation::Simulation;
use device_sim::Device;
use host_keep::Keeper;
use run_lines::{Answer, LinesEnd, Status, end_badly, write_pieces};
use std::alloc::Global;
use zw_base::{Draw, List, Sink, Source};
use zw_world::World;

/// Runs the lines of a source, from a world at its beginning, and writes what they do. A quiet run leaves units and frames out.
/// `key` is the network key of the host; `keeper` holds the host's records.
pub fn run_sim<S: Source, K: Sink, D: Draw, P: Keeper>(
    alloc: Global,
    quiet: bool,
    key: [u8; 16],
    source: &mut S,
    sink: &mut K,
    devices: &mut Vec<Box<dyn Device>>,
    draw: &mut D,
    keeper: &mut P,
) -> Status
    requires { length devices.old.items < 2 ^ 64 }
    ensures ran { SimRan result quiet key (S.left source.old) (S.left source.new) (map (λ d. state d) devices.old.items)
        (map (λ d. state d) devices.new.items) (P.shelf keeper.old) (P.shelf keeper.new)
        (P.number keeper.old) (P.number keeper.new) (P.reads keeper.old) (P.reads keeper.new) (K.written sink.old) (K.written sink.new) }
    ensures few { length devices.new.items < 2 ^ 64 }
    ensures source_never_falls { S.faults source.old ≤ S.faults source.new }
    ensures sink_never_falls { K.faults sink.old ≤ K.faults sink.new }
    ensures read_fault { result ≡ Status.ReadFault → Rose (S.faults source.old) (S.faults source.new) }
    ensures write_fault { result ≡ Status.WriteFault → Rose (K.faults sink.old) (K.faults sink.new) }
    ensures complete { HasGoodInput (fault_by line_at) (S.left source.old) → (Rose (S.faults source.old) (S.faults source.new) → ⊥)
        → (Rose (K.faults sink.old) (K.faults sink.new) → ⊥) → IsDone result }
{
    let Ok(world) = World::new(alloc, key) else {
        return Status::NoMemory;
    };
    let mut simulation = Simulation {
        alloc,
        quiet,
        world,
        entries: List::new(alloc),
    };
    run_to_status(source, sink, &mut simulation, devices, draw, keeper)
}

/// Runs the lines of a source, up to the first that is invalid, and writes the last lines.
fn run_to_status<S: Source, K: Sink, D: Draw, P: Keeper>(
    source: &mut S,
    sink: &mut K,
    simulation: &mut Simulation,
    devices: &mut Vec<Box<dyn Device>>,
    draw: &mut D,
    keeper: &mut P,
) -> Status
    requires few { length devices.old.items < 2 ^ 64 }
    ensures ran { HasRun result (fault_by line_at) (SimRuns simulation.old.quiet) (SimStops simulation.old.quiet) IsTable
        (S.left source.old) (S.left source.new)
        (point_of simulation.old.world (map (λ d. state d) devices.old.items) (P.shelf keeper.old)
        (P.number keeper.old) (P.reads keeper.old))
        (point_of simulation.new.world (map (λ d. state d) devices.new.items) (P.shelf keeper.new)
        (P.number keeper.new) (P.reads keeper.new))
        (K.written sink.old) (K.written sink.new) }
    ensures kept { length devices.new.items ≡ length devices.old.items }
    ensures source_never_falls { S.faults source.old ≤ S.faults source.new }
    ensures sink_never_falls { K.faults sink.old ≤ K.faults sink.new }
    ensures read_fault { result ≡ Status.ReadFault → Rose (S.faults source.old) (S.faults source.new) }
    ensures write_fault { result ≡ Status.WriteFault → Rose (K.faults sink.old) (K.faults sink.new) }
{
    match run_lines(source, sink, simulation, devices, draw, keeper) {
        LinesEnd::All => end_well(sink, simulation, devices),
        LinesEnd::Bad { line, fault } => end_badly(simulation.alloc, sink, line, fault),
        LinesEnd::ReadFailed => Status::ReadFault,
        LinesEnd::TooMuch => Status::InputTooLong,
        LinesEnd::WriteFailed => Status::WriteFault,
        LinesEnd::NoMemory => Status::NoMemory,
    }
}

/// Writes the final table.
fn end_well<K: Sink>(
    sink: &mut K,
    simulation: &Simulation,
    devices: &Vec<Box<dyn Device>>,
) -> Status
    requires few { length devices.now.items < 2 ^ 64 }
    ensures closes { (shelf : Shelf) (number reads : ℕ) → ClosesWell IsTable result
        (point_of simulation.now.world (map (λ d. state d) devices.now.items) shelf number reads) (K.written sink.old) (K.written sink.new) }
    ensures never_falls { K.faults sink.old ≤ K.faults sink.new }
    ensures failed { result ≡ Status.WriteFault → Rose (K.faults sink.old) (K.faults sink.new) }
    ensures no_read { result ≡ Status.ReadFault → ⊥ }
{
    let mut pieces = Answer::new(simulation.alloc);
    if simulation.add_table(devices, &mut pieces).is_err() {
        return Status::NoMemory;
    }
    match write_pieces(sink, &pieces) {
        Ok(()) => Status::Ok,
        Err(_) => Status::WriteFault,
    }
}
