//! `include`: lines that add nodes, lose and repeat frames, and let time pass.

ghost use Rattle.std.specs.Prelude.{◌≡◌, ◌≤◌, [], length, IfOk};
ghost use Rattle.zw_base.specs.Faults.{Rose};
ghost use Rattle.include_world.specs.World.{first_world};
ghost use Rattle.include_world.specs.Added.{Reached};
ghost use Rattle.run_lines.specs.Complete.{HasGoodInput, IsDone};
ghost use Rattle.include_text.specs.Line.{line_at};
ghost use Rattle.run_lines.specs.Lines.{fault_by};
ghost use Rattle.run_include.specs.Run.{IncludeRan};

use crate::machine::IncludeMachine;
use include_world::{IncludeWorld, what_is_said_is_so};
use run_lines::{Status, run_scenario};
use std::alloc::Global;
use zw_base::{Draw, NoMemory, Sink, Source};

/// Runs the lines of a source, from a world in which nothing has happened, and writes what they do. `key` is the network key that
/// the host gives.
pub fn run_include<S: Source, K: Sink, D: Draw>(
    alloc: Global,
    key: [u8; 16],
    source: &mut S,
    sink: &mut K,
    draw: &mut D,
) -> Status
    ensures ran { IncludeRan result key (S.left source.old) (S.left source.new) (K.written sink.old) (K.written sink.new) }
    ensures source_never_falls { S.faults source.old ≤ S.faults source.new }
    ensures sink_never_falls { K.faults sink.old ≤ K.faults sink.new }
    ensures read_fault { result ≡ Status.ReadFault → Rose (S.faults source.old) (S.faults source.new) }
    ensures write_fault { result ≡ Status.WriteFault → Rose (K.faults sink.old) (K.faults sink.new) }
    ensures complete { HasGoodInput (fault_by line_at) (S.left source.old) → (Rose (S.faults source.old) (S.faults source.new) → ⊥)
        → (Rose (K.faults sink.old) (K.faults sink.new) → ⊥) → IsDone result }
{
    what_is_said_is_so();
    let Ok(world) = start(alloc, key) else {
        return Status::NoMemory;
    };
    let mut machine = IncludeMachine::new(alloc, world);
    run_scenario(alloc, source, sink, &mut machine, draw, &mut ())
}

/// The world in which nothing has happened.
fn start(alloc: Global, key: [u8; 16]) -> Result<IncludeWorld, NoMemory>
    ensures first { IfOk result (λ world. world ≡ first_world key) }
    ensures reached { IfOk result (λ world. Reached key [] world) }
    ensures sixteen { length key ≡ 16 }
{
    IncludeWorld::new(alloc, key)
}
